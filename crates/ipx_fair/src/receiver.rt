//! A receiver.
ghost use Rattle.std.specs.Prelude.{◌≡◌, ◌<◌, ◌&&◌, if◌then◌else◌, Some, None, length};
ghost use Rattle.ipx_fair.specs.Numbers.{can_be};
ghost use Rattle.ipx_fair.specs.States.{State, empty};
ghost use Rattle.ipx_fair.specs.Serving.{Passed};
ghost use Rattle.ipx_fair.specs.Hearing.{hears_from, queue_of, after, Said};

use crate::hearing::{has_room, put, says};
use crate::serving::pass;
use crate::setting::Setting;
use crate::tally::Tally;
use std::marker::Model;

/// A receiver to whom `N` speakers speak, at most 65,536. Nothing waits: a packet is heard at once or not at all.
///
/// ```
/// let setting = Setting {
///     one: 1_000_000,
///     own: 2_000_000,
///     reserve: 4_000_000,
///     room: 6_000_000,
/// };
/// let Some(mut receiver) = Receiver::<8>::new(setting) else {
///     return Ok(());
/// };
/// let (player, flood) = (0, 1);
/// let first = receiver.says(flood, 3_000_000);
/// let second = receiver.says(flood, 3_000_000);
/// let quiet = receiver.says(player, 1_000_000);
/// println!(rt; "the flood is heard: {first}, then {second}; the player: {quiet}")?;
/// receiver.pass(2_000_000);
/// println!(rt; "{} ns of the flood wait", receiver.queue(flood))?;
/// println!(rt; "{} ns of the player wait", receiver.queue(player))?;
/// // prints the flood is heard: true, then false; the player: true
/// // prints 2000000 ns of the flood wait
/// // prints 0 ns of the player wait
/// ```
#[derive(Debug, Drop)]
pub struct Receiver<const N: usize> {
    tally: Tally,
    ends: [u64; N],
}

impl<const N: usize> Model for Receiver<N> {
    ghost use Rattle.std.specs.Prelude.{◌≡◌, length};
    ghost use Rattle.ipx_fair.specs.States.{State};

    ghost Value = { State };

    ghost use Rattle.ipx_fair.specs.Tallies.{state_of};
    ghost use Rattle.ipx_fair.specs.inside.Held.{IsHeld};

    ghost view = { λ r. state_of r.tally r.ends };

    ghost invariant = { λ r. IsHeld r.tally r.ends };
}

impl<const N: usize> Receiver<N> {
    /// A receiver for which nothing waits. None where `one` is above `own`, or a number of the setting above [`Setting::MOST_TIME`], or
    /// there are too many speakers.
    pub fn new(setting: Setting) -> Option<Receiver<N>>
        ensures { result ≡ (if can_be setting N then Some (empty setting N) else None) }
    {
        if !setting.can_be(N) {
            return None;
        }
        Some(Receiver {
            tally: Tally::new(setting),
            ends: [0; N],
        })
    }

    /// Its setting.
    pub fn setting(&self) -> Setting
        ensures { result ≡ self.now.setting }
    {
        self.tally.setting
    }

    /// What is in the queue of a speaker, in nanoseconds.
    pub fn queue(&self, speaker: usize) -> u64
        requires { speaker < N }
        ensures { result ≡ queue_of self.now.queues speaker }
    {
        self.ends[speaker].saturating_sub(self.tally.served)
    }

    /// So many nanoseconds pass.
    pub fn pass(&mut self, nanoseconds: u64)
        ensures { Passed nanoseconds self.old self.new }
    {
        pass(&mut self.tally, &mut self.ends, nanoseconds);
    }

    /// A speaker says a packet of that weight: the nanoseconds that the receiver needs for it, in all its frames. Returns whether it is
    /// heard.
    pub fn says(&mut self, speaker: usize, weight: u64) -> bool
        requires { speaker < N }
        ensures { Said speaker weight result self.old self.new }
    {
        says(&mut self.tally, &mut self.ends, speaker, weight)
    }

    /// The same of a packet that two receivers must hear, such as one that counts packets and one that counts their bytes: it is heard if
    /// both hear it, and is in the speaker's queue of both then. Otherwise it is in neither.
    pub fn both_hear(
        &mut self,
        other: &mut Receiver<N>,
        speaker: usize,
        weight: u64,
        other_weight: u64,
    ) -> bool
        requires { speaker < N }
        ensures heard { result ≡ (hears_from self.old speaker weight && hears_from other.old speaker other_weight) }
        ensures queue { self.new ≡ after self.old speaker weight result }
        ensures other_queue { other.new ≡ after other.old speaker other_weight result }
    {
        let heard = has_room(&self.tally, &self.ends, speaker, weight)
            && has_room(&other.tally, &other.ends, speaker, other_weight);
        if heard {
            put(&mut self.tally, &mut self.ends, speaker, weight);
            put(&mut other.tally, &mut other.ends, speaker, other_weight);
        }
        heard
    }
}
