//! A receiver that C can hold.
ghost use Rattle.std.specs.Prelude.{◌≡◌, ◌<◌, ◌&&◌, if◌then◌else◌, length};
ghost use Rattle.ipx_fair.specs.Numbers.{can_be};
ghost use Rattle.ipx_fair.specs.States.{empty};
ghost use Rattle.ipx_fair.specs.Serving.{Passed};
ghost use Rattle.ipx_fair.specs.Hearing.{hears_from, after, Said};
ghost use Rattle.ipx_fair.specs.Tallies.{receiver_of, zeros, no_setting};

use crate::hearing::{has_room, put, says};
use crate::serving::pass;
use crate::setting::Setting;
use crate::tally::Tally;
use std::marker::Model;

/// How many speakers it has.
const SPEAKERS: usize = 256;

/// A receiver of 256 speakers, each of whom is a byte, as it lies in memory that C owns. All bytes 0 are a receiver with a setting of
/// zeros, for which nothing waits.
///
/// ```
/// let mut receiver = Receiver256::zeros();
/// let before = receiver.says(255, 1);
/// let made = receiver.make(setting);
/// let after = receiver.says(255, 1);
/// println!(rt; "heard before: {before}; made: {made}; heard: {after}")?;
/// receiver.pass(1);
/// // prints heard before: false; made: true; heard: true
/// ```
#[repr(C)]
#[derive(Debug, Drop)]
pub struct Receiver256 {
    tally: Tally,
    ends: [u64; 256],
}

impl Model for Receiver256 {
    ghost use Rattle.ipx_fair.specs.Tallies.{Memory};
    ghost use Rattle.ipx_fair.specs.inside.Held.{IsHeld};

    ghost Value = { Memory };

    ghost view = { λ r. record { tally = r.tally; ends = r.ends } };

    ghost invariant = { λ r. IsHeld r.tally r.ends };

    ghost inverse = { λ r. record { tally = r.tally; ends = r.ends } };
}

impl Receiver256 {
    /// All bytes 0.
    pub fn zeros() -> Receiver256
        ensures memory { result ≡ zeros 256 }
        ensures receiver { receiver_of result ≡ empty no_setting 256 }
    {
        Receiver256 {
            tally: Tally::new(Setting::default()),
            ends: [0; SPEAKERS],
        }
    }

    /// Makes it a receiver of that setting, for which nothing waits. Returns whether there can be one; if not, it stays what it was.
    pub fn make(&mut self, setting: Setting) -> bool
        ensures can_be { result ≡ can_be setting 256 }
        ensures receiver { receiver_of self.new ≡ (if result then empty setting 256 else receiver_of self.old) }
    {
        let can_be = setting.can_be(SPEAKERS);
        if can_be {
            *self = Receiver256 {
                tally: Tally::new(setting),
                ends: [0; SPEAKERS],
            };
        }
        can_be
    }

    /// So many nanoseconds pass.
    pub fn pass(&mut self, nanoseconds: u64)
        ensures { Passed nanoseconds (receiver_of self.old) (receiver_of self.new) }
    {
        pass(&mut self.tally, &mut self.ends, nanoseconds);
    }

    /// A speaker says a packet of that weight: the nanoseconds that the receiver needs for it, in all its frames. Returns whether it is
    /// heard.
    pub fn says(&mut self, speaker: u8, weight: u64) -> bool
        ensures { Said speaker weight result (receiver_of self.old) (receiver_of self.new) }
    {
        says(
            &mut self.tally,
            &mut self.ends,
            usize::from(speaker),
            weight,
        )
    }

    /// The same of a packet that two receivers must hear, such as one that counts packets and one that counts their bytes: it is heard if
    /// both hear it, and is in the speaker's queue of both then. Otherwise it is in neither.
    pub fn both_hear(
        &mut self,
        other: &mut Receiver256,
        speaker: u8,
        weight: u64,
        other_weight: u64,
    ) -> bool
        ensures heard { result ≡ (hears_from (receiver_of self.old) speaker weight && hears_from (receiver_of other.old) speaker other_weight) }
        ensures queue { receiver_of self.new ≡ after (receiver_of self.old) speaker weight result }
        ensures other_queue { receiver_of other.new ≡ after (receiver_of other.old) speaker other_weight result }
    {
        let speaker = usize::from(speaker);
        let heard = has_room(&self.tally, &self.ends, speaker, weight)
            && has_room(&other.tally, &other.ends, speaker, other_weight);
        if heard {
            put(&mut self.tally, &mut self.ends, speaker, weight);
            put(&mut other.tally, &mut other.ends, speaker, other_weight);
        }
        heard
    }

    /// Whether a packet of that weight is heard if a speaker says it now. It isn't said by that.
    pub fn hears(&self, speaker: u8, weight: u64) -> bool
        ensures hears { result ≡ hears_from (receiver_of self.now) speaker weight }
        ensures there { speaker < length (receiver_of self.now).queues }
    {
        has_room(&self.tally, &self.ends, usize::from(speaker), weight)
    }
}
