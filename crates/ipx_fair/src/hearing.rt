//! A speaker says a packet.
ghost use Rattle.std.specs.Prelude.{◌≡◌, ◌<◌, ◌≤◌, true, length};
ghost use Rattle.ipx_fair.specs.Numbers.{most_time};
ghost use Rattle.ipx_fair.specs.Hearing.{hears, hears_from, after, Said};
ghost use Rattle.ipx_fair.specs.Tallies.{state_of};
ghost use Rattle.ipx_fair.specs.inside.Held.{IsHeld};

use crate::setting::Setting;
use crate::tally::Tally;

/// A speaker says a packet of that weight. Returns whether it is heard; if so, it is in the speaker's queue.
pub(crate) fn says(tally: &mut Tally, ends: &mut [u64], speaker: usize, weight: u64) -> bool
    requires held { IsHeld tally.old ends.old }
    requires speaker { speaker < length ends.old }
    ensures held { IsHeld tally.new ends.new }
    ensures said { Said speaker weight result (state_of tally.old ends.old) (state_of tally.new ends.new) }
{
    let heard = has_room(tally, ends, speaker, weight);
    if heard {
        put(tally, ends, speaker, weight);
    }
    heard
}

/// Whether a speaker's packet is heard.
pub(crate) fn has_room(tally: &Tally, ends: &[u64], speaker: usize, weight: u64) -> bool
    requires held { IsHeld tally.now ends.now }
    requires speaker { speaker < length ends.now }
    ensures { result ≡ hears_from (state_of tally.now ends.now) speaker weight }
{
    let queue = ends[speaker].saturating_sub(tally.served);
    hears(tally.setting, queue, tally.total, weight)
}

/// A packet that is heard goes into the queue of its speaker.
pub(crate) fn put(tally: &mut Tally, ends: &mut [u64], speaker: usize, weight: u64)
    requires held { IsHeld tally.old ends.old }
    requires speaker { speaker < length ends.old }
    requires heard { hears_from (state_of tally.old ends.old) speaker weight ≡ true }
    ensures held { IsHeld tally.new ends.new }
    ensures queue { state_of tally.new ends.new ≡ after (state_of tally.old ends.old) speaker weight true }
{
    let queue = ends[speaker].saturating_sub(tally.served);
    ends[speaker] = tally.served + queue + weight;
    tally.add(queue, weight);
}

/// Whether a packet is heard, whose queue and all queues have that much.
fn hears(setting: Setting, queue: u64, total: u64, weight: u64) -> bool
    requires own { setting.own ≤ most_time }
    requires one { setting.one ≤ most_time }
    requires reserve { setting.reserve ≤ most_time }
    requires room { setting.room ≤ most_time }
    ensures { result ≡ hears setting queue total weight }
{
    let own = queue.saturating_add(weight);
    let all = total.saturating_add(weight);
    own <= setting.one
        || (own <= setting.own && all <= setting.room + setting.reserve)
        || queue.saturating_add(all) <= setting.room
}
