//! Time passes: queues are served.
ghost use Rattle.std.specs.Prelude.{◌≡◌, ◌+◌, ◌-◌, ◌<◌, ◌≤◌, ◌^◌};
ghost use Rattle.ipx_fair.specs.Queues.{waiting, lowered};
ghost use Rattle.ipx_fair.specs.Serving.{Served, Passed};
ghost use Rattle.ipx_fair.specs.Tallies.{queues_of, state_of};
ghost use Rattle.ipx_fair.specs.inside.Held.{Spares, Agrees, IsHeld};

use crate::tally::Tally;

/// Beyond that much service the ends are counted from 0 again. It takes 73 years at least.
const MOST_SERVED: u64 = 1 << 61;

/// So many nanoseconds pass.
pub(crate) fn pass(tally: &mut Tally, ends: &mut [u64], nanoseconds: u64)
    requires { IsHeld tally.old ends.old }
    ensures held { IsHeld tally.new ends.new }
    ensures passed { Passed nanoseconds (state_of tally.old ends.old) (state_of tally.new ends.new) }
{
    advance(tally, ends, nanoseconds);
    if tally.served > MOST_SERVED {
        begin_anew(tally, ends);
    }
}

/// Serves queues as long. If that is enough for all, all are empty then.
fn advance(tally: &mut Tally, ends: &[u64], nanoseconds: u64)
    requires { IsHeld tally.old ends.now }
    ensures agrees { Agrees tally.new ends.now }
    ensures passed { Passed nanoseconds (state_of tally.old ends.now) (state_of tally.new ends.now) }
    ensures latest { tally.new.latest ≡ tally.old.latest }
{
    let time = tally.left.saturating_add(nanoseconds);
    if time < tally.total {
        serve(tally, ends, time);
    } else {
        tally.empty();
    }
}

/// Serves queues for less time than all of them need. What a queue that runs empty doesn't need of it serves the others.
fn serve(tally: &mut Tally, ends: &[u64], time: u64)
    requires agrees { Agrees tally.old ends.now }
    requires time { time < tally.old.total }
    requires small { tally.old.served + tally.old.total < 2 ^ 64 }
    ensures agrees { Agrees tally.new ends.now }
    ensures served { Served time (queues_of tally.old ends.now) (queues_of tally.new ends.now) tally.new.left }
    ensures setting { tally.new.setting ≡ tally.old.setting }
    ensures latest { tally.new.latest ≡ tally.old.latest }
{
    let mut rest = time;
    let mut level = rest / tally.waits;
    while level > tally.spare {
        let step = tally.spare + 1;
        rest -= tally.lower(step);
        recount(tally, ends);
        level = rest / tally.waits;
    }
    tally.left = rest - tally.lower(level);
}

/// Counts the queues that wait, and finds what the shortest of these can spare.
fn recount(tally: &mut Tally, ends: &[u64])
    ensures tally { tally.new ≡ record tally.old { waits = waiting (queues_of tally.old ends.now); spare = tally.new.spare } }
    ensures spare { Spares tally.new.spare (queues_of tally.old ends.now) }
{
    let mut waits = 0;
    let mut spare = u64::MAX;
    for end in ends {
        if *end > tally.served {
            waits += 1;
            spare = spare.min(*end - tally.served - 1);
        }
    }
    tally.waits = waits;
    tally.spare = spare;
}

/// Counts service from 0 again.
fn begin_anew(tally: &mut Tally, ends: &mut [u64])
    ensures ends { ends.new ≡ lowered tally.old.served ends.old }
    ensures tally { tally.new ≡ record tally.old { latest = tally.old.latest - tally.old.served; served = 0 } }
{
    for end in ends {
        *end = end.saturating_sub(tally.served);
    }
    tally.latest = tally.latest.saturating_sub(tally.served);
    tally.served = 0;
}
