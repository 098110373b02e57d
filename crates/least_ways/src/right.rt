//! Seconds that pass, and what the tables are then.
ghost use Rattle.std.specs.Prelude.{◌≡◌, ◌≤◌, true, [], length, IfOk};
ghost use Rattle.ipx_router.specs.Numbers.{most_routers};
ghost use Rattle.ipx_internet.specs.Moment.{net_at};
ghost use Rattle.ipx_internet.specs.Passed.{HasTicked};
ghost use Rattle.ipx_laws.specs.Least.{AreCheap, HasRoom};
ghost use Rattle.least_ways.specs.Right.{HasLeastWays};

use ipx_internet::{Internet, InternetFault, Settled};

/// The seconds after which every table is right, whatever was in it.
const SECONDS: usize = 2940;

/// Lets those seconds pass, and answers whether each was a tick. Then the tables are right, whatever was in them: each route in memory is
/// that of a least way. This is so of at most 16 routers, where no port costs more than 4,095 ticks, the tables have room, and nothing waits
/// at first.
pub fn become_right<const P: usize, const R: usize, const S: usize>(
    internet: &mut Internet<P, R, S>,
    limit: usize,
) -> Result<bool, InternetFault>
    ensures right { IfOk result (λ all. all ≡ true → length (net_at internet.old) ≤ most_routers → AreCheap (net_at internet.old)
        → HasRoom (net_at internet.old) R → internet.old.queue ≡ [] → HasLeastWays R S internet.old internet.new) }
{
    ipx_laws::laws::right();
    ipx_laws::laws::ticks_are_calm();
    ipx_laws::laws::fifteen_suffice();
    let _ = internet.len();
    pass(internet, SECONDS, limit)
}

/// Lets so many seconds pass, until one isn't a tick; answers whether each was one.
fn pass<const P: usize, const R: usize, const S: usize>(
    internet: &mut Internet<P, R, S>,
    count: usize,
    limit: usize,
) -> Result<bool, InternetFault>
    ensures net { net_at internet.new ≡ net_at internet.old }
    ensures ticked { IfOk result (λ all. all ≡ true → HasTicked R S count internet.old internet.new) }
{
    ipx_internet::laws::seconds_pass();
    for _ in 0..count {
        match internet.second(limit)? {
            Settled::Quiet => (),
            Settled::Left(_) => return Ok(false),
        }
    }
    Ok(true)
}
