//! What waits is delivered until nothing waits.
ghost use Rattle.std.specs.Prelude.{◌≡◌, [], OnOk};
ghost use Rattle.ipx_internet.specs.Moment.{net_at};
ghost use Rattle.least_ways.specs.Rest.{HasRounds};

use ipx_internet::{Internet, InternetFault};

/// The rounds after which nothing waits, beside one for each router.
const ROUNDS: usize = 34;

/// Delivers what waits, and all that is sent for it. Afterwards nothing waits, whatever waited and whatever the tables had.
pub fn come_to_rest<const P: usize, const R: usize, const S: usize>(
    internet: &mut Internet<P, R, S>,
) -> Result<(), InternetFault>
    ensures net { net_at internet.new ≡ net_at internet.old }
    ensures rest { OnOk result (internet.new.queue ≡ []) }
{
    ipx_internet::laws::settles();
    let routers = internet.len();
    deliver_rounds(internet, routers)?;
    deliver_rounds(internet, ROUNDS)
}

/// Delivers so many rounds: in each, all that waits when it begins.
fn deliver_rounds<const P: usize, const R: usize, const S: usize>(
    internet: &mut Internet<P, R, S>,
    count: usize,
) -> Result<(), InternetFault>
    ensures net { net_at internet.new ≡ net_at internet.old }
    ensures rounds { OnOk result (HasRounds R S count internet.old internet.new) }
{
    for _ in 0..count {
        internet.settle(internet.waiting())?;
    }
    Ok(())
}
