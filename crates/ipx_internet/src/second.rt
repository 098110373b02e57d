//! A second of an internet: each router's, and what is delivered then.
ghost use Rattle.std.specs.Prelude.{◌≡◌, length, OnOk, IfOk, OnErr, IfErr};
ghost use Rattle.ipx_internet.specs.Moment.{net_at};
ghost use Rattle.ipx_internet.specs.Passed.{HasPassed, HasTicked, PassesShort};
ghost use Rattle.ipx_internet.specs.Settled.{IsToldOf};
ghost use Rattle.ipx_internet.specs.Ticks.{a_tick};
ghost use Rattle.ipx_internet.specs.declared.internet.Settled.TheVariants.{Quiet};
ghost use Rattle.ipx_internet.specs.declared.fault.InternetFault.TheVariants.{Memory};

use crate::fault::InternetFault;
use crate::internet::{Internet, Settled};
use ipx_router::Event;

impl<const P: usize, const R: usize, const S: usize> Internet<P, R, S> {
    /// Gives each router a second, by their numbers. Then it makes deliveries, in the order of the queue: as many as the limit says, or as
    /// there are. If the answer is `Quiet`, this was a tick, of which `ipx_laws` speaks. If memory runs out it stops.
    pub fn second(&mut self, limit: usize) -> Result<Settled, InternetFault>
        ensures net { net_at self.new ≡ net_at self.old }
        ensures passed { OnOk result (HasPassed R S (a_tick (length self.old.routers) limit) self.old self.new) }
        ensures ticked { IfOk result (λ s. s ≡ Quiet → HasTicked R S 1 self.old self.new) }
        ensures told { IfOk result (IsToldOf self.new.queue) }
        ensures refused { IfErr result (λ fault. fault ≡ Memory) }
        ensures short { OnErr result (PassesShort R S (a_tick (length self.old.routers) limit) self.old self.new) }
    {
        for number in 0..self.len() {
            if self.event(number, Event::Second).is_err() {
                return Err(InternetFault::Memory);
            }
        }
        self.settle(limit)
    }
}
