//! What is counted of the queues of a receiver.
ghost use Rattle.std.specs.Prelude.{◌≡◌, ◌+◌, ◌-◌, ◌*◌, ◌<◌, ◌≤◌, ◌^◌, ◌⊎◌, max};
ghost use Rattle.ipx_fair.specs.Queues.{waits};

use crate::setting::Setting;

/// A queue ends where its speaker will have been served. One number grows by what every queue that waits was served: what an end has
/// beyond it is in that queue. All zeros, nothing waits.
#[repr(C)]
#[derive(Clone, Copy, Debug, Default)]
pub(crate) struct Tally {
    pub(crate) setting: Setting,
    /// Nanoseconds that passed and served nobody yet, fewer than queues wait.
    pub(crate) left: u64,
    /// What every queue that waits was served.
    pub(crate) served: u64,
    /// No queue ends later.
    pub(crate) latest: u64,
    /// Every queue that waits has more than this.
    pub(crate) spare: u64,
    /// How many queues wait.
    pub(crate) waits: u64,
    /// What all queues have together.
    pub(crate) total: u64,
}

impl Tally {
    /// Nothing waits.
    pub(crate) fn new(setting: Setting) -> Tally
        ensures { result ≡ record { setting = setting; left = 0; served = 0; latest = 0; spare = 0; waits = 0; total = 0 } }
    {
        Tally {
            setting,
            left: 0,
            served: 0,
            latest: 0,
            spare: 0,
            waits: 0,
            total: 0,
        }
    }

    /// All queues are served to their end.
    pub(crate) fn empty(&mut self)
        ensures { self.new ≡ record self.old { left = 0; served = max self.old.served self.old.latest; spare = 2 ^ 64 - 1; waits = 0; total = 0 } }
    {
        self.left = 0;
        self.served = self.served.max(self.latest);
        self.spare = u64::MAX;
        self.waits = 0;
        self.total = 0;
    }

    /// Every queue that waits is served as much, and it has that much or more. Returns what they take together.
    pub(crate) fn lower(&mut self, level: u64) -> u64
        requires total { level * self.old.waits ≤ self.old.total }
        requires served { self.old.served + level < 2 ^ 64 }
        ensures tally { self.new ≡ record self.old { served = self.old.served + level; spare = self.old.spare - level; total = self.old.total - level * self.old.waits } }
        ensures taken { result ≡ level * self.old.waits }
    {
        let taken = level * self.waits;
        self.served += level;
        self.spare = self.spare.saturating_sub(level);
        self.total -= taken;
        taken
    }

    /// A packet goes into a queue that ends there, and so late then.
    pub(crate) fn add(&mut self, queue: u64, weight: u64)
        requires spare { (queue ≡ 0) ⊎ (self.old.spare < queue) }
        requires end { self.old.served + queue + weight < 2 ^ 64 }
        requires total { self.old.total + weight < 2 ^ 64 }
        requires waits { self.old.waits < 2 ^ 64 - 1 }
        ensures tally { self.new ≡ record self.old { latest = max self.old.latest (self.old.served + queue + weight); total = self.old.total + weight; spare = self.new.spare; waits = self.new.waits } }
        ensures waits { self.new.waits + waits queue ≡ self.old.waits + waits (queue + weight) }
        ensures spare { self.new.spare ≤ self.old.spare }
        ensures spares { (queue + weight ≡ 0) ⊎ (self.new.spare < queue + weight) }
    {
        self.latest = self.latest.max(self.served + queue + weight);
        self.total += weight;
        if queue == 0 && weight > 0 {
            self.waits += 1;
            self.spare = self.spare.min(weight - 1);
        }
    }
}
