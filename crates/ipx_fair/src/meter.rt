//! A limit of one speaker.
ghost use Rattle.std.specs.Prelude.{◌≡◌, ℕ, ◌&&◌};
ghost use Rattle.ipx_fair.specs.Serving.{Passed};
ghost use Rattle.ipx_fair.specs.Hearing.{Said};
ghost use Rattle.ipx_fair.specs.Meters.{metered, lets, used_after};

/// How much of a limit is used: a receiver with one speaker, of whom `burst` may come at once.
///
/// ```
/// let (burst, weight) = (3_000_000, 2_000_000);
/// let mut meter = Meter::default();
/// let first = meter.lets(burst, weight);
/// let second = meter.lets(burst, weight);
/// meter.pass(1_000_000);
/// let third = meter.lets(burst, weight);
/// println!(rt; "{first}, {second}, a millisecond later {third}")?;
/// let mut other = Meter::default();
/// let both = meter.both_let(burst, weight, &mut other, burst, weight);
/// println!(rt; "both: {both}, so {} ns of the other are used", other.used)?;
/// // prints true, false, a millisecond later true
/// // prints both: false, so 0 ns of the other are used
/// ```
#[repr(C)]
#[derive(Clone, Copy, Debug, Default, PartialEq, Eq)]
pub struct Meter {
    /// In nanoseconds.
    pub used: u64,
}

impl Meter {
    /// So many nanoseconds pass.
    pub fn pass(&mut self, nanoseconds: u64)
        ensures { (burst : ℕ) → Passed nanoseconds (metered burst self.old) (metered burst self.new) }
    {
        self.used = self.used.saturating_sub(nanoseconds);
    }

    /// Lets something of that weight pass, and counts it, if no more than `burst` is used then. Returns whether it passes.
    pub fn lets(&mut self, burst: u64, weight: u64) -> bool
        ensures { Said 0 weight result (metered burst self.old) (metered burst self.new) }
    {
        let passes = self.has_room(burst, weight);
        if passes {
            self.used += weight;
        }
        passes
    }

    /// Lets something pass by two meters, and counts it in both, if both have room for it. Otherwise neither counts it, so it doesn't matter
    /// which is asked first. Returns whether it passes.
    pub fn both_let(
        &mut self,
        burst: u64,
        weight: u64,
        other: &mut Meter,
        other_burst: u64,
        other_weight: u64,
    ) -> bool
        ensures passes { result ≡ (lets self.old burst weight && lets other.old other_burst other_weight) }
        ensures counted { self.new ≡ used_after self.old weight result }
        ensures counted_by_other { other.new ≡ used_after other.old other_weight result }
    {
        let passes = self.has_room(burst, weight) && other.has_room(other_burst, other_weight);
        if passes {
            self.used += weight;
            other.used += other_weight;
        }
        passes
    }

    /// Whether something of that weight passes if it comes now. It isn't counted by that.
    pub fn has_room(&self, burst: u64, weight: u64) -> bool
        ensures { result ≡ lets self.now burst weight }
    {
        weight <= burst && self.used <= burst - weight
    }
}
