//! Fair queueing and meters, as C keeps them in memory of its own. They need no handle: C lends what it has.
ghost use Rattle.std.specs.Prelude.{◌≡◌, ℕ, ◌-◌, ◌&&◌, if◌then◌else◌};
ghost use Rattle.ipx_fair.specs.Numbers.{can_be};
ghost use Rattle.ipx_fair.specs.States.{empty};
ghost use Rattle.ipx_fair.specs.Serving.{Passed};
ghost use Rattle.ipx_fair.specs.Hearing.{hears_from, after, Said};
ghost use Rattle.ipx_fair.specs.Meters.{metered, lets, used_after};
ghost use Rattle.ipx_fair.specs.Tallies.{receiver_of};

use ipx_fair::{Meter, Receiver256, Setting};

/// Makes it a receiver of that setting, for which nothing waits. Returns whether there can be one; if not, it stays what it was.
#[unsafe(no_mangle)]
pub extern "C" fn ipxr_fair_make(fair: &mut Receiver256, setting: &Setting) -> bool
    ensures can_be { result ≡ can_be setting.now 256 }
    ensures receiver { receiver_of fair.new ≡ (if result then empty setting.now 256 else receiver_of fair.old) }
{
    fair.make(*setting)
}

/// The time passes that a clock shows beyond what it showed at the last look; none where it went back.
#[unsafe(no_mangle)]
pub extern "C" fn ipxr_fair_look(fair: &mut Receiver256, clock: &mut u64, now: u64)
    ensures clock { clock.new ≡ now }
    ensures passed { Passed (now - clock.old) (receiver_of fair.old) (receiver_of fair.new) }
{
    fair.pass(now.saturating_sub(*clock));
    *clock = now;
}

/// So many nanoseconds pass.
#[unsafe(no_mangle)]
pub extern "C" fn ipxr_fair_pass(fair: &mut Receiver256, nanoseconds: u64)
    ensures { Passed nanoseconds (receiver_of fair.old) (receiver_of fair.new) }
{
    fair.pass(nanoseconds);
}

/// A speaker says a packet of that weight. Returns whether it is heard.
#[unsafe(no_mangle)]
pub extern "C" fn ipxr_fair_says(fair: &mut Receiver256, speaker: u8, weight: u64) -> bool
    ensures { Said speaker weight result (receiver_of fair.old) (receiver_of fair.new) }
{
    fair.says(speaker, weight)
}

/// A speaker says a packet that two receivers must hear. It is heard if both hear it, and is in his queue of both then; else in neither.
#[unsafe(no_mangle)]
pub extern "C" fn ipxr_fair_both_hear(
    fair: &mut Receiver256,
    other: &mut Receiver256,
    speaker: u8,
    weight: u64,
    other_weight: u64,
) -> bool
    ensures heard { result ≡ (hears_from (receiver_of fair.old) speaker weight && hears_from (receiver_of other.old) speaker other_weight) }
    ensures queue { receiver_of fair.new ≡ after (receiver_of fair.old) speaker weight result }
    ensures other_queue { receiver_of other.new ≡ after (receiver_of other.old) speaker other_weight result }
{
    fair.both_hear(other, speaker, weight, other_weight)
}

/// So many nanoseconds pass for a meter.
#[unsafe(no_mangle)]
pub extern "C" fn ipxr_meter_pass(meter: &mut Meter, nanoseconds: u64)
    ensures { (burst : ℕ) → Passed nanoseconds (metered burst meter.old) (metered burst meter.new) }
{
    meter.pass(nanoseconds);
}

/// Lets something of that weight pass, and counts it, if no more than `burst` is used then.
#[unsafe(no_mangle)]
pub extern "C" fn ipxr_meter_lets(meter: &mut Meter, burst: u64, weight: u64) -> bool
    ensures { Said 0 weight result (metered burst meter.old) (metered burst meter.new) }
{
    meter.lets(burst, weight)
}

/// Lets something pass by two meters, and counts it in both, if both have room for it; else neither counts it.
#[unsafe(no_mangle)]
pub extern "C" fn ipxr_meter_both_let(
    meter: &mut Meter,
    burst: u64,
    weight: u64,
    other: &mut Meter,
    other_burst: u64,
    other_weight: u64,
) -> bool
    ensures passes { result ≡ (lets meter.old burst weight && lets other.old other_burst other_weight) }
    ensures counted { meter.new ≡ used_after meter.old weight result }
    ensures counted_by_other { other.new ≡ used_after other.old other_weight result }
{
    meter.both_let(burst, weight, other, other_burst, other_weight)
}
