//! What a tunnel sends to places that have no client.
ghost use Rattle.std.specs.Prelude.{◌≡◌, ◌≤◌, ◌<◌, ◌*◌, ◌^◌};
ghost use Rattle.ipx_limits.specs.Numbers.{second};
ghost use Rattle.ipx_limits.specs.Strangers.{one_each, strangers_of, with_spare, line_limit, strangers_of_line, Sent};

use crate::decision::Decision;
use crate::limits::{Limit, MOST_RATE, SECOND, each_of, times};
use crate::line::Line;
use crate::line_parts::PARTS_OF_ONE;
use ipx_fair::Meter;

/// One address gets one part in so many of what goes to all.
const ADDRESS_PART: u64 = 8;

/// Seconds of what goes to all, that may go at once.
const SECONDS_AT_ONCE: u64 = 2;

/// The datagrams of a registration, which may go to one address at once in any case: its answer, that again, and two pings.
const REGISTRATION: u64 = 4;

/// Registrations by a narrow line at once.
const LINE_REGISTRATIONS: u64 = 4;

/// Of what strangers have of a narrow line, one part in so many more than is counted stays free.
const SPARE_PART: u64 = 4;

/// Bytes of a datagram of the gateway's own: a header alone.
const OWN_DATAGRAM: usize = 30;

/// The limits of what a tunnel sends to places that have no client: somebody may have forged them.
///
/// See the example of [`Limits`](crate::Limits).
#[repr(C)]
#[derive(Clone, Copy, Debug, Default, PartialEq, Eq)]
pub struct StrangersLimits {
    /// To all.
    pub all: Limit,
    /// To one address.
    pub one: Limit,
}

impl StrangersLimits {
    /// The limits for so many datagrams a second, or none where that is 0. At most 1,000,000 count.
    pub fn of(rate: u32) -> Option<StrangersLimits>
        ensures { result ≡ strangers_of rate }
    {
        if rate == 0 {
            return None;
        }
        let rate = u64::from(rate.min(MOST_RATE));
        let each = each_of(rate);
        let one = one_each(rate);
        Some(StrangersLimits {
            all: Limit {
                each,
                burst: times(each, (SECONDS_AT_ONCE * rate).max(REGISTRATION)),
            },
            one: Limit {
                each: one,
                burst: times(one, rate.max(REGISTRATION)),
            },
        })
    }

    /// The limits by a narrow line, for all networks together. What follows upon a registration goes out up to nine seconds later. Count it all
    /// when that comes, and let it wait for room then: a fifth of what strangers have of the line is never counted.
    pub fn of_line(line: &Line) -> StrangersLimits
        ensures { result ≡ strangers_of_line line.now }
    {
        let each = with_spare(line.own_cost(OWN_DATAGRAM));
        StrangersLimits {
            all: line_limit(each),
            one: line_limit(PARTS_OF_ONE * each),
        }
    }

    /// Whether so many datagrams go to an address, of all that go to places without a client: all of them, or none.
    pub fn sends(&self, count: u32, address: &mut Meter, all: &mut Meter) -> Decision
        ensures { Sent self.now count result address.old address.new all.old all.new }
    {
        let count = u64::from(count);
        let to_one = count.saturating_mul(self.one.each);
        let to_all = count.saturating_mul(self.all.each);
        if address.both_let(self.one.burst, to_one, all, self.all.burst, to_all) {
            Decision::Passes
        } else {
            Decision::TooMuchForStrangers
        }
    }
}

fn with_spare(nanoseconds: u64) -> u64
    requires { nanoseconds ≤ 2 ^ 39 }
    ensures value { result ≡ with_spare nanoseconds }
    ensures most { result ≤ 2 ^ 40 }
{
    nanoseconds + nanoseconds / SPARE_PART
}

fn line_limit(each: u64) -> Limit
    requires { each ≤ 2 ^ 43 }
    ensures { result ≡ line_limit each }
{
    Limit {
        each,
        burst: SECOND.max(LINE_REGISTRATIONS * REGISTRATION * each),
    }
}

/// Nanoseconds for each datagram to one address.
fn one_each(rate: u64) -> u64
    requires { 0 < rate }
    ensures value { result ≡ one_each rate }
    ensures most { result ≤ 8 * second }
{
    ADDRESS_PART * SECOND / rate
}
