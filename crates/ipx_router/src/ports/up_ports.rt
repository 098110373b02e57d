//! Which ports are up: their numbers, in order.
ghost use Rattle.std.specs.Prelude.{◌≡◌, ◌<◌, ◌≤◌, ◌==◌, nat_lt, not, insert, length};
ghost use Rattle.std.specs.List.{filter};
ghost use Rattle.ipx_router.specs.Numbers.{most_ports};
ghost use Rattle.ipx_router.specs.Port.{numbers, is_up};
ghost use Rattle.ipx_router.specs.Sorted.{put};

use crate::ports::making::MOST_PORTS;
use arrayvec::ArrayVec;

/// The numbers of the ports that are up.
pub(crate) type UpPorts = ArrayVec<u8, MOST_PORTS>;

/// Whether the port of that number is up.
pub(crate) fn is_up(up: &[u8], number: u8) -> bool
    ensures { result ≡ is_up up.now number }
{
    up.iter().any(|other| *other == number)
}

/// The numbers below a count of ports.
pub(crate) fn numbers_below(count: usize) -> UpPorts
    requires few { count ≤ most_ports }
    ensures { result.items ≡ numbers count }
{
    let mut below = ArrayVec::new();
    for number in 0..count {
        below.push(number as u8);
    }
    below
}

/// The numbers without that one.
pub(crate) fn without_number(up: &[u8], number: u8) -> UpPorts
    requires fits { length up.now ≤ most_ports }
    ensures { result.items ≡ filter (λ j. not (j == number)) up.now }
{
    let mut others = ArrayVec::new();
    for other in up {
        if *other != number {
            others.push(*other);
        }
    }
    others
}

/// The numbers and one more, in its place.
pub(crate) fn with_number(up: &[u8], number: u8) -> UpPorts
    requires fits { length up.now < most_ports }
    ensures { result.items ≡ put nat_lt number up.now }
{
    let mut all = ArrayVec::new();
    all.try_extend_from_slice(up).unwrap();
    all.insert(place_for(up, number), number);
    all
}

/// How many of the numbers stand before the first that is greater.
fn place_for(up: &[u8], number: u8) -> usize
    ensures place { insert up.now result number ≡ put nat_lt number up.now }
    ensures within { result ≤ length up.now }
{
    for place in 0..up.len() {
        if number < up[place] {
            return place;
        }
    }
    up.len()
}
