//! What is counted on a network.
ghost use Rattle.std.specs.Prelude.{◌≡◌, ◌<◌, true};
ghost use Rattle.ipx_fates.specs.Counting.{more, has_place, place_of, nothing, one_came, one_lost, one_dropped, counted};

use crate::fate::Fate;
use crate::reason::Reason;

/// How many hundreds the numbers of the router's drops have, and which rest at most: 18 and 9.
const HUNDREDS: usize = 19;

const REST: usize = 10;

/// What is counted of the packets that came on a network, and of what goes no further. All bytes 0, nothing was. No count goes beyond 2^64 - 1.
///
/// ```
/// let mut counts = Counts::none();
/// counts.count(Fate::HandedOn);
/// counts.count(Fate::Lost(Reason::NoIpx));
/// let lost = counts.lost[usize::from(Reason::NoIpx.number())];
/// println!(rt; "{} came, and {lost} held no IPX", counts.came)?;
/// // prints 2 came, and 1 held no IPX
/// ```
#[repr(C)]
#[derive(Clone, Copy, Debug)]
pub struct Counts {
    /// Packets that came.
    pub came: u64,
    /// Packets, and copies, that were lost, by the numbers of the reasons.
    pub lost: [u64; 31],
    /// Packets that the router dropped, by its number: ten for each hundred.
    pub dropped: [u64; 190],
}

impl Counts {
    /// Nothing was counted.
    pub fn none() -> Counts
        ensures { result ≡ nothing }
    {
        Counts {
            came: 0,
            lost: [0; 31],
            dropped: [0; 190],
        }
    }

    /// A packet had this fate.
    pub fn count(&mut self, fate: Fate)
        ensures { self.new ≡ counted fate self.old }
    {
        match fate {
            Fate::Elsewhere => {}
            Fate::Heard
            | Fate::HandedOn
            | Fate::Answered
            | Fate::Stays
            | Fate::Awaited
            | Fate::Probe => self.come(),
            Fate::Dropped(number) => {
                self.come();
                self.drop_by(number);
            }
            Fate::Lost(why) => {
                self.come();
                self.lose(why);
            }
        }
    }

    /// A packet is lost, or a copy of one, or something that was to be sent.
    pub fn lose(&mut self, why: Reason)
        ensures { self.new ≡ one_lost why self.old }
    {
        let index = usize::from(why.number());
        self.lost[index] = more(self.lost[index]);
    }

    /// A packet came.
    fn come(&mut self)
        ensures { self.new ≡ one_came self.old }
    {
        self.came = more(self.came);
    }

    /// The router drops a packet, by a number. One that no drop has isn't counted.
    fn drop_by(&mut self, number: u16)
        ensures { self.new ≡ one_dropped number self.old }
    {
        if has_place(number) {
            let index = place_of(number);
            self.dropped[index] = more(self.dropped[index]);
        }
    }
}

/// Whether a drop with that number is counted.
fn has_place(number: u16) -> bool
    ensures { result ≡ has_place number }
{
    usize::from(number / 100) < HUNDREDS && usize::from(number % 100) < REST
}

/// Where it is.
fn place_of(number: u16) -> usize
    requires { has_place number ≡ true }
    ensures place { result ≡ place_of number }
    ensures small { result < 190 }
{
    usize::from(number / 100) * REST + usize::from(number % 100)
}

/// One more.
fn more(count: u64) -> u64
    ensures { result ≡ more count }
{
    count.saturating_add(1)
}
