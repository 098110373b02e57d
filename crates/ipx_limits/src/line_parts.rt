//! The parts of a narrow line.
ghost use Rattle.std.specs.Prelude.{◌≡◌, ◌≤◌, ◌*◌, ◌^◌, ◌+◌, max, min};
ghost use Rattle.ipx_limits.specs.LineParts.{ahead, from_now, held, owed, cost, longest, receivers, speakers, speaks_alone, pairs, more, pair_cost, said_cost, most_within, most_said, most_spoken};
ghost use Rattle.ipx_limits.specs.LineRoom.{said_owed, own_cost, one_cost};
ghost use Rattle.ipx_limits.specs.Numbers.{line_short, line_longest};

use crate::limits::SECOND;
use crate::line::{Line, LineAddress};

/// Bytes in front of a packet: the headers of UDP and IP, and as many as Ethernet has with its checksum; of the longest packet, and of a
/// short one.
const HEADERS: u64 = 46;

pub(crate) const LONGEST: usize = 1500;

pub(crate) const SHORT: usize = 154;

/// Nanoseconds that a byte takes by a line of one kilobit a second; of a line so many tenths are used.
const BYTE_BY_KILOBIT: u64 = 8_000_000;

const TENTHS: u64 = 10;

const TENTHS_USED: u64 = 9;

pub(crate) const MILLISECOND: u64 = 1_000_000;

/// How much may be used at once of a speaker's part, and of what he says to all.
const AT_ONCE: u64 = 150 * MILLISECOND;

const SAID_AT_ONCE: u64 = 1000 * MILLISECOND;

/// Of so many parts of the line one is what speakers say to all, and one for the gateway's own datagrams.
const OWN_PARTS: u64 = 32;

/// And so many are the parts that speakers have of addresses' parts.
const PAIR_PARTS: u64 = 29;

/// Of what the gateway answers clients, and of what goes to strangers, one address gets one part in so many.
pub(crate) const PARTS_OF_ONE: u64 = 8;

/// There are so many parts at most.
const MOST_PARTS: u32 = 4096;

/// How long something is used still.
pub(crate) fn ahead(now: u64, moment: u64) -> u64
    ensures { result ≡ ahead now moment }
{
    moment.saturating_sub(now)
}

/// So many nanoseconds from now on.
pub(crate) fn from_now(now: u64, nanoseconds: u64) -> u64
    ensures { result ≡ from_now now nanoseconds }
{
    now.saturating_add(nanoseconds)
}

/// No later than so many nanoseconds from now on.
pub(crate) fn held(now: u64, most: u64, moment: u64) -> u64
    ensures { result ≡ held now most moment }
{
    moment.min(from_now(now, most))
}

impl Line {
    /// How long a packet takes.
    pub(crate) fn cost(&self, bytes: usize) -> u64
        ensures value { result ≡ cost self.now bytes }
        ensures most { result ≤ 2 ^ 34 }
    {
        let all = bytes.min(LONGEST) as u64 + HEADERS;
        all * (BYTE_BY_KILOBIT * TENTHS) / (TENTHS_USED * u64::from(self.kilobits.max(1)))
    }

    /// Parts for those who receive.
    pub(crate) fn receivers(&self) -> u64
        ensures value { result ≡ receivers self.now }
        ensures most { result ≤ 4096 }
    {
        u64::from(self.addresses.min(MOST_PARTS))
    }

    /// Parts for those who speak.
    fn speakers(&self) -> u64
        ensures value { result ≡ speakers self.now }
        ensures most { result ≤ 4096 }
    {
        u64::from(self.speakers.min(MOST_PARTS))
    }

    /// And for both: each who speaks has one of that of an address, but not the address itself where it has one client alone.
    pub(crate) fn pairs(&self, to: &LineAddress) -> u64
        ensures value { result ≡ pairs self.now to.now }
        ensures most { result ≤ 2 ^ 24 }
    {
        let others = self
            .speakers()
            .saturating_sub(u64::from(to.number != 0 && to.clients == 1));
        times(others.max(1), self.receivers())
    }

    /// What a copy takes of the part that a speaker has of an address' part.
    pub(crate) fn pair_cost(&self, to: &LineAddress, bytes: usize) -> u64
        ensures value { result ≡ pair_cost self.now to.now bytes }
        ensures most { result ≤ 2 ^ 61 }
    {
        let cost = self.cost(bytes);
        times(cost + more(cost), self.pairs(to))
    }

    /// And of the part that he has of what he says to all.
    pub(crate) fn said_cost(&self, bytes: usize) -> u64
        ensures value { result ≡ said_cost self.now bytes }
        ensures most { result ≤ 2 ^ 51 }
    {
        said_times(self.own_cost(bytes), self.speakers())
    }

    /// Of his part so much may be used at once, or a short packet.
    pub(crate) fn most_within(&self, to: &LineAddress) -> u64
        ensures value { result ≡ most_within self.now to.now }
        ensures most { result ≤ 2 ^ 61 }
    {
        AT_ONCE.max(self.pair_cost(to, SHORT))
    }

    /// The same of what he says to all.
    pub(crate) fn most_said(&self) -> u64
        ensures value { result ≡ most_said self.now }
        ensures most { result ≤ 2 ^ 61 }
    {
        SAID_AT_ONCE.max(self.said_cost(SHORT))
    }

    /// And of what he may say to an address beyond his part.
    pub(crate) fn most_spoken(&self, to: &LineAddress) -> u64
        ensures value { result ≡ most_spoken self.now to.now }
        ensures most { result ≤ 2 ^ 61 }
    {
        SECOND.max(times(self.cost(SHORT), self.pairs(to)))
    }

    /// How long one of the longest packets takes, and a short one.
    pub(crate) fn longest(&self) -> u64
        ensures value { result ≡ longest self.now }
        ensures most { result ≤ 2 ^ 34 }
    {
        self.cost(LONGEST)
    }

    pub(crate) fn short(&self) -> u64
        ensures value { result ≡ cost self.now line_short }
        ensures most { result ≤ 2 ^ 34 }
    {
        self.cost(SHORT)
    }

    /// What speakers owe, whose parts were smaller: no more than one of the longest packets takes of them now.
    pub(crate) fn said_owed(&self, now: u64, said: u64) -> u64
        ensures { result ≡ said_owed now self.now said }
    {
        owed(now, self.most_said(), self.said_cost(LONGEST), said)
    }

    pub(crate) fn within_owed(&self, now: u64, to: &LineAddress, within: u64) -> u64
        ensures { result ≡ owed now (most_within self.now to.now) (pair_cost self.now to.now line_longest) within }
    {
        owed(
            now,
            self.most_within(to),
            self.pair_cost(to, LONGEST),
            within,
        )
    }

    pub(crate) fn own_cost(&self, bytes: usize) -> u64
        ensures value { result ≡ own_cost self.now bytes }
        ensures most { result ≤ 2 ^ 39 }
    {
        times(self.cost(bytes), OWN_PARTS)
    }

    pub(crate) fn one_cost(&self, bytes: usize) -> u64
        ensures value { result ≡ one_cost self.now bytes }
        ensures most { result ≤ 2 ^ 61 }
    {
        PARTS_OF_ONE * self.own_cost(bytes)
    }
}

/// What a copy takes more of what isn't all of the line.
fn more(nanoseconds: u64) -> u64
    requires { nanoseconds ≤ 2 ^ 34 }
    ensures value { result ≡ more nanoseconds }
    ensures most { result ≤ 2 ^ 34 }
{
    ((OWN_PARTS - PAIR_PARTS) * nanoseconds + (PAIR_PARTS - 1)) / PAIR_PARTS
}

/// The parts of so many speakers.
fn said_times(nanoseconds: u64, speakers: u64) -> u64
    requires nanoseconds { nanoseconds ≤ 2 ^ 39 }
    requires speakers { speakers ≤ 4096 }
    ensures value { result ≡ speakers * nanoseconds }
    ensures most { result ≤ 2 ^ 51 }
{
    speakers * nanoseconds
}

/// What is used of a part, as far as it is owed.
pub(crate) fn owed(now: u64, most: u64, of_longest: u64, moment: u64) -> u64
    requires most { most ≤ 2 ^ 61 }
    requires longest { of_longest ≤ 2 ^ 61 }
    ensures { result ≡ owed now most of_longest moment }
{
    held(now, most + of_longest, moment)
}

/// The parts of so many, of which each takes so long.
pub(crate) fn times(nanoseconds: u64, parts: u64) -> u64
    requires nanoseconds { nanoseconds ≤ 2 ^ 37 }
    requires parts { parts ≤ 2 ^ 24 }
    ensures value { result ≡ parts * nanoseconds }
    ensures most { result ≤ 2 ^ 61 }
{
    parts * nanoseconds
}
