//! Which copies find room on a narrow line.
ghost use Rattle.std.specs.Prelude.{◌≡◌, ◌≤◌, ◌^◌, true};
ghost use Rattle.ipx_limits.specs.LineParts.{owed};
ghost use Rattle.ipx_limits.specs.LineRoom.{place_of, use_at, is_alone, speaks_to_itself, is_within, has_part, says_little, rank_of, most_room, room_of, address_owed, LineAsked, most_used, line_after, LineSent, lets_beyond, taken, is_little, is_of_part, is_spoken, is_received, own_cost, own_after, one_cost, most_of_one, one_owed, lets_one, lets_answer, lets_stranger, strangers_owed, stranger_after};

use crate::limits::SECOND;
use crate::line::{Line, LineAddress};
use crate::line_parts::{LONGEST, MILLISECOND, SHORT, ahead, from_now, owed, times};
use crate::rank::Rank;

/// For how long the line may be busy when a copy goes out, by its rank.
const BEYOND: u64 = 20 * MILLISECOND;

const OF_ADDRESS: u64 = 40 * MILLISECOND;

const OF_SPEAKER: u64 = 80 * MILLISECOND;

const WITHIN: u64 = 310 * MILLISECOND;

/// How much of its part an address may receive at once.
const RECEIVED_AT_ONCE: u64 = 250 * MILLISECOND;

/// How many numbers are told apart.
const NUMBERS: u8 = 64;

/// What is used now: of the line; by the speaker, of what he may say to all; by the address; by the speaker, of his part of the address' part,
/// and beyond that.
#[derive(Clone, Copy, Debug)]
pub(crate) struct LineUse {
    pub(crate) line: u64,
    pub(crate) said: u64,
    pub(crate) received: u64,
    pub(crate) within: u64,
    pub(crate) spoken: u64,
}

impl Line {
    /// Whether there is room for a copy of a packet of so many bytes to an address, and with which rank it goes out: ask, and then send. The
    /// speaker has a number, or 0 if it has no part; `said` is the moment until which his part of what is said
    /// to all is used. (whoever used parts while they were smaller owes no more for it than one of the longest packets takes of them now)
    pub fn room(
        &self,
        now: u64,
        number: u8,
        bytes: usize,
        said: &mut u64,
        to: &mut LineAddress,
    ) -> Option<Rank>
        ensures { LineAsked now self.now number bytes said.old said.new result to.old to.new }
    {
        *said = self.said_owed(now, *said);
        self.hold(now, number, to);
        let place = usize::from(number % NUMBERS);
        let used = LineUse {
            line: ahead(now, self.used),
            said: ahead(now, *said),
            received: ahead(now, to.received),
            within: ahead(now, to.within[place]),
            spoken: ahead(now, to.spoken[place]),
        };
        let rank = self.rank(to, number, bytes, used);
        if used.line <= self.room_of(rank) {
            Some(rank)
        } else {
            None
        }
    }

    /// A copy goes out that found room with that rank.
    pub fn send(
        &mut self,
        now: u64,
        number: u8,
        bytes: usize,
        rank: Rank,
        said: &mut u64,
        to: &mut LineAddress,
    )
        ensures { LineSent now number bytes rank self.old self.new said.old said.new to.old to.new }
    {
        let cost = self.cost(bytes);
        let place = usize::from(number % NUMBERS);
        let of_pair = times(cost, self.pairs(to));
        match rank {
            Rank::Within => {
                let of_part = self.pair_cost(to, bytes);
                to.within[place] = further(now, to.within[place], of_part);
                to.spoken[place] = further(now, to.spoken[place], of_pair);
            }
            Rank::Little => *said = further(now, *said, self.said_cost(bytes)),
            Rank::OfSpeaker => to.spoken[place] = further(now, to.spoken[place], of_pair),
            _ => (),
        }
        if rank != Rank::Beyond {
            to.received = further(now, to.received, times(cost, self.receivers()));
        }
        self.goes(now, bytes);
    }

    /// Whether there is room for a copy beyond all parts, which is sent as `Beyond`: for what clients answer to pings, so that nobody fills the
    /// line with that.
    pub fn lets_beyond(&self, now: u64) -> bool
        ensures { result ≡ lets_beyond now self.now }
    {
        ahead(now, self.used) <= BEYOND
    }

    /// Whether an answer of the gateway's own goes out to a client. `address` is the moment until which the part of that is used which his
    /// address has: so whoever asks again and again uses up nobody else's.
    pub fn lets_answer(&self, now: u64, address: &mut u64) -> bool
        ensures room { result ≡ lets_answer now self.now address.new }
        ensures address { address.new ≡ one_owed now self.now address.old }
    {
        *address = self.one_owed(now, *address);
        self.lets_one(now, self.own, *address) || self.lets_beyond(now)
    }

    /// It goes out.
    pub fn send_answer(&mut self, now: u64, bytes: usize, address: &mut u64)
        ensures line { self.new ≡ own_after now self.old bytes }
        ensures address { address.new ≡ taken now true (one_cost self.old bytes) address.old }
    {
        *address = further(now, *address, self.one_cost(bytes));
        self.send_ping(now, bytes);
    }

    /// A ping goes out, for which there is always room, since by it clients stay.
    pub fn send_ping(&mut self, now: u64, bytes: usize)
        ensures { self.new ≡ own_after now self.old bytes }
    {
        let used = further(now, self.own, self.own_cost(bytes));
        self.own = owed(now, SECOND, self.own_cost(LONGEST), used);
        self.goes(now, bytes);
    }

    /// Whether there is room for what the gateway says to one who is no client. `address` is the moment until which the part of that is used
    /// which his address has.
    pub fn lets_stranger(&mut self, now: u64, address: &mut u64) -> bool
        ensures room { result ≡ lets_stranger now self.new address.new }
        ensures line { self.new ≡ strangers_owed now self.old }
        ensures address { address.new ≡ one_owed now self.old address.old }
    {
        *address = self.one_owed(now, *address);
        self.to_strangers = owed(now, SECOND, self.own_cost(LONGEST), self.to_strangers);
        self.lets_one(now, self.to_strangers, *address)
    }

    /// It goes out.
    pub fn send_to_stranger(&mut self, now: u64, bytes: usize, address: &mut u64)
        ensures line { self.new ≡ stranger_after now self.old bytes }
        ensures address { address.new ≡ taken now true (one_cost self.old bytes) address.old }
    {
        *address = further(now, *address, self.one_cost(bytes));
        self.to_strangers = further(now, self.to_strangers, self.own_cost(bytes));
        self.goes(now, bytes);
    }

    /// Nanoseconds from a ping of so many bytes to the next, so that those of many clients keep to the part of the gateway's own datagrams.
    pub fn between_pings(&self, bytes: usize) -> u64
        ensures { result ≡ own_cost self.now bytes }
    {
        self.own_cost(bytes)
    }
}

impl Line {
    /// Something goes out.
    fn goes(&mut self, now: u64, bytes: usize)
        ensures { self.new ≡ line_after now self.old bytes }
    {
        let busy = ahead(now, self.used).saturating_add(self.cost(bytes));
        self.used = from_now(now, busy.min(self.most_used()));
    }

    /// How much one address may use at once of what the gateway answers clients, or of what goes to strangers.
    fn most_of_one(&self) -> u64
        ensures value { result ≡ most_of_one self.now }
        ensures most { result ≤ 2 ^ 61 }
    {
        SECOND.max(self.one_cost(SHORT))
    }

    fn one_owed(&self, now: u64, address: u64) -> u64
        ensures { result ≡ one_owed now self.now address }
    {
        owed(now, self.most_of_one(), self.one_cost(LONGEST), address)
    }

    /// Whether there is room for a datagram of a part that is used until one moment, to an address whose part of it is until another.
    fn lets_one(&self, now: u64, part: u64, address: u64) -> bool
        ensures { result ≡ lets_one now self.now part address }
    {
        ahead(now, part) <= SECOND
            && ahead(now, address) <= self.most_of_one()
            && ahead(now, self.used) <= self.most_room()
    }

    fn most_room(&self) -> u64
        ensures value { result ≡ most_room self.now }
        ensures most { result ≤ 2 ^ 37 }
    {
        WITHIN + self.longest() + 2 * self.short()
    }

    fn most_used(&self) -> u64
        ensures value { result ≡ most_used self.now }
        ensures most { result ≤ 2 ^ 38 }
    {
        SECOND.max(self.most_room() + self.longest())
    }

    /// What is used of the parts that a copy to an address takes, as far as it is owed.
    fn hold(&self, now: u64, number: u8, to: &mut LineAddress)
        ensures { to.new ≡ address_owed now self.now to.old number }
    {
        let place = usize::from(number % NUMBERS);
        let within = self.within_owed(now, to, to.within[place]);
        let of_pair = times(self.longest(), self.pairs(to));
        let spoken = owed(now, self.most_spoken(to), of_pair, to.spoken[place]);
        let of_address = times(self.longest(), self.receivers());
        to.received = owed(now, RECEIVED_AT_ONCE, of_address, to.received);
        to.within[place] = within;
        to.spoken[place] = spoken;
    }

    fn rank(&self, to: &LineAddress, number: u8, bytes: usize, used: LineUse) -> Rank
        ensures { result ≡ rank_of self.now to.now number bytes used }
    {
        if self.is_within(to, number, bytes, used) {
            Rank::Within
        } else if self.says_little(number, bytes, used) {
            Rank::Little
        } else if used.spoken <= self.most_spoken(to) {
            Rank::OfSpeaker
        } else if used.received <= RECEIVED_AT_ONCE {
            Rank::OfAddress
        } else {
            Rank::Beyond
        }
    }

    fn is_within(&self, to: &LineAddress, number: u8, bytes: usize, used: LineUse) -> bool
        ensures { result ≡ is_within self.now to.now number bytes used }
    {
        let most = self.most_within(to);
        number != 0
            && !self.speaks_to_itself(to, number)
            && used.within <= most
            && self.pair_cost(to, bytes) <= most - used.within
    }

    fn speaks_to_itself(&self, to: &LineAddress, number: u8) -> bool
        ensures { result ≡ speaks_to_itself self.now to.now number }
    {
        number == to.number && to.clients == 1 && self.is_alone(number)
    }

    fn is_alone(&self, number: u8) -> bool
        ensures { result ≡ is_alone self.now number }
    {
        self.numbers.users[usize::from(number)] <= 1
    }

    fn says_little(&self, number: u8, bytes: usize, used: LineUse) -> bool
        ensures { result ≡ says_little self.now number bytes used }
    {
        let most = self.most_said();
        number != 0
            && (used.received <= RECEIVED_AT_ONCE || !self.is_alone(number))
            && used.said <= most
            && self.said_cost(bytes) <= most - used.said
    }

    fn room_of(&self, rank: Rank) -> u64
        ensures { result ≡ room_of self.now rank }
    {
        match rank {
            Rank::Beyond => BEYOND,
            Rank::OfAddress => OF_ADDRESS,
            Rank::OfSpeaker => OF_SPEAKER,
            Rank::Little | Rank::Within => self.most_room(),
        }
    }
}

/// The moment until which something is used, after so many nanoseconds more.
fn further(now: u64, moment: u64, nanoseconds: u64) -> u64
    ensures { result ≡ taken now true nanoseconds moment }
{
    from_now(now, ahead(now, moment).saturating_add(nanoseconds))
}
