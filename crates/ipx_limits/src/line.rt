//! A narrow line, and who is on it.
ghost use Rattle.std.specs.Prelude.{◌≡◌, replicate};
ghost use Rattle.ipx_limits.specs.LineMembers.{one_more, LineJoined, LineLeft, LineSpoken, LineSilent, LineSecond, is_silent};

use crate::queues::Queues;

/// The numbers of those who speak: the first, and the last.
const FIRST_NUMBER: u8 = 1;

const LAST_NUMBER: u8 = 63;

/// Seconds for which whoever spoke has a number.
const QUIET_SECONDS: u8 = 10;

/// A narrow line by which packets go out to clients: who says and receives no more than his parts of it finds room, whatever others do. All
/// bytes 0 are a line of one kilobit a second that nobody uses.
///
/// ```
/// let mut line = Line::zeros();
/// line.kilobits = 1000;
/// let (mut from, mut to) = (LineAddress::zeros(), LineAddress::zeros());
/// line.join(&mut to);
/// let number = line.speak(&mut from);
/// let (now, mut said) = (0, 0);
/// let first = line.room(now, number, 1424, &mut said, &mut to);
/// println!(rt; "a long packet goes out: {first:?}")?;
/// line.used = 100_000_000;
/// let router = line.room(now, 0, 1424, &mut said, &mut to);
/// let short = line.room(now, number, 50, &mut said, &mut to);
/// println!(rt; "the line is full: {router:?}, but a speaker's: {short:?}")?;
/// // prints a long packet goes out: Some(Within)
/// // prints the line is full: None, but a speaker's: Some(Within)
/// ```
#[repr(C)]
#[derive(Clone, Copy, Debug)]
pub struct Line {
    /// How much it carries in a second; 0 is 1.
    pub kilobits: u32,
    /// Addresses that have clients there,
    pub addresses: u32,
    /// and addresses that speak to these, with clients there or elsewhere.
    pub speakers: u32,
    /// The moment until which it is busy, in nanoseconds of the caller's clock;
    pub used: u64,
    /// until which the part of the gateway's own datagrams is used,
    pub own: u64,
    /// and until which that of datagrams to those who are no clients is.
    pub to_strangers: u64,
    /// Who speaks has one of its queues, for a number.
    pub numbers: Queues,
}

/// An address with clients that are reached by a narrow line, or that speaks to such.
///
/// See the example of [`Line`].
#[repr(C)]
#[derive(Clone, Copy, Debug)]
pub struct LineAddress {
    /// Clients that it has there.
    pub clients: u32,
    /// The number that it has while it speaks, or 0;
    pub number: u8,
    /// and seconds since it did.
    pub quiet: u8,
    /// The moment until which its part is used, by what it receives;
    pub received: u64,
    /// until which the parts of that are used, of each who speaks to it, by his number;
    pub within: [u64; 64],
    /// and until which is used what each may say to it beyond that.
    pub spoken: [u64; 64],
}

impl Line {
    /// All bytes 0.
    pub fn zeros() -> Line
        ensures { result ≡ record { kilobits = 0; addresses = 0; speakers = 0; used = 0; own = 0; to_strangers = 0; numbers = record { users = replicate 256 0; last = 0 } } }
    {
        Line {
            kilobits: 0,
            addresses: 0,
            speakers: 0,
            used: 0,
            own: 0,
            to_strangers: 0,
            numbers: Queues::zeros(),
        }
    }

    /// An address has one more client there.
    pub fn join(&mut self, address: &mut LineAddress)
        ensures { LineJoined self.old self.new address.old address.new }
    {
        if address.clients == 0 {
            self.addresses = self.addresses.saturating_add(1);
        }
        address.clients = address.clients.saturating_add(1);
    }

    /// An address has one fewer.
    pub fn leave(&mut self, address: &mut LineAddress)
        ensures { LineLeft self.old self.new address.old address.new }
    {
        if address.clients == 1 {
            self.addresses = self.addresses.saturating_sub(1);
        }
        address.clients = address.clients.saturating_sub(1);
    }

    /// An address speaks. Returns the number that it has then.
    pub fn speak(&mut self, address: &mut LineAddress) -> u8
        ensures number { result ≡ address.new.number }
        ensures address { LineSpoken self.old self.new address.old address.new }
    {
        if address.number == 0 {
            address.number = self.numbers.take(FIRST_NUMBER, LAST_NUMBER);
            self.speakers = self.speakers.saturating_add(1);
        }
        address.quiet = 0;
        address.number
    }

    /// An address speaks no more, or is gone.
    pub fn silence(&mut self, address: &mut LineAddress)
        ensures { LineSilent self.old self.new address.old address.new }
    {
        if address.number != 0 {
            self.numbers.give_back(address.number);
            self.speakers = self.speakers.saturating_sub(1);
        }
        address.number = 0;
    }

    /// A second passes: an address that was silent for ten has no number any more; one that shares its number has one of its own from then on,
    /// if there is one.
    pub fn second(&mut self, address: &mut LineAddress)
        ensures { LineSecond (is_silent address.old) self.old self.new address.old address.new }
    {
        if address.quiet >= QUIET_SECONDS {
            self.silence(address);
            return;
        }
        if address.number != 0 {
            let own = self
                .numbers
                .unshare(address.number, FIRST_NUMBER, LAST_NUMBER);
            address.number = own;
        }
        address.quiet += 1;
    }
}

impl LineAddress {
    /// All bytes 0: one without a client there, that never spoke.
    pub fn zeros() -> LineAddress
        ensures { result ≡ record { clients = 0; number = 0; quiet = 0; received = 0; within = replicate 64 0; spoken = replicate 64 0 } }
    {
        LineAddress {
            clients: 0,
            number: 0,
            quiet: 0,
            received: 0,
            within: [0; 64],
            spoken: [0; 64],
        }
    }
}
