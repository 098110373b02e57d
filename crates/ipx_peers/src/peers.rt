//! All places, and one's own session.
ghost use Rattle.std.specs.Prelude.{◌≡◌, ◌<◌, ◌+◌, ◌-◌, [], ◌∷◌, map, None, Some};
ghost use Rattle.std.specs.List.{list_any};
ghost use Rattle.ipx_peers.specs.Events.{Begins, Hears, Sends, Second, History};
ghost use Rattle.ipx_peers.specs.States.{state, verdict, next_number, present_at};
ghost use Rattle.ipx_peers.specs.Memory.{no_peer, Stands};
ghost use Rattle.ipx_peers.specs.declared.verdict.Verdict.TheVariants.{New};
ghost use Rattle.ipx_peers.specs.inside.Kept.{is_kept_of, is_away_in, yielded_in, later_in, counts_in, place_in, verdict_there, verdict_in, peers_after};

use crate::opened::Opened;
use crate::peer::{Peer, is_session};
use crate::present::Present;
use crate::verdict::Verdict;

/// The most places.
const MOST_PEERS: usize = 64;

/// One's own session and number, and all places, as they lie in memory that C owns. All bytes 0, it hasn't begun.
///
/// ```
/// let (here, there) = ([1; 16], [2; 16]);
/// let mut opened = Opened {
///     session: there,
///     echo: [0; 16],
///     address: [10; 24],
///     number: 1,
/// };
/// let mut peers = Peers::zeros();
/// peers.begin(here);
/// println!(rt; "it doesn't know us yet: {:?}", peers.hear(&opened))?;
/// opened.echo = here;
/// opened.number = 2;
/// println!(rt; "it does now: {:?}", peers.hear(&opened))?;
/// println!(rt; "the same once more: {:?}", peers.hear(&opened))?;
/// if let Some(present) = peers.present(0) {
///     println!(rt;
///         "to be sent there: number {}, to {}",
///         peers.number(),
///         present.address[0]
///     )?;
/// }
/// for _ in 0..180 {
///     peers.second();
/// }
/// println!(rt; "three minutes later: {:?}", peers.present(0))?;
/// // prints it doesn't know us yet: Greet
/// // prints it does now: New(0)
/// // prints the same once more: Repeated
/// // prints to be sent there: number 1, to 10
/// // prints three minutes later: None
/// ```
#[repr(C)]
#[derive(Debug, Drop)]
pub struct Peers {
    /// One's own session.
    pub session: [u8; 16],
    /// One's last number, or 0.
    pub sent: u64,
    /// How many places were heard in this session; the first ones are theirs.
    pub used: u64,
    /// The places.
    pub places: [Peer; 64],
}

impl Peers {
    /// All bytes 0.
    pub fn zeros() -> Peers
        ensures { Stands result [] }
    {
        Peers {
            session: [0; 16],
            sent: 0,
            used: 0,
            places: [Peer::none(); MOST_PEERS],
        }
    }

    /// Begins, or begins again, with a session. What was known of all places is forgotten.
    pub fn begin(&mut self, session: [u8; 16])
        ensures stands { (h : History) → Stands self.new (Begins session ∷ h) }
    {
        self.session = session;
        self.sent = 0;
        self.used = 0;
        empty_all(&mut self.places);
    }

    /// Hears a datagram. Returns what becomes of it.
    pub fn hear(&mut self, opened: &Opened) -> Verdict
        ensures verdict { (h : History) → Stands self.old h → result ≡ verdict opened.now (state h) }
        ensures stands { (h : History) → Stands self.old h → Stands self.new (Hears opened.now ∷ h) }
    {
        self.decide(opened)
    }

    /// The same, in memory.
    fn decide(&mut self, opened: &Opened) -> Verdict
        ensures verdict { result ≡ verdict_in opened.now self.old }
        ensures peers { self.new ≡ peers_after opened.now self.old (verdict_in opened.now self.old) }
    {
        if !self.counts(opened) {
            return Verdict::Dropped;
        }
        if opened.echo != self.session {
            return Verdict::Greet;
        }
        match self.place_of(opened) {
            Some(place) => self.hear_known(place, opened),
            None => self.hear_new(opened),
        }
    }

    /// Whether a datagram counts.
    fn counts(&self, opened: &Opened) -> bool
        ensures { result ≡ counts_in opened.now self.now }
    {
        is_session(self.session)
            && opened.number != 0
            && is_session(opened.session)
            && opened.session != self.session
    }

    /// Where the place of a datagram's session lies.
    fn place_of(&self, opened: &Opened) -> Option<usize>
        ensures { result ≡ place_in opened.now self.now }
    {
        self.places.iter().position(|it| it.is_of(opened.session))
    }

    /// A datagram of a place that is known.
    fn hear_known(&mut self, place: usize, opened: &Opened) -> Verdict
        requires { place < 64 }
        ensures verdict { result ≡ verdict_there opened.now self.old (Some place) }
        ensures peers { self.new ≡ peers_after opened.now self.old (verdict_there opened.now self.old (Some place)) }
    {
        if !self.places[place].has_room_for(opened) {
            return Verdict::Repeated;
        }
        self.places[place].hear(opened);
        Verdict::Heard(place as u8)
    }

    /// A datagram of a place that isn't.
    fn hear_new(&mut self, opened: &Opened) -> Verdict
        ensures verdict { result ≡ verdict_there opened.now self.old None }
        ensures peers { self.new ≡ peers_after opened.now self.old (verdict_there opened.now self.old None) }
    {
        if self.used < MOST_PEERS as u64 {
            return Verdict::New(self.take(opened));
        }
        if self.is_any_away() {
            Verdict::Again
        } else {
            Verdict::Full
        }
    }

    /// A new place takes the next one.
    fn take(&mut self, opened: &Opened) -> u8
        requires { self.old.used < 64 }
        ensures place { result ≡ self.old.used }
        ensures peers { self.new ≡ peers_after opened.now self.old (New self.old.used) }
    {
        let place = self.used as usize;
        yield_all(&mut self.places, opened.address);
        self.places[place] = Peer::first(opened);
        self.used += 1;
        place as u8
    }

    /// Whether some place isn't present.
    fn is_any_away(&self) -> bool
        ensures { result ≡ list_any is_away_in self.now.places }
    {
        self.places.iter().any(|it| it.is_away())
    }

    /// The number of the next datagram to be sent. 0, there is none left.
    pub fn number(&mut self) -> u64
        ensures number { (h : History) → Stands self.old h → result ≡ next_number (state h) }
        ensures stands { (h : History) → Stands self.old h → Stands self.new (Sends ∷ h) }
    {
        if self.sent == u64::MAX {
            return 0;
        }
        self.sent += 1;
        self.sent
    }

    /// What a datagram to that place needs, if it is present.
    pub fn present(&self, place: u8) -> Option<Present>
        ensures { (h : History) → Stands self.now h → result ≡ present_at place (state h) }
    {
        let place = usize::from(place);
        if place >= MOST_PEERS || self.places[place].is_away() {
            return None;
        }
        Some(self.places[place].whereabouts())
    }

    /// A second passes.
    pub fn second(&mut self)
        ensures { (h : History) → Stands self.old h → Stands self.new (Second ∷ h) }
    {
        pass(&mut self.places);
    }
}

/// All places are forgotten.
fn empty_all(places: &mut [Peer])
    ensures { places.new ≡ map (λ _. no_peer) places.old }
{
    for place in places.iter_mut() {
        *place = Peer::none();
    }
}

/// A new place is at an address.
fn yield_all(places: &mut [Peer], address: [u8; 24])
    ensures { places.new ≡ map (yielded_in address) places.old }
{
    for place in places.iter_mut() {
        place.yield_at(address);
    }
}

/// A second passes for all places.
fn pass(places: &mut [Peer])
    ensures { places.new ≡ map later_in places.old }
{
    for place in places.iter_mut() {
        place.pass();
    }
}
