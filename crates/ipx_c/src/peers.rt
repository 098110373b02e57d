//! Gateways that share one network over UDP, as C asks for it. What is known lies in memory of C's own, and needs no handle.
ghost use Rattle.std.specs.Prelude.{◌≡◌, ◌∷◌};
ghost use Rattle.std.specs.Option.{is_some};
ghost use Rattle.ipx_peers.specs.Events.{Begins, Hears, Sends, Second, History};
ghost use Rattle.ipx_peers.specs.States.{state, verdict, next_number, present_at};
ghost use Rattle.ipx_peers.specs.Memory.{Stands};
ghost use Rattle.ipx_c.specs.PeerValues.{verdict_number, place_heard, session_or, address_or};

use ipx_peers::{Opened, Peers, Verdict};

/// The number of each verdict.
const DROPPED: u8 = 0;

const GREET: u8 = 1;

const REPEATED: u8 = 2;

const HEARD: u8 = 3;

const NEW: u8 = 4;

const FULL: u8 = 5;

const AGAIN: u8 = 6;

/// Begins, or begins again, with a session.
#[unsafe(no_mangle)]
pub extern "C" fn ipxr_peers_begin(peers: &mut Peers, session: &[u8; 16])
    ensures stands { (h : History) → Stands peers.new (Begins session.now ∷ h) }
{
    peers.begin(*session);
}

/// Hears a datagram. Returns the number of what becomes of it; where it is heard, `place` is the number of its place then.
#[unsafe(no_mangle)]
pub extern "C" fn ipxr_peers_hear(peers: &mut Peers, opened: &Opened, place: &mut u8) -> u8
    ensures verdict { (h : History) → Stands peers.old h → result ≡ verdict_number (verdict opened.now (state h)) }
    ensures place { (h : History) → Stands peers.old h → place.new ≡ place_heard (verdict opened.now (state h)) place.old }
    ensures stands { (h : History) → Stands peers.old h → Stands peers.new (Hears opened.now ∷ h) }
{
    let verdict = peers.hear(opened);
    put_place(verdict, place);
    verdict_number(verdict)
}

fn put_place(verdict: Verdict, place: &mut u8)
    ensures { place.new ≡ place_heard verdict place.old }
{
    if let Verdict::Heard(number) | Verdict::New(number) = verdict {
        *place = number;
    }
}

fn verdict_number(verdict: Verdict) -> u8
    ensures { result ≡ verdict_number verdict }
{
    match verdict {
        Verdict::Dropped => DROPPED,
        Verdict::Greet => GREET,
        Verdict::Repeated => REPEATED,
        Verdict::Heard(_) => HEARD,
        Verdict::New(_) => NEW,
        Verdict::Full => FULL,
        Verdict::Again => AGAIN,
    }
}

/// The number of the next datagram to be sent; 0 where there is none.
#[unsafe(no_mangle)]
pub extern "C" fn ipxr_peers_number(peers: &mut Peers) -> u64
    ensures number { (h : History) → Stands peers.old h → result ≡ next_number (state h) }
    ensures stands { (h : History) → Stands peers.old h → Stands peers.new (Sends ∷ h) }
{
    peers.number()
}

/// Whether a place is present, and then its session and its address.
#[unsafe(no_mangle)]
pub extern "C" fn ipxr_peers_present(
    peers: &Peers,
    place: u8,
    session: &mut [u8; 16],
    address: &mut [u8; 24],
) -> bool
    ensures present { (h : History) → Stands peers.now h → result ≡ is_some (present_at place (state h)) }
    ensures session { (h : History) → Stands peers.now h → session.new ≡ session_or (present_at place (state h)) session.old }
    ensures address { (h : History) → Stands peers.now h → address.new ≡ address_or (present_at place (state h)) address.old }
{
    match peers.present(place) {
        Some(present) => {
            let (its_session, its_address) = (present.session, present.address);
            *session = its_session;
            *address = its_address;
            true
        }
        None => false,
    }
}

/// A second passes.
#[unsafe(no_mangle)]
pub extern "C" fn ipxr_peers_second(peers: &mut Peers)
    ensures stands { (h : History) → Stands peers.old h → Stands peers.new (Second ∷ h) }
{
    peers.second();
}
