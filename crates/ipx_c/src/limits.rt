//! A gateway's limits, as C asks for them. What is used lies in memory of C's own, and needs no handle.
ghost use Rattle.std.specs.Prelude.{◌≡◌, ◌-◌, ◌==◌, true, not, min, if◌then◌else◌};
ghost use Rattle.ipx_fair.specs.Meters.{metered};
ghost use Rattle.ipx_fair.specs.Serving.{Passed};
ghost use Rattle.ipx_fair.specs.States.{empty};
ghost use Rattle.ipx_fair.specs.Tallies.{receiver_of};
ghost use Rattle.ipx_limits.specs.declared.decision.Decision.{Decision};
ghost use Rattle.ipx_limits.specs.Deciding.{account, later, Pinged, PingedInFrame, Answered, Paged, Handed, FramesHanded};
ghost use Rattle.ipx_limits.specs.Kinds.{kind_of};
ghost use Rattle.ipx_limits.specs.Limits.{limits_at, household_at, told_on_links};
ghost use Rattle.ipx_limits.specs.Numbers.{most_rate};
ghost use Rattle.ipx_limits.specs.Queues.{Taken, GivenBack, Unshared};
ghost use Rattle.ipx_limits.specs.Receiving.{reads_of, Received, ReceivedAtAddress, HeardOfRouter, ReceivedOfRouter, Carried};
ghost use Rattle.ipx_limits.specs.Strangers.{strangers_at, Sent};
ghost use Rattle.ipx_c.specs.LimitValues.{setting_of, kind_at, kind_number, decision_number};

use crate::limit_values::{decision_number, kind_at, kind_number, link_of};
use ipx_fair::{Meter, Receiver256};
use ipx_limits::{
    Address, Client, HouseholdLimits, Kind, Limits, NetworkSetting, Queues, Reader,
    StrangersLimits, told_on_links,
};

// ---- Making

/// Makes the limits of a network. Returns whether it has any: its rate isn't 0. If not, they stay what they were.
#[unsafe(no_mangle)]
pub extern "C" fn ipxr_limits_make(
    limits: &mut Limits,
    link: u8,
    rate: u32,
    share: u32,
    routes: u16,
    services: u16,
) -> bool
    ensures has_any { result ≡ not (rate == 0) }
    ensures limits { limits.new ≡ (if result then limits_at (setting_of link rate share routes services) else limits.old) }
{
    let made = Limits::of(NetworkSetting {
        link: link_of(link),
        rate,
        share,
        routes,
        services,
    });
    if let Some(made) = made {
        *limits = made;
    }
    rate != 0
}

/// The same of what all clients of an address receive.
#[unsafe(no_mangle)]
pub extern "C" fn ipxr_household_make(limits: &mut HouseholdLimits, rate: u32) -> bool
    ensures has_any { result ≡ not (rate == 0) }
    ensures limits { limits.new ≡ (if result then household_at (min rate most_rate) else limits.old) }
{
    if let Some(made) = HouseholdLimits::of(rate) {
        *limits = made;
    }
    rate != 0
}

/// The same of what goes to places without a client.
#[unsafe(no_mangle)]
pub extern "C" fn ipxr_strangers_make(limits: &mut StrangersLimits, rate: u32) -> bool
    ensures has_any { result ≡ not (rate == 0) }
    ensures limits { limits.new ≡ (if result then strangers_at (min rate most_rate) else limits.old) }
{
    if let Some(made) = StrangersLimits::of(rate) {
        *limits = made;
    }
    rate != 0
}

/// Makes it what all networks of frames tell the router together, of whom none has told anything yet.
#[unsafe(no_mangle)]
pub extern "C" fn ipxr_told_make(links: &mut Receiver256)
    ensures { receiver_of links.new ≡ empty told_on_links 256 }
{
    let _ = links.make(told_on_links());
}

// ---- Time

/// The time passes that a clock shows beyond what it showed at the last look; none where it went back.
#[unsafe(no_mangle)]
pub extern "C" fn ipxr_reader_look(reader: &mut Reader, clock: &mut u64, now: u64)
    ensures clock { clock.new ≡ now }
    ensures packets { Passed (now - clock.old) (reads_of reader.old).packets (reads_of reader.new).packets }
    ensures pieces { Passed (now - clock.old) (reads_of reader.old).pieces (reads_of reader.new).pieces }
{
    reader.pass(now.saturating_sub(*clock));
    *clock = now;
}

/// The same for what a client uses of limits.
#[unsafe(no_mangle)]
pub extern "C" fn ipxr_client_look(client: &mut Client, clock: &mut u64, now: u64)
    ensures clock { clock.new ≡ now }
    ensures client { client.new ≡ record { pinged = later (now - clock.old) client.old.pinged; asked = later (now - clock.old) client.old.asked; answered = later (now - clock.old) client.old.answered; paged = later (now - clock.old) client.old.paged } }
{
    client.pass(now.saturating_sub(*clock));
    *clock = now;
}

/// The same for what an address does.
#[unsafe(no_mangle)]
pub extern "C" fn ipxr_address_look(address: &mut Address, clock: &mut u64, now: u64)
    ensures clock { clock.new ≡ now }
    ensures address { address.new ≡ record { asked = later (now - clock.old) address.old.asked; answered = later (now - clock.old) address.old.answered; paged = later (now - clock.old) address.old.paged } }
{
    address.pass(now.saturating_sub(*clock));
    *clock = now;
}

// ---- What is said

/// The kind of the packet in the bytes.
#[unsafe(no_mangle)]
pub extern "C" fn ipxr_kind_of(packet: &[u8]) -> u8
    ensures { result ≡ kind_number (kind_of packet.now) }
{
    kind_number(Kind::of(packet))
}

/// What becomes of a packet that a client says.
#[unsafe(no_mangle)]
pub extern "C" fn ipxr_limits_says(
    limits: &Limits,
    kind: u8,
    client: &mut Client,
    all: &mut Meter,
) -> u8
    ensures { (decision : Decision) × ((result ≡ decision_number decision) × Pinged limits.now (kind_at kind) decision client.old client.new all.old all.new) }
{
    decision_number(limits.says(kind_at(kind), client, all))
}

/// The same of a packet that came in a frame.
#[unsafe(no_mangle)]
pub extern "C" fn ipxr_limits_frames_say(limits: &Limits, kind: u8, all: &mut Meter) -> u8
    ensures { (decision : Decision) × ((result ≡ decision_number decision) × PingedInFrame limits.now (kind_at kind) decision all.old all.new) }
{
    decision_number(limits.frames_say(kind_at(kind), all))
}

/// Whether the gateway answers a client that registers or pings, whose address has so many.
#[unsafe(no_mangle)]
pub extern "C" fn ipxr_limits_answers(
    limits: &Limits,
    clients: u32,
    client: &mut Client,
    address: &mut Address,
) -> u8
    ensures { (decision : Decision) × ((result ≡ decision_number decision) × Answered limits.now clients decision client.old client.new address.old address.new) }
{
    decision_number(limits.answers(clients, client, address))
}

/// Whether a client, whose address has so many, gets a packet by which the router answers what it asked.
#[unsafe(no_mangle)]
pub extern "C" fn ipxr_limits_router_answers(
    limits: &Limits,
    clients: u32,
    client: &mut Client,
    address: &mut Address,
) -> u8
    ensures { (decision : Decision) × ((result ≡ decision_number decision) × Paged limits.now clients decision client.old client.new address.old address.new) }
{
    decision_number(limits.router_answers(clients, client, address))
}

/// What becomes of a packet that a client, whose address has so many, hands to the router.
#[unsafe(no_mangle)]
pub extern "C" fn ipxr_limits_hands(
    limits: &Limits,
    clients: u32,
    kind: u8,
    client: &mut Client,
    address: &mut Address,
    handed: &mut Meter,
    advertised: &mut Meter,
) -> u8
    ensures { (decision : Decision) × ((result ≡ decision_number decision) × Handed limits.now clients (kind_at kind) decision client.old client.new address.old address.new (account handed.old advertised.old) (account handed.new advertised.new)) }
{
    decision_number(limits.hands(clients, kind_at(kind), client, address, handed, advertised))
}

/// What becomes of a packet that a network of frames hands to the router.
#[unsafe(no_mangle)]
pub extern "C" fn ipxr_limits_frames_hand(
    limits: &Limits,
    link: u8,
    kind: u8,
    asked: &mut Meter,
    advertised: &mut Meter,
    links: &mut Receiver256,
) -> u8
    ensures { (decision : Decision) × ((result ≡ decision_number decision) × FramesHanded limits.now link (kind_at kind) decision asked.old asked.new advertised.old advertised.new (receiver_of links.old) (receiver_of links.new)) }
{
    decision_number(limits.frames_hand(link, kind_at(kind), asked, advertised, links))
}

// ---- What is received

/// Whether a client whose address has no limit receives a packet of somebody who has a queue there.
#[unsafe(no_mangle)]
pub extern "C" fn ipxr_limits_receives(
    limits: &Limits,
    client: &mut Reader,
    queue: u8,
    bytes: usize,
) -> u8
    ensures { (decision : Decision) × ((result ≡ decision_number decision) × Received limits.now queue bytes decision (reads_of client.old) (reads_of client.new)) }
{
    decision_number(limits.receives(client, queue, bytes))
}

/// A client whose address has no limit receives a packet of the router.
#[unsafe(no_mangle)]
pub extern "C" fn ipxr_limits_hears_router(
    limits: &Limits,
    client: &mut Reader,
    queue: u8,
    bytes: usize,
)
    ensures { HeardOfRouter limits.now queue bytes true (reads_of client.old) (reads_of client.new) }
{
    limits.hears_router(client, queue, bytes);
}

/// Whether a link with frames gets a packet of somebody who has a queue there, in so many frames.
#[unsafe(no_mangle)]
pub extern "C" fn ipxr_limits_carries(
    limits: &Limits,
    link: &mut Reader,
    queue: u8,
    bytes: usize,
    frames: u32,
) -> u8
    ensures { (decision : Decision) × ((result ≡ decision_number decision) × Carried limits.now queue bytes frames decision (reads_of link.old) (reads_of link.new)) }
{
    decision_number(limits.carries(link, queue, bytes, frames))
}

/// Whether a client receives a packet of another address, which has a queue there, and one at the client's address.
#[unsafe(no_mangle)]
pub extern "C" fn ipxr_household_receives(
    household: &HouseholdLimits,
    limits: &Limits,
    client: &mut Reader,
    address: &mut Receiver256,
    queue: u8,
    bytes: usize,
) -> u8
    ensures { (decision : Decision) × ((result ≡ decision_number decision) × ReceivedAtAddress limits.now household.now queue queue bytes decision (reads_of client.old) (reads_of client.new) (receiver_of address.old) (receiver_of address.new)) }
{
    decision_number(household.receives(limits, client, address, queue, bytes))
}

/// Whether a client receives a packet of its own address, which has a queue there.
#[unsafe(no_mangle)]
pub extern "C" fn ipxr_household_receives_of_own(
    household: &HouseholdLimits,
    limits: &Limits,
    client: &mut Reader,
    among: &mut Meter,
    queue: u8,
    bytes: usize,
) -> u8
    ensures { (decision : Decision) × ((result ≡ decision_number decision) × ReceivedAtAddress limits.now household.now queue 0 bytes decision (reads_of client.old) (reads_of client.new) (metered household.now.among among.old) (metered household.now.among among.new)) }
{
    decision_number(household.receives_of_own(limits, client, among, queue, bytes))
}

/// Whether a client receives a packet of the router, which has a queue there, and one at the client's address.
#[unsafe(no_mangle)]
pub extern "C" fn ipxr_household_receives_of_router(
    household: &HouseholdLimits,
    limits: &Limits,
    client: &mut Reader,
    address: &mut Receiver256,
    queue: u8,
    bytes: usize,
) -> u8
    ensures { (decision : Decision) × ((result ≡ decision_number decision) × ReceivedOfRouter limits.now household.now queue bytes decision (reads_of client.old) (reads_of client.new) (receiver_of address.old) (receiver_of address.new)) }
{
    decision_number(household.receives_of_router(limits, client, address, queue, bytes))
}

/// Gives somebody who begins to speak a queue, of those from the first to the last.
#[unsafe(no_mangle)]
pub extern "C" fn ipxr_queues_take(queues: &mut Queues, first: u8, last: u8) -> u8
    ensures { Taken first last result queues.old queues.new }
{
    queues.take(first, last)
}

/// Somebody who shares a queue gets one that nobody has, if there is one. Returns the one that he has then.
#[unsafe(no_mangle)]
pub extern "C" fn ipxr_queues_unshare(queues: &mut Queues, queue: u8, first: u8, last: u8) -> u8
    ensures { Unshared first last queue result queues.old queues.new }
{
    queues.unshare(queue, first, last)
}

/// Somebody who has a queue speaks no more.
#[unsafe(no_mangle)]
pub extern "C" fn ipxr_queues_give_back(queues: &mut Queues, queue: u8)
    ensures { GivenBack queue queues.old queues.new }
{
    queues.give_back(queue);
}

// ---- Strangers

/// Whether so many datagrams go to an address, of all that go to places without a client: all of them, or none.
#[unsafe(no_mangle)]
pub extern "C" fn ipxr_strangers_send(
    limits: &StrangersLimits,
    count: u32,
    address: &mut Meter,
    all: &mut Meter,
) -> u8
    ensures { (decision : Decision) × ((result ≡ decision_number decision) × Sent limits.now count decision address.old address.new all.old all.new) }
{
    decision_number(limits.sends(count, address, all))
}
