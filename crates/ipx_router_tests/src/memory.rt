//! Room in an outbox: a refusal of memory changes nothing, and room that was reserved is enough.
ghost use Rattle.std.specs.Prelude.{◌≡◌};
ghost use Rattle.ipx_router.specs.Happened.{happened};
ghost use Rattle.ipx_router.specs.History.{IsOnPort};

use crate::same::same;
use crate::watched::{A, B, entry, node, on, ports, response, sent};
use ipx_router::{Event, Need, Outbox, Outcome, RouteOffer, Router};
use ipx_table::Held;
use ipx_wire::{Network, Node, OutOfMemory, Service, ServiceName, Socket, write_query, write_sap};
use std::alloc::Global;
use std::test::Fail;

/// More than any memory has.
const TOO_MUCH: usize = usize::MAX / 2;

/// What a refusal may not change: whether the router runs, its route, how many packets there are, and the last of them.
type Seen = (bool, Option<Held<RouteOffer>>, usize, Option<(u8, usize)>);

fn seen(router: &Router<2, 50, 8>, outbox: &Outbox) -> Seen {
    let last = sent(outbox, outbox.len().saturating_sub(1));
    let route = router.route(Network(0x30));
    (router.is_running(), route, outbox.len(), last)
}

/// Takes an event. Where memory is refused, router and outbox have to be as they were, and the event is given again.
fn stepped(
    router: &mut Router<2, 50, 8>,
    outbox: &mut Outbox,
    event: Event<'_>,
) -> Result<Outcome, Fail>
    requires port { IsOnPort router.old.ports (happened event) }
    ensures ports { router.new.ports ≡ router.old.ports }
{
    let before = seen(router, outbox);
    match router.step(event, outbox) {
        Ok(outcome) => Ok(outcome),
        Err(OutOfMemory) => {
            if seen(router, outbox) != before {
                return Err(Fail::new("a refusal changed something"));
            }
            Ok(router.step(event, outbox)?)
        }
    }
}

/// It passes whichever request for memory is refused: `dev/refusals` tries each on the built test.
#[test]
fn a_step_without_memory_can_be_taken_again(rt: HostRuntime) -> Result<(), Fail> {
    let mut router = Router::<2, 50, 8>::new(&ports()?)?;
    let mut outbox = Outbox::new(rt.alloc());
    let bytes = response(1, B, &[entry(0x30, 1, 2)]).ok_or("no response")?;
    let heard = Event::Packet {
        port: 1,
        bytes: &bytes,
    };
    let started = stepped(&mut router, &mut outbox, Event::Start)?;
    same(&rt, (started, outbox.len()), (Outcome::Started, 6));
    assert!(rt; router.has_port(1));
    let learned = stepped(&mut router, &mut outbox, heard)?;
    same(&rt, (learned, outbox.len()), (Outcome::Learned, 7));
    let ticked = stepped(&mut router, &mut outbox, Event::Second)?;
    same(&rt, (ticked, outbox.len()), (Outcome::Ticked, 7));
    let stopped = stepped(&mut router, &mut outbox, Event::Stop)?;
    same(&rt, (stopped, outbox.len()), (Outcome::Stopped, 9));
    same(&rt, sent(&outbox, 6), Some((0, 40)));
    same(&rt, sent(&outbox, 7), Some((0, 48)));
    Ok(())
}

/// Reserves room. Where memory is refused, router and outbox have to be as they were, and the room is asked for again.
fn reserved(router: &Router<2, 50, 8>, outbox: &mut Outbox, need: Need) -> Result<(), Fail> {
    let before = seen(router, outbox);
    match outbox.reserve(need) {
        Ok(()) => Ok(()),
        Err(OutOfMemory) => {
            if seen(router, outbox) != before {
                return Err(Fail::new("a refusal changed something"));
            }
            Ok(outbox.reserve(need)?)
        }
    }
}

/// A request for more than any memory has is refused, and one for less is granted. It passes whichever request is refused.
#[test]
fn room_without_memory_can_be_reserved_again(rt: HostRuntime) -> Result<(), Fail> {
    let mut router = Router::<2, 50, 8>::new(&ports()?)?;
    let mut outbox = Outbox::new(rt.alloc());
    stepped(&mut router, &mut outbox, Event::Start)?;
    for (packets, bytes) in [(TOO_MUCH, 1), (1, TOO_MUCH)] {
        let need = Need { packets, bytes };
        assert!(rt; !outbox.has_room(need));
        same(&rt, outbox.reserve(need), Err(OutOfMemory));
        same(&rt, outbox.len(), 6);
        same(&rt, sent(&outbox, 0), Some((0, 40)));
        same(&rt, sent(&outbox, 5), Some((1, 34)));
    }
    let need = router.need(&Event::Stop);
    reserved(&router, &mut outbox, need)?;
    assert!(rt; outbox.has_room(need));
    let stopped = router.handle(Event::Stop, &mut outbox);
    same(&rt, stopped, Outcome::Stopped);
    same(&rt, outbox.len(), 8);
    same(&rt, sent(&outbox, 0), Some((0, 40)));
    same(&rt, sent(&outbox, 7), Some((1, 40)));
    Ok(())
}

/// Takes an event into the room that an emptied outbox has; nothing is done where that isn't enough.
fn handled(router: &mut Router<2, 50, 8>, outbox: &mut Outbox, event: Event<'_>) -> Option<Outcome>
    requires port { IsOnPort router.old.ports (happened event) }
    ensures ports { router.new.ports ≡ router.old.ports }
{
    outbox.clear();
    if outbox.has_room(router.need(&event)) {
        Some(router.handle(event, outbox))
    } else {
        None
    }
}

/// The same of bytes that come in on a port; nothing is done where there is no such port.
fn handled_packet(
    router: &mut Router<2, 50, 8>,
    outbox: &mut Outbox,
    port: u8,
    bytes: &[u8],
) -> Option<Outcome> {
    if router.has_port(port) {
        handled(router, outbox, Event::Packet { port, bytes })
    } else {
        None
    }
}

/// The packets of an outbox, at most six: port and length.
fn lengths(outbox: &Outbox) -> [Option<(u8, usize)>; 6] {
    let mut lengths = [None; 6];
    for (k, length) in lengths.iter_mut().enumerate() {
        *length = sent(outbox, k);
    }
    lengths
}

/// A router that was started in room that was reserved for it, and its outbox.
fn started(heap: Global) -> Result<(Router<2, 50, 8>, Outbox), Fail> {
    let mut router = Router::new(&ports()?)?;
    let mut outbox = Outbox::new(heap);
    outbox.reserve(router.need(&Event::Start))?;
    match handled(&mut router, &mut outbox, Event::Start) {
        Some(Outcome::Started) => Ok((router, outbox)),
        _ => Err(Fail::new("not started")),
    }
}

/// The room for a start is enough for the seconds of a route's life.
#[test]
fn a_route_lives_and_expires_in_room_that_was_reserved(rt: HostRuntime) -> Result<(), Fail> {
    let (mut router, mut outbox) = started(rt.alloc())?;
    let of_start = [(0, 40), (0, 40), (0, 34), (1, 40), (1, 40), (1, 34)];
    same(&rt, lengths(&outbox), of_start.map(Some));
    let bytes = response(1, B, &[entry(0x30, 1, 2)]).ok_or("no response")?;
    let learned = handled_packet(&mut router, &mut outbox, 1, &bytes);
    same(&rt, learned, Some(Outcome::Learned));
    let of_news = [Some((0, 40)), None, None, None, None, None];
    same(&rt, lengths(&outbox), of_news);
    for second in 1..=180 {
        let ticked = handled(&mut router, &mut outbox, Event::Second);
        same(&rt, ticked, Some(Outcome::Ticked));
        let of_second = if second % 60 == 0 {
            [Some((0, 48)), Some((1, 40)), None, None, None, None]
        } else {
            [None; 6]
        };
        same(&rt, lengths(&outbox), of_second);
        same(&rt, router.routes(), usize::from(second < 180));
    }
    Ok(())
}

/// Seven services of a name of one letter each, and one more.
fn services() -> Option<[Service; 8]> {
    let mut services = [Service::default(); 8];
    let mut letter = b'A';
    for service in &mut services {
        let mut field = [0; 48];
        field[0] = letter;
        service.kind = 4;
        service.name = ServiceName::read(&field)?;
        service.hops = 1;
        letter = letter.wrapping_add(1);
    }
    Some(services)
}

/// Neighbour B's response of services, with zeros behind it; it has one to seven.
fn advertised(services: &[Service]) -> Option<[u8; 480]> {
    if services.is_empty() || services.len() > 7 {
        return None;
    }
    let from = on(1, node(B), Socket::SAP);
    let to = on(1, Node::BROADCAST, Socket::SAP);
    let mut bytes = [0; 480];
    write_sap(from, to, false, services, &mut bytes);
    Some(bytes)
}

/// Neighbour A's query for services of every type.
fn query() -> [u8; 34] {
    let mut bytes = [0; 34];
    let from = on(0, node(A), Socket(0x4003));
    let to = on(0, node(1), Socket::SAP);
    write_query(from, to, false, 0xFFFF, &mut bytes);
    bytes
}

/// What becomes of bytes that come in on a port, and the first three packets that are sent then.
fn answered(
    router: &mut Router<2, 50, 8>,
    outbox: &mut Outbox,
    port: u8,
    bytes: &[u8],
) -> (Option<Outcome>, [Option<(u8, usize)>; 3]) {
    let became = handled_packet(router, outbox, port, bytes);
    (became, [sent(outbox, 0), sent(outbox, 1), sent(outbox, 2)])
}

/// The room for a start is enough for eight services in two pages, when they are learned, asked for and withdrawn.
#[test]
fn services_are_paged_in_room_that_was_reserved(rt: HostRuntime) -> Result<(), Fail> {
    let (mut router, mut outbox) = started(rt.alloc())?;
    let eight = services().ok_or("no name")?;
    let (seven, one) = eight.split_at(7);
    let seven = advertised(seven).ok_or("no response")?;
    let one = advertised(one).ok_or("no response")?;
    let (whole, rest) = (Some((0, 480)), Some((0, 96)));
    let became = answered(&mut router, &mut outbox, 1, &seven);
    same(&rt, became, (Some(Outcome::Learned), [whole, None, None]));
    let became = answered(&mut router, &mut outbox, 1, &one);
    same(&rt, became, (Some(Outcome::Learned), [rest, None, None]));
    let became = answered(&mut router, &mut outbox, 0, &query());
    same(&rt, became, (Some(Outcome::Answered), [whole, rest, None]));
    let stopped = handled(&mut router, &mut outbox, Event::Stop);
    same(&rt, stopped, Some(Outcome::Stopped));
    let of_stop = [Some((0, 40)), whole, rest, Some((1, 40)), None, None];
    same(&rt, lengths(&outbox), of_stop);
    Ok(())
}
