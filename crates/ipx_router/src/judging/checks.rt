//! The checks of a packet that may be sent on, in their order; the first that holds drops it.
//!
//! Of every packet: the source is the port itself; the source node is the broadcast. Of a propagated packet: its data have no
//! room for the networks crossed; eight or more were crossed; it has crossed the port's network. Of a near packet: it is for
//! another node. Of a far packet: it came through sixteen routers or more; it is for a port of the router itself; there is
//! no way to its network; it is longer than the port allows on which it would leave.
ghost use Rattle.std.specs.Prelude.{◌≡◌, ◌<◌, true, false, length, IfOk, IfErr, None, Some};
ghost use Rattle.std.specs.List.{AllByRecursion};
ghost use Rattle.ipx_router.specs.Checks.{relay_checks};
ghost use Rattle.ipx_router.specs.inside.CheckGroups.{source_checks, propagated_checks, is_for_other, far_checks, IsListed, IsWay, GoesAs};
ghost use Rattle.ipx_router.specs.Facts.{offers};
ghost use Rattle.ipx_router.specs.Outgoing.{way_to, is_own_port};
ghost use Rattle.ipx_router.specs.Port.{is_local, is_up};
ghost use Rattle.ipx_router.specs.Why.{first_of, is_propagated};

use crate::judging::outgoing::{Way, is_own_port, takes_no_route, way_by_route, way_to};
use crate::port::Port;
use crate::ports::addresses::port_of;
use crate::route_offer::RouteOffer;
use crate::why::Why;
use ipx_table::Table;
use ipx_wire::{Address, Crossed, CrossedFault, Header, Network, Node, Packet};

/// How a packet goes on to other networks.
#[derive(Drop)]
pub(crate) enum Onward<'a> {
    /// To every other one, but for those that it has crossed.
    Propagate(Crossed<'a>),
    /// Towards its own, by that port to that node.
    Forward { port: u8, link: Node },
}

/// How a packet that came on a port goes on, if it doesn't stay on that network; or why it is dropped.
pub(crate) fn check<'a, const R: usize>(
    ports: &[Port],
    up: &[u8],
    routes: &Table<RouteOffer, R>,
    port: &Port,
    packet: &Packet<'a>,
) -> Result<Option<Onward<'a>>, Why>
    requires ups { AllByRecursion (λ j. j < length ports.now) up.now }
    requires by_ups { AllByRecursion (λ r. is_up up.now r.port ≡ true) (offers routes.now.records) }
    ensures refused { IfErr result (λ why. first_of (relay_checks ports.now up.now (offers routes.now.records) port.now packet.now) ≡ Some why) }
    ensures cleared { IfOk result (λ onward. first_of (relay_checks ports.now up.now (offers routes.now.records) port.now packet.now) ≡ None) }
    ensures onward { IfOk result (GoesAs ports.now up.now (offers routes.now.records) port.now packet.now) }
{
    let header = packet.header();
    if let Some(why) = source_why(port, &header) {
        return Err(why);
    }
    if is_propagated(&header) {
        return Ok(Some(Onward::Propagate(networks_crossed(port, packet)?)));
    }
    if !is_local(port, header.destination.network) {
        let Way { port, link } = way_of(ports, up, routes, &header)?;
        return Ok(Some(Onward::Forward { port, link }));
    }
    if is_for_other(port, &header) {
        return Err(Why::Elsewhere);
    }
    Ok(None)
}

/// Why any packet is dropped, whatever it is for.
fn source_why(port: &Port, header: &Header) -> Option<Why>
    ensures { result ≡ first_of (source_checks port.now header.now) }
{
    if header.source.node == port.node() && is_local(port, header.source.network) {
        return Some(Why::OwnEcho);
    }
    if header.source.node == Node::BROADCAST {
        return Some(Why::BadSource);
    }
    None
}

/// The networks that a propagated packet has crossed, or why it is dropped.
fn networks_crossed<'a>(port: &Port, packet: &Packet<'a>) -> Result<Crossed<'a>, Why>
    ensures refused { IfErr result (λ why. first_of (propagated_checks port.now packet.now) ≡ Some why) }
    ensures cleared { IfOk result (λ networks. first_of (propagated_checks port.now packet.now) ≡ None) }
    ensures listed { IfOk result (IsListed packet.now) }
{
    let header = packet.header();
    let crossed = match Crossed::read(header.control, packet.payload()) {
        Ok(crossed) => crossed,
        Err(CrossedFault::Short) => return Err(Why::CrossedShort),
        Err(CrossedFault::Full) => return Err(Why::CrossedFull),
    };
    if crossed.contains(port.network()) {
        return Err(Why::CrossedSeen);
    }
    Ok(crossed)
}

/// The way of a far packet, or why it is dropped.
fn way_of<const R: usize>(
    ports: &[Port],
    up: &[u8],
    routes: &Table<RouteOffer, R>,
    header: &Header,
) -> Result<Way, Why>
    requires ups { AllByRecursion (λ j. j < length ports.now) up.now }
    requires by_ups { AllByRecursion (λ r. is_up up.now r.port ≡ true) (offers routes.now.records) }
    ensures refused { IfErr result (λ why. first_of (far_checks ports.now up.now (offers routes.now.records) header.now) ≡ Some why) }
    ensures cleared { IfOk result (λ way. first_of (far_checks ports.now up.now (offers routes.now.records) header.now) ≡ None) }
    ensures way { IfOk result (IsWay ports.now up.now (offers routes.now.records) header.now) }
{
    if header.control >= Header::MOST_ROUTERS {
        return Err(Why::TooManyRouters);
    }
    let Some(way) = way_beyond(ports, up, routes, header.destination)? else {
        return Err(Why::NoRoute);
    };
    if header.length > port_of(ports, way.port).longest() {
        return Err(Why::TooLong);
    }
    Ok(way)
}

/// The way to an address on another network, if there is one; an address of the router's own is refused. Most packets go to a
/// network that is no port's, to which only a route leads, so that is asked first.
fn way_beyond<const R: usize>(
    ports: &[Port],
    up: &[u8],
    routes: &Table<RouteOffer, R>,
    destination: Address,
) -> Result<Option<Way>, Why>
    requires ups { AllByRecursion (λ j. j < length ports.now) up.now }
    ensures own { IfErr result (λ why. (why ≡ Why.FarSide) × (is_own_port ports.now destination ≡ true)) }
    ensures way { IfOk result (λ way. (way ≡ way_to ports.now up.now (offers routes.now.records) destination) × (is_own_port ports.now destination ≡ false)) }
{
    if !takes_no_route(ports, destination.network) {
        return Ok(way_by_route(ports, routes, destination.network));
    }
    if is_own_port(ports, destination) {
        return Err(Why::FarSide);
    }
    Ok(way_to(ports, up, routes, destination))
}

/// Whether the packet is for all networks: of type 20 and to the broadcast, whatever the destination network.
pub(crate) fn is_propagated(header: &Header) -> bool
    ensures { result ≡ is_propagated header.now }
{
    header.kind == Header::PROPAGATED && header.destination.node == Node::BROADCAST
}

/// Whether a network number means the port's own network: 0 or its number.
pub(crate) fn is_local(port: &Port, network: Network) -> bool
    ensures { result ≡ is_local port.now network }
{
    network == Network::LOCAL || network == port.network()
}

/// Whether the packet is for a node that is neither the port's nor the broadcast.
fn is_for_other(port: &Port, header: &Header) -> bool
    ensures { result ≡ is_for_other port.now header.now }
{
    header.destination.node != port.node() && header.destination.node != Node::BROADCAST
}
