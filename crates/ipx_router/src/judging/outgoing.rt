//! Where a packet for another network leaves.
//!
//! A port of that network which is up comes first; then the route in the table; then the default route, which serves
//! every network that a route may lead to.
ghost use Rattle.std.specs.Prelude.{◌≡◌, ◌<◌, ◌==◌, length, option_map};
ghost use Rattle.std.specs.List.{AllByRecursion, list_any};
ghost use Rattle.ipx_router.specs.Facts.{offers};
ghost use Rattle.ipx_router.specs.Outgoing.{port_to, route_to, serving, way_to, is_own_port};
ghost use Rattle.ipx_router.specs.Port.{takes_no_route};

use crate::port::Port;
use crate::ports::addresses::port_of;
use crate::route_offer::RouteOffer;
use ipx_table::Table;
use ipx_wire::{Address, Network, Node};
use std::marker::Model;

/// The port on which a packet leaves, and the node to which the link sends it.
#[derive(Clone, Copy)]
pub(crate) struct Way {
    pub port: u8,
    pub link: Node,
}

impl Model for Way {
    ghost use Rattle.ipx_router.specs.Outgoing.{Way};

    ghost Value = { Way };

    ghost view = { λ w. record { port = w.port; link = w.link } };

    ghost inverse = { λ w. record { port = w.port; link = w.link } };
}

/// The way to an address on another network, if there is one.
pub(crate) fn way_to<const R: usize>(
    ports: &[Port],
    up: &[u8],
    routes: &Table<RouteOffer, R>,
    destination: Address,
) -> Option<Way>
    requires ups { AllByRecursion (λ j. j < length ports.now) up.now }
    ensures { result ≡ way_to ports.now up.now (offers routes.now.records) destination }
{
    if let Some(port) = port_to(ports, up, destination.network) {
        return Some(Way {
            port,
            link: destination.node,
        });
    }
    way_by_route(ports, routes, destination.network)
}

/// The way to a network by the route that serves it, if there is one.
pub(crate) fn way_by_route<const R: usize>(
    ports: &[Port],
    routes: &Table<RouteOffer, R>,
    network: Network,
) -> Option<Way>
    ensures { result ≡ option_map (λ r. record { port = r.port; link = r.node }) (serving ports.now (offers routes.now.records) network) }
{
    let route = serving(ports, routes, network)?;
    Some(Way {
        port: route.port,
        link: route.node,
    })
}

/// Whether the address is a port of the router itself, up or not.
pub(crate) fn is_own_port(ports: &[Port], destination: Address) -> bool
    ensures { result ≡ is_own_port ports.now destination }
{
    ports.iter().any(|port| {
        port.network() == destination.network && port.node() == destination.node
    })
}

/// The port of that network, if the router has one that is up.
fn port_to(ports: &[Port], up: &[u8], network: Network) -> Option<u8>
    requires ups { AllByRecursion (λ j. j < length ports.now) up.now }
    ensures { result ≡ port_to ports.now up.now network }
{
    for &number in up {
        if port_of(ports, number).network() == network {
            return Some(number);
        }
    }
    None
}

/// The route that serves packets for a network.
fn serving<const R: usize>(
    ports: &[Port],
    routes: &Table<RouteOffer, R>,
    network: Network,
) -> Option<RouteOffer>
    ensures { result ≡ serving ports.now (offers routes.now.records) network }
{
    match route_to(routes, network) {
        Some(route) => Some(route),
        None if takes_no_route(ports, network) => None,
        None => route_to(routes, Network::DEFAULT_ROUTE),
    }
}

/// The route in the table for a network.
fn route_to<const R: usize>(routes: &Table<RouteOffer, R>, network: Network) -> Option<RouteOffer>
    ensures { result ≡ route_to (offers routes.now.records) network.0 }
{
    let held = routes.get(&network)?;
    Some(held.offer)
}

/// Whether no route leads to that network: to the local one, to that of all routes, and to a port's own.
pub(crate) fn takes_no_route(ports: &[Port], network: Network) -> bool
    ensures { result ≡ takes_no_route ports.now network }
{
    network == Network::LOCAL || network == Network::ALL_ROUTES || is_direct(ports, network)
}

/// Whether a port, up or not, is on that network. Every port is compared: usually none is, and a loop without an exit is
/// faster.
fn is_direct(ports: &[Port], network: Network) -> bool
    ensures { result ≡ list_any (λ p. p.network.0 == network.0) ports.now }
{
    let mut any = false;
    for port in ports {
        any |= port.network() == network;
    }
    any
}
