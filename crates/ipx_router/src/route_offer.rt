//! A route as a neighbour advertises it.
ghost use Rattle.std.proofs.Common.{rules};
ghost use Rattle.ipx_router.specs.Routes.{route_reading};

use ipx_table::Offer;
use ipx_wire::{Network, Node, RipEntry};

/// A route as a neighbour advertised it: fewer ticks are better, then fewer hops.
///
/// ```
/// for Held { offer: route, age } in router.iter_routes() {
///     println!(rt; "{}: {} ticks, age {age}", route.network, route.ticks)?;
/// }
/// // prints 00000030: 2 ticks, age 2
/// ```
#[derive(Clone, Copy, Debug, Default, PartialEq, Eq, Hash)]
pub struct RouteOffer {
    /// The network that it leads to.
    pub network: Network,
    /// How many routers are on the way, as heard; 16 or more mean that it is unreachable.
    pub hops: u16,
    /// How long a packet takes, in ticks of about an eighteenth of a second, as heard.
    pub ticks: u16,
    /// The port on which it was heard.
    pub port: u8,
    /// The neighbour that advertised it.
    pub node: Node,
}

impl Offer for RouteOffer {
    type Key = Network;

    ghost reading = { route_reading };

    fn key(&self) -> Network {
        self.network
    }

    fn source(&self) -> (u8, Node) {
        (self.port, self.node)
    }

    fn rank(&self) -> (u16, u16) {
        (self.ticks, self.hops)
    }

    fn is_down(&self) -> bool {
        RipEntry::UNREACHABLE <= self.hops
    }

    ghost alike = { Prim.search rules };
}
