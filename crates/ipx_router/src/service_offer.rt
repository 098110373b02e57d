//! A service as a neighbour advertises it.
ghost use Rattle.std.proofs.Common.{rules};
ghost use Rattle.ipx_router.specs.Services.{service_reading};

use ipx_table::Offer;
use ipx_wire::{Node, RipEntry, Service, ServiceName};
use std::cmp::Ordering;

/// A service as a neighbour advertised it: fewer hops are better. It is known by its type and its name.
///
/// ```
/// for Held { offer, .. } in router.iter_services() {
///     let service = offer.service;
///     println!(rt; "{} at {}", service.name, service.address)?;
/// }
/// // prints ACCOUNTS at 00000030.0000000000CC.0451
/// ```
#[derive(Clone, Copy, Debug, Default, PartialEq, Eq, Hash)]
pub struct ServiceOffer {
    /// Type, name, address and hops, as heard.
    pub service: Service,
    /// The port on which it was heard.
    pub port: u8,
    /// The neighbour that advertised it.
    pub node: Node,
}

impl Offer for ServiceOffer {
    type Key = (u16, ServiceName);

    ghost reading = { service_reading };

    fn key(&self) -> (u16, ServiceName) {
        (self.service.kind, self.service.name)
    }

    fn cmp_key(&self, key: &(u16, ServiceName)) -> Ordering {
        self.service
            .kind
            .cmp(&key.0)
            .then(self.service.name.cmp(&key.1))
    }

    fn source(&self) -> (u8, Node) {
        (self.port, self.node)
    }

    fn rank(&self) -> (u16, u16) {
        (self.service.hops, 0)
    }

    fn is_down(&self) -> bool {
        RipEntry::UNREACHABLE <= self.service.hops
    }

    ghost alike = { Prim.search rules };
}
