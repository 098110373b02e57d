//! What a port asks of its network when it comes up.
ghost use Rattle.std.specs.Prelude.{◌<◌, length};
ghost use Rattle.ipx_router.specs.Outbox.{Fits, Appends};
ghost use Rattle.ipx_router.specs.Sends.{routes_request, services_query};

use crate::outbox::Outbox;
use crate::port::Port;
use crate::ports::addresses::{every_server, everyone, own_address, own_services, port_of};
use ipx_wire::{Network, Operation, RipEntry, Sap};

/// The entry of a request for all routes.
const EVERY_ROUTE: RipEntry = RipEntry {
    network: Network::ALL_ROUTES,
    hops: u16::MAX,
    ticks: u16::MAX,
};

/// Broadcasts a request for all routes.
pub(crate) fn request_routes(outbox: &mut Outbox, ports: &[Port], number: u8)
    requires port { number < length ports.now }
    requires room { Fits outbox.old (routes_request ports.now number) }
    ensures { Appends outbox.old outbox.new (routes_request ports.now number) }
{
    let port = port_of(ports, number);
    outbox.append_rip(
        number,
        own_address(port),
        everyone(port),
        Operation::Request,
        &[EVERY_ROUTE],
    );
}

/// Broadcasts a query for all services.
pub(crate) fn query_services(outbox: &mut Outbox, ports: &[Port], number: u8)
    requires port { number < length ports.now }
    requires room { Fits outbox.old (services_query ports.now number) }
    ensures { Appends outbox.old outbox.new (services_query ports.now number) }
{
    let port = port_of(ports, number);
    outbox.append_query(
        number,
        own_services(port),
        every_server(port),
        false,
        Sap::EVERY_TYPE,
    );
}
