//! Routes and services as a port advertises them: one hop farther, or unreachable.
ghost use Rattle.std.specs.Prelude.{◌≡◌, ◌<◌, length};
ghost use Rattle.ipx_router.specs.Numbers.{unreachable};
ghost use Rattle.ipx_router.specs.Told.{dead, dead_service, direct_entry, entry_of, farther, is_reached_on, is_route_told, is_service_told, told_at};

use crate::port::Port;
use crate::ports::addresses::port_of;
use crate::route_offer::RouteOffer;
use crate::service_offer::ServiceOffer;
use ipx_wire::{RipEntry, Service};

/// The network of a port, which is no hop away.
pub(crate) fn direct_entry(ports: &[Port], number: u8) -> RipEntry
    requires { number < length ports.now }
    ensures { result ≡ direct_entry ports.now number }
{
    let port = port_of(ports, number);
    RipEntry {
        network: port.network(),
        hops: 0,
        ticks: port.cost(),
    }
}

/// The route as an entry, with hops and ticks as they were heard.
pub(crate) fn entry_of(route: &RouteOffer) -> RipEntry
    ensures { result ≡ entry_of route.now }
{
    RipEntry {
        network: route.network,
        hops: route.hops,
        ticks: route.ticks,
    }
}

/// The entry as a port of that cost advertises it.
pub(crate) fn told_at(cost: u16, entry: RipEntry) -> RipEntry
    requires { entry.hops < unreachable }
    ensures { result ≡ told_at cost entry }
{
    RipEntry {
        network: entry.network,
        hops: entry.hops + 1,
        ticks: entry.ticks.saturating_add(cost),
    }
}

/// The entry as one that is unreachable.
pub(crate) fn dead(entry: RipEntry) -> RipEntry
    ensures { result ≡ dead entry }
{
    RipEntry {
        network: entry.network,
        hops: RipEntry::UNREACHABLE,
        ticks: u16::MAX,
    }
}

/// The service one hop farther away.
pub(crate) fn farther(service: Service) -> Service
    requires { service.hops < unreachable }
    ensures { result ≡ farther service }
{
    Service {
        hops: service.hops + 1,
        ..service
    }
}

/// The service as one that is unreachable.
pub(crate) fn dead_service(service: Service) -> Service
    ensures { result ≡ dead_service service }
{
    Service {
        hops: RipEntry::UNREACHABLE,
        ..service
    }
}

/// Split horizon: a route isn't advertised on the port where it was learned, nor where the next router couldn't use it.
pub(crate) fn is_route_told(number: u8, route: &RouteOffer) -> bool
    ensures { result ≡ is_route_told number route.now }
{
    route.port != number && is_reached_on(route.hops)
}

/// Split horizon, for a service.
pub(crate) fn is_service_told(number: u8, offer: &ServiceOffer) -> bool
    ensures { result ≡ is_service_told number offer.now }
{
    offer.port != number && is_reached_on(offer.service.hops)
}

/// Whether what is this many hops away can be used by the next router.
pub(crate) fn is_reached_on(hops: u16) -> bool
    ensures { result ≡ is_reached_on hops }
{
    hops < RipEntry::UNREACHABLE - 1
}
