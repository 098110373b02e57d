//! The routes and services of a network by way of nodes that say nothing themselves, as memory of C has them.
ghost use Rattle.std.specs.Prelude.{◌≡◌};
ghost use Rattle.std.specs.List.{position};
ghost use Rattle.ipx_configuration.specs.Statics.{no_route, route_said, route_in, no_routes, routes_in, with_route, more_routes, leads_to, first_route, route_fault, route_taken, no_service, service_said, service_in, no_services, services_in, with_service, more_services, is_named, first_service, service_fault, service_taken};

use crate::carrier::has_same_bytes;
use crate::clash::line_fault;
use crate::fault::Fault;
use crate::said::NetworkSetting;
use ipx_settings::{Expected, RouteBegun, ServiceBegun, StaticRoute, StaticService};

/// The most routes by way of nodes on a network,
const MOST_ROUTES: usize = 64;

/// and services.
const MOST_SERVICES: usize = 64;

/// A route, as a response has it.
///
/// See the example of [`Configuration`](crate::Configuration).
#[repr(C)]
#[derive(Clone, Copy, Debug, PartialEq, Eq)]
pub struct RouteSaid {
    pub network: u32,
    pub hops: u16,
    pub ticks: u16,
}

/// A service, as a response has it.
///
/// See the example of [`Configuration`](crate::Configuration).
#[repr(C)]
#[derive(Clone, Copy)]
pub struct ServiceSaid {
    /// Its name, with zeros behind it.
    pub name: [u8; 48],
    /// Where it is offered.
    pub network: u32,
    pub node: [u8; 6],
    pub socket: u16,
    /// Its type.
    pub kind: u16,
    pub hops: u16,
}

/// What a line `route` says: a route by way of a node on the network.
///
/// See the example of [`Configuration`](crate::Configuration).
#[repr(C)]
#[derive(Clone, Copy, Debug, PartialEq, Eq)]
pub struct StaticRouteSaid {
    /// The number of the line.
    pub line: usize,
    pub route: RouteSaid,
    /// The node.
    pub via: [u8; 6],
}

/// What a line `service` says: a service by way of a node on the network.
///
/// See the example of [`Configuration`](crate::Configuration).
#[repr(C)]
#[derive(Clone, Copy)]
pub struct StaticServiceSaid {
    /// The number of the line.
    pub line: usize,
    pub service: ServiceSaid,
    /// The node.
    pub via: [u8; 6],
}

/// Routes, in the order of their lines.
///
/// See the example of [`Configuration`](crate::Configuration).
#[repr(C)]
#[derive(Clone, Copy)]
pub struct StaticRoutes {
    pub list: [StaticRouteSaid; 64],
    pub count: usize,
}

/// Services, in the order of their lines.
///
/// See the example of [`Configuration`](crate::Configuration).
#[repr(C)]
#[derive(Clone, Copy)]
pub struct StaticServices {
    pub list: [StaticServiceSaid; 64],
    pub count: usize,
}

fn no_route() -> StaticRouteSaid
    ensures { result ≡ no_route }
{
    StaticRouteSaid {
        line: 0,
        route: RouteSaid {
            network: 0,
            hops: 0,
            ticks: 0,
        },
        via: [0; 6],
    }
}

/// A route, as its line says it.
fn route_said(line: usize, route: StaticRoute) -> StaticRouteSaid
    ensures { result ≡ route_said line route }
{
    let via = route.via;
    StaticRouteSaid {
        line,
        route: RouteSaid {
            network: route.network,
            hops: route.hops,
            ticks: route.ticks,
        },
        via,
    }
}

fn no_service() -> StaticServiceSaid
    ensures { result ≡ no_service }
{
    StaticServiceSaid {
        line: 0,
        service: ServiceSaid {
            name: [0; 48],
            network: 0,
            node: [0; 6],
            socket: 0,
            kind: 0,
            hops: 0,
        },
        via: [0; 6],
    }
}

/// A service, as its line says it.
fn service_said(line: usize, service: StaticService) -> StaticServiceSaid
    ensures { result ≡ service_said line service }
{
    let name = service.name;
    let node = service.address.node;
    let via = service.via;
    StaticServiceSaid {
        line,
        service: ServiceSaid {
            name,
            network: service.address.network,
            node,
            socket: service.address.socket,
            kind: service.kind,
            hops: service.hops,
        },
        via,
    }
}

impl StaticRouteSaid {
    /// The route that the line with that number says; all numbers are 0 where not all of its words were read.
    pub fn of(line: usize, begun: RouteBegun) -> StaticRouteSaid
        ensures { result ≡ route_in line begun }
    {
        match begun {
            RouteBegun::Whole(route) => route_said(line, route),
            _ => no_route(),
        }
    }
}

impl StaticServiceSaid {
    /// The service that the line with that number says, alike.
    pub fn of(line: usize, begun: ServiceBegun) -> StaticServiceSaid
        ensures { result ≡ service_in line begun }
    {
        match begun {
            ServiceBegun::Whole(service) => service_said(line, service),
            _ => no_service(),
        }
    }
}

impl StaticRoutes {
    pub(crate) fn none() -> StaticRoutes
        ensures { result ≡ no_routes }
    {
        StaticRoutes {
            list: [no_route(); 64],
            count: 0,
        }
    }

    fn listed(&self) -> &[StaticRouteSaid]
        ensures { result.now ≡ routes_in self.now }
    {
        if self.count < MOST_ROUTES {
            let (listed, _) = self.list.split_at(self.count);
            listed
        } else {
            &self.list
        }
    }

    /// One more, if there is room.
    fn with(self, route: StaticRouteSaid) -> StaticRoutes
        ensures { result ≡ with_route self route }
    {
        let mut it = self;
        if it.count < MOST_ROUTES {
            it.list[it.count] = route;
            it.count += 1;
        }
        it
    }

    fn with_line(self, line: usize, begun: RouteBegun) -> StaticRoutes
        ensures { result ≡ more_routes self line begun }
    {
        match begun {
            RouteBegun::Whole(route) => self.with(route_said(line, route)),
            _ => self,
        }
    }

    /// The line of the route to a network.
    pub(crate) fn line_of(&self, network: u32) -> Option<usize>
        ensures { result ≡ first_route network self.now }
    {
        let routes = self.listed();
        match route_place(network, routes) {
            Some(place) => match routes.get(place) {
                Some(route) => Some(route.line),
                None => None,
            },
            None => None,
        }
    }
}

fn leads_to(network: u32, route: StaticRouteSaid) -> bool
    ensures { result ≡ leads_to network route }
{
    route.route.network == network
}

fn route_place(network: u32, routes: &[StaticRouteSaid]) -> Option<usize>
    ensures { result ≡ position (leads_to network) routes.now }
{
    routes.iter().position(|route| leads_to(network, *route))
}

impl StaticServices {
    pub(crate) fn none() -> StaticServices
        ensures { result ≡ no_services }
    {
        StaticServices {
            list: [no_service(); 64],
            count: 0,
        }
    }

    fn listed(&self) -> &[StaticServiceSaid]
        ensures { result.now ≡ services_in self.now }
    {
        if self.count < MOST_SERVICES {
            let (listed, _) = self.list.split_at(self.count);
            listed
        } else {
            &self.list
        }
    }

    /// One more, if there is room.
    fn with(self, service: StaticServiceSaid) -> StaticServices
        ensures { result ≡ with_service self service }
    {
        let mut it = self;
        if it.count < MOST_SERVICES {
            it.list[it.count] = service;
            it.count += 1;
        }
        it
    }

    fn with_line(self, line: usize, begun: ServiceBegun) -> StaticServices
        ensures { result ≡ more_services self line begun }
    {
        match begun {
            ServiceBegun::Whole(service) => self.with(service_said(line, service)),
            _ => self,
        }
    }

    /// The line of the service of a type that has a name.
    fn line_of(&self, kind: u16, name: [u8; 48]) -> Option<usize>
        ensures { result ≡ first_service kind name self.now }
    {
        let services = self.listed();
        match service_place(kind, name, services) {
            Some(place) => match services.get(place) {
                Some(service) => Some(service.line),
                None => None,
            },
            None => None,
        }
    }
}

fn is_named(kind: u16, name: [u8; 48], service: StaticServiceSaid) -> bool
    ensures { result ≡ is_named kind name service }
{
    service.service.kind == kind && has_same_bytes(&service.service.name, &name)
}

fn service_place(kind: u16, name: [u8; 48], services: &[StaticServiceSaid]) -> Option<usize>
    ensures { result ≡ position (is_named kind name) services.now }
{
    services
        .iter()
        .position(|service| is_named(kind, name, *service))
}

/// What is wrong with one more route of a network.
fn route_fault(network: &NetworkSetting, begun: RouteBegun, own: Option<Expected>) -> Option<Fault>
    ensures { result ≡ route_fault network.now begun own }
{
    if network.static_routes.count >= MOST_ROUTES {
        return Some(Fault::ManyRoutes);
    }
    match begun.network() {
        Some(to) => {
            if network.number == to {
                return Some(Fault::OtherNetwork(network.line));
            }
            match network.static_routes.line_of(to) {
                Some(line) => Some(Fault::OtherNetwork(line)),
                None => line_fault(own),
            }
        }
        None => line_fault(own),
    }
}

/// A network behind the line of a route, and what is wrong with that.
pub(crate) fn route_taken(
    line: usize,
    network: NetworkSetting,
    begun: RouteBegun,
    own: Option<Expected>,
) -> (NetworkSetting, Option<Fault>)
    ensures { result ≡ route_taken line network begun own }
{
    let fault = route_fault(&network, begun, own);
    let mut taken = network;
    if fault.is_none() {
        taken.static_routes = taken.static_routes.with_line(line, begun);
    }
    (taken, fault)
}

/// What is wrong with one more service of a network.
fn service_fault(
    services: &StaticServices,
    begun: ServiceBegun,
    own: Option<Expected>,
) -> Option<Fault>
    ensures { result ≡ service_fault services.now begun own }
{
    if services.count >= MOST_SERVICES {
        return Some(Fault::ManyServices);
    }
    match begun.named() {
        Some(named) => {
            let name = named.1;
            match services.line_of(named.0, name) {
                Some(line) => Some(Fault::OtherService(line)),
                None => line_fault(own),
            }
        }
        None => line_fault(own),
    }
}

/// A network behind the line of a service, and what is wrong with that.
pub(crate) fn service_taken(
    line: usize,
    network: NetworkSetting,
    begun: ServiceBegun,
    own: Option<Expected>,
) -> (NetworkSetting, Option<Fault>)
    ensures { result ≡ service_taken line network begun own }
{
    let fault = service_fault(&network.static_services, begun, own);
    let mut taken = network;
    if fault.is_none() {
        taken.static_services = taken.static_services.with_line(line, begun);
    }
    (taken, fault)
}
