//! The router.
ghost use Rattle.std.specs.Prelude.{◌≡◌, ◌≤◌, ◌<◌, false, [], length, slice_get, nat_lt, IfOk, IfErr, OnOk, IfSome};
ghost use Rattle.std.specs.List.{AllByRecursion};
ghost use Rattle.std.specs.Slice.Iter.{iter_rest};
ghost use Rattle.ipx_table.specs.Alive.{lifetime};
ghost use Rattle.ipx_table.specs.Stands.{record_of};
ghost use Rattle.ipx_router.specs.Numbers.{most_ports};
ghost use Rattle.ipx_router.specs.RouterOf.{IsNoRouter, made_of, HasPast};
ghost use Rattle.ipx_router.specs.Port.{IsPort, AreApart, is_up};
ghost use Rattle.ipx_router.specs.Routes.{network_order};
ghost use Rattle.ipx_router.specs.Services.{service_order, service_reading};
ghost use Rattle.ipx_router.specs.Stands.{StandsFor};

use crate::port::Port;
use crate::ports::making::{are_apart, copy_of, proves_ports, route_shares, service_shares};
use crate::ports::up_ports::{UpPorts, is_up};
use crate::ports_fault::PortsFault;
use crate::route_offer::RouteOffer;
use crate::service_offer::ServiceOffer;
use arrayvec::ArrayVec;
use ipx_table::{Held, Table, TableEntries};
use ipx_wire::{Network, ServiceName};
use std::marker::Model;
use std::slice::Iter;

/// A router with at most `P` ports, `R` routes and `S` services.
///
/// ```
/// let mut router = Router::<2, 50, 8>::new(ports)?;
/// let mut outbox = Outbox::new(rt.alloc());
/// let outcome = router.step(Event::Start, &mut outbox)?;
/// println!(rt; "{outcome}, with {} packets to send", outbox.len())?;
/// // prints started, with 6 packets to send
/// ```
#[derive(Debug, Drop)]
pub struct Router<const P: usize, const R: usize, const S: usize> {
    pub(crate) ports: ArrayVec<Port, P>,
    pub(crate) running: bool,
    /// The numbers of the ports that are up, in order; none of a stopped router's.
    pub(crate) up: UpPorts,
    /// Since the last periodic second.
    pub(crate) seconds: u8,
    pub(crate) routes: Table<RouteOffer, R>,
    pub(crate) services: Table<ServiceOffer, S>,
}

impl<const P: usize, const R: usize, const S: usize> Model for Router<P, R, S> {
    ghost use Rattle.ipx_router.specs.RouterOf.{IsRouter};
    ghost use Rattle.ipx_router.specs.Stands.{State};

    ghost Value = { State };

    ghost view = { λ r. record { ports = r.ports.items; running = r.running; up = r.up.items; seconds = r.seconds; routes = r.routes.records; services = r.services.records } };

    ghost invariant = { λ r. IsRouter R S (record { ports = r.ports.items; running = r.running; up = r.up.items; seconds = r.seconds; routes = r.routes.records; services = r.services.records }) r.routes.shares r.services.shares };
}

impl<const P: usize, const R: usize, const S: usize> Router<P, R, S> {
    /// A router with these ports, numbered from 0, and the shares that they have. It is stopped, and its tables are empty.
    pub fn new(ports: &[Port]) -> Result<Router<P, R, S>, PortsFault>
        requires some { 1 ≤ P }
        requires few { P ≤ most_ports }
        requires some_routes { 1 ≤ R }
        requires few_routes { R ≤ 65535 }
        requires some_services { 1 ≤ S }
        requires few_services { S ≤ 65535 }
        ensures made { IfOk result (λ r. r ≡ made_of ports.now) }
        ensures stands { IfOk result (λ r. StandsFor R S r []) }
        ensures within { IfOk result (λ r. (1 ≤ length ports.now) × (length ports.now ≤ P)) }
        ensures apart { IfOk result (λ r. AreApart ports.now) }
        ensures refused { IfErr result (IsNoRouter P ports.now) }
    {
        match Router::<P, R, S>::check(ports) {
            Ok(()) => Ok(Router::of(ports)),
            Err(fault) => Err(fault),
        }
    }

    /// Whether a router can have these ports, and if not, why.
    pub fn check(ports: &[Port]) -> Result<(), PortsFault>
        ensures some { OnOk result (1 ≤ length ports.now) }
        ensures within { OnOk result (length ports.now ≤ P) }
        ensures apart { OnOk result (AreApart ports.now) }
        ensures refused { IfErr result (IsNoRouter P ports.now) }
    {
        if ports.is_empty() {
            return Err(PortsFault::NoPort);
        }
        if ports.len() > P {
            return Err(PortsFault::TooMany);
        }
        if !are_apart(ports) {
            return Err(PortsFault::SameNetwork);
        }
        Ok(())
    }

    /// The router that `new` makes of these ports, which a router can have. It is made where it is put, if that is a box.
    // (inlined, since every call that returns a router has room for one on the stack)
    #[inline(always)]
    pub fn of(ports: &[Port]) -> Router<P, R, S>
        requires few { P ≤ most_ports }
        requires some_routes { 1 ≤ R }
        requires few_routes { R ≤ 65535 }
        requires some_services { 1 ≤ S }
        requires few_services { S ≤ 65535 }
        requires some { 1 ≤ length ports.now }
        requires within { length ports.now ≤ P }
        requires apart { AreApart ports.now }
        ensures made { result ≡ made_of ports.now }
        ensures stands { StandsFor R S result [] }
    {
        proves_ports(ports);
        let route_shares = route_shares(ports);
        let service_shares = service_shares(ports);
        Router {
            ports: copy_of(ports),
            running: false,
            up: ArrayVec::new(),
            seconds: 0,
            routes: Table::with_shares(&route_shares),
            services: Table::with_shares(&service_shares),
        }
    }

    /// Whether it runs.
    pub fn is_running(&self) -> bool
        ensures { result ≡ self.now.running }
    {
        self.running
    }

    /// Whether it runs, has a port of this number, and that port is up.
    pub fn is_up(&self, port: u8) -> bool
        ensures value { result ≡ is_up self.now.up port }
        ensures stopped { self.now.running ≡ false → result ≡ false }
        ensures missing { length self.now.ports ≤ port → result ≡ false }
    {
        is_up(&self.up, port)
    }

    /// Whether it has a port of this number.
    pub fn has_port(&self, port: u8) -> bool
        ensures { result ≡ nat_lt port (length self.now.ports) }
    {
        usize::from(port) < self.ports.len()
    }

    /// How many ports it has.
    pub fn ports(&self) -> usize
        ensures value { result ≡ length self.now.ports }
        ensures some { 1 ≤ result }
        ensures few { result ≤ most_ports }
        ensures apart { AreApart self.now.ports }
    {
        self.ports.len()
    }

    /// What holds of every router: its ports are such as it may have, and it stands for a history of events on them. It is
    /// for proofs, and does nothing.
    pub fn is_router(&self)
        ensures some { 1 ≤ length self.now.ports }
        ensures few { length self.now.ports ≤ most_ports }
        ensures are { AllByRecursion IsPort self.now.ports }
        ensures apart { AreApart self.now.ports }
        ensures past { HasPast R S self.now }
    {
        let _ = &self.running;
    }

    /// The port of this number, if there is one.
    pub fn port(&self, number: usize) -> Option<Port>
        ensures { result ≡ slice_get self.now.ports number }
    {
        self.ports.get(number).copied()
    }

    /// Its ports, from number 0 on.
    pub fn iter_ports(&self) -> Iter<'_, Port>
        ensures { iter_rest result ≡ self.now.ports }
    {
        self.ports.as_slice().iter()
    }

    /// How many routes are in its table.
    pub fn routes(&self) -> usize
        ensures value { result ≡ length self.now.routes }
        ensures fits { result ≤ R }
    {
        self.routes.len()
    }

    /// How many services are in its table.
    pub fn services(&self) -> usize
        ensures value { result ≡ length self.now.services }
        ensures fits { result ≤ S }
    {
        self.services.len()
    }

    /// The route to that network, with its age, if there is one in the table.
    pub fn route(&self, network: Network) -> Option<Held<RouteOffer>>
        ensures value { result ≡ record_of (λ r. r.network) network_order network self.now.routes }
        ensures young { IfSome result (λ h. h.age < lifetime) }
    {
        self.routes.get(&network)
    }

    /// Route number `k` by network, counted from 0; `None` if `k` is `routes()` or more.
    pub fn route_at(&self, k: usize) -> Option<Held<RouteOffer>>
        ensures value { result ≡ slice_get self.now.routes k }
        ensures young { IfSome result (λ h. h.age < lifetime) }
    {
        self.routes.get_at(k)
    }

    /// The routes in its table with their ages, by network.
    pub fn iter_routes(&self) -> TableEntries<'_, RouteOffer>
        ensures value { result ≡ self.now.routes }
        ensures young { AllByRecursion (λ h. h.age < lifetime) result }
    {
        self.routes.entries()
    }

    /// The service of that type and name, with its age, if there is one in the table.
    pub fn service(&self, kind: u16, name: &ServiceName) -> Option<Held<ServiceOffer>>
        ensures value { result ≡ record_of service_reading.key service_order (kind, name.now) self.now.services }
        ensures young { IfSome result (λ h. h.age < lifetime) }
    {
        self.services.get(&(kind, *name))
    }

    /// Service number `k` by type and name, counted from 0; `None` if `k` is `services()` or more.
    pub fn service_at(&self, k: usize) -> Option<Held<ServiceOffer>>
        ensures value { result ≡ slice_get self.now.services k }
        ensures young { IfSome result (λ h. h.age < lifetime) }
    {
        self.services.get_at(k)
    }

    /// The services in its table with their ages, by type and name.
    pub fn iter_services(&self) -> TableEntries<'_, ServiceOffer>
        ensures value { result ≡ self.now.services }
        ensures young { AllByRecursion (λ h. h.age < lifetime) result }
    {
        self.services.entries()
    }
}
