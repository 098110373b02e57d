//! What an internet weighs: a limit with which `settle` leaves nothing.
//!
//! Numbers are counted up to `usize::MAX`, which stands for all that are greater.
ghost use Rattle.std.specs.Prelude.{◌≡◌, ◌-◌, ◌^◌, ◌<◌, ◌≤◌, min, drop};
ghost use Rattle.std.specs.List.{sum_by};
ghost use Rattle.ipx_internet.specs.Batches.{delivery_of};
ghost use Rattle.ipx_internet.specs.Internet.{network_of as network_at_place};
ghost use Rattle.ipx_internet.specs.InternetWeight.{delivery_weight, records_at, internet_weight};
ghost use Rattle.ipx_internet.specs.Most.{most_ports as ports_at_most};
ghost use Rattle.ipx_internet.specs.inside.Scales.{saturated, IsScale};
ghost use Rattle.ipx_internet.specs.inside.Simulated.{net_among};

use crate::batch::{Batch, Coming, proves_sized};
use crate::internet::Internet;
use crate::scale::{Scale, scale_of};
use crate::stations::network_of;
use ipx_router::Router;
use ipx_wire::{Network, Packet};

impl<const P: usize, const R: usize, const S: usize> Internet<P, R, S> {
    /// A limit on the deliveries that can still happen without another event: what the internet weighs, or `usize::MAX` if it weighs more.
    /// With it as a limit `settle` answers `Quiet`, unless it is `usize::MAX` or memory is refused.
    pub fn most_deliveries(&self) -> usize
        ensures value { result ≡ min (internet_weight R S self.now) (2 ^ 64 - 1) }
        ensures enough { result < 2 ^ 64 - 1 → internet_weight R S self.now ≤ result }
    {
        if self.routers.is_empty() {
            return 0;
        }
        proves_sized(&self.routers);
        let ports = most_ports(&self.routers);
        let on_network = self.stations.most();
        let scale = scale_of(ports, on_network, R, S);
        let held = scale.hearers.saturating_mul(records(&self.routers));
        let front = weigh(&self.routers, scale, &self.front, self.done);
        let back = weigh(&self.routers, scale, &self.back, 0);
        held.saturating_add(front.saturating_add(back))
    }
}

/// The most ports that one of some routers has.
fn most_ports<const P: usize, const R: usize, const S: usize>(routers: &[Router<P, R, S>]) -> usize
    ensures { result ≡ ports_at_most (net_among routers.now) }
{
    let mut most: usize = 0;
    for router in routers {
        most = most.max(router.ports());
    }
    most
}

/// The routes and services that some routers hold.
fn records<const P: usize, const R: usize, const S: usize>(routers: &[Router<P, R, S>]) -> usize
    ensures { result ≡ saturated (records_at routers.now) }
{
    let mut count: usize = 0;
    for router in routers {
        count = count.saturating_add(router.routes());
        count = count.saturating_add(router.services());
    }
    count
}

/// What the deliveries of a batch weigh from one number on.
fn weigh<const P: usize, const R: usize, const S: usize>(
    routers: &[Router<P, R, S>],
    scale: Scale,
    batch: &Batch,
    from: usize,
) -> usize
    requires { IsScale (net_among routers.now) R S scale }
    ensures { result ≡ saturated (sum_by (delivery_weight (net_among routers.now) R S) (drop from batch.now.deliveries)) }
{
    let mut sum: usize = 0;
    for k in from..batch.len() {
        sum = sum.saturating_add(weigh_one(routers, scale, batch.get(k)));
    }
    sum
}

/// What a delivery weighs.
fn weigh_one<const P: usize, const R: usize, const S: usize>(
    routers: &[Router<P, R, S>],
    scale: Scale,
    coming: Coming<'_>,
) -> usize
    requires { IsScale (net_among routers.now) R S scale }
    ensures { result ≡ saturated (delivery_weight (net_among routers.now) R S (delivery_of coming.entry)) }
{
    match Packet::read(coming.bytes) {
        Ok(packet) => {
            let network = network_at(routers, coming.router, coming.port);
            scale.weight(network, &packet)
        }
        Err(_) => 1,
    }
}

/// The network of a port of one of some routers; network 0, which is no port's, where there is no such port.
fn network_at<const P: usize, const R: usize, const S: usize>(
    routers: &[Router<P, R, S>],
    router: usize,
    port: u8,
) -> Network
    ensures { result ≡ network_at_place (net_among routers.now) (record { router = router; port = port }) }
{
    match routers.get(router) {
        Some(router) => network_of(router, port),
        None => Network::LOCAL,
    }
}
