//! The plan.
ghost use Rattle.std.specs.Prelude.{◌≡◌, ◌≤◌, length, map, None};
ghost use Rattle.std.specs.List.{enumerate_from};
ghost use Rattle.ipx_plan.specs.Pairing.{IsPairing, becomes};
ghost use Rattle.ipx_plan.specs.Planned.{Planned, IsPlan, link_of, origin, origins, fate, fates};
ghost use Rattle.ipx_plan.specs.Routing.{keeps_router as router_stays};

use crate::cables::{cable, is_as_before, is_closed};
use crate::fate::Fate;
use crate::link::Link;
use crate::origin::{Cable, Origin};
use crate::pairing::{becomes, pairing};
use crate::routing::keeps_router;
use crate::tunnels::{ends_tunnel, has_other_clients, has_other_sockets, tunnel};
use arrayvec::ArrayVec;
use std::marker::Model;

/// What is to be done so that a gateway with one configuration has another, each of at most `N` links.
///
/// ```
/// let tunnel = Link {
///     network: Network(0x10),
///     carrier: Carrier::Tunnel {
///         port: 2130,
///         address: 1,
///     },
///     is_first: true,
///     ..Link::default()
/// };
/// let everywhere = Link {
///     carrier: Carrier::Tunnel {
///         port: 2130,
///         address: 2,
///     },
///     ..tunnel
/// };
/// let card = Link {
///     network: Network(0x20),
///     carrier: Carrier::Card(1),
///     is_first: true,
///     ..Link::default()
/// };
/// let renumbered = Link {
///     network: Network(0x30),
///     ..card
/// };
/// let plan = Plan::<64>::new(&[tunnel, card], &[everywhere, renumbered]);
/// for origin in plan.origins() {
///     match origin.was {
///         Some(number) => println!(rt; "this link continues old link {number}")?,
///         None => println!(rt; "this link is added")?,
///     }
///     if let Tunnel::Again = origin.tunnel {
///         println!(rt; "its clients are let in again")?;
///     }
/// }
/// for fate in plan.fates() {
///     println!(rt; "its cable is closed: {}", fate.is_closed)?;
/// }
/// println!(rt; "the router stays: {}", plan.keeps_router())?;
/// // prints this link continues old link 0
/// // prints its clients are let in again
/// // prints this link is added
/// // prints its cable is closed: true
/// // prints its cable is closed: true
/// // prints the router stays: false
/// ```
#[derive(Debug, Drop)]
pub struct Plan<const N: usize> {
    origins: ArrayVec<Origin, N>,
    fates: ArrayVec<Fate, N>,
    keeps_router: bool,
}

impl<const N: usize> Model for Plan<N> {
    ghost use Rattle.ipx_plan.specs.Planned.{Planned};

    ghost Value = { Planned };

    ghost view = { λ p. record { origins = p.origins.items; fates = p.fates.items; keeps_router = p.keeps_router } };
}

impl<const N: usize> Plan<N> {
    /// The plan for the links of two configurations.
    pub fn new(old: &[Link], new: &[Link]) -> Plan<N>
        requires old { length old.now ≤ N }
        requires new { length new.now ≤ N }
        ensures { IsPlan old.now new.now result }
    {
        let was = pairing::<N>(old, new);
        let keeps_router = keeps_router(old, new);
        let origins = origins(old, new, &was, keeps_router);
        let fates = fates(old, new, &was, &cables::<N>(&origins));
        Plan {
            origins,
            fates,
            keeps_router,
        }
    }

    /// For each link of the new configuration what it is made from.
    pub fn origins(&self) -> &[Origin]
        ensures { result.now ≡ self.now.origins }
    {
        &self.origins
    }

    /// For each link of the old configuration what becomes of it.
    pub fn fates(&self) -> &[Fate]
        ensures { result.now ≡ self.now.fates }
    {
        &self.fates
    }

    /// Whether the router stays as it is.
    pub fn keeps_router(&self) -> bool
        ensures { result ≡ self.now.keeps_router }
    {
        self.keeps_router
    }
}

/// What all new links are made from.
fn origins<const N: usize>(
    old: &[Link],
    new: &[Link],
    was: &[Option<usize>],
    keeps_router: bool,
) -> ArrayVec<Origin, N>
    requires room { length new.now ≤ N }
    requires count { length was.now ≡ length new.now }
    requires router { keeps_router ≡ router_stays old.now new.now }
    ensures { result.items ≡ origins old.now new.now was.now }
{
    let mut origins = ArrayVec::new();
    for k in 0..new.len() {
        origins.push(origin(old, new, was[k], keeps_router, k, new[k]));
    }
    origins
}

/// What new link k is made from.
fn origin(
    old: &[Link],
    new: &[Link],
    was: Option<usize>,
    keeps_router: bool,
    k: usize,
    link: Link,
) -> Origin
    requires { keeps_router ≡ router_stays old.now new.now }
    ensures { result ≡ origin old.now new.now was k link }
{
    let before = link_of(old, was);
    let is_as_before = is_as_before(before, link);
    Origin {
        was,
        is_as_before,
        cable: cable(old, new, was, is_as_before, k, link),
        tunnel: tunnel(keeps_router, before, link),
        has_other_clients: has_other_clients(before, link),
        has_other_sockets: has_other_sockets(before, link),
    }
}

/// The link of that number, if there is one.
fn link_of(links: &[Link], number: Option<usize>) -> Option<Link>
    ensures { result ≡ link_of links.now number }
{
    match number {
        Some(number) => links.get(number).copied(),
        None => None,
    }
}

fn cables<const N: usize>(origins: &[Origin]) -> ArrayVec<Cable, N>
    requires { length origins.now ≤ N }
    ensures { result.items ≡ map (λ o. o.cable) origins.now }
{
    let mut cables = ArrayVec::new();
    for origin in origins {
        cables.push(origin.cable);
    }
    cables
}

/// What becomes of all old links.
fn fates<const N: usize>(
    old: &[Link],
    new: &[Link],
    was: &[Option<usize>],
    cables: &[Cable],
) -> ArrayVec<Fate, N>
    requires { length old.now ≤ N }
    ensures { result.items ≡ map (λ p. fate old.now new.now cables.now (becomes was.now p.0) p.0 p.1) (enumerate_from 0 old.now) }
{
    let mut fates = ArrayVec::new();
    for j in 0..old.len() {
        fates.push(fate(old, new, becomes(was, j), cables, j, old[j]));
    }
    fates
}

/// What becomes of old link j.
fn fate(
    old: &[Link],
    new: &[Link],
    becomes: Option<usize>,
    cables: &[Cable],
    j: usize,
    link: Link,
) -> Fate
    ensures { result ≡ fate old.now new.now cables.now becomes j link }
{
    Fate {
        becomes,
        is_closed: is_closed(old, cables, j, link),
        ends_tunnel: ends_tunnel(link, link_of(new, becomes)),
    }
}
