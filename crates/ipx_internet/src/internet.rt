//! An internet: routers, and the deliveries of what they sent that wait.
ghost use Rattle.std.specs.Prelude.{◌≡◌, ◌↔◌, ◌<◌, ◌≤◌, ◌==◌, ◌^◌, true, [], ◌∷◌, ◌++◌, List, length, drop, slice_get, IsOk, IfOk, OnOk, OnErr, IfErr};
ghost use Rattle.std.specs.List.{AllByRecursion};
ghost use Rattle.std.specs.Option.{option_map};
ghost use Rattle.std.specs.Slice.Iter.{iter_rest};
ghost use Rattle.std.specs.Vec.{vec_len, vec_capacity};
ghost use Rattle.ipx_router.specs.Happened.{happened};
ghost use Rattle.ipx_router.specs.History.{IsOnPort, IsOfBytes};
ghost use Rattle.ipx_router.specs.Outcomes.{outcome};
ghost use Rattle.ipx_internet.specs.Internet.{IsInternet, NodesDiffer, ports_of};
ghost use Rattle.ipx_internet.specs.InternetWeight.{internet_weight};
ghost use Rattle.ipx_internet.specs.Moment.{StandsFor, IsThere, SharesNode, net_at};
ghost use Rattle.ipx_internet.specs.Passed.{HasHistories};
ghost use Rattle.ipx_internet.specs.Queue.{Delivery, Queued, queued, history_of};
ghost use Rattle.ipx_internet.specs.Refused.{IsNotAdded, IsNoEvent};
ghost use Rattle.ipx_internet.specs.Rounds.{IsDelivery};
ghost use Rattle.ipx_internet.specs.inside.Simulated.{AreRouters, moment, net_among};
ghost use Rattle.ipx_internet.specs.Settled.{HasSettled, StopsShort, IsToldOf};
ghost use Rattle.ipx_internet.specs.inside.Stations.{AreOf};
ghost use Rattle.ipx_internet.specs.Traced.{routers_of};
ghost use Rattle.ipx_internet.specs.Tree.{IsRouter};
ghost use Rattle.ipx_internet.specs.declared.internet.Settled.TheVariants.{Quiet};
ghost use Rattle.ipx_internet.specs.declared.fault.InternetFault.TheVariants.{Memory};

use crate::batch::{Batch, proves_sized};
use crate::fault::{AddRefused, InternetFault};
use crate::stations::Stations;
use crate::trace::proves_bytes;
use ipx_router::{Event, Outcome, Router};
use ipx_wire::OutOfMemory;
use std::alloc::Global;
use std::fmt;
use std::marker::Model;
use std::mem::swap;
use std::slice::Iter;

/// Whether deliveries are left.
///
/// ```
/// match internet.settle(100)? {
///     Settled::Quiet => println!(rt; "all was delivered")?,
///     Settled::Left(count) => println!(rt; "{count} deliveries wait still")?,
/// }
/// // prints all was delivered
/// ```
#[derive(Clone, Copy, Debug, PartialEq, Eq)]
pub enum Settled {
    /// None waits.
    Quiet,
    /// This many wait, at least one.
    Left(usize),
}

/// Routers with at most `P` ports, `R` routes and `S` services each, and the queue of deliveries of what they sent, first in first out.
///
/// Where `west` and `east` are routers:
///
/// ```
/// let mut internet = Internet::new(rt.alloc());
/// let first = internet.add(west).map_err(|refused| refused.fault)?;
/// let second = internet.add(east).map_err(|refused| refused.fault)?;
/// internet.event(first, Event::Start)?;
/// internet.event(second, Event::Start)?;
/// println!(rt; "{} deliveries wait", internet.waiting())?;
/// // prints 6 deliveries wait
/// ```
#[derive(Drop)]
pub struct Internet<const P: usize, const R: usize, const S: usize> {
    pub(crate) alloc: Global,
    pub(crate) routers: Vec<Router<P, R, S>>,
    pub(crate) stations: Stations,
    /// What is handed out now: of its deliveries, the first `done` were.
    pub(crate) front: Batch,
    pub(crate) done: usize,
    /// What the routers send meanwhile.
    pub(crate) back: Batch,
}

impl<const P: usize, const R: usize, const S: usize> Model for Internet<P, R, S> {
    ghost use Rattle.std.specs.Prelude.{◌++◌, drop};
    ghost use Rattle.ipx_internet.specs.Moment.{Moment};
    ghost use Rattle.ipx_internet.specs.inside.Simulated.{IsSimulated, moment};

    ghost Value = { Moment };

    ghost view = { λ i. record { routers = i.routers.items; queue = drop i.done i.front.deliveries ++ i.back.deliveries } };

    ghost invariant = { λ i. IsSimulated R S i.routers.items i.stations.list i.front.deliveries i.done i.back.deliveries };
}

impl<const P: usize, const R: usize, const S: usize> Internet<P, R, S> {
    /// An internet without routers.
    pub fn new(alloc: Global) -> Internet<P, R, S>
        ensures routers { result.routers ≡ [] }
        ensures queue { result.queue ≡ [] }
    {
        Internet {
            alloc,
            routers: Vec::new(alloc),
            stations: Stations::new(alloc),
            front: Batch::new(alloc),
            done: 0,
            back: Batch::new(alloc),
        }
    }

    /// Adds a router behind the others, and returns its number. It refuses the router and hands it back if a port of another one has
    /// network and node of one of its ports, or if there is no memory for it.
    pub fn add(&mut self, router: Router<P, R, S>) -> Result<usize, AddRefused<P, R, S>>
        ensures number { IfOk result (λ number. number ≡ length self.old.routers) }
        ensures last { OnOk result (self.new.routers ≡ self.old.routers ++ router.entry ∷ []) }
        ensures fresh { OnOk result (SharesNode (net_at self.old) router.entry.ports → ⊥) }
        ensures queue { self.new.queue ≡ self.old.queue }
        ensures unchanged { OnErr result (self.new ≡ self.old) }
        ensures back { IfErr result (λ refused. refused.router ≡ router.entry) }
        ensures fault { IfErr result (λ refused. IsNotAdded (net_at self.old) router.entry.ports refused.fault) }
    {
        if let Err(fault) = make_place(&mut self.routers, &mut self.stations, &router) {
            return Err(AddRefused { router, fault });
        }
        let number = self.routers.len();
        self.stations.add(number, &router);
        router.is_router();
        self.routers.push_reserved(router);
        Ok(number)
    }

    /// The router of that number, if there is one.
    pub fn router(&self, number: usize) -> Option<&Router<P, R, S>>
        ensures { option_map (λ r. r.now) result ≡ slice_get self.now.routers number }
    {
        self.routers.get(number)
    }

    /// The routers, from number 0 on.
    pub fn iter(&self) -> Iter<'_, Router<P, R, S>>
        ensures { iter_rest result ≡ self.now.routers }
    {
        self.routers.iter()
    }

    /// How many routers there are.
    pub fn len(&self) -> usize
        ensures value { result ≡ length self.now.routers }
        ensures internet { IsInternet (net_at self.now) }
        ensures nodes { NodesDiffer (net_at self.now) }
        ensures tables { AllByRecursion IsRouter (routers_of self.now.routers) }
        ensures past { HasHistories R S self.now }
        ensures waits { AllByRecursion (IsDelivery (net_at self.now)) self.now.queue }
    {
        crate::laws::trees();
        self.routers.len()
    }

    /// Whether there is no router.
    pub fn is_empty(&self) -> bool
        ensures { result ≡ (length self.now.routers == 0) }
    {
        self.routers.is_empty()
    }

    /// How many deliveries wait.
    pub fn waiting(&self) -> usize
        ensures { result ≡ length self.now.queue }
    {
        self.front.len() - self.done + self.back.len()
    }

    /// Gives an event to a router, queues the deliveries of what it sends behind the others, and returns what became of the event. If there
    /// is no such router or port, or no memory for what the router may send, nothing happens.
    pub fn event(&mut self, router: usize, event: Event<'_>) -> Result<Outcome, InternetFault>
        ensures net { net_at self.new ≡ net_at self.old }
        ensures stands { OnOk result ((q : Queued) → StandsFor R S self.old q → StandsFor R S self.new (queued (net_at self.old) R S q router (happened event.entry))) }
        ensures outcome { IfOk result (λ o. (q : Queued) → StandsFor R S self.old q
            → o ≡ outcome (ports_of (net_at self.old) router) R (history_of q.histories router) (happened event.entry)) }
        ensures there { OnOk result (IsThere self.old router (happened event.entry)) }
        ensures unchanged { OnErr result (self.new ≡ self.old) }
        ensures refused { IfErr result (IsNoEvent self.old router (happened event.entry)) }
    {
        if self.routers.is_empty() {
            return Err(InternetFault::NoSuchPort);
        }
        proves_sized(&self.routers);
        if !is_there(&self.routers, router, &event) {
            return Err(InternetFault::NoSuchPort);
        }
        match happen(
            &mut self.routers,
            &self.stations,
            &mut self.back,
            router,
            event,
        ) {
            Ok(outcome) => Ok(outcome),
            Err(_) => return Err(InternetFault::Memory),
        }
    }

    /// Makes deliveries, each to its router, in the order of the queue: as many as the limit says, or as there are. If memory runs out it
    /// stops, and the next one waits. A limit of what the internet weighs, or more, leaves none.
    pub fn settle(&mut self, limit: usize) -> Result<Settled, InternetFault>
        ensures net { net_at self.new ≡ net_at self.old }
        ensures settled { OnOk result (HasSettled R S limit self.old self.new) }
        ensures told { IfOk result (IsToldOf self.new.queue) }
        ensures refused { IfErr result (λ fault. fault ≡ Memory) }
        ensures short { OnErr result (StopsShort R S limit self.old self.new) }
        ensures quiet { self.old.queue ≡ [] → IsOk result }
        ensures none { limit ≡ 0 → IsOk result }
        ensures enough { internet_weight R S self.old ≤ limit → IfOk result (λ s. s ≡ Quiet) }
    {
        for _ in 0..limit {
            if self.waiting() == 0 {
                return Ok(Settled::Quiet);
            }
            if self.settle_one().is_err() {
                return Err(InternetFault::Memory);
            }
        }
        Ok(self.left())
    }

    /// What is told of the deliveries that wait.
    fn left(&self) -> Settled
        ensures { IsToldOf self.now.queue result }
    {
        match self.waiting() {
            0 => Settled::Quiet,
            count => Settled::Left(count),
        }
    }

    /// The first delivery that waits happens; where memory runs out, it waits still.
    fn settle_one(&mut self) -> Result<(), OutOfMemory>
        requires { 0 < length self.old.queue }
        ensures net { net_at self.new ≡ net_at self.old }
        ensures settled { OnOk result (HasSettled R S 1 self.old self.new) }
        ensures lighter { OnOk result (internet_weight R S self.new < internet_weight R S self.old) }
        ensures unchanged { OnErr result (self.new ≡ self.old) }
    {
        crate::laws::weighs();
        proves_sized(&self.routers);
        self.done = turn(&mut self.front, self.done, &mut self.back);
        let coming = self.front.get(self.done);
        let event = Event::Packet {
            port: coming.port,
            bytes: coming.bytes,
        };
        happen(
            &mut self.routers,
            &self.stations,
            &mut self.back,
            coming.router,
            event,
        )?;
        self.done += 1;
        Ok(())
    }
}

/// How many routers there are, and how many deliveries wait.
impl<const P: usize, const R: usize, const S: usize> fmt::Debug for Internet<P, R, S> {
    fn fmt<W: fmt::Write>(&self, f: &mut fmt::Formatter<W>) -> fmt::Result {
        f.debug_struct("Internet")
            .field("routers", &self.routers.len())
            .field("waiting", &self.waiting())
            .finish_non_exhaustive()
    }
}

/// How many of the front were handed out; where all were, what the routers sent is handed out now.
fn turn(front: &mut Batch, done: usize, back: &mut Batch) -> usize
    requires waits { 0 < length (drop done front.old.deliveries ++ back.old.deliveries) }
    requires within { done ≤ length front.old.deliveries }
    ensures queue { drop result front.new.deliveries ++ back.new.deliveries ≡ drop done front.old.deliveries ++ back.old.deliveries }
    ensures there { result < length front.new.deliveries }
    ensures fits { result < 2 ^ 63 }
{
    if done < front.len() {
        return done;
    }
    swap(front, back);
    back.clear();
    0
}

/// Makes room for a router that may be added.
fn make_place<const P: usize, const R: usize, const S: usize>(
    routers: &mut Vec<Router<P, R, S>>,
    stations: &mut Stations,
    router: &Router<P, R, S>,
) -> Result<(), InternetFault>
    requires { AreOf (net_among routers.old.items) stations.old.list }
    ensures routers { routers.new.items ≡ routers.old.items }
    ensures list { stations.new.list ≡ stations.old.list }
    ensures places { OnOk result (length router.now.ports ≤ stations.new.places) }
    ensures room { OnOk result (vec_len routers.new < vec_capacity routers.new) }
    ensures fresh { OnOk result (SharesNode (net_among routers.old.items) router.now.ports → ⊥) }
    ensures fault { IfErr result (IsNotAdded (net_among routers.old.items) router.now.ports) }
{
    if stations.shares_node(router) {
        return Err(InternetFault::SameNode);
    }
    if stations.reserve(router.ports()).is_err() || routers.reserve(1).is_err() {
        return Err(InternetFault::Memory);
    }
    Ok(())
}

/// An event happens to one of some routers, and the deliveries of what it sends are appended; where there is no memory for
/// them, nothing happens.
fn happen<const P: usize, const R: usize, const S: usize>(
    routers: &mut Vec<Router<P, R, S>>,
    stations: &Stations,
    back: &mut Batch,
    number: usize,
    event: Event<'_>,
) -> Result<Outcome, OutOfMemory>
    requires routers { AreRouters R S routers.old.items stations.now.list }
    requires there { IsThere (moment routers.old.items []) number (happened event) }
    ensures routers { AreRouters R S routers.new.items stations.now.list }
    ensures net { net_among routers.new.items ≡ net_among routers.old.items }
    ensures coming { AllByRecursion (IsDelivery (net_among routers.old.items)) back.old.deliveries
        → AllByRecursion (IsDelivery (net_among routers.old.items)) back.new.deliveries }
    ensures stands { OnOk result ((before : List Delivery) (q : Queued) → StandsFor R S (moment routers.old.items (before ++ back.old.deliveries)) q
        → StandsFor R S (moment routers.new.items (before ++ back.new.deliveries)) (queued (net_among routers.old.items) R S q number (happened event.entry))) }
    ensures outcome { IfOk result (λ o. (before : List Delivery) (q : Queued) → StandsFor R S (moment routers.old.items before) q
        → o ≡ outcome (ports_of (net_among routers.old.items) number) R (history_of q.histories number) (happened event.entry)) }
    ensures unchanged { OnErr result (routers.new.items ≡ routers.old.items) }
    ensures kept { OnErr result (back.new.deliveries ≡ back.old.deliveries) }
{
    ipx_router::laws::packets();
    proves_of_bytes(&event);
    let router = &mut routers[number];
    back.make_room(router.need(&event), stations.most())?;
    Ok(back.happen(stations, number, router, event))
}

/// What comes on a port are bytes. It is for proofs, and does nothing.
fn proves_of_bytes(event: &Event<'_>)
    ensures { IsOfBytes (happened event.now) }
{
    if let Event::Packet { bytes, .. } = event {
        proves_bytes(bytes);
    }
}

/// Whether there is such a router, and the port that the event names, if it names one.
fn is_there<const P: usize, const R: usize, const S: usize>(
    routers: &[Router<P, R, S>],
    number: usize,
    event: &Event<'_>,
) -> bool
    ensures { result ≡ true ↔ IsThere (moment routers.now []) number (happened event.now) }
{
    match routers.get(number) {
        Some(router) => is_on_port(router, event),
        None => false,
    }
}

/// Whether the router has the port that the event names, if it names one.
fn is_on_port<const P: usize, const R: usize, const S: usize>(
    router: &Router<P, R, S>,
    event: &Event<'_>,
) -> bool
    ensures { result ≡ true ↔ IsOnPort router.now.ports (happened event.now) }
{
    match *event {
        Event::Packet { port, .. } | Event::PortDown { port } | Event::PortUp { port } => {
            router.has_port(port)
        }
        Event::Start | Event::Stop | Event::Second => true,
    }
}
