//! What becomes true of every internet in time, whatever its routers' tables.
//!
//! Laws of ticks begin with steps after which nothing waits (`ComesToRest`): with none where nothing waits, as at `begun histories`, else with
//! those of one tick. So whatever waits, forged packets too, one tick more is enough; hosts may say anything in it.
mod apart;
pub mod changes;
mod costs;
mod crossings;
pub mod edges;
mod given;
mod order;
mod outsiders;
pub mod services;
mod wire_services;
mod wires;

ghost use Rattle.std.specs.Prelude.{◌≡◌, ◌≢◌, ℕ, ◌+◌, ◌<◌, ◌≤◌, true, false, List, [], ◌∷◌, ◌++◌, length, map, flat_map, Option, Some};
ghost use Rattle.std.specs.List.{AllByRecursion};
ghost use Rattle.ipx_wire.specs.Packet.{Parts};
ghost use Rattle.ipx_wire.specs.declared.address.Address.{Address};
ghost use Rattle.ipx_wire.specs.declared.network.Network.{Network};
ghost use Rattle.ipx_router.specs.Facts.{services_held};
ghost use Rattle.ipx_router.specs.History.{History};
ghost use Rattle.ipx_router.specs.Numbers.{most_routers};
ghost use Rattle.ipx_router.specs.Port.{broadcast, is_up};
ghost use Rattle.ipx_internet.specs.Internet.{Internet, Place, IsInternet, ports_of};
ghost use Rattle.ipx_internet.specs.Queue.{history_of};
ghost use Rattle.ipx_internet.specs.Run.{Step, IsStep, AreHistories, Run, begun, run_of};
ghost use Rattle.ipx_internet.specs.Ticks.{AreTicks, ticked};
ghost use Rattle.ipx_internet.specs.Traced.{routers_after};
ghost use Rattle.ipx_internet.specs.Tree.{Router, Copy, root, tree_to};
ghost use Rattle.ipx_laws.specs.Announces.{IsAnnounced, AsksApart};
ghost use Rattle.ipx_laws.specs.Arriving.{IsOfHost, CanArrive, Arrives, EndsOn};
ghost use Rattle.ipx_laws.specs.Departure.{ObservesHorizon, departures, handed, deliveries_from};
ghost use Rattle.ipx_laws.specs.Gone.{most_ticks_gone, IsGone};
ghost use Rattle.ipx_laws.specs.Least.{Way, is_better, least, IsWay, most_hops, FifteenSuffice, CostTheSame, least_route, ticks_right, most_ticks_right};
ghost use Rattle.ipx_laws.specs.Meanwhile.{IsWithoutRoute, IsWithoutService, SaysOnly, EachStep, StaysGone, EachTick, AreCalmTicks, AreTicksAfter, AreBusyTicksAfter, AreCalmTicksAfter};
ghost use Rattle.ipx_laws.specs.Real.{IsReal, led_over};
ghost use Rattle.ipx_laws.specs.Setting.{IsSetting};
ghost use Rattle.ipx_laws.specs.Tables.{routes_of, route_of, AreReal, IsRight, services_of};
ghost use Rattle.ipx_laws.specs.Ups.{ups};

pub use crate::laws::apart::{arrives_apart, real_apart, right_apart};
pub use crate::laws::costs::{tables_stay, upkeep};
pub use crate::laws::crossings::each_path_once;
pub use crate::laws::order::any_order_ends;
pub use crate::laws::outsiders::{
    real_with_outsiders, real_with_outsiders_on_wires, right_with_outsiders,
    right_with_outsiders_on_wires,
};
pub use crate::laws::wire_services::{
    beside_on_wires, everywhere_on_wires, nearest_on_wires, served_on_wires,
};
pub use crate::laws::wires::{
    announced_on_wires, gone_on_wires, lock_step, real_on_wires, right_on_wires,
};

/// Over any run, no route goes back to where it was learned: no route that a router holds after an event, to a network that an
/// entry of a packet names which it sends for that event, was learned on the port on which the packet leaves.
///
/// It is said of the bytes of each packet of the type of routing information that came through no router, whichever event it
/// is sent for. What is handed out in a run, and what waits at its end, is what was sent in it, in that order.
pub fn horizon()
    ensures split_horizon { (net : Internet) (most_routes most_services : ℕ) (histories : List History) (steps : List Step)
        → IsInternet net → AreHistories net histories → AllByRecursion (IsStep net) steps
        → AllByRecursion ObservesHorizon (departures net most_routes most_services (begun histories) steps) }
    ensures nothing_else { (net : Internet) (most_routes most_services : ℕ) (histories : List History) (steps : List Step)
        → handed net most_routes most_services (begun histories) steps
        ++ map (λ w. w.delivery) (run_of net most_routes most_services (begun histories) steps).waiting
        ≡ flat_map (deliveries_from net) (departures net most_routes most_services (begun histories) steps) }
{
    crate::laws::given::routing();
    ipx_router::laws::no_route_goes_back();
}

/// Ticks in which nothing else happens are calm, and so they are ticks of hosts and busy ticks: what a law says of these holds for them.
pub fn ticks_are_calm()
    ensures { (net : Internet) (most_routes most_services : ℕ) (run : Run) (ticks : List (List Step))
        → AreTicks net most_routes most_services run ticks → AreCalmTicks net most_routes most_services run ticks }
{}

/// What is gone is gone everywhere after 2,880 ticks, whatever was in the tables before: where nobody has a port up on a network,
/// no router has a route to it (`networks`), also while hosts speak, as in `real`. No router has any service, as no router announces one of
/// its own (`services`): in these ticks each router has one second, in any order, deliveries happen in between, and nothing else does.
pub fn gone()
    ensures networks { (net : Internet) (most_routes most_services : ℕ) (run : Run) (first : List Step) (ticks : List (List Step)) (router : ℕ) (network : Network)
        → IsInternet net → AreHistories net run.histories → AreCalmTicksAfter net most_routes most_services run first ticks
        → most_ticks_gone ≤ length ticks → router < length net → IsGone net run.histories network
        → AllByRecursion (λ r. r.network ≢ network) (routes_of net most_routes (ticked net most_routes most_services run (first ∷ ticks)).histories router) }
    ensures services { (net : Internet) (most_routes most_services : ℕ) (run : Run) (first : List Step) (ticks : List (List Step)) (router : ℕ)
        → IsInternet net → AreHistories net run.histories → AreTicksAfter net most_routes most_services run first ticks
        → most_ticks_gone ≤ length ticks → router < length net
        → services_held (ports_of net router) most_services (history_of (ticked net most_routes most_services run (first ∷ ticks)).histories router) ≡ [] }
{
    gone_meanwhile();
    real();
}

/// What is gone stays gone, whatever else happens meanwhile: starts and stops, ports that go down and come up, packets of hosts.
///
/// After 2,880 ticks no router has a route to a network on which no port was up since they began, if no packet of a host said that it
/// is reached; and no router has a service that no host announced since then. In a tick each router has one second, everything else happens
/// in any order, and in the end nothing waits. A host may ask what it likes, but a request for routes is not sent from the socket of SAP, nor
/// a query for services from that of RIP: the answer would be read as what it is not.
pub fn gone_meanwhile()
    ensures networks { (net : Internet) (most_routes most_services : ℕ) (run : Run) (first : List Step) (ticks : List (List Step)) (router : ℕ) (network : Network)
        → IsInternet net → AreHistories net run.histories → AreBusyTicksAfter net most_routes most_services run first ticks
        → most_ticks_gone ≤ length ticks → router < length net
        → EachTick net most_routes most_services (StaysGone net most_routes most_services network) (run_of net most_routes most_services run first) ticks
        → EachStep (SaysOnly (IsWithoutRoute network)) ticks
        → AllByRecursion (λ r. r.network ≢ network) (routes_of net most_routes (ticked net most_routes most_services run (first ∷ ticks)).histories router) }
    ensures services { (net : Internet) (most_routes most_services : ℕ) (run : Run) (first : List Step) (ticks : List (List Step)) (router : ℕ) (key : ℕ × List ℕ)
        → IsInternet net → AreHistories net run.histories → AreBusyTicksAfter net most_routes most_services run first ticks
        → most_ticks_gone ≤ length ticks → router < length net → EachStep (SaysOnly (IsWithoutService key)) ticks
        → AllByRecursion (λ s. (s.service.kind, s.service.name) ≢ key)
        (services_of net most_services (ticked net most_routes most_services run (first ∷ ticks)).histories router) }
{
    crate::laws::given::layouts();
    crate::laws::wires::gone_on_wires();
}

/// Every service that a router has was announced by a host: after 2,880 ticks it is one that a packet of a host said in them, with type, name
/// and address as it said, and with no fewer hops, whatever was in the tables before and whatever else happens meanwhile. The router to which
/// that packet came heard it or sent it on: a packet that is dropped there announces nothing.
///
/// So a server that is switched off is forgotten everywhere, and one that moves is no longer looked for where it was. In a tick each router has
/// one second, everything else happens in any order, and in the end nothing waits. A host may ask what it likes, but a request for routes is not
/// sent from the socket of SAP.
pub fn announced()
    ensures services { (net : Internet) (most_routes most_services : ℕ) (run : Run) (first : List Step) (ticks : List (List Step)) (router : ℕ)
        → IsInternet net → AreHistories net run.histories → AreBusyTicksAfter net most_routes most_services run first ticks
        → most_ticks_gone ≤ length ticks → router < length net → EachStep (SaysOnly AsksApart) ticks
        → AllByRecursion (λ s. IsAnnounced net most_routes most_services (run_of net most_routes most_services run first) ticks s.service)
        (services_of net most_services (ticked net most_routes most_services run (first ∷ ticks)).histories router) }
{
    crate::laws::given::layouts();
    crate::laws::wires::announced_on_wires();
}

/// Every route is of a real way after 2,880 calm ticks, whatever was in the tables before: each came by a port that is up from a router
/// that has the network on another port, or has such a route by another one. All those ports are up, neighbour by neighbour, and hops and
/// ticks are those of that way.
///
/// So no route is of a way that leads over a port that has been down that long (`down`). The port by which a route came is up after
/// any number of ticks (`own_ports`).
///
/// In calm ticks hosts may speak: packets of any kind come from outside, near or far, with true or forged senders. But nobody starts or
/// stops, no port goes down or comes up, and nothing that may be heard of such a packet is a response of routing information, or a query for
/// services that is answered to the socket of RIP. Ticks in which nothing else happens are such (`ticks_are_calm`).
pub fn real()
    ensures routes { (net : Internet) (most_routes most_services : ℕ) (run : Run) (first : List Step) (ticks : List (List Step)) (router : ℕ)
        → IsInternet net → AreHistories net run.histories → AreCalmTicksAfter net most_routes most_services run first ticks
        → most_ticks_gone ≤ length ticks → router < length net
        → AllByRecursion (IsReal net (ups net run.histories) router)
        (routes_of net most_routes (ticked net most_routes most_services run (first ∷ ticks)).histories router) }
    ensures down { (net : Internet) (most_routes most_services : ℕ) (run : Run) (first : List Step) (ticks : List (List Step)) (router : ℕ) (place : Place)
        → IsInternet net → AreHistories net run.histories → AreCalmTicksAfter net most_routes most_services run first ticks
        → most_ticks_gone ≤ length ticks → router < length net → is_up (ups net run.histories place.router) place.port ≡ false
        → AllByRecursion
        (λ r. (real : IsReal net (ups net run.histories) router r) × AllByRecursion (λ p. p ≢ place) (led_over net (ups net run.histories) router r real))
        (routes_of net most_routes (ticked net most_routes most_services run (first ∷ ticks)).histories router) }
    ensures own_ports { (net : Internet) (most_routes most_services : ℕ) (run : Run) (first : List Step) (ticks : List (List Step)) (router : ℕ)
        → IsInternet net → AreHistories net run.histories → AreCalmTicksAfter net most_routes most_services run first ticks → router < length net
        → AllByRecursion (λ r. is_up (ups net run.histories router) r.port ≡ true)
        (routes_of net most_routes (ticked net most_routes most_services run (first ∷ ticks)).histories router) }
{
    crate::laws::apart::real_apart();
}

/// The least way over the ports that are up is a way of at most fifteen hops, and no such way is better.
pub fn least_ways()
    ensures way { (net : Internet) (histories : List History) (router : ℕ) (network : Network) (way : Way)
        → least net (ups net histories) router network ≡ Some way
        → IsWay net (ups net histories) network router way × (way.hops ≤ most_hops) }
    ensures none_better { (net : Internet) (histories : List History) (router : ℕ) (network : Network) (way : Way)
        → IsWay net (ups net histories) network router way → way.hops ≤ most_hops
        → (best : Way) × (least net (ups net histories) router network ≡ Some best) × (is_better way best ≡ false) }
{}

/// Fifteen hops suffice wherever no way of sixteen hops is better than all that have fewer: so in any internet of at most 16 routers, and in
/// one of any number of routers where every port costs the same.
///
/// `FifteenSuffice` says it of one network and of the ports that are up. The best that a router is told of is the best of its neighbours'
/// least ways, gone on. It is the router's least way, or it has more than fifteen hops, and then the router has none.
pub fn fifteen_suffice()
    ensures few_routers { (net : Internet) (histories : List History) (network : Network) → IsInternet net → length net ≤ most_routers
        → FifteenSuffice net (ups net histories) network }
    ensures equal_costs { (net : Internet) (cost : ℕ) (histories : List History) (network : Network) → IsInternet net → CostTheSame net cost
        → FifteenSuffice net (ups net histories) network }
{}

/// Every table becomes right and stays so, whatever was in it before: after 2,940 calm ticks every router has the route of the least way to a
/// network, however many hops that has, and where there is no way it has none, after 2,880 (`tables`). From then on it is the same route at
/// the end of each tick, with hops, ticks, port and neighbour (`stay`). No network takes longer (`soon`). Where every route is of a real way
/// from the first and nothing waits, 60 ticks are enough, the time from one broadcast of all to the next (`sooner`, `sooner_stay`).
///
/// Ways lead over the ports that are up, of routers that run, whichever these are. Fifteen hops suffice for that network, as they do where
/// there are at most 16 routers (`fifteen_suffice`), no port costs more than 4,095 ticks, and the ports of two routers on one network have
/// different nodes. Every table has room for all networks that its router has no port on, and so has the share of every port. All that is a
/// setting (`IsSetting`). Hosts may speak, as in `real`; ports stay as they are.
pub fn right()
    ensures tables { (net : Internet) (most_routes most_services : ℕ) (run : Run) (first : List Step) (ticks : List (List Step)) (router : ℕ) (network : Network)
        → IsSetting net most_routes run.histories network → AreCalmTicksAfter net most_routes most_services run first ticks → router < length net
        → ticks_right (least_route net (ups net run.histories) router network) ≤ length ticks
        → IsRight net most_routes (ticked net most_routes most_services run (first ∷ ticks)).histories (ups net run.histories) router network }
    ensures stay { (net : Internet) (most_routes most_services : ℕ) (run : Run) (first : List Step) (ticks further : List (List Step)) (router : ℕ) (network : Network)
        → IsSetting net most_routes run.histories network → AreCalmTicksAfter net most_routes most_services run first (ticks ++ further)
        → router < length net → ticks_right (least_route net (ups net run.histories) router network) ≤ length ticks
        → route_of net most_routes (ticked net most_routes most_services run (first ∷ ticks ++ further)).histories router network
        ≡ route_of net most_routes (ticked net most_routes most_services run (first ∷ ticks)).histories router network }
    ensures sooner { (net : Internet) (most_routes most_services : ℕ) (run : Run) (ticks : List (List Step)) (router : ℕ) (network : Network)
        → IsSetting net most_routes run.histories network → AreReal net most_routes run.histories (ups net run.histories) → run.waiting ≡ []
        → AreCalmTicks net most_routes most_services run ticks → router < length net
        → ticks_right (least_route net (ups net run.histories) router network) ≤ most_ticks_gone + length ticks
        → IsRight net most_routes (ticked net most_routes most_services run ticks).histories (ups net run.histories) router network }
    ensures sooner_stay { (net : Internet) (most_routes most_services : ℕ) (run : Run) (ticks further : List (List Step)) (router : ℕ) (network : Network)
        → IsSetting net most_routes run.histories network → AreReal net most_routes run.histories (ups net run.histories) → run.waiting ≡ []
        → AreCalmTicks net most_routes most_services run (ticks ++ further) → router < length net
        → ticks_right (least_route net (ups net run.histories) router network) ≤ most_ticks_gone + length ticks
        → route_of net most_routes (ticked net most_routes most_services run (ticks ++ further)).histories router network
        ≡ route_of net most_routes (ticked net most_routes most_services run ticks).histories router network }
    ensures soon { (way : Option Way) → ticks_right way ≤ most_ticks_right }
{
    crate::laws::apart::right_apart();
}

/// So packets arrive. A packet of a host comes to a port that is up, of a router that has a way to the packet's network; the port isn't on
/// that network. After 2,940 ticks, or 2,880 where the router's least way has no hop, it goes through as many routers more as that way has
/// hops, one at a time, and the last one sends it out on that network, for the node that it is for (`goes`). Where the router has a port on
/// that network itself, the way has no hops, and the packet leaves there at once. So the first levels of its tree, one for each hop and a last
/// one, have as many receptions together (`one_each`). What each of these routers sends on, and so what leaves at last, is the packet that it
/// received, unchanged but for the transport control: that is one more each time, and below 16 where the packet is received.
///
/// Where such a packet's destination has another node than the broadcast, these receptions are its whole tree (`ends`). The last one is at a
/// router with a port that is up on that network, and no router receives what leaves there.
///
/// It is for one network. No port of a router sent it or is where it goes, and its source isn't the broadcast node. No port by which one of that
/// router's least ways leads finds it too long. Its transport control and these hops are together fewer than 16 (`CanArrive`). The rest is asked for
/// as by `right`.
pub fn arrives()
    ensures goes { (net : Internet) (most_routes most_services : ℕ) (run : Run) (first : List Step) (ticks : List (List Step)) (place : Place) (bytes : List ℕ) (p : Parts)
        (way : Way)
        → IsSetting net most_routes run.histories p.header.destination.network → AreCalmTicksAfter net most_routes most_services run first ticks
        → CanArrive net (ups net run.histories) place bytes p way → ticks_right (Some way) ≤ length ticks
        → Arrives (routers_after net most_routes (ticked net most_routes most_services run (first ∷ ticks)).histories) p.header.destination p.header.control way.hops 0
        (root place bytes) }
    ensures one_each { (routers : List Router) (to : Address) (control hops : ℕ) (c : Copy) → Arrives routers to control hops 0 c → length (tree_to routers (hops + 1) c) ≡ hops + 1 }
    ensures ends { (net : Internet) (most_routes : ℕ) (histories : List History) (p : Parts) (control hops : ℕ) (c : Copy)
        → IsOfHost net p → p.header.destination.node ≢ broadcast → Arrives (routers_after net most_routes histories) p.header.destination control hops 0 c
        → EndsOn (routers_after net most_routes histories) p.header.destination.network hops c }
{
    crate::laws::apart::arrives_apart();
}
