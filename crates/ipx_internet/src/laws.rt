//! What holds of every internet, whatever its routers' tables.
mod passing;

ghost use Rattle.std.specs.Prelude.{◌≡◌, ◌↔◌, ℕ, ◌+◌, ◌-◌, ◌*◌, ◌<◌, ◌≤◌, true, false, List, [], ◌∷◌, ◌++◌, length, flat_map, replicate, Option, Some, slice_get};
ghost use Rattle.std.specs.List.{AllByRecursion};
ghost use Rattle.ipx_wire.specs.Crossed.{is_among};
ghost use Rattle.ipx_wire.specs.Numbers.{crossed_places};
ghost use Rattle.ipx_wire.specs.Packet.{Parts, IsPacket};
ghost use Rattle.ipx_wire.specs.Piece.{IsBytes};
ghost use Rattle.ipx_wire.specs.declared.network.Network.{Network};
ghost use Rattle.ipx_wire.specs.declared.node.Node.{Node};
ghost use Rattle.ipx_router.specs.Bounds.{most_packets};
ghost use Rattle.ipx_router.specs.Facts.{routes_held, services_held};
ghost use Rattle.ipx_router.specs.History.{Event, History, IsOnPort, IsOfBytes};
ghost use Rattle.ipx_router.specs.Numbers.{most_routers, most_ports};
ghost use Rattle.ipx_router.specs.Packets.{IsRelayed};
ghost use Rattle.ipx_router.specs.Port.{Port};
ghost use Rattle.ipx_router.specs.Relays.{Sent};
ghost use Rattle.ipx_router.specs.Sends.{sends};
ghost use Rattle.ipx_router.specs.Why.{is_propagated};
ghost use Rattle.ipx_internet.specs.BusyTick.{IsBusyTick};
ghost use Rattle.ipx_internet.specs.Course.{IsInCourse, IsPath, visited};
ghost use Rattle.ipx_internet.specs.Delivery.{delivered};
ghost use Rattle.ipx_internet.specs.Different.{AreDifferent};
ghost use Rattle.ipx_internet.specs.Internet.{Internet, Place, IsInternet, NodesDiffer, IsPlace, network_of, ports_of};
ghost use Rattle.ipx_internet.specs.InternetWeight.{queued_weight};
ghost use Rattle.ipx_internet.specs.Log.{Sending, Reception, reception_at, IsForward, IsLog};
ghost use Rattle.ipx_internet.specs.Most.{most, most_of, most_on_network, most_ports as ports_at_most};
ghost use Rattle.ipx_internet.specs.Queue.{Delivery, Queued, deliveries_of, queued, settled_one, settled};
ghost use Rattle.ipx_internet.specs.Rounds.{IsDelivery, IsOwnStep, rounds, handed_out, most_caused, most_rounds, most_own_rounds};
ghost use Rattle.ipx_internet.specs.Run.{Step, Settles, IsStep, AreHistories, Run, begun, forgotten, happens, stepped, run_of};
ghost use Rattle.ipx_internet.specs.Moment.{Moment, StandsFor, net_at};
ghost use Rattle.ipx_internet.specs.Ticks.{seconds_of, IsOfTick, IsTick, AreTicks, a_tick, a_tick_by, IsOrder};
ghost use Rattle.ipx_internet.specs.Traced.{tree, routers_of, routers_after};
ghost use Rattle.ipx_internet.specs.Tree.{Router, router_now, IsRouter, Copy, root, net_of, sent_on, children, tree_to, IsTree};
ghost use Rattle.ipx_internet.specs.Weight.{weight, weights, CanCome, IsBounded};

pub use crate::laws::passing::seconds_pass;

/// How far a packet goes, in any internet and any log: with any tables and any ports up, also such as change on the way.
///
/// A packet for one network has at most 16 forwards in its whole course, fewer by its transport control. Every path of a
/// propagated packet has at most eight, fewer by its transport control, also from a forged list of networks crossed; it
/// visits no network twice, so that it has fewer forwards than there are networks. These hold of the course and the paths
/// of any reception, not of those without origin alone.
pub fn courses()
    ensures one_network { (net : Internet) (log : List Reception) (start : ℕ) (p : Parts) (forwards : List Sending)
        → IsInternet net → NodesDiffer net → IsLog net log → IsPacket (reception_at log start).bytes p → is_propagated p.header ≡ false
        → AllByRecursion (λ s. IsForward net log s × IsInCourse log start s.place) forwards → AreDifferent forwards
        → length forwards ≤ most_routers - p.header.control }
    ensures all_networks { (net : Internet) (log : List Reception) (start : ℕ) (p : Parts) (path : List Sending)
        → IsInternet net → IsLog net log → IsPacket (reception_at log start).bytes p → is_propagated p.header ≡ true → IsPath net log start path
        → length path ≤ crossed_places - p.header.control }
    ensures no_network_twice { (net : Internet) (log : List Reception) (start : ℕ) (p : Parts) (path : List Sending)
        → IsInternet net → IsLog net log → IsPacket (reception_at log start).bytes p → is_propagated p.header ≡ true → IsPath net log start path
        → AreDifferent (visited net log start path) }
    ensures fewer_than_networks { (net : Internet) (log : List Reception) (start : ℕ) (p : Parts) (path : List Sending) (networks : List Network)
        → IsInternet net → IsLog net log → IsPacket (reception_at log start).bytes p → is_propagated p.header ≡ true → IsPath net log start path
        → ((place : Place) → IsPlace net place → is_among (network_of net place) networks ≡ true)
        → length path ≤ length networks - 1 }
{
    ipx_wire::laws::readings();
    ipx_wire::laws::reread();
    ipx_router::laws::same_offers();
}

/// What is listed of a run is a log, so that all of the above holds of it, with every other traffic between: packets of
/// any kind, seconds, starts and stops, ports that go down and come up. A run begins with any histories and nothing that
/// waits; each of its steps is an event or the first delivery that waits, and does with the queue what `queued` says.
pub fn runs()
    ensures listed { (net : Internet) (most_routes most_services : ℕ) (histories : List History) (steps : List Step)
        → IsInternet net → AreHistories net histories → AllByRecursion (IsStep net) steps
        → IsLog net (run_of net most_routes most_services (begun histories) steps).log }
    ensures events { (net : Internet) (most_routes most_services : ℕ) (run : Run) (router : ℕ) (event : Event) (origin : Option Sending)
        → forgotten (happens net most_routes most_services run router event origin) ≡ queued net most_routes most_services (forgotten run) router event }
    ensures deliveries { (net : Internet) (most_routes most_services : ℕ) (run : Run)
        → forgotten (stepped net most_routes most_services run Settles) ≡ settled_one net most_routes most_services (forgotten run) }
    ensures many_deliveries { (net : Internet) (most_routes most_services : ℕ) (run : Run) (n : ℕ)
        → forgotten (run_of net most_routes most_services run (replicate n Settles)) ≡ settled net most_routes most_services n (forgotten run) }
{
    ipx_router::laws::relays();
    ipx_router::laws::tables();
    ipx_router::laws::packets();
}

/// The tree of a packet that comes to a port while nothing else happens has few receptions, and at most 17 levels.
///
/// For a propagated packet: itself, and from each on, eight times at most, at most one for each other port of a router and
/// each other port of a network. For a packet for one network: at most 16 routers that send it on, and all ports of one
/// network. For all other bytes: itself. What a reception of a tree sends on are just the forwards of a router that runs, and
/// every router, after any history, is such a router as these are said of.
pub fn trees()
    ensures all_networks { (routers : List Router) (c : Copy) (p : Parts) (n : ℕ) → IsInternet (net_of routers) → AllByRecursion IsRouter routers
        → IsBytes c.bytes → IsPacket c.bytes p → is_propagated p.header ≡ true
        → length (tree_to routers n c) ≤ most (net_of routers) (crossed_places - p.header.control) }
    ensures one_network { (routers : List Router) (c : Copy) (p : Parts) (n : ℕ) → IsInternet (net_of routers) → NodesDiffer (net_of routers) → AllByRecursion IsRouter routers
        → IsBytes c.bytes → IsPlace (net_of routers) c.to → IsPacket c.bytes p → is_propagated p.header ≡ false → p.header.control ≤ most_routers
        → length (tree_to routers n c) ≤ (most_routers - p.header.control) + most_on_network (net_of routers) }
    ensures nowhere { (routers : List Router) (c : Copy) (n : ℕ) → IsInternet (net_of routers) → AllByRecursion IsRouter routers
        → IsBytes c.bytes → ((p : Parts) → IsPacket c.bytes p → (is_propagated p.header ≡ false) × (most_routers ≤ p.header.control))
        → length (tree_to routers n c) ≤ 1 }
    ensures whole { (routers : List Router) (c : Copy) (n : ℕ) → IsInternet (net_of routers) → AllByRecursion IsRouter routers
        → IsBytes c.bytes → most_routers < n → IsTree routers c (tree_to routers n c) }
    ensures by_forwards { (r : Router) (number : ℕ) (bytes : List ℕ) (s : Sent) → IsRouter r → IsBytes bytes
        → (((k : ℕ) × (slice_get (sent_on r number bytes) k ≡ Some s)) ↔ (r.running ≡ true) × IsRelayed r.ports r.up r.routes number bytes s) }
    ensures as_they_are { (ports : List Port) (most_routes : ℕ) (history : History) → AllByRecursion (IsOnPort ports) history
        → IsRouter (router_now ports most_routes history) }
{
    ipx_wire::laws::readings();
    ipx_wire::laws::reread();
    ipx_wire::laws::sent_on();
    ipx_router::laws::same_offers();
    ipx_router::laws::tables();
    ipx_router::laws::relays();
}

/// What a reception may still lead to has a weight, and to send it on never makes the whole heavier: it counts 1, and what
/// receives its forwards weighs what is left, at most.
///
/// A propagated packet that may still be sent on n times weighs `most` of n. A packet for another network weighs the number of
/// routers that may still send it on, and all ports of one network. All other bytes weigh 1: they go no further. So a list of
/// receptions that begins with one, and to whose end those are put that receive what is sent on, one reception after the
/// other, is never longer than the first one's weight (`few`), whether it is finished or not (`begins`, `goes_on`); and that
/// weight is no more than what `trees` says of the whole tree.
pub fn weights()
    ensures never_rises { (routers : List Router) (c : Copy) (number : ℕ) → IsInternet (net_of routers) → NodesDiffer (net_of routers) → AllByRecursion IsRouter routers
        → CanCome (net_of routers) c → 1 + weights (net_of routers) (children routers number c) ≤ weight (net_of routers) c }
    ensures can_come { (routers : List Router) (c : Copy) (number : ℕ) → IsInternet (net_of routers) → AllByRecursion IsRouter routers
        → CanCome (net_of routers) c → AllByRecursion (CanCome (net_of routers)) (children routers number c) }
    ensures at_least_one { (net : Internet) (c : Copy) → 1 ≤ weight net c }
    ensures begins { (net : Internet) (c : Copy) → CanCome net c → IsBounded net c 0 (c ∷ []) }
    ensures goes_on { (routers : List Router) (root c : Copy) (copies : List Copy) (sent number : ℕ) → IsInternet (net_of routers) → NodesDiffer (net_of routers)
        → AllByRecursion IsRouter routers → IsBounded (net_of routers) root sent copies → slice_get copies sent ≡ Some c
        → IsBounded (net_of routers) root (sent + 1) (copies ++ children routers number c) }
    ensures few { (net : Internet) (root : Copy) (copies : List Copy) (sent : ℕ) → IsBounded net root sent copies → length copies ≤ weight net root }
    ensures all_networks { (net : Internet) (c : Copy) (p : Parts) → IsBytes c.bytes → IsPacket c.bytes p → is_propagated p.header ≡ true
        → weight net c ≤ most net (crossed_places - p.header.control) }
    ensures one_network { (net : Internet) (c : Copy) (p : Parts) → CanCome net c → IsPacket c.bytes p → is_propagated p.header ≡ false
        → p.header.control ≤ most_routers → weight net c ≤ (most_routers - p.header.control) + most_on_network net }
    ensures nowhere { (net : Internet) (c : Copy) → IsBytes c.bytes
        → ((p : Parts) → IsPacket c.bytes p → (is_propagated p.header ≡ false) × (most_routers ≤ p.header.control)) → weight net c ≤ 1 }
{
    ipx_wire::laws::readings();
    ipx_wire::laws::reread();
    ipx_wire::laws::sent_on();
    ipx_router::laws::same_offers();
    ipx_router::laws::relays();
}

/// There is one tree: the list of a tree's receptions is that of its first 17 levels.
pub fn one_tree()
    ensures { (routers : List Router) (c : Copy) (copies : List Copy) → IsInternet (net_of routers) → AllByRecursion IsRouter routers
        → IsBytes c.bytes → IsTree routers c copies → copies ≡ tree routers c }
{
    trees();
}

/// Where an internet stands for histories, its routers are those that a tree is of: each as it is after its history.
pub fn routers_now()
    ensures { (most_routes most_services : ℕ) (m : Moment) (q : Queued) → StandsFor most_routes most_services m q
        → routers_of m.routers ≡ routers_after (net_at m) most_routes q.histories }
{}

/// An event of a router makes few deliveries: each packet that it sends reaches at most all other ports of a network, and
/// it sends no more packets than stated, where the router has at most 32 ports.
pub fn deliveries()
    ensures one_packet { (net : Internet) (from : Place) (link : Node) → IsPlace net from → length (delivered net from link) ≤ most_on_network net - 1 }
    ensures one_event { (net : Internet) (router most_routes most_services : ℕ) (history : History) (event : Event)
        → IsInternet net → length (ports_of net router) ≤ most_ports
        → AllByRecursion (IsOnPort (ports_of net router)) (history ++ event ∷ []) → AllByRecursion IsOfBytes (history ++ event ∷ [])
        → length (flat_map (deliveries_of net router) (sends (ports_of net router) most_routes most_services history event))
        ≤ most_packets (length (ports_of net router)) (length (routes_held (ports_of net router) most_routes history))
        (length (services_held (ports_of net router) most_services history)) event
        * (most_on_network net - 1) }
{
    ipx_router::laws::bounds();
    ipx_router::laws::down_ports();
    ipx_router::laws::relays();
}

/// Every internet settles: whatever is in the tables and whatever waits, forged packets too, nothing waits after 34 rounds and
/// one for each router. In a round all that waits when it begins is handed out; what is sent for it waits for the next.
///
/// Where nothing happened but starts, stops, seconds and ports that went down or came up, 17 rounds and one for each router are
/// enough (`own`).
///
/// Handing out as many deliveries as the rounds have, or more, leaves nothing; where no router has more than 32 ports, `few`
/// says how many these are at most. Else nothing is asked of the ports, of their nodes, or of capacities.
pub fn settles()
    ensures quiet { (net : Internet) (most_routes most_services : ℕ) (q : Queued) → IsInternet net → AreHistories net q.histories
        → AllByRecursion (IsDelivery net) q.queue → (rounds net most_routes most_services (most_rounds net) q).queue ≡ [] }
    ensures own { (net : Internet) (most_routes most_services : ℕ) (histories : List History) (steps : List Step) → IsInternet net → AreHistories net histories
        → AllByRecursion (IsOwnStep net) steps
        → (rounds net most_routes most_services (most_own_rounds net) (forgotten (run_of net most_routes most_services (begun histories) steps))).queue ≡ [] }
    ensures enough { (net : Internet) (most_routes most_services : ℕ) (q : Queued) (limit : ℕ) → IsInternet net → AreHistories net q.histories
        → AllByRecursion (IsDelivery net) q.queue → handed_out net most_routes most_services (most_rounds net) q ≤ limit
        → (settled net most_routes most_services limit q).queue ≡ [] }
    ensures few { (net : Internet) (most_routes most_services : ℕ) (q : Queued) → IsInternet net → AreHistories net q.histories
        → AllByRecursion (IsDelivery net) q.queue → ports_at_most net ≤ most_ports
        → handed_out net most_routes most_services (most_rounds net) q ≤ length q.queue * most_of (most_caused net most_routes most_services) (33 + length net) }
    ensures one_by_one { (net : Internet) (most_routes most_services n : ℕ) (q : Queued)
        → settled net most_routes most_services (handed_out net most_routes most_services n q) q ≡ rounds net most_routes most_services n q }
{
    ipx_wire::laws::readings();
    ipx_wire::laws::service_readings();
    ipx_wire::laws::reread();
    ipx_router::laws::packets();
    ipx_router::laws::relays();
    ipx_router::laws::bounds();
    ipx_router::laws::down_ports();
    ipx_router::laws::within_capacity();
}

/// Each delivery makes an internet lighter, whatever is in the tables and whatever waits, forged packets too. So no more happen than
/// its weight says, and with that weight as a limit nothing is left.
///
/// What waits weighs by what it says and by how far it may still go, a response by its entries and their hops; each route and each
/// service that is held weighs as much as its end makes. Nothing is asked of capacities, nor of what happened before.
pub fn weighs()
    ensures falls { (net : Internet) (most_routes most_services : ℕ) (histories : List History) (d : Delivery) (queue : List Delivery)
        → IsInternet net → NodesDiffer net → AreHistories net histories → IsDelivery net d
        → let q : Queued = record { histories = histories; queue = d ∷ queue } in
        queued_weight net most_routes most_services (settled_one net most_routes most_services q) < queued_weight net most_routes most_services q }
    ensures enough { (net : Internet) (most_routes most_services : ℕ) (q : Queued) (limit : ℕ) → IsInternet net → NodesDiffer net
        → AreHistories net q.histories → AllByRecursion (IsDelivery net) q.queue → queued_weight net most_routes most_services q ≤ limit
        → (settled net most_routes most_services limit q).queue ≡ [] }
{
    ipx_wire::laws::readings();
    ipx_wire::laws::service_readings();
    ipx_wire::laws::reread();
    ipx_wire::laws::sent_on();
    ipx_router::laws::same_offers();
    ipx_router::laws::tables();
    ipx_router::laws::packets();
    ipx_router::laws::relays();
    ipx_router::laws::within_capacity();
}

/// Time can always pass: from any run, whatever waits, there is a tick, of which all seconds come first, by the numbers of the
/// routers (`one`) or in any other order of them (`any_order`). Nor do they have to come first: any seconds and deliveries in which
/// each router has one second begin a tick (`in_between`). And there are any number of ticks, one after the other.
///
/// Whatever else happens, it is part of a busy tick (`busy`): any events and deliveries in which each router has one second are one,
/// with deliveries enough behind them.
///
/// A run is one of which all this speaks as long as its steps are of routers and ports that there are (`stays`).
pub fn ticks_pass()
    ensures stays { (net : Internet) (most_routes most_services : ℕ) (run : Run) (steps : List Step) → IsInternet net → AreHistories net run.histories
        → AllByRecursion (λ w. IsDelivery net w.delivery) run.waiting → AllByRecursion (IsStep net) steps
        → let after = run_of net most_routes most_services run steps in
        AreHistories net after.histories × AllByRecursion (λ w. IsDelivery net w.delivery) after.waiting }
    ensures one { (net : Internet) (most_routes most_services : ℕ) (run : Run) → IsInternet net → AreHistories net run.histories
        → AllByRecursion (λ w. IsDelivery net w.delivery) run.waiting
        → (deliveries : ℕ) × IsTick net most_routes most_services run (a_tick (length net) deliveries) }
    ensures as_many { (net : Internet) (most_routes most_services : ℕ) (run : Run) (count : ℕ) → IsInternet net → AreHistories net run.histories
        → AllByRecursion (λ w. IsDelivery net w.delivery) run.waiting
        → (ticks : List (List Step)) × (length ticks ≡ count) × AreTicks net most_routes most_services run ticks }
    ensures any_order { (net : Internet) (most_routes most_services : ℕ) (run : Run) (order : List ℕ) → IsInternet net → AreHistories net run.histories
        → AllByRecursion (λ w. IsDelivery net w.delivery) run.waiting → IsOrder net order
        → (deliveries : ℕ) × IsTick net most_routes most_services run (a_tick_by order deliveries) }
    ensures in_between { (net : Internet) (most_routes most_services : ℕ) (run : Run) (steps : List Step) → IsInternet net → AreHistories net run.histories
        → AllByRecursion (λ w. IsDelivery net w.delivery) run.waiting
        → AllByRecursion (IsOfTick net) steps → ((router : ℕ) → router < length net → seconds_of router steps ≡ 1)
        → (deliveries : ℕ) × IsTick net most_routes most_services run (steps ++ replicate deliveries Settles) }
    ensures busy { (net : Internet) (most_routes most_services : ℕ) (run : Run) (steps : List Step) → IsInternet net → AreHistories net run.histories
        → AllByRecursion (λ w. IsDelivery net w.delivery) run.waiting
        → AllByRecursion (IsStep net) steps → ((router : ℕ) → router < length net → seconds_of router steps ≡ 1)
        → (deliveries : ℕ) × IsBusyTick net most_routes most_services run (steps ++ replicate deliveries Settles) }
{
    ipx_wire::laws::readings();
    ipx_wire::laws::service_readings();
    ipx_wire::laws::reread();
    ipx_router::laws::packets();
}
