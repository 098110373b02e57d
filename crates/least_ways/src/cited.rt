//! Laws of `ipx_laws`, cited with numbers in the place of what they leave open.
//!
//! On these wires a packet takes at most two seconds by the slowest clock, or is lost. Of any two broadcasts in a row one arrives, so that
//! routers are heard in any 123 seconds: two minutes, one second, and the two that a packet takes. One second more is less than 180 by every clock.
ghost use Rattle.std.specs.Prelude.{◌≡◌, ◌≢◌, ◌↔◌, ◌⊎◌, ℕ, suc, ◌+◌, ◌-◌, ◌*◌, ◌<◌, ◌≤◌, true, false, Some, List, [], ◌∷◌, ◌++◌, length};
ghost use Rattle.std.specs.List.{AllByRecursion, filter};
ghost use Rattle.ipx_wire.specs.declared.address.Address.{Address};
ghost use Rattle.ipx_wire.specs.declared.network.Network.{Network};
ghost use Rattle.ipx_wire.specs.Crossed.{is_among};
ghost use Rattle.ipx_wire.specs.Packet.{Parts, IsPacket};
ghost use Rattle.ipx_wire.specs.Piece.{IsBytes};
ghost use Rattle.ipx_table.specs.Reading.{count_by};
ghost use Rattle.ipx_router.specs.Facts.{routes_held};
ghost use Rattle.ipx_router.specs.History.{Event, History, Packet};
ghost use Rattle.ipx_router.specs.Numbers.{unreachable};
ghost use Rattle.ipx_router.specs.Why.{is_propagated};
ghost use Rattle.ipx_internet.specs.Course.{IsInCourse};
ghost use Rattle.ipx_internet.specs.Different.{AreDifferent};
ghost use Rattle.ipx_internet.specs.Internet.{Internet, Place, IsInternet, NodesDiffer, ports_of, port_of};
ghost use Rattle.ipx_internet.specs.InternetWeight.{queued_weight};
ghost use Rattle.ipx_internet.specs.Log.{Sending, reception_at, IsForward};
ghost use Rattle.ipx_internet.specs.Queue.{Delivery, Queued, history_of, sends_at};
ghost use Rattle.ipx_internet.specs.Rounds.{IsDelivery};
ghost use Rattle.ipx_internet.specs.Run.{Step, Happens, IsStep, AreHistories, Run, begun, run_of};
ghost use Rattle.ipx_internet.specs.Ticks.{ticked};
ghost use Rattle.ipx_internet.specs.Traced.{routers_after};
ghost use Rattle.ipx_internet.specs.Tree.{Router, IsRouter, net_of, root, tree_to};
ghost use Rattle.ipx_laws.specs.Announces.{AsksApart};
ghost use Rattle.ipx_laws.specs.AnyOrder.{settled_in, delivered_in, GoesOn};
ghost use Rattle.ipx_laws.specs.Apart.{TellsOnlyOf, IsRealApart, HasRoomBeside, IsSettingBeside, AreTicksBesideAfter};
ghost use Rattle.ipx_laws.specs.Arriving.{CanArrive, Arrives};
ghost use Rattle.ipx_laws.specs.Crossings.{end_of, IsCrossing, is_at};
ghost use Rattle.ipx_laws.specs.Edges.{edge_stepped, edge_run};
ghost use Rattle.ipx_laws.specs.InTime.{AreHeardInTime, AreQuick, IsInLockStep};
ghost use Rattle.ipx_laws.specs.Least.{Way, IsWay, AreCheap, least_route};
ghost use Rattle.ipx_laws.specs.Meanwhile.{IsWithoutRoute, TellsNoRoute, LeavesPorts, SaysOnly, EachStep, AreTicksOfHosts, AreTicksOfHostsAfter};
ghost use Rattle.ipx_laws.specs.Nearest.{LeadsElsewhere, IsAnswered, Asks};
ghost use Rattle.ipx_laws.specs.Regular.{IsServiceSetting, NoneNearer};
ghost use Rattle.ipx_laws.specs.Servers.{Announcer, Server, IsOf, at_hops, known_of, SaysNoFalse, IsAway, IsBeside, IsFewest};
ghost use Rattle.ipx_laws.specs.Setting.{IsSetting};
ghost use Rattle.ipx_laws.specs.Outsiders.{ups_with, AreStopped, IsTrueOf, IsTrueAndLeast, SaysTruly};
ghost use Rattle.ipx_laws.specs.OutsidersInTime.{AreOutsidersHeard, AreOutsidersInTime};
ghost use Rattle.ipx_laws.specs.Tables.{routes_of, IsRight, services_of};
ghost use Rattle.ipx_laws.specs.Ups.{ups};
ghost use Rattle.ipx_laws.specs.WireAnnounces.{WasAnnounced};
ghost use Rattle.ipx_laws.specs.WireRegular.{AreRegularBeats, AreRoutersInTime};
ghost use Rattle.ipx_laws.specs.Wires.{WireStep, still, flying, wires_of, beats_of, KeepGone, AreBeats, EachWireStep};

/// After 2,910 seconds what is gone is forgotten, services were announced, and routes are real, though hosts advertise other networks. After 125
/// more for each hop of its least way a router is right about a network.
pub fn over_two_seconds()
    ensures gone { (net : Internet) (most_routes most_services : ℕ) (histories : List History) (beats : List (List WireStep)) (router : ℕ) (network : Network)
        → IsInternet net → AreHistories net histories → AreBeats net beats → 2910 ≤ length beats → router < length net
        → KeepGone net most_routes most_services 2 network (still histories) beats → EachWireStep (SaysOnly (IsWithoutRoute network)) beats
        → AllByRecursion (λ r. r.network ≢ network) (routes_of net most_routes (beats_of net most_routes most_services 2 (still histories) beats).histories router) }
    ensures announced { (net : Internet) (most_routes most_services : ℕ) (histories : List History) (beats : List (List WireStep)) (router : ℕ)
        → IsInternet net → AreHistories net histories → AreBeats net beats → 2910 ≤ length beats → router < length net → EachWireStep (SaysOnly AsksApart) beats
        → AllByRecursion (λ s. WasAnnounced net most_routes most_services 2 (still histories) beats s.service)
        (services_of net most_services (beats_of net most_routes most_services 2 (still histories) beats).histories router) }
    ensures real { (net : Internet) (most_routes most_services : ℕ) (foreign : List Network) (histories : List History) (beats : List (List WireStep)) (router : ℕ)
        → IsInternet net → AreHistories net histories → AreBeats net beats → EachWireStep LeavesPorts beats → EachWireStep (SaysOnly (TellsOnlyOf foreign)) beats
        → 2910 ≤ length beats → router < length net
        → AllByRecursion (IsRealApart net (ups net histories) foreign router)
        (routes_of net most_routes (beats_of net most_routes most_services 2 (still histories) beats).histories router) }
    ensures right { (net : Internet) (most_routes most_services : ℕ) (histories : List History) (beats : List (List WireStep)) (router : ℕ) (network : Network) (way : Way)
        → IsSetting net most_routes histories network → AreBeats net beats → EachWireStep LeavesPorts beats → EachWireStep (SaysOnly TellsNoRoute) beats
        → AreQuick net 123 beats → AreHeardInTime net most_routes most_services 2 123 (ups net histories) (still histories) beats
        → router < length net → least_route net (ups net histories) router network ≡ Some way → 2910 + way.hops * 125 ≤ length beats
        → IsRight net most_routes (beats_of net most_routes most_services 2 (still histories) beats).histories (ups net histories) router network }
{
    ipx_laws::laws::gone_on_wires();
    ipx_laws::laws::announced_on_wires();
    ipx_laws::laws::real_on_wires();
    ipx_laws::laws::right_on_wires();
}

/// On the same wires, where hosts and routers are heard in time of a service, and no host says fewer hops than one, every router has it by its
/// fewest hops after 3,033 seconds and 125 for each hop more.
pub fn served_over_two_seconds()
    ensures { (net : Internet) (most_routes most_services : ℕ) (server : Server) (names : List (ℕ × List ℕ)) (histories : List History) (beats : List (List WireStep))
        (router hops : ℕ)
        → IsServiceSetting net most_services histories names server → AreBeats net beats → EachWireStep LeavesPorts beats → AreQuick net 123 beats
        → AreRegularBeats net most_routes most_services 2 server 123 names (ups net histories) (still histories) beats
        → NodesDiffer net → NoneNearer server 1 → AreRoutersInTime net most_routes most_services 2 server 123 (ups net histories) (still histories) beats
        → 3033 + (hops - 1) * 125 ≤ length beats → router < length net → hops < unreachable → IsFewest net (ups net histories) server router hops
        → known_of server (services_of net most_services (beats_of net most_routes most_services 2 (still histories) beats).histories router) ≡ Some (at_hops server hops) }
{
    ipx_laws::laws::everywhere_on_wires();
}

/// Whatever flies on these wires at first, forged packets too, after 2,947 seconds nobody has a service nearer than it is: of the hops that a router
/// has it with, fewer than 16, there is a way to a host that announces it. Nobody need be heard for that.
pub fn no_nearer_over_two_seconds()
    ensures { (net : Internet) (most_routes most_services : ℕ) (server : Server) (histories : List History) (deliveries : List Delivery)
        (beats : List (List WireStep)) (router : ℕ)
        → IsInternet net → AreHistories net histories → AllByRecursion (IsDelivery net) deliveries → AreBeats net beats → EachWireStep LeavesPorts beats
        → EachWireStep (SaysNoFalse net server) beats → 2947 ≤ length beats → router < length net
        → AllByRecursion
        (λ s. IsOf server s.service → (s.service ≡ at_hops server s.service.hops) × (s.service.hops < 16) × IsAway net (ups net histories) server router s.service.hops)
        (services_of net most_services (beats_of net most_routes most_services 2 (flying histories deliveries) beats).histories router) }
{
    ipx_laws::laws::served_on_wires();
}

/// Where of any two announcements of a host in a row one arrives, a router beside a server that says one hop, and no other says fewer, has its service
/// with one hop after 3,033 seconds, even if all is lost that routers send one another.
pub fn beside_over_two_seconds()
    ensures { (net : Internet) (most_routes most_services : ℕ) (server : Server) (names : List (ℕ × List ℕ)) (histories : List History) (beats : List (List WireStep))
        (place : Place) (which : ℕ) (host : Announcer)
        → IsServiceSetting net most_services histories names server → AreBeats net beats → EachWireStep LeavesPorts beats → AreQuick net 123 beats
        → AreRegularBeats net most_routes most_services 2 server 123 names (ups net histories) (still histories) beats
        → 3033 ≤ length beats → IsBeside net (ups net histories) server place which host → host.hops ≡ 1
        → known_of server (services_of net most_services (beats_of net most_routes most_services 2 (still histories) beats).histories place.router)
        ≡ Some (at_hops server 1) }
{
    ipx_laws::laws::beside_on_wires();
}

/// Where no host says fewer hops than one, a router answers a query for the nearest file server, type 4, with one file server, no farther than this
/// one, at any moment after 3,033 seconds, and 125 more for each hop past the first, on a port where no way as short begins.
pub fn nearest_over_two_seconds()
    ensures { (net : Internet) (most_routes most_services : ℕ) (server : Server) (names : List (ℕ × List ℕ)) (histories : List History) (beats : List (List WireStep))
        (steps more : List WireStep) (hops : ℕ) (place : Place) (source : Address) (bytes : List ℕ)
        → IsServiceSetting net most_services histories names server
        → let all = beats ++ (steps ++ more) ∷ [] in
        AreBeats net all → EachWireStep LeavesPorts all → AreQuick net 123 all
        → AreRegularBeats net most_routes most_services 2 server 123 names (ups net histories) (still histories) all
        → NodesDiffer net → NoneNearer server 1 → AreRoutersInTime net most_routes most_services 2 server 123 (ups net histories) (still histories) all
        → 3033 + (hops - 1) * 125 ≤ length beats → place.router < length net → hops < 15 → IsFewest net (ups net histories) server place.router hops
        → server.kind ≡ 4 → LeadsElsewhere net (ups net histories) server place hops
        → let now = wires_of net most_routes most_services 2 (beats_of net most_routes most_services 2 (still histories) beats) steps in
        Asks net now.histories place source 4 bytes
        → IsAnswered (ports_of net place.router) place.port source 4 (suc hops)
        (sends_at net most_routes most_services now.histories place.router (Packet place.port bytes)) }
{
    ipx_laws::laws::nearest_on_wires();
}

/// In an internet beside a NetWare server that advertises its internal network, 77h, all tables are right about any other network after 2,940
/// ticks.
pub fn beside_a_server()
    ensures { (net : Internet) (most_routes most_services : ℕ) (run : Run) (first : List Step) (ticks : List (List Step)) (router : ℕ) (network : Network)
        → IsSettingBeside net most_routes (record { 0 = 0x77 } ∷ []) run.histories network
        → AreTicksBesideAfter net most_routes most_services (record { 0 = 0x77 } ∷ []) run first ticks → router < length net → 2940 ≤ length ticks
        → IsRight net most_routes (ticked net most_routes most_services run (first ∷ ticks)).histories (ups net run.histories) router network }
{
    ipx_laws::laws::right_apart();
    ipx_laws::laws::right();
}

/// Beside the same server, however many routers there are, every route to any other network is of a real way after 2,880 ticks, whatever was in the
/// tables before.
pub fn real_beside_a_server()
    ensures { (net : Internet) (most_routes most_services : ℕ) (run : Run) (first : List Step) (ticks : List (List Step)) (router : ℕ)
        → IsInternet net → AreHistories net run.histories
        → AreTicksBesideAfter net most_routes most_services (record { 0 = 0x77 } ∷ []) run first ticks → 2880 ≤ length ticks → router < length net
        → AllByRecursion (IsRealApart net (ups net run.histories) (record { 0 = 0x77 } ∷ []) router)
        (routes_of net most_routes (ticked net most_routes most_services run (first ∷ ticks)).histories router) }
{
    ipx_laws::laws::real_apart();
}

/// So after 2,940 ticks a host's packet for any other network goes through one router after the other, as many as its least way has hops, and the
/// last sends it out there.
pub fn arrives_beside_a_server()
    ensures { (net : Internet) (most_routes most_services : ℕ) (run : Run) (first : List Step) (ticks : List (List Step)) (place : Place) (bytes : List ℕ)
        (p : Parts) (way : Way)
        → IsSettingBeside net most_routes (record { 0 = 0x77 } ∷ []) run.histories p.header.destination.network
        → AreTicksBesideAfter net most_routes most_services (record { 0 = 0x77 } ∷ []) run first ticks
        → CanArrive net (ups net run.histories) place bytes p way → 2940 ≤ length ticks
        → Arrives (routers_after net most_routes (ticked net most_routes most_services run (first ∷ ticks)).histories) p.header.destination p.header.control way.hops
        0 (root place bytes) }
{
    ipx_laws::laws::arrives_apart();
    ipx_laws::laws::right();
}

/// Where a NetWare server is the last of at most 16 routers, drawn with a port on its cable and one on its internal network, and is heard each
/// minute to advertise that one, every other router is right about it after 2,940 ticks if it is beside the server, and 60 more for each hop more.
pub fn behind_a_server()
    ensures { (net : Internet) (most_routes most_services : ℕ) (run : Run) (first : List Step) (ticks : List (List Step)) (router : ℕ) (network : Network) (way : Way)
        → let ours = length net - 1 in
        let up = ups_with net ours run.histories in
        IsInternet net → NodesDiffer net → length net ≤ 16 → AreCheap net → HasRoomBeside net most_routes [] → AreHistories net run.histories
        → AreStopped net ours run.histories → AreTicksOfHostsAfter net most_routes most_services run first ticks
        → EachStep (SaysTruly net up ours [] (IsTrueAndLeast net up network)) ticks
        → AreOutsidersHeard net most_routes most_services up ours network (run_of net most_routes most_services run first) ticks
        → router < ours → least_route net up router network ≡ Some way → 2880 + way.hops * 60 ≤ length ticks
        → IsRight net most_routes (ticked net most_routes most_services run (first ∷ ticks)).histories up router network }
{
    ipx_laws::laws::right_with_outsiders();
}

/// Over wires that take two seconds a router is right about it after 2,910 seconds, and 125 more for each hop of its least way, where the server and
/// all routers are heard in any 123 seconds.
pub fn behind_a_server_over_two_seconds()
    ensures { (net : Internet) (most_routes most_services : ℕ) (histories : List History) (beats : List (List WireStep)) (router : ℕ) (network : Network) (way : Way)
        → let ours = length net - 1 in
        let up = ups_with net ours histories in
        IsInternet net → NodesDiffer net → length net ≤ 16 → AreCheap net → HasRoomBeside net most_routes [] → AreHistories net histories
        → AreStopped net ours histories → AreBeats net beats → EachWireStep LeavesPorts beats
        → EachWireStep (SaysTruly net up ours [] (IsTrueAndLeast net up network)) beats → AreQuick net 123 beats
        → AreHeardInTime net most_routes most_services 2 123 (ups net histories) (still histories) beats
        → AreOutsidersInTime net most_routes most_services 2 123 up ours network (still histories) beats
        → router < ours → least_route net up router network ≡ Some way → 2910 + way.hops * 125 ≤ length beats
        → IsRight net most_routes (beats_of net most_routes most_services 2 (still histories) beats).histories up router network }
{
    ipx_laws::laws::right_with_outsiders_on_wires();
    ipx_laws::laws::right_with_outsiders();
}

/// Where another maker's router is drawn as the last one, and hosts advertise default routes besides, nobody has any other network nearer than it is
/// after 2,880 ticks: of as many hops as a route to it says, fewer than 16, there is a way, over that router's ports too.
pub fn real_behind_another_router()
    ensures { (net : Internet) (most_routes most_services : ℕ) (run : Run) (first : List Step) (ticks : List (List Step)) (router : ℕ)
        → let ours = length net - 1 in
        let up = ups_with net ours run.histories in
        let default = record { 0 = 0xFFFFFFFE } ∷ [] in
        IsInternet net → AreHistories net run.histories → AreStopped net ours run.histories → AreTicksOfHostsAfter net most_routes most_services run first ticks
        → EachStep (SaysTruly net up ours default (IsTrueOf net up)) ticks → 2880 ≤ length ticks → router < ours
        → AllByRecursion (λ r. is_among r.network default ≡ false → (way : Way) × IsWay net up r.network router way × (way.hops ≡ r.hops) × (r.hops < 16))
        (routes_of net most_routes (ticked net most_routes most_services run (first ∷ ticks)).histories router) }
{
    ipx_laws::laws::real_with_outsiders();
}

/// Over wires that take two seconds every route to any other network is of such a way after 2,910 seconds.
pub fn real_behind_another_router_over_two_seconds()
    ensures { (net : Internet) (most_routes most_services : ℕ) (histories : List History) (beats : List (List WireStep)) (router : ℕ)
        → let ours = length net - 1 in
        let up = ups_with net ours histories in
        let default = record { 0 = 0xFFFFFFFE } ∷ [] in
        IsInternet net → AreHistories net histories → AreStopped net ours histories → AreBeats net beats → EachWireStep LeavesPorts beats
        → EachWireStep (SaysTruly net up ours default (IsTrueOf net up)) beats → 2910 ≤ length beats → router < ours
        → AllByRecursion (IsRealApart net up default router)
        (routes_of net most_routes (beats_of net most_routes most_services 2 (still histories) beats).histories router) }
{
    ipx_laws::laws::real_with_outsiders_on_wires();
}

/// Where each port has an edge, a packet for one network is forwarded at most 16 times.
pub fn behind_edges()
    ensures { (net : Internet) (most_routes most_services : ℕ) (histories : List History) (steps : List Step) (start : ℕ) (p : Parts) (forwards : List Sending)
        → IsInternet net → NodesDiffer net → AreHistories net histories → AllByRecursion (IsStep net) steps
        → let log = (edge_run net most_routes most_services (begun histories) steps).log in
        IsPacket (reception_at log start).bytes p → is_propagated p.header ≡ false
        → AllByRecursion (λ s. IsForward net log s × IsInCourse log start s.place) forwards → AreDifferent forwards → length forwards ≤ 16 }
{
    ipx_internet::laws::courses();
    ipx_laws::laws::edges::runs();
}

/// Where each port has an edge, a router has at most 20 routes by a port with a share of 20, whatever comes there. And what comes from outside to the
/// first router changes nothing in the second.
pub fn contained_by_edges()
    ensures elsewhere { (net : Internet) (most_routes most_services : ℕ) (run : Run) (event : Event)
        → history_of (edge_stepped net most_routes most_services run (Happens 0 event)).histories 1 ≡ history_of run.histories 1 }
    ensures share { (net : Internet) (most_routes most_services : ℕ) (run : Run) (steps : List Step) (place : Place) → place.port < length (ports_of net place.router)
        → (port_of net place).route_share ≤ 20
        → count_by (λ r. r.port) place.port
        (routes_held (ports_of net place.router) most_routes (history_of (edge_run net most_routes most_services run steps).histories place.router)) ≤ 20 }
{
    ipx_laws::laws::edges::containment();
}

/// Where nodes differ and nothing waits at first, ticks are beats on wires that take no time, with the same steps and the same end, and routers are
/// heard in any 60 of them.
pub fn heard_in_lock_step()
    ensures { (net : Internet) (most_routes most_services : ℕ) (histories : List History) (ticks : List (List Step)) → IsInternet net → NodesDiffer net
        → AreHistories net histories → AreTicksOfHosts net most_routes most_services (begun histories) ticks
        → (beats : List (List WireStep)) × IsInLockStep net most_routes most_services histories ticks beats
        × AreHeardInTime net most_routes most_services 0 60 (ups net histories) (still histories) beats }
{
    ipx_laws::laws::lock_step();
}

/// Where an internet with room for 256 routes and services weighs 1,000 at most, no more than 1,000 deliveries happen in any order, and after as
/// many nothing waits.
pub fn in_any_order()
    ensures few { (net : Internet) (q : Queued) (order : List ℕ) → IsInternet net → NodesDiffer net → AreHistories net q.histories
        → AllByRecursion (IsDelivery net) q.queue → queued_weight net 256 256 q ≤ 1000 → delivered_in net 256 256 order q ≤ 1000 }
    ensures quiet { (net : Internet) (q : Queued) (order : List ℕ) → IsInternet net → NodesDiffer net → AreHistories net q.histories
        → AllByRecursion (IsDelivery net) q.queue → queued_weight net 256 256 q ≤ 1000 → length order ≡ 1000 → GoesOn net 256 256 order q
        → (settled_in net 256 256 order q).queue ≡ [] }
{
    ipx_laws::laws::any_order_ends();
}

/// Where two paths lead to a port, and no other, it receives a propagated packet twice, in any tree of more than eight levels.
pub fn by_two_paths()
    ensures { (routers : List Router) (from to : Place) (bytes : List ℕ) (p : Parts) (n : ℕ) (one two : List Place) → IsInternet (net_of routers)
        → AllByRecursion IsRouter routers → IsBytes bytes → IsPacket bytes p → is_propagated p.header ≡ true → 8 < n → one ≢ two
        → ((path : List Place) → ((path ≡ one) ⊎ (path ≡ two)) ↔ IsCrossing routers p from path × (end_of from path ≡ to))
        → length (filter (λ c. is_at to c.to) (tree_to routers n (root from bytes))) ≡ 2 }
{
    ipx_laws::laws::each_path_once();
}
