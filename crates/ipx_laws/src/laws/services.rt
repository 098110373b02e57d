//! What holds of services while hosts announce them, in every internet, after steps that leave nothing that waits, whatever waited before.
ghost use Rattle.std.specs.Prelude.{◌≡◌, ◌≢◌, ℕ, suc, ◌<◌, ◌≤◌, List, [], ◌∷◌, ◌++◌, length, Some};
ghost use Rattle.std.specs.List.{AllByRecursion};
ghost use Rattle.ipx_wire.specs.declared.address.Address.{Address};
ghost use Rattle.ipx_router.specs.History.{Packet};
ghost use Rattle.ipx_router.specs.Numbers.{every_service, unreachable};
ghost use Rattle.ipx_internet.specs.Internet.{Internet, Place, IsInternet, NodesDiffer, ports_of};
ghost use Rattle.ipx_internet.specs.Queue.{sends_at};
ghost use Rattle.ipx_internet.specs.Run.{Step, AreHistories, Run, run_of};
ghost use Rattle.ipx_internet.specs.Ticks.{ticked};
ghost use Rattle.ipx_laws.specs.Gone.{most_ticks_gone};
ghost use Rattle.ipx_laws.specs.Least.{most_ticks_right};
ghost use Rattle.ipx_laws.specs.Meanwhile.{EachStep, AreTicksOfHostsAfter};
ghost use Rattle.ipx_laws.specs.Nearest.{LeadsElsewhere, IsAnswered, Asks};
ghost use Rattle.ipx_laws.specs.Regular.{IsServiceSetting, AreRegular, NoneNearer, most_ticks_known};
ghost use Rattle.ipx_laws.specs.Servers.{Announcer, Server, IsOf, at_hops, known_of, SaysNoFalse, IsServed, IsAway, IsBeside, IsFewest};
ghost use Rattle.ipx_laws.specs.Tables.{services_of};
ghost use Rattle.ipx_laws.specs.Ups.{ups};

/// What routers have of a service becomes true of it, whatever they had before: after 2,880 ticks each router has it as a host announces it
/// on one of its networks, or as a neighbour passes it on that may know it so (`real`). So it has the service's address, and as many hops
/// as a way to one of those hosts, fewer than 16 (`away`): nobody has it nearer than it is. A router without such a way hasn't got it
/// (`none`).
///
/// In these ticks seconds pass, deliveries happen, and packets come from outside; nobody starts or stops, and no port goes down or comes up
/// (`AreTicksOfHosts`). A service is known by its type and its name. A packet from outside that names it comes where a host announces it: its source
/// has that host's node, its destination is that network (0 means it too), and address and hops are as that host announces them. No request for
/// routes is answered to the socket of SAP. Hosts may say anything else, and nothing is asked of how many routers there are, of nodes, costs or room.
pub fn served()
    ensures real { (net : Internet) (most_routes most_services : ℕ) (server : Server) (run : Run) (first : List Step) (ticks : List (List Step)) (router : ℕ)
        → IsInternet net → AreHistories net run.histories → AreTicksOfHostsAfter net most_routes most_services run first ticks
        → EachStep (SaysNoFalse net server) ticks → most_ticks_gone ≤ length ticks → router < length net
        → AllByRecursion (λ s. IsOf server s.service → IsServed net (ups net run.histories) server router s)
        (services_of net most_services (ticked net most_routes most_services run (first ∷ ticks)).histories router) }
    ensures away { (net : Internet) (most_routes most_services : ℕ) (server : Server) (run : Run) (first : List Step) (ticks : List (List Step)) (router : ℕ)
        → IsInternet net → AreHistories net run.histories → AreTicksOfHostsAfter net most_routes most_services run first ticks
        → EachStep (SaysNoFalse net server) ticks → most_ticks_gone ≤ length ticks → router < length net
        → AllByRecursion
        (λ s. IsOf server s.service → (s.service ≡ at_hops server s.service.hops) × (s.service.hops < unreachable)
        × IsAway net (ups net run.histories) server router s.service.hops)
        (services_of net most_services (ticked net most_routes most_services run (first ∷ ticks)).histories router) }
    ensures none { (net : Internet) (most_routes most_services : ℕ) (server : Server) (run : Run) (first : List Step) (ticks : List (List Step)) (router : ℕ)
        → IsInternet net → AreHistories net run.histories → AreTicksOfHostsAfter net most_routes most_services run first ticks
        → EachStep (SaysNoFalse net server) ticks → most_ticks_gone ≤ length ticks → router < length net
        → ((hops : ℕ) → IsAway net (ups net run.histories) server router hops → hops < unreachable → ⊥)
        → AllByRecursion (λ s. IsOf server s.service → ⊥) (services_of net most_services (ticked net most_routes most_services run (first ∷ ticks)).histories router) }
{
    crate::laws::given::layouts();
    crate::laws::wire_services::served_on_wires();
}

/// A router beside the nearest of the hosts that announce a service has it, at its address, with that host's hops, fewer than 16, from the
/// 2,940th tick on, whatever it had before: 60 ticks after what routers have of it is true (`served`), the time in which each host is heard
/// once (`has`). Of two hosts that are as near it is one.
///
/// Beside `served` it asks for this. Each host that announces the service is heard in any 60 of these ticks, on every port of its network
/// that is up, and one node on one network says one number of hops. Packets from outside name listed services alone, this one among them,
/// and every table has room for all that are listed, and so has the share of each port. The router has a port up on that host's network,
/// and no host says the service with fewer hops (`IsBeside`).
pub fn beside()
    ensures has { (net : Internet) (most_routes most_services : ℕ) (server : Server) (names : List (ℕ × List ℕ)) (run : Run) (first : List Step)
        (ticks : List (List Step)) (place : Place) (which : ℕ) (host : Announcer)
        → IsServiceSetting net most_services run.histories names server → AreTicksOfHostsAfter net most_routes most_services run first ticks
        → AreRegular net most_routes most_services server names (ups net run.histories) (run_of net most_routes most_services run first) ticks
        → most_ticks_right ≤ length ticks → IsBeside net (ups net run.histories) server place which host
        → known_of server (services_of net most_services (ticked net most_routes most_services run (first ∷ ticks)).histories place.router)
        ≡ Some (at_hops server host.hops) }
{
    crate::laws::given::layouts();
    crate::laws::wire_services::beside_on_wires();
}

/// Each router with a way to a service of fewer than 16 hops comes to have the service, at its address and with the fewest hops of all its
/// ways there, whatever it had before. It has it after 2,880 ticks, in which what is false of it goes (`served`), 60 for each hop that it has
/// more than `nearest`, and 60 more, where each host says at least `nearest` hops (`has`). From then on it keeps it: it has it at the end of
/// each tick and after each step in one, so wherever nothing waits (`meanwhile`).
///
/// It asks for what `beside` asks of hosts and of room, and that ports of two routers on one network have different nodes. Nothing is asked
/// of costs, nor of how many routers there are. A router without such a way hasn't got the service (`served`, `none`).
pub fn everywhere()
    ensures has { (net : Internet) (most_routes most_services : ℕ) (server : Server) (names : List (ℕ × List ℕ)) (nearest : ℕ) (run : Run) (first : List Step)
        (ticks : List (List Step)) (router hops : ℕ)
        → IsServiceSetting net most_services run.histories names server → NodesDiffer net → NoneNearer server nearest
        → AreTicksOfHostsAfter net most_routes most_services run first ticks
        → AreRegular net most_routes most_services server names (ups net run.histories) (run_of net most_routes most_services run first) ticks
        → most_ticks_known nearest hops ≤ length ticks → router < length net → hops < unreachable
        → IsFewest net (ups net run.histories) server router hops
        → known_of server (services_of net most_services (ticked net most_routes most_services run (first ∷ ticks)).histories router) ≡ Some (at_hops server hops) }
    ensures meanwhile { (net : Internet) (most_routes most_services : ℕ) (server : Server) (names : List (ℕ × List ℕ)) (nearest : ℕ) (run : Run)
        (first : List Step) (ticks : List (List Step)) (steps rest : List Step) (router hops : ℕ)
        → IsServiceSetting net most_services run.histories names server → NodesDiffer net → NoneNearer server nearest
        → AreTicksOfHostsAfter net most_routes most_services run first (ticks ++ (steps ++ rest) ∷ [])
        → AreRegular net most_routes most_services server names (ups net run.histories) (run_of net most_routes most_services run first) (ticks ++ (steps ++ rest) ∷ [])
        → most_ticks_known nearest hops ≤ length ticks → router < length net → hops < unreachable
        → IsFewest net (ups net run.histories) server router hops
        → known_of server (services_of net most_services (run_of net most_routes most_services (ticked net most_routes most_services run (first ∷ ticks)) steps).histories router)
        ≡ Some (at_hops server hops) }
{
    crate::laws::given::layouts();
    crate::laws::wire_services::everywhere_on_wires();
}

/// A query for the nearest server of a type is answered with one, by each router that has a way to such a service. It comes to a port of the
/// router, at any moment when the router has the service by `everywhere`, with fewer than 15 hops. Then the router sends one packet to
/// whoever asked, with one service alone. That is of the type asked for, and of no more hops than this service as the router advertises it:
/// one more than the fewest of its ways (`answered`). It doesn't answer with a service on the network where it may have learned it, so no way
/// that is as short begins on that port's network (`LeadsElsewhere`): there the host answers itself, or a router that is nearer. FFFFh asks
/// for every type and is left out.
pub fn nearest()
    ensures answered { (net : Internet) (most_routes most_services : ℕ) (server : Server) (names : List (ℕ × List ℕ)) (nearest : ℕ) (run : Run) (first : List Step)
        (ticks : List (List Step)) (steps rest : List Step) (hops : ℕ) (place : Place) (source : Address) (bytes : List ℕ)
        → IsServiceSetting net most_services run.histories names server → NodesDiffer net → NoneNearer server nearest
        → AreTicksOfHostsAfter net most_routes most_services run first (ticks ++ (steps ++ rest) ∷ [])
        → AreRegular net most_routes most_services server names (ups net run.histories) (run_of net most_routes most_services run first) (ticks ++ (steps ++ rest) ∷ [])
        → most_ticks_known nearest hops ≤ length ticks → place.router < length net → suc hops < unreachable
        → IsFewest net (ups net run.histories) server place.router hops → server.kind ≢ every_service
        → LeadsElsewhere net (ups net run.histories) server place hops
        → let now = run_of net most_routes most_services (ticked net most_routes most_services run (first ∷ ticks)) steps in
        Asks net now.histories place source server.kind bytes
        → IsAnswered (ports_of net place.router) place.port source server.kind (suc hops)
        (sends_at net most_routes most_services now.histories place.router (Packet place.port bytes)) }
{
    crate::laws::given::layouts();
    crate::laws::wire_services::nearest_on_wires();
}
