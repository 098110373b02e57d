//! What holds of services while hosts announce them, over real wires, which lose, delay, reorder and repeat what is sent, and by clocks that
//! drift.
ghost use Rattle.std.specs.Prelude.{◌≡◌, ◌≢◌, ℕ, suc, ◌+◌, ◌<◌, ◌≤◌, List, [], ◌∷◌, ◌++◌, length, Some};
ghost use Rattle.std.specs.List.{AllByRecursion};
ghost use Rattle.ipx_wire.specs.declared.address.Address.{Address};
ghost use Rattle.ipx_router.specs.History.{History, Packet};
ghost use Rattle.ipx_router.specs.Numbers.{every_service, unreachable};
ghost use Rattle.ipx_internet.specs.Internet.{Internet, Place, IsInternet, NodesDiffer, ports_of};
ghost use Rattle.ipx_internet.specs.Queue.{Delivery, sends_at};
ghost use Rattle.ipx_internet.specs.Rounds.{IsDelivery};
ghost use Rattle.ipx_internet.specs.Run.{AreHistories};
ghost use Rattle.ipx_laws.specs.InTime.{AreQuick};
ghost use Rattle.ipx_laws.specs.Meanwhile.{LeavesPorts};
ghost use Rattle.ipx_laws.specs.Nearest.{LeadsElsewhere, IsAnswered, Asks};
ghost use Rattle.ipx_laws.specs.Regular.{IsServiceSetting, NoneNearer};
ghost use Rattle.ipx_laws.specs.Servers.{Announcer, Server, IsOf, at_hops, known_of, SaysNoFalse, IsServed, IsAway, IsBeside, IsFewest};
ghost use Rattle.ipx_laws.specs.Tables.{services_of};
ghost use Rattle.ipx_laws.specs.Ups.{ups};
ghost use Rattle.ipx_laws.specs.WireRegular.{AreRegularBeats, AreRoutersInTime, most_beats_known};
ghost use Rattle.ipx_laws.specs.Wires.{WireStep, still, flying, wires_of, beats_of, AreBeats, EachWireStep, most_beats_gone, most_beats_flying};

/// What routers have of a service becomes true of it over real wires too, whatever they had before, and whatever is lost, late, doubled or
/// overtaken: after 2,880 beats and 15 delays each router has it as a host announces it on one of its networks, or as a neighbour passes it on
/// that may know it so (`real`). So it has the service's address, and as many hops as a way to one of those hosts, fewer than 16 (`away`):
/// nobody has it nearer than it is. A router without such a way hasn't got it (`none`). If anything flies at first, forged packets too, each
/// takes 18 delays and one beat more (`real_whatever_flies`, `away_whatever_flies`, `none_whatever_flies`).
///
/// It asks what `served` asks of hosts, and that nobody starts or stops, and no port goes down or comes up. Nothing is asked of how many
/// routers there are, of nodes, costs or room, nor that anything be heard.
pub fn served_on_wires()
    ensures real { (net : Internet) (most_routes most_services delay : ℕ) (server : Server) (histories : List History) (beats : List (List WireStep)) (router : ℕ)
        → IsInternet net → AreHistories net histories → AreBeats net beats
        → EachWireStep LeavesPorts beats → EachWireStep (SaysNoFalse net server) beats → most_beats_gone delay ≤ length beats → router < length net
        → AllByRecursion (λ s. IsOf server s.service → IsServed net (ups net histories) server router s)
        (services_of net most_services (beats_of net most_routes most_services delay (still histories) beats).histories router) }
    ensures away { (net : Internet) (most_routes most_services delay : ℕ) (server : Server) (histories : List History) (beats : List (List WireStep)) (router : ℕ)
        → IsInternet net → AreHistories net histories → AreBeats net beats → EachWireStep LeavesPorts beats
        → EachWireStep (SaysNoFalse net server) beats → most_beats_gone delay ≤ length beats → router < length net
        → AllByRecursion
        (λ s. IsOf server s.service → (s.service ≡ at_hops server s.service.hops) × (s.service.hops < unreachable)
        × IsAway net (ups net histories) server router s.service.hops)
        (services_of net most_services (beats_of net most_routes most_services delay (still histories) beats).histories router) }
    ensures none { (net : Internet) (most_routes most_services delay : ℕ) (server : Server) (histories : List History) (beats : List (List WireStep)) (router : ℕ)
        → IsInternet net → AreHistories net histories → AreBeats net beats → EachWireStep LeavesPorts beats
        → EachWireStep (SaysNoFalse net server) beats → most_beats_gone delay ≤ length beats → router < length net
        → ((hops : ℕ) → IsAway net (ups net histories) server router hops → hops < unreachable → ⊥)
        → AllByRecursion (λ s. IsOf server s.service → ⊥)
        (services_of net most_services (beats_of net most_routes most_services delay (still histories) beats).histories router) }
    ensures real_whatever_flies { (net : Internet) (most_routes most_services delay : ℕ) (server : Server) (histories : List History) (deliveries : List Delivery)
        (beats : List (List WireStep)) (router : ℕ)
        → IsInternet net → AreHistories net histories → AllByRecursion (IsDelivery net) deliveries → AreBeats net beats → EachWireStep LeavesPorts beats
        → EachWireStep (SaysNoFalse net server) beats → most_beats_flying delay + most_beats_gone delay ≤ length beats → router < length net
        → AllByRecursion (λ s. IsOf server s.service → IsServed net (ups net histories) server router s)
        (services_of net most_services (beats_of net most_routes most_services delay (flying histories deliveries) beats).histories router) }
    ensures away_whatever_flies { (net : Internet) (most_routes most_services delay : ℕ) (server : Server) (histories : List History) (deliveries : List Delivery)
        (beats : List (List WireStep)) (router : ℕ)
        → IsInternet net → AreHistories net histories → AllByRecursion (IsDelivery net) deliveries → AreBeats net beats → EachWireStep LeavesPorts beats
        → EachWireStep (SaysNoFalse net server) beats → most_beats_flying delay + most_beats_gone delay ≤ length beats → router < length net
        → AllByRecursion
        (λ s. IsOf server s.service → (s.service ≡ at_hops server s.service.hops) × (s.service.hops < unreachable)
        × IsAway net (ups net histories) server router s.service.hops)
        (services_of net most_services (beats_of net most_routes most_services delay (flying histories deliveries) beats).histories router) }
    ensures none_whatever_flies { (net : Internet) (most_routes most_services delay : ℕ) (server : Server) (histories : List History) (deliveries : List Delivery)
        (beats : List (List WireStep)) (router : ℕ)
        → IsInternet net → AreHistories net histories → AllByRecursion (IsDelivery net) deliveries → AreBeats net beats → EachWireStep LeavesPorts beats
        → EachWireStep (SaysNoFalse net server) beats → most_beats_flying delay + most_beats_gone delay ≤ length beats → router < length net
        → ((hops : ℕ) → IsAway net (ups net histories) server router hops → hops < unreachable → ⊥)
        → AllByRecursion (λ s. IsOf server s.service → ⊥)
        (services_of net most_services (beats_of net most_routes most_services delay (flying histories deliveries) beats).histories router) }
{
    crate::laws::given::layouts();
}

/// A router beside the nearest of the hosts that announce a service has it, at its address, with that host's hops, fewer than 16, over real
/// wires: 2,880 beats and 15 delays, in which what routers have of it becomes true (`served_on_wires`), and a window of beats later, whatever
/// it had before (`has`). If anything flies at first, forged packets too, it takes 18 delays and one beat more (`whatever_flies`).
///
/// It asks of hosts and of room what `beside` asks, but that each host that announces the service is heard in any window of so many beats in a
/// row, on every port of its network that is up (`AreHostsInTime`). One beat more than a window has fewer than 180 seconds by every clock, the
/// lifetime of an offer. Nothing is asked of what is sent between routers: it may all be lost.
pub fn beside_on_wires()
    ensures has { (net : Internet) (most_routes most_services delay window : ℕ) (server : Server) (names : List (ℕ × List ℕ)) (histories : List History)
        (beats : List (List WireStep)) (place : Place) (which : ℕ) (host : Announcer)
        → IsServiceSetting net most_services histories names server → AreBeats net beats → EachWireStep LeavesPorts beats
        → AreQuick net window beats
        → AreRegularBeats net most_routes most_services delay server window names (ups net histories) (still histories) beats
        → most_beats_gone delay + window ≤ length beats → IsBeside net (ups net histories) server place which host
        → known_of server (services_of net most_services (beats_of net most_routes most_services delay (still histories) beats).histories place.router)
        ≡ Some (at_hops server host.hops) }
    ensures whatever_flies { (net : Internet) (most_routes most_services delay window : ℕ) (server : Server) (names : List (ℕ × List ℕ)) (histories : List History)
        (deliveries : List Delivery) (beats : List (List WireStep)) (place : Place) (which : ℕ) (host : Announcer)
        → IsServiceSetting net most_services histories names server → AllByRecursion (IsDelivery net) deliveries → AreBeats net beats → EachWireStep LeavesPorts beats
        → AreQuick net window beats
        → AreRegularBeats net most_routes most_services delay server window names (ups net histories) (flying histories deliveries) beats
        → most_beats_flying delay + (most_beats_gone delay + window) ≤ length beats → IsBeside net (ups net histories) server place which host
        → known_of server (services_of net most_services (beats_of net most_routes most_services delay (flying histories deliveries) beats).histories place.router)
        ≡ Some (at_hops server host.hops) }
{
    crate::laws::given::layouts();
}

/// Each router with a way to a service of fewer than 16 hops comes to have the service over real wires, at its address and with the fewest
/// hops of all its ways there, whatever it had before. It has it after 2,880 beats and 15 delays, in which what is false of it goes
/// (`served_on_wires`), a window of beats, and for each hop that it has more than `nearest` a window and one delay more, where each host says
/// at least `nearest` hops (`has`). From then on it keeps it, at each moment, whatever flies then (`meanwhile`). If anything flies at first,
/// forged packets too, it takes 18 delays and one beat more (`whatever_flies`).
///
/// It asks for what `beside_on_wires` asks of hosts and of room, and that ports of two routers on one network have different nodes. And
/// routers are heard in time (`AreRoutersInTime`): where a router advertises the service on a port all the time of a window of beats in a row,
/// each router beside it hears so in them, by ports that are up; packets may be lost, late, doubled and overtaken besides. So where routers
/// broadcast each minute, of any two broadcasts in a row one must arrive. A router without such a way hasn't got the service
/// (`served_on_wires`, `none`).
pub fn everywhere_on_wires()
    ensures has { (net : Internet) (most_routes most_services delay window : ℕ) (server : Server) (names : List (ℕ × List ℕ)) (nearest : ℕ)
        (histories : List History) (beats : List (List WireStep)) (router hops : ℕ)
        → IsServiceSetting net most_services histories names server → AreBeats net beats → EachWireStep LeavesPorts beats
        → AreQuick net window beats
        → AreRegularBeats net most_routes most_services delay server window names (ups net histories) (still histories) beats
        → NodesDiffer net → NoneNearer server nearest
        → AreRoutersInTime net most_routes most_services delay server window (ups net histories) (still histories) beats
        → most_beats_known delay window nearest hops ≤ length beats → router < length net → hops < unreachable
        → IsFewest net (ups net histories) server router hops
        → known_of server (services_of net most_services (beats_of net most_routes most_services delay (still histories) beats).histories router)
        ≡ Some (at_hops server hops) }
    ensures meanwhile { (net : Internet) (most_routes most_services delay window : ℕ) (server : Server) (names : List (ℕ × List ℕ)) (nearest : ℕ)
        (histories : List History) (beats : List (List WireStep)) (steps more : List WireStep) (router hops : ℕ)
        → IsServiceSetting net most_services histories names server → AreBeats net (beats ++ (steps ++ more) ∷ []) → EachWireStep LeavesPorts (beats ++ (steps ++ more) ∷ [])
        → AreQuick net window (beats ++ (steps ++ more) ∷ [])
        → AreRegularBeats net most_routes most_services delay server window names (ups net histories) (still histories) (beats ++ (steps ++ more) ∷ [])
        → NodesDiffer net → NoneNearer server nearest
        → AreRoutersInTime net most_routes most_services delay server window (ups net histories) (still histories) (beats ++ (steps ++ more) ∷ [])
        → most_beats_known delay window nearest hops ≤ length beats → router < length net → hops < unreachable
        → IsFewest net (ups net histories) server router hops
        → known_of server (services_of net most_services
        (wires_of net most_routes most_services delay (beats_of net most_routes most_services delay (still histories) beats) steps).histories router)
        ≡ Some (at_hops server hops) }
    ensures whatever_flies { (net : Internet) (most_routes most_services delay window : ℕ) (server : Server) (names : List (ℕ × List ℕ)) (nearest : ℕ)
        (histories : List History) (deliveries : List Delivery) (beats : List (List WireStep)) (router hops : ℕ)
        → IsServiceSetting net most_services histories names server → AllByRecursion (IsDelivery net) deliveries → AreBeats net beats → EachWireStep LeavesPorts beats
        → AreQuick net window beats
        → AreRegularBeats net most_routes most_services delay server window names (ups net histories) (flying histories deliveries) beats
        → NodesDiffer net → NoneNearer server nearest
        → AreRoutersInTime net most_routes most_services delay server window (ups net histories) (flying histories deliveries) beats
        → most_beats_flying delay + most_beats_known delay window nearest hops ≤ length beats → router < length net → hops < unreachable
        → IsFewest net (ups net histories) server router hops
        → known_of server (services_of net most_services (beats_of net most_routes most_services delay (flying histories deliveries) beats).histories router)
        ≡ Some (at_hops server hops) }
{
    crate::laws::given::layouts();
}

/// A query for the nearest server of a type is answered with one over real wires, by each router that has a way to such a service. It comes to
/// a port of the router, at any moment when the router has the service by `everywhere_on_wires`, with fewer than 15 hops. Then the router
/// sends one packet to whoever asked, with one service alone, of the type asked for, and of no more hops than this service as the router
/// advertises it (`answered`). As in `nearest`, no way that is as short begins on that port's network (`LeadsElsewhere`), and FFFFh, which
/// asks for every type, is left out. Whether the answer arrives is another matter. If anything flies at first, forged packets too, it takes 18
/// delays and one beat more (`whatever_flies`).
pub fn nearest_on_wires()
    ensures answered { (net : Internet) (most_routes most_services delay window : ℕ) (server : Server) (names : List (ℕ × List ℕ)) (nearest : ℕ)
        (histories : List History) (beats : List (List WireStep)) (steps more : List WireStep) (hops : ℕ) (place : Place) (source : Address) (bytes : List ℕ)
        → IsServiceSetting net most_services histories names server → AreBeats net (beats ++ (steps ++ more) ∷ []) → EachWireStep LeavesPorts (beats ++ (steps ++ more) ∷ [])
        → AreQuick net window (beats ++ (steps ++ more) ∷ [])
        → AreRegularBeats net most_routes most_services delay server window names (ups net histories) (still histories) (beats ++ (steps ++ more) ∷ [])
        → NodesDiffer net → NoneNearer server nearest
        → AreRoutersInTime net most_routes most_services delay server window (ups net histories) (still histories) (beats ++ (steps ++ more) ∷ [])
        → most_beats_known delay window nearest hops ≤ length beats → place.router < length net → suc hops < unreachable
        → IsFewest net (ups net histories) server place.router hops → server.kind ≢ every_service
        → LeadsElsewhere net (ups net histories) server place hops
        → let now = wires_of net most_routes most_services delay (beats_of net most_routes most_services delay (still histories) beats) steps in
        Asks net now.histories place source server.kind bytes
        → IsAnswered (ports_of net place.router) place.port source server.kind (suc hops)
        (sends_at net most_routes most_services now.histories place.router (Packet place.port bytes)) }
    ensures whatever_flies { (net : Internet) (most_routes most_services delay window : ℕ) (server : Server) (names : List (ℕ × List ℕ)) (nearest : ℕ)
        (histories : List History) (deliveries : List Delivery) (beats : List (List WireStep)) (steps more : List WireStep) (hops : ℕ) (place : Place) (source : Address) (bytes : List ℕ)
        → IsServiceSetting net most_services histories names server → AllByRecursion (IsDelivery net) deliveries → AreBeats net (beats ++ (steps ++ more) ∷ []) → EachWireStep LeavesPorts (beats ++ (steps ++ more) ∷ [])
        → AreQuick net window (beats ++ (steps ++ more) ∷ [])
        → AreRegularBeats net most_routes most_services delay server window names (ups net histories) (flying histories deliveries) (beats ++ (steps ++ more) ∷ [])
        → NodesDiffer net → NoneNearer server nearest
        → AreRoutersInTime net most_routes most_services delay server window (ups net histories) (flying histories deliveries) (beats ++ (steps ++ more) ∷ [])
        → most_beats_flying delay + most_beats_known delay window nearest hops ≤ length beats → place.router < length net → suc hops < unreachable
        → IsFewest net (ups net histories) server place.router hops → server.kind ≢ every_service
        → LeadsElsewhere net (ups net histories) server place hops
        → let now = wires_of net most_routes most_services delay (beats_of net most_routes most_services delay (flying histories deliveries) beats) steps in
        Asks net now.histories place source server.kind bytes
        → IsAnswered (ports_of net place.router) place.port source server.kind (suc hops)
        (sends_at net most_routes most_services now.histories place.router (Packet place.port bytes)) }
{
    crate::laws::given::layouts();
}
