//! What becomes true of every internet in time over real wires, which lose, delay, reorder and repeat what is sent, and by clocks that drift.
//!
//! A beat is a second of the slowest clock: each router has one second in it, or more. What is sent lands within so many beats, its delay, or
//! never; it may land any number of times, and in any order. Nothing need ever be quiet. What is gone, or announced, or real, is so whatever is
//! lost; that tables are right asks that routers are heard.
ghost use Rattle.std.specs.Prelude.{◌≡◌, ◌≢◌, ℕ, ◌+◌, ◌<◌, ◌≤◌, true, List, [], ◌∷◌, ◌++◌, length};
ghost use Rattle.std.specs.List.{AllByRecursion};
ghost use Rattle.ipx_wire.specs.declared.network.Network.{Network};
ghost use Rattle.ipx_router.specs.History.{History};
ghost use Rattle.ipx_router.specs.Numbers.{period};
ghost use Rattle.ipx_router.specs.Port.{is_up};
ghost use Rattle.ipx_internet.specs.Internet.{Internet, IsInternet, NodesDiffer};
ghost use Rattle.ipx_internet.specs.Queue.{Delivery};
ghost use Rattle.ipx_internet.specs.Rounds.{IsDelivery};
ghost use Rattle.ipx_internet.specs.Run.{Step, AreHistories, begun};
ghost use Rattle.ipx_laws.specs.Announces.{AsksApart};
ghost use Rattle.ipx_laws.specs.Apart.{TellsOnlyOf, IsRealApart, IsSettingBeside};
ghost use Rattle.ipx_laws.specs.InTime.{AreHeardInTime, AreQuick, beats_right, IsInLockStep};
ghost use Rattle.ipx_laws.specs.Least.{least_route};
ghost use Rattle.ipx_laws.specs.Meanwhile.{IsWithoutRoute, IsWithoutService, TellsNoRoute, LeavesPorts, SaysOnly, AreBusyTicks, AreTicksOfHosts};
ghost use Rattle.ipx_laws.specs.Real.{IsReal};
ghost use Rattle.ipx_laws.specs.Regular.{AreRegular};
ghost use Rattle.ipx_laws.specs.Servers.{Server};
ghost use Rattle.ipx_laws.specs.Setting.{IsSetting};
ghost use Rattle.ipx_laws.specs.Tables.{routes_of, IsRight, services_of};
ghost use Rattle.ipx_laws.specs.Ups.{ups};
ghost use Rattle.ipx_laws.specs.WireAnnounces.{WasAnnounced};
ghost use Rattle.ipx_laws.specs.WireRegular.{AreRegularBeats, AreRoutersInTime};
ghost use Rattle.ipx_laws.specs.Wires.{WireStep, still, flying, wires_of, beats_of, KeepGone, AreBeats, EachWireStep, most_beats_gone, most_beats_flying};

/// What is gone is gone everywhere after 2,880 beats and 15 delays, whatever was in the tables before, whatever is lost, late, doubled or
/// overtaken, and whatever else happens: routers start and stop, ports go down and come up, hosts speak.
///
/// No router has a route to a network on which no port was up since then, if no packet of a host said that it is reached (`networks`); and no
/// router has a service that no host said since then (`services`). What hosts may say is as in `gone_meanwhile`. If anything flies at first,
/// forged packets too, it takes 18 delays and one beat more (`networks_whatever_flies`, `services_whatever_flies`).
pub fn gone_on_wires()
    ensures networks { (net : Internet) (most_routes most_services delay : ℕ) (histories : List History) (beats : List (List WireStep)) (router : ℕ) (network : Network)
        → IsInternet net → AreHistories net histories → AreBeats net beats → most_beats_gone delay ≤ length beats → router < length net
        → KeepGone net most_routes most_services delay network (still histories) beats → EachWireStep (SaysOnly (IsWithoutRoute network)) beats
        → AllByRecursion (λ r. r.network ≢ network) (routes_of net most_routes (beats_of net most_routes most_services delay (still histories) beats).histories router) }
    ensures services { (net : Internet) (most_routes most_services delay : ℕ) (histories : List History) (beats : List (List WireStep)) (router : ℕ) (key : ℕ × List ℕ)
        → IsInternet net → AreHistories net histories → AreBeats net beats → most_beats_gone delay ≤ length beats → router < length net
        → EachWireStep (SaysOnly (IsWithoutService key)) beats
        → AllByRecursion (λ s. (s.service.kind, s.service.name) ≢ key)
        (services_of net most_services (beats_of net most_routes most_services delay (still histories) beats).histories router) }
    ensures networks_whatever_flies { (net : Internet) (most_routes most_services delay : ℕ) (histories : List History) (deliveries : List Delivery)
        (beats : List (List WireStep)) (router : ℕ) (network : Network)
        → IsInternet net → AreHistories net histories → AllByRecursion (IsDelivery net) deliveries → AreBeats net beats
        → most_beats_flying delay + most_beats_gone delay ≤ length beats → router < length net
        → KeepGone net most_routes most_services delay network (flying histories deliveries) beats → EachWireStep (SaysOnly (IsWithoutRoute network)) beats
        → AllByRecursion (λ r. r.network ≢ network)
        (routes_of net most_routes (beats_of net most_routes most_services delay (flying histories deliveries) beats).histories router) }
    ensures services_whatever_flies { (net : Internet) (most_routes most_services delay : ℕ) (histories : List History) (deliveries : List Delivery)
        (beats : List (List WireStep)) (router : ℕ) (key : ℕ × List ℕ)
        → IsInternet net → AreHistories net histories → AllByRecursion (IsDelivery net) deliveries → AreBeats net beats
        → most_beats_flying delay + most_beats_gone delay ≤ length beats → router < length net → EachWireStep (SaysOnly (IsWithoutService key)) beats
        → AllByRecursion (λ s. (s.service.kind, s.service.name) ≢ key)
        (services_of net most_services (beats_of net most_routes most_services delay (flying histories deliveries) beats).histories router) }
{
    crate::laws::given::layouts();
}

/// Every service that a router has was announced by a host: after 2,880 beats and 15 delays it is one that a packet of a host said in them, with
/// type, name and address as it said, and with no fewer hops, whatever was in the tables before, and whatever the wires do (`services`). The
/// router to which that packet came heard it or sent it on. A host may ask what it likes, but a request for routes is not sent from the socket
/// of SAP. If anything flies at first, forged packets too, it takes 18 delays and one beat more (`whatever_flies`).
pub fn announced_on_wires()
    ensures services { (net : Internet) (most_routes most_services delay : ℕ) (histories : List History) (beats : List (List WireStep)) (router : ℕ)
        → IsInternet net → AreHistories net histories → AreBeats net beats → most_beats_gone delay ≤ length beats → router < length net
        → EachWireStep (SaysOnly AsksApart) beats
        → AllByRecursion (λ s. WasAnnounced net most_routes most_services delay (still histories) beats s.service)
        (services_of net most_services (beats_of net most_routes most_services delay (still histories) beats).histories router) }
    ensures whatever_flies { (net : Internet) (most_routes most_services delay : ℕ) (histories : List History) (deliveries : List Delivery)
        (beats : List (List WireStep)) (router : ℕ)
        → IsInternet net → AreHistories net histories → AllByRecursion (IsDelivery net) deliveries → AreBeats net beats
        → most_beats_flying delay + most_beats_gone delay ≤ length beats → router < length net → EachWireStep (SaysOnly AsksApart) beats
        → AllByRecursion (λ s. WasAnnounced net most_routes most_services delay (flying histories deliveries) beats s.service)
        (services_of net most_services (beats_of net most_routes most_services delay (flying histories deliveries) beats).histories router) }
{
    crate::laws::given::layouts();
}

/// Every route is of a real way after 2,880 beats and 15 delays, whatever was in the tables before, and whatever the wires do (`routes`). If
/// hosts tell of routes to the networks of a list, true or false, so is every route to another network (`apart`). The port by which a route came
/// is up after any number of beats (`own_ports`). If anything flies at first, forged packets too, it takes 18 delays and one beat more
/// (`whatever_flies`).
///
/// As in calm ticks, hosts may speak, but nobody starts or stops, no port goes down or comes up, and nothing that may be heard of a host's
/// packet is a response of routing information, or a query for services that is answered to the socket of RIP.
pub fn real_on_wires()
    ensures routes { (net : Internet) (most_routes most_services delay : ℕ) (histories : List History) (beats : List (List WireStep)) (router : ℕ)
        → IsInternet net → AreHistories net histories → AreBeats net beats → EachWireStep LeavesPorts beats → EachWireStep (SaysOnly TellsNoRoute) beats
        → most_beats_gone delay ≤ length beats → router < length net
        → AllByRecursion (IsReal net (ups net histories) router)
        (routes_of net most_routes (beats_of net most_routes most_services delay (still histories) beats).histories router) }
    ensures apart { (net : Internet) (most_routes most_services delay : ℕ) (foreign : List Network) (histories : List History) (beats : List (List WireStep)) (router : ℕ)
        → IsInternet net → AreHistories net histories → AreBeats net beats → EachWireStep LeavesPorts beats → EachWireStep (SaysOnly (TellsOnlyOf foreign)) beats
        → most_beats_gone delay ≤ length beats → router < length net
        → AllByRecursion (IsRealApart net (ups net histories) foreign router)
        (routes_of net most_routes (beats_of net most_routes most_services delay (still histories) beats).histories router) }
    ensures apart_whatever_flies { (net : Internet) (most_routes most_services delay : ℕ) (foreign : List Network) (histories : List History) (deliveries : List Delivery)
        (beats : List (List WireStep)) (router : ℕ)
        → IsInternet net → AreHistories net histories → AllByRecursion (IsDelivery net) deliveries → AreBeats net beats → EachWireStep LeavesPorts beats
        → EachWireStep (SaysOnly (TellsOnlyOf foreign)) beats → most_beats_flying delay + most_beats_gone delay ≤ length beats → router < length net
        → AllByRecursion (IsRealApart net (ups net histories) foreign router)
        (routes_of net most_routes (beats_of net most_routes most_services delay (flying histories deliveries) beats).histories router) }
    ensures own_ports { (net : Internet) (most_routes most_services delay : ℕ) (histories : List History) (beats : List (List WireStep)) (router : ℕ)
        → IsInternet net → AreHistories net histories → AreBeats net beats → EachWireStep LeavesPorts beats → EachWireStep (SaysOnly TellsNoRoute) beats
        → router < length net
        → AllByRecursion (λ r. is_up (ups net histories router) r.port ≡ true)
        (routes_of net most_routes (beats_of net most_routes most_services delay (still histories) beats).histories router) }
    ensures whatever_flies { (net : Internet) (most_routes most_services delay : ℕ) (histories : List History) (deliveries : List Delivery)
        (beats : List (List WireStep)) (router : ℕ)
        → IsInternet net → AreHistories net histories → AllByRecursion (IsDelivery net) deliveries → AreBeats net beats
        → EachWireStep LeavesPorts beats → EachWireStep (SaysOnly TellsNoRoute) beats → most_beats_flying delay + most_beats_gone delay ≤ length beats
        → router < length net
        → AllByRecursion (IsReal net (ups net histories) router)
        (routes_of net most_routes (beats_of net most_routes most_services delay (flying histories deliveries) beats).histories router) }
{
    crate::laws::given::layouts();
}

/// Every table becomes right and stays so, whatever was in it before, hop by hop: a router has the route of its least way to a network of h hops
/// after 2,880 beats and 15 delays, in which every route becomes real, and for each hop a window of beats and one delay more (`tables`); where
/// there is no way it has none, after the first of these. So it is at each moment from then on, whatever flies then (`meanwhile`). If hosts
/// tell of routes to networks of a list, that is so of each network off the list as beats end (`apart`). If anything flies at first, forged
/// packets too, it takes 18 delays and one beat more (`whatever_flies`, `apart_whatever_flies`).
///
/// It asks what `right` asks of an internet and of hosts. And routers are heard in time (`AreHeardInTime`): what a router advertises on a port all
/// the time of a window of beats in a row, each router beside it hears in them, by ports that are up; packets may be lost, late, doubled and
/// overtaken besides. One beat more than a window has fewer than 180 seconds by every clock, the lifetime of an offer. So where routers
/// broadcast each minute, of any two broadcasts in a row one must arrive: of three isn't enough.
pub fn right_on_wires()
    ensures tables { (net : Internet) (most_routes most_services delay window : ℕ) (histories : List History) (beats : List (List WireStep)) (router : ℕ) (network : Network)
        → IsSetting net most_routes histories network → AreBeats net beats → EachWireStep LeavesPorts beats → EachWireStep (SaysOnly TellsNoRoute) beats
        → AreQuick net window beats
        → AreHeardInTime net most_routes most_services delay window (ups net histories) (still histories) beats
        → router < length net → beats_right delay window (least_route net (ups net histories) router network) ≤ length beats
        → IsRight net most_routes (beats_of net most_routes most_services delay (still histories) beats).histories (ups net histories) router network }
    ensures meanwhile { (net : Internet) (most_routes most_services delay window : ℕ) (histories : List History) (beats : List (List WireStep)) (steps more : List WireStep)
        (router : ℕ) (network : Network)
        → IsSetting net most_routes histories network → AreBeats net (beats ++ (steps ++ more) ∷ []) → EachWireStep LeavesPorts (beats ++ (steps ++ more) ∷ [])
        → EachWireStep (SaysOnly TellsNoRoute) (beats ++ (steps ++ more) ∷ [])
        → AreQuick net window (beats ++ (steps ++ more) ∷ [])
        → AreHeardInTime net most_routes most_services delay window (ups net histories) (still histories) (beats ++ (steps ++ more) ∷ [])
        → router < length net → beats_right delay window (least_route net (ups net histories) router network) ≤ length beats
        → IsRight net most_routes (wires_of net most_routes most_services delay (beats_of net most_routes most_services delay (still histories) beats) steps).histories
        (ups net histories) router network }
    ensures apart { (net : Internet) (most_routes most_services delay window : ℕ) (foreign : List Network) (histories : List History) (beats : List (List WireStep))
        (router : ℕ) (network : Network)
        → IsSettingBeside net most_routes foreign histories network → AreBeats net beats → EachWireStep LeavesPorts beats
        → EachWireStep (SaysOnly (TellsOnlyOf foreign)) beats → AreQuick net window beats
        → AreHeardInTime net most_routes most_services delay window (ups net histories) (still histories) beats
        → router < length net → beats_right delay window (least_route net (ups net histories) router network) ≤ length beats
        → IsRight net most_routes (beats_of net most_routes most_services delay (still histories) beats).histories (ups net histories) router network }
    ensures apart_whatever_flies { (net : Internet) (most_routes most_services delay window : ℕ) (foreign : List Network) (histories : List History)
        (deliveries : List Delivery) (beats : List (List WireStep)) (router : ℕ) (network : Network)
        → IsSettingBeside net most_routes foreign histories network → AllByRecursion (IsDelivery net) deliveries → AreBeats net beats → EachWireStep LeavesPorts beats
        → EachWireStep (SaysOnly (TellsOnlyOf foreign)) beats → AreQuick net window beats
        → AreHeardInTime net most_routes most_services delay window (ups net histories) (flying histories deliveries) beats → router < length net
        → most_beats_flying delay + beats_right delay window (least_route net (ups net histories) router network) ≤ length beats
        → IsRight net most_routes (beats_of net most_routes most_services delay (flying histories deliveries) beats).histories (ups net histories) router network }
    ensures whatever_flies { (net : Internet) (most_routes most_services delay window : ℕ) (histories : List History) (deliveries : List Delivery)
        (beats : List (List WireStep)) (router : ℕ) (network : Network)
        → IsSetting net most_routes histories network → AllByRecursion (IsDelivery net) deliveries → AreBeats net beats → EachWireStep LeavesPorts beats
        → EachWireStep (SaysOnly TellsNoRoute) beats → AreQuick net window beats
        → AreHeardInTime net most_routes most_services delay window (ups net histories) (flying histories deliveries) beats → router < length net
        → most_beats_flying delay + beats_right delay window (least_route net (ups net histories) router network) ≤ length beats
        → IsRight net most_routes (beats_of net most_routes most_services delay (flying histories deliveries) beats).histories (ups net histories) router network }
{
    crate::laws::given::layouts();
}

/// Lock step is a case of this. From where nothing waits, busy ticks are beats: there are beats with the same steps, in which each delivery lands
/// that is handed out, with a delay of 0, and in the end the same has happened to each router (`beats`). If ports stay as they are and nodes differ,
/// routers are heard in time in such beats, with a window of 60 (`heard`): what a router advertises on a port all the time of any 60 of them, each router
/// beside it hears in these. They are heard of a service in the same way; and where ticks are regular, such beats are all that the laws of services over wires ask for,
/// with a window of 60, which is quick (`services_heard`).
pub fn lock_step()
    ensures beats { (net : Internet) (most_routes most_services : ℕ) (histories : List History) (ticks : List (List Step))
        → AreBusyTicks net most_routes most_services (begun histories) ticks
        → (beats : List (List WireStep)) × IsInLockStep net most_routes most_services histories ticks beats × AreBeats net beats }
    ensures heard { (net : Internet) (most_routes most_services : ℕ) (histories : List History) (ticks : List (List Step))
        → IsInternet net → NodesDiffer net → AreHistories net histories → AreTicksOfHosts net most_routes most_services (begun histories) ticks
        → (beats : List (List WireStep)) × IsInLockStep net most_routes most_services histories ticks beats
        × AreHeardInTime net most_routes most_services 0 period (ups net histories) (still histories) beats }
    ensures services_heard { (net : Internet) (most_routes most_services : ℕ) (server : Server) (names : List (ℕ × List ℕ)) (histories : List History)
        (ticks : List (List Step))
        → IsInternet net → AreHistories net histories → NodesDiffer net
        → AreTicksOfHosts net most_routes most_services (begun histories) ticks → AreRegular net most_routes most_services server names (ups net histories) (begun histories) ticks
        → (beats : List (List WireStep)) × IsInLockStep net most_routes most_services histories ticks beats × AreBeats net beats
        × EachWireStep LeavesPorts beats × AreQuick net period beats
        × AreRegularBeats net most_routes most_services 0 server period names (ups net histories) (still histories) beats
        × AreRoutersInTime net most_routes most_services 0 server period (ups net histories) (still histories) beats }
{
    crate::laws::given::layouts();
}
