//! What holds for all other networks while hosts advertise routes to the networks on a list, true or not: a NetWare server its internal network,
//! another maker's router those behind it, a hostile client any that it likes.
ghost use Rattle.std.specs.Prelude.{◌≡◌, ◌≢◌, ℕ, ◌+◌, ◌<◌, ◌≤◌, true, false, List, [], ◌∷◌, ◌++◌, length, Some};
ghost use Rattle.std.specs.List.{AllByRecursion};
ghost use Rattle.ipx_wire.specs.Crossed.{is_among};
ghost use Rattle.ipx_wire.specs.Packet.{Parts};
ghost use Rattle.ipx_wire.specs.declared.network.Network.{Network};
ghost use Rattle.ipx_router.specs.Port.{is_up};
ghost use Rattle.ipx_internet.specs.Internet.{Internet, Place, IsInternet};
ghost use Rattle.ipx_internet.specs.Run.{Step, AreHistories, Run};
ghost use Rattle.ipx_internet.specs.Ticks.{ticked};
ghost use Rattle.ipx_internet.specs.Traced.{routers_after};
ghost use Rattle.ipx_internet.specs.Tree.{root};
ghost use Rattle.ipx_laws.specs.Apart.{AreTicksBeside, AreTicksBesideAfter, IsRealApart, AreRealApart, RouteStays, IsSettingBeside};
ghost use Rattle.ipx_laws.specs.Arriving.{CanArrive, Arrives};
ghost use Rattle.ipx_laws.specs.Gone.{most_ticks_gone};
ghost use Rattle.ipx_laws.specs.Least.{Way, least_route, ticks_right, most_ticks_right};
ghost use Rattle.ipx_laws.specs.Real.{IsReal, led_over};
ghost use Rattle.ipx_laws.specs.Tables.{routes_of, route_of, IsRight};
ghost use Rattle.ipx_laws.specs.Upkeep.{steps_of};
ghost use Rattle.ipx_laws.specs.Ups.{ups};

/// Every route to a network off the list is of a real way after 2,880 ticks, whatever was in the tables before (`routes`), and so of none that
/// leads over a port that has been down that long (`down`). The port by which a route came is up after any number of ticks (`own_ports`).
///
/// In these ticks ports stay as they are and routers run on, as in `laws::real`, and hosts may advertise routes to the networks on the list, true
/// or not, with any hops and ticks, in the name of any node. But no entry of a response from outside names a network off the list, not even
/// to withdraw it, and no query for services is answered to the socket of RIP (`TellsOnlyOf`). With an empty list this is
/// `laws::real`.
pub fn real_apart()
    ensures routes { (net : Internet) (most_routes most_services : ℕ) (foreign : List Network) (run : Run) (first : List Step) (ticks : List (List Step)) (router : ℕ)
        → IsInternet net → AreHistories net run.histories → AreTicksBesideAfter net most_routes most_services foreign run first ticks
        → most_ticks_gone ≤ length ticks → router < length net
        → AllByRecursion (IsRealApart net (ups net run.histories) foreign router)
        (routes_of net most_routes (ticked net most_routes most_services run (first ∷ ticks)).histories router) }
    ensures down { (net : Internet) (most_routes most_services : ℕ) (foreign : List Network) (run : Run) (first : List Step) (ticks : List (List Step)) (router : ℕ)
        (place : Place)
        → IsInternet net → AreHistories net run.histories → AreTicksBesideAfter net most_routes most_services foreign run first ticks
        → most_ticks_gone ≤ length ticks → router < length net → is_up (ups net run.histories place.router) place.port ≡ false
        → AllByRecursion
        (λ r. is_among r.network foreign ≡ false
        → (real : IsReal net (ups net run.histories) router r) × AllByRecursion (λ p. p ≢ place) (led_over net (ups net run.histories) router r real))
        (routes_of net most_routes (ticked net most_routes most_services run (first ∷ ticks)).histories router) }
    ensures own_ports { (net : Internet) (most_routes most_services : ℕ) (foreign : List Network) (run : Run) (first : List Step) (ticks : List (List Step)) (router : ℕ)
        → IsInternet net → AreHistories net run.histories → AreTicksBesideAfter net most_routes most_services foreign run first ticks → router < length net
        → AllByRecursion (λ r. is_up (ups net run.histories router) r.port ≡ true)
        (routes_of net most_routes (ticked net most_routes most_services run (first ∷ ticks)).histories router) }
{
    crate::laws::given::layouts();
}

/// Every table becomes right about each network off the list, and stays so, whatever was in it before and whatever hosts advertise of the networks
/// on the list meanwhile: after 2,940 ticks every router has the route of the least way to such a network, and where there is no way it has none,
/// after 2,880 (`tables`). From then on it is the same route at the end of each tick, with hops, ticks, port and neighbour (`stay`), and after
/// 2,940 also after each step of a tick (`each_step`). Where every route to a network off the list is of a real way from the first and nothing
/// waits, 60 ticks are enough (`sooner`, `sooner_stay`).
///
/// In these ticks hosts may speak as in `real_apart`. The internet is as for `laws::right`, but every table has room for the networks on the list
/// besides those that its router has no port on, and so has the share of each port (`HasRoomBeside`). A network of the internet may be on the
/// list; of that one nothing is said. With an empty list this is `laws::right`.
pub fn right_apart()
    ensures tables { (net : Internet) (most_routes most_services : ℕ) (foreign : List Network) (run : Run) (first : List Step) (ticks : List (List Step)) (router : ℕ)
        (network : Network)
        → IsSettingBeside net most_routes foreign run.histories network → AreTicksBesideAfter net most_routes most_services foreign run first ticks
        → router < length net → ticks_right (least_route net (ups net run.histories) router network) ≤ length ticks
        → IsRight net most_routes (ticked net most_routes most_services run (first ∷ ticks)).histories (ups net run.histories) router network }
    ensures stay { (net : Internet) (most_routes most_services : ℕ) (foreign : List Network) (run : Run) (first : List Step) (ticks further : List (List Step))
        (router : ℕ) (network : Network)
        → IsSettingBeside net most_routes foreign run.histories network
        → AreTicksBesideAfter net most_routes most_services foreign run first (ticks ++ further)
        → router < length net → ticks_right (least_route net (ups net run.histories) router network) ≤ length ticks
        → route_of net most_routes (ticked net most_routes most_services run (first ∷ ticks ++ further)).histories router network
        ≡ route_of net most_routes (ticked net most_routes most_services run (first ∷ ticks)).histories router network }
    ensures each_step { (net : Internet) (most_routes most_services : ℕ) (foreign : List Network) (run : Run) (first : List Step) (ticks further : List (List Step))
        (network : Network)
        → IsSettingBeside net most_routes foreign run.histories network
        → AreTicksBesideAfter net most_routes most_services foreign run first (ticks ++ further) → most_ticks_right ≤ length ticks
        → let now = ticked net most_routes most_services run (first ∷ ticks) in
        RouteStays net most_routes most_services network now.histories now (steps_of further) }
    ensures sooner { (net : Internet) (most_routes most_services : ℕ) (foreign : List Network) (run : Run) (ticks : List (List Step)) (router : ℕ) (network : Network)
        → IsSettingBeside net most_routes foreign run.histories network → AreRealApart net most_routes run.histories (ups net run.histories) foreign
        → run.waiting ≡ [] → AreTicksBeside net most_routes most_services foreign run ticks → router < length net
        → ticks_right (least_route net (ups net run.histories) router network) ≤ most_ticks_gone + length ticks
        → IsRight net most_routes (ticked net most_routes most_services run ticks).histories (ups net run.histories) router network }
    ensures sooner_stay { (net : Internet) (most_routes most_services : ℕ) (foreign : List Network) (run : Run) (ticks further : List (List Step)) (router : ℕ)
        (network : Network)
        → IsSettingBeside net most_routes foreign run.histories network → AreRealApart net most_routes run.histories (ups net run.histories) foreign
        → run.waiting ≡ [] → AreTicksBeside net most_routes most_services foreign run (ticks ++ further) → router < length net
        → ticks_right (least_route net (ups net run.histories) router network) ≤ most_ticks_gone + length ticks
        → route_of net most_routes (ticked net most_routes most_services run (ticks ++ further)).histories router network
        ≡ route_of net most_routes (ticked net most_routes most_services run ticks).histories router network }
{
    crate::laws::given::layouts();
}

/// So packets for a network off the list arrive, as by `laws::arrives`, whatever hosts advertise of the networks on the list, even a default route.
/// After 2,940 ticks, or 2,880 where the router's least way has no hop, a packet of a host goes through as many routers more as that way has
/// hops, one at a time, and the last one sends it out on that network, for the node that it is for.
pub fn arrives_apart()
    ensures goes { (net : Internet) (most_routes most_services : ℕ) (foreign : List Network) (run : Run) (first : List Step) (ticks : List (List Step)) (place : Place)
        (bytes : List ℕ) (p : Parts) (way : Way)
        → IsSettingBeside net most_routes foreign run.histories p.header.destination.network
        → AreTicksBesideAfter net most_routes most_services foreign run first ticks
        → CanArrive net (ups net run.histories) place bytes p way → ticks_right (Some way) ≤ length ticks
        → Arrives (routers_after net most_routes (ticked net most_routes most_services run (first ∷ ticks)).histories) p.header.destination p.header.control way.hops 0
        (root place bytes) }
{
    crate::laws::given::layouts();
}
