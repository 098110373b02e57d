//! What holds where outsiders speak too: routers of other makers, and hosts that advertise networks as routers do, such as a NetWare server its
//! internal network. They are drawn into the internet as routers, after ours, with their ports; but they don't run: what they say comes from
//! outside.
ghost use Rattle.std.specs.Prelude.{◌≡◌, ◌≢◌, ℕ, ◌+◌, ◌<◌, ◌≤◌, true, false, List, [], ◌∷◌, ◌++◌, length};
ghost use Rattle.std.specs.List.{AllByRecursion};
ghost use Rattle.ipx_wire.specs.Crossed.{is_among};
ghost use Rattle.ipx_wire.specs.declared.network.Network.{Network};
ghost use Rattle.ipx_router.specs.History.{History};
ghost use Rattle.ipx_router.specs.Numbers.{most_routers, unreachable};
ghost use Rattle.ipx_internet.specs.Internet.{Internet, IsInternet};
ghost use Rattle.ipx_internet.specs.Queue.{Delivery};
ghost use Rattle.ipx_internet.specs.Rounds.{IsDelivery};
ghost use Rattle.ipx_internet.specs.Run.{Step, AreHistories, Run, run_of};
ghost use Rattle.ipx_internet.specs.Ticks.{ticked};
ghost use Rattle.ipx_laws.specs.Apart.{IsRealApart};
ghost use Rattle.ipx_laws.specs.Gone.{most_ticks_gone};
ghost use Rattle.ipx_laws.specs.InTime.{AreHeardInTime, AreQuick, beats_right};
ghost use Rattle.ipx_laws.specs.Least.{Way, IsWay, FifteenSuffice, least_route};
ghost use Rattle.ipx_laws.specs.Meanwhile.{LeavesPorts, EachStep, AreTicksOfHostsAfter};
ghost use Rattle.ipx_laws.specs.Outsiders.{ups_with, AreStopped, IsTrueOf, IsTrueAndLeast, SaysTruly, IsSettingWith};
ghost use Rattle.ipx_laws.specs.OutsidersInTime.{AreOutsidersHeard, AreOutsidersInTime, ticks_right_with};
ghost use Rattle.ipx_laws.specs.Tables.{routes_of, IsRight};
ghost use Rattle.ipx_laws.specs.Ups.{ups};
ghost use Rattle.ipx_laws.specs.Wires.{WireStep, still, flying, wires_of, beats_of, AreBeats, EachWireStep, most_beats_gone, most_beats_flying};

/// Every route to a network off the list is of a real way after 2,880 ticks, whatever was in the tables before, where ways lead over outsiders'
/// ports too (`routes`). So it has as many hops as a way there, fewer than 16, which ends at a port of one of ours that is up, or of an outsider
/// (`ways`): nobody has the network nearer than it is. A router without such a way has no route to it (`none`).
///
/// A router is an outsider from the number `ours` on. In these ticks hosts may say anything of the networks on the list, as in `real_apart`. What
/// names another network is an outsider's response: it comes from the node of an outsider's port on that network, and is for that network. What it
/// says is true there (`IsTrueOf`): a network of another port of the outsider, one hop away and as many ticks as both ports cost, or a network
/// to which the outsider has a route of a real way by another port. So a server that advertises its internal network is drawn as a router with
/// a port on its cable and one inside. Nothing is asked of how many routers there are, of nodes, costs or room, nor that outsiders be heard.
/// Nobody starts or stops in these ticks, and no port goes down or comes up.
pub fn real_with_outsiders()
    ensures routes { (net : Internet) (most_routes most_services ours : ℕ) (foreign : List Network) (run : Run) (first : List Step) (ticks : List (List Step)) (router : ℕ)
        → IsInternet net → AreHistories net run.histories → AreStopped net ours run.histories
        → AreTicksOfHostsAfter net most_routes most_services run first ticks
        → let up = ups_with net ours run.histories in
        EachStep (SaysTruly net up ours foreign (IsTrueOf net up)) ticks → most_ticks_gone ≤ length ticks → router < length net → router < ours
        → AllByRecursion (IsRealApart net up foreign router) (routes_of net most_routes (ticked net most_routes most_services run (first ∷ ticks)).histories router) }
    ensures ways { (net : Internet) (most_routes most_services ours : ℕ) (foreign : List Network) (run : Run) (first : List Step) (ticks : List (List Step)) (router : ℕ)
        → IsInternet net → AreHistories net run.histories → AreStopped net ours run.histories
        → AreTicksOfHostsAfter net most_routes most_services run first ticks
        → let up = ups_with net ours run.histories in
        EachStep (SaysTruly net up ours foreign (IsTrueOf net up)) ticks → most_ticks_gone ≤ length ticks → router < length net → router < ours
        → AllByRecursion
        (λ r. is_among r.network foreign ≡ false → (way : Way) × IsWay net up r.network router way × (way.hops ≡ r.hops) × (r.hops < unreachable))
        (routes_of net most_routes (ticked net most_routes most_services run (first ∷ ticks)).histories router) }
    ensures none { (net : Internet) (most_routes most_services ours : ℕ) (foreign : List Network) (run : Run) (first : List Step) (ticks : List (List Step)) (router : ℕ)
        (network : Network)
        → IsInternet net → AreHistories net run.histories → AreStopped net ours run.histories
        → AreTicksOfHostsAfter net most_routes most_services run first ticks
        → let up = ups_with net ours run.histories in
        EachStep (SaysTruly net up ours foreign (IsTrueOf net up)) ticks → most_ticks_gone ≤ length ticks → router < length net → router < ours
        → is_among network foreign ≡ false → ((way : Way) → IsWay net up network router way → way.hops < unreachable → ⊥)
        → AllByRecursion (λ r. r.network ≢ network)
        (routes_of net most_routes (ticked net most_routes most_services run (first ∷ ticks)).histories router) }
{
    crate::laws::given::layouts();
}

/// Over real wires every route to a network off the list is of a real way after 2,880 beats and 15 delays, as by `real_with_outsiders`, whatever is
/// lost, late, doubled or overtaken (`routes`). If anything flies at first, forged packets too, it takes 18 delays and one beat more
/// (`whatever_flies`).
pub fn real_with_outsiders_on_wires()
    ensures routes { (net : Internet) (most_routes most_services delay ours : ℕ) (foreign : List Network) (histories : List History) (beats : List (List WireStep))
        (router : ℕ)
        → IsInternet net → AreHistories net histories → AreStopped net ours histories → AreBeats net beats → EachWireStep LeavesPorts beats
        → let up = ups_with net ours histories in
        EachWireStep (SaysTruly net up ours foreign (IsTrueOf net up)) beats → most_beats_gone delay ≤ length beats → router < length net → router < ours
        → AllByRecursion (IsRealApart net up foreign router)
        (routes_of net most_routes (beats_of net most_routes most_services delay (still histories) beats).histories router) }
    ensures whatever_flies { (net : Internet) (most_routes most_services delay ours : ℕ) (foreign : List Network) (histories : List History) (deliveries : List Delivery)
        (beats : List (List WireStep)) (router : ℕ)
        → IsInternet net → AreHistories net histories → AreStopped net ours histories → AllByRecursion (IsDelivery net) deliveries → AreBeats net beats
        → EachWireStep LeavesPorts beats
        → let up = ups_with net ours histories in
        EachWireStep (SaysTruly net up ours foreign (IsTrueOf net up)) beats → most_beats_flying delay + most_beats_gone delay ≤ length beats → router < length net
        → router < ours
        → AllByRecursion (IsRealApart net up foreign router)
        (routes_of net most_routes (beats_of net most_routes most_services delay (flying histories deliveries) beats).histories router) }
{
    crate::laws::given::layouts();
}

/// Each router of ours comes to have the route of its least way to a network off the list, over outsiders' ports too, and where there is no way it
/// has none, whatever it had before: after 2,880 ticks, in which what is false goes (`real_with_outsiders`), and 60 for each hop of that way. A
/// router beside a server that has the network inside is one hop away (`tables`). From then on it is so at the end of each tick and after each
/// step in one (`meanwhile`).
///
/// Beside `real_with_outsiders` it asks for this. Of that network an outsider says its own least way, gone on (`IsTrueAndLeast`), as it does where
/// it has a port on the network. Each outsider by which a router's least way leads is heard there in any 60 of these ticks. The internet with
/// the outsiders in it is as for `right_apart`: fifteen hops suffice, as they do where there are at most 16 routers, outsiders counted
/// (`few_routers`); ports of two routers on one network have different nodes, no port costs more than 4,095 ticks, and tables and shares have
/// room.
pub fn right_with_outsiders()
    ensures tables { (net : Internet) (most_routes most_services ours : ℕ) (foreign : List Network) (run : Run) (first : List Step) (ticks : List (List Step)) (router : ℕ)
        (network : Network)
        → IsSettingWith net ours most_routes foreign run.histories network → AreTicksOfHostsAfter net most_routes most_services run first ticks
        → let up = ups_with net ours run.histories in
        EachStep (SaysTruly net up ours foreign (IsTrueAndLeast net up network)) ticks
        → AreOutsidersHeard net most_routes most_services up ours network (run_of net most_routes most_services run first) ticks
        → router < length net → router < ours → ticks_right_with (least_route net up router network) ≤ length ticks
        → IsRight net most_routes (ticked net most_routes most_services run (first ∷ ticks)).histories up router network }
    ensures meanwhile { (net : Internet) (most_routes most_services ours : ℕ) (foreign : List Network) (run : Run) (first : List Step) (ticks : List (List Step))
        (steps rest : List Step) (router : ℕ) (network : Network)
        → IsSettingWith net ours most_routes foreign run.histories network
        → AreTicksOfHostsAfter net most_routes most_services run first (ticks ++ (steps ++ rest) ∷ [])
        → let up = ups_with net ours run.histories in
        EachStep (SaysTruly net up ours foreign (IsTrueAndLeast net up network)) (ticks ++ (steps ++ rest) ∷ [])
        → AreOutsidersHeard net most_routes most_services up ours network (run_of net most_routes most_services run first) (ticks ++ (steps ++ rest) ∷ [])
        → router < length net → router < ours → ticks_right_with (least_route net up router network) ≤ length ticks
        → IsRight net most_routes (run_of net most_routes most_services (ticked net most_routes most_services run (first ∷ ticks)) steps).histories up router network }
    ensures few_routers { (net : Internet) (ours : ℕ) (histories : List History) (network : Network) → IsInternet net → length net ≤ most_routers
        → FifteenSuffice net (ups_with net ours histories) network }
{
    crate::laws::given::layouts();
}

/// The same over real wires, where routers of ours are heard in time as in `right_on_wires`, and each outsider by which a least way leads in every
/// window of beats: a router has the route of its least way of h hops after 2,880 beats and 15 delays, and for each hop a window and one delay
/// (`tables`). So it is at each moment from then on, whatever flies then (`meanwhile`). If anything flies at first, forged packets too, it takes
/// 18 delays and one beat more (`whatever_flies`). The window is quick, as there.
pub fn right_with_outsiders_on_wires()
    ensures tables { (net : Internet) (most_routes most_services delay window ours : ℕ) (foreign : List Network) (histories : List History) (beats : List (List WireStep))
        (router : ℕ) (network : Network)
        → IsSettingWith net ours most_routes foreign histories network → AreBeats net beats → EachWireStep LeavesPorts beats
        → let up = ups_with net ours histories in
        EachWireStep (SaysTruly net up ours foreign (IsTrueAndLeast net up network)) beats → AreQuick net window beats
        → AreHeardInTime net most_routes most_services delay window (ups net histories) (still histories) beats
        → AreOutsidersInTime net most_routes most_services delay window up ours network (still histories) beats
        → router < length net → router < ours → beats_right delay window (least_route net up router network) ≤ length beats
        → IsRight net most_routes (beats_of net most_routes most_services delay (still histories) beats).histories up router network }
    ensures meanwhile { (net : Internet) (most_routes most_services delay window ours : ℕ) (foreign : List Network) (histories : List History)
        (beats : List (List WireStep)) (steps more : List WireStep) (router : ℕ) (network : Network)
        → IsSettingWith net ours most_routes foreign histories network
        → let all = beats ++ (steps ++ more) ∷ [] in
        AreBeats net all → EachWireStep LeavesPorts all
        → let up = ups_with net ours histories in
        EachWireStep (SaysTruly net up ours foreign (IsTrueAndLeast net up network)) all → AreQuick net window all
        → AreHeardInTime net most_routes most_services delay window (ups net histories) (still histories) all
        → AreOutsidersInTime net most_routes most_services delay window up ours network (still histories) all
        → router < length net → router < ours → beats_right delay window (least_route net up router network) ≤ length beats
        → IsRight net most_routes (wires_of net most_routes most_services delay (beats_of net most_routes most_services delay (still histories) beats) steps).histories
        up router network }
    ensures whatever_flies { (net : Internet) (most_routes most_services delay window ours : ℕ) (foreign : List Network) (histories : List History)
        (deliveries : List Delivery) (beats : List (List WireStep)) (router : ℕ) (network : Network)
        → IsSettingWith net ours most_routes foreign histories network → AllByRecursion (IsDelivery net) deliveries → AreBeats net beats
        → EachWireStep LeavesPorts beats
        → let up = ups_with net ours histories in
        EachWireStep (SaysTruly net up ours foreign (IsTrueAndLeast net up network)) beats → AreQuick net window beats
        → AreHeardInTime net most_routes most_services delay window (ups net histories) (flying histories deliveries) beats
        → AreOutsidersInTime net most_routes most_services delay window up ours network (flying histories deliveries) beats
        → router < length net → router < ours → most_beats_flying delay + beats_right delay window (least_route net up router network) ≤ length beats
        → IsRight net most_routes (beats_of net most_routes most_services delay (flying histories deliveries) beats).histories up router network }
{
    crate::laws::given::layouts();
}
