//! What holds of every internet whose routers have an edge at each port, as `ipx_edge` makes it: without rules, and whatever is in the tables.
ghost use Rattle.std.specs.Prelude.{◌≡◌, ◌≢◌, ℕ, ◌<◌, List, ◌∷◌, length, None, Some, Ok};
ghost use Rattle.std.specs.List.{AllByRecursion};
ghost use Rattle.ipx_wire.specs.Numbers.{local_network};
ghost use Rattle.ipx_wire.specs.Packet.{Parts, packet_of};
ghost use Rattle.ipx_router.specs.Facts.{routes_held, services_held};
ghost use Rattle.ipx_router.specs.Heard.{Heard};
ghost use Rattle.ipx_router.specs.History.{Event, History};
ghost use Rattle.ipx_edge.specs.Entered.{entered};
ghost use Rattle.ipx_router.specs.Shares.{WithinRouteShares, WithinServiceShares};
ghost use Rattle.ipx_internet.specs.Internet.{Internet, IsInternet, ports_of, port_of};
ghost use Rattle.ipx_internet.specs.Log.{Sending, reception_at, IsLog};
ghost use Rattle.ipx_internet.specs.Queue.{history_of};
ghost use Rattle.ipx_internet.specs.Run.{Step, Happens, Settles, IsStep, AreHistories, Waiting, Run, begun, run_of};
ghost use Rattle.ipx_laws.specs.Edges.{edge_stepped, edge_run, words_of, AllComeAsTheyAre, HoldTheSame};

/// With edges, too, what is listed of a run is a log. So a packet goes no further than without them, by what `ipx_internet::laws::courses`
/// says of every log: a packet for one network is forwarded at most 16 times; a path of a propagated packet has at most eight forwards, and
/// visits no network twice.
///
/// And nobody receives, or sends on, a packet with 0 for the network of its source (`numbered`). Where edges let in all that comes as it is,
/// everything is as it would be without them (`same`); what an edge holds is gone (`held`).
pub fn runs()
    ensures listed { (net : Internet) (most_routes most_services : ℕ) (histories : List History) (steps : List Step)
        → IsInternet net → AreHistories net histories → AllByRecursion (IsStep net) steps
        → IsLog net (edge_run net most_routes most_services (begun histories) steps).log }
    ensures numbered { (net : Internet) (most_routes most_services : ℕ) (histories : List History) (steps : List Step) (place : ℕ) (p : Parts)
        → IsInternet net → AreHistories net histories → AllByRecursion (IsStep net) steps
        → let log = (edge_run net most_routes most_services (begun histories) steps).log in
        place < length log → packet_of (reception_at log place).bytes ≡ Ok p → p.header.source.network.0 ≢ local_network }
    ensures same { (net : Internet) (most_routes most_services : ℕ) (run : Run) (steps : List Step) → AllComeAsTheyAre net most_routes most_services run steps
        → edge_run net most_routes most_services run steps ≡ run_of net most_routes most_services run steps }
    ensures held { (net : Internet) (most_routes most_services : ℕ) (run : Run) (w : Waiting) (waiting : List Waiting)
        → run.waiting ≡ w ∷ waiting → entered (port_of net w.delivery.to) w.delivery.bytes ≡ None
        → edge_stepped net most_routes most_services run Settles ≡ record run { waiting = waiting } }
{
    crate::laws::given::layouts();
    crate::laws::given::routing();
    crate::laws::given::edge();
}

/// What is said of routes and services on a cable stays there. Whatever a router hears came from outside at that port, or is a router's own: it
/// is no packet that a router sent on (`heard`). What was sent on changes no table when it is delivered (`contained`). What comes from
/// outside changes no other router's tables (`elsewhere`).
///
/// So what one port's hosts put into all tables of an internet is in its router's own, and no more than the port's share, whatever shares
/// the ports have (`routes`, `services`). What a router tells others is what it holds.
pub fn containment()
    ensures heard { (net : Internet) (most_routes most_services : ℕ) (histories : List History) (steps : List Step) (place : ℕ) (message : Heard)
        → IsInternet net → AreHistories net histories → AllByRecursion (IsStep net) steps
        → let log = (edge_run net most_routes most_services (begun histories) steps).log in
        place < length log → words_of net (reception_at log place) ≡ Some message → (reception_at log place).origin ≡ None }
    ensures contained { (net : Internet) (most_routes most_services : ℕ) (histories : List History) (steps : List Step) (w : Waiting) (waiting : List Waiting) (s : Sending)
        → IsInternet net → AreHistories net histories → AllByRecursion (IsStep net) steps
        → let run = edge_run net most_routes most_services (begun histories) steps in
        run.waiting ≡ w ∷ waiting → w.origin ≡ Some s → HoldTheSame net most_routes most_services run (edge_stepped net most_routes most_services run Settles) }
    ensures elsewhere { (net : Internet) (most_routes most_services : ℕ) (run : Run) (router other : ℕ) (event : Event) → other ≢ router
        → history_of (edge_stepped net most_routes most_services run (Happens router event)).histories other ≡ history_of run.histories other }
    ensures routes { (net : Internet) (most_routes most_services : ℕ) (run : Run) (steps : List Step) (router : ℕ)
        → WithinRouteShares (ports_of net router) (routes_held (ports_of net router) most_routes (history_of (edge_run net most_routes most_services run steps).histories router)) }
    ensures services { (net : Internet) (most_routes most_services : ℕ) (run : Run) (steps : List Step) (router : ℕ)
        → WithinServiceShares (ports_of net router) (services_held (ports_of net router) most_services (history_of (edge_run net most_routes most_services run steps).histories router)) }
{
    crate::laws::given::layouts();
    crate::laws::given::routing();
    crate::laws::given::edge();
    ipx_router::laws::shares_hold();
}
