//! What it costs to keep tables as they are, and when they stay so.
ghost use Rattle.std.specs.Prelude.{◌≡◌, ℕ, ◌<◌, ◌≤◌, true, List, [], ◌++◌, length};
ghost use Rattle.std.specs.List.{AllByRecursion, sum_by};
ghost use Rattle.ipx_wire.specs.declared.network.Network.{Network};
ghost use Rattle.ipx_router.specs.Facts.{services_held};
ghost use Rattle.ipx_router.specs.History.{History, IsOfBytes};
ghost use Rattle.ipx_router.specs.Numbers.{period};
ghost use Rattle.ipx_router.specs.Port.{Port, IsPort, is_up};
ghost use Rattle.ipx_router.specs.Sends.{holding};
ghost use Rattle.ipx_router.specs.Told.{told, told_services};
ghost use Rattle.ipx_internet.specs.Internet.{Internet, IsInternet, ports_of};
ghost use Rattle.ipx_internet.specs.Queue.{history_of};
ghost use Rattle.ipx_internet.specs.Run.{Step, AreHistories, Run, begun};
ghost use Rattle.ipx_internet.specs.Ticks.{seconds_of, AreTicks, ticked};
ghost use Rattle.ipx_laws.specs.Departure.{departures};
ghost use Rattle.ipx_laws.specs.Least.{networks_of, most_ticks_right};
ghost use Rattle.ipx_laws.specs.Meanwhile.{AreCalmTicks};
ghost use Rattle.ipx_laws.specs.Real.{IsReal};
ghost use Rattle.ipx_laws.specs.Setting.{IsSetting};
ghost use Rattle.ipx_laws.specs.Tables.{routes_of, AreReal};
ghost use Rattle.ipx_laws.specs.Upkeep.{IsOfUpkeep, has, TablesStay, ServicesStay, steps_of, sent_by, all_pages, upkeep_packets, upkeep_bytes};
ghost use Rattle.ipx_laws.specs.Ups.{ups};

/// What it costs to keep tables as they are. While they stay, each port that is up sends, in any 60 seconds of its router, once the pages of
/// all that the router advertises there, and nothing else (`pages`). Nothing leaves on another port (`ups_alone`).
///
/// That is said of any seconds, deliveries and announcements, of steps that begin with nothing that waits, and after each of which each
/// router has the routes and the services that it had at first. Hosts may go on announcing what they have: what comes from outside is for the
/// network on which it comes, and asks nothing. How many packets that is, and how many bytes without what the link puts around them, is
/// a matter of how many networks and services are advertised (`packets`, `bytes`). Where every route is of a real way these are
/// fewer networks than the internet has (`few`).
pub fn upkeep()
    ensures pages { (net : Internet) (most_routes most_services : ℕ) (run : Run) (steps : List Step) (router number : ℕ)
        → IsInternet net → AreHistories net run.histories → run.waiting ≡ [] → AllByRecursion (IsOfUpkeep net) steps
        → TablesStay net most_routes most_services run.histories run steps → seconds_of router steps ≡ period → is_up (ups net run.histories router) number ≡ true
        → sent_by router number (departures net most_routes most_services run steps)
        ≡ all_pages (ports_of net router) (has net most_routes most_services run.histories router) number }
    ensures ups_alone { (net : Internet) (most_routes most_services : ℕ) (run : Run) (steps : List Step)
        → IsInternet net → AreHistories net run.histories → run.waiting ≡ []
        → AllByRecursion (IsOfUpkeep net) steps → TablesStay net most_routes most_services run.histories run steps
        → AllByRecursion (λ d. is_up (ups net run.histories d.router) d.sent.port ≡ true) (departures net most_routes most_services run steps) }
    ensures packets { (ports : List Port) (most_routes most_services : ℕ) (history : History) (number : ℕ)
        → let h = holding ports most_routes most_services history in
        length (all_pages ports h number) ≡ upkeep_packets (length (told ports h.up h.routes number)) (length (told_services h.services number)) }
    ensures bytes { (ports : List Port) (most_routes most_services : ℕ) (history : History) (number : ℕ)
        → AllByRecursion IsPort ports → AllByRecursion IsOfBytes history → number < length ports
        → let h = holding ports most_routes most_services history in
        sum_by (λ s. length s.bytes) (all_pages ports h number) ≡ upkeep_bytes (length (told ports h.up h.routes number)) (length (told_services h.services number)) }
    ensures few { (net : Internet) (most_routes : ℕ) (histories : List History) (router number : ℕ)
        → IsInternet net → AreHistories net histories → is_up (ups net histories router) number ≡ true
        → AllByRecursion (IsReal net (ups net histories) router) (routes_of net most_routes histories router)
        → length (told (ports_of net router) (ups net histories router) (routes_of net most_routes histories router) number) < length (networks_of net) }
{
    crate::laws::given::layouts();
    ipx_wire::laws::sizes();
    ipx_router::laws::tables();
}

/// When tables stay as they are after each step, as `upkeep` asks. The internet is as for `laws::right`, for every network, and nothing waits
/// at first. From any tables, once 2,940 ticks have passed, each router has after each step of further ticks the routes that it had then
/// (`stay`), and where every route is of a real way from the first, once 60 have (`sooner`). Hosts may speak meanwhile, as in `laws::real`.
/// Services stay as hosts announce them: that they do is asked for.
///
/// Where nothing but ticks happens, no router has a service by then, or after any of these steps (`alone`); nor where none had one at first
/// (`alone_sooner`). So in any 60 such ticks each port that is up sends once the pages of all that its router advertises there, and nothing
/// else (`minute`). So it does also while hosts announce, as `upkeep` allows, and the services stay (`minute_meanwhile`).
///
/// Sixty ticks are needed from right tables, too: a route of which nobody has told for 179 seconds is gone in the next.
pub fn tables_stay()
    ensures stay { (net : Internet) (most_routes most_services : ℕ) (histories : List History) (ticks further : List (List Step))
        → ((network : Network) → IsSetting net most_routes histories network)
        → AreCalmTicks net most_routes most_services (begun histories) (ticks ++ further) → most_ticks_right ≤ length ticks
        → let run = ticked net most_routes most_services (begun histories) ticks in
        ServicesStay net most_routes most_services run.histories run (steps_of further)
        → TablesStay net most_routes most_services run.histories run (steps_of further) }
    ensures sooner { (net : Internet) (most_routes most_services : ℕ) (histories : List History) (ticks further : List (List Step))
        → ((network : Network) → IsSetting net most_routes histories network) → AreReal net most_routes histories (ups net histories)
        → AreCalmTicks net most_routes most_services (begun histories) (ticks ++ further) → period ≤ length ticks
        → let run = ticked net most_routes most_services (begun histories) ticks in
        ServicesStay net most_routes most_services run.histories run (steps_of further)
        → TablesStay net most_routes most_services run.histories run (steps_of further) }
    ensures alone { (net : Internet) (most_routes most_services : ℕ) (histories : List History) (ticks further : List (List Step))
        → ((network : Network) → IsSetting net most_routes histories network)
        → AreTicks net most_routes most_services (begun histories) (ticks ++ further) → most_ticks_right ≤ length ticks
        → let run = ticked net most_routes most_services (begun histories) ticks in
        TablesStay net most_routes most_services run.histories run (steps_of further) }
    ensures alone_sooner { (net : Internet) (most_routes most_services : ℕ) (histories : List History) (ticks further : List (List Step))
        → ((network : Network) → IsSetting net most_routes histories network) → AreReal net most_routes histories (ups net histories)
        → ((router : ℕ) → router < length net → services_held (ports_of net router) most_services (history_of histories router) ≡ [])
        → AreTicks net most_routes most_services (begun histories) (ticks ++ further) → period ≤ length ticks
        → let run = ticked net most_routes most_services (begun histories) ticks in
        TablesStay net most_routes most_services run.histories run (steps_of further) }
    ensures minute { (net : Internet) (most_routes most_services : ℕ) (histories : List History) (ticks further : List (List Step)) (router number : ℕ)
        → ((network : Network) → IsSetting net most_routes histories network)
        → AreTicks net most_routes most_services (begun histories) (ticks ++ further) → most_ticks_right ≤ length ticks → length further ≡ period
        → is_up (ups net histories router) number ≡ true
        → let run = ticked net most_routes most_services (begun histories) ticks in
        sent_by router number (departures net most_routes most_services run (steps_of further))
        ≡ all_pages (ports_of net router) (has net most_routes most_services run.histories router) number }
    ensures minute_meanwhile { (net : Internet) (most_routes most_services : ℕ) (histories : List History) (ticks further : List (List Step)) (router number : ℕ)
        → ((network : Network) → IsSetting net most_routes histories network)
        → AreCalmTicks net most_routes most_services (begun histories) (ticks ++ further) → AllByRecursion (IsOfUpkeep net) (steps_of further)
        → length further ≡ period → most_ticks_right ≤ length ticks → is_up (ups net histories router) number ≡ true
        → let run = ticked net most_routes most_services (begun histories) ticks in
        ServicesStay net most_routes most_services run.histories run (steps_of further)
        → sent_by router number (departures net most_routes most_services run (steps_of further))
        ≡ all_pages (ports_of net router) (has net most_routes most_services run.histories router) number }
{
    crate::laws::given::layouts();
    ipx_router::laws::tables();
    upkeep();
}
