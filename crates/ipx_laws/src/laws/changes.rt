//! What holds of an internet whose tables are right while links are lost or come up, and routers stop or start.
ghost use Rattle.std.specs.Prelude.{◌≡◌, ℕ, ◌≤◌, List, [], length};
ghost use Rattle.std.specs.List.{AllByRecursion};
ghost use Rattle.ipx_wire.specs.declared.network.Network.{Network};
ghost use Rattle.ipx_router.specs.History.{History};
ghost use Rattle.ipx_router.specs.Numbers.{period};
ghost use Rattle.ipx_internet.specs.Internet.{Internet, IsInternet, NodesDiffer};
ghost use Rattle.ipx_internet.specs.Run.{Step, AreHistories, begun, run_of};
ghost use Rattle.ipx_internet.specs.Ticks.{ticked};
ghost use Rattle.ipx_laws.specs.Gains.{IsOfGains};
ghost use Rattle.ipx_laws.specs.Least.{AreCheap, HasRoom, FifteenSuffice};
ghost use Rattle.ipx_laws.specs.Losses.{AreLosses};
ghost use Rattle.ipx_laws.specs.Meanwhile.{AreCalmTicks};
ghost use Rattle.ipx_laws.specs.Setting.{IsSetting};
ghost use Rattle.ipx_laws.specs.Tables.{AreReal, AreRight};
ghost use Rattle.ipx_laws.specs.Ups.{ups};

/// What is lost is forgotten at once, everywhere. Where all tables are right and every route is of a real way, routers stop, and ports go
/// down on networks that are lost, so that in the end no port is up there. Nothing else happens but deliveries, and in the end nothing
/// waits. Then every route is of a real way over the ports that are still up (`real`). After 60 calm ticks more all tables are right
/// (`right`).
///
/// The internet is as for `laws::right`, for every network; for `right` alone nodes have to differ and tables need room, and there fifteen
/// hops have to suffice in the end, too. A port that goes down while another one stays up on its network isn't such a loss: its neighbours aren't told, and believe
/// in it until their routes have expired.
pub fn losses()
    ensures real { (net : Internet) (most_routes most_services : ℕ) (histories : List History) (steps : List Step)
        → IsInternet net → ((network : Network) → FifteenSuffice net (ups net histories) network) → AreCheap net → AreHistories net histories
        → AreReal net most_routes histories (ups net histories) → AreRight net most_routes histories (ups net histories)
        → AreLosses net most_routes most_services histories steps
        → let last = (run_of net most_routes most_services (begun histories) steps).histories in AreReal net most_routes last (ups net last) }
    ensures right { (net : Internet) (most_routes most_services : ℕ) (histories : List History) (steps : List Step) (ticks : List (List Step))
        → ((network : Network) → IsSetting net most_routes histories network) → AreReal net most_routes histories (ups net histories)
        → AreRight net most_routes histories (ups net histories) → AreLosses net most_routes most_services histories steps
        → let last = (run_of net most_routes most_services (begun histories) steps).histories in
        ((network : Network) → FifteenSuffice net (ups net last) network) → period ≤ length ticks
        → AreCalmTicks net most_routes most_services (run_of net most_routes most_services (begun histories) steps) ticks
        → AreRight net most_routes (ticked net most_routes most_services (run_of net most_routes most_services (begun histories) steps) ticks).histories (ups net last) }
{
    crate::laws::given::layouts();
    crate::laws::right();
}

/// What is gained is used at once. Where every route is of a real way and nothing waits, routers start, and ports come up. Nothing else
/// happens but deliveries. Then every route is of a real way over the ports that are up in the end, whether or not anything waits (`real`).
/// Where nothing waits then, all tables are right after 60 calm ticks, in an internet as for `laws::right` (`right`).
///
/// After losses one may go on with gains: they leave what gains begin with. Mixed with losses they may take longer, since a router that is
/// told of a loss late may bring back what was lost.
pub fn gains()
    ensures real { (net : Internet) (most_routes most_services : ℕ) (histories : List History) (steps : List Step)
        → IsInternet net → AreHistories net histories → AreReal net most_routes histories (ups net histories)
        → AllByRecursion (IsOfGains net) steps
        → let last = (run_of net most_routes most_services (begun histories) steps).histories in AreReal net most_routes last (ups net last) }
    ensures right { (net : Internet) (most_routes most_services : ℕ) (histories : List History) (steps : List Step) (ticks : List (List Step))
        → IsInternet net → NodesDiffer net → AreCheap net → HasRoom net most_routes → AreHistories net histories
        → AreReal net most_routes histories (ups net histories) → AllByRecursion (IsOfGains net) steps
        → (run_of net most_routes most_services (begun histories) steps).waiting ≡ [] → period ≤ length ticks
        → let last = (run_of net most_routes most_services (begun histories) steps).histories in
        ((network : Network) → FifteenSuffice net (ups net last) network)
        → AreCalmTicks net most_routes most_services (run_of net most_routes most_services (begun histories) steps) ticks
        → AreRight net most_routes
        (ticked net most_routes most_services (run_of net most_routes most_services (begun histories) steps) ticks).histories (ups net last) }
{
    crate::laws::given::layouts();
    crate::laws::right();
}
