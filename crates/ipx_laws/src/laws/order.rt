//! What holds of deliveries in any order: nothing is asked of which one comes first.
ghost use Rattle.std.specs.Prelude.{◌≡◌, ℕ, ◌+◌, ◌<◌, ◌≤◌, List, [], length};
ghost use Rattle.std.specs.List.{AllByRecursion};
ghost use Rattle.ipx_internet.specs.Internet.{Internet, IsInternet, NodesDiffer};
ghost use Rattle.ipx_internet.specs.InternetWeight.{queued_weight, internet_weight};
ghost use Rattle.ipx_internet.specs.Moment.{Moment, StandsFor, net_at};
ghost use Rattle.ipx_internet.specs.Queue.{Queued};
ghost use Rattle.ipx_internet.specs.Rounds.{IsDelivery};
ghost use Rattle.ipx_internet.specs.Run.{AreHistories};
ghost use Rattle.ipx_laws.specs.AnyOrder.{settled_at, settled_in, delivered_in, GoesOn};

/// Deliveries come to an end in whatever order they happen, whatever is in the tables and whatever waits, forged packets too: no more of them
/// happen than the internet weighs where they begin (`few`). So an order that goes on as long as anything waits leaves nothing, after as many
/// steps at most (`quiet`).
///
/// Each step takes any one of the deliveries that wait, so packets may overtake each other, on their link or between links. What is left
/// weighs less each time (`falls`), by at least as much as has been delivered. In memory the weight is what `most_deliveries` returns, if that is
/// less than `usize::MAX` (`in_memory`). Ports of two routers on one network have different nodes.
pub fn any_order_ends()
    ensures falls { (net : Internet) (most_routes most_services : ℕ) (q : Queued) (place : ℕ) → IsInternet net → NodesDiffer net
        → AreHistories net q.histories → AllByRecursion (IsDelivery net) q.queue → place < length q.queue
        → queued_weight net most_routes most_services (settled_at net most_routes most_services q place) < queued_weight net most_routes most_services q }
    ensures few { (net : Internet) (most_routes most_services : ℕ) (q : Queued) (order : List ℕ) → IsInternet net → NodesDiffer net
        → AreHistories net q.histories → AllByRecursion (IsDelivery net) q.queue
        → delivered_in net most_routes most_services order q + queued_weight net most_routes most_services (settled_in net most_routes most_services order q)
        ≤ queued_weight net most_routes most_services q }
    ensures quiet { (net : Internet) (most_routes most_services : ℕ) (q : Queued) (order : List ℕ) → IsInternet net → NodesDiffer net
        → AreHistories net q.histories → AllByRecursion (IsDelivery net) q.queue → GoesOn net most_routes most_services order q
        → queued_weight net most_routes most_services q ≤ length order → (settled_in net most_routes most_services order q).queue ≡ [] }
    ensures in_memory { (most_routes most_services : ℕ) (m : Moment) (q : Queued) (order : List ℕ) → let net = net_at m in
        IsInternet net → NodesDiffer net → AreHistories net q.histories → AllByRecursion (IsDelivery net) q.queue → StandsFor most_routes most_services m q
        → delivered_in net most_routes most_services order q ≤ internet_weight most_routes most_services m }
{
    crate::laws::given::layouts();
    ipx_internet::laws::weighs();
}
