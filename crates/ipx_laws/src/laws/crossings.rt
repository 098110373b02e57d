//! What holds of the tree of a propagated packet (type 20): a port receives it once by each path.
ghost use Rattle.std.specs.Prelude.{◌≡◌, ◌↔◌, ℕ, ◌<◌, true, List, length, map, Some, slice_get};
ghost use Rattle.std.specs.List.{AllByRecursion, filter};
ghost use Rattle.ipx_wire.specs.Numbers.{crossed_places};
ghost use Rattle.ipx_wire.specs.Packet.{Parts, IsPacket};
ghost use Rattle.ipx_wire.specs.Piece.{IsBytes};
ghost use Rattle.ipx_router.specs.Why.{is_propagated};
ghost use Rattle.ipx_internet.specs.Different.{AreDifferent};
ghost use Rattle.ipx_internet.specs.Internet.{Place, IsInternet};
ghost use Rattle.ipx_internet.specs.Tree.{Router, IsRouter, net_of, root, tree_to};
ghost use Rattle.ipx_laws.specs.Crossings.{end_of, IsCrossing, paths, is_at};

/// How often a propagated packet is received, exactly, while nothing else happens: at each port once for each path from the port where it first
/// arrives. A path visits no network twice and none that the packet lists; the routers that send the packet on run, with both ports up; and it has
/// at most eight forwards, fewer by the packet's transport control (`IsCrossing`).
///
/// The paths of a tree's receptions end where these are (`ends`). No two are the same (`once`), and they are just the paths that there are
/// (`exactly`). So where these are listed that end at a port, each once, the port has as many receptions (`as_many`).
///
/// It is said of every tree of more than eight levels, whatever is in the tables, and of forged packets too. Bytes that aren't such a
/// packet are left out.
pub fn each_path_once()
    ensures ends { (routers : List Router) (from : Place) (bytes : List ℕ) (p : Parts) (n : ℕ) → IsInternet (net_of routers) → AllByRecursion IsRouter routers
        → IsBytes bytes → IsPacket bytes p → is_propagated p.header ≡ true
        → let copies = tree_to routers n (root from bytes) in map (end_of from) (paths copies) ≡ map (λ c. c.to) copies }
    ensures once { (routers : List Router) (from : Place) (bytes : List ℕ) (p : Parts) (n : ℕ) → IsInternet (net_of routers) → AllByRecursion IsRouter routers
        → IsBytes bytes → IsPacket bytes p → is_propagated p.header ≡ true
        → AreDifferent (paths (tree_to routers n (root from bytes))) }
    ensures exactly { (routers : List Router) (from : Place) (bytes : List ℕ) (p : Parts) (n : ℕ) (path : List Place) → IsInternet (net_of routers)
        → AllByRecursion IsRouter routers → IsBytes bytes → IsPacket bytes p → is_propagated p.header ≡ true → crossed_places < n
        → (((k : ℕ) × (slice_get (paths (tree_to routers n (root from bytes))) k ≡ Some path)) ↔ IsCrossing routers p from path) }
    ensures as_many { (routers : List Router) (from to : Place) (bytes : List ℕ) (p : Parts) (n : ℕ) (ways : List (List Place)) → IsInternet (net_of routers)
        → AllByRecursion IsRouter routers → IsBytes bytes → IsPacket bytes p → is_propagated p.header ≡ true
        → crossed_places < n → AreDifferent ways
        → ((path : List Place) → (((k : ℕ) × (slice_get ways k ≡ Some path)) ↔ IsCrossing routers p from path × (end_of from path ≡ to)))
        → length (filter (λ c. is_at to c.to) (tree_to routers n (root from bytes))) ≡ length ways }
{
    ipx_wire::laws::readings();
    ipx_wire::laws::reread();
    ipx_wire::laws::sent_on();
    ipx_router::laws::same_offers();
    ipx_router::laws::relays();
}
