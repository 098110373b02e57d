//! What holds by the definitions alone, of every history.
ghost use Rattle.std.specs.Prelude.{◌≡◌, ◌≢◌, ℕ, ◌<◌, ◌≤◌, ◌==◌, ◌&&◌, not, if◌then◌else◌, true, false, List, [], ◌∷◌, length, Option, None, Some};
ghost use Rattle.std.specs.List.{filter};
ghost use Rattle.ipx_wire.specs.declared.node.Node.{Node};
ghost use Rattle.ipx_segment.specs.declared.link.Link.TheVariants.{Cable, Sure};
ghost use Rattle.ipx_segment.specs.declared.link.Link.{Link};
ghost use Rattle.ipx_segment.specs.declared.setting.Setting.{Setting};
ghost use Rattle.ipx_segment.specs.declared.station.Station.{Station};
ghost use Rattle.ipx_segment.specs.Numbers.{station_lasts};
ghost use Rattle.ipx_segment.specs.Nodes.{same_node, is_ordinary};
ghost use Rattle.ipx_segment.specs.Events.{Changes, Heard, Comes, Second, Sends, History};
ghost use Rattle.ipx_segment.specs.Links.{is_up, link_at, links};
ghost use Rattle.ipx_segment.specs.Stations.{station_of, is_elsewhere, at_link, has_room, without, stations};
ghost use Rattle.ipx_segment.specs.Receivers.{numbers, sought, is_meant, takes, receivers, is_heard};
ghost use Rattle.ipx_segment.specs.Laws.{copies, of_node, seconds, share_of, shares, link_after, is_known, LastHeard, CameLast};

/// A packet goes to exactly the links for which it is meant, to each once: one that was heard and counts, and one of the router's.
pub fn cable()
    ensures heard { (setting : Setting) (history : History) (came link : ℕ) (source destination : Node) → let after = Heard came source destination ∷ history in
        copies link (receivers setting after) ≡
        (if takes setting after && is_meant setting (links setting after) (stations setting after) (Some came) destination link then 1 else 0) }
    ensures sent { (setting : Setting) (history : History) (link : ℕ) (destination : Node) →
        copies link (receivers setting (Sends destination ∷ history)) ≡
        (if is_meant setting (links setting history) (stations setting history) None destination link then 1 else 0) }
{}

/// Nothing goes back to the link where it was heard.
pub fn never_back()
    ensures { (setting : Setting) (history : History) (came : ℕ) (source destination : Node) →
        copies came (receivers setting (Heard came source destination ∷ history)) ≡ 0 }
{}

/// A station that was heard at a cable less than 300 seconds ago, when there was room, is known there, whatever other nodes said since then,
/// and from wherever. A packet for it goes to this link alone, and to none if it was heard there itself.
pub fn found()
    ensures known { (setting : Setting) (history : History) (node : Node) (link : ℕ) (last : LastHeard setting node link history) →
        is_known setting node link (Heard link node last.destination ∷ last.earlier) ≡ true → seconds last.later < station_lasts
        → is_known setting node link history ≡ true }
    ensures heard { (setting : Setting) (history : History) (node : Node) (link : ℕ) (last : LastHeard setting node link history) (came : ℕ) (source : Node) →
        is_known setting node link (Heard link node last.destination ∷ last.earlier) ≡ true → seconds last.later < station_lasts
        → same_node source node ≡ false → takes setting (Heard came source node ∷ history) ≡ true
        → receivers setting (Heard came source node ∷ history) ≡ (if link == came then [] else link ∷ []) }
    ensures sent { (setting : Setting) (history : History) (node : Node) (link : ℕ) (last : LastHeard setting node link history) →
        is_known setting node link (Heard link node last.destination ∷ last.earlier) ≡ true → seconds last.later < station_lasts
        → receivers setting (Sends node ∷ history) ≡ link ∷ [] }
{}

/// A packet for a node comes to the cable where this node was last heard, with room or without, and however long ago.
pub fn reaches()
    ensures heard { (setting : Setting) (history : History) (node : Node) (link : ℕ) → LastHeard setting node link history → (came : ℕ) (source : Node) →
        same_node source node ≡ false → (link == came) ≡ false → takes setting (Heard came source node ∷ history) ≡ true
        → copies link (receivers setting (Heard came source node ∷ history)) ≡ 1 }
    ensures sent { (setting : Setting) (history : History) (node : Node) (link : ℕ) → LastHeard setting node link history →
        copies link (receivers setting (Sends node ∷ history)) ≡ 1 }
{}

/// A node that is heard at another cable is known there at once, if there is room; in any case it is known nowhere else.
pub fn moves()
    ensures there { (setting : Setting) (history : History) (node destination : Node) (link share : ℕ) → link_after setting link history ≡ Cable share
        → takes setting (Heard link node destination ∷ history) ≡ true
        → has_room setting share link (without node (stations setting history)) ≡ true
        → is_known setting node link (Heard link node destination ∷ history) ≡ true }
    ensures nowhere_else { (setting : Setting) (history : History) (node destination : Node) (link share other : ℕ) → link_after setting link history ≡ Cable share
        → takes setting (Heard link node destination ∷ history) ≡ true → (link == other) ≡ false
        → is_known setting node other (Heard link node destination ∷ history) ≡ false }
{}

/// A node that came to a link which proves it, when there was room, is known there until it comes or leaves, or the link changes, whatever
/// anybody says. A packet that names it as its source counts only from there: from another link it goes nowhere, and the router doesn't hear it.
pub fn sure()
    ensures known { (setting : Setting) (history : History) (node : Node) (link : ℕ) → CameLast setting node link history
        → is_known setting node link history ≡ true }
    ensures room { (setting : Setting) (history : History) (node : Node) (link share : ℕ) → link_after setting link history ≡ Sure share
        → is_ordinary setting node ≡ true → has_room setting share link (without node (stations setting history)) ≡ true
        → is_known setting node link (Comes link node ∷ history) ≡ true }
    ensures honest { (setting : Setting) (history : History) (node : Node) (link : ℕ) → CameLast setting node link history → (came : ℕ) (destination : Node) →
        (link == came) ≡ false → takes setting (Heard came node destination ∷ history) ≡ false }
    ensures nowhere { (setting : Setting) (history : History) (came : ℕ) (source destination : Node) → let after = Heard came source destination ∷ history in
        takes setting after ≡ false → receivers setting after ≡ [] }
    ensures unheard { (setting : Setting) (history : History) (came : ℕ) (source destination : Node) → let after = Heard came source destination ∷ history in
        takes setting after ≡ false → is_heard setting after ≡ false }
{}

/// There are never more stations than the capacity, never more of a link than its share, and none twice. Where the shares of all links sum to
/// no more than the capacity, a link below its share has room for any station, whatever was heard at the others.
pub fn room()
    ensures capacity { (setting : Setting) (history : History) → length (stations setting history) ≤ setting.capacity }
    ensures share { (setting : Setting) (history : History) (link : ℕ) →
        length (at_link link (stations setting history)) ≤ share_of (link_after setting link history) }
    ensures shares { (setting : Setting) (history : History) (node : Node) (link : ℕ) → shares setting history ≤ setting.capacity
        → length (at_link link (stations setting history)) < share_of (link_after setting link history)
        → has_room setting (share_of (link_after setting link history)) link (without node (stations setting history)) ≡ true }
    ensures once { (setting : Setting) (history : History) (node : Node) → length (of_node node (stations setting history)) ≤ 1 }
{}

/// A packet for all, or for a node that isn't known, goes to every link that is up but the one where it was heard.
pub fn floods()
    ensures heard { (setting : Setting) (history : History) (came : ℕ) (source destination : Node) → let after = Heard came source destination ∷ history in
        takes setting after ≡ true → same_node destination setting.node ≡ false → sought destination (stations setting after) ≡ None
        → receivers setting after ≡ filter (λ l. is_up (link_after setting l history) && not (l == came)) (numbers setting.links) }
    ensures sent { (setting : Setting) (history : History) (destination : Node) →
        same_node destination setting.node ≡ false → sought destination (stations setting history) ≡ None
        → receivers setting (Sends destination ∷ history) ≡ filter (λ l. is_up (link_after setting l history)) (numbers setting.links) }
{}

/// A station that isn't heard for 300 seconds is forgotten.
pub fn ages()
    ensures { (setting : Setting) (history : History) (node : Node) (link : ℕ) (last : LastHeard setting node link history) →
        station_lasts ≤ seconds last.later → station_of node (stations setting history) ≡ None }
{}

/// A packet goes to at most as many links as there are.
pub fn bounded()
    ensures { (setting : Setting) (history : History) → length (receivers setting history) ≤ setting.links }
{}
