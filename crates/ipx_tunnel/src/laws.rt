//! What holds by the definitions alone, of every history.
ghost use Rattle.std.specs.Prelude.{◌≡◌, ◌≢◌, ℕ, ◌+◌, ◌*◌, ◌<◌, ◌≤◌, ◌⊎◌, ◌%◌, ◌==◌, ◌&&◌, not, max, if◌then◌else◌, true, false, List, [], ◌∷◌, ◌++◌, length, Ok};
ghost use Rattle.std.specs.List.{filter};
ghost use Rattle.ipx_wire.specs.Packet.{Parts, packet_of};
ghost use Rattle.ipx_wire.specs.declared.header.Header.{Header};
ghost use Rattle.ipx_wire.specs.declared.network.Network.{Network};
ghost use Rattle.ipx_wire.specs.declared.node.Node.{Node};
ghost use Rattle.ipx_wire.specs.declared.socket.Socket.{Socket};
ghost use Rattle.ipx_tunnel.specs.declared.said.Said.TheVariants.{Nothing, Registers, Answers, Speaks};
ghost use Rattle.ipx_tunnel.specs.declared.sender.Sender.{Sender};
ghost use Rattle.ipx_tunnel.specs.declared.setting.Setting.{Setting};
ghost use Rattle.ipx_tunnel.specs.Numbers.{ping_every};
ghost use Rattle.ipx_tunnel.specs.Places.{same_node, broadcast, nobody, is_among, is_here, is_from_here, of_address};
ghost use Rattle.ipx_tunnel.specs.Events.{Event, Datagram, Second, Send, History};
ghost use Rattle.ipx_tunnel.specs.Says.{said};
ghost use Rattle.ipx_tunnel.specs.Clients.{seconds_left, is_there, is_open, cookie, clients};
ghost use Rattle.ipx_tunnel.specs.Own.{header_of, answer_to, ping_to, is_ping, own};
ghost use Rattle.ipx_tunnel.specs.Receivers.{receivers, is_heard, carried};
ghost use Rattle.ipx_tunnel.specs.Extend.{is_extended, extended, with_network};
ghost use Rattle.ipx_tunnel.specs.Laws.{copies, Answered, Trusted, is_client, IsThereThrough, AnswersThrough, SpeaksThrough, IsAlwaysTrusted, concerns, IsHonest, IsOrdinary, LastHeard, seconds, own_to, came_from, sent_to_stranger, came_from_stranger};

/// Each client answered its cookie less than 30 seconds ago, or is trusted and said something less than 180 seconds ago.
pub fn proof()
    ensures { (setting : Setting) (history : History) (place : Node) → is_client setting place history ≡ true
        → Answered setting place history ⊎ Trusted setting place history }
{}

/// What the router or a client gets came from a client's place, and names this place as its source, on this network.
pub fn honest()
    ensures router { (setting : Setting) (history : History) (from : Sender) (bytes : List ℕ) → is_heard setting (Datagram from bytes ∷ history) ≡ true
        → IsHonest setting (Datagram from bytes ∷ history) from bytes }
    ensures clients { (setting : Setting) (history : History) (from : Sender) (bytes : List ℕ) (place : Node) → is_among place (receivers setting (Datagram from bytes ∷ history)) ≡ true
        → IsHonest setting (Datagram from bytes ∷ history) from bytes }
{}

/// A packet goes where a cable would bring it, once: one for a node to the client of that node, a broadcast to every client but its sender.
/// The same holds of what the router sends. The router hears what is for its node, for all or for another network; but no ping.
pub fn cable()
    ensures node { (setting : Setting) (history : History) (from : Sender) (bytes : List ℕ) (header : Header) (place : Node) → let after = Datagram from bytes ∷ history in
        said setting.network from bytes ≡ Speaks header → is_client setting from.place after ≡ true → is_here setting.network header.destination.network ≡ true
        → same_node header.destination.node broadcast ≡ false
        → copies place (receivers setting after) ≡ (if is_client setting place after && same_node place header.destination.node then 1 else 0) }
    ensures all { (setting : Setting) (history : History) (from : Sender) (bytes : List ℕ) (header : Header) (place : Node) → let after = Datagram from bytes ∷ history in
        said setting.network from bytes ≡ Speaks header → is_client setting from.place after ≡ true → is_here setting.network header.destination.network ≡ true
        → same_node header.destination.node broadcast ≡ true
        → copies place (receivers setting after) ≡ (if is_client setting place after && not (same_node place from.place) then 1 else 0) }
    ensures far { (setting : Setting) (history : History) (from : Sender) (bytes : List ℕ) (header : Header) → let after = Datagram from bytes ∷ history in
        said setting.network from bytes ≡ Speaks header → is_here setting.network header.destination.network ≡ false → receivers setting after ≡ [] }
    ensures router_node { (setting : Setting) (history : History) (to : Node) (bytes : List ℕ) (place : Node) → same_node to broadcast ≡ false
        → copies place (receivers setting (Send to bytes ∷ history)) ≡ (if is_client setting place history && same_node place to then 1 else 0) }
    ensures router_all { (setting : Setting) (history : History) (to : Node) (bytes : List ℕ) (place : Node) → same_node to broadcast ≡ true
        → copies place (receivers setting (Send to bytes ∷ history)) ≡ (if is_client setting place history && not (same_node place setting.node) then 1 else 0) }
    ensures heard_node { (setting : Setting) (history : History) (from : Sender) (bytes : List ℕ) (header : Header) → let after = Datagram from bytes ∷ history in
        said setting.network from bytes ≡ Speaks header → is_client setting from.place after ≡ true → is_here setting.network header.destination.network ≡ true
        → same_node header.destination.node setting.node ≡ true → is_heard setting after ≡ true }
    ensures heard_all { (setting : Setting) (history : History) (from : Sender) (bytes : List ℕ) (header : Header) → let after = Datagram from bytes ∷ history in
        said setting.network from bytes ≡ Speaks header → is_client setting from.place after ≡ true → is_here setting.network header.destination.network ≡ true
        → same_node header.destination.node broadcast ≡ true → is_ping setting.network header ≡ false → is_heard setting after ≡ true }
    ensures heard_far { (setting : Setting) (history : History) (from : Sender) (bytes : List ℕ) (header : Header) → let after = Datagram from bytes ∷ history in
        said setting.network from bytes ≡ Speaks header → is_client setting from.place after ≡ true → is_here setting.network header.destination.network ≡ false
        → is_heard setting after ≡ true }
{}

/// Nobody puts out a client: as long as it answered its cookie less than 30 seconds ago, it stays, whatever else comes and from wherever.
/// So does a place that is always trusted, as long as it said something less than 180 seconds ago.
/// Whether a place is there depends on seconds and its own datagrams alone. Each client has at least a second left.
pub fn no_eviction()
    ensures answers { (setting : Setting) (history : History) (place : Node) (events : List Event) → is_client setting place history ≡ true
        → AnswersThrough setting place events history → is_client setting place (events ++ history) ≡ true }
    ensures trusted { (setting : Setting) (history : History) (place : Node) (events : List Event) → is_client setting place history ≡ true
        → IsAlwaysTrusted place (events ++ history) → SpeaksThrough setting place events history → is_client setting place (events ++ history) ≡ true }
    ensures stays { (setting : Setting) (history : History) (place : Node) (events : List Event) → is_client setting place history ≡ true
        → IsThereThrough setting place events history → is_client setting place (events ++ history) ≡ true }
    ensures own { (setting : Setting) (history : History) (place : Node) →
        seconds_left setting place history ≡ seconds_left setting place (filter (concerns place) history) }
    ensures left { (setting : Setting) (history : History) (place : Node) → is_client setting place history ≡ true → 1 ≤ seconds_left setting place history }
{}

/// A place that answers its cookie, or is trusted and says something, comes in where there is room for a client more and its address has fewer
/// clients than its share.
/// There are never more clients than the capacity, never more of an address than the share, and none twice.
pub fn room()
    ensures answers { (setting : Setting) (history : History) (from : Sender) (bytes : List ℕ) → said setting.network from bytes ≡ Answers
        → length (clients setting history) < setting.capacity → of_address from.place (clients setting history) < setting.share
        → is_client setting from.place (Datagram from bytes ∷ history) ≡ true }
    ensures trusted { (setting : Setting) (history : History) (from : Sender) (bytes : List ℕ) → from.is_trusted ≡ true → said setting.network from bytes ≢ Nothing
        → length (clients setting history) < setting.capacity → of_address from.place (clients setting history) < setting.share
        → is_client setting from.place (Datagram from bytes ∷ history) ≡ true }
    ensures capacity { (setting : Setting) (history : History) → length (clients setting history) ≤ setting.capacity }
    ensures share { (setting : Setting) (history : History) (place : Node) → of_address place (clients setting history) ≤ setting.share }
    ensures once { (setting : Setting) (history : History) (place : Node) → copies place (clients setting history) ≤ 1 }
{}

/// Where there is room for one client more, a registration is answered and its sender pinged, and a stranger who speaks and isn't trusted is
/// pinged. The ping is for all by its destination, as the pings of clients are, and names the cookie as its source's node. Whoever sends a
/// packet to this source answers. By *room* its place is a client then.
pub fn comes_in()
    ensures asked { (setting : Setting) (history : History) (from : Sender) (bytes : List ℕ) → said setting.network from bytes ≡ Registers
        → is_open setting from.place (clients setting history) ≡ true
        → own setting (Datagram from bytes ∷ history) ≡ answer_to setting from.place ∷ ping_to setting.network from.place from.cookies.current ∷ [] }
    ensures stranger { (setting : Setting) (history : History) (from : Sender) (bytes : List ℕ) (header : Header) → said setting.network from bytes ≡ Speaks header
        → from.is_trusted ≡ false → is_open setting from.place (clients setting history) ≡ true
        → own setting (Datagram from bytes ∷ history) ≡ ping_to setting.network from.place from.cookies.current ∷ [] }
    ensures ping { (network : Network) (place cookie : Node) → let ping = ping_to network place cookie in
        (ping.place ≡ place) × (is_ping network (header_of ping) ≡ true) × (ping.source.node ≡ cookie) }
    ensures answered { (network : Network) (from : Sender) (bytes : List ℕ) (packet : Parts) (cookie : Node) → let ping = ping_to network from.place cookie in
        packet_of bytes ≡ Ok packet → packet.header.destination.node ≡ ping.source.node → packet.header.destination.socket ≡ ping.source.socket
        → packet.header.source.node ≡ from.place → is_from_here network packet.header.source.network ≡ true
        → (cookie ≡ from.cookies.current) ⊎ (cookie ≡ from.cookies.previous) → cookie ≢ nobody → said network from bytes ≡ Answers }
{}

/// A client is pinged after every five seconds of silence, once, by the cookie that it had when it was last heard. At a second it gets this
/// ping or nothing. Each client has been heard.
pub fn pings()
    ensures every_five { (setting : Setting) (history : History) (place : Node) (last : LastHeard setting place (Second ∷ history)) → is_client setting place (Second ∷ history) ≡ true
        → own_to place (own setting (Second ∷ history)) ≡ (if seconds last.later % ping_every == 0 then 1 else 0) }
    ensures cookie { (setting : Setting) (history : History) (place : Node) (last : LastHeard setting place history) → cookie setting place history ≡ last.from.cookies.current }
    ensures exact { (setting : Setting) (history : History) (place : Node) (last : LastHeard setting place (Second ∷ history)) → is_client setting place (Second ∷ history) ≡ true
        → filter (λ o. same_node o.place place) (own setting (Second ∷ history))
        ≡ (if seconds last.later % ping_every == 0 then ping_to setting.network place last.from.cookies.current ∷ [] else []) }
    ensures heard { (setting : Setting) (history : History) (place : Node) → is_client setting place history ≡ true → LastHeard setting place history }
{}

/// A place without a client gets no packet, and at most two of the tunnel's own datagrams for each that came from there: in one event, and in a
/// whole history. What it said while it was a client doesn't count.
pub fn no_reflection()
    ensures carried { (setting : Setting) (history : History) (place : Node) → is_client setting place history ≡ false
        → copies place (receivers setting history) ≡ 0 }
    ensures event { (setting : Setting) (event : Event) (history : History) (place : Node) → is_client setting place (event ∷ history) ≡ false
        → own_to place (own setting (event ∷ history)) ≤ 2 * came_from place event }
    ensures in_all { (setting : Setting) (history : History) (place : Node) → sent_to_stranger setting place history
        ≤ 2 * came_from_stranger setting place history }
{}

/// An event sends at most as many datagrams as there are clients, or two; and a packet that is carried is no longer than the datagram that came.
pub fn bounded()
    ensures count { (setting : Setting) (history : History) → length (own setting history) + length (receivers setting history) ≤ max 2 (length (clients setting history)) }
    ensures carried { (from : Sender) (bytes : List ℕ) → length (carried (Datagram from bytes)) ≤ length bytes }
{}

/// A copy that was made for another network is never copied again: not by this gateway and not by another one, whatever its networks are and
/// whichever sockets they name.
pub fn once()
    ensures { (from to other : Network) (sockets named : List Socket) (bytes : List ℕ) → is_extended from sockets bytes ≡ true
        → IsOrdinary to → from.0 ≢ to.0 → is_extended other named (extended to bytes) ≡ false }
{}

/// What is carried is the packet that came. A copy for another network is this packet, but for its destination's network.
pub fn read_again()
    ensures carried { (from : Sender) (bytes : List ℕ) (packet : Parts) → packet_of bytes ≡ Ok packet → packet_of (carried (Datagram from bytes)) ≡ Ok packet }
    ensures copied { (to : Network) (bytes : List ℕ) (packet : Parts) → IsOrdinary to → packet_of bytes ≡ Ok packet
        → packet_of (extended to bytes) ≡ Ok (with_network to packet) }
{}
