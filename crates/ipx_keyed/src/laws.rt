//! What holds by the definitions alone, of every history.
ghost use Rattle.std.specs.Prelude.{◌≡◌, ◌≢◌, ℕ, ◌+◌, ◌-◌, ◌*◌, ◌<◌, ◌≤◌, ◌⊎◌, ◌%◌, ◌==◌, ◌&&◌, ◌||◌, not, if◌then◌else◌, true, false, List, [], ◌∷◌, ◌++◌, length, map, Ok};
ghost use Rattle.std.specs.List.{filter, AllByRecursion};
ghost use Rattle.ipx_wire.specs.Packet.{Parts, packet_of};
ghost use Rattle.ipx_wire.specs.declared.header.Header.{Header};
ghost use Rattle.ipx_wire.specs.declared.network.Network.{Network};
ghost use Rattle.ipx_wire.specs.declared.node.Node.{Node};
ghost use Rattle.ipx_tunnel.specs.Laws.{copies};
ghost use Rattle.ipx_tunnel.specs.Numbers.{ping_every, trust_lasts};
ghost use Rattle.ipx_tunnel.specs.Own.{ping_to, is_ping};
ghost use Rattle.ipx_tunnel.specs.Places.{same_node, broadcast, nobody, is_among, is_here, is_from_here, of_address};
ghost use Rattle.ipx_tunnel.specs.Says.{is_to};
ghost use Rattle.ipx_keyed.specs.declared.client.Client.{Client};
ghost use Rattle.ipx_keyed.specs.declared.said.Said.TheVariants.{Nothing, Registers, Answers, Speaks};
ghost use Rattle.ipx_keyed.specs.declared.sender.Sender.{Sender};
ghost use Rattle.ipx_keyed.specs.declared.setting.Setting.{Setting};
ghost use Rattle.ipx_keyed.specs.Numbers.{waits};
ghost use Rattle.ipx_keyed.specs.Events.{Event, Datagram, Second, Send, History};
ghost use Rattle.ipx_keyed.specs.Says.{said, node_in};
ghost use Rattle.ipx_keyed.specs.Members.{places_of, nodes_of, stays, later, fresh, is_client_as, is_remembered, is_open, is_welcome, is_kept};
ghost use Rattle.ipx_keyed.specs.Tables.{lasts, tables, clients, waiting};
ghost use Rattle.ipx_keyed.specs.Own.{answer_to, own, pings_of};
ghost use Rattle.ipx_keyed.specs.Receivers.{for_whom, receivers, is_for_router, is_heard, carried};
ghost use Rattle.ipx_keyed.specs.Stands.{leaving};
ghost use Rattle.ipx_keyed.specs.Laws.{seconds, at_place, own_to, LastHeard, Registered, Given, is_there, is_client, ComesBy, Remembers, is_ping_to, IsHonest, IsRenaming, elsewhere, sent_elsewhere, ever_came, sent_to_stranger};

/// Each client has shown that it hears, less than 30 seconds ago, or 180 if it is trusted: it answered a cookie, spoke by the node that it
/// is remembered with, or is trusted and said something. Each has a second left at least. Whoever comes in does so by an answer to his
/// cookie, by a word of a trusted place, or by a word that names the node which was given to his place at most nine seconds ago.
pub fn proof()
    ensures proved { (setting : Setting) (history : History) → AllByRecursion (λ c. LastHeard setting c history) (clients setting history) }
    ensures left { (setting : Setting) (history : History) → AllByRecursion (λ c. 1 ≤ c.seconds_left) (clients setting history) }
    ensures ends { (setting : Setting) (history : History) (from : Sender) (bytes : List ℕ) (place node : Node) → is_client setting place node history ≡ false
        → is_client setting place node (Datagram from bytes ∷ history) ≡ true → (from.place ≡ place) × ComesBy setting from bytes history node }
    ensures datagrams { (setting : Setting) (history : History) (to place node : Node) (bytes : List ℕ) → is_client setting place node history ≡ false
        → (is_client setting place node (Second ∷ history) ≡ false) × (is_client setting place node (Send to bytes ∷ history) ≡ false) }
{}

/// Whoever is remembered with a node registered from his place at most nine seconds ago, and was given this node.
pub fn remembered()
    ensures each { (setting : Setting) (history : History) → AllByRecursion (λ c. Registered setting c history) (waiting setting history) }
    ensures given { (setting : Setting) (history : History) (place node : Node) → is_remembered place node (waiting setting history) ≡ true
        → Given setting place node history }
{}

/// Whoever is remembered stays so for his nine seconds, with his node and his cookie, whatever else comes and from wherever.
pub fn first()
    ensures { (setting : Setting) (earlier : History) (from : Sender) (bytes : List ℕ) (since : History) → Remembers setting from bytes earlier → seconds since ≤ waits
        → at_place from.place (waiting setting (since ++ Datagram from bytes ∷ earlier)) ≡ fresh from from.node (waits - seconds since) ∷ [] }
{}

/// What the router or a client gets came from a client's place, and names this client's node as its source, on this network.
pub fn honest()
    ensures router { (setting : Setting) (history : History) (from : Sender) (bytes : List ℕ) → is_heard setting (Datagram from bytes ∷ history) ≡ true
        → IsHonest setting (Datagram from bytes ∷ history) from bytes }
    ensures clients { (setting : Setting) (history : History) (from : Sender) (bytes : List ℕ) (place : Node) → is_among place (receivers setting (Datagram from bytes ∷ history)) ≡ true
        → IsHonest setting (Datagram from bytes ∷ history) from bytes }
{}

/// A packet goes where a cable would bring it: one for a node to the client of that node, a broadcast to every client but its sender. The
/// same holds of what the router sends. Nobody gets it twice. The router hears what is for its node, for all or for another network; but no
/// ping.
pub fn cable()
    ensures node { (setting : Setting) (history : History) (from : Sender) (bytes : List ℕ) (header : Header) → let after = Datagram from bytes ∷ history in
        said setting.network from bytes ≡ Speaks header → is_client setting from.place header.source.node after ≡ true
        → is_here setting.network header.destination.network ≡ true → same_node header.destination.node broadcast ≡ false
        → receivers setting after ≡ places_of (filter (λ c. same_node c.node header.destination.node) (clients setting after)) }
    ensures all { (setting : Setting) (history : History) (from : Sender) (bytes : List ℕ) (header : Header) → let after = Datagram from bytes ∷ history in
        said setting.network from bytes ≡ Speaks header → is_client setting from.place header.source.node after ≡ true
        → is_here setting.network header.destination.network ≡ true → same_node header.destination.node broadcast ≡ true
        → receivers setting after ≡ places_of (filter (λ c. not (same_node c.node header.source.node)) (clients setting after)) }
    ensures far { (setting : Setting) (history : History) (from : Sender) (bytes : List ℕ) (header : Header) → let after = Datagram from bytes ∷ history in
        said setting.network from bytes ≡ Speaks header → is_here setting.network header.destination.network ≡ false → receivers setting after ≡ [] }
    ensures router_node { (setting : Setting) (history : History) (to : Node) (bytes : List ℕ) → same_node to broadcast ≡ false
        → receivers setting (Send to bytes ∷ history) ≡ places_of (filter (λ c. same_node c.node to) (clients setting history)) }
    ensures router_all { (setting : Setting) (history : History) (to : Node) (bytes : List ℕ) → same_node to broadcast ≡ true
        → receivers setting (Send to bytes ∷ history) ≡ places_of (clients setting history) }
    ensures twice { (setting : Setting) (history : History) (place : Node) → copies place (receivers setting history) ≤ 1 }
    ensures heard { (setting : Setting) (history : History) (from : Sender) (bytes : List ℕ) (header : Header) → let after = Datagram from bytes ∷ history in
        said setting.network from bytes ≡ Speaks header → is_client setting from.place header.source.node after ≡ true
        → is_heard setting after ≡ is_for_router setting header }
{}

/// An answer lets its sender in where there is room, and so does any word of a trusted place. There are never more clients than the
/// capacity, never more of an address than the share, no two at a place, and no two of a node. No client has the tunnel's own node or the
/// one that stands for all.
pub fn room()
    ensures answers { (setting : Setting) (history : History) (from : Sender) (bytes : List ℕ) (node : Node) → said setting.network from bytes ≡ Answers node
        → is_open setting from.place node (clients setting history) ≡ true → is_client setting from.place node (Datagram from bytes ∷ history) ≡ true }
    ensures trusted { (setting : Setting) (history : History) (from : Sender) (bytes : List ℕ) (header : Header) → said setting.network from bytes ≡ Speaks header
        → from.is_trusted ≡ true → is_open setting from.place header.source.node (clients setting history) ≡ true
        → is_client setting from.place header.source.node (Datagram from bytes ∷ history) ≡ true }
    ensures capacity { (setting : Setting) (history : History) → length (clients setting history) ≤ setting.capacity }
    ensures share { (setting : Setting) (history : History) (place : Node) → of_address place (places_of (clients setting history)) ≤ setting.share }
    ensures place { (setting : Setting) (history : History) (place : Node) → copies place (places_of (clients setting history)) ≤ 1 }
    ensures node { (setting : Setting) (history : History) (node : Node) → copies node (nodes_of (clients setting history)) ≤ 1 }
    ensures others { (setting : Setting) (history : History)
        → (is_among setting.node (nodes_of (clients setting history)) ≡ false) × (is_among broadcast (nodes_of (clients setting history)) ≡ false) }
{}

/// Whoever registers and is welcome is answered, by the node that he is given, and remembered where there is room. Nobody is told a node
/// under which there is no room for him. Whoever isn't welcome gets nothing. A packet from the node that was told, by somebody remembered
/// with it, makes him a client where there is room; if it is a word, it is carried as a client's. The word of a stranger who isn't
/// remembered is answered by a ping, where there is room. Whoever sends a packet to this ping's source, from a node of his, answers; by
/// *room* he is a client then. Whoever may not register says nothing by it.
pub fn comes_in()
    ensures asked { (setting : Setting) (history : History) (from : Sender) (bytes : List ℕ) → said setting.network from bytes ≡ Registers
        → is_welcome setting from (clients setting history) ≡ true
        → own setting (Datagram from bytes ∷ history) ≡ answer_to setting from.place from.node ∷ [] }
    ensures refused { (setting : Setting) (history : History) (from : Sender) (bytes : List ℕ) → said setting.network from bytes ≡ Registers
        → is_welcome setting from (clients setting history) ≡ false
        → (own setting (Datagram from bytes ∷ history) ≡ []) × (waiting setting (Datagram from bytes ∷ history) ≡ waiting setting history) }
    ensures open_to { (setting : Setting) (history : History) (from : Sender) (bytes : List ℕ) → let after = Datagram from bytes ∷ history in
        said setting.network from bytes ≡ Registers → own setting after ≢ []
        → (is_client setting from.place from.node after ≡ true) ⊎ (is_open setting from.place from.node (clients setting after) ≡ true) }
    ensures remembered { (setting : Setting) (history : History) (from : Sender) (bytes : List ℕ) → Remembers setting from bytes history
        → waiting setting (Datagram from bytes ∷ history) ≡ waiting setting history ++ fresh from from.node waits ∷ [] }
    ensures stranger { (setting : Setting) (history : History) (from : Sender) (bytes : List ℕ) (header : Header) → said setting.network from bytes ≡ Speaks header
        → from.is_trusted ≡ false → is_among from.place (places_of (waiting setting history)) ≡ false
        → is_open setting from.place header.source.node (clients setting history) ≡ true
        → own setting (Datagram from bytes ∷ history) ≡ ping_to setting.network from.place from.cookies.current ∷ [] }
    ensures answered { (network : Network) (from : Sender) (bytes : List ℕ) (packet : Parts) (cookie : Node) → let ping = ping_to network from.place cookie in
        packet_of bytes ≡ Ok packet → packet.header.destination.node ≡ ping.source.node → packet.header.destination.socket ≡ ping.source.socket
        → (packet.header.source.node ≡ from.node) ⊎ (packet.header.source.node ≡ from.former) → is_from_here network packet.header.source.network ≡ true
        → (cookie ≡ from.cookies.current) ⊎ (cookie ≡ from.cookies.previous) → cookie ≢ nobody
        → said network from bytes ≡ Answers packet.header.source.node }
    ensures told { (setting : Setting) (history : History) (from : Sender) (bytes : List ℕ) (packet : Parts)
        → packet_of bytes ≡ Ok packet → packet.header.source.node ≡ (answer_to setting from.place from.node).destination.node
        → is_from_here setting.network packet.header.source.network ≡ true → is_to packet.header nobody ≡ false
        → is_remembered from.place from.node (waiting setting history) ≡ true → is_open setting from.place from.node (clients setting history) ≡ true
        → is_client setting from.place from.node (Datagram from bytes ∷ history) ≡ true }
    ensures barred { (network : Network) (from : Sender) (bytes : List ℕ) (packet : Parts) → packet_of bytes ≡ Ok packet → is_to packet.header nobody ≡ true
        → from.may_register ≡ false → said network from bytes ≡ Nothing }
    ensures word { (setting : Setting) (history : History) (from : Sender) (bytes : List ℕ) (header : Header) → let after = Datagram from bytes ∷ history in
        said setting.network from bytes ≡ Speaks header → header.source.node ≡ from.node → is_remembered from.place from.node (waiting setting history) ≡ true
        → is_open setting from.place from.node (clients setting history) ≡ true → is_here setting.network header.destination.network ≡ true
        → (is_client setting from.place from.node after ≡ true)
        × (receivers setting after ≡ for_whom header.destination.node from.node (clients setting after)) × (is_heard setting after ≡ is_for_router setting header) }
{}

/// Whoever registers and is remembered gets an answer at once and another at the first second, and pings at the seventh and at the ninth,
/// by the cookie that he had then. At no other second he gets anything of the tunnel's own. Before the seventh nothing that comes, from him
/// or from anybody, brings him a ping.
pub fn in_time()
    ensures again { (setting : Setting) (earlier : History) (from : Sender) (bytes : List ℕ) (since : History) → Remembers setting from bytes earlier → seconds since ≡ 0
        → own_to from.place (own setting (Second ∷ since ++ Datagram from bytes ∷ earlier)) ≡ answer_to setting from.place from.node ∷ [] }
    ensures pinged { (setting : Setting) (earlier : History) (from : Sender) (bytes : List ℕ) (since : History) → Remembers setting from bytes earlier
        → (seconds since ≡ 6) ⊎ (seconds since ≡ 8)
        → own_to from.place (own setting (Second ∷ since ++ Datagram from bytes ∷ earlier)) ≡ ping_to setting.network from.place from.cookies.current ∷ [] }
    ensures between { (setting : Setting) (earlier : History) (from : Sender) (bytes : List ℕ) (since : History) → Remembers setting from bytes earlier
        → seconds since ≢ 0 → seconds since ≢ 6 → seconds since < 8 → own_to from.place (own setting (Second ∷ since ++ Datagram from bytes ∷ earlier)) ≡ [] }
    ensures quiet { (setting : Setting) (earlier : History) (from : Sender) (bytes : List ℕ) (since : History) → Remembers setting from bytes earlier
        → seconds since < 7 → filter (is_ping_to from.place) (own setting (since ++ Datagram from bytes ∷ earlier)) ≡ [] }
{}

/// Nobody puts out a client or shortens its stay: what comes from another place doesn't touch it, nor does what it says itself, nor what
/// the router sends. With a second it has one less, and with none it leaves: who was a client before is one after or is among those who
/// leave. An answer gives it its time anew, and so does whatever it says at a trusted place.
pub fn no_eviction()
    ensures others { (setting : Setting) (history : History) (from : Sender) (bytes : List ℕ) (place : Node) → same_node from.place place ≡ false
        → at_place place (clients setting (Datagram from bytes ∷ history)) ≡ at_place place (clients setting history) }
    ensures speech { (setting : Setting) (history : History) (from : Sender) (bytes : List ℕ) → from.is_trusted ≡ false
        → ((node : Node) → said setting.network from bytes ≢ Answers node) → is_there setting from.place history ≡ true
        → clients setting (Datagram from bytes ∷ history) ≡ clients setting history }
    ensures answers { (setting : Setting) (history : History) (from : Sender) (bytes : List ℕ) (node : Node) → said setting.network from bytes ≡ Answers node
        → is_client setting from.place node history ≡ true
        → at_place from.place (clients setting (Datagram from bytes ∷ history)) ≡ fresh from node (lasts from) ∷ [] }
    ensures trusted { (setting : Setting) (history : History) (from : Sender) (bytes : List ℕ) → let s = said setting.network from bytes in
        from.is_trusted ≡ true → s ≢ Nothing → is_client setting from.place (node_in from s) history ≡ true
        → at_place from.place (clients setting (Datagram from bytes ∷ history)) ≡ fresh from (node_in from s) trust_lasts ∷ [] }
    ensures second { (setting : Setting) (history : History) (place : Node)
        → at_place place (clients setting (Second ∷ history)) ≡ filter stays (map later (at_place place (clients setting history))) }
    ensures left { (setting : Setting) (history : History) (place node : Node)
        → is_client setting place node history ≡ (is_client setting place node (Second ∷ history) || is_client_as place node (leaving (clients setting history))) }
    ensures router { (setting : Setting) (history : History) (to : Node) (bytes : List ℕ) → tables setting (Send to bytes ∷ history) ≡ tables setting history }
{}

/// A client is pinged after every five seconds of silence, once, by the cookie that it had when it was last heard, unless its place is
/// remembered. By *proof* each client was heard. A client's own ping is answered, and nothing else that it says.
pub fn pings()
    ensures exact { (setting : Setting) (history : History) (c : Client) (last : LastHeard setting c (Second ∷ history)) → let now = Second ∷ history in
        at_place c.place (clients setting now) ≡ c ∷ []
        → own_to c.place (pings_of setting (clients setting now) (waiting setting now))
        ≡ (if (seconds last.later % ping_every == 0) && not (is_among c.place (places_of (waiting setting now)))
        then ping_to setting.network c.place last.from.cookies.current ∷ [] else []) }
    ensures client { (setting : Setting) (history : History) (from : Sender) (bytes : List ℕ) (header : Header) → let after = Datagram from bytes ∷ history in
        said setting.network from bytes ≡ Speaks header → is_client setting from.place header.source.node after ≡ true
        → own setting after ≡ (if is_ping setting.network header then answer_to setting from.place header.source.node ∷ [] else []) }
    ensures strangers { (setting : Setting) (history : History) (place : Node) → is_there setting place history ≡ false
        → own_to place (pings_of setting (clients setting history) (waiting setting history)) ≡ [] }
    ensures alone { (setting : Setting) (history : History) → AllByRecursion (λ c. at_place c.place (clients setting history) ≡ c ∷ []) (clients setting history) }
{}

/// What says nothing brings nothing, and leaves everything as it is.
pub fn nothing()
    ensures tables { (setting : Setting) (history : History) (from : Sender) (bytes : List ℕ) → said setting.network from bytes ≡ Nothing
        → tables setting (Datagram from bytes ∷ history) ≡ tables setting history }
    ensures sent { (setting : Setting) (history : History) (from : Sender) (bytes : List ℕ) → let after = Datagram from bytes ∷ history in
        said setting.network from bytes ≡ Nothing → (own setting after ≡ []) × (receivers setting after ≡ []) × (is_heard setting after ≡ false) }
{}

/// No byte depends on where anybody is. Were everybody elsewhere, with the same nodes and cookies, and addresses shared by the same, then
/// the same bytes would be sent for the same reasons, only to where everybody is then.
pub fn hidden()
    ensures receivers { (setting : Setting) (history : History) (to : Node → Node) → IsRenaming to
        → receivers setting (map (elsewhere to) history) ≡ map to (receivers setting history) }
    ensures own { (setting : Setting) (history : History) (to : Node → Node) → IsRenaming to
        → own setting (map (elsewhere to) history) ≡ map (sent_elsewhere to) (own setting history) }
    ensures heard { (setting : Setting) (history : History) (to : Node → Node) → IsRenaming to
        → is_heard setting (map (elsewhere to) history) ≡ is_heard setting history }
    ensures carried { (event : Event) (to : Node → Node) → carried (elsewhere to event) ≡ carried event }
{}

/// A place without a client gets no packet, and in all at most four datagrams of the tunnel's own for each that ever came from there: an
/// answer, its repeat, and two pings.
pub fn no_reflection()
    ensures carried { (setting : Setting) (history : History) (place : Node) → is_there setting place history ≡ false
        → copies place (receivers setting history) ≡ 0 }
    ensures in_all { (setting : Setting) (history : History) (place : Node) → sent_to_stranger setting place history ≤ 4 * ever_came place history }
{}

/// An event sends at most a datagram to each client, one to each place that is remembered, and one more; and a packet that is carried is no
/// longer than the datagram that came. After a datagram there is at most one of the tunnel's own. No more are remembered than may be, in
/// all and of one address, and none twice.
pub fn bounded()
    ensures count { (setting : Setting) (history : History)
        → length (own setting history) + length (receivers setting history) ≤ length (clients setting history) + length (waiting setting history) + 1 }
    ensures own { (setting : Setting) (history : History) (from : Sender) (bytes : List ℕ) → length (own setting (Datagram from bytes ∷ history)) ≤ 1 }
    ensures carried { (from : Sender) (bytes : List ℕ) → length (carried (Datagram from bytes)) ≤ length bytes }
    ensures remembered { (setting : Setting) (history : History) → length (waiting setting history) ≤ setting.remembered }
    ensures share { (setting : Setting) (history : History) (place : Node) → of_address place (places_of (waiting setting history)) ≤ setting.remembered_share }
    ensures once { (setting : Setting) (history : History) (place : Node) → copies place (places_of (waiting setting history)) ≤ 1 }
{}

/// What is carried is the packet that came.
pub fn read_again()
    ensures { (from : Sender) (bytes : List ℕ) (packet : Parts) → packet_of bytes ≡ Ok packet → packet_of (carried (Datagram from bytes)) ≡ Ok packet }
{}
