//! What holds by the definitions alone, of every packet.
ghost use Rattle.std.specs.Prelude.{◌≡◌, ◌≢◌, ℕ, ◌<◌, ◌≤◌, ◌⊎◌, if◌then◌else◌, Bool, true, false, List, [], ◌∷◌, ◌++◌, length, map, slice_get, None, Some, Ok, Err};
ghost use Rattle.std.specs.List.{filter, AllByRecursion};
ghost use Rattle.std.specs.Option.{option_map};
ghost use Rattle.ipx_wire.specs.Forward.{forwarded};
ghost use Rattle.ipx_wire.specs.Numbers.{local_network, rip_socket, sap_socket};
ghost use Rattle.ipx_wire.specs.Packet.{Parts, packet_of};
ghost use Rattle.ipx_wire.specs.Piece.{piece};
ghost use Rattle.ipx_wire.specs.Rip.{RipParts, rip_of};
ghost use Rattle.ipx_wire.specs.Sap.{sap_of};
ghost use Rattle.ipx_wire.specs.Write.{rip_packet_parts};
ghost use Rattle.ipx_wire.specs.WriteServices.{sap_packet_parts, entry_of};
ghost use Rattle.ipx_wire.specs.declared.network.Network.{Network};
ghost use Rattle.ipx_wire.specs.declared.node.Node.{Node};
ghost use Rattle.ipx_wire.specs.declared.packet.PacketFault.{PacketFault};
ghost use Rattle.ipx_wire.specs.declared.rip.Operation.{Operation};
ghost use Rattle.ipx_wire.specs.declared.rip.RipEntry.{RipEntry};
ghost use Rattle.ipx_wire.specs.declared.rip.Operation.TheVariants.{Response as RipResponse};
ghost use Rattle.ipx_wire.specs.declared.sap.Sap.TheVariants.{Response};
ghost use Rattle.ipx_wire.specs.declared.sap_entries.SapEntry.{SapEntry};
ghost use Rattle.ipx_wire.specs.declared.service.Service.{Service};
ghost use Rattle.ipx_router.specs.Heard.{Heard, HeardRip, HeardSap, heard};
ghost use Rattle.ipx_router.specs.Port.{Port, IsPort, port_at, broadcast, is_up, same_node, is_local, own_address, everyone, own_services, every_server};
ghost use Rattle.ipx_edge.specs.Numbered.{is_own_service, services_told, numbered};
ghost use Rattle.ipx_edge.specs.Entered.{is_for_neighbours, is_from_afar, entered};
ghost use Rattle.ipx_edge.specs.Filtered.{is_routing, is_advertising, filtered};
ghost use Rattle.ipx_edge.specs.Claimed.{claimed};
ghost use Rattle.ipx_edge.specs.Needless.{is_needless};
ghost use Rattle.ipx_edge.specs.Statics.{neighbour_at, static_routes, static_services};
ghost use Rattle.ipx_edge.specs.Laws.{IsDirect, IsElsewhere, IsReadAgain, NamesNothing, RoutesLeft, ServicesLeft, own_words};
ghost use Rattle.ipx_edge.specs.Rules.{names_packet, names_route, names_service, permits};
ghost use Rattle.ipx_edge.specs.declared.rule.Rule.{Rule};
ghost use Rattle.ipx_edge.specs.declared.rule.Way.{Way};
ghost use Rattle.ipx_edge.specs.declared.rule.What.{What};

/// A packet is read again after it was numbered, as what it was, with the port's network in the place of 0.
pub fn is_read_again()
    ensures { (port : Port) (bytes : List ℕ) (p : Parts) → IsPort port → packet_of bytes ≡ Ok p → IsReadAgain port bytes p }
{}

/// No packet leaves a cable without its network: whatever came, after the numbering its source names a network, and so does each service
/// that it advertises there from at most one hop away.
pub fn names_its_network()
    ensures source { (port : Port) (bytes : List ℕ) (q : Parts) → IsPort port → packet_of (numbered port bytes) ≡ Ok q → q.header.source.network.0 ≢ local_network }
    ensures services { (port : Port) (bytes : List ℕ) (q : Parts) → IsPort port → packet_of (numbered port bytes) ≡ Ok q → (k : ℕ) → k < services_told port q
        → is_own_service k (numbered port bytes) ≡ false }
{}

/// Numbering changes nothing but the numbers and the checksum: no other byte, no size, no packet that names its networks, nothing that is
/// no packet, and nothing a second time.
pub fn leaves_the_rest()
    ensures elsewhere { (port : Port) (bytes : List ℕ) (p : Parts) (place count : ℕ) → IsPort port → packet_of bytes ≡ Ok p → IsElsewhere port p place count
        → piece (numbered port bytes) place count ≡ piece bytes place count }
    ensures size { (port : Port) (bytes : List ℕ) → IsPort port → length (numbered port bytes) ≡ length bytes }
    ensures known { (port : Port) (bytes : List ℕ) (p : Parts) → packet_of bytes ≡ Ok p → p.header.source.network.0 ≢ local_network
        → ((k : ℕ) → k < services_told port p → is_own_service k bytes ≡ false) → numbered port bytes ≡ bytes }
    ensures no_packet { (port : Port) (bytes : List ℕ) (fault : PacketFault) → packet_of bytes ≡ Err fault → numbered port bytes ≡ bytes }
    ensures twice { (port : Port) (bytes : List ℕ) → IsPort port → numbered port (numbered port bytes) ≡ numbered port bytes }
{}

/// What is for RIP or SAP on a cable and came through a router is held, and whatever a router forwards to them there is such a packet.
pub fn holds_what_routers_carried()
    ensures held { (port : Port) (bytes : List ℕ) (p : Parts) → packet_of bytes ≡ Ok p → is_for_neighbours port p.header ≡ true → p.header.control ≢ 0
        → entered port bytes ≡ None }
    ensures forwarded { (port : Port) (p : Parts) → is_from_afar port (forwarded p).header ≡ is_for_neighbours port p.header }
{}

/// Nothing else is held: a packet for others, or one that no router carried, comes in, and if it names its networks, byte for byte.
pub fn lets_all_else_in()
    ensures comes { (port : Port) (bytes : List ℕ) (p : Parts) → packet_of bytes ≡ Ok p → (p.header.control ≡ 0) ⊎ (is_for_neighbours port p.header ≡ false)
        → entered port bytes ≡ Some (numbered port bytes) }
    ensures same { (port : Port) (bytes : List ℕ) (p : Parts) → packet_of bytes ≡ Ok p → (p.header.control ≡ 0) ⊎ (is_for_neighbours port p.header ≡ false)
        → p.header.source.network.0 ≢ local_network → ((k : ℕ) → k < services_told port p → is_own_service k bytes ≡ false)
        → entered port bytes ≡ Some bytes }
{}

/// Of a numbered packet the router hears, by its own checks, exactly what it hears of the packet as it came, with the numbers in the place
/// of 0.
pub fn hears_the_same()
    ensures { (ports : List Port) (up : List ℕ) (running : Bool) (number : ℕ) (bytes : List ℕ) → IsPort (port_at ports number)
        → heard ports up running number (numbered (port_at ports number) bytes) ≡ option_map (own_words (port_at ports number)) (heard ports up running number bytes) }
{}

/// What the router hears as routes or services behind an edge, by its own checks, came to the edge with transport control 0: no router,
/// each of which raises it, carried it there.
pub fn hears_neighbours_alone()
    ensures { (ports : List Port) (up : List ℕ) (running : Bool) (number : ℕ) (bytes new : List ℕ) (message : Heard) → IsPort (port_at ports number)
        → entered (port_at ports number) bytes ≡ Some new → heard ports up running number new ≡ Some message → IsDirect bytes }
{}

/// What a router says to all its neighbours, routes or services, comes in byte for byte at another's port, as long as each of these services
/// names its network, or is further than one hop away. So routers behind edges hear each other as they would without.
pub fn leaves_routers_words()
    ensures routes { (port other : Port) (bytes : List ℕ) (operation : Operation) (entries : List RipEntry) → IsPort other
        → packet_of bytes ≡ Ok (rip_packet_parts (own_address other) (everyone other) operation entries) → entered port bytes ≡ Some bytes }
    ensures services { (port other : Port) (bytes : List ℕ) (nearest : Bool) (services : List Service) → IsPort other
        → packet_of bytes ≡ Ok (sap_packet_parts (own_services other) (every_server other) nearest services)
        → ((k : ℕ) → k < services_told port (sap_packet_parts (own_services other) (every_server other) nearest services) → is_own_service k bytes ≡ false)
        → entered port bytes ≡ Some bytes }
{}

/// Of several rules the first that names something decides. What none names is permitted, and a packet that is denied doesn't pass.
pub fn first_decides()
    ensures first { (names : What → Bool) (before after : List Rule) (rule : Rule) → AllByRecursion (λ r. names r.what ≡ false) before → names rule.what ≡ true
        → permits names (before ++ rule ∷ after) ≡ rule.permits }
    ensures unnamed { (names : What → Bool) (rules : List Rule) → AllByRecursion (λ r. names r.what ≡ false) rules → permits names rules ≡ true }
    ensures denied { (way : Way) (port : Port) (rules : List Rule) (bytes : List ℕ) (p : Parts) → packet_of bytes ≡ Ok p → permits (names_packet port p) rules ≡ false
        → filtered way port rules bytes ≡ None }
{}

/// What no rule names passes byte for byte.
pub fn passes_what_is_unnamed()
    ensures { (way : Way) (port : Port) (rules : List Rule) (bytes : List ℕ) (p : Parts) → packet_of bytes ≡ Ok p → NamesNothing way port rules p
        → filtered way port rules bytes ≡ Some bytes }
{}

/// What passes of a response is read again: its header is the one that came, but for length and checksum, and its routes or services are
/// those that the rules permit, in their order. Nothing is made that wasn't there.
pub fn leaves_what_is_permitted()
    ensures routes { (way : Way) (port : Port) (rules : List Rule) (bytes : List ℕ) (p : Parts) (r : RipParts) (new : List ℕ) → packet_of bytes ≡ Ok p
        → is_routing way port p.header ≡ true → rip_of p.payload ≡ Ok r → r.operation ≡ RipResponse → filtered way port rules bytes ≡ Some new
        → RoutesLeft way rules p r new }
    ensures services { (way : Way) (port : Port) (rules : List Rule) (bytes : List ℕ) (p : Parts) (nearest : Bool) (entries : List SapEntry) (new : List ℕ) → packet_of bytes ≡ Ok p
        → is_advertising way port p.header ≡ true → sap_of p.payload ≡ Ok (Response nearest entries) → filtered way port rules bytes ≡ Some new
        → ServicesLeft way rules p nearest entries new }
{}

/// A response of which nothing is permitted isn't sent.
pub fn sends_no_empty_response()
    ensures routes { (way : Way) (port : Port) (rules : List Rule) (bytes : List ℕ) (p : Parts) (r : RipParts) → packet_of bytes ≡ Ok p
        → is_routing way port p.header ≡ true → rip_of p.payload ≡ Ok r → r.operation ≡ RipResponse → filter (λ e. permits (names_route way e) rules) r.entries ≡ []
        → filtered way port rules bytes ≡ None }
    ensures services { (way : Way) (port : Port) (rules : List Rule) (bytes : List ℕ) (p : Parts) (nearest : Bool) (entries : List SapEntry) → packet_of bytes ≡ Ok p
        → is_advertising way port p.header ≡ true → sap_of p.payload ≡ Ok (Response nearest entries) → filter (λ e. permits (names_service way e) rules) entries ≡ []
        → filtered way port rules bytes ≡ None }
{}

/// What has passed a filter passes it again, byte for byte.
pub fn passes_again()
    ensures { (way : Way) (port : Port) (rules : List Rule) (bytes new : List ℕ) → filtered way port rules bytes ≡ Some new → filtered way port rules new ≡ Some new }
{}

/// Two routers that number one cable differently both say so: what the one broadcasts there claims its number at the other's port, but only
/// where the numbers differ. Such a claim is never heard, nor is it of the port's own network, or of 0.
pub fn claims_other_numbers()
    ensures routes { (port other : Port) (bytes : List ℕ) (operation : Operation) (entries : List RipEntry) → packet_of bytes ≡ Ok (rip_packet_parts (own_address other) (everyone other) operation entries)
        → claimed port bytes ≡ (if is_local port other.network then None else Some other.network) }
    ensures services { (port other : Port) (bytes : List ℕ) (nearest : Bool) (services : List Service) → packet_of bytes ≡ Ok (sap_packet_parts (own_services other) (every_server other) nearest services)
        → claimed port bytes ≡ (if is_local port other.network then None else Some other.network) }
    ensures unheard { (ports : List Port) (up : List ℕ) (running : Bool) (number : ℕ) (bytes : List ℕ) (network : Network) → claimed (port_at ports number) bytes ≡ Some network
        → heard ports up running number bytes ≡ None }
    ensures other { (port : Port) (bytes : List ℕ) (network : Network) → claimed port bytes ≡ Some network → is_local port network ≡ false }
{}

/// No answer is left out that names a service nearer than so many hops, and what is left out for a server that is far away is left out for
/// one that is nearer, too.
pub fn leaves_nearer_answers()
    ensures nearer { (port : Port) (hops k : ℕ) (bytes : List ℕ) (p : Parts) (nearest : Bool) (entries : List SapEntry) (entry : SapEntry) → packet_of bytes ≡ Ok p
        → sap_of p.payload ≡ Ok (Response nearest entries) → slice_get entries k ≡ Some entry → entry.hops < hops → is_needless port hops bytes ≡ false }
    ensures fewer { (port : Port) (few many : ℕ) (bytes : List ℕ) → few ≤ many → is_needless port many bytes ≡ true → is_needless port few bytes ≡ true }
{}

/// What is written in a neighbour's name is heard, by the router's own checks, as that neighbour's word: exactly those routes, or services,
/// on a port that is up, as long as the node is neither the port's own nor that of all nodes.
pub fn speaks_for_neighbours()
    ensures routes { (ports : List Port) (up : List ℕ) (number : ℕ) (bytes : List ℕ) (node : Node) (entries : List RipEntry) (r : RipParts)
        → packet_of bytes ≡ Ok (static_routes (port_at ports number) node entries) → rip_of (static_routes (port_at ports number) node entries).payload ≡ Ok r
        → same_node node (port_at ports number).node ≡ false → same_node node broadcast ≡ false → is_up up number ≡ true
        → heard ports up true number bytes ≡ Some (HeardRip (neighbour_at (port_at ports number) node rip_socket) r) }
    ensures services { (ports : List Port) (up : List ℕ) (number : ℕ) (bytes : List ℕ) (node : Node) (services : List Service) (entries : List SapEntry)
        → packet_of bytes ≡ Ok (static_services (port_at ports number) node services) → sap_of (static_services (port_at ports number) node services).payload ≡ Ok (Response false entries)
        → same_node node (port_at ports number).node ≡ false → same_node node broadcast ≡ false → is_up up number ≡ true
        → heard ports up true number bytes ≡ Some (HeardSap (neighbour_at (port_at ports number) node sap_socket) (Response false entries)) }
{}
