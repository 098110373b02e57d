//! What holds of the definitions, for all ports, routes, services and histories.
ghost use Rattle.std.specs.Prelude.{◌≡◌, ◌≢◌, ◌↔◌, ◌⊎◌, ℕ, ◌^◌, ◌<◌, ◌≤◌, ◌==◌, true, false, not, List, [], ◌∷◌, ◌++◌, length, filter, map, slice_get, Some, None, Ok};
ghost use Rattle.std.specs.List.{AllByRecursion, sum_by};
ghost use Rattle.std.specs.List.Sorted.{IsStrictlyIncreasing};
ghost use Rattle.ipx_table.specs.Stands.{Ascends};
ghost use Rattle.ipx_wire.specs.Packet.{Parts, packet_of};
ghost use Rattle.ipx_wire.specs.Piece.{IsBytes};
ghost use Rattle.ipx_wire.specs.declared.address.Address.{Address};
ghost use Rattle.ipx_wire.specs.declared.network.Network.{Network};
ghost use Rattle.ipx_wire.specs.declared.node.Node.{Node};
ghost use Rattle.ipx_router.specs.Bounds.{most_packets, most_length};
ghost use Rattle.ipx_table.specs.Facts.{Fact, Offered};
ghost use Rattle.ipx_table.specs.Shares.{IsSharedBy};
ghost use Rattle.ipx_table.specs.Stands.{held};
ghost use Rattle.ipx_table.specs.Taken.{taken};
ghost use Rattle.ipx_table.specs.declared.taken.Taken.TheVariants.{Admitted};
ghost use Rattle.ipx_router.specs.Facts.{route_facts, route_facts_of, routes_held, service_facts, service_facts_of, services_held, offers};
ghost use Rattle.ipx_router.specs.History.{Event, History, Stop, Second, Packet, PortDown, PortUp, IsOnPort, IsOfBytes, running, seconds_run, ports_up};
ghost use Rattle.ipx_router.specs.Horizon.{EachEntryReadIs, IsFromElsewhere};
ghost use Rattle.ipx_router.specs.News.{news, news_services, same_address, same_route, same_service};
ghost use Rattle.ipx_router.specs.Numbers.{unreachable, most_ports};
ghost use Rattle.ipx_router.specs.Outcomes.{outcome, changes_nothing};
ghost use Rattle.ipx_router.specs.Packets.{EachEntryIs, IsSentFor, IsRelayed};
ghost use Rattle.ipx_router.specs.Port.{Port, IsPort, IsNoPort, AreApart, numbers, port_at, is_up, same_node};
ghost use Rattle.ipx_router.specs.Relay.{relay_sends};
ghost use Rattle.ipx_router.specs.Relays.{Sent, IsTableRoute, relayed};
ghost use Rattle.ipx_router.specs.Why.{why};
ghost use Rattle.ipx_router.specs.Sends.{sends, ports_sending};
ghost use Rattle.ipx_router.specs.Routes.{route_rules};
ghost use Rattle.ipx_router.specs.Services.{service_order, service_rules};
ghost use Rattle.ipx_router.specs.Shares.{WithinRouteShares, WithinServiceShares, ShareOut, CameOnOneOf, IsNew, KeepsNew};
ghost use Rattle.ipx_router.specs.Told.{told, told_services};
ghost use Rattle.ipx_router.specs.declared.port.PortFault.{PortFault};

use crate::route_offer::RouteOffer;
use crate::service_offer::ServiceOffer;

/// What was learned on a port changes nothing of what is advertised there.
pub fn split_horizon()
    ensures routes { (ports : List Port) (up : List ℕ) (routes : List RouteOffer) (number : ℕ)
        → told ports up (filter (λ r. not (r.port == number)) routes) number ≡ told ports up routes number }
    ensures services { (services : List ServiceOffer) (number : ℕ)
        → told_services (filter (λ s. not (s.port == number)) services) number ≡ told_services services number }
{}

/// A stopped router sends nothing but at a start.
pub fn stopped()
    ensures stop { (ports : List Port) (most_routes most_services : ℕ) (history : History) → running history ≡ false
        → sends ports most_routes most_services history Stop ≡ [] }
    ensures second { (ports : List Port) (most_routes most_services : ℕ) (history : History) → running history ≡ false
        → sends ports most_routes most_services history Second ≡ [] }
    ensures packet { (ports : List Port) (most_routes most_services : ℕ) (history : History) (number : ℕ) (bytes : List ℕ) → running history ≡ false
        → sends ports most_routes most_services history (Packet number bytes) ≡ [] }
    ensures port_down { (ports : List Port) (most_routes most_services : ℕ) (history : History) (number : ℕ) → running history ≡ false
        → sends ports most_routes most_services history (PortDown number) ≡ [] }
    ensures port_up { (ports : List Port) (most_routes most_services : ℕ) (history : History) (number : ℕ) → running history ≡ false
        → sends ports most_routes most_services history (PortUp number) ≡ [] }
    ensures none_up { (ports : List Port) (history : History) → running history ≡ false → ports_up ports history ≡ [] }
{}

/// Where an event is dropped, or the router or the port is already as it would become, nothing is sent and all stays: whether
/// the router runs, the ports that are up, every route and every service with its age, and the seconds counted.
pub fn nothing_changes()
    ensures sends { (ports : List Port) (most_routes most_services : ℕ) (history : History) (event : Event)
        → changes_nothing (outcome ports most_routes history event) ≡ true → sends ports most_routes most_services history event ≡ [] }
    ensures running { (ports : List Port) (most_routes : ℕ) (history : History) (event : Event)
        → changes_nothing (outcome ports most_routes history event) ≡ true → running (history ++ event ∷ []) ≡ running history }
    ensures ports_up { (ports : List Port) (most_routes : ℕ) (history : History) (event : Event)
        → changes_nothing (outcome ports most_routes history event) ≡ true → ports_up ports (history ++ event ∷ []) ≡ ports_up ports history }
    ensures routes { (ports : List Port) (most_routes : ℕ) (history : History) (event : Event)
        → changes_nothing (outcome ports most_routes history event) ≡ true
        → routes_held ports most_routes (history ++ event ∷ []) ≡ routes_held ports most_routes history }
    ensures services { (ports : List Port) (most_routes most_services : ℕ) (history : History) (event : Event)
        → changes_nothing (outcome ports most_routes history event) ≡ true
        → services_held ports most_services (history ++ event ∷ []) ≡ services_held ports most_services history }
    ensures seconds { (ports : List Port) (most_routes : ℕ) (history : History) (event : Event)
        → changes_nothing (outcome ports most_routes history event) ≡ true → running history ≡ true
        → seconds_run (history ++ event ∷ []) ≡ seconds_run history }
{}

/// Where the same is held before an event and after it, there is no news.
pub fn no_news()
    ensures routes { (ports : List Port) (routes : List RouteOffer) (number : ℕ) → news ports routes routes number ≡ [] }
    ensures services { (services : List ServiceOffer) (number : ℕ) → news_services services services number ≡ [] }
{}

/// Offers are the same exactly where they are equal, and so are addresses and nodes.
pub fn same_offers()
    ensures routes { (a b : RouteOffer) → (same_route a b ≡ true ↔ a ≡ b) }
    ensures services { (a b : ServiceOffer) → (same_service a b ≡ true ↔ a ≡ b) }
    ensures addresses { (a b : Address) → (same_address a b ≡ true ↔ a ≡ b) }
    ensures nodes { (a b : Node) → (same_node a b ≡ true ↔ a ≡ b) }
{}

/// Values make a port or there is a fault, never both, and one fault only.
pub fn port_values()
    ensures never_both { (p : Port) (fault : PortFault) → IsPort p → IsNoPort p.network p.node p.cost p.longest fault → ⊥ }
    ensures either { (p : Port) → p.cost < 2 ^ 16 → length p.node.0 ≡ 6 → IsBytes p.node.0 → IsPort p ⊎ ((fault : PortFault) × IsNoPort p.network p.node p.cost p.longest fault) }
    ensures one_fault { (network : Network) (node : Node) (cost longest : ℕ) (f g : PortFault)
        → IsNoPort network node cost longest f → IsNoPort network node cost longest g → f ≡ g }
{}

/// The routes that are held after any history are such as a table may have: none is to network 0, FFFFFFFFh or a
/// port's own; each is by a port that there is, and by one neighbour, not the broadcast. What is held came by a port that is
/// up. Networks rise from each route to the next, so there is one route for a network; services likewise, by type and name.
pub fn tables()
    ensures of_a_table { (ports : List Port) (capacity : ℕ) (history : History) → AllByRecursion (IsOnPort ports) history
        → AllByRecursion (IsTableRoute ports) (offers (routes_held ports capacity history)) }
    ensures routes_up { (ports : List Port) (capacity : ℕ) (history : History)
        → AllByRecursion (λ r. is_up (ports_up ports history) r.port ≡ true) (offers (routes_held ports capacity history)) }
    ensures services_up { (ports : List Port) (capacity : ℕ) (history : History)
        → AllByRecursion (λ s. is_up (ports_up ports history) s.port ≡ true) (offers (services_held ports capacity history)) }
    ensures routes_rise { (ports : List Port) (capacity : ℕ) (history : History)
        → IsStrictlyIncreasing (map (λ r. r.network.0) (offers (routes_held ports capacity history))) }
    ensures services_rise { (ports : List Port) (capacity : ℕ) (history : History)
        → Ascends (λ a b. service_order (a.service.kind, a.service.name) (b.service.kind, b.service.name)) (offers (services_held ports capacity history)) }
{
    ipx_table::laws::standing_records::<RouteOffer>();
    ipx_table::laws::standing_records::<ServiceOffer>();
}

/// What is listed as sent on of a packet that no check drops is sent on by the relations, over any ports that are up and any
/// routes by them that a table may have; and what the relations say is sent on comes of a packet that no check drops, and is
/// listed. What is listed leaves on rising port numbers, so on each port at most once.
pub fn relays()
    ensures listed { (ports : List Port) (up : List ℕ) (routes : List RouteOffer) (number : ℕ) (bytes : List ℕ) (p : Parts) (k : ℕ) (s : Sent)
        → IsBytes bytes → AllByRecursion (λ r. is_up up r.port ≡ true) routes
        → why ports up routes true number bytes ≡ None → packet_of bytes ≡ Ok p
        → slice_get (relayed ports up routes number p) k ≡ Some s → IsRelayed ports up routes number bytes s }
    ensures all { (ports : List Port) (up : List ℕ) (routes : List RouteOffer) (number : ℕ) (bytes : List ℕ) (s : Sent)
        → IsBytes bytes → IsRelayed ports up routes number bytes s
        → (why ports up routes true number bytes ≡ None)
        × ((p : Parts) × (k : ℕ) × (packet_of bytes ≡ Ok p) × (slice_get (relayed ports up routes number p) k ≡ Some s)) }
    ensures in_order { (ports : List Port) (up : List ℕ) (routes : List RouteOffer) (number : ℕ) (p : Parts)
        → IsStrictlyIncreasing up → IsStrictlyIncreasing (map (λ s. s.port) (relayed ports up routes number p)) }
    ensures ups { (ports : List Port) (history : History) → IsStrictlyIncreasing (ports_up ports history) × AllByRecursion (λ j. j < length ports) (ports_up ports history) }
{
    ipx_wire::laws::readings();
}

/// What leaves of a packet that a running router is only asked to send on is what the relations say of its bytes, no more and
/// no less, ports in order.
pub fn relaying()
    ensures listed { (ports : List Port) (up : List ℕ) (routes : List RouteOffer) (number : ℕ) (bytes : List ℕ) (p : Parts) (k : ℕ) (s : Sent)
        → IsBytes bytes → AllByRecursion (λ r. is_up up r.port ≡ true) routes → packet_of bytes ≡ Ok p
        → slice_get (relay_sends ports up routes true number p) k ≡ Some s → IsRelayed ports up routes number bytes s }
    ensures all { (ports : List Port) (up : List ℕ) (routes : List RouteOffer) (number : ℕ) (bytes : List ℕ) (s : Sent)
        → IsBytes bytes → IsRelayed ports up routes number bytes s
        → (p : Parts) × (k : ℕ) × (packet_of bytes ≡ Ok p) × (slice_get (relay_sends ports up routes true number p) k ≡ Some s) }
    ensures in_order { (ports : List Port) (up : List ℕ) (routes : List RouteOffer) (number : ℕ) (p : Parts)
        → IsStrictlyIncreasing up → IsStrictlyIncreasing (map (λ s. s.port) (relay_sends ports up routes true number p)) }
{
    relays();
}

/// Each packet that an event sends has the layout of its kind and leaves on a port that is up. A packet that came is sent
/// on if nothing was heard of it. All others are the router's own, with nothing behind the last entry: broadcasts, also for a
/// response that was heard; for a request or a query routing information or service advertising to the one that asked. A
/// packet has only numbers under 256.
pub fn packets()
    ensures layouts { (ports : List Port) (most_routes most_services : ℕ) (history : History) (event : Event)
        → AllByRecursion IsPort ports → AllByRecursion (IsOnPort ports) (history ++ event ∷ []) → AllByRecursion IsOfBytes (history ++ event ∷ [])
        → AllByRecursion (IsSentFor ports (ports_sending ports history event) (offers (routes_held ports most_routes history)) (running history) event)
        (sends ports most_routes most_services history event) }
    ensures bytes { (ports : List Port) (most_routes most_services : ℕ) (history : History) (event : Event)
        → AllByRecursion IsPort ports → AllByRecursion (IsOnPort ports) (history ++ event ∷ []) → AllByRecursion IsOfBytes (history ++ event ∷ [])
        → AllByRecursion (λ s. IsBytes s.bytes) (sends ports most_routes most_services history event) }
{
    ipx_wire::laws::readings();
    ipx_wire::laws::service_readings();
    ipx_wire::laws::reread();
    relays();
}

/// Nothing is sent on a port that is down, and no entry of the router's own says that its network is reached: neither what
/// is advertised on a port nor a change names it, and where an event sends an entry for it, as when the port goes down, it is
/// unreachable.
pub fn down_ports()
    ensures silent { (ports : List Port) (most_routes most_services : ℕ) (history : History) (event : Event)
        → AllByRecursion IsPort ports → AllByRecursion (IsOnPort ports) (history ++ event ∷ []) → AllByRecursion IsOfBytes (history ++ event ∷ [])
        → AllByRecursion (λ s. is_up (ports_sending ports history event) s.port ≡ true) (sends ports most_routes most_services history event) }
    ensures told { (ports : List Port) (most_routes : ℕ) (history : History) (number down : ℕ)
        → AreApart ports → AllByRecursion (IsOnPort ports) history → down < length ports → is_up (ports_up ports history) down ≡ false
        → AllByRecursion (λ e. e.network ≢ (port_at ports down).network) (told ports (ports_up ports history) (offers (routes_held ports most_routes history)) number) }
    ensures news { (ports : List Port) (most_routes : ℕ) (before after : History) (number other : ℕ)
        → AllByRecursion (IsOnPort ports) before → AllByRecursion (IsOnPort ports) after → other < length ports
        → AllByRecursion (λ e. e.network ≢ (port_at ports other).network)
        (news ports (offers (routes_held ports most_routes before)) (offers (routes_held ports most_routes after)) number) }
    ensures unreachable { (ports : List Port) (most_routes most_services : ℕ) (history : History) (event : Event) (down : ℕ)
        → AllByRecursion IsPort ports → AreApart ports → AllByRecursion (IsOnPort ports) (history ++ event ∷ []) → AllByRecursion IsOfBytes (history ++ event ∷ [])
        → down < length ports → is_up (ports_up ports (history ++ event ∷ [])) down ≡ false
        → AllByRecursion (EachEntryIs (λ e. e.network ≡ (port_at ports down).network → e.hops ≡ unreachable) ports (ports_sending ports history event))
        (sends ports most_routes most_services history event) }
{
    ipx_wire::laws::readings();
    ipx_wire::laws::service_readings();
    ipx_wire::laws::reread();
    relays();
    packets();
}

/// No route goes back to where it was learned: after any event, no route to the network that an entry of a packet names was
/// learned on the port on which the event sends that packet. Nothing is said of it there, not even that it is unreachable.
///
/// It is said of the bytes: of each packet of the type of routing information that came through no router, so of broadcasts
/// of all that is advertised and of changes, and of answers to requests. Packets that the router only sends on have been
/// through a router by then, and what they say is another router's.
pub fn no_route_goes_back()
    ensures sent { (ports : List Port) (most_routes most_services : ℕ) (history : History) (event : Event)
        → AllByRecursion IsPort ports → AllByRecursion (IsOnPort ports) (history ++ event ∷ []) → AllByRecursion IsOfBytes (history ++ event ∷ [])
        → AllByRecursion (λ s. EachEntryReadIs (IsFromElsewhere (offers (routes_held ports most_routes (history ++ event ∷ []))) s.port) s.bytes)
        (sends ports most_routes most_services history event) }
{
    ipx_wire::laws::readings();
    ipx_wire::laws::service_readings();
    ipx_wire::laws::reread();
    tables();
    packets();
}

/// An event sends no more packets than stated, where the router has at most 32 ports, and none longer than stated.
pub fn bounds()
    ensures few { (ports : List Port) (most_routes most_services : ℕ) (history : History) (event : Event) → length ports ≤ most_ports → IsOnPort ports event
        → length (sends ports most_routes most_services history event)
        ≤ most_packets (length ports) (length (routes_held ports most_routes history)) (length (services_held ports most_services history)) event }
    ensures short { (ports : List Port) (most_routes most_services : ℕ) (history : History) (event : Event)
        → AllByRecursion IsPort ports → AllByRecursion (IsOnPort ports) (history ++ event ∷ []) → AllByRecursion IsOfBytes (history ++ event ∷ [])
        → AllByRecursion (λ s. length s.bytes ≤ most_length event) (sends ports most_routes most_services history event) }
{
    ipx_table::laws::next_facts::<RouteOffer>();
    ipx_table::laws::next_facts::<ServiceOffer>();
    ipx_wire::laws::readings();
    ipx_wire::laws::service_readings();
    ipx_wire::laws::reread();
    relays();
}

/// After any history the tables have at most as many routes and services as there is room for.
pub fn within_capacity()
    ensures routes { (ports : List Port) (capacity : ℕ) (history : History) → length (routes_held ports capacity history) ≤ capacity }
    ensures services { (ports : List Port) (capacity : ℕ) (history : History) → length (services_held ports capacity history) ≤ capacity }
{
    ipx_table::laws::alive_offers::<RouteOffer>();
    ipx_table::laws::alive_offers::<ServiceOffer>();
}

/// After any history no port has more of the routes, or of the services, than its share, whatever the shares sum to.
pub fn shares_hold()
    ensures routes { (ports : List Port) (capacity : ℕ) (history : History) → WithinRouteShares ports (routes_held ports capacity history) }
    ensures services { (ports : List Port) (capacity : ℕ) (history : History) → WithinServiceShares ports (services_held ports capacity history) }
{
    ipx_table::laws::shares_hold::<RouteOffer>();
    ipx_table::laws::shares_hold::<ServiceOffer>();
}

/// Where all routes that were offered came by ports whose shares sum to at most the capacity, a port below its share finds
/// room, whatever these ports sent; and services likewise. The other ports may have any share. A route or a service that an
/// event offers is admitted if it isn't down and there is none of its key when its turn comes. It is then in the table, unless
/// the same event offers its key once more.
pub fn room_within_a_share()
    ensures routes { (ports : List Port) (capacity : ℕ) (sharers : List ℕ) (history : History) (event : Event) (first : List (Fact RouteOffer)) (route : RouteOffer) (rest : List (Fact RouteOffer))
        → let rules = route_rules ports capacity in let facts = route_facts ports history ++ first in
        IsSharedBy rules sharers (route_facts ports (history ++ event ∷ [])) → route_facts_of ports history event ≡ first ++ Offered route ∷ rest
        → IsNew rules (held rules facts) route → taken rules same_route facts route ≡ Admitted }
    ensures services { (ports : List Port) (capacity : ℕ) (sharers : List ℕ) (history : History) (event : Event) (first : List (Fact ServiceOffer)) (service : ServiceOffer) (rest : List (Fact ServiceOffer))
        → let rules = service_rules ports capacity in let facts = service_facts ports history ++ first in
        IsSharedBy rules sharers (service_facts ports (history ++ event ∷ [])) → service_facts_of ports history event ≡ first ++ Offered service ∷ rest
        → IsNew rules (held rules facts) service → taken rules same_service facts service ≡ Admitted }
    ensures routes_kept { (ports : List Port) (capacity : ℕ) (sharers : List ℕ) (history : History) (event : Event)
        → IsSharedBy (route_rules ports capacity) sharers (route_facts ports (history ++ event ∷ []))
        → KeepsNew (route_rules ports capacity) (route_facts ports history) (route_facts_of ports history event) (routes_held ports capacity (history ++ event ∷ [])) }
    ensures services_kept { (ports : List Port) (capacity : ℕ) (sharers : List ℕ) (history : History) (event : Event)
        → IsSharedBy (service_rules ports capacity) sharers (service_facts ports (history ++ event ∷ []))
        → KeepsNew (service_rules ports capacity) (service_facts ports history) (service_facts_of ports history event) (services_held ports capacity (history ++ event ∷ [])) }
{
    ipx_table::laws::room_within_a_share::<RouteOffer>();
    ipx_table::laws::room_within_a_share::<ServiceOffer>();
    ipx_table::laws::standing_records::<RouteOffer>();
    ipx_table::laws::standing_records::<ServiceOffer>();
}

/// Which ports share a table. What is offered comes by the ports on which packets came. So where packets came on some ports
/// alone, and their shares sum to at most the capacity, these share it. Where the shares of all ports do, all ports share it.
pub fn shared_tables()
    ensures routes { (ports : List Port) (capacity : ℕ) (sharers : List ℕ) (history : History) → let rules = route_rules ports capacity in
        AllByRecursion (CameOnOneOf sharers) history → sum_by rules.share sharers ≤ capacity → IsSharedBy rules sharers (route_facts ports history) }
    ensures services { (ports : List Port) (capacity : ℕ) (sharers : List ℕ) (history : History) → let rules = service_rules ports capacity in
        AllByRecursion (CameOnOneOf sharers) history → sum_by rules.share sharers ≤ capacity → IsSharedBy rules sharers (service_facts ports history) }
    ensures all_routes { (ports : List Port) (capacity : ℕ) (history : History) → AllByRecursion (IsOnPort ports) history
        → ShareOut (λ p. p.route_share) ports capacity → IsSharedBy (route_rules ports capacity) (numbers (length ports)) (route_facts ports history) }
    ensures all_services { (ports : List Port) (capacity : ℕ) (history : History) → AllByRecursion (IsOnPort ports) history
        → ShareOut (λ p. p.service_share) ports capacity → IsSharedBy (service_rules ports capacity) (numbers (length ports)) (service_facts ports history) }
{}
