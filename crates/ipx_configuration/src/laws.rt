//! What follows from the definitions alone, for all lines.
ghost use Rattle.std.specs.Prelude.{◌≡◌, ℕ, ◌<◌, ◌≤◌, ◌==◌, true, false, Bool, List, [], ◌∷◌, ◌++◌, length, Option, None, Some, slice_get};
ghost use Rattle.std.specs.List.{list_any};
ghost use Rattle.std.specs.Option.{is_some};
ghost use Rattle.ipx_settings.specs.Internals.{internal_number};
ghost use Rattle.ipx_settings.specs.Networks.{number_in};
ghost use Rattle.ipx_settings.specs.Statics.{route_to, service_named};
ghost use Rattle.ipx_settings.specs.declared.addresses.Place.{Place};
ghost use Rattle.ipx_settings.specs.declared.expected.Expected.{Expected};
ghost use Rattle.ipx_settings.specs.declared.internal.InternalBegun.{InternalBegun};
ghost use Rattle.ipx_settings.specs.declared.network.NetworkBegun.{NetworkBegun};
ghost use Rattle.ipx_settings.specs.declared.line.Line.TheVariants.{Rule, Route, Service, Peer};
ghost use Rattle.ipx_settings.specs.declared.reading.Reading.{Reading};
ghost use Rattle.ipx_settings.specs.declared.rule.RuleBegun.TheVariants.{Whole};
ghost use Rattle.ipx_settings.specs.declared.rule.What.{What};
ghost use Rattle.ipx_settings.specs.declared.statics.RouteBegun.{RouteBegun};
ghost use Rattle.ipx_settings.specs.declared.statics.RouteBegun.TheVariants.{Whole as WholeRoute};
ghost use Rattle.ipx_settings.specs.declared.statics.ServiceBegun.{ServiceBegun};
ghost use Rattle.ipx_settings.specs.declared.statics.ServiceBegun.TheVariants.{Whole as WholeService};
ghost use Rattle.ipx_settings.specs.declared.statics.StaticRoute.{StaticRoute};
ghost use Rattle.ipx_settings.specs.declared.statics.StaticService.{StaticService};
ghost use Rattle.ipx_configuration.specs.Carriers.{tunnel, any_frames, same_carrier, take_the_same};
ghost use Rattle.ipx_configuration.specs.Clashes.{is_on_path, are_of_peers, clash};
ghost use Rattle.ipx_configuration.specs.Configurations.{read_in, told, after, network_fault, internal_fault, route_clash};
ghost use Rattle.ipx_configuration.specs.Configured.{configured, rate_or_usual};
ghost use Rattle.ipx_configuration.specs.Extends.{with_adopt, network_taken};
ghost use Rattle.ipx_configuration.specs.Rules.{most_rules, rules_in, rule_said};
ghost use Rattle.ipx_configuration.specs.Lines.{rate_of, with_nodes, link_taken};
ghost use Rattle.ipx_configuration.specs.Memory.{most_networks, networks_in, links_in};
ghost use Rattle.ipx_configuration.specs.Numbers.{has_number, has_route};
ghost use Rattle.ipx_configuration.specs.Peers.{most_peers, peers_in, peer_said, is_there};
ghost use Rattle.ipx_configuration.specs.Statics.{most_routes, routes_in, route_said, leads_to, most_services, services_in, service_said, is_named};
ghost use Rattle.ipx_configuration.specs.Wholes.{after_lines, IsBlank, AreApart, AreOrdered, is_of_network_or_link, is_of_internal, is_of_adopt, is_of_rule, is_of_route, is_of_service, is_of_peer, is_of_nodes};
ghost use Rattle.ipx_configuration.specs.declared.carrier.Carrier.{Carrier};
ghost use Rattle.ipx_configuration.specs.declared.fault.Fault.{Fault};
ghost use Rattle.ipx_configuration.specs.declared.fault.Fault.TheVariants.{Once, ManyRules, ManyRoutes, ManyServices, ManyPeers};
ghost use Rattle.ipx_configuration.specs.declared.said.LinkSetting.{LinkSetting};
ghost use Rattle.ipx_configuration.specs.declared.said.NetworkSetting.{NetworkSetting};
ghost use Rattle.ipx_configuration.specs.declared.configuration.Capacity.{Capacity};
ghost use Rattle.ipx_configuration.specs.declared.configuration.Configuration.{Configuration};

/// Whatever the lines are, right or wrong: no link clashes with one above it.
pub fn links_are_apart()
    ensures { (capacity : Capacity) (n : ℕ) (c : Configuration) (lines : List (List ℕ)) → IsBlank c → AreApart (links_in (after_lines capacity n c lines).links) }
{}

/// Networks are numbered in the order of their lines, and there are at most as many as there is room for. Links stand in the order of their
/// networks, and each link's network is there: so all of them are told.
pub fn links_are_told()
    ensures few { (capacity : Capacity) (n : ℕ) (c : Configuration) (lines : List (List ℕ)) → IsBlank c → (after_lines capacity n c lines).networks.count ≤ most_networks }
    ensures ordered { (capacity : Capacity) (n : ℕ) (c : Configuration) (lines : List (List ℕ)) → IsBlank c → AreOrdered (links_in (after_lines capacity n c lines).links) }
    ensures told { (capacity other : Capacity) (n k : ℕ) (c : Configuration) (lines : List (List ℕ)) → IsBlank c → k < (after_lines capacity n c lines).links.count
        → is_some (configured other k (after_lines capacity n c lines)) ≡ true }
{}

/// Of two links that don't clash, those on one carrier have two different kinds of frames; two tunnels, and two links on different carriers,
/// don't take one address of this machine, clients by WebSocket don't come to both by one path, and both aren't one network's links of peers.
pub fn what_apart_is()
    ensures kinds { (network : ℕ) (carrier : Carrier) (other : LinkSetting) → clash network carrier other ≡ None → (carrier.number == tunnel) ≡ false → same_carrier carrier other.carrier ≡ true
        → ((other.carrier.frames == any_frames) ≡ false) × ((carrier.frames == any_frames) ≡ false) × ((carrier.frames == other.carrier.frames) ≡ false) }
    ensures tunnels { (network : ℕ) (carrier : Carrier) (other : LinkSetting) → clash network carrier other ≡ None → (carrier.number == tunnel) ≡ true → take_the_same carrier other.carrier ≡ false }
    ensures others { (network : ℕ) (carrier : Carrier) (other : LinkSetting) → clash network carrier other ≡ None → same_carrier carrier other.carrier ≡ false → take_the_same carrier other.carrier ≡ false }
    ensures paths { (network : ℕ) (carrier : Carrier) (other : LinkSetting) → clash network carrier other ≡ None → same_carrier carrier other.carrier ≡ false → is_on_path network carrier other ≡ false }
    ensures peers { (network : ℕ) (carrier : Carrier) (other : LinkSetting) → clash network carrier other ≡ None → same_carrier carrier other.carrier ≡ false → are_of_peers network carrier other ≡ false }
{}

/// A network or a link whose line is wrong leaves all networks and links as they were.
pub fn wrong_lines_change_nothing()
    ensures { (capacity : Capacity) (n : ℕ) (text : List ℕ) (c : Configuration) (f : Fault) → is_of_network_or_link (read_in capacity text c).line ≡ true
        → (told capacity n text c).fault ≡ Some f → ((after capacity n text c).networks ≡ c.networks) × ((after capacity n text c).links ≡ c.links) }
{}

/// One more line `internal` is told where the first is. A wrong one changes nothing, no other line says what it says, and the line of a network
/// with its number is wrong.
pub fn internal_is_said_once()
    ensures again { (capacity : Capacity) (n : ℕ) (text : List ℕ) (c : Configuration) → is_of_internal (read_in capacity text c).line ≡ true → 0 < c.internal.line
        → (told capacity n text c).fault ≡ Some (Once c.internal.line) }
    ensures wrong { (capacity : Capacity) (n : ℕ) (text : List ℕ) (c : Configuration) (f : Fault) → is_of_internal (read_in capacity text c).line ≡ true
        → (told capacity n text c).fault ≡ Some f
        → ((after capacity n text c).networks ≡ c.networks) × ((after capacity n text c).links ≡ c.links) × ((after capacity n text c).internal ≡ c.internal) }
    ensures others { (capacity : Capacity) (n : ℕ) (text : List ℕ) (c : Configuration) → is_of_internal (read_in capacity text c).line ≡ false
        → (after capacity n text c).internal ≡ c.internal }
    ensures number { (capacity : Capacity) (b : NetworkBegun) (own : Option Expected) (c : Configuration) → 0 < c.internal.line → number_in b ≡ Some c.internal.number
        → is_some (network_fault capacity b own c) ≡ true }
{}

/// The first right line `adopt` below a network says that of it and nothing else; one more is told where the first is, and changes nothing. No
/// other line says it.
pub fn adopt_is_said_once()
    ensures first { (n : ℕ) (text : List ℕ) (r : Reading) (network : NetworkSetting) → is_of_adopt r.line ≡ true → r.fault ≡ None → network.adopt_line ≡ 0
        → network_taken n text r network ≡ (with_adopt network n, None) }
    ensures again { (n : ℕ) (text : List ℕ) (r : Reading) (network : NetworkSetting) → is_of_adopt r.line ≡ true → 0 < network.adopt_line
        → network_taken n text r network ≡ (network, Some (Once network.adopt_line)) }
    ensures others { (n : ℕ) (text : List ℕ) (r : Reading) (network : NetworkSetting) → is_of_adopt r.line ≡ false
        → (network_taken n text r network).0.adopt_line ≡ network.adopt_line }
{}

/// A right rule stands behind all others of its network; if there are 64, one more is told and changes nothing. No other line changes rules.
pub fn rules_stand_in_order()
    ensures last { (n : ℕ) (text : List ℕ) (r : Reading) (network : NetworkSetting) (permits : Bool) (what : What) → r.line ≡ Rule permits (Whole what) → r.fault ≡ None
        → network.rules.count < most_rules → length network.rules.list ≡ most_rules → rules_in (network_taken n text r network).0.rules ≡ rules_in network.rules ++ rule_said permits what ∷ [] }
    ensures full { (n : ℕ) (text : List ℕ) (r : Reading) (network : NetworkSetting) → is_of_rule r.line ≡ true → most_rules ≤ network.rules.count
        → network_taken n text r network ≡ (network, Some ManyRules) }
    ensures others { (n : ℕ) (text : List ℕ) (r : Reading) (network : NetworkSetting) → is_of_rule r.line ≡ false
        → (network_taken n text r network).0.rules ≡ network.rules }
{}

/// A right route by way of a node stands behind all others of its network. One that leads where another does, or to the network itself, is
/// wrong and changes nothing; so is one more where there are 64. No other line changes routes.
pub fn routes_stand_in_order()
    ensures last { (n : ℕ) (text : List ℕ) (r : Reading) (network : NetworkSetting) (route : StaticRoute) → r.line ≡ Route (WholeRoute route) → r.fault ≡ None
        → network.static_routes.count < most_routes → length network.static_routes.list ≡ most_routes
        → (network.number == route.network) ≡ false → list_any (leads_to route.network) (routes_in network.static_routes) ≡ false
        → routes_in (network_taken n text r network).0.static_routes ≡ routes_in network.static_routes ++ route_said n route ∷ [] }
    ensures again { (n : ℕ) (text : List ℕ) (r : Reading) (network : NetworkSetting) (b : RouteBegun) (to : ℕ) → r.line ≡ Route b → route_to b ≡ Some to
        → list_any (leads_to to) (routes_in network.static_routes) ≡ true
        → ((network_taken n text r network).0 ≡ network) × (is_some (network_taken n text r network).1 ≡ true) }
    ensures itself { (n : ℕ) (text : List ℕ) (r : Reading) (network : NetworkSetting) (b : RouteBegun) → r.line ≡ Route b → route_to b ≡ Some network.number
        → ((network_taken n text r network).0 ≡ network) × (is_some (network_taken n text r network).1 ≡ true) }
    ensures full { (n : ℕ) (text : List ℕ) (r : Reading) (network : NetworkSetting) → is_of_route r.line ≡ true → most_routes ≤ network.static_routes.count
        → network_taken n text r network ≡ (network, Some ManyRoutes) }
    ensures others { (n : ℕ) (text : List ℕ) (r : Reading) (network : NetworkSetting) → is_of_route r.line ≡ false
        → (network_taken n text r network).0.static_routes ≡ network.static_routes }
{}

/// So does a right service by way of a node. One of the type and with the name of another is wrong and changes nothing; so is one more where
/// there are 64. No other line changes services.
pub fn services_stand_in_order()
    ensures last { (n : ℕ) (text : List ℕ) (r : Reading) (network : NetworkSetting) (service : StaticService) → r.line ≡ Service (WholeService service) → r.fault ≡ None
        → network.static_services.count < most_services → length network.static_services.list ≡ most_services
        → list_any (is_named service.kind service.name) (services_in network.static_services) ≡ false
        → services_in (network_taken n text r network).0.static_services ≡ services_in network.static_services ++ service_said n service ∷ [] }
    ensures again { (n : ℕ) (text : List ℕ) (r : Reading) (network : NetworkSetting) (b : ServiceBegun) (kind : ℕ) (name : List ℕ) → r.line ≡ Service b
        → service_named b ≡ Some (kind, name) → list_any (is_named kind name) (services_in network.static_services) ≡ true
        → ((network_taken n text r network).0 ≡ network) × (is_some (network_taken n text r network).1 ≡ true) }
    ensures full { (n : ℕ) (text : List ℕ) (r : Reading) (network : NetworkSetting) → is_of_service r.line ≡ true → most_services ≤ network.static_services.count
        → network_taken n text r network ≡ (network, Some ManyServices) }
    ensures others { (n : ℕ) (text : List ℕ) (r : Reading) (network : NetworkSetting) → is_of_service r.line ≡ false
        → (network_taken n text r network).0.static_services ≡ network.static_services }
{}

/// So does another place of a network. One that another line says is wrong and changes nothing; so is one more where there are 32. No other
/// line changes places.
pub fn peers_stand_in_order()
    ensures last { (n : ℕ) (text : List ℕ) (r : Reading) (network : NetworkSetting) (place : Place) → r.line ≡ Peer (Some place) → r.fault ≡ None
        → network.peers.count < most_peers → length network.peers.list ≡ most_peers → list_any (is_there place) (peers_in network.peers) ≡ false
        → peers_in (network_taken n text r network).0.peers ≡ peers_in network.peers ++ peer_said n place ∷ [] }
    ensures again { (n : ℕ) (text : List ℕ) (r : Reading) (network : NetworkSetting) (place : Place) → r.line ≡ Peer (Some place)
        → list_any (is_there place) (peers_in network.peers) ≡ true
        → ((network_taken n text r network).0 ≡ network) × (is_some (network_taken n text r network).1 ≡ true) }
    ensures full { (n : ℕ) (text : List ℕ) (r : Reading) (network : NetworkSetting) → is_of_peer r.line ≡ true → most_peers ≤ network.peers.count
        → network_taken n text r network ≡ (network, Some ManyPeers) }
    ensures others { (n : ℕ) (text : List ℕ) (r : Reading) (network : NetworkSetting) → is_of_peer r.line ≡ false
        → (network_taken n text r network).0.peers ≡ network.peers }
{}

/// A route leads to no network of the configuration, and no network is said where a route leads.
pub fn routes_lead_elsewhere()
    ensures network { (b : RouteBegun) (c : Configuration) (to : ℕ) → route_to b ≡ Some to → list_any (has_number to) (networks_in c.networks) ≡ true
        → is_some (route_clash b c) ≡ true }
    ensures internal { (b : RouteBegun) (c : Configuration) → 0 < c.internal.line → route_to b ≡ Some c.internal.number → is_some (route_clash b c) ≡ true }
    ensures routed { (capacity : Capacity) (b : NetworkBegun) (own : Option Expected) (c : Configuration) (number : ℕ) → number_in b ≡ Some number
        → list_any (has_route number) (networks_in c.networks) ≡ true → is_some (network_fault capacity b own c) ≡ true }
    ensures routed_internal { (capacity : Capacity) (b : InternalBegun) (own : Option Expected) (c : Configuration) (number : ℕ) → internal_number b ≡ Some number
        → list_any (has_route number) (networks_in c.networks) ≡ true → is_some (internal_fault capacity b own c) ≡ true }
{}

/// Two links on one carrier, which is no tunnel's, receive at one rate.
pub fn links_share_a_rate()
    ensures { (links : List LinkSetting) (i j : ℕ) (a b : LinkSetting) → slice_get links i ≡ Some a → slice_get links j ≡ Some b
        → (a.carrier.number == tunnel) ≡ false → same_carrier a.carrier b.carrier ≡ true → rate_or_usual (rate_of a links) ≡ rate_or_usual (rate_of b links) }
{}

/// The first right line `nodes` below a link says that of it and nothing else; one more is told where the first is, and changes nothing. No
/// other line says it.
pub fn nodes_are_said_once()
    ensures first { (n : ℕ) (text : List ℕ) (r : Reading) (links : List LinkSetting) (link : LinkSetting) → is_of_nodes r.line ≡ true → r.fault ≡ None → link.nodes_line ≡ 0
        → link_taken n text r links link ≡ (with_nodes link n, None) }
    ensures again { (n : ℕ) (text : List ℕ) (r : Reading) (links : List LinkSetting) (link : LinkSetting) → is_of_nodes r.line ≡ true → 0 < link.nodes_line
        → link_taken n text r links link ≡ (link, Some (Once link.nodes_line)) }
    ensures others { (n : ℕ) (text : List ℕ) (r : Reading) (links : List LinkSetting) (link : LinkSetting) → is_of_nodes r.line ≡ false
        → (link_taken n text r links link).0.nodes_line ≡ link.nodes_line }
{}
