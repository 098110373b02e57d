//! A configuration, line by line.
ghost use Rattle.std.specs.Prelude.{◌≡◌};
ghost use Rattle.ipx_configuration.specs.Internals.{is_full, told_internal};
ghost use Rattle.ipx_configuration.specs.Wholes.{IsBlank};
ghost use Rattle.ipx_configuration.specs.Configurations.{unlinked, is_below_tunnel, head_or_none, names_link, network_of, network_fault, add_network, after_network, internal_fault, after_internal, network_above, link_line_fault, add_link, link_line, extended, route_clash, routed, link_extended, tunnel_fault, below_network, below_link, taken_below, taken, told, after};

use crate::carrier::Carrier;
use crate::clash::{carrier_in, is_only, line_fault, more_links};
use crate::fault::Fault;
use crate::internal::{internal_clash, internal_said};
use crate::lines::link_taken;
use crate::memory::{LinkList, MOST_NETWORKS, NetworkList};
use crate::numbers::{number_fault, routed_fault};
use crate::peers::Peers;
use crate::rules::Rules;
use crate::said::{InternalSaid, NetworkSetting, Sockets, new_link};
use crate::sockets::network_taken;
use crate::statics::{StaticRoutes, StaticServices};
use ipx_settings::{
    Cards, Context, Expected, Head, InternalBegun, Line, LinkBegun, NetworkBegun, Reading,
    RouteBegun,
};

/// What a line stands below: nothing, or the router's own network,
const NOTHING: u8 = 0;

/// a network that has no link yet,
const NETWORK: u8 = 1;

/// a link,
const LINK: u8 = 2;

/// a link that is wrong: only another link is looked at there,
const WRONG_LINK: u8 = 3;

/// or a network that is wrong: only another network is.
const WRONG_NETWORK: u8 = 4;

/// What a configuration depends on but for its lines.
///
/// See the example of [`Configuration`].
#[derive(Clone, Copy, Debug, PartialEq, Eq)]
pub struct Capacity {
    /// Which cards this system has.
    pub cards: Cards,
    /// The most networks, of which a configuration has room for 32.
    pub networks: usize,
    /// The most links of a network, of which it has room for 64 together.
    pub links: usize,
    /// The most clients of a network.
    pub clients: u16,
    /// The shares of the tables that a network with a tunnel has where its line doesn't say them.
    pub routes: u16,
    pub services: u16,
}

/// What came of a line.
///
/// See the example of [`Configuration`].
#[derive(Clone, Copy)]
pub struct Told {
    /// What its words say, up to the first that is wrong.
    pub reading: Reading,
    /// The line of the network above, which ends here and has no link.
    pub unlinked: Option<usize>,
    /// What is wrong with it.
    pub fault: Option<Fault>,
}

/// What the lines of a configuration say so far. All bytes 0 are that of no line.
///
/// ```
/// let capacity = Capacity {
///     cards: Cards::All,
///     networks: 32,
///     links: 32,
///     clients: 4096,
///     routes: 64,
///     services: 32,
/// };
/// let mut all = Configuration::new();
/// let _ = all.line(capacity, 1, b"network 10 1 1424 dosbox 2130");
/// let told = all.line(capacity, 2, b"network 20 1 1424 dosbox 2130");
/// let is_taken = told.fault == Some(Fault::OtherPort(1));
/// println!(rt; "line 1 has the port: {is_taken}")?;
/// // prints line 1 has the port: true
/// ```
#[repr(C)]
#[derive(Clone, Copy)]
pub struct Configuration {
    pub networks: NetworkList,
    pub links: LinkList,
    /// The router's own network.
    pub internal: InternalSaid,
    /// What the next line stands below.
    pub above: u8,
}

/// All that stands before a network's link; 0 where it wasn't read.
fn head_or_none(begun: NetworkBegun) -> Head
    ensures { result ≡ head_or_none begun }
{
    begun.head().unwrap_or(Head {
        number: 0,
        cost: 0,
        longest: 0,
        shares: None,
    })
}

/// Whether the line of a network goes on with a link, right or wrong.
fn names_link(begun: NetworkBegun, own: Option<Expected>) -> bool
    ensures { result ≡ names_link begun own }
{
    match begun.link() {
        LinkBegun::Nothing => match own {
            Some(Expected::Link) => true,
            Some(Expected::LinkOfSystem) => true,
            _ => false,
        },
        _ => true,
    }
}

/// A network, as its line says it.
fn network_of(line: usize, first: usize, begun: NetworkBegun, is_of_several: bool) -> NetworkSetting
    ensures { result ≡ network_of line first begun is_of_several }
{
    let head = head_or_none(begun);
    let (routes, services) = match head.shares {
        Some(shares) => (shares.routes, shares.services),
        None => (0, 0),
    };
    NetworkSetting {
        line,
        first,
        has_link: !is_of_several,
        number: head.number,
        cost: head.cost,
        longest: head.longest,
        has_shares: head.shares.is_some(),
        routes,
        services,
        is_of_several,
        has_node: begun.node().is_some(),
        node: begun.node().unwrap_or([0; 6]),
        sockets: Sockets::none(),
        adopt_line: 0,
        rules: Rules::none(),
        static_routes: StaticRoutes::none(),
        static_services: StaticServices::none(),
        peers: Peers::none(),
    }
}

impl Configuration {
    /// That of no line.
    pub fn new() -> Configuration
        ensures { IsBlank result }
    {
        let networks = [network_of(0, 0, NetworkBegun::Nothing, true); 32];
        let links = [new_link(0, 0, Carrier::none()); 64];
        Configuration {
            networks: NetworkList {
                list: networks,
                count: 0,
            },
            links: LinkList {
                list: links,
                count: 0,
            },
            internal: InternalSaid::none(),
            above: NOTHING,
        }
    }

    /// Whether a line here stands below a tunnel.
    pub fn is_below_tunnel(&self) -> bool
        ensures { result ≡ is_below_tunnel self.now }
    {
        match self.links.last() {
            Some(link) => self.above == LINK && link.carrier.has_clients(),
            None => false,
        }
    }

    /// The line of the last network, if it ends here without a link.
    pub fn unlinked(&self) -> Option<usize>
        ensures { result ≡ unlinked self.now }
    {
        match self.networks.last() {
            Some(network) if self.above == NETWORK => Some(network.line),
            _ => None,
        }
    }

    /// The router's own network, if a line says it.
    pub fn internal(&self) -> Option<InternalSaid>
        ensures { result ≡ told_internal self.now }
    {
        if self.internal.line > 0 {
            Some(self.internal)
        } else {
            None
        }
    }

    /// Whether there are as many networks as there may be, the router's own among them.
    fn is_full(&self, capacity: Capacity) -> bool
        ensures { result ≡ is_full capacity self.now }
    {
        if self.networks.count >= MOST_NETWORKS {
            return true;
        }
        let own = if self.internal.line > 0 { 1 } else { 0 };
        let all = self.networks.count + own;
        all >= MOST_NETWORKS || all >= capacity.networks
    }

    fn network_fault(
        &self,
        capacity: Capacity,
        begun: NetworkBegun,
        own: Option<Expected>,
    ) -> Option<Fault>
        ensures { result ≡ network_fault capacity begun own self.now }
    {
        if self.is_full(capacity) {
            return Some(Fault::ManyNetworks);
        }
        let other = number_fault(begun.number(), self.networks.listed());
        if other.is_some() {
            return other;
        }
        let own_network = internal_clash(begun.number(), self.internal);
        if own_network.is_some() {
            return own_network;
        }
        let routed = routed_fault(begun.number(), self.networks.listed());
        if routed.is_some() {
            return routed;
        }
        if names_link(begun, own) {
            more_links(
                self.networks.count,
                begun.link(),
                head_or_none(begun).longest,
                &self.links,
                own,
            )
        } else {
            line_fault(own)
        }
    }

    /// A network more, with its link if its line names one.
    fn add_network(&mut self, line: usize, begun: NetworkBegun, own: Option<Expected>)
        ensures { self.new ≡ add_network line begun own self.old }
    {
        let is_of_several = !names_link(begun, own);
        let number = self.networks.count;
        let network = network_of(line, self.links.count, begun, is_of_several);
        self.networks.put(network);
        match carrier_in(begun.link()) {
            Some(carrier) => {
                self.links.put(new_link(line, number, carrier));
            }
            None => {}
        }
        self.above = if is_of_several { NETWORK } else { LINK };
    }

    fn take_network(
        &mut self,
        capacity: Capacity,
        line: usize,
        begun: NetworkBegun,
        own: Option<Expected>,
    ) -> Option<Fault>
        ensures fault { result ≡ network_fault capacity begun own self.old }
        ensures after { self.new ≡ after_network capacity line begun own self.old }
    {
        let fault = self.network_fault(capacity, begun, own);
        if fault.is_some() {
            self.above = WRONG_NETWORK;
        } else {
            self.add_network(line, begun, own);
        }
        fault
    }

    fn internal_fault(
        &self,
        capacity: Capacity,
        begun: InternalBegun,
        own: Option<Expected>,
    ) -> Option<Fault>
        ensures { result ≡ internal_fault capacity begun own self.now }
    {
        if self.internal.line > 0 {
            return Some(Fault::Once(self.internal.line));
        }
        if self.is_full(capacity) {
            return Some(Fault::ManyNetworks);
        }
        let other = number_fault(begun.number(), self.networks.listed());
        if other.is_some() {
            return other;
        }
        let routed = routed_fault(begun.number(), self.networks.listed());
        if routed.is_some() {
            return routed;
        }
        line_fault(own)
    }

    /// Takes the line of the router's own network, below which nothing stands.
    fn take_internal(
        &mut self,
        capacity: Capacity,
        line: usize,
        begun: InternalBegun,
        own: Option<Expected>,
    ) -> Option<Fault>
        ensures fault { result ≡ internal_fault capacity begun own self.old }
        ensures after { self.new ≡ after_internal capacity line begun own self.old }
    {
        let fault = self.internal_fault(capacity, begun, own);
        if fault.is_none() {
            self.internal = internal_said(line, begun);
        }
        self.above = NOTHING;
        fault
    }

    /// The network that a link here would be of.
    fn network_above(&self) -> Option<NetworkSetting>
        ensures { result ≡ network_above self.now }
    {
        if self.above == NOTHING {
            return None;
        }
        self.networks.last()
    }

    fn link_line_fault(
        &self,
        capacity: Capacity,
        begun: LinkBegun,
        own: Option<Expected>,
    ) -> Option<Fault>
        ensures { result ≡ link_line_fault capacity begun own self.now }
    {
        match self.network_above() {
            Some(network) => {
                if !network.is_of_several {
                    return Some(Fault::LinkBelow);
                }
                if is_only(begun) {
                    return Some(Fault::OnOwnLine);
                }
                if self.links.count.saturating_sub(network.first) >= capacity.links {
                    return Some(Fault::ManyLinksOfNetwork);
                }
                let number = self.networks.count.saturating_sub(1);
                more_links(number, begun, network.longest, &self.links, own)
            }
            None => Some(Fault::LinkBelow),
        }
    }

    /// A link more of the last network.
    fn add_link(&mut self, line: usize, begun: LinkBegun)
        ensures { self.new ≡ add_link line begun self.old }
    {
        let number = self.networks.count.saturating_sub(1);
        match self.networks.last() {
            Some(network) => {
                let mut linked = network;
                linked.has_link = true;
                self.networks.put_last(linked);
            }
            None => {}
        }
        match carrier_in(begun) {
            Some(carrier) => {
                self.links.put(new_link(line, number, carrier));
            }
            None => {}
        }
        self.above = LINK;
    }

    fn take_link(
        &mut self,
        capacity: Capacity,
        line: usize,
        begun: LinkBegun,
        own: Option<Expected>,
    ) -> Option<Fault>
        ensures fault { result ≡ (link_line capacity line begun own self.old).1 }
        ensures after { self.new ≡ (link_line capacity line begun own self.old).0 }
    {
        if self.above >= WRONG_NETWORK {
            return None;
        }
        let fault = self.link_line_fault(capacity, begun, own);
        if fault.is_some() {
            self.above = WRONG_LINK;
        } else {
            self.add_link(line, begun);
        }
        fault
    }

    /// Takes what a line says of the last network.
    pub(crate) fn take_of_network(
        &mut self,
        line: usize,
        text: &[u8],
        reading: Reading,
    ) -> Option<Fault>
        ensures fault { result ≡ (extended line text.now reading self.old).1 }
        ensures after { self.new ≡ (extended line text.now reading self.old).0 }
    {
        match self.networks.last() {
            Some(network) => {
                let (taken, fault) = network_taken(line, text, reading, network);
                self.networks.put_last(taken);
                fault
            }
            None => None,
        }
    }

    /// What was expected where a route leads to a network that has a line.
    fn route_clash(&self, begun: RouteBegun) -> Option<Fault>
        ensures { result ≡ route_clash begun self.now }
    {
        let other = number_fault(begun.network(), self.networks.listed());
        if other.is_some() {
            return other;
        }
        internal_clash(begun.network(), self.internal)
    }

    /// Takes the line of a route by way of a node on the last network.
    fn take_route(
        &mut self,
        line: usize,
        text: &[u8],
        reading: Reading,
        begun: RouteBegun,
    ) -> Option<Fault>
        ensures fault { result ≡ (routed line text.now reading begun self.old).1 }
        ensures after { self.new ≡ (routed line text.now reading begun self.old).0 }
    {
        let clash = self.route_clash(begun);
        if clash.is_some() {
            return clash;
        }
        self.take_of_network(line, text, reading)
    }

    /// Takes what a line says of the last link.
    pub(crate) fn take_of_link(
        &mut self,
        line: usize,
        text: &[u8],
        reading: Reading,
    ) -> Option<Fault>
        ensures fault { result ≡ (link_extended line text.now reading self.old).1 }
        ensures after { self.new ≡ (link_extended line text.now reading self.old).0 }
    {
        match self.links.last() {
            Some(link) => {
                let (taken, fault) = link_taken(line, text, reading, self.links.listed(), link);
                self.links.put_last(taken);
                fault
            }
            None => None,
        }
    }

    /// What was expected where no tunnel is above.
    fn tunnel_fault(&self) -> Fault
        ensures { result ≡ tunnel_fault self.now }
    {
        match self.networks.last() {
            Some(network) if network.is_of_several => Fault::BelowTunnelLink,
            _ => Fault::BelowTunnel,
        }
    }

    fn take_below_network(&mut self, line: usize, text: &[u8], reading: Reading) -> Option<Fault>
        ensures fault { result ≡ (below_network line text.now reading self.old).1 }
        ensures after { self.new ≡ (below_network line text.now reading self.old).0 }
    {
        match reading.line {
            Line::Extend(_) => self.take_of_network(line, text, reading),
            Line::Adopt(_) => self.take_of_network(line, text, reading),
            Line::Rule(_, _) => self.take_of_network(line, text, reading),
            Line::Route(begun) => self.take_route(line, text, reading, begun),
            Line::Service(_) => self.take_of_network(line, text, reading),
            Line::Rate(_) => Some(Fault::BelowLink),
            Line::Origins(_) => Some(Fault::BelowWeb),
            Line::Peer(_) => Some(Fault::BelowPeers),
            _ => Some(Fault::BelowTunnelLink),
        }
    }

    fn take_below_link(&mut self, line: usize, text: &[u8], reading: Reading) -> Option<Fault>
        ensures fault { result ≡ (below_link line text.now reading self.old).1 }
        ensures after { self.new ≡ (below_link line text.now reading self.old).0 }
    {
        match reading.line {
            Line::Extend(_) => self.take_of_network(line, text, reading),
            Line::Adopt(_) => self.take_of_network(line, text, reading),
            Line::Rule(_, _) => self.take_of_network(line, text, reading),
            Line::Route(begun) => self.take_route(line, text, reading, begun),
            Line::Service(_) => self.take_of_network(line, text, reading),
            Line::Rate(_) => self.take_of_link(line, text, reading),
            Line::Origins(_) => self.take_origins(line, text, reading),
            Line::Peer(begun) => self.take_peer(line, text, reading, begun),
            _ => {
                if self.is_below_tunnel() {
                    self.take_of_link(line, text, reading)
                } else {
                    Some(self.tunnel_fault())
                }
            }
        }
    }

    /// Takes a line that is neither a network's nor a link's.
    fn take_below(&mut self, line: usize, text: &[u8], reading: Reading) -> Option<Fault>
        ensures fault { result ≡ (taken_below line text.now reading self.old).1 }
        ensures after { self.new ≡ (taken_below line text.now reading self.old).0 }
    {
        match self.above {
            NOTHING => Some(Fault::BelowNetwork),
            NETWORK => self.take_below_network(line, text, reading),
            LINK => self.take_below_link(line, text, reading),
            _ => None,
        }
    }

    /// Takes what a line says.
    fn take(
        &mut self,
        capacity: Capacity,
        line: usize,
        text: &[u8],
        reading: Reading,
    ) -> Option<Fault>
        ensures fault { result ≡ (taken capacity line text.now reading self.old).1 }
        ensures after { self.new ≡ (taken capacity line text.now reading self.old).0 }
    {
        match reading.line {
            Line::Nothing => line_fault(reading.fault),
            Line::Network(begun) => self.take_network(capacity, line, begun, reading.fault),
            Line::Link(begun) => self.take_link(capacity, line, begun, reading.fault),
            Line::Internal(begun) => self.take_internal(capacity, line, begun, reading.fault),
            _ => self.take_below(line, text, reading),
        }
    }

    /// Reads the next line, whose number that is, from 1.
    pub fn line(&mut self, capacity: Capacity, line: usize, text: &[u8]) -> Told
        ensures told { result ≡ told capacity line text.now self.old }
        ensures after { self.new ≡ after capacity line text.now self.old }
    {
        let context = Context {
            cards: capacity.cards,
            is_below_tunnel: self.is_below_tunnel(),
            most_clients: capacity.clients,
        };
        let reading = Reading::of(text, context);
        let unlinked = match reading.line {
            Line::Network(_) => self.unlinked(),
            Line::Internal(_) => self.unlinked(),
            _ => None,
        };
        let fault = self.take(capacity, line, text, reading);
        Told {
            reading,
            unlinked,
            fault,
        }
    }
}
