//! What all lines say of a link.
ghost use Rattle.std.specs.Prelude.{◌≡◌};
ghost use Rattle.std.specs.List.{list_any};
ghost use Rattle.ipx_configuration.specs.Configured.{is_tunnel_of, has_tunnel, shares_of, clients_or_usual, rate_or_usual, strangers_or_usual, configured_at, configured};

use crate::carrier::Carrier;
use crate::configuration::{Capacity, Configuration};
use crate::lines::{USUAL_HOUSEHOLD, USUAL_SHARE, rate_of};
use crate::peers::Peers;
use crate::rules::Rules;
use crate::said::{
    ClientsSaid, LinkSetting, NetworkSetting, NumberSaid, Origins, Ranges, RateSaid, Sockets,
};
use crate::statics::{StaticRoutes, StaticServices};

/// How many clients a network has where no line says it,
const USUAL_CLIENTS: u16 = 256;

/// how many packets a second each receives: a DOSBox reads some 1,000,
const USUAL_RATE: u32 = 800;

/// and how many datagrams a second go to strangers.
const USUAL_STRANGERS: u32 = 100;

/// The share of a table that is all of it.
const NO_LIMIT: u16 = 65535;

/// A link with its network, and what holds where no line says it.
///
/// See the example of [`Configuration`].
#[repr(C)]
#[derive(Clone, Copy)]
pub struct LinkConfigured {
    /// The number of the line that names the link,
    pub line: usize,
    /// and of its network's.
    pub network_line: usize,
    /// The number of its network among all of them, from 0: the router's port.
    pub port: usize,
    /// The network's own number.
    pub number: u32,
    /// Ticks.
    pub cost: u16,
    /// Bytes of the longest packet.
    pub longest: u16,
    /// Shares of the tables, or 65535 for all of them.
    pub routes: u16,
    pub services: u16,
    /// Links of the network stand in lines below its own.
    pub is_of_several: bool,
    /// The line says the gateway's node there.
    pub has_node: bool,
    pub node: [u8; 6],
    pub carrier: Carrier,
    /// The most clients, and the most of one address.
    pub clients: u16,
    pub of_address: u16,
    /// Packets a second that a client receives, or a link with frames of clients; 0 for any number. So it is with the next four.
    pub rate: u32,
    /// Those of a sender that says little.
    pub share: u32,
    /// Those that all clients of an address receive.
    pub household: u32,
    /// Datagrams a second for strangers.
    pub strangers: u32,
    /// Kilobits a second of the line to the clients.
    pub kilobits: u32,
    pub sockets: Sockets,
    pub allowed: Ranges,
    pub trusted: Ranges,
    pub origins: Origins,
    /// The nodes of clients may be their addresses.
    pub nodes_by_address: bool,
    /// What comes from the cable gets the network's number where it says none, and what routers carried there is held.
    pub adopts: bool,
    pub rules: Rules,
    /// Routes by way of nodes on the network that say nothing themselves,
    pub static_routes: StaticRoutes,
    /// and services.
    pub static_services: StaticServices,
    /// Other places of the network.
    pub peers: Peers,
}

fn is_tunnel_of(port: usize, link: LinkSetting) -> bool
    ensures { result ≡ is_tunnel_of port link }
{
    link.network == port && link.carrier.has_clients()
}

fn has_tunnel(port: usize, links: &[LinkSetting]) -> bool
    ensures { result ≡ has_tunnel port links.now }
{
    links.iter().any(|link| is_tunnel_of(port, *link))
}

/// The shares of a network in the router's tables. Where its line doesn't say them, clients of a tunnel can't fill a table.
fn shares_of(
    capacity: Capacity,
    network: NetworkSetting,
    port: usize,
    links: &[LinkSetting],
) -> (u16, u16)
    ensures { result ≡ shares_of capacity network port links.now }
{
    if network.has_shares {
        (network.routes, network.services)
    } else if has_tunnel(port, links) {
        (capacity.routes, capacity.services)
    } else {
        (NO_LIMIT, NO_LIMIT)
    }
}

fn clients_or_usual(said: ClientsSaid) -> ClientsSaid
    ensures { result ≡ clients_or_usual said }
{
    if said.line > 0 {
        return said;
    }
    ClientsSaid {
        line: 0,
        all: USUAL_CLIENTS,
        of_address: USUAL_CLIENTS,
    }
}

fn rate_or_usual(said: RateSaid) -> RateSaid
    ensures { result ≡ rate_or_usual said }
{
    if said.line > 0 {
        return said;
    }
    RateSaid {
        line: 0,
        rate: USUAL_RATE,
        share: USUAL_SHARE,
        household: USUAL_HOUSEHOLD * USUAL_RATE,
    }
}

fn strangers_or_usual(said: NumberSaid) -> u32
    ensures { result ≡ strangers_or_usual said }
{
    if said.line > 0 {
        said.number
    } else {
        USUAL_STRANGERS
    }
}

fn configured_at(
    link: LinkSetting,
    network: NetworkSetting,
    shares: (u16, u16),
    shared: RateSaid,
) -> LinkConfigured
    ensures { result ≡ configured_at link network shares shared }
{
    let clients = clients_or_usual(link.clients);
    let rate = rate_or_usual(shared);
    let node = network.node;
    LinkConfigured {
        line: link.line,
        network_line: network.line,
        port: link.network,
        number: network.number,
        cost: network.cost,
        longest: network.longest,
        routes: shares.0,
        services: shares.1,
        is_of_several: network.is_of_several,
        has_node: network.has_node,
        node,
        carrier: link.carrier,
        clients: clients.all,
        of_address: clients.of_address,
        rate: rate.rate,
        share: rate.share,
        household: rate_or_usual(link.rate).household,
        strangers: strangers_or_usual(link.strangers),
        kilobits: link.kilobits.number,
        sockets: network.sockets,
        allowed: link.allowed,
        trusted: link.trusted,
        origins: link.origins,
        nodes_by_address: link.nodes_line > 0,
        adopts: network.adopt_line == 0,
        rules: network.rules,
        static_routes: network.static_routes,
        static_services: network.static_services,
        peers: network.peers,
    }
}

impl Configuration {
    /// What all lines say of the link with that number, from 0.
    pub fn link(&self, capacity: Capacity, number: usize) -> Option<LinkConfigured>
        ensures { result ≡ configured capacity number self.now }
    {
        let links = self.links.listed();
        match links.get(number) {
            Some(link) => match self.networks.listed().get(link.network) {
                Some(network) => {
                    let shares = shares_of(capacity, *network, link.network, links);
                    Some(configured_at(*link, *network, shares, rate_of(*link, links)))
                }
                None => None,
            },
            None => None,
        }
    }
}
