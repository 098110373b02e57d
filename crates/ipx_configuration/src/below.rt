//! Lines that stand below some links alone.
ghost use Rattle.std.specs.Prelude.{◌≡◌, ◌-◌};
ghost use Rattle.std.specs.List.{position};
ghost use Rattle.ipx_configuration.specs.Configurations.{is_web, origins_below, is_with_places, peers_link, peer_clash, peered};
ghost use Rattle.ipx_configuration.specs.Memory.{last_link};

use crate::carrier::WEB;
use crate::configuration::Configuration;
use crate::fault::Fault;
use crate::peers::unlike;
use crate::said::LinkSetting;
use ipx_settings::{Place, Reading};

fn is_with_places(network: usize, link: LinkSetting) -> bool
    ensures { result ≡ is_with_places network link }
{
    link.network == network && link.carrier.is_with_peers()
}

fn number_of(network: usize, links: &[LinkSetting]) -> Option<usize>
    ensures { result ≡ position (is_with_places network) links.now }
{
    links.iter().position(|link| is_with_places(network, *link))
}

impl Configuration {
    /// Whether the last link is one of clients by WebSocket.
    fn is_web(&self) -> bool
        ensures { result ≡ is_web (last_link self.now.links) }
    {
        match self.links.last() {
            Some(link) => link.carrier.number == WEB,
            None => false,
        }
    }

    /// Takes the origins of pages whose programs are clients of the last link.
    pub(crate) fn take_origins(
        &mut self,
        line: usize,
        text: &[u8],
        reading: Reading,
    ) -> Option<Fault>
        ensures fault { result ≡ (origins_below line text.now reading self.old).1 }
        ensures after { self.new ≡ (origins_below line text.now reading self.old).0 }
    {
        if self.is_web() {
            self.take_of_link(line, text, reading)
        } else {
            Some(Fault::BelowWeb)
        }
    }

    /// The link of the last network that is with its other places.
    fn peers_link(&self) -> Option<LinkSetting>
        ensures { result ≡ peers_link self.now }
    {
        let links = self.links.listed();
        match number_of(self.networks.count.saturating_sub(1), links) {
            Some(number) => match links.get(number) {
                Some(link) => Some(*link),
                None => None,
            },
            None => None,
        }
    }

    /// What was expected where there is none, or it can't reach the place.
    fn peer_clash(&self, begun: Option<Place>) -> Option<Fault>
        ensures { result ≡ peer_clash begun self.now }
    {
        match self.peers_link() {
            Some(link) => match begun {
                Some(place) => unlike(link.carrier.local, place),
                None => None,
            },
            None => Some(Fault::BelowPeers),
        }
    }

    /// Takes the line of another place of the last network.
    pub(crate) fn take_peer(
        &mut self,
        line: usize,
        text: &[u8],
        reading: Reading,
        begun: Option<Place>,
    ) -> Option<Fault>
        ensures fault { result ≡ (peered line text.now reading begun self.old).1 }
        ensures after { self.new ≡ (peered line text.now reading begun self.old).0 }
    {
        let clash = self.peer_clash(begun);
        if clash.is_some() {
            return clash;
        }
        self.take_of_network(line, text, reading)
    }
}
