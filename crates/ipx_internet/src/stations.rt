//! Where the ports of a network are found: all ports of an internet by network, and on each by router and port.
ghost use Rattle.std.specs.Prelude.{◌≡◌, ◌≢◌, ◌↔◌, ℕ, ◌+◌, ◌<◌, ◌≤◌, ◌==◌, ◌-◌, true, false, [], ◌∷◌, ◌++◌, if◌then◌else◌, length, take, drop, slice_index_or, nat_le, OnOk};
ghost use Rattle.std.specs.List.{insert, list_any};
ghost use Rattle.std.specs.List.Sorted.{IsNonDecreasingBy, IsPartitionPoint};
ghost use Rattle.std.specs.Vec.{vec_len, vec_capacity};
ghost use Rattle.ipx_wire.specs.declared.network.Network.{Network as SomeNetwork};
ghost use Rattle.ipx_router.specs.Port.{same_node, port_at};
ghost use Rattle.ipx_router.specs.Stands.{State};
ghost use Rattle.ipx_internet.specs.Internet.{Internet};
ghost use Rattle.ipx_internet.specs.Moment.{SharesNode};
ghost use Rattle.ipx_internet.specs.Most.{most_on_network};
ghost use Rattle.ipx_internet.specs.inside.Stations.{stations_on, station, hears, AreOf};
ghost use Rattle.ipx_internet.specs.declared.stations.Station.{Station as SomeStation};

use ipx_router::{Port, Router};
use ipx_wire::{Network, Node, OutOfMemory};
use std::alloc::Global;
use std::marker::Model;

/// A port of an internet.
#[derive(Clone, Copy)]
pub(crate) struct Station {
    pub network: Network,
    pub node: Node,
    pub router: usize,
    pub port: u8,
}

impl Station {
    /// Whether it receives what a router sends to a node of its network.
    pub fn hears(&self, router: usize, link: Node) -> bool
        ensures { result ≡ hears router link self.now }
    {
        self.router != router && (link == self.node || link == Node::BROADCAST)
    }
}

/// The ports of an internet, by network, and on each network by router and port.
#[derive(Drop)]
pub(crate) struct Stations {
    list: Vec<Station>,
    /// The most that are on one network.
    most: usize,
}

impl Model for Stations {
    ghost use Rattle.std.specs.Prelude.{◌-◌};
    ghost use Rattle.std.specs.Vec.{vec_len, vec_capacity};
    ghost use Rattle.ipx_internet.specs.inside.Stations.{Index, IsIndex};

    ghost Value = { Index };

    ghost view = { λ s. record { list = s.list.items; most = s.most; places = vec_capacity s.list - vec_len s.list } };

    ghost invariant = { λ s. IsIndex s.list.items s.most };
}

impl Stations {
    pub fn new(alloc: Global) -> Stations
        ensures { result.list ≡ [] }
    {
        Stations {
            list: Vec::new(alloc),
            most: 0,
        }
    }

    /// Makes room for that many more.
    pub fn reserve(&mut self, more: usize) -> Result<(), OutOfMemory>
        ensures list { self.new.list ≡ self.old.list }
        ensures most { self.new.most ≡ self.old.most }
        ensures room { OnOk result (more ≤ self.new.places) }
    {
        self.list.reserve(more)?;
        Ok(())
    }

    /// The most stations that are on one network.
    pub fn most(&self) -> usize
        ensures value { result ≡ self.now.most }
        ensures most { (network : SomeNetwork) → length (stations_on self.now.list network) ≤ result }
        ensures exact { (net : Internet) → AreOf net self.now.list → result ≡ most_on_network net }
    {
        self.most
    }

    /// The stations on a network.
    pub fn on(&self, network: Network) -> &[Station]
        ensures stations { result.now ≡ stations_on self.now.list network }
        ensures few { length result.now ≤ self.now.most }
    {
        part(&self.list, network)
    }

    /// Whether a port of a router has network and node of a station.
    pub fn shares_node<const P: usize, const R: usize, const S: usize>(
        &self,
        router: &Router<P, R, S>,
    ) -> bool
        ensures { (net : Internet) → AreOf net self.now.list → (result ≡ true ↔ SharesNode net router.now.ports) }
    {
        ipx_router::laws::same_offers();
        for number in 0..router.ports() {
            if let Some(port) = router.port(number) {
                if self.has_node(port.network(), port.node()) {
                    return true;
                }
            }
        }
        false
    }

    /// Whether a station on that network has that node.
    fn has_node(&self, network: Network, node: Node) -> bool
        ensures { result ≡ list_any (λ s. same_node s.node node) (stations_on self.now.list network) }
    {
        self.on(network).iter().any(|s| s.node == node)
    }

    /// Adds the ports of a router, whose number is higher than those before.
    pub fn add<const P: usize, const R: usize, const S: usize>(
        &mut self,
        number: usize,
        router: &Router<P, R, S>,
    )
        requires { length router.now.ports ≤ self.old.places }
        ensures { (net : Internet) → AreOf net self.old.list → length net ≡ number → AreOf (net ++ router.now.ports ∷ []) self.new.list }
    {
        for k in 0..router.ports() {
            if let Some(port) = router.port(k) {
                self.put(Station {
                    network: port.network(),
                    node: port.node(),
                    router: number,
                    port: k as u8,
                });
            }
        }
    }

    /// Adds a station behind the others on its network.
    fn put(&mut self, station: Station)
        requires { 1 ≤ self.old.places }
        ensures others { (network : SomeNetwork) → stations_on self.new.list network
            ≡ (if station.network.0 == network.0 then stations_on self.old.list network ++ station ∷ [] else stations_on self.old.list network) }
        ensures places { self.old.places ≤ self.new.places + 1 }
    {
        let (_, place) = bounds(&self.list, station.network);
        insert_at(&mut self.list, place, station);
        let most = part(&self.list, station.network).len();
        self.most = self.most.max(most);
    }
}

/// The network of a port; network 0, which is no port's, where there is no such port.
pub(crate) fn network_of<const P: usize, const R: usize, const S: usize>(
    router: &Router<P, R, S>,
    port: u8,
) -> Network
    ensures { result ≡ (port_at router.now.ports port).network }
{
    match router.port(usize::from(port)) {
        Some(port) => port.network(),
        None => Network::LOCAL,
    }
}

/// The stations on a network, of some that stand by network.
fn part(list: &[Station], network: Network) -> &[Station]
    requires { IsNonDecreasingBy (λ s. s.network.0) list.now }
    ensures { result.now ≡ stations_on list.now network }
{
    let (first, end) = bounds(list, network);
    &list[first..end]
}

/// Where the stations on a network begin and where they end, of some that stand by network.
fn bounds(list: &[Station], network: Network) -> (usize, usize)
    requires { IsNonDecreasingBy (λ s. s.network.0) list.now }
    ensures order { result.0 ≤ result.1 }
    ensures within { result.1 ≤ length list.now }
    ensures part { take (result.1 - result.0) (drop result.0 list.now) ≡ stations_on list.now network }
    ensures point { IsPartitionPoint (λ s. nat_le s.network.0 network.0 ≡ true) (λ s. nat_le s.network.0 network.0 ≡ false) list.now result.1 }
{
    let first = list.partition_point(|s| s.network < network);
    (first, end_from(list, first, network))
}

/// Where the stations on a network end, from a place on. Mostly they are few, so they are passed one by one.
fn end_from(list: &[Station], first: usize, network: Network) -> usize
    requires { first ≤ length list.now }
    ensures from { first ≤ result }
    ensures within { result ≤ length list.now }
    ensures on { (k : ℕ) (d : SomeStation) → first ≤ k → k < result → (slice_index_or list.now k d).network.0 ≡ network.0 }
    ensures other { (d : SomeStation) → result < length list.now → (slice_index_or list.now result d).network.0 ≢ network.0 }
{
    let mut end = first;
    while end < list.len() && list[end].network == network {
        end += 1;
    }
    end
}

/// Inserts a station at a place, into the room that is there.
fn insert_at(list: &mut Vec<Station>, place: usize, station: Station)
    requires within { place ≤ vec_len list.old }
    requires room { vec_len list.old < vec_capacity list.old }
    ensures items { list.new.items ≡ insert list.old.items place station }
    ensures len { vec_len list.new ≡ vec_len list.old + 1 }
    ensures capacity { vec_capacity list.old ≤ vec_capacity list.new }
{
    list.insert(place, station).unwrap();
}
