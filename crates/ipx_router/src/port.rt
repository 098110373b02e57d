//! A port of a router, and the values of which none is made.
ghost use Rattle.std.specs.Prelude.{◌≡◌, IfOk, IfErr};
ghost use Rattle.ipx_wire.specs.Piece.{IsBytes};

use ipx_wire::{Network, Node};
use std::marker::Model;
use thiserror::Error;

/// Why values don't make a port: the first that applies.
///
/// See the example of [`Port`].
#[derive(Clone, Copy, Debug, PartialEq, Eq, Hash, Error)]
pub enum PortFault {
    /// The longest packet is under 576 bytes.
    #[error("a longest packet under 576 bytes")]
    Longest,
    /// The cost is 0 ticks.
    #[error("no cost")]
    Cost,
    /// The network is 0, FFFFFFFEh or FFFFFFFFh.
    #[error("a network number that no port may have")]
    Network,
    /// The node is the broadcast.
    #[error("the broadcast as node")]
    Node,
}

/// A port of a router: the network on which it stands, its node there, its cost, and its limits.
///
/// ```
/// let (network, node) = (Network(0x10), Node([0, 0, 0, 0, 0, 1]));
/// match Port::new(network, node, 1, 1500) {
///     Ok(port) => println!(rt; "up to {} bytes on {}", port.longest(), port.network())?,
///     Err(PortFault::Network) => println!(rt; "no port may have this network")?,
///     Err(fault) => println!(rt; "{fault}")?,
/// }
/// // prints up to 1500 bytes on 00000010
/// ```
#[derive(Clone, Copy, Debug, PartialEq, Eq, Hash)]
pub struct Port {
    network: Network,
    node: Node,
    cost: u16,
    longest: u16,
    route_share: u16,
    service_share: u16,
}

impl Model for Port {
    ghost use Rattle.ipx_router.specs.Port.{Port, IsPort};

    ghost Value = { Port };

    ghost view = { λ p. record { network = p.network; node = p.node; cost = p.cost; longest = p.longest; route_share = p.route_share; service_share = p.service_share } };

    ghost invariant = { λ p. IsPort (record { network = p.network; node = p.node; cost = p.cost; longest = p.longest; route_share = p.route_share; service_share = p.service_share }) };

    ghost inverse = { λ p. record { network = p.network; node = p.node; cost = p.cost; longest = p.longest; route_share = p.route_share; service_share = p.service_share } };
}

/// Some port, for places that are not in use: node 0 of network 1 here. Its values are nobody's promise.
impl Default for Port {
    fn default() -> Port {
        Port {
            network: Network(1),
            node: Node([0; 6]),
            cost: 1,
            longest: Port::LEAST_LONGEST,
            route_share: u16::MAX,
            service_share: u16::MAX,
        }
    }
}

impl Port {
    ghost use Rattle.ipx_router.specs.Numbers.{whole_share};
    ghost use Rattle.ipx_router.specs.Port.{IsNoPort, IsPort};

    /// The smallest length, in bytes, that a port's longest packet may have.
    pub const LEAST_LONGEST: u16 = 576;

    /// A port of a network with a node number there, its cost in ticks, and the bytes of the
    /// longest packet that may leave on it. Its shares limit nothing.
    pub fn new(network: Network, node: Node, cost: u16, longest: u16) -> Result<Port, PortFault>
        ensures value { IfOk result (λ p. p ≡ record { network = network; node = node; cost = cost; longest = longest; route_share = whole_share; service_share = whole_share }) }
        ensures fit { IfOk result IsPort }
        ensures refused { IfErr result (IsNoPort network node cost longest) }
    {
        if longest < Port::LEAST_LONGEST {
            return Err(PortFault::Longest);
        }
        if cost == 0 {
            return Err(PortFault::Cost);
        }
        if network == Network::LOCAL || network.0 >= Network::DEFAULT_ROUTE.0 {
            return Err(PortFault::Network);
        }
        if node == Node::BROADCAST {
            return Err(PortFault::Node);
        }
        proves_bytes(&node.0);
        Ok(Port {
            network,
            node,
            cost,
            longest,
            route_share: u16::MAX,
            service_share: u16::MAX,
        })
    }

    /// The same port with shares of the tables: how many of the routes and of the services that are held may have come
    /// by it.
    pub fn with_shares(self, routes: u16, services: u16) -> Port
        ensures { result ≡ record self { route_share = routes; service_share = services } }
    {
        Port {
            route_share: routes,
            service_share: services,
            ..self
        }
    }

    /// Its values are a port's: its type says so, and a call of this says it to a proof.
    pub(crate) fn proves_port(&self)
        ensures { IsPort self.now }
    {
        let _ = &self.network;
    }

    pub fn network(&self) -> Network
        ensures { result ≡ self.now.network }
    {
        self.network
    }

    pub fn node(&self) -> Node
        ensures { result ≡ self.now.node }
    {
        self.node
    }

    /// The ticks that a packet takes to cross the port's network.
    pub fn cost(&self) -> u16
        ensures { result ≡ self.now.cost }
    {
        self.cost
    }

    /// The bytes of the longest packet that may leave on it.
    pub fn longest(&self) -> u16
        ensures { result ≡ self.now.longest }
    {
        self.longest
    }

    /// How many of the routes that are held may have come by it.
    pub fn route_share(&self) -> u16
        ensures { result ≡ self.now.route_share }
    {
        self.route_share
    }

    /// How many of the services that are held may have come by it.
    pub fn service_share(&self) -> u16
        ensures { result ≡ self.now.service_share }
    {
        self.service_share
    }
}

/// What a slice of bytes holds are bytes: its type says so, and a call of this says it to a proof.
pub(crate) fn proves_bytes(bytes: &[u8])
    ensures { IsBytes bytes.now }
{}
