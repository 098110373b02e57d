//! What is for the network at hand, in the router's own words.
ghost use Rattle.std.specs.Prelude.{◌≡◌};
ghost use Rattle.ipx_router.specs.Port.{is_local};
ghost use Rattle.ipx_router.specs.Why.{is_propagated, is_near, is_own_echo};

use ipx_router::Port;
use ipx_wire::{Header, Network, Node};

/// Whether a packet is for the port's network, and no router propagates it.
pub(crate) fn is_near(port: &Port, header: Header) -> bool
    ensures { result ≡ is_near port.now header }
{
    !is_propagated(header) && is_local(port, header.destination.network)
}

pub(crate) fn is_propagated(header: Header) -> bool
    ensures { result ≡ is_propagated header }
{
    header.kind == Header::PROPAGATED && header.destination.node == Node::BROADCAST
}

pub(crate) fn is_local(port: &Port, network: Network) -> bool
    ensures { result ≡ is_local port.now network }
{
    network == Network::LOCAL || network == port.network()
}

/// Whether a packet's source is the port itself.
pub(crate) fn is_own(port: &Port, header: Header) -> bool
    ensures { result ≡ is_own_echo port.now header }
{
    header.source.node == port.node() && is_local(port, header.source.network)
}
