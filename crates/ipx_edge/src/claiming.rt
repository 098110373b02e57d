//! Another number for a cable.
ghost use Rattle.std.specs.Prelude.{◌≡◌};
ghost use Rattle.ipx_router.specs.Why.{is_far};
ghost use Rattle.ipx_edge.specs.Claimed.{is_for_routers, is_claim, claimed};

use crate::near::{is_local, is_propagated};
use ipx_router::Port;
use ipx_wire::{Header, Network, Node, Packet, Socket};

/// The number that a neighbour on the port's network claims for it, where that is another one than the port's.
///
/// Two routers on one cable that number it differently split it: neither hears the other, and each is reached only by those who have its
/// number. Say so to whoever looks after them. It is a claim where a packet from the cable is for all routers or servers of another
/// network, says that it comes from that network too, and no router carried it.
///
/// A router advertises its routes on network 60h, where `port` is on network 50h:
///
/// ```
/// if let Some(network) = claim(&port, &bytes) {
///     println!(rt; "a router claims {network} for this cable")?;
/// }
/// // prints a router claims 00000060 for this cable
/// ```
pub fn claim(port: &Port, bytes: &[u8]) -> Option<Network>
    ensures { result ≡ claimed port.now bytes.now }
{
    match Packet::read(bytes) {
        Ok(packet) => {
            let header = packet.header();
            if is_claim(port, header) {
                Some(header.source.network)
            } else {
                None
            }
        }
        Err(_) => None,
    }
}

fn is_claim(port: &Port, header: Header) -> bool
    ensures { result ≡ is_claim port.now header }
{
    is_far(port, header)
        && is_for_routers(header)
        && header.control == 0
        && header.source.network.0 == header.destination.network.0
}

fn is_far(port: &Port, header: Header) -> bool
    ensures { result ≡ is_far port.now header }
{
    !is_propagated(header) && !is_local(port, header.destination.network)
}

fn is_for_routers(header: Header) -> bool
    ensures { result ≡ is_for_routers header }
{
    let socket = header.destination.socket;
    header.destination.node == Node::BROADCAST && (socket == Socket::RIP || socket == Socket::SAP)
}
