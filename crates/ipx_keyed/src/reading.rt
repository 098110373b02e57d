//! What a datagram says.
ghost use Rattle.std.specs.Prelude.{◌≡◌, if◌then◌else◌};
ghost use Rattle.ipx_keyed.specs.declared.said.Said.TheVariants.{Nothing, Registers};
ghost use Rattle.ipx_keyed.specs.Says.{names, said_by, said, node_in};

use crate::said::Said;
use crate::sender::Sender;
use ipx_tunnel::{is_from_here, is_to};
use ipx_wire::{Header, Network, Node, Packet};

/// The node that stands for none.
const NOBODY: Node = Node([0; 6]);

/// What a datagram says.
pub(crate) fn said(network: Network, from: Sender, bytes: &[u8]) -> Said
    ensures { result ≡ said network from bytes.now }
{
    match Packet::read(bytes) {
        Ok(packet) => said_by(network, from, packet.header()),
        Err(_) => Said::Nothing,
    }
}

fn said_by(network: Network, from: Sender, header: Header) -> Said
    ensures { result ≡ said_by network from header }
{
    if is_to(header, NOBODY) {
        return registration(from.may_register);
    }
    if !names(network, from, header) {
        Said::Nothing
    } else if is_to(header, from.cookies.current) || is_to(header, from.cookies.previous) {
        Said::Answers(header.source.node)
    } else {
        Said::Speaks(header)
    }
}

/// What a registration says of somebody who may register, or may not.
fn registration(may_register: bool) -> Said
    ensures { result ≡ (if may_register then Registers else Nothing) }
{
    if may_register {
        Said::Registers
    } else {
        Said::Nothing
    }
}

/// Whether a packet names as its source a node that its sender has or had, on this network.
fn names(network: Network, from: Sender, header: Header) -> bool
    ensures { result ≡ names network from header }
{
    let node = header.source.node;
    (node == from.node || node == from.former) && is_from_here(network, header.source.network)
}

/// The node that a datagram's sender names.
pub(crate) fn node_in(from: Sender, said: Said) -> Node
    ensures { result ≡ node_in from said }
{
    match said {
        Said::Nothing | Said::Registers => from.node,
        Said::Answers(node) => node,
        Said::Speaks(header) => header.source.node,
    }
}
