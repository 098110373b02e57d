//! What comes in from a cable.
ghost use Rattle.std.specs.Prelude.{◌≡◌, false, if◌then◌else◌, None, Some};
ghost use Rattle.ipx_edge.specs.Entered.{is_for_neighbours, is_from_afar, is_held, entered};

use crate::near::is_near;
use crate::numbering::number;
use ipx_router::Port;
use ipx_wire::{Header, Packet, Socket};

/// Whether a packet that came from the port's network comes in. If so, it is numbered, as by [`number`]. If not, because it [is
/// held](is_held), its bytes stay as they are.
///
/// A host advertises routes on a network that is not its own, by way of a router:
///
/// ```
/// let is_in = enter(&port, &mut bytes);
/// println!(rt; "it comes in: {is_in}")?;
/// // prints it comes in: false
/// ```
pub fn enter(port: &Port, bytes: &mut [u8]) -> bool
    ensures comes { (if result then Some bytes.new else None) ≡ entered port.now bytes.old }
    ensures held { result ≡ false → bytes.new ≡ bytes.old }
{
    if is_held(port, bytes) {
        return false;
    }
    number(port, bytes);
    true
}

/// Whether a packet that came from the port's network is kept from the router: it is for RIP's or SAP's socket on this network, so the
/// router would take it for a neighbour's word, and its transport control says that another router carried it there.
pub fn is_held(port: &Port, bytes: &[u8]) -> bool
    ensures { result ≡ is_held port.now bytes.now }
{
    match Packet::read(bytes) {
        Ok(packet) => is_from_afar(port, packet.header()),
        Err(_) => false,
    }
}

fn is_from_afar(port: &Port, header: Header) -> bool
    ensures { result ≡ is_from_afar port.now header }
{
    is_for_neighbours(port, header) && header.control != 0
}

fn is_for_neighbours(port: &Port, header: Header) -> bool
    ensures { result ≡ is_for_neighbours port.now header }
{
    let socket = header.destination.socket;
    is_near(port, header) && (socket == Socket::RIP || socket == Socket::SAP)
}
