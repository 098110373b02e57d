//! Answers that nobody needs who has a server on his own cable.
ghost use Rattle.std.specs.Prelude.{◌≡◌, nat_le};
ghost use Rattle.std.specs.List.{list_all};
ghost use Rattle.ipx_wire.specs.Sap.{sap_of};
ghost use Rattle.ipx_edge.specs.Needless.{is_no_nearer, is_needless};

use crate::filtering::is_advertising;
use crate::rule::Way;
use ipx_router::Port;
use ipx_wire::{Packet, Sap, SapEntries};

/// Whether the router would answer a query for the nearest service with none that is nearer than this many hops.
///
/// On a cable with a server of its own the asker hears that server; an answer of the router's that names one elsewhere, if it comes first,
/// sends him through routers for nothing. Ask this of packets that go out on the port, with the hops of the nearest service of that type
/// that was heard there, as it is in the router's tables; it is 1 for a server that is on the cable itself.
///
/// The router answers with a server that is 4 hops away, and one on the cable is at 1:
///
/// ```
/// let is_left_out = is_needless(&port, 1, &bytes);
/// println!(rt; "the answer is left out: {is_left_out}")?;
/// // prints the answer is left out: true
/// ```
pub fn is_needless(port: &Port, hops: u16, bytes: &[u8]) -> bool
    ensures { result ≡ is_needless port.now hops bytes.now }
{
    match Packet::read(bytes) {
        Ok(packet) => {
            is_advertising(Way::Out, port, packet.header()) && is_no_nearer(hops, packet.payload())
        }
        Err(_) => false,
    }
}

fn is_no_nearer(hops: u16, payload: &[u8]) -> bool
    ensures { result ≡ is_no_nearer hops (sap_of payload.now) }
{
    match Sap::read(payload) {
        Ok(Sap::Response { nearest, entries }) => nearest && are_no_nearer(hops, &entries),
        _ => false,
    }
}

fn are_no_nearer(hops: u16, entries: &SapEntries<'_>) -> bool
    ensures { result ≡ list_all (λ e. nat_le hops e.hops) entries.now }
{
    for k in 0..entries.len() {
        if entries.entry(k).hops < hops {
            return false;
        }
    }
    true
}
