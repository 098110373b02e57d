//! What holds by the definitions alone: of all bytes, and of the constants.
ghost use Rattle.std.specs.Prelude.{◌≡◌, ◌↔◌, ℕ, ◌+◌, ◌-◌, ◌*◌, ◌^◌, ◌<◌, ◌≤◌, Bool, true, List, [], ◌∷◌, ◌++◌, length, map, take, drop, replicate, Some, None, Ok, Err};
ghost use Rattle.std.specs.List.{AllByRecursion};
ghost use Rattle.ipx_wire.specs.Address.{IsAddress};
ghost use Rattle.ipx_wire.specs.Header.{IsHeader, header_bytes};
ghost use Rattle.ipx_wire.specs.Numbers.{no_checksum, rip_type, sap_type, propagated_type, crossed_places, crossed_bytes, most_routers, rip_socket, sap_socket, local_network, default_route, all_routes, most_entries, most_services, every_service, unreachable, header_size, entry_size, service_size, node_size, all_ones};
ghost use Rattle.ipx_wire.specs.Forward.{forwarded, propagated};
ghost use Rattle.ipx_wire.specs.Write.{packet_bytes, rip_packet, rip_packet_parts, rip_payload, query_packet, query_packet_parts, query_payload};
ghost use Rattle.ipx_wire.specs.Piece.{IsBytes, piece};
ghost use Rattle.ipx_wire.specs.Packet.{Parts, IsPacket, IsNoPacket, packet_of};
ghost use Rattle.ipx_wire.specs.Rip.{RipParts, IsEntry, IsRip, IsNoRip, rip_of};
ghost use Rattle.ipx_wire.specs.Crossed.{IsNetwork, IsCrossed, IsNotCrossed, network_bytes, crossed_of};
ghost use Rattle.ipx_wire.specs.declared.crossed.CrossedFault.{CrossedFault};
ghost use Rattle.ipx_wire.specs.declared.packet.PacketFault.{PacketFault};
ghost use Rattle.ipx_wire.specs.declared.rip.RipFault.{RipFault};
ghost use Rattle.std.specs.Cmp.{IsTotalOrder};
ghost use Rattle.std.specs.declared.cmp.Ordering.TheVariants.{Less, Equal};
ghost use Rattle.ipx_wire.specs.Name.{IsName, IsNoName, IsServiceName, name_of, name_field, name_order as by_bytes, same_name};
ghost use Rattle.ipx_wire.specs.Sap.{IsSap, IsNoSap, sap_of};
ghost use Rattle.ipx_wire.specs.WriteServices.{IsService, entry_of, sap_payload, sap_packet, sap_packet_parts};
ghost use Rattle.ipx_wire.specs.declared.address.Address.{Address};
ghost use Rattle.ipx_wire.specs.declared.sap.Sap.{Sap};
ghost use Rattle.ipx_wire.specs.declared.sap.Sap.TheVariants.{Query, Response};
ghost use Rattle.ipx_wire.specs.declared.sap.SapFault.{SapFault};
ghost use Rattle.ipx_wire.specs.declared.service.Service.{Service};

use crate::address::Address;
use crate::crossed::Crossed;
use crate::header::Header;
use crate::network::Network;
use crate::node::Node;
use crate::rip::{Operation, RipEntry};
use crate::sap::Sap;
use crate::sap_entries::SapEntry;
use crate::service::Service;
use crate::service_name::ServiceName;
use crate::socket::Socket;

/// What the readers return, as functions of the bytes, is what the layouts say. A packet's own bytes are the first of
/// those that it was read from, as many as its length says.
pub fn readings()
    ensures packet_read { (bytes : List ℕ) (p : Parts) → IsBytes bytes → (packet_of bytes ≡ Ok p ↔ IsPacket bytes p) }
    ensures packet_refused { (bytes : List ℕ) (f : PacketFault) → (packet_of bytes ≡ Err f ↔ IsNoPacket bytes f) }
    ensures one_packet { (bytes : List ℕ) (p q : Parts) → IsPacket bytes p → IsPacket bytes q → p ≡ q }
    ensures packet_front { (bytes : List ℕ) (p : Parts) → IsPacket bytes p → packet_bytes p ≡ take p.header.length bytes }
    ensures rip_read { (payload : List ℕ) (r : RipParts) → IsBytes payload → (rip_of payload ≡ Ok r ↔ IsRip payload r) }
    ensures rip_refused { (payload : List ℕ) (f : RipFault) → (rip_of payload ≡ Err f ↔ IsNoRip payload f) }
    ensures one_rip { (payload : List ℕ) (r s : RipParts) → IsRip payload r → IsRip payload s → r ≡ s }
    ensures crossed_read { (control : ℕ) (payload : List ℕ) (networks : List Network) → IsBytes payload → (crossed_of control payload ≡ Ok networks ↔ IsCrossed control payload networks) }
    ensures crossed_refused { (control : ℕ) (payload : List ℕ) (f : CrossedFault) → (crossed_of control payload ≡ Err f ↔ IsNotCrossed control payload f) }
    ensures one_crossed { (control : ℕ) (payload : List ℕ) (ms ns : List Network) → IsCrossed control payload ms → IsCrossed control payload ns → ms ≡ ns }
{}

/// What was written is read again, whatever bytes follow; this follows from the layouts, with no reader in it.
///
/// A header by itself is a packet if its length is 30 or more, and as many bytes are there. Behind routes fewer than
/// eight further bytes may follow, behind services fewer than 64, behind a query any number. The networks that a
/// propagated packet has crossed are the old ones and the one from which it arrived, as long as the transport control
/// that was written is under 8.
pub fn reread()
    ensures header { (h : Header) (further : List ℕ) → IsHeader h → 30 ≤ h.length → h.length ≤ length (header_bytes h ++ further)
        → IsPacket (header_bytes h ++ further) (record { header = h; payload = take (h.length - 30) further }) }
    ensures packet { (p : Parts) (further : List ℕ) → IsHeader p.header → p.header.length ≡ 30 + length p.payload
        → IsPacket (packet_bytes p ++ further) p }
    ensures rip_packet { (from to : Address) (operation : Operation) (entries : List RipEntry) (further : List ℕ) → IsAddress from → IsAddress to
        → length entries ≤ most_entries → IsPacket (rip_packet from to operation entries ++ further) (rip_packet_parts from to operation entries) }
    ensures rip { (operation : Operation) (entries : List RipEntry) (further : List ℕ) → AllByRecursion IsEntry entries → 1 ≤ length entries → length entries ≤ most_entries
        → length further < 8 → IsRip (rip_payload operation entries ++ further) (record { operation = operation; entries = entries }) }
    ensures query_packet { (from to : Address) (nearest : Bool) (kind : ℕ) (further : List ℕ) → IsAddress from → IsAddress to
        → IsPacket (query_packet from to nearest kind ++ further) (query_packet_parts from to nearest kind) }
    ensures query { (nearest : Bool) (kind : ℕ) (further : List ℕ) → kind < 2 ^ 16
        → IsSap (query_payload nearest kind ++ further) (Query nearest kind) }
    ensures sap_packet { (from to : Address) (nearest : Bool) (services : List Service) (further : List ℕ) → IsAddress from → IsAddress to
        → length services ≤ most_services → AllByRecursion IsService services
        → IsPacket (sap_packet from to nearest services ++ further) (sap_packet_parts from to nearest services) }
    ensures sap { (nearest : Bool) (services : List Service) (further : List ℕ) → 1 ≤ length services → length services ≤ most_services → AllByRecursion IsService services
        → length further < 64 → IsSap (sap_payload nearest services ++ further) (Response nearest (map entry_of services)) }
    ensures forwarded { (bytes : List ℕ) (p : Parts) (further : List ℕ) → IsPacket bytes p → p.header.control < 255
        → IsPacket (packet_bytes (forwarded p) ++ further) (forwarded p) }
    ensures propagated { (bytes : List ℕ) (p : Parts) (arrived outgoing : Network) (further : List ℕ) → IsPacket bytes p → p.header.control < crossed_places → crossed_bytes ≤ length p.payload
        → IsNetwork outgoing → IsPacket (packet_bytes (propagated arrived outgoing p) ++ further) (propagated arrived outgoing p) }
    ensures crossed { (p : Parts) (networks : List Network) (arrived outgoing : Network) → IsCrossed p.header.control p.payload networks
        → (propagated arrived outgoing p).header.control < crossed_places → IsNetwork arrived
        → IsCrossed (propagated arrived outgoing p).header.control (propagated arrived outgoing p).payload (networks ++ arrived ∷ []) }
{}

/// How many bytes the writers write: 32 and 8 for each entry, 32 and 64 for each service, 34 for a query, and for a packet
/// sent on as many as its length counts.
pub fn sizes()
    ensures rip { (from to : Address) (operation : Operation) (entries : List RipEntry) → IsAddress from → IsAddress to
        → length (rip_packet from to operation entries) ≡ 32 + 8 * length entries }
    ensures sap { (from to : Address) (nearest : Bool) (services : List Service) → IsAddress from → IsAddress to → AllByRecursion IsService services
        → length (sap_packet from to nearest services) ≡ 32 + 64 * length services }
    ensures query { (from to : Address) (nearest : Bool) (kind : ℕ) → IsAddress from → IsAddress to
        → length (query_packet from to nearest kind) ≡ 34 }
    ensures forwarded { (bytes : List ℕ) (p : Parts) → IsPacket bytes p
        → length (packet_bytes (forwarded p)) ≡ p.header.length }
    ensures propagated { (bytes : List ℕ) (p : Parts) (arrived outgoing : Network) → IsPacket bytes p → p.header.control < crossed_places → crossed_bytes ≤ length p.payload
        → length (packet_bytes (propagated arrived outgoing p)) ≡ p.header.length }
{}

/// What is sent on, over the bytes that came: those that the length counts, but for a few places, counted from 0.
///
/// A forwarded packet has another byte 4, the transport control one higher. A propagated packet has others at 0 and 1, the
/// checksum FFFFh; at 4, the transport control one higher; at 6 to 9, the outgoing network; and, where its transport control
/// came as n, at 30 + 4 n to 33 + 4 n, the network from which it arrived.
pub fn sent_on()
    ensures forwarded { (bytes : List ℕ) (p : Parts) → IsPacket bytes p → p.header.control < 255
        → packet_bytes (forwarded p) ≡ take 4 bytes ++ (p.header.control + 1) ∷ drop 5 (take p.header.length bytes) }
    ensures propagated { (bytes : List ℕ) (p : Parts) (arrived outgoing : Network) → IsPacket bytes p → p.header.control < crossed_places → crossed_bytes ≤ length p.payload
        → packet_bytes (propagated arrived outgoing p) ≡ replicate 2 0xff ++ piece bytes 2 2 ++ (p.header.control + 1) ∷ piece bytes 5 1 ++ network_bytes outgoing
        ++ piece bytes 10 (20 + 4 * p.header.control) ++ network_bytes arrived ++ drop (34 + 4 * p.header.control) (take p.header.length bytes) }
{}

/// What the reader of service advertising returns, as a function of the bytes, is what the layout says.
pub fn service_readings()
    ensures sap_read { (payload : List ℕ) (s : Sap) → IsBytes payload → (sap_of payload ≡ Ok s ↔ IsSap payload s) }
    ensures sap_refused { (payload : List ℕ) (f : SapFault) → (sap_of payload ≡ Err f ↔ IsNoSap payload f) }
    ensures one_sap { (payload : List ℕ) (s t : Sap) → IsSap payload s → IsSap payload t → s ≡ t }
{}

/// The name of a field is the bytes before its first zero, and a name is read again from its field.
pub fn name_readings()
    ensures name_read { (field name : List ℕ) → length field ≡ 48 → (name_of field ≡ Some name ↔ IsName field name) }
    ensures nameless { (field : List ℕ) → length field ≡ 48 → (name_of field ≡ None ↔ IsNoName field) }
    ensures unnamed { (field : List ℕ) → length field ≡ 48 → (IsNoName field ↔ ((name : List ℕ) → IsName field name → ⊥)) }
    ensures one_name { (field a b : List ℕ) → IsName field a → IsName field b → a ≡ b }
    ensures name_again { (name : List ℕ) → IsServiceName name → name_of (name_field name) ≡ Some name }
{}

/// Names are in a total order by their bytes: the first byte that differs decides, a proper prefix is the smaller, and the
/// order agrees with equality.
pub fn name_order()
    ensures total { IsTotalOrder by_bytes }
    ensures equal { (a b : List ℕ) → (by_bytes a b ≡ Equal ↔ a ≡ b) }
    ensures same { (a b : List ℕ) → (same_name a b ≡ true ↔ a ≡ b) }
    ensures prefix { (a b : List ℕ) → 1 ≤ length b → by_bytes a (a ++ b) ≡ Less }
    ensures first { (front a b : List ℕ) (x y : ℕ) → x < y → by_bytes (front ++ x ∷ a) (front ++ y ∷ b) ≡ Less }
{}

/// The numbers that the constants stand for.
pub fn constants()
    ensures local { Network.LOCAL.0 ≡ local_network }
    ensures every_node { Node.BROADCAST.0 ≡ replicate node_size all_ones }
    ensures default_way { Network.DEFAULT_ROUTE.0 ≡ default_route }
    ensures every_route { Network.ALL_ROUTES.0 ≡ all_routes }
    ensures routing { Socket.RIP.0 ≡ rip_socket }
    ensures advertising { Socket.SAP.0 ≡ sap_socket }
    ensures routing_type { Header.RIP ≡ rip_type }
    ensures advertising_type { Header.SAP ≡ sap_type }
    ensures propagated_type { Header.PROPAGATED ≡ propagated_type }
    ensures no_checksum { Header.NO_CHECKSUM ≡ no_checksum }
    ensures most_routers { Header.MOST_ROUTERS ≡ most_routers }
    ensures header_size { Header.SIZE ≡ header_size }
    ensures crossed_places { Crossed.PLACES ≡ crossed_places }
    ensures entry_size { RipEntry.SIZE ≡ entry_size }
    ensures most_entries { RipEntry.MOST ≡ most_entries }
    ensures unreachable { RipEntry.UNREACHABLE ≡ unreachable }
    ensures name_size { ServiceName.SIZE ≡ 48 }
    ensures service_size { SapEntry.SIZE ≡ service_size }
    ensures most_services { SapEntry.MOST ≡ most_services }
    ensures every_service { Sap.EVERY_TYPE ≡ every_service }
{}

/// The services of a slice have fields in their ranges: their type says so, and a call of this tells a proof.
pub fn in_range(services: &[Service])
    ensures { AllByRecursion IsService services.now }
{
    for service in services {
        is_in_range(*service);
    }
}

pub(crate) fn is_in_range(service: Service)
    ensures { IsService service }
{
    service.name.bytes();
}
