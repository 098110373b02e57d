//! Routes and services by way of a neighbour that says nothing itself.
ghost use Rattle.std.specs.Prelude.{◌≡◌, ◌+◌, ◌*◌, ◌≤◌, ◌++◌, false, map, length, take, drop, Ok};
ghost use Rattle.std.specs.List.{AllByRecursion};
ghost use Rattle.ipx_wire.specs.Numbers.{most_entries, most_services};
ghost use Rattle.ipx_wire.specs.Packet.{packet_of};
ghost use Rattle.ipx_wire.specs.Rip.{IsEntry, rip_of};
ghost use Rattle.ipx_wire.specs.Sap.{sap_of};
ghost use Rattle.ipx_wire.specs.Write.{packet_bytes};
ghost use Rattle.ipx_wire.specs.WriteServices.{entry_of};
ghost use Rattle.ipx_wire.specs.declared.rip.Operation.TheVariants.{Response as RipResponse};
ghost use Rattle.ipx_wire.specs.declared.sap.Sap.TheVariants.{Response};
ghost use Rattle.ipx_router.specs.Port.{everyone, every_server};
ghost use Rattle.ipx_edge.specs.Statics.{neighbour_at, static_routes, static_services};

use ipx_router::Port;
use ipx_wire::laws::{in_range, readings, reread, service_readings};
use ipx_wire::{Address, Node, Operation, RipEntry, Service, Socket, write_rip, write_sap};

/// Writes a response of 1 to 50 routes in the name of a node on the port's network, as if that node had sent it to all routers there, to
/// the beginning of `out`, and returns its number of bytes: 32, and 8 for each route. `out` has room for as many.
///
/// Such a route is static: to a router behind which there are networks, but which speaks no RIP. Hand the bytes to the router each minute
/// as a packet that came on the port; it then sends what is for those networks to the node, and advertises them. To withdraw a route,
/// write it once more with 16 hops.
///
/// Network 30h is behind node AAh, where `port` is on network 50h:
///
/// ```
/// let route = RipEntry {
///     network: Network(0x30),
///     hops: 1,
///     ticks: 2,
/// };
/// let mut out = [0; 40];
/// let size = write_static_routes(&port, node, &[route], &mut out);
/// if let Ok(packet) = Packet::read(&out[..size]) {
///     println!(rt; "{size} bytes from {}", packet.header().source)?;
/// }
/// // prints 40 bytes from 00000050.0000000000AA.0453
/// ```
pub fn write_static_routes(port: &Port, node: Node, entries: &[RipEntry], out: &mut [u8]) -> usize
    requires some { 1 ≤ length entries.now }
    requires most { length entries.now ≤ most_entries }
    requires room { 32 + 8 * length entries.now ≤ length out.old }
    ensures count { result ≡ 32 + 8 * length entries.now }
    ensures bytes { out.new ≡ packet_bytes (static_routes port.now node entries.now) ++ drop (32 + 8 * length entries.now) out.old }
    // It is read as that packet, and as those routes.
    ensures packet { packet_of (take result out.new) ≡ Ok (static_routes port.now node entries.now) }
    ensures routes { rip_of (static_routes port.now node entries.now).payload ≡ Ok (record { operation = RipResponse; entries = entries.now }) }
{
    readings();
    reread();
    are_entries(entries);
    let from = neighbour_at(port, node, Socket::RIP);
    write_rip(
        from,
        all_at(port, Socket::RIP),
        Operation::Response,
        entries,
        out,
    )
}

/// Writes a general response of 1 to 7 services in the name of a node on the port's network, as if that node had sent it to all servers and
/// routers there, to the beginning of `out`, and returns its number of bytes: 32, and 64 for each service. `out` has room for as many.
///
/// Such a service is static. Hand the bytes to the router each minute, as for a static route; the router must know a route to the service's
/// network.
pub fn write_static_services(port: &Port, node: Node, services: &[Service], out: &mut [u8]) -> usize
    requires some { 1 ≤ length services.now }
    requires most { length services.now ≤ most_services }
    requires room { 32 + 64 * length services.now ≤ length out.old }
    ensures count { result ≡ 32 + 64 * length services.now }
    ensures bytes { out.new ≡ packet_bytes (static_services port.now node services.now) ++ drop (32 + 64 * length services.now) out.old }
    // It is read as that packet, and as those services.
    ensures packet { packet_of (take result out.new) ≡ Ok (static_services port.now node services.now) }
    ensures services { sap_of (static_services port.now node services.now).payload ≡ Ok (Response false (map entry_of services.now)) }
{
    readings();
    service_readings();
    in_range(services);
    let from = neighbour_at(port, node, Socket::SAP);
    write_sap(from, all_at(port, Socket::SAP), false, services, out)
}

/// Routes have fields in their ranges: their type says so, and a call of this tells a proof.
fn are_entries(entries: &[RipEntry])
    ensures { AllByRecursion IsEntry entries.now }
{
    for entry in entries {
        is_entry(*entry);
    }
}

fn is_entry(entry: RipEntry)
    ensures { IsEntry entry }
{}

fn neighbour_at(port: &Port, node: Node, socket: Socket) -> Address
    ensures { result ≡ neighbour_at port.now node socket.0 }
{
    Address {
        network: port.network(),
        node,
        socket,
    }
}

/// All nodes of the port's network.
fn all_at(port: &Port, socket: Socket) -> Address
    ensures { result ≡ record (everyone port.now) { socket = socket } }
{
    Address {
        network: port.network(),
        node: Node::BROADCAST,
        socket,
    }
}
