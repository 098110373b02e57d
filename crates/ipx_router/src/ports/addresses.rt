//! The addresses of a port's processes, and of those on its network.
ghost use Rattle.std.specs.Prelude.{◌≡◌, ◌<◌, length};
ghost use Rattle.ipx_router.specs.Port.{port_at, own_address, everyone, own_services, every_server, reply_to};

use crate::port::Port;
use ipx_wire::{Address, Node, Socket};

/// The port of a number.
pub(crate) fn port_of(ports: &[Port], number: u8) -> Port
    requires { number < length ports.now }
    ensures { result ≡ port_at ports.now number }
{
    ports[usize::from(number)]
}

/// The port's routing process.
pub(crate) fn own_address(port: Port) -> Address
    ensures { result ≡ own_address port }
{
    Address {
        network: port.network(),
        node: port.node(),
        socket: Socket::RIP,
    }
}

/// The routing processes of all nodes of the port's network.
pub(crate) fn everyone(port: Port) -> Address
    ensures { result ≡ everyone port }
{
    Address {
        network: port.network(),
        node: Node::BROADCAST,
        socket: Socket::RIP,
    }
}

/// The port's service process.
pub(crate) fn own_services(port: Port) -> Address
    ensures { result ≡ own_services port }
{
    Address {
        socket: Socket::SAP,
        ..own_address(port)
    }
}

/// The service processes of all nodes of the port's network.
pub(crate) fn every_server(port: Port) -> Address
    ensures { result ≡ every_server port }
{
    Address {
        socket: Socket::SAP,
        ..everyone(port)
    }
}

/// Where an asker is answered: its node and socket, on the port's own network.
pub(crate) fn reply_to(port: Port, source: Address) -> Address
    ensures { result ≡ reply_to port source }
{
    Address {
        network: port.network(),
        ..source
    }
}
