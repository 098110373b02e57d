//! The envelope of a packet of the router's own: the port on which it leaves, from whom, and to whom.
ghost use Rattle.std.specs.Prelude.{◌≡◌, ◌<◌, length};
ghost use Rattle.ipx_router.specs.inside.Envelope.{routes_reply, routes_to_all, services_reply, services_to_all};

use crate::port::Port;
use crate::ports::addresses::{
    every_server, everyone, own_address, own_services, port_of, reply_to,
};
use ipx_wire::Address;

/// What stands on a packet of the router's own, whatever is in it. It is made once for all pages of a list.
#[derive(Clone, Copy)]
pub(crate) struct Envelope {
    /// The number of the port on which the packet leaves.
    pub port: u8,
    pub from: Address,
    pub to: Address,
}

impl Envelope {
    /// From the port's routing process to those of all nodes of its network.
    pub(crate) fn routes_to_all(ports: &[Port], number: u8) -> Envelope
        requires { number < length ports.now }
        ensures { result ≡ routes_to_all ports.now number }
    {
        let port = port_of(ports, number);
        Envelope {
            port: number,
            from: own_address(port),
            to: everyone(port),
        }
    }

    /// From the port's routing process to one that asked on the port.
    pub(crate) fn routes_reply(ports: &[Port], number: u8, source: Address) -> Envelope
        requires { number < length ports.now }
        ensures { result ≡ routes_reply ports.now number source }
    {
        let port = port_of(ports, number);
        Envelope {
            port: number,
            from: own_address(port),
            to: reply_to(port, source),
        }
    }

    /// From the port's service process to those of all nodes of its network.
    pub(crate) fn services_to_all(ports: &[Port], number: u8) -> Envelope
        requires { number < length ports.now }
        ensures { result ≡ services_to_all ports.now number }
    {
        let port = port_of(ports, number);
        Envelope {
            port: number,
            from: own_services(port),
            to: every_server(port),
        }
    }

    /// From the port's service process to one that asked on the port.
    pub(crate) fn services_reply(ports: &[Port], number: u8, source: Address) -> Envelope
        requires { number < length ports.now }
        ensures { result ≡ services_reply ports.now number source }
    {
        let port = port_of(ports, number);
        Envelope {
            port: number,
            from: own_services(port),
            to: reply_to(port, source),
        }
    }
}
