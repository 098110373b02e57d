//! Which values make a port, and the fault that is told of others.

use crate::same::same;
use ipx_router::{Port, PortFault};
use ipx_wire::{Network, Node};

const NODE: Node = Node([0, 0, 0, 0, 0, 1]);

const DEFAULT_ROUTE: Network = Network(0xFFFF_FFFE);

/// All bytes FFh but the last.
const NEARLY_BROADCAST: Node = Node([0xFF, 0xFF, 0xFF, 0xFF, 0xFF, 0xFE]);

/// Network, node, cost and longest packet, and the fault that is told of them.
type Case = (Network, Node, u16, u16, Option<PortFault>);

fn cases() -> [Case; 9] {
    let good = Network(0x10);
    let (far, wide) = (DEFAULT_ROUTE, Node::BROADCAST);
    [
        (far, wide, 0, 575, Some(PortFault::Longest)),
        (far, wide, 0, 576, Some(PortFault::Cost)),
        (far, wide, 1, 576, Some(PortFault::Network)),
        (Network(0), NODE, 1, 576, Some(PortFault::Network)),
        (Network::ALL_ROUTES, NODE, 1, 576, Some(PortFault::Network)),
        (good, wide, 1, 576, Some(PortFault::Node)),
        (good, NODE, 1, 576, None),
        (Network(0xFFFF_FFFD), Node([0; 6]), 65535, 65535, None),
        (Network(1), NEARLY_BROADCAST, 65535, 65535, None),
    ]
}

#[test]
fn the_first_fault_of_a_port_is_told(rt: HostRuntime) {
    for (network, node, cost, longest, fault) in cases() {
        match Port::new(network, node, cost, longest) {
            Ok(port) => {
                same(&rt, (network, fault), (network, None));
                same(&rt, port.network(), network);
                same(&rt, port.node(), node);
                same(&rt, (port.cost(), port.longest()), (cost, longest));
            }
            Err(told) => same(&rt, (network, Some(told)), (network, fault)),
        }
    }
}
