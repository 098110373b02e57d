//! Two routers that share a network, for 49 minutes: then the tables in memory have the routes of the least ways.
//!
//! That is the contract of `become_right` (`src/right.rt`). Before it, `come_to_rest` (`src/rest.rt`) delivers what waits after the routers'
//! starts, until nothing waits. Their proofs rest on the public calls of `Internet` and on laws alone, so they show how to cite them.
//! What `become_right` asks for beyond that is seen by reading of this internet, and isn't proved here: it has two routers, each port costs
//! one tick, and a table has room for 50 routes. `src/cited.rt` cites more laws: over real
//! wires, beside other makers' routers, and behind edges.
#![tactic(auto)]

mod cited;
mod rest;
mod right;

use crate::cited::{behind_edges, beside_a_server, over_two_seconds, served_over_two_seconds};
use crate::rest::come_to_rest;
use crate::right::become_right;
use anyhow::Result;
use ipx_internet::Internet;
use ipx_router::{Event, Port, PortFault, Router};
use ipx_wire::{Network, Node};

/// More deliveries than one second of these routers causes.
const LIMIT: usize = 100;

fn main(rt: HostRuntime) -> Result<()> {
    over_two_seconds();
    served_over_two_seconds();
    beside_a_server();
    behind_edges();
    let west = Router::<2, 50, 8>::new(&[port(0x10, 1)?, port(0x20, 2)?])?;
    let east = Router::<2, 50, 8>::new(&[port(0x20, 3)?, port(0x30, 4)?])?;
    let mut internet = Internet::new(rt.alloc());
    let first = internet.add(west).map_err(|refused| refused.fault)?;
    let second = internet.add(east).map_err(|refused| refused.fault)?;
    internet.event(first, Event::Start)?;
    internet.event(second, Event::Start)?;
    come_to_rest(&mut internet)?;
    println!(rt; "right: {}", become_right(&mut internet, LIMIT)?)?;
    for router in internet.iter() {
        for route in router.iter_routes() {
            let offer = route.offer;
            println!(rt;
                "network {}: {} hops, {} ticks",
                offer.network, offer.hops, offer.ticks
            )?;
        }
    }
    Ok(())
}

/// A port on a network, as a node of this number, that costs one tick.
fn port(network: u32, node: u8) -> Result<Port, PortFault> {
    Port::new(Network(network), Node([0, 0, 0, 0, 0, node]), 1, 576)
}
