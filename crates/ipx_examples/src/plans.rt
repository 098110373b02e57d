//! A gateway that reads another configuration.

use anyhow::Result;
use ipx_plan::{Carrier, Link, Plan, Tunnel};
use ipx_wire::Network;

/// A tunnel opens to everybody, and a card gets another network.
pub fn plan(rt: &HostRuntime) -> Result<()> {
    let tunnel = Link {
        network: Network(0x10),
        carrier: Carrier::Tunnel {
            port: 2130,
            address: 1,
        },
        is_first: true,
        ..Link::default()
    };
    let everywhere = Link {
        carrier: Carrier::Tunnel {
            port: 2130,
            address: 2,
        },
        ..tunnel
    };
    let card = Link {
        network: Network(0x20),
        carrier: Carrier::Card(1),
        is_first: true,
        ..Link::default()
    };
    let renumbered = Link {
        network: Network(0x30),
        ..card
    };
    let plan = Plan::<64>::new(&[tunnel, card], &[everywhere, renumbered]);
    for origin in plan.origins() {
        match origin.was {
            Some(number) => println!(rt; "this link continues old link {number}")?,
            None => println!(rt; "this link is added")?,
        }
        if let Tunnel::Again = origin.tunnel {
            println!(rt; "its clients are let in again")?;
        }
    }
    for fate in plan.fates() {
        println!(rt; "its cable is closed: {}", fate.is_closed)?;
    }
    println!(rt; "the router stays: {}", plan.keeps_router())?;
    // prints this link continues old link 0
    // prints its clients are let in again
    // prints this link is added
    // prints its cable is closed: true
    // prints its cable is closed: true
    // prints the router stays: false
    Ok(())
}
