//! A router: its ports, its events, what it sends, and what it knows.

use anyhow::Result;
use ipx_router::{Event, Outbox, Outcome, Port, PortFault, PortsFault, Router, Sent, Why};
use ipx_table::Held;
use ipx_wire::{Network, Node};

/// The routers of these examples.
type Small = Router<2, 50, 8>;

/// A port.
pub fn port(rt: &HostRuntime) -> Result<()> {
    let (network, node) = (Network(0x10), Node([0, 0, 0, 0, 0, 1]));
    match Port::new(network, node, 1, 1500) {
        Ok(port) => println!(rt; "up to {} bytes on {}", port.longest(), port.network())?,
        Err(PortFault::Network) => println!(rt; "no port may have this network")?,
        Err(fault) => println!(rt; "{fault}")?,
    }
    // prints up to 1500 bytes on 00000010
    Ok(())
}

/// Ports, and whether a router can have them.
pub fn ports_fault(rt: &HostRuntime, ports: &[Port]) -> Result<()> {
    match Router::<2, 50, 8>::check(ports) {
        Ok(()) => println!(rt; "a router can have these ports")?,
        Err(PortsFault::SameNetwork) => println!(rt; "a router joins two networks")?,
        Err(fault) => println!(rt; "{fault}")?,
    }
    // prints a router can have these ports
    Ok(())
}

/// A router that is started.
pub fn router(rt: &HostRuntime, ports: &[Port]) -> Result<()> {
    let mut router = Router::<2, 50, 8>::new(ports)?;
    let mut outbox = Outbox::new(rt.alloc());
    let outcome = router.step(Event::Start, &mut outbox)?;
    println!(rt; "{outcome}, with {} packets to send", outbox.len())?;
    // prints started, with 6 packets to send
    Ok(())
}

/// A router to which things happen.
pub fn event(
    rt: &HostRuntime,
    router: &mut Small,
    outbox: &mut Outbox,
    bytes: &[u8],
) -> Result<()> {
    router.step(Event::Start, outbox)?;
    if router.has_port(1) {
        let outcome = router.step(Event::Packet { port: 1, bytes }, outbox)?;
        println!(rt; "{outcome}")?;
    }
    router.step(Event::Second, outbox)?;
    // prints learned
    Ok(())
}

/// What a router sent, taken out.
pub fn outbox(rt: &HostRuntime, outbox: &mut Outbox) -> Result<()> {
    for Sent { port, link, bytes } in outbox.iter() {
        println!(rt; "port {port}, to {link}: {} bytes", bytes.len())?;
    }
    outbox.clear();
    // prints port 0, to FFFFFFFFFFFF: 40 bytes
    Ok(())
}

/// Room that is made before an event.
pub fn need(rt: &HostRuntime, router: &mut Small, outbox: &mut Outbox) -> Result<()> {
    outbox.reserve(router.need(&Event::Second))?;
    // From here on no memory is taken.
    let outcome = router.handle(Event::Second, outbox);
    println!(rt; "{outcome}")?;
    // prints ticked
    Ok(())
}

/// What became of an event.
pub fn why(rt: &HostRuntime, outcome: Outcome) -> Result<()> {
    match outcome {
        Outcome::Dropped(Why::NoRoute) => println!(rt; "nobody advertises that network")?,
        Outcome::Dropped(why) => println!(rt; "dropped: {why}")?,
        other => println!(rt; "{other}")?,
    }
    // prints dropped: DownPort
    Ok(())
}

/// The routes of a router.
pub fn route_offer(rt: &HostRuntime, router: &Small) -> Result<()> {
    for Held { offer: route, age } in router.iter_routes() {
        println!(rt; "{}: {} ticks, age {age}", route.network, route.ticks)?;
    }
    // prints 00000030: 2 ticks, age 2
    Ok(())
}

/// The services of a router.
pub fn service_offer(rt: &HostRuntime, router: &Small) -> Result<()> {
    for Held { offer, .. } in router.iter_services() {
        let service = offer.service;
        println!(rt; "{} at {}", service.name, service.address)?;
    }
    // prints ACCOUNTS at 00000030.0000000000CC.0451
    Ok(())
}
