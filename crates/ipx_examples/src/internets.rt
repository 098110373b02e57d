//! Several routers, and where a packet gets to.

use anyhow::Result;
use ipx_internet::{AddRefused, Internet, InternetFault, Settled, TraceFault, TraceRoom};
use ipx_router::{Event, Router};

/// The internets of these examples.
pub type Small = Internet<2, 50, 8>;

/// Two routers on a common network.
pub fn internet(rt: &HostRuntime, west: Router<2, 50, 8>, east: Router<2, 50, 8>) -> Result<()> {
    let mut internet = Internet::new(rt.alloc());
    let first = internet.add(west).map_err(|refused| refused.fault)?;
    let second = internet.add(east).map_err(|refused| refused.fault)?;
    internet.event(first, Event::Start)?;
    internet.event(second, Event::Start)?;
    println!(rt; "{} deliveries wait", internet.waiting())?;
    // prints 6 deliveries wait
    Ok(())
}

/// Deliveries, handed out.
pub fn settled(rt: &HostRuntime, internet: &mut Small) -> Result<()> {
    match internet.settle(100)? {
        Settled::Quiet => println!(rt; "all was delivered")?,
        Settled::Left(count) => println!(rt; "{count} deliveries wait still")?,
    }
    // prints all was delivered
    Ok(())
}

/// A router that is handed back.
pub fn add_refused(rt: &HostRuntime, internet: &mut Small, router: Router<2, 50, 8>) -> Result<()> {
    if let Err(AddRefused { router, fault }) = internet.add(router) {
        println!(rt; "{fault}; {} ports come back", router.ports())?;
    }
    // prints a port of another router has the same network and node; 2 ports come back
    Ok(())
}

/// An event of a router that there is not.
pub fn internet_fault(rt: &HostRuntime, internet: &mut Small) -> Result<()> {
    match internet.event(7, Event::Second) {
        Ok(outcome) => println!(rt; "{outcome}")?,
        Err(InternetFault::NoSuchPort) => println!(rt; "there is no router 7")?,
        Err(fault) => println!(rt; "{fault}")?,
    }
    // prints there is no router 7
    Ok(())
}

/// Where a packet gets to.
pub fn trace(rt: &HostRuntime, internet: &Small, bytes: &[u8]) -> Result<()> {
    match internet.trace(0, 0, bytes, 18) {
        Ok(trace) => {
            for it in trace.iter() {
                println!(rt; "router {}, port {}: {}", it.router, it.port, it.outcome)?;
            }
        }
        Err(TraceFault::Limit) => println!(rt; "over 18 receptions")?,
        Err(fault) => println!(rt; "{fault}")?,
    }
    // prints router 1, port 0: forwarded
    Ok(())
}

/// Traces in the same memory.
pub fn trace_room(rt: &HostRuntime, internet: &Small, bytes: &[u8]) -> Result<()> {
    let mut room = TraceRoom::new(rt.alloc());
    for port in 0..2 {
        let trace = internet.trace_in(&mut room, 0, port, bytes, 18)?;
        println!(rt; "from port {port}: {} receptions", trace.len())?;
        room.keep(trace);
    }
    // prints from port 0: 2 receptions
    // prints from port 1: 2 receptions
    Ok(())
}
