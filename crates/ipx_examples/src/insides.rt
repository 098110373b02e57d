//! What packets hold.

use anyhow::Result;
use ipx_inside::{Inside, Ncp, function_name};
use ipx_wire::Packet;

/// What a packet holds.
pub fn inside(rt: &HostRuntime, packet: &Packet<'_>) -> Result<()> {
    let inside = Inside::read(&packet.header(), packet.payload());
    match inside {
        Inside::Ncp(Ncp::Request { function, sub, .. }) => {
            println!(rt; "asks for {}", function_name(function, sub))?
        }
        Inside::Cut(protocol) => println!(rt; "too short for {protocol:?}")?,
        _ => println!(rt; "{inside}")?,
    }
    // prints asks for Get File Server Information
    Ok(())
}
