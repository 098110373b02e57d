//! Lines of a configuration.

use anyhow::Result;
use ipx_configuration::{Capacity, Configuration, Fault};
use ipx_settings::{Cards, Context, Expected, Reading};

/// A line with a wrong word.
pub fn line(rt: &HostRuntime) -> Result<()> {
    let context = Context {
        cards: Cards::All,
        is_below_tunnel: false,
        most_clients: 4096,
    };
    let reading = Reading::of(b"network 10 1 1424 dosbox host:2130", context);
    let is_wrong = reading.fault == Some(Expected::Address);
    let read = reading.read;
    println!(rt; "word {read} is no address of a tunnel: {is_wrong}")?;
    // prints word 5 is no address of a tunnel: true
    Ok(())
}

/// Two lines that can't stand together.
pub fn configuration(rt: &HostRuntime) -> Result<()> {
    let capacity = Capacity {
        cards: Cards::All,
        networks: 32,
        links: 32,
        clients: 4096,
        routes: 64,
        services: 32,
    };
    let mut all = Configuration::new();
    let _ = all.line(capacity, 1, b"network 10 1 1424 dosbox 2130");
    let told = all.line(capacity, 2, b"network 20 1 1424 dosbox 2130");
    let is_taken = told.fault == Some(Fault::OtherPort(1));
    println!(rt; "line 1 has the port: {is_taken}")?;
    // prints line 1 has the port: true
    Ok(())
}
