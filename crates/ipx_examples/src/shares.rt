//! Receivers and meters.

use anyhow::Result;
use ipx_fair::{Meter, Receiver, Receiver256, Setting};

/// Somebody floods, and a player is heard.
pub fn receivers(rt: &HostRuntime) -> Result<()> {
    let setting = Setting {
        one: 1_000_000,
        own: 2_000_000,
        reserve: 4_000_000,
        room: 6_000_000,
    };
    let Some(mut receiver) = Receiver::<8>::new(setting) else {
        return Ok(());
    };
    let (player, flood) = (0, 1);
    let first = receiver.says(flood, 3_000_000);
    let second = receiver.says(flood, 3_000_000);
    let quiet = receiver.says(player, 1_000_000);
    println!(rt; "the flood is heard: {first}, then {second}; the player: {quiet}")?;
    receiver.pass(2_000_000);
    println!(rt; "{} ns of the flood wait", receiver.queue(flood))?;
    println!(rt; "{} ns of the player wait", receiver.queue(player))?;
    // prints the flood is heard: true, then false; the player: true
    // prints 2000000 ns of the flood wait
    // prints 0 ns of the player wait
    in_memory(rt, setting)
}

/// A receiver as C holds it.
fn in_memory(rt: &HostRuntime, setting: Setting) -> Result<()> {
    let mut receiver = Receiver256::zeros();
    let before = receiver.says(255, 1);
    let made = receiver.make(setting);
    let after = receiver.says(255, 1);
    println!(rt; "heard before: {before}; made: {made}; heard: {after}")?;
    receiver.pass(1);
    // prints heard before: false; made: true; heard: true
    Ok(())
}

/// A limit, and two at once.
pub fn meters(rt: &HostRuntime) -> Result<()> {
    let (burst, weight) = (3_000_000, 2_000_000);
    let mut meter = Meter::default();
    let first = meter.lets(burst, weight);
    let second = meter.lets(burst, weight);
    meter.pass(1_000_000);
    let third = meter.lets(burst, weight);
    println!(rt; "{first}, {second}, a millisecond later {third}")?;
    let mut other = Meter::default();
    let both = meter.both_let(burst, weight, &mut other, burst, weight);
    println!(rt; "both: {both}, so {} ns of the other are used", other.used)?;
    // prints true, false, a millisecond later true
    // prints both: false, so 0 ns of the other are used
    Ok(())
}
