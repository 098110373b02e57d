//! Limits.

use anyhow::Result;
use ipx_fair::{Meter, Receiver256};
use ipx_limits::{
    Address, Client, Decision, HouseholdLimits, Kind, Limits, Line, LineAddress, Link,
    NetworkSetting, Queues, Reader, StrangersLimits, told_on_links,
};

/// A client pings too much.
pub fn limits(rt: &HostRuntime, bytes: &[u8]) -> Result<()> {
    let setting = NetworkSetting {
        link: Link::Tunnel,
        rate: 800,
        share: 50,
        routes: 300,
        services: 100,
    };
    let Some(limits) = Limits::of(setting) else {
        return Ok(());
    };
    let (mut client, mut all) = (Client::default(), Meter::default());
    let first = limits.says(Kind::Ping, &mut client, &mut all);
    let second = limits.says(Kind::Ping, &mut client, &mut all);
    let third = limits.says(Kind::Ping, &mut client, &mut all);
    let both = first == Decision::Passes && second == Decision::Passes;
    println!(rt; "two pings pass: {both}")?;
    println!(rt; "a third is too much: {}", third == Decision::TooManyPings)?;
    // prints two pings pass: true
    // prints a third is too much: true
    handed(rt, &limits, bytes)?;
    received(rt, &limits)?;
    queues(rt)?;
    strangers(rt)?;
    line(rt)
}

/// Who begins to speak gets a queue of his own.
fn queues(rt: &HostRuntime) -> Result<()> {
    let mut queues = Queues::zeros();
    let first = queues.take(16, 255);
    let second = queues.take(16, 255);
    queues.give_back(first);
    println!(rt; "queues {first} and {second}")?;
    Ok(())
}

/// What routers tell, and an answer.
fn handed(rt: &HostRuntime, limits: &Limits, bytes: &[u8]) -> Result<()> {
    let (mut client, mut address) = (Client::default(), Address::default());
    let (mut handed, mut advertised) = (Meter::default(), Meter::default());
    let kind = Kind::of(bytes);
    let told = limits.hands(
        1,
        kind,
        &mut client,
        &mut address,
        &mut handed,
        &mut advertised,
    );
    let answered = limits.answers(2, &mut client, &mut address);
    let both = told == Decision::Passes && answered == Decision::Passes;
    println!(rt; "what a router tells is heard, and an answer goes: {both}")?;
    let paged = limits.router_answers(2, &mut client, &mut address);
    println!(rt; "the router's goes: {}", paged == Decision::Passes)?;
    client.pass(1_000);
    address.pass(1_000);
    let shared = limits.questions.of_clients(2);
    println!(rt; "two clients may ask each {} ns", shared.each)?;
    of_frames(rt, limits, kind)
}

/// What came in a frame.
fn of_frames(rt: &HostRuntime, limits: &Limits, kind: Kind) -> Result<()> {
    let (mut asked, mut told, mut all) = (Meter::default(), Meter::default(), Meter::default());
    let mut links = Receiver256::zeros();
    let made = links.make(told_on_links());
    let said = limits.frames_say(kind, &mut all);
    let handed = limits.frames_hand(2, kind, &mut asked, &mut told, &mut links);
    let both = said == Decision::Passes && handed == Decision::Passes;
    println!(rt; "of frames too: {both}; made: {made}")?;
    Ok(())
}

/// What a client of an address receives.
fn received(rt: &HostRuntime, limits: &Limits) -> Result<()> {
    let mut client = Reader::zeros();
    let packets = client.packets.make(limits.received.packets);
    let pieces = client.pieces.make(limits.received.pieces);
    println!(rt;
        "one of 100 bytes weighs {} ns, its pieces {}; made: {}",
        limits.received.of_packet(1),
        limits.received.of_pieces(100, 1),
        packets && pieces
    )?;
    let alone = limits.receives(&mut client, 20, 100);
    let link = limits.carries(&mut client, 21, 100, 2);
    limits.hears_router(&mut client, 0, 100);
    client.pass(1_000);
    println!(rt;
        "heard: {}; in two frames: {}",
        alone == Decision::Passes,
        link == Decision::Passes
    )?;
    at_address(rt, limits, &mut client)
}

/// The same where its address has a limit.
fn at_address(rt: &HostRuntime, limits: &Limits, client: &mut Reader) -> Result<()> {
    let Some(of_address) = HouseholdLimits::of(12_800) else {
        return Ok(());
    };
    let (mut address, mut among) = (Receiver256::zeros(), Meter::default());
    let refused = of_address.receives(limits, client, &mut address, 22, 100);
    let own = of_address.receives_of_own(limits, client, &mut among, 22, 100);
    let router = of_address.receives_of_router(limits, client, &mut address, 0, 100);
    let full = refused == Decision::TooMuchForAddress && router == Decision::TooMuchForAddress;
    println!(rt;
        "an address with no room refuses: {full}; of its own: {}",
        own == Decision::Passes
    )?;
    Ok(())
}

/// A registration is answered.
fn strangers(rt: &HostRuntime) -> Result<()> {
    let Some(limits) = StrangersLimits::of(100) else {
        return Ok(());
    };
    let (mut address, mut all) = (Meter::default(), Meter::default());
    let answered = limits.sends(2, &mut address, &mut all);
    println!(rt;
        "answered: {}, {} ns",
        answered == Decision::Passes,
        address.used
    )?;
    Ok(())
}

/// Copies by a narrow line.
fn line(rt: &HostRuntime) -> Result<()> {
    let mut line = Line::zeros();
    line.kilobits = 1000;
    let (mut from, mut to) = (LineAddress::zeros(), LineAddress::zeros());
    line.join(&mut to);
    let number = line.speak(&mut from);
    let (now, mut said) = (0, 0);
    let first = line.room(now, number, 1424, &mut said, &mut to);
    println!(rt; "a long packet goes out: {first:?}")?;
    line.used = 100_000_000;
    let router = line.room(now, 0, 1424, &mut said, &mut to);
    let short = line.room(now, number, 50, &mut said, &mut to);
    println!(rt; "the line is full: {router:?}, but a speaker's: {short:?}")?;
    // prints a long packet goes out: Some(Within)
    // prints the line is full: None, but a speaker's: Some(Within)
    Ok(())
}
