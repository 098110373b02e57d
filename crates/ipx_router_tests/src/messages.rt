//! The message of every fault of ports, and the words of every outcome and reason.
//!
//! What is wanted stands in a `match` for each enum, so a variant that is new doesn't compile before it has its text here.

use crate::same::same;
use ipx_router::{Outcome, PortFault, PortsFault, Why};
use ipx_wire::{PacketFault, RipFault, SapFault};
use std::alloc::Global;
use std::fmt::Display;
use std::process::Abort;
use std::test::Fail;

/// Fails the test unless `{}` writes this text.
fn says<R: Abort, T: Display + Drop>(
    rt: &R,
    alloc: Global,
    value: T,
    wanted: &str,
) -> Result<(), Fail> {
    let text = format!(in alloc; "{value}")?;
    same(rt, text.as_str(), wanted);
    Ok(())
}

fn port_message(fault: PortFault) -> &'static str {
    match fault {
        PortFault::Longest => "a longest packet under 576 bytes",
        PortFault::Cost => "no cost",
        PortFault::Network => "a network number that no port may have",
        PortFault::Node => "the broadcast as node",
    }
}

fn ports_message(fault: PortsFault) -> &'static str {
    match fault {
        PortsFault::NoPort => "no port",
        PortsFault::TooMany => "more ports than a router can have",
        PortsFault::SameNetwork => "two ports on one network",
    }
}

#[test]
fn says_why_there_is_no_router(rt: HostRuntime) -> Result<(), Fail> {
    for fault in [
        PortFault::Longest,
        PortFault::Cost,
        PortFault::Network,
        PortFault::Node,
    ] {
        says(&rt, rt.alloc(), fault, port_message(fault))?;
    }
    for fault in [
        PortsFault::NoPort,
        PortsFault::TooMany,
        PortsFault::SameNetwork,
    ] {
        says(&rt, rt.alloc(), fault, ports_message(fault))?;
    }
    Ok(())
}

fn outcome_words(outcome: Outcome) -> &'static str {
    match outcome {
        Outcome::Started => "started",
        Outcome::AlreadyRunning => "already running",
        Outcome::Stopped => "stopped",
        Outcome::Ticked => "ticked",
        Outcome::Learned => "learned",
        Outcome::Answered => "answered",
        Outcome::Forwarded => "forwarded",
        Outcome::Propagated => "propagated",
        Outcome::WentDown => "went down",
        Outcome::CameUp => "came up",
        Outcome::AlreadyDown => "already down",
        Outcome::AlreadyUp => "already up",
        Outcome::Local => "local",
        Outcome::Dropped(_) => "drop NoRoute",
    }
}

#[test]
fn names_each_outcome(rt: HostRuntime) -> Result<(), Fail> {
    for outcome in [
        Outcome::Started,
        Outcome::AlreadyRunning,
        Outcome::Stopped,
        Outcome::Ticked,
        Outcome::Learned,
        Outcome::Answered,
        Outcome::Forwarded,
        Outcome::Propagated,
        Outcome::WentDown,
        Outcome::CameUp,
        Outcome::AlreadyDown,
        Outcome::AlreadyUp,
        Outcome::Local,
        Outcome::Dropped(Why::NoRoute),
    ] {
        says(&rt, rt.alloc(), outcome, outcome_words(outcome))?;
    }
    Ok(())
}

fn packet_reason(fault: PacketFault) -> &'static str {
    match fault {
        PacketFault::Short => "Malformed:Short",
        PacketFault::LengthSmall => "Malformed:LengthSmall",
        PacketFault::LengthBeyond => "Malformed:LengthBeyond",
    }
}

fn rip_reason(fault: RipFault) -> &'static str {
    match fault {
        RipFault::Short => "BadRip:Short",
        RipFault::Operation(_) => "BadRip:Operation",
        RipFault::NoEntry => "BadRip:NoEntry",
        RipFault::TooMany => "BadRip:TooMany",
    }
}

fn sap_reason(fault: SapFault) -> &'static str {
    match fault {
        SapFault::Short => "BadSap:Short",
        SapFault::Operation(_) => "BadSap:Operation",
        SapFault::NoEntry => "BadSap:NoEntry",
        SapFault::TooMany => "BadSap:TooMany",
    }
}

fn reason(why: Why) -> &'static str {
    match why {
        Why::NotRunning => "NotRunning",
        Why::Malformed(fault) => packet_reason(fault),
        Why::OwnEcho => "OwnEcho",
        Why::BadSource => "BadSource",
        Why::CrossedShort => "CrossedShort",
        Why::CrossedFull => "CrossedFull",
        Why::CrossedSeen => "CrossedSeen",
        Why::Elsewhere => "Elsewhere",
        Why::OtherSocket => "OtherSocket",
        Why::NotNeighbour => "NotNeighbour",
        Why::BadRip(fault) => rip_reason(fault),
        Why::BadSap(fault) => sap_reason(fault),
        Why::NearestReply => "NearestReply",
        Why::TooManyRouters => "TooManyRouters",
        Why::FarSide => "FarSide",
        Why::NoRoute => "NoRoute",
        Why::TooLong => "TooLong",
        Why::DownPort => "DownPort",
    }
}

#[test]
fn names_each_reason_of_a_drop(rt: HostRuntime) -> Result<(), Fail> {
    for why in [
        Why::NotRunning,
        Why::Malformed(PacketFault::Short),
        Why::Malformed(PacketFault::LengthSmall),
        Why::Malformed(PacketFault::LengthBeyond),
        Why::OwnEcho,
        Why::BadSource,
        Why::CrossedShort,
        Why::CrossedFull,
        Why::CrossedSeen,
        Why::Elsewhere,
        Why::OtherSocket,
        Why::NotNeighbour,
        Why::BadRip(RipFault::Short),
        Why::BadRip(RipFault::Operation(0)),
        Why::BadRip(RipFault::NoEntry),
        Why::BadRip(RipFault::TooMany),
        Why::BadSap(SapFault::Short),
        Why::BadSap(SapFault::Operation(0)),
        Why::BadSap(SapFault::NoEntry),
        Why::BadSap(SapFault::TooMany),
        Why::NearestReply,
        Why::TooManyRouters,
        Why::FarSide,
        Why::NoRoute,
        Why::TooLong,
        Why::DownPort,
    ] {
        says(&rt, rt.alloc(), why, reason(why))?;
    }
    Ok(())
}
