//! The message of every fault of an internet and of a trace.
//!
//! What is wanted stands in a `match` for each enum, so a variant that is new doesn't compile before it has its text here.

use crate::same::same;
use ipx_internet::{InternetFault, TraceFault};
use std::alloc::Global;
use std::fmt::Display;
use std::process::Abort;
use std::test::Fail;

/// Fails the test unless `{}` writes this text.
fn says<R: Abort, T: Display + Drop>(
    rt: &R,
    alloc: Global,
    value: T,
    wanted: &str,
) -> Result<(), Fail> {
    let text = format!(in alloc; "{value}")?;
    same(rt, text.as_str(), wanted);
    Ok(())
}

fn internet_message(fault: InternetFault) -> &'static str {
    match fault {
        InternetFault::SameNode => "a port of another router has the same network and node",
        InternetFault::NoSuchPort => "no such router or port",
        InternetFault::Memory => "out of memory",
    }
}

fn trace_message(fault: TraceFault) -> &'static str {
    match fault {
        TraceFault::NoSuchPort => "no such router or port",
        TraceFault::Limit => "more receptions than the limit",
        TraceFault::Memory => "out of memory",
    }
}

#[test]
fn says_why_an_internet_refuses(rt: HostRuntime) -> Result<(), Fail> {
    for fault in [
        InternetFault::SameNode,
        InternetFault::NoSuchPort,
        InternetFault::Memory,
    ] {
        says(&rt, rt.alloc(), fault, internet_message(fault))?;
    }
    for fault in [
        TraceFault::NoSuchPort,
        TraceFault::Limit,
        TraceFault::Memory,
    ] {
        says(&rt, rt.alloc(), fault, trace_message(fault))?;
    }
    Ok(())
}
