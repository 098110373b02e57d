//! The message of every fault of a run and of its words.
//!
//! What is wanted stands in a `match` for each enum, so a variant that is new doesn't compile before it has its text here.

use crate::same::same;
use ipx_cmd::{ChooseFault, RunFault};
use std::alloc::Global;
use std::fmt::Display;
use std::process::Abort;
use std::test::Fail;

/// Fails the test unless `{}` writes this text.
fn says<R: Abort, T: Display + Drop>(
    rt: &R,
    alloc: Global,
    value: T,
    wanted: &str,
) -> Result<(), Fail> {
    let text = format!(in alloc; "{value}")?;
    same(rt, text.as_str(), wanted);
    Ok(())
}

fn run_message(fault: RunFault) -> &'static str {
    match fault {
        RunFault::Read => "read",
        RunFault::Write => "write",
        RunFault::Memory => "memory",
    }
}

fn choose_message(fault: ChooseFault) -> &'static str {
    match fault {
        ChooseFault::Usage => "usage",
        ChooseFault::Memory => "memory",
    }
}

#[test]
fn says_why_a_run_fails(rt: HostRuntime) -> Result<(), Fail> {
    for fault in [RunFault::Read, RunFault::Write, RunFault::Memory] {
        says(&rt, rt.alloc(), fault, run_message(fault))?;
    }
    for fault in [ChooseFault::Usage, ChooseFault::Memory] {
        says(&rt, rt.alloc(), fault, choose_message(fault))?;
    }
    Ok(())
}
