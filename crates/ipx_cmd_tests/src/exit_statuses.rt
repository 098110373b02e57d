//! The exit status of each end of a run, and the fault of one whose memory is refused.

use crate::same::same;
use ipx_cmd::{Ended, RunFault, status};
use ipx_wire::OutOfMemory;
use std::alloc::AllocError;

#[test]
fn tells_each_end(rt: HostRuntime) {
    same(&rt, status(&Ok(Ended::Done)), 0);
    same(&rt, status(&Ok(Ended::BadInput)), 2);
    same(&rt, status(&Err(RunFault::Read)), 1);
    same(&rt, status(&Err(RunFault::Write)), 1);
    same(&rt, status(&Err(RunFault::Memory)), 3);
}

#[test]
fn tells_that_memory_was_missing(rt: HostRuntime) {
    same(&rt, RunFault::from(OutOfMemory), RunFault::Memory);
    same(&rt, RunFault::from(AllocError), RunFault::Memory);
}
