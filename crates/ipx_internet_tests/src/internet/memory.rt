//! Memory that is refused to an internet: the same call, made again, does what it would have done.

use crate::internet::{FAR, Small, between, first_route, joined, line, looped, row};
use crate::same::same;
use ipx_internet::{InternetFault, Settled, Trace, TraceFault, TraceRoom};
use ipx_router::{Event, Outcome, Router, Why};
use std::test::Fail;

/// Adds a router. Where memory is refused, the internet has to be as it was, and the router that is handed back is added.
pub fn added(internet: &mut Small, router: Router<2, 50, 8>) -> Result<usize, Fail> {
    let before = (internet.len(), internet.waiting());
    let router = match internet.add(router) {
        Ok(number) => return Ok(number),
        Err(refused) if refused.fault == InternetFault::Memory => refused.router,
        Err(refused) => return Err(Fail::from(refused.fault)),
    };
    if (internet.len(), internet.waiting()) != before {
        return Err(Fail::new("a refusal changed something"));
    }
    match internet.add(router) {
        Ok(number) => Ok(number),
        Err(refused) => Err(Fail::from(refused.fault)),
    }
}

/// Gives a router an event. Where memory is refused, nothing may wait that didn't before, and the event is given again.
pub fn happened(internet: &mut Small, number: usize, event: Event<'_>) -> Result<Outcome, Fail> {
    let before = internet.waiting();
    match internet.event(number, event) {
        Err(InternetFault::Memory) => {}
        answer => return Ok(answer?),
    }
    if internet.waiting() != before {
        return Err(Fail::new("a refusal changed something"));
    }
    Ok(internet.event(number, event)?)
}

/// Hands out all that waits. Where memory is refused, something has to wait still, and is handed out then.
pub fn settled(internet: &mut Small) -> Result<Settled, Fail> {
    match internet.settle(100) {
        Err(InternetFault::Memory) => {}
        answer => return Ok(answer?),
    }
    if internet.waiting() == 0 {
        return Err(Fail::new("a refused delivery is lost"));
    }
    Ok(internet.settle(100)?)
}

/// Where the far packet gets to; where memory is refused, it is traced again.
fn traced(internet: &Small) -> Result<Trace<'static>, Fail> {
    match internet.trace(0, 0, &FAR, 17) {
        Err(TraceFault::Memory) => Ok(internet.trace(0, 0, &FAR, 17)?),
        answer => Ok(answer?),
    }
}

/// The same in a room.
fn traced_in(internet: &Small, room: &mut TraceRoom) -> Result<Trace<'static>, Fail> {
    match internet.trace_in(room, 0, 0, &FAR, 17) {
        Err(TraceFault::Memory) => Ok(internet.trace_in(room, 0, 0, &FAR, 17)?),
        answer => Ok(answer?),
    }
}

/// Why a router is refused whose second port is that of another one.
fn refused(internet: &mut Small) -> Result<Option<InternetFault>, Fail> {
    let router = between((0x40, 5), (0x30, 4))?;
    Ok(internet.add(router).err().map(|it| it.fault))
}

/// `dev/refusals` plays the built tests with `without_memory` in their names, each as often as it asks for memory: one request
/// after the other is refused, and they have to end well. `rt try --test --fail-alloc N` refuses request number N.
#[test]
fn a_router_without_memory_is_added_again(rt: HostRuntime) -> Result<(), Fail> {
    let mut internet = Small::new(rt.alloc());
    assert!(rt; internet.is_empty());
    let first = joined(&mut internet, (0x10, 1), (0x20, 2))?;
    let second = joined(&mut internet, (0x20, 3), (0x30, 4))?;
    same(&rt, (first, second, internet.len()), (0, 1, 2));
    // (its ports are known, but once)
    same(&rt, refused(&mut internet)?, Some(InternetFault::SameNode));
    // (and a refused one leaves nothing behind)
    let free = joined(&mut internet, (0x40, 5), (0x50, 6))?;
    same(&rt, (free, internet.len()), (2, 3));
    Ok(())
}

#[test]
fn a_settling_without_memory_is_ended_by_the_next(rt: HostRuntime) -> Result<(), Fail> {
    let mut internet = line(rt.alloc())?;
    same(&rt, settled(&mut internet)?, Settled::Quiet);
    same(&rt, first_route(&internet, 0), Some((0x30, 1, 0)));
    same(&rt, first_route(&internet, 1), Some((0x10, 1, 0)));
    let routes = [0, 1].map(|it| internet.router(it).map(|it| it.routes()));
    same(&rt, routes, [Some(1), Some(1)]);
    Ok(())
}

#[test]
fn a_trace_without_memory_is_whole_when_it_is_made_again(rt: HostRuntime) -> Result<(), Fail> {
    let internet = looped(rt.alloc())?;
    let trace = traced(&internet)?;
    same(&rt, (trace.len(), wrong_rows(&trace)), (17, 0));
    Ok(())
}

/// How many receptions of the far packet aren't as they have to be.
fn wrong_rows(trace: &Trace<'_>) -> usize {
    let mut wrong = 0usize;
    for k in 0..17usize {
        let outcome = if k < 16 {
            Outcome::Forwarded
        } else {
            Outcome::Dropped(Why::TooManyRouters)
        };
        let wanted = (k.checked_sub(1), k % 2, u8::try_from(k).ok(), outcome);
        if row(trace, k) != Some(wanted) {
            wrong = wrong.wrapping_add(1);
        }
    }
    wrong
}

/// The second trace has to ask for no memory: if it is refused any, it is not made again, and the test fails.
#[test]
fn a_trace_in_a_room_is_whole_without_memory_of_its_own(rt: HostRuntime) -> Result<(), Fail> {
    let internet = looped(rt.alloc())?;
    let mut room = TraceRoom::new(rt.alloc());
    let first = traced_in(&internet, &mut room)?;
    room.keep(first);
    let second = internet.trace_in(&mut room, 0, 0, &FAR, 17)?;
    same(&rt, (second.len(), wrong_rows(&second)), (17, 0));
    Ok(())
}
