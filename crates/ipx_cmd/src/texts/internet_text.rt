//! What an internet does and tells, and its text.
ghost use Rattle.std.specs.Prelude.{◌≡◌, ◌<◌, ◌++◌, List, false, codes, decimal, length, replicate, OnOk, IfErr, ◌+◌, ◌≤◌, OnErr};
ghost use Rattle.std.specs.Vec.{vec_capacity};
ghost use Rattle.std.specs.List.{flat_map};
ghost use Rattle.ipx_router.specs.Happened.{happened};
ghost use Rattle.ipx_internet.specs.Internet.{IsPlace, ports_of};
ghost use Rattle.ipx_internet.specs.Moment.{IsThere, StandsFor, net_at};
ghost use Rattle.ipx_internet.specs.Queue.{Delivery, Queued, history_of, queued};
ghost use Rattle.ipx_internet.specs.Settled.{IsToldOf};
ghost use Rattle.ipx_internet.specs.Traced.{traced};
ghost use Rattle.ipx_cmd.specs.EventText.{reason};
ghost use Rattle.ipx_cmd.specs.InternetMachine.{event_said, every_second, happens, settles, traced_all};
ghost use Rattle.ipx_cmd.specs.InternetText.{became_word, copies_text, copy_text, copy_words, dropped_text, parent_word, settled_text, trace_text};
ghost use Rattle.ipx_cmd.specs.inside.Said.{Says};
ghost use Rattle.ipx_cmd.specs.TableText.{routes_text, services_text};
ghost use Rattle.ipx_cmd.specs.declared.ended.RunFault.TheVariants.{Memory};

use crate::ended::RunFault;
use crate::making::internet::ScriptInternet;
use crate::making::router::{MOST_ROUTES, MOST_SERVICES};
use crate::texts::output::drop_line;
use crate::texts::said::write_much;
use crate::texts::table_text::{show_routes, show_services};
use crate::texts::text::{put_decimal, put_word};
use ipx_internet::{Reception, Settled, Trace, TraceFault, TraceRoom};
use ipx_router::{Event, Outcome};
use ipx_wire::Outlet;
use std::alloc::AllocError;
use std::io::Write;

/// One event of a router: adds a line where it was dropped.
pub(crate) fn happen<W: Write>(
    internet: &mut ScriptInternet,
    router: u8,
    event: Event<'_>,
    text: &mut Vec<u8>,
    outlet: &mut Outlet<W>,
) -> Result<(), RunFault>
    requires there { IsThere internet.old router (happened event) }
    requires outlet { outlet.old.failed ≡ false }
    ensures net { net_at internet.new ≡ net_at internet.old }
    ensures fine { OnOk result (outlet.new.failed ≡ false) }
    ensures stands { OnOk result ((q : Queued) → StandsFor MOST_ROUTES MOST_SERVICES internet.old q → StandsFor MOST_ROUTES MOST_SERVICES internet.new (queued (net_at internet.old) MOST_ROUTES MOST_SERVICES q router (happened event.entry))) }
    ensures says { (q : Queued) → StandsFor MOST_ROUTES MOST_SERVICES internet.old q → Says outlet.old outlet.new text.old.items text.new.items (event_said (net_at internet.old) q router (happened event.entry)) result }
{
    match internet.event(router as usize, event) {
        Ok(outcome) => {
            write_dropped(outcome, text)?;
            write_much(text, outlet)
        }
        Err(_) => Err(RunFault::Memory),
    }
}

/// A line where an event was dropped.
fn write_dropped(outcome: Outcome, text: &mut Vec<u8>) -> Result<(), AllocError>
    ensures text { OnOk result (text.new.items ≡ text.old.items ++ dropped_text (reason outcome)) }
    ensures room { OnErr result (vec_capacity text.old < length text.old.items + length (dropped_text (reason outcome))) }
    ensures kept { vec_capacity text.old ≤ vec_capacity text.new }
{
    match outcome {
        Outcome::Dropped(why) => drop_line(text, why),
        _ => Ok(()),
    }
}

/// This many seconds, one after the other.
pub(crate) fn pass(internet: &mut ScriptInternet, count: u32) -> Result<(), RunFault>
    ensures net { net_at internet.new ≡ net_at internet.old }
    ensures stands { OnOk result ((q : Queued) → StandsFor MOST_ROUTES MOST_SERVICES internet.old q → StandsFor MOST_ROUTES MOST_SERVICES internet.new (happens (net_at internet.old) q (flat_map (λ second. second) (replicate count (every_second (length (net_at internet.old))))))) }
    ensures fault { IfErr result (λ why. why ≡ Memory) }
{
    for _passed in 0..count {
        pass_one(internet)?;
    }
    Ok(())
}

/// A second of each router, in order.
fn pass_one(internet: &mut ScriptInternet) -> Result<(), RunFault>
    ensures net { net_at internet.new ≡ net_at internet.old }
    ensures stands { OnOk result ((q : Queued) → StandsFor MOST_ROUTES MOST_SERVICES internet.old q → StandsFor MOST_ROUTES MOST_SERVICES internet.new (happens (net_at internet.old) q (every_second (length (net_at internet.old))))) }
    ensures fault { IfErr result (λ why. why ≡ Memory) }
{
    for router in 0..internet.len() {
        let Ok(_outcome) = internet.event(router, Event::Second) else {
            return Err(RunFault::Memory);
        };
    }
    Ok(())
}

/// Hands out deliveries, at most that many, and tells how many are left.
pub(crate) fn settle<W: Write>(
    internet: &mut ScriptInternet,
    limit: u32,
    text: &mut Vec<u8>,
    outlet: &mut Outlet<W>,
) -> Result<(), RunFault>
    requires { outlet.old.failed ≡ false }
    ensures net { net_at internet.new ≡ net_at internet.old }
    ensures fine { OnOk result (outlet.new.failed ≡ false) }
    ensures stands { OnOk result ((q : Queued) → StandsFor MOST_ROUTES MOST_SERVICES internet.old q → StandsFor MOST_ROUTES MOST_SERVICES internet.new (settles (net_at internet.old) q limit)) }
    ensures says { (q : Queued) → StandsFor MOST_ROUTES MOST_SERVICES internet.old q → Says outlet.old outlet.new text.old.items text.new.items (settled_text (settles (net_at internet.old) q limit).queue) result }
{
    match internet.settle(limit as usize) {
        Ok(settled) => {
            write_settled(settled, text)?;
            write_much(text, outlet)
        }
        Err(_) => Err(RunFault::Memory),
    }
}

/// The line that tells how many deliveries are left.
fn write_settled(settled: Settled, text: &mut Vec<u8>) -> Result<(), AllocError>
    ensures text { OnOk result ((queue : List Delivery) → IsToldOf queue settled → text.new.items ≡ text.old.items ++ settled_text queue) }
    ensures room { OnErr result ((queue : List Delivery) → IsToldOf queue settled → vec_capacity text.old < length text.old.items + length (settled_text queue)) }
    ensures kept { vec_capacity text.old ≤ vec_capacity text.new }
{
    match settled {
        Settled::Quiet => text.extend_from_slice(b"quiet\n"),
        Settled::Left(count) => left_line(text, count),
    }
}

/// Appends the line of that many deliveries that wait.
fn left_line(text: &mut Vec<u8>, count: usize) -> Result<(), AllocError>
    ensures text { OnOk result (text.new.items ≡ text.old.items ++ (codes "left " ++ decimal count ++ codes "\n")) }
    ensures room { OnErr result (vec_capacity text.old < length text.old.items + length (codes "left " ++ decimal count ++ codes "\n")) }
    ensures kept { vec_capacity text.old ≤ vec_capacity text.new }
{
    text.extend_from_slice(b"left ")?;
    put_decimal(text, count as u64)?;
    text.extend_from_slice(b"\n")
}

/// Adds the lines of a packet's receptions, or the one of a limit that is less. It uses the memory of the trace before, and leaves it to
/// the next one, unless it is over its limit.
pub(crate) fn trace<W: Write>(
    internet: &ScriptInternet,
    room: &mut TraceRoom,
    router: u8,
    port: u8,
    limit: u32,
    bytes: &[u8],
    text: &mut Vec<u8>,
    outlet: &mut Outlet<W>,
) -> Result<(), RunFault>
    requires { outlet.old.failed ≡ false }
    ensures fine { OnOk result (outlet.new.failed ≡ false) }
    ensures says { (q : Queued) → StandsFor MOST_ROUTES MOST_SERVICES internet.now q → IsPlace (net_at internet.now) (record { router = router; port = port })
        → Says outlet.old outlet.new text.old.items text.new.items (trace_text limit (traced_all (net_at internet.now) q router port bytes.now)) result }
{
    match internet.trace_in(room, router as usize, port, bytes, limit as usize) {
        Ok(trace) => {
            let written = write_trace(&trace, text, outlet);
            room.keep(trace);
            written
        }
        Err(TraceFault::Limit) => {
            text.extend_from_slice(b"limit\n")?;
            write_much(text, outlet)
        }
        Err(_) => Err(RunFault::Memory),
    }
}

/// A line for each reception.
fn write_trace<W: Write>(
    trace: &Trace<'_>,
    text: &mut Vec<u8>,
    outlet: &mut Outlet<W>,
) -> Result<(), RunFault>
    requires { outlet.old.failed ≡ false }
    ensures fine { OnOk result (outlet.new.failed ≡ false) }
    ensures says { Says outlet.old outlet.new text.old.items text.new.items (copies_text 0 trace.now.receptions) result }
{
    for number in 0..trace.len() {
        if let Err(fault) = write_reception(number, trace.get(number), text, outlet) {
            return Err(fault);
        }
    }
    Ok(())
}

/// The line of a reception; much of the text is written.
fn write_reception<W: Write>(
    number: usize,
    reception: Reception<'_>,
    text: &mut Vec<u8>,
    outlet: &mut Outlet<W>,
) -> Result<(), RunFault>
    requires { outlet.old.failed ≡ false }
    ensures fine { OnOk result (outlet.new.failed ≡ false) }
    ensures says { Says outlet.old outlet.new text.old.items text.new.items (copy_text number (traced reception.entry)) result }
{
    copy_line(text, number, reception)?;
    write_much(text, outlet)
}

/// Appends the line of a reception.
///
/// An error means out of memory.
#[tactic(auto, unfolding(crate::specs::InternetText::copy_text))]
fn copy_line(text: &mut Vec<u8>, number: usize, reception: Reception<'_>) -> Result<(), AllocError>
    ensures text { OnOk result (text.new.items ≡ text.old.items ++ copy_text number (traced reception.entry)) }
    ensures room { OnErr result (vec_capacity text.old < length text.old.items + length (copy_text number (traced reception.entry))) }
    ensures kept { vec_capacity text.old ≤ vec_capacity text.new }
{
    let (first, second) = became(reception.outcome);
    add_copy(text, number, reception)?;
    text.extend_from_slice(b" ")?;
    text.extend_from_slice(first.as_bytes())?;
    text.extend_from_slice(second.as_bytes())?;
    text.extend_from_slice(b" ")?;
    put_word(text, reception.bytes)?;
    text.extend_from_slice(b"\n")
}

/// Appends the numbers of a reception: its own, that of its parent, its router's and its port's.
#[tactic(auto, unfolding(crate::specs::InternetText::copy_words))]
fn add_copy(text: &mut Vec<u8>, number: usize, reception: Reception<'_>) -> Result<(), AllocError>
    ensures text { OnOk result (text.new.items ≡ text.old.items ++ copy_words number (traced reception.entry).copy) }
    ensures room { OnErr result (vec_capacity text.old < length text.old.items + length (copy_words number (traced reception.entry).copy)) }
    ensures kept { vec_capacity text.old ≤ vec_capacity text.new }
{
    text.extend_from_slice(b"copy ")?;
    put_decimal(text, number as u64)?;
    text.extend_from_slice(b" ")?;
    put_parent(text, reception.parent)?;
    text.extend_from_slice(b" ")?;
    put_decimal(text, reception.router as u64)?;
    text.extend_from_slice(b" ")?;
    put_decimal(text, u64::from(reception.port))
}

/// Appends the number of the reception whose router sent a packet on, or `-` where there is none.
fn put_parent(text: &mut Vec<u8>, parent: Option<usize>) -> Result<(), AllocError>
    ensures text { OnOk result (text.new.items ≡ text.old.items ++ parent_word parent) }
    ensures room { OnErr result (vec_capacity text.old < length text.old.items + length (parent_word parent)) }
    ensures kept { vec_capacity text.old ≤ vec_capacity text.new }
{
    match parent {
        Some(number) => put_decimal(text, number as u64),
        None => text.extend_from_slice(b"-"),
    }
}

/// What became of a packet at a reception, as one word in two parts: the outcome's name, or the reason of a drop.
fn became(outcome: Outcome) -> (&'static str, &'static str)
    ensures { result.0.now ++ result.1.now ≡ became_word outcome }
{
    match outcome {
        Outcome::Forwarded => ("Forwarded", ""),
        Outcome::Propagated => ("Propagated", ""),
        Outcome::Local => ("Local", ""),
        Outcome::Dropped(why) => (why.word(), ""),
        outcome => outcome.words(),
    }
}

/// Adds the lines of the routes in a router's table.
pub(crate) fn show_routes_of<W: Write>(
    internet: &ScriptInternet,
    router: u8,
    text: &mut Vec<u8>,
    outlet: &mut Outlet<W>,
) -> Result<(), RunFault>
    requires there { router < length internet.now.routers }
    requires outlet { outlet.old.failed ≡ false }
    ensures fine { OnOk result (outlet.new.failed ≡ false) }
    ensures says { (q : Queued) → StandsFor MOST_ROUTES MOST_SERVICES internet.now q → Says outlet.old outlet.new text.old.items text.new.items (routes_text (ports_of (net_at internet.now) router) (history_of q.histories router)) result }
{
    match internet.router(usize::from(router)) {
        Some(router) => show_routes(router, text, outlet),
        None => Ok(()),
    }
}

/// Adds the lines of the services in a router's table.
pub(crate) fn show_services_of<W: Write>(
    internet: &ScriptInternet,
    router: u8,
    text: &mut Vec<u8>,
    outlet: &mut Outlet<W>,
) -> Result<(), RunFault>
    requires there { router < length internet.now.routers }
    requires outlet { outlet.old.failed ≡ false }
    ensures fine { OnOk result (outlet.new.failed ≡ false) }
    ensures says { (q : Queued) → StandsFor MOST_ROUTES MOST_SERVICES internet.now q → Says outlet.old outlet.new text.old.items text.new.items (services_text (ports_of (net_at internet.now) router) (history_of q.histories router)) result }
{
    match internet.router(usize::from(router)) {
        Some(router) => show_services(router, text, outlet),
        None => Ok(()),
    }
}
