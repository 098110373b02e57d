//! The events of a script's router, and their text.
ghost use Rattle.std.specs.Prelude.{◌≡◌, ◌++◌, ◌∷◌, [], false, replicate, OnOk, ◌+◌, ◌<◌, ◌≤◌, length, OnErr};
ghost use Rattle.std.specs.Vec.{vec_capacity};
ghost use Rattle.std.specs.List.{flat_map};
ghost use Rattle.ipx_router.specs.Happened.{happened};
ghost use Rattle.ipx_router.specs.History.{History, IsOnPort, Second as Passed};
ghost use Rattle.ipx_router.specs.Stands.{StandsFor};
ghost use Rattle.ipx_cmd.specs.EventText.{event_lines, events_text, reason, sent_text};
ghost use Rattle.ipx_cmd.specs.inside.Said.{Says};

use crate::ended::RunFault;
use crate::making::router::{MOST_ROUTES, MOST_SERVICES, ScriptRouter};
use crate::texts::output::{drop_line, out_line};
use crate::texts::said::write_much;
use ipx_router::{Event, Outbox, Outcome};
use ipx_wire::Outlet;
use std::alloc::AllocError;
use std::io::Write;

/// One event with an emptied outbox: adds a line for each packet sent, or one for a drop.
pub(crate) fn happen<W: Write>(
    router: &mut ScriptRouter,
    outbox: &mut Outbox,
    event: Event<'_>,
    text: &mut Vec<u8>,
    outlet: &mut Outlet<W>,
) -> Result<(), RunFault>
    requires port { IsOnPort router.old.ports (happened event) }
    requires outlet { outlet.old.failed ≡ false }
    ensures ports { router.new.ports ≡ router.old.ports }
    ensures fine { OnOk result (outlet.new.failed ≡ false) }
    ensures stands { OnOk result ((h : History) → StandsFor MOST_ROUTES MOST_SERVICES router.old h → StandsFor MOST_ROUTES MOST_SERVICES router.new (h ++ happened event.entry ∷ [])) }
    ensures says { (h : History) → StandsFor MOST_ROUTES MOST_SERVICES router.old h
        → Says outlet.old outlet.new text.old.items text.new.items (events_text router.old.ports h (happened event.entry ∷ [])) result }
{
    outbox.clear();
    let outcome = router.step(event, outbox)?;
    write_event(outcome, outbox, text)?;
    write_much(text, outlet)
}

/// This many seconds, one after the other.
pub(crate) fn pass<W: Write>(
    router: &mut ScriptRouter,
    outbox: &mut Outbox,
    count: u32,
    text: &mut Vec<u8>,
    outlet: &mut Outlet<W>,
) -> Result<(), RunFault>
    requires { outlet.old.failed ≡ false }
    ensures ports { router.new.ports ≡ router.old.ports }
    ensures fine { OnOk result (outlet.new.failed ≡ false) }
    ensures stands { OnOk result ((h : History) → StandsFor MOST_ROUTES MOST_SERVICES router.old h → StandsFor MOST_ROUTES MOST_SERVICES router.new (h ++ replicate count Passed)) }
    ensures says { (h : History) → StandsFor MOST_ROUTES MOST_SERVICES router.old h
        → Says outlet.old outlet.new text.old.items text.new.items (events_text router.old.ports h (replicate count Passed)) result }
{
    for _passed in 0..count {
        if let Err(fault) = happen(router, outbox, Event::Second, text, outlet) {
            return Err(fault);
        }
    }
    Ok(())
}

/// A line for each packet of an outbox, or one for a drop.
fn write_event(outcome: Outcome, outbox: &Outbox, text: &mut Vec<u8>) -> Result<(), AllocError>
    ensures text { OnOk result (text.new.items ≡ text.old.items ++ event_lines (reason outcome) outbox.now.sent) }
    ensures room { OnErr result (vec_capacity text.old < length text.old.items + length (event_lines (reason outcome) outbox.now.sent)) }
    ensures kept { vec_capacity text.old ≤ vec_capacity text.new }
{
    match outcome {
        Outcome::Dropped(why) => drop_line(text, why),
        _ => write_sent(outbox, text),
    }
}

/// A line for each packet of an outbox.
fn write_sent(outbox: &Outbox, text: &mut Vec<u8>) -> Result<(), AllocError>
    ensures text { OnOk result (text.new.items ≡ text.old.items ++ flat_map sent_text outbox.now.sent) }
    ensures room { OnErr result (vec_capacity text.old < length text.old.items + length (flat_map sent_text outbox.now.sent)) }
    ensures kept { vec_capacity text.old ≤ vec_capacity text.new }
{
    for place in 0..outbox.len() {
        let sent = outbox.get(place);
        out_line(text, sent.port, sent.link, sent.bytes)?;
    }
    Ok(())
}
