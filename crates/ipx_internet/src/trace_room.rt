//! Memory that one trace leaves to the next.
ghost use Rattle.std.specs.Prelude.{◌≡◌, ◌≤◌, length};
ghost use Rattle.ipx_internet.specs.TraceRoom.{no_memory};

use crate::listing::Listed;
use crate::trace::Trace;
use ipx_router::{Outbox, Outcome};
use std::alloc::Global;
use std::marker::Model;

/// Memory that one trace leaves to the next. The same trace again asks for none: tested, not proved.
///
/// ```
/// let mut room = TraceRoom::new(rt.alloc());
/// for port in 0..2 {
///     let trace = internet.trace_in(&mut room, 0, port, bytes, 18)?;
///     println!(rt; "from port {port}: {} receptions", trace.len())?;
///     room.keep(trace);
/// }
/// // prints from port 0: 2 receptions
/// // prints from port 1: 2 receptions
/// ```
#[derive(Debug, Drop)]
pub struct TraceRoom {
    pub(crate) lists: Lists,
    pub(crate) outbox: Outbox,
}

impl Model for TraceRoom {
    ghost use Rattle.ipx_internet.specs.TraceRoom.{Room};

    ghost Value = { Room };

    ghost view = { λ r. record { lists = r.lists; outbox = r.outbox } };
}

/// The lists of a trace, emptied.
#[derive(Debug, Drop)]
pub(crate) struct Lists {
    /// For the bytes of packets that are sent on.
    pub store: Vec<u8>,
    pub list: Vec<Listed>,
    pub outcomes: Vec<Outcome>,
}

impl Model for Lists {
    ghost use Rattle.std.specs.Vec.{vec_capacity};
    ghost use Rattle.ipx_internet.specs.TraceRoom.{Memory, AreEmpty};

    ghost Value = { Memory };

    ghost view = { λ l. record { receptions = vec_capacity l.list; outcomes = vec_capacity l.outcomes; bytes = vec_capacity l.store } };

    ghost invariant = { λ l. AreEmpty l.store.items l.list.items l.outcomes.items };
}

impl TraceRoom {
    /// A room without memory.
    pub fn new(alloc: Global) -> TraceRoom
        ensures lists { result.lists ≡ no_memory }
        ensures outbox { result.outbox.memory ≡ record { packets = 0; bytes = 0 } }
    {
        TraceRoom {
            lists: Lists::new(alloc),
            outbox: Outbox::new(alloc),
        }
    }

    /// Keeps the memory of a trace for the next one, in place of what was kept before.
    pub fn keep(&mut self, trace: Trace<'_>)
        ensures lists { self.new.lists ≡ trace.entry.memory }
        ensures outbox { self.new.outbox ≡ self.old.outbox }
        ensures receptions { length trace.entry.receptions ≤ self.new.lists.receptions }
        ensures outcomes { length trace.entry.receptions ≤ self.new.lists.outcomes }
    {
        self.lists = trace.into_lists();
    }
}

impl Lists {
    /// Lists without memory.
    pub fn new(alloc: Global) -> Lists
        ensures { result ≡ no_memory }
    {
        Lists {
            store: Vec::new(alloc),
            list: Vec::new(alloc),
            outcomes: Vec::new(alloc),
        }
    }
}
