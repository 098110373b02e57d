//! The lines of routing information in a capture: the operation, and each entry.
ghost use Rattle.std.specs.Prelude.{◌≡◌, ◌++◌, Ok, ◌+◌, ◌≤◌, length};
ghost use Rattle.std.specs.List.{flat_map};
ghost use Rattle.ipx_wire.specs.Rip.{rip_of};
ghost use Rattle.ipx_cmd.specs.RipText.{rip_text, route_entry_text};
ghost use Rattle.ipx_router.specs.WhyWord.{rip_word};

use crate::texts::draft::{Draft, HEAD, ROOM};
use crate::texts::put::{put_hex, put_number, put_text};
use ipx_wire::{Rip, RipEntry, RipFault};

/// How many bytes the line of the operation has at most.
const LONGEST_OPERATION: usize = 13;

/// How many bytes the line of an entry has at most.
const LONGEST_ENTRY: usize = 36;

/// Puts the lines of routing information, or the one that says why the data are none.
#[tactic(auto, unfolding(crate::specs::RipText::rip_text))]
pub(crate) fn put_rip(draft: &mut Draft, payload: &[u8])
    requires { length draft.old ≤ HEAD }
    ensures { draft.new ≡ draft.old ++ rip_text (rip_of payload.now) }
{
    match Rip::read(payload) {
        Ok(rip) => put_routes(draft, &rip),
        Err(fault) => {
            draft.put(b"rip bad ");
            draft.put(fault_word(fault).as_bytes());
            draft.put(b"\n");
        }
    }
}

#[tactic(auto, using(crate::proofs::bytes::DigitsTwoAtATime::operation_short), unfolding(crate::specs::RipText::rip_text))]
fn put_routes(draft: &mut Draft, rip: &Rip<'_>)
    requires { length draft.old ≤ HEAD }
    ensures { draft.new ≡ draft.old ++ rip_text (Ok rip.now) }
{
    draft.put(b"rip ");
    draft.put(rip.operation().word().as_bytes());
    draft.put(b"\n");
    put_entries(draft, rip);
}

fn put_entries(draft: &mut Draft, rip: &Rip<'_>)
    requires { length draft.old ≤ HEAD + LONGEST_OPERATION }
    ensures { draft.new ≡ draft.old ++ flat_map route_entry_text rip.now.entries }
{
    for place in 0..rip.len() {
        put_entry(draft, rip.entry(place));
    }
}

#[tactic(auto, unfolding(crate::specs::RipText::route_entry_text))]
fn put_entry(draft: &mut Draft, entry: RipEntry)
    requires { length draft.old + LONGEST_ENTRY ≤ ROOM }
    ensures text { draft.new ≡ draft.old ++ route_entry_text entry }
    ensures most { length draft.new ≤ length draft.old + LONGEST_ENTRY }
{
    let RipEntry {
        network,
        hops,
        ticks,
    } = entry;
    let at = put_text(&mut draft.bytes, draft.count, b"net ");
    let at = put_hex(&mut draft.bytes, at, &network.0.to_be_bytes());
    let at = put_text(&mut draft.bytes, at, b" hops ");
    let at = put_number(&mut draft.bytes, at, hops);
    let at = put_text(&mut draft.bytes, at, b" ticks ");
    let at = put_number(&mut draft.bytes, at, ticks);
    draft.count = put_text(&mut draft.bytes, at, b"\n");
}

fn fault_word(fault: RipFault) -> &'static str
    ensures word { result.now ≡ rip_word fault }
    ensures most { length result.now ≤ 9 }
{
    match fault {
        RipFault::Short => "Short",
        RipFault::Operation(_) => "Operation",
        RipFault::NoEntry => "NoEntry",
        RipFault::TooMany => "TooMany",
    }
}
