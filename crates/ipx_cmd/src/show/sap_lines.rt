//! The lines of service advertising in a capture: the operation, and each service.
ghost use Rattle.std.specs.Prelude.{◌≡◌, ◌++◌, Ok, ◌+◌, ◌*◌, ◌≤◌, drop, length};
ghost use Rattle.std.specs.List.{flat_map};
ghost use Rattle.ipx_wire.specs.Numbers.{most_services};
ghost use Rattle.ipx_wire.specs.Sap.{sap_of};
ghost use Rattle.ipx_wire.specs.SapEntries.{sap_entries_at, sap_entry_at};
ghost use Rattle.ipx_wire.specs.declared.sap.Sap.TheVariants.{Query, Response};
ghost use Rattle.ipx_cmd.specs.SapText.{sap_text, scope_word, service_entry_text};
ghost use Rattle.ipx_router.specs.WhyWord.{sap_word};

use crate::texts::draft::{Draft, HEAD, ROOM};
use crate::texts::service_line::{LONGEST_ENTRY, put_service_line};
use ipx_wire::{Sap, SapEntry, SapFault, Socket};

/// How many bytes the line of a response has.
const RESPONSE: usize = 21;

/// How many bytes the word of a scope has.
const SCOPE: usize = 7;

/// Puts the lines of service advertising, or the one that says why the data are none.
#[tactic(auto, unfolding(crate::specs::SapText::sap_text))]
pub(crate) fn put_sap(draft: &mut Draft, payload: &[u8])
    requires { length draft.old ≤ HEAD }
    ensures { draft.new ≡ draft.old ++ sap_text (sap_of payload.now) }
{
    match Sap::read(payload) {
        Ok(Sap::Query { nearest, kind }) => put_query(draft, nearest, kind),
        Ok(Sap::Response { nearest, entries }) => put_services(
            draft,
            nearest,
            entries.len(),
            payload,
        ),
        Err(fault) => {
            draft.put(b"sap bad ");
            draft.put(fault_word(fault).as_bytes());
            draft.put(b"\n");
        }
    }
}

#[tactic(auto, unfolding(crate::specs::SapText::sap_text))]
fn put_query(draft: &mut Draft, nearest: bool, kind: u16)
    requires { length draft.old ≤ HEAD }
    ensures { draft.new ≡ draft.old ++ sap_text (Ok (Query nearest kind)) }
{
    draft.put(b"sap ");
    draft.put(scope(nearest).as_bytes());
    draft.put(b"-query ");
    draft.put(&Socket(kind).digits());
    draft.put(b"\n");
}

/// Puts the lines of a response, whose entries stand behind its operation.
#[tactic(auto, unfolding(crate::specs::SapText::sap_text))]
fn put_services(draft: &mut Draft, nearest: bool, count: usize, payload: &[u8])
    requires room { length draft.old ≤ HEAD }
    requires few { count ≤ most_services }
    requires whole { 2 + 64 * count ≤ length payload.now }
    ensures { draft.new ≡ draft.old ++ sap_text (Ok (Response nearest (sap_entries_at count (drop 2 payload.now)))) }
{
    draft.put(b"sap ");
    draft.put(scope(nearest).as_bytes());
    draft.put(b"-response\n");
    let (_, entries) = payload.split_at(2);
    put_entries(draft, count, entries);
}

fn put_entries(draft: &mut Draft, count: usize, entries: &[u8])
    requires room { length draft.old ≤ HEAD + RESPONSE }
    requires few { count ≤ most_services }
    requires whole { 64 * count ≤ length entries.now }
    ensures { draft.new ≡ draft.old ++ flat_map service_entry_text (sap_entries_at count entries.now) }
{
    for place in 0..count {
        let (_, entry) = entries.split_at(SapEntry::SIZE * place);
        put_entry(draft, entry);
    }
}

/// Puts the line of a service, or of an entry without a name.
fn put_entry(draft: &mut Draft, entry: &[u8])
    requires room { length draft.old + LONGEST_ENTRY ≤ ROOM }
    requires whole { 64 ≤ length entry.now }
    ensures text { draft.new ≡ draft.old ++ service_entry_text (sap_entry_at entry.now) }
    ensures most { length draft.new ≤ length draft.old + LONGEST_ENTRY }
{
    draft.count = put_service_line(&mut draft.bytes, draft.count, entry);
}

fn scope(nearest: bool) -> &'static str
    ensures word { result.now ≡ scope_word nearest }
    ensures size { length result.now ≡ SCOPE }
{
    if nearest { "nearest" } else { "general" }
}

fn fault_word(fault: SapFault) -> &'static str
    ensures word { result.now ≡ sap_word fault }
    ensures most { length result.now ≤ 9 }
{
    match fault {
        SapFault::Short => "Short",
        SapFault::Operation(_) => "Operation",
        SapFault::NoEntry => "NoEntry",
        SapFault::TooMany => "TooMany",
    }
}
