//! The line of the networks that a propagated packet has crossed.
ghost use Rattle.std.specs.Prelude.{◌≡◌, ◌++◌, Ok, ◌+◌, ◌≤◌, length};
ghost use Rattle.std.specs.List.{flat_map};
ghost use Rattle.ipx_wire.specs.Crossed.{crossed_of};
ghost use Rattle.ipx_cmd.specs.CrossedText.{crossed_text, network_after};
ghost use Rattle.ipx_cmd.specs.CrossedWord.{crossed_word};

use crate::texts::draft::{Draft, HEAD, ROOM};
use ipx_wire::{Crossed, CrossedFault, Network};

/// How many bytes the first word of the line has.
const WORD: usize = 7;

/// How many bytes a network takes with the space before it.
const NETWORK: usize = 9;

/// How many bytes the line has at most, but for its end.
const LONGEST: usize = 70;

/// Puts the line of the networks that a packet has crossed, or of why it names none.
#[tactic(auto, unfolding(crate::specs::CrossedText::crossed_text))]
pub(crate) fn put_crossed(draft: &mut Draft, control: u8, payload: &[u8])
    requires { length draft.old ≤ HEAD }
    ensures { draft.new ≡ draft.old ++ crossed_text (crossed_of control payload.now) }
{
    match Crossed::read(control, payload) {
        Ok(crossed) => put_line(draft, &crossed),
        Err(fault) => {
            draft.put(b"crossed bad ");
            draft.put(word(fault).as_bytes());
            draft.put(b"\n");
        }
    }
}

#[tactic(auto, unfolding(crate::specs::CrossedText::crossed_text))]
fn put_line(draft: &mut Draft, crossed: &Crossed<'_>)
    requires { length draft.old ≤ HEAD }
    ensures { draft.new ≡ draft.old ++ crossed_text (Ok crossed.now) }
{
    draft.put(b"crossed");
    put_networks(draft, crossed);
    draft.put(b"\n");
}

fn put_networks(draft: &mut Draft, crossed: &Crossed<'_>)
    requires { length draft.old ≤ HEAD + WORD }
    ensures text { draft.new ≡ draft.old ++ flat_map network_after crossed.now }
    ensures most { length draft.new ≤ HEAD + LONGEST }
{
    for place in 0..crossed.len() {
        put_network(draft, crossed.get(place));
    }
}

#[tactic(auto, unfolding(crate::specs::CrossedText::network_after))]
fn put_network(draft: &mut Draft, network: Network)
    requires { length draft.old + NETWORK ≤ ROOM }
    ensures text { draft.new ≡ draft.old ++ network_after network }
    ensures size { length draft.new ≡ length draft.old + NETWORK }
{
    draft.put(b" ");
    draft.put(&network.digits());
}

fn word(fault: CrossedFault) -> &'static str
    ensures word { result.now ≡ crossed_word fault }
    ensures most { length result.now ≤ 5 }
{
    match fault {
        CrossedFault::Short => "Short",
        CrossedFault::Full => "Full",
    }
}
