//! What a gateway decides about its cables, as C asks for it. What is known lies in memory of C's own, and needs no handle.
ghost use Rattle.std.specs.Prelude.{◌≡◌, ◌↔◌, ◌-◌, if◌then◌else◌, true, None, Some};
ghost use Rattle.std.specs.Option.{is_some, unwrap_or};
ghost use Rattle.std.specs.List.{Any};
ghost use Rattle.ipx_cable.specs.Kinds.{is_heard, word, second, kind_at, is_used, speaks};
ghost use Rattle.ipx_cable.specs.Loops.{opens, probed, left_here, left_there};
ghost use Rattle.ipx_cable.specs.Paces.{paced, goes, gone};
ghost use Rattle.ipx_cable.specs.Ranges.{Begins, IsFirst};
ghost use Rattle.ipx_cable.specs.Twins.{told_link, twins_after};
ghost use Rattle.ipx_cable.specs.Asking.{moment, no_later, is_due, next_after_look, are_due, next_after_asking, patience};
ghost use Rattle.ipx_cable.specs.OwnNodes.{own_node};
ghost use Rattle.ipx_c.specs.CableValues.{probed_number};
ghost use Rattle.ipx_c.specs.Writes.{is_yes};

use ipx_cable::{Asked, Asks, Kinds, Loop, Pace, Probed, Range, Twins, any_has, own_node, probe};

// ---- Kinds of frames

/// A second passes.
#[unsafe(no_mangle)]
pub extern "C" fn ipxr_kinds_second(kinds: &mut Kinds)
    ensures { kinds.new ≡ second kinds.old }
{
    kinds.second();
}

/// A station of that hash says a packet in a kind, to a node or to all. Returns whether it counts.
#[unsafe(no_mangle)]
pub extern "C" fn ipxr_kinds_hear(
    kinds: &mut Kinds,
    hash: u64,
    node: &[u8; 6],
    kind: u8,
    is_for_all: u8,
) -> bool
    ensures heard { result ≡ is_heard hash node.now kind (is_yes is_for_all) kinds.old }
    ensures kinds { kinds.new ≡ word hash node.now kind (is_yes is_for_all) kinds.old }
{
    kinds.hear(hash, *node, kind, is_for_all != 0)
}

/// The kind that a station uses, or 0.
#[unsafe(no_mangle)]
pub extern "C" fn ipxr_kinds_of(kinds: &Kinds, hash: u64, node: &[u8; 6]) -> u8
    ensures { result ≡ kind_at hash node.now kinds.now }
{
    kinds.kind_of(hash, *node)
}

/// Whether a kind was heard lately.
#[unsafe(no_mangle)]
pub extern "C" fn ipxr_kinds_is_used(kinds: &Kinds, kind: u8) -> bool
    ensures { result ≡ is_used kind kinds.now }
{
    kinds.is_used(kind)
}

/// Whether a packet for a node, or for all, goes out in a kind.
#[unsafe(no_mangle)]
pub extern "C" fn ipxr_kinds_speaks(kinds: &Kinds, hash: u64, node: &[u8; 6], kind: u8) -> bool
    ensures { result ≡ speaks hash node.now kind kinds.now }
{
    kinds.speaks(hash, *node, kind)
}

// ---- Links that are one cable

/// The number of each thing that a probe may do.
const NOTHING: u8 = 0;

const HERE: u8 = 1;

const THERE: u8 = 2;

const LATE: u8 = 3;

/// A probe comes on link `here` that link `there` sent.
#[unsafe(no_mangle)]
pub extern "C" fn ipxr_loop_probe(
    here: u8,
    there: u8,
    sent: u64,
    now: u64,
    at_here: &mut Loop,
    at_there: &mut Loop,
) -> u8
    ensures probed { result ≡ probed_number (probed here there sent now at_here.old.left at_there.old.left) }
    ensures here { at_here.new.left ≡ left_here here there sent now at_here.old.left }
    ensures there { at_there.new.left ≡ left_there here there sent now at_there.old.left }
{
    match probe(here, there, sent, now, at_here, at_there) {
        Probed::Nothing => NOTHING,
        Probed::Here => HERE,
        Probed::There => THERE,
        Probed::Late => LATE,
    }
}

/// A second passes for a link. Returns whether it opens.
#[unsafe(no_mangle)]
pub extern "C" fn ipxr_loop_second(it: &mut Loop) -> bool
    ensures opens { result ≡ opens it.old.left }
    ensures left { it.new.left ≡ it.old.left - 1 }
{
    it.second()
}

// ---- Ranges of addresses

/// Whether an address is in one of several ranges.
#[unsafe(no_mangle)]
pub extern "C" fn ipxr_ranges_have(ranges: &[Range], host: &[u8; 4]) -> bool
    ensures { (result ≡ true) ↔ Any (λ range. Begins range.bits range.host host.now) ranges.now }
{
    any_has(ranges, *host)
}

/// Whether a range's own address is the first of it.
#[unsafe(no_mangle)]
pub extern "C" fn ipxr_range_is_first(range: &Range) -> bool
    ensures { (result ≡ true) ↔ IsFirst range.now.bits range.now.host }
{
    range.is_first()
}

// ---- What goes out one by one

/// So many wait now, and go so far apart.
#[unsafe(no_mangle)]
pub extern "C" fn ipxr_pace_more_wait(pace: &mut Pace, waiting: u64, between: u64, now: u64)
    ensures { pace.new ≡ paced waiting between now pace.old }
{
    pace.more_wait(waiting, between, now);
}

/// Whether the first of so many that wait goes now.
#[unsafe(no_mangle)]
pub extern "C" fn ipxr_pace_lets_go(pace: &mut Pace, waiting: u64, now: u64) -> bool
    ensures goes { result ≡ goes waiting now pace.old }
    ensures pace { pace.new ≡ gone waiting now pace.old }
{
    pace.lets_go(waiting, now)
}

// ---- Two machines with one node

/// A node is heard on a link in a second. Returns whether that must be told, and then the link before.
#[unsafe(no_mangle)]
pub extern "C" fn ipxr_twins_hear(
    twins: &mut Twins,
    node: &[u8; 6],
    link: u8,
    second: u64,
    before: &mut u8,
) -> bool
    ensures told { result ≡ is_some (told_link node.now link second twins.old) }
    ensures before { before.new ≡ unwrap_or (told_link node.now link second twins.old) before.old }
    ensures twins { twins.new ≡ twins_after node.now link second twins.old }
{
    match twins.hear(*node, link, second) {
        Some(other) => {
            *before = other;
            true
        }
        None => false,
    }
}

// ---- Who is asked again

/// Somebody is asked now, and again at a moment that the number chooses.
#[unsafe(no_mangle)]
pub extern "C" fn ipxr_asked_ask(asked: &mut Asked, all: &mut Asks, now: u64, number: u64)
    ensures asked { asked.new.again ≡ moment now number }
    ensures all { all.new.next ≡ no_later (moment now number) all.old.next }
{
    asked.ask(all, now, number);
}

/// He answers.
#[unsafe(no_mangle)]
pub extern "C" fn ipxr_asked_answer(asked: &mut Asked)
    ensures { asked.new.again ≡ 0 }
{
    asked.answer();
}

/// Whether he is to be asked again now.
#[unsafe(no_mangle)]
pub extern "C" fn ipxr_asked_is_due(asked: &Asked, all: &mut Asks, now: u64) -> bool
    ensures due { result ≡ is_due now asked.now }
    ensures all { all.new.next ≡ next_after_look now asked.now all.old }
{
    asked.is_due(all, now)
}

/// Whether somebody may have to be asked now.
#[unsafe(no_mangle)]
pub extern "C" fn ipxr_asks_are_due(asks: &mut Asks, now: u64) -> bool
    ensures due { result ≡ are_due now asks.old }
    ensures next { asks.new.next ≡ next_after_asking now asks.old }
{
    asks.are_due(now)
}

/// Milliseconds until then, at most so many.
#[unsafe(no_mangle)]
pub extern "C" fn ipxr_asks_patience(asks: &Asks, most: u64, now: u64) -> u64
    ensures { result ≡ patience most now asks.now }
{
    asks.patience(most, now)
}

// ---- The gateway's own node

/// The gateway's node on a network.
#[unsafe(no_mangle)]
pub extern "C" fn ipxr_node_choose(
    is_tunnel: u8,
    is_of_several: u8,
    has_said: u8,
    said: &[u8; 6],
    card: &[u8; 6],
    hash: u64,
    node: &mut [u8; 6],
)
    ensures { node.new ≡ own_node (is_yes is_tunnel) (is_yes is_of_several) card.now (if is_yes has_said then Some said.now else None) hash }
{
    let said = if has_said != 0 { Some(*said) } else { None };
    *node = own_node(is_tunnel != 0, is_of_several != 0, *card, said, hash);
}
