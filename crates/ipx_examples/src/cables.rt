//! Cables of a gateway.

use anyhow::Result;
use ipx_cable::{Asked, Asks, Kinds, Loop, Pace, Range, Twins, any_has, own_node, probe};

/// A station is spoken to in its kind of frames.
pub fn kinds(rt: &HostRuntime) -> Result<()> {
    let (station, hash) = ([2, 0, 0, 0, 0, 1], 7);
    let mut kinds = Kinds::zeros();
    let counts = kinds.hear(hash, station, 2, true);
    let kind = kinds.kind_of(hash, station);
    println!(rt; "it counts: {counts}, and its kind is {kind}")?;
    let copy = kinds.hear(hash, station, 4, true);
    println!(rt; "at once in another kind: {copy}")?;
    let stranger = [2, 0, 0, 0, 0, 2];
    let (second, fourth) = (kinds.speaks(9, stranger, 2), kinds.speaks(9, stranger, 4));
    println!(rt; "a stranger is spoken to in kind 2: {second}, in kind 4: {fourth}")?;
    // prints it counts: true, and its kind is 2
    // prints at once in another kind: false
    // prints a stranger is spoken to in kind 2: true, in kind 4: false
    kinds.second();
    println!(rt; "a second later kind 2 is used: {}", kinds.is_used(2))?;
    Ok(())
}

/// The later of two links that are one cable is shut.
pub fn loops(rt: &HostRuntime) -> Result<()> {
    let (mut first, mut second) = (Loop::default(), Loop::default());
    let probed = probe(1, 0, 60, 60, &mut second, &mut first);
    let (before, after) = (first.is_shut(), second.is_shut());
    println!(rt; "{probed:?}: the first is shut: {before}, the second: {after}")?;
    for _ in 0..5 {
        second.second();
    }
    println!(rt; "after five seconds it is shut: {}", second.is_shut())?;
    println!(rt; "then it opens: {}", second.second())?;
    // prints Here: the first is shut: false, the second: true
    // prints after five seconds it is shut: true
    // prints then it opens: true
    Ok(())
}

/// A range has the addresses that begin as it does.
pub fn ranges(rt: &HostRuntime) -> Result<()> {
    let range = Range {
        host: [192, 168, 1, 0],
        bits: 24,
    };
    println!(rt; "192.168.1.7: {}", range.has([192, 168, 1, 7]))?;
    println!(rt; "192.168.2.7: {}", range.has([192, 168, 2, 7]))?;
    println!(rt; "its address is the first: {}", range.is_first())?;
    // prints 192.168.1.7: true
    // prints 192.168.2.7: false
    // prints its address is the first: true
    let has = any_has(&[range], [192, 168, 1, 8]);
    println!(rt; "one of them has it: {has}")?;
    Ok(())
}

/// Eight wait, and go in four seconds.
pub fn paces(rt: &HostRuntime) -> Result<()> {
    let mut pace = Pace::default();
    let (second, now) = (1_000_000_000, 5_000_000_000);
    pace.more_wait(8, second, now);
    println!(rt; "eight wait, {} ns apart", pace.between)?;
    let first = pace.lets_go(8, now);
    let next = pace.lets_go(7, now);
    println!(rt; "the first goes: {first}, the next at once: {next}")?;
    let later = pace.lets_go(7, now + second / 2);
    println!(rt; "half a second later: {later}")?;
    // prints eight wait, 500000000 ns apart
    // prints the first goes: true, the next at once: false
    // prints half a second later: true
    Ok(())
}

/// A node is heard by turns on two links.
pub fn twins(rt: &HostRuntime) -> Result<()> {
    let node = [0x52, 0x54, 0, 0x12, 0x34, 0x56];
    let mut twins = Twins::zeros();
    let mut told = None;
    for second in 1..8_u8 {
        if let Some(other) = twins.hear(node, second % 2, u64::from(second)) {
            told = Some((second, other));
        }
    }
    println!(rt; "told in this second, with the link before: {told:?}")?;
    // prints told in this second, with the link before: Some((6, 1))
    Ok(())
}

/// Somebody is asked again until he answers.
pub fn asked(rt: &HostRuntime) -> Result<()> {
    let (mut all, mut client) = (Asks::default(), Asked::default());
    let (now, number) = (1_000_000_000, 100_000_000);
    client.ask(&mut all, now, number);
    println!(rt; "asked again in {} ms", all.patience(1000, now))?;
    let later = now + 350_000_000;
    let (early, late) = (all.are_due(later - 1), all.are_due(later));
    let is_due = client.is_due(&mut all, later);
    println!(rt; "before that: {early}, then: {late}, and he: {is_due}")?;
    client.answer();
    let is_due = client.is_due(&mut all, later);
    println!(rt; "once he has answered: {is_due}")?;
    // prints asked again in 350 ms
    // prints before that: false, then: true, and he: true
    // prints once he has answered: false
    Ok(())
}

/// The gateway's own node on a card, on several links, and where nothing is known.
pub fn own_nodes(rt: &HostRuntime) -> Result<()> {
    let (card, nowhere) = ([0x52, 0x54, 0, 0x12, 0x34, 0x56], [0; 6]);
    let said = Some([2, 0, 0, 0, 0, 9]);
    let of_card = own_node(false, false, card, said, 7);
    let of_several = own_node(false, true, card, said, 7);
    println!(rt; "{of_card:?}, of several links: {of_several:?}")?;
    let made_up = own_node(false, false, nowhere, None, 0x0605_0403_0201);
    println!(rt; "made up: {made_up:?}")?;
    // prints [82, 84, 0, 18, 52, 86], of several links: [2, 0, 0, 0, 0, 9]
    // prints made up: [2, 2, 3, 4, 5, 6]
    Ok(())
}
