//! Numbers as text, there and back, and what a refusal of memory becomes.

use crate::same::same;
use ipx_wire::{Hex, Network, Node, OutOfMemory, Socket};
use std::alloc::{AllocError, Global};
use std::test::Fail;

const NODE: Node = Node([0, 0, 0, 0, 0, 0xAA]);

#[test]
fn shows_upper_case_digits(rt: HostRuntime) -> Result<(), Fail> {
    let alloc = rt.alloc();
    let network = Network(0x0123_ABCD);
    let socket = Socket(0x0F5E);
    let hex = Hex(&[0x00, 0x7F, 0xC0]);
    let text = format!(in alloc; "{network} {NODE} {socket} {hex}")?;
    same(&rt, text.as_str(), "0123ABCD 0000000000AA 0F5E 007FC0");
    Ok(())
}

#[test]
fn shows_as_many_bytes_as_a_packet_has(rt: HostRuntime) -> Result<(), Fail> {
    let alloc = rt.alloc();
    let table: [&[u8]; 5] = [&[], &[0xA5; 64], &[0xA5; 65], &[0xA5; 101], &[0xA5; 65_535]];
    for bytes in table {
        let text = format!(in alloc; "{}", Hex(bytes))?;
        same(&rt, text.len(), 2 * bytes.len());
    }
    Ok(())
}

#[test]
fn reads_the_digits_of_a_network(rt: HostRuntime) {
    let network = Some(Network(0x0123_ABCD));
    same(&rt, Network::from_hex("0123ABCD"), network);
    same(&rt, Network::from_hex("0123abCd"), network);
    for text in [
        "",
        "0123ABC",
        "0123ABCDE",
        "+123ABCD",
        " 123ABCD",
        "0x23ABCD",
        "0123ABCG",
    ] {
        same(&rt, (text, Network::from_hex(text)), (text, None));
    }
}

#[test]
fn reads_the_digits_of_a_node(rt: HostRuntime) {
    same(&rt, Node::from_hex("0000000000aA"), Some(NODE));
    for text in [
        "0000000000A",
        "0000000000AA0",
        "-000000000AA",
        "0000000000A ",
    ] {
        same(&rt, (text, Node::from_hex(text)), (text, None));
    }
}

fn kept(alloc: Global) -> Result<Vec<u8>, OutOfMemory> {
    let mut bytes = Vec::with_capacity(alloc, 1)?;
    bytes.push(7)?;
    Ok(bytes)
}

#[test]
fn comes_from_each_refusal(rt: HostRuntime) {
    same(&rt, kept(rt.alloc()).map(|bytes| bytes.len()), Ok(1));
    same(&rt, OutOfMemory::from(AllocError), OutOfMemory);
}
