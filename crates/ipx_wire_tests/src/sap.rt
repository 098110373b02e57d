//! Packets of the service advertising protocol, read and written.

use crate::same::same;
use ipx_wire::{
    Address, Network, Node, Packet, Sap, SapEntry, SapFault, Service, ServiceName, Socket,
    put_service, write_sap, write_sap_front,
};
use std::cmp::Ordering;
use std::test::Fail;

#[test]
fn reads_queries(rt: HostRuntime) -> Result<(), Fail> {
    for data in [&[0, 1, 0, 4, 0xFF], &[0, 1, 0, 4]] as [&[u8]; 2] {
        match Sap::read(data)? {
            Sap::Query { nearest, kind } => {
                assert!(rt; !nearest);
                same(&rt, kind, 4);
            }
            Sap::Response { .. } => panic!(rt; "a response"),
        }
    }
    same(&rt, Sap::read(&[0, 1, 0]).err(), Some(SapFault::Short));
    same(&rt, Sap::read(&[0]).err(), Some(SapFault::Short));
    same(&rt, Sap::read(&[0, 5]).err(), Some(SapFault::Operation(5)));
    Ok(())
}

fn on(network: u32, last: u8, socket: Socket) -> Address {
    Address {
        network: Network(network),
        node: Node([0, 0, 0, 0, 0, last]),
        socket,
    }
}

/// The name of a file server. What stands behind the zero is ignored.
fn name() -> Option<ServiceName> {
    let mut field = [0; 48];
    field[..4].copy_from_slice(b"S8\0X");
    ServiceName::read(&field)
}

/// The file server of that name.
fn server(name: ServiceName) -> Service {
    Service {
        kind: 4,
        name,
        address: on(0x30, 1, Socket(0x0451)),
        hops: 2,
    }
}

/// The answer that tells the server to a query for the nearest, with two bytes EEh behind it, and the length that is told of it.
fn told(name: ServiceName) -> ([u8; 98], usize) {
    let mut out = [0xEE; 98];
    let service = server(name);
    let from = on(0x10, 1, Socket::SAP);
    let to = on(0x10, 0xAA, Socket::SAP);
    let count = write_sap(from, to, true, &[service], &mut out);
    (out, count)
}

#[test]
fn writes_a_service_and_leaves_the_rest(rt: HostRuntime) {
    let (out, count) = told(name().expect(&rt, "a name"));
    same(&rt, count, 96);
    same(&rt, &out[96..], [0xEE, 0xEE].as_slice());
    let front = [0, 4, 0, 4, b'S', b'8', 0, 0, 0];
    same(&rt, &out[30..39], front.as_slice());
    let behind = [0, 0, 0, 0x30, 0, 0, 0, 0, 0, 1, 4, 0x51, 0, 2];
    same(&rt, &out[82..96], behind.as_slice());
}

#[test]
fn writes_a_response_service_by_service(rt: HostRuntime) {
    let first = server(name().expect(&rt, "a name"));
    let second = Service { kind: 7, ..first };
    let from = on(0x10, 1, Socket::SAP);
    let to = on(0x10, 0xAA, Socket::SAP);
    for nearest in [false, true] {
        let mut whole = [0xEE; 162];
        let sent = [first, Service { hops: 16, ..second }];
        let size = write_sap(from, to, nearest, &sent, &mut whole);
        let mut out = [0xEE; 162];
        put_service(&mut out, 96, &second, 16);
        put_service(&mut out, 32, &first, first.hops);
        same(&rt, write_sap_front(from, to, nearest, 2, &mut out), size);
        same(&rt, out.as_slice(), whole.as_slice());
    }
}

#[test]
fn reads_a_service_that_was_written(rt: HostRuntime) -> Result<(), Fail> {
    let (out, _) = told(name().expect(&rt, "a name"));
    let packet = Packet::read(&out)?;
    same(&rt, packet.header().length, 96);
    match Sap::read(packet.payload())? {
        Sap::Response { nearest, entries } => {
            assert!(rt; nearest);
            same(&rt, entries.len(), 1);
            let entry = SapEntry {
                kind: 4,
                name: name(),
                address: on(0x30, 1, Socket(0x0451)),
                hops: 2,
            };
            same(&rt, entries.get(0), Some(entry));
        }
        Sap::Query { .. } => panic!(rt; "a query"),
    }
    Ok(())
}

#[test]
fn compares_a_service_with_the_bytes_of_an_entry(rt: HostRuntime) -> Result<(), Fail> {
    let sent = server(name().expect(&rt, "a name"));
    let (out, _) = told(sent.name);
    let packet = Packet::read(&out)?;
    match Sap::read(packet.payload())? {
        Sap::Response { entries, .. } => {
            assert!(rt; 0 < entries.len());
            let bytes = entries.bytes_from(0);
            assert!(rt; sent.is_entry(bytes));
            same(&rt, sent.cmp_entry(bytes), Ordering::Equal);
            assert!(rt; !Service { hops: 3, ..sent }.is_entry(bytes));
            let printer = Service { kind: 7, ..sent };
            same(&rt, printer.cmp_entry(bytes), Ordering::Greater);
        }
        Sap::Query { .. } => panic!(rt; "a query"),
    }
    Ok(())
}
