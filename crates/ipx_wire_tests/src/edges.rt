//! Packets and devices at their edges: the least and the greatest number of each type as text, entries by place and in order,
//! a writer that recovers.

use crate::messages::says;
use crate::same::same;
use ipx_wire::{
    Address, Crossed, Failed, Header, Network, Node, NotHex, Outlet, Rip, Sap, ServiceName, Socket,
};
use std::alloc::Global;
use std::fmt::{Debug, Display};
use std::io;
use std::io::{ErrorKind, Write};
use std::process::Abort;
use std::test::Fail;

const ZEROS: Address = Address {
    network: Network::LOCAL,
    node: Node([0; 6]),
    socket: Socket(0),
};

const ONES: Address = Address {
    network: Network(0xFFFF_FFFF),
    node: Node::BROADCAST,
    socket: Socket(0xFFFF),
};

/// Fails the test unless `{}` writes this text, and `{:?}` that one.
fn shows<R: Abort, T: Display + Debug + Drop>(
    rt: &R,
    alloc: Global,
    value: T,
    wanted: (&str, &str),
) -> Result<(), Fail> {
    let shown = format!(in alloc; "{value}")?;
    let debug = format!(in alloc; "{value:?}")?;
    same(rt, (shown.as_str(), debug.as_str()), wanted);
    Ok(())
}

#[test]
fn shows_zeros(rt: HostRuntime) -> Result<(), Fail> {
    shows(
        &rt,
        rt.alloc(),
        ZEROS.network,
        ("00000000", "Network(00000000)"),
    )?;
    shows(
        &rt,
        rt.alloc(),
        ZEROS.node,
        ("000000000000", "Node(000000000000)"),
    )?;
    shows(&rt, rt.alloc(), ZEROS.socket, ("0000", "Socket(0000)"))?;
    says(&rt, rt.alloc(), ZEROS, "00000000.000000000000.0000")?;
    Ok(())
}

#[test]
fn shows_all_ones(rt: HostRuntime) -> Result<(), Fail> {
    shows(
        &rt,
        rt.alloc(),
        ONES.network,
        ("FFFFFFFF", "Network(FFFFFFFF)"),
    )?;
    shows(
        &rt,
        rt.alloc(),
        ONES.node,
        ("FFFFFFFFFFFF", "Node(FFFFFFFFFFFF)"),
    )?;
    shows(&rt, rt.alloc(), ONES.socket, ("FFFF", "Socket(FFFF)"))?;
    says(&rt, rt.alloc(), ONES, "FFFFFFFF.FFFFFFFFFFFF.FFFF")?;
    Ok(())
}

#[test]
fn gives_the_digits(rt: HostRuntime) {
    same(&rt, ZEROS.network.digits(), *b"00000000");
    same(&rt, ZEROS.node.digits(), *b"000000000000");
    same(&rt, ZEROS.socket.digits(), *b"0000");
    same(&rt, ONES.network.digits(), *b"FFFFFFFF");
    same(&rt, ONES.node.digits(), *b"FFFFFFFFFFFF");
    same(&rt, ONES.socket.digits(), *b"FFFF");
    same(&rt, Network(0x0123_ABCD).digits(), *b"0123ABCD");
}

/// The name in a field that begins with these bytes, and has zeros behind them.
fn named(bytes: &[u8]) -> Option<ServiceName> {
    let mut field = [0; ServiceName::SIZE];
    for (place, byte) in bytes.iter().enumerate().take(ServiceName::SIZE) {
        field[place] = *byte;
    }
    ServiceName::read(&field)
}

#[test]
fn shows_a_name_as_one_word(rt: HostRuntime) -> Result<(), Fail> {
    let name = named(b"A~! \\\x01\xFF").expect(&rt, "a name");
    shows(
        &rt,
        rt.alloc(),
        name,
        ("A~!\\20\\5C\\01\\FF", "ServiceName(A~!\\20\\5C\\01\\FF)"),
    )?;
    let long = named(&[b'x'; 47]).expect(&rt, "a name");
    let shown = format!(in rt.alloc(); "{long}")?;
    same(&rt, shown.len(), 47);
    Ok(())
}

#[test]
fn parses_texts(rt: HostRuntime) -> Result<(), Fail> {
    same(&rt, "00000000".parse::<Network>(), Ok(Network::LOCAL));
    same(&rt, "ffffffff".parse::<Network>(), Ok(Network::ALL_ROUTES));
    let default_route = "fffffffe".parse::<Network>();
    same(&rt, default_route, Ok(Network::DEFAULT_ROUTE));
    same(&rt, "0000000".parse::<Network>(), Err(NotHex));
    same(&rt, "FFFFFFFFFFFF".parse::<Node>(), Ok(Node::BROADCAST));
    same(&rt, "00000000000G".parse::<Node>(), Err(NotHex));
    Ok(())
}

#[test]
fn numbers_the_packet_types(rt: HostRuntime) {
    let types = (Header::RIP, Header::SAP, Header::PROPAGATED);
    same(&rt, types, (1, 4, 20));
}

#[test]
fn gives_routes_in_order(rt: HostRuntime) -> Result<(), Fail> {
    let data = [0, 2, 0, 0, 0, 1, 0, 1, 0, 2, 0, 0, 0, 7, 0, 3, 0, 4];
    let rip = Rip::read(&data)?;
    let mut place = 0usize;
    for entry in rip.entries() {
        same(&rt, rip.get(place), Some(entry));
        place = place.wrapping_add(1);
    }
    same(&rt, place, 2);
    same(&rt, rip.get(1).map(|entry| entry.network), Some(Network(7)));
    same(&rt, rip.get(2), None);
    same(&rt, rip.get(usize::MAX), None);
    Ok(())
}

#[test]
fn gives_services_in_order(rt: HostRuntime) -> Result<(), Fail> {
    let mut data = [b'a'; 130];
    data[..2].copy_from_slice(&[0, 2]);
    data[66..68].copy_from_slice(&[0, 9]);
    match Sap::read(&data)? {
        Sap::Response { entries, .. } => {
            let mut place = 0usize;
            for entry in entries.entries() {
                same(&rt, entries.get(place), Some(entry));
                place = place.wrapping_add(1);
            }
            same(&rt, place, 2);
            same(&rt, entries.get(1).map(|entry| entry.kind), Some(9));
            same(&rt, entries.get(2), None);
            Ok(())
        }
        Sap::Query { .. } => panic!(rt; "a query"),
    }
}

#[test]
fn gives_networks_in_order(rt: HostRuntime) -> Result<(), Fail> {
    let mut data = [0; 32];
    data[3] = 0x10;
    data[7] = 0x20;
    let crossed = Crossed::read(2, &data)?;
    let mut networks = crossed.entries();
    same(&rt, networks.next(), Some(Network(0x10)));
    same(&rt, networks.next(), Some(Network(0x20)));
    assert!(rt; networks.next().is_none());
    assert!(rt; Crossed::read(0, &data)?.entries().next().is_none());
    Ok(())
}

/// Takes all that it is given, but fails at the second call.
#[derive(Drop)]
struct Recovers<'a> {
    taken: &'a mut Vec<u8>,
    calls: u32,
}

impl Write for Recovers<'_> {
    fn write(&mut self, buf: &[u8]) -> io::Result<usize> {
        self.calls = self.calls.wrapping_add(1);
        if self.calls == 2 {
            return Err(io::Error::from(ErrorKind::Interrupted));
        }
        match self.taken.extend_from_slice(buf) {
            Ok(()) => Ok(buf.len()),
            Err(_) => Err(io::Error::from(ErrorKind::OutOfMemory)),
        }
    }

    fn flush(&mut self) -> io::Result<()> {
        Ok(())
    }
}

#[test]
fn hands_bytes_on_after_a_failure(rt: HostRuntime) {
    let mut taken = Vec::new(rt.alloc());
    let mut outlet = Outlet::new(Recovers {
        taken: &mut taken,
        calls: 0,
    });
    same(&rt, outlet.write(b"ab"), Ok(2));
    assert!(rt; !outlet.failed());
    same(&rt, outlet.write(b"cd"), Err(Failed));
    assert!(rt; outlet.failed());
    same(&rt, outlet.write(b"ef"), Ok(2));
    assert!(rt; outlet.failed());
    drop(outlet);
    same(&rt, taken.as_slice(), b"abef".as_slice());
}
