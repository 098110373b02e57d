//! Names of services, and their order.

use crate::same::same;
use ipx_wire::ServiceName;
use std::cmp::Ordering;

/// The field that begins with these bytes and is filled with zeros.
fn field_of(front: [u8; 4]) -> [u8; 48] {
    let mut field = [0; 48];
    field[..4].copy_from_slice(&front);
    field
}

#[test]
fn reads_the_bytes_before_the_first_zero(rt: HostRuntime) {
    let name = ServiceName::read(&field_of(*b"S\0XX")).expect(&rt, "a name");
    same(&rt, name.bytes(), b"S".as_slice());
    same(&rt, name.field(), field_of(*b"S\0\0\0"));
    same(&rt, ServiceName::read(&name.field()), Some(name));
}

#[test]
fn refuses_an_empty_name_and_one_of_48_bytes(rt: HostRuntime) {
    let mut field = [b'A'; 48];
    same(&rt, ServiceName::read(&field), None);
    field[47] = 0;
    let longest = ServiceName::read(&field).expect(&rt, "a name");
    same(&rt, longest.bytes(), [b'A'; 47].as_slice());
    same(&rt, longest.field(), field);
    field[0] = 0;
    same(&rt, ServiceName::read(&field), None);
}

#[test]
fn orders_names_by_their_bytes(rt: HostRuntime) {
    let short = ServiceName::read(&field_of(*b"S1\0\0")).expect(&rt, "a name");
    let long = ServiceName::read(&field_of(*b"S10\0")).expect(&rt, "a name");
    let later = ServiceName::read(&field_of(*b"S2\0\0")).expect(&rt, "a name");
    same(&rt, short.cmp(&long), Ordering::Less);
    same(&rt, later.cmp(&long), Ordering::Greater);
    same(&rt, short.cmp(&short), Ordering::Equal);
    assert!(rt; short < later);
    same(&rt, ServiceName::default().bytes(), b"?".as_slice());
}
