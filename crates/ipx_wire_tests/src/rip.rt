//! Packets of the routing information protocol, read.

use crate::same::same;
use ipx_wire::{Network, Rip, RipFault};
use std::test::Fail;

#[test]
fn reads_one_to_fifty_entries(rt: HostRuntime) -> Result<(), Fail> {
    let mut data = [0; 410];
    data[1] = 3;
    same(&rt, Rip::read(&data[..1]).err(), Some(RipFault::Short));
    let fault = Rip::read(&data[..2]).err();
    same(&rt, fault, Some(RipFault::Operation(3)));
    data[1] = 1;
    same(&rt, Rip::read(&data[..9]).err(), Some(RipFault::NoEntry));
    data[1] = 2;
    same(&rt, Rip::read(&data).err(), Some(RipFault::TooMany));
    data[397] = 0x77;
    let rip = Rip::read(&data[..409])?;
    assert!(rt; rip.len() == 50);
    let mut k = 0;
    for entry in rip.entries() {
        assert!(rt; k < rip.len());
        same(&rt, entry, rip.entry(k));
        k += 1;
    }
    same(&rt, k, 50);
    same(&rt, rip.entry(49).network, Network(0x77));
    Ok(())
}
