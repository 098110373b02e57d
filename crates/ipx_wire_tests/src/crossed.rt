//! The list of networks that a packet has crossed.

use crate::same::same;
use ipx_wire::{Crossed, CrossedFault, Network};
use std::test::Fail;

#[test]
fn refuses_few_bytes_before_a_full_list(rt: HostRuntime) {
    let payload = [0; 32];
    let fault = Crossed::read(0, &payload[..31]).err();
    same(&rt, fault, Some(CrossedFault::Short));
    let fault = Crossed::read(8, &payload[..31]).err();
    same(&rt, fault, Some(CrossedFault::Short));
    let fault = Crossed::read(8, &payload).err();
    same(&rt, fault, Some(CrossedFault::Full));
    let fault = Crossed::read(0xFF, &payload).err();
    same(&rt, fault, Some(CrossedFault::Full));
    assert!(rt; Crossed::read(7, &payload).is_ok());
}

#[test]
fn reads_as_many_networks_as_were_crossed(rt: HostRuntime) -> Result<(), Fail> {
    let mut payload = [0; 40];
    payload[3] = 0x10;
    payload[4] = 0xAB;
    payload[11] = 0x30;
    let crossed = Crossed::read(2, &payload)?;
    same(&rt, crossed.len(), 2);
    same(&rt, crossed.get(0), Network(0x10));
    same(&rt, crossed.get(1), Network(0xAB00_0000));
    assert!(rt; crossed.contains(Network(0x10)));
    assert!(rt; crossed.contains(Network(0xAB00_0000)));
    assert!(rt; !crossed.contains(Network(0x30)));
    assert!(rt; !crossed.contains(Network(0)));
    let none = Crossed::read(0, &payload)?;
    same(&rt, none.len(), 0);
    assert!(rt; !none.contains(Network(0x10)));
    Ok(())
}
