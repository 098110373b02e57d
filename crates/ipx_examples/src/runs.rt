//! What the program's words ask for, and a run of a script.

use anyhow::Result;
use ipx_cmd::{ChooseFault, Chosen, Ended, Run, RunFault, choose, replay};
use ipx_wire::{Intake, Outlet};
use std::io;

/// The words of a command line.
pub fn chosen(rt: &HostRuntime) -> Result<()> {
    match choose(rt.alloc(), &["decode", "old.pcap"]) {
        Ok(
            Chosen {
                run: Run::Decode,
                file,
            },
        ) => println!(rt; "shows {:?}", file)?,
        Ok(Chosen { run, .. }) => println!(rt; "{run:?}")?,
        Err(ChooseFault::Usage) => println!(rt; "no command of the program's")?,
        Err(ChooseFault::Memory) => println!(rt; "out of memory")?,
    }
    // prints shows Some("old.pcap")
    Ok(())
}

/// A script, played.
pub fn ended(rt: &HostRuntime) -> Result<()> {
    let mut intake = Intake::new("port 00000010 000000000001 1 576\n".as_bytes());
    let mut outlet = Outlet::new(io::writer(rt));
    match replay(rt.alloc(), &mut intake, &mut outlet) {
        Ok(Ended::Done) => println!(rt; "a good script")?,
        Ok(Ended::BadInput) => println!(rt; "the last line says what is wrong")?,
        Err(RunFault::Memory) => println!(rt; "out of memory")?,
        Err(fault) => println!(rt; "{fault}")?,
    }
    // prints a good script
    Ok(())
}
