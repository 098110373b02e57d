//! `ipxr`: plays a script on one router or on an internet of routers, or shows a capture, from a file or from standard input,
//! and writes the result to standard output.
//!
//! The words are judged first, then the file is opened, and then the run begins. Whatever stops the program before its end
//! is one line on standard error and an exit status:
//!
//! - `ipxr: usage`, 64: the words are no command, or no text.
//! - `ipxr: file`, 1: the file can't be opened.
//! - `ipxr: read`, 1: the input can't be read to its end.
//! - `ipxr: write`, 1: the output can't be written.
//! - `ipxr: memory`, 3: no memory was left.
//!
//! A run that comes to its end says nothing there: status 0 for good input, 2 for bad input.
#![tactic(auto)]

use ipx_cmd::{
    ChooseFault, Chosen, Ended, Run, RunFault, choose, decode, internet, replay, status,
};
use ipx_wire::{Intake, Outlet};
use std::alloc::AllocError;
use std::fs::File;
use std::io::{ErrorKind, Read};
use std::process::ExitCode;
use std::{env, io};
use thiserror::Error;

/// What stopped the program before its end.
#[derive(Clone, Copy, Debug, Error)]
enum Stop {
    #[error("usage")]
    Usage,
    #[error("file")]
    File,
    #[error("{0}")]
    Run(RunFault),
}

impl Stop {
    fn status(self) -> u8 {
        match self {
            Stop::Usage => 64,
            Stop::File => 1,
            Stop::Run(fault) => status(&Err(fault)),
        }
    }
}

impl From<ChooseFault> for Stop {
    fn from(fault: ChooseFault) -> Stop {
        match fault {
            ChooseFault::Usage => Stop::Usage,
            ChooseFault::Memory => Stop::Run(RunFault::Memory),
        }
    }
}

impl From<RunFault> for Stop {
    fn from(fault: RunFault) -> Stop {
        Stop::Run(fault)
    }
}

impl From<AllocError> for Stop {
    fn from(_refused: AllocError) -> Stop {
        Stop::Run(RunFault::Memory)
    }
}

fn main(rt: HostRuntime) -> ExitCode {
    let status = match run(&rt) {
        Ok(ended) => status(&Ok(ended)),
        Err(stop) => {
            // With no standard error to write to, the status alone tells it.
            let _ = eprintln!(rt; "ipxr: {stop}");
            stop.status()
        }
    };
    ExitCode::from(status)
}

fn run(rt: &HostRuntime) -> Result<Ended, Stop> {
    let Chosen { run, file } = chosen(rt)?;
    match file {
        Some(name) => match File::open(rt, name.as_str()) {
            Ok(file) => run_on(rt, run, file),
            Err(error) if error.kind() == ErrorKind::OutOfMemory => Err(AllocError.into()),
            Err(_) => Err(Stop::File),
        },
        None => run_on(rt, run, rt.stdin()),
    }
}

/// What the words after the program's name ask for.
fn chosen(rt: &HostRuntime) -> Result<Chosen, Stop> {
    let words = match env::args(rt) {
        Ok(words) => words.collect::<Vec<String>>(rt.alloc())?,
        Err(error) if error.kind() == ErrorKind::OutOfMemory => return Err(AllocError.into()),
        Err(_) => return Err(Stop::Usage),
    };
    let texts = words
        .iter()
        .skip(1)
        .map(|word| word.as_str())
        .collect::<Vec<&str>>(rt.alloc())?;
    Ok(choose(rt.alloc(), texts.as_slice())?)
}

/// Runs on what `reader` gives. Each piece of the output goes to standard output as it comes, with no buffer between.
fn run_on<R: Read + Drop>(rt: &HostRuntime, run: Run, reader: R) -> Result<Ended, Stop> {
    let mut intake = Intake::new(reader);
    let mut outlet = Outlet::new(io::writer(rt));
    match run {
        Run::Replay => Ok(replay(rt.alloc(), &mut intake, &mut outlet)?),
        Run::Decode => Ok(decode(rt.alloc(), &mut intake, &mut outlet)?),
        Run::Internet => Ok(internet(rt.alloc(), &mut intake, &mut outlet)?),
    }
}
