//! The message of every fault of bytes and of captures, the numbers behind one, and the words of every operation.
//!
//! What is wanted stands in a `match` for each enum, so a variant that is new doesn't compile before it has its text here.

use crate::same::same;
use ipx_capture::CaptureFault;
use ipx_wire::{
    CrossedFault, Failed, Measure, NotHex, Operation, OutOfMemory, PacketFault, RipFault, SapFault,
};
use std::alloc::Global;
use std::fmt::Display;
use std::process::Abort;
use std::test::Fail;

/// Fails the test unless `{}` writes this text.
pub fn says<R: Abort, T: Display + Drop>(
    rt: &R,
    alloc: Global,
    value: T,
    wanted: &str,
) -> Result<(), Fail> {
    let text = format!(in alloc; "{value}")?;
    same(rt, text.as_str(), wanted);
    Ok(())
}

fn packet_message(fault: PacketFault) -> &'static str {
    match fault {
        PacketFault::Short => "fewer bytes than a header",
        PacketFault::LengthSmall => "a length smaller than the header",
        PacketFault::LengthBeyond => "a length beyond the last byte",
    }
}

fn rip_message(fault: RipFault) -> &'static str {
    match fault {
        RipFault::Short => "no operation",
        RipFault::Operation(_) => "operation 65535 is neither request nor response",
        RipFault::NoEntry => "no entry",
        RipFault::TooMany => "more than fifty entries",
    }
}

fn sap_message(fault: SapFault) -> &'static str {
    match fault {
        SapFault::Short => "no operation, or no type",
        SapFault::Operation(_) => "operation 65535 is neither query nor response",
        SapFault::NoEntry => "no entry",
        SapFault::TooMany => "more than seven entries",
    }
}

fn crossed_message(fault: CrossedFault) -> &'static str {
    match fault {
        CrossedFault::Short => "no room for eight networks",
        CrossedFault::Full => "no place for one network more",
    }
}

#[test]
fn says_why_bytes_are_no_packet(rt: HostRuntime) -> Result<(), Fail> {
    for fault in [
        PacketFault::Short,
        PacketFault::LengthSmall,
        PacketFault::LengthBeyond,
    ] {
        says(&rt, rt.alloc(), fault, packet_message(fault))?;
    }
    for fault in [
        RipFault::Short,
        RipFault::Operation(0xFFFF),
        RipFault::NoEntry,
        RipFault::TooMany,
    ] {
        says(&rt, rt.alloc(), fault, rip_message(fault))?;
    }
    for fault in [
        SapFault::Short,
        SapFault::Operation(0xFFFF),
        SapFault::NoEntry,
        SapFault::TooMany,
    ] {
        says(&rt, rt.alloc(), fault, sap_message(fault))?;
    }
    for fault in [CrossedFault::Short, CrossedFault::Full] {
        says(&rt, rt.alloc(), fault, crossed_message(fault))?;
    }
    Ok(())
}

fn measure_message(measure: Measure) -> &'static str {
    match measure {
        Measure::Bytes { .. } => "29 bytes came, and 30 are needed",
        Measure::Length { .. } => "34 bytes came, and 60 are counted",
        Measure::Entries { .. } => {
            "410 bytes came, with 51 whole entries of at most 50 behind operation 2"
        }
        Measure::Crossed { .. } => "8 networks were crossed, of at most 7",
    }
}

#[test]
fn tells_the_numbers_behind_a_fault(rt: HostRuntime) -> Result<(), Fail> {
    for measure in [
        Measure::Bytes {
            came: 29,
            least: 30,
        },
        Measure::Length { said: 60, came: 34 },
        Measure::Entries {
            operation: 2,
            came: 410,
            whole: 51,
            most: 50,
        },
        Measure::Crossed { said: 8, most: 7 },
    ] {
        says(&rt, rt.alloc(), measure, measure_message(measure))?;
    }
    Ok(())
}

#[test]
fn says_what_has_one_reason(rt: HostRuntime) -> Result<(), Fail> {
    says(&rt, rt.alloc(), Failed, "the device failed")?;
    says(&rt, rt.alloc(), OutOfMemory, "memory")?;
    let wanted = "not the hexadecimal digits of a network or a node";
    says(&rt, rt.alloc(), NotHex, wanted)?;
    Ok(())
}

fn operation_word(operation: Operation) -> &'static str {
    match operation {
        Operation::Request => "request",
        Operation::Response => "response",
    }
}

#[test]
fn names_each_operation(rt: HostRuntime) -> Result<(), Fail> {
    for operation in [Operation::Request, Operation::Response] {
        says(&rt, rt.alloc(), operation, operation_word(operation))?;
    }
    Ok(())
}

fn capture_message(fault: CaptureFault) -> &'static str {
    match fault {
        CaptureFault::CutHeader => "the file ends inside its header",
        CaptureFault::Magic => "no capture file by its first four bytes",
        CaptureFault::Version => "a version other than 2.4",
        CaptureFault::Link => "a link type other than Ethernet",
        CaptureFault::RecordLong => "a record of more than 262,144 bytes",
        CaptureFault::CutRecord => "the file ends inside a record",
        CaptureFault::Read => "read",
        CaptureFault::Memory => "memory",
    }
}

#[test]
fn says_why_a_capture_is_refused(rt: HostRuntime) -> Result<(), Fail> {
    for fault in [
        CaptureFault::CutHeader,
        CaptureFault::Magic,
        CaptureFault::Version,
        CaptureFault::Link,
        CaptureFault::RecordLong,
        CaptureFault::CutRecord,
        CaptureFault::Read,
        CaptureFault::Memory,
    ] {
        says(&rt, rt.alloc(), fault, capture_message(fault))?;
    }
    Ok(())
}
