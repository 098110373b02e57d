//! What a log says of bytes that a reader refused: the numbers, beside the fault.
ghost use Rattle.std.specs.Prelude.{◌≡◌, Some};
ghost use Rattle.ipx_wire.specs.Measure.{packet_measure, rip_measure, sap_measure, crossed_measure, measure_text};

use crate::crossed::Crossed;
use crate::fields::u16_at;
use crate::header::Header;
use crate::packet::Packet;
use crate::rip::{Rip, RipEntry};
use crate::sap::Sap;
use crate::sap_entries::SapEntry;
use std::fmt;

/// The numbers behind a reader's fault: what the bytes say about themselves, and how many of them came.
///
/// ```
/// if let Err(fault) = Packet::read(bytes) {
///     println!(rt; "{fault}: {}", Packet::measure(bytes))?;
/// }
/// // prints a length beyond the last byte: 34 bytes came, and 65535 are counted
/// ```
#[derive(Clone, Copy, Debug, PartialEq, Eq, Hash)]
pub enum Measure {
    /// There are too few bytes for what every packet has, or every operation.
    Bytes {
        /// How many bytes came.
        came: usize,
        /// How many there have to be at least.
        least: usize,
    },
    /// A packet counts its bytes.
    Length {
        /// The bytes of header and data, as the length field says.
        said: u16,
        /// How many bytes came.
        came: usize,
    },
    /// An operation, and what may be entries behind it.
    Entries {
        /// The number of the operation.
        operation: u16,
        /// How many bytes came, the operation's two among them.
        came: usize,
        /// The entries that stand there whole.
        whole: usize,
        /// How many there may be at most.
        most: usize,
    },
    /// A packet tells how many networks it crossed.
    Crossed {
        /// The transport control.
        said: u8,
        /// The most networks that a packet may have crossed before it crosses one more.
        most: u8,
    },
}

impl Packet<'_> {
    /// The numbers by which [`Packet::read`] accepts or refuses bytes: how many came and, from 30 bytes on, the
    /// length.
    pub fn measure(bytes: &[u8]) -> Measure
        ensures { result ≡ packet_measure bytes.now }
    {
        let came = bytes.len();
        if came < Header::SIZE {
            return Measure::Bytes {
                came,
                least: Header::SIZE,
            };
        }
        Measure::Length {
            said: u16_at(bytes, 2),
            came,
        }
    }
}

impl Rip<'_> {
    /// The numbers by which [`Rip::read`] accepts or refuses data: how many bytes came and, from 2 bytes on, the
    /// operation and the entries.
    pub fn measure(payload: &[u8]) -> Measure
        ensures { result ≡ rip_measure payload.now }
    {
        let came = payload.len();
        if came < 2 {
            return Measure::Bytes { came, least: 2 };
        }
        Measure::Entries {
            operation: u16_at(payload, 0),
            came,
            whole: (came - 2) / RipEntry::SIZE,
            most: RipEntry::MOST,
        }
    }
}

impl Sap<'_> {
    /// The numbers by which [`Sap::read`] accepts or refuses data: how many bytes came and, from 2 bytes on, or 4 of
    /// a query, the operation and the entries.
    pub fn measure(payload: &[u8]) -> Measure
        ensures { result ≡ sap_measure payload.now }
    {
        let came = payload.len();
        if came < 2 {
            return Measure::Bytes { came, least: 2 };
        }
        let operation = u16_at(payload, 0);
        if came < 4 && (operation == 1 || operation == 3) {
            return Measure::Bytes { came, least: 4 };
        }
        Measure::Entries {
            operation,
            came,
            whole: (came - 2) / SapEntry::SIZE,
            most: SapEntry::MOST,
        }
    }
}

impl Crossed<'_> {
    /// The numbers by which [`Crossed::read`] accepts or refuses data: under 32 bytes how many came, otherwise how
    /// many networks were crossed.
    pub fn measure(control: u8, payload: &[u8]) -> Measure
        ensures { result ≡ crossed_measure control payload.now }
    {
        let came = payload.len();
        if came < Crossed::SIZE {
            return Measure::Bytes {
                came,
                least: Crossed::SIZE,
            };
        }
        Measure::Crossed {
            said: control,
            most: Crossed::PLACES - 1,
        }
    }
}

/// A sentence of the numbers, as `34 bytes came, and 60 are counted`.
impl fmt::Display for Measure {
    ghost output = { λ measure. Some (measure_text measure) };

    fn fmt<W: fmt::Write>(&self, f: &mut fmt::Formatter<W>) -> fmt::Result {
        match *self {
            Measure::Bytes { came, least } => {
                write!(f, "{came} bytes came, and {least} are needed")
            }
            Measure::Length { said, came } => {
                write!(f, "{came} bytes came, and {said} are counted")
            }
            Measure::Entries {
                operation,
                came,
                whole,
                most,
            } => write!(
                f,
                "{came} bytes came, with {whole} whole entries of at most {most} behind operation {operation}"
            ),
            Measure::Crossed { said, most } => {
                write!(f, "{said} networks were crossed, of at most {most}")
            }
        }
    }
}
