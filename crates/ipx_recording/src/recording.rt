//! How far a recording has been read.
ghost use Rattle.std.specs.Prelude.{◌≡◌, ◌≤◌, IfOk, IfErr, length};
ghost use Rattle.ipx_recording.specs.Recorded as spec;

use crate::blocks::{INTERFACE_FRONT, MOST_INTERFACES, SECTION_FRONT, look, read_section};
use crate::due::Due;
use crate::interface::Interface;
use crate::met::Met;
use crate::recording_fault::RecordingFault;
use arrayvec::ArrayVec;
use ipx_capture::Order;
use std::marker::Model;

/// What a recording begins with: the kind of a section's header.
const MARK: [u8; 4] = [0x0A, 0x0D, 0x0D, 0x0A];

/// Whether a file that begins with these bytes is a recording.
#[tactic(auto, unfolding(crate::specs::Recorded::is_recording))]
pub fn is_recording(bytes: &[u8]) -> bool
    ensures { result ≡ spec.is_recording bytes.now }
{
    bytes.starts_with(&MARK)
}

/// A recording, part by part: it is handed the bytes that come next, says how many it took, and which of them are a packet.
///
/// ```
/// let (header, mut rest) = file.split_at(Recording::HEADER);
/// let mut recording = Recording::begin(header)?;
/// for _ in 0..u64::MAX {
///     match recording.step(rest)? {
///         Step::Wants(_) => break,
///         Step::Passed(size) => rest = &rest[size..],
///         Step::Packet(Kept { link, size, .. }) => {
///             println!(rt; "a packet of link type {link} keeps {size} bytes")?;
///             rest = &rest[4..];
///             rest = &rest[size..];
///         }
///     }
/// }
/// match recording.end(rest) {
///     None => println!(rt; "the file is whole")?,
///     Some(fault) => println!(rt; "{fault}")?,
/// }
/// // prints a packet of link type 1 keeps 2 bytes
/// // prints the file is whole
/// ```
#[derive(Drop)]
pub struct Recording {
    order: Order,
    interfaces: ArrayVec<Interface, MOST_INTERFACES>,
    due: Due,
}

impl Model for Recording {
    ghost use Rattle.ipx_recording.specs.Recorded.{State};
    ghost use Rattle.ipx_recording.specs.Steps.{IsDue};

    ghost Value = { State };

    ghost view = { λ r. record { order = r.order; interfaces = r.interfaces.items; due = r.due } };

    ghost invariant = { λ r. IsDue r.due };
}

/// What a recording says of the bytes at its front.
///
/// See the example of [`Recording`].
#[derive(Clone, Copy, Debug, PartialEq, Eq)]
pub enum Step {
    /// Nothing before there are so many bytes.
    Wants(usize),
    /// So many bytes were taken, and show nothing.
    Passed(usize),
    /// Four bytes were taken, and then those of a packet.
    Packet(Kept),
}

/// What is known of a packet beside its bytes.
///
/// See the example of [`Recording`].
#[derive(Clone, Copy, Debug, PartialEq, Eq)]
pub struct Kept {
    /// The link type of the interface that it was recorded on.
    pub link: u16,
    /// How many bytes were kept.
    pub size: usize,
    /// How many bytes it had on the wire.
    pub wire: u32,
}

impl Recording {
    ghost use Rattle.std.specs.Prelude.{◌≡◌, ◌≤◌, IfOk, IfErr, Ok, Err};
    ghost use Rattle.ipx_recording.specs.Recorded.{begins};
    ghost use Rattle.ipx_recording.specs.Steps.{Stepped, Refused, IsFew, IsWithin, Fits, step_of};

    /// How many bytes a file's first section has in front of its options.
    pub const HEADER: usize = 24;

    /// A recording whose first section begins with these bytes, and which stands behind the 24th.
    #[tactic(auto, unfolding(crate::specs::Recorded::begins))]
    pub fn begin(header: &[u8]) -> Result<Recording, RecordingFault>
        ensures ok { IfOk result (λ r. begins header.now ≡ Ok r) }
        ensures err { IfErr result (λ fault. begins header.now ≡ Err fault) }
    {
        if header.len() < Recording::HEADER {
            return Err(RecordingFault::CutHeader);
        }
        if !is_recording(header) {
            return Err(RecordingFault::Magic);
        }
        let mut recording = Recording {
            order: Order::Big,
            interfaces: ArrayVec::new(),
            due: Due::Block,
        };
        recording.take(read_section(header)?);
        Ok(recording)
    }

    /// Takes the part at the front of the bytes.
    ///
    /// A recording with a fault tells it again.
    #[tactic(auto, using(crate::proofs::Within::within))]
    pub fn step(&mut self, bytes: &[u8]) -> Result<Step, RecordingFault>
        ensures ok { IfOk result (Stepped self.old self.new bytes.now) }
        ensures within { IfOk result (IsWithin bytes.now) }
        ensures few { IfOk result IsFew }
        ensures err { IfErr result (Refused self.old self.new bytes.now) }
    {
        let met = look(self.order, &self.interfaces, self.due, bytes)?;
        Ok(self.take(met))
    }

    /// Where the file ends behind these bytes, which tell nothing: whether its end is whole, or the fault.
    pub fn end(&self, bytes: &[u8]) -> Option<RecordingFault>
        ensures { result ≡ spec.end_at self.now.due bytes.now }
    {
        match self.due {
            Due::Block if bytes.is_empty() => None,
            Due::Block | Due::Packet(..) | Due::Rest(..) => Some(RecordingFault::CutBlock),
        }
    }

    /// Goes on behind what was met.
    fn take(&mut self, met: Met) -> Step
        requires { Fits self.old.interfaces met }
        ensures after { self.new ≡ spec.after self.old met }
        ensures step { result ≡ step_of met }
    {
        match met {
            Met::Wants(need) => Step::Wants(need),
            Met::Passed(size, due) => {
                self.due = due;
                Step::Passed(size)
            }
            Met::Captured(link, kept, wire, due) => {
                self.due = due;
                Step::Packet(Kept {
                    link,
                    size: kept as usize,
                    wire,
                })
            }
            Met::Described(interface, due) => {
                self.interfaces.push(interface);
                self.due = due;
                Step::Passed(INTERFACE_FRONT)
            }
            Met::Section(order, due) => {
                self.order = order;
                self.interfaces.clear();
                self.due = due;
                Step::Passed(SECTION_FRONT)
            }
        }
    }
}
