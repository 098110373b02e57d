//! What stands at the front of the bytes.
use crate::due::Due;
use crate::interface::Interface;
use ipx_capture::Order;

/// A part of a recording, with what comes behind it.
#[derive(Clone, Copy, Debug, PartialEq, Eq)]
pub enum Met {
    /// Nothing can be told before there are so many bytes.
    Wants(usize),
    /// So many bytes that show nothing.
    Passed(usize, Due),
    /// A packet: its link type, how many bytes are kept, and how many were on the wire.
    Captured(u16, u32, u32, Due),
    /// An interface of the section.
    Described(Interface, Due),
    /// A section in a byte order.
    Section(Order, Due),
}
