//! A station.

use ipx_wire::Node;

/// A station that is known: the link where its node was last heard, or to which it came.
///
/// See the example of [`Segment`](crate::Segment).
#[derive(Clone, Copy, Debug, Default, PartialEq, Eq)]
pub struct Station {
    /// Its node.
    pub node: Node,
    /// Where it is.
    pub link: u8,
    /// Whether that link proved it; then it is known until it leaves.
    pub is_sure: bool,
    /// How many seconds longer it is known, unless it is sure or heard there again.
    pub seconds_left: u16,
}
