//! The kinds of Ethernet frames in which IPX packets were sent.

/// The IPX bytes of a frame, by the kind of the frame.
///
/// ```
/// match frame(bytes) {
///     Frame::EthernetII(packet) => println!(rt; "by its type: {} bytes", packet.len())?,
///     Frame::Raw(packet) => println!(rt; "raw: {} bytes", packet.len())?,
///     Frame::Llc(packet) | Frame::Snap(packet) => println!(rt; "802.2: {} bytes", packet.len())?,
///     Frame::Other => println!(rt; "no IPX")?,
/// }
/// // prints raw: 46 bytes
/// ```
#[derive(Clone, Copy, Debug, PartialEq, Eq)]
pub enum Frame<'a> {
    /// The frame's type is 8137h.
    EthernetII(&'a [u8]),
    /// A length, and the packet right behind it: Novell's own format, which knows no checksum.
    Raw(&'a [u8]),
    /// A length, and an 802.2 header with the access points E0h.
    Llc(&'a [u8]),
    /// A length, and an 802.2 header that names the protocol 8137h.
    Snap(&'a [u8]),
    /// It carries no IPX packet.
    Other,
}

/// A kind of frame that carries IPX packets, as [`Frame`] tells them apart.
///
/// ```
/// let mut out = [0; 1514];
/// match write_frame(FrameKind::Raw, to, from, packet, &mut out) {
///     Some(size) => println!(rt; "a frame of {size} bytes")?,
///     None => println!(rt; "a frame of this kind can't carry it")?,
/// }
/// // prints a frame of 60 bytes
/// ```
#[derive(Clone, Copy, Debug, PartialEq, Eq)]
pub enum FrameKind {
    /// By its type.
    EthernetII,
    /// Behind a length alone: only packets without a checksum.
    Raw,
    /// Behind a length and access points.
    Llc,
    /// Behind a length and the name of the protocol.
    Snap,
}
