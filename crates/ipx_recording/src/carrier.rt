//! How a recorded packet is carried.
use ipx_capture::Frame;

/// The IPX bytes behind the header of a link, by what carries them.
///
/// ```
/// match carried(1, bytes) {
///     Carried::Framed(Frame::Other) => println!(rt; "no IPX")?,
///     Carried::Framed(_) => println!(rt; "in a frame")?,
///     Carried::Ppp(packet) => println!(rt; "over a modem: {} bytes", packet.len())?,
///     Carried::Udp(packet) => println!(rt; "in a datagram: {} bytes", packet.len())?,
/// }
/// // prints in a frame
/// ```
#[derive(Clone, Copy, Debug, PartialEq, Eq)]
pub enum Carried<'a> {
    /// In a frame, or not at all: `Frame::Other`.
    Framed(Frame<'a>),
    /// Behind the protocol number of PPP.
    Ppp(&'a [u8]),
    /// In a datagram of UDP.
    Udp(&'a [u8]),
}
