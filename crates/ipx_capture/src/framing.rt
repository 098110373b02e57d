//! Which kind a frame is, and where its packet begins.
ghost use Rattle.std.specs.Prelude.{◌≡◌, List, ℕ, Some, IfSome};
ghost use Rattle.ipx_capture.specs.Frame.{Kind, IsFrame, frame_of};
ghost use Rattle.ipx_capture.specs.Frame as spec;
ghost use Rattle.ipx_capture.specs.Framed.{framed};

use crate::kinds::Frame;

/// How many bytes stand before what a frame carries: two addresses, and its type or length.
pub(crate) const HEADER: usize = 14;

/// The type of IPX.
pub(crate) const IPX: u16 = 0x8137;

/// From here on the field is a type, under it a length.
const FIRST_TYPE: u16 = 0x600;

/// The checksum field with which Novell's own kind begins.
pub(crate) const UNSUMMED: [u8; 2] = [0xFF, 0xFF];

/// The 802.2 header of IPX by its access points.
pub(crate) const LLC: [u8; 3] = [0xE0, 0xE0, 0x03];

/// The 802.2 header of a protocol, which is 8137h.
pub(crate) const SNAP: [u8; 8] = [0xAA, 0xAA, 0x03, 0x00, 0x00, 0x00, 0x81, 0x37];

/// Finds the IPX bytes of an Ethernet frame.
///
/// They reach to the frame's end, whatever its length says: the packet's own length decides what is padding.
pub fn frame(bytes: &[u8]) -> Frame<'_>
    ensures found { IfSome (framed result) (λ f. IsFrame bytes.now f.0 f.1) }
    ensures only { (kind : Kind) (packet : List ℕ) → IsFrame bytes.now kind packet → framed result ≡ Some (kind, packet) }
    // The same as a function of the bytes.
    ensures value { framed result ≡ frame_of bytes.now }
{
    if bytes.len() < HEADER {
        return Frame::Other;
    }
    let field = u16::from_be_bytes([bytes[12], bytes[13]]);
    by_field(field, &bytes[HEADER..])
}

/// The kind of a frame by its type or length, with what follows that.
pub fn by_field(field: u16, rest: &[u8]) -> Frame<'_>
    ensures { framed result ≡ spec.by_field field rest.now }
{
    if field == IPX {
        return Frame::EthernetII(rest);
    }
    if field < FIRST_TYPE {
        return by_front(rest);
    }
    Frame::Other
}

/// The kind of a frame with a length, by what stands behind it.
fn by_front(rest: &[u8]) -> Frame<'_>
    ensures { framed result ≡ spec.by_front rest.now }
{
    if rest.starts_with(&UNSUMMED) {
        return Frame::Raw(rest);
    }
    if rest.starts_with(&LLC) {
        return Frame::Llc(&rest[LLC.len()..]);
    }
    if rest.starts_with(&SNAP) {
        return Frame::Snap(&rest[SNAP.len()..]);
    }
    Frame::Other
}
