//! Where a packet begins behind the header of a link.
ghost use Rattle.std.specs.Prelude.{◌≡◌, ◌+◌, ◌≤◌, length};
ghost use Rattle.ipx_wire.specs.Piece.{piece};
ghost use Rattle.ipx_recording.specs.Carried as spec;
ghost use Rattle.ipx_recording.specs.Carried.{carried_by, carried_in};

use crate::carrier::Carried;
use ipx_capture::{Frame, Order, by_field};

/// The link type of Ethernet.
const ETHERNET: u16 = 1;

/// The link type of PPP.
const PPP: u16 = 9;

/// The link type of IP without a header before it.
const IP: u16 = 101;

/// What Linux records of all its interfaces, in the first form.
const COOKED: u16 = 113;

/// The same in the second form.
const COOKED_AGAIN: u16 = 276;

/// The type of IP in a frame.
const IP_TYPE: u16 = 0x0800;

/// The type of a tag.
const TAG: u16 = 0x8100;

/// The type of an outer tag.
const OUTER_TAG: u16 = 0x88A8;

/// How many bytes a tag has behind its type.
const TAG_SIZE: usize = 4;

/// The number of UDP in a packet of IP.
const UDP: u8 = 17;

/// The port that is registered for IPX.
const REGISTERED_PORT: u16 = 213;

/// The port of the gateway.
const GATEWAY_PORT: u16 = 2130;

/// Finds the IPX bytes of a recorded packet, by the link type of its interface.
///
/// They reach as far as their carrier does: the packet's own length decides what is padding.
#[tactic(auto, unfolding(crate::specs::Carried::carried_in))]
pub fn carried(link: u16, bytes: &[u8]) -> Carried<'_>
    ensures { carried_by result ≡ carried_in link bytes.now }
{
    match link {
        ETHERNET => behind(14, 12, bytes),
        PPP => by_ppp(bytes),
        IP => by_ip(bytes),
        COOKED => behind(16, 14, bytes),
        COOKED_AGAIN => behind(20, 0, bytes),
        _ => Carried::Framed(Frame::Other),
    }
}

/// What stands behind a header that has the type at a place.
#[tactic(auto, unfolding(crate::specs::Carried::behind))]
fn behind(size: usize, place: usize, bytes: &[u8]) -> Carried<'_>
    requires { place + 2 ≤ size }
    ensures { carried_by result ≡ spec.behind size place bytes.now }
{
    if bytes.len() < size {
        return Carried::Framed(Frame::Other);
    }
    let (_, rest) = bytes.split_at(size);
    by_type(u16_at(bytes, place), rest)
}

/// What a type says, behind up to two tags.
#[tactic(auto, unfolding(crate::specs::Carried::by_type))]
fn by_type(field: u16, rest: &[u8]) -> Carried<'_>
    ensures { carried_by result ≡ spec.by_type field rest.now }
{
    if !is_tag(field) {
        return by_protocol(field, rest);
    }
    if rest.len() < TAG_SIZE {
        return Carried::Framed(Frame::Other);
    }
    let (tag, inner) = rest.split_at(TAG_SIZE);
    by_inner(u16_at(tag, 2), inner)
}

/// What a type says, behind one tag or none.
#[tactic(auto, unfolding(crate::specs::Carried::by_inner))]
fn by_inner(field: u16, rest: &[u8]) -> Carried<'_>
    ensures { carried_by result ≡ spec.by_inner field rest.now }
{
    if !is_tag(field) {
        return by_protocol(field, rest);
    }
    if rest.len() < TAG_SIZE {
        return Carried::Framed(Frame::Other);
    }
    let (_, inner) = rest.split_at(TAG_SIZE);
    by_protocol(u16_at(rest, 2), inner)
}

fn is_tag(field: u16) -> bool
    ensures { result ≡ spec.is_tag field }
{
    matches!(field, TAG | OUTER_TAG)
}

/// What a type says that is no tag's.
#[tactic(auto, unfolding(crate::specs::Carried::by_protocol))]
fn by_protocol(field: u16, rest: &[u8]) -> Carried<'_>
    ensures { carried_by result ≡ spec.by_protocol field rest.now }
{
    if field == IP_TYPE {
        return by_ip(rest);
    }
    Carried::Framed(by_field(field, rest))
}

/// What PPP carries.
#[tactic(auto, unfolding(crate::specs::Carried::by_ppp))]
fn by_ppp(bytes: &[u8]) -> Carried<'_>
    ensures { carried_by result ≡ spec.by_ppp bytes.now }
{
    if bytes.starts_with(&[0xFF, 0x03, 0x00, 0x2B]) {
        return Carried::Ppp(&bytes[4..]);
    }
    if bytes.starts_with(&[0x00, 0x2B]) {
        return Carried::Ppp(&bytes[2..]);
    }
    Carried::Framed(Frame::Other)
}

/// What a packet of IP carries.
#[tactic(auto, unfolding(crate::specs::Carried::by_ip))]
fn by_ip(bytes: &[u8]) -> Carried<'_>
    ensures { carried_by result ≡ spec.by_ip bytes.now }
{
    if bytes.len() < 20 || !is_udp(bytes) {
        return Carried::Framed(Frame::Other);
    }
    let header = 4 * usize::from(bytes[0] % 16);
    let length = usize::from(u16_at(bytes, 2));
    if header < 20 || length < header || bytes.len() < length {
        return Carried::Framed(Frame::Other);
    }
    by_datagram(part(bytes, header, length - header))
}

/// Whether a packet of IP is one of UDP, and whole.
fn is_udp(bytes: &[u8]) -> bool
    requires { 20 ≤ length bytes.now }
    ensures { result ≡ spec.is_udp bytes.now }
{
    bytes[0] / 16 == 4 && u16_at(bytes, 6) % 0x4000 == 0 && bytes[9] == UDP
}

/// What a datagram carries.
#[tactic(auto, unfolding(crate::specs::Carried::by_datagram))]
fn by_datagram(datagram: &[u8]) -> Carried<'_>
    ensures { carried_by result ≡ spec.by_datagram datagram.now }
{
    if datagram.len() < 8 {
        return Carried::Framed(Frame::Other);
    }
    let length = usize::from(u16_at(datagram, 4));
    if length < 8 || datagram.len() < length {
        return Carried::Framed(Frame::Other);
    }
    in_datagram(datagram, part(datagram, 8, length - 8))
}

/// The data of a datagram, where they are a packet.
fn in_datagram<'a>(datagram: &[u8], content: &'a [u8]) -> Carried<'a>
    requires { 8 ≤ length datagram.now }
    ensures { carried_by result ≡ spec.in_datagram datagram.now content.now }
{
    if is_port(u16_at(datagram, 0)) || is_port(u16_at(datagram, 2)) || is_exact(content) {
        return Carried::Udp(content);
    }
    Carried::Framed(Frame::Other)
}

fn is_port(port: u16) -> bool
    ensures { result ≡ spec.is_port port }
{
    matches!(port, REGISTERED_PORT | GATEWAY_PORT)
}

/// Whether bytes are just as many as the packet that they begin with says.
fn is_exact(content: &[u8]) -> bool
    ensures { result ≡ spec.is_exact content.now }
{
    content.starts_with(&[0xFF, 0xFF])
        && content.len() >= 30
        && usize::from(u16_at(content, 2)) == content.len()
}

/// The number in two bytes.
fn u16_at(bytes: &[u8], place: usize) -> u16
    requires { place + 2 ≤ length bytes.now }
    ensures { result ≡ spec.u16_at bytes.now place }
{
    Order::Big.u16_at(bytes, place)
}

/// Some bytes of others.
fn part(bytes: &[u8], place: usize, count: usize) -> &[u8]
    requires { place + count ≤ length bytes.now }
    ensures { result.now ≡ piece bytes.now place count }
{
    let (_, rest) = bytes.split_at(place);
    let (front, _) = rest.split_at(count);
    front
}
