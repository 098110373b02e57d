//! NetBIOS: names that computers have on a network, sessions between names, and datagrams.
ghost use Rattle.std.specs.Prelude.{◌≡◌, ◌+◌, ◌≤◌, length};
ghost use Rattle.ipx_wire.specs.Piece.{piece};
ghost use Rattle.ipx_inside.specs.NetBios.{datagram_of, name_of, netbios_of, operated, session_at, session_of};

use crate::fields::low_u16_at;

/// A packet of a session between two names.
///
/// See the example of [`Inside`].
#[derive(Clone, Copy, Debug, PartialEq, Eq)]
pub struct Session {
    /// The session's number at the sender.
    pub source: u16,
    /// The session's number at the receiver.
    pub destination: u16,
    /// The number of the message that is sent.
    pub sequence: u16,
    /// How many bytes the message has.
    pub total: u16,
    /// Where in the message the packet's data belong.
    pub offset: u16,
    /// How many bytes of data the packet has.
    pub length: u16,
    /// The number of the message that is expected.
    pub receive: u16,
    /// How many bytes of it have come.
    pub received: u16,
}

/// A packet of NetBIOS.
///
/// See the example of [`Inside`].
#[derive(Clone, Copy, Debug, PartialEq, Eq)]
pub enum NetBios {
    /// Types 1 to 5: something about a name.
    Name {
        /// 1 who has the name, 2 it is mine, 3 may I have it, 4 it is in use, 5 I give it up.
        operation: u8,
        /// Bits: 80h a group's name, 40h it is in use, 04h registered, 02h a duplicate, 01h given up.
        flags: u8,
        /// The name, fifteen bytes, and its suffix.
        name: [u8; 16],
    },
    /// Types 6 to 8: a session.
    Session {
        /// 6 data, 7 the end of the session, 8 that end's acknowledgement.
        operation: u8,
        /// Bits: 80h a packet of the protocol's own, 40h an acknowledgement is wanted, 20h attention, 10h the end of a message, 08h sent again.
        control: u8,
        /// The packet's fields.
        session: Session,
    },
    /// Type 11: a datagram from one name to another.
    Datagram {
        /// Bits as in a session.
        control: u8,
        /// Whom it is for.
        to: [u8; 16],
        /// Who sends it.
        from: [u8; 16],
    },
    /// Another type: 9 asks for a status, and 10 answers; nothing else is known of these.
    Other(u8),
}

impl NetBios {
    /// Reads what follows the header, or in a propagated packet the list of networks. `None` if it ends before the fields of its type.
    #[tactic(auto, unfolding(crate::specs::NetBios::netbios_of))]
    pub fn read(bytes: &[u8]) -> Option<NetBios>
        ensures { result ≡ netbios_of bytes.now }
    {
        if bytes.len() < 2 {
            return None;
        }
        operated(bytes[1], bytes)
    }
}

/// What data of at least two bytes say, by their type.
fn operated(operation: u8, bytes: &[u8]) -> Option<NetBios>
    requires { 2 ≤ length bytes.now }
    ensures { result ≡ operated operation bytes.now }
{
    match operation {
        1 | 2 | 3 | 4 | 5 => name_of(operation, bytes),
        6 | 7 | 8 => session_of(operation, bytes),
        11 => datagram_of(bytes),
        _ => Some(NetBios::Other(operation)),
    }
}

fn name_of(operation: u8, bytes: &[u8]) -> Option<NetBios>
    requires { 2 ≤ length bytes.now }
    ensures { result ≡ name_of operation bytes.now }
{
    if bytes.len() < 18 {
        return None;
    }
    Some(NetBios::Name {
        operation,
        flags: bytes[0],
        name: name_at(bytes, 2),
    })
}

fn session_of(operation: u8, bytes: &[u8]) -> Option<NetBios>
    requires { 2 ≤ length bytes.now }
    ensures { result ≡ session_of operation bytes.now }
{
    if bytes.len() < 18 {
        return None;
    }
    Some(NetBios::Session {
        operation,
        control: bytes[0],
        session: session_at(bytes),
    })
}

/// The fields of a session's packet.
#[tactic(auto, unfolding(crate::specs::NetBios::session_at))]
fn session_at(bytes: &[u8]) -> Session
    requires { 18 ≤ length bytes.now }
    ensures { result ≡ session_at bytes.now }
{
    Session {
        source: low_u16_at(bytes, 2),
        destination: low_u16_at(bytes, 4),
        sequence: low_u16_at(bytes, 6),
        total: low_u16_at(bytes, 8),
        offset: low_u16_at(bytes, 10),
        length: low_u16_at(bytes, 12),
        receive: low_u16_at(bytes, 14),
        received: low_u16_at(bytes, 16),
    }
}

fn datagram_of(bytes: &[u8]) -> Option<NetBios>
    requires { 2 ≤ length bytes.now }
    ensures { result ≡ datagram_of bytes.now }
{
    if bytes.len() < 34 {
        return None;
    }
    Some(NetBios::Datagram {
        control: bytes[0],
        to: name_at(bytes, 2),
        from: name_at(bytes, 18),
    })
}

/// The sixteen bytes of a name.
fn name_at(bytes: &[u8], place: usize) -> [u8; 16]
    requires { place + 16 ≤ length bytes.now }
    ensures { result ≡ piece bytes.now place 16 }
{
    let mut name = [0; 16];
    name.copy_from_slice(&bytes[place..place + 16]);
    name
}
