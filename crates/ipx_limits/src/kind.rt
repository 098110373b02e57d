//! What kind of packet it is.
ghost use Rattle.std.specs.Prelude.{◌≡◌, if◌then◌else◌};
ghost use Rattle.ipx_limits.specs.declared.kind.Kind.TheVariants.{Question, Told};
ghost use Rattle.ipx_limits.specs.Kinds.{operation_of, kind_by, kind_of};

use ipx_wire::{Header, Node, Packet, Socket};

/// The socket of pings, and of their answers.
const PINGS: Socket = Socket(2);

/// Operations: what asks for routes, and for services, all or the nearest.
const ASKS_ROUTES: u16 = 1;

const ASKS_SERVICES: u16 = 1;

const ASKS_NEAREST: u16 = 3;

/// What kind of packet it is, as far as limits differ.
///
/// See the example of [`Limits`](crate::Limits).
#[derive(Clone, Copy, Debug, PartialEq, Eq)]
pub enum Kind {
    /// A ping to all: each client answers it.
    Ping,
    /// The answer to one, or another ping.
    Answer,
    /// A question to routers, which they answer at length.
    Question,
    /// What routers tell each other.
    Told,
    /// Anything else.
    Other,
}

impl Kind {
    /// The kind of the packet in the bytes; bytes that are no packet are `Other`.
    pub fn of(bytes: &[u8]) -> Kind
        ensures { result ≡ kind_of bytes.now }
    {
        match Packet::read(bytes) {
            Ok(packet) => kind_by(packet.header(), operation_of(packet.payload())),
            Err(_) => Kind::Other,
        }
    }
}

fn kind_by(header: Header, operation: u16) -> Kind
    ensures { result ≡ kind_by header operation }
{
    let to = header.destination;
    if to.socket == Socket::RIP {
        asks(operation == ASKS_ROUTES)
    } else if to.socket == Socket::SAP {
        asks(operation == ASKS_SERVICES || operation == ASKS_NEAREST)
    } else if to.socket == PINGS {
        if to.node == Node::BROADCAST {
            Kind::Ping
        } else {
            Kind::Answer
        }
    } else if header.source.socket == PINGS {
        Kind::Answer
    } else {
        Kind::Other
    }
}

/// What routers say.
fn asks(is_question: bool) -> Kind
    ensures { result ≡ (if is_question then Question else Told) }
{
    if is_question {
        Kind::Question
    } else {
        Kind::Told
    }
}

/// The operation of what a router says, or 0 where there is no room for one.
fn operation_of(payload: &[u8]) -> u16
    ensures { result ≡ operation_of payload.now }
{
    if payload.len() < 2 {
        return 0;
    }
    u16::from_be_bytes([payload[0], payload[1]])
}
