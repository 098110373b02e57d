//! The NetWare Core Protocol: requests to a server, and its replies.
ghost use Rattle.std.specs.Prelude.{◌≡◌, ◌≤◌, length};
ghost use Rattle.ipx_inside.specs.Ncp.{burst_at, burst_of, byte_at, caller_at, ncp_of, reply_at, request_at, sub_at, typed};

use crate::fields::{u16_at, u32_at};

/// Who sends an NCP packet, or who gets it: a connection of a server, and a task of its client.
///
/// See the example of [`Inside`].
#[derive(Clone, Copy, Debug, PartialEq, Eq)]
pub struct Caller {
    /// The number of the request in its connection; a reply repeats it.
    pub sequence: u8,
    /// The number of the connection at the server; FFFFh before there is one.
    pub connection: u16,
    /// The task of the client.
    pub task: u8,
}

/// The number of a function's subfunction.
///
/// See the example of [`Inside`].
#[derive(Clone, Copy, Debug, PartialEq, Eq)]
pub enum Sub {
    /// The function has none, or none is known.
    Absent,
    /// The packet ends before it.
    Cut,
    /// This one.
    Number(u8),
}

/// A packet of a burst, in which many packets are sent before one is acknowledged.
///
/// See the example of [`Inside`].
#[derive(Clone, Copy, Debug, PartialEq, Eq)]
pub struct Burst {
    /// Bits: 80h a packet of the protocol's own, 10h the last one of a burst, 04h an abort.
    pub flags: u8,
    /// The type of the stream.
    pub stream: u8,
    /// The connection's number at the sender.
    pub source: u32,
    /// The connection's number at the receiver.
    pub destination: u32,
    /// The packet's number.
    pub packet: u32,
    /// How long the sender waits between packets.
    pub delay: u32,
    /// The number of the burst.
    pub sequence: u16,
    /// The number of the burst that is expected next.
    pub acknowledge: u16,
    /// How many bytes the burst has.
    pub length: u32,
    /// Where in the burst the packet's data belong.
    pub offset: u32,
    /// How many bytes of data the packet has.
    pub bytes: u16,
    /// How many pieces are told as missing.
    pub missing: u16,
}

/// A packet of the NetWare Core Protocol.
///
/// See the example of [`Inside`].
#[derive(Clone, Copy, Debug, PartialEq, Eq)]
pub enum Ncp {
    /// Type 1111h: asks for a connection.
    Create(Caller),
    /// Type 2222h: asks for a function.
    Request {
        /// Who asks.
        caller: Caller,
        /// The number of the function.
        function: u8,
        /// The number of its subfunction.
        sub: Sub,
    },
    /// Type 3333h: the answer.
    Reply {
        /// Who asked.
        caller: Caller,
        /// 0 if the function was done, else the number of a fault.
        completion: u8,
        /// Bits that tell of the connection: 01h it is none, 10h the server goes down, 40h a message waits.
        status: u8,
    },
    /// Type 5555h: gives the connection up.
    Destroy(Caller),
    /// Type 7777h: a packet of a burst.
    Burst(Burst),
    /// Type 9999h: the request is still being worked on.
    Busy(Caller),
    /// Another type.
    Other(u16),
}

impl Ncp {
    /// Reads a payload. `None` if it ends before the fields of its type.
    #[tactic(auto, unfolding(crate::specs::Ncp::ncp_of))]
    pub fn read(payload: &[u8]) -> Option<Ncp>
        ensures { result ≡ ncp_of payload.now }
    {
        if payload.len() < 6 {
            return None;
        }
        typed(u16_at(payload, 0), payload)
    }
}

/// What a payload of at least six bytes says, by its type.
fn typed(kind: u16, payload: &[u8]) -> Option<Ncp>
    requires { 6 ≤ length payload.now }
    ensures { result ≡ typed kind payload.now }
{
    match kind {
        0x1111 => Some(Ncp::Create(caller_at(payload))),
        0x2222 => request_at(payload),
        0x3333 => reply_at(payload),
        0x5555 => Some(Ncp::Destroy(caller_at(payload))),
        0x7777 => burst_of(payload),
        0x9999 => Some(Ncp::Busy(caller_at(payload))),
        kind => Some(Ncp::Other(kind)),
    }
}

/// The caller in the first six bytes.
#[tactic(auto, unfolding(crate::specs::Ncp::caller_at))]
fn caller_at(payload: &[u8]) -> Caller
    requires { 6 ≤ length payload.now }
    ensures { result ≡ caller_at payload.now }
{
    Caller {
        sequence: payload[2],
        connection: u16::from_be_bytes([payload[5], payload[3]]),
        task: payload[4],
    }
}

fn request_at(payload: &[u8]) -> Option<Ncp>
    requires { 6 ≤ length payload.now }
    ensures { result ≡ request_at payload.now }
{
    if payload.len() < 7 {
        return None;
    }
    let caller = caller_at(payload);
    let function = payload[6];
    let sub = sub_at(function, payload);
    Some(Ncp::Request {
        caller,
        function,
        sub,
    })
}

/// The subfunction of a function: of some it stands behind the function, of others behind a length.
fn sub_at(function: u8, payload: &[u8]) -> Sub
    ensures { result ≡ sub_at function payload.now }
{
    match function {
        32 | 34 | 86 | 87 | 88 | 89 | 92 | 94 | 104 | 111 => byte_at(payload, 7),
        17 | 21 | 22 | 23 | 35 | 36 | 90 | 114 | 123 | 131 => byte_at(payload, 9),
        _ => Sub::Absent,
    }
}

fn byte_at(payload: &[u8], place: usize) -> Sub
    ensures { result ≡ byte_at payload.now place }
{
    if payload.len() <= place {
        return Sub::Cut;
    }
    Sub::Number(payload[place])
}

fn reply_at(payload: &[u8]) -> Option<Ncp>
    requires { 6 ≤ length payload.now }
    ensures { result ≡ reply_at payload.now }
{
    if payload.len() < 8 {
        return None;
    }
    Some(Ncp::Reply {
        caller: caller_at(payload),
        completion: payload[6],
        status: payload[7],
    })
}

fn burst_of(payload: &[u8]) -> Option<Ncp>
    ensures { result ≡ burst_of payload.now }
{
    if payload.len() < 36 {
        return None;
    }
    Some(Ncp::Burst(burst_at(payload)))
}

/// The fields of a burst's packet.
#[tactic(auto, unfolding(crate::specs::Ncp::burst_at))]
fn burst_at(payload: &[u8]) -> Burst
    requires { 36 ≤ length payload.now }
    ensures { result ≡ burst_at payload.now }
{
    Burst {
        flags: payload[2],
        stream: payload[3],
        source: u32_at(payload, 4),
        destination: u32_at(payload, 8),
        packet: u32_at(payload, 12),
        delay: u32_at(payload, 16),
        sequence: u16_at(payload, 20),
        acknowledge: u16_at(payload, 22),
        length: u32_at(payload, 24),
        offset: u32_at(payload, 28),
        bytes: u16_at(payload, 32),
        missing: u16_at(payload, 34),
    }
}
