//! Sequenced packets, which are numbered and acknowledged within a connection.
ghost use Rattle.std.specs.Prelude.{◌≡◌, ◌≤◌, length};
ghost use Rattle.ipx_inside.specs.Spx.{size_at, spx_at, spx_of};

use crate::fields::u16_at;

/// How long a packet both ends take, which packets of SPX II say.
///
/// See the example of [`Inside`].
#[derive(Clone, Copy, Debug, PartialEq, Eq)]
pub enum Size {
    /// The packet is none of SPX II, so it says nothing of it.
    Absent,
    /// The packet ends before it.
    Cut,
    /// So many bytes.
    Number(u16),
}

/// A packet of the Sequenced Packet Exchange.
///
/// See the example of [`Inside`].
#[derive(Clone, Copy, Debug, PartialEq, Eq)]
pub struct Spx {
    /// Bits: 80h a packet of the protocol's own, 40h an acknowledgement is wanted, 20h attention, 10h the end of a message; of SPX II 08h that
    /// it is one, 04h a size is negotiated, 01h more header follows.
    pub control: u8,
    /// The type of the data: FEh ends a connection, FFh acknowledges that; others are the program's own.
    pub stream: u8,
    /// The connection's number at the sender.
    pub source: u16,
    /// The connection's number at the receiver; FFFFh before there is one.
    pub destination: u16,
    /// The packet's number.
    pub sequence: u16,
    /// The number of the packet that is expected next.
    pub acknowledge: u16,
    /// The number of the last packet that there is room for.
    pub allocation: u16,
    /// Of SPX II how long a packet may be.
    pub size: Size,
}

impl Spx {
    /// Reads a payload. `None` if it has fewer than the twelve bytes of a header.
    #[tactic(auto, unfolding(crate::specs::Spx::spx_of, crate::specs::Spx::spx_at))]
    pub fn read(payload: &[u8]) -> Option<Spx>
        ensures { result ≡ spx_of payload.now }
    {
        if payload.len() < 12 {
            return None;
        }
        Some(Spx {
            control: payload[0],
            stream: payload[1],
            source: u16_at(payload, 2),
            destination: u16_at(payload, 4),
            sequence: u16_at(payload, 6),
            acknowledge: u16_at(payload, 8),
            allocation: u16_at(payload, 10),
            size: size_at(payload),
        })
    }
}

/// The size behind the header, if the packet is one of SPX II.
fn size_at(payload: &[u8]) -> Size
    requires { 12 ≤ length payload.now }
    ensures { result ≡ size_at payload.now }
{
    if payload[0] / 8 % 2 != 1 {
        return Size::Absent;
    }
    if payload.len() < 14 {
        return Size::Cut;
    }
    Size::Number(u16_at(payload, 12))
}
