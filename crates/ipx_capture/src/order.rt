//! Numbers in the byte order of the machine that wrote a capture.
ghost use Rattle.std.specs.Prelude.{◌≡◌, ◌+◌, ◌≤◌, length};
ghost use Rattle.ipx_wire.specs.Piece.{piece};
ghost use Rattle.ipx_capture.specs.Order.{u16_in, u32_in};

/// A byte order.
///
/// See the example of [`Capture`], whose file has one.
///
/// [`Capture`]: crate::Capture
#[derive(Clone, Copy, Debug, PartialEq, Eq)]
pub enum Order {
    /// The highest byte comes first.
    Big,
    /// The lowest byte comes first.
    Little,
}

impl Order {
    /// The number in two bytes.
    pub fn u16_at(self, bytes: &[u8], place: usize) -> u16
        requires { place + 2 ≤ length bytes.now }
        ensures { result ≡ u16_in self (piece bytes.now place 2) }
    {
        let field = [bytes[place], bytes[place + 1]];
        match self {
            Order::Big => u16::from_be_bytes(field),
            Order::Little => u16::from_le_bytes(field),
        }
    }

    /// The number in four bytes.
    pub fn u32_at(self, bytes: &[u8], place: usize) -> u32
        requires { place + 4 ≤ length bytes.now }
        ensures { result ≡ u32_in self (piece bytes.now place 4) }
    {
        let field = [
            bytes[place],
            bytes[place + 1],
            bytes[place + 2],
            bytes[place + 3],
        ];
        match self {
            Order::Big => u32::from_be_bytes(field),
            Order::Little => u32::from_le_bytes(field),
        }
    }
}
