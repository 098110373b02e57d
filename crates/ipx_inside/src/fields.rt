//! The numbers at fixed places of a payload.
ghost use Rattle.std.specs.Prelude.{◌≡◌, ◌+◌, ◌≤◌, length};
ghost use Rattle.std.specs.Int.{from_be_bytes, from_le_bytes, w16, w32};
ghost use Rattle.ipx_wire.specs.Piece.{piece};

/// The number in two bytes, the highest first.
pub(crate) fn u16_at(bytes: &[u8], place: usize) -> u16
    requires { place + 2 ≤ length bytes.now }
    ensures { result ≡ from_be_bytes w16 (piece bytes.now place 2) }
{
    u16::from_be_bytes([bytes[place], bytes[place + 1]])
}

/// The number in two bytes, the lowest first.
pub(crate) fn low_u16_at(bytes: &[u8], place: usize) -> u16
    requires { place + 2 ≤ length bytes.now }
    ensures { result ≡ from_le_bytes w16 (piece bytes.now place 2) }
{
    u16::from_le_bytes([bytes[place], bytes[place + 1]])
}

/// The number in four bytes, the highest first.
pub(crate) fn u32_at(bytes: &[u8], place: usize) -> u32
    requires { place + 4 ≤ length bytes.now }
    ensures { result ≡ from_be_bytes w32 (piece bytes.now place 4) }
{
    u32::from_be_bytes([
        bytes[place],
        bytes[place + 1],
        bytes[place + 2],
        bytes[place + 3],
    ])
}
