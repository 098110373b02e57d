//! Bytes as upper-case hexadecimal text, two digits a byte.
ghost use Rattle.std.specs.Prelude.{◌≡◌, ◌+◌, ◌*◌, ◌<◌, ◌≤◌, ◌++◌, length, slice_index, take, Some};
ghost use Rattle.std.specs.Fmt.{WritesOnOk};
ghost use Rattle.std.specs.Str.{IsAscii};
ghost use Rattle.hex.specs.Hex.{encode_upper, upper_digits};

use std::fmt;

/// Bytes that are shown as upper-case hexadecimal digits.
///
/// ```
/// let bytes = [0xFF, 0xFF, 0x00, 0x1E];
/// println!(rt; "{}", Hex(&bytes))?;
/// // prints FFFF001E
/// ```
#[derive(Clone, Copy, Debug)]
pub struct Hex<'a>(
    /// The bytes, as many as there are.
    pub &'a [u8],
);

/// Two upper-case digits for each byte, the high four bits first.
impl<'a> fmt::Display for Hex<'a> {
    ghost output = { λ hex. Some (encode_upper hex.0.now) };

    fn fmt<W: fmt::Write>(&self, f: &mut fmt::Formatter<W>) -> fmt::Result {
        write_hex(f, self.0)
    }
}

/// How many bytes have their digits written in one piece.
const PIECE: usize = 64;

/// Worked out and not looked up, so that the digits of many bytes are made side by side.
fn digit(value: u8) -> u8
    requires { value < 16 }
    ensures value { result ≡ slice_index upper_digits value }
    ensures ascii { result < 128 }
{
    if value < 10 {
        b'0' + value
    } else {
        b'A' - 10 + value
    }
}

/// Writes the digits of each byte into a slice of twice as many.
pub fn put_digits(out: &mut [u8], bytes: &[u8])
    requires { length out.old ≡ 2 * length bytes.now }
    ensures { out.new ≡ encode_upper bytes.now }
{
    for i in 0..bytes.len() {
        let byte = bytes[i];
        out[2 * i] = digit(byte / 16);
        out[2 * i + 1] = digit(byte % 16);
    }
}

/// Writes a text behind the first `at` bytes, and tells where it ends.
#[inline]
pub fn put_text(room: &mut [u8], at: usize, text: &[u8]) -> usize
    requires { at + length text.now ≤ length room.old }
    ensures room { take result room.new ≡ take at room.old ++ text.now }
    ensures end { result ≡ at + length text.now }
    ensures size { length room.new ≡ length room.old }
{
    let end = at + text.len();
    room[at..end].copy_from_slice(text);
    end
}

/// Writes digits, or other ASCII, as they are.
pub fn write_ascii<W: fmt::Write>(f: &mut fmt::Formatter<W>, digits: &[u8]) -> fmt::Result
    requires { IsAscii digits.now }
    ensures { WritesOnOk W.write_str_gives f.old result digits.now f.new }
{
    match std::str::from_utf8(digits) {
        Ok(text) => f.write_str(text),
        Err(_) => Ok(()),
    }
}

/// Writes the digits of a few bytes at once.
fn write_piece<W: fmt::Write>(f: &mut fmt::Formatter<W>, bytes: &[u8]) -> fmt::Result
    requires { length bytes.now ≤ PIECE }
    ensures { WritesOnOk W.write_str_gives f.old result (encode_upper bytes.now) f.new }
{
    let mut room = [0; 2 * PIECE];
    let digits = &mut room[..2 * bytes.len()];
    put_digits(digits, bytes);
    write_ascii(f, digits)
}

/// Writes the digits of each byte, the high four bits first.
pub fn write_hex<W: fmt::Write>(f: &mut fmt::Formatter<W>, bytes: &[u8]) -> fmt::Result
    ensures { WritesOnOk W.write_str_gives f.old result (encode_upper bytes.now) f.new }
{
    let mut rest = bytes;
    while !rest.is_empty() {
        let (piece, behind) = rest.split_at(rest.len().min(PIECE));
        write_piece(f, piece)?;
        rest = behind;
    }
    Ok(())
}
