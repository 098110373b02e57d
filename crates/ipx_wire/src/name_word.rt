//! The name of a service as one word.
ghost use Rattle.std.specs.Prelude.{◌≡◌, ◌+◌, ◌*◌, ◌≤◌, ◌++◌, length, take};
ghost use Rattle.ipx_wire.specs.NameWord.{byte_word, is_plain_byte, name_word};

use crate::hex_text::{put_digits, put_text};

/// Writes a name into the front of `room`, and tells how many bytes it took: what isn't visible stands as a backslash and
/// two digits, and so does a backslash.
pub fn put_name(room: &mut [u8], name: &[u8]) -> usize
    requires { 3 * length name.now ≤ length room.old }
    ensures word { take result room.new ≡ name_word name.now }
    ensures most { result ≤ 3 * length name.now }
{
    let mut count = 0;
    for byte in name {
        count = put_byte(room, count, *byte);
    }
    count
}

/// Writes a byte of a name behind the first `at` bytes, and tells where it ends.
fn put_byte(room: &mut [u8], at: usize, byte: u8) -> usize
    requires { at + 3 ≤ length room.old }
    ensures word { take result room.new ≡ take at room.old ++ byte_word byte }
    ensures most { result ≤ at + 3 }
{
    if is_plain(byte) {
        return put_text(room, at, &[byte]);
    }
    let mut digits = [0; 2];
    put_digits(&mut digits, &[byte]);
    let at = put_text(room, at, b"\\");
    put_text(room, at, &digits)
}

/// Whether a byte stands for itself.
fn is_plain(byte: u8) -> bool
    ensures { result ≡ is_plain_byte byte }
{
    0x21 <= byte && byte <= 0x7E && byte != b'\\'
}
