//! Numbers and bytes as text, appended to a buffer that may have to grow.
//!
//! Text is put together as bytes in a buffer: a part is refused only where the buffer has no room for it and gets none. What
//! is refused may have put some of its bytes.
ghost use Rattle.std.specs.Prelude.{◌≡◌, ◌+◌, ◌<◌, ◌≤◌, ◌++◌, length, decimal, OnErr, OnOk};
ghost use Rattle.std.specs.Vec.{vec_capacity};
ghost use Rattle.hex.specs.Hex.{encode_upper};
ghost use Rattle.ipx_cmd.specs.Output.{hex_word};

use ipx_wire::put_digits;
use itoa::write_digits;
use std::alloc::AllocError;

/// How many digits a number has at most.
const LONGEST_NUMBER: usize = 20;

/// How many bytes have their digits put in one piece.
const PIECE: usize = 64;

/// Appends a number in decimal digits.
pub(crate) fn put_decimal(text: &mut Vec<u8>, number: u64) -> Result<(), AllocError>
    ensures text { OnOk result (text.new.items ≡ text.old.items ++ decimal number) }
    ensures room { OnErr result (vec_capacity text.old < length text.old.items + length (decimal number)) }
    ensures kept { vec_capacity text.old ≤ vec_capacity text.new }
{
    let mut digits = [0; LONGEST_NUMBER];
    let first = write_digits(number, &mut digits, LONGEST_NUMBER);
    text.extend_from_slice(&digits[first..])
}

/// Appends two upper-case digits for each byte.
pub(crate) fn put_hex(text: &mut Vec<u8>, bytes: &[u8]) -> Result<(), AllocError>
    ensures text { OnOk result (text.new.items ≡ text.old.items ++ encode_upper bytes.now) }
    ensures room { OnErr result (vec_capacity text.old < length text.old.items + length (encode_upper bytes.now)) }
    ensures kept { vec_capacity text.old ≤ vec_capacity text.new }
{
    let mut rest = bytes;
    while !rest.is_empty() {
        let (piece, behind) = rest.split_at(rest.len().min(PIECE));
        put_piece(text, piece)?;
        rest = behind;
    }
    Ok(())
}

/// Appends the digits of a few bytes at once.
fn put_piece(text: &mut Vec<u8>, bytes: &[u8]) -> Result<(), AllocError>
    requires { length bytes.now ≤ PIECE }
    ensures text { OnOk result (text.new.items ≡ text.old.items ++ encode_upper bytes.now) }
    ensures room { OnErr result (vec_capacity text.old < length text.old.items + length (encode_upper bytes.now)) }
    ensures kept { vec_capacity text.old ≤ vec_capacity text.new }
{
    let mut room = [0; 2 * PIECE];
    let digits = &mut room[..2 * bytes.len()];
    put_digits(digits, bytes);
    text.extend_from_slice(digits)
}

/// Appends bytes as one word: two upper-case digits for each, or `-` where there is none.
pub(crate) fn put_word(text: &mut Vec<u8>, bytes: &[u8]) -> Result<(), AllocError>
    ensures text { OnOk result (text.new.items ≡ text.old.items ++ hex_word bytes.now) }
    ensures room { OnErr result (vec_capacity text.old < length text.old.items + length (hex_word bytes.now)) }
    ensures kept { vec_capacity text.old ≤ vec_capacity text.new }
{
    if bytes.is_empty() {
        text.extend_from_slice(b"-")
    } else {
        put_hex(text, bytes)
    }
}
