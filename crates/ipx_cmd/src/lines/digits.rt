//! Bytes read from hexadecimal digits.
ghost use Rattle.std.specs.Prelude.{◌≡◌, ◌*◌, ◌<◌, length, IsTrue, Some, None, Ok, if◌then◌else◌};
ghost use Rattle.std.specs.List.{AllPass, list_all};
ghost use Rattle.std.specs.Result.{result_ok};
ghost use Rattle.hex.specs.Hex.{decode_of, decode_pairs, hex_digit_value, is_hex_digit};

/// Whether a byte is a digit, of either case.
fn is_digit(byte: u8) -> bool
    ensures { result ≡ is_hex_digit byte }
{
    (b'0' <= byte && byte <= b'9')
        || (b'A' <= byte && byte <= b'F')
        || (b'a' <= byte && byte <= b'f')
}

/// Whether all bytes are digits.
///
/// Another byte doesn't end the loop, so that many are judged side by side.
fn are_digits(bytes: &[u8]) -> bool
    ensures { result ≡ list_all is_hex_digit bytes.now }
{
    let mut fine = true;
    for byte in bytes {
        fine = fine & is_digit(*byte);
    }
    fine
}

/// The value of a digit. As wide as the two digits that are read at once.
fn digit_value(digit: u16) -> u16
    requires { IsTrue (is_hex_digit digit) }
    ensures value { hex_digit_value digit ≡ Some result }
    ensures small { result < 16 }
{
    if digit < 64 {
        digit % 16
    } else {
        digit % 16 + 9
    }
}

/// Reads each two digits as a byte.
fn read_pairs(digits: &[u8], out: &mut [u8])
    requires digits { AllPass is_hex_digit digits.now }
    requires room { length digits.now ≡ 2 * length out.old }
    ensures { decode_pairs 0 digits.now ≡ Ok out.new }
{
    let (pairs, _) = digits.as_chunks::<2>();
    for i in 0..out.len() {
        let pair = u16::from_le_bytes(pairs[i]);
        let high = digit_value(pair % 256);
        let low = digit_value(pair / 256);
        out[i] = (high * 16 + low) as u8;
    }
}

/// Reads bytes of two digits each, and returns whether all are digits; if not, nothing is read.
pub(crate) fn read_digits(digits: &[u8], out: &mut [u8]) -> bool
    requires { length digits.now ≡ 2 * length out.old }
    ensures { result_ok (decode_of digits.now) ≡ if result then Some out.new else None }
{
    if !are_digits(digits) {
        return false;
    }
    read_pairs(digits, out);
    true
}
