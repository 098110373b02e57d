//! Texts that are put into a room behind others. Each function returns where its text ends; what stands in the room behind that place says
//! nothing.
ghost use Rattle.std.specs.Prelude.{◌≡◌, ◌+◌, ◌*◌, ◌<◌, ◌≤◌, ◌++◌, length, take, true, decimal};
ghost use Rattle.std.specs.Char.{digit_char};
ghost use Rattle.std.specs.Fmt.{digit_glyph};
ghost use Rattle.std.specs.Net.Text.{hex, leading_zero_digits};
ghost use Rattle.ipx_settings.specs.Writing.{written_size, written_into};
ghost use Rattle.ipx_settings.specs.WritingLines.{byte_digits, bytes_digits};

/// How many decimal digits a number has at most.
pub(crate) const LONGEST_NUMBER: usize = 10;

/// Puts a text behind the first `at` bytes.
pub(crate) fn put_text(room: &mut [u8], at: usize, text: &[u8]) -> usize
    requires { at + length text.now ≤ length room.old }
    ensures room { take result room.new ≡ take at room.old ++ text.now }
    ensures end { result ≡ at + length text.now }
    ensures size { length room.new ≡ length room.old }
{
    let end = at + text.len();
    room[at..end].copy_from_slice(text);
    end
}

/// Puts the decimal digits of a number.
pub(crate) fn put_number(room: &mut [u8], at: usize, number: u32) -> usize
    requires { at + LONGEST_NUMBER ≤ length room.old }
    ensures room { take result room.new ≡ take at room.old ++ decimal number }
    ensures most { result ≤ at + LONGEST_NUMBER }
    ensures size { length room.new ≡ length room.old }
{
    let mut digits = [0; LONGEST_NUMBER];
    let mut first = LONGEST_NUMBER - 1;
    let mut left = number;
    while left >= 10 {
        digits[first] = b'0' + (left % 10) as u8;
        first -= 1;
        left /= 10;
    }
    digits[first] = b'0' + left as u8;
    put_text(room, at, &digits[first..])
}

/// The hexadecimal digit of a number, of lower case.
fn digit(number: u16) -> u8
    requires { number < 16 }
    ensures { result ≡ digit_char number }
{
    if number < 10 {
        b'0' + number as u8
    } else {
        b'a' + (number - 10) as u8
    }
}

/// How many of four hexadecimal digits are zeros in front, the last digit apart.
fn zeros(group: u16) -> usize
    ensures value { result ≡ leading_zero_digits group }
    ensures within { result < 4 }
{
    if group >= 0x1000 {
        0
    } else if group >= 0x100 {
        1
    } else if group >= 0x10 {
        2
    } else {
        3
    }
}

/// Puts the hexadecimal digits of a group of an address of IPv6, without zeros in front.
#[tactic(auto, unfolding(std::specs::Net::Text::hex))]
pub(crate) fn put_group(room: &mut [u8], at: usize, group: u16) -> usize
    requires { at + 4 ≤ length room.old }
    ensures room { take result room.new ≡ take at room.old ++ hex group }
    ensures most { result ≤ at + 4 }
    ensures size { length room.new ≡ length room.old }
{
    let digits = [
        digit(group / 0x1000),
        digit(group / 0x100 % 16),
        digit(group / 0x10 % 16),
        digit(group % 16),
    ];
    put_text(room, at, &digits[zeros(group)..])
}

/// The hexadecimal digit of a number, of upper case.
fn upper_digit(number: u8) -> u8
    requires { number < 16 }
    ensures { result ≡ digit_glyph true number }
{
    if number < 10 {
        b'0' + number
    } else {
        b'A' + (number - 10)
    }
}

/// Puts the two digits of a byte.
fn put_byte(room: &mut [u8], at: usize, byte: u8) -> usize
    requires { at + 2 ≤ length room.old }
    ensures room { take result room.new ≡ take at room.old ++ byte_digits byte }
    ensures end { result ≡ at + 2 }
    ensures size { length room.new ≡ length room.old }
{
    put_text(room, at, &[upper_digit(byte / 16), upper_digit(byte % 16)])
}

/// Puts two digits for each byte.
#[tactic(auto, unfolding(crate::specs::WritingLines::bytes_digits))]
pub(crate) fn put_bytes(room: &mut [u8], at: usize, bytes: &[u8]) -> usize
    requires { at + 2 * length bytes.now ≤ length room.old }
    ensures room { take result room.new ≡ take at room.old ++ bytes_digits bytes.now }
    ensures end { result ≡ at + 2 * length bytes.now }
    ensures size { length room.new ≡ length room.old }
{
    let mut end = at;
    for byte in bytes {
        end = put_byte(room, end, *byte);
    }
    end
}

/// Gives words to whoever asked for them, if his room has room for them. Returns how many bytes they are.
pub(crate) fn give(words: &[u8], out: &mut [u8]) -> Option<usize>
    ensures size { result ≡ written_size words.now out.old }
    ensures bytes { out.new ≡ written_into words.now out.old }
{
    if words.len() > out.len() {
        return None;
    }
    let (front, _) = out.split_at_mut(words.len());
    front.copy_from_slice(words);
    Some(words.len())
}
