//! Words that are numbers.
ghost use Rattle.std.specs.Prelude.{◌≡◌, ◌<◌, ◌≤◌, ◌&&◌, ◌^◌, IfSome, IsTrue, Some, nat_le, if◌then◌else◌, None};
ghost use Rattle.std.specs.Char.{digit_value};
ghost use Rattle.std.specs.List.{list_all};
ghost use Rattle.std.specs.Str.Parse.{digits_value};
ghost use Rattle.ipx_settings.specs.Numbers.{number_of, number_to, hexadecimal_of, is_digit_to};

const DECIMAL: u64 = 10;

const HEXADECIMAL: u64 = 16;

/// The value of a digit, of either case; 36 of what is none.
pub(crate) fn digit(byte: u8) -> u8
    ensures { result ≡ digit_value byte }
{
    if byte < b'0' {
        36
    } else if byte <= b'9' {
        byte - b'0'
    } else if byte < b'A' {
        36
    } else if byte <= b'Z' {
        byte - b'A' + 10
    } else if byte < b'a' {
        36
    } else if byte <= b'z' {
        byte - b'a' + 10
    } else {
        36
    }
}

/// The number that digits to that base write, if it isn't more than that.
fn value(word: &[u8], base: u64, most: u32) -> Option<u64>
    requires base { (2 ≤ base) × (base ≤ 16) }
    ensures { result ≡ (if list_all (is_digit_to base) word.now && nat_le (digits_value base word.now) most then Some (digits_value base word.now) else None) }
{
    let mut value = 0;
    for byte in word {
        let next = u64::from(digit(*byte));
        if next >= base {
            return None;
        }
        value = value * base + next;
        if value > u64::from(most) {
            return None;
        }
    }
    Some(value)
}

/// The number that a word of digits to that base writes, if it lies between these.
fn number_to(word: &[u8], base: u64, least: u32, most: u32) -> Option<u32>
    requires base { (2 ≤ base) × (base ≤ 16) }
    ensures value { result ≡ number_to base least most word.now }
{
    if word.is_empty() {
        return None;
    }
    match value(word, base, most) {
        Some(value) if value >= u64::from(least) => Some(value as u32),
        _ => None,
    }
}

/// The decimal number that a word writes, if it lies between these.
pub(crate) fn number(word: &[u8], least: u32, most: u32) -> Option<u32>
    ensures { result ≡ number_of least most word.now }
{
    number_to(word, DECIMAL, least, most)
}

/// The same, of 16 bits.
pub(crate) fn short(word: &[u8], least: u16, most: u16) -> Option<u16>
    ensures { result ≡ number_of least most word.now }
{
    match number(word, u32::from(least), u32::from(most)) {
        Some(value) => Some(value as u16),
        None => None,
    }
}

/// The number that a word of hexadecimal digits writes, at most so many, if it lies between these.
pub fn hexadecimal(word: &[u8], digits: usize, least: u32, most: u32) -> Option<u32>
    ensures { result ≡ hexadecimal_of digits least most word.now }
{
    if word.len() > digits {
        return None;
    }
    number_to(word, HEXADECIMAL, least, most)
}
