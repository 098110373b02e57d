//! Texts that are put into a room behind others, wherever their bytes come from. Each function returns where its text ends, so that
//! the place stays in a register while a line is put together; what stands in the room behind that place says nothing.
ghost use Rattle.std.specs.Prelude.{◌≡◌, ◌+◌, ◌*◌, ◌<◌, ◌≤◌, ◌++◌, ◌∷◌, [], length, take, decimal};
ghost use Rattle.std.specs.Int.{from_be_bytes, to_be_bytes, w16, w32};
ghost use Rattle.hex.specs.Hex.{encode_upper};
ghost use Rattle.ipx_wire.specs.Piece.{piece};
ghost use Rattle.ipx_cmd.specs.inside.Drafted.{two_digits};
ghost use Rattle.ipx_wire.specs.Address.{address_at};
ghost use Rattle.ipx_wire.specs.AddressWord.{address_word};
ghost use Rattle.ipx_wire.specs.NameWord.{byte_word, is_plain_byte, name_word};

/// How many digits a number of a packet has at most.
pub(crate) const LONGEST_NUMBER: usize = 5;

/// Puts a text behind the first `at` bytes.
#[inline(always)]
pub(crate) fn put_text(room: &mut [u8], at: usize, text: &[u8]) -> usize
    requires { at + length text.now ≤ length room.old }
    ensures room { take result room.new ≡ take at room.old ++ text.now }
    ensures end { result ≡ at + length text.now }
    ensures size { length room.new ≡ length room.old }
{
    let end = at + text.len();
    room[at..end].copy_from_slice(text);
    end
}

/// The two upper-case digits of each byte, one pair after another.
static PAIRS: [u8; 512] = *b"000102030405060708090A0B0C0D0E0F101112131415161718191A1B1C1D1E1F\
      202122232425262728292A2B2C2D2E2F303132333435363738393A3B3C3D3E3F\
      404142434445464748494A4B4C4D4E4F505152535455565758595A5B5C5D5E5F\
      606162636465666768696A6B6C6D6E6F707172737475767778797A7B7C7D7E7F\
      808182838485868788898A8B8C8D8E8F909192939495969798999A9B9C9D9E9F\
      A0A1A2A3A4A5A6A7A8A9AAABACADAEAFB0B1B2B3B4B5B6B7B8B9BABBBCBDBEBF\
      C0C1C2C3C4C5C6C7C8C9CACBCCCDCECFD0D1D2D3D4D5D6D7D8D9DADBDCDDDEDF\
      E0E1E2E3E4E5E6E7E8E9EAEBECEDEEEFF0F1F2F3F4F5F6F7F8F9FAFBFCFDFEFF";

/// Puts the two upper-case digits of a byte.
#[inline(always)]
fn put_hex_byte(room: &mut [u8], at: usize, byte: u8) -> usize
    requires { at + 2 ≤ length room.old }
    ensures room { take result room.new ≡ take at room.old ++ encode_upper (byte ∷ []) }
    ensures end { result ≡ at + 2 }
    ensures size { length room.new ≡ length room.old }
{
    let from = usize::from(byte) * 2;
    put_text(room, at, &[PAIRS[from], PAIRS[from + 1]])
}

/// Puts two upper-case digits for each byte.
#[inline(always)]
pub(crate) fn put_hex(room: &mut [u8], at: usize, bytes: &[u8]) -> usize
    requires { at + 2 * length bytes.now ≤ length room.old }
    ensures room { take result room.new ≡ take at room.old ++ encode_upper bytes.now }
    ensures end { result ≡ at + 2 * length bytes.now }
    ensures size { length room.new ≡ length room.old }
{
    let mut end = at;
    for byte in bytes {
        end = put_hex_byte(room, end, *byte);
    }
    end
}

/// Puts the digits of a number that stands in four bytes.
#[inline(always)]
pub(crate) fn put_hex_32(room: &mut [u8], at: usize, bytes: &[u8]) -> usize
    requires room { at + 8 ≤ length room.old }
    requires four { length bytes.now ≡ 4 }
    ensures room { take result room.new ≡ take at room.old ++ encode_upper (to_be_bytes w32 (from_be_bytes w32 bytes.now)) }
    ensures end { result ≡ at + 8 }
    ensures size { length room.new ≡ length room.old }
{
    put_hex(room, at, bytes)
}

/// Puts the digits of a number that stands in two bytes.
#[inline(always)]
pub(crate) fn put_hex_16(room: &mut [u8], at: usize, bytes: &[u8]) -> usize
    requires room { at + 4 ≤ length room.old }
    requires two { length bytes.now ≡ 2 }
    ensures room { take result room.new ≡ take at room.old ++ encode_upper (to_be_bytes w16 (from_be_bytes w16 bytes.now)) }
    ensures end { result ≡ at + 4 }
    ensures size { length room.new ≡ length room.old }
{
    put_hex(room, at, bytes)
}

/// The number that stands in two bytes.
#[inline(always)]
pub(crate) fn number_at(bytes: &[u8], place: usize) -> u16
    requires { place + 2 ≤ length bytes.now }
    ensures { result ≡ from_be_bytes w16 (piece bytes.now place 2) }
{
    u16::from_be_bytes([bytes[place], bytes[place + 1]])
}

/// Puts the word of the address that stands in twelve bytes.
#[inline(always)]
#[tactic(auto, unfolding(ipx_wire::specs::Address::address_at, ipx_wire::specs::AddressWord::address_word))]
pub(crate) fn put_address(room: &mut [u8], at: usize, bytes: &[u8]) -> usize
    requires room { at + 26 ≤ length room.old }
    requires whole { 12 ≤ length bytes.now }
    ensures room { take result room.new ≡ take at room.old ++ address_word (address_at bytes.now 0) }
    ensures end { result ≡ at + 26 }
    ensures size { length room.new ≡ length room.old }
{
    let at = put_hex_32(room, at, &bytes[..4]);
    let at = put_text(room, at, b".");
    let at = put_hex(room, at, &bytes[4..10]);
    let at = put_text(room, at, b".");
    put_hex_16(room, at, &bytes[10..12])
}

/// Puts a number in decimal digits.
#[inline(always)]
pub(crate) fn put_number(room: &mut [u8], at: usize, number: u16) -> usize
    requires { at + LONGEST_NUMBER ≤ length room.old }
    ensures room { take result room.new ≡ take at room.old ++ decimal number }
    ensures most { result ≤ at + LONGEST_NUMBER }
    ensures size { length room.new ≡ length room.old }
{
    if number < 10_000 {
        return put_four(room, at, number);
    }
    let at = put_digit(room, at, number / 10_000);
    let at = put_pair(room, at, number / 100 % 100);
    put_pair(room, at, number % 100)
}

/// Puts a number of up to four digits.
#[inline(always)]
fn put_four(room: &mut [u8], at: usize, number: u16) -> usize
    requires small { number < 10000 }
    requires room { at + 4 ≤ length room.old }
    ensures room { take result room.new ≡ take at room.old ++ decimal number }
    ensures most { result ≤ at + 4 }
    ensures size { length room.new ≡ length room.old }
{
    if number < 100 {
        return put_two(room, at, number);
    }
    let at = put_two(room, at, number / 100);
    put_pair(room, at, number % 100)
}

/// Puts a number of one digit or two.
#[inline(always)]
fn put_two(room: &mut [u8], at: usize, number: u16) -> usize
    requires small { number < 100 }
    requires room { at + 2 ≤ length room.old }
    ensures room { take result room.new ≡ take at room.old ++ decimal number }
    ensures most { result ≤ at + 2 }
    ensures size { length room.new ≡ length room.old }
{
    if number < 10 {
        return put_digit(room, at, number);
    }
    put_pair(room, at, number)
}

/// Puts a number of one digit.
#[inline(always)]
#[tactic(auto, using(std::proofs::lemmas::Fmt::decimal_digit))]
fn put_digit(room: &mut [u8], at: usize, number: u16) -> usize
    requires small { number < 10 }
    requires room { at + 1 ≤ length room.old }
    ensures room { take result room.new ≡ take at room.old ++ decimal number }
    ensures end { result ≡ at + 1 }
    ensures size { length room.new ≡ length room.old }
{
    put_text(room, at, &[b'0' + number as u8])
}

/// Puts two digits, also where the first is a zero.
#[inline(always)]
fn put_pair(room: &mut [u8], at: usize, number: u16) -> usize
    requires small { number < 100 }
    requires room { at + 2 ≤ length room.old }
    ensures room { take result room.new ≡ take at room.old ++ two_digits number }
    ensures end { result ≡ at + 2 }
    ensures size { length room.new ≡ length room.old }
{
    put_text(
        room,
        at,
        &[b'0' + (number / 10) as u8, b'0' + (number % 10) as u8],
    )
}

/// Puts a name as one word: what isn't visible stands as a backslash and two digits, and so does a backslash.
pub(crate) fn put_name(room: &mut [u8], at: usize, name: &[u8]) -> usize
    requires { at + 3 * length name.now ≤ length room.old }
    ensures room { take result room.new ≡ take at room.old ++ name_word name.now }
    ensures most { result ≤ at + 3 * length name.now }
    ensures size { length room.new ≡ length room.old }
{
    let mut end = at;
    for byte in name {
        end = put_byte(room, end, *byte);
    }
    end
}

/// Puts a byte of a name.
#[inline(always)]
fn put_byte(room: &mut [u8], at: usize, byte: u8) -> usize
    requires { at + 3 ≤ length room.old }
    ensures room { take result room.new ≡ take at room.old ++ byte_word byte }
    ensures most { result ≤ at + 3 }
    ensures size { length room.new ≡ length room.old }
{
    if is_plain(byte) {
        return put_text(room, at, &[byte]);
    }
    let at = put_text(room, at, b"\\");
    put_hex(room, at, &[byte])
}

/// Whether a byte stands for itself.
#[inline(always)]
fn is_plain(byte: u8) -> bool
    ensures { result ≡ is_plain_byte byte }
{
    0x21 <= byte && byte <= 0x7E && byte != b'\\'
}
