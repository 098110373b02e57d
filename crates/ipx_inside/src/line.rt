//! A line of text that is put together in place, and takes no memory.
ghost use Rattle.std.specs.Prelude.{◌≡◌, ◌+◌, ◌*◌, ◌≤◌, ◌++◌, [], ◌∷◌, length, decimal, Some};
ghost use Rattle.std.specs.Int.{to_be_bytes, w16};
ghost use Rattle.std.specs.Str.{IsAscii};
ghost use Rattle.hex.specs.Hex.{encode_upper};
ghost use Rattle.ipx_wire.specs.NameWord.{byte_word, is_plain_byte, name_word};
ghost use Rattle.ipx_inside.specs.Fields.{named};

use arrayvec::ArrayString;
use ipx_wire::put_digits;
use itoa::write_digits;
use std::fmt;
use std::marker::Model;

/// How many digits a number has at most.
pub(crate) const LONGEST_NUMBER: usize = 10;

/// How many bytes have their digits written in one piece.
pub(crate) const PIECE: usize = 6;

/// The line that says what a packet holds.
///
/// See the example of [`Inside`].
#[derive(Debug, Drop)]
pub struct Line {
    text: ArrayString<256>,
}

impl Model for Line {
    ghost use Rattle.std.specs.Prelude.{List, ℕ};

    ghost Value = { List ℕ };

    ghost view = { λ line. line.text.bytes };
}

impl Line {
    /// How many bytes a line has at most.
    pub const LONGEST: usize = 256;

    /// The text.
    pub fn as_str(&self) -> &str
        ensures text { result.now ≡ self.now }
        ensures most { length result.now ≤ 256 }
    {
        self.text.as_str()
    }

    /// No text yet.
    pub(crate) fn new() -> Line
        ensures { result ≡ [] }
    {
        Line {
            text: ArrayString::new(),
        }
    }

    /// Puts a text behind the others.
    pub(crate) fn put(&mut self, text: &str)
        requires { length self.old + length text.now ≤ 256 }
        ensures text { self.new ≡ self.old ++ text.now }
        ensures size { length self.new ≡ length self.old + length text.now }
    {
        self.text.push_str(text);
    }

    /// Puts digits, or other ASCII.
    pub(crate) fn put_ascii(&mut self, text: &[u8])
        requires room { length self.old + length text.now ≤ 256 }
        requires ascii { IsAscii text.now }
        ensures text { self.new ≡ self.old ++ text.now }
        ensures size { length self.new ≡ length self.old + length text.now }
    {
        match std::str::from_utf8(text) {
            Ok(text) => self.put(text),
            Err(_) => {}
        }
    }

    /// Puts a number in decimal digits.
    pub(crate) fn put_number(&mut self, number: u32)
        requires { length self.old + LONGEST_NUMBER ≤ 256 }
        ensures text { self.new ≡ self.old ++ decimal number }
        ensures most { length self.new ≤ length self.old + LONGEST_NUMBER }
    {
        let mut digits = [0; LONGEST_NUMBER];
        let first = write_digits(u64::from(number), &mut digits, LONGEST_NUMBER);
        let (_, written) = digits.split_at(first);
        self.put_ascii(written);
    }

    /// Puts two digits for each byte, upper-case and hexadecimal.
    pub(crate) fn put_hex(&mut self, bytes: &[u8])
        requires few { length bytes.now ≤ PIECE }
        requires room { length self.old + 2 * length bytes.now ≤ 256 }
        ensures text { self.new ≡ self.old ++ encode_upper bytes.now }
        ensures size { length self.new ≡ length self.old + 2 * length bytes.now }
    {
        let mut room = [0; 2 * PIECE];
        let digits = &mut room[..2 * bytes.len()];
        put_digits(digits, bytes);
        self.put_ascii(digits);
    }

    /// Puts a word and a number in decimal digits.
    pub(crate) fn put_field(&mut self, word: &str, number: u32)
        requires { length self.old + length word.now + LONGEST_NUMBER ≤ 256 }
        ensures text { self.new ≡ self.old ++ word.now ++ decimal number }
        ensures most { length self.new ≤ length self.old + length word.now + LONGEST_NUMBER }
    {
        self.put(word);
        self.put_number(number);
    }

    /// Puts a word and the two digits of a byte.
    pub(crate) fn put_byte_field(&mut self, word: &str, byte: u8)
        requires { length self.old + length word.now + 2 ≤ 256 }
        ensures text { self.new ≡ self.old ++ word.now ++ encode_upper (byte ∷ []) }
        ensures size { length self.new ≡ length self.old + length word.now + 2 }
    {
        self.put(word);
        self.put_hex(&[byte]);
    }

    /// Puts a word and the four digits of a number.
    pub(crate) fn put_word_field(&mut self, word: &str, number: u16)
        requires { length self.old + length word.now + 4 ≤ 256 }
        ensures text { self.new ≡ self.old ++ word.now ++ encode_upper (to_be_bytes w16 number) }
        ensures size { length self.new ≡ length self.old + length word.now + 4 }
    {
        self.put(word);
        self.put_hex(&number.to_be_bytes());
    }

    /// Puts a word and a name, which may be none: then neither.
    pub(crate) fn put_named(&mut self, word: &str, name: &str)
        requires { length self.old + length word.now + length name.now ≤ 256 }
        ensures text { self.new ≡ self.old ++ named word.now name.now }
    {
        if name.is_empty() {
            return;
        }
        self.put(word);
        self.put(name);
    }

    /// Puts a name as one word: what isn't visible stands as a backslash and two digits, and so does a backslash.
    pub(crate) fn put_name(&mut self, name: &[u8])
        requires { length self.old + 3 * length name.now ≤ 256 }
        ensures text { self.new ≡ self.old ++ name_word name.now }
        ensures most { length self.new ≤ length self.old + 3 * length name.now }
    {
        for byte in name {
            self.put_byte(*byte);
        }
    }

    /// Puts a byte of a name.
    fn put_byte(&mut self, byte: u8)
        requires { length self.old + 3 ≤ 256 }
        ensures text { self.new ≡ self.old ++ byte_word byte }
        ensures most { length self.new ≤ length self.old + 3 }
    {
        if is_plain(byte) {
            return self.put_ascii(&[byte]);
        }
        self.put("\\");
        self.put_hex(&[byte]);
    }
}

/// The text.
impl fmt::Display for Line {
    ghost output = { λ line. Some line };

    fn fmt<W: fmt::Write>(&self, f: &mut fmt::Formatter<W>) -> fmt::Result {
        f.write_str(self.as_str())
    }
}

/// Whether a byte stands for itself.
fn is_plain(byte: u8) -> bool
    ensures { result ≡ is_plain_byte byte }
{
    0x21 <= byte && byte <= 0x7E && byte != b'\\'
}
