//! Lines that are put together in place, and appended at once: to append each of their small parts costs more than the parts.
ghost use Rattle.std.specs.Prelude.{◌≡◌, ◌+◌, ◌≤◌, [], ◌++◌, length, decimal};
ghost use Rattle.ipx_wire.specs.NameWord.{name_word};

use crate::texts::put::{LONGEST_NUMBER, put_number, put_text};
use ipx_wire::ServiceName;
use itoa::write_digits;
use std::marker::Model;

/// How many bytes a draft has room for: the lines of a record take fewer.
pub(crate) const ROOM: usize = 2048;

/// How many bytes the words of a record and the line of its packet take at most.
pub(crate) const HEAD: usize = 128;

/// How many digits the number of a record has at most.
pub(crate) const LONGEST_COUNT: usize = 20;

/// How many bytes the word of a name has at most.
pub(crate) const LONGEST_NAME: usize = ServiceName::LONGEST_WORD;

/// Text that is put together.
#[derive(Drop)]
pub(crate) struct Draft {
    pub(crate) bytes: [u8; ROOM],
    pub(crate) count: usize,
}

impl Model for Draft {
    ghost use Rattle.std.specs.Prelude.{List, ℕ, ◌≤◌, take};

    ghost Value = { List ℕ };

    ghost view = { λ draft. take draft.count draft.bytes };

    ghost invariant = { λ draft. draft.count ≤ 2048 };
}

impl Draft {
    /// No text yet.
    pub(crate) fn new() -> Draft
        ensures { result ≡ [] }
    {
        Draft {
            bytes: [0; ROOM],
            count: 0,
        }
    }

    /// Begins again with no text.
    pub(crate) fn clear(&mut self)
        ensures { self.new ≡ [] }
    {
        self.count = 0;
    }

    /// The text.
    pub(crate) fn text(&self) -> &[u8]
        ensures { result.now ≡ self.now }
    {
        &self.bytes[..self.count]
    }

    /// Puts bytes behind the text.
    #[inline(always)]
    pub(crate) fn put(&mut self, bytes: &[u8])
        requires { length self.old + length bytes.now ≤ ROOM }
        ensures text { self.new ≡ self.old ++ bytes.now }
        ensures size { length self.new ≡ length self.old + length bytes.now }
    {
        self.count = put_text(&mut self.bytes, self.count, bytes);
    }

    /// Puts a number in decimal digits.
    pub(crate) fn put_number(&mut self, number: u16)
        requires { length self.old + LONGEST_NUMBER ≤ ROOM }
        ensures text { self.new ≡ self.old ++ decimal number }
        ensures most { length self.new ≤ length self.old + LONGEST_NUMBER }
    {
        self.count = put_number(&mut self.bytes, self.count, number);
    }

    /// Puts the number of a record in decimal digits.
    pub(crate) fn put_count(&mut self, count: u64)
        requires { length self.old + LONGEST_COUNT ≤ ROOM }
        ensures text { self.new ≡ self.old ++ decimal count }
        ensures most { length self.new ≤ length self.old + LONGEST_COUNT }
    {
        let mut digits = [0; LONGEST_COUNT];
        let first = write_digits(count, &mut digits, LONGEST_COUNT);
        self.put(&digits[first..]);
    }

    /// Puts the name of a service as one word.
    pub(crate) fn put_name(&mut self, name: &ServiceName)
        requires { length self.old + LONGEST_NAME ≤ ROOM }
        ensures text { self.new ≡ self.old ++ name_word name.now }
        ensures most { length self.new ≤ length self.old + LONGEST_NAME }
    {
        let mut word = [0; ServiceName::LONGEST_WORD];
        let count = name.put_word(&mut word);
        self.put(&word[..count]);
    }
}
