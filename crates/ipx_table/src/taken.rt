//! What a table did with an offer.
ghost use Rattle.std.specs.Prelude.{◌≡◌, Some};
ghost use Rattle.ipx_table.specs.TakenWord.{taken_word};

use std::fmt;

/// What a table did with an offer.
///
/// See the example of [`Exchanged`](crate::Exchanged).
#[derive(Clone, Copy, Debug, PartialEq, Eq, Hash)]
pub enum Taken {
    /// It was down and of the source of the record, which ended.
    Withdrawn,
    /// It was down, and there is no record of its key, or one of another source. Nothing changed.
    Nothing,
    /// It was up and of the source of the record, and took its place, at age 0.
    Refreshed {
        /// Whether the offer differs from the one before.
        changed: bool,
    },
    /// It was up and better than the record of another source, whose port was its own, or its port was below its share; it
    /// took the record's place, at age 0.
    Replaced,
    /// It was up, and no better than the record of another source. Nothing changed, nor did the age.
    Worse,
    /// It was up, there was no record of its key, and there was room in the table and in its port's share: it is in the
    /// table, at age 0.
    Admitted,
    /// It was up, and there was no room for it: the table is full, or its port has as many records as its share. A record of
    /// its key that came by another port stays, with its age. Nothing changed.
    Full,
}

impl Taken {
    ghost use Rattle.ipx_table.specs.Taken.{is_change};

    /// Whether it tells that the key has another offer than before. A refresh is judged by the type's own `==`.
    pub fn is_change(self) -> bool
        ensures { result ≡ is_change self }
    {
        match self {
            Taken::Withdrawn | Taken::Replaced | Taken::Admitted => true,
            Taken::Refreshed { changed } => changed,
            Taken::Nothing | Taken::Worse | Taken::Full => false,
        }
    }

    /// One word: `withdrawn`, `nothing`, `changed` or `refreshed` (as `Refreshed::changed` says), `replaced`, `worse`,
    /// `admitted`, `full`.
    pub fn word(self) -> &'static str
        ensures { result.now ≡ taken_word self }
    {
        match self {
            Taken::Withdrawn => "withdrawn",
            Taken::Nothing => "nothing",
            Taken::Refreshed { changed: true } => "changed",
            Taken::Refreshed { changed: false } => "refreshed",
            Taken::Replaced => "replaced",
            Taken::Worse => "worse",
            Taken::Admitted => "admitted",
            Taken::Full => "full",
        }
    }
}

/// The word of what was done.
impl fmt::Display for Taken {
    ghost output = { λ taken. Some (taken_word taken) };

    fn fmt<W: fmt::Write>(&self, f: &mut fmt::Formatter<W>) -> fmt::Result {
        f.write_str(self.word())
    }
}
