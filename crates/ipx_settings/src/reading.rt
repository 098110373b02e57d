//! What a line says.
ghost use Rattle.std.specs.Prelude.{◌≡◌, ◌≤◌, ◌<◌, length, slice_get, IfSome};
ghost use Rattle.std.specs.Option.{option_map};
ghost use Rattle.ipx_settings.specs.Lines.{read_from, reading_of};
ghost use Rattle.ipx_settings.specs.Words.{words, before_mark, word_in};
ghost use Rattle.ipx_settings.specs.declared.line.Line.TheVariants.{Nothing};

use crate::expected::Expected;
use crate::line::{Context, Line};
use crate::words::{Span, before_mark, count, next_word, word_at, word_in};

/// The most words of a line.
const MOST_WORDS: usize = 32;

/// What a line says, and what is wrong with it.
///
/// ```
/// let context = Context {
///     cards: Cards::All,
///     is_below_tunnel: false,
///     most_clients: 4096,
/// };
/// let reading = Reading::of(b"network 10 1 1424 dosbox host:2130", context);
/// let is_wrong = reading.fault == Some(Expected::Address);
/// let read = reading.read;
/// println!(rt; "word {read} is no address of a tunnel: {is_wrong}")?;
/// // prints word 5 is no address of a tunnel: true
/// ```
#[derive(Clone, Copy)]
pub struct Reading {
    /// What its first words say.
    pub line: Line,
    /// How many words these are; the one behind them is wrong, or the line's end, if anything is.
    pub read: usize,
    /// What was expected there.
    pub fault: Option<Expected>,
}

impl Reading {
    /// Reads a line, up to a `#`.
    pub fn of(text: &[u8], context: Context) -> Reading
        ensures { result ≡ reading_of context text.now }
    {
        let said = before_mark(text);
        if count(said) > MOST_WORDS {
            return Reading {
                line: Line::Nothing,
                read: MOST_WORDS,
                fault: Some(Expected::FewerWords),
            };
        }
        read_words(said, context)
    }
}

/// Where the word of a line with that number stands, from 0.
pub fn word_of(text: &[u8], number: usize) -> Option<Span>
    ensures word { slice_get (words (before_mark text.now)) number ≡ option_map (word_in (before_mark text.now)) result }
    ensures place { IfSome result (λ span. (span.start < span.end) × (span.end ≤ length (before_mark text.now))) }
{
    word_at(before_mark(text), number)
}

/// The word of a line with that number, from 0.
pub fn word(text: &[u8], number: usize) -> Option<&[u8]>
    ensures { option_map (λ found. found.now) result ≡ slice_get (words (before_mark text.now)) number }
{
    let said = before_mark(text);
    match word_at(said, number) {
        Some(span) => Some(word_in(said, span)),
        None => None,
    }
}

fn read_words(text: &[u8], context: Context) -> Reading
    ensures { result ≡ read_from context Nothing 0 (words text.now) }
{
    let mut line = Line::Nothing;
    let mut read = 0;
    let mut from = 0;
    loop {
        match next_word(text, from) {
            Some(span) => match line.step(context, word_in(text, span)) {
                Ok(next) => {
                    line = next;
                    read += 1;
                    from = span.end;
                }
                Err(expected) => {
                    return Reading {
                        line,
                        read,
                        fault: Some(expected),
                    };
                }
            },
            None => {
                return Reading {
                    line,
                    read,
                    fault: line.ended(context),
                };
            }
        }
    }
}
