//! What the lines of every script have in common: comments, text, words, and bytes as a word.
ghost use Rattle.std.specs.Prelude.{◌≡◌, [], ◌∷◌, nat_eq, codes, MatchOption, MatchResult, Ok, Err};
ghost use Rattle.std.specs.List.{starts_with};
ghost use Rattle.ipx_cmd.specs.declared.lines.fault.LineFault.TheVariants.{Hex};
ghost use Rattle.ipx_cmd.specs.Line.{or_fault, line_words, no_more, AnswersInMemory};
ghost use Rattle.ipx_cmd.specs.Words.{words, bytes_of};

use crate::lines::digits::read_digits;
use crate::lines::fault::LineFault;
use crate::lines::halt::Halt;
use crate::lines::words::{first_word, has_no_words, is_text, is_word};

/// Whether a line's first byte is `#`.
fn is_comment(line: &[u8]) -> bool
    ensures { result ≡ starts_with nat_eq line.now (codes "#") }
{
    line.starts_with(b"#")
}

/// The first word of a line and what follows it; none where the line is skipped.
pub(crate) fn line_words(line: &[u8]) -> Result<Option<(&[u8], &[u8])>, LineFault>
    ensures { MatchResult result
        (λ found. MatchOption found (line_words line.now ≡ Ok []) (λ parts. line_words line.now ≡ Ok (parts.0.now ∷ words parts.1.now)))
        (λ fault. line_words line.now ≡ Err fault) }
{
    if is_comment(line) {
        return Ok(None);
    }
    if !is_text(line) {
        return Err(LineFault::Text);
    }
    Ok(first_word(line))
}

/// Refuses the words that follow a command of one word.
pub(crate) fn no_more(arguments: &[u8]) -> Result<(), LineFault>
    ensures { result ≡ no_more (words arguments.now) }
{
    if has_no_words(arguments) {
        Ok(())
    } else {
        Err(LineFault::Words)
    }
}

/// Reads the bytes of a word into a buffer: `-` for none, or hexadecimal digits.
pub(crate) fn read_bytes(buffer: &mut Vec<u8>, word: &[u8]) -> Result<(), Halt>
    ensures { AnswersInMemory (λ read. buffer.new.items) result (or_fault Hex (bytes_of word.now)) }
{
    if is_word(word, b"-") {
        buffer.clear();
        return Ok(());
    }
    if word.is_empty() || word.len() % 2 == 1 {
        return Err(Halt::Line(LineFault::Hex));
    }
    buffer.resize(word.len() / 2, 0)?;
    if read_digits(word, buffer) {
        Ok(())
    } else {
        Err(Halt::Line(LineFault::Hex))
    }
}
