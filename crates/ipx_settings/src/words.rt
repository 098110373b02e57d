//! The words of a line.
ghost use Rattle.std.specs.Prelude.{◌≡◌, ◌≤◌, ◌<◌, [], ◌∷◌, length, drop, not, MatchOption, IfSome, slice_get};
ghost use Rattle.std.specs.Option.{option_map};
ghost use Rattle.std.specs.List.{position, position_or_len};
ghost use Rattle.std.specs.Str.{bytes_eq};
ghost use Rattle.ipx_settings.specs.Words.{is_blank, is_mark, before_mark, words, word_in};

/// Whether a byte stands between words.
fn is_blank(byte: u8) -> bool
    ensures { result ≡ is_blank byte }
{
    byte == b' ' || (9 <= byte && byte <= 13)
}

/// Where a remark begins.
fn mark_at(line: &[u8]) -> Option<usize>
    ensures { result ≡ position is_mark line.now }
{
    line.iter().position(|byte| *byte == b'#')
}

/// What stands before a remark.
pub(crate) fn before_mark(line: &[u8]) -> &[u8]
    ensures { result.now ≡ before_mark line.now }
{
    let end = mark_at(line).unwrap_or(line.len());
    let (said, _) = line.split_at(end);
    said
}

/// Where the first word of a text begins.
fn word_start(text: &[u8]) -> Option<usize>
    ensures { result ≡ position (λ byte. not (is_blank byte)) text.now }
{
    text.iter().position(|byte| !is_blank(*byte))
}

/// Where the first blank stands.
fn word_end(text: &[u8]) -> Option<usize>
    ensures { result ≡ position is_blank text.now }
{
    text.iter().position(|byte| is_blank(*byte))
}

/// The bytes before the first blank, which are all where there is none.
fn word_length(text: &[u8]) -> usize
    ensures value { result ≡ position_or_len is_blank text.now }
    ensures most { result ≤ length text.now }
{
    match word_end(text) {
        Some(end) => end,
        None => text.len(),
    }
}

/// Where a word stands in a text.
///
/// See the example of [`Reading`](crate::Reading).
#[derive(Clone, Copy, Debug, PartialEq, Eq)]
pub struct Span {
    pub start: usize,
    pub end: usize,
}

/// The word there.
pub(crate) fn word_in(text: &[u8], span: Span) -> &[u8]
    requires order { span.start ≤ span.end }
    requires within { span.end ≤ length text.now }
    ensures { result.now ≡ word_in text.now span }
{
    let (_, begun) = text.split_at(span.start);
    let (word, _) = begun.split_at(span.end - span.start);
    word
}

/// Where the first word from a place on stands; none where only blanks follow.
pub(crate) fn next_word(text: &[u8], from: usize) -> Option<Span>
    requires { from ≤ length text.now }
    ensures word { MatchOption result (words (drop from text.now) ≡ []) (λ span. words (drop from text.now) ≡ word_in text.now span ∷ words (drop span.end text.now)) }
    ensures place { IfSome result (λ span. (from ≤ span.start) × (span.start < span.end) × (span.end ≤ length text.now)) }
{
    let (_, rest) = text.split_at(from);
    match word_start(rest) {
        Some(blanks) => {
            let start = from + blanks;
            let (_, begun) = text.split_at(start);
            Some(Span {
                start,
                end: start + word_length(begun),
            })
        }
        None => None,
    }
}

/// How many words there are.
pub(crate) fn count(text: &[u8]) -> usize
    ensures { result ≡ length (words text.now) }
{
    let mut count = 0;
    let mut from = 0;
    loop {
        match next_word(text, from) {
            Some(span) => {
                count += 1;
                from = span.end;
            }
            None => return count,
        }
    }
}

/// Where the word with that number stands, from 0.
pub(crate) fn word_at(text: &[u8], number: usize) -> Option<Span>
    ensures word { slice_get (words text.now) number ≡ option_map (word_in text.now) result }
    ensures place { IfSome result (λ span. (span.start < span.end) × (span.end ≤ length text.now)) }
{
    let mut left = number;
    let mut from = 0;
    loop {
        match next_word(text, from) {
            Some(span) => {
                if left == 0 {
                    return Some(span);
                }
                left -= 1;
                from = span.end;
            }
            None => return None,
        }
    }
}

/// Whether a word is this one.
pub(crate) fn is_word(word: &[u8], name: &[u8]) -> bool
    ensures { result ≡ bytes_eq word.now name.now }
{
    word == name
}
