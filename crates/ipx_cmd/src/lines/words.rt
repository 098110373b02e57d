//! The words of a line, and what a word says: a number, a network, a node or bytes.
ghost use Rattle.std.specs.Prelude.{◌≡◌, ◌≤◌, ◌==◌, [], ◌∷◌, length, drop, not, IsTrue, MatchOption, IfSome};
ghost use Rattle.std.specs.List.{list_all, position, position_or_len, before_first};
ghost use Rattle.std.specs.Option.{option_map};
ghost use Rattle.std.specs.Char.{is_ascii_digit};
ghost use Rattle.std.specs.Str.{bytes_eq};
ghost use Rattle.std.specs.Str.Parse.{digits_value};
ghost use Rattle.ipx_cmd.specs.Words.{is_blank, is_text_byte, words, only_one, only_two, only_three, only_four, share_words, port_words, is_numeral, number_of, number_between};
ghost use Rattle.ipx_wire.specs.Digits.{network_of, node_of};

use ipx_wire::{Network, Node};
use memchr::memchr2;
use std::str;

/// The words that name a port.
#[derive(Clone, Copy)]
pub(crate) struct PortWords<'a> {
    pub network: &'a [u8],
    pub node: &'a [u8],
    pub cost: &'a [u8],
    pub longest: &'a [u8],
    /// Those of its shares of routes and of services, if they are named.
    pub shares: Option<(&'a [u8], &'a [u8])>,
}

/// Whether a byte stands between words.
fn is_blank(byte: u8) -> bool
    ensures { result ≡ is_blank byte }
{
    byte == b' ' || byte == b'\t'
}

/// Whether a line may have this byte.
fn is_text_byte(byte: u8) -> bool
    ensures { result ≡ is_text_byte byte }
{
    byte == b'\t' || (b' ' <= byte && byte <= b'~')
}

/// Whether a line has only tabs and printable ASCII characters.
///
/// Another byte doesn't end the loop, so that many are judged side by side.
pub(crate) fn is_text(line: &[u8]) -> bool
    ensures { result ≡ list_all is_text_byte line.now }
{
    let mut fine = true;
    for byte in line {
        fine = fine & is_text_byte(*byte);
    }
    fine
}

/// Where the first word of a line begins.
fn word_start(line: &[u8]) -> Option<usize>
    ensures { result ≡ position (λ byte. not (is_blank byte)) line.now }
{
    line.iter().position(|byte| !is_blank(*byte))
}

/// Where the first blank stands.
fn word_end(text: &[u8]) -> Option<usize>
    ensures { result ≡ position is_blank text.now }
{
    memchr2(b' ', b'\t', text)
}

/// What stands before the first blank, and what follows it with the blank.
fn cut_word(text: &[u8]) -> (&[u8], &[u8])
    ensures word { result.0.now ≡ before_first is_blank text.now }
    ensures rest { result.1.now ≡ drop (position_or_len is_blank text.now) text.now }
{
    match word_end(text) {
        Some(end) => text.split_at(end),
        None => text.split_at(text.len()),
    }
}

/// The first word, and what follows it; none where there are no words.
pub(crate) fn first_word(line: &[u8]) -> Option<(&[u8], &[u8])>
    ensures { MatchOption result (words line.now ≡ []) (λ parts. words line.now ≡ parts.0.now ∷ words parts.1.now) }
{
    match word_start(line) {
        Some(start) => {
            let (_, text) = line.split_at(start);
            Some(cut_word(text))
        }
        None => None,
    }
}

/// Whether there are no words.
pub(crate) fn has_no_words(line: &[u8]) -> bool
    ensures { result ≡ (length (words line.now) == 0) }
{
    first_word(line).is_none()
}

/// The word of a line that has just one.
pub(crate) fn one_word(line: &[u8]) -> Option<&[u8]>
    ensures { option_map (λ word. word.now) result ≡ only_one (words line.now) }
{
    match first_word(line) {
        Some((word, rest)) if has_no_words(rest) => Some(word),
        _ => None,
    }
}

/// The words of a line that has just two.
pub(crate) fn two_words(line: &[u8]) -> Option<(&[u8], &[u8])>
    ensures { option_map (λ found. (found.0.now, found.1.now)) result ≡ only_two (words line.now) }
{
    let (first, rest) = first_word(line)?;
    let second = one_word(rest)?;
    Some((first, second))
}

/// The words of a line that has just three.
pub(crate) fn three_words(line: &[u8]) -> Option<(&[u8], &[u8], &[u8])>
    ensures { option_map (λ found. (found.0.now, found.1.now, found.2.now)) result ≡ only_three (words line.now) }
{
    let (first, rest) = first_word(line)?;
    let (second, third) = two_words(rest)?;
    Some((first, second, third))
}

/// The words of a line that has just four.
pub(crate) fn four_words(line: &[u8]) -> Option<(&[u8], &[u8], &[u8], &[u8])>
    ensures { option_map (λ found. (found.0.now, found.1.now, found.2.now, found.3.now)) result ≡ only_four (words line.now) }
{
    let (first, rest) = first_word(line)?;
    let (second, third, fourth) = three_words(rest)?;
    Some((first, second, third, fourth))
}

/// The words that name a port: four, and two more where its shares are named.
pub(crate) fn port_words(line: &[u8]) -> Option<PortWords<'_>>
    ensures { option_map (λ found. (found.network.now, found.node.now, found.cost.now, found.longest.now, option_map (λ shares. (shares.0.now, shares.1.now)) found.shares)) result ≡ port_words (words line.now) }
{
    let (network, after_network) = first_word(line)?;
    let (node, after_node) = first_word(after_network)?;
    let (cost, after_cost) = first_word(after_node)?;
    let (longest, after_longest) = first_word(after_cost)?;
    let shares = share_words(after_longest)?;
    Some(PortWords {
        network,
        node,
        cost,
        longest,
        shares,
    })
}

/// The words of a port's shares: none, or two.
fn share_words(line: &[u8]) -> Option<Option<(&[u8], &[u8])>>
    ensures { option_map (λ found. option_map (λ shares. (shares.0.now, shares.1.now)) found) result ≡ share_words (words line.now) }
{
    if has_no_words(line) {
        return Some(None);
    }
    match two_words(line) {
        Some(shares) => Some(Some(shares)),
        None => None,
    }
}

/// Whether a word is this one.
pub(crate) fn is_word(word: &[u8], name: &[u8]) -> bool
    ensures { result ≡ bytes_eq word.now name.now }
{
    word == name
}

fn has_digits_alone(word: &[u8]) -> bool
    ensures { result ≡ list_all is_ascii_digit word.now }
{
    word.iter().all(|byte| byte.is_ascii_digit())
}

/// Whether a word is one to seven decimal digits.
fn is_numeral(word: &[u8]) -> bool
    ensures { result ≡ is_numeral word.now }
{
    1 <= word.len() && word.len() <= 7 && has_digits_alone(word)
}

/// The value of decimal digits.
fn decimal_value(word: &[u8]) -> u32
    requires { IsTrue (is_numeral word.now) }
    ensures { result ≡ digits_value 10 word.now }
{
    let mut value = 0;
    for digit in word {
        value = value * 10 + (*digit - b'0') as u32;
    }
    value
}

/// A number of one to seven decimal digits that is at most `most`.
pub(crate) fn number(word: &[u8], most: u32) -> Option<u32>
    ensures value { result ≡ number_of most word.now }
    ensures fits { IfSome result (λ value. value ≤ most) }
{
    if !is_numeral(word) {
        return None;
    }
    let value = decimal_value(word);
    if value <= most { Some(value) } else { None }
}

/// A number of one to seven decimal digits that is at least 1 and at most `most`.
pub(crate) fn number_from_one(word: &[u8], most: u32) -> Option<u32>
    ensures value { result ≡ number_between 1 most word.now }
    ensures fits { IfSome result (λ value. value ≤ most) }
{
    let value = number(word, most)?;
    if value == 0 { None } else { Some(value) }
}

/// A number of 16 bits.
pub(crate) fn number_u16(word: &[u8]) -> Option<u16>
    ensures { result ≡ number_of 65535 word.now }
{
    match number(word, 65535) {
        Some(value) => Some(value as u16),
        None => None,
    }
}

/// A number of 8 bits.
pub(crate) fn number_u8(word: &[u8]) -> Option<u8>
    ensures { result ≡ number_of 255 word.now }
{
    match number(word, 255) {
        Some(value) => Some(value as u8),
        None => None,
    }
}

/// A network of eight hexadecimal digits.
pub(crate) fn network(word: &[u8]) -> Option<Network>
    ensures { option_map (λ network. network.0) result ≡ network_of word.now }
{
    match str::from_utf8(word) {
        Ok(text) => Network::from_hex(text),
        Err(_) => None,
    }
}

/// A node of twelve hexadecimal digits.
pub(crate) fn node(word: &[u8]) -> Option<Node>
    ensures { option_map (λ node. node.0) result ≡ node_of word.now }
{
    match str::from_utf8(word) {
        Ok(text) => Node::from_hex(text),
        Err(_) => None,
    }
}
