//! The lines of a configuration, as C reads them. They are read to values, and need no handle.
ghost use Rattle.std.specs.Prelude.{◌≡◌, ◌==◌, if◌then◌else◌, Bool, true, None, Some, take, drop, slice_get};
ghost use Rattle.std.specs.Option.{unwrap_or, is_some};
ghost use Rattle.ipx_settings.specs.Addresses.{range_of};
ghost use Rattle.ipx_settings.specs.Lines.{reading_of, socket_of};
ghost use Rattle.ipx_settings.specs.Nodes.{node_bytes_of};
ghost use Rattle.ipx_settings.specs.Numbers.{hexadecimal_of};
ghost use Rattle.ipx_settings.specs.Words.{words, before_mark};
ghost use Rattle.ipx_c.specs.SettingsValues.{cards_of, context_of, line_said, expected_number, most_u32};
ghost use Rattle.ipx_c.specs.Writes.{is_yes};

use crate::settings_values::{
    LineSaid, bits_of, cards_of, expected_number, line_number, link_of_line, network_of_line,
    numbers_of, route_of_line, rule_of_line, service_of_line,
};
use ipx_settings::{
    Context, HostRange, Reading, hexadecimal, node_bytes, read_range, socket, word_of,
};

/// Reads a line. Returns what was expected where it is wrong, or 0; and tells what its words before that say.
#[unsafe(no_mangle)]
pub extern "C" fn ipxr_settings_line(
    text: &[u8],
    has_cards: u8,
    is_below_tunnel: u8,
    most_clients: u16,
    said: &mut LineSaid,
) -> u8
    ensures said { said.new ≡ line_said (reading_of (context_of (cards_of has_cards) (is_yes is_below_tunnel) most_clients) text.now) }
    ensures fault { result ≡ expected_number (reading_of (context_of (cards_of has_cards) (is_yes is_below_tunnel) most_clients) text.now).fault }
{
    let reading = Reading::of(
        text,
        Context {
            cards: cards_of(has_cards),
            is_below_tunnel: is_below_tunnel != 0,
            most_clients,
        },
    );
    *said = LineSaid {
        read: reading.read,
        kind: line_number(reading.line),
        bits: bits_of(reading.fault),
        network: network_of_line(reading.line),
        link: link_of_line(reading.line),
        numbers: numbers_of(reading.line),
        rule: rule_of_line(reading.line),
        route: route_of_line(reading.line),
        service: service_of_line(reading.line),
    };
    expected_number(reading.fault)
}

/// Where a word of a line stands, by its number from 0. Returns its bytes, 0 where there is none.
#[unsafe(no_mangle)]
pub extern "C" fn ipxr_settings_word(text: &[u8], number: usize, start: &mut usize) -> usize
    ensures { slice_get (words (before_mark text.now)) number ≡ (if result == 0 then None else Some (take result (drop start.new (before_mark text.now)))) }
{
    match word_of(text, number) {
        Some(span) => {
            *start = span.start;
            span.end - span.start
        }
        None => 0,
    }
}

/// The socket that a word is, or 0.
#[unsafe(no_mangle)]
pub extern "C" fn ipxr_settings_socket(word: &[u8]) -> u16
    ensures { result ≡ unwrap_or (socket_of word.now) 0 }
{
    match socket(word) {
        Some(socket) => socket as u16,
        None => 0,
    }
}

/// Reads a word of hexadecimal digits, at most so many. Returns whether it is one.
#[unsafe(no_mangle)]
pub extern "C" fn ipxr_settings_hexadecimal(word: &[u8], digits: usize, number: &mut u32) -> bool
    ensures is_one { result ≡ is_some (hexadecimal_of digits 0 most_u32 word.now) }
    ensures number { number.new ≡ unwrap_or (hexadecimal_of digits 0 most_u32 word.now) number.old }
{
    match hexadecimal(word, digits, 0, u32::MAX) {
        Some(found) => {
            *number = found;
            true
        }
        None => false,
    }
}

/// Reads the six bytes that a word writes, with colons between them or without. Returns whether it is one.
#[unsafe(no_mangle)]
pub extern "C" fn ipxr_settings_node(word: &[u8], node: &mut [u8; 6]) -> bool
    ensures is_one { result ≡ is_some (node_bytes_of word.now) }
    ensures node { node.new ≡ unwrap_or (node_bytes_of word.now) node.old }
{
    match node_bytes(word) {
        Some(found) => {
            *node = found;
            true
        }
        None => false,
    }
}

/// Reads the range of addresses that a word is. Returns whether it is one.
#[unsafe(no_mangle)]
pub extern "C" fn ipxr_settings_range(word: &[u8], range: &mut HostRange) -> bool
    ensures is_one { result ≡ is_some (range_of word.now) }
    ensures range { range.new ≡ unwrap_or (range_of word.now) range.old }
{
    match read_range(word) {
        Some(found) => {
            *range = found;
            true
        }
        None => false,
    }
}
