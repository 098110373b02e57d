//! Lines with lists in words.
ghost use Rattle.std.specs.Prelude.{◌≡◌, ◌+◌, ◌*◌, ◌<◌, ◌≤◌, ◌∷◌, [], ◌++◌, length, take, codes, flat_map, map};
ghost use Rattle.ipx_settings.specs.WritingLinks.{spaced};
ghost use Rattle.ipx_settings.specs.WritingLines.{socket_word, range_word, sockets_words, allow_words, trust_words, list_size, list_into};

use crate::addresses::HostRange;
use crate::putting::{LONGEST_NUMBER, give, put_bytes, put_number, put_text};
use crate::writing_hosts::{LONGEST_FOUR, put_four};

/// How many words a line has at most behind its first.
const MOST_LISTED: usize = 31;

const LONGEST_RANGE: usize = LONGEST_FOUR + 1 + LONGEST_NUMBER;

/// How many bytes a line with a list has at most in words: this is room for each.
pub const LONGEST_LIST: usize = 6 + MOST_LISTED * (1 + LONGEST_RANGE);

/// Puts sockets, each behind a blank.
fn put_sockets(room: &mut [u8], at: usize, sockets: &[u16]) -> usize
    requires { at + 5 * length sockets.now ≤ length room.old }
    ensures room { take result room.new ≡ take at room.old ++ flat_map (λ socket. 32 ∷ socket_word socket) sockets.now }
    ensures most { result ≤ at + 5 * length sockets.now }
    ensures size { length room.new ≡ length room.old }
{
    let mut end = at;
    for socket in sockets {
        end = put_text(room, end, b" ");
        end = put_bytes(room, end, &socket.to_be_bytes());
    }
    end
}

/// Puts a range of addresses.
fn put_range(room: &mut [u8], at: usize, range: HostRange) -> usize
    requires { at + LONGEST_RANGE ≤ length room.old }
    ensures room { take result room.new ≡ take at room.old ++ range_word range }
    ensures most { result ≤ at + LONGEST_RANGE }
    ensures size { length room.new ≡ length room.old }
{
    let at = put_four(room, at, range.first);
    let at = put_text(room, at, b"/");
    put_number(room, at, u32::from(range.bits))
}

/// Puts ranges, each behind a blank.
fn put_ranges(room: &mut [u8], at: usize, ranges: &[HostRange]) -> usize
    requires { at + (1 + LONGEST_RANGE) * length ranges.now ≤ length room.old }
    ensures room { take result room.new ≡ take at room.old ++ flat_map (λ range. 32 ∷ range_word range) ranges.now }
    ensures most { result ≤ at + (1 + LONGEST_RANGE) * length ranges.now }
    ensures size { length room.new ≡ length room.old }
{
    let mut end = at;
    for range in ranges {
        end = put_text(room, end, b" ");
        end = put_range(room, end, *range);
    }
    end
}

/// Writes the line of sockets whose broadcasts are extended, with a blank between each two of its words. Returns how many bytes it has;
/// nothing is written where they don't have room, or there are more than a line has.
pub fn write_sockets(sockets: &[u16], out: &mut [u8]) -> Option<usize>
    ensures size { result ≡ list_size (sockets_words sockets.now) out.old }
    ensures bytes { out.new ≡ list_into (sockets_words sockets.now) out.old }
{
    if sockets.len() > MOST_LISTED {
        return None;
    }
    let mut room = [0; LONGEST_LIST];
    let at = put_text(&mut room, 0, b"extend");
    let end = put_sockets(&mut room, at, sockets);
    give(&room[..end], out)
}

/// Writes a line of ranges of addresses behind its first word.
fn write_ranges(word: &[u8], ranges: &[HostRange], out: &mut [u8]) -> Option<usize>
    requires { length word.now ≤ 6 }
    ensures size { result ≡ list_size (word.now ∷ map range_word ranges.now) out.old }
    ensures bytes { out.new ≡ list_into (word.now ∷ map range_word ranges.now) out.old }
{
    if ranges.len() > MOST_LISTED {
        return None;
    }
    let mut room = [0; LONGEST_LIST];
    let at = put_text(&mut room, 0, word);
    let end = put_ranges(&mut room, at, ranges);
    give(&room[..end], out)
}

/// Writes the line of ranges of addresses that may be clients, alike.
pub fn write_allowed(ranges: &[HostRange], out: &mut [u8]) -> Option<usize>
    ensures size { result ≡ list_size (allow_words ranges.now) out.old }
    ensures bytes { out.new ≡ list_into (allow_words ranges.now) out.old }
{
    write_ranges(b"allow", ranges, out)
}

/// Writes the line of those that may be clients though they answer no ping, alike.
pub fn write_trusted(ranges: &[HostRange], out: &mut [u8]) -> Option<usize>
    ensures size { result ≡ list_size (trust_words ranges.now) out.old }
    ensures bytes { out.new ≡ list_into (trust_words ranges.now) out.old }
{
    write_ranges(b"trust", ranges, out)
}
