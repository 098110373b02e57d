//! Addresses of hosts in words.
ghost use Rattle.std.specs.Prelude.{◌≡◌, ◌+◌, ◌*◌, ◌<◌, ◌≤◌, ◌++◌, length, take, drop};
ghost use Rattle.std.specs.Net.Addr.{octets_of};
ghost use Rattle.std.specs.Net.Text.{ipv4_text, ipv6_text, groups_text, hex_groups_text, longest_zero_run};
ghost use Rattle.ipx_settings.specs.WritingAddresses.{is_mapped, is_compatible, six_words};

use crate::putting::{LONGEST_NUMBER, put_group, put_number, put_text};

/// How many bytes an address of IPv4 has at most in words, and one of IPv6: these are as many or more.
pub(crate) const LONGEST_FOUR: usize = 4 * LONGEST_NUMBER + 3;

pub(crate) const LONGEST_SIX: usize = LONGEST_FOUR + 7;

/// Puts an address of IPv4.
pub(crate) fn put_four(room: &mut [u8], at: usize, four: [u8; 4]) -> usize
    requires { at + LONGEST_FOUR ≤ length room.old }
    ensures room { take result room.new ≡ take at room.old ++ ipv4_text four }
    ensures most { result ≤ at + LONGEST_FOUR }
    ensures size { length room.new ≡ length room.old }
{
    let at = put_number(room, at, u32::from(four[0]));
    let at = put_text(room, at, b".");
    let at = put_number(room, at, u32::from(four[1]));
    let at = put_text(room, at, b".");
    let at = put_number(room, at, u32::from(four[2]));
    let at = put_text(room, at, b".");
    put_number(room, at, u32::from(four[3]))
}

/// Where the longest run of groups of 0 begins, and how many they are; of two such runs the first.
fn longest_run(groups: &[u16]) -> (usize, usize)
    ensures run { result ≡ longest_zero_run groups.now }
    ensures within { result.0 + result.1 ≤ length groups.now }
{
    let mut place = groups.len();
    let mut longest = (place, 0);
    let mut run = 0;
    while place > 0 {
        place -= 1;
        run = if groups[place] == 0 { run + 1 } else { 0 };
        if run >= longest.1 {
            longest = (place, run);
        }
    }
    longest
}

/// Puts groups with colons between them.
fn put_groups(room: &mut [u8], at: usize, groups: &[u16]) -> usize
    requires { at + 5 * length groups.now ≤ length room.old }
    ensures room { take result room.new ≡ take at room.old ++ groups_text groups.now }
    ensures most { result ≤ at + 5 * length groups.now }
    ensures size { length room.new ≡ length room.old }
{
    if groups.is_empty() {
        return at;
    }
    let mut end = put_group(room, at, groups[0]);
    let (_, rest) = groups.split_at(1);
    for group in rest {
        end = put_text(room, end, b":");
        end = put_group(room, end, *group);
    }
    end
}

/// Puts eight groups, of which the longest run of groups of 0 are two colons.
#[tactic(auto, unfolding(std::specs::Net::Text::hex_groups_text))]
fn put_shortest(room: &mut [u8], at: usize, groups: &[u16; 8]) -> usize
    requires { at + LONGEST_SIX ≤ length room.old }
    ensures room { take result room.new ≡ take at room.old ++ hex_groups_text groups.now }
    ensures most { result ≤ at + LONGEST_SIX }
    ensures size { length room.new ≡ length room.old }
{
    let (start, run) = longest_run(groups);
    if run < 2 {
        return put_groups(room, at, groups);
    }
    let at = put_groups(room, at, &groups[..start]);
    let at = put_text(room, at, b"::");
    put_groups(room, at, &groups[start + run..])
}

/// The address of IPv4 that the last two groups are.
#[tactic(auto, using(crate::proofs::Decimals::last_octets))]
fn last_four(groups: &[u16; 8]) -> [u8; 4]
    ensures { result ≡ octets_of (drop 6 groups.now) }
{
    [
        (groups[6] / 256) as u8,
        (groups[6] % 256) as u8,
        (groups[7] / 256) as u8,
        (groups[7] % 256) as u8,
    ]
}

/// Whether it is an address of IPv4 behind the prefix for these.
fn is_mapped(groups: &[u16; 8]) -> bool
    ensures { result ≡ is_mapped groups.now }
{
    groups[..6] == [0, 0, 0, 0, 0, 0xFFFF]
}

/// Whether it is an address of IPv4 behind nothing but zeros.
fn is_compatible(groups: &[u16; 8]) -> bool
    ensures { result ≡ is_compatible groups.now }
{
    groups[..6] == [0; 6] && groups[6] != 0
}

/// Puts an address of IPv6.
#[tactic(auto, unfolding(std::specs::Net::Text::ipv6_text))]
pub(crate) fn put_six(room: &mut [u8], at: usize, groups: &[u16; 8]) -> usize
    requires { at + LONGEST_SIX ≤ length room.old }
    ensures room { take result room.new ≡ take at room.old ++ six_words groups.now }
    ensures most { result ≤ at + LONGEST_SIX }
    ensures size { length room.new ≡ length room.old }
{
    if is_compatible(groups) {
        let at = put_text(room, at, b"::");
        return put_four(room, at, last_four(groups));
    }
    if is_mapped(groups) {
        let at = put_text(room, at, b"::ffff:");
        return put_four(room, at, last_four(groups));
    }
    put_shortest(room, at, groups)
}
