//! Addresses of hosts: IPv4 by four numbers, IPv6 by eight groups.
ghost use Rattle.std.specs.Prelude.{◌≡◌, ◌<◌, ◌≤◌, ◌+◌, length, IfSome, Some};
ghost use Rattle.ipx_settings.specs.Cutting.{parts, colon};
ghost use Rattle.ipx_settings.specs.Hosts.{octet_of, four_of, no_groups, with_group, with_four, with_part, groups_from, groups_of, gap_of, around_gap, six_by, six_of};

use crate::cutting::cut_at;
use crate::numbers::{hexadecimal, short};

/// The groups of an address of IPv6, as far as they were read.
#[derive(Clone, Copy)]
pub(crate) struct Groups {
    pub list: [u16; 8],
    pub count: usize,
    /// The last two were an address of IPv4.
    pub has_four: bool,
}

/// A number of 0 to 255 without a 0 in front that means nothing.
fn octet(part: &[u8]) -> Option<u8>
    ensures { result ≡ octet_of part.now }
{
    if part.len() > 1 && part[0] == b'0' {
        return None;
    }
    match short(part, 0, 255) {
        Some(value) => Some(value as u8),
        None => None,
    }
}

/// Four such numbers between dots.
pub(crate) fn four(word: &[u8]) -> Option<[u8; 4]>
    ensures { result ≡ four_of word.now }
{
    let (first, rest) = cut_at(word, b'.')?;
    let (second, rest) = cut_at(rest, b'.')?;
    let (third, fourth) = cut_at(rest, b'.')?;
    Some([octet(first)?, octet(second)?, octet(third)?, octet(fourth)?])
}

impl Groups {
    fn none() -> Groups
        ensures { result ≡ no_groups }
    {
        Groups {
            list: [0; 8],
            count: 0,
            has_four: false,
        }
    }

    /// One group more, if there is room.
    fn with_group(self, group: u16) -> Option<Groups>
        ensures { result ≡ with_group group self }
    {
        if self.count >= 8 {
            return None;
        }
        let mut list = self.list;
        list[self.count] = group;
        Some(Groups {
            list,
            count: self.count + 1,
            has_four: self.has_four,
        })
    }

    /// The two groups that an address of IPv4 is.
    fn with_four(self, four: [u8; 4]) -> Option<Groups>
        ensures { result ≡ with_four four self }
    {
        let high = u16::from(four[0]) * 256 + u16::from(four[1]);
        let low = u16::from(four[2]) * 256 + u16::from(four[3]);
        let both = self.with_group(high)?.with_group(low)?;
        Some(Groups {
            list: both.list,
            count: both.count,
            has_four: true,
        })
    }

    /// What a part between colons is more.
    fn with_part(self, part: &[u8]) -> Option<Groups>
        ensures { result ≡ with_part part.now self }
    {
        if self.has_four {
            return None;
        }
        match hexadecimal(part, 4, 0, 65535) {
            Some(group) => self.with_group(group as u16),
            None => self.with_four(four(part)?),
        }
    }
}

/// The groups between colons.
fn read_groups(text: &[u8]) -> Option<Groups>
    ensures { result ≡ groups_from no_groups (parts colon text.now) }
{
    let mut rest = text;
    let mut found = Groups::none();
    loop {
        match cut_at(rest, b':') {
            Some((part, more)) => match found.with_part(part) {
                Some(next) => {
                    found = next;
                    rest = more;
                }
                None => return None,
            },
            None => return found.with_part(rest),
        }
    }
}

/// The groups of a text, which has none if it is empty.
fn side(text: &[u8]) -> Option<Groups>
    ensures { result ≡ groups_of text.now }
{
    if text.is_empty() {
        Some(Groups::none())
    } else {
        read_groups(text)
    }
}

/// Where two colons stand first.
fn gap(text: &[u8]) -> Option<usize>
    ensures value { result ≡ gap_of text.now }
    ensures within { IfSome result (λ place. place + 2 ≤ length text.now) }
{
    let mut place = 0;
    while place + 1 < text.len() {
        if text[place] == b':' && text[place + 1] == b':' {
            return Some(place);
        }
        place += 1;
    }
    None
}

/// Groups before a gap and behind it.
fn around(before: Groups, after: Groups) -> Option<[u16; 8]>
    requires before { length before.list ≡ 8 }
    requires after { length after.list ≡ 8 }
    ensures { result ≡ around_gap before after }
{
    if before.has_four || before.count > 8 || after.count > 8 || before.count + after.count >= 8 {
        return None;
    }
    let mut list = before.list;
    list[8 - after.count..].copy_from_slice(&after.list[..after.count]);
    Some(list)
}

/// An address of IPv6 with a gap at that place.
fn with_gap(word: &[u8], place: usize) -> Option<[u16; 8]>
    requires { place + 2 ≤ length word.now }
    ensures { result ≡ six_by (Some place) word.now }
{
    let (left, _) = word.split_at(place);
    let (_, right) = word.split_at(place + 2);
    let before = side(left)?;
    let after = side(right)?;
    around(before, after)
}

/// An address of IPv6.
pub(crate) fn six(word: &[u8]) -> Option<[u16; 8]>
    ensures { result ≡ six_of word.now }
{
    match gap(word) {
        Some(place) => with_gap(word, place),
        None => {
            let found = read_groups(word)?;
            if found.count == 8 {
                Some(found.list)
            } else {
                None
            }
        }
    }
}
