//! Links in words.
ghost use Rattle.std.specs.Prelude.{◌≡◌, ◌+◌, ◌<◌, ◌≤◌, ◌==◌, ◌∷◌, ◌++◌, length, take, flat_map};
ghost use Rattle.std.specs.List.{position, position_or_len};
ghost use Rattle.ipx_settings.specs.Writing.{written_size, written_into};
ghost use Rattle.ipx_settings.specs.WritingLinks.{spaced, name_in, place_words, frames_word, card_words, end_words, link_words};

use crate::addresses::{OWN_HOST, Place};
use crate::link::{End, Frames, Link};
use crate::names::{HOST_ROOM, NAME_ROOM};
use crate::putting::{LONGEST_NUMBER, give, put_number, put_text};
use crate::words::is_word;
use crate::writing_addresses::{LONGEST_ADDRESS, put_address};
use crate::writing_hosts::{LONGEST_FOUR, put_four};

pub(crate) const LONGEST_PLACE: usize = HOST_ROOM + 1 + LONGEST_NUMBER;

const LONGEST_END: usize = 10 + LONGEST_ADDRESS + LONGEST_PLACE;

/// How many bytes a link has at most in words: this is room for each.
pub const LONGEST_LINK: usize = 348;

/// Where the first 0 stands.
fn zero_at(bytes: &[u8]) -> Option<usize>
    ensures { result ≡ position (λ byte. byte == 0) bytes.now }
{
    bytes.iter().position(|byte| *byte == 0)
}

/// How many bytes a name has that has zeros behind it.
fn name_length(bytes: &[u8]) -> usize
    ensures value { result ≡ position_or_len (λ byte. byte == 0) bytes.now }
    ensures most { result ≤ length bytes.now }
{
    match zero_at(bytes) {
        Some(end) => end,
        None => bytes.len(),
    }
}

/// Puts a name that has zeros behind it.
pub(crate) fn put_name(room: &mut [u8], at: usize, bytes: &[u8]) -> usize
    requires { at + length bytes.now ≤ length room.old }
    ensures room { take result room.new ≡ take at room.old ++ name_in bytes.now }
    ensures most { result ≤ at + length bytes.now }
    ensures size { length room.new ≡ length room.old }
{
    let (name, _) = bytes.split_at(name_length(bytes));
    put_text(room, at, name)
}

/// Puts where somebody else is.
pub(crate) fn put_place(room: &mut [u8], at: usize, place: &Place) -> usize
    requires { at + LONGEST_PLACE ≤ length room.old }
    ensures room { take result room.new ≡ take at room.old ++ place_words place.now }
    ensures most { result ≤ at + LONGEST_PLACE }
    ensures size { length room.new ≡ length room.old }
{
    match place {
        Place::At(address) => put_address(room, at, address),
        Place::Named(name, port) => {
            let at = put_name(room, at, name);
            let at = put_text(room, at, b":");
            put_number(room, at, u32::from(*port))
        }
    }
}

/// Puts a kind of frames.
fn put_frames(room: &mut [u8], at: usize, frames: Frames) -> usize
    requires { at + 9 ≤ length room.old }
    ensures room { take result room.new ≡ take at room.old ++ frames_word frames }
    ensures most { result ≤ at + 9 }
    ensures size { length room.new ≡ length room.old }
{
    match frames {
        Frames::Ethernet2 => put_text(room, at, b"ethernet2"),
        Frames::Raw => put_text(room, at, b"raw"),
        Frames::Llc => put_text(room, at, b"llc"),
        Frames::Snap => put_text(room, at, b"snap"),
        Frames::Any => put_text(room, at, b"auto"),
    }
}

/// Puts the card of a group behind it, where it isn't this machine's own.
fn put_card(room: &mut [u8], at: usize, card: [u8; 4]) -> usize
    requires { at + 5 + LONGEST_FOUR ≤ length room.old }
    ensures room { take result room.new ≡ take at room.old ++ flat_map (λ word. 32 ∷ word) (card_words card) }
    ensures most { result ≤ at + 5 + LONGEST_FOUR }
    ensures size { length room.new ≡ length room.old }
{
    if is_word(&card, &OWN_HOST) {
        return at;
    }
    let at = put_text(room, at, b" via ");
    put_four(room, at, card)
}

/// Puts a link but for its kind of frames.
fn put_end(room: &mut [u8], at: usize, end: &End) -> usize
    requires { at + LONGEST_END ≤ length room.old }
    ensures room { take result room.new ≡ take at room.old ++ spaced (end_words end.now) }
    ensures most { result ≤ at + LONGEST_END }
    ensures size { length room.new ≡ length room.old }
{
    match end {
        End::Udp(local, remote) => {
            let at = put_text(room, at, b"qemu-udp ");
            let at = put_address(room, at, local);
            let at = put_text(room, at, b" ");
            put_place(room, at, remote)
        }
        End::Listen(local) => {
            let at = put_text(room, at, b"qemu-tcp listen ");
            put_address(room, at, local)
        }
        End::Connect(remote) => {
            let at = put_text(room, at, b"qemu-tcp connect ");
            put_place(room, at, remote)
        }
        End::Tap(name) => {
            let at = put_text(room, at, b"tap ");
            put_name(room, at, name)
        }
        End::Interface(name) => {
            let at = put_text(room, at, b"interface ");
            put_name(room, at, name)
        }
        End::Group(group, card) => {
            let at = put_text(room, at, b"qemu-mcast ");
            let at = put_address(room, at, group);
            put_card(room, at, *card)
        }
        End::Switch(path) => {
            let at = put_text(room, at, b"vde ");
            put_name(room, at, path)
        }
        End::Web(address) => {
            let at = put_text(room, at, b"web ");
            put_address(room, at, address)
        }
        End::Peers(local, file) => {
            let at = put_text(room, at, b"peers ");
            let at = put_address(room, at, local);
            let at = put_text(room, at, b" ");
            put_name(room, at, file)
        }
    }
}

/// Puts a link.
pub(crate) fn put_link(room: &mut [u8], at: usize, link: &Link) -> usize
    requires { at + LONGEST_LINK ≤ length room.old }
    ensures room { take result room.new ≡ take at room.old ++ spaced (link_words link.now) }
    ensures most { result ≤ at + LONGEST_LINK }
    ensures size { length room.new ≡ length room.old }
{
    match link {
        Link::Tunnel(address) => {
            let at = put_text(room, at, b"dosbox ");
            put_address(room, at, address)
        }
        Link::Web(address) => {
            let at = put_text(room, at, b"web ");
            put_address(room, at, address)
        }
        Link::Rfc1234(address) => {
            let at = put_text(room, at, b"rfc1234 ");
            put_address(room, at, address)
        }
        Link::Framed(end, frames) => {
            let at = put_end(room, at, end);
            let at = put_text(room, at, b" ");
            put_frames(room, at, *frames)
        }
    }
}

/// Writes the words of a link as a line has them, with a blank between each two. Returns how many bytes these are; nothing is written where
/// they don't have room.
pub fn write_link(link: &Link, out: &mut [u8]) -> Option<usize>
    ensures size { result ≡ written_size (spaced (link_words link.now)) out.old }
    ensures bytes { out.new ≡ written_into (spaced (link_words link.now)) out.old }
    ensures most { length (spaced (link_words link.now)) ≤ LONGEST_LINK }
{
    let mut room = [0; LONGEST_LINK];
    let end = put_link(&mut room, 0, link);
    give(&room[..end], out)
}
