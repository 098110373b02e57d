//! Words that are names.
ghost use Rattle.std.specs.Prelude.{◌≡◌, ◌<◌, ◌≤◌, ◌&&◌, length};
ghost use Rattle.std.specs.Char.{is_ascii_alphabetic};
ghost use Rattle.std.specs.List.{list_all, list_any};
ghost use Rattle.ipx_settings.specs.Names.{is_name_byte, is_name, name_of, name_room, is_path_byte, is_path, path_of, is_file, file_of, origin_room, is_origin_byte, is_authority, behind, is_origin, origin_of, host_room, is_label_byte, is_label, are_labels, is_host_name, padded};
ghost use Rattle.ipx_settings.specs.Cutting.{dot, parts};

use crate::cutting::cut_at;
use crate::words::is_word;

/// Bytes of the name of an interface or a TAP, with a 0 behind; of a socket's path; and of a host's name or a file's path, with a 0 behind.
pub(crate) const NAME_ROOM: usize = 16;

const LONGEST_PATH: usize = 90;

/// Bytes of an origin, with a 0 behind; and of the host in it, with its port.
const ORIGIN_ROOM: usize = 89;

const LONGEST_AUTHORITY: usize = 80;

pub(crate) const HOST_ROOM: usize = 254;

fn is_name_byte(byte: u8) -> bool
    ensures { result ≡ is_name_byte byte }
{
    !(byte == 0 || byte == b'%' || byte == b'/' || byte == b':')
}

fn are_name_bytes(word: &[u8]) -> bool
    ensures { result ≡ list_all is_name_byte word.now }
{
    word.iter().all(|byte| is_name_byte(*byte))
}

/// Whether Linux takes it for the name of one interface.
fn is_name(word: &[u8]) -> bool
    ensures { result ≡ is_name word.now }
{
    !word.is_empty()
        && word.len() < NAME_ROOM
        && are_name_bytes(word)
        && !is_word(word, b".")
        && !is_word(word, b"..")
}

/// The name of an interface or a TAP, with zeros behind it.
pub(crate) fn name(word: &[u8]) -> Option<[u8; 16]>
    ensures { result ≡ name_of word.now }
{
    if !is_name(word) {
        return None;
    }
    let mut name = [0; 16];
    let (front, _) = name.split_at_mut(word.len());
    front.copy_from_slice(word);
    Some(name)
}

fn is_path_byte(byte: u8) -> bool
    ensures { result ≡ is_path_byte byte }
{
    byte != 0
}

fn are_path_bytes(word: &[u8]) -> bool
    ensures { result ≡ list_all is_path_byte word.now }
{
    word.iter().all(|byte| is_path_byte(*byte))
}

/// Whether it is a path that a socket may have.
fn is_path(word: &[u8]) -> bool
    ensures { result ≡ is_path word.now }
{
    !word.is_empty() && word.len() <= LONGEST_PATH && are_path_bytes(word)
}

/// A path, with zeros behind it.
pub(crate) fn path(word: &[u8]) -> Option<[u8; 254]>
    ensures { result ≡ path_of word.now }
{
    if is_path(word) {
        Some(host_name(word))
    } else {
        None
    }
}

/// Whether it is the path of a file.
fn is_file(word: &[u8]) -> bool
    ensures { result ≡ is_file word.now }
{
    !word.is_empty() && word.len() < HOST_ROOM && are_path_bytes(word)
}

/// The path of a file, with zeros behind it.
pub(crate) fn file(word: &[u8]) -> Option<[u8; 254]>
    ensures { result ≡ file_of word.now }
{
    if is_file(word) {
        Some(host_name(word))
    } else {
        None
    }
}

fn is_origin_byte(byte: u8) -> bool
    ensures { result ≡ is_origin_byte byte }
{
    b'!' <= byte && byte <= b'~' && byte != b'/'
}

fn are_origin_bytes(word: &[u8]) -> bool
    ensures { result ≡ list_all is_origin_byte word.now }
{
    word.iter().all(|byte| is_origin_byte(*byte))
}

/// Whether it is the host of an origin, with its port or without.
fn is_authority(word: &[u8]) -> bool
    ensures { result ≡ is_authority word.now }
{
    !word.is_empty() && word.len() <= LONGEST_AUTHORITY && are_origin_bytes(word)
}

/// What stands behind the first bytes of a word, where these are a scheme's.
fn behind<'a>(word: &'a [u8], scheme: &[u8]) -> &'a [u8]
    ensures { result.now ≡ behind word.now scheme.now }
{
    if word.len() < scheme.len() {
        return b"";
    }
    let (front, rest) = word.split_at(scheme.len());
    if is_word(front, scheme) { rest } else { b"" }
}

/// Whether pages may come from there: `*`, or a scheme and a host.
fn is_origin(word: &[u8]) -> bool
    ensures { result ≡ is_origin word.now }
{
    word.len() < ORIGIN_ROOM
        && (is_word(word, b"*")
            || is_authority(behind(word, b"http://"))
            || is_authority(behind(word, b"https://")))
}

fn padded_origin(word: &[u8]) -> [u8; 89]
    requires { length word.now < origin_room }
    ensures { result ≡ padded origin_room word.now }
{
    let mut origin = [0; 89];
    let (front, _) = origin.split_at_mut(word.len());
    front.copy_from_slice(word);
    origin
}

/// The origin of pages, with zeros behind it.
pub fn origin(word: &[u8]) -> Option<[u8; 89]>
    ensures { result ≡ origin_of word.now }
{
    if is_origin(word) {
        Some(padded_origin(word))
    } else {
        None
    }
}

fn is_label_byte(byte: u8) -> bool
    ensures { result ≡ is_label_byte byte }
{
    byte.is_ascii_alphabetic() || byte.is_ascii_digit() || byte == b'-' || byte == b'_'
}

fn are_label_bytes(part: &[u8]) -> bool
    ensures { result ≡ list_all is_label_byte part.now }
{
    part.iter().all(|byte| is_label_byte(*byte))
}

fn has_letter(part: &[u8]) -> bool
    ensures { result ≡ list_any is_ascii_alphabetic part.now }
{
    part.iter().any(|byte| byte.is_ascii_alphabetic())
}

/// Whether it is a part of a host's name.
fn is_label(part: &[u8]) -> bool
    ensures { result ≡ is_label part.now }
{
    !part.is_empty() && part[0] != b'-' && are_label_bytes(part)
}

/// Whether it is the last part of one.
fn is_last(part: &[u8]) -> bool
    ensures { result ≡ (is_label part.now && list_any is_ascii_alphabetic part.now) }
{
    is_label(part) && has_letter(part)
}

/// Whether these are the parts of a host's name, with dots between them.
fn are_labels(name: &[u8]) -> bool
    ensures { result ≡ are_labels (parts dot name.now) }
{
    let mut rest = name;
    loop {
        match cut_at(rest, b'.') {
            Some((part, more)) => {
                if is_label(part) {
                    rest = more;
                } else {
                    return false;
                }
            }
            None => return is_last(rest),
        }
    }
}

/// Whether it is the name of a host.
pub(crate) fn is_host_name(name: &[u8]) -> bool
    ensures { result ≡ is_host_name name.now }
{
    name.len() < HOST_ROOM && are_labels(name)
}

/// The name of a host, or a path, with zeros behind it.
pub(crate) fn host_name(name: &[u8]) -> [u8; 254]
    requires { length name.now < host_room }
    ensures { result ≡ padded host_room name.now }
{
    let mut host = [0; 254];
    let (front, _) = host.split_at_mut(name.len());
    front.copy_from_slice(name);
    host
}
