//! Words that are nodes.
ghost use Rattle.std.specs.Prelude.{◌≡◌, ◌<◌, ◌≤◌, ◌+◌, ◌*◌, ◌==◌, length, IfSome};
ghost use Rattle.std.specs.List.{list_all};
ghost use Rattle.ipx_settings.specs.Nodes.{has_colons, step_of, byte_at, bytes_by, is_single, node_bytes_of, node_of};

use crate::numbers::hexadecimal;

/// Whether colons stand between the bytes.
fn has_colons(word: &[u8]) -> bool
    requires { length word.now ≡ 17 }
    ensures { result ≡ has_colons word.now }
{
    word[2] == b':' && word[5] == b':' && word[8] == b':' && word[11] == b':' && word[14] == b':'
}

/// From one byte to the next.
fn step(word: &[u8]) -> Option<usize>
    ensures value { result ≡ step_of word.now }
    ensures within { IfSome result (λ step. (step ≤ 3) × (5 * step + 2 ≤ length word.now)) }
{
    if word.len() == 12 {
        Some(2)
    } else if word.len() == 17 && has_colons(word) {
        Some(3)
    } else {
        None
    }
}

/// The byte that two digits write.
fn byte_at(word: &[u8], at: usize) -> Option<u8>
    requires { at + 2 ≤ length word.now }
    ensures { result ≡ byte_at word.now at }
{
    let (_, rest) = word.split_at(at);
    let (pair, _) = rest.split_at(2);
    match hexadecimal(pair, 2, 0, 255) {
        Some(byte) => Some(byte as u8),
        None => None,
    }
}

/// The bytes that digits write.
fn bytes_by(step: usize, word: &[u8]) -> Option<[u8; 6]>
    requires step { step ≤ 3 }
    requires within { 5 * step + 2 ≤ length word.now }
    ensures { result ≡ bytes_by step word.now }
{
    Some([
        byte_at(word, 0)?,
        byte_at(word, step)?,
        byte_at(word, 2 * step)?,
        byte_at(word, 3 * step)?,
        byte_at(word, 4 * step)?,
        byte_at(word, 5 * step)?,
    ])
}

/// Whether all bytes are 0.
fn is_zero(bytes: &[u8]) -> bool
    ensures { result ≡ list_all (λ byte. byte == 0) bytes.now }
{
    bytes.iter().all(|byte| *byte == 0)
}

/// The six bytes that a word is: twelve hexadecimal digits, with colons between the bytes or without.
pub fn node_bytes(word: &[u8]) -> Option<[u8; 6]>
    ensures { result ≡ node_bytes_of word.now }
{
    let step = step(word)?;
    bytes_by(step, word)
}

/// The node of one computer.
pub(crate) fn node(word: &[u8]) -> Option<[u8; 6]>
    ensures { result ≡ node_of word.now }
{
    let node = node_bytes(word)?;
    if node[0] % 2 == 0 && !is_zero(&node) {
        Some(node)
    } else {
        None
    }
}
