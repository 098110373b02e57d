//! Rules in words.
ghost use Rattle.std.specs.Prelude.{◌≡◌, ◌+◌, ◌<◌, ◌≤◌, ◌∷◌, [], ◌++◌, length, take};
ghost use Rattle.ipx_settings.specs.WritingLinks.{spaced};
ghost use Rattle.ipx_settings.specs.WritingLines.{way_word, names_word, networks_word, what_words, rule_words, permit_word};

use crate::putting::{put_bytes, put_number, put_text};
use crate::rule::{Names, RuleBegun, Way, What};
use crate::writing_links::put_name;

fn put_way(room: &mut [u8], at: usize, way: Way) -> usize
    requires { at + 3 ≤ length room.old }
    ensures room { take result room.new ≡ take at room.old ++ way_word way }
    ensures most { result ≤ at + 3 }
    ensures size { length room.new ≡ length room.old }
{
    match way {
        Way::In => put_text(room, at, b"in"),
        Way::Out => put_text(room, at, b"out"),
    }
}

fn put_names(room: &mut [u8], at: usize, names: &Names) -> usize
    requires { at + 49 ≤ length room.old }
    ensures room { take result room.new ≡ take at room.old ++ names_word names.now }
    ensures most { result ≤ at + 49 }
    ensures size { length room.new ≡ length room.old }
{
    match names {
        Names::All => put_text(room, at, b"*"),
        Names::Is(name) => put_name(room, at, name),
        Names::Begins(name) => {
            let at = put_name(room, at, name);
            put_text(room, at, b"*")
        }
    }
}

/// Puts the first network and the last.
fn put_networks(room: &mut [u8], at: usize, from: u32, to: u32) -> usize
    requires { at + 17 ≤ length room.old }
    ensures room { take result room.new ≡ take at room.old ++ networks_word from to }
    ensures most { result ≤ at + 17 }
    ensures size { length room.new ≡ length room.old }
{
    let at = put_bytes(room, at, &from.to_be_bytes());
    let at = put_text(room, at, b"-");
    put_bytes(room, at, &to.to_be_bytes())
}

/// Puts what a rule names, behind what it does with that.
fn put_what(room: &mut [u8], at: usize, first: &[u8], what: &What) -> usize
    requires { at + length first.now + 72 ≤ length room.old }
    ensures room { take result room.new ≡ take at room.old ++ spaced (what_words first.now what.now) }
    ensures most { result ≤ at + length first.now + 72 }
    ensures size { length room.new ≡ length room.old }
{
    let at = put_text(room, at, first);
    match what {
        What::Kind(kind) => {
            let at = put_text(room, at, b" type ");
            put_number(room, at, u32::from(*kind))
        }
        What::OnSocket(socket) => {
            let at = put_text(room, at, b" socket ");
            put_bytes(room, at, &socket.to_be_bytes())
        }
        What::Nearest => put_text(room, at, b" nearest"),
        What::Routes(way, from, to) => {
            let at = put_text(room, at, b" route ");
            let at = put_networks(room, at, *from, *to);
            let at = put_text(room, at, b" ");
            put_way(room, at, *way)
        }
        What::Services(way, kind, names) => {
            let at = put_text(room, at, b" service ");
            let at = put_bytes(room, at, &kind.to_be_bytes());
            let at = put_text(room, at, b" ");
            let at = put_names(room, at, names);
            let at = put_text(room, at, b" ");
            put_way(room, at, *way)
        }
    }
}

fn put_words(room: &mut [u8], at: usize, first: &[u8], rule: &RuleBegun) -> usize
    requires { at + length first.now + 72 ≤ length room.old }
    ensures room { take result room.new ≡ take at room.old ++ spaced (rule_words first.now rule.now) }
    ensures most { result ≤ at + length first.now + 72 }
    ensures size { length room.new ≡ length room.old }
{
    match rule {
        RuleBegun::Whole(what) => put_what(room, at, first, what),
        _ => put_text(room, at, first),
    }
}

/// Puts the line of a rule.
pub(crate) fn put_rule(room: &mut [u8], at: usize, permits: bool, rule: &RuleBegun) -> usize
    requires { at + 78 ≤ length room.old }
    ensures room { take result room.new ≡ take at room.old ++ spaced (rule_words (permit_word permits) rule.now) }
    ensures most { result ≤ at + 78 }
    ensures size { length room.new ≡ length room.old }
{
    if permits {
        put_words(room, at, b"permit", rule)
    } else {
        put_words(room, at, b"deny", rule)
    }
}
