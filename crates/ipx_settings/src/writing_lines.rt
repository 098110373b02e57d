//! Whole lines in words.
ghost use Rattle.std.specs.Prelude.{◌≡◌, ◌+◌, ◌*◌, ◌<◌, ◌≤◌, ◌∷◌, [], ◌++◌, length, take, codes, decimal, Some};
ghost use Rattle.ipx_settings.specs.Writing.{written_size, written_into};
ghost use Rattle.ipx_settings.specs.WritingLinks.{spaced, link_words};
ghost use Rattle.ipx_settings.specs.WritingLines.{bytes_digits, head_words, maybe_link_words, begun_words, network_words, rate_word, clients_words, rates_words, strangers_words, kilobits_words, nodes_words, internal_words, adopt_words, peer_words, line_words};

use crate::addresses::Place;
use crate::internal::InternalBegun;
use crate::line::{ClientsBegun, Line, RateBegun};
use crate::link::{Link, LinkBegun};
use crate::network::{Head, NetworkBegun};
use crate::putting::{LONGEST_NUMBER, give, put_bytes, put_number, put_text};
use crate::writing_links::{LONGEST_LINK, LONGEST_PLACE, put_link, put_place};
use crate::writing_rules::put_rule;
use crate::writing_statics::{put_route, put_service};

/// How many bytes a number has at most with a blank before it.
const LONGEST_NEXT: usize = 1 + LONGEST_NUMBER;

const LONGEST_HEAD: usize = 16 + 4 * LONGEST_NEXT;

const LONGEST_LINKED: usize = LONGEST_HEAD + 1 + LONGEST_LINK;

/// How many bytes a line without a list has at most in words: this is room for each.
pub const LONGEST_LINE: usize = LONGEST_LINKED + 18;

/// Puts a number behind a blank.
fn put_next(room: &mut [u8], at: usize, number: u32) -> usize
    requires { at + LONGEST_NEXT ≤ length room.old }
    ensures room { take result room.new ≡ take at room.old ++ 32 ∷ decimal number }
    ensures most { result ≤ at + LONGEST_NEXT }
    ensures size { length room.new ≡ length room.old }
{
    let at = put_text(room, at, b" ");
    put_number(room, at, number)
}

/// Puts what stands before the link of a network.
#[tactic(auto, unfolding(crate::specs::WritingLines::head_words))]
fn put_head(room: &mut [u8], at: usize, head: Head) -> usize
    requires { at + LONGEST_HEAD ≤ length room.old }
    ensures room { take result room.new ≡ take at room.old ++ spaced (head_words head) }
    ensures most { result ≤ at + LONGEST_HEAD }
    ensures size { length room.new ≡ length room.old }
{
    let at = put_text(room, at, b"network ");
    let at = put_bytes(room, at, &head.number.to_be_bytes());
    let at = put_next(room, at, u32::from(head.cost));
    let at = put_next(room, at, u32::from(head.longest));
    match head.shares {
        None => at,
        Some(shares) => {
            let at = put_next(room, at, u32::from(shares.routes));
            put_next(room, at, u32::from(shares.services))
        }
    }
}

/// Puts what stands before the link of a network, and its link.
fn put_linked(room: &mut [u8], at: usize, head: Head, link: &Link) -> usize
    requires { at + LONGEST_LINKED ≤ length room.old }
    ensures room { take result room.new ≡ take at room.old ++ spaced (head_words head ++ link_words link.now) }
    ensures most { result ≤ at + LONGEST_LINKED }
    ensures size { length room.new ≡ length room.old }
{
    let at = put_head(room, at, head);
    let at = put_text(room, at, b" ");
    put_link(room, at, link)
}

/// The same, where there may be none.
#[tactic(auto, using(crate::proofs::Spaces::nothing_behind))]
fn put_maybe_linked(room: &mut [u8], at: usize, head: Head, link: &Option<Link>) -> usize
    requires { at + LONGEST_LINKED ≤ length room.old }
    ensures room { take result room.new ≡ take at room.old ++ spaced (head_words head ++ maybe_link_words link.now) }
    ensures most { result ≤ at + LONGEST_LINKED }
    ensures size { length room.new ≡ length room.old }
{
    match link {
        Some(link) => put_linked(room, at, head, link),
        None => put_head(room, at, head),
    }
}

/// The same, where the link may be missing.
#[tactic(auto, using(crate::proofs::Spaces::nothing_behind))]
fn put_begun(room: &mut [u8], at: usize, head: Head, link: &LinkBegun) -> usize
    requires { at + LONGEST_LINKED ≤ length room.old }
    ensures room { take result room.new ≡ take at room.old ++ spaced (head_words head ++ begun_words link.now) }
    ensures most { result ≤ at + LONGEST_LINKED }
    ensures size { length room.new ≡ length room.old }
{
    match link {
        LinkBegun::Whole(link) => put_linked(room, at, head, link),
        _ => put_head(room, at, head),
    }
}

/// Puts the line of a network.
fn put_network(room: &mut [u8], at: usize, network: &NetworkBegun) -> usize
    requires { at + LONGEST_LINE ≤ length room.old }
    ensures room { take result room.new ≡ take at room.old ++ spaced (network_words network.now) }
    ensures most { result ≤ at + LONGEST_LINE }
    ensures size { length room.new ≡ length room.old }
{
    match network {
        NetworkBegun::Head(head) => put_head(room, at, *head),
        NetworkBegun::Link(head, link) => put_begun(room, at, *head, link),
        NetworkBegun::Whole(head, link, node) => {
            let at = put_maybe_linked(room, at, *head, link);
            let at = put_text(room, at, b" node ");
            put_bytes(room, at, node)
        }
        _ => at,
    }
}

/// Puts the line of a link.
fn put_link_line(room: &mut [u8], at: usize, link: &LinkBegun) -> usize
    requires { at + LONGEST_LINE ≤ length room.old }
    ensures room { take result room.new ≡ take at room.old ++ spaced (codes "link" ∷ begun_words link.now) }
    ensures most { result ≤ at + LONGEST_LINE }
    ensures size { length room.new ≡ length room.old }
{
    match link {
        LinkBegun::Whole(link) => {
            let at = put_text(room, at, b"link ");
            put_link(room, at, link)
        }
        _ => put_text(room, at, b"link"),
    }
}

/// Puts a number a second.
fn put_rate(room: &mut [u8], at: usize, rate: u32) -> usize
    requires { at + LONGEST_NUMBER ≤ length room.old }
    ensures room { take result room.new ≡ take at room.old ++ rate_word rate }
    ensures most { result ≤ at + LONGEST_NUMBER }
    ensures size { length room.new ≡ length room.old }
{
    if rate == 0 {
        put_text(room, at, b"none")
    } else {
        put_number(room, at, rate)
    }
}

fn put_clients(room: &mut [u8], at: usize, clients: ClientsBegun) -> usize
    requires { at + 7 + 2 * LONGEST_NEXT ≤ length room.old }
    ensures room { take result room.new ≡ take at room.old ++ spaced (codes "clients" ∷ clients_words clients) }
    ensures most { result ≤ at + 7 + 2 * LONGEST_NEXT }
    ensures size { length room.new ≡ length room.old }
{
    let at = put_text(room, at, b"clients");
    match clients {
        ClientsBegun::Nothing => at,
        ClientsBegun::All(all) => put_next(room, at, u32::from(all)),
        ClientsBegun::OfAddress(all, of_address) => {
            let at = put_next(room, at, u32::from(all));
            put_next(room, at, u32::from(of_address))
        }
    }
}

fn put_rates(room: &mut [u8], at: usize, rates: RateBegun) -> usize
    requires { at + 4 + 3 * LONGEST_NEXT ≤ length room.old }
    ensures room { take result room.new ≡ take at room.old ++ spaced (codes "rate" ∷ rates_words rates) }
    ensures most { result ≤ at + 4 + 3 * LONGEST_NEXT }
    ensures size { length room.new ≡ length room.old }
{
    match rates {
        RateBegun::Nothing => put_text(room, at, b"rate"),
        RateBegun::Rate(rate) => {
            let at = put_text(room, at, b"rate ");
            put_rate(room, at, rate)
        }
        RateBegun::Share(rate, share) => {
            let at = put_text(room, at, b"rate ");
            let at = put_rate(room, at, rate);
            put_next(room, at, share)
        }
        RateBegun::Household(rate, share, household) => {
            let at = put_text(room, at, b"rate ");
            let at = put_rate(room, at, rate);
            let at = put_next(room, at, share);
            let at = put_text(room, at, b" ");
            put_rate(room, at, household)
        }
    }
}

fn put_strangers(room: &mut [u8], at: usize, rate: Option<u32>) -> usize
    requires { at + 9 + LONGEST_NEXT ≤ length room.old }
    ensures room { take result room.new ≡ take at room.old ++ spaced (codes "strangers" ∷ strangers_words rate) }
    ensures most { result ≤ at + 9 + LONGEST_NEXT }
    ensures size { length room.new ≡ length room.old }
{
    match rate {
        None => put_text(room, at, b"strangers"),
        Some(rate) => {
            let at = put_text(room, at, b"strangers ");
            put_rate(room, at, rate)
        }
    }
}

fn put_kilobits(room: &mut [u8], at: usize, kilobits: Option<u32>) -> usize
    requires { at + 4 + LONGEST_NEXT ≤ length room.old }
    ensures room { take result room.new ≡ take at room.old ++ spaced (codes "line" ∷ kilobits_words kilobits) }
    ensures most { result ≤ at + 4 + LONGEST_NEXT }
    ensures size { length room.new ≡ length room.old }
{
    let at = put_text(room, at, b"line");
    match kilobits {
        None => at,
        Some(kilobits) => put_next(room, at, kilobits),
    }
}

fn put_nodes(room: &mut [u8], at: usize, by_address: bool) -> usize
    requires { at + 16 ≤ length room.old }
    ensures room { take result room.new ≡ take at room.old ++ spaced (codes "nodes" ∷ nodes_words by_address) }
    ensures most { result ≤ at + 16 }
    ensures size { length room.new ≡ length room.old }
{
    if by_address {
        put_text(room, at, b"nodes by-address")
    } else {
        put_text(room, at, b"nodes")
    }
}

fn put_internal(room: &mut [u8], at: usize, internal: InternalBegun) -> usize
    requires { at + 35 ≤ length room.old }
    ensures room { take result room.new ≡ take at room.old ++ spaced (codes "internal" ∷ internal_words internal) }
    ensures most { result ≤ at + 35 }
    ensures size { length room.new ≡ length room.old }
{
    match internal {
        InternalBegun::Number(number) => {
            let at = put_text(room, at, b"internal ");
            put_bytes(room, at, &number.to_be_bytes())
        }
        InternalBegun::Whole(number, node) => {
            let at = put_text(room, at, b"internal ");
            let at = put_bytes(room, at, &number.to_be_bytes());
            let at = put_text(room, at, b" node ");
            put_bytes(room, at, &node)
        }
        _ => put_text(room, at, b"internal"),
    }
}

fn put_adopt(room: &mut [u8], at: usize, is_off: bool) -> usize
    requires { at + 8 ≤ length room.old }
    ensures room { take result room.new ≡ take at room.old ++ spaced (codes "adopt" ∷ adopt_words is_off) }
    ensures most { result ≤ at + 8 }
    ensures size { length room.new ≡ length room.old }
{
    if is_off {
        put_text(room, at, b"adopt no")
    } else {
        put_text(room, at, b"adopt")
    }
}

fn put_peer(room: &mut [u8], at: usize, place: &Option<Place>) -> usize
    requires { at + 5 + LONGEST_PLACE ≤ length room.old }
    ensures room { take result room.new ≡ take at room.old ++ spaced (codes "peer" ∷ peer_words place.now) }
    ensures most { result ≤ at + 5 + LONGEST_PLACE }
    ensures size { length room.new ≡ length room.old }
{
    match place {
        None => put_text(room, at, b"peer"),
        Some(place) => {
            let at = put_text(room, at, b"peer ");
            put_place(room, at, place)
        }
    }
}

/// Puts a line but for its list.
fn put_line(room: &mut [u8], at: usize, line: &Line) -> usize
    requires { at + LONGEST_LINE ≤ length room.old }
    ensures room { take result room.new ≡ take at room.old ++ spaced (line_words line.now) }
    ensures most { result ≤ at + LONGEST_LINE }
    ensures size { length room.new ≡ length room.old }
{
    match line {
        Line::Nothing => at,
        Line::Network(network) => put_network(room, at, network),
        Line::Link(link) => put_link_line(room, at, link),
        Line::Extend(_) => put_text(room, at, b"extend"),
        Line::Clients(clients) => put_clients(room, at, *clients),
        Line::Allow(_) => put_text(room, at, b"allow"),
        Line::Trust(_) => put_text(room, at, b"trust"),
        Line::Rate(rates) => put_rates(room, at, *rates),
        Line::Strangers(rate) => put_strangers(room, at, *rate),
        Line::Kilobits(kilobits) => put_kilobits(room, at, *kilobits),
        Line::Nodes(by_address) => put_nodes(room, at, *by_address),
        Line::Internal(internal) => put_internal(room, at, *internal),
        Line::Adopt(is_off) => put_adopt(room, at, *is_off),
        Line::Rule(permits, rule) => put_rule(room, at, *permits, rule),
        Line::Route(route) => put_route(room, at, *route),
        Line::Service(service) => put_service(room, at, service),
        Line::Origins(_) => put_text(room, at, b"origins"),
        Line::Peer(place) => put_peer(room, at, place),
    }
}

/// Writes a line but for its list, with a blank between each two of its words. Returns how many bytes it has; nothing is written where they
/// don't have room.
pub fn write_line(line: &Line, out: &mut [u8]) -> Option<usize>
    ensures size { result ≡ written_size (spaced (line_words line.now)) out.old }
    ensures bytes { out.new ≡ written_into (spaced (line_words line.now)) out.old }
    ensures most { length (spaced (line_words line.now)) ≤ LONGEST_LINE }
{
    let mut room = [0; LONGEST_LINE];
    let end = put_line(&mut room, 0, line);
    give(&room[..end], out)
}
