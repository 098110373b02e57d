//! What a line below a link says of it.
ghost use Rattle.std.specs.Prelude.{◌≡◌};
ghost use Rattle.std.specs.List.{position};
ghost use Rattle.ipx_configuration.specs.Lines.{once, clients_said, rate_at, rate_said, number_said, shares_rate, rate_of, first_kilobits, other_kilobits, clients_taken, rate_taken, strangers_taken, kilobits_taken, ranges_from, words_from, ranges_taken, allowed_taken, trusted_taken, nodes_taken, origins_from, origins_taken, link_taken, has_kilobits};

use crate::carrier::{Carrier, TUNNEL};
use crate::clash::line_fault;
use crate::fault::Fault;
use crate::said::{ClientsSaid, LinkSetting, MOST_RANGES, NumberSaid, Origins, Ranges, RateSaid};
use ipx_settings::{ClientsBegun, Expected, Line, RateBegun, Reading, origin, read_range, word};

/// The most that a rate may be.
const MOST_RATE: u32 = 1_000_000;

/// Packets a second of a sender that says little, where its line doesn't say it; games say some 35.
pub(crate) const USUAL_SHARE: u32 = 50;

/// So many times the rate is what all clients of an address receive, where no line says it.
pub(crate) const USUAL_HOUSEHOLD: u32 = 16;

/// What was expected where a line says again what another says already, or is wrong by itself.
pub(crate) fn once(line: usize, own: Option<Expected>) -> Option<Fault>
    ensures { result ≡ once line own }
{
    if line > 0 {
        return Some(Fault::Once(line));
    }
    line_fault(own)
}

fn clients_said(line: usize, begun: ClientsBegun) -> ClientsSaid
    ensures { result ≡ clients_said line begun }
{
    match begun {
        ClientsBegun::Nothing => ClientsSaid {
            line,
            all: 0,
            of_address: 0,
        },
        ClientsBegun::All(all) => ClientsSaid {
            line,
            all,
            of_address: all,
        },
        ClientsBegun::OfAddress(all, of_address) => ClientsSaid {
            line,
            all,
            of_address,
        },
    }
}

fn rate_at(line: usize, rate: u32, share: u32) -> RateSaid
    ensures { result ≡ rate_at line rate share }
{
    let known = if rate < MOST_RATE { rate } else { MOST_RATE };
    RateSaid {
        line,
        rate,
        share,
        household: USUAL_HOUSEHOLD * known,
    }
}

fn rate_said(line: usize, begun: RateBegun) -> RateSaid
    ensures { result ≡ rate_said line begun }
{
    match begun {
        RateBegun::Nothing => rate_at(line, 0, 0),
        RateBegun::Rate(rate) => {
            let share = if rate < USUAL_SHARE {
                rate
            } else {
                USUAL_SHARE
            };
            rate_at(line, rate, share)
        }
        RateBegun::Share(rate, share) => rate_at(line, rate, share),
        RateBegun::Household(rate, share, household) => RateSaid {
            line,
            rate,
            share,
            household,
        },
    }
}

fn number_said(line: usize, begun: Option<u32>) -> NumberSaid
    ensures { result ≡ number_said line begun }
{
    NumberSaid {
        line,
        number: begun.unwrap_or(0),
    }
}

/// Whether a link has its rate from another.
fn shares_rate(carrier: Carrier, other: LinkSetting) -> bool
    ensures { result ≡ shares_rate carrier other }
{
    carrier.number != TUNNEL && other.rate.line > 0 && carrier.is_same(&other.carrier)
}

fn rate_place(carrier: Carrier, links: &[LinkSetting]) -> Option<usize>
    ensures { result ≡ position (shares_rate carrier) links.now }
{
    links.iter().position(|other| shares_rate(carrier, *other))
}

/// What lines say of a link's rate. All links on one carrier share what it receives, so a rate below one of them holds for all.
pub(crate) fn rate_of(link: LinkSetting, links: &[LinkSetting]) -> RateSaid
    ensures { result ≡ rate_of link links.now }
{
    match rate_place(link.carrier, links) {
        Some(place) => match links.get(place) {
            Some(other) => other.rate,
            None => link.rate,
        },
        None => link.rate,
    }
}

fn kilobits_place(links: &[LinkSetting]) -> Option<usize>
    ensures { result ≡ position has_kilobits links.now }
{
    links.iter().position(|link| link.kilobits.number > 0)
}

/// The kilobits that a line above says.
fn first_kilobits(links: &[LinkSetting]) -> Option<NumberSaid>
    ensures { result ≡ first_kilobits links.now }
{
    match kilobits_place(links) {
        Some(place) => match links.get(place) {
            Some(link) => Some(link.kilobits),
            None => None,
        },
        None => None,
    }
}

/// All networks that are reached by a line share one.
fn other_kilobits(link: LinkSetting, begun: Option<u32>, links: &[LinkSetting]) -> Option<Fault>
    ensures { result ≡ other_kilobits link begun links.now }
{
    match (begun, first_kilobits(links)) {
        (Some(kilobits), Some(said)) => {
            if link.kilobits.line == 0 && said.number != kilobits {
                Some(Fault::OtherKilobits(said.number, said.line))
            } else {
                None
            }
        }
        _ => None,
    }
}

fn clients_taken(
    line: usize,
    link: LinkSetting,
    begun: ClientsBegun,
    own: Option<Expected>,
) -> (LinkSetting, Option<Fault>)
    ensures { result ≡ clients_taken line link begun own }
{
    let fault = once(link.clients.line, own);
    let mut taken = link;
    if fault.is_none() {
        taken.clients = clients_said(line, begun);
    }
    (taken, fault)
}

fn rate_taken(
    line: usize,
    link: LinkSetting,
    begun: RateBegun,
    own: Option<Expected>,
    links: &[LinkSetting],
) -> (LinkSetting, Option<Fault>)
    ensures { result ≡ rate_taken line link begun own links.now }
{
    let fault = once(rate_of(link, links).line, own);
    let mut taken = link;
    if fault.is_none() {
        taken.rate = rate_said(line, begun);
    }
    (taken, fault)
}

fn strangers_taken(
    line: usize,
    link: LinkSetting,
    begun: Option<u32>,
    own: Option<Expected>,
) -> (LinkSetting, Option<Fault>)
    ensures { result ≡ strangers_taken line link begun own }
{
    let fault = once(link.strangers.line, own);
    let mut taken = link;
    if fault.is_none() {
        taken.strangers = number_said(line, begun);
    }
    (taken, fault)
}

fn kilobits_taken(
    line: usize,
    link: LinkSetting,
    begun: Option<u32>,
    own: Option<Expected>,
    links: &[LinkSetting],
) -> (LinkSetting, Option<Fault>)
    ensures { result ≡ kilobits_taken line link begun own links.now }
{
    let shared = other_kilobits(link, begun, links);
    if shared.is_some() {
        return (link, shared);
    }
    let fault = once(link.kilobits.line, own);
    let mut taken = link;
    if fault.is_none() {
        taken.kilobits = number_said(line, begun);
    }
    (taken, fault)
}

/// The ranges of a line's words, behind those that are there, and what was expected where there is no more room. Those before it count.
fn add_ranges(ranges: Ranges, text: &[u8], read: usize) -> (Ranges, Option<Fault>)
    ensures { result ≡ ranges_from ranges 1 (words_from text.now 1 read) }
{
    let mut it = ranges;
    let mut number = 1;
    while number < read {
        match word(text, number) {
            Some(found) => match read_range(found) {
                Some(range) => {
                    if it.count >= MOST_RANGES {
                        return (it, Some(Fault::ManyRanges(number)));
                    }
                    it = it.with(range);
                }
                None => return (it, None),
            },
            None => return (it, None),
        }
        number += 1;
    }
    (it, None)
}

fn ranges_taken(
    ranges: Ranges,
    text: &[u8],
    read: usize,
    own: Option<Expected>,
) -> (Ranges, Option<Fault>)
    ensures { result ≡ ranges_taken ranges text.now read own }
{
    let (taken, fault) = add_ranges(ranges, text, read);
    if fault.is_some() {
        return (taken, fault);
    }
    (taken, line_fault(own))
}

fn allowed_taken(
    link: LinkSetting,
    text: &[u8],
    read: usize,
    own: Option<Expected>,
) -> (LinkSetting, Option<Fault>)
    ensures { result ≡ allowed_taken link text.now read own }
{
    let (allowed, fault) = ranges_taken(link.allowed, text, read, own);
    let mut taken = link;
    taken.allowed = allowed;
    (taken, fault)
}

fn trusted_taken(
    link: LinkSetting,
    text: &[u8],
    read: usize,
    own: Option<Expected>,
) -> (LinkSetting, Option<Fault>)
    ensures { result ≡ trusted_taken link text.now read own }
{
    let (trusted, fault) = ranges_taken(link.trusted, text, read, own);
    let mut taken = link;
    taken.trusted = trusted;
    (taken, fault)
}

fn nodes_taken(
    line: usize,
    link: LinkSetting,
    own: Option<Expected>,
) -> (LinkSetting, Option<Fault>)
    ensures { result ≡ nodes_taken line link own }
{
    let fault = once(link.nodes_line, own);
    let mut taken = link;
    if fault.is_none() {
        taken.nodes_line = line;
    }
    (taken, fault)
}

/// The origins of a line's words, behind those that are there, alike.
fn add_origins(origins: Origins, text: &[u8], read: usize) -> (Origins, Option<Fault>)
    ensures { result ≡ origins_from origins 1 (words_from text.now 1 read) }
{
    let mut it = origins;
    let mut number = 1;
    while number < read {
        match word(text, number) {
            Some(found) => match origin(found) {
                Some(text) => {
                    if it.count >= MOST_RANGES {
                        return (it, Some(Fault::ManyRanges(number)));
                    }
                    it = it.with(text);
                }
                None => return (it, None),
            },
            None => return (it, None),
        }
        number += 1;
    }
    (it, None)
}

fn origins_taken(
    link: LinkSetting,
    text: &[u8],
    read: usize,
    own: Option<Expected>,
) -> (LinkSetting, Option<Fault>)
    ensures { result ≡ origins_taken link text.now read own }
{
    let (origins, fault) = add_origins(link.origins, text, read);
    let mut taken = link;
    taken.origins = origins;
    if fault.is_some() {
        return (taken, fault);
    }
    (taken, line_fault(own))
}

/// What a link is behind a line that says more of it, and what is wrong with that line.
pub(crate) fn link_taken(
    line: usize,
    text: &[u8],
    reading: Reading,
    links: &[LinkSetting],
    link: LinkSetting,
) -> (LinkSetting, Option<Fault>)
    ensures { result ≡ link_taken line text.now reading links.now link }
{
    let own = reading.fault;
    match reading.line {
        Line::Clients(begun) => clients_taken(line, link, begun, own),
        Line::Rate(begun) => rate_taken(line, link, begun, own, links),
        Line::Strangers(begun) => strangers_taken(line, link, begun, own),
        Line::Kilobits(begun) => kilobits_taken(line, link, begun, own, links),
        Line::Allow(_) => allowed_taken(link, text, reading.read, own),
        Line::Trust(_) => trusted_taken(link, text, reading.read, own),
        Line::Nodes(_) => nodes_taken(line, link, own),
        Line::Origins(_) => origins_taken(link, text, reading.read, own),
        _ => (link, None),
    }
}
