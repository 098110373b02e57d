//! What may not stand beside each other.
ghost use Rattle.std.specs.Prelude.{◌≡◌};
ghost use Rattle.std.specs.List.{position};
ghost use Rattle.ipx_configuration.specs.Clashes.{kind_clash, is_on_path, are_of_peers, is_only, clash, clashes, first_clash, carrier_in, carrier_fault, link_fault, line_fault};
ghost use Rattle.ipx_configuration.specs.Configurations.{more_links};

use crate::carrier::{ANY, Carrier, PEERS, TUNNEL};
use crate::fault::Fault;
use crate::memory::{LinkList, MOST_LINKS};
use crate::said::LinkSetting;
use ipx_settings::{Expected, Link, LinkBegun};

/// What was expected where two links are on one carrier, which their kinds of frames tell apart.
fn kind_clash(frames: u8, other: u8, line: usize) -> Option<Fault>
    ensures { result ≡ kind_clash frames other line }
{
    if other == ANY {
        Some(Fault::OtherCarrier(line))
    } else if frames == ANY {
        Some(Fault::OneKind(line))
    } else if frames == other {
        Some(Fault::OtherKind(line))
    } else {
        None
    }
}

/// Whether clients by WebSocket would come by one path to a network.
fn is_on_path(network: usize, carrier: Carrier, other: LinkSetting) -> bool
    ensures { result ≡ is_on_path network carrier other }
{
    network == other.network && carrier.share_a_path(&other.carrier)
}

/// Whether a network would have two links of peers.
fn are_of_peers(network: usize, carrier: Carrier, other: LinkSetting) -> bool
    ensures { result ≡ are_of_peers network carrier other }
{
    network == other.network && carrier.number == PEERS && other.carrier.number == PEERS
}

/// What was expected in place of a link's carrier, beside another link. The first is of the network with that number.
fn clash(network: usize, carrier: Carrier, other: LinkSetting) -> Option<Fault>
    ensures { result ≡ clash network carrier other }
{
    if carrier.number != TUNNEL && carrier.is_same(&other.carrier) {
        kind_clash(carrier.frames, other.carrier.frames, other.line)
    } else if carrier.takes_the_same(&other.carrier) || is_on_path(network, carrier, other) {
        Some(Fault::OtherPort(other.line))
    } else if are_of_peers(network, carrier, other) {
        Some(Fault::OnePeers(other.line))
    } else {
        None
    }
}

fn clashes(network: usize, carrier: Carrier, other: LinkSetting) -> bool
    ensures { result ≡ clashes network carrier other }
{
    clash(network, carrier, other).is_some()
}

fn clash_place(network: usize, carrier: Carrier, links: &[LinkSetting]) -> Option<usize>
    ensures { result ≡ position (clashes network carrier) links.now }
{
    links
        .iter()
        .position(|other| clashes(network, carrier, *other))
}

/// The first of several links beside which it may not stand.
fn first_clash(network: usize, carrier: Carrier, links: &[LinkSetting]) -> Option<Fault>
    ensures { result ≡ first_clash network carrier links.now }
{
    match clash_place(network, carrier, links) {
        Some(place) => match links.get(place) {
            Some(other) => clash(network, carrier, *other),
            None => None,
        },
        None => None,
    }
}

/// The carrier of a link whose words were all read.
pub(crate) fn carrier_in(begun: LinkBegun) -> Option<Carrier>
    ensures { result ≡ carrier_in begun }
{
    match begun {
        LinkBegun::Whole(link) => Some(Carrier::of(link)),
        _ => None,
    }
}

/// Whether it is its network's only link, as far as it was read.
pub(crate) fn is_only(begun: LinkBegun) -> bool
    ensures { result ≡ is_only begun }
{
    match begun {
        LinkBegun::Rfc1234 => true,
        LinkBegun::Whole(Link::Rfc1234(_)) => true,
        _ => false,
    }
}

/// What the line by itself was expected to be.
pub(crate) fn line_fault(own: Option<Expected>) -> Option<Fault>
    ensures { result ≡ line_fault own }
{
    match own {
        Some(expected) => Some(Fault::Line(expected)),
        None => None,
    }
}

fn carrier_fault(
    network: usize,
    carrier: Carrier,
    longest: u16,
    links: &[LinkSetting],
    own: Option<Expected>,
) -> Option<Fault>
    ensures { result ≡ carrier_fault network carrier longest links.now own }
{
    let clash = first_clash(network, carrier, links);
    if clash.is_some() {
        return clash;
    }
    if carrier.may_hear_itself() {
        return Some(Fault::OwnAddress);
    }
    if longest > carrier.longest() {
        return Some(Fault::Longest(longest, carrier.longest()));
    }
    line_fault(own)
}

/// What is wrong with a link that the network with that number, with packets of so many bytes, would have beside others.
fn link_fault(
    network: usize,
    begun: LinkBegun,
    longest: u16,
    links: &[LinkSetting],
    own: Option<Expected>,
) -> Option<Fault>
    ensures { result ≡ link_fault network begun longest links.now own }
{
    match carrier_in(begun) {
        Some(carrier) => carrier_fault(network, carrier, longest, links, own),
        None => Some(Fault::Line(own.unwrap_or(Expected::Link))),
    }
}

/// What is wrong with one more link.
pub(crate) fn more_links(
    network: usize,
    begun: LinkBegun,
    longest: u16,
    links: &LinkList,
    own: Option<Expected>,
) -> Option<Fault>
    ensures { result ≡ more_links network begun longest links.now own }
{
    if links.count >= MOST_LINKS {
        return Some(Fault::ManyLinks);
    }
    link_fault(network, begun, longest, links.listed(), own)
}
