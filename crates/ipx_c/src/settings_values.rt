//! The structs of a configuration's line that cross to C, as its header has them, and its numbers.
ghost use Rattle.std.specs.Prelude.{◌≡◌, Some};
ghost use Rattle.ipx_settings.specs.Addresses.{four_at};
ghost use Rattle.ipx_settings.specs.declared.line.Line.TheVariants.{Peer};
ghost use Rattle.ipx_c.specs.SettingsValues.{cards_of, no_host, host_values, no_link, place_name, place_values, frames_number, end_values, link_values, network_values, internal_values, line_number, numbers_of, link_of_line, network_of_line, rule_of_line, route_of_line, service_of_line, later_number, expected_number, bits_of};

use ipx_configuration::{RuleSaid, StaticRouteSaid, StaticServiceSaid};
use ipx_settings::{
    Address, Cards, ClientsBegun, End, Expected, Frames, Head, Host, InternalBegun, Line, Link,
    LinkBegun, NetworkBegun, Place, RateBegun, RouteBegun, RuleBegun, ServiceBegun,
};

/// An address with its port.
#[repr(C)]
#[derive(Clone, Copy)]
pub struct HostValues {
    pub four: [u8; 4],
    pub six: [u16; 8],
    pub port: u16,
    pub is_six: bool,
}

/// What a line says of a link.
#[repr(C)]
#[derive(Clone, Copy)]
pub struct LinkSaid {
    /// What carries it, or 0 where not all of it was read.
    pub carrier: u8,
    /// The kind of its frames.
    pub frames: u8,
    /// Whether any word of it was read.
    pub has_word: bool,
    pub local: HostValues,
    pub remote: HostValues,
    /// The name of the host at the other end, with zeros behind it; of a switch its path, and of peers that of the file with their key.
    pub host: [u8; 254],
    /// The name of a card, alike.
    pub name: [u8; 16],
}

/// What a line says of a network.
#[repr(C)]
#[derive(Clone, Copy)]
pub struct NetworkSaid {
    /// 0 where it wasn't read.
    pub number: u32,
    /// Whether all that stands before its link was read: these.
    pub has_head: bool,
    pub has_shares: bool,
    pub cost: u16,
    pub longest: u16,
    pub routes: u16,
    pub services: u16,
    pub has_node: bool,
    pub node: [u8; 6],
}

/// What a line says.
#[repr(C)]
#[derive(Clone, Copy)]
pub struct LineSaid {
    /// How many words could be read.
    pub read: usize,
    /// The word that begins it.
    pub kind: u8,
    /// The bits of a range whose address isn't its first.
    pub bits: u8,
    pub network: NetworkSaid,
    pub link: LinkSaid,
    /// The numbers that other lines say.
    pub numbers: [u32; 3],
    /// The rule of a line that says one.
    pub rule: RuleSaid,
    /// The route of a line that says one, without the number of the line,
    pub route: StaticRouteSaid,
    /// and the service.
    pub service: StaticServiceSaid,
}

/// Which cards a system has.
pub(crate) fn cards_of(number: u8) -> Cards
    ensures { result ≡ cards_of number }
{
    match number {
        0 => Cards::None,
        2 => Cards::Interfaces,
        _ => Cards::All,
    }
}

fn no_host() -> HostValues
    ensures { result ≡ no_host }
{
    HostValues {
        four: [0; 4],
        six: [0; 8],
        port: 0,
        is_six: false,
    }
}

fn host_values(address: Address) -> HostValues
    ensures { result ≡ host_values address }
{
    match address.host {
        Host::Four(four) => HostValues {
            four,
            six: [0; 8],
            port: address.port,
            is_six: false,
        },
        Host::Six(six) => HostValues {
            four: [0; 4],
            six,
            port: address.port,
            is_six: true,
        },
    }
}

/// The address of a card, which has no port.
fn card_address(card: [u8; 4]) -> Address
    ensures { result ≡ four_at card 0 }
{
    Address {
        host: Host::Four(card),
        port: 0,
    }
}

fn place_values(place: Place) -> HostValues
    ensures { result ≡ place_values place }
{
    match place {
        Place::At(address) => host_values(address),
        Place::Named(_, port) => HostValues {
            four: [0; 4],
            six: [0; 8],
            port,
            is_six: false,
        },
    }
}

fn place_name(place: Place) -> [u8; 254]
    ensures { result ≡ place_name place }
{
    match place {
        Place::At(_) => [0; 254],
        Place::Named(name, _) => name,
    }
}

/// As in `ipxr.h`; behind them any of them.
fn frames_number(frames: Frames) -> u8
    ensures { result ≡ frames_number frames }
{
    match frames {
        Frames::Ethernet2 => 1,
        Frames::Raw => 2,
        Frames::Llc => 3,
        Frames::Snap => 4,
        Frames::Any => 5,
    }
}

fn no_link(has_word: bool) -> LinkSaid
    ensures { result ≡ no_link has_word }
{
    LinkSaid {
        carrier: 0,
        frames: 0,
        has_word,
        local: no_host(),
        remote: no_host(),
        host: [0; 254],
        name: [0; 16],
    }
}

fn end_values(end: End, frames: u8) -> LinkSaid
    ensures { result ≡ end_values end frames }
{
    let mut said = no_link(true);
    said.frames = frames;
    match end {
        End::Udp(local, remote) => {
            said.carrier = 2;
            said.local = host_values(local);
            said.remote = place_values(remote);
            said.host = place_name(remote);
        }
        End::Listen(local) => {
            said.carrier = 3;
            said.local = host_values(local);
        }
        End::Connect(remote) => {
            said.carrier = 4;
            said.remote = place_values(remote);
            said.host = place_name(remote);
        }
        End::Tap(name) => {
            said.carrier = 5;
            said.name = name;
        }
        End::Interface(name) => {
            said.carrier = 6;
            said.name = name;
        }
        End::Group(group, card) => {
            said.carrier = 7;
            said.local = host_values(card_address(card));
            said.remote = host_values(group);
        }
        End::Switch(path) => {
            said.carrier = 8;
            said.host = path;
        }
        End::Web(local) => {
            said.carrier = 9;
            said.local = host_values(local);
        }
        End::Peers(local, file) => {
            said.carrier = 10;
            said.local = host_values(local);
            said.host = file;
        }
    }
    said
}

fn link_values(begun: LinkBegun) -> LinkSaid
    ensures { result ≡ link_values begun }
{
    match begun {
        LinkBegun::Whole(Link::Tunnel(local)) => {
            let mut said = no_link(true);
            said.carrier = 1;
            said.local = host_values(local);
            said
        }
        LinkBegun::Whole(Link::Web(local)) => {
            let mut said = no_link(true);
            said.carrier = 9;
            said.local = host_values(local);
            said
        }
        LinkBegun::Whole(Link::Rfc1234(local)) => {
            let mut said = no_link(true);
            said.carrier = 11;
            said.local = host_values(local);
            said
        }
        LinkBegun::Whole(Link::Framed(end, frames)) => end_values(end, frames_number(frames)),
        LinkBegun::Nothing => no_link(false),
        _ => no_link(true),
    }
}

fn network_values(begun: NetworkBegun) -> NetworkSaid
    ensures { result ≡ network_values begun }
{
    let head = begun.head().unwrap_or(Head {
        number: 0,
        cost: 0,
        longest: 0,
        shares: None,
    });
    let (routes, services) = match head.shares {
        Some(shares) => (shares.routes, shares.services),
        None => (0, 0),
    };
    NetworkSaid {
        number: begun.number().unwrap_or(0),
        has_head: begun.head().is_some(),
        has_shares: head.shares.is_some(),
        cost: head.cost,
        longest: head.longest,
        routes,
        services,
        has_node: begun.node().is_some(),
        node: begun.node().unwrap_or([0; 6]),
    }
}

/// The router's own network.
fn internal_values(begun: InternalBegun) -> NetworkSaid
    ensures { result ≡ internal_values begun }
{
    NetworkSaid {
        number: begun.number().unwrap_or(0),
        has_head: false,
        has_shares: false,
        cost: 0,
        longest: 0,
        routes: 0,
        services: 0,
        has_node: begun.node().is_some(),
        node: begun.node().unwrap_or([0; 6]),
    }
}

/// The word that begins a line.
pub(crate) fn line_number(line: Line) -> u8
    ensures { result ≡ line_number line }
{
    match line {
        Line::Nothing => 0,
        Line::Network(_) => 1,
        Line::Link(_) => 2,
        Line::Extend(_) => 3,
        Line::Clients(_) => 4,
        Line::Allow(_) => 5,
        Line::Trust(_) => 6,
        Line::Rate(_) => 7,
        Line::Strangers(_) => 8,
        Line::Kilobits(_) => 9,
        Line::Nodes(_) => 10,
        Line::Internal(_) => 11,
        Line::Adopt(_) => 12,
        Line::Rule(true, _) => 13,
        Line::Rule(false, _) => 14,
        Line::Route(_) => 15,
        Line::Service(_) => 16,
        Line::Origins(_) => 17,
        Line::Peer(_) => 18,
    }
}

/// The numbers that a line says; what isn't said is 0.
pub(crate) fn numbers_of(line: Line) -> [u32; 3]
    ensures { result ≡ numbers_of line }
{
    match line {
        Line::Clients(ClientsBegun::All(clients)) => [u32::from(clients), 0, 0],
        Line::Clients(ClientsBegun::OfAddress(clients, of_address)) => {
            [u32::from(clients), u32::from(of_address), 0]
        }
        Line::Rate(RateBegun::Rate(rate)) => [rate, 0, 0],
        Line::Rate(RateBegun::Share(rate, share)) => [rate, share, 0],
        Line::Rate(RateBegun::Household(rate, share, household)) => [rate, share, household],
        Line::Strangers(Some(rate)) => [rate, 0, 0],
        Line::Kilobits(Some(kilobits)) => [kilobits, 0, 0],
        _ => [0; 3],
    }
}

/// Where another place is, as memory of C has it.
fn peer_values(place: Place) -> LinkSaid
    ensures { result ≡ link_of_line (Peer (Some place)) }
{
    let mut said = no_link(false);
    said.remote = place_values(place);
    said.host = place_name(place);
    said
}

pub(crate) fn link_of_line(line: Line) -> LinkSaid
    ensures { result ≡ link_of_line line }
{
    match line {
        Line::Network(begun) => link_values(begun.link()),
        Line::Link(begun) => link_values(begun),
        Line::Peer(Some(place)) => peer_values(place),
        _ => no_link(false),
    }
}

pub(crate) fn network_of_line(line: Line) -> NetworkSaid
    ensures { result ≡ network_of_line line }
{
    match line {
        Line::Network(begun) => network_values(begun),
        Line::Internal(begun) => internal_values(begun),
        _ => network_values(NetworkBegun::Nothing),
    }
}

/// The rule of a line; all 0 where it says none.
pub(crate) fn rule_of_line(line: Line) -> RuleSaid
    ensures { result ≡ rule_of_line line }
{
    match line {
        Line::Rule(permits, begun) => RuleSaid::of(permits, begun),
        _ => RuleSaid::of(false, RuleBegun::Nothing),
    }
}

/// The route of a line; all 0 where it says none.
pub(crate) fn route_of_line(line: Line) -> StaticRouteSaid
    ensures { result ≡ route_of_line line }
{
    match line {
        Line::Route(begun) => StaticRouteSaid::of(0, begun),
        _ => StaticRouteSaid::of(0, RouteBegun::Nothing),
    }
}

/// The service of a line; all 0 where it says none.
pub(crate) fn service_of_line(line: Line) -> StaticServiceSaid
    ensures { result ≡ service_of_line line }
{
    match line {
        Line::Service(begun) => StaticServiceSaid::of(0, begun),
        _ => StaticServiceSaid::of(0, ServiceBegun::Nothing),
    }
}

/// The numbers of what was expected that came behind those of lines together.
fn later_number(fault: Option<Expected>) -> u8
    ensures { result ≡ later_number fault }
{
    match fault {
        Some(Expected::ByAddress) => 52,
        Some(Expected::No) => 53,
        Some(Expected::Rule) => 54,
        Some(Expected::PacketType) => 55,
        Some(Expected::Networks) => 56,
        Some(Expected::Way) => 57,
        Some(Expected::ServiceType) => 58,
        Some(Expected::ServiceNames) => 59,
        Some(Expected::Destination) => 61,
        Some(Expected::Hops) => 62,
        Some(Expected::Ticks) => 63,
        Some(Expected::Via) => 64,
        Some(Expected::OneType) => 65,
        Some(Expected::ServiceName) => 66,
        Some(Expected::ServiceAddress) => 67,
        Some(Expected::Group) => 71,
        Some(Expected::ViaOrFrames) => 72,
        Some(Expected::Card) => 73,
        Some(Expected::Switch) => 74,
        Some(Expected::FramesOrNothing) => 75,
        Some(Expected::Origin) => 76,
        Some(Expected::KeyFile) => 78,
        Some(Expected::CardAndPort) => 79,
        _ => 0,
    }
}

/// The number of what was expected; 0 where nothing is wrong.
pub(crate) fn expected_number(fault: Option<Expected>) -> u8
    ensures { result ≡ expected_number fault }
{
    match fault {
        None => 0,
        Some(Expected::Line) => 1,
        Some(Expected::Network) => 2,
        Some(Expected::Cost) => 3,
        Some(Expected::Longest) => 4,
        Some(Expected::Routes) => 5,
        Some(Expected::Services) => 6,
        Some(Expected::Link) => 7,
        Some(Expected::LinkOfSystem) => 8,
        Some(Expected::Address) => 9,
        Some(Expected::AddressOfFour) => 10,
        Some(Expected::Remote) => 11,
        Some(Expected::RemoteOfFour) => 12,
        Some(Expected::RemoteOfSix) => 13,
        Some(Expected::Connection) => 14,
        Some(Expected::Tap) => 15,
        Some(Expected::Interface) => 16,
        Some(Expected::Frames) => 17,
        Some(Expected::NodeWord) => 18,
        Some(Expected::Node) => 19,
        Some(Expected::Nothing) => 20,
        Some(Expected::Socket) => 21,
        Some(Expected::Clients) => 22,
        Some(Expected::ClientsOfAddress) => 23,
        Some(Expected::Rate) => 24,
        Some(Expected::Share) => 25,
        Some(Expected::Household) => 26,
        Some(Expected::Strangers) => 27,
        Some(Expected::Kilobits) => 28,
        Some(Expected::Range) => 29,
        Some(Expected::FirstOf(_)) => 30,
        Some(Expected::FewerWords) => 31,
        _ => later_number(fault),
    }
}

pub(crate) fn bits_of(fault: Option<Expected>) -> u8
    ensures { result ≡ bits_of fault }
{
    match fault {
        Some(Expected::FirstOf(bits)) => bits,
        _ => 0,
    }
}
