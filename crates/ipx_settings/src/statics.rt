//! What a line says of a route or a service by way of a node that says nothing itself.
ghost use Rattle.std.specs.Prelude.{◌≡◌, ◌==◌};
ghost use Rattle.std.specs.List.{list_all};
ghost use Rattle.ipx_settings.specs.Statics.{is_plain_byte, plain_name_of, host_node_of, service_address_of, one_type_of, route_at, service_at, route_step, route_ends, route_to, service_step, service_ends, service_named};

use crate::cutting::cut_at;
use crate::expected::Expected;
use crate::network::LAST_NETWORK;
use crate::nodes::{node, node_bytes};
use crate::numbers::{hexadecimal, short};
use crate::rule::{network, service_name};
use crate::words::is_word;

/// The most routers on the way of a route or to a service: more is unreachable.
const MOST_HOPS: u16 = 15;

/// The largest type of services: the next one stands for every type.
const LAST_TYPE: u32 = 0xFFFE;

/// A route by way of a node that says nothing itself.
///
/// See the example of [`Reading`](crate::Reading).
#[derive(Clone, Copy, Debug, PartialEq, Eq)]
pub struct StaticRoute {
    /// Where it leads.
    pub network: u32,
    pub hops: u16,
    pub ticks: u16,
    /// The node.
    pub via: [u8; 6],
}

/// Where a service is offered.
///
/// See the example of [`Reading`](crate::Reading).
#[derive(Clone, Copy, Debug, PartialEq, Eq)]
pub struct ServiceAddress {
    pub network: u32,
    pub node: [u8; 6],
    pub socket: u16,
}

/// A service by way of a node that says nothing itself.
///
/// See the example of [`Reading`](crate::Reading).
#[derive(Clone, Copy)]
pub struct StaticService {
    /// Its type.
    pub kind: u16,
    /// Its name, with zeros behind it.
    pub name: [u8; 48],
    pub address: ServiceAddress,
    pub hops: u16,
    /// The node.
    pub via: [u8; 6],
}

/// The line of a route, as far as its words were read.
///
/// See the example of [`Reading`](crate::Reading).
#[derive(Clone, Copy, Debug, PartialEq, Eq)]
pub enum RouteBegun {
    Nothing,
    /// The network where it leads,
    To(u32),
    /// and the hops,
    Hops(u32, u16),
    /// and the ticks,
    Ticks(u32, u16, u16),
    /// and the word `via`.
    Via(u32, u16, u16),
    /// All of it.
    Whole(StaticRoute),
}

/// The line of a service, as far as its words were read.
///
/// See the example of [`Reading`](crate::Reading).
#[derive(Clone, Copy)]
pub enum ServiceBegun {
    Nothing,
    /// Its type,
    Kind(u16),
    /// and its name,
    Named(u16, [u8; 48]),
    /// and where it is offered,
    At(u16, [u8; 48], ServiceAddress),
    /// and the hops,
    Hops(u16, [u8; 48], ServiceAddress, u16),
    /// and the word `via`.
    Via(u16, [u8; 48], ServiceAddress, u16),
    /// All of it.
    Whole(StaticService),
}

/// A printable byte of ASCII, and no blank.
fn is_plain_byte(byte: u8) -> bool
    ensures { result ≡ is_plain_byte byte }
{
    33 <= byte && byte <= 126
}

fn are_plain_bytes(word: &[u8]) -> bool
    ensures { result ≡ list_all is_plain_byte word.now }
{
    word.iter().all(|byte| is_plain_byte(*byte))
}

/// The name of one service, with zeros behind it.
fn plain_name(word: &[u8]) -> Option<[u8; 48]>
    ensures { result ≡ plain_name_of word.now }
{
    if are_plain_bytes(word) {
        service_name(word)
    } else {
        None
    }
}

fn are_all(bytes: &[u8], wanted: u8) -> bool
    ensures { result ≡ list_all (λ byte. byte == wanted) bytes.now }
{
    bytes.iter().all(|byte| *byte == wanted)
}

/// A node that may offer a service: neither none, which is 0, nor all of them.
fn host_node(word: &[u8]) -> Option<[u8; 6]>
    ensures { result ≡ host_node_of word.now }
{
    let node = node_bytes(word)?;
    if !are_all(&node, 0) && !are_all(&node, 255) {
        Some(node)
    } else {
        None
    }
}

/// Where a service is offered: NETWORK.NODE.SOCKET.
fn service_address(word: &[u8]) -> Option<ServiceAddress>
    ensures { result ≡ service_address_of word.now }
{
    let (front, rest) = cut_at(word, b'.')?;
    let (middle, behind) = cut_at(rest, b'.')?;
    let network = hexadecimal(front, 8, 1, LAST_NETWORK)?;
    let node = host_node(middle)?;
    let socket = hexadecimal(behind, 4, 1, 0xFFFF)?;
    Some(ServiceAddress {
        network,
        node,
        socket: socket as u16,
    })
}

/// The type of one service.
fn one_type(word: &[u8]) -> Option<u16>
    ensures { result ≡ one_type_of word.now }
{
    match hexadecimal(word, 4, 1, LAST_TYPE) {
        Some(kind) => Some(kind as u16),
        None => None,
    }
}

fn route_at(network: u32, hops: u16, ticks: u16, via: [u8; 6]) -> StaticRoute
    ensures { result ≡ route_at network hops ticks via }
{
    StaticRoute {
        network,
        hops,
        ticks,
        via,
    }
}

fn service_at(
    kind: u16,
    name: [u8; 48],
    address: ServiceAddress,
    hops: u16,
    via: [u8; 6],
) -> StaticService
    ensures { result ≡ service_at kind name address hops via }
{
    StaticService {
        kind,
        name,
        address,
        hops,
        via,
    }
}

impl RouteBegun {
    /// A word more.
    pub(crate) fn step(self, word: &[u8]) -> Result<RouteBegun, Expected>
        ensures { result ≡ route_step self word.now }
    {
        match self {
            RouteBegun::Nothing => match network(word) {
                Some(to) => Ok(RouteBegun::To(to)),
                None => Err(Expected::Destination),
            },
            RouteBegun::To(to) => match short(word, 1, MOST_HOPS) {
                Some(hops) => Ok(RouteBegun::Hops(to, hops)),
                None => Err(Expected::Hops),
            },
            RouteBegun::Hops(to, hops) => match short(word, 1, 65535) {
                Some(ticks) => Ok(RouteBegun::Ticks(to, hops, ticks)),
                None => Err(Expected::Ticks),
            },
            RouteBegun::Ticks(to, hops, ticks) => {
                if is_word(word, b"via") {
                    Ok(RouteBegun::Via(to, hops, ticks))
                } else {
                    Err(Expected::Via)
                }
            }
            RouteBegun::Via(to, hops, ticks) => match node(word) {
                Some(via) => Ok(RouteBegun::Whole(route_at(to, hops, ticks, via))),
                None => Err(Expected::Node),
            },
            RouteBegun::Whole(_) => Err(Expected::Nothing),
        }
    }

    /// Whether it may end here.
    pub(crate) fn ends(self) -> bool
        ensures { result ≡ route_ends self }
    {
        match self {
            RouteBegun::Whole(_) => true,
            _ => false,
        }
    }

    /// The network where it leads, if that was read.
    pub fn network(self) -> Option<u32>
        ensures { result ≡ route_to self }
    {
        match self {
            RouteBegun::Nothing => None,
            RouteBegun::To(to) => Some(to),
            RouteBegun::Hops(to, _) => Some(to),
            RouteBegun::Ticks(to, _, _) => Some(to),
            RouteBegun::Via(to, _, _) => Some(to),
            RouteBegun::Whole(route) => Some(route.network),
        }
    }
}

impl ServiceBegun {
    /// A word more.
    pub(crate) fn step(self, word: &[u8]) -> Result<ServiceBegun, Expected>
        ensures { result ≡ service_step self word.now }
    {
        match self {
            ServiceBegun::Nothing => match one_type(word) {
                Some(kind) => Ok(ServiceBegun::Kind(kind)),
                None => Err(Expected::OneType),
            },
            ServiceBegun::Kind(kind) => match plain_name(word) {
                Some(name) => Ok(ServiceBegun::Named(kind, name)),
                None => Err(Expected::ServiceName),
            },
            ServiceBegun::Named(kind, name) => match service_address(word) {
                Some(address) => Ok(ServiceBegun::At(kind, name, address)),
                None => Err(Expected::ServiceAddress),
            },
            ServiceBegun::At(kind, name, address) => match short(word, 1, MOST_HOPS) {
                Some(hops) => Ok(ServiceBegun::Hops(kind, name, address, hops)),
                None => Err(Expected::Hops),
            },
            ServiceBegun::Hops(kind, name, address, hops) => {
                if is_word(word, b"via") {
                    Ok(ServiceBegun::Via(kind, name, address, hops))
                } else {
                    Err(Expected::Via)
                }
            }
            ServiceBegun::Via(kind, name, address, hops) => match node(word) {
                Some(via) => Ok(ServiceBegun::Whole(service_at(kind, name, address, hops, via))),
                None => Err(Expected::Node),
            },
            ServiceBegun::Whole(_) => Err(Expected::Nothing),
        }
    }

    /// Whether it may end here.
    pub(crate) fn ends(self) -> bool
        ensures { result ≡ service_ends self }
    {
        match self {
            ServiceBegun::Whole(_) => true,
            _ => false,
        }
    }

    /// Its type and its name, if both were read.
    pub fn named(self) -> Option<(u16, [u8; 48])>
        ensures { result ≡ service_named self }
    {
        match self {
            ServiceBegun::Nothing => None,
            ServiceBegun::Kind(_) => None,
            ServiceBegun::Named(kind, name) => Some((kind, name)),
            ServiceBegun::At(kind, name, _) => Some((kind, name)),
            ServiceBegun::Hops(kind, name, _, _) => Some((kind, name)),
            ServiceBegun::Via(kind, name, _, _) => Some((kind, name)),
            ServiceBegun::Whole(service) => {
                let name = service.name;
                Some((service.kind, name))
            }
        }
    }
}
