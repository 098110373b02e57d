//! What a line says of packets, routes and services that pass between a network and the router, or don't.
ghost use Rattle.std.specs.Prelude.{◌≡◌, ◌==◌, ◌<◌, not, length};
ghost use Rattle.std.specs.List.{list_all};
ghost use Rattle.ipx_settings.specs.Names.{padded};
ghost use Rattle.ipx_settings.specs.Rules.{is_service_byte, is_service_name, service_room, service_name_of, names_of, one_network, networks_of, service_type_of, way_of, rule_first, rule_step, rule_ends};

use crate::cutting::cut_at;
use crate::expected::Expected;
use crate::numbers::{hexadecimal, short};
use crate::words::is_word;

/// Bytes of the name of a service, with a 0 behind.
pub(crate) const SERVICE_ROOM: usize = 48;

/// The largest number of a network that routes lead to: the default route's.
const LAST_ROUTE: u32 = 0xFFFF_FFFE;

/// Every type of services.
const EVERY_TYPE: u16 = 0xFFFF;

/// In from a network to the router, or out to it.
///
/// See the example of [`Reading`](crate::Reading).
#[derive(Clone, Copy, Debug, PartialEq, Eq)]
pub enum Way {
    In,
    Out,
}

/// Names of services.
///
/// See the example of [`Reading`](crate::Reading).
#[derive(Clone, Copy)]
pub enum Names {
    /// All of them.
    All,
    /// One, with zeros behind it.
    Is([u8; 48]),
    /// Those that begin so, alike.
    Begins([u8; 48]),
}

/// What a rule permits or denies.
///
/// See the example of [`Reading`](crate::Reading).
#[derive(Clone, Copy)]
pub enum What {
    /// Packets of a type.
    Kind(u8),
    /// Packets from a socket or to it.
    OnSocket(u16),
    /// Queries for the nearest service.
    Nearest,
    /// Routes to networks from one to another, both too.
    Routes(Way, u32, u32),
    /// Services of a type, FFFF for every one, with names.
    Services(Way, u16, Names),
}

/// The line of a rule, as far as its words were read.
///
/// See the example of [`Reading`](crate::Reading).
#[derive(Clone, Copy)]
pub enum RuleBegun {
    Nothing,
    /// The word `type`.
    Kind,
    /// The word `socket`.
    OnSocket,
    /// The word `route`,
    Routes,
    /// and networks.
    RoutesTo(u32, u32),
    /// The word `service`,
    Services,
    /// a type,
    ServicesOf(u16),
    /// and names.
    ServicesNamed(u16, Names),
    /// All of it.
    Whole(What),
}

/// Whether a service's name may have it.
fn is_service_byte(byte: u8) -> bool
    ensures { result ≡ is_service_byte byte }
{
    byte != 0 && byte != b'*'
}

fn are_service_bytes(name: &[u8]) -> bool
    ensures { result ≡ list_all is_service_byte name.now }
{
    name.iter().all(|byte| is_service_byte(*byte))
}

fn is_service_name(name: &[u8]) -> bool
    ensures { result ≡ is_service_name name.now }
{
    !name.is_empty() && name.len() < SERVICE_ROOM && are_service_bytes(name)
}

/// A name with zeros behind it.
fn field_of(name: &[u8]) -> [u8; 48]
    requires { length name.now < service_room }
    ensures { result ≡ padded service_room name.now }
{
    let mut field = [0; 48];
    let (front, _) = field.split_at_mut(name.len());
    front.copy_from_slice(name);
    field
}

/// The name of a service, with zeros behind it.
pub(crate) fn service_name(name: &[u8]) -> Option<[u8; 48]>
    ensures { result ≡ service_name_of name.now }
{
    if is_service_name(name) {
        Some(field_of(name))
    } else {
        None
    }
}

/// The names that a word says: one, those that begin with what stands before a star, or all.
fn names_said(word: &[u8]) -> Option<Names>
    ensures { result ≡ names_of word.now }
{
    match cut_at(word, b'*') {
        Some((front, behind)) => {
            if !behind.is_empty() {
                return None;
            }
            if front.is_empty() {
                return Some(Names::All);
            }
            let name = service_name(front)?;
            Some(Names::Begins(name))
        }
        None => {
            let name = service_name(word)?;
            Some(Names::Is(name))
        }
    }
}

/// A network that routes lead to.
pub(crate) fn network(word: &[u8]) -> Option<u32>
    ensures { result ≡ one_network word.now }
{
    hexadecimal(word, 8, 1, LAST_ROUTE)
}

/// The networks that a word says: one, or the first and the last of several.
fn networks(word: &[u8]) -> Option<(u32, u32)>
    ensures { result ≡ networks_of word.now }
{
    match cut_at(word, b'-') {
        Some((front, behind)) => {
            let from = network(front)?;
            let to = network(behind)?;
            if from <= to { Some((from, to)) } else { None }
        }
        None => {
            let number = network(word)?;
            Some((number, number))
        }
    }
}

/// The type of services that a word says.
fn service_type(word: &[u8]) -> Option<u16>
    ensures { result ≡ service_type_of word.now }
{
    if is_word(word, b"*") {
        return Some(EVERY_TYPE);
    }
    match hexadecimal(word, 4, 0, 0xFFFF) {
        Some(kind) => Some(kind as u16),
        None => None,
    }
}

fn way_said(word: &[u8]) -> Option<Way>
    ensures { result ≡ way_of word.now }
{
    if is_word(word, b"in") {
        Some(Way::In)
    } else if is_word(word, b"out") {
        Some(Way::Out)
    } else {
        None
    }
}

/// The word that says what is permitted or denied.
fn first(word: &[u8]) -> Result<RuleBegun, Expected>
    ensures { result ≡ rule_first word.now }
{
    if is_word(word, b"type") {
        Ok(RuleBegun::Kind)
    } else if is_word(word, b"socket") {
        Ok(RuleBegun::OnSocket)
    } else if is_word(word, b"nearest") {
        Ok(RuleBegun::Whole(What::Nearest))
    } else if is_word(word, b"route") {
        Ok(RuleBegun::Routes)
    } else if is_word(word, b"service") {
        Ok(RuleBegun::Services)
    } else {
        Err(Expected::Rule)
    }
}

impl RuleBegun {
    /// A word more.
    pub(crate) fn step(self, word: &[u8]) -> Result<RuleBegun, Expected>
        ensures { result ≡ rule_step self word.now }
    {
        match self {
            RuleBegun::Nothing => first(word),
            RuleBegun::Kind => match short(word, 0, 255) {
                Some(kind) => Ok(RuleBegun::Whole(What::Kind(kind as u8))),
                None => Err(Expected::PacketType),
            },
            RuleBegun::OnSocket => match hexadecimal(word, 4, 1, 0xFFFF) {
                Some(socket) => Ok(RuleBegun::Whole(What::OnSocket(socket as u16))),
                None => Err(Expected::Socket),
            },
            RuleBegun::Routes => match networks(word) {
                Some((from, to)) => Ok(RuleBegun::RoutesTo(from, to)),
                None => Err(Expected::Networks),
            },
            RuleBegun::RoutesTo(from, to) => match way_said(word) {
                Some(way) => Ok(RuleBegun::Whole(What::Routes(way, from, to))),
                None => Err(Expected::Way),
            },
            RuleBegun::Services => match service_type(word) {
                Some(kind) => Ok(RuleBegun::ServicesOf(kind)),
                None => Err(Expected::ServiceType),
            },
            RuleBegun::ServicesOf(kind) => match names_said(word) {
                Some(names) => Ok(RuleBegun::ServicesNamed(kind, names)),
                None => Err(Expected::ServiceNames),
            },
            RuleBegun::ServicesNamed(kind, names) => match way_said(word) {
                Some(way) => Ok(RuleBegun::Whole(What::Services(way, kind, names))),
                None => Err(Expected::Way),
            },
            RuleBegun::Whole(_) => Err(Expected::Nothing),
        }
    }

    /// Whether it may end here.
    pub(crate) fn ends(self) -> bool
        ensures { result ≡ rule_ends self }
    {
        match self {
            RuleBegun::Whole(_) => true,
            _ => false,
        }
    }
}
