//! A line, word by word.
ghost use Rattle.std.specs.Prelude.{◌≡◌};
ghost use Rattle.ipx_settings.specs.Lines.{rate_or_none, socket_of, share_behind, line_first, clients_step, rate_step, strangers_step, kilobits_step, nodes_step, adopt_step, socket_step, origin_step, peer_step, range_step, with_route, with_service, line_step, line_ends, ended};

use crate::addresses::{HostRange, Place, read_range, read_remote};
use crate::expected::Expected;
use crate::internal::InternalBegun;
use crate::link::{Cards, LinkBegun};
use crate::names::origin;
use crate::network::NetworkBegun;
use crate::numbers::{hexadecimal, number, short};
use crate::rule::RuleBegun;
use crate::statics::{RouteBegun, ServiceBegun};
use crate::words::is_word;

/// The most that a rate may be, and the kilobits of a line: ten gigabits.
const MOST_RATE: u32 = 1_000_000;

const MOST_KILOBITS: u32 = 10_000_000;

/// What a line depends on but for its words.
///
/// See the example of [`Reading`](crate::Reading).
#[derive(Clone, Copy, Debug, PartialEq, Eq)]
pub struct Context {
    /// Which cards this system has.
    pub cards: Cards,
    /// Whether the line stands below a tunnel, whose clients have addresses.
    pub is_below_tunnel: bool,
    /// The most clients of a network.
    pub most_clients: u16,
}

/// The line of clients, as far as its words were read.
///
/// See the example of [`Reading`](crate::Reading).
#[derive(Clone, Copy, Debug, PartialEq, Eq)]
pub enum ClientsBegun {
    Nothing,
    /// The most of them.
    All(u16),
    /// And the most of one address.
    OfAddress(u16, u16),
}

/// The line of a rate, as far as its words were read. 0 stands for `none`.
///
/// See the example of [`Reading`](crate::Reading).
#[derive(Clone, Copy, Debug, PartialEq, Eq)]
pub enum RateBegun {
    Nothing,
    /// Packets a second.
    Rate(u32),
    /// And the share of a quiet sender.
    Share(u32, u32),
    /// And what all clients of an address receive.
    Household(u32, u32, u32),
}

/// A line, as far as its words were read.
///
/// See the example of [`Reading`](crate::Reading).
#[derive(Clone, Copy)]
pub enum Line {
    Nothing,
    Network(NetworkBegun),
    /// A link of the network above.
    Link(LinkBegun),
    /// Sockets whose broadcasts are extended, one or more.
    Extend(bool),
    Clients(ClientsBegun),
    /// Ranges of addresses that may be clients, one or more,
    Allow(bool),
    /// and of those that may be clients though they answer no ping.
    Trust(bool),
    Rate(RateBegun),
    /// Datagrams a second for strangers; 0 stands for `none`.
    Strangers(Option<u32>),
    /// Kilobits a second of the line to the clients.
    Kilobits(Option<u32>),
    /// The nodes of clients may be their addresses; false where that word is missing still.
    Nodes(bool),
    /// The router's own network.
    Internal(InternalBegun),
    /// The router takes what comes from the cable as it is; false where the word `no` is missing still.
    Adopt(bool),
    /// A rule, which permits what it names, or denies it.
    Rule(bool, RuleBegun),
    /// A route by way of a node on the network.
    Route(RouteBegun),
    /// A service, alike.
    Service(ServiceBegun),
    /// Where pages may come from whose programs are clients, one or more.
    Origins(bool),
    /// Another place of the network.
    Peer(Option<Place>),
}

/// A number a second, or 0 for `none`.
fn rate_or_none(word: &[u8]) -> Option<u32>
    ensures { result ≡ rate_or_none word.now }
{
    if is_word(word, b"none") {
        Some(0)
    } else {
        number(word, 1, MOST_RATE)
    }
}

/// The socket that a word is, 1 to FFFF in hexadecimal digits.
pub fn socket(word: &[u8]) -> Option<u32>
    ensures { result ≡ socket_of word.now }
{
    hexadecimal(word, 4, 1, 0xFFFF)
}

/// The word that begins a line.
fn first(word: &[u8]) -> Result<Line, Expected>
    ensures { result ≡ line_first word.now }
{
    if is_word(word, b"network") {
        Ok(Line::Network(NetworkBegun::Nothing))
    } else if is_word(word, b"link") {
        Ok(Line::Link(LinkBegun::Nothing))
    } else if is_word(word, b"extend") {
        Ok(Line::Extend(false))
    } else if is_word(word, b"clients") {
        Ok(Line::Clients(ClientsBegun::Nothing))
    } else if is_word(word, b"allow") {
        Ok(Line::Allow(false))
    } else if is_word(word, b"trust") {
        Ok(Line::Trust(false))
    } else if is_word(word, b"rate") {
        Ok(Line::Rate(RateBegun::Nothing))
    } else if is_word(word, b"strangers") {
        Ok(Line::Strangers(None))
    } else if is_word(word, b"line") {
        Ok(Line::Kilobits(None))
    } else if is_word(word, b"nodes") {
        Ok(Line::Nodes(false))
    } else if is_word(word, b"internal") {
        Ok(Line::Internal(InternalBegun::Nothing))
    } else if is_word(word, b"adopt") {
        Ok(Line::Adopt(false))
    } else if is_word(word, b"permit") {
        Ok(Line::Rule(true, RuleBegun::Nothing))
    } else if is_word(word, b"deny") {
        Ok(Line::Rule(false, RuleBegun::Nothing))
    } else if is_word(word, b"route") {
        Ok(Line::Route(RouteBegun::Nothing))
    } else if is_word(word, b"service") {
        Ok(Line::Service(ServiceBegun::Nothing))
    } else if is_word(word, b"origins") {
        Ok(Line::Origins(false))
    } else if is_word(word, b"peer") {
        Ok(Line::Peer(None))
    } else {
        Err(Expected::Line)
    }
}

/// A word more of the most clients.
fn clients_step(begun: ClientsBegun, most: u16, word: &[u8]) -> Result<Line, Expected>
    ensures { result ≡ clients_step begun most word.now }
{
    match begun {
        ClientsBegun::Nothing => match short(word, 1, most) {
            Some(clients) => Ok(Line::Clients(ClientsBegun::All(clients))),
            None => Err(Expected::Clients),
        },
        ClientsBegun::All(clients) => match short(word, 1, clients) {
            Some(of_address) => Ok(Line::Clients(ClientsBegun::OfAddress(clients, of_address))),
            None => Err(Expected::ClientsOfAddress),
        },
        ClientsBegun::OfAddress(_, _) => Err(Expected::Nothing),
    }
}

/// The share of a quiet sender: none where there is no rate.
fn share_behind(rate: u32, word: &[u8]) -> Result<Line, Expected>
    ensures { result ≡ share_behind rate word.now }
{
    if rate == 0 {
        return Err(Expected::Nothing);
    }
    match number(word, 1, rate) {
        Some(share) => Ok(Line::Rate(RateBegun::Share(rate, share))),
        None => Err(Expected::Share),
    }
}

/// A word more of a rate.
fn rate_step(begun: RateBegun, is_below_tunnel: bool, word: &[u8]) -> Result<Line, Expected>
    ensures { result ≡ rate_step begun is_below_tunnel word.now }
{
    match begun {
        RateBegun::Nothing => match rate_or_none(word) {
            Some(rate) => Ok(Line::Rate(RateBegun::Rate(rate))),
            None => Err(Expected::Rate),
        },
        RateBegun::Rate(rate) => share_behind(rate, word),
        RateBegun::Share(rate, share) => {
            if !is_below_tunnel {
                return Err(Expected::Nothing);
            }
            match rate_or_none(word) {
                Some(household) => Ok(Line::Rate(RateBegun::Household(rate, share, household))),
                None => Err(Expected::Household),
            }
        }
        RateBegun::Household(_, _, _) => Err(Expected::Nothing),
    }
}

fn strangers_step(begun: Option<u32>, word: &[u8]) -> Result<Line, Expected>
    ensures { result ≡ strangers_step begun word.now }
{
    if begun.is_some() {
        return Err(Expected::Nothing);
    }
    match rate_or_none(word) {
        Some(rate) => Ok(Line::Strangers(Some(rate))),
        None => Err(Expected::Strangers),
    }
}

fn kilobits_step(begun: Option<u32>, word: &[u8]) -> Result<Line, Expected>
    ensures { result ≡ kilobits_step begun word.now }
{
    if begun.is_some() {
        return Err(Expected::Nothing);
    }
    match number(word, 1, MOST_KILOBITS) {
        Some(kilobits) => Ok(Line::Kilobits(Some(kilobits))),
        None => Err(Expected::Kilobits),
    }
}

/// The one kind of nodes that has a word.
fn nodes_step(by_address: bool, word: &[u8]) -> Result<Line, Expected>
    ensures { result ≡ nodes_step by_address word.now }
{
    if by_address {
        Err(Expected::Nothing)
    } else if is_word(word, b"by-address") {
        Ok(Line::Nodes(true))
    } else {
        Err(Expected::ByAddress)
    }
}

/// The one word that may follow `adopt`.
fn adopt_step(is_off: bool, word: &[u8]) -> Result<Line, Expected>
    ensures { result ≡ adopt_step is_off word.now }
{
    if is_off {
        Err(Expected::Nothing)
    } else if is_word(word, b"no") {
        Ok(Line::Adopt(true))
    } else {
        Err(Expected::No)
    }
}

fn socket_step(word: &[u8]) -> Result<Line, Expected>
    ensures { result ≡ socket_step word.now }
{
    match socket(word) {
        Some(_) => Ok(Line::Extend(true)),
        None => Err(Expected::Socket),
    }
}

fn origin_step(word: &[u8]) -> Result<Line, Expected>
    ensures { result ≡ origin_step word.now }
{
    match origin(word) {
        Some(_) => Ok(Line::Origins(true)),
        None => Err(Expected::Origin),
    }
}

/// One place where somebody can be reached.
fn peer_step(begun: Option<Place>, word: &[u8]) -> Result<Line, Expected>
    ensures { result ≡ peer_step begun word.now }
{
    if begun.is_some() {
        return Err(Expected::Nothing);
    }
    match read_remote(word) {
        Some(place) => Ok(Line::Peer(Some(place))),
        None => Err(Expected::Remote),
    }
}

/// A range whose address is 0 behind the bits that count.
fn range_step(line: Line, word: &[u8]) -> Result<Line, Expected>
    ensures { result ≡ range_step line word.now }
{
    match read_range(word) {
        Some(range) => {
            if range.is_first() {
                Ok(line)
            } else {
                Err(Expected::FirstOf(range.bits))
            }
        }
        None => Err(Expected::Range),
    }
}

/// The line that goes on with a route,
fn with_route(step: Result<RouteBegun, Expected>) -> Result<Line, Expected>
    ensures { result ≡ with_route step }
{
    match step {
        Ok(next) => Ok(Line::Route(next)),
        Err(expected) => Err(expected),
    }
}

/// or with a service.
fn with_service(step: Result<ServiceBegun, Expected>) -> Result<Line, Expected>
    ensures { result ≡ with_service step }
{
    match step {
        Ok(next) => Ok(Line::Service(next)),
        Err(expected) => Err(expected),
    }
}

impl Line {
    /// A word more.
    pub(crate) fn step(self, context: Context, word: &[u8]) -> Result<Line, Expected>
        ensures { result ≡ line_step context self word.now }
    {
        match self {
            Line::Nothing => first(word),
            Line::Network(begun) => match begun.step(context.cards, word) {
                Ok(next) => Ok(Line::Network(next)),
                Err(expected) => Err(expected),
            },
            Line::Link(begun) => match begun.step(context.cards, word) {
                Ok(next) => Ok(Line::Link(next)),
                Err(expected) => Err(expected),
            },
            Line::Extend(_) => socket_step(word),
            Line::Clients(begun) => clients_step(begun, context.most_clients, word),
            Line::Allow(_) => range_step(Line::Allow(true), word),
            Line::Trust(_) => range_step(Line::Trust(true), word),
            Line::Rate(begun) => rate_step(begun, context.is_below_tunnel, word),
            Line::Strangers(begun) => strangers_step(begun, word),
            Line::Kilobits(begun) => kilobits_step(begun, word),
            Line::Nodes(by_address) => nodes_step(by_address, word),
            Line::Internal(begun) => match begun.step(word) {
                Ok(next) => Ok(Line::Internal(next)),
                Err(expected) => Err(expected),
            },
            Line::Adopt(is_off) => adopt_step(is_off, word),
            Line::Rule(permits, begun) => match begun.step(word) {
                Ok(next) => Ok(Line::Rule(permits, next)),
                Err(expected) => Err(expected),
            },
            Line::Route(begun) => with_route(begun.step(word)),
            Line::Service(begun) => with_service(begun.step(word)),
            Line::Origins(_) => origin_step(word),
            Line::Peer(begun) => peer_step(begun, word),
        }
    }

    /// Whether it may end here.
    pub fn ends(self) -> bool
        ensures { result ≡ line_ends self }
    {
        match self {
            Line::Nothing => true,
            Line::Network(begun) => begun.ends(),
            Line::Link(begun) => begun.ends(),
            Line::Extend(has_some) => has_some,
            Line::Clients(begun) => begun != ClientsBegun::Nothing,
            Line::Allow(has_some) => has_some,
            Line::Trust(has_some) => has_some,
            Line::Rate(begun) => begun != RateBegun::Nothing,
            Line::Strangers(begun) => begun.is_some(),
            Line::Kilobits(begun) => begun.is_some(),
            Line::Nodes(by_address) => by_address,
            Line::Internal(begun) => begun.ends(),
            Line::Adopt(is_off) => is_off,
            Line::Rule(_, begun) => begun.ends(),
            Line::Route(begun) => begun.ends(),
            Line::Service(begun) => begun.ends(),
            Line::Origins(has_some) => has_some,
            Line::Peer(begun) => begun.is_some(),
        }
    }

    /// What is expected where it ends, if it may not: what no empty word is.
    pub(crate) fn ended(self, context: Context) -> Option<Expected>
        ensures { result ≡ ended context self }
    {
        if self.ends() {
            return None;
        }
        match self.step(context, b"") {
            Ok(_) => None,
            Err(expected) => Some(expected),
        }
    }
}
