//! What a line says of a network.
ghost use Rattle.std.specs.Prelude.{◌≡◌};
ghost use Rattle.ipx_settings.specs.Networks.{is_share, with_link, behind_head, may_have_node, behind_link, routes_behind, services_behind, node_behind, network_step, network_ends, number_in, head_in, link_in, node_in};

use crate::expected::Expected;
use crate::link::{Cards, End, Link, LinkBegun, behind_whole};
use crate::nodes::node;
use crate::numbers::{hexadecimal, short};
use crate::words::is_word;

/// The largest number of a network.
pub(crate) const LAST_NETWORK: u32 = 0xFFFF_FFFD;

/// Bytes of the longest packet: the least that may be said, and the most.
const SHORTEST_LONGEST: u16 = 576;

const LONGEST: u16 = 1500;

/// The shares of a network in the router's tables.
///
/// See the example of [`Reading`](crate::Reading).
#[derive(Clone, Copy, Debug, PartialEq, Eq)]
pub struct Shares {
    pub routes: u16,
    pub services: u16,
}

/// What the line of a network says before its link.
///
/// See the example of [`Reading`](crate::Reading).
#[derive(Clone, Copy, Debug, PartialEq, Eq)]
pub struct Head {
    pub number: u32,
    /// Ticks.
    pub cost: u16,
    /// Bytes of the longest packet.
    pub longest: u16,
    pub shares: Option<Shares>,
}

/// The line of a network, as far as its words were read.
///
/// See the example of [`Reading`](crate::Reading).
#[derive(Clone, Copy)]
pub enum NetworkBegun {
    Nothing,
    /// Its number.
    Number(u32),
    /// Its number and its cost.
    Cost(u32, u16),
    /// All before its link. It may end here: links stand below it.
    Head(Head),
    /// The same, and the first of two shares.
    Routes(Head, u16),
    /// The same, and a word of its link or more.
    Link(Head, LinkBegun),
    /// The word `node`, behind its link if it has one.
    Node(Head, Option<Link>),
    /// And the gateway's node there.
    Whole(Head, Option<Link>, [u8; 6]),
}

/// Whether a word is meant to be a share: it begins with a digit, and no link does.
fn is_share(word: &[u8]) -> bool
    ensures { result ≡ is_share word.now }
{
    !word.is_empty() && word[0].is_ascii_digit()
}

/// The most routes.
fn routes_behind(head: Head, word: &[u8]) -> Result<NetworkBegun, Expected>
    ensures { result ≡ routes_behind head word.now }
{
    match short(word, 0, 65535) {
        Some(routes) => Ok(NetworkBegun::Routes(head, routes)),
        None => Err(Expected::Routes),
    }
}

/// The most services.
fn services_behind(head: Head, routes: u16, word: &[u8]) -> Result<NetworkBegun, Expected>
    ensures { result ≡ services_behind head routes word.now }
{
    match short(word, 0, 65535) {
        Some(services) => Ok(NetworkBegun::Head(Head {
            number: head.number,
            cost: head.cost,
            longest: head.longest,
            shares: Some(Shares { routes, services }),
        })),
        None => Err(Expected::Services),
    }
}

/// The line of a network that goes on with a link.
fn linked(head: Head, step: Result<LinkBegun, Expected>) -> Result<NetworkBegun, Expected>
    ensures { result ≡ with_link head step }
{
    match step {
        Ok(link) => Ok(NetworkBegun::Link(head, link)),
        Err(expected) => Err(expected),
    }
}

/// A word behind what stands before a link.
fn behind_head(head: Head, cards: Cards, word: &[u8]) -> Result<NetworkBegun, Expected>
    ensures { result ≡ behind_head head cards word.now }
{
    if head.shares.is_none() && is_share(word) {
        return routes_behind(head, word);
    }
    if is_word(word, b"node") {
        return Ok(NetworkBegun::Node(head, None));
    }
    linked(head, LinkBegun::Nothing.step(cards, word))
}

/// Whether the gateway may be given a node on a link: in a tunnel and on an interface it has one, and its address is one.
fn may_have_node(link: Link) -> bool
    ensures { result ≡ may_have_node link }
{
    match link {
        Link::Tunnel(_) => false,
        Link::Web(_) => false,
        Link::Rfc1234(_) => false,
        Link::Framed(End::Interface(_), _) => false,
        _ => true,
    }
}

/// A word behind a word of a link.
fn behind_link(
    head: Head,
    begun: LinkBegun,
    cards: Cards,
    word: &[u8],
) -> Result<NetworkBegun, Expected>
    ensures { result ≡ behind_link head begun cards word.now }
{
    if let LinkBegun::Whole(link) = begun {
        if let Link::Web(_) = link {
            return linked(head, behind_whole(link, word));
        }
        if !may_have_node(link) {
            return Err(Expected::Nothing);
        }
        if !is_word(word, b"node") {
            return Err(Expected::NodeWord);
        }
        return Ok(NetworkBegun::Node(head, Some(link)));
    }
    linked(head, begun.step(cards, word))
}

/// The gateway's node.
fn node_behind(head: Head, link: Option<Link>, word: &[u8]) -> Result<NetworkBegun, Expected>
    ensures { result ≡ node_behind head link word.now }
{
    match node(word) {
        Some(node) => Ok(NetworkBegun::Whole(head, link, node)),
        None => Err(Expected::Node),
    }
}

impl NetworkBegun {
    /// A word more.
    pub(crate) fn step(self, cards: Cards, word: &[u8]) -> Result<NetworkBegun, Expected>
        ensures { result ≡ network_step cards self word.now }
    {
        match self {
            NetworkBegun::Nothing => match hexadecimal(word, 8, 1, LAST_NETWORK) {
                Some(number) => Ok(NetworkBegun::Number(number)),
                None => Err(Expected::Network),
            },
            NetworkBegun::Number(number) => match short(word, 1, 65535) {
                Some(cost) => Ok(NetworkBegun::Cost(number, cost)),
                None => Err(Expected::Cost),
            },
            NetworkBegun::Cost(number, cost) => match short(word, SHORTEST_LONGEST, LONGEST) {
                Some(longest) => Ok(NetworkBegun::Head(Head {
                    number,
                    cost,
                    longest,
                    shares: None,
                })),
                None => Err(Expected::Longest),
            },
            NetworkBegun::Head(head) => behind_head(head, cards, word),
            NetworkBegun::Routes(head, routes) => services_behind(head, routes, word),
            NetworkBegun::Link(head, link) => behind_link(head, link, cards, word),
            NetworkBegun::Node(head, link) => node_behind(head, link, word),
            NetworkBegun::Whole(_, _, _) => Err(Expected::Nothing),
        }
    }

    /// The number of the network, if it was read.
    pub fn number(&self) -> Option<u32>
        ensures { result ≡ number_in self.now }
    {
        match self {
            NetworkBegun::Nothing => None,
            NetworkBegun::Number(number) => Some(*number),
            NetworkBegun::Cost(number, _) => Some(*number),
            NetworkBegun::Head(head) => Some(head.number),
            NetworkBegun::Routes(head, _) => Some(head.number),
            NetworkBegun::Link(head, _) => Some(head.number),
            NetworkBegun::Node(head, _) => Some(head.number),
            NetworkBegun::Whole(head, _, _) => Some(head.number),
        }
    }

    /// All that stands before its link, if it was read.
    pub fn head(&self) -> Option<Head>
        ensures { result ≡ head_in self.now }
    {
        match self {
            NetworkBegun::Head(head) => Some(*head),
            NetworkBegun::Link(head, _) => Some(*head),
            NetworkBegun::Node(head, _) => Some(*head),
            NetworkBegun::Whole(head, _, _) => Some(*head),
            _ => None,
        }
    }

    /// Its link, as far as it was read.
    pub fn link(&self) -> LinkBegun
        ensures { result ≡ link_in self.now }
    {
        match self {
            NetworkBegun::Link(_, link) => *link,
            NetworkBegun::Node(_, Some(link)) => LinkBegun::Whole(*link),
            NetworkBegun::Whole(_, Some(link), _) => LinkBegun::Whole(*link),
            _ => LinkBegun::Nothing,
        }
    }

    /// The gateway's node there, if the line says it and it was read.
    pub fn node(&self) -> Option<[u8; 6]>
        ensures { result ≡ node_in self.now }
    {
        match self {
            NetworkBegun::Whole(_, _, node) => Some(*node),
            _ => None,
        }
    }

    /// Whether it may end here.
    pub(crate) fn ends(self) -> bool
        ensures { result ≡ network_ends self }
    {
        match self {
            NetworkBegun::Head(_) => true,
            NetworkBegun::Link(_, link) => link.ends(),
            NetworkBegun::Whole(_, _, _) => true,
            _ => false,
        }
    }
}
