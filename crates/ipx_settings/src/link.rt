//! What a line says of a link.
ghost use Rattle.std.specs.Prelude.{◌≡◌};
ghost use Rattle.ipx_settings.specs.Links.{has_taps, has_interfaces, is_six, is_like, frames_of, of_card, link_first, tunnel_at, web_at, remote_behind, connection_of, behind_group, behind_whole, link_step, link_ends};

use crate::addresses::{
    Address, Host, OWN_HOST, Place, read_address, read_card, read_card_address, read_group,
    read_remote,
};
use crate::expected::Expected;
use crate::names::{file, name, path};
use crate::words::is_word;

/// Which cards and switches a system has.
///
/// See the example of [`Reading`](crate::Reading).
#[derive(Clone, Copy, Debug, PartialEq, Eq)]
pub enum Cards {
    None,
    /// TAPs, Ethernet interfaces, and switches of VDE.
    All,
    /// Ethernet interfaces alone.
    Interfaces,
}

/// The kind of a link's frames.
///
/// See the example of [`Reading`](crate::Reading).
#[derive(Clone, Copy, Debug, PartialEq, Eq)]
pub enum Frames {
    Ethernet2,
    Raw,
    Llc,
    Snap,
    /// Any of them.
    Any,
}

/// What carries a link with frames.
///
/// See the example of [`Reading`](crate::Reading).
#[derive(Clone, Copy)]
pub enum End {
    /// A frame a datagram, from this address and to that place.
    Udp(Address, Place),
    /// A connection that comes in at an address.
    Listen(Address),
    /// A connection that goes out to a place.
    Connect(Place),
    /// A TAP, by its name with zeros behind it.
    Tap([u8; 16]),
    /// An Ethernet interface, alike.
    Interface([u8; 16]),
    /// A frame a datagram, to and from a group, by the card that has this address.
    Group(Address, [u8; 4]),
    /// A switch of VDE, by its path with zeros behind it.
    Switch([u8; 254]),
    /// A frame a message of a WebSocket, of clients that come in at an address.
    Web(Address),
    /// A frame a datagram, from an address and to other places, sealed by the key in a file, by its path with zeros behind it.
    Peers(Address, [u8; 254]),
}

/// A link.
///
/// See the example of [`Reading`](crate::Reading).
#[derive(Clone, Copy)]
pub enum Link {
    /// Datagrams of DOSBox' tunnel, which come in at an address.
    Tunnel(Address),
    /// Frames.
    Framed(End, Frames),
    /// The same datagrams, each a message of a WebSocket.
    Web(Address),
    /// A packet a datagram, as RFC 1234 has it, from the address of a card.
    Rfc1234(Address),
}

/// A link, as far as its words were read.
///
/// See the example of [`Reading`](crate::Reading).
#[derive(Clone, Copy)]
pub enum LinkBegun {
    Nothing,
    /// `dosbox`
    Tunnel,
    /// `qemu-udp`, or `udp`
    Udp,
    /// and an address
    UdpFrom(Address),
    /// `qemu-tcp`
    Tcp,
    /// `qemu-tcp listen`
    Listen,
    /// `qemu-tcp connect`
    Connect,
    /// `tap`
    Tap,
    /// `interface`
    Interface,
    /// `qemu-mcast`
    Multicast,
    /// `qemu-mcast` and a group
    Group(Address),
    /// and `via`
    Via(Address),
    /// `vde`
    Vde,
    /// `web`
    Web,
    /// `peers`
    Peers,
    /// and an address
    PeersAt(Address),
    /// `rfc1234`
    Rfc1234,
    /// All but the kind of frames.
    End(End),
    /// All words.
    Whole(Link),
}

impl Cards {
    /// Whether there are TAPs, and switches of VDE,
    fn has_taps(self) -> bool
        ensures { result ≡ has_taps self }
    {
        self == Cards::All
    }

    /// and whether there are interfaces.
    fn has_interfaces(self) -> bool
        ensures { result ≡ has_interfaces self }
    {
        self != Cards::None
    }
}

fn is_six(address: Address) -> bool
    ensures { result ≡ is_six address }
{
    match address.host {
        Host::Four(_) => false,
        Host::Six(_) => true,
    }
}

/// Whether a place may be of an address' kind: names may be of either.
fn is_like(local: Address, place: Place) -> bool
    ensures { result ≡ is_like local place }
{
    match place {
        Place::At(remote) => {
            if is_six(local) {
                is_six(remote)
            } else {
                !is_six(remote)
            }
        }
        Place::Named(_, _) => true,
    }
}

fn read_frames(word: &[u8]) -> Option<Frames>
    ensures { result ≡ frames_of word.now }
{
    if is_word(word, b"ethernet2") {
        Some(Frames::Ethernet2)
    } else if is_word(word, b"raw") {
        Some(Frames::Raw)
    } else if is_word(word, b"llc") {
        Some(Frames::Llc)
    } else if is_word(word, b"snap") {
        Some(Frames::Snap)
    } else if is_word(word, b"auto") {
        Some(Frames::Any)
    } else {
        None
    }
}

/// What only some systems have.
fn of_card(is_there: bool, begun: LinkBegun) -> Result<LinkBegun, Expected>
    ensures { result ≡ of_card is_there begun }
{
    if is_there {
        Ok(begun)
    } else {
        Err(Expected::LinkOfSystem)
    }
}

/// The word that begins a link.
fn first(cards: Cards, word: &[u8]) -> Result<LinkBegun, Expected>
    ensures { result ≡ link_first cards word.now }
{
    if is_word(word, b"dosbox") {
        Ok(LinkBegun::Tunnel)
    } else if is_word(word, b"qemu-udp") {
        Ok(LinkBegun::Udp)
    } else if is_word(word, b"udp") {
        Ok(LinkBegun::Udp)
    } else if is_word(word, b"qemu-tcp") {
        Ok(LinkBegun::Tcp)
    } else if is_word(word, b"qemu-mcast") {
        Ok(LinkBegun::Multicast)
    } else if is_word(word, b"web") {
        Ok(LinkBegun::Web)
    } else if is_word(word, b"peers") {
        Ok(LinkBegun::Peers)
    } else if is_word(word, b"rfc1234") {
        Ok(LinkBegun::Rfc1234)
    } else if is_word(word, b"tap") {
        of_card(cards.has_taps(), LinkBegun::Tap)
    } else if is_word(word, b"interface") {
        of_card(cards.has_interfaces(), LinkBegun::Interface)
    } else if is_word(word, b"vde") {
        of_card(cards.has_taps(), LinkBegun::Vde)
    } else {
        Err(Expected::Link)
    }
}

/// The address of a tunnel: a client's node is its address and port, and has six bytes.
fn tunnel_at(word: &[u8]) -> Result<LinkBegun, Expected>
    ensures { result ≡ tunnel_at word.now }
{
    match read_address(word) {
        Some(address) => {
            if is_six(address) {
                Err(Expected::AddressOfFour)
            } else {
                Ok(LinkBegun::Whole(Link::Tunnel(address)))
            }
        }
        None => Err(Expected::Address),
    }
}

/// The same of clients by WebSocket.
fn web_at(word: &[u8]) -> Result<LinkBegun, Expected>
    ensures { result ≡ web_at word.now }
{
    match read_address(word) {
        Some(address) => {
            if is_six(address) {
                Err(Expected::AddressOfFour)
            } else {
                Ok(LinkBegun::Whole(Link::Web(address)))
            }
        }
        None => Err(Expected::Address),
    }
}

/// The other end of datagrams that come in at an address.
fn remote_behind(local: Address, word: &[u8]) -> Result<LinkBegun, Expected>
    ensures { result ≡ remote_behind local word.now }
{
    match read_remote(word) {
        Some(remote) => {
            if is_like(local, remote) {
                Ok(LinkBegun::End(End::Udp(local, remote)))
            } else if is_six(local) {
                Err(Expected::RemoteOfSix)
            } else {
                Err(Expected::RemoteOfFour)
            }
        }
        None => Err(Expected::Remote),
    }
}

/// `listen` or `connect`.
fn connection(word: &[u8]) -> Result<LinkBegun, Expected>
    ensures { result ≡ connection_of word.now }
{
    if is_word(word, b"listen") {
        Ok(LinkBegun::Listen)
    } else if is_word(word, b"connect") {
        Ok(LinkBegun::Connect)
    } else {
        Err(Expected::Connection)
    }
}

/// What stands behind a group: the word before a card's address, or the kind of frames.
fn behind_group(group: Address, word: &[u8]) -> Result<LinkBegun, Expected>
    ensures { result ≡ behind_group group word.now }
{
    if is_word(word, b"via") {
        return Ok(LinkBegun::Via(group));
    }
    match read_frames(word) {
        Some(frames) => Ok(LinkBegun::Whole(Link::Framed(End::Group(group, OWN_HOST), frames))),
        None => Err(Expected::ViaOrFrames),
    }
}

/// What stands behind a whole link: nothing, or where clients come by WebSocket, the kind of their frames.
pub(crate) fn behind_whole(link: Link, word: &[u8]) -> Result<LinkBegun, Expected>
    ensures { result ≡ behind_whole link word.now }
{
    match link {
        Link::Web(address) => match read_frames(word) {
            Some(frames) => Ok(LinkBegun::Whole(Link::Framed(End::Web(address), frames))),
            None => Err(Expected::FramesOrNothing),
        },
        _ => Err(Expected::Nothing),
    }
}

impl LinkBegun {
    /// A word more.
    pub(crate) fn step(self, cards: Cards, word: &[u8]) -> Result<LinkBegun, Expected>
        ensures { result ≡ link_step cards self word.now }
    {
        match self {
            LinkBegun::Nothing => first(cards, word),
            LinkBegun::Tunnel => tunnel_at(word),
            LinkBegun::Udp => match read_address(word) {
                Some(address) => Ok(LinkBegun::UdpFrom(address)),
                None => Err(Expected::Address),
            },
            LinkBegun::UdpFrom(local) => remote_behind(local, word),
            LinkBegun::Tcp => connection(word),
            LinkBegun::Listen => match read_address(word) {
                Some(address) => Ok(LinkBegun::End(End::Listen(address))),
                None => Err(Expected::Address),
            },
            LinkBegun::Connect => match read_remote(word) {
                Some(remote) => Ok(LinkBegun::End(End::Connect(remote))),
                None => Err(Expected::Remote),
            },
            LinkBegun::Tap => match name(word) {
                Some(name) => Ok(LinkBegun::End(End::Tap(name))),
                None => Err(Expected::Tap),
            },
            LinkBegun::Interface => match name(word) {
                Some(name) => Ok(LinkBegun::End(End::Interface(name))),
                None => Err(Expected::Interface),
            },
            LinkBegun::Multicast => match read_group(word) {
                Some(group) => Ok(LinkBegun::Group(group)),
                None => Err(Expected::Group),
            },
            LinkBegun::Group(group) => behind_group(group, word),
            LinkBegun::Via(group) => match read_card(word) {
                Some(card) => Ok(LinkBegun::End(End::Group(group, card))),
                None => Err(Expected::Card),
            },
            LinkBegun::Vde => match path(word) {
                Some(path) => Ok(LinkBegun::End(End::Switch(path))),
                None => Err(Expected::Switch),
            },
            LinkBegun::Peers => match read_address(word) {
                Some(address) => Ok(LinkBegun::PeersAt(address)),
                None => Err(Expected::Address),
            },
            LinkBegun::PeersAt(local) => match file(word) {
                Some(file) => Ok(LinkBegun::End(End::Peers(local, file))),
                None => Err(Expected::KeyFile),
            },
            LinkBegun::Rfc1234 => match read_card_address(word) {
                Some(address) => Ok(LinkBegun::Whole(Link::Rfc1234(address))),
                None => Err(Expected::CardAndPort),
            },
            LinkBegun::End(end) => match read_frames(word) {
                Some(frames) => Ok(LinkBegun::Whole(Link::Framed(end, frames))),
                None => Err(Expected::Frames),
            },
            LinkBegun::Web => web_at(word),
            LinkBegun::Whole(link) => behind_whole(link, word),
        }
    }

    /// Whether it may end here.
    pub(crate) fn ends(self) -> bool
        ensures { result ≡ link_ends self }
    {
        match self {
            LinkBegun::Whole(_) => true,
            _ => false,
        }
    }
}
