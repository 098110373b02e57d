//! What carries a link.
ghost use Rattle.std.specs.Prelude.{◌≡◌};
ghost use Rattle.std.specs.Str.{bytes_eq};
ghost use Rattle.ipx_settings.specs.Addresses.{four_at};
ghost use Rattle.ipx_configuration.specs.Carriers.{no_carrier, place_at, place_name, frames_number, end_carrier, carrier_of, is_with_peers, opens_its_own, is_fixed, same_carrier, takes_datagrams, has_clients, address_taken, are_of_groups, takes_connections, share_an_address, are_of_one_sort, share_a_path, take_the_same, longest_of, may_hear_itself};

use crate::endpoint::Endpoint;
use ipx_settings::{Address, End, Frames, Host, Link, Place};

/// What carries a link, by its number. 0 is none.
pub const TUNNEL: u8 = 1;

pub const UDP: u8 = 2;

pub const LISTEN: u8 = 3;

pub const CONNECT: u8 = 4;

pub const TAP: u8 = 5;

pub const INTERFACE: u8 = 6;

pub const GROUP: u8 = 7;

pub const SWITCH: u8 = 8;

pub const WEB: u8 = 9;

pub const PEERS: u8 = 10;

pub const RFC1234: u8 = 11;

/// The kinds of frames, by their numbers. 0 is none: that of a tunnel.
pub const ETHERNET2: u8 = 1;

pub const RAW: u8 = 2;

pub const LLC: u8 = 3;

pub const SNAP: u8 = 4;

pub const ANY: u8 = 5;

/// What carries a link, as memory of C has it.
///
/// See the example of [`Configuration`](crate::Configuration).
#[repr(C)]
#[derive(Clone, Copy)]
pub struct Carrier {
    /// What it is.
    pub number: u8,
    /// The kind of its frames.
    pub frames: u8,
    /// Where datagrams and connections come in.
    pub local: Endpoint,
    /// Where they go,
    pub remote: Endpoint,
    /// or the name of the host there, with zeros behind it; of a switch its path, and of peers that of the file with their key.
    pub host: [u8; 254],
    /// The name of a TAP or an interface, alike.
    pub name: [u8; 16],
}

fn frames_number(frames: Frames) -> u8
    ensures { result ≡ frames_number frames }
{
    match frames {
        Frames::Ethernet2 => ETHERNET2,
        Frames::Raw => RAW,
        Frames::Llc => LLC,
        Frames::Snap => SNAP,
        Frames::Any => ANY,
    }
}

pub(crate) fn place_at(place: Place) -> Endpoint
    ensures { result ≡ place_at place }
{
    match place {
        Place::At(address) => Endpoint::of(address),
        Place::Named(_, port) => Endpoint {
            four: [0; 4],
            six: [0; 8],
            port,
            is_six: false,
        },
    }
}

pub(crate) fn place_name(place: Place) -> [u8; 254]
    ensures { result ≡ place_name place }
{
    match place {
        Place::At(_) => [0; 254],
        Place::Named(name, _) => name,
    }
}

/// The address of a card, where the system takes a port.
fn card_address(card: [u8; 4]) -> Address
    ensures { result ≡ four_at card 0 }
{
    Address {
        host: Host::Four(card),
        port: 0,
    }
}

pub(crate) fn has_same_bytes(a: &[u8], b: &[u8]) -> bool
    ensures { result ≡ bytes_eq a.now b.now }
{
    a == b
}

impl Carrier {
    pub(crate) fn none() -> Carrier
        ensures { result ≡ no_carrier }
    {
        Carrier {
            number: 0,
            frames: 0,
            local: Endpoint::none(),
            remote: Endpoint::none(),
            host: [0; 254],
            name: [0; 16],
        }
    }

    fn of_end(end: End, frames: u8) -> Carrier
        ensures { result ≡ end_carrier end frames }
    {
        let mut it = Carrier::none();
        it.frames = frames;
        match end {
            End::Udp(local, remote) => {
                it.number = UDP;
                it.local = Endpoint::of(local);
                it.remote = place_at(remote);
                it.host = place_name(remote);
            }
            End::Listen(local) => {
                it.number = LISTEN;
                it.local = Endpoint::of(local);
            }
            End::Connect(remote) => {
                it.number = CONNECT;
                it.remote = place_at(remote);
                it.host = place_name(remote);
            }
            End::Tap(name) => {
                it.number = TAP;
                it.name = name;
            }
            End::Interface(name) => {
                it.number = INTERFACE;
                it.name = name;
            }
            End::Group(group, card) => {
                it.number = GROUP;
                it.local = Endpoint::of(card_address(card));
                it.remote = Endpoint::of(group);
            }
            End::Switch(path) => {
                it.number = SWITCH;
                it.host = path;
            }
            End::Web(local) => {
                it.number = WEB;
                it.local = Endpoint::of(local);
            }
            End::Peers(local, file) => {
                it.number = PEERS;
                it.local = Endpoint::of(local);
                it.host = file;
            }
        }
        it
    }

    pub(crate) fn of(link: Link) -> Carrier
        ensures { result ≡ carrier_of link }
    {
        match link {
            Link::Tunnel(local) => {
                let mut it = Carrier::none();
                it.number = TUNNEL;
                it.local = Endpoint::of(local);
                it
            }
            Link::Framed(end, frames) => Carrier::of_end(end, frames_number(frames)),
            Link::Web(local) => {
                let mut it = Carrier::none();
                it.number = WEB;
                it.local = Endpoint::of(local);
                it
            }
            Link::Rfc1234(local) => {
                let mut it = Carrier::none();
                it.number = RFC1234;
                it.local = Endpoint::of(local);
                it
            }
        }
    }

    /// Whether its datagrams are those of clients, of DOSBox or by WebSocket, whose nodes are theirs alone.
    pub fn has_clients(&self) -> bool
        ensures { result ≡ has_clients self.now }
    {
        self.number == TUNNEL || (self.number == WEB && self.frames == 0)
    }

    /// Whether it is with the other places that lines of its network say.
    pub fn is_with_peers(&self) -> bool
        ensures { result ≡ is_with_peers self.now }
    {
        self.number == PEERS || self.number == RFC1234
    }

    /// Whether each link opens one of its own, at whatever address.
    fn opens_its_own(&self) -> bool
        ensures { result ≡ opens_its_own self.now }
    {
        self.number == WEB || self.is_with_peers()
    }

    /// Whether each link on it has the same one: with port 0, each has a port of its own.
    fn is_fixed(&self) -> bool
        ensures { result ≡ is_fixed self.now }
    {
        self.number == CONNECT
            || self.number == TAP
            || self.number == INTERFACE
            || self.number == GROUP
            || self.number == SWITCH
            || (!self.opens_its_own() && self.local.port != 0)
    }

    /// Whether two links are on one carrier, which is opened once for both.
    pub fn is_same(&self, other: &Carrier) -> bool
        ensures { result ≡ same_carrier self.now other.now }
    {
        self.number == other.number
            && has_same_bytes(&self.name, &other.name)
            && has_same_bytes(&self.host, &other.host)
            && self.remote.is_same(&other.remote)
            && self.local.is_same(&other.local)
            && self.is_fixed()
    }

    fn takes_datagrams(&self) -> bool
        ensures { result ≡ takes_datagrams self.now }
    {
        self.number == TUNNEL || self.number == UDP || self.number == GROUP || self.is_with_peers()
    }

    /// The address that it takes: that of a group itself, whichever card its frames come by.
    fn address_taken(&self) -> &Endpoint
        ensures { result.now ≡ address_taken self.now }
    {
        if self.number == GROUP {
            &self.remote
        } else {
            &self.local
        }
    }

    /// Whether both are groups, of which one may be taken by several cards.
    fn are_of_groups(&self, other: &Carrier) -> bool
        ensures { result ≡ are_of_groups self.now other.now }
    {
        self.number == GROUP && other.number == GROUP
    }

    fn takes_connections(&self) -> bool
        ensures { result ≡ takes_connections self.now }
    {
        self.number == LISTEN || self.number == WEB
    }

    /// Whether clients by WebSocket come in at one address for both,
    fn share_an_address(&self, other: &Carrier) -> bool
        ensures { result ≡ share_an_address self.now other.now }
    {
        self.number == WEB && other.number == WEB && self.local.is_same(&other.local)
    }

    fn are_of_one_sort(&self, other: &Carrier) -> bool
        ensures { result ≡ are_of_one_sort self.now other.now }
    {
        if self.frames == 0 {
            other.frames == 0
        } else {
            other.frames != 0
        }
    }

    /// and by one path, if the networks are the same.
    pub(crate) fn share_a_path(&self, other: &Carrier) -> bool
        ensures { result ≡ share_a_path self.now other.now }
    {
        self.share_an_address(other) && self.local.port != 0 && self.are_of_one_sort(other)
    }

    /// Whether both would take one address of this machine.
    pub(crate) fn takes_the_same(&self, other: &Carrier) -> bool
        ensures { result ≡ take_the_same self.now other.now }
    {
        ((self.takes_datagrams() && other.takes_datagrams() && !self.are_of_groups(other))
            || (self.takes_connections()
                && other.takes_connections()
                && !self.share_an_address(other)))
            && self.address_taken().overlaps(other.address_taken())
    }

    /// Bytes of the longest packet that it carries.
    pub(crate) fn longest(&self) -> u16
        ensures { result ≡ longest_of self.now }
    {
        if self.number == RFC1234 {
            return 1472;
        }
        match self.frames {
            0 => 1424,
            LLC => 1497,
            SNAP | ANY => 1492,
            _ => 1500,
        }
    }

    /// Whether datagrams would go to where they come from. Which other addresses this machine has isn't known yet.
    pub(crate) fn may_hear_itself(&self) -> bool
        ensures { result ≡ may_hear_itself self.now }
    {
        self.number == UDP
            && self.host[0] == 0
            && (self.local.is_same(&self.remote) || self.remote.is_surely_own())
            && self.local.overlaps(&self.remote)
    }
}
