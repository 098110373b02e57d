//! Words that are addresses with a port, and what may stand in their place.
ghost use Rattle.std.specs.Prelude.{◌≡◌, ◌<◌, ◌≤◌, length, IsTrue, Some, []};
ghost use Rattle.ipx_settings.specs.Addresses.{port_of, host_of, port_behind, six_and_port, four_and_port, address_of, named_of, place_of, port_at, remote_of, is_multicast, is_group, group_of, is_card, card_of, is_at_card, card_address_of, range_of, is_first};

use crate::cutting::cut_at;
use crate::hosts::{four, six};
use crate::names::{host_name, is_host_name};
use crate::numbers::short;
use crate::words::is_word;

/// The host of an address without one: this machine.
pub(crate) const OWN_HOST: [u8; 4] = [127, 0, 0, 1];

/// The first number of the first groups, and of the last ones.
const FIRST_GROUPS: u8 = 224;

const LAST_GROUPS: u8 = 239;

/// The host of an address.
///
/// See the example of [`Reading`](crate::Reading).
#[derive(Clone, Copy, Debug, PartialEq, Eq)]
pub enum Host {
    /// Of IPv4: its four numbers, as they are written.
    Four([u8; 4]),
    /// Of IPv6: its eight groups, as they are written.
    Six([u16; 8]),
}

/// An address with its port.
///
/// See the example of [`Reading`](crate::Reading).
#[derive(Clone, Copy, Debug, PartialEq, Eq)]
pub struct Address {
    pub host: Host,
    /// 0 where the system is to take a free one.
    pub port: u16,
}

/// Where somebody else is.
///
/// See the example of [`Reading`](crate::Reading).
#[derive(Clone, Copy)]
pub enum Place {
    At(Address),
    /// By the name of a host, with zeros behind it, and a port.
    Named([u8; 254], u16),
}

/// Addresses of IPv4 that begin with the same bits.
///
/// See the example of [`Reading`](crate::Reading).
#[repr(C)]
#[derive(Clone, Copy, Debug, PartialEq, Eq)]
pub struct HostRange {
    /// The first of them.
    pub first: [u8; 4],
    /// How many bits all have in common.
    pub bits: u8,
}

fn port(word: &[u8]) -> Option<u16>
    ensures { result ≡ port_of word.now }
{
    short(word, 0, 65535)
}

/// A host by four numbers, or this machine if there is none.
fn read_host(word: &[u8]) -> Option<[u8; 4]>
    ensures { result ≡ host_of word.now }
{
    if word.is_empty() {
        Some(OWN_HOST)
    } else {
        four(word)
    }
}

/// The port behind a bracket and a colon.
fn port_behind(text: &[u8]) -> Option<u16>
    ensures { result ≡ port_behind text.now }
{
    if text.is_empty() || text[0] != b':' {
        return None;
    }
    let (_, word) = text.split_at(1);
    port(word)
}

/// An address of IPv6 in brackets, by what stands behind the first one.
fn six_and_port(text: &[u8]) -> Option<Address>
    ensures { result ≡ six_and_port text.now }
{
    let (inside, behind) = cut_at(text, b']')?;
    let port = port_behind(behind)?;
    let six = six(inside)?;
    Some(Address {
        host: Host::Six(six),
        port,
    })
}

/// An address of IPv4, by its host and its port.
fn four_and_port(host_word: &[u8], port_word: &[u8]) -> Option<Address>
    ensures { result ≡ four_and_port (Some (host_word.now, port_word.now)) [] }
{
    let port = port(port_word)?;
    let four = read_host(host_word)?;
    Some(Address {
        host: Host::Four(four),
        port,
    })
}

/// PORT, :PORT, HOST:PORT or [HOST]:PORT.
pub(crate) fn read_address(word: &[u8]) -> Option<Address>
    ensures { result ≡ address_of word.now }
{
    if !word.is_empty() && word[0] == b'[' {
        let (_, text) = word.split_at(1);
        return six_and_port(text);
    }
    match cut_at(word, b':') {
        Some((host_word, port_word)) => four_and_port(host_word, port_word),
        None => four_and_port(b"", word),
    }
}

/// NAME:PORT.
fn named(word: &[u8]) -> Option<Place>
    ensures { result ≡ named_of word.now }
{
    let (name, port_word) = cut_at(word, b':')?;
    let port = port(port_word)?;
    if is_host_name(name) {
        Some(Place::Named(host_name(name), port))
    } else {
        None
    }
}

/// An address, or a name with a port.
fn read_place(word: &[u8]) -> Option<Place>
    ensures { result ≡ place_of word.now }
{
    match read_address(word) {
        Some(address) => Some(Place::At(address)),
        None => named(word),
    }
}

impl Place {
    /// The port there.
    pub fn port(&self) -> u16
        ensures { result ≡ port_at self.now }
    {
        match self {
            Place::At(address) => address.port,
            Place::Named(_, port) => *port,
        }
    }
}

/// One that somebody can be reached at.
pub(crate) fn read_remote(word: &[u8]) -> Option<Place>
    ensures { result ≡ remote_of word.now }
{
    let place = read_place(word)?;
    if place.port() == 0 { None } else { Some(place) }
}

fn is_multicast(four: [u8; 4]) -> bool
    ensures { result ≡ is_multicast four }
{
    FIRST_GROUPS <= four[0] && four[0] <= LAST_GROUPS
}

/// Whether an address is that of a group of IPv4, with a port.
fn is_group(address: Address) -> bool
    ensures { result ≡ is_group address }
{
    match address.host {
        Host::Four(four) => is_multicast(four) && address.port != 0,
        Host::Six(_) => false,
    }
}

/// The address of a group.
pub(crate) fn read_group(word: &[u8]) -> Option<Address>
    ensures { result ≡ group_of word.now }
{
    let address = read_address(word)?;
    if is_group(address) {
        Some(address)
    } else {
        None
    }
}

/// Whether it may be that of one card: not of none, of a group, or of all.
fn is_card(four: [u8; 4]) -> bool
    ensures { result ≡ is_card four }
{
    !is_word(&four, &[0; 4]) && !is_multicast(four) && !is_word(&four, &[255; 4])
}

/// The address of a card of this machine.
pub(crate) fn read_card(word: &[u8]) -> Option<[u8; 4]>
    ensures { result ≡ card_of word.now }
{
    let four = four(word)?;
    if is_card(four) { Some(four) } else { None }
}

/// Whether an address is that of one card, with a port that others know.
fn is_at_card(address: Address) -> bool
    ensures { result ≡ is_at_card address }
{
    match address.host {
        Host::Four(four) => is_card(four) && address.port != 0,
        Host::Six(_) => false,
    }
}

/// The address of a card of this machine, with a port.
pub(crate) fn read_card_address(word: &[u8]) -> Option<Address>
    ensures { result ≡ card_address_of word.now }
{
    let address = read_address(word)?;
    if is_at_card(address) {
        Some(address)
    } else {
        None
    }
}

/// The range that a word is: HOST/BITS, or a HOST alone for all its bits.
pub fn read_range(word: &[u8]) -> Option<HostRange>
    ensures { result ≡ range_of word.now }
{
    match cut_at(word, b'/') {
        Some((host_word, bits_word)) => {
            let bits = short(bits_word, 0, 32)?;
            let first = four(host_word)?;
            Some(HostRange {
                first,
                bits: bits as u8,
            })
        }
        None => {
            let first = four(word)?;
            Some(HostRange { first, bits: 32 })
        }
    }
}

impl HostRange {
    /// Whether its address is 0 behind the bits that count.
    pub fn is_first(&self) -> bool
        requires { self.now.bits ≤ 32 }
        ensures { result ≡ is_first self.now }
    {
        u64::from(u32::from_be_bytes(self.first)) % (1 << (32 - self.bits)) == 0
    }
}
