//! Words of a configuration, written for C.
ghost use Rattle.std.specs.Prelude.{◌≡◌, Some};
ghost use Rattle.std.specs.Option.{unwrap_or};
ghost use Rattle.ipx_settings.specs.Writing.{written_size, written_into};
ghost use Rattle.ipx_settings.specs.WritingAddresses.{address_words};
ghost use Rattle.ipx_c.specs.SettingsWritten.{address_of, place_of, frames_of, end_of, link_of, link_size, link_into};

use crate::settings_values::{HostValues, LinkSaid};
use ipx_settings::{Address, End, Frames, Host, Link, Place, write_address, write_link};

fn address_of(host: &HostValues) -> Address
    ensures { result ≡ address_of host.now }
{
    Address {
        host: if host.is_six {
            Host::Six(host.six)
        } else {
            Host::Four(host.four)
        },
        port: host.port,
    }
}

fn place_of(remote: &HostValues, name: &[u8; 254]) -> Place
    ensures { result ≡ place_of remote.now name.now }
{
    if name[0] == 0 {
        Place::At(address_of(remote))
    } else {
        Place::Named(*name, remote.port)
    }
}

fn frames_of(number: u8) -> Option<Frames>
    ensures { result ≡ frames_of number }
{
    match number {
        1 => Some(Frames::Ethernet2),
        2 => Some(Frames::Raw),
        3 => Some(Frames::Llc),
        4 => Some(Frames::Snap),
        5 => Some(Frames::Any),
        _ => None,
    }
}

fn end_of(link: &LinkSaid) -> Option<End>
    ensures { result ≡ end_of link.now }
{
    match link.carrier {
        2 => Some(End::Udp(address_of(&link.local), place_of(&link.remote, &link.host))),
        3 => Some(End::Listen(address_of(&link.local))),
        4 => Some(End::Connect(place_of(&link.remote, &link.host))),
        5 => Some(End::Tap(link.name)),
        6 => Some(End::Interface(link.name)),
        7 => Some(End::Group(address_of(&link.remote), link.local.four)),
        8 => Some(End::Switch(link.host)),
        9 => Some(End::Web(address_of(&link.local))),
        10 => Some(End::Peers(address_of(&link.local), link.host)),
        _ => None,
    }
}

fn link_of(link: &LinkSaid) -> Option<Link>
    ensures { result ≡ link_of link.now }
{
    if link.carrier == 1 {
        return Some(Link::Tunnel(address_of(&link.local)));
    }
    if link.carrier == 9 && link.frames == 0 {
        return Some(Link::Web(address_of(&link.local)));
    }
    if link.carrier == 11 {
        return Some(Link::Rfc1234(address_of(&link.local)));
    }
    let end = end_of(link)?;
    let frames = frames_of(link.frames)?;
    Some(Link::Framed(end, frames))
}

/// Writes an address with its port as a line has it. Returns how many bytes these are, or 0 where they don't have room.
#[unsafe(no_mangle)]
pub extern "C" fn ipxr_settings_address_words(host: &HostValues, buffer: &mut [u8]) -> usize
    ensures size { result ≡ unwrap_or (written_size (address_words (address_of host.now)) buffer.old) 0 }
    ensures bytes { buffer.new ≡ written_into (address_words (address_of host.now)) buffer.old }
{
    write_address(&address_of(host), buffer).unwrap_or(0)
}

/// Writes the words of a link as a line has them. Returns how many bytes these are, or 0 where they don't have room, or it is no link.
#[unsafe(no_mangle)]
pub extern "C" fn ipxr_settings_link_words(link: &LinkSaid, buffer: &mut [u8]) -> usize
    ensures size { result ≡ link_size (link_of link.now) buffer.old }
    ensures bytes { buffer.new ≡ link_into (link_of link.now) buffer.old }
{
    match link_of(link) {
        Some(link) => write_link(&link, buffer).unwrap_or(0),
        None => 0,
    }
}
