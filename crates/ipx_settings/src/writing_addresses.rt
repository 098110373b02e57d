//! Addresses in words.
ghost use Rattle.std.specs.Prelude.{◌≡◌, ◌+◌, ◌<◌, ◌≤◌, ◌++◌, length, take};
ghost use Rattle.ipx_settings.specs.Writing.{written_size, written_into};
ghost use Rattle.ipx_settings.specs.WritingAddresses.{host_words, address_words};

use crate::addresses::{Address, Host};
use crate::putting::{LONGEST_NUMBER, give, put_number, put_text};
use crate::writing_hosts::{LONGEST_SIX, put_four, put_six};

const LONGEST_HOST: usize = LONGEST_SIX + 2;

/// How many bytes an address has at most in words: this is room for each.
pub const LONGEST_ADDRESS: usize = 63;

/// Puts the host of an address.
fn put_host(room: &mut [u8], at: usize, host: &Host) -> usize
    requires { at + LONGEST_HOST ≤ length room.old }
    ensures room { take result room.new ≡ take at room.old ++ host_words host.now }
    ensures most { result ≤ at + LONGEST_HOST }
    ensures size { length room.new ≡ length room.old }
{
    match host {
        Host::Four(four) => put_four(room, at, *four),
        Host::Six(six) => {
            let at = put_text(room, at, b"[");
            let at = put_six(room, at, six);
            put_text(room, at, b"]")
        }
    }
}

/// Puts an address with its port.
pub(crate) fn put_address(room: &mut [u8], at: usize, address: &Address) -> usize
    requires { at + LONGEST_ADDRESS ≤ length room.old }
    ensures room { take result room.new ≡ take at room.old ++ address_words address.now }
    ensures most { result ≤ at + LONGEST_ADDRESS }
    ensures size { length room.new ≡ length room.old }
{
    let at = put_host(room, at, &address.host);
    let at = put_text(room, at, b":");
    put_number(room, at, u32::from(address.port))
}

/// Writes an address as a line has it, HOST:PORT or [HOST]:PORT. Returns how many bytes it has; nothing is written where they don't have
/// room.
pub fn write_address(address: &Address, out: &mut [u8]) -> Option<usize>
    ensures size { result ≡ written_size (address_words address.now) out.old }
    ensures bytes { out.new ≡ written_into (address_words address.now) out.old }
    ensures most { length (address_words address.now) ≤ LONGEST_ADDRESS }
{
    let mut room = [0; LONGEST_ADDRESS];
    let end = put_address(&mut room, 0, address);
    give(&room[..end], out)
}
