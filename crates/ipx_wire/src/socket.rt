//! Sockets: which process of a node a packet is for.
ghost use Rattle.std.specs.Prelude.{◌≡◌, ◌++◌, codes, Some};
ghost use Rattle.std.specs.Int.{to_be_bytes, w16};
ghost use Rattle.hex.specs.Hex.{encode_upper};

use crate::hex_text::{put_digits, write_ascii};
use std::fmt;

/// The number of a process within a node, written as four hexadecimal digits.
///
/// ```
/// let socket = Socket(0x4003);
/// let is_routers = socket == Socket::RIP || socket == Socket::SAP;
/// println!(rt; "socket {socket} is a router's: {is_routers}")?;
/// // prints socket 4003 is a router's: false
/// ```
#[derive(Clone, Copy, Default, PartialEq, Eq, PartialOrd, Ord, Hash)]
pub struct Socket(
    /// The number, 0 to FFFFh.
    pub u16,
);

impl Socket {
    /// 0452h, the socket of the service advertising protocol.
    pub const SAP: Socket = Socket(0x0452);

    /// 0453h, the socket of the routing information protocol.
    pub const RIP: Socket = Socket(0x0453);

    /// The four upper-case hexadecimal digits, the highest first, as ASCII.
    pub fn digits(self) -> [u8; 4]
        ensures { result ≡ encode_upper (to_be_bytes w16 self.0) }
    {
        let mut digits = [0; 4];
        put_digits(&mut digits, &self.0.to_be_bytes());
        digits
    }
}

/// Four upper-case hexadecimal digits.
impl fmt::Display for Socket {
    ghost output = { λ socket. Some (encode_upper (to_be_bytes w16 socket.0)) };

    fn fmt<W: fmt::Write>(&self, f: &mut fmt::Formatter<W>) -> fmt::Result {
        write_ascii(f, &self.digits())
    }
}

/// The digits in brackets, as in `Socket(0453)`.
impl fmt::Debug for Socket {
    ghost debug_output = { λ socket. Some (codes "Socket(" ++ encode_upper (to_be_bytes w16 socket.0) ++ codes ")") };

    fn fmt<W: fmt::Write>(&self, f: &mut fmt::Formatter<W>) -> fmt::Result {
        write!(f, "Socket({self})")
    }
}
