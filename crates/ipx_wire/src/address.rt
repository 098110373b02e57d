//! Addresses: a network, a node on it, and a socket there.
ghost use Rattle.std.specs.Prelude.{◌≡◌, Some};
ghost use Rattle.ipx_wire.specs.AddressWord.{address_word};

use crate::hex_text::{put_text, write_ascii};
use crate::network::Network;
use crate::node::Node;
use crate::socket::Socket;
use std::fmt;

/// Where a packet comes from or goes to: a socket on a node of a network.
///
/// ```
/// let address = Address {
///     network: Network(0x10),
///     node: Node([0, 0, 0, 0, 0, 0xAA]),
///     socket: Socket::RIP,
/// };
/// println!(rt; "{address}")?;
/// // prints 00000010.0000000000AA.0453
/// ```
#[derive(Clone, Copy, Debug, Default, PartialEq, Eq, Hash)]
pub struct Address {
    /// The network; 0 is the local one.
    pub network: Network,
    /// The node of that network, or the broadcast.
    pub node: Node,
    /// The process on that node.
    pub socket: Socket,
}

impl Address {
    /// Network, node and socket in upper-case hexadecimal digits, separated by points, as ASCII.
    #[tactic(auto, unfolding(crate::specs::AddressWord::address_word))]
    pub fn word(self) -> [u8; 26]
        ensures { result ≡ address_word self }
    {
        let mut word = [0; 26];
        let at = put_text(&mut word, 0, &self.network.digits());
        let at = put_text(&mut word, at, b".");
        let at = put_text(&mut word, at, &self.node.digits());
        let at = put_text(&mut word, at, b".");
        put_text(&mut word, at, &self.socket.digits());
        word
    }
}

/// Network, node and socket in upper-case hexadecimal digits, separated by points, as in `00000010.0000000000AA.0453`.
impl fmt::Display for Address {
    ghost output = { λ address. Some (address_word address) };

    fn fmt<W: fmt::Write>(&self, f: &mut fmt::Formatter<W>) -> fmt::Result {
        write_ascii(f, &self.word())
    }
}
