//! Nodes: the station addresses on a network.
ghost use Rattle.std.specs.Prelude.{◌≡◌, ◌↔◌, ◌++◌, codes, length, IsSome, IfSome, Some, Ok};
ghost use Rattle.std.specs.Option.{option_map};
ghost use Rattle.std.specs.Result.{result_ok};
ghost use Rattle.ipx_wire.specs.Digits.{node_of};
ghost use Rattle.std.specs.List.{AllPass};
ghost use Rattle.hex.specs.Hex.{decode_of, encode_upper, is_hex_digit};

use crate::hex_text::{put_digits, write_ascii};
use crate::not_hex::NotHex;
use hex::FromHex;
use std::fmt;
use std::str::FromStr;

/// The six bytes that identify a node on its network, written as twelve hexadecimal digits.
///
/// ```
/// let node = Node([0, 0, 0, 0, 0, 0xAA]);
/// let is_read = Node::from_hex("0000000000aa") == Some(node);
/// println!(rt; "node {node} is read: {is_read}")?;
/// // prints node 0000000000AA is read: true
/// ```
#[derive(Clone, Copy, Default, PartialEq, Eq, PartialOrd, Ord, Hash)]
pub struct Node(
    /// The bytes, in the order in which a packet has them.
    pub [u8; 6],
);

impl Node {
    /// FFFFFFFFFFFFh, which stands for every node of a network.
    pub const BROADCAST: Node = Node([0xFF; 6]);

    /// Reads exactly twelve hexadecimal digits, of either case; any other text is `None`.
    pub fn from_hex(text: &str) -> Option<Node>
        ensures found { IsSome result ↔ ((length text.now ≡ 12) × AllPass is_hex_digit text.now) }
        ensures value { IfSome result (λ node. decode_of text.now ≡ Ok node.0) }
        // The same as a function of the text.
        ensures read { option_map (λ node. node.0) result ≡ node_of text.now }
    {
        match <[u8; 6] as FromHex>::from_hex(text) {
            Ok(bytes) => Some(Node(bytes)),
            Err(_) => None,
        }
    }

    /// The twelve upper-case hexadecimal digits, the first byte's first, as ASCII.
    pub fn digits(self) -> [u8; 12]
        ensures { result ≡ encode_upper self.0 }
    {
        let mut digits = [0; 12];
        put_digits(&mut digits, &self.0);
        digits
    }
}

/// Reads exactly twelve hexadecimal digits, of either case.
impl FromStr for Node {
    type Err = NotHex;

    ghost from_str_gives = { λ text result. option_map (λ node. node.0) (result_ok result) ≡ node_of text };

    fn from_str(text: &str) -> Result<Node, NotHex> {
        Node::from_hex(text).ok_or(NotHex)
    }
}

/// Twelve upper-case hexadecimal digits.
impl fmt::Display for Node {
    ghost output = { λ node. Some (encode_upper node.0) };

    fn fmt<W: fmt::Write>(&self, f: &mut fmt::Formatter<W>) -> fmt::Result {
        write_ascii(f, &self.digits())
    }
}

/// The digits in brackets, as in `Node(0000000000AA)`.
impl fmt::Debug for Node {
    ghost debug_output = { λ node. Some (codes "Node(" ++ encode_upper node.0 ++ codes ")") };

    fn fmt<W: fmt::Write>(&self, f: &mut fmt::Formatter<W>) -> fmt::Result {
        write!(f, "Node({self})")
    }
}
