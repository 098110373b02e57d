//! What a line says of the router's own network.
ghost use Rattle.std.specs.Prelude.{◌≡◌};
ghost use Rattle.ipx_settings.specs.Internals.{internal_step, internal_ends, internal_number, internal_node};

use crate::expected::Expected;
use crate::network::LAST_NETWORK;
use crate::nodes::node;
use crate::numbers::hexadecimal;
use crate::words::is_word;

/// The line of the router's own network, which no cable carries, as far as its words were read.
///
/// See the example of [`Reading`](crate::Reading).
#[derive(Clone, Copy, Debug, PartialEq, Eq)]
pub enum InternalBegun {
    Nothing,
    /// Its number. The line may end here.
    Number(u32),
    /// And the word `node`.
    Node(u32),
    /// And the router's node there.
    Whole(u32, [u8; 6]),
}

impl InternalBegun {
    /// A word more.
    pub(crate) fn step(self, word: &[u8]) -> Result<InternalBegun, Expected>
        ensures { result ≡ internal_step self word.now }
    {
        match self {
            InternalBegun::Nothing => match hexadecimal(word, 8, 1, LAST_NETWORK) {
                Some(number) => Ok(InternalBegun::Number(number)),
                None => Err(Expected::Network),
            },
            InternalBegun::Number(number) => {
                if is_word(word, b"node") {
                    Ok(InternalBegun::Node(number))
                } else {
                    Err(Expected::NodeWord)
                }
            }
            InternalBegun::Node(number) => match node(word) {
                Some(node) => Ok(InternalBegun::Whole(number, node)),
                None => Err(Expected::Node),
            },
            InternalBegun::Whole(_, _) => Err(Expected::Nothing),
        }
    }

    /// Whether it may end here.
    pub(crate) fn ends(self) -> bool
        ensures { result ≡ internal_ends self }
    {
        match self {
            InternalBegun::Nothing => false,
            InternalBegun::Number(_) => true,
            InternalBegun::Node(_) => false,
            InternalBegun::Whole(_, _) => true,
        }
    }

    /// The number of the network, if it was read.
    pub fn number(self) -> Option<u32>
        ensures { result ≡ internal_number self }
    {
        match self {
            InternalBegun::Nothing => None,
            InternalBegun::Number(number) => Some(number),
            InternalBegun::Node(number) => Some(number),
            InternalBegun::Whole(number, _) => Some(number),
        }
    }

    /// The router's node there, if the line says it and it was read.
    pub fn node(self) -> Option<[u8; 6]>
        ensures { result ≡ internal_node self }
    {
        match self {
            InternalBegun::Whole(_, node) => Some(node),
            _ => None,
        }
    }
}
