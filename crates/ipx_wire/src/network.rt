//! The numbers of networks.
ghost use Rattle.std.specs.Prelude.{◌≡◌, ◌↔◌, ◌++◌, codes, length, IsSome, IfSome, Some, Ok};
ghost use Rattle.std.specs.Option.{option_map};
ghost use Rattle.std.specs.Result.{result_ok};
ghost use Rattle.ipx_wire.specs.Digits.{network_of};
ghost use Rattle.std.specs.Int.{to_be_bytes, w32};
ghost use Rattle.std.specs.List.{AllPass};
ghost use Rattle.hex.specs.Hex.{decode_of, encode_upper, is_hex_digit};

use crate::hex_text::{put_digits, write_ascii};
use crate::not_hex::NotHex;
use hex::FromHex;
use std::fmt;
use std::str::FromStr;

/// The number of a network, written as eight hexadecimal digits; 0 means the local one.
///
/// ```
/// match "0000BEEF".parse::<Network>() {
///     Ok(network) => println!(rt; "network {network} has the number {}", network.0)?,
///     Err(NotHex) => println!(rt; "a network has eight hexadecimal digits")?,
/// }
/// // prints network 0000BEEF has the number 48879
/// ```
#[derive(Clone, Copy, Default, PartialEq, Eq, PartialOrd, Ord, Hash)]
pub struct Network(
    /// The number, 0 to FFFFFFFFh.
    pub u32,
);

impl Network {
    /// 0, the local network, whichever that is.
    pub const LOCAL: Network = Network(0);

    /// FFFFFFFEh, the default route: it leads to every network that no other route leads to.
    pub const DEFAULT_ROUTE: Network = Network(0xFFFF_FFFE);

    /// FFFFFFFFh, which in a request asks for every route.
    pub const ALL_ROUTES: Network = Network(0xFFFF_FFFF);

    /// Reads exactly eight hexadecimal digits, of either case; any other text is `None`.
    pub fn from_hex(text: &str) -> Option<Network>
        ensures found { IsSome result ↔ ((length text.now ≡ 8) × AllPass is_hex_digit text.now) }
        ensures value { IfSome result (λ network. decode_of text.now ≡ Ok (to_be_bytes w32 network.0)) }
        // The same as a function of the text.
        ensures read { option_map (λ network. network.0) result ≡ network_of text.now }
    {
        match <[u8; 4] as FromHex>::from_hex(text) {
            Ok(bytes) => Some(Network(u32::from_be_bytes(bytes))),
            Err(_) => None,
        }
    }

    /// The eight upper-case hexadecimal digits, the highest first, as ASCII.
    pub fn digits(self) -> [u8; 8]
        ensures { result ≡ encode_upper (to_be_bytes w32 self.0) }
    {
        let mut digits = [0; 8];
        put_digits(&mut digits, &self.0.to_be_bytes());
        digits
    }
}

/// Reads exactly eight hexadecimal digits, of either case.
impl FromStr for Network {
    type Err = NotHex;

    ghost from_str_gives = { λ text result. option_map (λ network. network.0) (result_ok result) ≡ network_of text };

    fn from_str(text: &str) -> Result<Network, NotHex> {
        Network::from_hex(text).ok_or(NotHex)
    }
}

/// Eight upper-case hexadecimal digits.
impl fmt::Display for Network {
    ghost output = { λ network. Some (encode_upper (to_be_bytes w32 network.0)) };

    fn fmt<W: fmt::Write>(&self, f: &mut fmt::Formatter<W>) -> fmt::Result {
        write_ascii(f, &self.digits())
    }
}

/// The digits in brackets, as in `Network(00000010)`.
impl fmt::Debug for Network {
    ghost debug_output = { λ network. Some (codes "Network(" ++ encode_upper (to_be_bytes w32 network.0) ++ codes ")") };

    fn fmt<W: fmt::Write>(&self, f: &mut fmt::Formatter<W>) -> fmt::Result {
        write!(f, "Network({self})")
    }
}
