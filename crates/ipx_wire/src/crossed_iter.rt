//! The networks that a packet has crossed, one by one.
ghost use Rattle.ipx_wire.specs.Crossed.{networks_at};
ghost use Rattle.std.specs.Prelude.{◌≡◌, ◌*◌, ◌≤◌, length};

use crate::crossed::{Crossed, network_from};
use crate::network::Network;
use std::marker::Model;

/// The networks crossed that are still to come, in the order in which they were crossed.
///
/// See the example of [`Crossed`].
#[derive(Debug, Drop)]
pub struct CrossedIter<'a> {
    count: usize,
    body: &'a [u8],
}

impl<'a> Model for CrossedIter<'a> {
    ghost use Rattle.std.specs.Prelude.{◌*◌, ◌≤◌, List, length};
    ghost use Rattle.ipx_wire.specs.declared.network.Network.{Network};
    ghost use Rattle.ipx_wire.specs.Crossed.{networks_at};

    ghost Value = { List Network };

    ghost view = { λ c. networks_at c.count c.body.now };

    ghost invariant = { λ c. 4 * c.count ≤ length c.body.now };
}

impl<'a> CrossedIter<'a> {
    /// The first `count` networks of bytes that have as many.
    pub(crate) fn of(count: usize, body: &'a [u8]) -> CrossedIter<'a>
        requires { 4 * count ≤ length body.now }
        ensures { result ≡ networks_at count body.entry.now }
    {
        CrossedIter { count, body }
    }
}

impl<'a> Iterator for CrossedIter<'a> {
    ghost use Rattle.std.specs.Iterator.{YieldsFirst, item_count};

    type Item = Network;

    ghost next_gives = { YieldsFirst (λ rest. rest) };

    ghost remaining = { item_count (λ rest. rest) };

    fn next(&mut self) -> Option<Network> {
        if self.count == 0 {
            return None;
        }
        let network = network_from(self.body, 0);
        let (_, rest) = self.body.split_at(Crossed::PLACE);
        self.body = rest;
        self.count -= 1;
        Some(network)
    }
}
