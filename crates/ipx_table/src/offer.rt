//! The trait of what a table can keep.
ghost use Rattle.std.specs.Prelude.{◌≡◌, true};
ghost use Rattle.ipx_table.specs.Reading.{Reading};

use ipx_wire::Node;
use std::cmp::Ordering;

/// What a neighbour advertises and a table keeps: a route, a service, or a type of one's own. Offers that are equal agree in all
/// four readings.
///
/// A whole offer type, with `use ipx_table::Offer;` and `use ipx_wire::Node;` above. `reading` gives the four readings as
/// functions, to which the check compares the calls of their names; `alike` is proved by the words that stand here, as long as the
/// readings look at fields alone:
///
/// ```
/// /// A time server that a neighbour advertises: fewer steps from its clock are better, 16 mean that it is lost.
/// #[derive(Clone, Copy, Debug, Default, PartialEq, Eq)]
/// pub struct TimeServer {
///     pub number: u32,
///     pub steps: u16,
///     pub port: u8,
///     pub node: Node,
/// }
///
/// impl Offer for TimeServer {
///     ghost use Rattle.std.specs.Prelude.{nat_le};
///     ghost use Rattle.std.proofs.Common.{rules};
///
///     type Key = u32;
///
///     ghost reading = { record {
///       key = λ server. server.number;
///       source = λ server. (server.port, server.node);
///       rank = λ server. (server.steps, 0);
///       is_down = λ server. nat_le 16 server.steps;
///     } };
///
///     fn key(&self) -> u32 {
///         self.number
///     }
///
///     fn source(&self) -> (u8, Node) {
///         (self.port, self.node)
///     }
///
///     fn rank(&self) -> (u16, u16) {
///         (self.steps, 0)
///     }
///
///     fn is_down(&self) -> bool {
///         16 <= self.steps
///     }
///
///     ghost alike = { Prim.search rules };
/// }
/// ```
pub trait Offer: Copy + Default + Eq {
    /// What it is an offer of; a table has at most one record a key, and keys are in a total order.
    type Key: Copy + Ord;

    ghost reading: { Reading Self Self.Key };

    /// What it is an offer of.
    fn key(&self) -> Self::Key
        ensures { result ≡ reading.key self.now };

    /// How its key compares with another one. A type whose keys are long can compare them where they lie, without the copy that
    /// `key` makes; what is compared is the same.
    fn cmp_key(&self, key: &Self::Key) -> Ordering
        ensures { result ≡ Self.Key.cmp (reading.key self.now) key.now }
    {
        self.key().cmp(key)
    }

    /// The port by which it came, 0 to 255, and the node that sent it. A record changes by its source, or by a better offer.
    fn source(&self) -> (u8, Node)
        ensures { result ≡ reading.source self.now };

    /// How good it is, the smaller the better: by the first number, then by the second. Each is 0 to 65,535.
    fn rank(&self) -> (u16, u16)
        ensures { result ≡ reading.rank self.now };

    /// Whether it withdraws: it says that there is no way any more.
    fn is_down(&self) -> bool
        ensures { result ≡ reading.is_down self.now };

    ghost alike: { (a b : Self) → Self.eq a b ≡ true → (reading.key a ≡ reading.key b) × (reading.source a ≡ reading.source b)
        × (reading.rank a ≡ reading.rank b) × (reading.is_down a ≡ reading.is_down b) };
}
