//! Rules of a filter.
ghost use Rattle.std.specs.Prelude.{◌≡◌, true};
ghost use Rattle.ipx_edge.specs.declared.rule.What.TheVariants.{Nearest};

use ipx_wire::{Network, ServiceName, Socket};

/// In from a cable to the router, or out to it.
///
/// See the example of [`Rule`].
#[derive(Clone, Copy, Debug, PartialEq, Eq)]
pub enum Way {
    /// From a cable to the router.
    In,
    /// From the router to a cable.
    Out,
}

/// Names of services.
///
/// See the example of [`Rule`].
#[derive(Clone, Copy, Debug, PartialEq, Eq)]
pub enum Names {
    /// All names, also that of a service without one.
    All,
    /// This name.
    Is(ServiceName),
    /// Those that begin so.
    Begins(ServiceName),
}

/// What a rule names.
///
/// See the example of [`Rule`].
#[derive(Clone, Copy, Debug, PartialEq, Eq)]
pub enum What {
    /// Packets of a type, in and out; 20 are NetBIOS' broadcasts.
    Kind(u8),
    /// Packets from a socket or to it, in and out.
    OnSocket(Socket),
    /// Queries for the nearest service that come in.
    Nearest,
    /// Routes to networks in a range, both ends too.
    Routes {
        /// Those that are heard, or those that are advertised.
        way: Way,
        /// The first network of the range.
        from: Network,
        /// The last.
        to: Network,
    },
    /// Services of a type with certain names.
    Services {
        /// Those that are heard, or those that are advertised.
        way: Way,
        /// Their type; [`Sap::EVERY_TYPE`](ipx_wire::Sap::EVERY_TYPE) stands for every type.
        kind: u16,
        /// Their names.
        names: Names,
    },
}

/// A rule of a filter: it permits what it names, or denies it. Of several rules the first that names something decides.
///
/// A response comes in on a port, with one route, to network 30h:
///
/// ```
/// let rule = Rule {
///     permits: false,
///     what: What::Routes {
///         way: Way::In,
///         from: Network(0x30),
///         to: Network(0x3F),
///     },
/// };
/// match filter(Way::In, &port, &[rule], &mut bytes) {
///     Some(count) => println!(rt; "{count} bytes pass")?,
///     None => println!(rt; "nothing passes")?,
/// }
/// // prints nothing passes
/// ```
#[derive(Clone, Copy, Debug, PartialEq, Eq)]
pub struct Rule {
    /// Whether it permits what it names.
    pub permits: bool,
    /// What it names.
    pub what: What,
}

/// A rule that permits what is permitted without it, for a place that has none yet.
impl Default for Rule {
    fn default() -> Rule
        ensures { result ≡ record { permits = true; what = Nearest } }
    {
        Rule {
            permits: true,
            what: What::Nearest,
        }
    }
}
