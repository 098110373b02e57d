//! Why a packet is dropped, in the order in which it is judged.
ghost use Rattle.std.specs.Prelude.{◌≡◌, Some};
ghost use Rattle.ipx_router.specs.WhyWord.{why_word};

use ipx_wire::{PacketFault, RipFault, SapFault};
use std::fmt;

/// Why a packet was dropped: the first reason that applies. *Propagated* is type 20 to the broadcast; *near* is any
/// other packet for network 0 or the port's; *far* is the rest.
///
/// ```
/// match outcome {
///     Outcome::Dropped(Why::NoRoute) => println!(rt; "nobody advertises that network")?,
///     Outcome::Dropped(why) => println!(rt; "dropped: {why}")?,
///     other => println!(rt; "{other}")?,
/// }
/// // prints dropped: DownPort
/// ```
#[derive(Clone, Copy, Debug, PartialEq, Eq, Hash)]
pub enum Why {
    /// The router is stopped.
    NotRunning,
    /// The bytes are not a packet.
    Malformed(PacketFault),
    /// The source is the port itself.
    OwnEcho,
    /// The source node is the broadcast.
    BadSource,
    /// Propagated, with no room for the networks crossed.
    CrossedShort,
    /// Propagated, with eight or more networks crossed.
    CrossedFull,
    /// Propagated, and it has crossed the port's network before.
    CrossedSeen,
    /// Near, for another node.
    Elsewhere,
    /// Near, of type 20 or for a socket other than the two of routing and of services.
    OtherSocket,
    /// Near, and the source network is neither 0 nor the port's.
    NotNeighbour,
    /// Near, and the data is not routing information.
    BadRip(RipFault),
    /// Near, and the data is not service advertising.
    BadSap(SapFault),
    /// Near, an answer to a query for the nearest service, which routers don't ask.
    NearestReply,
    /// Far, and it came through sixteen routers or more.
    TooManyRouters,
    /// Far, for the node of another port of this router, up or not.
    FarSide,
    /// Far, for a network that neither another port that is up nor a route reaches, and that no default route serves.
    NoRoute,
    /// Far, and longer than the port on which it would leave allows.
    TooLong,
    /// The port on which it came is down.
    DownPort,
}

impl Why {
    /// One word, as in a `drop` line: the name of the reason, and behind a colon that of a reader's fault, as in
    /// `Malformed:Short`.
    pub fn word(self) -> &'static str
        ensures { result.now ≡ why_word self }
    {
        match self {
            Why::NotRunning => "NotRunning",
            Why::Malformed(PacketFault::Short) => "Malformed:Short",
            Why::Malformed(PacketFault::LengthSmall) => "Malformed:LengthSmall",
            Why::Malformed(PacketFault::LengthBeyond) => "Malformed:LengthBeyond",
            Why::OwnEcho => "OwnEcho",
            Why::BadSource => "BadSource",
            Why::CrossedShort => "CrossedShort",
            Why::CrossedFull => "CrossedFull",
            Why::CrossedSeen => "CrossedSeen",
            Why::Elsewhere => "Elsewhere",
            Why::OtherSocket => "OtherSocket",
            Why::NotNeighbour => "NotNeighbour",
            Why::BadRip(RipFault::Short) => "BadRip:Short",
            Why::BadRip(RipFault::Operation(_)) => "BadRip:Operation",
            Why::BadRip(RipFault::NoEntry) => "BadRip:NoEntry",
            Why::BadRip(RipFault::TooMany) => "BadRip:TooMany",
            Why::BadSap(SapFault::Short) => "BadSap:Short",
            Why::BadSap(SapFault::Operation(_)) => "BadSap:Operation",
            Why::BadSap(SapFault::NoEntry) => "BadSap:NoEntry",
            Why::BadSap(SapFault::TooMany) => "BadSap:TooMany",
            Why::NearestReply => "NearestReply",
            Why::TooManyRouters => "TooManyRouters",
            Why::FarSide => "FarSide",
            Why::NoRoute => "NoRoute",
            Why::TooLong => "TooLong",
            Why::DownPort => "DownPort",
        }
    }
}

/// The word of the reason.
impl fmt::Display for Why {
    ghost output = { λ why. Some (why_word why) };

    fn fmt<W: fmt::Write>(&self, f: &mut fmt::Formatter<W>) -> fmt::Result {
        f.write_str(self.word())
    }
}
