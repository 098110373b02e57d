//! What is wrong with a line.
use ipx_settings::Expected;

/// What was expected where a line is wrong. Most name a word; those that name another line give its number.
///
/// See the example of [`Configuration`](crate::Configuration).
#[derive(Clone, Copy, Debug, PartialEq, Eq)]
pub enum Fault {
    /// The line is wrong by itself.
    Line(Expected),
    /// It stands below no network.
    BelowNetwork,
    /// It stands below no link, though below a network.
    BelowLink,
    /// The network above isn't DOSBox's.
    BelowTunnel,
    /// Nor is the link above, in a network whose links have lines of their own.
    BelowTunnelLink,
    /// A link stands below no network whose links have lines of their own.
    LinkBelow,
    ManyNetworks,
    ManyLinks,
    ManyLinksOfNetwork,
    /// Another network has the number, or a route leads to it.
    OtherNetwork(usize),
    /// Another link has all frames of the carrier.
    OtherCarrier(usize),
    /// It would have all frames of the carrier, of which another link has a kind.
    OneKind(usize),
    /// Another link has the kind of frames on the carrier.
    OtherKind(usize),
    /// Another link takes the address of this machine.
    OtherPort(usize),
    /// Datagrams would go to where they come from.
    OwnAddress,
    /// The longest packet of the network is longer than the longest on the link.
    Longest(u16, u16),
    /// A line says it already.
    Once(usize),
    /// A line says other kilobits, and all networks share one line.
    OtherKilobits(u32, usize),
    /// The word's socket is there already.
    OtherSocket(usize),
    /// There is no room for the word's socket.
    ManySockets(usize),
    /// There is no room for the word's range.
    ManyRanges(usize),
    /// A network has no room for one more rule.
    ManyRules,
    /// It has no room for one more route,
    ManyRoutes,
    /// or service.
    ManyServices,
    /// A line says a service of the type with the name.
    OtherService(usize),
    /// The link above isn't one of clients by WebSocket.
    BelowWeb,
    /// No link above is with the other places of the network.
    BelowPeers,
    /// A line says the other place already.
    OtherPeer(usize),
    /// A network has no room for one more.
    ManyPeers,
    /// The other place is of IPv6, and the link's own address of IPv4,
    PeerOfFour,
    /// or the other way round.
    PeerOfSix,
    /// The network has a link of peers already.
    OnePeers(usize),
    /// The link is its network's only one, and stands on a line of its own.
    OnOwnLine,
}
