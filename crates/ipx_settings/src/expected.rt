//! What a line goes on with.

/// What was expected where a line is wrong.
///
/// See the example of [`Reading`](crate::Reading).
#[derive(Clone, Copy, Debug, PartialEq, Eq)]
pub enum Expected {
    /// One of the words that begin a line.
    Line,
    /// The number of a network.
    Network,
    /// The cost in ticks.
    Cost,
    /// The bytes of the longest packet.
    Longest,
    /// The most routes.
    Routes,
    /// The most services.
    Services,
    /// One of the words that begin a link.
    Link,
    /// One of those that this system has.
    LinkOfSystem,
    /// An address with a port.
    Address,
    /// One of IPv4.
    AddressOfFour,
    /// An address or a name with a port, where the other end is.
    Remote,
    /// One of IPv4, as the gateway's own is.
    RemoteOfFour,
    /// One of IPv6, as the gateway's own is.
    RemoteOfSix,
    /// `listen` or `connect`.
    Connection,
    /// The name of a TAP.
    Tap,
    /// The name of an interface.
    Interface,
    /// A kind of frames.
    Frames,
    /// `node`, or nothing more.
    NodeWord,
    /// A node.
    Node,
    /// Nothing more.
    Nothing,
    /// A socket.
    Socket,
    /// The most clients.
    Clients,
    /// The most clients of one address.
    ClientsOfAddress,
    /// A rate.
    Rate,
    /// The share of a quiet sender.
    Share,
    /// What all clients of an address receive.
    Household,
    /// The datagrams for strangers.
    Strangers,
    /// The kilobits of a line.
    Kilobits,
    /// A range of addresses.
    Range,
    /// An address that is 0 behind so many bits.
    FirstOf(u8),
    /// Fewer words.
    FewerWords,
    /// `by-address`.
    ByAddress,
    /// `no`.
    No,
    /// One of the words that say what a rule names.
    Rule,
    /// A type of packets.
    PacketType,
    /// A network, or the first and the last of several.
    Networks,
    /// `in` or `out`.
    Way,
    /// A type of services.
    ServiceType,
    /// Names of services.
    ServiceNames,
    /// The number of a network that a route leads to.
    Destination,
    /// The routers on a way.
    Hops,
    /// The ticks of a way.
    Ticks,
    /// `via`.
    Via,
    /// The type of one service.
    OneType,
    /// The name of one service.
    ServiceName,
    /// Where a service is offered: its network, node and socket.
    ServiceAddress,
    /// The address of a group, with a port.
    Group,
    /// `via`, or a kind of frames.
    ViaOrFrames,
    /// The address of a card.
    Card,
    /// The path of a switch.
    Switch,
    /// A kind of frames, or nothing more.
    FramesOrNothing,
    /// Where a page comes from.
    Origin,
    /// The path of a file with a key.
    KeyFile,
    /// The address of a card, with a port.
    CardAndPort,
}
