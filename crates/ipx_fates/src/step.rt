//! What is asked of a packet, and done with it, until its fate is known.

/// What is next with a packet: a question about it, or a deed. Each is answered by a number. Where nothing else is said, a question is answered
/// by yes or no, 0 or another number, and what a deed is answered doesn't matter.
///
/// See the example of [`Course`](crate::Course).
#[derive(Clone, Copy, Debug, PartialEq, Eq)]
pub enum Step {
    /// With what came on a cable with frames.
    Frame(FrameStep),
    /// With what came at a tunnel.
    Datagram(DatagramStep),
    /// With what a client of a tunnel says to others.
    Word(WordStep),
    /// With what the router may hear, wherever it came.
    Router(RouterStep),
}

/// What is next with a frame.
///
/// See the example of [`Course`](crate::Course).
#[derive(Clone, Copy, Debug, PartialEq, Eq)]
pub enum FrameStep {
    /// Whether it is a frame of one of the four kinds.
    IsFrame,
    /// Whether a network on its cable has that kind.
    HasNetwork,
    /// Whether a network on another cable of the same interface has it.
    IsHeardBeside,
    /// Whether it is longer than the longest frame.
    IsTooLong,
    /// Whether it comes from the gateway's own node.
    IsOwn,
    /// Whether it is a probe of the gateway's, by which it finds links that are one cable; what follows of it is done.
    IsProbe,
    /// Whether it is of its sender's kind, where any may be used; what it says of that is kept.
    IsOfItsKind,
    /// Whether it is for another node, and its network has no other link.
    IsForAnother,
    /// A deed: it is written to the capture.
    Capture,
    /// By which reason, as its number, it goes nowhere, since too much of its kind came; or 31, or any higher number.
    LetsIn,
    /// Whether its network has several links.
    HasLinks,
    /// Of several links: whether it holds a whole packet,
    IsPacket,
    /// which is longer than the network allows;
    IsBeyondLink,
    /// or names as its source a client of a tunnel that is another link.
    NamesClient,
    /// A deed: it is put on the other links that get it.
    PutOnLinks,
    /// Whether it is for the router, or for all.
    IsForRouter,
    /// Whether any link got it.
    WasPut,
    /// Whether its frame comes from the node of a client at another link.
    IsFromClient,
    /// Of one link: whether it holds a whole packet.
    IsWhole,
}

/// What is next with a datagram of a tunnel.
///
/// See the example of [`Course`](crate::Course).
#[derive(Clone, Copy, Debug, PartialEq, Eq)]
pub enum DatagramStep {
    /// Whether it is longer than the network allows.
    IsTooLong,
    /// A deed: it is written to the capture.
    Capture,
    /// Whether its sender's address may have clients.
    IsAllowed,
    /// A deed: the tunnel hears it. It is answered by what it says: 1 where it registers, 2 where it answers a ping, 3 where it says
    /// something to others; else it says nothing that counts.
    Hear,
    /// It says nothing: whether it is a packet, then of another's source.
    IsPacket,
    /// It registers: whether the tunnel answers it, which it does as long as it has room,
    IsAnswered,
    /// and its sender is a client already,
    IsClient,
    /// who may be answered now.
    LetsAnswer,
    /// A deed: the client is answered.
    Answer,
    /// Whether a stranger may be answered now.
    LetsStranger,
    /// A deed: he is answered, and pinged.
    AnswerStranger,
    /// It answers a ping: whether its sender is a client now.
    IsClientNow,
    /// It speaks: whether its sender is a client.
    IsFromClient,
    /// He is none: whether the tunnel pings him, which it does as long as it has room,
    IsPinged,
    /// and he may be pinged now.
    LetsPing,
    /// A deed: he is pinged.
    Ping,
}

/// What is next with what a client of a tunnel says to others.
///
/// See the example of [`Course`](crate::Course).
#[derive(Clone, Copy, Debug, PartialEq, Eq)]
pub enum WordStep {
    /// Whether it is a ping that the tunnel answers,
    IsPing,
    /// and its sender may be answered now.
    LetsReply,
    /// A deed: the ping is answered,
    Reply,
    /// or one counts that it isn't.
    LeaveUnanswered,
    /// Whether any client gets it, or the router hears it, or its network has other links.
    IsForSomebody,
    /// Whether it is for routers of another network.
    IsForFarRouters,
    /// By which reason, as its number, nobody gets it, since its sender said too much; or 31, or any higher number.
    LetsSay,
    /// A deed: it goes to the clients and the links that get it.
    Carry,
    /// Whether the router hears it.
    IsHeard,
    /// Whether anybody got it, or its network has no other link.
    WasCarried,
}

/// What is next with a packet that the router may hear.
///
/// See the example of [`Course`](crate::Course).
#[derive(Clone, Copy, Debug, PartialEq, Eq)]
pub enum RouterStep {
    /// By which reason, as its number, the router doesn't hear it, since its sender said too much, or the edge of its network doesn't let it in;
    /// or 31, or any higher number.
    LetsHear,
    /// Whether it is for all of the network where it came.
    IsForAll,
    /// A deed: copies go to other networks that have its socket.
    Extend,
    /// Whether somebody who asked waits for it; then he gets it.
    IsAwaited,
    /// A deed: the router hears it. It is answered by whether it had no memory for what it would send.
    Hear,
    /// What the router said, as its number: from 100 on, that it drops the packet.
    Outcome,
}
