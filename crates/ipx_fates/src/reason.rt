//! Why a packet goes no further.
ghost use Rattle.std.specs.Prelude.{◌≡◌, ◌<◌};
ghost use Rattle.ipx_fates.specs.Fates.{reason_at, reason_number};

/// Why a gateway lets go of a packet before the router hears it, or behind the router. The numbers are those of their order, from 0 on.
///
/// See the example of [`Course`](crate::Course).
#[derive(Clone, Copy, Debug, PartialEq, Eq)]
pub enum Reason {
    /// It is longer than what the link carries.
    TooLong,
    /// It names the address of another as its source.
    FalseSource,
    /// Its sender is no client of the tunnel; he was asked whether he hears.
    Stranger,
    /// Its sender is none, and there is no room for him.
    NoRoom,
    /// Its sender may not be one.
    NotAllowed,
    /// It is for a node of the tunnel that nobody has.
    NoClient,
    /// A frame, or a datagram, without an IPX packet.
    NoIpx,
    /// A frame of a kind that no network has there.
    OtherKind,
    /// A frame for all in another kind than what its sender said a moment ago.
    SecondKind,
    /// A frame for another node of the cable.
    ForAnother,
    /// A frame of the gateway's own that came back.
    OwnFrame,
    /// The router had no memory for what it would have sent.
    NoMemory,
    /// A broadcast that is extended is too long for another network, or its source doesn't know its network.
    NotExtended,
    /// The system refused what was to be sent.
    NotSent,
    /// Somebody said that nobody hears at the other address.
    NobodyThere,
    /// A stranger isn't answered: too many were lately.
    TooManyStrangers,
    /// A copy for a client that received too much lately,
    TooMuchForClient,
    /// or whose address did, of all its clients,
    TooMuchForAddress,
    /// or for which the line had no room.
    TooMuchForLine,
    /// What clients say, for a link with frames that received too much of them lately.
    TooMuchForLink,
    /// A ping for all, of a client that sent too many.
    TooManyPings,
    /// A question to the router, of one that asked too many.
    TooManyQuestions,
    /// What a router tells, of an address that told too much.
    TooManyAdvertisements,
    /// An answer of the gateway to a client that was answered too often.
    TooManyAnswers,
    /// What a client says to routers of another network.
    ForFarRouters,
    /// All else that the router would hear, of an address that said too much.
    TooMuchForRouter,
    /// What only neighbours may say to the router, which another router carried there.
    FromAfar,
    /// A rule of the network denies it.
    Denied,
    /// A datagram of a place that isn't sealed by the key of its network.
    NotSealed,
    /// A datagram of a place that was heard before, or comes too late to tell.
    Repeated,
    /// A datagram of a place for another session than the gateway's own: it was recorded, or its sender doesn't know that one yet.
    OtherSession,
}

impl Reason {
    /// The reason with that number; none where no reason has it.
    pub fn at(number: u16) -> Option<Reason>
        ensures { result ≡ reason_at number }
    {
        match number {
            0 => Some(Reason::TooLong),
            1 => Some(Reason::FalseSource),
            2 => Some(Reason::Stranger),
            3 => Some(Reason::NoRoom),
            4 => Some(Reason::NotAllowed),
            5 => Some(Reason::NoClient),
            6 => Some(Reason::NoIpx),
            7 => Some(Reason::OtherKind),
            8 => Some(Reason::SecondKind),
            9 => Some(Reason::ForAnother),
            10 => Some(Reason::OwnFrame),
            11 => Some(Reason::NoMemory),
            12 => Some(Reason::NotExtended),
            13 => Some(Reason::NotSent),
            14 => Some(Reason::NobodyThere),
            15 => Some(Reason::TooManyStrangers),
            16 => Some(Reason::TooMuchForClient),
            17 => Some(Reason::TooMuchForAddress),
            18 => Some(Reason::TooMuchForLine),
            19 => Some(Reason::TooMuchForLink),
            20 => Some(Reason::TooManyPings),
            21 => Some(Reason::TooManyQuestions),
            22 => Some(Reason::TooManyAdvertisements),
            23 => Some(Reason::TooManyAnswers),
            24 => Some(Reason::ForFarRouters),
            25 => Some(Reason::TooMuchForRouter),
            26 => Some(Reason::FromAfar),
            27 => Some(Reason::Denied),
            28 => Some(Reason::NotSealed),
            29 => Some(Reason::Repeated),
            30 => Some(Reason::OtherSession),
            _ => None,
        }
    }

    /// Its number.
    pub fn number(self) -> u8
        ensures number { result ≡ reason_number self }
        ensures small { result < 31 }
    {
        match self {
            Reason::TooLong => 0,
            Reason::FalseSource => 1,
            Reason::Stranger => 2,
            Reason::NoRoom => 3,
            Reason::NotAllowed => 4,
            Reason::NoClient => 5,
            Reason::NoIpx => 6,
            Reason::OtherKind => 7,
            Reason::SecondKind => 8,
            Reason::ForAnother => 9,
            Reason::OwnFrame => 10,
            Reason::NoMemory => 11,
            Reason::NotExtended => 12,
            Reason::NotSent => 13,
            Reason::NobodyThere => 14,
            Reason::TooManyStrangers => 15,
            Reason::TooMuchForClient => 16,
            Reason::TooMuchForAddress => 17,
            Reason::TooMuchForLine => 18,
            Reason::TooMuchForLink => 19,
            Reason::TooManyPings => 20,
            Reason::TooManyQuestions => 21,
            Reason::TooManyAdvertisements => 22,
            Reason::TooManyAnswers => 23,
            Reason::ForFarRouters => 24,
            Reason::TooMuchForRouter => 25,
            Reason::FromAfar => 26,
            Reason::Denied => 27,
            Reason::NotSealed => 28,
            Reason::Repeated => 29,
            Reason::OtherSession => 30,
        }
    }
}
