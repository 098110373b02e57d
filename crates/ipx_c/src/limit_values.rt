//! The numbers by which C knows links, kinds of packets, what becomes of them, and which come first on a narrow line.
ghost use Rattle.std.specs.Prelude.{◌≡◌};
ghost use Rattle.ipx_c.specs.LimitValues.{link_of, kind_at, kind_number, decision_number, rank_at, room_number};

use ipx_limits::{Decision, Kind, Link, Rank};

const TUNNEL: u8 = 0;

const PING: u8 = 1;

const ANSWER: u8 = 2;

const QUESTION: u8 = 3;

const TOLD: u8 = 4;

const BEYOND: u8 = 1;

const OF_ADDRESS: u8 = 2;

const OF_SPEAKER: u8 = 3;

const LITTLE: u8 = 4;

const WITHIN: u8 = 5;

/// Any other number than a tunnel's is a link with frames.
pub(crate) fn link_of(number: u8) -> Link
    ensures { result ≡ link_of number }
{
    match number {
        TUNNEL => Link::Tunnel,
        _ => Link::Frames,
    }
}

/// Any other number than these is of no kind that has a limit of its own.
pub(crate) fn kind_at(number: u8) -> Kind
    ensures { result ≡ kind_at number }
{
    match number {
        PING => Kind::Ping,
        ANSWER => Kind::Answer,
        QUESTION => Kind::Question,
        TOLD => Kind::Told,
        _ => Kind::Other,
    }
}

pub(crate) fn kind_number(kind: Kind) -> u8
    ensures { result ≡ kind_number kind }
{
    match kind {
        Kind::Other => 0,
        Kind::Ping => PING,
        Kind::Answer => ANSWER,
        Kind::Question => QUESTION,
        Kind::Told => TOLD,
    }
}

pub(crate) fn decision_number(decision: Decision) -> u8
    ensures { result ≡ decision_number decision }
{
    match decision {
        Decision::Passes => 0,
        Decision::TooManyPings => 1,
        Decision::TooManyQuestions => 2,
        Decision::TooManyAdvertisements => 3,
        Decision::TooMuchForRouter => 4,
        Decision::TooMuchForClient => 5,
        Decision::TooMuchForAddress => 6,
        Decision::TooMuchForLink => 7,
        Decision::TooManyAnswers => 8,
        Decision::TooMuchForStrangers => 9,
    }
}

/// Any other number than these is beyond all parts.
pub(crate) fn rank_at(number: u8) -> Rank
    ensures { result ≡ rank_at number }
{
    match number {
        OF_ADDRESS => Rank::OfAddress,
        OF_SPEAKER => Rank::OfSpeaker,
        LITTLE => Rank::Little,
        WITHIN => Rank::Within,
        _ => Rank::Beyond,
    }
}

/// 0 where there is no room.
pub(crate) fn room_number(room: Option<Rank>) -> u8
    ensures { result ≡ room_number room }
{
    match room {
        None => 0,
        Some(Rank::Beyond) => BEYOND,
        Some(Rank::OfAddress) => OF_ADDRESS,
        Some(Rank::OfSpeaker) => OF_SPEAKER,
        Some(Rank::Little) => LITTLE,
        Some(Rank::Within) => WITHIN,
    }
}
