//! What follows each answer about a datagram of a tunnel.
ghost use Rattle.std.specs.Prelude.{◌≡◌};
ghost use Rattle.ipx_fates.specs.Datagrams.{on, said, after_datagram};

use crate::course::{Course, either, lost};
use crate::fate::Fate;
use crate::reason::Reason;
use crate::step::{DatagramStep as At, Step, WordStep};
use crate::words::says;

/// The numbers of what a datagram says.
const REGISTERS: u16 = 1;

const ANSWERS: u16 = 2;

const SPEAKS: u16 = 3;

/// What is next with a datagram once a step was answered.
pub(crate) fn after_datagram(step: At, answer: u16) -> Course
    ensures { result ≡ after_datagram step answer }
{
    match step {
        At::IsTooLong => either(answer, lost(Reason::TooLong), on(At::Capture)),
        At::Capture => on(At::IsAllowed),
        At::IsAllowed => either(answer, on(At::Hear), lost(Reason::NotAllowed)),
        At::Hear => said(answer),
        At::IsPacket => either(answer, lost(Reason::FalseSource), lost(Reason::NoIpx)),
        At::IsAnswered => either(answer, on(At::IsClient), lost(Reason::NoRoom)),
        At::IsClient => either(answer, on(At::LetsAnswer), on(At::LetsStranger)),
        At::LetsAnswer => either(answer, on(At::Answer), lost(Reason::TooManyAnswers)),
        At::Answer => Course::Ends(Fate::Answered),
        At::LetsStranger => either(
            answer,
            on(At::AnswerStranger),
            lost(Reason::TooManyStrangers),
        ),
        At::AnswerStranger => Course::Ends(Fate::Answered),
        At::IsClientNow => either(answer, Course::Ends(Fate::Stays), lost(Reason::NoRoom)),
        At::IsFromClient => either(answer, says(WordStep::IsPing), on(At::IsPinged)),
        At::IsPinged => either(answer, on(At::LetsPing), lost(Reason::NoRoom)),
        At::LetsPing => either(answer, on(At::Ping), lost(Reason::TooManyStrangers)),
        At::Ping => lost(Reason::Stranger),
    }
}

/// What is next once the tunnel told what a datagram says.
fn said(what: u16) -> Course
    ensures { result ≡ said what }
{
    if what == REGISTERS {
        on(At::IsAnswered)
    } else if what == ANSWERS {
        on(At::IsClientNow)
    } else if what == SPEAKS {
        on(At::IsFromClient)
    } else {
        on(At::IsPacket)
    }
}

/// That is next.
fn on(step: At) -> Course
    ensures { result ≡ on step }
{
    Course::Goes(Step::Datagram(step))
}
