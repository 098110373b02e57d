//! What follows each answer about what a client of a tunnel says to others.
ghost use Rattle.std.specs.Prelude.{◌≡◌};
ghost use Rattle.ipx_fates.specs.Words.{says, after_word};

use crate::course::{Course, either, lost, unless_refused};
use crate::fate::Fate;
use crate::reason::Reason;
use crate::router::hands;
use crate::step::{RouterStep, Step, WordStep as At};

/// What is next with a client's word once a step was answered.
pub(crate) fn after_word(step: At, answer: u16) -> Course
    ensures { result ≡ after_word step answer }
{
    match step {
        At::IsPing => either(answer, says(At::LetsReply), says(At::IsForSomebody)),
        At::LetsReply => either(answer, says(At::Reply), says(At::LeaveUnanswered)),
        At::Reply => says(At::IsForFarRouters),
        At::LeaveUnanswered => says(At::IsForFarRouters),
        At::IsForSomebody => either(answer, says(At::IsForFarRouters), lost(Reason::NoClient)),
        At::IsForFarRouters => either(answer, lost(Reason::ForFarRouters), says(At::LetsSay)),
        At::LetsSay => unless_refused(answer, says(At::Carry)),
        At::Carry => says(At::IsHeard),
        At::IsHeard => either(answer, hands(RouterStep::LetsHear), says(At::WasCarried)),
        At::WasCarried => either(answer, Course::Ends(Fate::HandedOn), lost(Reason::NoClient)),
    }
}

/// That is next.
pub(crate) fn says(step: At) -> Course
    ensures { result ≡ says step }
{
    Course::Goes(Step::Word(step))
}
