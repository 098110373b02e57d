//! What follows each answer about a packet that the router may hear.
ghost use Rattle.std.specs.Prelude.{◌≡◌};
ghost use Rattle.ipx_fates.specs.Routing.{hands, heard, after_router};

use crate::course::{Course, either, lost, unless_refused};
use crate::fate::Fate;
use crate::reason::Reason;
use crate::step::{RouterStep as At, Step};

/// The first number by which the router says that it drops a packet.
const FIRST_DROP: u16 = 100;

/// What is next with a packet that the router may hear once a step was answered.
pub(crate) fn after_router(step: At, answer: u16) -> Course
    ensures { result ≡ after_router step answer }
{
    match step {
        At::LetsHear => unless_refused(answer, hands(At::IsForAll)),
        At::IsForAll => either(answer, hands(At::Extend), hands(At::IsAwaited)),
        At::Extend => hands(At::IsAwaited),
        At::IsAwaited => either(answer, Course::Ends(Fate::Awaited), hands(At::Hear)),
        At::Hear => either(answer, lost(Reason::NoMemory), hands(At::Outcome)),
        At::Outcome => Course::Ends(heard(answer)),
    }
}

/// That is next.
pub(crate) fn hands(step: At) -> Course
    ensures { result ≡ hands step }
{
    Course::Goes(Step::Router(step))
}

/// What becomes of a packet of which the router said a number.
fn heard(said: u16) -> Fate
    ensures { result ≡ heard said }
{
    if said < FIRST_DROP {
        Fate::Heard
    } else {
        Fate::Dropped(said)
    }
}
