//! What follows each answer about a frame.
ghost use Rattle.std.specs.Prelude.{◌≡◌};
ghost use Rattle.ipx_fates.specs.Frames.{on, after_frame};

use crate::course::{Course, either, lost, unless_refused};
use crate::fate::Fate;
use crate::reason::Reason;
use crate::router::hands;
use crate::step::{FrameStep as At, RouterStep, Step};

/// What is next with a frame once a step was answered.
pub(crate) fn after_frame(step: At, answer: u16) -> Course
    ensures { result ≡ after_frame step answer }
{
    match step {
        At::IsFrame => either(answer, on(At::HasNetwork), lost(Reason::NoIpx)),
        At::HasNetwork => either(answer, on(At::IsTooLong), on(At::IsHeardBeside)),
        At::IsHeardBeside => either(
            answer,
            Course::Ends(Fate::Elsewhere),
            lost(Reason::OtherKind),
        ),
        At::IsTooLong => either(answer, lost(Reason::TooLong), on(At::IsOwn)),
        At::IsOwn => either(answer, on(At::IsProbe), on(At::IsOfItsKind)),
        At::IsProbe => either(answer, Course::Ends(Fate::Probe), lost(Reason::OwnFrame)),
        At::IsOfItsKind => either(answer, on(At::IsForAnother), lost(Reason::SecondKind)),
        At::IsForAnother => either(answer, lost(Reason::ForAnother), on(At::Capture)),
        At::Capture => on(At::LetsIn),
        At::LetsIn => unless_refused(answer, on(At::HasLinks)),
        At::HasLinks => either(answer, on(At::IsPacket), on(At::IsWhole)),
        At::IsPacket => either(answer, on(At::IsBeyondLink), lost(Reason::NoIpx)),
        At::IsBeyondLink => either(answer, lost(Reason::TooLong), on(At::NamesClient)),
        At::NamesClient => either(answer, lost(Reason::FalseSource), on(At::PutOnLinks)),
        At::PutOnLinks => on(At::IsForRouter),
        At::IsForRouter => either(answer, hands(RouterStep::LetsHear), on(At::WasPut)),
        At::WasPut => either(answer, Course::Ends(Fate::HandedOn), on(At::IsFromClient)),
        At::IsFromClient => either(answer, lost(Reason::FalseSource), lost(Reason::ForAnother)),
        At::IsWhole => either(
            answer,
            hands(RouterStep::LetsHear),
            hands(RouterStep::IsAwaited),
        ),
    }
}

/// That is next.
fn on(step: At) -> Course
    ensures { result ≡ on step }
{
    Course::Goes(Step::Frame(step))
}
