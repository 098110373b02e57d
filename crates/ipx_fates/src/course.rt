//! The way of a packet to its fate.
ghost use Rattle.std.specs.Prelude.{◌≡◌};
ghost use Rattle.ipx_fates.specs.Steps.{is_yes, either, unless_refused, lost};
ghost use Rattle.ipx_fates.specs.Courses.{of_frame, of_datagram, after};

use crate::datagrams::after_datagram;
use crate::fate::Fate;
use crate::frames::after_frame;
use crate::reason::Reason;
use crate::router::after_router;
use crate::step::{DatagramStep, FrameStep, Step};
use crate::words::after_word;

/// Where a packet is on its way: what is next with it; or its end, and its fate.
///
/// ```
/// let mut course = Course::of_frame();
/// println!(rt; "{course:?}")?;
/// for answer in [1, 1, 0, 1, 0] {
///     course = course.after(answer);
/// }
/// println!(rt; "a frame of the gateway's own, and no probe: {course:?}")?;
/// // prints Goes(Frame(IsFrame))
/// // prints a frame of the gateway's own, and no probe: Ends(Lost(OwnFrame))
/// ```
#[derive(Clone, Copy, Debug, PartialEq, Eq)]
pub enum Course {
    /// This is next.
    Goes(Step),
    /// Nothing is.
    Ends(Fate),
}

impl Course {
    /// The way of what came on a cable with frames, at its beginning.
    pub fn of_frame() -> Course
        ensures { result ≡ of_frame }
    {
        Course::Goes(Step::Frame(FrameStep::IsFrame))
    }

    /// The way of what came at a tunnel, at its beginning.
    pub fn of_datagram() -> Course
        ensures { result ≡ of_datagram }
    {
        Course::Goes(Step::Datagram(DatagramStep::IsTooLong))
    }

    /// The same once what is next was answered. At its end it stays.
    pub fn after(self, answer: u16) -> Course
        ensures { result ≡ after answer self }
    {
        match self {
            Course::Goes(Step::Frame(step)) => after_frame(step, answer),
            Course::Goes(Step::Datagram(step)) => after_datagram(step, answer),
            Course::Goes(Step::Word(step)) => after_word(step, answer),
            Course::Goes(Step::Router(step)) => after_router(step, answer),
            Course::Ends(fate) => Course::Ends(fate),
        }
    }
}

/// Goes one way if the answer is yes, and another if it is no.
pub(crate) fn either(answer: u16, then_on: Course, else_on: Course) -> Course
    ensures { result ≡ either answer then_on else_on }
{
    if answer != 0 { then_on } else { else_on }
}

/// Goes on, unless the answer is the number of a reason.
pub(crate) fn unless_refused(answer: u16, on: Course) -> Course
    ensures { result ≡ unless_refused answer on }
{
    match Reason::at(answer) {
        Some(why) => lost(why),
        None => on,
    }
}

/// Goes no further.
pub(crate) fn lost(why: Reason) -> Course
    ensures { result ≡ lost why }
{
    Course::Ends(Fate::Lost(why))
}
