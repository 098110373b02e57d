//! What becomes of each packet of a gateway, as C asks for it. Where a packet is on its way, and what was counted, lies in memory of C's own, and needs
//! no handle.
ghost use Rattle.std.specs.Prelude.{◌≡◌};
ghost use Rattle.ipx_fates.specs.declared.course.Course.{Course};
ghost use Rattle.ipx_fates.specs.Courses.{of_frame, of_datagram, after};
ghost use Rattle.ipx_c.specs.CourseValues.{course_at, course_values};
ghost use Rattle.ipx_c.specs.CountValues.{counted_at, lost_at};

use crate::course_values::{CourseValues, course_at, course_values};
use ipx_fates::{Counts, Course, Reason};

/// The way of what came on a cable with frames, at its beginning.
#[unsafe(no_mangle)]
pub extern "C" fn ipxr_course_of_frame(course: &mut CourseValues)
    ensures { course.new ≡ course_values of_frame }
{
    *course = course_values(Course::of_frame());
}

/// The way of what came at a tunnel, at its beginning.
#[unsafe(no_mangle)]
pub extern "C" fn ipxr_course_of_datagram(course: &mut CourseValues)
    ensures { course.new ≡ course_values of_datagram }
{
    *course = course_values(Course::of_datagram());
}

/// What is next was answered.
#[unsafe(no_mangle)]
pub extern "C" fn ipxr_course_answer(course: &mut CourseValues, answer: u16)
    ensures { course.new ≡ course_values (after answer (course_at course.old)) }
{
    *course = course_values(course_at(course).after(answer));
}

/// The fate of a packet that is at the end of its way is counted; of one that isn't, nothing is.
#[unsafe(no_mangle)]
pub extern "C" fn ipxr_counts_count(counts: &mut Counts, course: &CourseValues)
    ensures { counts.new ≡ counted_at (course_at course.now) counts.old }
{
    if let Course::Ends(fate) = course_at(course) {
        counts.count(fate);
    }
}

/// Something is lost for the reason with that number.
#[unsafe(no_mangle)]
pub extern "C" fn ipxr_counts_lose(counts: &mut Counts, why: u8)
    ensures { counts.new ≡ lost_at why counts.old }
{
    if let Some(why) = Reason::at(u16::from(why)) {
        counts.lose(why);
    }
}
