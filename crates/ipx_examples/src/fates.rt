//! What becomes of packets.

use anyhow::Result;
use ipx_fates::{Counts, Course, Fate, Reason};

/// A frame of the gateway's own came back.
pub fn course(rt: &HostRuntime) -> Result<()> {
    let mut course = Course::of_frame();
    println!(rt; "{course:?}")?;
    for answer in [1, 1, 0, 1, 0] {
        course = course.after(answer);
    }
    println!(rt; "a frame of the gateway's own, and no probe: {course:?}")?;
    // prints Goes(Frame(IsFrame))
    // prints a frame of the gateway's own, and no probe: Ends(Lost(OwnFrame))
    let datagram = Course::of_datagram().after(1);
    println!(rt; "a long datagram: {datagram:?}")?;
    Ok(())
}

/// Of two packets one held no IPX.
pub fn counts(rt: &HostRuntime) -> Result<()> {
    let mut counts = Counts::none();
    counts.count(Fate::HandedOn);
    counts.count(Fate::Lost(Reason::NoIpx));
    let lost = counts.lost[usize::from(Reason::NoIpx.number())];
    println!(rt; "{} came, and {lost} held no IPX", counts.came)?;
    // prints 2 came, and 1 held no IPX
    counts.lose(Reason::NotSent);
    println!(rt; "{} came still", counts.came)?;
    Ok(())
}
