//! What is used of limits.
ghost use Rattle.std.specs.Prelude.{◌≡◌};
ghost use Rattle.ipx_limits.specs.Deciding.{later};

use ipx_fair::Meter;

/// What a client uses of limits.
///
/// See the example of [`Limits`](crate::Limits).
#[repr(C)]
#[derive(Clone, Copy, Debug, Default, PartialEq, Eq)]
pub struct Client {
    /// Its pings to all others.
    pub pinged: Meter,
    /// Its questions to the router.
    pub asked: Meter,
    /// Answers of the gateway to it.
    pub answered: Meter,
    /// Answers of the router to it.
    pub paged: Meter,
}

/// What all clients of an address use of limits.
///
/// See the example of [`Limits`](crate::Limits).
#[repr(C)]
#[derive(Clone, Copy, Debug, Default, PartialEq, Eq)]
pub struct Address {
    /// Their questions to the router.
    pub asked: Meter,
    /// Answers of the gateway to them.
    pub answered: Meter,
    /// Answers of the router to them.
    pub paged: Meter,
}

impl Client {
    /// So many nanoseconds pass.
    pub fn pass(&mut self, nanoseconds: u64)
        ensures { self.new ≡ record { pinged = later nanoseconds self.old.pinged; asked = later nanoseconds self.old.asked; answered = later nanoseconds self.old.answered; paged = later nanoseconds self.old.paged } }
    {
        fade(&mut self.pinged, nanoseconds);
        fade(&mut self.asked, nanoseconds);
        fade(&mut self.answered, nanoseconds);
        fade(&mut self.paged, nanoseconds);
    }
}

impl Address {
    /// So many nanoseconds pass.
    pub fn pass(&mut self, nanoseconds: u64)
        ensures { self.new ≡ record { asked = later nanoseconds self.old.asked; answered = later nanoseconds self.old.answered; paged = later nanoseconds self.old.paged } }
    {
        fade(&mut self.asked, nanoseconds);
        fade(&mut self.answered, nanoseconds);
        fade(&mut self.paged, nanoseconds);
    }
}

/// Less is used some time later.
fn fade(meter: &mut Meter, nanoseconds: u64)
    ensures { meter.new ≡ later nanoseconds meter.old }
{
    meter.used = meter.used.saturating_sub(nanoseconds);
}
