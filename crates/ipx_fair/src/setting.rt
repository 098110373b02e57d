//! The setting of a receiver.
ghost use Rattle.std.specs.Prelude.{◌≡◌};
ghost use Rattle.ipx_fair.specs.Numbers.{can_be};

/// The most speakers of one receiver.
const MOST_SPEAKERS: usize = 1 << 16;

/// How much may wait for a receiver, in nanoseconds that it needs for what waits. Each is at most [`Setting::MOST_TIME`].
///
/// See the example of [`Receiver`](crate::Receiver).
#[repr(C)]
#[derive(Clone, Copy, Debug, Default, PartialEq, Eq)]
pub struct Setting {
    /// What each queue may have in any case. The longest packet, in all its frames, must fit: else an empty queue may refuse it.
    pub one: u64,
    /// What each queue may have while all queues stay within the room and the reserve. No less than `one`.
    pub own: u64,
    /// Beyond the room, for queues that stay within their `own`.
    pub reserve: u64,
    /// What all queues may have together.
    pub room: u64,
}

impl Setting {
    /// The largest number of a setting, in nanoseconds: 18 minutes.
    pub const MOST_TIME: u64 = 1 << 40;

    /// Whether a receiver of that setting can be had, with that many speakers.
    pub(crate) fn can_be(self, speakers: usize) -> bool
        ensures { result ≡ can_be self speakers }
    {
        self.one <= self.own
            && self.own <= Setting::MOST_TIME
            && self.reserve <= Setting::MOST_TIME
            && self.room <= Setting::MOST_TIME
            && speakers <= MOST_SPEAKERS
    }
}
