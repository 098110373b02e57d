//! What becomes of a packet.
use crate::reason::Reason;

/// What becomes of a packet that came: each has one of these.
///
/// See the example of [`Course`](crate::Course).
#[derive(Clone, Copy, Debug, PartialEq, Eq)]
pub enum Fate {
    /// A network on another cable of the same interface hears the frame. It isn't counted here.
    Elsewhere,
    /// The router heard it.
    Heard,
    /// The router heard it and drops it, by the reason with that number.
    Dropped(u16),
    /// It goes to others of its network, and the router doesn't hear it.
    HandedOn,
    /// The gateway answers it: it registers a client.
    Answered,
    /// It answers a ping of the gateway's, so its client stays.
    Stays,
    /// Somebody who asked by the gateway waits for it.
    Awaited,
    /// It is a probe of the gateway's own that came back.
    Probe,
    /// It goes no further.
    Lost(Reason),
}
