//! What a router makes of an event.
ghost use Rattle.std.specs.Prelude.{◌≡◌, ◌++◌, Some};
ghost use Rattle.ipx_router.specs.OutcomeWord.{outcome_word};

use crate::why::Why;
use std::fmt;

/// What became of an event.
///
/// See the example of [`Why`].
#[derive(Clone, Copy, Debug, PartialEq, Eq, Hash)]
pub enum Outcome {
    /// The router runs from now on.
    Started,
    /// It was running already; nothing was done.
    AlreadyRunning,
    /// It is stopped from now on.
    Stopped,
    /// A second passed.
    Ticked,
    /// A response was heard; what it offered may have changed nothing.
    Learned,
    /// A request or a query was answered, even if nothing was sent.
    Answered,
    /// The packet was sent on towards its network.
    Forwarded,
    /// The packet was sent on to the other networks, even if none was left for it.
    Propagated,
    /// The port is down from now on.
    WentDown,
    /// The port is up from now on.
    CameUp,
    /// The port was down already; nothing was done.
    AlreadyDown,
    /// The port was up already; nothing was done.
    AlreadyUp,
    /// The packet is for the port's own network, and only relaying was asked for.
    Local,
    /// The event was dropped, for that reason. Nothing changed, and nothing was sent.
    Dropped(Why),
}

impl Outcome {
    /// A few words, such as `already running` or `drop NoRoute`, in two parts: the second follows the first.
    pub fn words(self) -> (&'static str, &'static str)
        ensures { result.0.now ++ result.1.now ≡ outcome_word self }
    {
        match self {
            Outcome::Started => ("started", ""),
            Outcome::AlreadyRunning => ("already running", ""),
            Outcome::Stopped => ("stopped", ""),
            Outcome::Ticked => ("ticked", ""),
            Outcome::Learned => ("learned", ""),
            Outcome::Answered => ("answered", ""),
            Outcome::Forwarded => ("forwarded", ""),
            Outcome::Propagated => ("propagated", ""),
            Outcome::WentDown => ("went down", ""),
            Outcome::CameUp => ("came up", ""),
            Outcome::AlreadyDown => ("already down", ""),
            Outcome::AlreadyUp => ("already up", ""),
            Outcome::Local => ("local", ""),
            Outcome::Dropped(why) => ("drop ", why.word()),
        }
    }
}

/// The words of the outcome, as `already running` or `drop NoRoute`.
impl fmt::Display for Outcome {
    ghost output = { λ outcome. Some (outcome_word outcome) };

    fn fmt<W: fmt::Write>(&self, f: &mut fmt::Formatter<W>) -> fmt::Result {
        let (first, second) = self.words();
        f.write_str(first)?;
        f.write_str(second)
    }
}
