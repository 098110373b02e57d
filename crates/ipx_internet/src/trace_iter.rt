//! The receptions of a trace, one by one.
ghost use Rattle.std.specs.Prelude.{◌≡◌};

use crate::trace::{Reception, Trace};
use std::marker::Model;

/// The receptions of a trace that are still to come, in their order.
///
/// See the example of [`Trace`].
#[derive(Debug, Drop)]
pub struct TraceIter<'a> {
    trace: &'a Trace<'a>,
    /// How many receptions it gave.
    given: usize,
}

impl<'a> Model for TraceIter<'a> {
    ghost use Rattle.std.specs.Prelude.{List, drop};
    ghost use Rattle.ipx_internet.specs.Traced.{Traced};

    ghost Value = { List Traced };

    ghost view = { λ t. drop t.given t.trace.now.receptions };
}

impl<'a> TraceIter<'a> {
    /// All receptions of that trace.
    pub(crate) fn of(trace: &'a Trace<'a>) -> TraceIter<'a>
        ensures { result ≡ trace.entry.now.receptions }
    {
        TraceIter { trace, given: 0 }
    }
}

impl<'a> Iterator for TraceIter<'a> {
    ghost use Rattle.std.specs.Iterator.{YieldsFirstBy, item_count};
    ghost use Rattle.ipx_internet.specs.Traced.{traced};

    type Item = Reception<'a>;

    ghost next_gives = { YieldsFirstBy traced (λ rest. rest) };

    ghost remaining = { item_count (λ rest. rest) };

    fn next(&mut self) -> Option<Reception<'a>> {
        if self.trace.len() <= self.given {
            return None;
        }
        let reception = self.trace.get(self.given);
        self.given += 1;
        Some(reception)
    }
}

impl<'a> IntoIterator for &'a Trace<'a> {
    type Item = Reception<'a>;

    type IntoIter = TraceIter<'a>;

    ghost into_iter_gives = { λ trace receptions. receptions ≡ trace.now.receptions };

    fn into_iter(self) -> TraceIter<'a> {
        self.iter()
    }
}
