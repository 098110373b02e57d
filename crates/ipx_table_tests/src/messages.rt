//! The words of all that a table does with an offer.
//!
//! What is wanted stands in a `match` for each enum, so a variant that is new doesn't compile before it has its text here.

use crate::same::same;
use ipx_table::Taken;
use std::alloc::Global;
use std::fmt::Display;
use std::process::Abort;
use std::test::Fail;

/// Fails the test unless `{}` writes this text.
fn says<R: Abort, T: Display + Drop>(
    rt: &R,
    alloc: Global,
    value: T,
    wanted: &str,
) -> Result<(), Fail> {
    let text = format!(in alloc; "{value}")?;
    same(rt, text.as_str(), wanted);
    Ok(())
}

fn taken_word(taken: Taken) -> &'static str {
    match taken {
        Taken::Withdrawn => "withdrawn",
        Taken::Nothing => "nothing",
        Taken::Refreshed { changed: true } => "changed",
        Taken::Refreshed { changed: false } => "refreshed",
        Taken::Replaced => "replaced",
        Taken::Worse => "worse",
        Taken::Admitted => "admitted",
        Taken::Full => "full",
    }
}

#[test]
fn names_all_that_a_table_does(rt: HostRuntime) -> Result<(), Fail> {
    for taken in [
        Taken::Withdrawn,
        Taken::Nothing,
        Taken::Refreshed { changed: true },
        Taken::Refreshed { changed: false },
        Taken::Replaced,
        Taken::Worse,
        Taken::Admitted,
        Taken::Full,
    ] {
        says(&rt, rt.alloc(), taken, taken_word(taken))?;
    }
    Ok(())
}
