//! Search in what is sorted, by asking alone.
ghost use Rattle.std.specs.Prelude.{◌≡◌, ℕ, ◌+◌, ◌^◌, ◌<◌, ◌≤◌};
ghost use Rattle.ipx_table.specs.Answers.{Answers, places, answer_at, most_asks};

use std::cmp::Ordering;
use std::hint::select_unpredictable;

/// Something sorted by keys of which no two are equal. It tells how the key at a place compares with one that is
/// sought, and counts how often it was asked.
///
/// Its answers, place by place, are any number of `Less`, at most one `Equal`, then `Greater`. They never change.
///
/// One of one's own, with `use ipx_table::Asked;` and `use std::cmp::Ordering;` above:
///
/// ```
/// /// Releases in their order: from one on they fail. How many are good, how many fail, and how many were tried.
/// #[derive(Drop)]
/// pub struct Releases {
///     pub good: u8,
///     pub failing: u8,
///     pub tried: u64,
/// }
///
/// impl Asked for Releases {
///     ghost use Rattle.std.specs.Prelude.{false};
///
///     ghost answers = { λ r. record { below = r.good; held = false; above = r.failing } };
///
///     ghost asks = { λ r. r.tried };
///
///     fn len(&self) -> usize {
///         usize::from(self.good) + usize::from(self.failing)
///     }
///
///     fn ask(&mut self, place: usize) -> Ordering {
///         self.tried += 1;
///         if place < usize::from(self.good) {
///             Ordering::Less
///         } else {
///             Ordering::Greater
///         }
///     }
///
///     fn asks(&self) -> u64 {
///         self.tried
///     }
/// }
/// ```
pub trait Asked {
    ghost answers: { Self → Answers };

    ghost asks: { Self → ℕ };

    /// How many places there are.
    fn len(&self) -> usize
        ensures { result ≡ places (answers self.now) };

    /// How the key at that place compares with the sought one.
    fn ask(&mut self, place: usize) -> Ordering
        requires within { place < places (answers self.old) }
        requires few { asks self.old < most_asks }
        ensures answer { result ≡ answer_at (answers self.old) place }
        ensures same { answers self.new ≡ answers self.old }
        ensures counted { asks self.new ≡ asks self.old + 1 };

    /// How often it was asked.
    fn asks(&self) -> u64
        ensures { result ≡ asks self.now };
}

/// Where the sought key stands, or would stand.
///
/// With `Releases`, which the documentation of [`Asked`] shows:
///
/// ```
/// let mut releases = Releases {
///     good: 70,
///     failing: 30,
///     tried: 0,
/// };
/// let Found { below, .. } = find(&mut releases);
/// println!(rt; "release {below} fails first, by {} trials", releases.tried)?;
/// // prints release 70 fails first, by 7 trials
/// ```
#[derive(Clone, Copy, Debug, PartialEq, Eq, Hash)]
pub struct Found {
    /// How many keys are smaller.
    pub below: usize,
    /// Whether the next key is the sought one.
    pub held: bool,
}

/// Finds the sought key. It asks at most as many times as the number of places has binary digits, and not at all where
/// there is no place.
pub fn find<A: Asked>(asked: &mut A) -> Found
    requires unasked { A.asks asked.old ≡ 0 }
    ensures below { result.below ≡ (A.answers asked.old).below }
    ensures held { result.held ≡ (A.answers asked.old).held }
    ensures same { A.answers asked.new ≡ A.answers asked.old }
    // Where the number of places has n binary digits, it asks at most n times.
    ensures few { (digits : ℕ) → places (A.answers asked.old) < 2 ^ digits → A.asks asked.new ≤ digits }
{
    let len = asked.len();
    let mut low = 0;
    let mut size = len;
    // the place of the sought key, once it was asked
    let mut met = len;
    while size > 0 {
        let place = low + (size - 1) / 2;
        let answer = asked.ask(place);
        // No branch may depend on the answer, since a processor can't guess it. The compiler leaves out a branch for two choices by
        // one answer, and not for one alone: so the place that was met is kept, and not whether one was.
        low = select_unpredictable(answer.is_lt(), place + 1, low);
        met = select_unpredictable(answer.is_eq(), place, met);
        size /= 2;
    }
    Found {
        below: low,
        held: met < len,
    }
}
