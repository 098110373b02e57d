//! Those who haven't answered are asked again, at moments that nobody can tell beforehand.
ghost use Rattle.std.specs.Prelude.{◌≡◌};
ghost use Rattle.ipx_cable.specs.Asking.{moment, waits, no_later, is_due, next_after_look, are_due, next_after_asking, patience};

/// Nanoseconds from one time to the next, at least; and how many more there may be.
const LEAST: u64 = 250_000_000;

const SPREAD: u64 = 500_000_000;

/// Nanoseconds of a millisecond.
const MILLISECOND: u64 = 1_000_000;

/// Who was asked, and whether he has answered: else he is asked again and again until he answers, or is given up. All bytes 0, nobody has
/// been asked.
///
/// Each time is between 250 and 750 ms after the one before, by a number that nobody else knows. So nobody can fill the buffer of somebody who
/// is asked just when the question comes, time after time.
///
/// ```
/// let (mut all, mut client) = (Asks::default(), Asked::default());
/// let (now, number) = (1_000_000_000, 100_000_000);
/// client.ask(&mut all, now, number);
/// println!(rt; "asked again in {} ms", all.patience(1000, now))?;
/// let later = now + 350_000_000;
/// let (early, late) = (all.are_due(later - 1), all.are_due(later));
/// let is_due = client.is_due(&mut all, later);
/// println!(rt; "before that: {early}, then: {late}, and he: {is_due}")?;
/// client.answer();
/// let is_due = client.is_due(&mut all, later);
/// println!(rt; "once he has answered: {is_due}")?;
/// // prints asked again in 350 ms
/// // prints before that: false, then: true, and he: true
/// // prints once he has answered: false
/// ```
#[repr(C)]
#[derive(Clone, Copy, Debug, Default, PartialEq, Eq)]
pub struct Asked {
    /// The nanosecond from which on he is asked again, or 0: he has answered.
    pub again: u64,
}

/// When the next of many is asked again. All bytes 0, nobody is.
///
/// See the example of [`Asked`].
#[repr(C)]
#[derive(Clone, Copy, Debug, Default, PartialEq, Eq)]
pub struct Asks {
    /// The nanosecond from which on somebody may have to be asked again, or 0.
    pub next: u64,
}

impl Asked {
    /// He is asked `now`. The number, which nobody else can tell, chooses when he is asked again.
    pub fn ask(&mut self, all: &mut Asks, now: u64, number: u64)
        ensures asked { self.new.again ≡ moment now number }
        ensures all { all.new.next ≡ no_later (moment now number) all.old.next }
    {
        self.again = now.saturating_add(LEAST + number % SPREAD);
        all.next = no_later(self.again, all.next);
    }

    /// He answers.
    pub fn answer(&mut self)
        ensures { self.new.again ≡ 0 }
    {
        self.again = 0;
    }

    /// Whether he hasn't answered.
    pub fn waits(&self) -> bool
        ensures { result ≡ waits self.now }
    {
        self.again != 0
    }

    /// Whether he is to be asked again `now`. If he is later, the next moment of all is no later than his.
    pub fn is_due(&self, all: &mut Asks, now: u64) -> bool
        ensures due { result ≡ is_due now self.now }
        ensures all { all.new.next ≡ next_after_look now self.now all.old }
    {
        if !self.waits() {
            return false;
        }
        if now < self.again {
            all.next = no_later(self.again, all.next);
            return false;
        }
        true
    }
}

impl Asks {
    /// Whether somebody may have to be asked `now`. Then the next moment is forgotten, until all have been looked at.
    pub fn are_due(&mut self, now: u64) -> bool
        ensures due { result ≡ are_due now self.old }
        ensures next { self.new.next ≡ next_after_asking now self.old }
    {
        if self.next == 0 || now < self.next {
            return false;
        }
        self.next = 0;
        true
    }

    /// Milliseconds until then, or at most so many.
    pub fn patience(&self, most: u64, now: u64) -> u64
        ensures { result ≡ patience most now self.now }
    {
        if self.next == 0 {
            return most;
        }
        let left = self.next.saturating_sub(now);
        most.min(left.div_ceil(MILLISECOND))
    }
}

/// The first of two moments, of which the second may be none.
fn no_later(when: u64, next: u64) -> u64
    ensures { result ≡ no_later when next }
{
    if next == 0 || when < next { when } else { next }
}
