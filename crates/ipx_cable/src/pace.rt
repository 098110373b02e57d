//! What goes out one by one.
ghost use Rattle.std.specs.Prelude.{◌≡◌};
ghost use Rattle.ipx_cable.specs.Paces.{paced, goes, gone};

/// Nanoseconds in which all go that wait.
const MOST_WAIT: u64 = 4_000_000_000;

/// How fast things go that wait for each other, such as pings by a narrow line: so many nanoseconds apart, or closer together where one would
/// wait for more than four seconds. All bytes 0, nothing waits.
///
/// ```
/// let mut pace = Pace::default();
/// let (second, now) = (1_000_000_000, 5_000_000_000);
/// pace.more_wait(8, second, now);
/// println!(rt; "eight wait, {} ns apart", pace.between)?;
/// let first = pace.lets_go(8, now);
/// let next = pace.lets_go(7, now);
/// println!(rt; "the first goes: {first}, the next at once: {next}")?;
/// let later = pace.lets_go(7, now + second / 2);
/// println!(rt; "half a second later: {later}")?;
/// // prints eight wait, 500000000 ns apart
/// // prints the first goes: true, the next at once: false
/// // prints half a second later: true
/// ```
#[repr(C)]
#[derive(Clone, Copy, Debug, Default, PartialEq, Eq)]
pub struct Pace {
    /// The nanosecond from which on the first may go.
    pub next: u64,
    /// How many nanoseconds lie between each and the next.
    pub between: u64,
}

impl Pace {
    /// So many wait `now`, which came just now or before. They go so far apart; or closer together, if they went so before, or one would wait
    /// too long.
    pub fn more_wait(&mut self, waiting: u64, between: u64, now: u64)
        ensures { self.new ≡ paced waiting between now self.old }
    {
        if waiting == 0 {
            return;
        }
        let least = between.min(MOST_WAIT / waiting);
        if self.next == 0 {
            self.next = now;
            self.between = least;
        } else {
            self.between = least.min(self.between);
            self.next = self.next.min(now.saturating_add(self.between));
        }
    }

    /// Whether the first of so many that wait goes `now`; then it waits no more.
    pub fn lets_go(&mut self, waiting: u64, now: u64) -> bool
        ensures goes { result ≡ goes waiting now self.old }
        ensures pace { self.new ≡ gone waiting now self.old }
    {
        if waiting == 0 || now < self.next {
            return false;
        }
        if waiting == 1 {
            self.next = 0;
            self.between = 0;
        } else {
            self.next = self.next.saturating_add(self.between);
        }
        true
    }
}
