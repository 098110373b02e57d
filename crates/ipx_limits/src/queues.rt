//! Which queue somebody gets who begins to speak.
ghost use Rattle.std.specs.Prelude.{◌≡◌, replicate};
ghost use Rattle.ipx_limits.specs.Queues.{rank, Taken, GivenBack, Unshared};

/// Queues that have numbers, and how many speakers have each: where more speak than there are queues, some share one. All bytes 0, nobody has
/// one.
///
/// See the example of [`Limits`](crate::Limits).
#[repr(C)]
#[derive(Clone, Copy, Debug)]
pub struct Queues {
    /// How many have each.
    pub users: [u32; 256],
    /// The one that was given last.
    pub last: u8,
}

impl Queues {
    /// Nobody has a queue.
    pub fn zeros() -> Queues
        ensures { result ≡ record { users = replicate 256 0; last = 0 } }
    {
        Queues {
            users: [0; 256],
            last: 0,
        }
    }

    /// Gives somebody who begins to speak a queue, of those from the first to the last: one that the fewest have, and of several the first
    /// behind the one that was given last, so that who left doesn't spoil it for who comes.
    pub fn take(&mut self, first: u8, last: u8) -> u8
        ensures { Taken first last result self.old self.new }
    {
        let mut found = first;
        for number in first..last {
            let next = number + 1;
            if self.rank(next) < self.rank(found) {
                found = next;
            }
        }
        let index = usize::from(found);
        self.users[index] = self.users[index].saturating_add(1);
        self.last = found;
        found
    }

    /// Somebody who has a queue speaks no more.
    pub fn give_back(&mut self, number: u8)
        ensures { GivenBack number self.old self.new }
    {
        let index = usize::from(number);
        self.users[index] = self.users[index].saturating_sub(1);
    }

    /// Somebody who shares a queue gets one of those from the first to the last that nobody has, if there is one: as when those have left for
    /// whom there were none. Returns the one that he has then.
    pub fn unshare(&mut self, number: u8, first: u8, last: u8) -> u8
        ensures { Unshared first last number result self.old self.new }
    {
        if self.users[usize::from(number)] <= 1 {
            return number;
        }
        let mut after = *self;
        after.give_back(number);
        let other = after.take(first, last);
        if after.users[usize::from(other)] > 1 {
            return number;
        }
        *self = after;
        other
    }

    /// The one with the least is given next.
    fn rank(&self, number: u8) -> u64
        ensures { result ≡ rank self.now number }
    {
        let behind = if number > self.last {
            u64::from(number - self.last)
        } else {
            u64::from(number) + 256 - u64::from(self.last)
        };
        512 * u64::from(self.users[usize::from(number)]) + behind
    }
}
