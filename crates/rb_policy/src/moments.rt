//! The moments that the core is handed, in milliseconds since the start of 1970.
ghost use Rattle.std.specs.Prelude.{◌≡◌};

use crate::turns::RETRY;

/// Moments go by the monotonic clock from the start's wall clock on, so that no step of the wall clock stops or ends
/// a deadline.
#[derive(Clone, Copy)]
pub struct Moments {
    /// The last moment.
    last: u64,
    /// What the monotonic clock gave then, in milliseconds.
    monotonic: u64,
}

impl Moments {
    ghost use Rattle.std.specs.Prelude.{◌≡◌, ◌≤◌, max};
    ghost use Rattle.rb_policy.specs.Moments.{next_moment, rest_of_wait};

    /// The first moment is that of the wall clock. Both clocks in milliseconds.
    pub fn new(wall: u64, monotonic: u64) -> Moments
        ensures last { result.last ≡ wall }
        ensures monotonic { result.monotonic ≡ monotonic }
    {
        Moments {
            last: wall,
            monotonic,
        }
    }

    /// The last moment, in milliseconds since the start of 1970.
    pub fn last(&self) -> u64
        ensures { result ≡ self.now.last }
    {
        self.last
    }

    /// The moment of a turn. When nothing waits for a deadline, the wall clock is given, and it is that one's if that is later:
    /// so a clock that is set forward ends nobody's connection, and one that is set back stops no deadline. It is never before
    /// the last one.
    pub fn next(&mut self, wall: Option<u64>, monotonic: u64) -> u64
        ensures moment { result
            ≡ next_moment self.old.last self.old.monotonic monotonic wall }
        ensures rises { self.old.last ≤ result }
        ensures last { self.new.last ≡ result }
        ensures monotonic { self.new.monotonic ≡ max self.old.monotonic monotonic }
    {
        let passed = monotonic.saturating_sub(self.monotonic);
        let went_on = self.last.saturating_add(passed);
        self.last = match wall {
            Some(wall) => went_on.max(wall),
            None => went_on,
        };
        self.monotonic = self.monotonic.max(monotonic);
        self.last
    }

    /// How long a turn goes on to wait, in milliseconds, whose wait, of this many or without an end, showed nothing and is
    /// over: if it was no longer than that by the monotonic clock, a signal ended it. No longer than `RETRY`: then
    /// the next turn waits.
    pub fn rest_of_wait(&self, wait: Option<u64>, monotonic: u64) -> u64
        ensures { result ≡ rest_of_wait self.now.monotonic wait monotonic }
    {
        let waited = monotonic.saturating_sub(self.monotonic);
        match wait {
            Some(wait) => wait.saturating_sub(waited).min(RETRY),
            None => RETRY,
        }
    }
}
