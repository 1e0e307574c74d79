//! What is done after a wait for events that fails.
use crate::turns::RETRY;

/// How many waits fail in a row before the daemon ends, each `RETRY` milliseconds after the one before: five seconds.
const MOST_FAILED: u32 = 50;

const _: () = prove!(MOST_FAILED as u64 * RETRY == 5_000);

/// What is done after a wait for events.
#[derive(Clone, Copy, PartialEq, Eq)]
pub enum AfterWait {
    /// The turn goes on.
    GoOn,
    /// The turn goes on after a pause of `RETRY` milliseconds.
    Pause,
    /// The daemon ends.
    End,
}

/// How many waits for events failed one after another.
#[derive(Clone, Copy)]
pub struct Waits {
    /// Those up to the last one, which have no other between them.
    failed: u32,
}

impl Waits {
    ghost use Rattle.std.specs.Prelude.{◌≡◌};
    ghost use Rattle.rb_policy.specs.Waits.{after_wait, failed_after};

    /// No wait has failed.
    pub fn new() -> Waits
        ensures { result.failed ≡ 0 }
    {
        Waits { failed: 0 }
    }

    /// What is done after one more wait, which was done or failed. One that is done begins the count anew.
    pub fn note(&mut self, is_done: bool) -> AfterWait
        ensures after { result ≡ after_wait self.old.failed is_done }
        ensures failed { self.new.failed ≡ failed_after self.old.failed is_done }
    {
        if is_done {
            self.failed = 0;
            return AfterWait::GoOn;
        }
        self.failed = self.failed.saturating_add(1);
        if self.failed < MOST_FAILED {
            AfterWait::Pause
        } else {
            AfterWait::End
        }
    }
}
