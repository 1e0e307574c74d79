//! How much of the time the kernel's tables are read, while other work waits.
ghost use Rattle.std.specs.Prelude.{◌≡◌};
ghost use Rattle.rb_policy.specs.Shares.{rest_after};

/// For how many times as long as a turn took that read a slice of a table other work goes first.
const REST: u64 = 3;

/// When slices were read. Moments are in milliseconds.
#[derive(Clone, Copy)]
pub struct Share {
    /// The moment of the last turn that read a slice, if that was the last one.
    read_at: Option<u64>,
    /// The moment until which other work goes first.
    rests_until: u64,
}

impl Share {
    ghost use Rattle.std.specs.Prelude.{◌≡◌, None};
    ghost use Rattle.rb_policy.specs.Shares.{rests_until, may_read, read_at};

    /// Before the first slice.
    pub fn new() -> Share
        ensures rest { result.rests_until ≡ 0 }
        ensures read { result.read_at ≡ None }
    {
        Share {
            read_at: None,
            rests_until: 0,
        }
    }

    /// The next turn begins at this moment: how long the last one took is known.
    pub fn begin_turn(&mut self, now: u64)
        ensures rest { self.new.rests_until ≡ rests_until now self.old.read_at self.old.rests_until }
        ensures read { self.new.read_at ≡ None }
    {
        if let Some(at) = self.read_at.take() {
            self.rests_until = rest_after(at, now);
        }
    }

    /// Whether the turn of this moment reads a slice: it does if nothing else waits, or if other work need not go first.
    pub fn reads(&mut self, now: u64, is_idle: bool) -> bool
        ensures reads { result ≡ may_read now is_idle self.old.rests_until }
        ensures read { self.new.read_at ≡ read_at now result self.old.read_at }
        ensures rest { self.new.rests_until ≡ self.old.rests_until }
    {
        let may_read = is_idle || self.rests_until <= now;
        if may_read {
            self.read_at = Some(now);
        }
        may_read
    }
}

/// The moment until which other work goes first, after a turn from `at` to `now` that read a slice.
fn rest_after(at: u64, now: u64) -> u64
    ensures { result ≡ rest_after at now }
{
    now.saturating_add(now.saturating_sub(at).saturating_mul(REST))
}
