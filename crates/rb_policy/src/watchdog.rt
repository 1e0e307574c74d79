//! When a service manager is told that turns go on (sd_watchdog_enabled(3)).
ghost use Rattle.std.specs.Prelude.{◌≡◌};
ghost use Rattle.std.specs.Option.{option_map};
ghost use Rattle.rb_policy.specs.Watchdogs.{is_watched, half_of, time_of, watchdog_pause};

use crate::handed::names_process;
use rb_address::number_below;

/// After how many milliseconds the watchdog of the process of number `own` is told of turns, by the values of WATCHDOG_PID and
/// WATCHDOG_USEC, if they are there. `None` if there is none for it.
pub fn watchdog_pause(own: u32, pid: Option<&[u8]>, micros: Option<&[u8]>) -> Option<u64>
    ensures { result ≡ watchdog_pause own (option_map (λ t. t.now) pid.entry)
        (option_map (λ t. t.now) micros.entry) }
{
    if is_watched(own, pid) {
        time_of(micros)
    } else {
        None
    }
}

fn is_watched(own: u32, pid: Option<&[u8]>) -> bool
    ensures { result ≡ is_watched own (option_map (λ t. t.now) pid.entry) }
{
    match pid {
        Some(pid) => names_process(own, pid),
        None => true,
    }
}

fn time_of(micros: Option<&[u8]>) -> Option<u64>
    ensures { result ≡ time_of (option_map (λ t. t.now) micros.entry) }
{
    match micros {
        Some(text) => half_of(number_below(text)),
        None => None,
    }
}

/// Half of a time in microseconds, in milliseconds.
fn half_of(micros: Option<u64>) -> Option<u64>
    ensures { result ≡ half_of micros }
{
    match micros {
        Some(0) | None => None,
        Some(micros) => Some((micros / 2_000).max(1)),
    }
}

/// When a service manager is told next that turns go on.
#[derive(Clone, Copy)]
pub struct Watchdog {
    /// How many milliseconds after the last time.
    pause: u64,
    /// The moment, in milliseconds.
    next: u64,
}

impl Watchdog {
    ghost use Rattle.std.specs.Prelude.{◌≡◌, ◌-◌};
    ghost use Rattle.rb_policy.specs.Watchdogs.{is_due, next_due};

    /// It is due at once, and each time after this many milliseconds.
    pub fn new(pause: u64) -> Watchdog
        ensures pause { result.pause ≡ pause }
        ensures next { result.next ≡ 0 }
    {
        Watchdog { pause, next: 0 }
    }

    /// For how many milliseconds a turn may wait at this moment.
    pub fn wait(&self, now: u64) -> u64
        ensures { result ≡ self.now.next - now }
    {
        self.next.saturating_sub(now)
    }

    /// Whether it is told at this moment.
    pub fn tells(&mut self, now: u64) -> bool
        ensures due { result ≡ is_due self.old.next now }
        ensures next { self.new.next ≡ next_due self.old.next self.old.pause now }
        ensures pause { self.new.pause ≡ self.old.pause }
    {
        if now < self.next {
            return false;
        }
        self.next = now.saturating_add(self.pause);
        true
    }
}
