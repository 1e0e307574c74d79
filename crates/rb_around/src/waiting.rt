//! The wait for events and the moments of turns: what a wait shows, and what is done if it or a clock fails.
use mio::{Events, Poll, Registry};
use rb_policy::{AfterWait, Moments, RETRY, Waits};
use rb_settings::{DaemonFault, SocketFault, Step};
use rb_sockets::Sockets;
use rb_turns::TurnFailed;
use std::alloc::Global;
use std::net::Net;
use std::rt::Clock;
use std::time::Duration;
use std::{io, thread};

/// The most events that one wait shows. The system keeps the others for the next.
pub const EVENTS: usize = 64;

/// What two clocks give, in milliseconds.
#[derive(Clone, Copy)]
pub struct Times {
    /// Since the start of 1970.
    pub wall: u64,
    pub monotonic: u64,
}

pub fn read_clocks(clock: &impl Clock) -> io::Result<Times> {
    Ok(Times {
        wall: millis(clock.since_1970()?),
        monotonic: millis(clock.monotonic()?),
    })
}

/// The wall clock, if that is followed, and the monotonic clock, in milliseconds.
fn read_followed(clock: &impl Clock, follows_wall: bool) -> io::Result<(Option<u64>, u64)> {
    let wall = if follows_wall {
        Some(millis(clock.since_1970()?))
    } else {
        None
    };
    Ok((wall, millis(clock.monotonic()?)))
}

fn millis(time: Duration) -> u64 {
    let of_seconds = time.as_secs().saturating_mul(1_000);
    of_seconds.saturating_add(u64::from(time.subsec_millis()))
}

/// What is waited on, what the last wait showed, and when that was.
#[derive(Drop)]
pub struct Waiting {
    poll: Poll,
    pub events: Events,
    waits: Waits,
    moments: Moments,
    /// The fault of the first wait that failed, while it is yet to be told.
    fault: Option<SocketFault>,
    has_failed: bool,
    /// The fault by which a turn failed, until it is taken.
    end: Option<SocketFault>,
}

impl Waiting {
    ghost use Rattle.std.specs.Prelude.{◌≡◌, IsErrOf, IsTrue, OnErr, is_some, true, false, None, Some};
    ghost use Rattle.rb_around.specs.FirstFaults.{first_fault, wait_fault, end_of};

    /// No wait was made, and this is the first moment. `Socket` if the system has no room for it, `Memory` if an allocation is
    /// refused.
    pub fn new<H: Net>(alloc: Global, host: &H, first: Times) -> Result<Waiting, DaemonFault>
        ensures others { IsErrOf result DaemonFault.Limits → IsTrue false }
    {
        let poll = match Poll::new(host) {
            Ok(poll) => poll,
            Err(error) => return Err(DaemonFault::Socket(Step::Prepare.failed(error))),
        };
        Ok(Waiting {
            poll,
            events: Events::with_capacity(alloc, EVENTS).map_err(DaemonFault::Memory)?,
            waits: Waits::new(),
            moments: Moments::new(first.wall, first.monotonic),
            fault: None,
            has_failed: false,
            end: None,
        })
    }

    /// Where sockets are registered whose events are shown.
    pub fn registry(&self) -> &Registry {
        self.poll.registry()
    }

    /// How many events the last wait showed.
    pub fn count(&self) -> usize {
        self.events.iter().count()
    }

    /// Notes what the last wait showed of the daemon's own sockets.
    pub fn note_ready(&self, sockets: &mut Sockets) {
        for event in &self.events {
            sockets.note_ready(event.token());
        }
    }

    /// The moment of the last turn, in milliseconds since the start of 1970.
    pub fn moment(&self) -> u64 {
        self.moments.last()
    }

    // WAIT-3: After a wait that showed nothing, and if it does not wait, the daemon reads the clock and
    // looks once more.
    /// Waits until something is ready, or for this many milliseconds, and reads the clock. A wait that showed something is
    /// over then; else the daemon looks once more after the clock, so that nothing is unread that came before the moment
    /// of the turn. Returns whether it did. A signal ends a wait too, and is told as one that showed nothing.
    pub fn wait<R: Clock>(
        &mut self,
        clock: &R,
        wait: Option<u64>,
        follows_wall: bool,
    ) -> Result<bool, TurnFailed>
        ensures end { OnErr result (is_some self.new.end ≡ true) }
    {
        if wait != Some(0) {
            let is_done = self.look(clock, wait)?;
            if self.count() > 0 {
                self.read_moment(clock, follows_wall)?;
                return Ok(false);
            }
            if is_done {
                self.sleep_on(clock, wait)?;
            }
        }
        self.read_moment(clock, follows_wall)?;
        self.look(clock, Some(0))
    }

    /// If a signal ended a wait of this many milliseconds, which showed nothing, the rest of it passes all the same: so
    /// waits that always end in this way take no processor time.
    fn sleep_on<R: Clock>(&mut self, clock: &R, wait: Option<u64>) -> Result<(), TurnFailed>
        ensures end { OnErr result (is_some self.new.end ≡ true) }
    {
        let monotonic = match clock.monotonic() {
            Ok(time) => millis(time),
            Err(error) => return Err(self.fail(Step::Clock, error)),
        };
        let rest = self.moments.rest_of_wait(wait, monotonic);
        if rest > 0 {
            thread::sleep(clock, Duration::from_millis(rest));
        }
        Ok(())
    }

    /// Reads the moment of the turn off the monotonic clock. If nothing has a deadline, it follows a wall clock that was set.
    fn read_moment<R: Clock>(&mut self, clock: &R, follows_wall: bool) -> Result<(), TurnFailed>
        ensures end { OnErr result (is_some self.new.end ≡ true) }
    {
        match read_followed(clock, follows_wall) {
            Ok((wall, monotonic)) => {
                self.moments.next(wall, monotonic);
                Ok(())
            }
            Err(error) => Err(self.fail(Step::Clock, error)),
        }
    }

    /// A turn fails by this step. What is returned is small, since each turn returns as much.
    fn fail(&mut self, step: Step, error: io::Error) -> TurnFailed
        ensures end { self.new.end ≡ Some (record { step = step; error = error }) }
    {
        self.end = Some(step.failed(error));
        TurnFailed
    }

    /// How the turns ended: by the fault of one that failed, once.
    pub fn take_end(&mut self) -> Result<(), DaemonFault>
        ensures { result ≡ end_of self.old.end }
    {
        match self.end.take() {
            Some(fault) => Err(DaemonFault::Socket(fault)),
            None => Ok(()),
        }
    }

    /// Takes what is ready, after this many milliseconds at most, and returns whether the wait was done. If it failed, it
    /// showed nothing, and a pause has passed. An error if as many have failed one after another as end the daemon.
    fn look<R: Clock>(&mut self, clock: &R, wait: Option<u64>) -> Result<bool, TurnFailed>
        ensures end { OnErr result (is_some self.new.end ≡ true) }
    {
        let done = self
            .poll
            .poll(&mut self.events, wait.map(Duration::from_millis));
        let next = self.waits.note(done.is_ok());
        let Err(error) = done else {
            return Ok(true);
        };
        if next == AfterWait::End {
            return Err(self.fail(Step::Wait, error));
        }
        self.note_fault(error);
        thread::sleep(clock, Duration::from_millis(RETRY));
        Ok(false)
    }

    /// Whether a fault is yet to be told.
    pub fn has_news(&self) -> bool {
        self.fault.is_some()
    }

    /// The fault of the first wait that failed, once.
    pub fn take_fault(&mut self) -> Option<SocketFault>
        ensures fault { result ≡ self.old.fault }
        ensures told { self.new.fault ≡ None }
    {
        self.fault.take()
    }

    fn note_fault(&mut self, error: io::Error)
        ensures fault { self.new.fault
            ≡ first_fault self.old.has_failed self.old.fault (wait_fault error) }
        ensures failed { self.new.has_failed ≡ true }
    {
        if !self.has_failed {
            self.has_failed = true;
            self.fault = Some(SocketFault {
                step: Step::Wait,
                error,
            });
        }
    }
}
