//! How many lines of a kind a log gets in a second.
ghost use Rattle.std.specs.Prelude.{◌≡◌};
ghost use Rattle.rb_policy.specs.LogRate.{caller_of, caller_at, has_log_room};

use crate::caller_rate::{CallerRate, LeftOut, LogCaller};
use crate::log_lines::{LONGEST_LOG_LINE, LogKind};
use rb_address::{Owner, Source, Trust, Who};
use rb_forward::sooner;

/// The most bytes of the lines that a turn adds.
pub const LOG_ROOM: usize = 28_160;

const _: () = prove!(LONGEST_LOG_LINE <= LOG_ROOM / 2);

/// What is known of the lines of a kind.
#[derive(Clone, Copy)]
pub struct LogRate {
    /// Of callers of this machine.
    owners: CallerRate,
    /// Of others.
    hosts: CallerRate,
}

/// Whose lines those about a call are: its owner's, if it is known to be of this machine, and else its host's.
pub fn caller_of(who: &Who) -> LogCaller
    ensures { result ≡ caller_of who.now.trust who.now.source }
{
    match who.trust {
        Trust::Local(owner) => LogCaller::Owner(owner),
        Trust::Claims | Trust::Stranger => caller_at(who.source),
    }
}

/// Whose lines those about a connection from there are.
pub fn caller_at(source: Source) -> LogCaller
    ensures { result ≡ caller_at source }
{
    match source {
        Source::Inet(peer) => LogCaller::Host(peer.host()),
        Source::Local => LogCaller::Owner(Owner::Unknown),
    }
}

/// Whether one more line of a kind has room, after this many bytes of a turn's lines.
pub fn has_log_room(kind: LogKind, used: usize) -> bool
    ensures { result ≡ has_log_room kind used }
{
    let room = match kind {
        LogKind::Accepted => LOG_ROOM,
        LogKind::Refused | LogKind::Calls | LogKind::GivenUp => LOG_ROOM / 2,
    };
    used <= room - LONGEST_LOG_LINE
}

impl LogRate {
    ghost use Rattle.std.specs.Prelude.{◌≡◌};
    ghost use Rattle.rb_policy.specs.CallerRates.{gets_line};
    ghost use Rattle.rb_policy.specs.LogRate.{new_log, rate_for, log_after, log_tells, log_told, next_log_line};

    /// No line was asked for.
    pub fn new() -> LogRate
        ensures { result ≡ new_log }
    {
        LogRate {
            owners: CallerRate::new(),
            hosts: CallerRate::new(),
        }
    }

    /// Whether the log gets a line of this caller at this moment, in milliseconds, if there is room for it. One that it
    /// does not get is counted.
    pub fn ask(&mut self, now: u64, caller: LogCaller, has_room: bool) -> bool
        ensures gets { result ≡ gets_line (rate_for self.old caller) now caller has_room }
        ensures after { self.new ≡ log_after self.old now caller has_room }
    {
        match caller {
            LogCaller::Owner(_) => self.owners.ask(now, caller, has_room),
            LogCaller::Host(_) => self.hosts.ask(now, caller, has_room),
        }
    }

    /// How many lines were left out that must be told at this moment, in milliseconds, of one caller or of all that have
    /// no count of their own: none of its own second, since more may follow. They are told then, and the next call has
    /// others.
    pub fn take_left_out(&mut self, now: u64) -> Option<LeftOut>
        ensures told { result ≡ log_tells self.old now }
        ensures after { self.new ≡ log_told self.old now }
    {
        match self.owners.take_left_out(now) {
            Some(left_out) => Some(left_out),
            None => self.hosts.take_left_out(now),
        }
    }

    /// The moment from which `take_left_out` tells how many lines were left out, in milliseconds: the end of their
    /// second. None if none were.
    pub fn next_line(&self) -> Option<u64>
        ensures { result ≡ next_log_line self.now }
    {
        sooner(self.owners.next_line(), self.hosts.next_line())
    }
}
