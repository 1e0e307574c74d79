//! The log: lines of what calls changed, and of those that were refused. It has the memory that a turn's lines need from
//! the start.
ghost use Rattle.std.specs.Prelude.{◌≡◌, false, None};
ghost use Rattle.rb_log.specs.LogRates.{next_line_of};
ghost use Rattle.rb_log.specs.LoggedChanges.{IsLineOf};

use rb_address::Source;
use rb_forward::sooner;
use rb_policy::caller_rate::{LogCaller, OWN_COUNTS};
use rb_policy::log_choice::{Happening, Logged, kind_told};
use rb_policy::log_lines::{ChangeLine, LogKind, LogLine};
use rb_policy::log_rate::{LOG_ROOM, LogRate, caller_at, caller_of, has_log_room};
use rb_serving::{ChangeAsked, ChangeKind, Seen};
use std::alloc::{AllocError, Global};
use std::io;
use std::io::Write;

const KINDS: [LogKind; 4] = [
    LogKind::Accepted,
    LogKind::Refused,
    LogKind::Calls,
    LogKind::GivenUp,
];

/// The most lines of a kind on what was left out in a second: of each caller that has a count of its own and of the
/// others, of owners and of hosts.
const MOST_MORE: usize = 2 * (OWN_COUNTS + 1);

/// Lines that are not written yet, and how many there were of each kind.
#[derive(Drop)]
pub struct Log {
    logged: Logged,
    text: Vec<u8>,
    accepted: LogRate,
    refused: LogRate,
    calls: LogRate,
    given_up: LogRate,
    /// Whether lines may have been left out that are yet to be told: if not, no turn asks the rates.
    may_be_more: bool,
    ghost no_more: { may_be_more ≡ false
        → next_line_of accepted refused calls given_up ≡ None },
}

impl Log {
    ghost use Rattle.std.specs.Prelude.{◌≡◌};
    ghost use Rattle.rb_log.specs.Logs.{next_line};

    /// A log of this. An error if an allocation is refused.
    pub fn new(alloc: Global, logged: Logged) -> Result<Log, AllocError> {
        let room = match logged {
            Logged::Nothing => 0,
            Logged::Changes | Logged::All => LOG_ROOM,
        };
        let mut text = Vec::with_capacity(alloc, room)?;
        text.resize(room, 0)?;
        text.clear();
        Ok(Log {
            logged,
            text,
            accepted: LogRate::new(),
            refused: LogRate::new(),
            calls: LogRate::new(),
            given_up: LogRate::new(),
            may_be_more: true,
        })
    }

    /// A call came at this moment, in milliseconds.
    pub fn note_call(&mut self, now: u64, seen: &Seen) {
        match seen {
            Seen::Change(change) => {
                let line = LogLine::Change(line_of(change));
                let happening = Happening::Change(change.refusal);
                self.note(now, happening, caller_of(&change.who), &line);
            }
            Seen::Refused(call) => {
                let line = LogLine::RefusedCall(call.who, call.status);
                self.note(now, Happening::RefusedCall, caller_of(&call.who), &line);
            }
        }
    }

    /// A connection from there was given up at this moment, in milliseconds.
    pub fn note_given_up(&mut self, now: u64, source: Source) {
        let line = LogLine::GivenUp(source);
        self.note(now, Happening::GivenUp, caller_at(source), &line);
    }

    /// The moment, in milliseconds, from which the log tells of lines that were left out, if some were.
    pub fn next_line(&self) -> Option<u64>
        ensures { result ≡ next_line self.now }
    {
        if !self.may_be_more {
            return None;
        }
        let of_changes = sooner(self.accepted.next_line(), self.refused.next_line());
        let of_others = sooner(self.calls.next_line(), self.given_up.next_line());
        sooner(of_changes, of_others)
    }

    /// Whether lines may be there that are not written yet.
    pub fn may_have_lines(&self) -> bool {
        self.may_be_more || !self.text.is_empty()
    }

    /// Writes the lines that are not written yet, and at this moment, in milliseconds, how many were left out in the
    /// seconds before. If that fails, they are lost.
    pub fn write<W: Write>(&mut self, now: u64, writer: &mut W) -> io::Result<()> {
        if self.may_be_more {
            for kind in KINDS {
                self.tell_left_out(now, kind);
            }
            self.may_be_more = self.next_line().is_some();
        }
        if self.text.is_empty() {
            return Ok(());
        }
        let done = writer.write_all(self.text.as_slice());
        self.text.clear();
        done
    }

    /// What came about by this caller, and its line, if it is told.
    fn note(&mut self, now: u64, happening: Happening, caller: LogCaller, line: &LogLine<'_>) {
        if let Some(kind) = kind_told(self.logged, happening) {
            self.tell(now, kind, caller, line);
        }
    }

    /// Adds a line of this caller, after how many of its kind were left out before; or counts it, if the caller has had
    /// enough of them in its second, or there is no room.
    fn tell(&mut self, now: u64, kind: LogKind, caller: LogCaller, line: &LogLine<'_>) {
        self.tell_left_out(now, kind);
        let has_room = has_log_room(kind, self.text.len());
        if self.rate(kind).ask(now, caller, has_room) {
            self.add(line);
        }
    }

    /// Adds how many lines of a kind were left out, as far as there is room.
    fn tell_left_out(&mut self, now: u64, kind: LogKind) {
        for _ in 0..MOST_MORE {
            if !has_log_room(kind, self.text.len()) {
                return;
            }
            let Some(left_out) = self.rate(kind).take_left_out(now) else {
                return;
            };
            self.add(&LogLine::More(left_out, kind));
        }
    }

    /// The rate of a kind, which may then leave lines out.
    fn rate(&mut self, kind: LogKind) -> &mut LogRate {
        self.may_be_more = true;
        match kind {
            LogKind::Accepted => &mut self.accepted,
            LogKind::Refused => &mut self.refused,
            LogKind::Calls => &mut self.calls,
            LogKind::GivenUp => &mut self.given_up,
        }
    }

    /// Adds a line, for which there is room.
    fn add(&mut self, line: &LogLine<'_>) {
        let _ = writeln!(self.text, "{line}");
    }
}

/// The line of a SET or an UNSET.
fn line_of(change: &ChangeAsked) -> ChangeLine<'_>
    ensures { IsLineOf change.now result }
{
    ChangeLine {
        adds: change.asked == ChangeKind::Set,
        prog: change.row.prog,
        vers: change.row.vers,
        netid: change.row.netid.as_slice(),
        addr: change.row.addr.as_slice(),
        owner: change.owner,
        who: change.who,
        refusal: change.refusal,
    }
}
