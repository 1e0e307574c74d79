//! The daemon and its turns.
ghost use Rattle.std.specs.Prelude.{◌≡◌, ◌↔◌, IsTrue, IsErrOf, OnOk, nat_lt, false, not, OnErr, is_some, true, None};
ghost use Rattle.rb_lines.specs.Starts.{MeetsLaws};
ghost use Rattle.rb_settings.specs.Settings.{listener_of};
ghost use Rattle.rb_model.specs.State.{are_good};
ghost use Rattle.rb_around.specs.FirstFaults.{end_of};
ghost use Rattle.rb_around.specs.Records.{WritesRecord};

use crate::serving::Serving;
use rb_around::{
    Around, Begun, EVENTS, Serves, Times, Waiting, brake_of, draw, first_xid, open, read_clocks,
};
use rb_lines::bad_limit;
use rb_model::Limits;
use rb_policy::{Brake, wait_of};
use rb_registry::Row;
use rb_settings::{DaemonFault, Settings, Shortage, Step};
use rb_sockets::{AddressNews, Follower, Handed};
use rb_turns::{Load, News, Starts, TurnFailed, Turns};
use std::alloc::{AllocError, Global};
use std::fs::Files;
use std::io;
use std::io::Write;
use std::net::Net;
use std::random::RandomSource;
use std::rt::Clock;

/// A core and the sockets around it. What it takes of memory it takes in `new`; `tests/run-memory.sh` shows so.
#[derive(Drop)]
pub struct Daemon<'a, R: Clock, H: Files, C> {
    clock: &'a R,
    waiting: Waiting,
    serving: Serving<H, C>,
    /// That the limit of open files leaves fewer places for connections than the settings ask for, if it does.
    shortage: Option<Shortage>,
    /// Which of the rows that were kept are not set again, by their places, in order.
    left_out: Vec<usize>,
}

impl<'a, R: Clock, H: Files, C: Serves<H>> Daemon<'a, R, H, C> {
    /// One at good limits.
    fn begin<B: Files + Net + RandomSource>(
        alloc: Global,
        host: &B,
        clock: &'a R,
        settings: &Settings<'_>,
        kept: &[Row],
        handed: Handed,
    ) -> Result<Daemon<'a, R, H, C>, DaemonFault>
        requires { MeetsLaws (listener_of settings.now) settings.now.record_limit }
        ensures others { IsErrOf result DaemonFault.Limits → IsTrue false }
    {
        let first = match read_clocks(clock) {
            Ok(first) => first,
            Err(error) => return Err(DaemonFault::Socket(Step::Clock.failed(error))),
        };
        let secrets = draw(host);
        let xid = first_xid(&secrets, first.wall);
        let brake = brake_of(alloc, settings.udp_rate, secrets)?;
        // What is big is made last, and handed on: each `?` lets go what was made before it.
        let inner = C::begin(alloc, settings, xid, first.wall, kept)?;
        Daemon::around(alloc, host, clock, settings, handed, first, inner, brake)
    }

    /// A core with the sockets that the settings name.
    fn around<B: Files + Net>(
        alloc: Global,
        host: &B,
        clock: &'a R,
        settings: &Settings<'_>,
        handed: Handed,
        first: Times,
        inner: Begun<C>,
        brake: Option<Brake>,
    ) -> Result<Daemon<'a, R, H, C>, DaemonFault>
        ensures others { IsErrOf result DaemonFault.Limits → IsTrue false }
    {
        let outer = open(alloc, host, settings, first, handed)?;
        Ok(Daemon::of(clock, settings.limits, inner, outer, brake))
    }

    /// A core with what is around it.
    fn of(
        clock: &'a R,
        limits: Limits,
        inner: Begun<C>,
        outer: Around<H>,
        brake: Option<Brake>,
    ) -> Daemon<'a, R, H, C> {
        Daemon {
            clock,
            waiting: outer.waiting,
            serving: Serving::new(inner.core, outer.sockets, outer.room, limits, brake),
            shortage: outer.shortage,
            left_out: inner.left_out,
        }
    }

    /// Waits for events as a turn does. Returns whether the turn looked for them after its moment.
    fn wait(
        &mut self,
        is_work_left: bool,
        deadline: Option<u64>,
        longest: Option<u64>,
    ) -> Result<bool, TurnFailed>
        ensures end { OnErr result (is_some self.new.waiting.end ≡ true) }
    {
        let wait = wait_of(
            is_work_left || self.serving.is_table_left(),
            self.waiting.moment(),
            self.serving.next_turn(deadline),
            longest,
        );
        self.waiting.wait(self.clock, wait, deadline.is_none())
    }
}

// What each of these does, rb_turns says.
impl<'a, R: Clock, H: Files, C: Serves<H>> Starts<&'a R, H> for Daemon<'a, R, H, C> {
    // LIMITS-2: The fault is `Limits` if and only if a limit is out of its range: before memory is
    // taken and sockets are bound.
    /// A daemon that listens where the settings say: over TCP and UDP on each of their hosts, and also on ::1 and on a
    /// local socket if they are asked for, at some of them by sockets that were handed over. Before that it sets the rows
    /// again that were kept. Its secrets are of the randomness of `host`. `Limits` if a limit is out of its range, or the
    /// rows have no room for the own ones and two more; else `Memory` or `Socket`, whichever occurs first.
    fn new<B: Files + Net + RandomSource>(
        alloc: Global,
        host: &B,
        clock: &'a R,
        settings: &Settings<'_>,
        kept: &[Row],
        handed: Handed,
    ) -> Result<Daemon<'a, R, H, C>, DaemonFault>
        requires { MeetsLaws (listener_of settings.now) settings.now.record_limit }
        ensures bad { IsErrOf result DaemonFault.Limits
            ↔ IsTrue (not (are_good settings.now.limits (listener_of settings.now))) }
        ensures good { OnOk result (IsTrue (are_good settings.now.limits (listener_of settings.now))) }
    {
        check_limits(settings)?;
        Daemon::begin(alloc, host, clock, settings, kept, handed)
    }
}

impl<R: Clock, H: Files, C: Serves<H>> Turns<H> for Daemon<'_, R, H, C> {
    fn moment(&self) -> u64 {
        self.waiting.moment()
    }

    fn load(&mut self) -> Load {
        self.serving.load()
    }

    fn shortage(&self) -> Option<Shortage> {
        self.shortage
    }

    fn left_out(&self) -> &[usize] {
        self.left_out.as_slice()
    }

    // WAIT-4: A turn waits for the next deadline, of the core or of a connection whose socket takes
    // nothing; for the next reading of the kernel's tables, the next line on lines that were left out,
    // or the next try of a socket that failed; and without an end if there is none of these. An idle
    // daemon makes no system call, and its record does not grow.
    // ANSWER-2: A daemon answers a call within 100 turns.
    /// Waits for events once, until the next deadline or for `longest` milliseconds, whichever is sooner, without an
    /// end if there is neither, and not at all if something is left from the last turn. Then it serves all that the
    /// wait showed, in this order: datagrams, what comes back for forwarded calls, connections, those that are owed
    /// bytes last. What they changed is kept, and the replies that waited for that go out. Then it ends what is due, unless
    /// the turn is behind: then the next one does not wait. It closes Lost connections, and accepts connections as far as
    /// there are free places. If calls over TCP from this host wait until it is known whose they are, it reads a slice of the
    /// kernel's tables, which are files of `host`. A wait that fails is as
    /// one that showed nothing, after a pause. After many waits that failed one after another, or if the clock does, the turn
    /// fails: what was handed to the core stands, and the daemon can do no more.
    fn turn(&mut self, host: &H, longest: Option<u64>) -> Result<(), TurnFailed>
        ensures end { OnErr result (is_some self.new.waiting.end ≡ true) }
    {
        let is_work_left = self.serving.is_work_left();
        let deadline = self.serving.next_deadline();
        let is_fresh = self.wait(is_work_left, deadline, longest)?;
        let shown = self.waiting.count();
        serve_events(&mut self.serving, host, &self.waiting);
        self.serving.expire(host, deadline, is_fresh, shown, EVENTS);
        let is_idle = !is_work_left && shown == 0;
        self.serving
            .end_turn(host, self.waiting.registry(), is_idle);
        Ok(())
    }

    fn take_end(&mut self) -> Result<(), DaemonFault>
        ensures { result ≡ end_of self.old.waiting.end }
    {
        self.waiting.take_end()
    }

    fn has_news(&self) -> bool {
        self.waiting.has_news() || self.serving.has_news()
    }

    fn take_news<N: Files + Net>(&mut self, host: &N) -> News
        ensures keep { result.keep ≡ C.news self.old.serving.core }
        ensures table { result.table ≡ self.old.serving.tables.fault }
        ensures told { self.new.serving.tables.fault ≡ None }
    {
        let serving = &mut self.serving;
        News {
            fault: match self.waiting.take_fault() {
                Some(fault) => Some(fault),
                None => serving.fault.take(),
            },
            keep: serving.core.take_news(),
            table: serving.tables.fault.take(),
            is_local_changed: serving.sockets.take_local_change(),
            name: serving.sockets.take_name(host, serving.turn.moment),
        }
    }

    fn follow_by(&mut self, follower: Follower) -> Result<(), AllocError> {
        self.serving.sockets.follow_by(follower)
    }

    fn follow<N: Files + Net>(&mut self, host: &N) -> Option<AddressNews> {
        let registry = self.waiting.registry();
        let moment = self.serving.turn.moment;
        self.serving.sockets.follow(host, registry, moment)
    }

    /// Writes what was recorded of the turns and not yet written (docs/EVENTS.md). After an error nothing more is
    /// recorded, and the daemon goes on.
    fn write_record<W: Write>(&mut self, writer: &mut W) -> io::Result<()>
        ensures { OnOk result (WritesRecord W.contents writer.old writer.new
            (C.tape self.old.serving.core) (C.tape self.new.serving.core)) }
    {
        self.serving.core.write_record(writer)
    }

    fn write_log<W: Write>(&mut self, writer: &mut W) -> io::Result<()> {
        self.serving.core.write_log(writer)
    }
}

/// Serves what the wait showed.
fn serve_events<H: Files, C: Serves<H>>(serving: &mut Serving<H, C>, host: &H, waiting: &Waiting) {
    serving.begin_turn(waiting.moment());
    waiting.note_ready(&mut serving.sockets);
    serving.serve_datagrams(host);
    serve_shown(serving, host, waiting);
    serving.serve_left(host);
    serving.answer_changes(host);
}

/// Serves the connections that the wait showed.
fn serve_shown<H: Files, C: Serves<H>>(serving: &mut Serving<H, C>, host: &H, waiting: &Waiting) {
    for event in &waiting.events {
        serving.serve(host, event);
    }
}

/// `Limits` if a limit is out of its range.
fn check_limits(settings: &Settings<'_>) -> Result<(), DaemonFault>
    ensures bad { IsErrOf result DaemonFault.Limits
        ↔ IsTrue (not (are_good settings.now.limits (listener_of settings.now))) }
    ensures good { OnOk result (IsTrue (are_good settings.now.limits (listener_of settings.now))) }
{
    match bad_limit(&settings.limits, &settings.listener()) {
        None => Ok(()),
        Some(_) => Err(DaemonFault::Limits),
    }
}
