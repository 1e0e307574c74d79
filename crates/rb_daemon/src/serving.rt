//! The core with its sockets and connections, and what a turn does with them.
ghost use Rattle.std.specs.Prelude.{◌≡◌};
ghost use Rattle.rb_daemon.specs.Turning.{is_due};

use mio::Registry;
use mio::event::Event;
use rb_address::Network;
use rb_around::{HeldLinks, Progress, Room, Serves, Tables};
use rb_arrivals::{Accepted, Shown, Visitor};
use rb_forward::sooner;
use rb_links::{Places, Turn};
use rb_model::Limits;
use rb_policy::{
    Admission, Brake, Deadlines, LAST_ROUND, Origin, RETRY, Round, WaysBack, is_behind, origin_of,
};
use rb_settings::SocketFault;
use rb_sockets::Sockets;
use rb_turns::Load;
use std::fs::Files;

/// The core with its sockets, the places of connections, and what is left for the next turn.
#[derive(Drop)]
pub(crate) struct Serving<H: Files, C> {
    pub(crate) core: C,
    pub(crate) sockets: Sockets,
    /// The networks whose hosts may ask.
    pub(crate) networks: Vec<Network>,
    pub(crate) places: Places,
    /// How many rows may be set.
    most_rows: usize,
    /// As many things can be due at one moment: connections and forwarded calls.
    most_due: usize,
    pub(crate) datagram: Vec<u8>,
    /// On which sockets the calls came that were forwarded.
    pub(crate) ways_back: WaysBack,
    /// Connections whose replies wait until the changes of the turn are kept.
    pub(crate) held: HeldLinks,
    /// What drops datagrams of strangers that come too often, if that is asked for.
    pub(crate) brake: Option<Brake>,
    /// The kernel's tables of connections, which show whose those from this host are.
    pub(crate) tables: Tables<H>,
    pub(crate) turn: Turn,
    deadlines: Deadlines,
    /// The fault of a listener that is yet to be told.
    pub(crate) fault: Option<SocketFault>,
}

/// Whether the next deadline has come at a moment, if there is one.
fn is_due(deadline: Option<u64>, moment: u64) -> bool
    ensures { result ≡ is_due deadline moment }
{
    match deadline {
        Some(deadline) => deadline <= moment,
        None => false,
    }
}

impl<H: Files, C: Serves<H>> Serving<H, C> {
    ghost use Rattle.std.specs.Prelude.{◌≡◌, vec_len, true};
    ghost use Rattle.mio.specs.Event.{event_token};
    ghost use Rattle.rb_policy.specs.Deadlines.{ends, put_off_after, is_behind};
    ghost use Rattle.rb_policy.specs.Rounds.{StayBut};
    ghost use Rattle.rb_sockets.specs.Events.{shown_by};
    ghost use Rattle.rb_links.specs.Rounds.{IsTakenUp, TakesUp, ServesFew};
    ghost use Rattle.rb_around.specs.Turning.{ServesNone, ServesEach};
    ghost use Rattle.rb_daemon.specs.Turning.{is_due, leaves_some};

    /// A core of these limits, the sockets around it, which are served with this memory, and what drops datagrams of
    /// strangers.
    pub(crate) fn new(
        core: C,
        sockets: Sockets,
        room: Room<H>,
        limits: Limits,
        brake: Option<Brake>,
    ) -> Serving<H, C> {
        let Room {
            networks,
            places,
            datagram,
            ways_back,
            held,
            tables,
        } = room;
        Serving {
            core,
            sockets,
            networks,
            places,
            most_rows: limits.rows,
            most_due: limits.conns.saturating_add(limits.forwards),
            datagram,
            ways_back,
            held,
            brake,
            tables,
            turn: Turn {
                number: 0,
                moment: 0,
            },
            deadlines: Deadlines::new(),
            fault: None,
        }
    }

    /// Whether something is to be told, or something to look for is due.
    pub(crate) fn has_news(&self) -> bool {
        self.fault.is_some()
            || self.tables.fault.is_some()
            || self.core.has_news()
            || self.sockets.has_news(self.turn.moment)
    }

    /// How much is served now. It goes through all rows.
    pub(crate) fn load(&mut self) -> Load
        ensures rows { C.rows self.old.core result.rows }
        ensures most { result.most_rows ≡ self.old.most_rows }
        ensures connections { result.connections ≡ self.old.places.taken }
        ensures places { result.places ≡ vec_len self.old.places.links }
    {
        Load {
            rows: self.core.count_rows(),
            most_rows: self.most_rows,
            connections: self.places.taken(),
            places: self.places.count(),
        }
    }

    /// Whether the next turn has something to serve at once, beside the kernel's tables.
    pub(crate) fn is_work_left(&self) -> bool {
        self.places.are_left() || self.sockets.is_something_left()
    }

    /// Whether the next turn has a slice of the kernel's tables to read at once.
    pub(crate) fn is_table_left(&self) -> bool {
        self.tables.is_walking() || self.places.are_sought()
    }

    /// The next deadline, in milliseconds since the start of 1970, if anything has one: of a connection or a forwarded call,
    /// and of a connection whose socket takes nothing of what waits for it.
    pub(crate) fn next_deadline(&mut self) -> Option<u64>
        ensures looks { C.looks self.old.core self.new.core }
    {
        sooner(self.core.next_deadline(), self.places.next_stuck())
    }

    /// The moment at which the next turn comes though nothing shows it, given that it would otherwise come at this
    /// deadline, if there is one: for a line of the log on those that were left out; for a socket that failed; for the
    /// abstract name; for addresses that are followed.
    pub(crate) fn next_turn(&self, deadline: Option<u64>) -> Option<u64> {
        let mut next = sooner(deadline, self.core.next_log_line());
        if self.sockets.is_tried_again() {
            next = sooner(next, Some(self.turn.moment.saturating_add(RETRY)));
        }
        next = sooner(next, self.sockets.next_look());
        sooner(next, self.sockets.next_name_try())
    }

    /// A turn at this moment, in milliseconds since the start of 1970.
    pub(crate) fn begin_turn(&mut self, now: u64) {
        self.core.set_moment(now);
        self.tables.begin_turn(now);
        self.turn = Turn {
            number: self.turn.number.wrapping_add(1),
            moment: now,
        };
    }

    /// Serves the connection that an event shows, or leaves it for the last round.
    pub(crate) fn serve(&mut self, host: &H, event: &Event)
        ensures { TakesUp
            (shown_by (event_token event.now).0) self.old.turn.number self.new.places }
    {
        match Sockets::shown_by(event.token()) {
            Shown::Connection(key) => self.serve_shown(host, key, event.is_read_closed()),
            Shown::Forwards(_) | Shown::Calls(_) | Shown::Listener(_) => {}
        }
    }

    /// Serves the connection at a place, or leaves it for the last round. `has_ended` is whether the event shows that its peer
    /// has ended what it sends.
    fn serve_shown(&mut self, host: &H, key: usize, has_ended: bool)
        ensures { IsTakenUp self.old.turn.number key self.new.places }
    {
        if has_ended {
            self.places.note_ended(key);
        }
        match self.places.round(key) {
            Some(Round::First) => {
                self.serve_at(host, key, has_ended);
            }
            Some(Round::Last) => self.places.leave(key),
            None => {}
        }
    }

    /// The last round: serves connections that were left, by events of this turn or by the last turn, and those whose
    /// forwarded calls have ended. Those that are too many for it are the first of the next turn's.
    pub(crate) fn serve_left(&mut self, host: &H)
        ensures { ServesFew self.old.places.rounds.served.items self.new.places.rounds.served.items }
    {
        if !self.places.begin_last_round() {
            return;
        }
        'left: for _i in 0..=LAST_ROUND {
            let Some(key) = self.places.take_left() else {
                return;
            };
            self.serve_again(host, key);
        }
    }

    /// Serves the connection at a place that was left. It is left again if the turn has served it already.
    fn serve_again(&mut self, host: &H, key: usize)
        ensures others { StayBut key
            self.old.places.rounds.served.items self.new.places.rounds.served.items }
        ensures count { self.new.places.rounds.count ≡ self.old.places.rounds.count }
    {
        if !self.serve_at(host, key, true) {
            self.places.leave(key);
        }
    }

    // CLOSE-1: A fault on one connection closes that connection, and its place is free.
    /// Serves the connection at a place, at most once in a turn. `may_end` is whether its peer may have ended what it
    /// sends. Whether it is served now.
    fn serve_at(&mut self, host: &H, key: usize, may_end: bool) -> bool
        ensures taken_up { IsTakenUp self.old.turn.number key self.new.places }
        ensures others { StayBut key
            self.old.places.rounds.served.items self.new.places.rounds.served.items }
        ensures count { self.new.places.rounds.count ≡ self.old.places.rounds.count }
    {
        if !self.places.begins(self.turn, key) {
            return false;
        }
        self.serve_link(host, key, may_end);
        true
    }

    /// Serves the connection at a place, once the turn counts as the last one that did.
    fn serve_link(&mut self, host: &H, key: usize, may_end: bool)
        ensures { ServesNone self.old.places self.new.places }
    {
        if self.held.is_full() {
            self.answer_changes(host);
        }
        let Some(link) = self.places.links.get_mut(key) else {
            return;
        };
        let progress = self.core.serve(
            host,
            link,
            &mut self.sockets,
            &mut self.places.long_outbox,
            self.turn,
            may_end,
        );
        if let Progress::Unkept(calls) = progress {
            if self.held.hold(key, calls, may_end) {
                return;
            }
        }
        self.core.note_served(&mut self.places, key, progress);
    }

    // KEEP-18
    /// Keeps what changed in the turn, and then sends the replies that waited for it.
    pub(crate) fn answer_changes(&mut self, host: &H)
        ensures each { ServesEach self.old.held.all.items self.old.places self.new.places }
        ensures none { ServesNone self.old.places self.new.places }
    {
        self.core.answer_changes(
            host,
            &mut self.sockets,
            &mut self.places,
            self.turn,
            self.held.as_slice(),
        );
        self.held.clear();
    }

    /// What a turn does after it served all and ended what is due: closes Lost connections, accepts others, reads a slice of the
    /// kernel's tables, if nothing else was to be done, and keeps what changed.
    pub(crate) fn end_turn(&mut self, host: &H, registry: &Registry, is_idle: bool) {
        self.close_lost();
        self.accept_all(host, registry);
        self.look_in_tables(host, is_idle);
        self.core.keep(host);
    }

    // CLOSE-2: A connection that the core gave up in a turn is closed in it: one that was due at once,
    // and those of which the room of a row was made at the end of the turn.
    /// Ends what is due, unless the turn is behind. `deadline` is the next one as the turn began; `is_fresh` is whether
    /// the turn looked for events after its moment, and `shown` is how many sockets were shown, of which there can be
    /// no more than `most`.
    pub(crate) fn expire(
        &mut self,
        host: &H,
        deadline: Option<u64>,
        is_fresh: bool,
        shown: usize,
        most: usize,
    ) {
        if !self.ends_now(deadline, is_fresh, shown, most) {
            return;
        }
        self.close_stuck();
        for _ in 0..=self.most_due {
            let is_done = self.core.expire(
                host,
                &mut self.sockets,
                &mut self.ways_back,
                &mut self.places,
            );
            if !is_done {
                return;
            }
        }
    }

    /// Whether what is due ends in this turn, if something is: if not, it is put off.
    fn ends_now(&mut self, deadline: Option<u64>, is_fresh: bool, shown: usize, most: usize) -> bool
        ensures ends { result ≡ ends self.old.deadlines.put_off
            (is_due deadline self.old.turn.moment)
            (is_behind is_fresh shown most (leaves_some self.old.places self.old.sockets)) }
        ensures after { self.new.deadlines.put_off ≡ put_off_after self.old.deadlines.put_off
            (is_due deadline self.old.turn.moment)
            (is_behind is_fresh shown most (leaves_some self.old.places self.old.sockets)) }
    {
        if !is_due(deadline, self.turn.moment) {
            return self.deadlines.ask(false, false);
        }
        let are_left = self.places.are_left() || self.sockets.are_datagrams_left();
        let is_behind = is_behind(is_fresh, shown, most, are_left);
        self.deadlines.ask(true, is_behind)
    }

    /// Closes the connections whose sockets take nothing of what waits for them.
    fn close_stuck(&mut self) {
        let now = self.turn.moment;
        for key in 0..self.places.count() {
            if self.places.stuck_at(key).is_some_and(|at| at <= now) {
                self.core.give_up(&mut self.places, key);
            }
        }
    }

    /// Closes the connections that the core has given up for the room of a row: a change was accepted then.
    pub(crate) fn close_lost(&mut self) {
        self.core.close_lost(&mut self.places);
    }

    // DOOR-7: The connection that is given up is closed for the core before the one that takes its
    // place is opened.
    /// Gives a connection a free place, or that of one that is given up for it, and opens it. If the kernel's tables
    /// must show whose it is, it is nobody's known until a call needs more. One that the core does not take is closed at once,
    /// and so is one whose events can't be shown.
    pub(crate) fn open(&mut self, registry: &Registry, accepted: Accepted) {
        let origin = match &accepted.visitor {
            Visitor::Known(arrival) => origin_of(&arrival.who()),
            Visitor::Unknown(_) => Origin::New,
        };
        let key = match self.places.admit(&origin, self.turn) {
            Admission::Take(key) => key,
            Admission::GiveUp(key) => {
                self.core.give_up(&mut self.places, key);
                key
            }
            Admission::Close => return,
        };
        self.places.seat(key, accepted, origin, self.turn.moment);
        if !self.core.open(&mut self.places, registry, key) {
            self.core.close(&mut self.places, key);
        }
    }

    /// Reads a slice of the kernel's tables, if that is to be done. Once all were looked at, those whose calls waited for it go
    /// on, each as who it is.
    fn look_in_tables(&mut self, host: &H, is_idle: bool) {
        let now = self.turn.moment;
        if !self.tables.look(host, &mut self.places, now, is_idle) {
            return;
        }
        for key in 0..self.places.count() {
            if self.places.shown(key, now) {
                self.core.open_again(&mut self.places, key);
            }
        }
    }
}
