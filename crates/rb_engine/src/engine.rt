//! Where events go to the core: in the order in which they happen, each by one function.
ghost use Rattle.std.specs.Prelude.{◌≡◌, ◌<◌, ◌+◌, ◌*◌, ◌^◌, [], ◌∷◌, length, IfOk, IfErr};
ghost use Rattle.rb_model.specs.Gives.{first_piece};
ghost use Rattle.rb_connections.specs.Costs.{look_cost};
ghost use Rattle.rb_connections.specs.Slots.{Shows};
ghost use Rattle.rb_core.specs.Events.{OnlyBegins};
ghost use Rattle.rb_core.specs.HeldBytes.{IsListener};
ghost use Rattle.rb_core.specs.Looks.{rows_shown, slot_count};
ghost use Rattle.rb_core.specs.MeteredCalls.{StepsAtMost, reply_look};
ghost use Rattle.rb_core.specs.StandsFor.{StandsFor};
ghost use Rattle.rb_lines.specs.Entries.{options_of};
ghost use Rattle.rb_lines.specs.Starts.{MeetsLaws};
ghost use Rattle.rb_lines.specs.Tapes.{Records, empty_tape};
ghost use Rattle.rb_arrivals.specs.Dispatches.{Hands};
ghost use Rattle.rb_engine.specs.Counting.{IsPaid};
ghost use Rattle.rb_engine.specs.Recording.{end_entry};
ghost use Rattle.rb_engine.specs.Sending.{reply_told, ways_told};
ghost use Rattle.rb_engine.specs.Served.{ready_of};

use crate::callers::{Asked, Caller, Sender};
use crate::keeping::Kept;
use crate::replies::Replies;
use crate::showing::{
    count_given, record_datagram, record_exchange, record_pieces, record_unsent, show_done,
    show_opened,
};
use crate::writing::{write_change, write_rows};
use rb_address::Source;
use rb_arrivals::{Datagrams, reply_to_forwarded};
use rb_core::{
    CoreFault, Exchanged, Expired, Given, Limits, Listener, Metered, Response, Seen, Told,
};
use rb_keep::{Owners, set_call};
use rb_lines::{Start, Tape};
use rb_log::Log;
use rb_model::{Event, Output};
use rb_policy::WaysBack;
use rb_registry::Row;
use rb_settings::Logged;
use rb_xdr::Tally;
use std::alloc::Global;
use std::io;
use std::io::Write;

/// The core with its meter, the moment of the turn, in milliseconds since the start of 1970, and the tape that the events
/// are recorded on. Nothing else calls the core, so what is called here, line by line, are the events of a run, and each
/// is recorded with what it gave: `exchange` as the bytes that came and the reply that was given, and `give` piece by
/// piece.
#[derive(Drop)]
pub struct Engine {
    core: Metered,
    moment: u64,
    tape: Tape,
    /// What is told of the calls.
    log: Log,
    /// How many looks the daemon took, in proofs alone.
    looks: Tally,
    ghost paid: { ∥ IsPaid core tape looks.steps ∥₁ },
    ghost fits: { moment < 2 ^ 64 },
}

/// What is done about a datagram.
#[derive(Clone, Copy)]
pub(crate) enum Answer {
    /// Nothing.
    Nothing,
    /// It has a reply, which must be sent.
    Reply,
    /// It is a call that is forwarded, and so must be sent.
    Forwarded,
}

/// What was due.
#[derive(Clone, Copy)]
pub enum Due {
    Nothing,
    /// A forwarded call that came over UDP, whose end its caller was told.
    Done,
    /// A forwarded call of the connection of this number, which goes on.
    Ready(u64),
    /// The connection of this number, which must be closed.
    Closed(u64),
}

/// Records the end of a forwarded call, and tells it: a caller over UDP gets the last reply from the socket on which the
/// call came. The answer is the connection that goes on.
fn tell<S: Datagrams>(
    core: &mut Metered,
    tape: &mut Tape,
    event: &Event<&[u8]>,
    told: Told,
    sockets: &mut S,
    ways: &mut WaysBack,
) -> Option<u64>
    ensures sent { Hands S.sends
        (reply_told ways.old.all core.old.core.reply told) sockets.old sockets.new }
    ensures ways { ways.new ≡ ways_told ways.old told }
    ensures ready { result ≡ ready_of told }
    ensures core { OnlyBegins core.old.core core.new.core }
    ensures cost { StepsAtMost (reply_look core.old) core.old core.new }
    ensures recorded { Records
        (end_entry event.now core.old.core.reply told ∷ []) tape.old tape.new }
{
    match told {
        Told::TcpReady(id) => {
            tape.record(event, &Output::Ready(id));
            Some(id)
        }
        Told::Datagram(call, who) => {
            let reply = core.udp_reply();
            reply_to_forwarded(sockets, ways, call.number, who.source, reply);
            tape.record(event, &Output::RepliedTo(who, reply));
            None
        }
        Told::Silent(call) => {
            ways.take(call.number);
            tape.record(event, &Output::Silent);
            None
        }
    }
}

/// How many bytes of a fragment are pending on a connection; 0 if there is no such connection.
fn count_pending(core: &mut Metered, id: u64) -> usize
    ensures count { Shows StandsFor (λ s. first_piece s id) core.old.core result }
    ensures stays { core.new.core ≡ core.old.core }
    ensures cost { StepsAtMost (look_cost core.old.core.connections + 1) core.old core.new }
{
    match core.pending_len(id) {
        Ok(count) => count,
        Err(_) => 0,
    }
}

/// How many rows are set, the daemon's own among them.
fn count_rows(core: &mut Metered) -> usize
    requires { length (rows_shown core.old.core) < 2 ^ 64 }
    ensures count { result ≡ length (rows_shown core.old.core) }
    ensures stays { core.new.core ≡ core.old.core }
    ensures cost { StepsAtMost (2 * slot_count core.old.core + 1) core.old core.new }
{
    let mut cursor = core.first_place();
    let mut count = 0;
    'rows: while let Some(_row) = core.next_row(&mut cursor) {
        count += 1;
    }
    count
}

/// A tape of up to `limit` bytes of a run that begins so. `NoMemory` if an allocation is refused.
fn begin_tape(alloc: Global, limit: usize, start: &Start<'_>) -> Result<Tape, CoreFault>
    ensures begun { IfOk result (Records (options_of start.now ∷ []) (empty_tape limit)) }
    ensures fault { IfErr result (λ fault. fault ≡ CoreFault.NoMemory) }
{
    let Ok(mut tape) = Tape::new(alloc, limit) else {
        return Err(CoreFault::NoMemory);
    };
    tape.begin(start);
    Ok(tape)
}

/// Says what the types of a listener say of it.
fn check_listener(listener: &Listener)
    ensures { IsListener listener.now }
{
    let _port = listener.port;
    if let Some(path) = &listener.local {
        let _path = path.as_slice();
    }
}

/// Says what its type says of a number.
fn number_fits(n: u64)
    ensures { n < 2 ^ 64 }
{}

/// Says what its type says of how many bytes there are.
fn count_fits(bytes: &[u8])
    ensures { length bytes.now < 2 ^ 64 }
{
    let _count = bytes.len();
}

impl Engine {
    ghost use Rattle.std.specs.Prelude.{◌≡◌, ◌≤◌, ◌<◌, ◌+◌, ◌*◌, ◌^◌, ◌↔◌, [], ◌∷◌, ◌++◌, false, IsTrue, IsErrOf, length, not, IfOk, OnOk, OnErr};
    ghost use Rattle.rb_lines.specs.Printing.{Writes};
    ghost use Rattle.rb_lines.specs.Tapes.{all_written, unwritten};
    ghost use Rattle.rb_model.specs.Step.Event.{Open, Closed, NextLost, Datagram, Forward, Expire, ZeroStats};
    ghost use Rattle.rb_engine.specs.Recording.{send_events};
    ghost use Rattle.rb_model.specs.State.{are_good};
    ghost use Rattle.rb_model.specs.NextDeadlines.{next_deadline};
    ghost use Rattle.rb_model.specs.Step.{open_connection, close_connection, next_lost, zero_stats};
    ghost use Rattle.rb_model.specs.ChangeLaws.{set_call};
    ghost use Rattle.rb_engine.specs.Writing.{WritesKept, WritesChange, NotesOwners};
    ghost use Rattle.rb_connections.specs.Slots.{Shows};
    ghost use Rattle.rb_core.specs.StandsFor.{StandsFor};
    ghost use Rattle.rb_core.specs.CallCosts.{deadline_cost};
    ghost use Rattle.rb_core.specs.Looks.{slot_count};
    ghost use Rattle.rb_core.specs.MeteredCalls.{StepsAtMost, reply_look};
    ghost use Rattle.rb_model.specs.Exchanges.{count_given};
    ghost use Rattle.rb_model.specs.Gives.{given_in, bytes_given};
    ghost use Rattle.rb_core.specs.Standings.{StandsAfterPiece, StandsThen};
    ghost use Rattle.rb_engine.specs.Served.{answer_datagram, change_count, row_count, set_again, ready_of, take_forward_reply, expire_due, send_forward};
    ghost use Rattle.rb_engine.specs.Moves.{IsNewEngine, Moves, LooksOnce, ActsNow, PricedNow, PricedExchangeNow, RecordsEvent, RecordsEvents, RecordsExchange, RecordsGiven, ExchangesNow, WritesInto, CountsGiven, HandsNow, ShowsNow};
    ghost use Rattle.rb_arrivals.specs.Dispatches.Dispatch.{Reply};
    ghost use Rattle.rb_model.specs.Step.{unsent_call};
    ghost use Rattle.rb_model.specs.Ending.{forward_reply, expire};
    ghost use Rattle.rb_engine.specs.Sending.{reply_after, ways_after, reply_due, ways_due, call_sent};
    ghost use Rattle.rb_engine.specs.Waiting.{waiting};
    ghost use Rattle.rb_log.specs.Logs.{next_line};

    /// A new core at this moment, which is the first, and whose first forwarded call has this xid. Up to `record_limit` bytes of its events are recorded, and `logged` says of what the log has lines. `BadLimits`
    /// if a limit is out of its range, else `NoMemory` if an allocation is refused.
    pub(crate) fn new(
        alloc: Global,
        limits: Limits,
        listener: Listener,
        first_xid: u32,
        moment: u64,
        record_limit: usize,
        logged: Logged,
    ) -> Result<Engine, CoreFault>
        requires { MeetsLaws listener record_limit }
        ensures made { IfOk result (IsNewEngine first_xid moment limits listener) }
        ensures record { IfOk result (λ engine. engine.tape.limit ≡ record_limit) }
        ensures looks { IfOk result (λ engine. engine.looks.steps ≡ 0) }
        ensures bad { IsErrOf result CoreFault.BadLimits ↔ IsTrue (not (are_good limits listener)) }
    {
        check_listener(&listener);
        let start = Start {
            limits,
            listener: &listener,
            first_xid,
            moment,
        };
        let begun = begin_tape(alloc, record_limit, &start);
        let log = Log::new(alloc, logged);
        let core = Metered::new(alloc, limits, listener, first_xid, moment)?;
        let tape = begun?;
        let Ok(log) = log else {
            return Err(CoreFault::NoMemory);
        };
        Ok(Engine {
            core,
            moment,
            tape,
            log,
            looks: Tally::new(),
        })
    }

    /// The events from here on happen at this moment.
    pub fn set_moment(&mut self, moment: u64)
        ensures core { self.new.core ≡ self.old.core }
        ensures moment { self.new.moment ≡ moment }
        ensures tape { self.new.tape ≡ self.old.tape }
        ensures looks { self.new.looks ≡ self.old.looks }
    {
        self.moment = moment;
    }

    /// Writes what was recorded and not yet written. If that fails, the recording ends.
    pub fn write_record<W: Write>(&mut self, writer: &mut W) -> io::Result<()>
        ensures written { OnOk result
            (Writes W.contents writer.old writer.new (unwritten self.old.tape)) }
        ensures ok { OnOk result (self.new.tape ≡ all_written self.old.tape) }
        ensures err { OnErr result (self.new.tape ≡ record self.old.tape { is_on = false }) }
        ensures core { self.new.core ≡ self.old.core }
        ensures moment { self.new.moment ≡ self.old.moment }
        ensures looks { self.new.looks ≡ self.old.looks }
    {
        self.tape.write_out(writer)
    }

    /// Tells the log of the call that the last `answer` or `exchange` brought, if that must be told.
    pub fn tell_call(&mut self)
        ensures core { self.new.core ≡ self.old.core }
        ensures moment { self.new.moment ≡ self.old.moment }
        ensures tape { self.new.tape ≡ self.old.tape }
        ensures looks { self.new.looks ≡ self.old.looks }
    {
        if let Some(seen) = self.core.seen() {
            self.log.note_call(self.moment, seen);
        }
    }

    /// Tells the log that a connection from there is given up.
    pub fn tell_given_up(&mut self, source: Source)
        ensures core { self.new.core ≡ self.old.core }
        ensures moment { self.new.moment ≡ self.old.moment }
        ensures tape { self.new.tape ≡ self.old.tape }
        ensures looks { self.new.looks ≡ self.old.looks }
    {
        self.log.note_given_up(self.moment, source);
    }

    /// The moment, in milliseconds, from which the log tells of lines that were left out, if some were.
    pub fn next_log_line(&self) -> Option<u64>
        ensures { result ≡ next_line self.now.log }
    {
        self.log.next_line()
    }

    /// Whether lines of the log may be there that are not written yet.
    pub fn may_have_log_lines(&self) -> bool {
        self.log.may_have_lines()
    }

    /// Writes the lines of the log that are not written yet. If that fails, they are lost.
    pub fn write_log<W: Write>(&mut self, writer: &mut W) -> io::Result<()>
        ensures core { self.new.core ≡ self.old.core }
        ensures moment { self.new.moment ≡ self.old.moment }
        ensures tape { self.new.tape ≡ self.old.tape }
        ensures looks { self.new.looks ≡ self.old.looks }
    {
        self.log.write(self.moment, writer)
    }

    /// A connection was accepted. `Full` if all places of the core are taken, `Spent` if its numbers are.
    pub fn open(&mut self, caller: Caller) -> Result<u64, CoreFault>
        ensures acts { ActsNow (λ s now. open_connection s now caller.who)
            self.old self.new result }
        ensures recorded { RecordsEvent (λ now. Open now caller.who) self.old self.new }
        ensures priced { PricedNow (λ now. Open now caller.who) self.old self.new }
        ensures moment { self.new.moment ≡ self.old.moment }
        ensures looks { self.new.looks ≡ self.old.looks }
    {
        let who = caller.who;
        let opened = self.core.open(self.moment, who);
        self.tape
            .record(&Event::Open(self.moment, who), &show_opened(opened));
        opened
    }

    // EVENT-1
    /// Bytes came on a connection. A reply of one fragment to the record that ends with them goes into the room, if
    /// there is enough of it.
    pub fn exchange(
        &mut self,
        id: u64,
        piece: &[u8],
        room: &mut [u8],
    ) -> Result<Exchanged, CoreFault>
        ensures acts { ExchangesNow id piece.now self.old self.new result room.new }
        ensures count { CountsGiven id piece.now (length room.old) self.old (count_given result) }
        ensures stands { IfOk result (StandsAfterPiece id self.new.core.core) }
        ensures fits { count_given result ≤ length room.new }
        ensures within { IfOk result (λ done. done.taken.count ≤ length piece.now) }
        ensures recorded { RecordsExchange id piece.now (count_given result) self.old self.new }
        ensures priced { PricedExchangeNow id piece.now (length room.old) self.old self.new result }
        ensures moment { self.new.moment ≡ self.old.moment }
        ensures looks { self.new.looks ≡ self.old.looks }
    {
        count_fits(room);
        let done = self.core.exchange(self.moment, id, piece, room);
        let given = &room[..count_given(&done)];
        record_exchange(&mut self.tape, self.moment, id, piece, given, &done);
        done
    }

    /// Gives whole fragments of the reply that a connection owes into the room, as many as fit: the longest is 1,028
    /// bytes. `Gone` if there is no such connection, or the core has given it up.
    pub fn write_into(&mut self, id: u64, room: &mut [u8]) -> Result<Given, CoreFault>
        ensures acts { WritesInto
            id (length room.old) self.old self.new (bytes_given room.new result) }
        ensures stands { IfOk result (λ done. StandsThen id self.new.core.core done.standing) }
        ensures fits { given_in result ≤ length room.new }
        ensures recorded { RecordsGiven id (bytes_given room.new result) self.old self.new }
        ensures moment { self.new.moment ≡ self.old.moment }
        ensures looks { LooksOnce self.old self.new }
    {
        count_fits(room);
        self.looks.raise(1);
        if !self.tape.is_on() {
            return self.core.write_into(self.moment, id, room);
        }
        let first = count_pending(&mut self.core, id);
        let given = self.core.write_into(self.moment, id, room)?;
        if given.count > 0 {
            record_pieces(&mut self.tape, self.moment, id, first, &room[..given.count]);
        }
        Ok(given)
    }

    /// A connection was closed. One that the core does not know is closed already.
    pub fn closed(&mut self, id: u64)
        ensures acts { Moves (λ s now. (close_connection s id).1) self.old self.new }
        ensures recorded { RecordsEvent (λ now. Closed id) self.old self.new }
        ensures priced { PricedNow (λ now. Closed id) self.old self.new }
        ensures moment { self.new.moment ≡ self.old.moment }
        ensures looks { self.new.looks ≡ self.old.looks }
    {
        let done = self.core.closed(id);
        self.tape.record(&Event::Closed(id), &show_done(done));
    }

    /// The first connection that the core has given up, if there is one.
    pub fn next_lost(&mut self) -> Option<u64>
        ensures lost { Shows StandsFor next_lost self.old.core.core result }
        ensures stays { Moves (λ s now. s) self.old self.new }
        ensures recorded { RecordsEvent (λ now. NextLost) self.old self.new }
        ensures priced { PricedNow (λ now. NextLost) self.old self.new }
        ensures moment { self.new.moment ≡ self.old.moment }
        ensures looks { self.new.looks ≡ self.old.looks }
    {
        let lost = self.core.next_lost();
        self.tape.record(&Event::NextLost, &Output::Lost(lost));
        lost
    }

    /// The moment from which `expire` finds something, in milliseconds since the start of 1970; `None` if nothing has a
    /// deadline. It is a look, and no event.
    pub fn next_deadline(&mut self) -> Option<u64>
        ensures soonest { Shows StandsFor next_deadline self.old.core.core result }
        ensures cost { StepsAtMost (deadline_cost self.old.core.core) self.old.core self.new.core }
        ensures stays { Moves (λ s now. s) self.old self.new }
        ensures tape { self.new.tape ≡ self.old.tape }
        ensures moment { self.new.moment ≡ self.old.moment }
        ensures looks { LooksOnce self.old self.new }
    {
        self.looks.raise(1);
        self.core.next_deadline()
    }

    // EVENT-1
    /// Takes a datagram in. If it has a reply, `reply` sends it.
    pub(crate) fn answer(&mut self, caller: Caller, content: &[u8]) -> Answer
        ensures acts { ActsNow (answer_datagram caller.who content.now)
            self.old self.new result }
        ensures recorded { RecordsEvent (λ now. Datagram now caller.who content.now) self.old self.new }
        ensures priced { PricedNow (λ now. Datagram now caller.who content.now) self.old self.new }
        ensures moment { self.new.moment ≡ self.old.moment }
        ensures looks { self.new.looks ≡ self.old.looks }
    {
        let now = self.moment;
        let who = caller.who;
        match self.core.datagram(now, who, content) {
            Response::Reply => {
                let reply = self.core.udp_reply();
                record_datagram(&mut self.tape, now, who, content, Response::Reply, reply);
                Answer::Reply
            }
            Response::Forwarded => {
                record_datagram(&mut self.tape, now, who, content, Response::Forwarded, &[]);
                Answer::Forwarded
            }
            Response::NoCall | Response::Silent => {
                record_datagram(&mut self.tape, now, who, content, Response::Silent, &[]);
                Answer::Nothing
            }
        }
    }

    // KEEP-16: A reply leaves the daemon only when all changes up to it were taken up by the keeper of rows:
    // their lines are in the file, or it is told that they could not be written.
    /// Sends the reply to the last datagram to who asked by it, over the socket on which that came, once all changes were
    /// kept.
    pub(crate) fn reply<S: Datagrams>(&mut self, asked: Asked, sockets: &mut S, kept: Kept)
        requires { Shows StandsFor change_count self.old.core.core kept.changes }
        ensures sent { S.sends sockets.old
            (Reply asked.socket asked.caller.who.source self.old.core.core.reply) sockets.new }
        ensures cost { StepsAtMost (reply_look self.old.core) self.old.core self.new.core }
        ensures stays { Moves (λ s now. s) self.old self.new }
        ensures tape { self.new.tape ≡ self.old.tape }
        ensures moment { self.new.moment ≡ self.old.moment }
        ensures looks { LooksOnce self.old self.new }
    {
        self.looks.raise(1);
        let reply = self.core.udp_reply();
        sockets.reply(asked.socket, asked.caller.who.source, reply);
    }

    /// Has the reply to the last datagram wait, to who asked by it, if there is room for it. Returns whether it waits.
    pub(crate) fn hold_reply(&mut self, asked: Asked, replies: &mut Replies) -> bool
        ensures waits { IsTrue result
            → replies.new ≡ replies.old
            ++ waiting asked.socket asked.caller.who.source self.old.core.core.reply ∷ [] }
        ensures full { result ≡ false → replies.new ≡ replies.old }
        ensures core { OnlyBegins self.old.core.core self.new.core.core }
        ensures tape { self.new.tape ≡ self.old.tape }
        ensures moment { self.new.moment ≡ self.old.moment }
        ensures looks { LooksOnce self.old self.new }
    {
        self.looks.raise(1);
        let reply = self.core.udp_reply();
        replies.hold(asked.socket, asked.caller.who.source, reply)
    }

    /// Sets a row again that was kept, as its owner's SET of version 4 from this machine does. Returns whether it is set.
    pub(crate) fn restore(&mut self, row: &Row) -> bool
        ensures acts { ActsNow (set_again row.now) self.old self.new result }
        ensures recorded { RecordsEvent (λ now. set_call now row.now) self.old self.new }
        ensures priced { PricedNow (λ now. set_call now row.now) self.old self.new }
        ensures moment { self.new.moment ≡ self.old.moment }
        ensures looks { self.new.looks ≡ self.old.looks }
    {
        let before = self.core.changes();
        let call = set_call(row);
        self.answer(Caller::of_this_machine(), call.as_slice());
        before != self.core.changes()
    }

    /// Statistics begin anew.
    pub(crate) fn zero_stats(&mut self)
        ensures acts { Moves (λ s now. zero_stats s) self.old self.new }
        ensures recorded { RecordsEvent (λ now. ZeroStats) self.old self.new }
        ensures priced { PricedNow (λ now. ZeroStats) self.old self.new }
        ensures moment { self.new.moment ≡ self.old.moment }
        ensures looks { self.new.looks ≡ self.old.looks }
    {
        self.core.zero_stats();
        self.tape.record(&Event::ZeroStats, &Output::Done);
    }

    /// How many changes of rows were accepted.
    pub fn changes(&self) -> u64
        ensures changes { Shows StandsFor change_count self.now.core.core result }
    {
        self.core.changes()
    }

    /// The program and the version of the rows that the last `answer` or `exchange` changed, if it did.
    pub(crate) fn changed(&self) -> Option<(u32, u32)> {
        match self.core.seen() {
            Some(Seen::Change(change)) if change.refusal.is_none() => {
                Some((change.row.prog, change.row.vers))
            }
            _ => None,
        }
    }

    /// How many rows are set, the daemon's own among them. It goes through all of them.
    pub fn count_rows(&mut self) -> usize
        ensures count { Shows StandsFor row_count self.old.core.core result }
        ensures core { self.new.core.core ≡ self.old.core.core }
        ensures tape { self.new.tape ≡ self.old.tape }
        ensures moment { self.new.moment ≡ self.old.moment }
        ensures looks { LooksOnce self.old self.new }
    {
        self.looks.raise(1);
        count_rows(&mut self.core)
    }

    /// Writes the lines of all rows that were set.
    pub(crate) fn write_rows<W: Write>(&mut self, writer: &mut W) -> io::Result<()>
        ensures written { OnOk result
            (WritesKept self.old.core.core W.contents writer.old writer.new) }
        ensures clock { self.old.core.core.clock < 2 ^ 64 }
        ensures cost { StepsAtMost
            (2 * slot_count self.old.core.core + 1) self.old.core self.new.core }
        ensures core { self.new.core.core ≡ self.old.core.core }
        ensures tape { self.new.tape ≡ self.old.tape }
        ensures moment { self.new.moment ≡ self.old.moment }
        ensures looks { LooksOnce self.old self.new }
    {
        self.looks.raise(1);
        number_fits(self.core.clock());
        write_rows(&mut self.core, writer)
    }

    /// Writes the lines of what changed of a version of a program since these were the owners of the rows, which are those
    /// of the rows that are set then.
    pub(crate) fn write_change<W: Write>(
        &mut self,
        owners: &mut Owners,
        prog: u32,
        vers: u32,
        writer: &mut W,
    ) -> io::Result<()>
        ensures written { OnOk result (WritesChange
            self.old.core.core prog vers owners.old W.contents writer.old writer.new) }
        ensures owners { OnOk result
            (NotesOwners self.old.core.core prog vers owners.old owners.new) }
        ensures core { self.new.core.core ≡ self.old.core.core }
        ensures tape { self.new.tape ≡ self.old.tape }
        ensures moment { self.new.moment ≡ self.old.moment }
        ensures looks { LooksOnce self.old self.new }
    {
        self.looks.raise(1);
        write_change(&mut self.core, owners, prog, vers, writer)
    }

    // KEEP-16
    /// Takes a datagram in that came where forwarded calls are sent from, once all changes were kept. The answer is the
    /// connection that goes on.
    pub(crate) fn take_forward_reply<S: Datagrams>(
        &mut self,
        sender: Sender,
        content: &[u8],
        sockets: &mut S,
        ways: &mut WaysBack,
        kept: Kept,
    ) -> Option<u64>
        requires { Shows StandsFor change_count self.old.core.core kept.changes }
        ensures sent { HandsNow S.sends
            (λ s now. reply_after ways.old.all (forward_reply s now sender.peer content.now))
            self.old sockets.old sockets.new }
        ensures ways { ShowsNow
            (λ s now. ways_after ways.old (forward_reply s now sender.peer content.now))
            self.old ways.new }
        ensures acts { ActsNow (take_forward_reply sender.peer content.now)
            self.old self.new result }
        ensures recorded { RecordsEvent (λ now. Forward now sender.peer content.now) self.old self.new }
        ensures priced { PricedNow (λ now. Forward now sender.peer content.now) self.old self.new }
        ensures moment { self.new.moment ≡ self.old.moment }
        ensures looks { self.new.looks ≡ self.old.looks }
    {
        let from = sender.peer;
        let event = Event::Forward(self.moment, from, content);
        let Some(told) = self.core.forward_reply(self.moment, from, content) else {
            self.tape.record(&event, &Output::Ignored);
            return None;
        };
        tell(&mut self.core, &mut self.tape, &event, told, sockets, ways)
    }

    // KEEP-16
    /// Ends what is due first, once all changes were kept.
    pub fn expire<S: Datagrams>(&mut self, sockets: &mut S, ways: &mut WaysBack, kept: Kept) -> Due
        requires { Shows StandsFor change_count self.old.core.core kept.changes }
        ensures sent { HandsNow S.sends
            (λ s now. reply_due ways.old.all (expire s now)) self.old sockets.old sockets.new }
        ensures ways { ShowsNow (λ s now. ways_due ways.old (expire s now)) self.old ways.new }
        ensures acts { ActsNow expire_due self.old self.new result }
        ensures recorded { RecordsEvent (λ now. Expire now) self.old self.new }
        ensures priced { PricedNow (λ now. Expire now) self.old self.new }
        ensures moment { self.new.moment ≡ self.old.moment }
        ensures looks { self.new.looks ≡ self.old.looks }
    {
        let event = Event::Expire(self.moment);
        let told = match self.core.expire(self.moment) {
            Expired::Nothing => {
                self.tape.record(&event, &Output::Nothing);
                return Due::Nothing;
            }
            Expired::ConnectionLost(id) => {
                self.tape.record(&event, &Output::ConnectionLost(id));
                return Due::Closed(id);
            }
            Expired::Ended(told) => told,
        };
        let goes_on = tell(&mut self.core, &mut self.tape, &event, told, sockets, ways);
        match goes_on {
            Some(id) => Due::Ready(id),
            None => Due::Done,
        }
    }

    /// Sends the first forwarded call that must be sent. It counts as sent though no socket takes it.
    /// Returns its number, if there was one.
    pub fn send_forward<S: Datagrams>(&mut self, sockets: &mut S) -> Option<u64>
        ensures sent { HandsNow S.sends
            (λ s now. call_sent (unsent_call s)) self.old sockets.old sockets.new }
        ensures acts { ActsNow send_forward self.old self.new result }
        ensures recorded { RecordsEvents (λ s now. send_events s) self.old self.new }
        ensures moment { self.new.moment ≡ self.old.moment }
        ensures looks { self.new.looks ≡ self.old.looks }
    {
        let Some(unsent) = self.core.unsent() else {
            self.tape.record(&Event::Unsent, &Output::Unsent(None));
            return None;
        };
        let id = unsent.id;
        number_fits(id.number);
        record_unsent(&mut self.tape, id.number, unsent.target, unsent.call);
        sockets.call(unsent.target, unsent.call);
        let done = self.core.sent(id);
        self.tape.record(&Event::Sent(id.number), &show_done(done));
        Some(id.number)
    }
}
