//! A core with the meter that counts its steps.
ghost use Rattle.rb_core.specs.HeldBytes.{IsListener};

use crate::holding::Core;
use rb_address::{Netid, Peer, Who};
use rb_forward::{FwdId, Unsent};
use rb_model::{CoreFault, Exchanged, Expired, Given, Limits, Response, Standing, Taken, Told};
use rb_proto::Listener;
use rb_registry::{Cursor, Row};
use rb_serving::Seen;
use rb_xdr::Meter;
use std::alloc::Global;
use std::marker::Model;

/// Says what the types of a listener say of it.
fn check_listener(listener: &Listener)
    ensures { IsListener listener.now }
{
    let _port = listener.port;
    if let Some(path) = &listener.local {
        let _path = path.as_slice();
    }
}

/// A core and the meter that counts its steps: the calls of `Core`, each counted by that one meter.
///
/// A contract sees both, `core` as that of a `Core` and `meter` as that of a `Meter`.
#[derive(Drop)]
pub struct Metered {
    core: Core,
    meter: Meter,
}

impl Model for Metered {
    ghost use Rattle.rb_core.specs.Metered.{Metered as Pair, IsMetered};

    ghost Value = { Pair };

    ghost view = { λ m. record { core = m.core; meter = m.meter } };

    ghost invariant = { λ m. IsMetered m.core m.meter };
}

impl Metered {
    ghost use Rattle.std.specs.Prelude.{◌≡◌, ◌+◌, ◌*◌, ◌≤◌, ◌↔◌, length, Some, IsTrue, IfOk, IfErr, IfSome, IfNone, IsErrOf, OnErr, not};
    ghost use Rattle.std.specs.Borrow.{sem};
    ghost use Rattle.rb_xdr.specs.Meter.{PaysAtMost};
    ghost use Rattle.rb_answers.specs.Ledger.{rows_in};
    ghost use Rattle.rb_forward.specs.StandsFor.{longest_forwarded_call};
    ghost use Rattle.rb_forward.specs.Table.{plain_unsent};
    ghost use Rattle.rb_model.specs.State.{are_good, opening};
    ghost use Rattle.rb_model.specs.Calls.{longest_reply};
    ghost use Rattle.rb_model.specs.Connections.{longest_fragment};
    ghost use Rattle.rb_model.specs.Step.{datagram, open_connection, bytes, pending, gave, close_connection, next_lost, unsent_call, sent_call, zero_stats};
    ghost use Rattle.rb_model.specs.Step.Event.{Open, Bytes, Gave, Closed, NextLost, Datagram, Sent, Forward, Expire, ZeroStats};
    ghost use Rattle.rb_model.specs.Ending.{forward_reply, expire};
    ghost use Rattle.rb_model.specs.NextDeadlines.{next_deadline};
    ghost use Rattle.rb_model.specs.Exchanges.{count_given};
    ghost use Rattle.rb_model.specs.Gives.{given_in};
    ghost use Rattle.rb_model.specs.Standings.{as_done};
    ghost use Rattle.rb_model.specs.Bounds.{bytes_bound};
    ghost use Rattle.rb_connections.specs.Slots.{Shows, Lends};
    ghost use Rattle.rb_connections.specs.Giving.{pending_count};
    ghost use Rattle.rb_connections.specs.Costs.{look_cost};
    ghost use Rattle.rb_core.specs.StandsFor.{StandsFor};
    ghost use Rattle.rb_core.specs.HeldBytes.{held};
    ghost use Rattle.rb_core.specs.Memory.{KeepsMemory, LacksMemory};
    ghost use Rattle.rb_core.specs.Events.{count_shown, OnlyBegins, BeginsAt, TellsSteps};
    ghost use Rattle.rb_core.specs.Core.{TakesBytes};
    ghost use Rattle.rb_core.specs.Standings.{StandsThen, StandsAfterPiece, StandsBehind};
    ghost use Rattle.rb_core.specs.AtOnce.{CountsGiven, Exchanges};
    ghost use Rattle.rb_core.specs.Gives.{WritesInto};
    ghost use Rattle.rb_core.specs.CallCosts.{deadline_cost, making_cost, PaysForPlainRecord};
    ghost use Rattle.rb_core.specs.Looks.{rows_shown, StandsAmong, IsAtStart, row_behind, PassesOne, IsAtEnd, slot_count, slots_behind};
    ghost use Rattle.rb_core.specs.Lending.{LendsReply, LendsPending, LendsUnsent, LendsRow};
    ghost use Rattle.rb_core.specs.MeteredCalls.{Does, DoesWithReply, Priced, PricedWithLook, PricedExchange, PricedGiving, reply_look, StepsAtMost, StepsWithin, TakesWithin, ExchangesWithin, GivesWithin, StaysCheapIfQuiet, StepsForPlainDatagram, StepsForPlainExchange};

    /// Makes a core, as `Core::new`, and a meter for it that begins at 0. `BadLimits` if a limit is out of its range,
    /// or the rows have no room for the own ones and two more; else `NoMemory` if an allocation is refused.
    pub fn new(
        alloc: Global,
        limits: Limits,
        listener: Listener,
        first_xid: u32,
        now: u64,
    ) -> Result<Metered, CoreFault>
        ensures made { IfOk result
            (λ made. StandsFor made.core (opening limits listener first_xid now)) }
        ensures begun { IfOk result (λ made. made.core.steps_before ≡ count_shown made.meter) }
        ensures bad { IsErrOf result CoreFault.BadLimits ↔ IsTrue (not (are_good limits listener)) }
        ensures memory { IfErr result (LacksMemory limits listener) }
        ensures cost { IfOk result (λ made. made.meter.steps ≤ making_cost limits listener) }
    {
        Metered::counted_by(Meter::new(), alloc, limits, listener, first_xid, now)
    }

    /// As `new`, with a meter that counts on from where it stands. The making costs at most what `Core::new` does.
    pub fn counted_by(
        mut meter: Meter,
        alloc: Global,
        limits: Limits,
        listener: Listener,
        first_xid: u32,
        now: u64,
    ) -> Result<Metered, CoreFault>
        ensures made { IfOk result
            (λ made. StandsFor made.core (opening limits listener first_xid now)) }
        ensures begun { IfOk result (λ made. made.core.steps_before ≡ count_shown made.meter) }
        ensures bad { IsErrOf result CoreFault.BadLimits ↔ IsTrue (not (are_good limits listener)) }
        ensures memory { IfErr result (LacksMemory limits listener) }
        ensures cost { IfOk result
            (λ made. PaysAtMost meter made.meter (making_cost limits listener)) }
    {
        check_listener(&listener);
        let core = Core::new(alloc, limits, listener, first_xid, now, &mut meter)?;
        Ok(Metered { core, meter })
    }

    /// The meter, which has counted each call.
    pub fn into_meter(self) -> Meter
        ensures { result ≡ self.meter }
    {
        let Metered { core: _, meter } = self;
        meter
    }

    /// Answers a datagram from `who` at the moment `now`, as `Core::datagram`. At `Reply` the reply is lent by
    /// `udp_reply`. At `Forwarded` the call is forwarded, and its reply comes with `forward_reply` or `expire`. At
    /// `NoCall` and `Silent` there is none.
    pub fn datagram(&mut self, now: u64, who: Who, content: &[u8]) -> Response
        ensures acts { DoesWithReply (λ s. datagram s now who content.now) self.old self.new result }
        ensures begun { self.new.core.steps_before ≡ count_shown self.old.meter }
        ensures memory { KeepsMemory self.old.core self.new.core }
        ensures short { length self.new.core.reply ≤ longest_reply }
        ensures priced { PricedWithLook
            (reply_look self.new) (Datagram now who content.now) self.old self.new }
        ensures plain { StepsForPlainDatagram who content.now self.old self.new }
        ensures bound { StepsWithin (length content.now) 0 self.old self.new }
    {
        self.core.datagram(now, who, content, &mut self.meter)
    }

    /// The reply over UDP of the last `datagram`, `forward_reply` or `expire`, of at most 9,000 bytes; empty if it had
    /// none.
    pub fn udp_reply(&mut self) -> &[u8]
        ensures* begun { sem 𝓛 (LendsReply self.entry result.now) }
        ensures held { result.now ≡ self.old.core.reply }
        ensures reply { Shows StandsFor (λ s. s.reply) self.old.core result.now }
    {
        self.core.begin(&self.meter);
        self.core.lend_reply(&mut self.meter)
    }

    /// Opens a connection from `who` at the moment `now`, as `Core::open`, and returns its number. `Full` if there are
    /// as many connections as there may be, Lost ones among them, else `Spent` if no number is left.
    pub fn open(&mut self, now: u64, who: Who) -> Result<u64, CoreFault>
        ensures acts { Does (λ s. open_connection s now who) self.old self.new result }
        ensures refused { OnErr result (OnlyBegins self.old.core self.new.core) }
        ensures begun { self.new.core.steps_before ≡ count_shown self.old.meter }
        ensures memory { KeepsMemory self.old.core self.new.core }
        ensures priced { Priced (Open now who) self.old self.new }
        ensures bound { StepsWithin 0 0 self.old self.new }
    {
        self.core.open(now, who, &mut self.meter)
    }

    /// Takes bytes that arrive on a connection at the moment `now`, at most up to the end of a record (RFC 5531 section
    /// 11), which is answered. Returns how many were taken and where the connection stands then: Lost if the record is
    /// no call, `Sends` if its call is forwarded. Takes none while a reply is owed or awaited. `Gone` if there is no
    /// such connection, or it is Lost.
    pub fn bytes(&mut self, now: u64, id: u64, piece: &[u8]) -> Result<(Taken, Standing), CoreFault>
        ensures acts { TakesBytes now id piece.now self.old.core self.new.core result }
        ensures stands { IfOk result (λ done. StandsBehind id done.0.count self.new.core done.1) }
        ensures within { IfOk result (λ done. done.0.count ≤ length piece.now) }
        ensures refused { OnErr result (OnlyBegins self.old.core self.new.core) }
        ensures begun { self.new.core.steps_before ≡ count_shown self.old.meter }
        ensures memory { KeepsMemory self.old.core self.new.core }
        ensures priced { Priced (Bytes now id piece.now) self.old self.new }
        ensures plain { PaysForPlainRecord self.old.core
            id piece.now 0 self.old.meter self.new.meter }
        ensures bound { TakesWithin self.old self.new result }
        ensures quiet { StaysCheapIfQuiet id piece.now self.old self.new result }
    {
        let Exchanged {
            taken,
            given: _,
            standing,
        } = self
            .core
            .exchange(now, id, piece, &mut [], &mut self.meter)?;
        Ok((taken, standing))
    }

    /// Takes bytes as `bytes` does, and gives a reply of one fragment at once, as `Core::exchange`: if `room` has place
    /// for the longest, 1,028 bytes, the reply is written there and counts as given. `Gone` as in `bytes`.
    pub fn exchange(
        &mut self,
        now: u64,
        id: u64,
        piece: &[u8],
        room: &mut [u8],
    ) -> Result<Exchanged, CoreFault>
        ensures acts { Exchanges now id piece.now self.old.core self.new.core result room.new }
        ensures count { CountsGiven now id piece.now room.old self.old.core result }
        ensures stands { IfOk result (StandsAfterPiece id self.new.core) }
        ensures fits { count_given result ≤ length room.new }
        ensures within { IfOk result (λ done. done.taken.count ≤ length piece.now) }
        ensures refused { OnErr result (OnlyBegins self.old.core self.new.core) }
        ensures begun { self.new.core.steps_before ≡ count_shown self.old.meter }
        ensures memory { KeepsMemory self.old.core self.new.core }
        ensures priced { PricedExchange
            now id piece.now (length room.old) self.old self.new result }
        ensures plain { StepsForPlainExchange id piece.now room.old self.old self.new result }
        ensures bound { ExchangesWithin self.old self.new result }
    {
        self.core.exchange(now, id, piece, room, &mut self.meter)
    }

    /// The number of bytes that are pending on a connection. `Gone` if there is no such connection, or it is Lost.
    pub fn pending_len(&mut self, id: u64) -> Result<usize, CoreFault>
        ensures len { Shows StandsFor (λ s. pending_count (pending s id)) self.old.core result }
        ensures stays { self.new.core ≡ self.old.core }
        ensures cost { StepsAtMost (look_cost self.old.core.connections + 1) self.old self.new }
        ensures bound { StepsWithin 0 0 self.old self.new }
    {
        self.core.pending_len(id, &mut self.meter)
    }

    /// The rest of the current fragment of the reply that a connection owes (RFC 5531 section 11), at most 1,028 bytes;
    /// empty if it owes none. `Gone` if there is no such connection, or it is Lost.
    pub fn pending(&mut self, id: u64) -> Result<&[u8], CoreFault>
        ensures* begun { sem 𝓛 (LendsPending id self.entry result) }
        ensures lent { Lends StandsFor (λ s. pending s id) self.old.core result }
        ensures few { IfOk result (λ bytes. length bytes.now ≤ longest_fragment) }
    {
        self.core.begin(&self.meter);
        self.core.lend_pending(id, &mut self.meter)
    }

    /// Records that `n` pending bytes were given at the moment `now`, or all if fewer are pending, as `Core::gave`, and
    /// returns where the connection stands then. `Gone` if there is no such connection, or it is Lost.
    pub fn gave(&mut self, now: u64, id: u64, n: usize) -> Result<Standing, CoreFault>
        ensures acts { Does (λ s. gave s now id n) self.old self.new (as_done result) }
        ensures stands { IfOk result (StandsThen id self.new.core) }
        ensures refused { OnErr result (OnlyBegins self.old.core self.new.core) }
        ensures begun { self.new.core.steps_before ≡ count_shown self.old.meter }
        ensures memory { KeepsMemory self.old.core self.new.core }
        ensures priced { PricedWithLook
            (look_cost self.old.core.connections + 1) (Gave now id n) self.old self.new }
        ensures bound { StepsWithin 0 0 self.old self.new }
    {
        self.core.gave(now, id, n, &mut self.meter)
    }

    /// Gives the reply that a connection owes into `room` at the moment `now`, as `Core::write_into`: as many whole
    /// fragments as fit, of which the longest is 1,028 bytes. Returns how many bytes, and where the connection stands
    /// then. `Gone` if there is no such connection, or it is Lost.
    pub fn write_into(&mut self, now: u64, id: u64, room: &mut [u8]) -> Result<Given, CoreFault>
        ensures acts { WritesInto now id self.old.core self.new.core room.new result }
        ensures within { given_in result ≤ length room.new }
        ensures nothing { given_in result ≡ 0 → OnlyBegins self.old.core self.new.core }
        ensures stands { IfOk result (λ done. StandsThen id self.new.core done.standing) }
        ensures refused { OnErr result (OnlyBegins self.old.core self.new.core) }
        ensures begun { self.new.core.steps_before ≡ count_shown self.old.meter }
        ensures memory { KeepsMemory self.old.core self.new.core }
        ensures priced { PricedGiving id self.old self.new result }
        ensures bound { GivesWithin (given_in result) self.old self.new }
    {
        self.core.write_into(now, id, room, &mut self.meter)
    }

    /// Removes a connection that was closed, live or Lost, and drops its forwarded call. `Gone` if there is none of
    /// that number.
    pub fn closed(&mut self, id: u64) -> Result<(), CoreFault>
        ensures acts { Does (λ s. close_connection s id) self.old self.new result }
        ensures refused { OnErr result (OnlyBegins self.old.core self.new.core) }
        ensures begun { self.new.core.steps_before ≡ count_shown self.old.meter }
        ensures memory { KeepsMemory self.old.core self.new.core }
        ensures priced { Priced (Closed id) self.old self.new }
        ensures bound { StepsWithin 0 0 self.old self.new }
    {
        self.core.closed(id, &mut self.meter)
    }

    /// The least number of a Lost connection, which the caller must close; `None` if none is Lost.
    pub fn next_lost(&mut self) -> Option<u64>
        ensures begun { BeginsAt self.old.meter self.old.core self.new.core }
        ensures lost { Shows StandsFor next_lost self.old.core result }
        ensures priced { Priced NextLost self.old self.new }
        ensures bound { StepsWithin 0 0 self.old self.new }
    {
        self.core.next_lost(&mut self.meter)
    }

    /// The forwarded call to be sent next: the unsent one of least number, whether or not its deadline has come, with at
    /// most 8,840 bytes. `None` if all are sent (RFC 1833 sections 2.2.1 and 3.2).
    pub fn unsent(&mut self) -> Option<Unsent<'_>>
        ensures* begun { sem 𝓛 (LendsUnsent self.entry result) }
        ensures unsent { Shows StandsFor unsent_call self.old.core (plain_unsent result) }
        ensures few { IfSome result (λ lent. length lent.call.now ≤ longest_forwarded_call) }
    {
        self.core.begin(&self.meter);
        self.core.lend_unsent(&mut self.meter)
    }

    /// Records that the forwarded call of this number was sent: from now on a reply to it counts. `Gone` if there is
    /// no such call, or it was sent before.
    pub fn sent(&mut self, id: FwdId) -> Result<(), CoreFault>
        ensures acts { Does (λ s. sent_call s id.number) self.old self.new result }
        ensures refused { OnErr result (OnlyBegins self.old.core self.new.core) }
        ensures begun { self.new.core.steps_before ≡ count_shown self.old.meter }
        ensures memory { KeepsMemory self.old.core self.new.core }
        ensures priced { Priced (Sent id.number) self.old self.new }
        ensures bound { StepsWithin 0 0 self.old self.new }
    {
        self.core.sent(id, &mut self.meter)
    }

    /// Takes a datagram from `from`, at the moment `now`, on the socket that sends forwarded calls, as
    /// `Core::forward_reply`. `None` if it is no reply to a call that was sent there and whose deadline is later than
    /// `now`; it is ignored.
    pub fn forward_reply(&mut self, now: u64, from: Peer, bytes: &[u8]) -> Option<Told>
        ensures acts { Does (λ s. forward_reply s now from bytes.now) self.old self.new result }
        ensures begun { self.new.core.steps_before ≡ count_shown self.old.meter }
        ensures memory { KeepsMemory self.old.core self.new.core }
        ensures short { length self.new.core.reply ≤ longest_reply }
        ensures priced { PricedWithLook
            (reply_look self.new) (Forward now from bytes.now) self.old self.new }
        ensures bound { StepsWithin (length bytes.now) 0 self.old self.new }
    {
        self.core.forward_reply(now, from, bytes, &mut self.meter)
    }

    /// Does one thing that is due at the moment `now`, as `Core::expire`. `Nothing` if nothing is due. Call it until it
    /// answers `Nothing`.
    pub fn expire(&mut self, now: u64) -> Expired
        ensures acts { Does (λ s. expire s now) self.old self.new result }
        ensures begun { self.new.core.steps_before ≡ count_shown self.old.meter }
        ensures memory { KeepsMemory self.old.core self.new.core }
        ensures short { length self.new.core.reply ≤ longest_reply }
        ensures priced { PricedWithLook (reply_look self.new) (Expire now) self.old self.new }
        ensures bound { StepsWithin 0 0 self.old self.new }
    {
        self.core.expire(now, &mut self.meter)
    }

    /// The moment from which `expire` finds something, as `Core::next_deadline`. Before it `expire` finds nothing, and
    /// never if there is none.
    pub fn next_deadline(&mut self) -> Option<u64>
        ensures begun { BeginsAt self.old.meter self.old.core self.new.core }
        ensures soonest { Shows StandsFor next_deadline self.old.core result }
        ensures cost { StepsAtMost (deadline_cost self.old.core) self.old self.new }
        ensures bound { StepsWithin 0 0 self.old self.new }
    {
        self.core.next_deadline(&mut self.meter)
    }

    /// Statistics begin anew: nothing was called. Nothing else changes. It costs at most 2 steps for each of 192 keys,
    /// and 1.
    pub fn zero_stats(&mut self)
        ensures acts { Does (λ s. (tt {0}, zero_stats s)) self.old self.new (tt {0}) }
        ensures begun { self.new.core.steps_before ≡ count_shown self.old.meter }
        ensures memory { KeepsMemory self.old.core self.new.core }
        ensures priced { Priced ZeroStats self.old self.new }
        ensures bound { StepsWithin 0 0 self.old self.new }
    {
        self.core.zero_stats(&mut self.meter);
    }

    /// How many bytes are held, as `Core::held` counts them: at most `bytes_bound`.
    pub fn held(&self) -> u64
        ensures value { result ≡ held self.now.core }
        ensures few { held self.now.core ≤ bytes_bound self.now.core.setting.limits }
    {
        self.core.held()
    }

    /// How many steps the last event took, and the looks since: what the meter counted since the last call that is an
    /// event or lends began, also if it was refused. It is right while the count is below 2^128 - 1.
    pub fn steps(&self) -> u128
        ensures { TellsSteps self.now.core self.now.meter result }
    {
        self.core.steps(&self.meter)
    }

    /// How many steps were counted so far, those of `new` among them, or 2^128 - 1 if they are more.
    pub fn count(&self) -> u128
        ensures { result ≡ count_shown self.now.meter }
    {
        self.meter.count()
    }

    /// The bound that `held` never passes, in bytes, by the limits alone.
    pub fn bytes_bound(&self) -> u64
        ensures { result ≡ bytes_bound self.now.core.setting.limits }
    {
        self.core.bytes_bound()
    }

    /// What there is to tell of the call that the last `datagram`, `bytes` or `exchange` brought whole, if anything.
    pub fn seen(&self) -> Option<&Seen> {
        self.core.seen()
    }

    /// How many changes were accepted so far: rows set, and removals of at least one row.
    pub fn changes(&self) -> u64
        ensures { Shows StandsFor (λ s. length s.ledger.changes) self.now.core result }
    {
        self.core.changes()
    }

    /// The greatest moment of the events so far, in milliseconds since the start of 1970.
    pub fn clock(&self) -> u64
        ensures value { result ≡ self.now.core.clock }
        ensures clock { Shows StandsFor (λ s. s.clock) self.now.core result }
    {
        self.core.clock()
    }

    /// The place before the first live row.
    pub fn first_place(&self) -> Cursor
        ensures place { StandsAmong self.now.core result }
        ensures start { IsAtStart self.now.core result }
        ensures all { slots_behind self.now.core result ≡ slot_count self.now.core }
    {
        self.core.first_place()
    }

    /// The live row after the cursor, and the cursor moves on after it; it stays if there is
    /// none. From `first_place` on each row comes once, and then `None`, if no event comes between.
    pub fn next_row(&mut self, cursor: &mut Cursor) -> Option<&Row>
        requires { StandsAmong self.old.core cursor.old }
        ensures* stays { sem 𝓛 (LendsRow self.entry cursor.old cursor.new result) }
        ensures row { IfSome result (λ row. row_behind self.old.core cursor.old ≡ Some row.now) }
        ensures place { StandsAmong self.old.core cursor.new }
        ensures passed { IfSome result (λ row. PassesOne self.old.core cursor.old cursor.new) }
        ensures end { IfNone result (IsAtEnd self.old.core cursor.new) }
        ensures unmoved { IfNone result (cursor.new ≡ cursor.old) }
        ensures rows { Shows StandsFor (λ s. rows_in s.ledger)
            self.old.core (rows_shown self.old.core) }
    {
        self.core.lend_row(cursor, &mut self.meter)
    }
}

impl Metered {
    ghost use Rattle.std.specs.Prelude.{◌≡◌, ◌+◌};
    ghost use Rattle.rb_xdr.specs.Ordered.{looks};
    ghost use Rattle.rb_registry.specs.Rows.{find_exact};
    ghost use Rattle.rb_core.specs.Looks.{rows_held, rows_shown};
    ghost use Rattle.rb_core.specs.MeteredCalls.{StepsAtMost, StepsWithin};

    /// The live row of this version of the program on the netid, if there is one, as `Core::row_at`.
    pub fn row_at(&mut self, prog: u32, vers: u32, netid: Netid) -> Option<Row>
        ensures row { result ≡ find_exact prog vers netid (rows_shown self.old.core) }
        ensures stays { self.new.core ≡ self.old.core }
        ensures cost { StepsAtMost (looks (rows_held self.old.core).limit + 1) self.old self.new }
        ensures bound { StepsWithin 0 0 self.old self.new }
    {
        self.core.row_at(prog, vers, netid, &mut self.meter)
    }
}
