//! The calls of a core: each is one event, or says how one went.
use crate::calls::{
    Piece, Surroundings, lend_arguments, serve_verdict, standing_behind, take_piece, write_at_once,
};
use crate::holding::Core;
use rb_address::{Caller, Peer, Who};
use rb_connections::{EndedRecord, Received};
use rb_forward::{Ended, FwdId, sooner};
use rb_model::{CoreFault, Exchanged, Expired, Response, Served, Standing, Taken, Told};
use rb_rpc::read_call;
use rb_serving::{Seen, arguments_behind, forget, longest_to, put_end};
use rb_xdr::Meter;

impl Core {
    ghost use Rattle.std.specs.Prelude.{◌≡◌, ◌≤◌, [], false, length, IfOk, OnErr};
    ghost use Rattle.rb_xdr.specs.Meter.{PaysAtMost};
    ghost use Rattle.rb_model.specs.Calls.{longest_reply};
    ghost use Rattle.rb_forward.specs.Costs.{sent_cost};
    ghost use Rattle.rb_forward.specs.Outcomes.{PassesWithin};
    ghost use Rattle.rb_forward.specs.StandsFor.{slots_of};
    ghost use Rattle.rb_forward.specs.Table.{is_waiting, IsNew};
    ghost use Rattle.rb_model.specs.Step.{datagram, open_connection, gave, close_connection, next_lost, sent_call};
    ghost use Rattle.rb_model.specs.Ending.{forward_reply, expire_connection, expire};
    ghost use Rattle.rb_connections.specs.Awaits.{IsIdleSince};
    ghost use Rattle.rb_core.specs.Events.{count_shown, OnlyBegins, BeginsAt, TellsSteps};
    ghost use Rattle.rb_connections.specs.Slots.{Acts, Shows};
    ghost use Rattle.rb_core.specs.StandsFor.{StandsFor};
    ghost use Rattle.rb_core.specs.Core.{ActsWithReply, TellsCaller};
    ghost use Rattle.rb_core.specs.Memory.{KeepsMemory};
    ghost use Rattle.rb_model.specs.Exchanges.{count_given};
    ghost use Rattle.rb_model.specs.Standings.{as_done};
    ghost use Rattle.rb_core.specs.Standings.{StandsThen, StandsAfterPiece};
    ghost use Rattle.rb_core.specs.AtOnce.{AnswersGiving, CountsGiven, Exchanges, GivesAtOnce};
    ghost use Rattle.rb_core.specs.CallCosts.{sizes_of, PaysForDatagram, PaysForExchange, PaysToAnswer, PaysToGive};
    ghost use Rattle.rb_connections.specs.Costs.{look_cost, slot_count};
    ghost use Rattle.rb_model.specs.Costs.{close_cost, ended_cost, tell_cost};

    /// Answers a datagram from `who` at the moment `now` (RFC 5531 section 9, RFC 1833 sections 2.2 and 3.2). At
    /// `Reply` the reply is lent by `udp_reply`, of at most 9,000 bytes. At `Forwarded` the call is forwarded, and its
    /// reply comes with `forward_reply` or `expire`. At `NoCall` and `Silent` there is none.
    pub fn datagram(&mut self, now: u64, who: Who, content: &[u8], meter: &mut Meter) -> Response
        requires { meter.old.tie ≡ self.old.tie }
        ensures acts { ActsWithReply (λ s. datagram s now who content.now) self.old self.new result }
        ensures tie { self.new.tie ≡ self.old.tie }
        ensures memory { KeepsMemory self.old self.new }
        ensures begun { self.new.steps_before ≡ count_shown meter.old }
        ensures short { length self.new.reply ≤ longest_reply }
        ensures cost { PaysForDatagram self.old self.new who content.now meter.old meter.new }
    {
        self.steps_before = meter.count();
        forget(&mut self.seen);
        self.clock = self.clock.max(now);
        let longest = longest_to(&self.listener.terms, &who, content.len());
        self.reply.clear(meter);
        let verdict = read_call(content);
        let arguments = arguments_behind(verdict, content);
        let surroundings = Surroundings {
            limits: &self.limits,
            listener: &self.listener,
            clock: self.clock,
            caller: Caller::Udp(who, longest),
        };
        let served = serve_verdict(
            &mut self.connections,
            &mut self.books,
            surroundings,
            &verdict,
            arguments,
            &mut self.seen,
            &mut self.reply,
            meter,
        );
        self.reply_len = self.reply.len(meter) as u64;
        match served {
            Served::Answered(outcome) => outcome,
            Served::Listed(_, _) => unreachable!(),
        }
    }

    /// Opens a connection from `who` at the moment `now`, and returns its number; the first is 1, and none recurs.
    /// `Full` if there are as many connections as there may be, Lost ones among them, else `Spent` if no number is
    /// left.
    pub fn open(&mut self, now: u64, who: Who, meter: &mut Meter) -> Result<u64, CoreFault>
        requires { meter.old.tie ≡ self.old.tie }
        ensures acts { Acts StandsFor (λ s. open_connection s now who) self.old self.new result }
        ensures refused { OnErr result (OnlyBegins self.old self.new) }
        ensures tie { self.new.tie ≡ self.old.tie }
        ensures memory { KeepsMemory self.old self.new }
        ensures begun { self.new.steps_before ≡ count_shown meter.old }
        ensures cost { PaysAtMost meter.old meter.new 4 }
    {
        self.steps_before = meter.count();
        let clock = self.clock.max(now);
        let number = self.connections.open(clock, who, meter)?;
        self.clock = clock;
        Ok(number)
    }

    /// Takes bytes that arrive on a connection at the moment `now`, at most up to the end of a record (RFC 5531 section
    /// 11), which is answered, and returns where the connection stands then: Lost if the record is no call, `Sends`
    /// if its call is forwarded. Takes none while a reply is owed or awaited. If the reply is one fragment and no list,
    /// and `room` has place for the longest fragment, 1,028 bytes, it is written there and counts as given. So one call
    /// is up to two events, `bytes` and `gave`. `Gone` if there is no such connection, or it is Lost.
    pub fn exchange(
        &mut self,
        now: u64,
        id: u64,
        piece: &[u8],
        room: &mut [u8],
        meter: &mut Meter,
    ) -> Result<Exchanged, CoreFault>
        requires { meter.old.tie ≡ self.old.tie }
        ensures acts { Exchanges now id piece.now self.old self.new result room.new }
        ensures count { CountsGiven now id piece.now room.old self.old result }
        ensures stands { IfOk result (StandsAfterPiece id self.new) }
        ensures fits { count_given result ≤ length room.new }
        ensures within { IfOk result (λ done. done.taken.count ≤ length piece.now) }
        ensures refused { OnErr result (OnlyBegins self.old self.new) }
        ensures tie { self.new.tie ≡ self.old.tie }
        ensures memory { KeepsMemory self.old self.new }
        ensures begun { self.new.steps_before ≡ count_shown meter.old }
        ensures same_meter { meter.new.tie ≡ meter.old.tie }
        ensures cost { PaysForExchange
            self.old self.new id piece.now room.old result meter.old meter.new }
    {
        self.steps_before = meter.count();
        forget(&mut self.seen);
        let clock = self.clock.max(now);
        let buffer = &mut self.arguments;
        let got = take_piece(&mut self.connections, id, piece, clock, buffer, meter)?;
        self.clock = clock;
        let Piece {
            received: Received { count, ended },
            arguments,
            standing,
        } = got;
        let Some(ended) = ended else {
            let lost = false;
            return Ok(Exchanged {
                taken: Taken { count, lost },
                given: 0,
                standing: standing_behind(count, standing),
            });
        };
        let (lost, given, left) = self.answer(id, ended, arguments, room, meter);
        Ok(Exchanged {
            taken: Taken { count, lost },
            given,
            standing: standing_behind(count, left),
        })
    }

    /// Answers the record that ended on a connection, and lets the connection go on. Its arguments are `lent` if they
    /// lie in the piece, and else in the core's buffer, which is empty after it. Returns whether the connection is Lost
    /// now, and how many bytes of the reply were given at once.
    #[tactic(auto, unfolding(rb_model::specs::Calls::longest_reply, rb_model::specs::Calls::longest_kept, rb_connections::specs::StandsFor::buffer_size))]
    fn answer(
        &mut self,
        id: u64,
        ended: EndedRecord,
        lent: Option<&[u8]>,
        room: &mut [u8],
        meter: &mut Meter,
    ) -> (bool, usize, Standing)
        requires tie { meter.old.tie ≡ self.old.tie }
        requires idle { IsIdleSince id self.old.clock self.old.connections }
        requires caller { is_waiting id (slots_of self.old.books.forwards) ≡ false }
        ensures acts { AnswersGiving id ended lent.entry
            self.old self.new (result.0, result.1) room.new }
        ensures stands { StandsThen id self.new result.2 }
        ensures within { result.1 ≤ length room.new }
        ensures count { GivesAtOnce room.old id ended lent.entry self.old result.1 }
        ensures tie { self.new.tie ≡ self.old.tie }
        ensures memory { KeepsMemory self.old self.new }
        ensures begun { self.new.steps_before ≡ self.old.steps_before }
        ensures cost { PaysToAnswer ended
            self.old self.new lent.entry room.old result.1 meter.old meter.new }
    {
        let surroundings = Surroundings {
            limits: &self.limits,
            listener: &self.listener,
            clock: self.clock,
            caller: Caller::Tcp(id, ended.who),
        };
        let arguments = lend_arguments(lent, &self.arguments, meter);
        let served = serve_verdict(
            &mut self.connections,
            &mut self.books,
            surroundings,
            &ended.verdict,
            arguments,
            &mut self.seen,
            &mut self.draft,
            meter,
        );
        self.arguments.clear(meter);
        let given = write_at_once(served, &mut self.draft, room, meter);
        if given > 0 {
            // It is Idle since this moment, and stays so.
            return (false, given, Standing::Idle);
        }
        let standing = self.connections.settle(
            id,
            served,
            self.clock,
            &self.books.registry,
            &mut self.draft,
            meter,
        );
        (served.is_no_call(), 0, standing)
    }

    /// Records that `n` pending bytes were given at the moment `now`, or all if fewer are pending, and returns where
    /// the connection stands then. `Gone` if there is no such connection, or it is Lost. However great `n` is, it costs
    /// no more than if nothing was given.
    pub fn gave(
        &mut self,
        now: u64,
        id: u64,
        n: usize,
        meter: &mut Meter,
    ) -> Result<Standing, CoreFault>
        requires { meter.old.tie ≡ self.old.tie }
        ensures acts { Acts StandsFor (λ s. gave s now id n) self.old self.new (as_done result) }
        ensures stands { IfOk result (StandsThen id self.new) }
        ensures refused { OnErr result (OnlyBegins self.old self.new) }
        ensures tie { self.new.tie ≡ self.old.tie }
        ensures memory { KeepsMemory self.old self.new }
        ensures begun { self.new.steps_before ≡ count_shown meter.old }
        ensures same_meter { meter.new.tie ≡ meter.old.tie }
        ensures cost { PaysToGive self.old id meter.old meter.new }
    {
        self.steps_before = meter.count();
        let clock = self.clock.max(now);
        let standing = self
            .connections
            .gave(id, n, clock, &self.books.registry, &mut self.draft, meter)?;
        self.clock = clock;
        Ok(standing)
    }

    /// Removes a connection that was closed, live or Lost, and drops its forwarded call. `Gone` if there is none of
    /// that number.
    pub fn closed(&mut self, id: u64, meter: &mut Meter) -> Result<(), CoreFault>
        requires { meter.old.tie ≡ self.old.tie }
        ensures acts { Acts StandsFor (λ s. close_connection s id) self.old self.new result }
        ensures refused { OnErr result (OnlyBegins self.old self.new) }
        ensures tie { self.new.tie ≡ self.old.tie }
        ensures memory { KeepsMemory self.old self.new }
        ensures begun { self.new.steps_before ≡ count_shown meter.old }
        ensures cost { PaysAtMost meter.old meter.new (close_cost (sizes_of self.old self.new)) }
    {
        self.steps_before = meter.count();
        self.connections.close(id, meter)?;
        self.books.drop_caller(id, meter);
        Ok(())
    }

    /// The least number of a Lost connection, which the caller must close; `None` if none is Lost.
    pub fn next_lost(&mut self, meter: &mut Meter) -> Option<u64>
        requires { meter.old.tie ≡ self.old.tie }
        ensures begun { BeginsAt meter.old self.old self.new }
        ensures lost { Shows StandsFor next_lost self.old result }
        ensures cost { PaysAtMost meter.old meter.new (look_cost self.old.connections) }
    {
        self.steps_before = meter.count();
        self.connections.next_lost(meter)
    }

    /// Records that the forwarded call of this number was sent: from now on a reply to it counts. `Gone` if there is
    /// no such call, or it was sent before.
    pub fn sent(&mut self, id: FwdId, meter: &mut Meter) -> Result<(), CoreFault>
        requires { meter.old.tie ≡ self.old.tie }
        ensures acts { Acts StandsFor (λ s. sent_call s id.number) self.old self.new result }
        ensures refused { OnErr result (OnlyBegins self.old self.new) }
        ensures tie { self.new.tie ≡ self.old.tie }
        ensures memory { KeepsMemory self.old self.new }
        ensures begun { self.new.steps_before ≡ count_shown meter.old }
        ensures cost { PaysAtMost meter.old meter.new (sent_cost self.old.books.forwards.cap) }
    {
        self.steps_before = meter.count();
        let Ok(()) = self.books.sent(id, meter) else {
            return Err(CoreFault::Gone);
        };
        Ok(())
    }

    /// Takes a datagram from `from`, at the moment `now`, on the socket that sends forwarded calls. A reply to a call
    /// that was sent there and whose deadline is later than `now` ends that call, and its caller gets what `Told` says.
    /// `None` if it is no such reply; it is ignored.
    pub fn forward_reply(
        &mut self,
        now: u64,
        from: Peer,
        bytes: &[u8],
        meter: &mut Meter,
    ) -> Option<Told>
        requires { meter.old.tie ≡ self.old.tie }
        ensures acts { Acts StandsFor (λ s. forward_reply s now from bytes.now) self.old self.new result }
        ensures tie { self.new.tie ≡ self.old.tie }
        ensures memory { KeepsMemory self.old self.new }
        ensures begun { self.new.steps_before ≡ count_shown meter.old }
        ensures short { length self.new.reply ≤ longest_reply }
        ensures cost { PaysAtMost meter.old meter.new (ended_cost (sizes_of self.old self.new)) }
    {
        self.steps_before = meter.count();
        self.clock = self.clock.max(now);
        self.reply.clear(meter);
        self.reply_len = 0;
        let Some(ended) = self.books.reply(self.clock, from, bytes, meter) else {
            return None;
        };
        Some(self.tell(&ended, bytes, meter))
    }

    /// Does one thing that is due at the moment `now`: ends the due forwarded call of least number, or if there is
    /// none, makes the due connection of least number Lost. Call it until it answers `Nothing`: then nothing is due.
    pub fn expire(&mut self, now: u64, meter: &mut Meter) -> Expired
        requires { meter.old.tie ≡ self.old.tie }
        ensures acts { Acts StandsFor (λ s. expire s now) self.old self.new result }
        ensures tie { self.new.tie ≡ self.old.tie }
        ensures memory { KeepsMemory self.old self.new }
        ensures begun { self.new.steps_before ≡ count_shown meter.old }
        ensures short { length self.new.reply ≤ longest_reply }
        ensures cost { PaysAtMost meter.old meter.new (ended_cost (sizes_of self.old self.new)) }
    {
        self.steps_before = meter.count();
        self.clock = self.clock.max(now);
        self.reply.clear(meter);
        self.reply_len = 0;
        let Some(ended) = self.books.due(self.clock, meter) else {
            return self.expire_connection(meter);
        };
        Expired::Ended(self.tell(&ended, &[], meter))
    }

    /// Makes the due connection of least number Lost, if there is one.
    fn expire_connection(&mut self, meter: &mut Meter) -> Expired
        requires { meter.old.tie ≡ self.old.tie }
        ensures acts { Acts StandsFor expire_connection self.old self.new result }
        ensures tie { self.new.tie ≡ self.old.tie }
        ensures memory { KeepsMemory self.old self.new }
        ensures begun { self.new.steps_before ≡ self.old.steps_before }
        ensures reply { self.new.reply ≡ self.old.reply }
        ensures cost { PaysAtMost meter.old meter.new (look_cost self.old.connections) }
    {
        match self.connections.expire(self.clock, meter) {
            Some(id) => Expired::ConnectionLost(id),
            None => Expired::Nothing,
        }
    }

    /// How many steps the meter counted since the last call with `&mut self` began, one that was refused too. It is right
    /// while the count of the meter is below 2^128 - 1.
    pub fn steps(&self, meter: &Meter) -> u128
        requires { meter.now.tie ≡ self.now.tie }
        ensures { TellsSteps self.now meter.now result }
    {
        meter.count().saturating_sub(self.steps_before)
    }

    /// Tells the caller of a forwarded call how it ended; `message` is the datagram that ended it.
    #[tactic(auto, unfolding(rb_model::specs::Calls::longest_reply, rb_model::specs::Calls::longest_kept, rb_connections::specs::StandsFor::buffer_size))]
    fn tell(&mut self, ended: &Ended, message: &[u8], meter: &mut Meter) -> Told
        requires tie { meter.old.tie ≡ self.old.tie }
        requires empty { self.old.reply ≡ [] }
        requires within { PassesWithin ended.now.outcome (length message.now) }
        requires alone { IsNew ended.now.forward.caller (slots_of self.old.books.forwards) }
        ensures acts { TellsCaller message.now ended.now self.old self.new result }
        ensures tie { self.new.tie ≡ self.old.tie }
        ensures memory { KeepsMemory self.old self.new }
        ensures begun { self.new.steps_before ≡ self.old.steps_before }
        ensures short { length self.new.reply ≤ longest_reply }
        ensures cost { PaysAtMost meter.old meter.new (tell_cost (slot_count self.old.connections)) }
    {
        match ended.forward.caller {
            Caller::Tcp(id, _) => {
                let outcome = put_end(ended, message, &mut self.draft, meter);
                self.connections.settle(
                    id,
                    Served::Answered(outcome),
                    self.clock,
                    &self.books.registry,
                    &mut self.draft,
                    meter,
                );
                Told::TcpReady(id)
            }
            Caller::Udp(who, _) => {
                let outcome = put_end(ended, message, &mut self.reply, meter);
                self.reply_len = self.reply.len(meter) as u64;
                match outcome {
                    Response::Reply => Told::Datagram(ended.id, who),
                    Response::NoCall | Response::Forwarded | Response::Silent => {
                        Told::Silent(ended.id)
                    }
                }
            }
        }
    }
}

impl Core {
    ghost use Rattle.std.specs.Prelude.{◌≡◌};
    ghost use Rattle.rb_xdr.specs.Meter.{PaysAtMost};
    ghost use Rattle.rb_model.specs.NextDeadlines.{next_deadline};
    ghost use Rattle.rb_connections.specs.Slots.{Acts, Shows};
    ghost use Rattle.rb_core.specs.CallCosts.{deadline_cost};
    ghost use Rattle.rb_core.specs.StandsFor.{StandsFor};
    ghost use Rattle.rb_answers.specs.Costs.{zero_cost};
    ghost use Rattle.rb_model.specs.Step.{zero_stats};
    ghost use Rattle.rb_core.specs.Memory.{KeepsMemory};
    ghost use Rattle.rb_core.specs.Events.{count_shown, BeginsAt};

    /// Statistics begin anew: nothing was called. Nothing else changes. At most 2 steps for each of 192 keys, and 1.
    pub fn zero_stats(&mut self, meter: &mut Meter)
        requires { meter.old.tie ≡ self.old.tie }
        ensures acts { Acts StandsFor (λ s. (tt {0}, zero_stats s)) self.old self.new (tt {0}) }
        ensures tie { self.new.tie ≡ self.old.tie }
        ensures memory { KeepsMemory self.old self.new }
        ensures begun { self.new.steps_before ≡ count_shown meter.old }
        ensures cost { PaysAtMost meter.old meter.new zero_cost }
    {
        self.steps_before = meter.count();
        self.books.clear_stats(meter);
    }

    /// The moment from which `expire` finds something: the least deadline of the connections and of the forwarded
    /// calls. Before it `expire` finds nothing, and never if there is none. It changes nothing but the count from
    /// which `steps` starts.
    pub fn next_deadline(&mut self, meter: &mut Meter) -> Option<u64>
        requires { meter.old.tie ≡ self.old.tie }
        ensures begun { BeginsAt meter.old self.old self.new }
        ensures soonest { Shows StandsFor next_deadline self.old result }
        ensures cost { PaysAtMost meter.old meter.new (deadline_cost self.old) }
    {
        self.steps_before = meter.count();
        let of_connections = self.connections.next_deadline(meter);
        let of_forwards = self.books.forwards.next_deadline(meter);
        sooner(of_connections, of_forwards)
    }

    /// What there is to tell of the call that the last `datagram`, `bytes` or `exchange` brought whole, if anything.
    pub fn seen(&self) -> Option<&Seen> {
        self.seen.as_ref()
    }
}
