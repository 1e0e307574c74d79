//! What is remembered of calls.
ghost use Rattle.std.specs.Prelude.{◌≡◌};
ghost use Rattle.rb_answers.specs.Ledger.{version_of};

use crate::forwarding::note_end;
use crate::sets::{accepts, row_to_set};
use rb_address::Peer;
use rb_answers::{Call, Context, Listener, own_rows};
use rb_forward::{Ended, ForwardEnd, Forwards, FwdId, Gone, Unsent};
use rb_registry::{Refusal, Registry, RegistryFault};
use rb_rpc::CallHead;
use rb_stats::{Stats, Version};
use rb_xdr::Meter;
use std::alloc::Global;

/// What is remembered of calls: the rows that they set, what they were, and those that were forwarded. One meter counts
/// the steps on all of it. `new` takes all of the memory, and no later call changes how much there is.
#[derive(Drop)]
pub struct Books {
    /// The rows that calls set.
    pub registry: Registry,
    /// What was called.
    pub stats: Stats,
    /// The calls that wait for their targets.
    pub forwards: Forwards,
    /// Why the last SET or UNSET changed nothing; `None` if it did. No answer depends on it.
    pub refusal: Option<Refusal>,
}

/// Names each field, so that a further one does not compile until it stands here. It belongs in the table of
/// charges of crates/rb_core/README.md first.
fn layout(books: &Books) {
    let Books {
        registry,
        stats,
        forwards,
        refusal,
    } = books;
    let _: &Registry = registry;
    let _: &Stats = stats;
    let _: &Forwards = forwards;
    let _: Option<Refusal> = *refusal;
}

/// The version that counts a call. One of another number than 2, 3 and 4 has no procedures.
#[tactic(auto, unfolding(rb_answers::specs::Ledger::version_of))]
pub(crate) fn version_of(vers: u32) -> Version
    ensures { result ≡ version_of vers }
{
    match vers {
        2 => Version::Two,
        3 => Version::Three,
        _ => Version::Four,
    }
}

impl Books {
    ghost use Rattle.std.specs.Prelude.{◌≡◌, ◌<◌, ◌≤◌, ◌↔◌, ◌+◌, ◌*◌, [], false, length, IfOk, IsErrOf, IfSome, OnOk, OnErr};
    ghost use Rattle.rb_xdr.specs.Meter.{PaysAtMost};
    ghost use Rattle.rb_forward.specs.Costs.{sent_cost};
    ghost use Rattle.rb_forward.specs.Forwards.{can_be_sent};
    ghost use Rattle.rb_forward.specs.Outcomes.{PassesWithin};
    ghost use Rattle.rb_forward.specs.StandsFor.{slots_of, longest_forwarded_call};
    ghost use Rattle.rb_forward.specs.Table.{plain_unsent, count_lent, is_waiting, IsNew, NoneWaitsAnew};
    ghost use Rattle.rb_answers.specs.Forwarding.{fell_due, caller_dropped, call_sent};
    ghost use Rattle.rb_proto.specs.Books.{unsent_of, reply_to, removals_in, wants_room_in, BooksShow, IsOkWhere, ActsAs, Becomes, AreTied, SameFrame};
    ghost use Rattle.rb_proto.specs.Puts.{PaysToRegister, ending_cost, lending_cost, room_cost};
    ghost use Rattle.rb_answers.specs.Answers.{wants_room};
    ghost use Rattle.rb_registry.specs.Registry.{rows_of, slots_of as row_slots};
    ghost use Rattle.rb_registry.specs.Table.{floor_raised, later_than};
    ghost use Rattle.rb_registry.specs.Cursors.{GoesOn};
    ghost use Rattle.rb_answers.specs.Callers.{own_rows};
    ghost use Rattle.rb_answers.specs.Costs.{zero_cost};
    ghost use Rattle.rb_answers.specs.Ledger.{Ledger, fresh_ledger, with_call_noted};
    ghost use Rattle.rb_proto.specs.Ledger.{StandsForLedger};

    /// Books with the listener's own rows alone, for at most `limit` rows and at most `forwards` forwarded calls at a
    /// time, the first with the xid `first_xid`. `BadLimits` if there are more own rows than `limit`, else `NoMemory`
    /// if an allocation is refused.
    pub fn new(
        alloc: Global,
        limit: usize,
        forwards: u32,
        first_xid: u32,
        listener: &Listener,
        meter: &mut Meter,
    ) -> Result<Books, RegistryFault>
        ensures made { IfOk result
            (λ books. StandsForLedger books (fresh_ledger (own_rows listener.now))) }
        ensures limit { IfOk result (λ books. books.registry.limit ≡ limit) }
        ensures cap { IfOk result (λ books. books.forwards.cap ≡ forwards) }
        ensures first_xid { IfOk result (λ books. books.forwards.first_xid ≡ first_xid) }
        ensures waiting { IfOk result (λ books. slots_of books.forwards ≡ []) }
        ensures tied { IfOk result (λ books. AreTied meter.old.tie books) }
        ensures bad { IsErrOf result RegistryFault.BadLimits
            ↔ (limit < length (own_rows listener.now)) }
        ensures cost { PaysAtMost meter.old meter.new
            (18 * length (own_rows listener.now) + 2 * forwards) }
    {
        let registry = Registry::new(alloc, limit, own_rows(listener), meter)?;
        let stats = Stats::new(alloc, meter)?;
        let forwards = Forwards::new(alloc, forwards, first_xid, meter)?;
        Ok(Books {
            registry,
            stats,
            forwards,
            refusal: None,
        })
    }

    /// Notes a call of a procedure that its version has, before it is answered: those too whose arguments can't be
    /// read (RFC 1833 section 2.1, rpcb_stat).
    #[tactic(auto, unfolding(rb_answers::specs::Ledger::with_call_noted))]
    pub fn note_call(&mut self, head: &CallHead)
        ensures called { Becomes (with_call_noted head.now) self.old self.new }
        ensures registry { self.new.registry ≡ self.old.registry }
        ensures forwards { self.new.forwards ≡ self.old.forwards }
        ensures frame { SameFrame self.old self.new }
    {
        self.stats.note_call(version_of(head.vers), head.proc);
    }

    /// Statistics begin anew: nothing was called. It costs at most 2 steps for each of 192 keys, and 1.
    pub fn clear_stats(&mut self, meter: &mut Meter)
        requires { AreTied meter.old.tie self.old }
        ensures cleared { Becomes (λ (l : Ledger). record l { history = [] }) self.old self.new }
        ensures registry { self.new.registry ≡ self.old.registry }
        ensures forwards { self.new.forwards ≡ self.old.forwards }
        ensures frame { SameFrame self.old self.new }
        ensures cost { PaysAtMost meter.old meter.new zero_cost }
    {
        self.stats.clear(meter);
    }

    /// Returns whether the call is a SET that is accepted: then there has to be room for its row.
    #[tactic(auto, unfolding(rb_answers::specs::Answers::adds_row))]
    pub fn wants_room(&self, context: &Context, call: &Call, meter: &mut Meter) -> bool
        requires tied { AreTied meter.old.tie self.now }
        requires limit { self.now.registry.limit ≡ context.now.limit }
        ensures wants { result ≡ wants_room_in context.now call.now self.now.registry }
        ensures shows { BooksShow (wants_room context.now call.now) self.now result }
        ensures cost { PaysToRegister context.now (room_cost self.now) meter.old meter.new }
    {
        match row_to_set(context, call) {
            Some(row) => accepts(&self.registry, context, &row, meter),
            None => false,
        }
    }

    /// Drops the retained rows that are needed by no list which began after `oldest` changes or later; all of them if
    /// it is `None`.
    pub fn trim(&mut self, oldest: Option<u64>, meter: &mut Meter)
        requires { AreTied meter.old.tie self.old }
        ensures stands { Becomes (λ l. l) self.old self.new }
        ensures dropped { removals_in self.new ≡ later_than oldest (removals_in self.old) }
        ensures fewer { length (row_slots self.new.registry) ≤ length (row_slots self.old.registry) }
        ensures rows { rows_of self.new.registry ≡ rows_of self.old.registry }
        ensures stamp { self.new.registry.stamp ≡ self.old.registry.stamp }
        ensures floor { self.new.registry.floor ≡ floor_raised self.old.registry oldest }
        ensures cursors { GoesOn self.old.registry self.new.registry }
        ensures forwards { self.new.forwards ≡ self.old.forwards }
        ensures frame { SameFrame self.old self.new }
        ensures cost { PaysAtMost meter.old meter.new
            (3 * length (row_slots self.old.registry) + 1) }
    {
        self.registry.trim(oldest, meter);
    }

    /// The unsent forwarded call of least number, whether or not its deadline has come, or `None` if all were
    /// sent. It has at most 8,840 bytes.
    pub fn unsent(&self, meter: &mut Meter) -> Option<Unsent<'_>>
        requires { AreTied meter.old.tie self.now }
        ensures unsent { BooksShow (unsent_of self.now) self.now (plain_unsent result) }
        ensures few { IfSome result (λ lent. length lent.call.now ≤ longest_forwarded_call) }
        ensures cost { PaysAtMost meter.old meter.new (lending_cost self.now (count_lent result)) }
    {
        self.forwards.unsent(meter)
    }

    /// Notes that the forwarded call of this number was sent: from now on a reply counts, and its bytes are held no longer.
    /// `Gone` if there is no such call, or it was sent before: then nothing changes.
    #[tactic(auto, unfolding(rb_answers::specs::Forwarding::call_sent))]
    pub fn sent(&mut self, id: FwdId, meter: &mut Meter) -> Result<(), Gone>
        requires { AreTied meter.old.tie self.old }
        ensures there { IsOkWhere (λ l. can_be_sent id.number l.forwards) self.old result }
        ensures sent { OnOk result (Becomes (call_sent id.number) self.old self.new) }
        ensures unchanged { OnErr result (self.new ≡ self.old) }
        ensures registry { self.new.registry ≡ self.old.registry }
        ensures waiting { NoneWaitsAnew (slots_of self.old.forwards) (slots_of self.new.forwards) }
        ensures frame { SameFrame self.old self.new }
        ensures cost { PaysAtMost meter.old meter.new (sent_cost self.old.forwards.cap) }
    {
        self.forwards.sent(id, meter)
    }

    /// Takes a datagram that came from the peer `from` at the moment `clock`, in milliseconds. If it is a reply to
    /// forwarded calls, the one of least number ends, and its outcome is noted. Any other datagram changes nothing, and
    /// the answer is `None`.
    #[tactic(auto, unfolding(rb_answers::specs::Forwarding::target_replied))]
    pub fn reply(
        &mut self,
        clock: u64,
        from: Peer,
        bytes: &[u8],
        meter: &mut Meter,
    ) -> Option<Ended>
        requires { AreTied meter.old.tie self.old }
        ensures acts { ActsAs (reply_to self.old clock from bytes.now) self.old self.new result }
        ensures registry { self.new.registry ≡ self.old.registry }
        ensures within { IfSome result (λ ended. PassesWithin ended.outcome (length bytes.now)) }
        ensures alone { IfSome result
            (λ ended. IsNew ended.forward.caller (slots_of self.new.forwards)) }
        ensures waiting { NoneWaitsAnew (slots_of self.old.forwards) (slots_of self.new.forwards) }
        ensures frame { SameFrame self.old self.new }
        ensures cost { PaysAtMost meter.old meter.new (ending_cost self.old) }
    {
        let ended = self.forwards.reply(clock, from, bytes, meter)?;
        note_end(&mut self.stats, &ended, meter);
        Some(ended)
    }

    /// The forwarded call of least number whose deadline has come at the moment `clock`, in milliseconds, ends, as
    /// `Failed`, and that is noted. If there is none, nothing changes, and the answer is `None`.
    #[tactic(auto, unfolding(rb_answers::specs::Forwarding::fell_due))]
    pub fn due(&mut self, clock: u64, meter: &mut Meter) -> Option<Ended>
        requires { AreTied meter.old.tie self.old }
        ensures acts { ActsAs (fell_due clock) self.old self.new result }
        ensures registry { self.new.registry ≡ self.old.registry }
        ensures failed { IfSome result (λ ended. ended.outcome ≡ ForwardEnd.Failed) }
        ensures alone { IfSome result
            (λ ended. IsNew ended.forward.caller (slots_of self.new.forwards)) }
        ensures waiting { NoneWaitsAnew (slots_of self.old.forwards) (slots_of self.new.forwards) }
        ensures frame { SameFrame self.old self.new }
        ensures cost { PaysAtMost meter.old meter.new (ending_cost self.old) }
    {
        let ended = self.forwards.due(clock, meter)?;
        note_end(&mut self.stats, &ended, meter);
        Some(ended)
    }

    /// The connection of this number is closed: its forwarded call ends, if it has one, and is noted as a failure.
    #[tactic(auto, unfolding(rb_answers::specs::Forwarding::caller_dropped))]
    pub fn drop_caller(&mut self, id: u64, meter: &mut Meter)
        requires { AreTied meter.old.tie self.old }
        ensures dropped { Becomes (λ l. (caller_dropped id l).1) self.old self.new }
        ensures registry { self.new.registry ≡ self.old.registry }
        ensures none_left { is_waiting id (slots_of self.new.forwards) ≡ false }
        ensures waiting { NoneWaitsAnew (slots_of self.old.forwards) (slots_of self.new.forwards) }
        ensures frame { SameFrame self.old self.new }
        ensures cost { PaysAtMost meter.old meter.new (ending_cost self.old) }
    {
        if let Some(ended) = self.forwards.drop_caller(id, meter) {
            note_end(&mut self.stats, &ended, meter);
        }
    }
}
