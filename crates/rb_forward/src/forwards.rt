//! The calls that are forwarded, in the order in which they came.
ghost use Rattle.std.specs.Prelude.{◌≡◌, ◌+◌, ◌*◌, ◌%◌, ◌^◌, ◌<◌, ◌≤◌, ◌↔◌, ℕ, length, Some, None, IfOk, IsTrue};
ghost use Rattle.std.specs.Map.{values_of};
ghost use Rattle.rb_forward.specs.Forwards.{head_of, entry_charge};

use crate::buffers::{HEAD, make_spare, put_buffer, take_buffer, write_call};
use crate::deadlines::soonest_in;
use crate::entries::{Slot, Sought, wanted_key};
use crate::outcome::{outcome_of, xid_of};
use crate::types::{Ended, Forward, ForwardEnd, FwdId, Gone, Unsent};
use rb_address::Peer;
use rb_rpc::{CallHead, Credential};
use rb_xdr::{Full, Kept, Meter, NoMemory, Pool};
use std::alloc::Global;
use std::marker::Model;

/// What the fixed part of an entry counts as, in bytes.
pub const ENTRY_CHARGE: u64 = 128;

/// A target's time to answer, in milliseconds.
pub const PATIENCE: u64 = 5000;

/// The calls that are forwarded, in the order in which they came, and the buffers that no call is in. `new` takes all of
/// the memory, and no later call changes how much there is.
#[derive(Drop)]
pub struct Forwards {
    slots: Pool<Slot>,
    spare: Pool<Kept>,
    last_number: u64,
    first_xid: u32,
    cap: u32,
    held: u64,
}

/// Names each field, so that a further one does not compile until it stands here. It belongs in the table of
/// charges of crates/rb_core/README.md first.
fn layout(forwards: &Forwards) {
    let Forwards {
        slots,
        spare,
        last_number,
        first_xid,
        cap,
        held,
    } = forwards;
    let _: &Pool<Slot> = slots;
    let _: &Pool<Kept> = spare;
    let _: (u64, u32, u32, u64) = (*last_number, *first_xid, *cap, *held);
}

/// The head of the next forwarded call, if the last one had the number `last_number`.
#[tactic(auto, unfolding(crate::specs::Forwards::xid_of), using(crate::proofs::Xids::xids))]
fn head_of(first_xid: u32, last_number: u64, forward: &Forward) -> CallHead
    ensures { result ≡ head_of first_xid (last_number + 1) forward.now }
{
    CallHead {
        xid: first_xid.wrapping_add((last_number % (1 << 32)) as u32),
        prog: forward.prog,
        vers: forward.vers,
        proc: forward.proc,
        cred: Credential::None,
    }
}

impl Model for Forwards {
    ghost use Rattle.rb_forward.specs.StandsFor.{Table};
    ghost use Rattle.rb_forward.specs.Table.{IsTable};

    ghost Value = { Table };

    ghost view = { λ f. record {
      slots = f.slots.entries;
      last_number = f.last_number;
      first_xid = f.first_xid;
      cap = f.cap;
      memory = (f.slots.memory, f.spare.memory);
      tie = f.slots.tie;
    } };

    ghost invariant = { λ f. IsTable f.slots f.spare f.cap f.held };
}

impl Forwards {
    ghost use Rattle.std.specs.Prelude.{◌≡◌, ◌≤◌, ◌<◌, ◌+◌, ◌*◌, ◌↔◌, [], ◌∷◌, length, false, OnOk, OnErr, IfOk, IsOk, IfSome, IsTrue};
    ghost use Rattle.std.specs.Map.{values_of};
    ghost use Rattle.rb_xdr.specs.Meter.{PaysAtMost};
    ghost use Rattle.rb_forward.specs.Costs.{start_cost, end_cost, sent_cost, unsent_cost};
    ghost use Rattle.rb_arguments.specs.Forwarded.{longest_forwarded};
    ghost use Rattle.rb_forward.specs.Forwards.{no_forwards, reply, due, drop_caller, can_start, with_next_entry, can_be_sent, sent, unsent, held, without_first};
    ghost use Rattle.rb_forward.specs.Outcomes.{PassesWithin};
    ghost use Rattle.rb_forward.specs.StandsFor.{StandsForForwards, SameFrame, slots_of, longest_forwarded_call, held_in};
    ghost use Rattle.rb_forward.specs.Table.{Whatever, Becomes, GivenBy, LeftBy, end_of, IsNew, NoneWaitsAnew, OnlyWaitsAnew, is_waiting, AreOfDistinctCallers, is_wanted_slot, plain_unsent, count_lent};

    /// An empty table for at most `cap` entries; the first one will have the xid `first_xid`. It takes the memory for
    /// all of them, or answers `NoMemory` if an allocation is refused.
    pub fn new(
        alloc: Global,
        cap: u32,
        first_xid: u32,
        meter: &mut Meter,
    ) -> Result<Forwards, NoMemory>
        ensures made { IfOk result (λ made. StandsForForwards made no_forwards) }
        ensures empty { IfOk result (λ made. made.slots ≡ []) }
        ensures first_xid { IfOk result (λ made. made.first_xid ≡ first_xid) }
        ensures cap { IfOk result (λ made. made.cap ≡ cap) }
        ensures tie { IfOk result (λ made. made.tie ≡ meter.old.tie) }
        ensures cost { PaysAtMost meter.old meter.new (2 * cap) }
    {
        let spare = make_spare(alloc, cap as usize, meter)?;
        Ok(Forwards {
            slots: Pool::written(alloc, cap as usize, || Slot::blank(alloc), meter)?,
            spare,
            last_number: 0,
            first_xid,
            cap,
            held: 0,
        })
    }

    // FORWARD-7
    /// Adds an entry at the moment `clock`, in milliseconds, and returns its number. Its deadline is 5,000 ms later.
    /// `args` are the arguments for the target, at most 8,800 bytes.
    ///
    /// `Full` if there are as many entries as there may be, or no number is left: then nothing changes. A
    /// connection may have one entry at a time.
    pub fn start(
        &mut self,
        clock: u64,
        forward: &Forward,
        args: &[u8],
        meter: &mut Meter,
    ) -> Result<FwdId, Full>
        requires tie { meter.old.tie ≡ self.old.tie }
        requires args { length args.now ≤ longest_forwarded }
        requires caller { IsNew forward.now.caller (slots_of self.old) }
        ensures room { Whatever self.old (λ f. IsOk result ↔ IsTrue (can_start self.old.cap f)) }
        ensures number { Whatever self.old (λ f. IfOk result (λ id. id.number ≡ f.next)) }
        ensures ok { OnOk result
            (Becomes self.old self.new (with_next_entry clock forward.now args.now)) }
        ensures waiting { OnlyWaitsAnew forward.now.caller
            (slots_of self.old) (slots_of self.new) }
        ensures unchanged { OnErr result (self.new ≡ self.old) }
        ensures frame { SameFrame self.old self.new }
        ensures cost { PaysAtMost meter.old meter.new (start_cost (length args.now)) }
    {
        if self.slots.len(meter) >= self.cap as usize {
            return Err(Full { value: () });
        }
        if self.last_number == u64::MAX {
            return Err(Full { value: () });
        }
        let mut call = take_buffer(&mut self.spare, meter);
        let head = head_of(self.first_xid, self.last_number, forward);
        write_call(&mut call, &head, args, meter);
        self.last_number += 1;
        self.held += ENTRY_CHARGE + HEAD as u64 + args.len() as u64;
        let slot = Slot {
            number: self.last_number,
            forward: *forward,
            xid: head.xid,
            deadline: clock.saturating_add(PATIENCE),
            sent: false,
            call,
        };
        self.slots.add(slot, meter);
        Ok(FwdId {
            number: self.last_number,
        })
    }

    /// The unsent entry of least number, whether or not its deadline has come, or `None` if all were sent.
    pub fn unsent(&self, meter: &mut Meter) -> Option<Unsent<'_>>
        requires { meter.old.tie ≡ self.now.tie }
        ensures unsent { Whatever self.now (λ f. plain_unsent result ≡ unsent self.now.first_xid f) }
        ensures few { IfSome result (λ lent. length lent.call.now ≤ longest_forwarded_call) }
        ensures cost { PaysAtMost meter.old meter.new
            (unsent_cost self.now.cap (count_lent result)) }
    {
        let Some(key) = wanted_key(&self.slots, Sought::AnyUnsent, meter) else {
            return None;
        };
        let Some(slot) = self.slots.get(key, meter) else {
            unreachable!()
        };
        let count = slot.call.len(meter);
        Some(Unsent {
            id: FwdId {
                number: slot.number,
            },
            target: slot.forward.target,
            call: slot.call.lend(0..count, meter),
        })
    }

    /// Notes that the call of this entry was sent: from now on a reply counts, and its bytes are held no longer. `Gone`
    /// if no such entry is there, or it was sent before: then nothing changes.
    pub fn sent(&mut self, id: FwdId, meter: &mut Meter) -> Result<(), Gone>
        requires { meter.old.tie ≡ self.old.tie }
        ensures there { Whatever self.old (λ f. IsOk result ↔ IsTrue (can_be_sent id.number f)) }
        ensures sent { OnOk result (Becomes self.old self.new (sent id.number)) }
        ensures waiting { NoneWaitsAnew (slots_of self.old) (slots_of self.new) }
        ensures unchanged { OnErr result (self.new ≡ self.old) }
        ensures frame { SameFrame self.old self.new }
        ensures cost { PaysAtMost meter.old meter.new (sent_cost self.old.cap) }
    {
        let Some(key) = wanted_key(&self.slots, Sought::Unsent(id.number), meter) else {
            return Err(Gone);
        };
        let Some(slot) = self.slots.get_mut(key, meter) else {
            unreachable!()
        };
        self.held -= slot.empty(meter) as u64;
        Ok(())
    }

    /// Takes a datagram that came from the peer `from` at the moment `clock`. It ends the first entry that was sent
    /// to this host and port, whose xid it has, and whose deadline is later than `clock`; that entry is returned, its
    /// number among it, with its outcome. Any other datagram changes nothing, and the answer is `None`.
    pub fn reply(
        &mut self,
        clock: u64,
        from: Peer,
        bytes: &[u8],
        meter: &mut Meter,
    ) -> Option<Ended>
        requires { meter.old.tie ≡ self.old.tie }
        ensures ended { GivenBy (reply self.old.first_xid clock from bytes.now) self.old result }
        ensures left { LeftBy (reply self.old.first_xid clock from bytes.now) self.old self.new }
        ensures within { IfSome result (λ ended. PassesWithin ended.outcome (length bytes.now)) }
        ensures alone { IfSome result
            (λ ended. IsNew ended.forward.caller (slots_of self.new)) }
        ensures waiting { NoneWaitsAnew (slots_of self.old) (slots_of self.new) }
        ensures frame { SameFrame self.old self.new }
        ensures cost { PaysAtMost meter.old meter.new (end_cost self.old.cap) }
    {
        let Some(xid) = xid_of(bytes) else {
            return None;
        };
        self.end(Sought::Answered(xid, from, clock), outcome_of(bytes), meter)
    }

    /// The entry of least number whose deadline has come at the moment `clock`, in milliseconds, ends, as `Failed`.
    /// If there is none, nothing changes, and the answer is `None`.
    pub fn due(&mut self, clock: u64, meter: &mut Meter) -> Option<Ended>
        requires { meter.old.tie ≡ self.old.tie }
        ensures ended { GivenBy (due clock) self.old result }
        ensures left { LeftBy (due clock) self.old self.new }
        ensures failed { IfSome result (λ ended. ended.outcome ≡ ForwardEnd.Failed) }
        ensures alone { IfSome result
            (λ ended. IsNew ended.forward.caller (slots_of self.new)) }
        ensures waiting { NoneWaitsAnew (slots_of self.old) (slots_of self.new) }
        ensures frame { SameFrame self.old self.new }
        ensures cost { PaysAtMost meter.old meter.new (end_cost self.old.cap) }
    {
        self.end(Sought::Due(clock), ForwardEnd::Failed, meter)
    }

    /// The entry of the connection of this number ends, as `Dropped`. If there is none, nothing changes, and the
    /// answer is `None`.
    pub fn drop_caller(&mut self, id: u64, meter: &mut Meter) -> Option<Ended>
        requires { meter.old.tie ≡ self.old.tie }
        ensures ended { GivenBy (drop_caller id) self.old result }
        ensures left { LeftBy (drop_caller id) self.old self.new }
        ensures none_left { is_waiting id (slots_of self.new) ≡ false }
        ensures waiting { NoneWaitsAnew (slots_of self.old) (slots_of self.new) }
        ensures frame { SameFrame self.old self.new }
        ensures cost { PaysAtMost meter.old meter.new (end_cost self.old.cap) }
    {
        self.end(Sought::OfConnection(id), ForwardEnd::Dropped, meter)
    }

    /// How many bytes are held: those of each unsent call, and 128 for the rest of each entry.
    pub fn held(&self) -> u64
        ensures held { result ≡ held_in (slots_of self.now) }
        ensures entries { Whatever self.now (λ f. result ≡ held self.now.first_xid f) }
        ensures bound { result ≤ (entry_charge + longest_forwarded_call) * self.now.cap }
    {
        self.held
    }

    /// The first entry that is looked for ends so.
    fn end(&mut self, wanted: Sought, outcome: ForwardEnd, meter: &mut Meter) -> Option<Ended>
        requires { meter.old.tie ≡ self.old.tie }
        ensures ended { GivenBy (end_of self.old.first_xid wanted outcome) self.old result }
        ensures left { LeftBy (end_of self.old.first_xid wanted outcome) self.old self.new }
        ensures outcome { IfSome result (λ ended. ended.outcome ≡ outcome) }
        ensures slots { slots_of self.new
            ≡ without_first (is_wanted_slot wanted) (slots_of self.old) }
        ensures callers { AreOfDistinctCallers (slots_of self.old) }
        ensures alone { IfSome result
            (λ ended. IsNew ended.forward.caller (slots_of self.new)) }
        ensures waiting { NoneWaitsAnew (slots_of self.old) (slots_of self.new) }
        ensures frame { SameFrame self.old self.new }
        ensures cost { PaysAtMost meter.old meter.new (end_cost self.old.cap) }
    {
        let Some(key) = wanted_key(&self.slots, wanted, meter) else {
            return None;
        };
        let Some(slot) = self.slots.remove(key, meter) else {
            unreachable!()
        };
        let id = FwdId {
            number: slot.number,
        };
        let Slot { forward, call, .. } = slot;
        self.held -= ENTRY_CHARGE + call.len(meter) as u64;
        put_buffer(&mut self.spare, call, meter);
        Some(Ended {
            id,
            forward,
            outcome,
        })
    }
}

impl Forwards {
    ghost use Rattle.std.specs.Prelude.{◌≡◌};
    ghost use Rattle.rb_xdr.specs.Meter.{PaysAtMost};
    ghost use Rattle.rb_forward.specs.Table.{Whatever};
    ghost use Rattle.rb_forward.specs.Deadlines.{next_deadline, soonest_cost};

    /// The least deadline of the entries, or `None` if there is none. Before it `due` ends nothing.
    pub fn next_deadline(&self, meter: &mut Meter) -> Option<u64>
        requires { meter.old.tie ≡ self.now.tie }
        ensures soonest { Whatever self.now (λ f. result ≡ next_deadline f) }
        ensures cost { PaysAtMost meter.old meter.new (soonest_cost self.now.cap) }
    {
        soonest_in(&self.slots, |slot| Some(slot.deadline), meter)
    }
}
