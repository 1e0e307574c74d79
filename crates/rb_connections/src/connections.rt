//! The connections that are open, in the order of their openings.
ghost use Rattle.std.specs.Prelude.{◌≡◌, ◌<◌, ◌≤◌, ◌+◌, ◌*◌, ◌++◌, ◌∷◌, [], All, length, IfOk, IfSome};
ghost use Rattle.std.specs.Borrow.{sem};
ghost use Rattle.std.specs.Option.{option_copied_mut, option_map};
ghost use Rattle.std.specs.Map.{values_of};
ghost use Rattle.rb_xdr.specs.Meter.{PaysAtMost};
ghost use Rattle.rb_xdr.specs.Pool.{HasDistinctKeys, SameFrame};
ghost use Rattle.rb_connections.specs.Slots.{wanted_slot, AreBuffers, AreSpare, HasBuffers, HasDistinctNumbers};
ghost use Rattle.rb_connections.specs.LiveSlots.{charge_of, FindsLive, LendsLive, PaysToFind};
ghost use Rattle.rb_connections.specs.StandsFor.{held_in};
ghost use Rattle.rb_connections.specs.Listings.{began_before_earliest, with_evicted};
ghost use Rattle.rb_model.specs.Costs.{evict_cost};

use crate::hints::Hints;
use crate::slot::{Buffers, CONNECTION_CHARGE, Received, Slot, Sought, Stage, WholeRecord};
use rb_address::Who;
use rb_forward::soonest_in;
use rb_model::{CoreFault, Given, LONGEST_KEPT, LONGEST_REPLY, Served, Standing};
use rb_registry::Registry;
use rb_rpc::{LONGEST_FRAGMENT, one_fragment};
use rb_xdr::{Kept, Meter, NoMemory, Pool};
use std::alloc::Global;
use std::marker::Model;

/// The size of a buffer: it has the arguments of the call that is read, and later the reply to it.
pub const BUFFER_SIZE: usize = if LONGEST_KEPT < LONGEST_REPLY {
    LONGEST_REPLY
} else {
    LONGEST_KEPT
};

/// The connections that are open, in the order of their openings, and spare buffers for those that may be opened. `new`
/// takes all of the memory, and no later call changes how much there is.
#[derive(Drop)]
pub struct Connections {
    slots: Pool<Slot>,
    spare: Pool<Buffers>,
    last_number: u64,
    conns: usize,
    held: u64,
    hints: Hints,
}

/// Names each field, so that a further one does not compile until it stands here. It belongs in the table of
/// charges of crates/rb_core/README.md first.
fn layout(connections: &Connections) {
    let Connections {
        slots,
        spare,
        last_number,
        conns,
        held,
        hints,
    } = connections;
    let _: &Pool<Slot> = slots;
    let _: &Pool<Buffers> = spare;
    let _: (u64, usize, u64, Hints) = (*last_number, *conns, *held, *hints);
}

impl Model for Connections {
    ghost use Rattle.rb_connections.specs.StandsFor.{Table};
    ghost use Rattle.rb_connections.specs.Slots.{IsTable};

    ghost Value = { Table };

    ghost view = { λ c. record {
      slots = c.slots.entries;
      last_number = c.last_number;
      conns = c.conns;
      memory = (c.slots.memory, c.spare.memory);
      tie = c.slots.tie;
    } };

    ghost invariant = { λ c. IsTable c.slots c.spare c.last_number c.conns c.held };
}

/// Takes the first spare buffers out.
fn take_buffers(spare: &mut Pool<Buffers>, meter: &mut Meter) -> Buffers
    requires tie { meter.old.tie ≡ spare.old.tie }
    requires some { 0 < length spare.old.entries }
    requires buffers { All (AreSpare spare.old.tie) (values_of spare.old.entries) }
    requires distinct { HasDistinctKeys spare.old.entries }
    ensures fewer { length spare.old.entries ≡ length spare.new.entries + 1 }
    ensures buffers { All (AreSpare spare.old.tie) (values_of spare.new.entries) }
    ensures distinct { HasDistinctKeys spare.new.entries }
    ensures made { AreSpare spare.old.tie result }
    ensures frame { SameFrame spare.old spare.new }
    ensures cost { PaysAtMost meter.old meter.new 2 }
{
    let Some(key) = spare.first(meter) else {
        unreachable!()
    };
    let Some(buffers) = spare.remove(key, meter) else {
        unreachable!()
    };
    buffers
}

/// Adds buffers to the spare ones, emptied.
fn put_buffers(spare: &mut Pool<Buffers>, mut buffers: Buffers, meter: &mut Meter)
    requires tie { meter.old.tie ≡ spare.old.tie }
    requires room { length spare.old.entries < spare.old.cap }
    requires buffers { All (AreSpare spare.old.tie) (values_of spare.old.entries) }
    requires made { AreBuffers spare.old.tie buffers.buffer buffers.window }
    requires distinct { HasDistinctKeys spare.old.entries }
    ensures more { length spare.new.entries ≡ length spare.old.entries + 1 }
    ensures buffers { All (AreSpare spare.old.tie) (values_of spare.new.entries) }
    ensures distinct { HasDistinctKeys spare.new.entries }
    ensures frame { SameFrame spare.old spare.new }
    ensures cost { PaysAtMost meter.old meter.new 3 }
{
    buffers.buffer.clear(meter);
    buffers.window.clear(meter);
    spare.add(buffers, meter);
}

/// Whether a list with this stamp began before a change.
fn began_before_earliest(stamp: Option<u64>, earliest: u64) -> bool
    ensures { result ≡ began_before_earliest earliest stamp }
{
    match stamp {
        Some(stamp) => stamp < earliest,
        None => false,
    }
}

/// Makes each slot Lost whose list began before this change.
fn evict_slots(slots: &mut Pool<Slot>, earliest: u64, meter: &mut Meter)
    requires tie { meter.old.tie ≡ slots.old.tie }
    requires distinct { HasDistinctKeys slots.old.entries }
    ensures evicted { slots.new ≡ with_evicted earliest slots.old }
    ensures cost { PaysAtMost meter.old meter.new (evict_cost (length slots.old.entries)) }
{
    let mut place = None;
    'slots: while let Some((key, slot)) = slots.entry_after(place, meter) {
        if began_before_earliest(slot.stamp(), earliest) {
            let Some(reader) = slots.get_mut(key, meter) else {
                unreachable!()
            };
            reader.stage = Stage::Lost;
        }
        place = Some(key);
    }
}

/// The buffers of as many connections as there may be.
#[tactic(auto, unfolding(rb_model::specs::Calls::longest_kept, crate::specs::StandsFor::buffer_size, rb_model::specs::Calls::longest_reply, rb_model::specs::Connections::longest_fragment))]
fn make_spare(alloc: Global, conns: usize, meter: &mut Meter) -> Result<Pool<Buffers>, NoMemory>
    ensures distinct { IfOk result (λ spare. HasDistinctKeys spare.entries) }
    ensures all { IfOk result (λ spare. length spare.entries ≡ conns) }
    ensures cap { IfOk result (λ spare. spare.cap ≡ conns) }
    ensures tie { IfOk result (λ spare. spare.tie ≡ meter.old.tie) }
    ensures buffers { IfOk result
        (λ spare. All (AreSpare meter.old.tie) (values_of spare.entries)) }
    ensures cost { PaysAtMost meter.old meter.new (3 * conns) }
{
    let mut spare = Pool::new(alloc, conns, meter)?;
    for _i in 0..conns {
        let buffer = Kept::new(alloc, BUFFER_SIZE, meter)?;
        let window = Kept::new(alloc, LONGEST_FRAGMENT, meter)?;
        put_buffers(&mut spare, Buffers { buffer, window }, meter);
    }
    Ok(spare)
}

/// The key of the first slot that is asked for. One that is asked for by its number is looked for under the hint first.
///
/// It is inlined, since each caller knows what kind is asked for, and each call over TCP looks its connection up more
/// than once.
#[tactic(auto, unfolding(crate::specs::Slots::wanted_slot))]
#[inline(always)]
fn wanted_key(slots: &Pool<Slot>, hints: &Hints, wanted: Sought, meter: &mut Meter) -> Option<usize>
    requires tie { meter.old.tie ≡ slots.now.tie }
    requires numbers { HasDistinctNumbers (values_of slots.now.entries) }
    ensures key { result ≡ option_map (λ e. e.0) (wanted_slot wanted slots.now.entries) }
    ensures cost { PaysAtMost meter.old meter.new (2 * length slots.now.entries + 2) }
{
    let hint = hints.key(wanted);
    match slots.get(hint, meter) {
        Some(slot) if wanted.is_by_number() && slot.is_wanted(wanted) => Some(hint),
        _ => slots.find_key(|slot| slot.is_wanted(wanted), meter),
    }
}

/// The slot of the live connection of the number, which is about to change. Its charge is taken off `held`; the
/// caller adds its charge after the change. The hint for the number is noted.
#[inline(always)]
fn live_slot<'a>(
    slots: &'a mut Pool<Slot>,
    hints: &mut Hints,
    held: &mut u64,
    id: u64,
    meter: &mut Meter,
) -> Option<&'a mut Slot>
    requires tie { meter.old.tie ≡ slots.old.tie }
    requires numbers { HasDistinctNumbers (values_of slots.old.entries) }
    requires buffers { All (HasBuffers meter.old.tie) (values_of slots.old.entries) }
    requires held { held.old ≡ held_in (values_of slots.old.entries) }
    ensures* writes_back { sem 𝓛 (LendsLive slots.entry id result) }
    ensures found { FindsLive id slots.old.entries (option_copied_mut result) }
    ensures its { IfSome (option_copied_mut result) (HasBuffers meter.old.tie) }
    ensures held { held.new + charge_of (option_copied_mut result) ≡ held.old }
    ensures cost { PaysToFind slots.old.entries (option_copied_mut result) meter.old meter.new }
{
    let key = wanted_key(slots, hints, Sought::Live(id), meter)?;
    hints.note(id, key);
    let slot = slots.get_mut(key, meter)?;
    *held -= slot.charge(meter);
    Some(slot)
}

impl Connections {
    ghost use Rattle.std.specs.Prelude.{◌≡◌, ◌≤◌, ◌<◌, ◌+◌, ◌*◌, [], false, length, Some, OnErr, IfOk, IfSome, IfNone, All};
    ghost use Rattle.rb_model.specs.Connections.{open_in_table, close_in_table, next_lost_in_table, longest_fragment};
    ghost use Rattle.rb_connections.specs.Giving.{pending_count};
    ghost use Rattle.rb_connections.specs.Settling.{Settles};
    ghost use Rattle.rb_model.specs.Served.{kind_in, IsWritten};
    ghost use Rattle.rb_connections.specs.Listings.{CanContinueAll, KeepsListing, EvictsBefore, stamps_of, IsOldest};
    ghost use Rattle.rb_model.specs.Losses.{expire_first};
    ghost use Rattle.rb_model.specs.Standings.{as_done, without_standing};
    ghost use Rattle.rb_connections.specs.Standings.{TellsStanding, TellsGiven, TellsReceived, IsStanding};
    ghost use Rattle.rb_connections.specs.Slots.{Finds, TableActs, TableTakesPiece, TableGives, TableWritesInto, TableHasArguments, TableLends, TableShows, TakesWhole, KeepsWhole, StaysTable, IsDraft, IsEmptyDraft, IsEmptyTable, HasBuffers};
    ghost use Rattle.rb_model.specs.Gives.{given_in};
    ghost use Rattle.rb_model.specs.Step.{pending_at};
    ghost use Rattle.rb_connections.specs.Costs.{slot_count, look_cost, settling_cost, PaysToTake, PaysToGive, PaysToWriteInto};
    ghost use Rattle.rb_model.specs.Costs.{pending_cost, oldest_cost, evict_cost};
    ghost use Rattle.rb_connections.specs.Awaits.{AwaitsIfForwarded, NoneIsFreed, OnlyIsFreed, EndedOn, EndsOnFree, GoOn, StayOpen};
    ghost use Rattle.rb_connections.specs.StandsFor.{held_in, most_charge};
    ghost use Rattle.std.specs.Map.{values_of};

    /// An empty table of at most `conns` connections, whose memory is all allocated here.
    pub fn new(alloc: Global, conns: usize, meter: &mut Meter) -> Result<Connections, NoMemory>
        requires { conns ≤ 256 }
        ensures empty { IfOk result (λ c. IsEmptyTable conns meter.old.tie c) }
        ensures cost { PaysAtMost meter.old meter.new (3 * conns) }
    {
        let spare = make_spare(alloc, conns, meter)?;
        Ok(Connections {
            slots: Pool::written(alloc, conns, || Slot::blank(alloc), meter)?,
            spare,
            last_number: 0,
            conns,
            held: 0,
            hints: Hints::new(),
        })
    }

    /// Opens a connection, and gives its number: `Full` if there are as many as there may be, lost ones among
    /// them, else `Spent` if no number is left.
    pub fn open(&mut self, clock: u64, who: Who, meter: &mut Meter) -> Result<u64, CoreFault>
        requires { meter.old.tie ≡ self.old.tie }
        ensures acts { TableActs (open_in_table self.old.conns who clock) self.old self.new result }
        ensures goes_on { GoOn self.old self.new }
        ensures refused { OnErr result (self.new ≡ self.old) }
        ensures cost { PaysAtMost meter.old meter.new 4 }
    {
        if self.slots.len(meter) >= self.conns {
            return Err(CoreFault::Full);
        }
        if self.last_number == u64::MAX {
            return Err(CoreFault::Spent);
        }
        let Buffers { buffer, window } = take_buffers(&mut self.spare, meter);
        self.last_number += 1;
        self.held += CONNECTION_CHARGE;
        let slot = Slot {
            number: self.last_number,
            who,
            stage: Stage::Idle,
            since: clock,
            buffer,
            window,
        };
        let key = self.slots.add(slot, meter);
        self.hints.note(self.last_number, key);
        Ok(self.last_number)
    }

    /// Removes the connection of the number, live or Lost: `Gone` if there is none.
    pub fn close(&mut self, id: u64, meter: &mut Meter) -> Result<(), CoreFault>
        requires { meter.old.tie ≡ self.old.tie }
        ensures acts { TableActs (close_in_table id) self.old self.new result }
        ensures goes_on { GoOn self.old self.new }
        ensures refused { OnErr result (self.new ≡ self.old) }
        ensures cost { PaysAtMost meter.old meter.new (look_cost self.old + 5) }
    {
        let Some(key) = wanted_key(&self.slots, &self.hints, Sought::Numbered(id), meter) else {
            return Err(CoreFault::Gone);
        };
        let Some(slot) = self.slots.remove(key, meter) else {
            unreachable!()
        };
        self.held -= slot.charge(meter);
        let Slot { buffer, window, .. } = slot;
        put_buffers(&mut self.spare, Buffers { buffer, window }, meter);
        Ok(())
    }

    /// Takes a record that is one fragment and lies whole in the piece, as most do, if the live connection of the
    /// number is Idle and under its hint. The connection is Idle until it is settled. `None` if it is not so, and
    /// then nothing changed.
    pub fn take_whole<'a>(
        &mut self,
        id: u64,
        piece: &'a [u8],
        clock: u64,
        meter: &mut Meter,
    ) -> Option<WholeRecord<'a>>
        requires { meter.old.tie ≡ self.old.tie }
        ensures acts { IfSome result (λ whole. TakesWhole id clock piece.now whole self.old self.new) }
        ensures arguments { IfSome result (λ whole. KeepsWhole id piece.now whole self.old) }
        ensures from { IfSome result (λ whole. EndedOn id clock self.old self.new) }
        ensures within { IfSome result (λ whole. 4 + length whole.content.now ≤ length piece.now) }
        ensures refused { IfNone result (self.new ≡ self.old) }
        ensures goes_on { GoOn self.old self.new }
        ensures as_many { length self.new.slots ≡ length self.old.slots }
        ensures cost { PaysAtMost meter.old meter.new 1 }
    {
        let content = one_fragment(piece)?;
        let slot = self.slots.get_mut(self.hints.key(Sought::Live(id)), meter)?;
        let who = slot.take_whole(id, clock)?;
        Some(WholeRecord { who, content })
    }

    /// Takes bytes that arrive on the live connection of the number, up to the end of a record, and returns the
    /// verdict on a record that ended, whose arguments go into `arguments`: `Gone` if there is no such connection.
    pub fn take(
        &mut self,
        id: u64,
        piece: &[u8],
        clock: u64,
        arguments: &mut Kept,
        meter: &mut Meter,
    ) -> Result<(Received, Standing), CoreFault>
        requires tie { meter.old.tie ≡ self.old.tie }
        requires arguments { IsDraft meter.old.tie arguments.old }
        ensures acts { TableTakesPiece id clock piece.now self.old self.new result }
        ensures stands { TellsReceived id self.new result }
        ensures arguments { TableHasArguments id piece.now self.old arguments.old arguments.new }
        ensures goes_on { GoOn self.old self.new }
        ensures ends { EndsOnFree id clock self.old self.new (without_standing result) }
        ensures within { IfOk result (λ got. got.0.count ≤ length piece.now) }
        ensures refused { OnErr result (self.new ≡ self.old) }
        ensures kept { OnErr result (arguments.new ≡ arguments.old) }
        ensures draft { IsDraft meter.old.tie arguments.new }
        ensures as_many { length self.new.slots ≡ length self.old.slots }
        ensures cost { PaysToTake self.old result meter.old meter.new }
    {
        let Some(slot) = live_slot(&mut self.slots, &mut self.hints, &mut self.held, id, meter)
        else {
            return Err(CoreFault::Gone);
        };
        let received = slot.take(piece, clock, arguments, meter);
        let standing = slot.standing();
        self.held += slot.charge(meter);
        Ok((received, standing))
    }

    /// Settles the live connection of the number when its record was answered, or its forwarded call has ended. It
    /// owes the reply in `draft`, for which it gives an empty buffer, or a list, whose first fragment is made in
    /// `draft`; or it is Awaiting, Idle or Lost.
    pub fn settle(
        &mut self,
        id: u64,
        served: Served,
        clock: u64,
        registry: &Registry,
        draft: &mut Kept,
        meter: &mut Meter,
    ) -> Standing
        requires registry { meter.old.tie ≡ registry.now.tie }
        requires tie { meter.old.tie ≡ self.old.tie }
        requires draft { IsDraft meter.old.tie draft.old }
        requires written { IsWritten served draft.old.bytes }
        requires lists { CanContinueAll registry.now self.old }
        ensures stands { Settles registry.now id clock served draft.old.bytes self.old self.new }
        ensures standing { IsStanding id self.new result }
        ensures lists { CanContinueAll registry.now self.new }
        ensures others { OnlyIsFreed id self.old self.new }
        ensures awaits { AwaitsIfForwarded (kind_in served) id self.old self.new }
        ensures stays { StaysTable self.old self.new }
        ensures draft { IsEmptyDraft meter.old.tie draft.new }
        ensures cost { PaysAtMost meter.old meter.new (settling_cost self.old registry.now served) }
    {
        let Some(slot) = live_slot(&mut self.slots, &mut self.hints, &mut self.held, id, meter)
        else {
            draft.clear(meter);
            return Standing::Lost;
        };
        slot.settle(served, clock, registry, draft, meter);
        let standing = slot.standing();
        self.held += slot.charge(meter);
        standing
    }

    /// Counts n of the pending bytes of the live connection of the number as given, or as many as there are, and
    /// returns where it stands then: `Gone` if there is none. The next fragment of a list is made in a buffer that
    /// is empty before and after.
    pub fn gave(
        &mut self,
        id: u64,
        n: usize,
        clock: u64,
        registry: &Registry,
        draft: &mut Kept,
        meter: &mut Meter,
    ) -> Result<Standing, CoreFault>
        requires registry { meter.old.tie ≡ registry.now.tie }
        requires tie { meter.old.tie ≡ self.old.tie }
        requires draft { IsEmptyDraft meter.old.tie draft.old }
        requires lists { CanContinueAll registry.now self.old }
        ensures acts { TableGives registry.now id clock n self.old self.new (as_done result) }
        ensures stands { TellsStanding id self.new result }
        ensures lists { CanContinueAll registry.now self.new }
        ensures free { NoneIsFreed self.old self.new }
        ensures refused { OnErr result (self.new ≡ self.old) }
        ensures stays { StaysTable self.old self.new }
        ensures draft { IsEmptyDraft meter.old.tie draft.new }
        ensures same_meter { meter.new.tie ≡ meter.old.tie }
        ensures cost { PaysToGive self.old registry.now id meter.old meter.new }
    {
        let Some(slot) = live_slot(&mut self.slots, &mut self.hints, &mut self.held, id, meter)
        else {
            return Err(CoreFault::Gone);
        };
        slot.gave(n, clock, registry, draft, meter);
        let standing = slot.standing();
        self.held += slot.charge(meter);
        Ok(standing)
    }

    /// Gives what is pending of the reply on the live connection of the number into `room`, and each fragment after
    /// that, as many as fit whole, and returns how many bytes and where it stands then: `Gone` if there is none.
    /// If none fits or is owed, nothing changes. Fragments of a list are made in a buffer that is empty before and
    /// after.
    pub fn write_into(
        &mut self,
        id: u64,
        room: &mut [u8],
        clock: u64,
        registry: &Registry,
        draft: &mut Kept,
        meter: &mut Meter,
    ) -> Result<Given, CoreFault>
        requires registry { meter.old.tie ≡ registry.now.tie }
        requires tie { meter.old.tie ≡ self.old.tie }
        requires draft { IsEmptyDraft meter.old.tie draft.old }
        requires lists { CanContinueAll registry.now self.old }
        ensures acts { TableWritesInto registry.now id clock self.old self.new room.new result }
        ensures within { given_in result ≤ length room.new }
        ensures nothing { given_in result ≡ 0 → self.new ≡ self.old }
        ensures stands { TellsGiven id self.new result }
        ensures lists { CanContinueAll registry.now self.new }
        ensures free { NoneIsFreed self.old self.new }
        ensures refused { OnErr result (self.new ≡ self.old) }
        ensures stays { StaysTable self.old self.new }
        ensures draft { IsEmptyDraft meter.old.tie draft.new }
        ensures same_meter { meter.new.tie ≡ meter.old.tie }
        ensures cost { PaysToWriteInto self.old registry.now id result meter.old meter.new }
    {
        let Some(slot) = live_slot(&mut self.slots, &mut self.hints, &mut self.held, id, meter)
        else {
            return Err(CoreFault::Gone);
        };
        let count = slot.write_into(room, clock, registry, draft, meter);
        let standing = slot.standing();
        self.held += slot.charge(meter);
        Ok(Given { count, standing })
    }

    /// The least stamp of the lists that are being given.
    pub fn oldest(&self, meter: &mut Meter) -> Option<u64>
        requires { meter.old.tie ≡ self.now.tie }
        ensures oldest { IsOldest (stamps_of self.now) result }
        ensures cost { PaysAtMost meter.old meter.new (oldest_cost (slot_count self.now)) }
    {
        soonest_in(&self.slots, |slot| slot.stamp(), meter)
    }

    /// Makes each connection Lost whose list began before this change.
    pub fn evict(&mut self, earliest: u64, meter: &mut Meter)
        requires { meter.old.tie ≡ self.old.tie }
        ensures evicts { EvictsBefore earliest self.old self.new }
        ensures lists { KeepsListing self.old self.new }
        ensures later { All (λ stamp. earliest ≤ stamp) (stamps_of self.new) }
        ensures open { StayOpen self.old self.new }
        ensures cost { PaysAtMost meter.old meter.new (evict_cost (slot_count self.old)) }
    {
        evict_slots(&mut self.slots, earliest, meter);
    }

    /// The connection of least number whose deadline has come becomes Lost.
    pub fn expire(&mut self, clock: u64, meter: &mut Meter) -> Option<u64>
        requires { meter.old.tie ≡ self.old.tie }
        ensures acts { TableActs (expire_first clock) self.old self.new result }
        ensures goes_on { GoOn self.old self.new }
        ensures cost { PaysAtMost meter.old meter.new (look_cost self.old) }
    {
        let Some(key) = wanted_key(&self.slots, &self.hints, Sought::Due(clock), meter) else {
            return None;
        };
        let Some(slot) = self.slots.get_mut(key, meter) else {
            unreachable!()
        };
        slot.stage = Stage::Lost;
        Some(slot.number)
    }

    /// How many bytes are held: those of the buffers of each connection, Lost ones too, and 128 for the rest of each.
    pub fn held(&self) -> u64
        ensures held { result ≡ held_in (values_of self.now.slots) }
        ensures bound { result ≤ most_charge * self.now.conns }
    {
        self.held
    }

    /// The first connection that is asked for.
    #[inline(always)]
    fn first(&self, wanted: Sought, meter: &mut Meter) -> Option<&Slot>
        requires { meter.old.tie ≡ self.now.tie }
        ensures found { Finds wanted self.now result }
        ensures buffers { IfSome result (λ slot. HasBuffers self.now.tie slot.now) }
        ensures cost { PaysAtMost meter.old meter.new (look_cost self.now) }
    {
        let Some(key) = wanted_key(&self.slots, &self.hints, wanted, meter) else {
            return None;
        };
        match self.slots.get(key, meter) {
            Some(slot) => Some(slot),
            None => None,
        }
    }

    /// How many bytes are pending on the live connection of the number: `Gone` if there is none.
    pub fn pending_len(&self, id: u64, meter: &mut Meter) -> Result<usize, CoreFault>
        requires { meter.old.tie ≡ self.now.tie }
        ensures len { TableShows (λ c. pending_count (pending_at id c)) self.now result }
        ensures cost { PaysAtMost meter.old meter.new (look_cost self.now + 1) }
    {
        let Some(slot) = self.first(Sought::Live(id), meter) else {
            return Err(CoreFault::Gone);
        };
        Ok(slot.pending_len(meter))
    }

    /// The rest of the current fragment of the reply that the live connection of the number owes, empty if it owes
    /// none: `Gone` if there is no such connection.
    pub fn pending(&self, id: u64, meter: &mut Meter) -> Result<&[u8], CoreFault>
        requires { meter.old.tie ≡ self.now.tie }
        ensures lent { TableLends (pending_at id) self.now result }
        ensures few { IfOk result (λ bytes. length bytes.now ≤ longest_fragment) }
        ensures cost { PaysAtMost meter.old meter.new (look_cost self.now + pending_cost) }
    {
        let Some(slot) = self.first(Sought::Live(id), meter) else {
            return Err(CoreFault::Gone);
        };
        Ok(slot.pending(meter))
    }

    /// The least number of those that are Lost.
    pub fn next_lost(&self, meter: &mut Meter) -> Option<u64>
        requires { meter.old.tie ≡ self.now.tie }
        ensures lost { TableShows next_lost_in_table self.now result }
        ensures cost { PaysAtMost meter.old meter.new (look_cost self.now) }
    {
        match self.first(Sought::AnyLost, meter) {
            Some(slot) => Some(slot.number),
            None => None,
        }
    }
}

impl Connections {
    ghost use Rattle.std.specs.Prelude.{◌≡◌};
    ghost use Rattle.rb_xdr.specs.Meter.{PaysAtMost};
    ghost use Rattle.rb_forward.specs.Deadlines.{soonest_cost};
    ghost use Rattle.rb_model.specs.NextDeadlines.{next_connection_deadline};
    ghost use Rattle.rb_connections.specs.Costs.{slot_count};
    ghost use Rattle.rb_connections.specs.Slots.{TableShows};

    /// The least deadline of the connections, or `None` if none of them has one. Before it `expire` makes none Lost.
    pub fn next_deadline(&self, meter: &mut Meter) -> Option<u64>
        requires { meter.old.tie ≡ self.now.tie }
        ensures soonest { TableShows next_connection_deadline self.now result }
        ensures cost { PaysAtMost meter.old meter.new (soonest_cost (slot_count self.now)) }
    {
        soonest_in(&self.slots, |slot| slot.deadline(), meter)
    }
}
