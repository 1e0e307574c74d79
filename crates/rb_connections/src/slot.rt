//! The slot of a connection: bytes that arrive on it, and bytes that are given on it.
ghost use Rattle.std.specs.Prelude.{◌≡◌, ◌+◌, [], Some, None};
ghost use Rattle.rb_xdr.specs.Meter.{Pays, PaysAtMost};

use crate::deadlines::time_in;
use crate::giving::{Giving, Rest, copy_framed, frame_next, write_fragments};
use crate::reading::{Fed, Reader};
use rb_address::{Host, Source, Trust, Who};
use rb_answers::ListReply;
use rb_model::{Response, Served, Standing};
use rb_registry::Registry;
use rb_rpc::Verdict;
use rb_xdr::{Kept, Meter, NoMemory};
use std::alloc::Global;
use std::mem;

/// What the fixed part of a connection counts as, in bytes.
pub const CONNECTION_CHARGE: u64 = 128;

/// The state of a connection, as the phase of the model.
#[derive(Clone, Copy)]
pub enum Stage {
    /// Between a reply and the next record.
    Idle,
    /// In the middle of a record.
    Reading(Reader),
    /// A reply is being given.
    Owing(Giving),
    /// Its call is forwarded, and its reply comes when that call ends.
    Awaiting,
    /// It takes and gives nothing more, and waits to be closed.
    Lost,
}

/// Which connection is looked for.
#[derive(Clone, Copy)]
pub enum Sought {
    /// The one of this number, unless it is Lost.
    Live(u64),
    /// The one of this number.
    Numbered(u64),
    /// The first that is Lost.
    AnyLost,
    /// The first whose deadline has come at this moment.
    Due(u64),
}

impl Sought {
    ghost use Rattle.std.specs.Prelude.{◌≡◌};
    ghost use Rattle.rb_connections.specs.Slots.{is_by_number};

    /// Whether it is asked for by its number, which no other connection has.
    pub fn is_by_number(self) -> bool
        ensures { result ≡ is_by_number self }
    {
        matches!(self, Sought::Live(_) | Sought::Numbered(_))
    }
}

/// The verdict on a record, and who sent it.
#[derive(Clone, Copy)]
pub struct EndedRecord {
    pub who: Who,
    pub verdict: Verdict,
}

/// What came of a piece of bytes: how many of them were taken, and the verdict on the record that ended with the last
/// of them, if one did.
#[derive(Clone, Copy)]
pub struct Received {
    pub count: usize,
    pub ended: Option<EndedRecord>,
}

/// A record that is one fragment and came whole: who sent it, and its data.
#[derive(Clone, Copy)]
pub struct WholeRecord<'a> {
    pub who: Who,
    pub content: &'a [u8],
}

/// What is kept of a connection.
#[derive(Drop)]
pub struct Slot {
    pub number: u64,
    pub who: Who,
    pub stage: Stage,
    /// The moment of its last progress, from which its deadline counts.
    pub since: u64,
    /// The first bytes of the arguments of the call that is read, or the whole reply that is given, if that is no
    /// list.
    pub buffer: Kept,
    /// The marked fragment of the reply that is being given.
    pub window: Kept,
}

/// Spare buffers, which no connection has.
#[derive(Drop)]
pub struct Buffers {
    pub buffer: Kept,
    pub window: Kept,
}

/// Names each field, so that a further one does not compile until it stands here. It belongs in the table of
/// charges of crates/rb_core/README.md first.
fn layout(slot: &Slot, spare: &Buffers) {
    let Slot {
        number,
        who,
        stage,
        since,
        buffer,
        window,
    } = slot;
    let _: (u64, Who, u64) = (*number, *who, *since);
    match *stage {
        Stage::Idle | Stage::Awaiting | Stage::Lost => {}
        Stage::Reading(reader) => {
            let _: Reader = reader;
        }
        Stage::Owing(giving) => {
            let _: Giving = giving;
        }
    }
    let _: &Kept = buffer;
    let _: &Kept = window;
    let Buffers { buffer, window } = spare;
    let _: &Kept = buffer;
    let _: &Kept = window;
}

/// Who is on a slot that no connection had yet.
fn nobody() -> Who {
    Who {
        source: Source::Local,
        asked: Host::V4([0; 4]),
        trust: Trust::Stranger,
    }
}

fn nothing() -> Received
    ensures { result ≡ record { count = 0; ended = None } }
{
    Received {
        count: 0,
        ended: None,
    }
}

impl Slot {
    /// A slot for a place of the pool that no connection had yet: its buffers have no memory.
    pub fn blank(alloc: Global) -> Result<Slot, NoMemory> {
        let meter = &mut Meter::new();
        Ok(Slot {
            number: 0,
            who: nobody(),
            stage: Stage::Idle,
            since: 0,
            buffer: Kept::new(alloc, 0, meter)?,
            window: Kept::new(alloc, 0, meter)?,
        })
    }

    ghost use Rattle.std.specs.Prelude.{◌≡◌, ◌≤◌, ◌<◌, ◌+◌, ℕ, List, [], true, false, length, Some, IfSome, IfNone};
    ghost use Rattle.rb_model.specs.State.{Connection};
    ghost use Rattle.rb_model.specs.Connections.{pending_in, longest_fragment};
    ghost use Rattle.rb_connections.specs.Slots.{is_due_slot, SlotActs, SlotGives, SlotWritesInto, SlotHasArguments, SlotShows, emptied_slot, ReceivesPiece, StandsBehindPiece, KeepsArguments, HasBuffers, IsDraft, IsEmptyDraft, StaysSlot, take_piece, received_whole, is_lost_stage, is_idle_stage, is_wanted_slot};
    ghost use Rattle.rb_connections.specs.StandsFor.{StandsForConnection, charge, most_charge, rest_in};
    ghost use Rattle.rb_model.specs.Served.{IsWritten, kind_in};
    ghost use Rattle.rb_model.specs.Calls.{kept_of};
    ghost use Rattle.rb_connections.specs.Listings.{stamp_of_slot, CanContinueSlot, SlotKeepsListing, CanContinueSlotByAll};
    ghost use Rattle.rb_connections.specs.Deadlines.{slot_deadline};
    ghost use Rattle.rb_connections.specs.Standings.{standing_of_slot};
    ghost use Rattle.rb_connections.specs.Giving.{CanMake};
    ghost use Rattle.rb_connections.specs.Settling.{SlotSettles};
    ghost use Rattle.rb_connections.specs.Giving.{SlotShowsNext, SlotGoesOn, WritesFitting};
    ghost use Rattle.rb_connections.specs.Awaits.{is_awaiting_stage, sender_on, EndsOnSlot, IsIdleAt};
    ghost use Rattle.rb_connections.specs.Costs.{received_cost, fragments_cost, next_cost, answered_cost, slot_given_cost, slot_into_cost};
    ghost use Rattle.rb_model.specs.Costs.{pending_cost};

    #[tactic(auto, unfolding(crate::specs::Slots::is_wanted_slot))]
    pub fn is_wanted(&self, wanted: Sought) -> bool
        ensures { result ≡ is_wanted_slot wanted self.now }
    {
        match wanted {
            Sought::Live(id) => self.number == id && !self.is_lost(),
            Sought::Numbered(id) => self.number == id,
            Sought::AnyLost => self.is_lost(),
            Sought::Due(clock) => self.is_due(clock),
        }
    }

    fn is_lost(&self) -> bool
        ensures { result ≡ is_lost_stage self.now.stage }
    {
        matches!(self.stage, Stage::Lost)
    }

    /// The stamp of the list that is being given: how many changes were accepted before it began.
    pub fn stamp(&self) -> Option<u64>
        ensures { result ≡ stamp_of_slot self.now }
    {
        match self.stage {
            Stage::Owing(giving) => giving.rest.stamp(),
            Stage::Idle | Stage::Reading(_) | Stage::Awaiting | Stage::Lost => None,
        }
    }

    /// Whether its deadline has come.
    #[tactic(auto, unfolding(crate::specs::Slots::is_due_slot, crate::specs::Deadlines::slot_deadline))]
    fn is_due(&self, clock: u64) -> bool
        ensures { result ≡ is_due_slot clock self.now }
    {
        match self.deadline() {
            Some(moment) => moment <= clock,
            None => false,
        }
    }

    /// The moment from which it is due, if there is one.
    #[tactic(auto, unfolding(crate::specs::Deadlines::slot_deadline, rb_forward::specs::Forwards::later))]
    pub fn deadline(&self) -> Option<u64>
        ensures { result ≡ slot_deadline self.now }
    {
        match time_in(&self.stage) {
            Some(time) => Some(self.since.saturating_add(time)),
            None => None,
        }
    }

    /// Where it stands.
    pub fn standing(&self) -> Standing
        ensures { result ≡ standing_of_slot self.now }
    {
        match self.stage {
            Stage::Idle => Standing::Idle,
            Stage::Reading(_) => Standing::Reading,
            Stage::Owing(_) => Standing::Owing,
            Stage::Awaiting => Standing::Awaiting,
            Stage::Lost => Standing::Lost,
        }
    }

    /// Feeds the piece to the record that is being read, up to its end. The arguments of a record that ended go into
    /// `arguments`.
    fn feed(
        &mut self,
        mut reader: Reader,
        piece: &[u8],
        clock: u64,
        arguments: &mut Kept,
        meter: &mut Meter,
    ) -> Received
        requires buffers { HasBuffers meter.old.tie self.old }
        requires arguments { IsDraft meter.old.tie arguments.old }
        ensures received { ReceivesPiece self.old reader clock piece.now result }
        ensures stands { StandsBehindPiece self.old self.new reader clock piece.now }
        ensures stage { is_awaiting_stage self.new.stage ≡ false }
        ensures lists { CanContinueSlotByAll self.new }
        ensures ended { IfSome result.ended (λ ended. IsIdleAt clock self.new) }
        ensures arguments { KeepsArguments self.old reader clock piece.now arguments.old arguments.new }
        ensures within { result.count ≤ length piece.now }
        ensures stays { StaysSlot meter.old.tie self.old self.new }
        ensures draft { IsDraft meter.old.tie arguments.new }
        ensures cost { PaysAtMost meter.old meter.new (received_cost result) }
    {
        let Fed { count, verdict } = reader.feed(&mut self.buffer, piece, meter);
        let Some(verdict) = verdict else {
            self.stage = Stage::Reading(reader);
            return Received { count, ended: None };
        };
        self.stage = Stage::Idle;
        self.since = clock;
        arguments.clear(meter);
        mem::swap(&mut self.buffer, arguments);
        let who = self.who;
        Received {
            count,
            ended: Some(EndedRecord { who, verdict }),
        }
    }

    /// Notes that a record came whole at this moment, and returns its sender. The connection stays Idle until it is
    /// settled. `None` if it is not the connection of this number, or not Idle; then nothing changed.
    pub fn take_whole(&mut self, id: u64, clock: u64) -> Option<Who>
        ensures idle { IfSome result (λ who. self.old.stage ≡ Stage.Idle) }
        ensures number { IfSome result (λ who. self.old.number ≡ id) }
        ensures since { IfSome result (λ who. self.new.since ≡ clock) }
        ensures kept { self.new ≡ record self.old { since = self.new.since } }
        ensures who { IfSome result (λ who. who ≡ self.old.who) }
        ensures sender { result ≡ sender_on id self.old }
        ensures stays { IfNone result (self.new ≡ self.old) }
    {
        if self.number != id || !matches!(self.stage, Stage::Idle) {
            return None;
        }
        self.since = clock;
        Some(self.who)
    }

    // SINCE-1
    /// Takes the bytes of the piece up to the end of a record, or all, and returns the verdict on a record that
    /// ended. Its arguments go into `arguments`, which is swapped for the connection's buffer. Nothing is taken while
    /// a reply is owed or awaited. From the end of a record on, the connection is Idle until it is settled.
    pub fn take(
        &mut self,
        piece: &[u8],
        clock: u64,
        arguments: &mut Kept,
        meter: &mut Meter,
    ) -> Received
        requires buffers { HasBuffers meter.old.tie self.old }
        requires arguments { IsDraft meter.old.tie arguments.old }
        ensures acts { SlotActs (take_piece clock piece.now) self.old self.new result }
        ensures arguments { SlotHasArguments piece.now self.old arguments.old arguments.new }
        ensures awaits { is_awaiting_stage self.new.stage ≡ is_awaiting_stage self.old.stage }
        ensures lists { SlotKeepsListing self.old self.new }
        ensures ended { IfSome result.ended (λ ended. EndsOnSlot clock self.old self.new) }
        ensures within { result.count ≤ length piece.now }
        ensures stays { StaysSlot meter.old.tie self.old self.new }
        ensures draft { IsDraft meter.old.tie arguments.new }
        ensures cost { PaysAtMost meter.old meter.new (received_cost result) }
    {
        if piece.is_empty() {
            return nothing();
        }
        match self.stage {
            Stage::Idle => {
                self.since = clock;
                self.feed(Reader::new(), piece, clock, arguments, meter)
            }
            Stage::Reading(reader) => self.feed(reader, piece, clock, arguments, meter),
            Stage::Owing(_) | Stage::Awaiting | Stage::Lost => nothing(),
        }
    }

    /// Empties its buffers, and the one for a reply.
    fn empty(&mut self, reply: &mut Kept, meter: &mut Meter)
        requires buffers { HasBuffers meter.old.tie self.old }
        requires draft { IsDraft meter.old.tie reply.old }
        ensures emptied { self.new ≡ emptied_slot self.old }
        ensures empty { reply.new ≡ record reply.old { bytes = [] } }
        ensures cost { PaysAtMost meter.old meter.new 3 }
    {
        self.buffer.clear(meter);
        self.window.clear(meter);
        reply.clear(meter);
    }

    /// Settles the connection when its record was answered, or its forwarded call has ended. It owes the reply in
    /// `draft`, which is swapped for its own buffer, or a list, whose first fragment is made in `draft`; or it is
    /// Awaiting, Idle or Lost. `draft` is empty after it.
    pub fn settle(
        &mut self,
        served: Served,
        clock: u64,
        registry: &Registry,
        draft: &mut Kept,
        meter: &mut Meter,
    )
        requires registry { meter.old.tie ≡ registry.now.tie }
        requires buffers { HasBuffers meter.old.tie self.old }
        requires draft { IsDraft meter.old.tie draft.old }
        requires written { IsWritten served draft.old.bytes }
        ensures stands { SlotSettles registry.now clock served draft.old.bytes self.old self.new }
        ensures awaits { kind_in served ≡ Response.Forwarded
            → is_awaiting_stage self.new.stage ≡ true }
        ensures lists { CanContinueSlot registry.now self.new }
        ensures stays { StaysSlot meter.old.tie self.old self.new }
        ensures draft { IsEmptyDraft meter.old.tie draft.new }
        ensures cost { PaysAtMost meter.old meter.new (answered_cost registry.now served) }
    {
        self.since = clock;
        match served {
            Served::Answered(Response::NoCall) => {
                self.stage = Stage::Lost;
                draft.clear(meter);
            }
            Served::Answered(Response::Forwarded) => {
                self.stage = Stage::Awaiting;
                self.empty(draft, meter);
            }
            Served::Answered(Response::Silent) => {
                self.stage = Stage::Idle;
                self.empty(draft, meter);
            }
            Served::Answered(Response::Reply) => {
                self.buffer.clear(meter);
                mem::swap(&mut self.buffer, draft);
                self.frame(Rest::Held(0), registry, draft, meter);
            }
            Served::Listed(xid, listing) => {
                self.buffer.clear(meter);
                let list = ListReply::new(xid, listing, registry);
                self.frame(Rest::Listed(list), registry, draft, meter);
            }
        }
    }

    /// Puts the next fragment of a reply, of which `rest` was not shown yet, in its window.
    fn frame(&mut self, rest: Rest, registry: &Registry, draft: &mut Kept, meter: &mut Meter)
        requires registry { meter.old.tie ≡ registry.now.tie }
        requires buffers { HasBuffers meter.old.tie self.old }
        requires draft { IsEmptyDraft meter.old.tie draft.old }
        requires made { CanMake registry.now rest }
        requires some { 0 < length (rest_in registry.now self.old.buffer.bytes rest) }
        ensures shows { SlotShowsNext registry.now rest self.old self.new }
        ensures draft { IsEmptyDraft meter.old.tie draft.new }
        ensures cost { PaysAtMost meter.old meter.new (next_cost registry.now rest) }
    {
        let giving = frame_next(rest, &self.buffer, registry, &mut self.window, draft, meter);
        self.stage = Stage::Owing(giving);
    }

    /// Counts n of the pending bytes as given, or as many as there are: with the last byte of its reply the
    /// connection is Idle again. The next fragment of a list is made in a buffer that is empty before and after.
    pub fn gave(
        &mut self,
        n: usize,
        clock: u64,
        registry: &Registry,
        draft: &mut Kept,
        meter: &mut Meter,
    )
        requires registry { meter.old.tie ≡ registry.now.tie }
        requires buffers { HasBuffers meter.old.tie self.old }
        requires draft { IsEmptyDraft meter.old.tie draft.old }
        requires lists { CanContinueSlot registry.now self.old }
        ensures acts { SlotGives registry.now clock n self.old self.new }
        ensures awaits { is_awaiting_stage self.new.stage ≡ is_awaiting_stage self.old.stage }
        ensures lists { CanContinueSlot registry.now self.new }
        ensures stays { StaysSlot meter.old.tie self.old self.new }
        ensures draft { IsEmptyDraft meter.old.tie draft.new }
        ensures cost { PaysAtMost meter.old meter.new (slot_given_cost registry.now self.old) }
    {
        let Stage::Owing(giving) = self.stage else {
            return;
        };
        let shown = self.window.len(meter);
        let more = n.min(shown.saturating_sub(giving.place));
        if more == 0 {
            return;
        }
        self.since = clock;
        let place = giving.place + more;
        if place < shown {
            self.stage = Stage::Owing(Giving { place, ..giving });
        } else if giving.last {
            self.end_reply(meter);
        } else {
            self.frame(giving.rest, registry, draft, meter);
        }
    }

    /// Gives what is pending of its reply into `room`, and each fragment after that, as many as fit whole: with the
    /// last byte of its reply the connection is Idle again. Returns how many bytes; 0 if none fits or is owed, and
    /// then nothing changed. Fragments of a list are made in a buffer that is empty before and after.
    pub fn write_into(
        &mut self,
        room: &mut [u8],
        clock: u64,
        registry: &Registry,
        draft: &mut Kept,
        meter: &mut Meter,
    ) -> usize
        requires registry { meter.old.tie ≡ registry.now.tie }
        requires buffers { HasBuffers meter.old.tie self.old }
        requires draft { IsEmptyDraft meter.old.tie draft.old }
        requires lists { CanContinueSlot registry.now self.old }
        ensures acts { SlotWritesInto registry.now clock self.old self.new room.new result }
        ensures within { result ≤ length room.new }
        ensures nothing { result ≡ 0 → self.new ≡ self.old }
        ensures awaits { is_awaiting_stage self.new.stage ≡ is_awaiting_stage self.old.stage }
        ensures lists { CanContinueSlot registry.now self.new }
        ensures stays { StaysSlot meter.old.tie self.old self.new }
        ensures draft { IsEmptyDraft meter.old.tie draft.new }
        ensures cost { PaysAtMost meter.old meter.new (slot_into_cost registry.now self.old result) }
    {
        let Stage::Owing(giving) = self.stage else {
            return 0;
        };
        let shown = copy_framed(giving.place, &self.window, room, meter);
        if shown == 0 {
            return 0;
        }
        self.since = clock;
        if giving.last {
            self.end_reply(meter);
            return shown;
        }
        let free = &mut room[shown..];
        shown + self.write_rest(giving.rest, free, registry, draft, meter)
    }

    /// Gives fragments of a reply, of which `rest` was not shown yet, into `room`, as many as fit whole. Returns how
    /// many bytes.
    fn write_rest(
        &mut self,
        rest: Rest,
        room: &mut [u8],
        registry: &Registry,
        draft: &mut Kept,
        meter: &mut Meter,
    ) -> usize
        requires registry { meter.old.tie ≡ registry.now.tie }
        requires buffers { HasBuffers meter.old.tie self.old }
        requires draft { IsEmptyDraft meter.old.tie draft.old }
        requires made { CanMake registry.now rest }
        requires some { 0 < length (rest_in registry.now self.old.buffer.bytes rest) }
        ensures written { WritesFitting
            (rest_in registry.now self.old.buffer.bytes rest) room.new result }
        ensures goes_on { SlotGoesOn registry.now rest result self.old self.new }
        ensures draft { IsEmptyDraft meter.old.tie draft.new }
        ensures cost { PaysAtMost meter.old meter.new
            (2 + fragments_cost registry.now rest result) }
    {
        let window = &mut self.window;
        let (count, next) = write_fragments(
            rest,
            &self.buffer,
            registry,
            room,
            window,
            draft,
            meter,
        );
        match next {
            Some(giving) => self.stage = Stage::Owing(giving),
            None => self.end_reply(meter),
        }
        count
    }

    /// Its reply has ended: it is Idle, and its buffers are empty.
    fn end_reply(&mut self, meter: &mut Meter)
        requires { HasBuffers meter.old.tie self.old }
        ensures ended { self.new ≡ record (emptied_slot self.old) { stage = Stage.Idle } }
        ensures cost { PaysAtMost meter.old meter.new 2 }
    {
        self.stage = Stage::Idle;
        self.buffer.clear(meter);
        self.window.clear(meter);
    }

    /// How many bytes it counts as held: those of its buffer and its window, and 128 for the rest.
    #[tactic(auto, unfolding(rb_model::specs::Calls::longest_reply, rb_model::specs::Calls::longest_kept, crate::specs::StandsFor::buffer_size, rb_model::specs::Connections::longest_fragment))]
    pub fn charge(&self, meter: &mut Meter) -> u64
        requires { HasBuffers meter.old.tie self.now }
        ensures charge { result ≡ charge self.now }
        ensures within { result ≤ most_charge }
        ensures cost { Pays meter.old meter.new 2 }
    {
        CONNECTION_CHARGE + self.buffer.len(meter) as u64 + self.window.len(meter) as u64
    }

    /// How many bytes are pending.
    pub fn pending_len(&self, meter: &mut Meter) -> usize
        requires { HasBuffers meter.old.tie self.now }
        ensures len { SlotShows (λ c. length (pending_in c.phase)) self.now result }
        ensures cost { PaysAtMost meter.old meter.new 1 }
    {
        match self.stage {
            Stage::Owing(giving) => self.window.len(meter).saturating_sub(giving.place),
            Stage::Idle | Stage::Reading(_) | Stage::Awaiting | Stage::Lost => 0,
        }
    }

    /// The rest of the current fragment of the reply that is owed, empty if none is.
    #[tactic(auto, unfolding(rb_model::specs::Connections::longest_fragment))]
    pub fn pending(&self, meter: &mut Meter) -> &[u8]
        requires { HasBuffers meter.old.tie self.now }
        ensures pending { SlotShows (λ c. pending_in c.phase) self.now result.now }
        ensures few { length result.now ≤ longest_fragment }
        ensures cost { PaysAtMost meter.old meter.new pending_cost }
    {
        match self.stage {
            Stage::Owing(giving) => {
                let end = self.window.len(meter);
                self.window.lend(end.min(giving.place)..end, meter)
            }
            Stage::Idle | Stage::Reading(_) | Stage::Awaiting | Stage::Lost => {
                self.window.lend(0..0, meter)
            }
        }
    }
}
