//! The place of an accepted connection: what is known of it, and its socket calls.
ghost use Rattle.std.specs.Prelude.{◌≡◌, ◌≤◌, ◌==◌, [], true, false, not, ◌&&◌, ◌||◌, nat_lt, length, drop, IfOk, IfSome, IfNone, Some, None, option_map, if◌then◌else◌};
ghost use Rattle.std.specs.Option.{is_some};
ghost use Rattle.rb_rpc.specs.declared.standing.Standing.TheVariants.{Owing, Awaiting};
ghost use Rattle.rb_policy.specs.declared.evidence.Evidence.TheVariants.{NotFound};
ghost use Rattle.rb_policy.specs.declared.outcome.Next.TheVariants.{AwaitEvent};
ghost use Rattle.rb_policy.specs.Turns.{is_cut_off};
ghost use Rattle.rb_links.specs.Holding.{BeginsAnew, is_between_records, must_wait, held_of, is_same_held};
ghost use Rattle.rb_links.specs.Numbers.{HasItsBytes, IsRest, HasMore};
ghost use Rattle.rb_links.specs.Outgoing.{nothing_in, own_room};
ghost use Rattle.rb_links.specs.Stands.{is_free, is_number, outer_standing, holder_of, stuck_of, round_in, is_reading, awaits_answer, is_for_the_core, takes_more, holds_bytes, longer_first, begun, ended, HasWritten, HasRead, IsLookedAt, IsOver};
ghost use Rattle.rb_links.specs.Shown.{arrival_in, unknown_ends, is_held, when_asked, awaits_pass, in_next_pass, is_sought_in, IsSoughtBy, may_be_told_later, IsShownBy, HasSeen, IsShown, StaysUnknown};

use crate::inbox::Inbox;
use crate::outbox::{OWN_ROOM, Outbox};
use mio::{Registry, Token};
use rb_address::Family;
use rb_arrivals::{Accepted, Arrival, Ends, Stream, Visitor};
use rb_evidence::Sight;
use rb_policy::{
    Evidence, Held, Holder, Next, Origin, Round, after_read, after_write, evidence_of, held_in,
    is_cut_off, is_local, looks_in, may_change, origin_now, origin_of, outcome_of_count, reads_on,
    round_of, shown_after, sight_in, standing_outside, stuck_at,
};
use rb_rpc::Standing;
use std::alloc::{AllocError, Global};

/// A turn of the daemon.
#[derive(Clone, Copy)]
pub struct Turn {
    /// Its number.
    pub number: u64,
    /// Its moment, in milliseconds since the start of 1970.
    pub moment: u64,
}

/// What the kernel's tables show of a connection, of which they are to show whose it is.
#[derive(Clone, Copy)]
struct Sought {
    /// How many passes through the tables it takes part in, or did.
    passes: u8,
    /// What they show of it so far.
    known: Evidence,
}

/// Whether the next byte that is handed in begins a record, by where the core says that the connection stands.
fn is_between_records(standing: Standing) -> bool
    ensures { result ≡ is_between_records standing }
{
    match standing {
        Standing::Reading => false,
        Standing::Idle | Standing::Owing | Standing::Awaiting | Standing::Sends => true,
        Standing::Lost => true,
    }
}

/// Whether it waits for a forwarded call, by where the core says that it stands.
fn awaits_answer(standing: Standing) -> bool
    ensures { result ≡ awaits_answer standing }
{
    match standing {
        Standing::Sends | Standing::Awaiting => true,
        Standing::Idle | Standing::Reading | Standing::Owing | Standing::Lost => false,
    }
}

impl Sought {
    /// None of them was asked yet.
    fn new() -> Sought
        ensures passes { result.passes ≡ 0 }
        ensures known { result.known ≡ NotFound }
    {
        Sought {
            passes: 0,
            known: Evidence::NotFound,
        }
    }
}

/// The place of an accepted connection. Its memory is taken before the first connection has it, and stays for the
/// next.
#[derive(Drop)]
pub struct Link {
    /// The core's number of the connection, under which it was opened; none before. It gets another one when it is known
    /// whose it is.
    id: Option<u64>,
    /// None if no connection has the place.
    stream: Option<Stream>,
    /// Whose the connection is that has the place. If that is not known, only calls that need no owner are handed in.
    visitor: Option<Visitor>,
    /// Whether the next byte to be handed in begins a record.
    is_between: bool,
    /// What the kernel's tables are to show of it, if they are.
    sought: Option<Sought>,
    /// What of its call is held back until they did.
    held: Held,
    /// Whether its peer has ended what it sends, or has reset it, as far as an event or a look showed.
    has_ended: bool,
    /// Among whose connections it counts when its call is not held back.
    origin: Origin,
    /// The moment of its last progress, or of its opening, in milliseconds. A record that ended is progress, and so
    /// are bytes of a reply that the outbox took over, those that the socket took, and begin and end of being held back.
    since: u64,
    /// Whether it made progress in the turn that serves it.
    made_progress: bool,
    /// Where the core said last that it stands. Before its first record it counts as one that reads.
    standing: Standing,
    /// What was read and not yet taken.
    pub inbox: Inbox,
    /// Its own, or the long one.
    pub outbox: Outbox,
    /// How many bytes were written in the last turn that served it.
    written: usize,
    /// Whether bytes were read or written in it.
    moved_some: bool,
    /// Whether the last read is not followed by another in this turn.
    read_was_short: bool,
}

impl Link {
    /// A place that no connection has.
    pub(crate) fn new(alloc: Global) -> Result<Link, AllocError>
        ensures outbox { IfOk result (λ link. link.outbox ≡ nothing_in own_room) }
        ensures number { IfOk result (λ link. link.id ≡ None) }
    {
        Ok(Link {
            id: None,
            stream: None,
            visitor: None,
            is_between: true,
            sought: None,
            held: Held::Nothing,
            has_ended: false,
            origin: Origin::Nobody,
            since: 0,
            made_progress: false,
            standing: Standing::Reading,
            inbox: Inbox::new(),
            outbox: Outbox::new(alloc, OWN_ROOM)?,
            written: 0,
            moved_some: false,
            read_was_short: false,
        })
    }

    /// The core's number of the connection that has the place, if that is opened.
    pub fn id(&self) -> Option<u64>
        ensures { result ≡ self.now.id }
    {
        self.id
    }

    /// Whether no connection has the place.
    pub(crate) fn is_free(&self) -> bool
        ensures { result ≡ is_free self.now }
    {
        self.stream.is_none()
    }

    /// Whether the connection of the number has the place.
    pub(crate) fn is_of(&self, id: u64) -> bool
        ensures { result ≡ is_number id self.now.id }
    {
        self.id == Some(id)
    }

    // TABLES-9
    /// A connection gets the place at this moment, in milliseconds. It is not opened yet.
    pub(crate) fn take(&mut self, accepted: Accepted, origin: Origin, moment: u64)
        ensures visitor { self.new.visitor ≡ Some accepted.visitor }
        ensures number { self.new.id ≡ None }
        ensures inbox { self.new.inbox ≡ [] }
        ensures outbox { self.new.outbox.bytes ≡ [] }
        ensures begins { BeginsAnew self.new }
        ensures origin { self.new.origin ≡ origin }
        ensures since { self.new.since ≡ moment }
    {
        self.id = None;
        self.stream = Some(accepted.stream);
        self.visitor = Some(accepted.visitor);
        self.is_between = true;
        self.sought = None;
        self.held = Held::Nothing;
        self.has_ended = false;
        self.origin = origin;
        self.since = moment;
        self.standing = Standing::Reading;
        self.inbox.clear();
        self.outbox.clear();
        self.read_was_short = false;
    }

    /// How whoever is there came in, as far as is known.
    pub(crate) fn arrival(&self) -> Option<Arrival>
        ensures { result ≡ arrival_in self.now }
    {
        match self.visitor {
            Some(visitor) => Some(visitor.arrival()),
            None => None,
        }
    }

    /// Its two ends, if it is not known whose it is.
    fn unknown_ends(&self) -> Option<Ends>
        ensures { result ≡ unknown_ends self.now }
    {
        match self.visitor {
            Some(Visitor::Unknown(ends)) => Some(ends),
            Some(Visitor::Known(_)) | None => None,
        }
    }

    /// Whether what was read must not be handed in before it is known whose it is: it may begin a call that needs an
    /// owner.
    fn must_wait(&self) -> bool
        ensures { result ≡ must_wait self.now }
    {
        self.unknown_ends().is_some() && self.is_between && may_change(self.inbox.bytes())
    }

    /// Holds back what was read, if it must not be handed in before it is known whose it is. Whether it is held back.
    pub fn hold_back(&mut self) -> bool
        ensures waits { result ≡ must_wait self.new }
        ensures held { self.new.held ≡ held_of self.new }
        ensures progress { self.new.made_progress ≡ (self.old.made_progress
            || (result && not (is_same_held self.new.held self.old.held))) }
    {
        if !self.must_wait() {
            self.held = Held::Nothing;
            return false;
        }
        if self.sought.is_none() {
            self.sought = Some(Sought::new());
        }
        let held = held_in(self.inbox.bytes());
        self.made_progress |= held != self.held;
        self.held = held;
        true
    }

    /// Whether some of its call is held back.
    pub(crate) fn is_held(&self) -> bool
        ensures { result ≡ is_held self.now.held }
    {
        self.held != Held::Nothing
    }

    /// The kernel's tables are to show whose it is, if they were not asked yet. Whether they are.
    pub(crate) fn seek(&mut self) -> bool
        ensures sought { self.new ≡ when_asked self.old }
        ensures awaits { result ≡ awaits_pass self.new }
    {
        let is_unknown = self.unknown_ends().is_some() && matches!(self.origin, Origin::New);
        if is_unknown && self.sought.is_none() {
            self.sought = Some(Sought::new());
        }
        self.awaits_pass()
    }

    /// Whether the kernel's tables are to show whose it is.
    pub(crate) fn is_sought(&self) -> bool
        ensures { result ≡ is_some self.now.sought }
    {
        self.sought.is_some()
    }

    /// Whether it waits for a pass through the kernel's tables that has not begun.
    pub(crate) fn awaits_pass(&self) -> bool
        ensures { result ≡ awaits_pass self.now }
    {
        self.sought.is_some_and(|sought| sought.passes == 0)
    }

    /// An event shows that its peer has ended what it sends, or has reset it.
    pub(crate) fn note_ended(&mut self)
        ensures { self.new ≡ record self.old { has_ended = true } }
    {
        self.has_ended = true;
    }

    /// Notes whether its peer has ended what it sends, or has reset it, if it is of this host: that may have happened since
    /// its last event.
    pub(crate) fn look_for_end(&mut self)
        ensures looked { IsLookedAt self.old self.new }
        ensures stays { self.old.has_ended ≡ true → self.new.has_ended ≡ true }
    {
        if let (true, Some(stream)) = (is_local(&self.origin), &self.stream) {
            self.has_ended |= stream.has_ended();
        }
    }

    /// A pass through the kernel's tables begins, in which it takes part if they are to show whose it is.
    pub(crate) fn begin_pass(&mut self)
        ensures { self.new ≡ record self.old { sought = option_map in_next_pass self.old.sought } }
    {
        if let Some(sought) = &mut self.sought {
            sought.passes = sought.passes.saturating_add(1);
            sought.known = Evidence::NotFound;
        }
    }

    // TABLES-2
    /// What a walk through the table of a family looks for, if it must look for it.
    pub(crate) fn sight_in(&self, table: Family) -> Option<Sight>
        ensures sought { IfSome result (IsSoughtBy table self.now) }
        ensures some { is_some result ≡ is_sought_in table self.now }
    {
        let ends = self.unknown_ends()?;
        let sought = self.sought?;
        if sought.passes > 0
            && !self.has_ended
            && looks_in(table, ends.theirs.family(), sought.known)
        {
            Some(sight_in(table, &ends.theirs, &ends.ours.address))
        } else {
            None
        }
    }

    /// Notes what a walk has seen of it, if it takes part in the pass, and if the walk came to the end of its table.
    pub(crate) fn note_seen(&mut self, is_whole: bool, sight: &Sight)
        ensures { HasSeen is_whole sight.now self.old self.new }
    {
        if let Some(sought) = &mut self.sought {
            if sought.passes > 0 {
                sought.known = evidence_of(is_whole, sight);
            }
        }
    }

    // TABLES-5
    /// A pass has ended at this moment, in milliseconds. If it showed whose this is, that is where it counts from here on; and
    /// if its call is held back, it goes on as who it is. It may wait for one more pass. Whether it goes on so.
    pub(crate) fn shown(&mut self, moment: u64) -> bool
        ensures shown { result ≡ true → IsShown moment self.old self.new }
        ensures waits { result ≡ false → StaysUnknown self.old self.new }
    {
        let Some(arrival) = self.arrival_shown(self.is_connected()) else {
            return false;
        };
        self.sought = None;
        self.origin = origin_of(&arrival.who());
        if !self.is_held() {
            return false;
        }
        self.held = Held::Nothing;
        self.visitor = Some(Visitor::Known(arrival));
        self.since = moment;
        true
    }

    // TABLES-5
    /// How whoever is there came in, by what the passes showed of its own two ends, and by whether it is connected still; none
    /// if there is one more, or it takes part in none.
    fn arrival_shown(&self, is_connected: bool) -> Option<Arrival>
        ensures shown { IfSome result (IsShownBy is_connected self.now) }
        ensures none { IfNone result (may_be_told_later self.now ≡ true) }
    {
        let ends = self.unknown_ends()?;
        let sought = self.sought?;
        if sought.passes == 0 {
            return None;
        }
        let evidence = shown_after(sought.passes, sought.known, is_connected, self.has_ended)?;
        Some(ends.arrival(evidence))
    }

    /// Whether the system says that it is connected still.
    fn is_connected(&self) -> bool {
        match &self.stream {
            Some(stream) => stream.is_connected(),
            None => false,
        }
    }

    /// Its number, which is its own no longer.
    pub(crate) fn take_id(&mut self) -> Option<u64>
        ensures taken { result ≡ self.old.id }
        ensures after { self.new ≡ record self.old { id = None } }
        ensures number { self.new.id ≡ None }
        ensures bytes { HasItsBytes self.old self.new }
    {
        self.id.take()
    }

    /// It goes on under this number of the core's.
    pub(crate) fn renumber(&mut self, id: u64)
        ensures { self.new ≡ record self.old { id = Some id } }
    {
        self.id = Some(id);
    }

    /// The connection that has the place is opened under this number of the core's, and its events are shown under the
    /// token. Whether that was done.
    pub(crate) fn open(&mut self, registry: &Registry, token: Token, id: u64) -> bool
        ensures number { result ≡ true → self.new.id ≡ Some id }
        ensures bytes { HasItsBytes self.old self.new }
    {
        let Some(stream) = &mut self.stream else {
            return false;
        };
        if stream.send_at_once().is_err() || stream.register(registry, token).is_err() {
            return false;
        }
        self.id = Some(id);
        true
    }

    /// Closes the connection that has the place, and gives its number, if it is opened. The long outbox is for others
    /// from here on.
    pub(crate) fn close(&mut self, long_outbox: &mut Outbox) -> Option<u64>
        ensures taken { result ≡ self.old.id }
        ensures number { self.new.id ≡ None }
        ensures outbox { self.new.outbox.bytes ≡ [] }
        ensures over { IsOver self.new }
    {
        self.stream = None;
        self.visitor = None;
        self.sought = None;
        self.held = Held::Nothing;
        self.outbox.clear();
        long_outbox.take_longer(&mut self.outbox);
        self.id.take()
    }

    /// Its forwarded call has ended. It counts as owing the reply, until the core says whether there is one.
    pub(crate) fn wake(&mut self)
        ensures { self.new ≡ record self.old { standing = Owing } }
    {
        self.standing = Standing::Owing;
    }

    /// Where it stands, as its client sees it: bytes are owed on it until its socket has taken them.
    fn standing_outside(&self) -> Standing
        ensures { result ≡ outer_standing self.now }
    {
        standing_outside(self.standing, !self.outbox.is_empty(), self.is_held())
    }

    /// The round of a turn in which it is served, by whether it is left.
    pub(crate) fn round(&self, is_left: bool) -> Round
        ensures { result ≡ round_in is_left self.now }
    {
        round_of(is_left, self.standing_outside())
    }

    // DOOR-12
    /// What `admit` is decided by, of the connection that has the place.
    pub(crate) fn holder(&self) -> Option<Holder>
        ensures { result ≡ holder_of self.now }
    {
        if self.is_free() {
            return None;
        }
        let standing = self.standing_outside();
        Some(Holder {
            origin: origin_now(self.origin, self.held, self.has_ended, standing),
            standing,
            since: self.since,
        })
    }

    /// The moment, in milliseconds, at which it is given up, if its socket takes nothing of what waits for it until then.
    pub(crate) fn stuck_at(&self) -> Option<u64>
        ensures { result ≡ stuck_of self.now }
    {
        if self.outbox.is_empty() {
            None
        } else {
            Some(stuck_at(self.since))
        }
    }

    /// A turn serves it from here on. It has the long outbox meanwhile, if that is free.
    pub fn begin(&mut self, long_outbox: &mut Outbox)
        ensures begun { self.new ≡ begun self.new.outbox self.old }
        ensures outbox { self.new.outbox ≡ (longer_first self.old.outbox long_outbox.old).0 }
        ensures long { long_outbox.new ≡ (longer_first self.old.outbox long_outbox.old).1 }
    {
        self.read_was_short = false;
        self.made_progress = false;
        self.written = 0;
        self.moved_some = false;
        self.outbox.take_longer(long_outbox);
    }

    /// The turn has served it. The long outbox is for others, unless bytes are left in it.
    pub fn end(&mut self, turn: Turn, long_outbox: &mut Outbox)
        ensures ended { self.new ≡ ended turn.moment self.new.outbox self.old }
        ensures outbox { self.new.outbox ≡ (longer_first long_outbox.old self.old.outbox).1 }
        ensures long { long_outbox.new ≡ (longer_first long_outbox.old self.old.outbox).0 }
    {
        long_outbox.take_longer(&mut self.outbox);
        if self.made_progress {
            self.since = turn.moment;
        }
    }

    /// Whether it is left for the next turn, after this many socket calls for it in this one.
    pub fn is_cut_off(&self, calls: usize) -> bool
        ensures { result ≡ is_cut_off calls self.now.written }
    {
        is_cut_off(calls, self.written)
    }

    /// Whether a socket call of this turn read or wrote bytes.
    pub fn moved_some(&self) -> bool
        ensures { result ≡ self.now.moved_some }
    {
        self.moved_some
    }

    /// Where the core said last that it stands.
    pub fn standing(&self) -> Standing
        ensures { result ≡ self.now.standing }
    {
        self.standing
    }

    /// Whether the core must be called for it: bytes must be handed in, or a reply is owed, and its socket has taken
    /// all replies that were before.
    pub fn is_for_the_core(&self) -> bool
        ensures { result ≡ is_for_the_core self.now }
    {
        let has_some = !self.inbox.is_empty() || self.standing == Standing::Owing;
        has_some && self.outbox.is_empty()
    }

    // PROGRESS-1: A record ended if bytes were taken and the connection is not Reading after them: a
    // byte of a record that goes on is no progress.
    /// The core took this many of the bytes that were read, and says where it stands then. A record that ended is progress.
    pub fn note_taken(&mut self, count: usize, standing: Standing)
        requires { count ≤ length self.old.inbox }
        ensures between { self.new.is_between ≡ is_between_records standing }
        ensures visitor { self.new.visitor ≡ self.old.visitor }
        ensures inbox { self.new.inbox ≡ drop count self.old.inbox }
        ensures outbox { self.new.outbox ≡ self.old.outbox }
        ensures number { self.new.id ≡ self.old.id }
        ensures standing { self.new.standing ≡ standing }
        ensures progress { self.new.made_progress ≡ (self.old.made_progress
            || (nat_lt 0 count && not (is_reading standing))) }
    {
        self.inbox.take(count);
        self.is_between = is_between_records(standing);
        self.standing = standing;
        self.made_progress |= count > 0 && standing != Standing::Reading;
    }

    /// The core gave this many bytes of the reply, which are in the outbox, and says where it stands then.
    pub fn note_given(&mut self, count: usize, standing: Standing)
        ensures bytes { HasItsBytes self.old self.new }
        ensures number { self.new.id ≡ self.old.id }
        ensures given { self.new ≡ record self.old {
          standing = standing;
          made_progress = self.old.made_progress || nat_lt 0 count;
        } }
    {
        self.standing = standing;
        self.made_progress |= count > 0;
    }

    /// Its forwarded call was sent.
    pub fn note_sent(&mut self)
        ensures { self.new ≡ record self.old { standing = Awaiting } }
    {
        self.standing = Standing::Awaiting;
    }

    /// Makes at most one socket call: a write if replies wait, else a read. If bytes are left that the core does
    /// not take while no reply is owed, it waits for the end of its forwarded call. A read that gets less than it has
    /// room for is the last of the turn, unless the peer may have ended what it sends: of that no other event comes.
    pub fn call_socket(&mut self, may_end: bool) -> Next
        ensures rest { IsRest self.old.outbox.bytes self.new.outbox.bytes }
        ensures number { self.new.id ≡ self.old.id }
        ensures wrote { (holds_bytes self.old.outbox && not (is_free self.old)) ≡ true
            → HasWritten self.old self.new result }
        ensures waits { holds_bytes self.old.outbox ≡ false
            → (self.old.read_was_short || not (takes_more self.old)) ≡ true
            → result ≡ AwaitEvent }
        ensures stays { holds_bytes self.old.outbox ≡ false
            → (self.old.read_was_short || not (takes_more self.old)) ≡ true
            → self.new ≡ self.old }
        ensures read { holds_bytes self.old.outbox ≡ false
            → (self.old.read_was_short || not (takes_more self.old)) ≡ false
            → is_free self.old ≡ false → HasRead may_end self.old self.new result }
        ensures inbox { HasMore self.old.inbox self.new.inbox }
    {
        if !self.outbox.is_empty() {
            return self.write();
        }
        if self.read_was_short || !self.takes_more() {
            return Next::AwaitEvent;
        }
        self.read(may_end)
    }

    // ASK-4: The rest of a call that is held back is read meanwhile, as far as there is room: a call that needs no owner is
    // answered as soon as that shows.
    /// Whether more is read from it: if all that was read was taken, or the rest of what is held back is yet to come.
    fn takes_more(&self) -> bool
        ensures { result ≡ takes_more self.now }
    {
        self.inbox.is_empty() || self.held == Held::Part && self.inbox.room() > 0
    }

    // OUTBOX-1
    /// Writes what waits, once.
    pub fn write(&mut self) -> Next
        ensures rest { IsRest self.old.outbox.bytes self.new.outbox.bytes }
        ensures wrote { is_free self.old ≡ false → HasWritten self.old self.new result }
        ensures inbox { self.new.inbox ≡ self.old.inbox }
        ensures number { self.new.id ≡ self.old.id }
    {
        let Some(stream) = &mut self.stream else {
            return Next::Close;
        };
        let came = self.outbox.send(&mut stream.outgoing());
        if let Ok(n) = came {
            self.written = self.written.saturating_add(n);
            self.made_progress |= n > 0;
            self.moved_some |= n > 0;
        }
        after_write(outcome_of_count(&came))
    }

    /// Reads once, behind what was read before.
    fn read(&mut self, may_end: bool) -> Next
        ensures outbox { self.new.outbox ≡ self.old.outbox }
        ensures inbox { HasMore self.old.inbox self.new.inbox }
        ensures read { is_free self.old ≡ false → HasRead may_end self.old self.new result }
        ensures number { self.new.id ≡ self.old.id }
    {
        let Some(stream) = &mut self.stream else {
            return Next::Close;
        };
        let room = self.inbox.room();
        let waits = awaits_answer(self.standing);
        let came = self.inbox.read(&mut stream.incoming());
        if let Ok(n) = came {
            self.read_was_short = !reads_on(n, room, may_end);
            self.moved_some |= n > 0;
        }
        after_read(outcome_of_count(&came), waits)
    }
}
