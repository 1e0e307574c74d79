//! What a core holds: how it is made, how many bytes it holds, and their bound.
ghost use Rattle.std.specs.Prelude.{◌≡◌, ◌≤◌, length, IsTrue};
ghost use Rattle.rb_answers.specs.Callers.{own_rows};
ghost use Rattle.rb_model.specs.State.{are_good};
ghost use Rattle.rb_model.specs.Bounds.{bytes_bound};

use rb_connections::{BUFFER_SIZE, CONNECTION_CHARGE, Connections};
use rb_forward::{ENTRY_CHARGE, LONGEST_FORWARDED_CALL};
use rb_model::{CoreFault, LONGEST_REPLY, Limits};
use rb_proto::{Books, Listener, own_row_count};
use rb_registry::ROW_CHARGE;
use rb_rpc::LONGEST_FRAGMENT;
use rb_serving::Seen;
use rb_xdr::{Kept, Meter};
use std::alloc::Global;
use std::marker::Model;

/// The longest call that is served: a head of 840 bytes, and arguments.
const LONGEST_SERVED_CALL: u64 = 9_656;

/// The longest address text of a row.
const LONGEST_ADDRESS: u64 = 128;

/// How many keys the statistics may have.
pub const MOST_KEYS: u64 = 192;

/// The daemon's logic, over the pools and buffers that `new` makes.
pub struct Core {
    pub(crate) limits: Limits,
    pub(crate) listener: Listener,
    first_xid: u32,
    pub(crate) clock: u64,
    pub(crate) connections: Connections,
    pub(crate) books: Books,
    /// The last reply over UDP, and how many bytes it has.
    pub(crate) reply: Kept,
    pub(crate) reply_len: u64,
    /// Where the reply on a connection is written; empty between two events. The connection swaps its own buffer for
    /// it.
    pub(crate) draft: Kept,
    /// The arguments of a record that ended; empty between two events. The connection swaps its own buffer, with the
    /// arguments, for it.
    pub(crate) arguments: Kept,
    /// What the meter showed as the last event began.
    pub(crate) steps_before: u128,
    /// What there is to tell of the last whole call, if anything. No answer depends on it.
    pub(crate) seen: Option<Seen>,
}

// CHARGE-1: A core keeps its bytes in pools, buffers and the index of rows alone, beside the fields
// of the table of charges.
/// Names each field, so that a further one does not compile until it stands here. It belongs in the table of
/// charges of crates/rb_core/README.md first.
fn layout(core: &Core) {
    let Core {
        limits,
        listener,
        first_xid,
        clock,
        connections,
        books,
        reply,
        reply_len,
        draft,
        arguments,
        steps_before,
        seen,
    } = core;
    let _: Limits = *limits;
    let _: (u32, u64, u64, u128) = (*first_xid, *clock, *reply_len, *steps_before);
    let _: &Listener = listener;
    let _: &Connections = connections;
    let _: &Books = books;
    let _: &Kept = reply;
    let _: &Kept = draft;
    let _: &Kept = arguments;
    let _: &Option<Seen> = seen;
}

impl Model for Core {
    ghost use Rattle.rb_core.specs.StandsFor.{CoreView};
    ghost use Rattle.rb_core.specs.Core.{IsCore};

    ghost Value = { CoreView };

    ghost view = { λ c. record {
      setting = record { limits = c.limits; listener = c.listener; first_xid = c.first_xid };
      clock = c.clock;
      connections = c.connections;
      books = c.books;
      reply = c.reply.bytes;
      arguments = c.arguments.bytes;
      steps_before = c.steps_before;
      tie = c.reply.tie;
    } };

    ghost invariant = { λ c. IsCore (record { limits = c.limits; listener = c.listener; first_xid = c.first_xid })
        c.connections c.books c.reply c.draft c.arguments c.reply_len };
}

// Written out, so that each place that drops a core, as each `?` after one does, calls this once, in place of code
// that frees it part by part.
impl Drop for Core {
    fn drop(self) {
        let Core {
            limits: _,
            listener,
            first_xid: _,
            clock: _,
            connections,
            books,
            reply,
            reply_len: _,
            draft,
            arguments,
            steps_before: _,
            seen,
        } = self;
        drop(listener);
        drop(connections);
        drop(books);
        drop(reply);
        drop(draft);
        drop(arguments);
        drop(seen);
    }
}

/// How many bytes a core of these limits may hold: for each connection its fixed part, a whole call and a whole
/// fragment; for each row its fixed part and an address text of 128 bytes; for each forwarded call its fixed part and
/// the call; the keys of the statistics; and a reply.
#[tactic(auto, unfolding(rb_model::specs::Calls::longest_reply, rb_model::specs::Connections::longest_fragment, rb_arguments::specs::Forwarded::longest_forwarded))]
fn bytes_bound(limits: &Limits) -> u64
    requires conns { limits.now.conns ≤ 256 }
    requires rows { limits.now.rows ≤ 4096 }
    requires forwards { limits.now.forwards ≤ 64 }
    ensures { result ≡ bytes_bound limits.now }
{
    let conns = limits.conns as u64
        * (CONNECTION_CHARGE + LONGEST_SERVED_CALL + LONGEST_FRAGMENT as u64);
    let rows = limits.rows as u64 * (ROW_CHARGE + LONGEST_ADDRESS);
    let forwards = limits.forwards as u64 * (ENTRY_CHARGE + LONGEST_FORWARDED_CALL as u64);
    conns + rows + forwards + MOST_KEYS * 48 + LONGEST_REPLY as u64
}

fn are_good(limits: &Limits, listener: &Listener) -> bool
    ensures value { result ≡ are_good limits.now listener.now }
    ensures conns { IsTrue result → limits.now.conns ≤ 256 }
    ensures rows { IsTrue result → length (own_rows listener.now) ≤ limits.now.rows }
    ensures few_rows { IsTrue result → limits.now.rows ≤ 4096 }
    ensures forwards { IsTrue result → limits.now.forwards ≤ 64 }
{
    1 <= limits.conns
        && limits.conns <= 256
        && own_row_count(listener) + 2 <= limits.rows
        && limits.rows <= 4096
        && limits.forwards <= 64
}

impl Core {
    ghost use Rattle.std.specs.Prelude.{◌≡◌, ◌↔◌, IsTrue, IfOk, IfErr, IsErrOf, not};
    ghost use Rattle.rb_xdr.specs.Meter.{PaysAtMost};
    ghost use Rattle.rb_model.specs.State.{are_good, opening};
    ghost use Rattle.rb_model.specs.Bounds.{bytes_bound};
    ghost use Rattle.rb_core.specs.StandsFor.{StandsFor};
    ghost use Rattle.rb_core.specs.HeldBytes.{held};
    ghost use Rattle.rb_core.specs.Events.{count_shown};
    ghost use Rattle.rb_core.specs.Memory.{LacksMemory};
    ghost use Rattle.rb_core.specs.CallCosts.{making_cost};

    /// Makes a core with the daemon's own rows alone, at the moment `now` (milliseconds since the start of 1970). It
    /// takes all its memory here. `first_xid` is the xid of the first call that it forwards. `BadLimits` if a limit is
    /// out of its range, or the rows have no room for the own ones and two more; else `NoMemory` if an allocation is
    /// refused.
    #[tactic(auto, unfolding(rb_model::specs::Calls::longest_reply, rb_model::specs::Calls::longest_kept, rb_connections::specs::StandsFor::buffer_size))]
    pub fn new(
        alloc: Global,
        limits: Limits,
        listener: Listener,
        first_xid: u32,
        now: u64,
        meter: &mut Meter,
    ) -> Result<Core, CoreFault>
        ensures made { IfOk result
            (λ core. StandsFor core (opening limits listener first_xid now)) }
        ensures tie { IfOk result (λ core. core.tie ≡ meter.old.tie) }
        ensures begun { IfOk result (λ core. core.steps_before ≡ count_shown meter.new) }
        ensures bad { IsErrOf result CoreFault.BadLimits ↔ IsTrue (not (are_good limits listener)) }
        ensures memory { IfErr result (LacksMemory limits listener) }
        ensures cost { PaysAtMost meter.old meter.new (making_cost limits listener) }
    {
        if !are_good(&limits, &listener) {
            return Err(CoreFault::BadLimits);
        }
        // What takes many parts to let go is made last, since each `?` lets go all that was made before it.
        let Ok(reply) = Kept::new(alloc, LONGEST_REPLY, meter) else {
            return Err(CoreFault::NoMemory);
        };
        let Ok(draft) = Kept::new(alloc, BUFFER_SIZE, meter) else {
            return Err(CoreFault::NoMemory);
        };
        let Ok(arguments) = Kept::new(alloc, BUFFER_SIZE, meter) else {
            return Err(CoreFault::NoMemory);
        };
        let Ok(connections) = Connections::new(alloc, limits.conns, meter) else {
            return Err(CoreFault::NoMemory);
        };
        let forwards = limits.forwards as u32;
        let Ok(books) = Books::new(alloc, limits.rows, forwards, first_xid, &listener, meter) else {
            return Err(CoreFault::NoMemory);
        };
        Ok(Core {
            limits,
            listener,
            first_xid,
            clock: now,
            connections,
            books,
            reply,
            reply_len: 0,
            draft,
            arguments,
            steps_before: meter.count(),
            seen: None,
        })
    }

    /// How many bytes are held: 128 for each connection, Lost ones too, with those of its buffers; 204 for each row, with
    /// those of its address text; 48 for each key of the statistics; 128 for each forwarded call, with those that are
    /// still to be sent; and those of the last reply over UDP.
    pub fn held(&self) -> u64
        ensures { result ≡ held self.now }
    {
        self.connections.held()
            + self.books.registry.held()
            + self.books.stats.held()
            + self.books.forwards.held()
            + self.reply_len
    }

    /// The bound that `held` never passes, in bytes, by the limits alone.
    pub fn bytes_bound(&self) -> u64
        ensures { result ≡ bytes_bound self.now.setting.limits }
    {
        bytes_bound(&self.limits)
    }
}
