//! What is kept of entries, in the order of their calls.
ghost use Rattle.std.specs.Prelude.{◌≡◌, length};
ghost use Rattle.std.specs.Option.{option_map};
ghost use Rattle.rb_xdr.specs.Meter.{PaysAtMost};
ghost use Rattle.rb_xdr.specs.Places.{to_come};
ghost use Rattle.rb_forward.specs.Costs.{find_cost};
ghost use Rattle.rb_forward.specs.Table.{is_wanted_slot, wanted_slot};

use crate::types::Forward;
use rb_address::{Caller, Host, Peer, Source, Trust, Who};
use rb_arguments::Kind;
use rb_xdr::{Kept, Meter, NoMemory, Pool};
use std::alloc::Global;

/// What is kept of an entry.
#[derive(Drop)]
pub struct Slot {
    pub number: u64,
    pub forward: Forward,
    /// The xid of the call to the target.
    pub xid: u32,
    /// The moment at which the entry ends at the latest, in milliseconds.
    pub deadline: u64,
    pub sent: bool,
    /// The call's bytes until it is sent, and then none.
    pub call: Kept,
}

/// Names each field, so that a further one does not compile until it stands here. It belongs in the table of
/// charges of crates/rb_core/README.md first.
fn layout(slot: &Slot) {
    let Slot {
        number,
        forward,
        xid,
        deadline,
        sent,
        call,
    } = slot;
    let _: (u64, Forward, u32, u64, bool) = (*number, *forward, *xid, *deadline, *sent);
    let _: &Kept = call;
}

/// Which entry is looked for: the first of these.
#[derive(Clone, Copy)]
pub enum Sought {
    /// Those that were not sent.
    AnyUnsent,
    /// Those of this number that were not sent.
    Unsent(u64),
    /// Those that were sent and that a reply of this xid from there answers at this moment.
    Answered(u32, Peer, u64),
    /// Those whose deadline has come at this moment.
    Due(u64),
    /// Those whose caller is this connection.
    OfConnection(u64),
}

impl Slot {
    /// What is written to a place before any entry has it: its buffer has no memory.
    pub fn blank(alloc: Global) -> Result<Slot, NoMemory> {
        let nobody = Peer::new(Host::V4([0; 4]), 0);
        let who = Who {
            source: Source::Inet(nobody),
            asked: Host::V4([0; 4]),
            trust: Trust::Stranger,
        };
        let forward = Forward {
            caller: Caller::Udp(who, 0),
            xid: 0,
            kind: Kind::Indirect,
            target: nobody,
            shown: nobody,
            prog: 0,
            vers: 0,
            proc: 0,
        };
        Ok(Slot {
            number: 0,
            forward,
            xid: 0,
            deadline: 0,
            sent: false,
            call: Kept::new(alloc, 0, &mut Meter::new())?,
        })
    }

    ghost use Rattle.std.specs.Prelude.{◌≡◌};
    ghost use Rattle.rb_forward.specs.Forwards.{is_same_peer, is_connection};
    ghost use Rattle.rb_forward.specs.Table.{is_wanted_slot};

    #[tactic(auto, unfolding(crate::specs::Table::is_wanted_slot, crate::specs::Forwards::is_same_peer))]
    fn is_wanted(&self, wanted: Sought) -> bool
        ensures { result ≡ is_wanted_slot wanted self.now }
    {
        match wanted {
            Sought::AnyUnsent => !self.sent,
            Sought::Unsent(number) => self.number == number && !self.sent,
            Sought::Answered(xid, from, clock) => {
                self.sent && self.forward.target == from && self.xid == xid && clock < self.deadline
            }
            Sought::Due(clock) => self.deadline <= clock,
            Sought::OfConnection(id) => match self.forward.caller {
                Caller::Tcp(number, _) => number == id,
                Caller::Udp(_, _) => false,
            },
        }
    }
}

impl Slot {
    ghost use Rattle.rb_forward.specs.Table.{without_call};

    /// Notes that the call was sent, and empties its buffer, which had this many bytes.
    pub(crate) fn empty(&mut self, meter: &mut Meter) -> usize
        requires { meter.old.tie ≡ self.old.call.tie }
        ensures count { result ≡ length self.old.call.bytes }
        ensures sent { self.new ≡ without_call self.old }
        ensures cost { PaysAtMost meter.old meter.new 2 }
    {
        let count = self.call.len(meter);
        self.call.clear(meter);
        self.sent = true;
        count
    }
}

/// The key of the first slot that is looked for.
#[tactic(auto, unfolding(crate::specs::Table::wanted_slot))]
pub(crate) fn wanted_key(slots: &Pool<Slot>, wanted: Sought, meter: &mut Meter) -> Option<usize>
    requires tie { meter.old.tie ≡ slots.now.tie }
    ensures key { result ≡ option_map (λ e. e.0) (wanted_slot wanted slots.now.entries) }
    ensures cost { PaysAtMost meter.old meter.new (find_cost (length slots.now.entries)) }
{
    slots.find_key(|slot| slot.is_wanted(wanted), meter)
}
