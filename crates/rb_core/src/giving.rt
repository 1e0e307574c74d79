//! The call that gives what a connection owes, fragment by fragment, into a room of the caller's.
ghost use Rattle.std.specs.Prelude.{◌≡◌, ◌≤◌, length, IfOk, OnErr};
ghost use Rattle.rb_model.specs.Gives.{given_in};
ghost use Rattle.rb_core.specs.Events.{count_shown, OnlyBegins};
ghost use Rattle.rb_core.specs.Gives.{WritesInto};
ghost use Rattle.rb_core.specs.Memory.{KeepsMemory};
ghost use Rattle.rb_core.specs.CallCosts.{PaysToWriteInto};
ghost use Rattle.rb_core.specs.Standings.{StandsThen};

use crate::holding::Core;
use rb_model::{CoreFault, Given};
use rb_xdr::Meter;

impl Core {
    /// Gives the reply that a connection owes into `room` at the moment `now`, with the headers of its fragments
    /// (RFC 5531 section 11): the rest of the fragment that is pending, and each fragment after it, as many as fit
    /// whole, up to the end of the reply. It returns how many bytes, from the first one on, and where the connection
    /// stands then. It is what `pending` and `gave` of each of these fragments do, one after the other. Room for 1,028
    /// bytes has place for the longest fragment. If none fits or is owed, nothing changes but the count from which
    /// `steps` starts. `Gone` if there is no such connection, or it is Lost.
    pub fn write_into(
        &mut self,
        now: u64,
        id: u64,
        room: &mut [u8],
        meter: &mut Meter,
    ) -> Result<Given, CoreFault>
        requires { meter.old.tie ≡ self.old.tie }
        ensures acts { WritesInto now id self.old self.new room.new result }
        ensures within { given_in result ≤ length room.new }
        ensures nothing { given_in result ≡ 0 → OnlyBegins self.old self.new }
        ensures stands { IfOk result (λ done. StandsThen id self.new done.standing) }
        ensures refused { OnErr result (OnlyBegins self.old self.new) }
        ensures tie { self.new.tie ≡ self.old.tie }
        ensures memory { KeepsMemory self.old self.new }
        ensures begun { self.new.steps_before ≡ count_shown meter.old }
        ensures same_meter { meter.new.tie ≡ meter.old.tie }
        ensures cost { PaysToWriteInto self.old id result meter.old meter.new }
    {
        self.steps_before = meter.count();
        let clock = self.clock.max(now);
        let registry = &self.books.registry;
        let draft = &mut self.draft;
        let given = self
            .connections
            .write_into(id, room, clock, registry, draft, meter)?;
        if given.count == 0 {
            return Ok(given);
        }
        self.clock = clock;
        Ok(given)
    }
}
