//! What is pending on a connection, and what a core lends, once the event that lends it has begun.
ghost use Rattle.std.specs.Prelude.{◌≡◌, ◌+◌, ◌≤◌, length, IfOk, IfSome};
ghost use Rattle.rb_xdr.specs.Meter.{Pays, PaysAtMost};
ghost use Rattle.rb_forward.specs.StandsFor.{longest_forwarded_call};
ghost use Rattle.rb_forward.specs.Table.{plain_unsent, count_lent};
ghost use Rattle.rb_model.specs.Connections.{longest_fragment};
ghost use Rattle.rb_model.specs.Step.{pending, unsent_call};
ghost use Rattle.rb_connections.specs.Costs.{look_cost};
ghost use Rattle.rb_connections.specs.Giving.{pending_count};
ghost use Rattle.rb_connections.specs.Slots.{Shows, Lends};
ghost use Rattle.rb_core.specs.StandsFor.{StandsFor};
ghost use Rattle.rb_core.specs.CallCosts.{lend_pending_cost, lending_cost};
ghost use Rattle.rb_core.specs.Events.{BeginsAt};

use crate::holding::Core;
use rb_forward::Unsent;
use rb_model::CoreFault;
use rb_xdr::Meter;

impl Core {
    /// An event begins: `steps` counts from here on.
    pub(crate) fn begin(&mut self, meter: &Meter)
        ensures { BeginsAt meter.now self.old self.new }
    {
        self.steps_before = meter.count();
    }

    /// The last reply over UDP; empty if the last event had none.
    pub(crate) fn lend_reply(&self, meter: &mut Meter) -> &[u8]
        requires { meter.old.tie ≡ self.now.tie }
        ensures held { result.now ≡ self.now.reply }
        ensures reply { Shows StandsFor (λ s. s.reply) self.now result.now }
        ensures cost { Pays meter.old meter.new (1 + length self.now.reply) }
    {
        let len = self.reply.len(meter);
        self.reply.lend(0..len, meter)
    }

    /// What is pending on a connection. `Gone` if there is no such connection, or it is Lost.
    pub(crate) fn lend_pending(&self, id: u64, meter: &mut Meter) -> Result<&[u8], CoreFault>
        requires { meter.old.tie ≡ self.now.tie }
        ensures lent { Lends StandsFor (λ s. pending s id) self.now result }
        ensures few { IfOk result (λ bytes. length bytes.now ≤ longest_fragment) }
        ensures cost { PaysAtMost meter.old meter.new (lend_pending_cost self.now) }
    {
        self.connections.pending(id, meter)
    }

    /// The number of bytes that are pending on a connection. `Gone` if there is no such connection, or it is Lost.
    pub fn pending_len(&self, id: u64, meter: &mut Meter) -> Result<usize, CoreFault>
        requires { meter.old.tie ≡ self.now.tie }
        ensures len { Shows StandsFor (λ s. pending_count (pending s id)) self.now result }
        ensures cost { PaysAtMost meter.old meter.new (look_cost self.now.connections + 1) }
    {
        self.connections.pending_len(id, meter)
    }

    /// The unsent forwarded call of least number. `None` if all are sent.
    pub(crate) fn lend_unsent(&self, meter: &mut Meter) -> Option<Unsent<'_>>
        requires { meter.old.tie ≡ self.now.tie }
        ensures unsent { Shows StandsFor unsent_call self.now (plain_unsent result) }
        ensures few { IfSome result (λ lent. length lent.call.now ≤ longest_forwarded_call) }
        ensures cost { PaysAtMost meter.old meter.new (lending_cost self.now (count_lent result)) }
    {
        self.books.unsent(meter)
    }
}
