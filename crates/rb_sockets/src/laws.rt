//! Worked examples of the addresses that a machine has.
ghost use Rattle.rb_sockets.specs.MachineExamples.{OfInterfaces};

/// The addresses of a machine, and of each of its interfaces.
#[tactic(auto, unfolding(crate::proofs::OnLiterals::rb_sockets_on_literals))]
pub fn address_examples()
    ensures { OfInterfaces }
{}
