//! Worked examples of the definitions.
#![tactic(auto, unfolding(crate::proofs::OnLiterals::rb_arguments_on_literals))]

ghost use Rattle.rb_arguments.specs.Worked.{ProceduresAreKnown, GreatestArguments};

/// The definitions give what the worked examples say.
pub fn worked_examples()
    ensures procedures_are_known { ProceduresAreKnown }
    ensures greatest_arguments { GreatestArguments }
{}
