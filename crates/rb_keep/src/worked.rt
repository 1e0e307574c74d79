//! Worked examples of the definitions, which the proof computes.
ghost use Rattle.rb_keep.specs.Worked.{LinesOfTwoRows, TwoLinesAreRead, ARowGoes, OtherLinesAreNamed};

/// The definitions give what the worked examples say.
#[tactic(auto, unfolding(crate::proofs::OnLiterals::rb_keep_on_literals))]
pub fn worked_examples()
    ensures lines { LinesOfTwoRows }
    ensures read { TwoLinesAreRead }
    ensures gone { ARowGoes }
    ensures others { OtherLinesAreNamed }
{}
