//! Worked examples of the definitions, which the proof computes.
ghost use Rattle.rb_show.specs.Worked.{CallOfTheTable, RowIsTold, MappingIsToldAsARow, RefusalIsTold, CutHeadIsCutOff, OtherXidIsUnreadable, CutListTellsItsRows, CutListTellsItsObjects, SpacedTextIsOfTheGrammar, LeadingZeroIsNoNumber};

/// The definitions give what the worked examples say.
pub fn worked_examples()
    ensures call { CallOfTheTable }
    ensures row { RowIsTold }
    ensures mapping { MappingIsToldAsARow }
    ensures refusal { RefusalIsTold }
    ensures cut_head { CutHeadIsCutOff }
    ensures other_xid { OtherXidIsUnreadable }
    ensures cut_list { CutListTellsItsRows }
    ensures objects { CutListTellsItsObjects }
    ensures spaced { SpacedTextIsOfTheGrammar }
    ensures leading_zero { LeadingZeroIsNoNumber }
{}
