//! What holds of the definitions.
ghost use Rattle.rb_lines.specs.LineGrammar.{EventsAreSpelled, SkippedSayNothing, BadSpellNothing};
ghost use Rattle.rb_lines.specs.RecordLaws.{RecordsAreRead, EndedRecordsAreRead};
ghost use Rattle.rb_lines.specs.LineLaws.{ReadsTheEvents, StopsAtTheFirstBadLine, RefusesLongText};

/// A text that is short enough reads as the events of its lines if none is bad, and otherwise is refused at its first
/// bad line.
pub fn text_reads_as_its_lines()
    ensures events { ReadsTheEvents }
    ensures bad_line { StopsAtTheFirstBadLine }
    ensures too_long { RefusesLongText }
{}

/// A line is an event exactly if it is spelled as one, is skipped exactly if it says nothing, and otherwise is bad.
pub fn lines_are_of_the_grammar()
    ensures events { EventsAreSpelled }
    ensures skipped { SkippedSayNothing }
    ensures bad { BadSpellNothing }
{}

/// What is recorded of a run from an opening is read as its events, and what it says of outputs is what they gave, if
/// it is no longer than an input may be, each event has a line, and the local path is one that `--local` takes. A
/// record that ended is read so as the first events, those that it has.
pub fn records_are_read()
    ensures whole { RecordsAreRead }
    ensures ended { EndedRecordsAreRead }
{}
