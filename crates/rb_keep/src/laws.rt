//! What holds of the definitions.
ghost use Rattle.rb_keep.specs.KeptLaws.{LinesKeepTheirRows, LinesRemoveTheirRows, LinesOfRowsKeepThem, ReadsTheRows, KeptTextIsRead, NoneHasNone, OwnersGoOn, ChangesAreRead};

/// A line keeps no row but the one that it sets again, and takes out none but the one that it removes; and if bytes can
/// spell a row, at an address of at most 128 bytes, a line that sets it again keeps it. A text reads as the rows that
/// its lines leave, one after another, exactly if it is short enough, each line that says something is one of a row,
/// and the rows never are more than 4,096.
pub fn kept_lines_are_read()
    ensures lines { LinesKeepTheirRows }
    ensures removals { LinesRemoveTheirRows }
    ensures rows { LinesOfRowsKeepThem }
    ensures text { ReadsTheRows }
{}

/// What is kept of a state that a run of bytes reaches, before the moment 2^64 and with at most 4,096 rows, is read
/// as the rows that were set, in their order.
pub fn kept_text_is_read()
    ensures { KeptTextIsRead }
{}

/// What is kept of a state, and the lines of the changes after it, one after another, are read as the rows of the last
/// state, in their order, also if a line behind them was not written to its end. The owners that are noted at a change,
/// from those of no rows on, are those of the rows after it.
pub fn changes_are_read()
    ensures changes { ChangesAreRead }
    ensures none { NoneHasNone }
    ensures owners { OwnersGoOn }
{}
