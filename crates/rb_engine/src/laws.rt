//! What holds of the core of a running daemon.
ghost use Rattle.rb_engine.specs.ServedLaws.{ServedBytesAreBounded, ServedStepsAreBounded, ServedRunsAreBounded, ServedMetersAreBounded, ServedPremisesAreMet, ServedRowsAreKept, ServedRowsMayChange, ServedRecordsAreRead, ServedRecordsEndFull};

/// Between two events of the daemon, whatever it is asked for and whatever limits and listener it was given: what its core
/// holds is at most the bound of its limits. From each state that a run reaches and that the core stands for, an event
/// costs at most its bound, and a run at most its whole bound.
pub fn served_cores_are_bounded()
    ensures bytes { ServedBytesAreBounded }
    ensures events { ServedStepsAreBounded }
    ensures runs { ServedRunsAreBounded }
{}

/// Between two calls of the daemon: all that the meter of its core counted since its start is at most what the making of the
/// core costs, the whole bound of the run that it handed in, and for each look of its own what a look may take. The looks
/// are counted in proofs alone, as `Engine` takes them: at the next deadline, at a reply that is sent or held, at what may
/// be given on a connection, and at the rows that it counts or writes.
pub fn served_meters_are_bounded()
    ensures { ServedMetersAreBounded }
{}

/// Between two events of the daemon, what laws of a run presuppose is so: its events brought bytes alone, its limits are good,
/// its listener has a port other than 0, and a path that may name a local socket and stand in a line, or none; and the record
/// may be no longer than an input.
pub fn served_premises_are_met()
    ensures { ServedPremisesAreMet }
{}

/// Between two events of the daemon, whatever bytes came in: the lines of all its rows are read as the rows that were set, in
/// their order. Their SETs bring all live rows back, from an opening with the same options, and are in no statistics. The
/// lines of later changes may follow them (`changes_are_read`). The clock is a number of 64 bits, as the code's is.
pub fn served_rows_are_kept()
    ensures rows { ServedRowsAreKept }
    ensures changes { ServedRowsMayChange }
{}

/// Between two events of the daemon, the text of its record reads as the first events of the run that brought the core where
/// it is, all of them while the recording goes on, and says what they gave: so `replay --check` of it finds no difference.
/// If the record has its last line, it is full: the next entry of the run does not fit.
pub fn served_records_are_read()
    ensures read { ServedRecordsAreRead }
    ensures full { ServedRecordsEndFull }
{}
