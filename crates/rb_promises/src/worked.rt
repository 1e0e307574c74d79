//! Worked rows.
ghost use Rattle.rb_promises.specs.WorkedRows.{RowsAreAccepted, CallersAreLocal, RowsAreLeft, RowsAreTold};

/// The relations say of some rows and callers what is found by hand.
pub fn worked_rows()
    ensures rows_are_accepted { RowsAreAccepted }
    ensures callers_are_local { CallersAreLocal }
    ensures rows_are_left { RowsAreLeft }
    ensures rows_are_told { RowsAreTold }
{}
