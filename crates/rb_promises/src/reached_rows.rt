//! The rows in each state that a run reaches.
ghost use Rattle.rb_promises.specs.ReachedRows.{RowsAreWellKept};

/// In each state that a run reaches, what the laws of UNSET and of look-ups presuppose is so: the own rows are of the
/// portmapper's program, no two live rows are of one program, version and netid, and each live row is at an address
/// that may be set on its netid, if the listener's own port is not 0 and has 16 bits, and its path may name a local
/// socket.
pub fn rows_are_well_kept()
    ensures { RowsAreWellKept }
{}
