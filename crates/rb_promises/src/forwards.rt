//! Forwarded calls.
ghost use Rattle.rb_promises.specs.Forwards.{CallsAreForwardedExactly};

/// From every ledger, a call is forwarded exactly if it names another program than 100000, a live row of just the
/// program and version that it names is found on UDP of its caller's family (of IPv4 for a caller by the local socket),
/// the call may go to the host of that row by the daemon's terms, and there is a place and a number for one more.
/// Without such a row INDIRECT is told that the program is unavailable, and without room that there is an error of the
/// system; the others are then silent. The rows stay in each case.
pub fn calls_are_forwarded_exactly()
    ensures { CallsAreForwardedExactly }
{}
