//! What is told of the faults of the daemon's own sockets.
use rb_policy::drains::CallsSoFar;
use rb_policy::{Next, SOCKET_CALLS};
use rb_settings::{SocketFault, Step};
use rb_sockets::Sockets;
use std::io;

/// Whether the fault of an accept is told after which this is next: if it keeps the listener from being called again in this
/// turn, or all accepts of the turn failed.
pub fn is_told(next: Next, before: CallsSoFar) -> bool {
    match next {
        Next::AwaitEvent => false,
        Next::AwaitTurn => true,
        Next::GoOn | Next::Close => before.got == 0 && before.calls >= SOCKET_CALLS - 1,
    }
}

/// An accept of the listener of this number failed, which must be told if it is the listener's first failure.
pub fn note_fault(
    told: &mut Option<SocketFault>,
    sockets: &mut Sockets,
    which: usize,
    error: io::Error,
) {
    if told.is_none() && sockets.note_failure(which) {
        *told = Some(Step::Accept.failed(error));
    }
}
