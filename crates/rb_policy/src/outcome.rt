//! What came of a socket call, and what is done next.
ghost use Rattle.std.specs.Prelude.{◌≡◌};
ghost use Rattle.std.specs.IoError.{error_kind, raw_os_error};
ghost use Rattle.rb_policy.specs.Outcomes.{after_accept, after_read, after_write, after_receive, outcome_of, outcome_of_number, outcome_of_count};

use std::io;
use std::io::ErrorKind;

/// What came of a socket call.
#[derive(Clone, Copy)]
pub enum SocketResult {
    /// It was done: there is a connection, a datagram, or bytes that were read or written.
    Done,
    /// The peer sends no more bytes, or takes no more.
    Ended,
    /// It would have to wait.
    WouldBlock,
    /// A signal came first.
    Interrupted,
    /// One connection was lost before it was accepted.
    PeerFailed,
    /// The system has no descriptor or no memory left for it.
    NoRoom,
    /// The socket itself failed.
    Failed,
}

/// What is done next with a socket.
#[derive(Clone, Copy)]
pub enum Next {
    /// It is called again in this turn.
    GoOn,
    /// An event shows when it must be called again.
    AwaitEvent,
    /// The next turn calls it again, after that turn's wait.
    AwaitTurn,
    /// The connection is closed.
    Close,
}

/// What is done after an accept. What fails on a connection that was just accepted counts as its accept's.
pub fn after_accept(outcome: SocketResult) -> Next
    ensures { result ≡ after_accept outcome }
{
    match outcome {
        SocketResult::WouldBlock => Next::AwaitEvent,
        SocketResult::NoRoom | SocketResult::Failed => Next::AwaitTurn,
        SocketResult::Done
        | SocketResult::Ended
        | SocketResult::Interrupted
        | SocketResult::PeerFailed => Next::GoOn,
    }
}

/// What is done after a read of a connection. While it waits for a forwarded call, the end of what its peer sends is
/// not yet its end: the answer can still be sent.
pub fn after_read(outcome: SocketResult, waits: bool) -> Next
    ensures { result ≡ after_read outcome waits }
{
    match outcome {
        SocketResult::Done | SocketResult::Interrupted => Next::GoOn,
        SocketResult::WouldBlock => Next::AwaitEvent,
        SocketResult::Ended if waits => Next::AwaitEvent,
        SocketResult::Ended
        | SocketResult::PeerFailed
        | SocketResult::NoRoom
        | SocketResult::Failed => Next::Close,
    }
}

/// What is done after a write to a connection.
pub fn after_write(outcome: SocketResult) -> Next
    ensures { result ≡ after_write outcome }
{
    match outcome {
        SocketResult::Done | SocketResult::Interrupted => Next::GoOn,
        SocketResult::WouldBlock => Next::AwaitEvent,
        SocketResult::Ended
        | SocketResult::PeerFailed
        | SocketResult::NoRoom
        | SocketResult::Failed => Next::Close,
    }
}

/// What is done after a receive. A fault loses one datagram.
pub fn after_receive(outcome: SocketResult) -> Next
    ensures { result ≡ after_receive outcome }
{
    match outcome {
        SocketResult::WouldBlock => Next::AwaitEvent,
        SocketResult::Done
        | SocketResult::Ended
        | SocketResult::Interrupted
        | SocketResult::PeerFailed
        | SocketResult::NoRoom
        | SocketResult::Failed => Next::GoOn,
    }
}

/// Numbers of Linux's accept(2) that std has no kind for and `libc` no name: they are those of most architectures,
/// x86-64 and aarch64 among them, and not of MIPS, SPARC and PA-RISC.
const ENFILE: i32 = 23;

const ENONET: i32 = 64;

const EPROTO: i32 = 71;

const ENOPROTOOPT: i32 = 92;

const ENOBUFS: i32 = 105;

const EHOSTDOWN: i32 = 112;

/// What an error means. An accept reports errors of the network that are pending on the connection (accept(2)); they
/// count as that connection's.
pub fn outcome_of(error: &io::Error) -> SocketResult
    ensures { result ≡ outcome_of (error_kind error.now) (raw_os_error error.now) }
{
    match error.kind() {
        ErrorKind::WouldBlock => SocketResult::WouldBlock,
        ErrorKind::Interrupted => SocketResult::Interrupted,
        ErrorKind::OutOfMemory => SocketResult::NoRoom,
        ErrorKind::ConnectionAborted
        | ErrorKind::ConnectionReset
        | ErrorKind::TimedOut
        | ErrorKind::NetworkDown
        | ErrorKind::NetworkUnreachable
        | ErrorKind::HostUnreachable
        | ErrorKind::PermissionDenied
        | ErrorKind::Unsupported => SocketResult::PeerFailed,
        _ => outcome_of_number(error.raw_os_error()),
    }
}

fn outcome_of_number(number: Option<i32>) -> SocketResult
    ensures { result ≡ outcome_of_number number }
{
    match number {
        Some(libc::EMFILE | ENFILE | ENOBUFS) => SocketResult::NoRoom,
        Some(ENONET | EPROTO | ENOPROTOOPT | EHOSTDOWN) => SocketResult::PeerFailed,
        Some(_) | None => SocketResult::Failed,
    }
}

/// What came of a read or a write. A count of 0 is an end.
pub fn outcome_of_count(came: &io::Result<usize>) -> SocketResult
    ensures { result ≡ outcome_of_count came.now }
{
    match came {
        Ok(0) => SocketResult::Ended,
        Ok(_) => SocketResult::Done,
        Err(error) => outcome_of(error),
    }
}
