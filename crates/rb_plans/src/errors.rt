//! What an error of the system means, by its kind.
ghost use Rattle.std.specs.Prelude.{◌≡◌};
ghost use Rattle.rb_plans.specs.Errors.{look_up_fault, host_fault, socket_fault, reply_fault};

use crate::addresses::DEFAULT_PATH;
use crate::fault::Fault;
use rb_show::InfoFault;
use std::io::ErrorKind;

/// Why the look-up of a host gave no address: it knows none, or memory was refused.
pub fn look_up_fault(kind: ErrorKind) -> Fault
    ensures { result ≡ look_up_fault kind }
{
    match kind {
        ErrorKind::OutOfMemory => Fault::Info(InfoFault::Memory),
        _ => Fault::NoHost,
    }
}

/// Why there is no connection to a host.
pub fn host_fault(kind: ErrorKind) -> Fault
    ensures { result ≡ host_fault kind }
{
    match kind {
        ErrorKind::OutOfMemory => Fault::Info(InfoFault::Memory),
        _ => Fault::NoConnection,
    }
}

/// Why there is no connection to the socket at a path of this machine: nobody is there, or it can't be had. One that may
/// not be opened counts as absent at /run/rpcbind.sock, which users who are not root may not open.
pub fn socket_fault(path: &str, kind: ErrorKind) -> Fault
    ensures { result ≡ socket_fault path.now kind }
{
    match kind {
        ErrorKind::NotFound | ErrorKind::ConnectionRefused => Fault::NoSocket,
        ErrorKind::PermissionDenied if path == DEFAULT_PATH => Fault::NoSocket,
        _ => host_fault(kind),
    }
}

/// Why no byte of a reply came: nobody listens there, as an answer to a datagram says, or none was sent.
pub fn reply_fault(kind: ErrorKind) -> Fault
    ensures { result ≡ reply_fault kind }
{
    match kind {
        ErrorKind::ConnectionRefused => Fault::NoConnection,
        ErrorKind::OutOfMemory => Fault::Info(InfoFault::Memory),
        _ => Fault::NoReply,
    }
}
