//! What a service manager is told of this process (sd_notify(3)).
ghost use Rattle.std.specs.Prelude.{◌≡◌, ◌≤◌, ◌+◌, length};
ghost use Rattle.std.specs.Net.SockAddr.{in_storage};
ghost use Rattle.rb_descriptors.specs.Notify.{unix_address};

use crate::{family_alone, owned, put};
use libc::net as c;
use std::net::Net;
use std::os::fd::{AsRawFd, OwnedFd};

/// The longest path of a local socket, or name, in bytes.
const LONGEST: usize = 107;

/// Where a service manager is told of this process.
#[derive(Drop)]
pub struct Notifier {
    socket: OwnedFd,
    /// The address as C has it, in `sockaddr_un`.
    raw: [u8; 128],
    /// At most 109.
    len: u32,
}

impl Notifier {
    ghost use Rattle.std.specs.Prelude.{IfSome};
    ghost use Rattle.rb_descriptors.specs.Notify.{IsNotifierOf};

    /// One that tells the socket of this address, which is the value of NOTIFY_SOCKET: a path from the root on, or a name after
    /// an `@`. None if it is neither of at most 107 bytes, or the system gives no socket.
    pub fn new(_net: &impl Net, address: &[u8]) -> Option<Notifier>
        ensures { IfSome result (IsNotifierOf address.now) }
    {
        let first = address.first()?;
        if (*first != b'/' && *first != b'@') || address.len() > LONGEST {
            return None;
        }
        let (raw, len) = encode(address);
        let kind = c::SOCK_DGRAM | c::SOCK_CLOEXEC;
        let socket = owned(unsafe { c::socket(c::AF_UNIX, kind, 0) }).ok()?;
        Some(Notifier { socket, raw, len })
    }

    /// Tells it this, and waits until it takes that.
    pub fn tell(&self, state: &[u8]) {
        let fd = self.socket.as_raw_fd();
        let _ = unsafe { c::sendto(fd, state, c::MSG_NOSIGNAL, &self.raw, self.len.min(128)) };
    }

    /// Tells it this, unless it has no room for that.
    pub fn tell_at_once(&self, state: &[u8]) {
        let fd = self.socket.as_raw_fd();
        let flags = c::MSG_NOSIGNAL | c::MSG_DONTWAIT;
        let _ = unsafe { c::sendto(fd, state, flags, &self.raw, self.len.min(128)) };
    }
}

/// The address as C has it, and how many bytes that has: of a name a zero in the place of its `@`.
fn encode(address: &[u8]) -> ([u8; 128], u32)
    requires { length address.now ≤ 107 }
    ensures bytes { result.0 ≡ in_storage (unix_address address.now) }
    ensures len { result.1 ≡ 2 + length address.now }
{
    let mut raw = family_alone(c::AF_UNIX as u16);
    match address {
        [first, name @ ..] if *first == b'@' => {
            put(&mut raw, 2, &[0]);
            put(&mut raw, 3, name);
        }
        path => put(&mut raw, 2, path),
    }
    (raw, 2 + address.len() as u32)
}
