//! Descriptors that a service manager hands over (sd_listen_fds(3)), and what they say of themselves.
ghost use Rattle.std.specs.Prelude.{◌≤◌, pos, ◌≤ℤ◌};

use crate::{BACKLOG, check};
use libc::net as c;
use mio::net::{TcpListener, UnixListener};
use os::FromRawFd;
use std::net::SocketAddr;
use std::os::fd::{AsRawFd, OwnedFd, RawFd};
use std::os::unix::net;

/// The number of the first that is handed over.
const FIRST: u16 = 3;

/// The descriptors that were handed over, each of which is taken once.
#[derive(Drop)]
pub struct Descriptors {
    next: u16,
    end: u16,
}

impl Descriptors {
    ghost use Rattle.std.specs.Prelude.{◌≡◌, ◌+◌, ◌-◌, ◌^◌, min, nat_lt, IfSome, IfNone};
    ghost use Rattle.std.specs.Option.{is_some};
    ghost use Rattle.rb_descriptors.specs.Handed.{IsTaken};

    /// This many, from number 3 on. The environment of this process says how many there are, and the caller asks it once.
    pub fn new(count: u16) -> Descriptors
        ensures next { result.next ≡ FIRST }
        ensures end { result.end ≡ min (FIRST + count) (2 ^ 16 - 1) }
    {
        Descriptors {
            next: FIRST,
            end: FIRST.saturating_add(count),
        }
    }

    /// The next one, and its number: from here on it is the caller's, and closed where it goes.
    pub fn take(&mut self) -> Option<(u16, OwnedFd)>
        ensures some { IfSome result (λ taken. IsTaken taken.0 self.old self.new) }
        ensures none { IfNone result (self.new ≡ self.old) }
        ensures left { is_some result ≡ nat_lt self.old.next self.old.end }
    {
        if self.next >= self.end {
            return None;
        }
        let number = self.next;
        self.next += 1;
        Some((number, unsafe { OwnedFd::from_raw_fd(i32::from(number)) }))
    }
}

/// What a descriptor says of itself.
#[derive(Drop)]
pub enum Asked {
    /// It is a socket of IPv4 or IPv6.
    Inet(OwnedFd, AskedInet),
    /// It is a local socket of this address, and whether it listens.
    Unix(UnixListener, net::SocketAddr, bool),
    /// It is none of these.
    Other,
}

/// What a socket of IPv4 or IPv6 says of itself.
#[derive(Clone, Copy)]
pub struct AskedInet {
    /// Its own address.
    pub address: SocketAddr,
    /// Whether it has an option of TCP (TCP_NODELAY).
    pub is_tcp: bool,
    /// Whether it listens.
    pub listens: bool,
    /// Whether it is of IPv6 and takes IPv4 too.
    pub takes_inet: bool,
}

/// Asks a descriptor what it is. From here on it does not wait. A stream with an address that did not listen yet does so after
/// this; one that is connected can't (listen(2)).
pub fn ask(fd: OwnedFd) -> Asked {
    let raw = fd.as_raw_fd();
    if os::set_nonblocking(raw, true) < 0 {
        return Asked::Other;
    }
    let listens = check(c::listen(raw, BACKLOG)).is_ok();
    let inet = TcpListener::from(fd);
    match inet.local_addr() {
        Ok(address) => {
            let said = AskedInet {
                address,
                is_tcp: has_tcp_option(raw),
                listens,
                takes_inet: matches!(address, SocketAddr::V6(_)) && !is_inet6_alone(raw),
            };
            Asked::Inet(OwnedFd::from(inet), said)
        }
        Err(_) => ask_unix(UnixListener::from(OwnedFd::from(inet)), listens),
    }
}

fn ask_unix(socket: UnixListener, listens: bool) -> Asked {
    match socket.local_addr() {
        Ok(address) => Asked::Unix(socket, address, listens),
        Err(_) => Asked::Other,
    }
}

fn has_tcp_option(fd: RawFd) -> bool {
    let (mut value, mut len) = ([0; 16], 4);
    unsafe { c::getsockopt(fd, c::IPPROTO_TCP, c::TCP_NODELAY, &mut value, &mut len) == 0 }
}

/// Whether a socket of IPv6 is for IPv6 alone (IPV6_V6ONLY).
fn is_inet6_alone(fd: RawFd) -> bool {
    let (mut value, mut len) = ([0; 16], 4);
    let status = unsafe {
        c::getsockopt(fd, c::IPPROTO_IPV6, c::IPV6_V6ONLY, &mut value, &mut len)
    };
    status == 0 && value[..4] != [0; 4]
}
