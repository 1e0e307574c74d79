//! Sockets made by calls of libc, since the kit's own calls make none of IPv6 alone, and none that share a port; those that a
//! service manager hands over, and what it is told. All unsafe code of the repository is here.
#![tactic(auto)]

ghost use Rattle.std.specs.Prelude.{◌≡◌, ◌↔◌, ◌≤◌, ◌+◌, pos, ◌≤ℤ◌, if◌then◌else◌, List, ℕ, ◌∷◌, ◌++◌, length, replicate, IsOk};
ghost use Rattle.std.specs.Int.{w16, to_le_bytes};
ghost use Rattle.std.specs.Net.SockAddr.{family_and_port, sockaddr_in, sockaddr_in6, sockaddr, sockaddr_len, in_storage};
ghost use Rattle.libc.specs.Net.{Kind};

mod handed;
mod notify;

pub use handed::{Asked, AskedInet, Descriptors, ask};
use libc::net as c;
use mio::net::{TcpListener, UdpSocket};
pub use notify::Notifier;
use os::FromRawFd;
use std::io;
use std::net::{Net, SocketAddr, SocketAddrV4, SocketAddrV6};
use std::os::fd::{AsRawFd, OwnedFd, RawFd};

/// The system cuts it to its own limit of connections that wait for an accept.
const BACKLOG: i32 = i32::MAX;

const STREAM: i32 = c::SOCK_STREAM | c::SOCK_NONBLOCK | c::SOCK_CLOEXEC;

const DATAGRAMS: i32 = c::SOCK_DGRAM | c::SOCK_NONBLOCK | c::SOCK_CLOEXEC;

/// Listens over TCP at the address; at one of IPv6 for callers of IPv6 alone. Connections of an earlier listener that are not
/// over yet don't keep it from the address (SO_REUSEADDR), and another listener does.
pub fn tcp_listener(_net: &impl Net, address: SocketAddr) -> io::Result<TcpListener> {
    let socket = new_socket(address, STREAM)?;
    share_address(socket.as_raw_fd(), true)?;
    bind(&socket, address)?;
    check(c::listen(socket.as_raw_fd(), BACKLOG))?;
    Ok(TcpListener::from(socket))
}

/// A UDP socket at the address; at one of IPv6 for datagrams of IPv6 alone. Only if it `shares` may another socket have part of
/// the address, or all of it, that shares as well: then a datagram goes to the one whose address is no wildcard.
pub fn udp_socket(_net: &impl Net, address: SocketAddr, shares: bool) -> io::Result<UdpSocket> {
    let socket = new_socket(address, DATAGRAMS)?;
    share_address(socket.as_raw_fd(), shares)?;
    bind(&socket, address)?;
    Ok(UdpSocket::from(socket))
}

/// Whether a UDP socket shares its address from here on.
pub fn share(socket: &UdpSocket, shares: bool) -> io::Result<()> {
    share_address(socket.as_raw_fd(), shares)
}

fn share_address(fd: RawFd, shares: bool) -> io::Result<()> {
    let value = flag(shares);
    check(unsafe { c::setsockopt(fd, c::SOL_SOCKET, c::SO_REUSEADDR, &value, 4) })
}

/// A socket of the address's family that does not wait; of IPv6 it is for IPv6 alone.
fn new_socket(address: SocketAddr, kind: i32) -> io::Result<OwnedFd>
    requires { Kind kind }
{
    match address {
        SocketAddr::V4(_) => owned(unsafe { c::socket(c::AF_INET, kind, 0) }),
        SocketAddr::V6(_) => {
            let socket = owned(unsafe { c::socket(c::AF_INET6, kind, 0) })?;
            let fd = socket.as_raw_fd();
            let on = flag(true);
            check(unsafe { c::setsockopt(fd, c::IPPROTO_IPV6, c::IPV6_V6ONLY, &on, 4) })?;
            Ok(socket)
        }
    }
}

/// The least number that no descriptor of the process has; the greatest number if it may have no more.
pub fn least_free(_net: &impl Net) -> u64 {
    match owned(unsafe { c::socket(c::AF_UNIX, DATAGRAMS, 0) }) {
        Ok(socket) => u64::from(socket.as_raw_fd().unsigned_abs()),
        Err(_) => u64::MAX,
    }
}

/// The descriptor that a call just made, which is nobody else's: it is closed where the socket goes.
fn owned(fd: RawFd) -> io::Result<OwnedFd> {
    check(fd)?;
    Ok(unsafe { OwnedFd::from_raw_fd(fd) })
}

fn bind(socket: &OwnedFd, address: SocketAddr) -> io::Result<()> {
    let (raw, len) = encode(address);
    check(unsafe { c::bind(socket.as_raw_fd(), &raw, len) })
}

/// The error of the call that just answered this, if it is negative.
fn check(status: i32) -> io::Result<()>
    ensures { IsOk result ↔ (pos 0 ≤ℤ status) }
{
    if status < 0 {
        Err(io::Error::from_raw_os_error(os::errno()))
    } else {
        Ok(())
    }
}

/// A C int that is 1 or 0.
fn flag(is_on: bool) -> [u8; 16]
    ensures { result ≡ (if is_on then 1 else 0) ∷ replicate 15 0 }
{
    let mut value = [0; 16];
    value[..4].copy_from_slice(&i32::from(is_on).to_ne_bytes());
    value
}

/// The address as C has it, in `sockaddr_in` or `sockaddr_in6`, and how many bytes that has.
fn encode(address: SocketAddr) -> ([u8; 128], u32)
    ensures bytes { result.0 ≡ in_storage (sockaddr address) }
    ensures len { result.1 ≡ sockaddr_len address }
    ensures within { result.1 ≤ 128 }
{
    match address {
        SocketAddr::V4(address) => (encode_v4(address), 16),
        SocketAddr::V6(address) => (encode_v6(address), 28),
    }
}

fn encode_v4(address: SocketAddrV4) -> [u8; 128]
    ensures { result ≡ in_storage (sockaddr_in address) }
{
    let mut raw = family_and_port(c::AF_INET as u16, address.port());
    put(&mut raw, 4, &address.ip().octets());
    raw
}

fn encode_v6(address: SocketAddrV6) -> [u8; 128]
    ensures { result ≡ in_storage (sockaddr_in6 address) }
{
    let mut raw = family_and_port(c::AF_INET6 as u16, address.port());
    put(&mut raw, 4, &address.flowinfo().to_ne_bytes());
    put(&mut raw, 8, &address.ip().octets());
    put(&mut raw, 24, &address.scope_id().to_ne_bytes());
    raw
}

fn family_and_port(family: u16, port: u16) -> [u8; 128]
    ensures { result ≡ in_storage (family_and_port family port) }
{
    let mut raw = family_alone(family);
    put(&mut raw, 2, &port.to_be_bytes());
    raw
}

fn family_alone(family: u16) -> [u8; 128]
    ensures { result ≡ in_storage (to_le_bytes w16 family) }
{
    let mut raw = [0; 128];
    put(&mut raw, 0, &family.to_ne_bytes());
    raw
}

/// Writes the next field, behind those that are there.
fn put(raw: &mut [u8; 128], at: usize, bytes: &[u8])
    requires { at + length bytes.now ≤ 128 }
    ensures { (front : List ℕ) → length front ≡ at → raw.old ≡ in_storage front
        → raw.new ≡ in_storage (front ++ bytes.now) }
{
    raw[at..at + bytes.len()].copy_from_slice(bytes);
}
