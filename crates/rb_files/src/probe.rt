//! A program that is asked.
ghost use Rattle.std.specs.Prelude.{◌≡◌};
ghost use Rattle.std.specs.IoError.{error_kind};
ghost use Rattle.rb_files.specs.Asked.{found_by, found_after};

use crate::call::{MARK, null_call};
use crate::check::Found;
use crate::target::Target;
use mio::net::{TcpStream, UdpSocket};
use mio::{Interest, Registry, Token};
use rb_address::Transport;
use rb_policy::ip_of;
use rb_registry::Row;
use std::io;
use std::io::{ErrorKind, Read, Write};
use std::net::{IpAddr, Ipv4Addr, Ipv6Addr, Net, SocketAddr};

/// A socket over which a program is asked. It never waits.
#[derive(Drop)]
enum Socket {
    Udp(UdpSocket),
    /// A connection that is being made, and whether the call went out over it.
    Tcp(TcpStream, bool),
}

/// A program that is asked.
#[derive(Drop)]
pub struct Probe {
    socket: Socket,
    call: [u8; 44],
}

/// A socket of datagrams that hears one address alone.
fn socket_to<N: Net>(net: &N, address: SocketAddr) -> io::Result<UdpSocket> {
    let any = match address {
        SocketAddr::V4(_) => IpAddr::V4(Ipv4Addr::UNSPECIFIED),
        SocketAddr::V6(_) => IpAddr::V6(Ipv6Addr::UNSPECIFIED),
    };
    let socket = UdpSocket::bind(net, SocketAddr::new(any, 0))?;
    socket.connect(address)?;
    Ok(socket)
}

impl Probe {
    /// Asks the program of the row there. Its events are shown under the token.
    pub fn ask<N: Net>(
        net: &N,
        registry: &Registry,
        token: Token,
        row: &Row,
        target: Target,
    ) -> io::Result<Probe> {
        let call = null_call(row.prog, row.vers);
        let address = SocketAddr::new(ip_of(target.host), target.port);
        let socket = match target.transport {
            Transport::Udp => {
                let mut socket = socket_to(net, address)?;
                registry.register(&mut socket, token, Interest::READABLE)?;
                socket.send(&call[MARK..])?;
                Socket::Udp(socket)
            }
            Transport::Tcp => {
                let mut stream = TcpStream::connect(net, address)?;
                let interest = Interest::READABLE | Interest::WRITABLE;
                registry.register(&mut stream, token, interest)?;
                Socket::Tcp(stream, false)
            }
        };
        Ok(Probe { socket, call })
    }

    /// What an event shows: `Answered` if something came, and none if nothing did so far.
    pub fn look(&mut self) -> Option<Found> {
        found_after(&self.receive())
    }

    /// How many bytes came. The call goes out first, if it has not yet: once the connection is made.
    fn receive(&mut self) -> io::Result<usize> {
        let mut room = [0; 512];
        match &mut self.socket {
            Socket::Udp(socket) => {
                // an empty datagram is an answer too
                let count = socket.recv(&mut room)?;
                Ok(count.max(1))
            }
            Socket::Tcp(stream, is_sent) => {
                if let Some(error) = stream.take_error()? {
                    return Err(error);
                }
                if !*is_sent {
                    if stream.peer_addr().is_err() {
                        return Err(io::Error::from(ErrorKind::WouldBlock));
                    }
                    stream.write_all(&self.call)?;
                    *is_sent = true;
                }
                stream.read(&mut room)
            }
        }
    }
}

/// What is known once so many bytes came, or by an error. Nothing is by the end of a connection.
fn found_after(came: &io::Result<usize>) -> Option<Found>
    ensures { result ≡ found_after came.now }
{
    match came {
        Ok(0) => Some(Found::NotKnown),
        Ok(_) => Some(Found::Answered),
        Err(error) => found_by(error),
    }
}

/// What is known by an error: that nobody listens, if the system says so; none if it says to wait.
pub fn found_by(error: &io::Error) -> Option<Found>
    ensures { result ≡ found_by (error_kind error.now) }
{
    match error.kind() {
        ErrorKind::ConnectionRefused => Some(Found::NobodyThere),
        ErrorKind::WouldBlock | ErrorKind::Interrupted => None,
        _ => Some(Found::NotKnown),
    }
}
