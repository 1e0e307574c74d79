//! Connections that were accepted, each of its own kind.
use crate::arrival::OwnEnd;
use mio::net::{TcpStream, UnixStream};
use mio::{Interest, Registry, Token};
use rb_address::{Host, Peer};
use rb_policy::{ANY, Next, after_read, outcome_of_count};
use std::io;
use std::io::{Read, Write};

/// A connection that was accepted, over TCP or on the local socket. It is read and written by its directions alone,
/// which are two types.
#[derive(Drop)]
pub enum Stream {
    /// Over TCP.
    Tcp(TcpStream),
    /// On the local socket.
    Local(UnixStream),
}

impl Stream {
    /// Each write goes out at once (TCP_NODELAY): if replies take two writes, the second must not wait until the
    /// first is acknowledged. On the local socket it does so by itself.
    pub fn send_at_once(&self) -> io::Result<()> {
        match self {
            Stream::Tcp(stream) => stream.set_nodelay(true),
            Stream::Local(_) => Ok(()),
        }
    }

    /// Our own end of a connection over TCP: the host that was asked, and its port. If the system does not tell, and on
    /// the local socket, 0.0.0.0 and port 0.
    pub fn own_end(&self) -> OwnEnd {
        let nowhere = Peer::new(Host::V4(ANY), 0);
        let address = match self {
            Stream::Tcp(stream) => match stream.local_addr() {
                Ok(address) => Peer::of(address),
                Err(_) => nowhere,
            },
            Stream::Local(_) => nowhere,
        };
        OwnEnd { address }
    }

    /// Whether it is connected still. As long as it is, no other connection has its two ends.
    pub fn is_connected(&self) -> bool {
        match self {
            Stream::Tcp(stream) => stream.peer_addr().is_ok(),
            Stream::Local(_) => true,
        }
    }

    /// Whether its peer has ended what it sends, or has reset it, and all that came before was read.
    pub fn has_ended(&self) -> bool {
        match self {
            Stream::Tcp(stream) => {
                let came = stream.peek(&mut [0]);
                matches!(after_read(outcome_of_count(&came), false), Next::Close)
            }
            Stream::Local(_) => false,
        }
    }

    /// Its events are shown under the token.
    pub fn register(&mut self, registry: &Registry, token: Token) -> io::Result<()> {
        let interests = Interest::READABLE | Interest::WRITABLE;
        match self {
            Stream::Tcp(stream) => registry.register(stream, token, interests),
            Stream::Local(stream) => registry.register(stream, token, interests),
        }
    }

    /// What its peer sends.
    pub fn incoming(&mut self) -> Incoming<'_> {
        Incoming { stream: self }
    }

    /// What its peer is sent.
    pub fn outgoing(&mut self) -> Outgoing<'_> {
        Outgoing { stream: self }
    }
}

/// What its peer sends: bytes come out of it, and none go in.
#[derive(Drop)]
pub struct Incoming<'a> {
    stream: &'a mut Stream,
}

impl Read for Incoming<'_> {
    fn read(&mut self, room: &mut [u8]) -> io::Result<usize> {
        let stream = &mut *self.stream;
        match stream {
            Stream::Tcp(stream) => stream.read(room),
            Stream::Local(stream) => stream.read(room),
        }
    }
}

/// What its peer is sent: bytes go into it, and none come out.
#[derive(Drop)]
pub struct Outgoing<'a> {
    stream: &'a mut Stream,
}

impl Write for Outgoing<'_> {
    fn write(&mut self, bytes: &[u8]) -> io::Result<usize> {
        let stream = &mut *self.stream;
        match stream {
            Stream::Tcp(stream) => stream.write(bytes),
            Stream::Local(stream) => stream.write(bytes),
        }
    }

    fn flush(&mut self) -> io::Result<()> {
        Ok(())
    }
}
