//! Calls over TCP, UDP and sockets of this machine.
use crate::patient::{Patient, Stream};
use rb_plans::{
    CONNECTION, Fault, call_of, datagram_wait, host_fault, marked_call_of, reply_fault,
    socket_fault,
};
use rb_show::{Ask, Form, InfoFault, Showing, Shown, show_datagram};
use std::alloc::Global;
use std::io;
use std::io::{ErrorKind, Read, Write};
use std::net::{IpAddr, Ipv4Addr, Ipv6Addr, Net, SocketAddr, TcpStream, UdpSocket};
use std::os::unix::net::UnixStream;
use std::rt::Clock;
use std::time::{Duration, Instant};

/// No datagram has more bytes.
pub const LONGEST_DATAGRAM: usize = 65_536;

/// Where a call goes over a connection.
#[derive(Clone, Copy)]
pub enum Peer<'a> {
    Host(SocketAddr),
    /// A socket of this machine, by its path.
    Here(&'a str),
}

fn connect<N: Net>(net: &N, peer: Peer<'_>) -> io::Result<Stream<N::Stream>> {
    match peer {
        Peer::Host(address) => {
            let wait = Duration::from_millis(CONNECTION);
            let stream = TcpStream::connect_timeout(net, &address, wait)?;
            Ok(Stream::Host(stream))
        }
        Peer::Here(path) => {
            let stream = UnixStream::connect(net, path)?;
            Ok(Stream::Here(stream))
        }
    }
}

/// Why there is no connection.
fn connect_fault(peer: Peer<'_>, error: io::Error) -> Fault {
    match peer {
        Peer::Host(_) => host_fault(error.kind()),
        Peer::Here(path) => socket_fault(path, error.kind()),
    }
}

/// A connection whose call counts from now on.
fn open<'a, N: Net + Clock>(
    net: &'a N,
    peer: Peer<'_>,
) -> Result<Patient<'a, N, N::Stream>, Fault> {
    let Ok(begun) = Instant::now(net) else {
        return Err(Fault::NoConnection);
    };
    match connect(net, peer) {
        Ok(stream) => Ok(Patient::new(net, stream, begun)),
        Err(error) => Err(connect_fault(peer, error)),
    }
}

/// Writes a call. If it isn't taken, there is no reply to it.
fn send<S: Write>(call: &[u8], stream: &mut S) -> Result<(), Fault> {
    match stream.write_all(call) {
        Ok(()) => Ok(()),
        Err(error) => Err(reply_fault(error.kind())),
    }
}

/// No more bytes of a reply are read at a time.
const PIECE: usize = 8192;

/// Shows the reply that comes over a connection, as far as it comes.
fn show_stream<S: Read, W: Write>(
    alloc: Global,
    stream: &mut S,
    showing: &mut Showing<'_>,
    output: &mut W,
) -> Result<Shown, Fault> {
    let mut piece = [0; PIECE];
    let mut nothing_came = true;
    for _ in 0..u64::MAX {
        let count = match stream.read(&mut piece) {
            Ok(count) => count,
            Err(error) if nothing_came => return Err(reply_fault(error.kind())),
            Err(_) => return Err(Fault::Info(InfoFault::Read)),
        };
        if count == 0 {
            break;
        }
        nothing_came = false;
        match showing.feed(alloc, &piece[..count], output) {
            Ok(Some(shown)) => return Ok(shown),
            Ok(None) => {}
            Err(fault) => return Err(Fault::Info(fault)),
        }
    }
    if nothing_came {
        return Err(Fault::NoReply);
    }
    Err(Fault::Info(InfoFault::CutOff))
}

/// Asks over a connection of its own, and shows the reply.
pub fn ask_stream<N: Net + Clock, W: Write>(
    alloc: Global,
    net: &N,
    peer: Peer<'_>,
    ask: &Ask,
    form: Form<'_>,
    xid: u32,
    output: &mut W,
) -> Result<Shown, Fault> {
    let call = marked_call_of(alloc, ask, xid)?;
    let mut stream = open(net, peer)?;
    send(&call, &mut stream)?;
    let mut showing = Showing::new(alloc, ask, form, xid);
    show_stream(alloc, &mut stream, &mut showing, output)
}

/// A socket that hears one address alone.
fn socket_to<N: Net>(net: &N, address: SocketAddr) -> io::Result<UdpSocket> {
    let any = match address {
        SocketAddr::V4(_) => IpAddr::V4(Ipv4Addr::UNSPECIFIED),
        SocketAddr::V6(_) => IpAddr::V6(Ipv6Addr::UNSPECIFIED),
    };
    let socket = UdpSocket::bind(net, SocketAddr::new(any, 0))?;
    socket.connect(address)?;
    Ok(socket)
}

/// The next datagram, waited for until the time for one is over. A signal that is handled meanwhile is no fault.
fn receive<C: Clock>(clock: &C, socket: &UdpSocket, datagram: &mut [u8]) -> io::Result<usize> {
    let begun = Instant::now(clock)?;
    for _ in 0..u64::MAX {
        let passed = Instant::now(clock)?.duration_since(begun).as_millis();
        let passed = u64::try_from(passed).unwrap_or(u64::MAX);
        let Some(wait) = datagram_wait(passed) else {
            break;
        };
        socket.set_read_timeout(Some(Duration::from_millis(wait)))?;
        match socket.recv(datagram) {
            Err(error) if error.kind() == ErrorKind::Interrupted => {}
            outcome => return outcome,
        }
    }
    Err(io::Error::from(ErrorKind::TimedOut))
}

/// The datagram that answers a call.
fn exchange<C: Clock>(
    alloc: Global,
    clock: &C,
    socket: &UdpSocket,
    call: &[u8],
) -> Result<Vec<u8>, Fault> {
    let mut datagram = Vec::new(alloc);
    if datagram.resize(LONGEST_DATAGRAM, 0).is_err() {
        return Err(Fault::Info(InfoFault::Memory));
    }
    if socket.send(call).is_err() {
        return Err(Fault::NoConnection);
    }
    match receive(clock, socket, &mut datagram) {
        Ok(len) => {
            datagram.truncate(len);
            Ok(datagram)
        }
        Err(error) => Err(reply_fault(error.kind())),
    }
}

/// Asks by one datagram, and shows the reply.
pub fn ask_datagram<N: Net + Clock, W: Write>(
    alloc: Global,
    net: &N,
    address: SocketAddr,
    ask: &Ask,
    form: Form<'_>,
    xid: u32,
    output: &mut W,
) -> Result<Shown, Fault> {
    let call = call_of(alloc, ask, xid)?;
    let Ok(socket) = socket_to(net, address) else {
        return Err(Fault::NoConnection);
    };
    let datagram = exchange(alloc, net, &socket, &call)?;
    show_datagram(alloc, ask, form, xid, &datagram, output).map_err(Fault::Info)
}
