//! Calls that the portmappers of networks are asked to make.
use crate::net::LONGEST_DATAGRAM;
use crate::networks::networks_of;
use rb_plans::{FIRST_XID, Fault, Invocation, broadcast_wait, call_of, has_gone_out};
use rb_show::{Form, InfoFault, Question, Shown, show_datagram};
use std::alloc::{AllocError, Global};
use std::io;
use std::io::{ErrorKind, Write};
use std::net::{IpAddr, Ipv4Addr, Net, SocketAddr, UdpSocket};
use std::rt::{Clock, Files};
use std::time::{Duration, Instant};

/// The most datagrams that are looked at.
const MOST_DATAGRAMS: u32 = 4096;

/// A socket that may send broadcasts.
fn broadcast_socket<N: Net>(net: &N) -> Result<UdpSocket, Fault> {
    let any = SocketAddr::new(IpAddr::V4(Ipv4Addr::UNSPECIFIED), 0);
    let Ok(socket) = UdpSocket::bind(net, any) else {
        return Err(Fault::NoConnection);
    };
    if socket.set_broadcast(true).is_err() {
        return Err(Fault::NoConnection);
    }
    Ok(socket)
}

/// Sends the call to the hosts of each of these networks, and answers whether it went to each.
fn call_all(
    alloc: Global,
    socket: &UdpSocket,
    networks: &[[u8; 4]],
    port: u16,
    call: &[u8],
) -> Result<Vec<bool>, AllocError> {
    let mut sent = Vec::with_capacity(alloc, networks.len())?;
    for network in networks {
        let address = SocketAddr::new(IpAddr::V4(Ipv4Addr::from(*network)), port);
        sent.push(socket.send_to(call, address).is_ok())?;
    }
    Ok(sent)
}

/// A socket from which the call went to the hosts of one of these networks at least.
fn called_from<N: Net>(
    alloc: Global,
    net: &N,
    networks: &[[u8; 4]],
    port: u16,
    call: &[u8],
) -> Result<UdpSocket, Fault> {
    let socket = broadcast_socket(net)?;
    let Ok(sent) = call_all(alloc, &socket, networks, port, call) else {
        return Err(Fault::Info(InfoFault::Memory));
    };
    if has_gone_out(&sent) {
        Ok(socket)
    } else {
        Err(Fault::NoConnection)
    }
}

/// The next datagram and its sender; none once the time for answers is over.
fn next_answer<C: Clock>(
    clock: &C,
    socket: &UdpSocket,
    begun: Instant,
    datagram: &mut [u8],
) -> io::Result<(usize, SocketAddr)> {
    for _ in 0..u64::MAX {
        let passed = Instant::now(clock)?.duration_since(begun).as_millis();
        let passed = u64::try_from(passed).unwrap_or(u64::MAX);
        let Some(wait) = broadcast_wait(passed) else {
            break;
        };
        socket.set_read_timeout(Some(Duration::from_millis(wait)))?;
        match socket.recv_from(datagram) {
            Err(error) if error.kind() == ErrorKind::Interrupted => {}
            outcome => return outcome,
        }
    }
    Err(io::Error::from(ErrorKind::TimedOut))
}

/// The port at which a datagram says that the program answered; none if it is no such answer.
fn port_in(
    alloc: Global,
    words: &Invocation<'_, '_>,
    question: Question,
    datagram: &[u8],
) -> Option<u32> {
    let ask = words.ask(question);
    let mut nothing = Vec::new(alloc);
    match show_datagram(alloc, &ask, Form::Plain, FIRST_XID, datagram, &mut nothing) {
        Ok(Shown::Port(port)) => Some(port),
        Ok(_) | Err(_) => None,
    }
}

/// Shows a host where the program answered, and its port there.
fn show_responder<O: Write>(host: IpAddr, port: u32, output: &mut O) -> Result<(), Fault> {
    if writeln!(output, "{host} {port}").is_err() {
        return Err(Fault::Info(InfoFault::Write));
    }
    Ok(())
}

/// Shows where the program answered, each host once, until the time for answers is over, which counts from the moment at
/// which all calls were out. Returns how many hosts.
fn show_answers<C: Clock, O: Write>(
    alloc: Global,
    clock: &C,
    words: &Invocation<'_, '_>,
    question: Question,
    socket: &UdpSocket,
    begun: Instant,
    output: &mut O,
) -> Result<Shown, Fault> {
    let mut datagram = Vec::new(alloc);
    if datagram.resize(LONGEST_DATAGRAM, 0).is_err() {
        return Err(Fault::Info(InfoFault::Memory));
    }
    let mut seen = Vec::new(alloc);
    for _ in 0..MOST_DATAGRAMS {
        let Ok((len, sender)) = next_answer(clock, socket, begun, &mut datagram) else {
            break;
        };
        let host = sender.ip();
        let answer = datagram.get(..len).unwrap_or(&[]);
        let Some(port) = port_in(alloc, words, question, answer) else {
            continue;
        };
        if seen.contains(&host) {
            continue;
        }
        show_responder(host, port, output)?;
        if seen.push(host).is_err() {
            return Err(Fault::Info(InfoFault::Memory));
        }
    }
    Ok(Shown::Rows(u32::try_from(seen.len()).unwrap_or(u32::MAX)))
}

/// Has each portmapper of the networks of this machine, or of the one that the words name, call procedure 0 of a
/// program, and shows where it answered, each host once.
pub fn broadcast<N: Net + Clock + Files, O: Write>(
    alloc: Global,
    net: &N,
    words: &Invocation<'_, '_>,
    prog: u32,
    vers: u32,
    output: &mut O,
) -> Result<Shown, Fault> {
    let question = Question::Callit(prog, vers);
    let call = call_of(alloc, &words.ask(question), FIRST_XID)?;
    let networks = networks_of(alloc, net, words.network)?;
    let socket = called_from(alloc, net, &networks, words.request.port, &call)?;
    let Ok(begun) = Instant::now(net) else {
        return Err(Fault::NoConnection);
    };
    show_answers(alloc, net, words, question, &socket, begun, output)
}
