//! The sockets of datagrams: where calls come in, and where forwarded calls go out. They are two types, so that nothing goes
//! out on the wrong one.
ghost use Rattle.std.specs.Prelude.{IfOk, IfSome, None, is_none, option_map, ◌≡◌, ◌≤◌, length};
ghost use Rattle.rb_sockets.specs.Arrivals.{datagram_arrival, IsReceived, CameOn};
ghost use Rattle.rb_sockets.specs.Room.{is_free_beside, IsBoundAt};
ghost use Rattle.rb_sockets.specs.Leaving.{IsServedNextIf, IsServedNextOf};
ghost use Rattle.rb_sockets.specs.Wanted.{is_ready_if, are_ready, are_forwards_ready};
ghost use Rattle.rb_sockets.specs.Watching.{is_at_once, is_after_wait, holds_of, of_calls, of_forwards, shown_now, forwards_shown};

use crate::watched::Watched;
use mio::net::UdpSocket;
use mio::{Interest, Registry, Token};
use rb_address::{Family, Host, Network, Peer};
use rb_arrivals::{Arrival, Asker, Returned};
use rb_descriptors::{share, udp_socket};
use rb_policy::{Again, Beliefs, Entrance, address_of, asker, has_host, ip_of, sender};
use rb_settings::{BindFault, Step};
use std::io;
use std::io::ErrorKind;
use std::net::{Net, SocketAddr};
use std::os::fd::{AsRawFd, RawFd};

/// A socket of datagrams on a host and port, which shares them if that is asked for; with port 0 on one of the system's choice.
fn bind_udp(net: &impl Net, host: Host, port: u16, shares: bool) -> Result<UdpSocket, BindFault> {
    let address = SocketAddr::new(ip_of(host), port);
    match udp_socket(net, address, shares) {
        Ok(socket) => Ok(socket),
        Err(error) => Err(BindFault::Socket(Step::BindUdp(address).failed(error))),
    }
}

/// Where calls come in as datagrams, and where replies to them go out.
#[derive(Drop)]
pub struct CallSocket {
    /// None once its host is listened on no more.
    socket: Option<UdpSocket>,
    bound: Host,
    beliefs: Beliefs,
}

impl CallSocket {
    /// At this host and port, by a socket that was handed over, if there is one. If it shares them, so may others that do.
    pub(crate) fn bind(
        net: &impl Net,
        handed: Option<UdpSocket>,
        host: Host,
        port: u16,
        shares: bool,
        beliefs: Beliefs,
    ) -> Result<CallSocket, BindFault>
        ensures { IfOk result (IsBoundAt host beliefs) }
    {
        let socket = match handed {
            Some(socket) => socket,
            None => bind_udp(net, host, port, shares)?,
        };
        Ok(CallSocket {
            socket: Some(socket),
            bound: host,
            beliefs,
        })
    }

    /// Whether it shares its host and port from here on.
    pub(crate) fn share(&self, shares: bool) -> io::Result<()> {
        match &self.socket {
            Some(socket) => share(socket, shares),
            None => Ok(()),
        }
    }

    /// The host to which it is bound.
    pub(crate) fn bound(&self) -> Host
        ensures { result ≡ self.now.bound }
    {
        self.bound
    }

    /// Its host is listened on no more.
    pub(crate) fn close(&mut self)
        ensures { self.new ≡ record self.old { socket = None } }
    {
        self.socket = None;
    }

    /// Whether its host is listened on no more, and is none of these, so that another one may have its place.
    pub(crate) fn is_free_beside(&self, others: &[Host]) -> bool
        ensures { result ≡ is_free_beside others.now self.now }
    {
        self.socket.is_none() && !has_host(others, self.bound)
    }

    /// A datagram, how long it is, and how its caller came in, if that may call when these networks are served.
    fn receive(&self, networks: &[Network], room: &mut [u8]) -> io::Result<(usize, Option<Arrival>)>
        ensures fits { IfOk result (λ r. r.0 ≤ length room.new) }
        ensures came { IfOk result (λ r. IfSome r.1 (CameOn self.now)) }
    {
        let Some(socket) = &self.socket else {
            return Err(io::Error::from(ErrorKind::WouldBlock));
        };
        let (len, from) = socket.recv_from(room)?;
        let arrival = match asker(networks, sender(from)) {
            Some(peer) => Some(self.arrival(peer)),
            None => None,
        };
        Ok((len, arrival))
    }

    // ASKED-1: A datagram asked the host to which its socket is bound; if that is 0.0.0.0 or `::`, it
    // is not known which.
    /// How the sender of a datagram came in.
    fn arrival(&self, peer: Peer) -> Arrival
        ensures { result ≡ datagram_arrival self.now peer }
    {
        Arrival {
            beliefs: self.beliefs,
            entrance: Entrance::Udp(self.bound, peer),
            asked: self.bound,
        }
    }

    /// Sends a reply. One that the socket does not take is lost.
    pub(crate) fn reply(&self, reply: &[u8], to: Peer) {
        if let Some(socket) = &self.socket {
            let _ = socket.send_to(reply, address_of(to));
        }
    }

    pub(crate) fn as_raw_fd(&self) -> RawFd {
        match &self.socket {
            Some(socket) => socket.as_raw_fd(),
            None => -1,
        }
    }

    pub(crate) fn register(&mut self, registry: &Registry, token: Token) -> io::Result<()>
        ensures kept { self.new ≡ record self.old { socket = self.new.socket } }
        ensures open { is_none self.new.socket ≡ is_none self.old.socket }
    {
        match &mut self.socket {
            Some(socket) => registry.register(socket, token, Interest::READABLE),
            None => Ok(()),
        }
    }
}

/// All sockets where calls come in as datagrams.
#[derive(Drop)]
pub struct CallSockets {
    /// One for each host, in their order.
    pub all: Vec<Watched<CallSocket>>,
}

impl CallSockets {
    ghost use Rattle.std.specs.Prelude.{IfSome};
    ghost use Rattle.rb_sockets.specs.Arrivals.{IsReceived, AskedOn};
    ghost use Rattle.rb_sockets.specs.Room.{closed_place, free_place};

    /// Who asked by a datagram on the socket of this number, if that caller may call when these networks are served. None if
    /// there is no such socket.
    pub fn receive(
        &self,
        socket: usize,
        networks: &[Network],
        room: &mut [u8],
    ) -> Option<io::Result<Option<Asker>>>
        ensures fits { IfSome result (IsReceived socket room.new) }
        ensures came { IfSome result (AskedOn self.now.all.items socket) }
    {
        let calls = self.all.get(socket)?;
        Some(match calls.socket.receive(networks, room) {
            Ok((len, Some(arrival))) => Ok(Some(Asker {
                arrival,
                socket,
                len,
            })),
            Ok((_, None)) => Ok(None),
            Err(error) => Err(error),
        })
    }

    /// The place of one whose host is listened on no more, and is none of these, or the next one.
    pub(crate) fn free_place(&self, others: &[Host]) -> usize
        ensures { result ≡ free_place others.now self.now }
    {
        match self.closed_place(others) {
            Some(place) => place,
            None => self.all.len(),
        }
    }

    fn closed_place(&self, others: &[Host]) -> Option<usize>
        ensures { result ≡ closed_place others.now self.now }
    {
        self.all
            .iter()
            .position(|calls| calls.socket.is_free_beside(others))
    }

    /// Whether one of them must be served in this turn.
    pub(crate) fn are_ready(&self) -> bool
        ensures { result ≡ are_ready self.now.all.items }
    {
        self.all.iter().any(|calls| calls.is_ready())
    }

    pub(crate) fn is_left(&self) -> bool
        ensures { result ≡ of_calls is_at_once self.now }
    {
        self.all.iter().any(|calls| calls.is_left())
    }

    pub(crate) fn is_tried_again(&self) -> bool
        ensures { result ≡ of_calls is_after_wait self.now }
    {
        self.all.iter().any(|calls| calls.is_tried_again())
    }
}

/// Where forwarded calls go out, and what comes back for them comes in.
#[derive(Drop)]
pub struct ForwardSocket {
    socket: UdpSocket,
}

impl ForwardSocket {
    /// The port is of the system's choice.
    pub(crate) fn bind(net: &impl Net, host: Host) -> Result<ForwardSocket, BindFault> {
        Ok(ForwardSocket {
            socket: bind_udp(net, host, 0, false)?,
        })
    }

    /// A datagram, if it came from who may be a target.
    pub fn receive(&self, room: &mut [u8]) -> io::Result<Option<Returned>>
        ensures { IfOk result (λ came. IfSome came (λ returned. returned.len ≤ length room.new)) }
    {
        let (len, from) = self.socket.recv_from(room)?;
        Ok(match sender(from) {
            Some(peer) => Some(Returned { peer, len }),
            None => None,
        })
    }

    /// Whether it is bound to this host.
    pub(crate) fn is_at(&self, host: Host) -> bool {
        match self.socket.local_addr() {
            Ok(address) => sender(address).is_some_and(|ours| ours.host() == host),
            Err(_) => false,
        }
    }

    /// Sends a forwarded call. One that the socket does not take is lost.
    pub(crate) fn call(&self, call: &[u8], target: Peer) {
        let _ = self.socket.send_to(call, address_of(target));
    }

    pub(crate) fn as_raw_fd(&self) -> RawFd {
        self.socket.as_raw_fd()
    }

    pub(crate) fn register(&mut self, registry: &Registry, token: Token) -> io::Result<()> {
        registry.register(&mut self.socket, token, Interest::READABLE)
    }
}

/// An event showed the socket, if there is one.
fn note_ready(forwards: &mut Option<Watched<ForwardSocket>>)
    ensures { forwards.new ≡ option_map shown_now forwards.old }
{
    if let Some(forwards) = forwards {
        forwards.note_ready();
    }
}

/// Whether the socket, if there is one, must be served in this turn.
fn is_ready(forwards: &Option<Watched<ForwardSocket>>) -> bool
    ensures { result ≡ is_ready_if forwards.now }
{
    match forwards {
        Some(forwards) => forwards.is_ready(),
        None => false,
    }
}

/// The socket, if there is one, is served again then.
fn leave(forwards: &mut Option<Watched<ForwardSocket>>, again: Again)
    ensures { IsServedNextIf again forwards.new }
{
    if let Some(forwards) = forwards {
        forwards.leave(again);
    }
}

/// Whether the socket, if there is one, must be served at once.
fn is_left(forwards: &Option<Watched<ForwardSocket>>) -> bool
    ensures { result ≡ holds_of is_at_once forwards.now }
{
    match forwards {
        Some(forwards) => forwards.is_left(),
        None => false,
    }
}

/// Whether it must be served after a wait.
fn is_tried_again(forwards: &Option<Watched<ForwardSocket>>) -> bool
    ensures { result ≡ holds_of is_after_wait forwards.now }
{
    match forwards {
        Some(forwards) => forwards.is_tried_again(),
        None => false,
    }
}

/// The sockets of forwarded calls, one for each family of targets; none if no calls are forwarded.
#[derive(Drop)]
pub struct ForwardSockets {
    /// For targets of IPv4.
    pub inet: Option<Watched<ForwardSocket>>,
    /// For targets of IPv6, if IPv6 is served.
    pub inet6: Option<Watched<ForwardSocket>>,
}

impl ForwardSockets {
    /// The socket for targets of a family.
    pub fn of(&self, family: Family) -> Option<&Watched<ForwardSocket>> {
        match family {
            Family::Inet => self.inet.as_ref(),
            Family::Inet6 => self.inet6.as_ref(),
        }
    }

    /// The socket for targets of a family.
    pub(crate) fn of_mut(&mut self, family: Family) -> Option<&mut Watched<ForwardSocket>> {
        match family {
            Family::Inet => self.inet.as_mut(),
            Family::Inet6 => self.inet6.as_mut(),
        }
    }

    /// An event showed that for targets of a family.
    pub(crate) fn note_ready(&mut self, family: Family)
        ensures { self.new ≡ forwards_shown family self.old }
    {
        match family {
            Family::Inet => note_ready(&mut self.inet),
            Family::Inet6 => note_ready(&mut self.inet6),
        }
    }

    /// That for targets of a family is served again then, if there is one.
    pub(crate) fn leave(&mut self, family: Family, again: Again)
        ensures { IsServedNextOf family again self.new }
    {
        match family {
            Family::Inet => leave(&mut self.inet, again),
            Family::Inet6 => leave(&mut self.inet6, again),
        }
    }

    /// Whether that for targets of a family must be served in this turn.
    pub fn is_ready(&self, family: Family) -> bool {
        match family {
            Family::Inet => is_ready(&self.inet),
            Family::Inet6 => is_ready(&self.inet6),
        }
    }

    /// Whether one of them must be.
    pub(crate) fn are_ready(&self) -> bool
        ensures { result ≡ are_forwards_ready self.now }
    {
        is_ready(&self.inet) || is_ready(&self.inet6)
    }

    pub(crate) fn is_left(&self) -> bool
        ensures { result ≡ of_forwards is_at_once self.now }
    {
        is_left(&self.inet) || is_left(&self.inet6)
    }

    pub(crate) fn is_tried_again(&self) -> bool
        ensures { result ≡ of_forwards is_after_wait self.now }
    {
        is_tried_again(&self.inet) || is_tried_again(&self.inet6)
    }
}
