//! Where connections come in, and who comes there.
ghost use Rattle.std.specs.Prelude.{◌≡◌, Some, IfOk, IfSome, map};
ghost use Rattle.rb_sockets.specs.Arrivals.{IsLetIn};
ghost use Rattle.rb_sockets.specs.News.{when_told, told_of};
ghost use Rattle.rb_sockets.specs.Room.{is_closed, beliefs_of, closed_door, free_door};
ghost use Rattle.rb_sockets.specs.Wanted.{is_changed};

use crate::local::LocalListener;
use crate::watched::Watched;
use mio::net::TcpListener;
use mio::{Interest, Registry, Token};
use rb_address::{Host, Network, Peer};
use rb_arrivals::{Accepted, Ends, Stream, Visitor};
use rb_descriptors::tcp_listener;
use rb_policy::{Beliefs, asker, ip_of, sender};
use rb_settings::{BindFault, Step};
use std::fs::Files;
use std::io;
use std::io::ErrorKind;
use std::net::{Net, SocketAddr};
use std::os::fd::{AsRawFd, RawFd};

/// Where connections come in.
#[derive(Drop)]
pub enum Listener {
    /// Over TCP, and what is believed.
    Tcp(TcpListener, Beliefs),
    /// On the local socket.
    Local(LocalListener),
    /// Nowhere: its host is listened on no more, and another one may have its place.
    Closed,
}

impl Listener {
    /// At this host, by a socket that was handed over, if there is one.
    pub(crate) fn bind_tcp(
        net: &impl Net,
        handed: Option<TcpListener>,
        host: Host,
        port: u16,
        beliefs: Beliefs,
    ) -> Result<Listener, BindFault>
        ensures { IfOk result (λ listener. beliefs_of listener ≡ Some beliefs) }
    {
        if let Some(listener) = handed {
            return Ok(Listener::Tcp(listener, beliefs));
        }
        let address = SocketAddr::new(ip_of(host), port);
        match tcp_listener(net, address) {
            Ok(listener) => Ok(Listener::Tcp(listener, beliefs)),
            Err(error) => Err(BindFault::Socket(Step::BindTcp(address).failed(error))),
        }
    }

    // ASKED-2
    /// A connection, if it is somebody's when these networks are served. Another one is closed.
    pub fn accept<R: Files>(&mut self, rt: &R, networks: &[Network]) -> io::Result<Option<Accepted>>
        ensures { IfOk result (λ came. IfSome came (λ one. IsLetIn self.new one.visitor)) }
    {
        match self {
            Listener::Tcp(listener, beliefs) => {
                let (stream, from) = listener.accept()?;
                let Some(theirs) = asker(networks, sender(from)) else {
                    return Ok(None);
                };
                let stream = Stream::Tcp(stream);
                let ours = stream.own_end();
                let ends = Ends {
                    theirs,
                    ours,
                    beliefs: *beliefs,
                };
                Ok(Some(Accepted {
                    stream,
                    visitor: Visitor::of(ends),
                }))
            }
            Listener::Local(local) => {
                let (stream, arrival) = local.accept(rt)?;
                Ok(Some(Accepted {
                    stream: Stream::Local(stream),
                    visitor: Visitor::Known(arrival),
                }))
            }
            Listener::Closed => Err(io::Error::from(ErrorKind::WouldBlock)),
        }
    }

    /// Whether it is over TCP, at this host.
    pub(crate) fn is_at(&self, host: Host) -> bool {
        match self {
            Listener::Tcp(listener, _) => match listener.local_addr() {
                Ok(address) => Peer::of(address).host() == host,
                Err(_) => false,
            },
            Listener::Local(_) | Listener::Closed => false,
        }
    }

    /// Whether its host is listened on no more.
    pub(crate) fn is_closed(&self) -> bool
        ensures { result ≡ is_closed self.now }
    {
        matches!(self, Listener::Closed)
    }

    /// Whether it is the local socket, and it is yet to be told that it is root's no longer.
    pub(crate) fn is_changed(&self) -> bool
        ensures { result ≡ is_changed self.now }
    {
        match self {
            Listener::Tcp(_, _) | Listener::Closed => false,
            Listener::Local(local) => local.is_changed(),
        }
    }

    /// Whether it was found since the last question that it is the local socket, and root's no longer.
    pub(crate) fn take_change(&mut self) -> bool
        ensures untold { result ≡ is_changed self.old }
        ensures told { self.new ≡ when_told self.old }
    {
        match self {
            Listener::Tcp(_, _) | Listener::Closed => false,
            Listener::Local(local) => local.take_change(),
        }
    }

    pub(crate) fn as_raw_fd(&self) -> RawFd {
        match self {
            Listener::Tcp(listener, _) => listener.as_raw_fd(),
            Listener::Local(local) => local.listener.as_raw_fd(),
            Listener::Closed => -1,
        }
    }

    pub(crate) fn register(&mut self, registry: &Registry, token: Token) -> io::Result<()>
        ensures { beliefs_of self.new ≡ beliefs_of self.old }
    {
        match self {
            Listener::Tcp(listener, _) => registry.register(listener, token, Interest::READABLE),
            Listener::Local(local) => {
                registry.register(&mut local.listener, token, Interest::READABLE)
            }
            Listener::Closed => Ok(()),
        }
    }
}

/// What one of these found is told.
pub(crate) fn note_all_told(listeners: &mut [Watched<Listener>])
    ensures { listeners.new ≡ map told_of listeners.old }
{
    for listener in listeners.iter_mut() {
        note_told(listener);
    }
}

fn note_told(listener: &mut Watched<Listener>)
    ensures { listener.new ≡ told_of listener.old }
{
    let _ = listener.socket.take_change();
}

/// The place of a listener whose host is listened on no more, or the next one.
pub(crate) fn free_door(listeners: &[Watched<Listener>]) -> usize
    ensures { result ≡ free_door listeners.now }
{
    match closed_door(listeners) {
        Some(door) => door,
        None => listeners.len(),
    }
}

fn closed_door(listeners: &[Watched<Listener>]) -> Option<usize>
    ensures { result ≡ closed_door listeners.now }
{
    listeners
        .iter()
        .position(|listener| listener.socket.is_closed())
}
