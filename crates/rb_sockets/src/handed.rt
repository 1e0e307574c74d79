//! Sockets that a service manager handed over, and what the daemon has each of them for.
ghost use Rattle.std.specs.Prelude.{◌≡◌, [], None};
ghost use Rattle.std.specs.List.{list_any};
ghost use Rattle.rb_address.specs.Hosts.{is_same_host};
ghost use Rattle.rb_sockets.specs.Handed.{has_all_of};

use mio::net::{TcpListener, UdpSocket, UnixListener};
use rb_address::{Host, Peer};
use rb_descriptors::{Asked, Descriptors, ask};
use rb_policy::ANY;
use rb_policy::handed::{InetSaid, Mismatch, Role, Said, Wanted, mismatch_text, new_host, settle};
use rb_settings::{Few, MOST, Settings};
use std::alloc::{AllocError, Global};
use std::fmt;
use std::fmt::{Display, Formatter};
use thiserror::Error;

/// Sockets that a service manager handed over, as they say what they are.
#[derive(Drop)]
pub struct HandedOver {
    all: Vec<Numbered>,
}

/// A socket, and the number of its descriptor.
#[derive(Drop)]
struct Numbered {
    number: u16,
    asked: Asked,
}

/// Why the sockets that were handed over are not taken.
#[derive(Debug, Drop, Error)]
pub enum HandedFault {
    /// An allocation was refused.
    #[error("no memory")]
    Memory(#[from] AllocError),
    /// LISTEN_FDS is no number of at most 64.
    #[error("LISTEN_FDS is no number of at most 64")]
    Count,
    /// That of this number is not taken.
    #[error("{0}")]
    Socket(HandedSocket),
}

/// A socket that is not taken.
#[derive(Debug, Drop)]
pub struct HandedSocket {
    /// The number of its descriptor.
    number: u16,
    /// Its address, if it has one of IPv4 or IPv6.
    address: Option<Peer>,
    mismatch: Mismatch,
}

impl Display for HandedSocket {
    fn fmt<W: fmt::Write>(&self, f: &mut Formatter<W>) -> fmt::Result {
        let HandedSocket {
            number,
            address,
            mismatch,
        } = self;
        write!(f, "the socket handed over as descriptor {number}")?;
        if let Some(address) = address {
            write!(f, " ({address})")?;
        }
        write!(f, " {}", mismatch_text(*mismatch))
    }
}

impl Numbered {
    /// What it says of itself.
    fn said(&self) -> Said<'_> {
        match &self.asked {
            Asked::Inet(_, said) => Said::Inet(InetSaid {
                address: Peer::of(said.address),
                is_tcp: said.is_tcp,
                listens: said.listens,
                takes_inet: said.takes_inet,
            }),
            Asked::Unix(_, address, listens) => match address.as_pathname() {
                Some(path) => Said::Unix(path.as_str().as_bytes(), *listens),
                None => Said::Other,
            },
            Asked::Other => Said::Other,
        }
    }

    /// That it is not taken, and why.
    fn fault(&self, mismatch: Mismatch) -> HandedFault {
        let address = match &self.asked {
            Asked::Inet(_, said) => Some(Peer::of(said.address)),
            Asked::Unix(_, _, _) | Asked::Other => None,
        };
        HandedFault::Socket(HandedSocket {
            number: self.number,
            address,
            mismatch,
        })
    }
}

impl HandedOver {
    /// All of them, each asked what it is.
    pub(crate) fn take(
        alloc: Global,
        mut descriptors: Descriptors,
    ) -> Result<HandedOver, HandedFault> {
        let mut all = Vec::new(alloc);
        for _ in 0..=u16::MAX {
            let Some((number, fd)) = descriptors.take() else {
                break;
            };
            let asked = ask(fd);
            push(&mut all, Numbered { number, asked })?;
        }
        Ok(HandedOver { all })
    }

    /// The hosts of the listeners over TCP, of which at most 16 count, each once and in their order, if there are any.
    pub fn hosts(&self) -> Option<Few<Host>> {
        let mut hosts = Few::new(Host::V4(ANY));
        for socket in &self.all {
            if let Some(host) = new_host(hosts.as_slice(), socket.said()) {
                if hosts.len() < MOST {
                    hosts.push(host);
                }
            }
        }
        if hosts.len() == 0 { None } else { Some(hosts) }
    }

    /// Each of them for an address at which the settings say that the daemon listens; the first fault if one is not, or there
    /// is no memory.
    pub fn settle(self, alloc: Global, settings: &Settings<'_>) -> Result<Handed, HandedFault> {
        let mut handed = Handed::none(alloc);
        let mut roles = Vec::new(alloc);
        let wanted = Wanted {
            hosts: settings.bind.as_slice(),
            loopback6: settings.loopback6,
            port: settings.port,
            local: match &settings.local {
                Some(local) => Some(local.path.as_bytes()),
                None => None,
            },
        };
        for socket in self.all {
            match settle(&roles, &wanted, socket.said()) {
                Ok(role) => {
                    push(&mut roles, role)?;
                    handed.put(role, socket.asked)?;
                }
                Err(mismatch) => return Err(socket.fault(mismatch)),
            }
        }
        Ok(handed)
    }
}

/// A socket of one host, until it is taken.
#[derive(Drop)]
struct At<S> {
    host: Host,
    socket: Option<S>,
}

/// Sockets that were handed over, each for an address at which the daemon listens.
#[derive(Drop)]
pub struct Handed {
    tcp: Vec<At<TcpListener>>,
    udp: Vec<At<UdpSocket>>,
    local: Option<UnixListener>,
}

impl Handed {
    /// None was handed over.
    pub fn none(alloc: Global) -> Handed
        ensures tcp { result.tcp.items ≡ [] }
        ensures udp { result.udp.items ≡ [] }
        ensures local { result.local ≡ None }
    {
        Handed {
            tcp: Vec::new(alloc),
            udp: Vec::new(alloc),
            local: None,
        }
    }

    /// Has the socket for this.
    fn put(&mut self, role: Role, asked: Asked) -> Result<(), HandedFault> {
        match (role, asked) {
            (Role::Tcp(host), Asked::Inet(fd, _)) => {
                let socket = Some(TcpListener::from(fd));
                push(&mut self.tcp, At { host, socket })
            }
            (Role::Udp(host), Asked::Inet(fd, _)) => {
                let socket = Some(UdpSocket::from(fd));
                push(&mut self.udp, At { host, socket })
            }
            (Role::Local, Asked::Unix(socket, _, _)) => {
                self.local = Some(socket);
                Ok(())
            }
            (_, _) => Ok(()),
        }
    }

    /// Whether there are a listener and a socket of datagrams of a host.
    pub(crate) fn has_all_of(&self, host: Host) -> bool
        ensures { result ≡ has_all_of host self.now }
    {
        is_one_at(self.tcp.as_slice(), host) && is_one_at(self.udp.as_slice(), host)
    }

    /// The listener over TCP at a host, if it was handed over and not taken yet.
    pub(crate) fn take_tcp(&mut self, host: Host) -> Option<TcpListener> {
        take_at(&mut self.tcp, host)
    }

    /// The socket of datagrams at a host, if it was handed over and not taken yet.
    pub(crate) fn take_udp(&mut self, host: Host) -> Option<UdpSocket> {
        take_at(&mut self.udp, host)
    }

    /// The local socket, if it was handed over and not taken yet.
    pub(crate) fn take_local(&mut self) -> Option<UnixListener> {
        self.local.take()
    }
}

fn push<T: Drop>(all: &mut Vec<T>, value: T) -> Result<(), HandedFault> {
    match all.push(value) {
        Ok(()) => Ok(()),
        Err(error) => Err(HandedFault::Memory(AllocError::from(error))),
    }
}

/// Whether one of these is a socket of the host.
fn is_one_at<S: Drop>(all: &[At<S>], host: Host) -> bool
    ensures { result ≡ list_any (λ at. is_same_host at.host host) all.now }
{
    all.iter().any(|at| at.host == host)
}

fn take_at<S: Drop>(all: &mut Vec<At<S>>, host: Host) -> Option<S> {
    for at in all.iter_mut() {
        if at.host == host {
            return at.socket.take();
        }
    }
    None
}
