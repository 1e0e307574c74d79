//! Peers: who is at the other end.
ghost use Rattle.std.specs.Prelude.{◌≡◌};
ghost use Rattle.rb_address.specs.Hosts.{family_of, is_loopback, is_any};
ghost use Rattle.rb_address.specs.Peers.{peer_at, peer_of};
ghost use Rattle.rb_address.specs.Reading.{peer};

use crate::host::{Family, Host};
use crate::reading::peer;
use std::fmt;
use std::net::{Ipv6Addr, SocketAddr};

/// A host and a port. `new` and `of` make none with a host of IPv4 in IPv6's form.
#[derive(Clone, Copy, Debug, PartialEq, Eq)]
pub struct Peer {
    host: Host,
    port: u16,
}

impl Peer {
    /// The peer at this host and port. A host ::ffff:a.b.c.d counts as a.b.c.d.
    pub fn new(host: Host, port: u16) -> Peer
        ensures { result ≡ peer_at host port }
    {
        Peer {
            host: host.plain(),
            port,
        }
    }

    /// The peer that a socket address is of; its flow and zone say nothing.
    pub fn of(address: SocketAddr) -> Peer
        ensures { result ≡ peer_of address }
    {
        match address {
            SocketAddr::V4(from) => Peer::new(Host::V4(from.ip().octets()), from.port()),
            SocketAddr::V6(from) => Peer::new(Host::V6(from.ip().octets()), from.port()),
        }
    }

    /// The peer at a host that is none of IPv4 in IPv6's form.
    pub(crate) fn at(host: Host, port: u16) -> Peer
        ensures { result ≡ record { host = host; port = port } }
    {
        Peer { host, port }
    }

    /// The peer that has this text, exactly if it is the text that is printed of the peer.
    pub fn read(text: &[u8]) -> Option<Peer>
        ensures { result ≡ peer text.now }
    {
        peer(text)
    }

    /// Its host.
    pub fn host(self) -> Host
        ensures { result ≡ self.host }
    {
        self.host
    }

    /// Its port.
    pub fn port(self) -> u16
        ensures { result ≡ self.port }
    {
        self.port
    }

    /// The family of its host.
    pub fn family(self) -> Family
        ensures { result ≡ family_of self.host }
    {
        self.host.family()
    }

    /// Whether its host is of this host by its address alone: of 127.0.0.0/8, or ::1.
    pub fn is_loopback(self) -> bool
        ensures { result ≡ is_loopback self.host }
    {
        self.host.is_loopback()
    }
}

/// `h1.h2.h3.h4:port` or `[x1:x2:x3:x4:x5:x6:x7:x8]:port`, the groups as RFC 5952 prints them.
impl fmt::Display for Peer {
    ghost use Rattle.std.specs.Prelude.{Some};
    ghost use Rattle.rb_address.specs.Peers.{peer_text};

    ghost output = { λ p. Some (peer_text p) };

    #[tactic(auto, unfolding(rb_uaddr::specs::Uaddr::ipv6_host_text))]
    fn fmt<W: fmt::Write>(&self, f: &mut fmt::Formatter<W>) -> fmt::Result {
        let port = self.port;
        match self.host {
            Host::V4(octets) => {
                let [a, b, c, d] = octets;
                write!(f, "{a}.{b}.{c}.{d}:{port}")
            }
            Host::V6(octets) => {
                let groups = Ipv6Addr::from_octets(octets).hex_groups();
                write!(f, "[{groups}]:{port}")
            }
        }
    }
}
