//! Transports, and their names (RFC 5665 section 5.1).
ghost use Rattle.std.specs.Prelude.{◌≡◌};
ghost use Rattle.rb_address.specs.Netids.{is_netid, netid_text, netid_named, netid_on, transport_of, family_of_netid, protocol_of, transport_of_protocol};

use crate::host::Family;

/// A transport of the internet's families.
#[derive(Clone, Copy, Debug, PartialEq, Eq)]
pub enum Transport {
    /// TCP, protocol 6.
    Tcp,
    /// UDP, protocol 17.
    Udp,
}

impl Transport {
    /// The number of its protocol: IPPROTO_TCP or IPPROTO_UDP.
    pub fn protocol(self) -> u32
        ensures { result ≡ protocol_of self }
    {
        match self {
            Transport::Tcp => 6,
            Transport::Udp => 17,
        }
    }

    /// The transport of a protocol.
    #[tactic(auto, unfolding(crate::specs::Netids::transport_of_protocol))]
    pub fn of_protocol(protocol: u32) -> Option<Transport>
        ensures { result ≡ transport_of_protocol protocol }
    {
        match protocol {
            6 => Some(Transport::Tcp),
            17 => Some(Transport::Udp),
            _ => None,
        }
    }
}

/// A kind of transport, by which a service is reached.
#[derive(Clone, Copy, Debug, PartialEq, Eq)]
pub enum Netid {
    /// TCP over IPv4.
    Tcp,
    /// UDP over IPv4.
    Udp,
    /// TCP over IPv6.
    Tcp6,
    /// UDP over IPv6.
    Udp6,
    /// Sockets of this machine alone.
    Local,
}

impl Netid {
    /// The netid of a transport over a family.
    pub fn of(transport: Transport, family: Family) -> Netid
        ensures { result ≡ netid_on transport family }
    {
        match (transport, family) {
            (Transport::Tcp, Family::Inet) => Netid::Tcp,
            (Transport::Udp, Family::Inet) => Netid::Udp,
            (Transport::Tcp, Family::Inet6) => Netid::Tcp6,
            (Transport::Udp, Family::Inet6) => Netid::Udp6,
        }
    }

    /// Whether both are the same.
    #[tactic(auto, unfolding(crate::specs::Netids::is_netid))]
    pub fn is(self, other: Netid) -> bool
        ensures { result ≡ is_netid self other }
    {
        self == other
    }

    /// The netid of this name. Upper and lower case differ.
    #[tactic(auto, unfolding(crate::specs::Netids::netid_named))]
    pub fn named(name: &[u8]) -> Option<Netid>
        ensures { result ≡ netid_named name.now }
    {
        match name {
            b"tcp" => Some(Netid::Tcp),
            b"udp" => Some(Netid::Udp),
            b"tcp6" => Some(Netid::Tcp6),
            b"udp6" => Some(Netid::Udp6),
            b"local" => Some(Netid::Local),
            _ => None,
        }
    }

    /// The name that calls and replies have for it: tcp, udp, tcp6, udp6 or local.
    pub fn text(self) -> &'static str
        ensures { result.now ≡ netid_text self }
    {
        match self {
            Netid::Tcp => "tcp",
            Netid::Udp => "udp",
            Netid::Tcp6 => "tcp6",
            Netid::Udp6 => "udp6",
            Netid::Local => "local",
        }
    }

    /// The transport of TCP or UDP; `None` for sockets of this machine.
    pub fn transport(self) -> Option<Transport>
        ensures { result ≡ transport_of self }
    {
        match self {
            Netid::Tcp | Netid::Tcp6 => Some(Transport::Tcp),
            Netid::Udp | Netid::Udp6 => Some(Transport::Udp),
            Netid::Local => None,
        }
    }

    /// The family of its addresses; `None` for sockets of this machine.
    pub fn family(self) -> Option<Family>
        ensures { result ≡ family_of_netid self }
    {
        match self {
            Netid::Tcp | Netid::Udp => Some(Family::Inet),
            Netid::Tcp6 | Netid::Udp6 => Some(Family::Inet6),
            Netid::Local => None,
        }
    }
}
