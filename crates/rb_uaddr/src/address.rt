//! Universal addresses of TCP and UDP (RFC 5665 section 5.2.3).
ghost use Rattle.std.specs.Prelude.{◌≡◌, ◌+◌, ◌*◌, slice_index};
ghost use Rattle.rb_uaddr.specs.Uaddr.{any_host, any_host6, port_bytes, port_of, merged_address, merged_host, merged_host6};

use thiserror::Error;

pub(crate) const ANY_HOST: [u8; 4] = [0; 4];

pub(crate) const ANY_HOST6: [u8; 16] = [0; 16];

/// The bytes or the text are no universal address.
#[derive(Clone, Copy, Debug, PartialEq, Eq, Error)]
#[error("not a universal address")]
pub struct NotAnAddress;

/// A host and a port of TCP or UDP.
#[derive(Clone, Copy, Debug, PartialEq, Eq)]
pub enum Uaddr {
    /// An IPv4 host, its most significant byte first, and a port.
    V4([u8; 4], u16),
    /// An IPv6 host, its most significant byte first, and a port.
    V6([u8; 16], u16),
}

/// A host of each family, which stands in for every host of it; 0.0.0.0 and :: leave that as it is.
#[derive(Clone, Copy, Debug, PartialEq, Eq)]
pub struct Hosts {
    /// The IPv4 host, its most significant byte first.
    pub inet: [u8; 4],
    /// The IPv6 host, its most significant byte first.
    pub inet6: [u8; 16],
}

impl Uaddr {
    /// The address 0.0.0.0 with this port, which stands for every IPv4 address of the listener.
    pub const fn any(port: u16) -> Uaddr
        ensures { result ≡ Uaddr.V4 any_host port }
    {
        Uaddr::V4(ANY_HOST, port)
    }

    /// The address :: with this port, which stands for every IPv6 address of the listener.
    pub const fn any6(port: u16) -> Uaddr
        ensures { result ≡ Uaddr.V6 any_host6 port }
    {
        Uaddr::V6(ANY_HOST6, port)
    }

    /// The port of TCP or UDP.
    #[tactic(auto, unfolding(crate::specs::Uaddr::port_of))]
    pub fn port(&self) -> u16
        ensures { result ≡ port_of self.now }
    {
        match self {
            Uaddr::V4(_, port) | Uaddr::V6(_, port) => *port,
        }
    }

    /// The address with the host of its family in place of 0.0.0.0 or ::. Any other host stays.
    #[tactic(auto, unfolding(crate::specs::Uaddr::merged_address))]
    pub fn merge(self, hosts: &Hosts) -> Uaddr
        ensures { result ≡ merged_address hosts.now self }
    {
        match self {
            Uaddr::V4(own, port) => Uaddr::V4(hosts.merge_inet(own), port),
            Uaddr::V6(own, port) => Uaddr::V6(hosts.merge_inet6(own), port),
        }
    }
}

impl Hosts {
    /// `own`, or the IPv4 host if `own` is 0.0.0.0.
    #[tactic(auto, unfolding(crate::specs::Uaddr::merged_host))]
    pub fn merge_inet(&self, own: [u8; 4]) -> [u8; 4]
        ensures { result ≡ merged_host self.now.inet own }
    {
        if own == ANY_HOST { self.inet } else { own }
    }

    /// `own`, or the IPv6 host if `own` is ::.
    #[tactic(auto, unfolding(crate::specs::Uaddr::merged_host6))]
    pub fn merge_inet6(&self, own: [u8; 16]) -> [u8; 16]
        ensures { result ≡ merged_host6 self.now.inet6 own }
    {
        if own == ANY_HOST6 { self.inet6 } else { own }
    }
}
/// The port's high byte and low byte.
#[tactic(auto, unfolding(crate::specs::Uaddr::port_bytes))]
pub(crate) fn port_bytes(port: u16) -> [u8; 2]
    ensures { result ≡ port_bytes port }
{
    port.to_be_bytes()
}

pub(crate) fn port_from(bytes: [u8; 2]) -> u16
    ensures { result ≡ 256 * slice_index bytes 0 + slice_index bytes 1 }
{
    u16::from_be_bytes(bytes)
}
