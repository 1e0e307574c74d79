//! Networks: the hosts that begin with the same bits.
ghost use Rattle.std.specs.Prelude.{◌≡◌, ◌≤◌, length};
ghost use Rattle.rb_address.specs.Hosts.{bit_count};
ghost use Rattle.rb_address.specs.Networks.{is_same_octet, is_octet_clear, is_same_front, is_clear_behind, is_clear, network_at, network_of, host_of, plain_host_of};

use crate::host::{Host, is_mapped};
use crate::reading::{cut, ipv4_host, plain_number};
use rb_uaddr::ipv6_host;

/// The hosts whose first bits are those of one host.
#[derive(Clone, Copy)]
pub struct Network {
    host: Host,
    length: u8,
}

/// Why a host and a length are no network.
#[derive(Clone, Copy)]
pub enum NetworkFault {
    /// The length is over the bits of the host: 32, or 128.
    TooLong,
    /// A bit of the host is set after the length.
    BitsBehind,
    /// The host is one of IPv4 in IPv6's form, as which no peer counts.
    Mapped,
}

impl Network {
    ghost use Rattle.std.specs.Prelude.{◌≡◌};
    ghost use Rattle.rb_address.specs.Networks.{has, network_at, network_of};

    /// The network of all hosts whose first `length` bits are those of this host.
    #[tactic(auto, unfolding(crate::specs::Networks::network_at))]
    pub fn new(host: Host, length: u8) -> Result<Network, NetworkFault>
        ensures { result ≡ network_at host length }
    {
        if length > bit_count(host) {
            return Err(NetworkFault::TooLong);
        }
        if !is_clear(host, length) {
            return Err(NetworkFault::BitsBehind);
        }
        if host.plain() != host {
            return Err(NetworkFault::Mapped);
        }
        Ok(Network { host, length })
    }

    /// The network that has this text: `192.0.2.0/24` or `2001:db8::/32`. A host alone is a network of one host.
    pub fn read(text: &[u8]) -> Option<Network>
        ensures { result ≡ network_of text.now }
    {
        network_of(text)
    }

    /// Whether it has this host. It has none of the other family.
    pub fn has(self, host: Host) -> bool
        ensures { result ≡ has self host }
    {
        let bits = usize::from(self.length);
        match (self.host, host) {
            (Host::V4(a), Host::V4(b)) => is_same_front(&a, &b, bits),
            (Host::V6(a), Host::V6(b)) => is_same_front(&a, &b, bits),
            (Host::V4(_), Host::V6(_)) | (Host::V6(_), Host::V4(_)) => false,
        }
    }
}

/// How many bits a host has.
fn bit_count(host: Host) -> u8
    ensures { result ≡ bit_count host }
{
    match host {
        Host::V4(_) => 32,
        Host::V6(_) => 128,
    }
}

/// Whether both begin with the same bits, this many of them.
fn is_same_front(a: &[u8], b: &[u8], bits: usize) -> bool
    requires { length a.now ≡ length b.now }
    ensures { result ≡ is_same_front bits a.now b.now }
{
    let [x, a @ ..] = a else {
        return true;
    };
    let [y, b @ ..] = b else {
        return true;
    };
    is_same_octet(*x, *y, bits.min(8)) && is_same_front(a, b, bits.saturating_sub(8))
}

/// Whether the first bits of two bytes are the same, at most 8 of them.
fn is_same_octet(x: u8, y: u8, bits: usize) -> bool
    requires { bits ≤ 8 }
    ensures { result ≡ is_same_octet bits x y }
{
    u32::from(x) >> (8 - bits) == u32::from(y) >> (8 - bits)
}

/// Whether no bit is set after this many.
fn is_clear(host: Host, length: u8) -> bool
    ensures { result ≡ is_clear length host }
{
    let bits = usize::from(length);
    match host {
        Host::V4(octets) => is_clear_behind(&octets, bits),
        Host::V6(octets) => is_clear_behind(&octets, bits),
    }
}

fn is_clear_behind(octets: &[u8], bits: usize) -> bool
    ensures { result ≡ is_clear_behind bits octets.now }
{
    match octets {
        [x, rest @ ..] => {
            is_octet_clear(*x, bits.min(8)) && is_clear_behind(rest, bits.saturating_sub(8))
        }
        [] => true,
    }
}

/// Whether no bit of a byte is set after this many, at most 8.
fn is_octet_clear(x: u8, bits: usize) -> bool
    requires { bits ≤ 8 }
    ensures { result ≡ is_octet_clear bits x }
{
    (u32::from(x) << bits) % 256 == 0
}

/// A host of either family, an IPv6 host in any spelling.
fn host_of(text: &[u8]) -> Option<Host>
    ensures { result ≡ host_of text.now }
{
    match ipv4_host(text) {
        Some(octets) => Some(Host::V4(octets)),
        None => Some(Host::V6(ipv6_host(text)?)),
    }
}

/// The same, but none of IPv4 in IPv6's form.
#[tactic(auto, unfolding(crate::specs::Networks::plain_host_of))]
pub(crate) fn plain_host_of(text: &[u8]) -> Option<Host>
    ensures { result ≡ plain_host_of text.now }
{
    let host = host_of(text)?;
    if host.plain() == host {
        Some(host)
    } else {
        None
    }
}

/// A host, or a host, a slash and a length.
#[tactic(auto, unfolding(crate::specs::Networks::network_of))]
fn network_of(text: &[u8]) -> Option<Network>
    ensures { result ≡ network_of text.now }
{
    let Some((host, length)) = cut(text, b'/') else {
        let host = host_of(text)?;
        return Network::new(host, bit_count(host)).ok();
    };
    let host = host_of(host)?;
    let length = plain_number(length, 256)?;
    Network::new(host, length as u8).ok()
}
