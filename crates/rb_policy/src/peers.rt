//! Which senders are somebody, and the socket address to which a peer is sent something.
ghost use Rattle.std.specs.Prelude.{◌≡◌};
ghost use Rattle.std.specs.Net.Socket.{socket_ip, IsPlainSocket};
ghost use Rattle.rb_policy.specs.Peers.{sender, is_mapped_source, somebody, is_nobody, is_no_host, IsIpOf};

use rb_address::{Family, Host, Peer};
use std::net::{IpAddr, Ipv4Addr, Ipv6Addr, SocketAddr};

/// The peer that something came from, if that is somebody.
pub fn sender(from: SocketAddr) -> Option<Peer>
    ensures { result ≡ sender from }
{
    if is_mapped_source(from) {
        None
    } else {
        somebody(Peer::of(from))
    }
}

/// Whether it is ::ffff:a.b.c.d. A socket of IPv6 alone has no callers of IPv4: whoever sends so from outside would pass for any
/// of them, for 127.0.0.1 too.
#[tactic(auto, unfolding(rb_address::specs::Hosts::plain_host))]
fn is_mapped_source(from: SocketAddr) -> bool
    ensures { result ≡ is_mapped_source from }
{
    match from {
        SocketAddr::V4(_) => false,
        SocketAddr::V6(from) => Host::V6(from.ip().octets()).plain().family() == Family::Inet,
    }
}

fn somebody(peer: Peer) -> Option<Peer>
    ensures { result ≡ somebody peer }
{
    if is_nobody(peer) { None } else { Some(peer) }
}

/// Nobody is at a host that is none, and a datagram from port 0 asks for no reply (RFC 768). The system hands such
/// datagrams in if they were sent to all hosts.
fn is_nobody(peer: Peer) -> bool
    ensures { result ≡ is_nobody peer }
{
    is_no_host(peer.host()) || peer.port() == 0
}

/// A host of 0.0.0.0/8 has no address yet (RFC 1122 section 3.2.1.3), and neither has :: (RFC 4291 section 2.5.2).
fn is_no_host(host: Host) -> bool
    ensures { result ≡ is_no_host host }
{
    match host {
        Host::V4(octets) => octets[0] == 0,
        Host::V6(_) => host.is_any(),
    }
}

/// The socket address of a peer: its host and port, of IPv6 with no flow and no zone.
pub fn address_of(peer: Peer) -> SocketAddr
    ensures ip { IsIpOf peer.host (socket_ip result) }
    ensures plain { IsPlainSocket result peer.port }
{
    SocketAddr::new(ip_of(peer.host()), peer.port())
}

/// The address of a host, to which a socket is bound.
pub fn ip_of(host: Host) -> IpAddr
    ensures { IsIpOf host result }
{
    match host {
        Host::V4(octets) => IpAddr::V4(Ipv4Addr::from_octets(octets)),
        Host::V6(octets) => IpAddr::V6(Ipv6Addr::from_octets(octets)),
    }
}
