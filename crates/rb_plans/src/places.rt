//! The socket address of a place.
ghost use Rattle.std.specs.Prelude.{◌≡◌};
ghost use Rattle.std.specs.Net.Socket.{socket_ip, socket_port, socket_scope_id};
ghost use Rattle.rb_plans.specs.Places.{is_of_link, told_scope, transport_in, HasAddress, IsCalledAt};

use crate::course::Place;
use rb_address::Transport;
use rb_uaddr::Uaddr;
use std::net::{IpAddr, Ipv4Addr, Ipv6Addr, SocketAddr, SocketAddrV6};

/// Whether an IPv6 host is one of a link alone, fe80::/10 (RFC 4291 section 2.5.6).
fn is_of_link(host: [u8; 16]) -> bool
    ensures { result ≡ is_of_link host }
{
    host[0] == 0xfe && 0x80 <= host[1] && host[1] < 0xc0
}

/// The scope by which the host of a portmapper was found.
fn scope_of(portmapper: SocketAddr) -> u32
    ensures { result ≡ socket_scope_id portmapper }
{
    match portmapper {
        SocketAddr::V4(_) => 0,
        SocketAddr::V6(address) => address.scope_id(),
    }
}

/// The scope of an address that a portmapper told: that of the portmapper's host, if the address is one of a link.
fn told_scope(address: Uaddr, portmapper: SocketAddr) -> u32
    ensures { result ≡ told_scope address portmapper }
{
    match address {
        Uaddr::V4(_, _) => 0,
        Uaddr::V6(host, _) => {
            if is_of_link(host) {
                scope_of(portmapper)
            } else {
                0
            }
        }
    }
}

/// An address that a portmapper told.
fn told_at(address: Uaddr, portmapper: SocketAddr) -> SocketAddr
    ensures address { HasAddress address result }
    ensures scope { socket_scope_id result ≡ told_scope address portmapper }
{
    let scope = told_scope(address, portmapper);
    match address {
        Uaddr::V4(host, port) => SocketAddr::new(IpAddr::V4(Ipv4Addr::from(host)), port),
        Uaddr::V6(host, port) => {
            SocketAddr::V6(SocketAddrV6::new(Ipv6Addr::from(host), port, 0, scope))
        }
    }
}

/// A port of the host whose portmapper is at this address. The scope by which it was found stays.
fn port_at(portmapper: SocketAddr, port: u16) -> SocketAddr
    ensures ip { socket_ip result ≡ socket_ip portmapper }
    ensures port { socket_port result ≡ port }
    ensures scope { socket_scope_id result ≡ socket_scope_id portmapper }
{
    let mut address = portmapper;
    address.set_port(port);
    address
}

/// Returns where a question goes, of the host whose portmapper has this address.
pub fn called_at(place: Place, portmapper: SocketAddr) -> (Transport, SocketAddr)
    ensures transport { result.0 ≡ transport_in place }
    ensures address { IsCalledAt place portmapper result.1 }
{
    match place {
        Place::Portmapper(transport) => (transport, portmapper),
        Place::Port(transport, port) => (transport, port_at(portmapper, port)),
        Place::Address(transport, address) => (transport, told_at(address, portmapper)),
    }
}
