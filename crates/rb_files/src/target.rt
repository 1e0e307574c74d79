//! Where the program of a row is asked.
ghost use Rattle.std.specs.Prelude.{◌≡◌};
ghost use Rattle.rb_files.specs.Asked.{target_at, target_of};

use rb_address::{Host, Netid, Transport};
use rb_policy::checked_at;
use rb_registry::Row;
use rb_uaddr::Uaddr;

/// The hosts of this machine, beside its loopback.
#[derive(Clone, Copy)]
pub struct OwnHosts<'a> {
    /// Those that are listened on.
    pub bound: &'a [Host],
    /// Those that are announced.
    pub announced: &'a [Host],
}

/// Where a program is asked.
#[derive(Clone, Copy)]
pub struct Target {
    pub transport: Transport,
    pub host: Host,
    pub port: u16,
}

/// Where the program of a row is asked; none if it is of a local socket, or of another host.
pub fn target_of(row: &Row, own: OwnHosts<'_>) -> Option<Target>
    ensures { result ≡ target_of own.entry.bound.now own.entry.announced.now row.now }
{
    match row.netid {
        Netid::Tcp => target_at(own, Transport::Tcp, row.addr.ipv4()),
        Netid::Udp => target_at(own, Transport::Udp, row.addr.ipv4()),
        Netid::Tcp6 => target_at(own, Transport::Tcp, row.addr.ipv6()),
        Netid::Udp6 => target_at(own, Transport::Udp, row.addr.ipv6()),
        Netid::Local => None,
    }
}

/// Where it is asked over this transport, if it has an address.
fn target_at(own: OwnHosts<'_>, transport: Transport, address: Option<Uaddr>) -> Option<Target>
    ensures { result ≡ target_at own.entry.bound.now own.entry.announced.now transport address }
{
    let (host, port) = match address? {
        Uaddr::V4(octets, port) => (Host::V4(octets), port),
        Uaddr::V6(octets, port) => (Host::V6(octets), port),
    };
    let host = checked_at(own.bound, own.announced, host.plain())?;
    Some(Target {
        transport,
        host,
        port,
    })
}
