//! The hosts that the daemon is given, which of them it binds, and what it announces and forwards from.
ghost use Rattle.std.specs.Prelude.{◌≡◌};
ghost use Rattle.rb_address.specs.Hosts.{is_any};
ghost use Rattle.rb_policy.specs.Addresses.{is_any6, is_same, has_host, has_every_host, has_every_inet, binds_every_inet, binds_loopback6, first_inet, first_inet6, announced_inet, announced_inet6, forwards_inet, forwards_inet6, served_inet, served_inet6};

use rb_address::Host;

/// The host 0.0.0.0, which is every one of IPv4.
pub const ANY: [u8; 4] = [0, 0, 0, 0];

/// The host 127.0.0.1.
pub const LOOPBACK: [u8; 4] = [127, 0, 0, 1];

/// The host ::1.
pub const LOOPBACK6: [u8; 16] = [0, 0, 0, 0, 0, 0, 0, 0, 0, 0, 0, 0, 0, 0, 0, 1];

/// Whether it is ::.
fn is_any6(host: Host) -> bool
    ensures { result ≡ is_any6 host }
{
    match host {
        Host::V4(_) => false,
        Host::V6(_) => host.is_any(),
    }
}

pub(crate) fn is_same(a: Host, b: Host) -> bool
    ensures { result ≡ is_same a b }
{
    a == b
}

/// Whether a host is one of these.
pub fn has_host(hosts: &[Host], wanted: Host) -> bool
    ensures { result ≡ has_host wanted hosts.now }
{
    hosts.iter().any(|host| is_same(*host, wanted))
}

/// Whether every host of both families is listened on: :: is one of these. Then ::1 has a UDP socket of its own beside it.
pub fn has_every_host(hosts: &[Host]) -> bool
    ensures { result ≡ has_every_host hosts.now }
{
    hosts.iter().any(|host| is_any6(*host))
}

/// Whether 0.0.0.0 is bound as well as these hosts: if :: is one of them, and 0.0.0.0 is not.
pub fn binds_every_inet(hosts: &[Host]) -> bool
    ensures { result ≡ binds_every_inet hosts.now }
{
    has_every_host(hosts) && !has_host(hosts, Host::V4(ANY))
}

/// Whether every host of IPv4 is listened on, so that 127.0.0.1 has a UDP socket of its own beside it.
pub fn has_every_inet(hosts: &[Host]) -> bool
    ensures { result ≡ has_every_inet hosts.now }
{
    has_every_host(hosts) || has_host(hosts, Host::V4(ANY))
}

/// Whether ::1 is bound as well as these hosts, if that is asked for: not if it is one of them, or :: is.
pub fn binds_loopback6(hosts: &[Host], is_wanted: bool) -> bool
    ensures { result ≡ binds_loopback6 hosts.now is_wanted }
{
    is_wanted && !has_every_host(hosts) && !has_host(hosts, Host::V6(LOOPBACK6))
}

fn first_inet(hosts: &[Host]) -> Option<[u8; 4]>
    ensures { result ≡ first_inet hosts.now }
{
    match hosts {
        [host, rest @ ..] => match *host {
            Host::V4(octets) => Some(octets),
            Host::V6(_) => first_inet(rest),
        },
        [] => None,
    }
}

fn first_inet6(hosts: &[Host]) -> Option<[u8; 16]>
    ensures { result ≡ first_inet6 hosts.now }
{
    match hosts {
        [host, rest @ ..] => match *host {
            Host::V4(_) => first_inet6(rest),
            Host::V6(octets) => Some(octets),
        },
        [] => None,
    }
}

/// The first of these hosts that is of IPv4, or 0.0.0.0 if :: is one of them; none if IPv4 is not served.
fn served_inet(hosts: &[Host]) -> Option<[u8; 4]>
    ensures { result ≡ served_inet hosts.now }
{
    match first_inet(hosts) {
        Some(first) => Some(first),
        None if has_every_host(hosts) => Some(ANY),
        None => None,
    }
}

/// The first of these hosts that is of IPv6, or ::1 if that is also asked for; none if IPv6 is not served.
fn served_inet6(hosts: &[Host], is_loopback6: bool) -> Option<[u8; 16]>
    ensures { result ≡ served_inet6 hosts.now is_loopback6 }
{
    match first_inet6(hosts) {
        Some(first) => Some(first),
        None if is_loopback6 => Some(LOOPBACK6),
        None => None,
    }
}

/// The host of IPv4 that is announced if none was asked: the one that is given, or the first that is listened on; none
/// if IPv4 is not served.
pub fn announced_inet(given: Option<[u8; 4]>, hosts: &[Host]) -> Option<[u8; 4]>
    ensures { result ≡ announced_inet given hosts.now }
{
    match (served_inet(hosts), given) {
        (Some(_), Some(given)) => Some(given),
        (served, _) => served,
    }
}

/// The same of IPv6, for which ::1 may be listened on as well.
pub fn announced_inet6(
    given: Option<[u8; 16]>,
    hosts: &[Host],
    is_loopback6: bool,
) -> Option<[u8; 16]>
    ensures { result ≡ announced_inet6 given hosts.now is_loopback6 }
{
    match (served_inet6(hosts, is_loopback6), given) {
        (Some(_), Some(given)) => Some(given),
        (served, _) => served,
    }
}

/// The host that calls to targets of IPv4 are forwarded from, if there may be this many at a time: the first that is listened
/// on, or 127.0.0.1; none if none is forwarded.
pub fn forwards_inet(hosts: &[Host], most: usize) -> Option<Host>
    ensures { result ≡ forwards_inet hosts.now most }
{
    if most == 0 {
        return None;
    }
    match served_inet(hosts) {
        Some(first) => Some(Host::V4(first)),
        None => Some(Host::V4(LOOPBACK)),
    }
}

/// The host that calls to targets of IPv6 are forwarded from, if there may be this many at a time: the first that is listened
/// on, if there is one; none if none is forwarded.
pub fn forwards_inet6(hosts: &[Host], is_loopback6: bool, most: usize) -> Option<Host>
    ensures { result ≡ forwards_inet6 hosts.now is_loopback6 most }
{
    if most == 0 {
        return None;
    }
    match served_inet6(hosts, is_loopback6) {
        Some(first) => Some(Host::V6(first)),
        None => None,
    }
}

/// Whether a client can make nothing of a host that is announced: it is every one of its family, 0.0.0.0 or ::.
pub fn is_no_address(announced: Host) -> bool
    ensures { result ≡ is_any announced }
{
    announced.is_any()
}
