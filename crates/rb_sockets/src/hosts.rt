//! Hosts that the machine does not have, or not yet.
use crate::handed::Handed;
use crate::sockets::is_no_host;
use rb_address::Host;
use rb_descriptors::udp_socket;
use rb_policy::{LOOPBACK6, ip_of};
use rb_settings::Settings;
use std::net::{Net, SocketAddr};

/// The first host of `--bind` that the machine does not have now, so that no socket can be bound there, and for which sockets
/// were not handed over.
pub fn missing_host<R: Net>(rt: &R, settings: &Settings<'_>, handed: &Handed) -> Option<Host> {
    for host in settings.bind.as_slice() {
        if !handed.has_all_of(*host) && is_missing(rt, *host) {
            return Some(*host);
        }
    }
    None
}

/// Whether the machine makes sockets of IPv6 and has no ::1, as with IPv6 off by sysctl.
pub fn lacks_loopback6<R: Net>(rt: &R) -> bool {
    is_missing(rt, Host::V6(LOOPBACK6))
}

/// Whether no socket can be bound at a host since the machine does not have it.
pub(crate) fn is_missing<R: Net>(rt: &R, host: Host) -> bool {
    match udp_socket(rt, SocketAddr::new(ip_of(host), 0), false) {
        Ok(_) => false,
        Err(error) => is_no_host(&error),
    }
}
