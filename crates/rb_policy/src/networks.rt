//! Who may ask: the networks that are served.
ghost use Rattle.std.specs.Prelude.{◌≡◌};
ghost use Rattle.rb_policy.specs.Networks.{may_ask, is_in_one, asker};

use rb_address::{Host, Network, Peer};

/// Whether a host may ask, if these networks are served. With none given, every host may. Hosts of this machine
/// always may.
pub fn may_ask(networks: &[Network], host: Host) -> bool
    ensures { result ≡ may_ask networks.now host }
{
    networks.is_empty() || host.is_loopback() || is_in_one(networks, host)
}

fn is_in_one(networks: &[Network], host: Host) -> bool
    ensures { result ≡ is_in_one host networks.now }
{
    networks.iter().any(|network| network.has(host))
}

/// The peer, if there is one and it may ask.
pub fn asker(networks: &[Network], peer: Option<Peer>) -> Option<Peer>
    ensures { result ≡ asker networks.now peer }
{
    match peer {
        Some(peer) if may_ask(networks, peer.host()) => Some(peer),
        Some(_) | None => None,
    }
}
