//! By which places networks and hosts are told apart.
ghost use Rattle.std.specs.Prelude.{◌≡◌, ◌<◌};
ghost use Rattle.rb_policy.specs.declared.recent.TheConstants.{PLACES};
ghost use Rattle.rb_policy.specs.Places.{polynomial, place_by, network_place, host_place, prime};

use crate::recent::PLACES;
use rb_address::Host;

/// The greatest prime number below 2^32.
const PRIME: u64 = 4_294_967_291;

/// What places go by. If both numbers are of the system's randomness, two networks, or two hosts, share a place under
/// about one key in a thousand, and nobody else knows which do.
#[derive(Clone, Copy)]
pub struct PlaceKey {
    /// Where the polynomial of a network's or a host's bytes is taken.
    pub point: u32,
    /// What the polynomial is multiplied by.
    pub factor: u32,
}

/// The place of a host's network: of all hosts that begin with the same three bytes of IPv4, or six of IPv6.
pub(crate) fn network_place(key: PlaceKey, host: Host) -> usize
    ensures place { result ≡ network_place key host }
    ensures below { result < PLACES }
{
    match host {
        Host::V4(octets) => place_by(key, &octets[..3]),
        Host::V6(octets) => place_by(key, &octets[..6]),
    }
}

/// The place of a host.
pub(crate) fn host_place(key: PlaceKey, host: Host) -> usize
    ensures place { result ≡ host_place key host }
    ensures below { result < PLACES }
{
    match host {
        Host::V4(octets) => place_by(key, &octets),
        Host::V6(octets) => place_by(key, &octets),
    }
}

/// A place by some bytes.
fn place_by(key: PlaceKey, octets: &[u8]) -> usize
    ensures place { result ≡ place_by key octets.now }
    ensures below { result < PLACES }
{
    let number = polynomial(key.point, octets);
    let mixed = number * u64::from(key.factor) % PRIME;
    (mixed % PLACES as u64) as usize
}

/// The polynomial with these bytes as its coefficients, after a 1, at a point.
fn polynomial(point: u32, octets: &[u8]) -> u64
    ensures number { result ≡ polynomial point octets.now }
    ensures below { result < prime }
{
    let mut number = 1;
    for octet in octets {
        number = (number * u64::from(point) + u64::from(*octet)) % PRIME;
    }
    number
}
