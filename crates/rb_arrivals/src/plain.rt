//! Callers and peers as they count for the core: none of their hosts is of IPv4 in IPv6's form.
ghost use Rattle.std.specs.Prelude.{◌≡◌, ◌<◌, ◌^◌, All};
ghost use Rattle.rb_address.specs.Callers.{IsTrust, IsWho};
ghost use Rattle.rb_address.specs.Hosts.{IsBytesOf, IsHost, plain_host};
ghost use Rattle.rb_address.specs.Peers.{IsPeer};
ghost use Rattle.rb_arrivals.specs.PlainCallers.{plain_peer, plain_who};

use rb_address::{Host, Owner, Peer, Source, Trust, Who};

/// Says what its type says of bytes.
fn are_bytes(bytes: &[u8])
    ensures { All (λ b. b < 256) bytes.now }
{}

/// Says what its type says of a host.
fn has_bytes(host: Host)
    ensures { IsBytesOf host }
{
    match host {
        Host::V4(octets) => are_bytes(&octets),
        Host::V6(octets) => are_bytes(&octets),
    }
}

/// Says what its type says of a uid.
fn is_uid(uid: u32)
    ensures { uid < 2 ^ 32 }
{}

/// Says what its type says of whose word is taken.
fn is_trust(trust: Trust)
    ensures { IsTrust trust }
{
    match trust {
        Trust::Local(Owner::Uid(uid)) => is_uid(uid),
        Trust::Claims | Trust::Local(Owner::Unknown) | Trust::Stranger => {}
    }
}

/// A host of IPv4 in IPv6's form counts as the one of IPv4.
#[tactic(auto, using(rb_address::proofs::HostLaws::plain_is_host))]
fn plain_host(host: Host) -> Host
    ensures value { result ≡ plain_host host }
    ensures is_host { IsHost result }
{
    has_bytes(host);
    host.plain()
}

/// The peer with its host in its plain form.
#[tactic(auto, using(rb_address::proofs::HostLaws::plain_is_host))]
pub fn plain_peer(peer: Peer) -> Peer
    ensures value { result ≡ plain_peer peer }
    ensures is_peer { IsPeer result }
{
    has_bytes(peer.host());
    Peer::new(peer.host(), peer.port())
}

/// The caller with its hosts in their plain form.
pub fn plain_who(who: Who) -> Who
    ensures value { result ≡ plain_who who }
    ensures is_who { IsWho result }
{
    is_trust(who.trust);
    let asked = plain_host(who.asked);
    let source = match who.source {
        Source::Inet(peer) => Source::Inet(plain_peer(peer)),
        Source::Local => Source::Local,
    };
    Who {
        source,
        asked,
        trust: who.trust,
    }
}
