//! What the kernel's tables of connections show of one from this host.
ghost use Rattle.std.specs.Prelude.{◌≡◌};
ghost use Rattle.rb_evidence.specs.Walks.{uid_seen};
ghost use Rattle.rb_policy.specs.Evidence.{is_shown, looks_in, IsSightIn, evidence_of, evidence_in, looks_again, shown_after};

use rb_address::{Family, Peer};
use rb_evidence::Sight;

/// What the kernel's tables show of a connection from this host.
#[derive(Clone, Copy, Debug, PartialEq, Eq)]
pub enum Evidence {
    /// The socket at its other end is of the user of this uid.
    Found(u32),
    /// They show no such socket, or more than one.
    NotFound,
    /// A table can't be read.
    Unread,
}

/// Whether the tables should show whose a connection from this peer is: if what callers claim is not believed, of
/// peers of this host alone.
pub fn is_shown(are_claims_believed: bool, peer: Peer) -> bool
    ensures { result ≡ is_shown are_claims_believed peer }
{
    !are_claims_believed && peer.is_loopback()
}

/// Whether the table of a family is looked at for a peer of a family of which this is known so far. That of IPv6 is
/// looked at after the other, and has peers of IPv4 too, in IPv6's form.
pub fn looks_in(table: Family, peer: Family, known: Evidence) -> bool
    ensures { result ≡ looks_in table peer known }
{
    match (table, peer, known) {
        (Family::Inet, Family::Inet, Evidence::NotFound) => true,
        (Family::Inet6, _, Evidence::NotFound) => true,
        _ => false,
    }
}

/// What a walk through the table of a family looks for, of the connection from a peer of this host to us: a peer of IPv4
/// stands in the table of IPv6 in IPv6's form.
pub fn sight_in(table: Family, theirs: &Peer, ours: &Peer) -> Sight
    ensures { IsSightIn table theirs.now ours.now result }
{
    match (table, theirs.family()) {
        (Family::Inet6, Family::Inet) => Sight::new_mapped(theirs, ours),
        (Family::Inet, _) | (Family::Inet6, Family::Inet6) => Sight::new(theirs, ours),
    }
}

/// What a walk through a table shows, if it came to its end.
pub fn evidence_of(is_whole: bool, sight: &Sight) -> Evidence
    ensures { result ≡ evidence_of is_whole (uid_seen sight.now.seen) }
{
    if is_whole {
        evidence_in(sight.uid())
    } else {
        Evidence::Unread
    }
}

fn evidence_in(uid: Option<u32>) -> Evidence
    ensures { result ≡ evidence_in uid }
{
    match uid {
        Some(uid) => Evidence::Found(uid),
        None => Evidence::NotFound,
    }
}

/// What is known of a connection after so many passes through the tables, of which the last shows this of it; none if it is
/// looked for in one more. Of one that is no longer connected nothing is: another one may have its two ends by then. One
/// whose peer has ended what it sends is not established, and so is not found.
pub fn shown_after(
    passes: u8,
    known: Evidence,
    is_connected: bool,
    has_ended: bool,
) -> Option<Evidence>
    ensures { result ≡ shown_after passes known is_connected has_ended }
{
    if looks_again(passes, known) && is_connected && !has_ended {
        return None;
    }
    match known {
        Evidence::Found(_) if !is_connected => Some(Evidence::NotFound),
        known => Some(known),
    }
}

/// Whether one more pass may show more: the kernel shows a table a part at a time, and may leave a connection out that it
/// moves meanwhile.
fn looks_again(passes: u8, known: Evidence) -> bool
    ensures { result ≡ looks_again passes known }
{
    matches!(known, Evidence::NotFound) && passes < 2
}
