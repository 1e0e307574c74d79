//! Who gets a place for a connection, and who is given up for it if all are taken.
ghost use Rattle.std.specs.Prelude.{◌≡◌, ◌<◌, length, position, IfNone, IfSome};
ghost use Rattle.rb_policy.specs.Door.{is_free, count_held_by, is_held_by, may_hold_more, is_within_share, may_go, IsGivenUp, IsAdmitted, rank, standing_outside, stuck_at};
ghost use Rattle.rb_policy.specs.Candidates.{candidate_at, first_of, NobodyMayBeGivenUp};

use crate::origin::{
    Origin, class_of, goes_by, is_active, is_local, is_roots, is_same_origin, is_unawaited,
    share_of,
};
use rb_rpc::Standing;

/// The milliseconds that bytes that are owed may wait for the socket to take some.
pub const OWED: u64 = 30_000;

/// Where a connection stands outside, of which the core says where it stands: bytes that the core gave are owed until the
/// socket has taken them. A call that must be sent counts as one that is awaited, and so does one that is held back until
/// the kernel's tables show whose it is.
pub fn standing_outside(told: Standing, is_owed: bool, is_held: bool) -> Standing
    ensures { result ≡ standing_outside told is_owed is_held }
{
    match told {
        Standing::Idle | Standing::Reading if is_held => Standing::Awaiting,
        Standing::Sends | Standing::Awaiting => Standing::Awaiting,
        Standing::Idle | Standing::Reading | Standing::Owing | Standing::Lost if is_owed => {
            Standing::Owing
        }
        told => told,
    }
}

/// A connection that stands here is given up before one that stands later.
fn rank(standing: Standing) -> u8
    ensures { result ≡ rank standing }
{
    match standing {
        Standing::Idle | Standing::Lost => 0,
        Standing::Reading => 1,
        Standing::Owing => 2,
        Standing::Awaiting | Standing::Sends => 3,
    }
}

/// What is kept of the connection that holds a place.
#[derive(Clone, Copy)]
pub struct Holder {
    /// Among whose connections it counts.
    pub origin: Origin,
    /// Where it stands. It is Owing, too, while its socket has not taken all of its replies.
    pub standing: Standing,
    /// The moment of its last progress, or of its opening, in milliseconds. A whole record is progress, and so are
    /// bytes of a reply that the outbox takes over, and those that the socket takes.
    pub since: u64,
}

/// The moment from which a connection is given up whose socket has taken none of the bytes that it is owed since
/// another one, in milliseconds.
#[tactic(auto, unfolding(rb_forward::specs::Forwards::later))]
pub fn stuck_at(since: u64) -> u64
    ensures { result ≡ stuck_at since }
{
    since.saturating_add(OWED)
}

/// What is done with a newcomer.
#[derive(Clone, Copy)]
pub enum Admission {
    /// It takes the place of this number, which is free.
    Take(usize),
    /// It takes the place of this number, and the connection there is given up for it.
    GiveUp(usize),
    /// It is closed, since there are no places.
    Close,
}

/// A connection that may be given up, as far as that decides who is.
#[derive(Clone, Copy)]
struct Candidate {
    class: u8,
    is_within_share: bool,
    is_local: bool,
    is_active: bool,
    standing: Standing,
    goes_by: u64,
    place: usize,
}

/// What is done with a newcomer at this moment, in milliseconds.
pub fn admit(places: &[Option<Holder>], newcomer: &Origin, now: u64) -> Admission
    ensures { IsAdmitted places.now newcomer.now now result }
{
    match first_free(places) {
        Some(free) => Admission::Take(free),
        None => match given_up(places, newcomer, now) {
            Some(place) => Admission::GiveUp(place),
            None => Admission::Close,
        },
    }
}

fn first_free(places: &[Option<Holder>]) -> Option<usize>
    ensures { result ≡ position is_free places.now }
{
    places.iter().position(|place| is_free(place))
}

fn is_free(place: &Option<Holder>) -> bool
    ensures { result ≡ is_free place.now }
{
    place.is_none()
}

/// The place of the connection that is given up for a newcomer, if one may be.
fn given_up(places: &[Option<Holder>], newcomer: &Origin, now: u64) -> Option<usize>
    ensures none { IfNone result (NobodyMayBeGivenUp places.now newcomer.now) }
    ensures some { IfSome result (λ place. IsGivenUp places.now newcomer.now now place) }
{
    let may_be_any = may_hold_more(places, newcomer);
    let mut first = None;
    for place in 0..places.len() {
        let other = candidate_at(places, newcomer, may_be_any, now, place);
        first = first_of(first, other);
    }
    match first {
        Some(candidate) => Some(candidate.place),
        None => None,
    }
}

/// The connection at a place, if there is one that may be given up for the newcomer.
fn candidate_at(
    places: &[Option<Holder>],
    newcomer: &Origin,
    may_be_any: bool,
    now: u64,
    place: usize,
) -> Option<Candidate>
    requires inside { place < length places.now }
    requires any { may_be_any ≡ may_hold_more places.now newcomer.now }
    ensures { result ≡ candidate_at places.now newcomer.now now place }
{
    match &places[place] {
        Some(holder) if may_go(may_be_any, newcomer, &holder.origin) => Some(Candidate {
            class: class_of(&holder.origin),
            is_within_share: is_within_share(places, &holder.origin),
            is_local: is_local(&holder.origin),
            is_active: is_active(&holder.origin, holder.since, now),
            standing: holder.standing,
            goes_by: goes_by(&holder.origin, holder.since),
            place,
        }),
        Some(_) | None => None,
    }
}

/// Whether a connection may be given up for a newcomer, by whether any may.
fn may_go(may_be_any: bool, newcomer: &Origin, origin: &Origin) -> bool
    ensures { result ≡ may_go may_be_any newcomer.now origin.now }
{
    may_be_any || is_same_origin(origin, newcomer) || is_unawaited(origin)
}

impl Candidate {
    ghost use Rattle.std.specs.Prelude.{◌≡◌};
    ghost use Rattle.std.specs.Ordering.{is_lt};
    ghost use Rattle.rb_policy.specs.Door.{by_precedence};

    /// Whether it is given up before the other one.
    fn goes_before(&self, other: &Candidate) -> bool
        ensures { result ≡ is_lt (by_precedence self.now other.now) }
    {
        self.class
            .cmp(&other.class)
            .then(self.is_within_share.cmp(&other.is_within_share))
            .then(self.is_local.cmp(&other.is_local))
            .then(self.is_active.cmp(&other.is_active))
            .then(rank(self.standing).cmp(&rank(other.standing)))
            .then(self.goes_by.cmp(&other.goes_by))
            .then(self.place.cmp(&other.place))
            .is_lt()
    }
}

/// The one of two that goes first, if there is one.
fn first_of(a: Option<Candidate>, b: Option<Candidate>) -> Option<Candidate>
    ensures { result ≡ first_of a b }
{
    let Some(first) = a else {
        return b;
    };
    match b {
        Some(other) if other.goes_before(&first) => b,
        Some(_) | None => a,
    }
}

fn may_hold_more(places: &[Option<Holder>], newcomer: &Origin) -> bool
    ensures { result ≡ may_hold_more places.now newcomer.now }
{
    is_roots(newcomer) || count_held_by(places, newcomer) < share_of(newcomer, places.len())
}

fn is_within_share(places: &[Option<Holder>], origin: &Origin) -> bool
    ensures { result ≡ is_within_share places.now origin.now }
{
    is_roots(origin) || count_held_by(places, origin) <= share_of(origin, places.len())
}

fn count_held_by(places: &[Option<Holder>], origin: &Origin) -> usize
    ensures { result ≡ count_held_by places.now origin.now }
{
    places
        .iter()
        .filter(|place| is_held_by(place, origin))
        .count()
}

fn is_held_by(place: &Option<Holder>, origin: &Origin) -> bool
    ensures { result ≡ is_held_by origin.now place.now }
{
    match place {
        Some(holder) => is_same_origin(&holder.origin, origin),
        None => false,
    }
}
