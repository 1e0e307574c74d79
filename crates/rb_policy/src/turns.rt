//! What is done in a turn, and what is left for the next.
ghost use Rattle.std.specs.Prelude.{◌≡◌, ◌||◌, ◌==◌};
ghost use Rattle.rb_policy.specs.Turns.{after_all_calls, wait_of, accept_count, place_count, others_of, is_cut_off, round_of, serves_another};

use rb_forward::sooner;
use rb_rpc::Standing;

/// The most socket calls for one socket in a turn.
pub const SOCKET_CALLS: usize = 64;

/// The number of bytes written to a connection that are enough for a turn.
pub const STEP: usize = 65_536;

/// The number of connections that are served in the last round of a turn.
pub const LAST_ROUND: usize = 8;

/// The most replies to datagrams that wait until changes are kept, and the most connections whose replies do.
pub const MOST_HELD: usize = 64;

/// The milliseconds after which what failed is tried again: a socket that is served after a wait, and a wait that a
/// signal ended.
pub const RETRY: u64 = 100;

/// When a socket is served again.
#[derive(Clone, Copy)]
pub enum Again {
    /// When an event shows it.
    AtEvent,
    /// In the next turn, which does not wait.
    AtOnce,
    /// In the next turn, after its wait.
    AfterWait,
}

/// When a socket is served again on which all receives or accepts of a turn were made: if none of them got a datagram
/// or a connection, its fault may last, and must not keep turns from waiting.
pub fn after_all_calls(got_some: bool) -> Again
    ensures { result ≡ after_all_calls got_some }
{
    if got_some {
        Again::AtOnce
    } else {
        Again::AfterWait
    }
}

/// How long a turn waits, in milliseconds; `None` is without an end. It does not wait if something is left. Else
/// it waits from `now`, the moment of the last turn, until `due`, the moment of the next thing that is due, and for
/// `longest` at most, if there are such.
pub fn wait_of(
    is_something_left: bool,
    now: u64,
    due: Option<u64>,
    longest: Option<u64>,
) -> Option<u64>
    ensures { result ≡ wait_of is_something_left now due longest }
{
    if is_something_left {
        return Some(0);
    }
    match due {
        Some(due) => sooner(Some(due.saturating_sub(now)), longest),
        None => longest,
    }
}

// READ-2: A read that got less than it had room for is the last in a turn, unless the event shows
// that the peer has ended what it sends.
/// Whether a read that got this many bytes is followed by another: if it filled its room, or the peer may have ended
/// what it sends, since no other event tells of that end. Else an event shows what arrives next.
pub fn reads_on(count: usize, room: usize, may_end: bool) -> bool
    ensures { result ≡ (count == room || may_end) }
{
    count == room || may_end
}

/// How many connections a turn accepts, on all listeners together, if this many of all places are free when it
/// begins to accept: as many as are free, since the next turn may first free some that are taken now. If none is free,
/// an eighth of all places, and at least one: so whoever takes one is served before others that come push it out. At most
/// as many as socket calls of a turn.
pub fn accept_count(free: usize, all: usize) -> usize
    ensures { result ≡ accept_count free all }
{
    let most = if free == 0 { (all / 8).max(1) } else { free };
    most.min(SOCKET_CALLS)
}

/// How many places there are for connections, if this many are asked for, and of this many descriptors that the process
/// may have that many are others': one is kept for whoever comes when all places are taken, before another one is given
/// up. At least one.
pub fn place_count(asked: usize, descriptors: u64, others: u64) -> usize
    ensures { result ≡ place_count asked descriptors others }
{
    let left = descriptors.saturating_sub(others).saturating_sub(1);
    match usize::try_from(left) {
        Ok(left) => asked.min(left).max(1),
        Err(_) => asked.max(1),
    }
}

/// How many descriptors of the process are not for connections, if its own sockets and what it was started with have this
/// many: one is for the kernel's tables, one for a record, and three are for kept rows, their new file and their lock.
pub fn others_of(sockets: u64, records: bool, keeps: bool) -> u64
    ensures { result ≡ others_of sockets records keeps }
{
    let record: u64 = if records { 1 } else { 0 };
    let kept: u64 = if keeps { 3 } else { 0 };
    sockets.saturating_add(1 + record + kept)
}

/// Whether a connection is left for the next turn, after this many socket calls for it in this one, and this many bytes
/// that were written.
pub fn is_cut_off(calls: usize, written: usize) -> bool
    ensures { result ≡ is_cut_off calls written }
{
    calls >= SOCKET_CALLS || written >= STEP
}

/// When in a turn a connection is served.
#[derive(Clone, Copy)]
pub enum Round {
    /// When its event is looked at.
    First,
    /// After all of those.
    Last,
}

/// The round of a connection that the last turn left, or did not, by where it stands: who is owed bytes, as of a
/// list, comes after who has a call.
pub fn round_of(is_left: bool, standing: Standing) -> Round
    ensures { result ≡ round_of is_left standing }
{
    match (is_left, standing) {
        (false, Standing::Owing) | (true, _) => Round::Last,
        (false, _) => Round::First,
    }
}

/// Whether one more connection is served in the last round of a turn, in which this many were.
pub fn serves_another(served: usize) -> bool
    ensures { result ≡ serves_another served }
{
    served < LAST_ROUND
}
