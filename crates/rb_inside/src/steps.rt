//! What is done with a connection that is ready: bytes go from its socket to the core, and replies from the core to its
//! socket.
ghost use Rattle.std.specs.Prelude.{◌≡◌, length, false};
ghost use Rattle.rb_connections.specs.Slots.{Shows};
ghost use Rattle.rb_core.specs.StandsFor.{StandsFor};
ghost use Rattle.rb_links.specs.Holding.{must_wait};
ghost use Rattle.rb_inside.specs.Links.{HandsIn, TakesOver};
ghost use Rattle.rb_engine.specs.Served.{change_count};

use crate::outbox::{exchange, write_into};
use rb_around::{HeldLink, Progress};
use rb_arrivals::Datagrams;
use rb_core::Standing;
use rb_engine::{Engine, Keeper, Kept};
use rb_links::{LONG_ROOM, Link, Outbox, READ_AHEAD, Turn};
use rb_policy::{Next, SOCKET_CALLS};
use std::fs::Files;

/// The most calls of the core between two of the socket: each but the last takes or gives a byte at least, or sends the
/// call that came with the one before it.
const EXCHANGES: usize = 2 * READ_AHEAD + LONG_ROOM;

/// Hands in, takes over, writes and reads until the socket would block or has used up its calls of this turn.
/// `may_end` is whether its peer may have ended what it sends. It has the long outbox meanwhile, if that is free, and
/// longer if bytes are left in it.
pub(crate) fn serve<H: Files, S: Datagrams>(
    host: &H,
    link: &mut Link,
    engine: &mut Engine,
    keeper: &mut Keeper<H>,
    sockets: &mut S,
    long_outbox: &mut Outbox,
    turn: Turn,
    may_end: bool,
) -> Progress {
    link.begin(long_outbox);
    let progress = serve_calls(host, link, engine, keeper, sockets, may_end);
    link.end(turn, long_outbox);
    progress
}

// TURN-5: A connection on which all 64 socket calls of a turn were interrupted is closed.
// TURN-4: A socket is served until it would block or is cut off, or the core must be called for it after
// its replies waited until changes were kept; then it is served in the next turn, which does not wait.
/// Calls the core and the socket in turn, until the socket's calls are enough for a turn, or none is left to make, or replies
/// wait and not all changes are kept. If they were enough and none moved a byte, each was interrupted: the connection would
/// keep turns from waiting, and is over.
fn serve_calls<H: Files, S: Datagrams>(
    host: &H,
    link: &mut Link,
    engine: &mut Engine,
    keeper: &mut Keeper<H>,
    sockets: &mut S,
    may_end: bool,
) -> Progress {
    for calls in 0..=SOCKET_CALLS {
        if link.is_cut_off(calls) {
            break;
        }
        let goes_on = !link.is_for_the_core()
            || make_exchanges(host, link, engine, keeper, sockets);
        if !goes_on {
            let kept = keeper.keep(host, engine);
            write_last(link, engine, kept);
            return Progress::Over;
        }
        let next = match keeper.kept(engine) {
            Some(kept) => call_socket(link, engine, kept, may_end),
            None if link.outbox.is_empty() => read(link, may_end),
            None => return Progress::Unkept(calls),
        };
        match next {
            Next::GoOn => {}
            Next::AwaitEvent | Next::AwaitTurn => return Progress::Blocked,
            Next::Close => return Progress::Over,
        }
    }
    at_last_call(link)
}

/// How a connection stands after the last socket call that it may make in a turn.
fn at_last_call(link: &Link) -> Progress {
    if link.moved_some() {
        Progress::CutOff
    } else {
        Progress::Over
    }
}

/// Goes on with a connection whose replies waited until all changes were kept, after so many socket calls of this turn. What
/// the core must be called for then is left for the next turn, so nothing changes.
pub(crate) fn serve_kept(
    link: &mut Link,
    engine: &Engine,
    kept: Kept,
    held: HeldLink,
    long_outbox: &mut Outbox,
    turn: Turn,
) -> Progress
    requires { Shows StandsFor change_count engine.now.core.core kept.changes }
{
    let progress = call_kept(link, engine, kept, held);
    link.end(turn, long_outbox);
    progress
}

// KEEP-16
/// Calls the socket of a connection, once all changes were kept, until the core must be called for it.
fn call_kept(link: &mut Link, engine: &Engine, kept: Kept, held: HeldLink) -> Progress
    requires { Shows StandsFor change_count engine.now.core.core kept.changes }
{
    for calls in held.calls..=SOCKET_CALLS {
        if link.is_cut_off(calls) {
            break;
        }
        if link.is_for_the_core() {
            return Progress::CutOff;
        }
        match call_socket(link, engine, kept, held.may_end) {
            Next::GoOn => {}
            Next::AwaitEvent | Next::AwaitTurn => return Progress::Blocked,
            Next::Close => return Progress::Over,
        }
    }
    at_last_call(link)
}

/// Reads from the socket of a connection of which no reply waits.
fn read(link: &mut Link, may_end: bool) -> Next
    requires { length link.old.outbox.bytes ≡ 0 }
{
    link.call_socket(may_end)
}

// KEEP-16
/// Writes to the socket, or reads from it, once all changes were kept.
fn call_socket(link: &mut Link, engine: &Engine, kept: Kept, may_end: bool) -> Next
    requires { Shows StandsFor change_count engine.now.core.core kept.changes }
{
    link.call_socket(may_end)
}

// KEEP-16
/// Writes what is left to the socket of a connection that is given up, once all changes were kept.
fn write_last(link: &mut Link, engine: &Engine, kept: Kept)
    requires { Shows StandsFor change_count engine.now.core.core kept.changes }
{
    let _ = link.write();
}

// LINK-1
/// Hands in what was read, which must not be held back, and notes what it changed. Returns whether the core took it.
fn hand_in<H: Files>(host: &H, link: &mut Link, engine: &mut Engine, keeper: &mut Keeper<H>) -> bool
    requires { must_wait link.old ≡ false }
    ensures { HandsIn link.old link.new engine.old engine.new }
{
    let Some(id) = link.id() else {
        return false;
    };
    let done = exchange(engine, id, link.inbox.bytes(), &mut link.outbox);
    engine.tell_call();
    keeper.gather(host, engine);
    let Ok(done) = done else {
        return false;
    };
    link.note_taken(done.taken.count, done.standing);
    true
}

// LINK-1
/// Takes over what is owed, as far as there is room. Returns whether the connection goes on.
fn take_over(link: &mut Link, engine: &mut Engine) -> bool
    ensures { TakesOver link.old link.new engine.old engine.new }
{
    let Some(id) = link.id() else {
        return false;
    };
    let Ok(given) = write_into(engine, id, &mut link.outbox) else {
        return false;
    };
    link.note_given(given.count, given.standing);
    true
}

// EVENT-3: A piece with which no record ends is one event, and nothing else is asked of the core
// for it.
// EVENT-2: What is done with a connection is what the core says is next: Idle or Reading, bytes are
// handed in; Owing, the reply is taken over; if it Sends, the forwarded call is sent; Awaiting, it
// waits; Lost, it is closed.
/// Does what the core says is next, until it wants bytes that are not there, holds back a call that needs an owner, waits
/// for the end of a forwarded call, or owes more than the outbox has room for. A forwarded call is sent at once: no other
/// one is unsent, since each was sent when it came. Returns whether the connection goes on.
fn make_exchanges<H: Files, S: Datagrams>(
    host: &H,
    link: &mut Link,
    engine: &mut Engine,
    keeper: &mut Keeper<H>,
    sockets: &mut S,
) -> bool {
    for _ in 0..EXCHANGES {
        match link.standing() {
            Standing::Idle | Standing::Reading if !link.inbox.is_empty() => {
                if link.hold_back() {
                    return true;
                }
                if !hand_in(host, link, engine, keeper) {
                    return false;
                }
            }
            Standing::Owing if link.outbox.has_room() => {
                if !take_over(link, engine) {
                    return false;
                }
            }
            Standing::Sends => {
                engine.send_forward(sockets);
                link.note_sent();
            }
            Standing::Lost => return false,
            Standing::Idle | Standing::Reading | Standing::Owing | Standing::Awaiting => {
                return true;
            }
        }
    }
    true
}
