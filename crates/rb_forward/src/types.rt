//! What is forwarded, and how it ends.
use rb_address::{Caller, Peer};
use rb_arguments::Kind;
use rb_rpc::ReplyStatus;
use thiserror::Error;

/// What is asked of which target, and what its caller is told.
#[derive(Clone, Copy)]
pub struct Forward {
    /// Who asked for it, and gets its answer.
    pub caller: Caller,
    /// The xid of the caller's own call.
    pub xid: u32,
    /// The procedure by which it was asked for, which says what the answer shows.
    pub kind: Kind,
    /// Where the call is sent, and where its reply has to come from.
    pub target: Peer,
    /// The host and the port that the answer shows.
    pub shown: Peer,
    /// The program that the target is asked for.
    pub prog: u32,
    /// Its version.
    pub vers: u32,
    /// The procedure that is called.
    pub proc: u32,
}

/// Names each field, so that a further one does not compile until it stands here. It belongs in the table of
/// charges of crates/rb_core/README.md first.
fn layout(forward: &Forward) {
    let Forward {
        caller,
        xid,
        kind,
        target,
        shown,
        prog,
        vers,
        proc,
    } = *forward;
    match kind {
        Kind::Callit2 | Kind::Callit3 | Kind::Bcast | Kind::Indirect => {}
    }
    let _: (Caller, Peer, Peer) = (caller, target, shown);
    let _: [u32; 4] = [xid, prog, vers, proc];
}

/// The number of an entry, from 1. It never recurs.
#[derive(Clone, Copy, PartialEq, Eq, Debug)]
pub struct FwdId {
    /// The number itself.
    pub number: u64,
}

/// A call that is yet to be sent.
#[derive(Clone, Copy)]
pub struct Unsent<'a> {
    /// The entry's number, which `sent` takes, and which `Ended` tells at its end.
    pub id: FwdId,
    /// Where it must be sent.
    pub target: Peer,
    /// The datagram: the call's head and its arguments, at most 8,840 bytes.
    pub call: &'a [u8],
}

/// How a forwarded call ended.
#[derive(Clone, Copy)]
pub enum ForwardEnd {
    /// The target's results are the bytes of the datagram from this place on, at most 8,800.
    Passed(usize),
    /// The target refused the call itself, by an accept_stat of 1 to 5 (RFC 5531 section 9).
    Refused(ReplyStatus),
    /// The deadline came, or the reply was denied, unreadable, or had more than 8,800 bytes of results.
    Failed,
    /// The connection of the caller is closed.
    Dropped,
}

/// The end of a forwarded call.
#[derive(Clone, Copy)]
pub struct Ended {
    /// The number of its entry, which `start` gave and `unsent` lent.
    pub id: FwdId,
    /// The call that was forwarded.
    pub forward: Forward,
    /// How it ended.
    pub outcome: ForwardEnd,
}

/// There is no forwarded call of this number, or it was sent before.
#[derive(Clone, Copy, Debug, Error)]
#[error("no such call is there to be sent")]
pub struct Gone;
