//! What calls on a core are given, and what they answer.
ghost use Rattle.std.specs.Prelude.{◌≡◌};
ghost use Rattle.rb_model.specs.State.{fault_number};

use rb_address::Who;
use rb_forward::FwdId;
use rb_rpc::Standing;
use thiserror::Error;

/// How much a core may hold.
#[derive(Clone, Copy)]
pub struct Limits {
    /// How many connections there may be, 1 to 256, Lost ones among them.
    pub conns: usize,
    /// How many rows there may be, live or retained for lists that are being given: at least the listener's own rows, of
    /// which there are 0 to 12, and two more, and at most 4,096.
    pub rows: usize,
    /// How many forwarded calls there may be, 0 to 64.
    pub forwards: usize,
}

/// Names each field, so that a further one does not compile until it stands here. It belongs in the table of
/// charges of crates/rb_core/README.md first.
fn layout(limits: &Limits) {
    let Limits {
        conns,
        rows,
        forwards,
    } = *limits;
    let _: [usize; 3] = [conns, rows, forwards];
}

/// How far the bytes that arrived on a connection were taken: at most up to the end of a record (RFC 5531 section 11).
#[derive(Clone, Copy, PartialEq, Eq)]
pub struct Taken {
    /// How many bytes, from the first one on.
    pub count: usize,
    /// Whether the connection is Lost now, since its record is no call: it takes and gives nothing more, and the caller has
    /// to close it.
    pub lost: bool,
}

/// What came of bytes that arrived on a connection, when a reply may be given at once.
#[derive(Clone, Copy, PartialEq, Eq)]
pub struct Exchanged {
    /// How far they were taken.
    pub taken: Taken,
    /// How many bytes of the reply were given, its header among them; 0 if it was not given at once.
    pub given: usize,
    /// Where the connection stands then.
    pub standing: Standing,
}

/// What was given of a reply into a room.
#[derive(Clone, Copy)]
pub struct Given {
    /// How many bytes, headers among them; 0 if no fragment fits, or none is owed.
    pub count: usize,
    /// Where the connection stands then.
    pub standing: Standing,
}

/// What the caller of a forwarded call gets at its end (RFC 1833 sections 2.2.1 and 3.2).
#[derive(Clone, Copy, Debug, PartialEq, Eq)]
pub enum Told {
    /// The connection of this number is Awaiting no longer: a reply is pending on it, or it takes bytes again.
    TcpReady(u64),
    /// The reply that `udp_reply` lends is that to the forwarded call of this number, and goes to this caller.
    Datagram(FwdId, Who),
    /// Nothing: the forwarded call of this number came over UDP, and has no reply.
    Silent(FwdId),
}

/// What was due at a moment.
#[derive(Clone, Copy, Debug, PartialEq, Eq)]
pub enum Expired {
    /// Nothing.
    Nothing,
    /// A forwarded call, at its deadline, 5,000 ms after it came. Its caller gets this.
    Ended(Told),
    /// The connection of this number, at its deadline: it is Lost now, and must be closed.
    ConnectionLost(u64),
}

/// Why a call on a core was refused. It changed nothing.
#[derive(Clone, Copy, Debug, Drop, Error, PartialEq, Eq)]
pub enum CoreFault {
    /// An allocation was refused.
    #[error("no memory")]
    NoMemory = 1,
    /// A limit is out of its range.
    #[error("bad limits")]
    BadLimits,
    /// There are as many connections as there may be, Lost ones among them.
    #[error("full")]
    Full,
    /// No number of a connection is left, after 2^64 - 1 of them.
    #[error("spent")]
    Spent,
    /// There is no connection or forwarded call of the number that is asked for; or the connection is Lost, or the call was
    /// sent before.
    #[error("gone")]
    Gone,
}

impl CoreFault {
    /// Its number, from 1 to 5 in the order above.
    pub fn number(self) -> u32
        ensures { result ≡ fault_number self }
    {
        self as u32
    }
}
