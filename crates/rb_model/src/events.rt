//! Events of a run, and what they give, over bytes of their own (`Vec<u8>`) or bytes that are lent (`&[u8]`).
use crate::types::CoreFault;
use rb_address::{Peer, Who};

/// An event of a run: one call on a core and, if that makes a reply over UDP, the look at this reply. Moments are
/// milliseconds since the start of 1970.
#[derive(Drop)]
pub enum Event<B = Vec<u8>> {
    /// A connection is opened: the moment, and who is at its other end.
    Open(u64, Who),
    /// Bytes arrive on a connection: the moment, its number, and the bytes.
    Bytes(u64, u64, B),
    /// Asks which bytes must be sent next on the connection of this number.
    Pending(u64),
    /// Pending bytes were given on a connection: the moment, its number, and how many.
    Gave(u64, u64, u64),
    /// The connection of the number was closed.
    Closed(u64),
    /// Asks for the Lost connection of least number.
    NextLost,
    /// A datagram: the moment, who sent it, and its bytes.
    Datagram(u64, Who, B),
    /// Asks for the forwarded call that must be sent next.
    Unsent,
    /// The forwarded call of the number was sent.
    Sent(u64),
    /// A datagram on the socket that sends forwarded calls: the moment, where it came from, and its bytes.
    Forward(u64, Peer, B),
    /// Does one thing that is due, if anything is: the moment.
    Expire(u64),
    /// Statistics begin anew.
    ZeroStats,
}

/// A forwarded call that must be sent.
#[derive(Drop)]
pub struct UnsentCall<B = Vec<u8>> {
    /// Its number; the first is 1.
    pub number: u64,
    /// Where it is sent.
    pub target: Peer,
    /// The datagram, of at most 8,840 bytes.
    pub call: B,
}

/// The result of an event.
#[derive(Drop)]
pub enum Output<B = Vec<u8>> {
    /// The number of the new connection.
    Opened(u64),
    /// The call on the core was refused, and changed nothing.
    Refused(CoreFault),
    /// More bytes were reported as given than are pending, so `gave` was not called.
    TooMuch,
    /// The number of bytes that were taken.
    Took(usize),
    /// The number of bytes that were taken; the connection is Lost now, since its record is no call.
    TookAndLost(usize),
    /// The rest of the current fragment, at most 1,028 bytes; none if no reply is owed.
    Pending(B),
    /// The event was accepted, and has no other result.
    Done,
    /// The least number of a connection that is Lost.
    Lost(Option<u64>),
    /// The reply to a datagram, of at most 9,000 bytes.
    Replied(B),
    /// A datagram is a call that is forwarded.
    Forwarded,
    /// A datagram has no reply, or a forwarded call that came over UDP has ended without one.
    Silent,
    /// The forwarded call that must be sent next, if there is one.
    Unsent(Option<UnsentCall<B>>),
    /// The datagram is no reply to a forwarded call.
    Ignored,
    /// Nothing was due.
    Nothing,
    /// The deadline of the connection of the number has come: it is Lost now, and the caller has to close it.
    ConnectionLost(u64),
    /// A forwarded call has ended, and its connection, of this number, awaits it no longer.
    Ready(u64),
    /// A forwarded call has ended, and this is the reply to its caller.
    RepliedTo(Who, B),
}
