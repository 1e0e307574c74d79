//! Datagrams that came in: from whom, where, and how long they are.
use crate::arrival::Arrival;
use rb_address::Peer;

/// Who asked by a datagram.
#[derive(Clone, Copy)]
pub struct Asker {
    /// How it came in.
    pub arrival: Arrival,
    /// The number of the socket.
    pub socket: usize,
    /// How many bytes the datagram has, with which the room begins where it was received.
    pub len: usize,
}

/// A datagram that came back for a forwarded call.
#[derive(Clone, Copy)]
pub struct Returned {
    /// Who sent it.
    pub peer: Peer,
    /// How many bytes it has, with which the room begins where it was received.
    pub len: usize,
}
