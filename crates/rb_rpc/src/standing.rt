//! Where a connection stands.

/// Where a connection stands between two events.
#[derive(Clone, Copy, Debug, PartialEq, Eq)]
pub enum Standing {
    /// It takes the first byte of a record.
    Idle,
    /// It takes the next byte of a record.
    Reading,
    /// A reply is being given on it.
    Owing,
    /// It waits for the end of a forwarded call.
    Awaiting,
    /// Its call is forwarded, and waits to be sent: `unsent` of the core lends it. That is told once, after the bytes that
    /// brought the call; later it is `Awaiting`.
    Sends,
    /// It is given up and must be closed, or is closed.
    Lost,
}
