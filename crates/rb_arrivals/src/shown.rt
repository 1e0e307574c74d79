//! What an event shows.
use rb_address::Family;

/// What an event shows.
#[derive(Clone, Copy)]
pub enum Shown {
    /// The connection that has the place of this number.
    Connection(usize),
    /// The socket for calls that are forwarded to targets of a family.
    Forwards(Family),
    /// The socket of this number where calls come in.
    Calls(usize),
    /// The listener of this number.
    Listener(usize),
}
