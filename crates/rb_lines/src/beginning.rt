//! What the core of a replay begins with.
use rb_answers::Listener;
use rb_model::Limits;

/// What the core of a replay begins with.
#[derive(Drop)]
pub struct Beginning {
    /// How many connections, rows and forwarded calls there may be.
    pub limits: Limits,
    /// The announced host of each family that is served, the port, and the path of the local socket; and on which terms
    /// callers are served.
    pub listener: Listener,
    /// The xid of the first forwarded call.
    pub first_xid: u32,
    /// The first moment, in milliseconds since the start of 1970.
    pub moment: u64,
    /// Whether a last line has how many steps were taken, and how many may be.
    pub steps: bool,
}
