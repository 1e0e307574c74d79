//! The places of accepted connections: what was read of each and not yet taken, the replies on their way to its socket,
//! and who has a place. Nothing here knows the core.
#![tactic(auto)]

mod inbox;
mod link;
mod outbox;
mod places;

pub use inbox::{Inbox, READ_AHEAD};
pub use link::{Link, Turn};
pub use outbox::{LONG_ROOM, Outbox};
pub use places::Places;
