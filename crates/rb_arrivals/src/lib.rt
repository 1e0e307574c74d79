//! How callers come in, and who they are by that; what an event shows; where datagrams go.
#![tactic(auto)]

mod arrival;
mod asker;
mod datagrams;
mod plain;
mod shown;
mod stream;
mod visitor;

pub use arrival::{Arrival, Ends, OwnEnd};
pub use asker::{Asker, Returned};
pub use datagrams::{Datagrams, reply_to_forwarded};
pub use plain::{plain_peer, plain_who};
pub use shown::Shown;
pub use stream::{Incoming, Outgoing, Stream};
pub use visitor::{Accepted, Visitor};
