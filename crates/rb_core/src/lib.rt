//! The portmapper's logic without sockets: each event is one call on `Core`, and nothing happens between two. The
//! look at a reply over UDP, `udp_reply`, belongs to the event before it. `Core::exchange` alone is up to two events
//! in one: bytes that arrive, and the `gave` of a short reply to them; and `Core::write_into` is the `pending` and
//! `gave` of each fragment that it writes.
#![tactic(auto)]

mod calls;
mod events;
mod eviction;
mod giving;
mod holding;
mod laws;
mod lending;
mod looks;
mod metered;

pub use holding::{Core, MOST_KEYS};
pub use laws::{held_bytes_are_bounded, worked_held};
pub use metered::Metered;
pub use rb_address::{Peer, Who};
pub use rb_forward::{FwdId, Unsent};
pub use rb_model::{CoreFault, Exchanged, Expired, Given, Limits, Response, Standing, Taken, Told};
pub use rb_proto::Listener;
pub use rb_registry::{Cursor, Row};
pub use rb_serving::{ChangeAsked, ChangeKind, RefusedCall, RowNamed, Seen};
pub use rb_xdr::NoMemory;
