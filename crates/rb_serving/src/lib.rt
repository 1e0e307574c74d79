//! How a message is served over the books: what it says by its verdict, the reply to it, and what is remembered of it;
//! and the reply to the caller of a forwarded call that ended. Nothing here knows a connection: a list over TCP is not
//! written, but named.
#![tactic(auto)]

mod laws;
mod lengths;
mod message;
mod replies;
mod seen;

pub use laws::kept_bytes_say_the_record;
pub use lengths::longest_to;
pub use message::{Called, arguments_behind, kept_arguments, null_called, procedure_of};
pub use replies::{put_end, serve, serve_null};
pub use seen::{ChangeAsked, ChangeKind, RefusedCall, RowNamed, Seen, forget, note};
