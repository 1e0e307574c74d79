//! What the portmapper must do, in definitions over plain data: what a message says and is answered with, what the
//! daemon knows between two events, what each event does to that, what it costs, and what is promised of all runs.
//!
//! No definition speaks of memory but those of `Served`. rb_laws proves that the promises hold.
#![tactic(auto)]

mod events;
mod message;
mod served;
mod types;

pub use events::{Event, Output, UnsentCall};
pub use message::{LONGEST_KEPT, Message};
pub use rb_rpc::Standing;
pub use served::{LONGEST_REPLY, Response, Served};
pub use types::{CoreFault, Exchanged, Expired, Given, Limits, Taken, Told};
