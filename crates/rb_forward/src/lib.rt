//! Calls that are forwarded to their targets (RFC 1833 sections 2.2.1 and 3.2), each ended once: by its own target,
//! by its deadline or with its caller.
#![tactic(auto)]

mod buffers;
mod deadlines;
mod entries;
mod forwards;
mod laws;
mod outcome;
mod types;
mod worked;

pub use buffers::LONGEST_FORWARDED_CALL;
pub use deadlines::{sooner, soonest_in};
pub use forwards::{ENTRY_CHARGE, Forwards, PATIENCE};
pub use laws::{calls_end_the_first, each_entry_ends_once};
pub use outcome::LONGEST_RESULTS;
pub use types::{Ended, Forward, ForwardEnd, FwdId, Gone, Unsent};
pub use worked::worked_examples;
