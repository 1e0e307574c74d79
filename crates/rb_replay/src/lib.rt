//! Runs: lists of events on a core, with the output of each, and what they cost. And the
//! commands that run event lines, over any reader and writer: `replay`, and `replay --check`.
#![tactic(auto)]

mod checking;
mod commands;
mod events;
mod run;
mod run_bound;
mod running;

pub use checking::{check_text, run_check};
pub use commands::{check_lines, replay_lines};
pub use rb_core::Core;
pub use rb_model::{Event, Output};
pub use rb_xdr::Meter;
pub use run::replay;
pub use run_bound::whole_bound;
pub use running::run_replay;
