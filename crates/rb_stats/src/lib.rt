//! Statistics of what was called (RFC 1833 section 2.1, rpcb_stat).
#![tactic(auto)]

mod counts;
mod item;
mod key;
mod laws;
mod stat;
mod stats;
mod table;
mod worked;

pub use key::{Target, Version};
pub use laws::statistics_laws;
pub use stats::Stats;
pub use worked::worked_examples;
