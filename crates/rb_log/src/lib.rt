//! The log of a daemon: lines of what calls changed, of those that were refused, and of how many were left out.
#![tactic(auto)]

mod log;

pub use log::Log;
