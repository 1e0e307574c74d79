//! What serves inside the daemon's sockets: the core, what keeps its rows, and replies that wait for that.
#![tactic(auto)]

mod closing;
mod inside;
mod opening;
mod outbox;
mod served;
mod steps;

pub use inside::Inside;
