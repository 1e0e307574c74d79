//! The daemon: sockets around the core. Each turn waits once, and then serves what the wait showed.
#![tactic(auto)]

mod daemon;
mod draining;
mod serving;

pub use daemon::Daemon;
pub use rb_answers::{Announced, Forwarding, Reserved, Terms};
pub use rb_model::Limits;
pub use rb_policy::Rate;
pub use rb_settings::{
    DaemonFault, Few, KeepNews, LocalSocket, Logged, Settings, Shortage, SocketFault, Step,
};
pub use rb_sockets::Handed;
pub use rb_turns::{Load, Starts, TurnFailed, Turns};
