//! The commands of `rpcbind`; `serve` is over whatever takes turns.
#![tactic(auto)]

mod commands;
mod manager;
mod news;
mod record;
mod service;

pub use commands::{Streams, run};
pub use service::run_service;
