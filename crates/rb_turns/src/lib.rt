//! What takes turns: the daemon, as the command `serve` sees it.
#![tactic(auto)]

mod load;
mod news;
mod turns;

pub use load::Load;
pub use news::News;
pub use turns::{Starts, TurnFailed, Turns};
