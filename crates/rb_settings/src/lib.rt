//! What a daemon is started with, and why it ends.
#![tactic(auto)]

mod descriptors;
mod faults;
mod few;
mod news;
mod settings;

pub use descriptors::{Shortage, open_files};
pub use faults::{BindFault, DaemonFault, SocketFault, Step};
pub use few::{Few, MOST};
pub use news::KeepNews;
pub use rb_policy::log_choice::Logged;
pub use settings::{LocalSocket, Settings};
