//! Whose a TCP connection from this host is, by the text of /proc/net/tcp or /proc/net/tcp6. No file is read here.
#![tactic(auto)]

mod endpoint;
mod fields;
mod laws;
mod lines;
mod sight;
mod table;

pub use fields::around;
pub use laws::{table_laws, walk_laws, worked_examples};
pub use lines::{Lines, SLICE};
pub use sight::{Seen, Sight};
