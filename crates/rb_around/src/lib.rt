//! What is around the core in a daemon: its sockets, the wait for their events, the kernel's tables of connections, and
//! the memory with which connections and datagrams are served.
#![tactic(auto)]

mod around;
mod faults;
mod held;
mod room;
mod secrets;
mod serves;
mod tables;
mod waiting;

pub use around::{Around, open};
pub use faults::{is_told, note_fault};
pub use held::{HeldLink, HeldLinks};
pub use room::Room;
pub use secrets::{Secrets, brake_of, draw, first_xid};
pub use serves::{Begun, Progress, Serves};
pub use tables::Tables;
pub use waiting::{EVENTS, Times, Waiting, read_clocks};
