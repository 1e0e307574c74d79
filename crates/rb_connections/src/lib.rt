//! What is held of each connection over TCP: the record that is read, or the reply that is given; and the table of
//! all connections, with their deadlines.
#![tactic(auto)]

mod connections;
mod deadlines;
mod giving;
mod hints;
mod reading;
mod slot;

pub use connections::{BUFFER_SIZE, Connections};
pub use giving::write_whole;
pub use slot::{CONNECTION_CHARGE, EndedRecord, Received, WholeRecord};
