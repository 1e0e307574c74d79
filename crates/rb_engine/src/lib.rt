//! The core as a daemon calls it: its events are recorded, what they changed is kept and logged.
#![tactic(auto)]

mod beginning;
mod callers;
mod datagrams;
mod engine;
mod keeping;
mod laws;
mod replies;
mod showing;
mod writing;

pub use beginning::{Begun, begin};
pub use callers::{Asked, Caller, Sender};
pub use datagrams::{answer_call, take_back};
pub use engine::{Due, Engine};
pub use keeping::{Keeper, Kept};
pub use laws::{
    served_cores_are_bounded, served_meters_are_bounded, served_premises_are_met,
    served_records_are_read, served_rows_are_kept,
};
pub use replies::Replies;
pub use writing::{write_change, write_rows};
