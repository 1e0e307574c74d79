//! The lines of kept rows: for each row that was set the line of the event that sets it again, and then for each change
//! those of the rows that went and came, so that a daemon that starts anew has them all.
#![tactic(auto)]

mod call;
mod fault;
mod laws;
mod owners;
mod reading;
mod worked;

pub use call::{LONGEST_SET, set_call, this_machine, unset_call};
pub use fault::KeepFault;
pub use laws::{changes_are_read, kept_lines_are_read, kept_text_is_read};
pub use owners::{Owners, owner_numbered};
pub use reading::{MOST_ROWS, read_rows, whole_part};
pub use worked::worked_examples;
