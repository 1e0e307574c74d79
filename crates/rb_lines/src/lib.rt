//! A run as lines, one for each event and for each output: they are read, written, and recorded on a tape. And what a
//! replay of them begins with, and why `rpcbind` ends before all is done.
#![tactic(auto)]

mod beginning;
mod entries;
mod events;
mod faults;
mod fields;
mod front;
mod laws;
mod limits;
mod lines;
mod outputs;
mod printing;
mod tape;
mod worked;
mod written_line;

pub use beginning::Beginning;
pub use entries::Start;
pub use events::write_event;
pub use faults::{DONE, Ending, Fault, explain, explain_run};
pub use laws::{lines_are_of_the_grammar, records_are_read, text_reads_as_its_lines};
pub use limits::{BadLimit, bad_limit};
pub use lines::{Line, ReadFault, longest_input, read_events, read_line};
pub use printing::{WriteFailed, print_output, print_outputs, print_steps};
pub use tape::Tape;
pub use worked::worked_examples;
