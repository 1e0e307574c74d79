//! The words of `rpcbind`'s command line: its commands and their options, and what they ask for.
#![tactic(auto)]

mod arguments;
mod command;
mod debian;
mod options;
mod serving;
mod wanted;
mod words;

pub use arguments::{Words, read_words};
pub use debian::{Machine, Translation, lack_text, taken_as, translate};
pub use options::{ReplayTexts, Valued, read_beginning};
pub use serving::{Serve, ServeTexts, read_serve, serve_default};
pub use words::command_words;
