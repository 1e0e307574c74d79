//! What a user asks of a portmapper, and what is shown of its reply (RFC 1833).
#![tactic(auto)]

mod ask;
mod fault;
mod form;
mod head;
mod json;
mod laws;
mod lines;
mod list;
mod objects;
mod rows;
mod show;
mod showing;
mod stage;
mod stat;
mod statistics;
mod summary;
mod take;
mod telling;
mod texts;
mod worked;

pub use ask::{Ask, Question, write_call, write_marked_call};
pub use fault::InfoFault;
pub use form::Form;
pub use laws::{
    faults_stay, heads_are_read, json_texts_are_of_the_grammar, lines_stay, lists_are_shown,
    objects_are_of_the_grammar, questions_are_requests,
};
pub use show::{Shown, show_datagram, show_reply};
pub use showing::Showing;
pub use worked::worked_examples;
