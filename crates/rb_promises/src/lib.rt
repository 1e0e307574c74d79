//! What users were told, in the words of the standards: laws over the definitions of the crates below. Nothing stands on it.
//!
//! Each public function is a law: it does nothing, and its contract is what is proved. But `serve_events` runs the core.
#![tactic(auto)]

mod answers;
mod connections;
mod contents;
mod entries;
mod forwards;
mod json_objects;
mod listed_rows;
mod live_rows;
mod look_ups;
mod options;
mod pieces;
mod reached_rows;
mod refusals;
mod row_lists;
mod sets;
mod settings;
mod turned_addresses;
mod word_forms;
mod worked;

pub use answers::{
    messages_are_answered_as_said, runs_are_served, runs_pass_as_said, serve_events,
};
pub use connections::{
    gaves_are_capped, lost_connections_stay, numbers_are_distinct, only_openings_add,
};
pub use contents::contents_fault_exactly;
pub use entries::numbers_go_up;
pub use forwards::calls_are_forwarded_exactly;
pub use json_objects::{objects_have_their_members, texts_are_utf8, worked_texts};
pub use listed_rows::lists_are_of_rows;
pub use live_rows::live_rows_are_shown;
pub use look_ups::{getaddr_answers, getport_answers, getversaddr_answers};
pub use options::{beginnings_are_spelled, services_are_spelled, settings_meet_laws};
pub use pieces::pieces_end_at_records;
pub use reached_rows::rows_are_well_kept;
pub use refusals::refusals_are_the_named_ones;
pub use row_lists::row_lists_are_shown;
pub use sets::{sets_are_accepted_exactly, unsets_are_accepted_exactly};
pub use settings::settings_stay;
pub use turned_addresses::{addresses_are_turned, times_are_told};
pub use word_forms::words_are_of_the_forms;
pub use worked::worked_rows;
