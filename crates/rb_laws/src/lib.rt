//! The laws of the port mapper: what holds of every state that a run reaches, and of every run, by the definitions of
//! the model.
//!
//! Each law is a function with an empty body, whose contract is the law.
#![tactic(auto)]

mod laws;
mod worked;

pub use laws::{
    bytes_are_taken_exactly, callers_change_their_own, calls_are_noted, calls_end_by_their_own,
    changes_are_accepted, connections_await, connections_close_exactly, cuts_do_not_matter,
    entries_end_once, expire_does_one_thing, gives_are_steps, kept_rows_are_restored,
    ledgers_are_well_kept, messages_are_of_the_grammar, next_deadlines_are_exact,
    next_lost_is_least, nothing_is_due_soon, numbers_never_recur, outsiders_cost_few,
    owed_replies_stay, refused_events_change_nothing, replies_are_given_whole,
    reserved_rows_are_owned, runs_append, sends_are_unsent, sessions_are_whole, steps_are_bounded,
    strangers_are_sent_at_most_twice, whole_runs_are_bounded,
};
pub use worked::{
    worked_bounds, worked_callers, worked_changes, worked_connections, worked_deadlines,
    worked_examples, worked_forwards, worked_history, worked_lists, worked_strangers,
};
