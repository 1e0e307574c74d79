//! The procedures of program 100000 (RFC 1833): what they do to what is remembered, and their results.
#![tactic(auto)]

mod books;
mod call;
mod forwarding;
mod laws;
mod lookups;
mod put;
mod sets;
mod terms;
mod worked;

pub use books::Books;
pub use call::answer;
pub use forwarding::refusal;
pub use laws::{forwards_are_noted_once, forwards_go_to_rows, list_replies_go_on};
pub use put::{put_forwarded, put_results};
pub use rb_answers::{
    Announced, Answer, Call, Context, Forwarding, LentReserved, ListPart, ListReply, Listener,
    Listing, MOST_RESERVED, Reservation, Reserved, Results, Terms, Value, is_stranger,
    own_row_count, owner_named, row_of_rpcb,
};
pub use rb_registry::Refusal;
pub use worked::{worked_examples, worked_forwards, worked_lists, worked_netids};
