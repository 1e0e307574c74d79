//! What `rpcinfo` does with words that were read and with answers, beside its sockets, and what is asked next of a
//! program's procedure 0.
#![tactic(auto)]

mod addresses;
mod calls;
mod course;
mod ending;
mod errors;
mod fall_back;
mod fault;
mod input;
mod invocation;
mod lack;
mod laws;
mod networks;
mod places;
mod plans;
mod stages;
mod told;
mod waits;

pub use addresses::{falls_back, family_of, is_asked, is_unanswered, none_asked, notices_at};
pub use calls::{call_of, marked_call_of};
pub use course::{Aim, Answer, Course, End, Place, Stage, Step};
pub use ending::{Ending, FAILED, Notices, UNREADABLE, conclude, explain, refuse_text};
pub use errors::{host_fault, look_up_fault, reply_fault, socket_fault};
pub use fall_back::fallback;
pub use fault::Fault;
pub use input::{FIRST_XID, show_input};
pub use invocation::{Invocation, read_invocation, wants_names};
pub use lack::show_lack;
pub use laws::{
    addresses_are_asked_in_order, courses_are_whole, objects_are_shown, texts_are_hexadecimal,
    versions_are_asked_once,
};
pub use networks::{LONGEST_ROUTES, are_read_whole, has_gone_out, read_networks};
pub use places::called_at;
pub use plans::{aim_of, course_end, follow, plan_question};
pub use stages::{asked, begin, next, transport_of, unanswered};
pub use told::{ask_input, flush_answer};
pub use waits::{CONNECTION, broadcast_wait, datagram_wait, stream_wait};
