//! Messages of ONC RPC (RFC 5531): the heads of calls and replies, whole and as they come, and record marking.
#![tactic(auto)]

mod auth;
mod call;
mod feed;
mod integers;
mod laws;
mod marks;
mod opaque_auth;
mod reply;
mod saved;
mod stage;
mod standing;
mod sys;
mod sys_fields;
mod worked;

pub use auth::AuthStat;
pub use call::{CALL, CallHead, Credential, RPC_VERSION, Verdict, put_call, read_call};
pub use feed::CallFeed;
pub use laws::{
    calls_stay_calls, data_is_joined, fed_bytes_have_no_record, first_record_is_least,
    first_record_of_more, no_record_begins_another, records_are_unique,
    refusals_are_of_the_grammar, replies_are_marked, replies_are_of_the_grammar,
    verdict_is_of_the_grammar, written_calls_are_read, written_replies_are_read,
};
pub use marks::{
    FRAGMENT_HEADER, FRAGMENT_SIZE, LONGEST_FRAGMENT, Marks, Part, fragment_header, one_fragment,
};
pub use opaque_auth::{AUTH_NONE, AUTH_SYS, MAX_AUTH_BODY};
pub use reply::{BadReply, ReplyHead, ReplyStatus, put_reply, read_reply};
pub use standing::Standing;
pub use sys::{MAX_GIDS, MAX_MACHINE};
pub use worked::{worked_calls, worked_records, worked_replies};
