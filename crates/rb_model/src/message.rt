//! What a message says.
use rb_answers::Call;
use rb_rpc::{CallHead, ReplyHead};

/// The greatest length of arguments that are served.
pub const LONGEST_KEPT: usize = 8_816;

/// What the data of a record, or a datagram, says.
#[derive(Drop)]
pub enum Message<'a> {
    /// Nothing that can be answered.
    NoCall,
    /// A call that gets this reply, whatever the daemon holds.
    Refused(ReplyHead),
    /// A call of a procedure that is served, whose arguments can't be read.
    Garbage(CallHead),
    /// A call of a procedure that is served, with its arguments.
    Asked(Call<'a>),
}
