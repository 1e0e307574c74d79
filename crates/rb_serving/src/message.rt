//! What the data of a record, or a datagram, says: the order of refusals.
ghost use Rattle.std.specs.Prelude.{◌≡◌, ◌≤◌, length, IfOk, IfErr};
ghost use Rattle.std.specs.Option.{option_map};
ghost use Rattle.rb_rpc.specs.Verdict.{verdict as verdict_of, EndsWithin};
ghost use Rattle.rb_rpc.specs.Feeds.{arguments_of};
ghost use Rattle.rb_model.specs.Calls.{is_served, kept_of};
ghost use Rattle.rb_serving.specs.Messages.{AsksNothing, IsCalledBy, IsMessageOf, is_null, null_called};

use rb_arguments::Procedure;
use rb_model::{LONGEST_KEPT, Message};
use rb_proto::Call;
use rb_registry::RPCB_PROG;
use rb_rpc::{CallHead, ReplyHead, ReplyStatus, Verdict};

#[tactic(auto, unfolding(rb_model::specs::Calls::is_served))]
fn is_served(vers: u32) -> bool
    ensures { result ≡ is_served vers }
{
    vers == 2 || vers == 3 || vers == 4
}

fn refusal(xid: u32, status: ReplyStatus) -> Message<'static>
    ensures { result ≡ Message.Refused (record { xid = xid; status = status }) }
{
    Message::Refused(ReplyHead { xid, status })
}

/// A call of a procedure.
#[derive(Clone, Copy)]
pub struct Called<'a> {
    pub head: &'a CallHead,
    pub procedure: Procedure,
}

impl Called<'_> {
    ghost use Rattle.std.specs.Prelude.{◌≡◌};
    ghost use Rattle.rb_model.specs.Grammar.{HasArgsIn};
    ghost use Rattle.rb_serving.specs.Messages.{said_by};

    /// What the call says; `arguments` are the bytes after its head.
    pub fn message<'a>(&self, arguments: &'a [u8]) -> Message<'a>
        ensures message { result ≡ said_by self.now arguments.now }
        ensures args { HasArgsIn result arguments.now }
    {
        match self.procedure.read(arguments) {
            Some(request) => Message::Asked(Call {
                head: *self.head,
                request,
            }),
            None => Message::Garbage(*self.head),
        }
    }
}

/// Whether a call is one of NULL, which has neither arguments nor results (RFC 1833 sections 2.2 and 3.2).
fn is_null(head: &CallHead) -> bool
    ensures { result ≡ is_null head.now }
{
    head.prog == RPCB_PROG && is_served(head.vers) && head.proc == 0
}

/// The head of a call of NULL; none if the message is another.
pub fn null_called(verdict: &Verdict) -> Option<&CallHead>
    ensures { option_map (λ head. head.now) result ≡ null_called verdict.now }
{
    match verdict {
        Verdict::Call(head, _) if is_null(head) => Some(head),
        _ => None,
    }
}

// PROGRAM-1
/// The procedure that is called, by its program, version and number; if there is none, what the message says
/// instead: that it is no call, or is refused.
#[tactic(auto, unfolding(rb_model::specs::Calls::call_of), using(crate::proofs::Procedures::calls, crate::proofs::Procedures::unavailable))]
pub fn procedure_of(verdict: &Verdict) -> Result<Called<'_>, Message<'static>>
    ensures calls { IfOk result (IsCalledBy verdict.now) }
    ensures refuses { IfErr result (IsMessageOf verdict.now) }
    ensures asks { IfErr result (λ message. AsksNothing message) }
{
    let head = match verdict {
        Verdict::NoCall => return Err(Message::NoCall),
        Verdict::RpcMismatch(xid) => return Err(refusal(*xid, ReplyStatus::RpcMismatch(2, 2))),
        Verdict::AuthError(xid, stat) => return Err(refusal(*xid, ReplyStatus::AuthError(*stat))),
        Verdict::Call(head, _) => head,
    };
    if head.prog != RPCB_PROG {
        return Err(refusal(head.xid, ReplyStatus::ProgUnavail));
    }
    if !is_served(head.vers) {
        return Err(refusal(head.xid, ReplyStatus::ProgMismatch(2, 4)));
    }
    match Procedure::at(head.vers, head.proc) {
        Some(procedure) => Ok(Called { head, procedure }),
        None => Err(refusal(head.xid, ReplyStatus::ProcUnavail)),
    }
}

/// The bytes after the head of a call; `verdict` is that on `bytes`, and if it is not `Call` there are none.
#[tactic(auto, unfolding(rb_rpc::specs::Feeds::arguments_of))]
pub fn arguments_behind(verdict: Verdict, bytes: &[u8]) -> &[u8]
    requires verdict { verdict ≡ verdict_of bytes.now }
    requires within { EndsWithin verdict (length bytes.now) }
    ensures arguments { result.now ≡ arguments_of bytes.now }
    ensures few { length result.now ≤ length bytes.now }
{
    match verdict {
        Verdict::Call(_, place) => &bytes[place..],
        Verdict::NoCall | Verdict::RpcMismatch(_) | Verdict::AuthError(_, _) => &[],
    }
}

/// The first 8,816 bytes of the arguments of a record that came whole, as they are kept of one that comes in pieces;
/// `verdict` is that on its data.
#[tactic(auto, unfolding(rb_model::specs::Calls::longest_kept))]
pub fn kept_arguments(verdict: Verdict, content: &[u8]) -> &[u8]
    requires verdict { verdict ≡ verdict_of content.now }
    requires within { EndsWithin verdict (length content.now) }
    ensures { result.now ≡ kept_of content.now }
{
    let arguments = arguments_behind(verdict, content);
    &arguments[..LONGEST_KEPT.min(arguments.len())]
}
