//! Serves a message: what it is answered with, and what is remembered of it.
ghost use Rattle.std.specs.Prelude.{◌≡◌, ◌<◌, ◌≤◌, length};
ghost use Rattle.rb_rpc.specs.Replies.{reply_head};
ghost use Rattle.rb_xdr.specs.Meter.{PaysAtMost};
ghost use Rattle.rb_registry.specs.Cursors.{GoesOn};
ghost use Rattle.rb_proto.specs.Books.{AreTied, SameFrame};
ghost use Rattle.rb_answers.specs.Ledger.{Ledger};
ghost use Rattle.rb_proto.specs.Ledger.{StandsForLedger};
ghost use Rattle.rb_answers.specs.Results.{shown_of};
ghost use Rattle.rb_proto.specs.Showing.{results_at, shown_in};
ghost use Rattle.rb_answers.specs.Walks.{are_rows, shows_rows};
ghost use Rattle.rb_forward.specs.Forwards.{longest_results};
ghost use Rattle.rb_forward.specs.Outcomes.{PassesWithin};
ghost use Rattle.rb_model.specs.declared.served.Served.TheVariants.{Answered};
ghost use Rattle.rb_model.specs.declared.served.Response.TheVariants.{Reply};
ghost use Rattle.rb_model.specs.Calls.{reply_in, success, longest_reply};
ghost use Rattle.rb_model.specs.Ending.{outcome_of_failure, outcome_at_end};
ghost use Rattle.rb_model.specs.Grammar.{HasArgsIn};
ghost use Rattle.rb_serving.specs.Serving.{kind_of, HasRoom, outcome_in, passed_reply, TellsAnswer, ServesMessage, ServesNull, CanServe, IsEmptyReply, LeavesBooks, WritesReply, IsStreamedTo, list_streamed};
ghost use Rattle.rb_model.specs.Served.{kind_in, IsWritten};
ghost use Rattle.rb_serving.specs.Costs.{PaysForResults, PaysToServe, ListsAnswer, ListsIfAsked};
ghost use Rattle.rb_model.specs.Costs.{put_end_cost};

use crate::lengths::longest_for;
use rb_address::Caller;
use rb_forward::{Ended, Forward, ForwardEnd as End};
use rb_model::{Message, Response, Served};
use rb_proto::{
    Answer, Books, Context, Listing, Results, answer, put_forwarded, put_results, refusal,
};
use rb_rpc::{CallHead, ReplyHead, ReplyStatus, put_reply};
use rb_xdr::{Kept, Meter};

/// Writes the head of a reply into an empty buffer.
#[tactic(auto, using(rb_model::proofs::ReplyHeads::short_head, rb_model::proofs::ReplyHeads::some_head), unfolding(rb_model::specs::Calls::longest_reply))]
fn put_head(out: &mut Kept, head: ReplyHead, meter: &mut Meter)
    requires out { IsEmptyReply meter.old.tie out.old }
    ensures written { out.new ≡ record out.old { bytes = reply_head head.xid head.status } }
    ensures short { length out.new.bytes ≤ 32 }
    ensures some { 0 < length out.new.bytes }
    ensures cost { PaysAtMost meter.old meter.new 33 }
{
    let Ok(()) = put_reply(&head, out, meter) else {
        unreachable!()
    };
}

// SUCCESS-1
/// Writes the head of a reply with results into an empty buffer.
fn put_success(xid: u32, out: &mut Kept, meter: &mut Meter)
    requires out { IsEmptyReply meter.old.tie out.old }
    ensures written { out.new ≡ record out.old { bytes = reply_head xid ReplyStatus.Success } }
    ensures short { length out.new.bytes ≤ 32 }
    ensures some { 0 < length out.new.bytes }
    ensures cost { PaysAtMost meter.old meter.new 33 }
{
    let status = ReplyStatus::Success;
    put_head(out, ReplyHead { xid, status }, meter);
}

/// Writes SYSTEM_ERR into the buffer, in place of a reply that does not fit.
fn put_system_err(xid: u32, out: &mut Kept, meter: &mut Meter)
    requires tie { meter.old.tie ≡ out.old.tie }
    requires room { longest_reply ≤ out.old.cap }
    ensures written { out.new ≡ record out.old { bytes = reply_head xid ReplyStatus.SystemErr } }
    ensures short { length out.new.bytes ≤ 32 }
    ensures some { 0 < length out.new.bytes }
    ensures cost { PaysAtMost meter.old meter.new 34 }
{
    out.clear(meter);
    let status = ReplyStatus::SystemErr;
    put_head(out, ReplyHead { xid, status }, meter);
}

/// Writes a whole reply to the caller into an empty buffer, or SYSTEM_ERR if it would be too long for it.
#[tactic(auto, using(rb_model::proofs::ReplyHeads::some_fitting, crate::proofs::Costs::results_few), unfolding(rb_model::specs::Calls::fitting_reply, rb_model::specs::Calls::longest_reply))]
fn put_reply_with(
    results: &Results,
    caller: &Caller,
    xid: u32,
    books: &Books,
    out: &mut Kept,
    meter: &mut Meter,
)
    requires tied { AreTied meter.old.tie books.now }
    requires out { IsEmptyReply meter.old.tie out.old }
    ensures written { out.new.bytes
        ≡ success caller.now xid (results_at books.now results.now) }
    ensures out { WritesReply out.old out.new }
    ensures shows { (l : Ledger) → StandsForLedger books.now l
        → shown_in books.now ≡ shown_of l }
    ensures some { 0 < length out.new.bytes }
    ensures cost { PaysForResults (are_rows results.now) books.now out.new meter.old meter.new }
{
    put_success(xid, out, meter);
    if put_results(results, books, longest_for(caller), out, meter).is_err() {
        put_system_err(xid, out, meter);
    }
}

// LIST-4
/// The list that is streamed, if the results are rows and the caller is on a connection; else None, and they are
/// written as a whole.
fn list_in(results: &Results, caller: Caller) -> Option<Listing>
    ensures { result ≡ list_streamed caller results.now }
{
    match caller {
        Caller::Udp(_, _) => None,
        Caller::Tcp(_, _) => match results {
            Results::Rows(listing) => Some(*listing),
            Results::Value(_) | Results::Statistics => None,
        },
    }
}

// SUCCESS-1
/// Writes an answer into an empty buffer, unless it is a list that is streamed.
#[tactic(auto, unfolding(rb_model::specs::Calls::longest_reply))]
fn put_answer(
    answer: &Answer,
    xid: u32,
    books: &Books,
    caller: Caller,
    out: &mut Kept,
    meter: &mut Meter,
) -> Served
    requires tied { AreTied meter.old.tie books.now }
    requires out { IsEmptyReply meter.old.tie out.old }
    ensures given { TellsAnswer books.now caller xid answer.now result out.new.bytes }
    ensures kind { kind_in result ≡ kind_of answer.now }
    ensures list { IsStreamedTo caller result }
    ensures written { IsWritten result out.new.bytes }
    ensures out { WritesReply out.old out.new }
    ensures listed { ListsAnswer answer.now result }
    ensures cost { PaysForResults (shows_rows answer.now) books.now out.new meter.old meter.new }
{
    match answer {
        Answer::Results(results) => {
            if let Some(listing) = list_in(results, caller) {
                return Served::Listed(xid, listing);
            }
            put_reply_with(results, &caller, xid, books, out, meter);
            Served::Answered(Response::Reply)
        }
        Answer::Refused(status) => {
            let status = *status;
            put_head(out, ReplyHead { xid, status }, meter);
            Served::Answered(Response::Reply)
        }
        Answer::Forwarded => Served::Answered(Response::Forwarded),
        Answer::Silent => Served::Answered(Response::Silent),
    }
}

/// Serves a message, and writes its reply into an empty buffer, unless it is a list that is streamed; `arguments` are
/// the bytes after its head.
#[tactic(auto, unfolding(rb_model::specs::Calls::outcome, rb_model::specs::Calls::longest_reply))]
pub fn serve(
    books: &mut Books,
    context: &Context,
    message: &Message,
    arguments: &[u8],
    out: &mut Kept,
    meter: &mut Meter,
) -> Served
    requires can { CanServe meter.old.tie context.now books.old }
    requires out { IsEmptyReply meter.old.tie out.old }
    requires args { HasArgsIn message.now arguments.now }
    requires room { HasRoom context.now message.now books.old }
    ensures acts { ServesMessage
        context.now message.now arguments.now books.old books.new result out.new }
    ensures cursors { GoesOn books.old.registry books.new.registry }
    ensures floor { books.new.registry.floor ≡ books.old.registry.floor }
    ensures leaves { LeavesBooks context.now books.old books.new result out.old out.new }
    ensures listed { ListsIfAsked message.now result }
    ensures cost { PaysToServe context.now message.now
        books.old books.new arguments.now out.new meter.old meter.new }
{
    match message {
        Message::NoCall => Served::Answered(Response::NoCall),
        Message::Refused(head) => {
            put_head(out, *head, meter);
            Served::Answered(Response::Reply)
        }
        Message::Garbage(head) => {
            let (xid, status) = (head.xid, ReplyStatus::GarbageArgs);
            books.note_call(head);
            put_head(out, ReplyHead { xid, status }, meter);
            Served::Answered(Response::Reply)
        }
        Message::Asked(call) => {
            let xid = call.head.xid;
            books.note_call(&call.head);
            let given = answer(books, context, call, arguments, meter);
            put_answer(&given, xid, books, context.caller, out, meter)
        }
    }
}

/// Serves a call of NULL: its reply, a head without results, is written into an empty buffer.
#[tactic(auto, unfolding(rb_model::specs::Calls::longest_reply))]
pub fn serve_null(books: &mut Books, head: &CallHead, out: &mut Kept, meter: &mut Meter) -> Served
    requires out { IsEmptyReply meter.old.tie out.old }
    ensures acts { ServesNull head.now books.old books.new result out.new }
    ensures replies { result ≡ Answered Reply }
    ensures registry { books.new.registry ≡ books.old.registry }
    ensures forwards { books.new.forwards ≡ books.old.forwards }
    ensures frame { SameFrame books.old books.new }
    ensures short { length out.new.bytes ≤ 32 }
    ensures some { 0 < length out.new.bytes }
    ensures out { WritesReply out.old out.new }
    ensures cost { PaysAtMost meter.old meter.new 33 }
{
    books.note_call(head);
    put_success(head.xid, out, meter);
    Served::Answered(Response::Reply)
}

/// Writes the results that a target gave into an empty buffer, or SYSTEM_ERR if the reply would be too long for its
/// caller.
#[tactic(auto, using(rb_model::proofs::ReplyHeads::some_fitting), unfolding(rb_model::specs::Calls::fitting_reply, rb_model::specs::Calls::longest_reply, rb_arguments::specs::Forwarded::longest_forwarded, rb_forward::specs::Forwards::longest_results))]
fn put_passed(forward: &Forward, results: &[u8], out: &mut Kept, meter: &mut Meter)
    requires results { length results.now ≤ longest_results }
    requires out { IsEmptyReply meter.old.tie out.old }
    ensures writes { out.new.bytes ≡ passed_reply forward.now results.now }
    ensures out { WritesReply out.old out.new }
    ensures some { 0 < length out.new.bytes }
    ensures cost { PaysAtMost meter.old meter.new (put_end_cost (length out.new.bytes)) }
{
    put_success(forward.xid, out, meter);
    if put_forwarded(forward, results, longest_for(&forward.caller), out, meter).is_err() {
        put_system_err(forward.xid, out, meter);
    }
}

/// Writes the reply to the caller of a forwarded call that failed into an empty buffer; nothing if it gets none.
#[tactic(auto, unfolding(rb_model::specs::Calls::longest_reply))]
fn put_failed(forward: &Forward, status: ReplyStatus, out: &mut Kept, meter: &mut Meter) -> Response
    requires out { IsEmptyReply meter.old.tie out.old }
    ensures told { outcome_in result out.new ≡ outcome_of_failure forward.now status }
    ensures held { out.new.bytes ≡ reply_in (outcome_in result out.new) }
    ensures written { IsWritten (Answered result) out.new.bytes }
    ensures out { WritesReply out.old out.new }
    ensures cost { PaysAtMost meter.old meter.new (put_end_cost (length out.new.bytes)) }
{
    let xid = forward.xid;
    match refusal(forward.kind, status) {
        Answer::Refused(status) => {
            put_head(out, ReplyHead { xid, status }, meter);
            Response::Reply
        }
        Answer::Results(_) | Answer::Forwarded | Answer::Silent => Response::Silent,
    }
}

/// Writes the reply to the caller of a forwarded call that ended into an empty buffer; nothing if it gets none.
/// `message` is the datagram that ended it.
pub fn put_end(ended: &Ended, message: &[u8], out: &mut Kept, meter: &mut Meter) -> Response
    requires within { PassesWithin ended.now.outcome (length message.now) }
    requires out { IsEmptyReply meter.old.tie out.old }
    ensures told { outcome_in result out.new ≡ outcome_at_end message.now ended.now }
    ensures held { out.new.bytes ≡ reply_in (outcome_in result out.new) }
    ensures written { IsWritten (Answered result) out.new.bytes }
    ensures out { WritesReply out.old out.new }
    ensures cost { PaysAtMost meter.old meter.new (put_end_cost (length out.new.bytes)) }
{
    let forward = &ended.forward;
    match ended.outcome {
        End::Passed(place) => {
            put_passed(forward, &message[place..], out, meter);
            Response::Reply
        }
        End::Refused(status) => put_failed(forward, status, out, meter),
        End::Failed => put_failed(forward, ReplyStatus::SystemErr, out, meter),
        End::Dropped => Response::Silent,
    }
}
