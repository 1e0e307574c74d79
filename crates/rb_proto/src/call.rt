//! A call, and what it is answered (RFC 1833 sections 2.2 and 3.2).
ghost use Rattle.std.specs.Prelude.{◌≡◌};
ghost use Rattle.rb_forward.specs.StandsFor.{slots_of};
ghost use Rattle.rb_forward.specs.Table.{IsNew};
ghost use Rattle.rb_proto.specs.Books.{ActsAs, AreTied, OnlyCallerWaits, SameFrame, StayUnlessForwarded, HasRowRoom};
ghost use Rattle.rb_arguments.specs.Arguments.{HasArgs};
ghost use Rattle.rb_registry.specs.Cursors.{GoesOn};
ghost use Rattle.rb_answers.specs.Answers.{answer, answer_void};
ghost use Rattle.rb_answers.specs.Walks.{ListsIfAsked};
ghost use Rattle.rb_proto.specs.Puts.{PaysForCall};

use crate::books::Books;
use crate::forwarding::forward_call;
use crate::lookups::{getaddr, getport, gettime, getversaddr, taddr2uaddr, uaddr2taddr};
use crate::sets::{set_row, unset_rows};
use rb_answers::{
    Answer, Call, Context, Listing, Results, Value, row_of_mapping, row_of_rpcb, which_of,
};
use rb_arguments::{MappingProcedure, Request, RpcbProcedure, VoidProcedure};
use rb_registry::Which;
use rb_xdr::Meter;

/// What a procedure without arguments is answered. It leaves nothing behind.
fn answer_void(context: &Context, procedure: VoidProcedure) -> Results
    ensures { result ≡ answer_void context.now procedure }
{
    match procedure {
        VoidProcedure::Null => Results::Value(Value::Void),
        VoidProcedure::PmapDump => Results::Rows(Listing::Mappings),
        VoidProcedure::Dump => Results::Rows(Listing::Rpcbs),
        VoidProcedure::Gettime => Results::Value(Value::Number(gettime(context.clock))),
        VoidProcedure::Getstat => Results::Statistics,
    }
}

/// A value that is an answer.
fn value_answer(value: Value) -> Answer
    ensures { result ≡ Answer.Results (Results.Value value) }
{
    Answer::Results(Results::Value(value))
}

/// Does what a call asks for and returns its answer. Look-ups, accepted SETs and UNSETs and refused forwards are
/// noted in the statistics. That the procedure was called is noted before, by `Books::note_call`; how a forwarded
/// call ends is noted at its end.
///
/// `arguments` are the bytes that the request was read from. A caller on a connection has no other forwarded call.
#[tactic(auto, using(rb_answers::proofs::ListReplies::goes_on_same), unfolding(rb_answers::specs::Answers::answer, rb_answers::specs::Answers::adds_row, rb_answers::specs::Answers::row_to_set))]
pub fn answer(
    books: &mut Books,
    context: &Context,
    call: &Call,
    arguments: &[u8],
    meter: &mut Meter,
) -> Answer
    requires tied { AreTied meter.old.tie books.old }
    requires limit { books.old.registry.limit ≡ context.now.limit }
    requires forwards { books.old.forwards.cap ≡ context.now.forwards }
    requires caller { IsNew context.now.caller (slots_of books.old.forwards) }
    requires args { HasArgs call.now.request arguments.now }
    requires room { HasRowRoom context.now call.now books.old.registry }
    ensures acts { ActsAs (answer context.now call.now arguments.now) books.old books.new result }
    ensures quiet { StayUnlessForwarded result books.old.forwards books.new.forwards }
    ensures waiting { OnlyCallerWaits context.now.caller books.old books.new }
    ensures cursors { GoesOn books.old.registry books.new.registry }
    ensures floor { books.new.registry.floor ≡ books.old.registry.floor }
    ensures frame { SameFrame books.old books.new }
    ensures lists { ListsIfAsked call.now result }
    ensures cost { PaysForCall context.now books.old call.now arguments.now meter.old meter.new }
{
    let head = &call.head;
    match &call.request {
        Request::Void(procedure) => Answer::Results(answer_void(context, *procedure)),
        Request::Mapping(MappingProcedure::Set, mapping) => {
            let row = row_of_mapping(context.owner(head), mapping);
            value_answer(Value::Bool(set_row(books, context, head, row, meter)))
        }
        Request::Mapping(MappingProcedure::Unset, mapping) => {
            let (prog, vers) = (mapping.prog, mapping.vers);
            let done = unset_rows(books, context, head, prog, vers, Some(Which::Inet), meter);
            value_answer(Value::Bool(done))
        }
        Request::Mapping(MappingProcedure::Getport, mapping) => {
            value_answer(Value::Number(getport(books, context, head, mapping, meter)))
        }
        Request::Rpcb(RpcbProcedure::Set, rpcb) => {
            let row = row_of_rpcb(context.owner(head), rpcb);
            value_answer(Value::Bool(set_row(books, context, head, row, meter)))
        }
        Request::Rpcb(RpcbProcedure::Unset, rpcb) => {
            let which = which_of(rpcb.netid());
            let done = unset_rows(books, context, head, rpcb.prog(), rpcb.vers(), which, meter);
            value_answer(Value::Bool(done))
        }
        Request::Rpcb(RpcbProcedure::Getaddr, rpcb) => {
            value_answer(Value::Text(getaddr(books, context, head, rpcb, meter)))
        }
        Request::Rpcb(RpcbProcedure::Getversaddr, rpcb) => {
            value_answer(Value::Text(getversaddr(books, context, head, rpcb, meter)))
        }
        Request::Rpcb(RpcbProcedure::Getaddrlist, rpcb) => {
            let list = Listing::Entries(rpcb.prog(), rpcb.vers(), context.hosts());
            Answer::Results(Results::Rows(list))
        }
        Request::Uaddr2taddr(text) => value_answer(Value::Netbuf(uaddr2taddr(text))),
        Request::Taddr2uaddr(netbuf) => value_answer(Value::Text(taddr2uaddr(netbuf))),
        Request::Forward(kind, remote) => {
            forward_call(books, context, head.xid, *kind, remote, arguments, meter)
        }
    }
}
