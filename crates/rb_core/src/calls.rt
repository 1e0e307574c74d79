//! What comes of a piece of bytes on a connection, and how a record or a datagram is served.
ghost use Rattle.std.specs.Prelude.{◌≡◌, ◌<◌, ◌≤◌, ◌+◌, length, take, IfOk, OnErr};
ghost use Rattle.rb_xdr.specs.Meter.{PaysAtMost};
ghost use Rattle.rb_model.specs.Served.{IsWritten};
ghost use Rattle.rb_connections.specs.Awaits.{GoOn, EndsOnFree, StayOpen};
ghost use Rattle.rb_connections.specs.Giving.{whole_cost};
ghost use Rattle.rb_core.specs.AtOnce.{IsGivenAtOnce, count_at_once};
ghost use Rattle.rb_core.specs.CallCosts.{PaysForPiece, PaysInRoom};
ghost use Rattle.rb_core.specs.Standings.{TellsIfQuiet};
ghost use Rattle.rb_core.specs.Core.{arguments_in, context_in, received_in, HasArguments, TakesPiece};
ghost use Rattle.rb_model.specs.Calls.{message_with};
ghost use Rattle.rb_model.specs.Standings.{standing_behind};
ghost use Rattle.rb_serving.specs.Costs.{ListsIfAsked};
ghost use Rattle.rb_serving.specs.Serving.{CanServe, IsEmptyReply, LeavesBooks};
ghost use Rattle.rb_core.specs.Eviction.{ServesVerdict};
ghost use Rattle.rb_connections.specs.Listings.{CanContinueAll};
ghost use Rattle.rb_connections.specs.Slots.{IsDraft};

use crate::eviction::make_room;
use rb_address::Caller;
use rb_connections::{Connections, EndedRecord, Received, write_whole};
use rb_model::{CoreFault, Limits, Message, Response, Served, Standing};
use rb_proto::{Books, Context, Listener};
use rb_rpc::{FRAGMENT_HEADER, Verdict, read_call};
use rb_serving::{Seen, kept_arguments, note, null_called, procedure_of, serve, serve_null};
use rb_xdr::{Kept, Meter};

/// What came of a piece of bytes. The arguments of the record that ended with it lie in the piece if the record
/// came whole, and else in the buffer that was handed in for them.
#[derive(Clone, Copy)]
pub struct Piece<'a> {
    pub received: Received,
    pub arguments: Option<&'a [u8]>,
    /// Where the connection stands then, if no record ended.
    pub standing: Standing,
}

/// What a call is served in, of which its context is made.
#[derive(Clone, Copy)]
pub struct Surroundings<'a> {
    /// The limits of the core.
    pub limits: &'a Limits,
    /// Where it listens, and what it does for whom.
    pub listener: &'a Listener,
    /// The moment, in milliseconds since the start of 1970.
    pub clock: u64,
    /// Who calls.
    pub caller: Caller,
}

/// What the answer to a call depends on beside the books.
#[inline(always)]
fn context_in(surroundings: Surroundings<'_>) -> Context<'_>
    requires { surroundings.limits.now.forwards ≤ 64 }
    ensures { result ≡ context_in surroundings.entry }
{
    let Surroundings {
        limits,
        listener,
        clock,
        caller,
    } = surroundings;
    Context {
        announced: listener.announced,
        terms: listener.terms,
        reserved: listener.reserved.lend(),
        limit: limits.rows,
        forwards: limits.forwards as u32,
        clock,
        caller,
    }
}

/// Where a connection that stands so stands after `count` bytes that were taken of a piece: it takes none while it is
/// Awaiting, so the call that came with them is forwarded, and waits to be sent.
pub fn standing_behind(count: usize, standing: Standing) -> Standing
    ensures { result ≡ standing_behind count standing }
{
    match standing {
        Standing::Awaiting if count > 0 => Standing::Sends,
        _ => standing,
    }
}

/// Takes bytes that arrive on the live connection of the number, at most up to the end of a record (RFC 5531 section
/// 11). A record that comes whole on an Idle connection is read where it lies. `Gone` if there is no such
/// connection, or it is Lost.
pub fn take_piece<'a>(
    connections: &mut Connections,
    id: u64,
    piece: &'a [u8],
    clock: u64,
    arguments: &mut Kept,
    meter: &mut Meter,
) -> Result<Piece<'a>, CoreFault>
    requires tie { meter.old.tie ≡ connections.old.tie }
    requires arguments { IsDraft meter.old.tie arguments.old }
    ensures acts { TakesPiece id clock piece.now connections.old connections.new result }
    ensures arguments { HasArguments id piece.now connections.old arguments.old arguments.new result }
    ensures stands { IfOk result (TellsIfQuiet id connections.new) }
    ensures goes_on { GoOn connections.old connections.new }
    ensures ends { EndsOnFree id clock connections.old connections.new (received_in result) }
    ensures within { IfOk result (λ got. got.received.count ≤ length piece.now) }
    ensures refused { OnErr result (connections.new ≡ connections.old) }
    ensures kept { OnErr result (arguments.new ≡ arguments.old) }
    ensures draft { IsDraft meter.old.tie arguments.new }
    ensures as_many { length connections.new.slots ≡ length connections.old.slots }
    ensures cost { PaysForPiece connections.old result meter.old meter.new }
{
    if let Some(whole) = connections.take_whole(id, piece, clock, meter) {
        let verdict = read_call(whole.content);
        let who = whole.who;
        let count = FRAGMENT_HEADER + whole.content.len();
        let ended = Some(EndedRecord { who, verdict });
        return Ok(Piece {
            received: Received { count, ended },
            arguments: Some(kept_arguments(verdict, whole.content)),
            standing: Standing::Idle,
        });
    }
    let (received, standing) = connections.take(id, piece, clock, arguments, meter)?;
    Ok(Piece {
        received,
        arguments: None,
        standing,
    })
}

/// The arguments of a record: those in the piece, if it came whole, else those in the buffer.
pub fn lend_arguments<'a>(piece: Option<&'a [u8]>, buffer: &'a Kept, meter: &mut Meter) -> &'a [u8]
    requires { meter.old.tie ≡ buffer.now.tie }
    ensures value { result.now ≡ arguments_in piece.entry buffer.now.bytes }
    ensures cost { PaysAtMost meter.old meter.new (1 + length result.now) }
{
    match piece {
        Some(arguments) => arguments,
        None => {
            let len = buffer.len(meter);
            buffer.lend(0..len, meter)
        }
    }
}

/// Serves the message on which this is the verdict, once there is room for the row that it adds; `arguments` are the
/// bytes after its head. The reply is written into `out`, which is empty before, unless it is a list that is
/// streamed. `seen` is left as it was if there is nothing to tell of the message.
///
/// A call of NULL is served by itself: it has no arguments, adds no row, and its reply is a head alone (RFC 1833
/// sections 2.2 and 3.2). It is inlined, and what serves the others is not and gets a verdict and a context of its own, so
/// that neither is written for NULL.
#[tactic(auto, unfolding(rb_model::specs::Calls::longest_reply))]
#[inline(always)]
pub fn serve_verdict(
    connections: &mut Connections,
    books: &mut Books,
    surroundings: Surroundings<'_>,
    verdict: &Verdict,
    arguments: &[u8],
    seen: &mut Option<Seen>,
    out: &mut Kept,
    meter: &mut Meter,
) -> Served
    requires tie { meter.old.tie ≡ connections.old.tie }
    requires few { surroundings.limits.now.forwards ≤ 64 }
    requires can { CanServe meter.old.tie (context_in surroundings) books.old }
    requires out { IsEmptyReply meter.old.tie out.old }
    requires lists { CanContinueAll books.old.registry connections.old }
    ensures acts { ServesVerdict (context_in surroundings.entry) verdict.now arguments.now
        connections.old books.old connections.new books.new result out.new }
    ensures leaves { LeavesBooks (context_in surroundings.entry)
        books.old books.new result out.old out.new }
    ensures lists { CanContinueAll books.new.registry connections.new }
    ensures open { StayOpen connections.old connections.new }
    ensures listed { ListsIfAsked (message_with verdict.now arguments.now) result }
    ensures cost { PaysInRoom (context_in surroundings.entry) verdict.now
        connections.old books.old books.new arguments.now out.new meter.old meter.new }
{
    if let Some(head) = null_called(verdict) {
        return serve_null(books, head, out, meter);
    }
    let verdict = *verdict;
    serve_message(
        connections,
        books,
        &context_in(surroundings),
        &verdict,
        arguments,
        seen,
        out,
        meter,
    )
}

/// The same for each message.
#[inline(never)]
fn serve_message(
    connections: &mut Connections,
    books: &mut Books,
    context: &Context,
    verdict: &Verdict,
    arguments: &[u8],
    seen: &mut Option<Seen>,
    out: &mut Kept,
    meter: &mut Meter,
) -> Served
    requires tie { meter.old.tie ≡ connections.old.tie }
    requires can { CanServe meter.old.tie context.now books.old }
    requires out { IsEmptyReply meter.old.tie out.old }
    requires lists { CanContinueAll books.old.registry connections.old }
    ensures acts { ServesVerdict context.now verdict.now arguments.now connections.old books.old
        connections.new books.new result out.new }
    ensures leaves { LeavesBooks context.now books.old books.new result out.old out.new }
    ensures lists { CanContinueAll books.new.registry connections.new }
    ensures open { StayOpen connections.old connections.new }
    ensures listed { ListsIfAsked (message_with verdict.now arguments.now) result }
    ensures cost { PaysInRoom context.now verdict.now
        connections.old books.old books.new arguments.now out.new meter.old meter.new }
{
    let called = match procedure_of(verdict) {
        Ok(called) => called,
        Err(message) => {
            note(seen, context, &message, None);
            return serve(books, context, &message, arguments, out, meter);
        }
    };
    let message = &called.message(arguments);
    make_room(connections, books, context, message, meter);
    let served = serve(books, context, message, arguments, out, meter);
    note(seen, context, message, books.refusal);
    served
}

// EXCHANGE-2
/// Writes the reply into `room`, with its header, if it is one fragment and `room` has place for the longest, and
/// then empties its buffer. Returns the number of bytes written, 0 if nothing was.
pub fn write_at_once(served: Served, draft: &mut Kept, room: &mut [u8], meter: &mut Meter) -> usize
    requires draft { IsDraft meter.old.tie draft.old }
    requires written { IsWritten served draft.old.bytes }
    ensures count { result ≡ count_at_once (length room.old) served draft.old.bytes }
    ensures none { result ≡ 0 → draft.new ≡ draft.old }
    ensures some { 0 < result → IsGivenAtOnce served draft.old draft.new (take result room.new) }
    ensures draft { IsDraft meter.old.tie draft.new }
    ensures within { result ≤ length room.new }
    ensures cost { PaysAtMost meter.old meter.new (whole_cost (length room.old) result) }
{
    match served {
        Served::Answered(Response::Reply) => write_whole(draft, room, meter),
        Served::Answered(_) | Served::Listed(_, _) => 0,
    }
}
