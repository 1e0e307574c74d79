//! What calls of the core gave, as the outputs that are recorded.
ghost use Rattle.std.specs.Prelude.{◌≡◌, ◌<◌, ◌≤◌, [], ◌∷◌, length};
ghost use Rattle.rb_model.specs.Step.Output.{Opened};
ghost use Rattle.rb_model.specs.Plain.{lent_output};
ghost use Rattle.rb_model.specs.Step.{show_done};
ghost use Rattle.rb_model.specs.Exchanges.{count_given};
ghost use Rattle.rb_model.specs.Gives.{pieces_of};
ghost use Rattle.rb_lines.specs.Tapes.{Records};
ghost use Rattle.rb_engine.specs.Recording.{output_or_refusal, given_entries, pieces_entries, exchange_entries, taken_output, answer_shown, datagram_entry, unsent_entry};

use rb_address::{Peer, Who};
use rb_core::{CoreFault, Exchanged, Response};
use rb_lines::Tape;
use rb_model::{Event, Output, UnsentCall};
use rb_rpc::LONGEST_FRAGMENT;

/// The number of a connection that was opened, or the refusal.
pub(crate) fn show_opened<'a>(opened: Result<u64, CoreFault>) -> Output<&'a [u8]>
    ensures { lent_output result ≡ output_or_refusal Opened opened }
{
    match opened {
        Ok(id) => Output::Opened(id),
        Err(fault) => Output::Refused(fault),
    }
}

/// That a call was done, or the refusal.
pub(crate) fn show_done<'a>(done: Result<(), CoreFault>) -> Output<&'a [u8]>
    ensures { lent_output result ≡ output_or_refusal show_done done }
{
    match done {
        Ok(()) => Output::Done,
        Err(fault) => Output::Refused(fault),
    }
}

fn show_taken<'a>(done: &Result<Exchanged, CoreFault>) -> Output<&'a [u8]>
    ensures { lent_output result ≡ taken_output done.now }
{
    match done {
        Ok(exchanged) if exchanged.taken.lost => Output::TookAndLost(exchanged.taken.count),
        Ok(exchanged) => Output::Took(exchanged.taken.count),
        Err(fault) => Output::Refused(*fault),
    }
}

/// How many bytes were given at once.
pub(crate) fn count_given(done: &Result<Exchanged, CoreFault>) -> usize
    ensures { result ≡ count_given done.now }
{
    match done {
        Ok(exchanged) => exchanged.given,
        Err(_) => 0,
    }
}

// TAPE-4
/// Records that bytes came on a connection, and, if some were given at once, the look at them and that they were
/// given. It makes no lines if nothing is recorded, since each call over TCP comes by here.
pub(crate) fn record_exchange(
    tape: &mut Tape,
    now: u64,
    id: u64,
    piece: &[u8],
    given: &[u8],
    done: &Result<Exchanged, CoreFault>,
)
    requires within { length tape.old.text ≤ tape.old.limit }
    ensures { Records (exchange_entries now id piece.now done.now given.now) tape.old tape.new }
{
    if !tape.is_on() {
        return;
    }
    tape.record(&Event::Bytes(now, id, piece), &show_taken(done));
    if !given.is_empty() {
        record_given(tape, now, id, given);
    }
}

/// What a datagram was answered with: with this reply, if it has one.
fn show_answer<'a>(response: Response, reply: &'a [u8]) -> Output<&'a [u8]>
    ensures { lent_output result ≡ answer_shown response reply.now }
{
    match response {
        Response::Reply => Output::Replied(reply),
        Response::Forwarded => Output::Forwarded,
        Response::NoCall | Response::Silent => Output::Silent,
    }
}

// TAPE-4
/// Records that a datagram came, and what it was answered with. It makes no lines if nothing is recorded, since each call
/// over UDP comes by here.
pub(crate) fn record_datagram(
    tape: &mut Tape,
    now: u64,
    who: Who,
    content: &[u8],
    response: Response,
    reply: &[u8],
)
    requires within { length tape.old.text ≤ tape.old.limit }
    ensures { Records (datagram_entry now who content.now response reply.now ∷ []) tape.old tape.new }
{
    if !tape.is_on() {
        return;
    }
    tape.record(
        &Event::Datagram(now, who, content),
        &show_answer(response, reply),
    );
}

/// Records the look at bytes, and that all of them were given.
fn record_given(tape: &mut Tape, now: u64, id: u64, given: &[u8])
    ensures { Records (given_entries now id given.now) tape.old tape.new }
{
    tape.record(&Event::Pending(id), &Output::Pending(given));
    tape.record(&Event::Gave(now, id, given.len() as u64), &Output::Done);
}

// TAPE-4
/// Records, piece by piece, the look at bytes and that all of them were given. The first piece has this many of them, or all;
/// each after it is a fragment. There is at least one byte.
pub(crate) fn record_pieces(tape: &mut Tape, now: u64, id: u64, first: usize, given: &[u8])
    requires some { 0 < length given.now }
    requires first { 0 < first }
    ensures { Records (pieces_entries now id (pieces_of first given.now)) tape.old tape.new }
{
    let (front, rest) = given.split_at(first.min(given.len()));
    record_given(tape, now, id, front);
    for piece in rest.chunks(LONGEST_FRAGMENT) {
        record_given(tape, now, id, piece);
    }
}

/// Records the look for a call that must be sent, and that there is this one.
pub(crate) fn record_unsent(tape: &mut Tape, number: u64, target: Peer, call: &[u8])
    ensures { Records (unsent_entry number target call.now ∷ []) tape.old tape.new }
{
    let unsent = UnsentCall {
        number,
        target,
        call,
    };
    tape.record(&Event::Unsent, &Output::Unsent(Some(unsent)));
}
