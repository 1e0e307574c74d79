//! The lines that outputs are printed as.
ghost use Rattle.std.specs.Prelude.{◌≡◌, codes, option_map};
ghost use Rattle.rb_model.specs.Step.Output.{TookAndLost, LostIs, UnsentIs};
ghost use Rattle.rb_lines.specs.WrittenLines.{line_text};
ghost use Rattle.rb_model.specs.Plain.{plain_unsent};
ghost use Rattle.rb_lines.specs.Printing.{source_line, unsent_line, refusal_text, output_text, output_line};

use crate::front::Front;
use crate::written_line::WrittenLine;
use rb_address::{Peer, Source};
use rb_model::{CoreFault, Output, UnsentCall};
use std::convert::AsSlice;

/// The line of a reply, with where its call came from.
fn reply_line<'a>(source: Source, bytes: &'a [u8]) -> WrittenLine<'a>
    ensures { line_text result ≡ source_line (codes "datagram ") source bytes.now }
{
    let mut front = Front::new("datagram ");
    front.push_source(source);
    front.push(b" ");
    WrittenLine::with(front, bytes)
}

/// The line of a forwarded call that must be sent.
fn call_line<'a, B: AsSlice<u8>>(unsent: &'a UnsentCall<B>) -> WrittenLine<'a>
    ensures { line_text result ≡ unsent_line (plain_unsent B.items unsent.now) }
{
    let mut front = Front::new("unsent ");
    front.push_number(unsent.number);
    front.push(b" ");
    front.push_peer(unsent.target);
    front.push(b" ");
    WrittenLine::with(front, unsent.call.as_slice())
}

/// The line of a look for a forwarded call that must be sent.
fn unsent_line<'a, B: AsSlice<u8>>(call: &'a Option<UnsentCall<B>>) -> WrittenLine<'a>
    ensures { line_text result
        ≡ output_text (UnsentIs (option_map (plain_unsent B.items) call.now)) }
{
    match call {
        None => WrittenLine::word("unsent -"),
        Some(unsent) => call_line(unsent),
    }
}

/// The line of bytes that were taken by a connection that is lost now.
fn closed_line<'a>(count: usize) -> WrittenLine<'a>
    ensures { line_text result ≡ output_text (TookAndLost count) }
{
    let mut front = Front::new("took ");
    front.push_number(count as u64);
    front.push(b" closed");
    WrittenLine::of(front)
}

/// The line of a look for a connection that is lost.
fn lost_line<'a>(id: Option<u64>) -> WrittenLine<'a>
    ensures { line_text result ≡ output_text (LostIs id) }
{
    match id {
        None => WrittenLine::word("lost -"),
        Some(id) => WrittenLine::number("lost ", id),
    }
}

/// The line of a refused call.
fn refusal_line<'a>(fault: CoreFault) -> WrittenLine<'a>
    ensures { line_text result ≡ refusal_text fault }
{
    match fault {
        CoreFault::Full => WrittenLine::word("full"),
        CoreFault::Spent => WrittenLine::word("spent"),
        CoreFault::Gone => WrittenLine::word("gone"),
        CoreFault::NoMemory => WrittenLine::word("no memory"),
        CoreFault::BadLimits => WrittenLine::word("bad limits"),
    }
}

// LINE-1
/// The line of an output (docs/EVENTS.md).
pub(crate) fn output_line<'a, B: AsSlice<u8>>(output: &'a Output<B>) -> WrittenLine<'a>
    ensures { line_text result ≡ output_line B.items output.now }
{
    match output {
        Output::Replied(bytes) => WrittenLine::bytes("reply ", bytes.as_slice()),
        Output::Silent => WrittenLine::word("silent"),
        Output::Opened(id) => WrittenLine::number("open ", *id),
        Output::Refused(fault) => refusal_line(*fault),
        Output::Took(n) => WrittenLine::number("took ", *n as u64),
        Output::TookAndLost(n) => closed_line(*n),
        Output::Pending(bytes) => WrittenLine::bytes("pending ", bytes.as_slice()),
        Output::Done => WrittenLine::word("ok"),
        Output::TooMuch => WrittenLine::word("toomuch"),
        Output::Lost(id) => lost_line(*id),
        Output::Forwarded => WrittenLine::word("forwarded"),
        Output::Unsent(call) => unsent_line(call),
        Output::Ignored => WrittenLine::word("ignored"),
        Output::Nothing => WrittenLine::word("nothing"),
        Output::ConnectionLost(id) => WrittenLine::number("closed ", *id),
        Output::Ready(id) => WrittenLine::number("ready ", *id),
        Output::RepliedTo(who, bytes) => reply_line(who.source, bytes.as_slice()),
    }
}
