//! The lines that events are written as.
ghost use Rattle.std.specs.Prelude.{◌≡◌, ◌≤◌, ◌+◌, ◌++◌, length, decimal, codes, OnOk};
ghost use Rattle.rb_model.specs.Step.Event.{Open, Bytes, Gave, Datagram, Forward};
ghost use Rattle.rb_lines.specs.WrittenLines.{line_text};
ghost use Rattle.rb_lines.specs.Printing.{Writes};
ghost use Rattle.rb_lines.specs.Entries.{event_text, event_line};

use crate::front::{Front, MAX_FRONT};
use crate::written_line::WrittenLine;
use rb_address::{Peer, Who};
use rb_model::Event;
use std::convert::AsSlice;
use std::io;
use std::io::Write;

/// The front of a line that begins with a word and a moment or a number.
fn front_at(word: &str, number: u64) -> Front<MAX_FRONT>
    requires { length word.now ≤ 64 }
    ensures text { result.text.items ≡ word.now ++ decimal number ++ codes " " }
    ensures short { length result.text.items ≤ length word.now + 21 }
{
    let mut front = Front::new(word);
    front.push_number(number);
    front.push(b" ");
    front
}

fn open_line<'a>(now: u64, from: Who) -> WrittenLine<'a>
    ensures { line_text result ≡ event_text (Open now from) }
{
    let mut front = front_at("open ", now);
    front.push_who(from);
    WrittenLine::of(front)
}

fn bytes_line<'a>(now: u64, id: u64, bytes: &'a [u8]) -> WrittenLine<'a>
    ensures { line_text result ≡ event_text (Bytes now id bytes.now) }
{
    let mut front = front_at("bytes ", now);
    front.push_number(id);
    front.push(b" ");
    WrittenLine::with(front, bytes)
}

fn gave_line<'a>(now: u64, id: u64, count: u64) -> WrittenLine<'a>
    ensures { line_text result ≡ event_text (Gave now id count) }
{
    let mut front = front_at("gave ", now);
    front.push_number(id);
    front.push(b" ");
    front.push_number(count);
    WrittenLine::of(front)
}

fn datagram_line<'a>(now: u64, from: Who, bytes: &'a [u8]) -> WrittenLine<'a>
    ensures { line_text result ≡ event_text (Datagram now from bytes.now) }
{
    let mut front = front_at("datagram ", now);
    front.push_who(from);
    front.push(b" ");
    WrittenLine::with(front, bytes)
}

fn forward_line<'a>(now: u64, from: Peer, bytes: &'a [u8]) -> WrittenLine<'a>
    ensures { line_text result ≡ event_text (Forward now from bytes.now) }
{
    let mut front = front_at("forward ", now);
    front.push_peer(from);
    front.push(b" ");
    WrittenLine::with(front, bytes)
}

// LINE-2
/// The line of an event (docs/EVENTS.md).
pub(crate) fn event_line<'a, B: AsSlice<u8>>(event: &'a Event<B>) -> WrittenLine<'a>
    ensures { line_text result ≡ event_line B.items event.now }
{
    match event {
        Event::Open(now, from) => open_line(*now, *from),
        Event::Bytes(now, id, bytes) => bytes_line(*now, *id, bytes.as_slice()),
        Event::Pending(id) => WrittenLine::number("pending ", *id),
        Event::Gave(now, id, n) => gave_line(*now, *id, *n),
        Event::Closed(id) => WrittenLine::number("closed ", *id),
        Event::NextLost => WrittenLine::word("lost"),
        Event::Datagram(now, from, bytes) => datagram_line(*now, *from, bytes.as_slice()),
        Event::Unsent => WrittenLine::word("unsent"),
        Event::Sent(number) => WrittenLine::number("sent ", *number),
        Event::Forward(now, from, bytes) => forward_line(*now, *from, bytes.as_slice()),
        Event::Expire(now) => WrittenLine::number("expire ", *now),
        Event::ZeroStats => WrittenLine::word("zero"),
    }
}

// LINE-2
/// Writes the line of an event. An error if the writer fails; how much of the line it has then is not known.
pub fn write_event<B: AsSlice<u8>, W: Write>(event: &Event<B>, writer: &mut W) -> io::Result<()>
    ensures { OnOk result (Writes W.contents writer.old writer.new (event_line B.items event.now)) }
{
    event_line(event).write_to(writer)
}
