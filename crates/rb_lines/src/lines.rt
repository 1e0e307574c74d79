//! Event lines, one event in each.
ghost use Rattle.std.specs.Prelude.{◌≡◌, ◌≤◌, IfOk, IfErr, OnOk};
ghost use Rattle.std.specs.Option.{option_map};
ghost use Rattle.rb_model.specs.Plain.{event_of, events_of};
ghost use Rattle.rb_lines.specs.Lines.{AddsLine, events_from, lines_of, IsLineFault, datagram_line, forward_line, open_line, bytes_line, gave_line, event, lone_event, line, line_of, longest_input, GivesEvents, GivesItems, read};

use crate::fields::hex_bytes;
use rb_address::{Peer, Who, cut, number_below};
use rb_model::Event;
use rb_xdr::NoMemory;
use std::alloc::Global;
use thiserror::Error;

/// The length in bytes of the longest text that is read as event lines.
#[tactic(auto, unfolding(crate::specs::Lines::longest_input))]
pub fn longest_input() -> usize
    ensures value { result ≡ longest_input }
    ensures small { result ≤ 16777216 }
{
    16_777_216
}

/// Why a text was not read as event lines.
#[derive(Clone, Copy, Debug, Drop, Error, PartialEq, Eq)]
pub enum ReadFault {
    /// The number of the first line that is no event line, from 1. Every line counts.
    #[error("line {0}: bad event")]
    BadLine(usize),
    /// The text has over 16,777,216 bytes.
    #[error("input too long")]
    TooLong,
    /// An allocation was refused.
    #[error("no memory")]
    NoMemory,
}

/// What a line says.
#[derive(Drop)]
pub enum Line {
    /// Nothing: it is empty, or begins with `#`.
    Skipped,
    /// This event happens.
    Happens(Event),
    /// It is no event line.
    Bad,
}

/// What follows the word `datagram`: a moment, a caller and bytes.
#[tactic(auto, unfolding(crate::specs::Lines::datagram_line))]
fn datagram_line(alloc: Global, text: &[u8]) -> Result<Option<Event>, NoMemory>
    ensures { IfOk result (λ read. option_map event_of read ≡ datagram_line text.now) }
{
    let Some((now, rest)) = cut(text, b' ') else {
        return Ok(None);
    };
    let Some((from, bytes)) = cut(rest, b' ') else {
        return Ok(None);
    };
    let Some(now) = number_below(now) else {
        return Ok(None);
    };
    let Some(from) = Who::read(from) else {
        return Ok(None);
    };
    let Some(bytes) = hex_bytes(alloc, bytes)? else {
        return Ok(None);
    };
    Ok(Some(Event::Datagram(now, from, bytes)))
}

/// What follows the word `forward`: a moment, a peer and bytes.
#[tactic(auto, unfolding(crate::specs::Lines::forward_line))]
fn forward_line(alloc: Global, text: &[u8]) -> Result<Option<Event>, NoMemory>
    ensures { IfOk result (λ read. option_map event_of read ≡ forward_line text.now) }
{
    let Some((now, rest)) = cut(text, b' ') else {
        return Ok(None);
    };
    let Some((from, bytes)) = cut(rest, b' ') else {
        return Ok(None);
    };
    let Some(now) = number_below(now) else {
        return Ok(None);
    };
    let Some(from) = Peer::read(from) else {
        return Ok(None);
    };
    let Some(bytes) = hex_bytes(alloc, bytes)? else {
        return Ok(None);
    };
    Ok(Some(Event::Forward(now, from, bytes)))
}

/// What follows the word `open`: a moment and a caller.
#[tactic(auto, unfolding(crate::specs::Lines::open_line))]
fn open_line(text: &[u8]) -> Option<Event>
    ensures { option_map event_of result ≡ open_line text.now }
{
    let (now, from) = cut(text, b' ')?;
    let now = number_below(now)?;
    let from = Who::read(from)?;
    Some(Event::Open(now, from))
}

/// What follows the word `bytes`: a moment, a connection's number and bytes.
#[tactic(auto, unfolding(crate::specs::Lines::bytes_line))]
fn bytes_line(alloc: Global, text: &[u8]) -> Result<Option<Event>, NoMemory>
    ensures { IfOk result (λ read. option_map event_of read ≡ bytes_line text.now) }
{
    let Some((now, rest)) = cut(text, b' ') else {
        return Ok(None);
    };
    let Some((id, bytes)) = cut(rest, b' ') else {
        return Ok(None);
    };
    let Some(now) = number_below(now) else {
        return Ok(None);
    };
    let Some(id) = number_below(id) else {
        return Ok(None);
    };
    let Some(bytes) = hex_bytes(alloc, bytes)? else {
        return Ok(None);
    };
    Ok(Some(Event::Bytes(now, id, bytes)))
}

/// What follows the word `gave`: a moment, a connection's number and how many bytes.
#[tactic(auto, unfolding(crate::specs::Lines::gave_line))]
fn gave_line(text: &[u8]) -> Option<Event>
    ensures { option_map event_of result ≡ gave_line text.now }
{
    let (now, rest) = cut(text, b' ')?;
    let (id, n) = cut(rest, b' ')?;
    let now = number_below(now)?;
    let id = number_below(id)?;
    let n = number_below(n)?;
    Some(Event::Gave(now, id, n))
}

// LINE-7
/// The event of a line of more than one word: the first, and what stands after the space after it.
#[tactic(auto, unfolding(crate::specs::Lines::event))]
fn read_event(alloc: Global, word: &[u8], rest: &[u8]) -> Result<Option<Event>, NoMemory>
    ensures { IfOk result (λ read. option_map event_of read ≡ event word.now rest.now) }
{
    if word == b"datagram".as_slice() {
        return datagram_line(alloc, rest);
    }
    if word == b"open".as_slice() {
        return Ok(open_line(rest));
    }
    if word == b"bytes".as_slice() {
        return bytes_line(alloc, rest);
    }
    if word == b"pending".as_slice() {
        return Ok(number_below(rest).map(Event::Pending));
    }
    if word == b"gave".as_slice() {
        return Ok(gave_line(rest));
    }
    if word == b"closed".as_slice() {
        return Ok(number_below(rest).map(Event::Closed));
    }
    if word == b"sent".as_slice() {
        return Ok(number_below(rest).map(Event::Sent));
    }
    if word == b"forward".as_slice() {
        return forward_line(alloc, rest);
    }
    if word == b"expire".as_slice() {
        return Ok(number_below(rest).map(Event::Expire));
    }
    Ok(None)
}

// LINE-8
/// The event of a line of one word.
#[tactic(auto, unfolding(crate::specs::Lines::lone_event))]
fn lone_event(word: &[u8]) -> Option<Event>
    ensures { option_map event_of result ≡ lone_event word.now }
{
    if word == b"lost".as_slice() {
        return Some(Event::NextLost);
    }
    if word == b"unsent".as_slice() {
        return Some(Event::Unsent);
    }
    if word == b"zero".as_slice() {
        return Some(Event::ZeroStats);
    }
    None
}

/// What a line says, which stands without the line feed that ends it.
#[tactic(auto, unfolding(crate::specs::Lines::line))]
pub fn read_line(alloc: Global, text: &[u8]) -> Result<Line, NoMemory>
    ensures { IfOk result (λ read. line_of read ≡ line text.now) }
{
    if text.is_empty() || text[0] == b'#' {
        return Ok(Line::Skipped);
    }
    let event = match cut(text, b' ') {
        None => lone_event(text),
        Some((word, rest)) => read_event(alloc, word, rest)?,
    };
    match event {
        Some(event) => Ok(Line::Happens(event)),
        None => Ok(Line::Bad),
    }
}

/// Adds what the line of this number says.
fn take_line(
    alloc: Global,
    events: &mut Vec<Event>,
    number: usize,
    text: &[u8],
) -> Result<(), ReadFault>
    ensures ok { OnOk result (AddsLine number (line text.now) events.old.items events.new.items) }
    ensures err { IfErr result (λ fault. IsLineFault number (line text.now) fault) }
{
    match read_line(alloc, text) {
        Err(NoMemory) => Err(ReadFault::NoMemory),
        Ok(Line::Bad) => Err(ReadFault::BadLine(number)),
        Ok(Line::Skipped) => Ok(()),
        Ok(Line::Happens(event)) => match events.push(event) {
            Ok(()) => Ok(()),
            Err(_) => Err(ReadFault::NoMemory),
        },
    }
}

/// The events of the lines of a text.
fn read_lines(alloc: Global, text: &[u8]) -> Result<Vec<Event>, ReadFault>
    ensures { GivesItems result (events_from 1 (lines_of text.now)) }
{
    let mut events = Vec::new(alloc);
    for (i, line) in text.split(|b| *b == b'\n').enumerate() {
        if let Err(fault) = take_line(alloc, &mut events, i + 1, line) {
            return Err(fault);
        }
    }
    events.shrink_to_fit();
    Ok(events)
}

// LINE-12
/// The events of a text of event lines, one in each line. A text of more than 16,777,216 bytes is
/// too long, whatever it says. Empty lines and lines that begin with `#` say nothing.
#[tactic(auto, unfolding(crate::specs::Lines::read))]
pub fn read_events(alloc: Global, text: &[u8]) -> Result<Vec<Event>, ReadFault>
    ensures { GivesEvents (λ events. events_of events.items) result (read text.now) }
{
    if text.len() > longest_input() {
        return Err(ReadFault::TooLong);
    }
    read_lines(alloc, text)
}
