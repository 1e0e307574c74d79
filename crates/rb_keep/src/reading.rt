//! A text of kept rows is read: each line that says something has to be that of a row that came or went.
ghost use Rattle.std.specs.Prelude.{◌≡◌, [], IfOk};
ghost use Rattle.rb_model.specs.Plain.{event_of};
ghost use Rattle.rb_lines.specs.Lines.{lines_of};
ghost use Rattle.rb_keep.specs.Reading.{is_this_machine, row_of_request, row_asked, row_set, row_unset, kept_row, gone_row, kept_line, is_named, without, with_text, rows_from, whole_part, read, Gives, after_line, result_items};

use crate::call::{SET, UNSET, set_call, this_machine, unset_call};
use crate::fault::KeepFault;
use rb_address::{Owner, Who};
use rb_answers::{owner_named, row_of_rpcb};
use rb_arguments::{Request, RpcbProcedure, read_args};
use rb_lines::{Line, longest_input, read_line};
use rb_model::Event;
use rb_registry::Row;
use rb_rpc::{Verdict, read_call};
use rb_xdr::NoMemory;
use std::alloc::Global;

/// The most rows that are read: as many as a daemon may have.
pub const MOST_ROWS: usize = 4_096;

/// What a line keeps.
#[derive(Drop)]
pub enum KeptLine {
    /// Nothing: it is empty, or begins with `#`.
    Skipped,
    /// This row.
    Keeps(Row),
    /// It takes out the row of this program, version, netid and owner.
    Removes(Row),
    /// It is the line of another event.
    NotKept,
    /// It is no event line.
    Bad,
}

/// Whether the caller is the one that calls which set rows again come from.
#[tactic(auto, unfolding(crate::specs::Reading::is_this_machine))]
fn is_this_machine(who: &Who) -> bool
    ensures { result ≡ is_this_machine who.now }
{
    *who == this_machine()
}

/// The row that a request asks to be set or removed, of this owner.
fn row_of_request(owner: Owner, request: &Request<'_>) -> Option<Row>
    ensures { result ≡ row_of_request owner request.now }
{
    match request {
        Request::Rpcb(RpcbProcedure::Set | RpcbProcedure::Unset, rpcb) => row_of_rpcb(owner, rpcb),
        _ => None,
    }
}

/// The row that a call of this procedure of version 4 in these bytes asks for.
#[tactic(auto, unfolding(crate::specs::Reading::row_asked))]
fn row_asked(proc: u32, bytes: &[u8]) -> Option<Row>
    ensures { result ≡ row_asked proc bytes.now }
{
    let Verdict::Call(head, used) = read_call(bytes) else {
        return None;
    };
    let Ok(request) = read_args(4, proc, &bytes[used..]) else {
        return None;
    };
    row_of_request(owner_named(head.cred), &request)
}

/// The row that these bytes set again: they are just those of its call.
#[tactic(auto, unfolding(crate::specs::Reading::row_set))]
fn row_set(bytes: &[u8]) -> Option<Row>
    ensures { result ≡ row_set bytes.now }
{
    let row = row_asked(SET, bytes)?;
    if set_call(&row).as_slice() == bytes {
        Some(row)
    } else {
        None
    }
}

/// The row that these bytes remove: they are just those of its call.
#[tactic(auto, unfolding(crate::specs::Reading::row_unset))]
fn row_unset(bytes: &[u8]) -> Option<Row>
    ensures { result ≡ row_unset bytes.now }
{
    let row = row_asked(UNSET, bytes)?;
    if unset_call(&row).as_slice() == bytes {
        Some(row)
    } else {
        None
    }
}

/// The row that an event sets again.
#[tactic(auto, unfolding(crate::specs::Reading::kept_row))]
fn kept_row(event: &Event) -> Option<Row>
    ensures { result ≡ kept_row (event_of event.now) }
{
    match event {
        Event::Datagram(_, who, content) if is_this_machine(who) => row_set(content),
        _ => None,
    }
}

/// The row that an event removes.
#[tactic(auto, unfolding(crate::specs::Reading::gone_row))]
fn gone_row(event: &Event) -> Option<Row>
    ensures { result ≡ gone_row (event_of event.now) }
{
    match event {
        Event::Datagram(_, who, content) if is_this_machine(who) => row_unset(content),
        _ => None,
    }
}

/// What a line keeps.
#[tactic(auto, unfolding(crate::specs::Reading::kept_line))]
fn kept_line(alloc: Global, text: &[u8]) -> Result<KeptLine, NoMemory>
    ensures { IfOk result (λ kept. kept ≡ kept_line text.now) }
{
    let kept = match read_line(alloc, text)? {
        Line::Skipped => KeptLine::Skipped,
        Line::Bad => KeptLine::Bad,
        Line::Happens(event) => match kept_row(&event) {
            Some(row) => KeptLine::Keeps(row),
            None => match gone_row(&event) {
                Some(row) => KeptLine::Removes(row),
                None => KeptLine::NotKept,
            },
        },
    };
    Ok(kept)
}

/// Whether the row is the one that went: its address is not named.
#[tactic(auto, unfolding(rb_registry::specs::Rows::is_row, rb_registry::specs::Rows::is_on))]
fn is_named(gone: &Row, row: &Row) -> bool
    ensures { result ≡ is_named gone.now row.now }
{
    gone.prog == row.prog
        && gone.netid.is(row.netid)
        && gone.vers == row.vers
        && gone.owner == row.owner
}

/// Takes the row out that went.
#[tactic(auto, unfolding(crate::specs::Reading::without))]
fn take_out(gone: &Row, rows: &mut Vec<Row>)
    ensures { rows.new.items ≡ without gone.now rows.old.items }
{
    rows.retain(|row| !is_named(gone, row));
}

/// Adds what the line of this number keeps, or takes out what it removes.
fn take_line(
    alloc: Global,
    rows: &mut Vec<Row>,
    number: usize,
    text: &[u8],
) -> Result<(), KeepFault>
    ensures { Gives (after_line result rows.new.items) (with_text number rows.old.items text.now) }
{
    match kept_line(alloc, text) {
        Err(NoMemory) => Err(KeepFault::NoMemory),
        Ok(KeptLine::Skipped) => Ok(()),
        Ok(KeptLine::Bad) => Err(KeepFault::BadLine(number)),
        Ok(KeptLine::NotKept) => Err(KeepFault::NotKept(number)),
        Ok(KeptLine::Removes(row)) => {
            take_out(&row, rows);
            Ok(())
        }
        Ok(KeptLine::Keeps(_)) if rows.len() >= MOST_ROWS => Err(KeepFault::TooMany(number)),
        Ok(KeptLine::Keeps(row)) => rows.push(row).map_err(|_| KeepFault::NoMemory),
    }
}

/// The rows of the lines of a text.
fn read_lines(alloc: Global, text: &[u8]) -> Result<Vec<Row>, KeepFault>
    ensures { Gives (result_items result) (rows_from 1 (lines_of text.now) (Ok [])) }
{
    let mut rows = Vec::new(alloc);
    for (i, line) in text.split(|b| *b == b'\n').enumerate() {
        if let Err(fault) = take_line(alloc, &mut rows, i + 1, line) {
            return Err(fault);
        }
    }
    Ok(rows)
}

/// The part of a text up to its last line feed. What is behind it was not written whole, and is not read.
#[tactic(auto, unfolding(crate::specs::Reading::whole_part))]
pub fn whole_part(text: &[u8]) -> &[u8]
    ensures { result.now ≡ whole_part text.now }
{
    let mut end = text.len();
    'feed: while end > 0 && text[end - 1] != b'\n' {
        end -= 1;
    }
    &text[..end]
}

/// The rows that the lines of a text of kept rows leave, in their order, up to its last line feed. Each line that says
/// something has to be one that rb_engine writes, at any moment: a datagram from port 0 of 127.0.0.1 with the
/// bytes of the call that sets a row, which adds it, or of the call that removes it, which takes it out.
///
/// The first line that is not names the fault: `BadLine` if it is no event line, `NotKept` if it is another, and
/// `TooMany` if it adds a row to 4,096 others. A text of more than 16,777,216 bytes is `TooLong`, whatever it says.
/// `NoMemory` if an allocation was refused.
#[tactic(auto, unfolding(crate::specs::Reading::read))]
pub fn read_rows(alloc: Global, text: &[u8]) -> Result<Vec<Row>, KeepFault>
    ensures { Gives (result_items result) (read text.now) }
{
    if text.len() > longest_input() {
        return Err(KeepFault::TooLong);
    }
    read_lines(alloc, whole_part(text))
}
