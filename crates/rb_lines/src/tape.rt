//! The tape that a run is recorded on.
ghost use Rattle.std.specs.Prelude.{◌≡◌, ◌≤◌, ◌+◌, [], true, length, vec_capacity, IfOk};
ghost use Rattle.rb_lines.specs.Tapes.{last_line};

use crate::entries::{Start, options_line};
use crate::events::event_line;
use crate::outputs::output_line;
use crate::written_line::{WrittenLine, push_bytes};
use rb_model::{Event, Output};
use std::alloc::{AllocError, Global};
use std::io;
use std::io::Write;
use std::marker::Model;

/// The last line of a record that reached its limit.
const ENDING: &[u8] = b"# the limit of this record is reached: what follows is not in it\n";

/// What stands in front of the line of an output.
const MARK: &[u8] = b"#> ";

/// An empty text with room for a number of bytes. It is written to, so that its memory is the process's from here on.
fn empty_text(alloc: Global, room: usize) -> Result<Vec<u8>, AllocError>
    ensures empty { IfOk result (λ text. text.items ≡ []) }
    ensures room { IfOk result (λ text. room ≤ vec_capacity text) }
{
    let mut text = Vec::with_capacity(alloc, room)?;
    text.resize(room, 0)?;
    text.clear();
    Ok(text)
}

/// What is recorded, up to a number of bytes, for which there is room from the start. While the recording goes on,
/// the last line fits too.
#[derive(Drop)]
struct Page {
    text: Vec<u8>,
    limit: usize,
    is_on: bool,
    ghost room: { limit ≤ vec_capacity text },
    ghost within: { length text.items ≤ limit },
    ghost last_fits: { is_on ≡ true → length text.items + length last_line ≤ limit },
}

impl Page {
    ghost use Rattle.std.specs.Prelude.{◌≡◌, ◌≤◌, ◌+◌, ◌++◌, nat_le, length, true, false};
    ghost use Rattle.rb_lines.specs.WrittenLines.{line_text};
    ghost use Rattle.rb_lines.specs.Tapes.{HasRoom};

    /// Whether this many bytes fit, with the last line after them.
    fn has_room(&self, count: u128) -> bool
        requires { self.now.is_on ≡ true }
        ensures { result
            ≡ nat_le (length self.now.text.items + count + length last_line) self.now.limit }
    {
        count <= (self.limit - self.text.len() - ENDING.len()) as u128
    }

    /// Adds bytes that fit, with the last line after them.
    fn push(&mut self, bytes: &[u8])
        requires on { self.old.is_on ≡ true }
        requires fits { HasRoom self.old.limit self.old.text.items bytes.now }
        ensures text { self.new.text.items ≡ self.old.text.items ++ bytes.now }
        ensures on { self.new.is_on ≡ true }
        ensures limit { self.new.limit ≡ self.old.limit }
    {
        push_bytes(&mut self.text, bytes);
    }

    /// Adds a line that fits, with the last line after it.
    fn push_line(&mut self, line: &WrittenLine<'_>)
        requires on { self.old.is_on ≡ true }
        requires fits { HasRoom self.old.limit self.old.text.items (line_text line.now) }
        ensures text { self.new.text.items ≡ self.old.text.items ++ line_text line.now }
        ensures on { self.new.is_on ≡ true }
        ensures limit { self.new.limit ≡ self.old.limit }
    {
        line.push_to(&mut self.text);
    }

    /// Ends the record with its last line.
    fn end(&mut self)
        requires { self.old.is_on ≡ true }
        ensures on { self.new.is_on ≡ false }
        ensures text { self.new.text.items ≡ self.old.text.items ++ last_line }
        ensures limit { self.new.limit ≡ self.old.limit }
    {
        self.is_on = false;
        push_bytes(&mut self.text, ENDING);
    }
}

/// A record of a run: all of its lines, from the first. Its memory is there from the start.
#[derive(Drop)]
pub struct Tape {
    page: Page,
    /// How many bytes of it were written out.
    written: usize,
}

impl Model for Tape {
    ghost use Rattle.rb_lines.specs.Tapes as tapes;

    ghost Value = { tapes.Tape };

    ghost view = { λ tape. record { text = tape.page.text.items; written = tape.written; is_on = tape.page.is_on; limit = tape.page.limit } };
}

impl Tape {
    ghost use Rattle.std.specs.Prelude.{◌≡◌, [], ◌∷◌, false, length, IfOk, OnOk, OnErr};
    ghost use Rattle.rb_lines.specs.Printing.{Writes};
    ghost use Rattle.rb_lines.specs.Entries.{entry_of, options_of};
    ghost use Rattle.rb_lines.specs.Tapes.{Records, all_written, empty_tape, unwritten};

    /// An empty one that records up to `limit` bytes, its last line among them; with no room for more than that it
    /// records nothing. An error if an allocation is refused.
    pub fn new(alloc: Global, limit: usize) -> Result<Tape, AllocError>
        ensures { IfOk result (λ tape. tape ≡ empty_tape limit) }
    {
        let page = Page {
            text: empty_text(alloc, limit)?,
            limit,
            is_on: limit > ENDING.len(),
        };
        Ok(Tape { page, written: 0 })
    }

    /// Whether it goes on recording.
    pub fn is_on(&self) -> bool
        ensures { result ≡ self.now.is_on }
    {
        self.page.is_on
    }

    /// Records, as the first line, the command that checks a record of a run that begins so. If that does not fit, the
    /// record has its last line alone.
    pub fn begin(&mut self, start: &Start<'_>)
        ensures { Records (options_of start.now ∷ []) self.old self.new }
    {
        if !self.page.is_on {
            return;
        }
        let line = options_line(start);
        let line = line.as_slice();
        if self.page.has_room(line.len() as u128) {
            self.page.push(line);
        } else {
            self.page.end();
        }
    }

    /// Records an event, and after `#> ` what it gave. If that does not fit, with the last line after it, the record
    /// ends in front of it with that line.
    pub fn record(&mut self, event: &Event<&[u8]>, output: &Output<&[u8]>)
        ensures { Records (entry_of event.now output.now ∷ []) self.old self.new }
    {
        if !self.page.is_on {
            return;
        }
        self.add(event, output);
    }

    /// Adds an event and what it gave while the recording goes on. It is not inlined, as its two lines of text are filled
    /// with zeros before they are made.
    #[inline(never)]
    fn add(&mut self, event: &Event<&[u8]>, output: &Output<&[u8]>)
        requires { self.old.is_on ≡ true }
        ensures { Records (entry_of event.now output.now ∷ []) self.old self.new }
    {
        let event = event_line(event);
        let output = output_line(output);
        if self
            .page
            .has_room(event.len() + MARK.len() as u128 + output.len())
        {
            self.page.push_line(&event);
            self.page.push(MARK);
            self.page.push_line(&output);
        } else {
            self.page.end();
        }
    }

    /// Writes what the writer has not got yet. If it fails the recording ends, and how much of that the writer has
    /// is not known.
    pub fn write_out<W: Write>(&mut self, writer: &mut W) -> io::Result<()>
        ensures written { OnOk result
            (Writes W.contents writer.old writer.new (unwritten self.old)) }
        ensures ok { OnOk result
            (self.new ≡ all_written self.old) }
        ensures err { OnErr result (self.new ≡ record self.old { is_on = false }) }
    {
        let text = self.page.text.as_slice();
        let from = self.written.min(text.len());
        match writer.write_all(&text[from..]) {
            Ok(()) => {
                self.written = text.len();
                Ok(())
            }
            Err(error) => {
                self.page.is_on = false;
                Err(error)
            }
        }
    }
}
