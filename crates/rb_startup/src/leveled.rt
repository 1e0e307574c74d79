//! Lines of standard error, with a priority in front where the journal reads them (sd-daemon(3)).
ghost use Rattle.std.specs.Prelude.{◌≡◌, ◌≤◌, ◌^◌, length};
ghost use Rattle.rb_address.specs.Reading.{number_below};
ghost use Rattle.rb_policy.specs.Handed.{is_number};
ghost use Rattle.rb_startup.specs.Levels.{mark_of, names_file};

use rb_address::{cut, number_below};
use std::env::{self, Env};
use std::fs::{self, Files};
use std::io;
use std::io::Write;
use std::os::unix::fs::MetadataExt;

/// How much a line matters.
#[derive(Clone, Copy)]
pub enum Level {
    /// Why the program ends.
    Error,
    /// What is not as it should be.
    Warning,
    /// What is worth knowing of the start.
    Notice,
    /// A line of the log.
    Info,
}

/// A writer of lines of one level. A line that begins with another level's mark, as a write of its own, keeps that.
#[derive(Drop)]
pub struct Leveled<W: Write + Drop> {
    inner: W,
    level: Level,
    /// Whether lines have marks.
    has_marks: bool,
    /// Whether the next byte begins a line.
    is_start: bool,
}

// LEVEL-1
/// What stands in front of a line.
fn mark_of(level: Level) -> &'static [u8]
    ensures { result.now ≡ mark_of level }
{
    match level {
        Level::Error => b"<3>",
        Level::Warning => b"<4>",
        Level::Notice => b"<5>",
        Level::Info => b"<6>",
    }
}

/// Whether a write is a mark alone.
fn is_mark(text: &[u8]) -> bool {
    text.len() == 3 && text.starts_with(b"<") && text.ends_with(b">")
}

/// A text up to its first line break, which is part of it.
fn first_line(text: &[u8]) -> &[u8]
    ensures { length result.now ≤ length text.now }
{
    match text.iter().position(|byte| *byte == b'\n') {
        Some(at) => &text[..=at],
        None => text,
    }
}

impl<W: Write + Drop> Leveled<W> {
    /// Lines of this level, which have its mark if the writer under it takes them.
    pub fn new(inner: W, level: Level) -> Leveled<W> {
        Leveled {
            inner,
            level,
            has_marks: true,
            is_start: true,
        }
    }

    /// Lines to standard error, errors unless they have a mark of their own. If it is not the journal's, they have none.
    pub fn standard_error(inner: W, is_journal: bool) -> Leveled<W> {
        Leveled {
            inner,
            level: Level::Error,
            has_marks: is_journal,
            is_start: true,
        }
    }

    /// Writes a mark, if lines have marks.
    fn mark(&mut self, mark: &[u8]) -> io::Result<()> {
        self.is_start = false;
        if self.has_marks {
            self.inner.write_all(mark)
        } else {
            Ok(())
        }
    }
}

impl<W: Write + Drop> Write for Leveled<W> {
    fn write(&mut self, text: &[u8]) -> io::Result<usize> {
        if self.is_start && is_mark(text) {
            self.mark(text)?;
            return Ok(text.len());
        }
        if self.is_start {
            self.mark(mark_of(self.level))?;
        }
        let line = first_line(text);
        let written = self.inner.write(line)?;
        self.is_start = written == line.len() && line.ends_with(b"\n");
        Ok(written)
    }

    fn flush(&mut self) -> io::Result<()> {
        self.inner.flush()
    }
}

/// Whether the text is this number.
fn is_number(text: &[u8], number: u64) -> bool
    ensures { result ≡ is_number number (number_below (2 ^ 64) text.now) }
{
    match number_below(text) {
        Some(named) => number == named,
        None => false,
    }
}

/// Whether the text of JOURNAL_STREAM names this device and inode.
fn names_file(text: &str, device: u64, inode: u64) -> bool
    ensures { result ≡ names_file device inode text.now }
{
    match cut(text.as_bytes(), b':') {
        Some((named, rest)) => is_number(named, device) && is_number(rest, inode),
        None => false,
    }
}

// LEVEL-2
/// Whether standard error goes to the journal of systemd (systemd.exec(5), JOURNAL_STREAM).
pub fn is_journal<R: Env + Files + AllocGlobal>(rt: &R) -> bool {
    let Ok(named) = env::var(rt, "JOURNAL_STREAM") else {
        return false;
    };
    match fs::metadata(rt, "/proc/self/fd/2") {
        Ok(file) => names_file(named.as_str(), file.dev(), file.ino()),
        Err(_) => false,
    }
}
