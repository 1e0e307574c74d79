//! The lines of a table that is read in slices.
ghost use Rattle.std.specs.Prelude.{◌≡◌, ◌≤◌, ℕ, List, length, take, drop, replicate, IfOk};

use crate::fields::around;
use crate::sight::{Sight, look_at};
use std::alloc::{AllocError, Global};
use std::io;
use std::io::{ErrorKind, Read};
use std::marker::Model;

/// The most bytes of a table that are read at once, and of one line.
pub const SLICE: usize = 65_536;

/// What was read of a table and not yet looked at: whole lines, and the front of one whose rest is not read yet.
#[derive(Drop)]
pub struct Lines {
    /// All of its room: the bytes of `room[start..end]` were read and not yet looked at.
    room: Vec<u8>,
    start: usize,
    end: usize,
}

impl Model for Lines {
    ghost Value = { List ℕ };

    ghost view = { λ lines. drop lines.start (take lines.end lines.room.items) };

    ghost invariant = { λ lines. (lines.start ≤ lines.end) × (lines.end ≤ length lines.room.items) };
}

impl Lines {
    ghost use Rattle.std.specs.Prelude.{◌≡◌, ℕ, List, [], true, false, length, drop, IfOk, OnOk, OnErr};
    ghost use Rattle.std.specs.Io.KnownBytes.{Consumes, IsAtEnd};
    ghost use Rattle.rb_evidence.specs.Table.{IsWithout, IsCutAt};
    ghost use Rattle.rb_evidence.specs.Walks.{after_line_of_all, IsReadBehind, HasWalked};

    /// Room for a slice, if tables are read. Each byte is written, so that its memory is the process's from here on. An
    /// error if the allocation is refused.
    pub fn new(alloc: Global, are_read: bool) -> Result<Lines, AllocError>
        ensures { IfOk result (λ lines. lines ≡ []) }
    {
        let size = if are_read { SLICE } else { 0 };
        let mut room = Vec::with_capacity(alloc, size)?;
        room.resize(size, 0)?;
        Ok(Lines {
            room,
            start: 0,
            end: 0,
        })
    }

    /// Drops what is left.
    pub fn clear(&mut self)
        ensures { self.new ≡ [] }
    {
        self.start = 0;
        self.end = 0;
    }

    /// Reads once, behind what is left, and says how many bytes came; 0 at the end of the table. An error if that is one
    /// of the reader, and `InvalidData` if what is left is a line that has no more room.
    pub fn read<R: Read>(&mut self, reader: &mut R) -> io::Result<usize>
        ensures read { IfOk result (IsReadBehind self.old self.new) }
        ensures came { OnOk result (Consumes (R.remaining reader.old) (R.remaining reader.new)
            (drop (length self.old) self.new)) }
        ensures end { IfOk result (λ count. count ≡ 0 → IsAtEnd (R.remaining reader.new)) }
        ensures none { OnErr result (self.new ≡ self.old) }
    {
        self.move_to_front();
        let room = &mut self.room.as_mut_slice()[self.end..];
        if room.is_empty() {
            return Err(io::Error::from(ErrorKind::InvalidData));
        }
        let count = reader.read(room)?;
        self.end += count;
        Ok(count)
    }

    /// What is left stands at the front of the room.
    fn move_to_front(&mut self)
        ensures { self.new ≡ self.old }
    {
        self.room.copy_within(self.start..self.end, 0);
        self.end -= self.start;
        self.start = 0;
    }

    /// Looks at each line that is whole, once, for all of the connections that are looked for.
    pub fn look_at_whole(&mut self, sights: &mut [Option<Sight>])
        ensures { HasWalked self.old self.new sights.old sights.new }
    {
        'lines: while self.look_at_next(sights) {}
    }

    /// Looks at the next line, if it is whole, for all of them. Whether it is.
    fn look_at_next(&mut self, sights: &mut [Option<Sight>]) -> bool
        ensures yes { result ≡ true → (line : List ℕ) × IsCutAt 10 line self.new self.old
            × (sights.new ≡ after_line_of_all line sights.old) }
        ensures no { result ≡ false → IsWithout 10 self.old
            × (self.new ≡ self.old) × (sights.new ≡ sights.old) }
    {
        let Some((line, _)) = around(self.left(), b'\n') else {
            return false;
        };
        look_at(sights, line);
        self.start += line.len() + 1;
        true
    }

    /// Looks at the last line, for all of them, if the table has ended: it has no line feed.
    pub fn look_at_last(&self, sights: &mut [Option<Sight>])
        ensures { sights.new ≡ after_line_of_all self.now sights.old }
    {
        look_at(sights, self.left());
    }

    /// What was read and not yet looked at.
    fn left(&self) -> &[u8]
        ensures { result.now ≡ self.now }
    {
        &self.room.as_slice()[self.start..self.end]
    }
}
