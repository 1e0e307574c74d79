//! Bytes that were read from a socket and not yet taken by the core.
ghost use Rattle.std.specs.Prelude.{◌≤◌, ℕ, List, length, take, drop};

use std::io;
use std::io::Read;
use std::marker::Model;

/// How many bytes of a connection are read ahead of the core.
pub const READ_AHEAD: usize = 1024;

/// Bytes that were read, from the first that was not taken.
#[derive(Drop)]
pub struct Inbox {
    /// All of its room: the bytes of `bytes[start..end]` were read and not yet taken.
    bytes: [u8; READ_AHEAD],
    start: usize,
    end: usize,
}

impl Model for Inbox {
    ghost Value = { List ℕ };

    ghost view = { λ inbox. drop inbox.start (take inbox.end inbox.bytes) };

    ghost invariant = { λ inbox. (inbox.start ≤ inbox.end) × (inbox.end ≤ length inbox.bytes) };
}

impl Inbox {
    ghost use Rattle.std.specs.Prelude.{◌≡◌, ◌≤◌, ◌==◌, ◌-◌, [], length, drop, IfOk, OnOk, OnErr};
    ghost use Rattle.std.specs.Io.KnownBytes.{Consumes, Keeps};
    ghost use Rattle.rb_evidence.specs.Walks.{IsReadBehind};
    ghost use Rattle.rb_links.specs.Outgoing.{read_ahead};

    /// An empty one.
    pub(crate) fn new() -> Inbox
        ensures { result ≡ [] }
    {
        Inbox {
            bytes: [0; READ_AHEAD],
            start: 0,
            end: 0,
        }
    }

    /// Whether all that was read was taken.
    pub fn is_empty(&self) -> bool
        ensures { result ≡ (length self.now == 0) }
    {
        self.start == self.end
    }

    /// How many bytes are left to be taken.
    pub(crate) fn len(&self) -> usize
        ensures { result ≡ length self.now }
    {
        self.end - self.start
    }

    /// The bytes that are left to be taken.
    pub fn bytes(&self) -> &[u8]
        ensures { result.now ≡ self.now }
    {
        &self.bytes[self.start..self.end]
    }

    // INBOX-1: Bytes that were read from a connection and that the core did not take are handed in
    // again, unless it is closed, and no others.
    /// The first this many of them were taken.
    pub(crate) fn take(&mut self, count: usize)
        requires { count ≤ length self.old }
        ensures { self.new ≡ drop count self.old }
    {
        self.start += count;
    }

    /// Drops what is left.
    pub(crate) fn clear(&mut self)
        ensures { self.new ≡ [] }
    {
        self.start = 0;
        self.end = 0;
    }

    /// How many bytes there is room for, behind those that are left.
    pub(crate) fn room(&self) -> usize
        ensures { result ≡ read_ahead - length self.now }
    {
        READ_AHEAD - (self.end - self.start)
    }

    // INBOX-2: What an inbox has is what was read, each byte once, in order.
    /// Reads once, behind what is left.
    pub(crate) fn read<R: Read>(&mut self, reader: &mut R) -> io::Result<usize>
        ensures came { OnOk result (Consumes (R.remaining reader.old) (R.remaining reader.new)
            (drop (length self.old) self.new)) }
        ensures stays { OnErr result (Keeps (R.remaining reader.old) (R.remaining reader.new)) }
        ensures read { IfOk result (IsReadBehind self.old self.new) }
        ensures few { length self.new ≤ read_ahead }
        ensures none { OnErr result (self.new ≡ self.old) }
    {
        self.move_to_front();
        let n = reader.read(&mut self.bytes[self.end..])?;
        self.end += n;
        Ok(n)
    }

    /// What is left stands at the front of the room.
    fn move_to_front(&mut self)
        ensures { self.new ≡ self.old }
    {
        self.bytes.copy_within(self.start..self.end, 0);
        self.end -= self.start;
        self.start = 0;
    }
}
