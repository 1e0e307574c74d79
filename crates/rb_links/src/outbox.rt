//! Bytes of replies on their way from the core to a socket.
use rb_rpc::LONGEST_FRAGMENT;
use std::alloc::{AllocError, Global};
use std::io::Write;
use std::marker::Model;
use std::{io, mem};

/// The room of a connection's own outbox: a whole reply of 9,000 bytes fits, with the headers of its nine fragments.
pub(crate) const OWN_ROOM: usize = 9 * LONGEST_FRAGMENT;

/// The room of the outbox that goes from one connection to another: a list of 1,000 rows with usual texts fits.
pub const LONG_ROOM: usize = 64 * LONGEST_FRAGMENT;

/// Bytes that the core counts as given, from the first that the socket has not taken. Its room is public, so that the
/// core can be lent what is free of it; whoever changes it keeps its invariant.
#[derive(Drop)]
pub struct Outbox {
    /// All of its room: the bytes of `bytes[sent..end]` are on their way.
    pub bytes: Vec<u8>,
    /// Where those begin.
    pub sent: usize,
    /// Where those end, and what is free begins.
    pub end: usize,
}

impl Model for Outbox {
    ghost use Rattle.std.specs.Prelude.{◌≤◌, ◌-◌, length, take, drop};
    ghost use Rattle.rb_links.specs.Outgoing.{Outgoing};

    ghost Value = { Outgoing };

    ghost view = { λ outbox. record {
      bytes = drop outbox.sent (take outbox.end outbox.bytes.items);
      free = length outbox.bytes.items - outbox.end;
      room = length outbox.bytes.items;
    } };

    ghost invariant = { λ outbox. (outbox.sent ≤ outbox.end) × (outbox.end ≤ length outbox.bytes.items) };
}

impl Outbox {
    ghost use Rattle.std.specs.Prelude.{◌≡◌, ◌==◌, nat_le, length, drop, IfOk, OnErr};
    ghost use Rattle.std.specs.Io.KnownBytes.{WriteAppends};
    ghost use Rattle.rb_links.specs.Outgoing.{nothing_in, longest_fragment};
    ghost use Rattle.rb_links.specs.Stands.{longer_first};

    /// An empty one with this room. It is written to, so that its memory is the process's from here on.
    pub(crate) fn new(alloc: Global, room: usize) -> Result<Outbox, AllocError>
        ensures { IfOk result (λ outbox. outbox ≡ nothing_in room) }
    {
        let mut bytes = Vec::with_capacity(alloc, room)?;
        bytes.resize(room, 0)?;
        Ok(Outbox {
            bytes,
            sent: 0,
            end: 0,
        })
    }

    /// Whether the socket has taken all of it.
    pub fn is_empty(&self) -> bool
        ensures { result ≡ (length self.now.bytes == 0) }
    {
        self.sent == self.end
    }

    /// Whether any fragment fits. If one may not, nothing more is taken over until the socket has taken all, so
    /// that each fragment is taken over whole.
    pub fn has_room(&self) -> bool
        ensures { result ≡ nat_le longest_fragment self.now.free }
    {
        self.bytes.len() - self.end >= LONGEST_FRAGMENT
    }

    /// Drops what is on its way.
    pub(crate) fn clear(&mut self)
        ensures { self.new ≡ nothing_in self.old.room }
    {
        self.sent = 0;
        self.end = 0;
    }

    // OUTBOX-2: The long outbox is for each connection while it is served, unless another's bytes are
    // left in it. It is exchanged only while it and the connection's own outbox are empty.
    /// Swaps the two if both are empty and the other one is longer.
    pub(crate) fn take_longer(&mut self, other: &mut Outbox)
        ensures stays { self.new.bytes ≡ self.old.bytes }
        ensures other { other.new.bytes ≡ other.old.bytes }
        ensures longer { (self.new, other.new) ≡ longer_first self.old other.old }
    {
        if self.is_empty() && other.is_empty() && self.bytes.len() < other.bytes.len() {
            mem::swap(self, other);
        }
    }

    // OUTBOX-1: What the outbox holds goes to the socket in its order, each byte once.
    /// Writes what waits, once.
    pub(crate) fn send<W: Write>(&mut self, writer: &mut W) -> io::Result<usize>
        ensures sent { WriteAppends (W.contents writer.old) (W.contents writer.new)
            result self.old.bytes }
        ensures left { IfOk result (λ n. self.new.bytes ≡ drop n self.old.bytes) }
        ensures kept { OnErr result (self.new ≡ self.old) }
    {
        let n = writer.write(&self.bytes.as_slice()[self.sent..self.end])?;
        self.sent += n;
        if self.sent == self.end {
            self.clear();
        }
        Ok(n)
    }
}
