//! A byte buffer of fixed capacity, whose calls are counted.
ghost use Rattle.std.specs.Prelude.{◌≡◌, ◌+◌, ◌-◌, ◌<◌, ◌≤◌, [], ◌∷◌, length, take, IfOk, slice_range, vec_len, vec_capacity};
ghost use Rattle.rb_xdr.specs.Puts.{Puts, Appends, HasRoom};
ghost use Rattle.rb_xdr.specs.Meter.{Pays};

use crate::full::Full;
use crate::memory::NoMemory;
use crate::meter::Meter;
use std::alloc::Global;
use std::marker::Model;
use std::ops::Range;
use std::snapshot::Snapshot;

/// How many bytes are copied at once of those that are no more and may be followed by others.
const BLOCK: usize = 64;

/// A buffer of at most `cap` bytes. `new` takes and writes all of its memory, and no later call changes how much it
/// has.
///
/// Each call adds its cost in steps to the meter, which has to be the one that the buffer was made with.
#[derive(Drop)]
pub struct Kept {
    /// All of the memory, of which the first `len` bytes count.
    memory: Vec<u8>,
    len: usize,
    made_with: Snapshot<Meter>,
}

impl Model for Kept {
    ghost use Rattle.std.specs.Prelude.{take, vec_capacity};
    ghost use Rattle.rb_xdr.specs.Kept.{Kept as Buffer, IsKept};

    ghost Value = { Buffer };

    ghost view = { λ k. record {
      bytes = take k.len k.memory.items;
      cap = vec_capacity k.memory;
      tie = k.made_with.value.tie;
    } };

    ghost invariant = { λ k. IsKept k.memory.items (vec_capacity k.memory) k.len };
}

/// A number of zeros, in memory for just these.
fn zeros(alloc: Global, len: usize) -> Result<Vec<u8>, NoMemory>
    ensures len { IfOk result (λ memory. vec_len memory ≡ len) }
    ensures capacity { IfOk result (λ memory. vec_capacity memory ≡ len) }
{
    let mut memory = Vec::with_capacity(alloc, len)?;
    'zeros: for _i in 0..len {
        memory.push_reserved(0);
    }
    Ok(memory)
}

impl Kept {
    /// An empty buffer for at most `cap` bytes, whose calls this meter counts, or `NoMemory` if the allocation is
    /// refused. It costs nothing.
    pub fn new(alloc: Global, cap: usize, meter: &mut Meter) -> Result<Kept, NoMemory>
        ensures empty { IfOk result (λ k. k.bytes ≡ []) }
        ensures cap { IfOk result (λ k. k.cap ≡ cap) }
        ensures tie { IfOk result (λ k. k.tie ≡ meter.old.tie) }
        ensures free { meter.new ≡ meter.old }
    {
        Ok(Kept {
            memory: zeros(alloc, cap)?,
            len: 0,
            made_with: Snapshot::of(meter),
        })
    }

    /// Adds a byte at the end, or nothing: `Full` if there are `cap` bytes. It costs 1 step in both cases.
    pub fn push(&mut self, byte: u8, meter: &mut Meter) -> Result<(), Full>
        requires { meter.old.tie ≡ self.old.tie }
        ensures puts { Puts (byte ∷ []) self.old.cap self.old self.new result }
        ensures cost { Pays meter.old meter.new 1 }
    {
        meter.pay(1);
        if self.len == self.memory.len() {
            return Err(Full { value: () });
        }
        self.memory[self.len] = byte;
        self.len += 1;
        Ok(())
    }

    /// Adds these bytes at the end, or none of them: `Full` if they do not fit. It costs a step for each byte, in
    /// both cases.
    pub fn extend(&mut self, bytes: &[u8], meter: &mut Meter) -> Result<(), Full>
        requires { meter.old.tie ≡ self.old.tie }
        ensures puts { Puts bytes.now self.old.cap self.old self.new result }
        ensures cost { Pays meter.old meter.new (length bytes.now) }
    {
        meter.pay(bytes.len() as u64);
        if self.memory.len() - self.len < bytes.len() {
            return Err(Full { value: () });
        }
        self.append(bytes);
        Ok(())
    }

    /// Adds the first `len` of these bytes at the end, or none of them: `Full` if they do not fit. It costs `len` steps in
    /// both cases. It is inlined, as each row of a list comes by here.
    #[inline(always)]
    pub fn extend_front(&mut self, bytes: &[u8], len: usize, meter: &mut Meter) -> Result<(), Full>
        requires tie { meter.old.tie ≡ self.old.tie }
        requires len { len ≤ length bytes.now }
        ensures puts { Puts (take len bytes.now) self.old.cap self.old self.new result }
        ensures cost { Pays meter.old meter.new len }
    {
        meter.pay(len as u64);
        let room = self.memory.len() - self.len;
        if room < len {
            return Err(Full { value: () });
        }
        if len <= BLOCK && BLOCK <= bytes.len() && BLOCK <= room {
            self.append_block(bytes, len);
        } else {
            self.append(&bytes[..len]);
        }
        Ok(())
    }

    /// Adds the first `len` of these bytes at the end, where a block has room. A whole block is copied, which takes fewer
    /// instructions than to copy just these.
    #[inline(always)]
    fn append_block(&mut self, bytes: &[u8], len: usize)
        requires len { len ≤ BLOCK }
        requires block { BLOCK ≤ length bytes.now }
        requires room { length self.old.bytes + BLOCK ≤ self.old.cap }
        ensures { Appends (take len bytes.now) self.old self.new }
    {
        let end = self.len + len;
        self.append(&bytes[..BLOCK]);
        self.truncate(end);
    }

    /// Removes the bytes after the first `len`.
    fn truncate(&mut self, len: usize)
        requires { len ≤ length self.old.bytes }
        ensures { self.new ≡ record self.old { bytes = take len self.old.bytes } }
    {
        self.len = len;
    }

    /// Adds these bytes at the end, which have room there. Their steps are for the caller to pay.
    pub(crate) fn append(&mut self, bytes: &[u8])
        requires { HasRoom bytes.now self.old }
        ensures { Appends bytes.now self.old self.new }
    {
        let end = self.len + bytes.len();
        self.memory[self.len..end].copy_from_slice(bytes);
        self.len = end;
    }

    /// The bytes from `range.start` up to, and without, `range.end`, which is at most the number of bytes. A step for
    /// each.
    pub fn lend(&self, range: Range<usize>, meter: &mut Meter) -> &[u8]
        requires tie { meter.old.tie ≡ self.now.tie }
        requires start { range.start ≤ range.end }
        requires end { range.end ≤ length self.now.bytes }
        ensures bytes { result.now ≡ slice_range self.now.bytes range.start range.end }
        ensures cost { Pays meter.old meter.new (range.end - range.start) }
    {
        meter.pay((range.end - range.start) as u64);
        &self.memory[range.start..range.end]
    }

    /// How many bytes there are, in 1 step.
    pub fn len(&self, meter: &mut Meter) -> usize
        requires { meter.old.tie ≡ self.now.tie }
        ensures len { result ≡ length self.now.bytes }
        ensures within { result ≤ self.now.cap }
        ensures cost { Pays meter.old meter.new 1 }
    {
        meter.pay(1);
        self.len
    }

    /// How many more bytes there may be, in 1 step.
    pub fn room(&self, meter: &mut Meter) -> usize
        requires { meter.old.tie ≡ self.now.tie }
        ensures room { result + length self.now.bytes ≡ self.now.cap }
        ensures cost { Pays meter.old meter.new 1 }
    {
        meter.pay(1);
        self.memory.len() - self.len
    }

    /// Removes every byte, in 1 step.
    pub fn clear(&mut self, meter: &mut Meter)
        requires { meter.old.tie ≡ self.old.tie }
        ensures empty { self.new ≡ record self.old { bytes = [] } }
        ensures cost { Pays meter.old meter.new 1 }
    {
        meter.pay(1);
        self.len = 0;
    }
}
