//! Numbers in rising order, each with a key, in storage of fixed capacity whose calls are counted.
ghost use Rattle.std.specs.Prelude.{◌≡◌, ◌+◌, ◌<◌, ◌≤◌, ◌↔◌, [], length, is_some, IsOk, IfOk, OnOk, OnErr, None, vec_capacity};
ghost use Rattle.rb_xdr.specs.Meter.{Pays, PaysAtMost};
ghost use Rattle.rb_xdr.specs.Pool.{value_at, without};
ghost use Rattle.rb_xdr.specs.Ordered.{IsRising, count_upto, last_upto, with_more, looks, insert_cost, remove_cost};

use crate::full::Full;
use crate::memory::NoMemory;
use crate::meter::Meter;
use std::alloc::Global;
use std::marker::Model;
use std::snapshot::Snapshot;

/// A table of at most `cap` numbers in rising order, each with a key. `new` takes and writes all of its memory, and no
/// later call changes how much it has.
///
/// Each call needs the meter that the table was made with, and searches by halves, a step for each look: of these there
/// are at most k + 1 among at most 2^k numbers.
#[derive(Drop)]
pub struct Ordered {
    entries: Vec<(u128, usize)>,
    made_with: Snapshot<Meter>,
}

impl Model for Ordered {
    ghost use Rattle.std.specs.Prelude.{vec_capacity};
    ghost use Rattle.rb_xdr.specs.Ordered.{Ordered as Table, IsRising};

    ghost Value = { Table };

    ghost view = { λ o. record {
      entries = o.entries.items;
      cap = vec_capacity o.entries;
      tie = o.made_with.value.tie;
    } };

    ghost invariant = { λ o. IsRising o.entries.items };
}

/// No numbers, in memory for just this many, of which each place was written.
fn written(alloc: Global, cap: usize) -> Result<Vec<(u128, usize)>, NoMemory>
    ensures empty { IfOk result (λ entries. entries.items ≡ []) }
    ensures capacity { IfOk result (λ entries. vec_capacity entries ≡ cap) }
{
    let mut entries = Vec::with_capacity(alloc, cap)?;
    'blanks: for _i in 0..cap {
        entries.push_reserved((0, 0));
    }
    entries.clear();
    Ok(entries)
}

impl Ordered {
    /// An empty table for at most `cap` numbers, whose calls this meter counts, or `NoMemory` if the allocation is
    /// refused. It costs nothing.
    pub fn new(alloc: Global, cap: usize, meter: &mut Meter) -> Result<Ordered, NoMemory>
        ensures empty { IfOk result (λ o. o.entries ≡ []) }
        ensures cap { IfOk result (λ o. o.cap ≡ cap) }
        ensures tie { IfOk result (λ o. o.tie ≡ meter.old.tie) }
        ensures free { meter.new ≡ meter.old }
    {
        Ok(Ordered {
            entries: written(alloc, cap)?,
            made_with: Snapshot::of(meter),
        })
    }

    /// How many numbers are at most this one: a search by halves.
    fn place(&self, number: u128, meter: &mut Meter) -> usize
        ensures count { result ≡ count_upto number self.now.entries }
        ensures within { result ≤ length self.now.entries }
        ensures cost { Pays meter.old meter.new (looks (length self.now.entries)) }
    {
        let mut size = self.entries.len();
        if size == 0 {
            return 0;
        }
        let mut base = 0;
        let mut looks = 1;
        'halves: while size > 1 {
            looks += 1;
            let half = size / 2;
            let middle = base + half;
            if self.entries[middle].0 <= number {
                base = middle;
            }
            size -= half;
        }
        meter.pay(looks);
        if self.entries[base].0 <= number {
            base + 1
        } else {
            base
        }
    }

    /// The greatest number that is at most this one, with its key, or `None` if each is greater. A search.
    pub fn last_upto(&self, number: u128, meter: &mut Meter) -> Option<(u128, usize)>
        requires { meter.old.tie ≡ self.now.tie }
        ensures last { result ≡ last_upto number self.now.entries }
        ensures rising { IsRising self.now.entries }
        ensures cost { Pays meter.old meter.new (looks (length self.now.entries)) }
    {
        let entries = &self.entries;
        let place = self.place(number, meter);
        if place == 0 {
            return None;
        }
        Some(entries[place - 1])
    }

    /// The key of this number, or `None` if it isn't there. A search.
    pub fn find(&self, number: u128, meter: &mut Meter) -> Option<usize>
        requires { meter.old.tie ≡ self.now.tie }
        ensures key { result ≡ value_at self.now.entries number }
        ensures rising { IsRising self.now.entries }
        ensures cost { Pays meter.old meter.new (looks (length self.now.entries)) }
    {
        match self.last_upto(number, meter) {
            Some((last, key)) if last == number => Some(key),
            _ => None,
        }
    }

    /// The same of a number that likely stands at this place among them, as one does that follows the last that was found: a
    /// step, and a search if it is not there. The place is then the one behind it.
    pub fn find_at(&self, number: u128, place: &mut usize, meter: &mut Meter) -> Option<usize>
        requires { meter.old.tie ≡ self.now.tie }
        ensures key { result ≡ value_at self.now.entries number }
        ensures rising { IsRising self.now.entries }
        ensures cost { PaysAtMost meter.old meter.new (looks (length self.now.entries) + 1) }
    {
        meter.pay(1);
        if let Some(&(there, key)) = self.entries.get(*place) {
            if there == number {
                *place += 1;
                return Some(key);
            }
        }
        *place = self.place(number, meter);
        if *place == 0 {
            return None;
        }
        let (last, key) = self.entries[*place - 1];
        if last == number { Some(key) } else { None }
    }

    /// Adds a number that isn't there, with its key, or `Full` if there are `cap` numbers. It costs a search, a step
    /// for each greater number, and 1, in both cases.
    pub fn insert(&mut self, number: u128, key: usize, meter: &mut Meter) -> Result<(), Full>
        requires tie { meter.old.tie ≡ self.old.tie }
        requires absent { value_at self.old.entries number ≡ None }
        ensures room { IsOk result ↔ (length self.old.entries < self.old.cap) }
        ensures ok { OnOk result (self.new ≡ with_more self.old number key) }
        ensures unchanged { OnErr result (self.new ≡ self.old) }
        ensures cost { Pays meter.old meter.new (insert_cost number self.old.entries) }
    {
        let place = self.place(number, meter);
        meter.pay((self.entries.len() - place) as u64);
        meter.pay(1);
        if self.entries.len() == self.entries.capacity() {
            return Err(Full { value: () });
        }
        let Ok(()) = self.entries.insert(place, (number, key)) else {
            unreachable!()
        };
        Ok(())
    }

    /// Removes a number and returns its key, or `None` if it isn't there. It costs a search and, if it is there, a
    /// step for each greater number and 1.
    pub fn remove(&mut self, number: u128, meter: &mut Meter) -> Option<usize>
        requires { meter.old.tie ≡ self.old.tie }
        ensures key { result ≡ value_at self.old.entries number }
        ensures entries { self.new ≡ record self.old { entries = without self.old.entries number } }
        ensures cost { Pays meter.old meter.new
            (remove_cost number self.old.entries (is_some result)) }
    {
        let place = self.place(number, meter);
        if place == 0 {
            return None;
        }
        let (last, key) = self.entries[place - 1];
        if last != number {
            return None;
        }
        meter.pay((self.entries.len() - place) as u64);
        meter.pay(1);
        self.entries.remove(place - 1);
        Some(key)
    }
}
