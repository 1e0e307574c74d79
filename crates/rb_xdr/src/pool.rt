//! A table of fixed capacity whose keys are kept in order of insertion, and whose calls are counted.
ghost use Rattle.std.specs.Prelude.{◌≡◌, ◌<◌, ◌≤◌, ◌+◌, ◌*◌, ◌↔◌, ◌++◌, ◌∷◌, Bool, [], length, IsTrue, IsOk, IsSome, IfOk, IfErr, IfSome, OnErr, option_copied, Some, None};
ghost use Rattle.std.specs.Option.{option_copied_mut};
ghost use Rattle.std.specs.Borrow.{sem};
ghost use Rattle.std.specs.Map.{values_of};
ghost use Rattle.rb_xdr.specs.Meter.{Pays, PaysAtMost};
ghost use Rattle.rb_xdr.specs.Places.{to_come, IsNextEntry, look_cost};
ghost use Rattle.rb_xdr.specs.Search.{IsTestOf, key_of, search_cost};
ghost use Rattle.rb_xdr.specs.Pool.{with_entry, value_at, without, first_key, HasDistinctKeys, SameFrame};

use crate::chain::Chain;
use crate::full::Full;
use crate::memory::NoMemory;
use crate::meter::Meter;
use slab::Slab;
use std::alloc::Global;
use std::marker::Model;
use std::snapshot::Snapshot;

/// A table of at most `cap` values, each under a key of its own, in order of insertion. `new` or `written` takes all
/// of its memory, and no later call changes how much it has. What the values themselves own is not counted in it.
///
/// Each call costs 1 step, but for `entry_after`, `entry_next` and `find_key`, and needs the meter that it was made with.
#[derive(Drop)]
pub struct Pool<T> {
    values: Slab<T>,
    keys: Chain,
    cap: usize,
    made_with: Snapshot<Meter>,
}

impl<T> Model for Pool<T> {
    ghost use Rattle.rb_xdr.specs.Pool.{Pool as Table, pool_code};

    ghost Value = { Table T };

    ghost coded = { pool_code T.code };

    ghost use Rattle.rb_xdr.specs.Slots.{entries_at, IsTable};

    ghost view = { λ p. record {
      entries = entries_at p.values.slots p.keys.order;
      cap = p.cap;
      memory = (p.values.capacity, p.keys.memory);
      tie = p.made_with.value.tie;
    } };

    ghost invariant = { λ p. IsTable p.values.slots p.values.capacity p.keys.order p.keys.room p.cap };
}

impl<T> Pool<T> {
    ghost use Rattle.rb_xdr.specs.PoolLends.{lends_entry, lends_value};

    /// An empty table for at most `cap` values, whose calls this meter counts, or `NoMemory` if an allocation is
    /// refused. It costs nothing.
    pub fn new(alloc: Global, cap: usize, meter: &mut Meter) -> Result<Pool<T>, NoMemory>
    where
        T: Drop,
        ensures empty { IfOk result (λ p. p.entries ≡ []) }
        ensures cap { IfOk result (λ p. p.cap ≡ cap) }
        ensures tie { IfOk result (λ p. p.tie ≡ meter.old.tie) }
        ensures free { meter.new ≡ meter.old }
    {
        Pool::around(alloc, Slab::with_capacity(alloc, cap)?, cap, meter)
    }

    /// As `new`, but each place is written once, with a value that `blank` makes and that is removed again, so that
    /// all pages of the memory are resident from the start. `NoMemory` if an allocation or `blank` is refused
    /// memory.
    pub fn written<F: Fn() -> Result<T, NoMemory>>(
        alloc: Global,
        cap: usize,
        blank: F,
        meter: &mut Meter,
    ) -> Result<Pool<T>, NoMemory>
    where
        T: Drop,
        requires callable { F.IsAlwaysCallable blank }
        ensures empty { IfOk result (λ p. p.entries ≡ []) }
        ensures cap { IfOk result (λ p. p.cap ≡ cap) }
        ensures tie { IfOk result (λ p. p.tie ≡ meter.old.tie) }
        ensures free { meter.new ≡ meter.old }
    {
        let mut values = Slab::with_capacity(alloc, cap)?;
        'blanks: for _i in 0..cap {
            values.insert_reserved(blank()?);
        }
        values.clear();
        Pool::around(alloc, values, cap, meter)
    }

    // The empty table whose values this slab will hold.
    fn around(
        alloc: Global,
        values: Slab<T>,
        cap: usize,
        meter: &mut Meter,
    ) -> Result<Pool<T>, NoMemory>
    where
        T: Drop,
        requires empty { values.slots ≡ [] }
        requires room { cap ≤ values.capacity }
        ensures empty { IfOk result (λ p. p.entries ≡ []) }
        ensures cap { IfOk result (λ p. p.cap ≡ cap) }
        ensures tie { IfOk result (λ p. p.tie ≡ meter.old.tie) }
        ensures free { meter.new ≡ meter.old }
    {
        let keys = Chain::new(alloc, values.capacity())?;
        Ok(Pool {
            values,
            keys,
            cap,
            made_with: Snapshot::of(meter),
        })
    }

    /// Adds a value at the end of the order and returns its key, which was free. `Full`, with the value, if there are
    /// `cap` values. It costs 1 step in both cases.
    pub fn insert(&mut self, value: T, meter: &mut Meter) -> Result<usize, Full<T>>
        requires { meter.old.tie ≡ self.old.tie }
        ensures room { IsOk result ↔ (length self.old.entries < self.old.cap) }
        ensures ok { IfOk result (λ key. self.new ≡ with_entry self.old key value) }
        ensures fresh { IfOk result (λ key. value_at self.old.entries key ≡ None) }
        ensures below { IfOk result (λ key. key < self.old.memory.0) }
        ensures unchanged { OnErr result (self.new ≡ self.old) }
        ensures frame { SameFrame self.old self.new }
        ensures returned { IfErr result (λ full. full.value ≡ value) }
        ensures cost { Pays meter.old meter.new 1 }
    {
        if self.values.len() == self.cap {
            meter.pay(1);
            return Err(Full { value });
        }
        Ok(self.add(value, meter))
    }

    /// Adds a value at the end of the order, for which there is room, and returns its key, which was free, in 1 step.
    pub fn add(&mut self, value: T, meter: &mut Meter) -> usize
        requires tie { meter.old.tie ≡ self.old.tie }
        requires room { length self.old.entries < self.old.cap }
        ensures entry { self.new ≡ with_entry self.old result value }
        ensures fresh { value_at self.old.entries result ≡ None }
        ensures below { result < self.old.memory.0 }
        ensures last { values_of self.new.entries ≡ values_of self.old.entries ++ value ∷ [] }
        ensures more { length self.new.entries ≡ length self.old.entries + 1 }
        ensures distinct { HasDistinctKeys self.new.entries }
        ensures frame { SameFrame self.old self.new }
        ensures cost { Pays meter.old meter.new 1 }
    {
        meter.pay(1);
        let key = self.values.insert_reserved(value);
        self.keys.push(key);
        key
    }

    /// The value under `key`, or `None` if there is none, in 1 step.
    pub fn get(&self, key: usize, meter: &mut Meter) -> Option<&T>
        requires { meter.old.tie ≡ self.now.tie }
        ensures value { option_copied result ≡ value_at self.now.entries key }
        ensures cost { Pays meter.old meter.new 1 }
    {
        meter.pay(1);
        self.values.get(key)
    }

    /// The value under `key`, for writing, or `None` if there is none, in 1 step.
    pub fn get_mut(&mut self, key: usize, meter: &mut Meter) -> Option<&mut T>
        requires { meter.old.tie ≡ self.old.tie }
        ensures* writes_back { sem 𝓛 (lends_entry T.row self.entry key result) }
        ensures value { option_copied_mut result ≡ value_at self.old.entries key }
        ensures cost { Pays meter.old meter.new 1 }
    {
        meter.pay(1);
        if self.holds(key) {
            Some(self.value_mut(key))
        } else {
            None
        }
    }

    fn holds(&self, key: usize) -> bool
        ensures { IsTrue result ↔ IsSome (value_at self.now.entries key) }
    {
        self.values.contains(key)
    }

    fn value_mut(&mut self, key: usize) -> &mut T
        requires { IsSome (value_at self.old.entries key) }
        ensures* writes_back { sem 𝓛 (lends_value T.row self.entry key result) }
        ensures value { value_at self.old.entries key ≡ Some result.now }
    {
        &mut self.values[key]
    }

    fn value(&self, key: usize) -> &T
        requires { IsSome (value_at self.now.entries key) }
        ensures { value_at self.now.entries key ≡ Some result.now }
    {
        &self.values[key]
    }

    /// Removes the value under `key` and returns it, or `None` if there is none, in 1 step. The other keys stay in
    /// their order.
    pub fn remove(&mut self, key: usize, meter: &mut Meter) -> Option<T>
        requires { meter.old.tie ≡ self.old.tie }
        ensures value { result ≡ value_at self.old.entries key }
        ensures entries { self.new ≡ record self.old { entries = without self.old.entries key } }
        ensures cost { Pays meter.old meter.new 1 }
    {
        meter.pay(1);
        let value = self.values.try_remove(key)?;
        self.keys.remove(key);
        Some(value)
    }

    /// The key that was inserted first, of those that are there, or `None` if the table is empty, in 1 step.
    pub fn first(&self, meter: &mut Meter) -> Option<usize>
        requires { meter.old.tie ≡ self.now.tie }
        ensures key { result ≡ first_key self.now.entries }
        ensures distinct { HasDistinctKeys self.now.entries }
        ensures cost { Pays meter.old meter.new 1 }
    {
        meter.pay(1);
        self.keys.first()
    }

    /// The key and the value that follow the key `place` in order of insertion, or the first if `place` is `None`:
    /// 2 steps. `None` if there is no more, or no value under `place`: 1 step.
    pub fn entry_after(&self, place: Option<usize>, meter: &mut Meter) -> Option<(usize, &T)>
        requires { meter.old.tie ≡ self.now.tie }
        ensures next { IsNextEntry self.now.entries place result }
        ensures cost { Pays meter.old meter.new (look_cost result) }
    {
        let next = match place {
            Some(key) if !self.holds(key) => None,
            _ => self.entry_behind(place),
        };
        meter.pay(if next.is_some() { 2 } else { 1 });
        next
    }

    /// The same for a place before all of them or after one that is there, which is not looked for again. It is inlined, as each
    /// row of a list comes by here.
    #[inline(always)]
    pub fn entry_next(&self, place: Option<usize>, meter: &mut Meter) -> Option<(usize, &T)>
        requires tie { meter.old.tie ≡ self.now.tie }
        requires there { IfSome place (λ key. IsSome (value_at self.now.entries key)) }
        ensures next { IsNextEntry self.now.entries place result }
        ensures there { IfSome result (λ next. IsSome (value_at self.now.entries next.0)) }
        ensures cost { Pays meter.old meter.new (look_cost result) }
    {
        let found = self.entry_behind(place);
        meter.pay(if found.is_some() { 2 } else { 1 });
        found
    }

    /// Their key alone, for the same steps. It is inlined likewise.
    #[inline(always)]
    pub fn key_next(&self, place: Option<usize>, meter: &mut Meter) -> Option<usize>
        requires tie { meter.old.tie ≡ self.now.tie }
        requires there { IfSome place (λ key. IsSome (value_at self.now.entries key)) }
        ensures key { result ≡ first_key (to_come self.now.entries place) }
        ensures distinct { HasDistinctKeys self.now.entries }
        ensures cost { Pays meter.old meter.new (look_cost result) }
    {
        let key = self.key_behind(place);
        meter.pay(if key.is_some() { 2 } else { 1 });
        key
    }

    // The same, of which the caller pays.
    fn entry_behind(&self, place: Option<usize>) -> Option<(usize, &T)>
        requires { IfSome place (λ key. IsSome (value_at self.now.entries key)) }
        ensures next { IsNextEntry self.now.entries place result }
        ensures there { IfSome result (λ next. IsSome (value_at self.now.entries next.0)) }
    {
        let key = self.key_behind(place)?;
        Some((key, self.value(key)))
    }

    fn key_behind(&self, place: Option<usize>) -> Option<usize>
        requires { IfSome place (λ key. IsSome (value_at self.now.entries key)) }
        ensures key { result ≡ first_key (to_come self.now.entries place) }
        ensures distinct { HasDistinctKeys self.now.entries }
    {
        match place {
            None => self.keys.first(),
            Some(key) => self.keys.next(key),
        }
    }

    /// The key of the first value, in the order of insertion, that passes the test. It costs 2 steps for
    /// each value that is looked at, and 1 if there is no more.
    pub fn find_key<F: Fn(&T) -> bool>(&self, test: F, meter: &mut Meter) -> Option<usize>
        requires tie { meter.old.tie ≡ self.now.tie }
        requires callable { F.IsAlwaysCallable test }
        ensures key { (p : T → Bool) → IsTestOf F.Fn test p → result ≡ key_of p self.now.entries }
        ensures cost { PaysAtMost meter.old meter.new (2 * length self.now.entries + 1) }
        ensures paid { Pays meter.old meter.new (search_cost self.now.entries result) }
    {
        let mut place = None;
        'entries: while let Some((key, value)) = self.entry_behind(place) {
            meter.pay(2);
            if test(value) {
                return Some(key);
            }
            place = Some(key);
        }
        meter.pay(1);
        None
    }

    /// How many places for values there are. Each key is less.
    pub fn places(&self) -> usize
        ensures { result ≡ self.now.memory.0 }
    {
        self.values.capacity()
    }

    /// How many values there are, in 1 step.
    pub fn len(&self, meter: &mut Meter) -> usize
        requires { meter.old.tie ≡ self.now.tie }
        ensures len { result ≡ length self.now.entries }
        ensures within_cap { result ≤ self.now.cap }
        ensures distinct { HasDistinctKeys self.now.entries }
        ensures cost { Pays meter.old meter.new 1 }
    {
        meter.pay(1);
        self.values.len()
    }
}
