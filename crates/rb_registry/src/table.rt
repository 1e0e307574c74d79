//! The rows with their changes, and beside them what a list of version 2 sees of each.
ghost use Rattle.std.specs.Prelude.{◌≡◌, IfOk, vec_len};

use crate::mapped::MappedRow;
use crate::slot::Slot;
use rb_xdr::{Full, Meter, NoMemory, Pool};
use std::alloc::Global;
use std::marker::Model;

/// The rows in a [`Pool`], whose contracts the calls of this table have, and by the keys of that pool their mappings.
#[derive(Drop)]
pub(crate) struct Table {
    slots: Pool<Slot>,
    mapped: Vec<MappedRow>,
}

impl Model for Table {
    ghost use Rattle.std.specs.Prelude.{◌≤◌, length};
    ghost use Rattle.rb_xdr.specs.Pool.{Pool as Rows};
    ghost use Rattle.rb_registry.specs.declared.slot.Slot.{Slot as Plain};
    ghost use Rattle.rb_registry.specs.Table.{AreMapped};

    ghost Value = { Rows Plain };

    ghost view = { λ table. table.slots };

    ghost invariant = { λ table.
        AreMapped table.slots.entries table.mapped.items
        × (table.slots.memory.0 ≤ length table.mapped.items) };
}

/// Names each field, so that a further one does not compile until it stands here. It belongs in the table of
/// charges of crates/rb_core/README.md first.
fn layout(table: &Table) {
    let Table { slots, mapped } = table;
    let _: &Pool<Slot> = slots;
    let _: &Vec<MappedRow> = mapped;
}

/// So many mappings, of no row.
fn blanks(alloc: Global, count: usize) -> Result<Vec<MappedRow>, NoMemory>
    ensures { IfOk result (λ made. vec_len made ≡ count) }
{
    let mut made = Vec::with_capacity(alloc, count)?;
    'blanks: for _i in 0..count {
        made.push_reserved(MappedRow::of(&Slot::blank()));
    }
    Ok(made)
}

impl Table {
    ghost use Rattle.std.specs.Prelude.{◌≡◌, ◌+◌, ◌<◌, ◌≤◌, ◌^◌, ◌↔◌, [], length, IsOk, IsSome, IfOk, IfSome, OnErr, Some, None, option_copied};
    ghost use Rattle.rb_xdr.specs.Meter.{Pays};
    ghost use Rattle.rb_xdr.specs.Pool.{with_entry, with_value, value_at, without, HasDistinctKeys, SameFrame};
    ghost use Rattle.rb_xdr.specs.Places.{IsNextEntry, look_cost};
    ghost use Rattle.rb_registry.specs.declared.slot.Slot.{Slot as Plain};

    /// An empty table for at most `cap` rows, all of whose memory is written. `NoMemory` if it is refused.
    pub(crate) fn new(alloc: Global, cap: usize, meter: &mut Meter) -> Result<Table, NoMemory>
        ensures empty { IfOk result (λ t. t.entries ≡ []) }
        ensures cap { IfOk result (λ t. t.cap ≡ cap) }
        ensures tie { IfOk result (λ t. t.tie ≡ meter.old.tie) }
        ensures free { meter.new ≡ meter.old }
    {
        let slots = Pool::written(alloc, cap, || Ok(Slot::blank()), meter)?;
        let mapped = blanks(alloc, slots.places())?;
        Ok(Table { slots, mapped })
    }

    /// Adds a row that is not removed, as [`Pool::insert`] does.
    pub(crate) fn insert(&mut self, slot: Slot, meter: &mut Meter) -> Result<usize, Full<Slot>>
        requires tie { meter.old.tie ≡ self.old.tie }
        requires stays { slot.removed ≡ None }
        ensures room { IsOk result ↔ (length self.old.entries < self.old.cap) }
        ensures ok { IfOk result (λ key. self.new ≡ with_entry self.old key slot) }
        ensures fresh { IfOk result (λ key. value_at self.old.entries key ≡ None) }
        ensures unchanged { OnErr result (self.new ≡ self.old) }
        ensures frame { SameFrame self.old self.new }
        ensures cost { Pays meter.old meter.new 1 }
    {
        let mapped = MappedRow::of(&slot);
        let key = self.slots.insert(slot, meter)?;
        self.mapped[key] = mapped;
        Ok(key)
    }

    /// The row under this key is removed by the next change after this many. It costs 1 step.
    pub(crate) fn mark(&mut self, key: usize, stamp: u64, meter: &mut Meter)
        requires tie { meter.old.tie ≡ self.old.tie }
        requires number { stamp + 1 < 2 ^ 64 }
        requires distinct { HasDistinctKeys self.old.entries }
        requires there { IsSome (value_at self.old.entries key) }
        ensures marked { (slot : Plain) → value_at self.old.entries key ≡ Some slot
            → self.new ≡ record self.old {
              entries = with_value self.old.entries key
                  (record slot { removed = Some (stamp + 1) });
            } }
        ensures cost { Pays meter.old meter.new 1 }
    {
        let Some(slot) = self.slots.get_mut(key, meter) else {
            unreachable!()
        };
        slot.removed = Some(stamp + 1);
        self.mapped[key].end(stamp, slot);
    }

    /// [`Pool::remove`].
    pub(crate) fn remove(&mut self, key: usize, meter: &mut Meter) -> Option<Slot>
        requires tie { meter.old.tie ≡ self.old.tie }
        requires distinct { HasDistinctKeys self.old.entries }
        ensures entries { self.new ≡ record self.old { entries = without self.old.entries key } }
        ensures cost { Pays meter.old meter.new 1 }
    {
        self.slots.remove(key, meter)
    }

    /// [`Pool::get`].
    pub(crate) fn get(&self, key: usize, meter: &mut Meter) -> Option<&Slot>
        requires { meter.old.tie ≡ self.now.tie }
        ensures value { option_copied result ≡ value_at self.now.entries key }
        ensures cost { Pays meter.old meter.new 1 }
    {
        self.slots.get(key, meter)
    }

    /// [`Pool::len`].
    pub(crate) fn len(&self, meter: &mut Meter) -> usize
        requires { meter.old.tie ≡ self.now.tie }
        ensures len { result ≡ length self.now.entries }
        ensures within_cap { result ≤ self.now.cap }
        ensures distinct { HasDistinctKeys self.now.entries }
        ensures cost { Pays meter.old meter.new 1 }
    {
        self.slots.len(meter)
    }

    /// [`Pool::entry_after`].
    pub(crate) fn entry_after(
        &self,
        place: Option<usize>,
        meter: &mut Meter,
    ) -> Option<(usize, &Slot)>
        requires { meter.old.tie ≡ self.now.tie }
        ensures next { IsNextEntry self.now.entries place result }
        ensures cost { Pays meter.old meter.new (look_cost result) }
    {
        self.slots.entry_after(place, meter)
    }

    /// [`Pool::entry_next`].
    #[inline(always)]
    pub(crate) fn entry_next(
        &self,
        place: Option<usize>,
        meter: &mut Meter,
    ) -> Option<(usize, &Slot)>
        requires tie { meter.old.tie ≡ self.now.tie }
        requires there { IfSome place (λ key. IsSome (value_at self.now.entries key)) }
        ensures next { IsNextEntry self.now.entries place result }
        ensures there { IfSome result (λ next. IsSome (value_at self.now.entries next.0)) }
        ensures cost { Pays meter.old meter.new (look_cost result) }
    {
        self.slots.entry_next(place, meter)
    }

    /// What a list of version 2 sees of the row that follows a place that is there, and its key, for the steps of
    /// [`Pool::entry_next`].
    #[inline(always)]
    pub(crate) fn mapped_next(
        &self,
        place: Option<usize>,
        meter: &mut Meter,
    ) -> Option<(usize, &MappedRow)>
        requires tie { meter.old.tie ≡ self.now.tie }
        requires there { IfSome place (λ key. IsSome (value_at self.now.entries key)) }
        ensures next { IsNextEntry self.now.entries place result }
        ensures there { IfSome result (λ next. IsSome (value_at self.now.entries next.0)) }
        ensures cost { Pays meter.old meter.new (look_cost result) }
    {
        let key = self.slots.key_next(place, meter)?;
        Some((key, &self.mapped[key]))
    }
}
