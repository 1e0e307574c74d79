//! The registry of rows.
ghost use Rattle.std.specs.Prelude.{◌≡◌, ◌^◌, ◌+◌, ◌<◌, IsTrue};
ghost use Rattle.rb_registry.specs.Rows.{is_change_left};

use crate::cursor::Cursor;
use crate::fault::RegistryFault;
use crate::listed::ListedRow;
use crate::mapped::MappedRow;
use crate::removal::Removal;
use crate::row::{Row, Which, rank};
use crate::slot::Slot;
use crate::table::Table;
use crate::versions::Version;
use crate::walk::{
    NETIDS, drop_retained, has_key, key_of, least_removal, live_after, live_mapped_after, mark_on,
    row_under,
};
use arrayvec::ArrayVec;
use rb_address::{Netid, Owner};
use rb_xdr::{Meter, NoMemory, Ordered};
use std::alloc::Global;
use std::marker::Model;

/// The most own rows that a registry has.
pub const MOST_OWN_ROWS: usize = 12;

// From this many rows on, live or retained, the index leads to the rows of a version in fewer steps than a walk.
const LONG: usize = 256;

// A table of this many rows would take more than 2^63 bytes.
const TOO_MANY: usize = 1 << 55;

/// The rows in the order in which they were set, the own rows first, and the number of changes that were accepted.
///
/// A removed row is retained until `trim` drops it, so that the rows can be listed as they were after any number of
/// changes from the floor on.
#[derive(Drop)]
pub struct Registry {
    pub(crate) slots: Table,
    /// The keys of the live rows, by rank.
    pub(crate) index: Ordered,
    changes: u64,
    floor: u64,
    held: u64,
    retained: usize,
}

/// Names each field, so that a further one does not compile until it stands here. It belongs in the table of
/// charges of crates/rb_core/README.md first.
fn layout(registry: &Registry) {
    let Registry {
        slots,
        index,
        changes,
        floor,
        held,
        retained,
    } = registry;
    let _: &Table = slots;
    let _: &Ordered = index;
    let _: [u64; 3] = [*changes, *floor, *held];
    let _: usize = *retained;
}

impl Model for Registry {
    ghost use Rattle.rb_registry.specs.Registry.{Registry as Contents};
    ghost use Rattle.rb_registry.specs.Table.{IsTable};

    ghost Value = { Contents };

    ghost view = { λ r. record {
      entries = r.slots.entries;
      limit = r.slots.cap;
      memory = (r.slots.memory, r.index.cap);
      stamp = r.changes;
      floor = r.floor;
      tie = r.slots.tie;
    } };

    ghost invariant = { λ r. IsTable r.changes r.floor r.slots.cap r.held r.retained r.slots.entries r.slots.tie r.index };
}

// Whether one more change has a number.
#[tactic(auto, unfolding(crate::specs::Rows::is_change_left))]
fn is_change_left(changes: u64) -> bool
    ensures left { result ≡ is_change_left changes }
    ensures number { IsTrue result → changes + 1 < 2 ^ 64 }
{
    changes < u64::MAX
}

impl Registry {
    ghost use Rattle.std.specs.Prelude.{◌≡◌, ◌≤◌, ◌<◌, ◌+◌, ◌*◌, ◌∷◌, [], length, IsTrue, Some, None, Ok, Err, IfOk, OnOk, OnErr, IfSome, IfNone, IsErrOf, ◌↔◌, option_copied, nat_le, if◌then◌else◌};
    ghost use Rattle.std.specs.Bool.{OnFalse};
    ghost use Rattle.rb_xdr.specs.Meter.{PaysAtMost};
    ghost use Rattle.rb_xdr.specs.Ordered.{looks};
    ghost use Rattle.rb_registry.specs.declared.row.Row.{Row};
    ghost use Rattle.rb_registry.specs.Rows.{are_distinct, find_exact, find_row, live};
    ghost use Rattle.rb_registry.specs.Rows.Change.{Added, Removed};
    ghost use Rattle.rb_registry.specs.Registry.{rows_of, slots_of, removals_of, retained_count, Reaches, AreOwn, StandsForChanges, SameFrame};
    ghost use Rattle.rb_registry.specs.Table.{takes, floor_raised, StandsForMore, StandsForSame, later_than, IsLeast, PaysFor};
    ghost use Rattle.rb_registry.specs.Removals.{takes_removal};
    ghost use Rattle.rb_registry.specs.Costs.{set_cost, unset_cost};
    ghost use Rattle.rb_registry.specs.Versions.{rows_after, version_cost, next_cost, most_next, IsFoundIn, PassesMore, VersionsAreFew};
    ghost use Rattle.rb_registry.specs.Cursors.{RowsAreLive, StandsIn, PassesOne, IsWithin, IsAtEnd, row_behind, slots_left, GoesOn};
    ghost use Rattle.rb_registry.specs.Slots.{held_in, row_charge};

    /// A registry of these rows, with room for `cap` rows in all, for calls that this meter counts.
    ///
    /// The own rows are of the portmapper's program, so nobody removes them, and no two are of one version and netid.
    /// `BadLimits` if they are more than `cap`, else `NoMemory` if the memory for `cap` rows is refused. It costs
    /// at most 18 steps for each own row.
    pub fn new(
        alloc: Global,
        cap: usize,
        own_rows: ArrayVec<Row, MOST_OWN_ROWS>,
        meter: &mut Meter,
    ) -> Result<Registry, RegistryFault>
        requires own { AreOwn own_rows.items }
        requires distinct { IsTrue (are_distinct own_rows.items) }
        ensures made { IfOk result (λ made. StandsForChanges made own_rows.items []) }
        ensures limit { IfOk result (λ made. made.limit ≡ cap) }
        ensures floor { IfOk result (λ made. made.floor ≡ 0) }
        ensures retained { IfOk result (λ made. removals_of made ≡ []) }
        ensures tie { IfOk result (λ made. made.tie ≡ meter.old.tie) }
        ensures bad { IsErrOf result RegistryFault.BadLimits ↔ (cap < length own_rows.items) }
        ensures cost { OnOk result (PaysAtMost meter.old meter.new (18 * length own_rows.items)) }
        ensures free { OnErr result (meter.new ≡ meter.old) }
    {
        if cap < own_rows.len() {
            return Err(RegistryFault::BadLimits);
        }
        let mut slots = Table::new(alloc, cap, meter)?;
        if cap >= TOO_MANY {
            // Not reached: that much memory is refused.
            return Err(RegistryFault::NoMemory);
        }
        let mut index = Ordered::new(alloc, cap, meter)?;
        let mut held = 0;
        'own: for row in own_rows {
            held += row.charge();
            let rank = row.rank();
            let slot = Slot {
                added: 0,
                removed: None,
                row: ListedRow::new(row),
            };
            let Ok(key) = slots.insert(slot, meter) else {
                unreachable!()
            };
            let Ok(()) = index.insert(rank, key, meter) else {
                unreachable!()
            };
        }
        Ok(Registry {
            slots,
            index,
            changes: 0,
            floor: 0,
            held,
            retained: 0,
        })
    }

    // CHANGE-1
    /// Adds the row at the end and answers true (RFC 1833 section 2.2.1, RPCBPROC_SET), unless a live
    /// row of its program, version and netid is there, the live and the retained rows reach the limit, or
    /// 2^64 - 1 changes were accepted: then nothing changes.
    ///
    /// It checks neither who sets the row nor whether the address fits the netid. It costs two searches in the index, at
    /// most a step for each live row, which may move there, and 2.
    pub fn set(&mut self, row: Row, meter: &mut Meter) -> bool
        requires { meter.old.tie ≡ self.old.tie }
        ensures taken { result ≡ takes self.old row }
        ensures changes { StandsForMore self.old self.new result (Added row) }
        ensures retained { removals_of self.new ≡ removals_of self.old }
        ensures cursors { GoesOn self.old self.new }
        ensures unchanged { OnFalse result (self.new ≡ self.old) }
        ensures floor { self.new.floor ≡ self.old.floor }
        ensures frame { SameFrame self.old self.new }
        ensures cost { PaysAtMost meter.old meter.new (set_cost self.old) }
    {
        if !is_change_left(self.changes) || has_key(&self.index, &row, meter) {
            return false;
        }
        let charge = row.charge();
        let rank = row.rank();
        let slot = Slot {
            added: self.changes + 1,
            removed: None,
            row: ListedRow::new(row),
        };
        match self.slots.insert(slot, meter) {
            Ok(key) => {
                let Ok(()) = self.index.insert(rank, key, meter) else {
                    unreachable!()
                };
                self.changes += 1;
                self.held += charge;
                true
            }
            Err(_) => false,
        }
    }

    // CHANGE-1
    /// Removes the rows of the program's version on these netids that a caller of this owner may
    /// remove (RFC 1833 section 2.2.1, RPCBPROC_UNSET), and answers whether there was one. If
    /// 2^64 - 1 changes were accepted, none is removed. Removed rows are retained until `trim` drops them. It costs as
    /// much as a SET for each netid that is named.
    pub fn unset(
        &mut self,
        prog: u32,
        vers: u32,
        which: Which,
        owner: Owner,
        meter: &mut Meter,
    ) -> bool
        requires { meter.old.tie ≡ self.old.tie }
        ensures taken { result ≡ takes_removal self.old (Removed prog vers which owner) }
        ensures changes { StandsForMore self.old self.new result
            (Removed prog vers which owner) }
        ensures count { length (slots_of self.new) ≡ length (slots_of self.old) }
        ensures cursors { GoesOn self.old self.new }
        ensures unchanged { OnFalse result (self.new ≡ self.old) }
        ensures floor { self.new.floor ≡ self.old.floor }
        ensures frame { SameFrame self.old self.new }
        ensures cost { PaysAtMost meter.old meter.new (unset_cost self.old which) }
    {
        let removal = Removal {
            prog,
            vers,
            which,
            owner,
        };
        if !is_change_left(self.changes) {
            return false;
        }
        let stamp = self.changes;
        let slots = &mut self.slots;
        let index = &mut self.index;
        let mut removed = 0;
        'netids: for netid in NETIDS {
            if mark_on(slots, index, stamp, &removal, netid, meter) {
                removed += 1;
            }
        }
        if removed == 0 {
            return false;
        }
        self.changes += 1;
        self.retained += removed;
        true
    }

    /// The live row of exactly this version, else that of the greatest version that the program has on the netid, or
    /// `None` if it has none there (RFC 1833 sections 2.2.1, RPCBPROC_GETADDR, and 3.2, PMAPPROC_GETPORT). It costs two
    /// searches in the index at most, and 1.
    pub fn find(&self, prog: u32, vers: u32, netid: Netid, meter: &mut Meter) -> Option<&Row>
        requires { meter.old.tie ≡ self.now.tie }
        ensures found { option_copied result ≡ find_row prog vers netid (rows_of self.now) }
        ensures cost { PaysAtMost meter.old meter.new (2 * looks self.now.limit + 1) }
    {
        let key = key_of(&self.index, prog, vers, netid, meter);
        row_under(&self.slots, key, meter)
    }

    /// The live row of exactly this version of the program on the netid, or `None` if there is none (RFC 1833
    /// section 2.2.2, RPCBPROC_GETVERSADDR). It costs a search in the index, and 1.
    pub fn find_exact(&self, prog: u32, vers: u32, netid: Netid, meter: &mut Meter) -> Option<&Row>
        requires { meter.old.tie ≡ self.now.tie }
        ensures found { option_copied result ≡ find_exact prog vers netid (rows_of self.now) }
        ensures cost { PaysAtMost meter.old meter.new (looks self.now.limit + 1) }
    {
        let key = self.index.find(rank(prog, netid, vers), meter);
        row_under(&self.slots, key, meter)
    }

    /// How many live rows there are, the own rows included.
    pub fn len(&self, meter: &mut Meter) -> usize
        requires { meter.old.tie ≡ self.now.tie }
        ensures len { result ≡ length (rows_of self.now) }
        ensures within_limit { result ≤ self.now.limit }
        ensures counted { length (rows_of self.now) + retained_count self.now
            ≡ length (slots_of self.now) }
        ensures few { length (slots_of self.now) ≤ self.now.limit }
        ensures cost { PaysAtMost meter.old meter.new 1 }
    {
        self.slots.len(meter) - self.retained
    }

    /// How many removed rows are retained, for no step.
    pub fn retained(&self) -> usize
        ensures count { result ≡ retained_count self.now }
    {
        self.retained
    }

    /// How many changes were accepted: rows set, and removals of at least one row.
    pub fn stamp(&self) -> u64
        ensures stamp { result ≡ self.now.stamp }
        ensures reached { Reaches self.now result }
    {
        self.changes
    }

    /// How many removed rows are retained, and the number of the earliest change that removed one of them, or 0 if
    /// there is none. It costs at most 2 steps for each row and 1, and nothing if no row is retained.
    pub fn retained_since(&self, meter: &mut Meter) -> (usize, u64)
        requires { meter.old.tie ≡ self.now.tie }
        ensures count { result.0 ≡ retained_count self.now }
        ensures least { IsLeast (removals_of self.now) result.1 }
        ensures cost { PaysAtMost meter.old meter.new (2 * length (slots_of self.now) + 1) }
        ensures free { retained_count self.now ≡ 0 → meter.new ≡ meter.old }
    {
        if self.retained == 0 {
            return (0, 0);
        }
        (self.retained, least_removal(&self.slots, meter))
    }

    // RETAIN-2
    /// Drops the retained rows that were removed by the change of number `oldest` or an earlier one; all of them
    /// if it is `None`. It costs at most 3 steps for each row and 1, and nothing if no row is retained.
    ///
    /// The floor is the least stamp for which rows can be listed. It rises to `oldest`, or to the present stamp if
    /// that is less or `oldest` is `None`, and never falls.
    pub fn trim(&mut self, oldest: Option<u64>, meter: &mut Meter)
        requires { meter.old.tie ≡ self.old.tie }
        ensures dropped { removals_of self.new ≡ later_than oldest (removals_of self.old) }
        ensures fewer { length (slots_of self.new) ≤ length (slots_of self.old) }
        ensures changes { StandsForSame self.old self.new }
        ensures cursors { GoesOn self.old self.new }
        ensures rows { rows_of self.new ≡ rows_of self.old }
        ensures floor { self.new.floor ≡ floor_raised self.old oldest }
        ensures stamp { self.new.stamp ≡ self.old.stamp }
        ensures frame { SameFrame self.old self.new }
        ensures cost { PaysAtMost meter.old meter.new (3 * length (slots_of self.old) + 1) }
        ensures free { retained_count self.old ≡ 0 → meter.new ≡ meter.old }
    {
        let dropped = drop_retained(&mut self.slots, self.retained, oldest, meter);
        self.retained -= dropped.rows;
        self.held -= dropped.bytes;
        let named = oldest.unwrap_or(self.changes).min(self.changes);
        self.floor = self.floor.max(named);
    }

    /// How many bytes are held: those of the address text of each row, live or retained, and 204 for the rest of it.
    pub fn held(&self) -> u64
        ensures held { result ≡ held_in (slots_of self.now) }
        ensures bound { result ≤ (row_charge + 128) * self.now.limit }
    {
        self.held
    }

    /// The row after the cursor, of those that were live after `stamp` changes, and the cursor after it.
    ///
    /// From [`Cursor::start`] on each of these rows comes once, in order, and then `None`, whatever is set and
    /// removed meanwhile, as long as no `trim` raises the floor above `stamp`. `stamp` is at least the floor and at
    /// most [`Registry::stamp`]. It costs at most 2 steps for each row after the cursor, retained ones among them,
    /// and 1. It is inlined, as each row of a list comes by here.
    #[inline(always)]
    pub fn next_row(
        &self,
        stamp: u64,
        cursor: Cursor,
        meter: &mut Meter,
    ) -> Option<(Cursor, &ListedRow)>
        requires tie { meter.old.tie ≡ self.now.tie }
        requires place { StandsIn self.now stamp cursor }
        ensures row { IfSome result (λ next. row_behind self.now stamp cursor ≡ Some next.1.now) }
        ensures place { IfSome result (λ next. StandsIn self.now stamp next.0) }
        ensures passed { IfSome result (λ next. PassesOne self.now stamp cursor next.0) }
        ensures within { IfSome result (λ next. IsWithin self.now stamp next.0) }
        ensures end { IfNone result (IsAtEnd self.now stamp cursor) }
        ensures rows { RowsAreLive self.now stamp }
        ensures cost { PaysAtMost meter.old meter.new (2 * slots_left self.now cursor + 1) }
        ensures cost_row { IfSome result
            (λ n. PaysFor self.now.entries cursor n.0 meter.old meter.new) }
    {
        match live_after(&self.slots, stamp, cursor.key(), meter) {
            Some((key, row)) => Some((Cursor::behind(key), row)),
            None => None,
        }
    }

    /// The same row as a list of version 2 sees it. It is inlined likewise.
    #[inline(always)]
    pub fn next_mapped(
        &self,
        stamp: u64,
        cursor: Cursor,
        meter: &mut Meter,
    ) -> Option<(Cursor, &MappedRow)>
        requires tie { meter.old.tie ≡ self.now.tie }
        requires place { StandsIn self.now stamp cursor }
        ensures row { IfSome result
            (λ next. row_behind self.now stamp cursor ≡ Some next.1.now.row) }
        ensures place { IfSome result (λ next. StandsIn self.now stamp next.0) }
        ensures passed { IfSome result (λ next. PassesOne self.now stamp cursor next.0) }
        ensures within { IfSome result (λ next. IsWithin self.now stamp next.0) }
        ensures end { IfNone result (IsAtEnd self.now stamp cursor) }
        ensures cost { PaysAtMost meter.old meter.new (2 * slots_left self.now cursor + 1) }
        ensures cost_row { IfSome result
            (λ n. PaysFor self.now.entries cursor n.0 meter.old meter.new) }
    {
        match live_mapped_after(&self.slots, stamp, cursor.key(), meter) {
            Some((key, mapped)) => Some((Cursor::behind(key), mapped)),
            None => None,
        }
    }

    // LOOKUP-4
    /// The next live row of the version after the cursor, and the cursor after it: own rows first, and then those that
    /// were set, in the order of the changes that added them.
    ///
    /// A version has five rows at most, one for each netid. From a cursor among the rows as they are now it costs a
    /// walk over the own rows, and 4. It is not inlined: a version has few rows.
    #[inline(never)]
    pub fn next_of(
        &self,
        version: &Version,
        cursor: Cursor,
        meter: &mut Meter,
    ) -> Option<(Cursor, &ListedRow)>
        requires tie { meter.old.tie ≡ self.now.tie }
        requires found { IsFoundIn self.now version.now }
        requires place { StandsIn self.now self.now.stamp cursor }
        ensures row { IfSome result (λ next. rows_after version.now self.now cursor
            ≡ next.1.now ∷ rows_after version.now self.now next.0) }
        ensures place { IfSome result (λ next. StandsIn self.now self.now.stamp next.0) }
        ensures passed { IfSome result (λ next. PassesMore self.now cursor next.0) }
        ensures within { IfSome result (λ next. IsWithin self.now self.now.stamp next.0) }
        ensures end { IfNone result (rows_after version.now self.now cursor ≡ []) }
        ensures cost { PaysAtMost meter.old meter.new next_cost }
    {
        // The place needs what the table is between two calls.
        let _ = &self.slots;
        match self.version_after(version, cursor.key(), meter) {
            Some((key, row)) => Some((Cursor::behind(key), row)),
            None => None,
        }
    }

    // LOOKUP-4
    /// Whether there are so many rows, live or retained, that those of one version are found in fewer steps by the index
    /// than by a walk over all of them. It costs 1 step at most.
    pub fn is_long(&self, meter: &mut Meter) -> bool
        requires { meter.old.tie ≡ self.now.tie }
        ensures long { result ≡ nat_le 256 (length (slots_of self.now)) }
        ensures searched { IsTrue result
            → version_cost self.now + most_next ≤ 2 * length (slots_of self.now) }
        ensures few { VersionsAreFew self.now }
        ensures cost { PaysAtMost meter.old meter.new 1 }
    {
        self.slots.len(meter) >= LONG
    }
}
