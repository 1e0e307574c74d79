//! Walks over the rows, live and retained, in their order.
ghost use Rattle.std.specs.Prelude.{◌≡◌, ◌+◌, ◌*◌, ◌^◌, ◌<◌, length, is_some, if◌then◌else◌, IfSome, IsSome, Some, option_copied};
ghost use Rattle.rb_xdr.specs.Meter.{Pays, PaysAtMost};
ghost use Rattle.rb_xdr.specs.Pool.{value_at, HasDistinctKeys};
ghost use Rattle.rb_xdr.specs.Ordered.{IsRising, looks};
ghost use Rattle.rb_registry.specs.Removals.{change_of};
ghost use Rattle.rb_registry.specs.Registry.{removals};
ghost use Rattle.rb_registry.specs.Index.{rank_of, row_under, IsIndexed, IsSameBut, newest_key, found_key, with_marks_on};
ghost use Rattle.rb_registry.specs.Costs.{mark_cost_on};
ghost use Rattle.rb_registry.specs.Table.{entries_left, count_retained, count_held, lesser_of, least_of, IsNextLive, IsNextMapped, count_left, PaysFor};

use crate::listed::ListedRow;
use crate::mapped::MappedRow;
use crate::removal::Removal;
use crate::row::{Row, rank};
use crate::table::Table;
use rb_address::Netid;
use rb_xdr::{Meter, Ordered};

/// The row under a key that was found in the index.
pub(crate) fn row_under<'a>(
    slots: &'a Table,
    key: Option<usize>,
    meter: &mut Meter,
) -> Option<&'a Row>
    requires { meter.old.tie ≡ slots.now.tie }
    ensures row { option_copied result ≡ row_under slots.now.entries key }
    ensures cost { PaysAtMost meter.old meter.new 1 }
{
    let slot = slots.get(key?, meter)?;
    Some(slot.row.as_row())
}

/// The key of exactly this version, else that of the greatest version of the program on that netid.
pub(crate) fn key_of(
    index: &Ordered,
    prog: u32,
    vers: u32,
    netid: Netid,
    meter: &mut Meter,
) -> Option<usize>
    requires { meter.old.tie ≡ index.now.tie }
    ensures key { result ≡ found_key prog vers netid index.now.entries }
    ensures rising { IsRising index.now.entries }
    ensures cost { PaysAtMost meter.old meter.new (2 * looks (length index.now.entries)) }
{
    match index.find(rank(prog, netid, vers), meter) {
        Some(key) => Some(key),
        None => newest(index, prog, netid, meter),
    }
}

/// The key of the greatest version of the program on that netid.
fn newest(index: &Ordered, prog: u32, netid: Netid, meter: &mut Meter) -> Option<usize>
    requires { meter.old.tie ≡ index.now.tie }
    ensures key { result ≡ newest_key prog netid index.now.entries }
    ensures cost { Pays meter.old meter.new (looks (length index.now.entries)) }
{
    let least = rank(prog, netid, 0);
    match index.last_upto(rank(prog, netid, u32::MAX), meter) {
        Some((last, key)) if least <= last => Some(key),
        _ => None,
    }
}

/// Whether there is a live row of the same program, version and netid.
pub(crate) fn has_key(index: &Ordered, row: &Row, meter: &mut Meter) -> bool
    requires { meter.old.tie ≡ index.now.tie }
    ensures found { result ≡ is_some (value_at index.now.entries (rank_of row.now)) }
    ensures vers { row.now.vers < 2 ^ 32 }
    ensures cost { Pays meter.old meter.new (looks (length index.now.entries)) }
{
    index.find(row.rank(), meter).is_some()
}

pub(crate) const NETIDS: [Netid; 5] = [
    Netid::Tcp,
    Netid::Udp,
    Netid::Tcp6,
    Netid::Udp6,
    Netid::Local,
];

/// Marks the live row on this netid, of which there is one at most, as removed by the next change if the removal covers
/// it, takes it out of the index, and says whether it was there.
pub(crate) fn mark_on(
    slots: &mut Table,
    index: &mut Ordered,
    stamp: u64,
    removal: &Removal,
    netid: Netid,
    meter: &mut Meter,
) -> bool
    requires tie { meter.old.tie ≡ slots.old.tie }
    requires index_tie { meter.old.tie ≡ index.old.tie }
    requires number { stamp + 1 < 2 ^ 64 }
    requires distinct { HasDistinctKeys slots.old.entries }
    requires indexed { IsIndexed slots.old.entries index.old.entries }
    ensures marks { slots.new ≡ with_marks_on netid stamp (change_of removal.now) slots.old }
    ensures distinct { HasDistinctKeys slots.new.entries }
    ensures indexed { IsIndexed slots.new.entries index.new.entries }
    ensures removed { (if result then 1 else 0) + length index.new.entries
        ≡ length index.old.entries }
    ensures index { IsSameBut index.old index.new }
    ensures cost { PaysAtMost meter.old meter.new (mark_cost_on netid removal.now index.old) }
{
    if !removal.which.includes(netid) {
        return false;
    }
    let rank = rank(removal.prog, netid, removal.vers);
    let Some(key) = index.find(rank, meter) else {
        return false;
    };
    let Some(slot) = slots.get(key, meter) else {
        unreachable!()
    };
    if !removal.covers(slot.row.as_row()) {
        return false;
    }
    slots.mark(key, stamp, meter);
    index.remove(rank, meter);
    true
}

/// How many rows were taken out, and how many bytes they held.
#[derive(Drop)]
pub(crate) struct Dropped {
    pub(crate) rows: usize,
    pub(crate) bytes: u64,
}

/// Drops the rows that were removed by the change of number `oldest` or an earlier one, or all removed rows if it
/// is `None`. `retained` is how many removed rows there are; if it is 0, no row is looked at.
pub(crate) fn drop_retained(
    slots: &mut Table,
    retained: usize,
    oldest: Option<u64>,
    meter: &mut Meter,
) -> Dropped
    requires tie { meter.old.tie ≡ slots.old.tie }
    requires retained { retained ≡ count_retained slots.old.entries }
    requires held { count_held slots.old.entries < 2 ^ 64 }
    requires distinct { HasDistinctKeys slots.old.entries }
    ensures left { slots.new
        ≡ record slots.old { entries = entries_left oldest slots.old.entries } }
    ensures distinct { HasDistinctKeys slots.new.entries }
    ensures rows { result.rows + count_retained slots.new.entries ≡ count_retained slots.old.entries }
    ensures bytes { result.bytes + count_held slots.new.entries ≡ count_held slots.old.entries }
    ensures cost { PaysAtMost meter.old meter.new (3 * length slots.old.entries + 1) }
    ensures free { retained ≡ 0 → meter.new ≡ meter.old }
{
    if retained == 0 {
        return Dropped { rows: 0, bytes: 0 };
    }
    let mut rows = 0;
    let mut bytes = 0;
    let mut place = None;
    'rows: while let Some((key, slot)) = slots.entry_after(place, meter) {
        if slot.is_dropped(oldest) {
            rows += 1;
            bytes += slot.row.as_row().charge();
            slots.remove(key, meter);
        } else {
            place = Some(key);
        }
    }
    Dropped { rows, bytes }
}

/// The least change that removed a row which is still there, or 0 if there is none.
pub(crate) fn least_removal(slots: &Table, meter: &mut Meter) -> u64
    requires tie { meter.old.tie ≡ slots.now.tie }
    ensures least { result ≡ least_of (removals slots.now.entries) }
    ensures cost { PaysAtMost meter.old meter.new (2 * length slots.now.entries + 1) }
{
    let mut least = None;
    let mut place = None;
    'rows: while let Some((key, slot)) = slots.entry_after(place, meter) {
        if let Some(removed) = slot.removed {
            least = Some(lesser(least, removed));
        }
        place = Some(key);
    }
    least.unwrap_or(0)
}

fn lesser(least: Option<u64>, number: u64) -> u64
    ensures { result ≡ lesser_of least number }
{
    match least {
        None => number,
        Some(least) => least.min(number),
    }
}

/// The next row after the place, before all of them or after one, that was live after this many changes, with its key. It is
/// inlined, as `next_row`.
#[inline(always)]
pub(crate) fn live_after<'a>(
    slots: &'a Table,
    stamp: u64,
    start: Option<usize>,
    meter: &mut Meter,
) -> Option<(usize, &'a ListedRow)>
    requires tie { meter.old.tie ≡ slots.now.tie }
    requires there { IfSome start (λ key. IsSome (value_at slots.now.entries key)) }
    ensures next { IsNextLive stamp slots.now.entries start result }
    ensures cost { PaysAtMost meter.old meter.new (2 * count_left slots.now.entries start + 1) }
    ensures far { IfSome result
        (λ n. PaysFor slots.now.entries start (Some n.0) meter.old meter.new) }
{
    let mut place = start;
    'rows: while let Some((key, slot)) = slots.entry_next(place, meter) {
        if slot.is_live_at(stamp) {
            return Some((key, &slot.row));
        }
        place = Some(key);
    }
    None
}

/// The same of what a list of version 2 sees of it.
#[inline(always)]
pub(crate) fn live_mapped_after<'a>(
    table: &'a Table,
    stamp: u64,
    start: Option<usize>,
    meter: &mut Meter,
) -> Option<(usize, &'a MappedRow)>
    requires tie { meter.old.tie ≡ table.now.tie }
    requires there { IfSome start (λ key. IsSome (value_at table.now.entries key)) }
    ensures next { IsNextMapped stamp table.now.entries start result }
    ensures cost { PaysAtMost meter.old meter.new (2 * count_left table.now.entries start + 1) }
    ensures far { IfSome result
        (λ n. PaysFor table.now.entries start (Some n.0) meter.old meter.new) }
{
    let mut place = start;
    'rows: while let Some((key, mapped)) = table.mapped_next(place, meter) {
        if mapped.is_live_at(stamp) {
            return Some((key, mapped));
        }
        place = Some(key);
    }
    None
}
