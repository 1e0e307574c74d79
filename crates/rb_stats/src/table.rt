//! The table of items.
ghost use Rattle.std.specs.Prelude.{◌≡◌, ◌+◌, ◌*◌, ◌<◌, ◌≤◌, [], length, IfOk, IfErr, Some};
ghost use Rattle.std.specs.Map.{values_of};
ghost use Rattle.rb_xdr.specs.Meter.{Pays, PaysAtMost};
ghost use Rattle.rb_xdr.specs.Pool.{HasDistinctKeys, SameFrame};
ghost use Rattle.rb_xdr.specs.Search.{key_of};
ghost use Rattle.rb_stats.specs.Statistics.{greatest_list};
ghost use Rattle.rb_stats.specs.Table.{list_len, is_item, HasNone, IsTable, count_with, HasCounted, HasAdded};

use crate::item::Item;
use crate::key::{Key, Version};
use crate::stat::{GREATEST_LIST, Lists, lists_of};
use rb_xdr::{Meter, NoMemory, Pool};
use std::alloc::Global;
use std::marker::Model;

/// Two lists of each of three versions.
const GREATEST_TABLE: usize = 192;

/// The place of the key's item, or, if there is none, how many items its list has.
#[tactic(auto, unfolding(crate::specs::Table::items_in))]
fn place_of(items: &Pool<Item>, key: Key, meter: &mut Meter) -> Result<usize, usize>
    requires tie { meter.old.tie ≡ items.now.tie }
    requires distinct { HasDistinctKeys items.now.entries }
    requires few { list_len key (values_of items.now.entries) ≤ greatest_list }
    ensures found { IfOk result (λ place. key_of (is_item key) items.now.entries ≡ Some place) }
    ensures missing { IfErr result (λ count. HasNone key items.now.entries) }
    ensures count { IfErr result (λ count. count ≡ list_len key (values_of items.now.entries)) }
    ensures cost { PaysAtMost meter.old meter.new (2 * length items.now.entries + 1) }
{
    let info = key.info();
    let mut count = 0;
    let mut place = None;
    'items: while let Some((next, item)) = items.entry_after(place, meter) {
        if item.key.is(key) {
            return Ok(next);
        }
        if item.key.is_in(key.version, info) {
            count += 1;
        }
        place = Some(next);
    }
    Err(count)
}

/// Counts one more at the place of the key's item.
fn count_at(
    items: &mut Pool<Item>,
    place: usize,
    key: Key,
    passed: bool,
    indirect: bool,
    meter: &mut Meter,
)
    requires tie { meter.old.tie ≡ items.old.tie }
    requires table { IsTable items.old }
    requires found { key_of (is_item key) items.old.entries ≡ Some place }
    ensures items { HasCounted (count_with key passed indirect) items.old items.new }
    ensures table { IsTable items.new }
    ensures frame { SameFrame items.old items.new }
    ensures cost { Pays meter.old meter.new 1 }
{
    let Some(item) = items.get_mut(place, meter) else {
        unreachable!()
    };
    item.count(passed, indirect);
}

/// Adds the first item of a key after the others, with one count.
fn add_item(items: &mut Pool<Item>, key: Key, passed: bool, indirect: bool, meter: &mut Meter)
    requires tie { meter.old.tie ≡ items.old.tie }
    requires table { IsTable items.old }
    requires missing { HasNone key items.old.entries }
    requires room { list_len key (values_of items.old.entries) < greatest_list }
    ensures items { HasAdded (count_with key passed indirect) items.old items.new }
    ensures table { IsTable items.new }
    ensures frame { SameFrame items.old items.new }
    ensures cost { Pays meter.old meter.new 1 }
{
    let mut item = Item::new(key);
    item.count(passed, indirect);
    items.add(item, meter);
}

/// Removes all items, one after another. It costs 2 steps for each, and 1.
fn remove_all(items: &mut Pool<Item>, meter: &mut Meter)
    requires { meter.old.tie ≡ items.old.tie }
    ensures items { items.new ≡ record items.old { entries = [] } }
    ensures cost { Pays meter.old meter.new (2 * length items.old.entries + 1) }
{
    'items: while let Some(place) = items.first(meter) {
        items.remove(place, meter);
    }
}

/// The items of every list, in the order of their keys' first counts.
#[derive(Drop)]
pub(crate) struct Items {
    items: Pool<Item>,
    len: u64,
}

/// Names each field, so that a further one does not compile until it stands here. It belongs in the table of
/// charges of crates/rb_core/README.md first.
fn layout(items: &Items) {
    let Items { items, len } = items;
    let _: &Pool<Item> = items;
    let _: u64 = *len;
}

impl Model for Items {
    ghost use Rattle.std.specs.Prelude.{◌≡◌, length};
    ghost use Rattle.std.specs.Map.{values_of};
    ghost use Rattle.rb_stats.specs.Table.{Table, IsTable};

    ghost Value = { Table };

    ghost view = { λ t. record {
      all = values_of t.items.entries;
      memory = t.items.memory;
      tie = t.items.tie;
    } };

    ghost invariant = { λ t. IsTable t.items × (t.len ≡ length t.items.entries) };
}

impl Items {
    ghost use Rattle.std.specs.Prelude.{◌≡◌, ◌≤◌, ◌+◌, ◌*◌, [], length, IfOk};
    ghost use Rattle.rb_xdr.specs.Meter.{Pays, PaysAtMost};
    ghost use Rattle.rb_stats.specs.Table.{items_in, count_with, HoldsOneMore};
    ghost use Rattle.rb_stats.specs.declared.key.Info.TheVariants.{Addr, Rmt};

    /// No items yet. The memory for all that there may be is taken.
    pub(crate) fn new(alloc: Global, meter: &mut Meter) -> Result<Items, NoMemory>
        ensures empty { IfOk result (λ t. t.all ≡ []) }
        ensures tie { IfOk result (λ t. t.tie ≡ meter.old.tie) }
        ensures free { meter.new ≡ meter.old }
    {
        Ok(Items {
            items: Pool::written(alloc, GREATEST_TABLE, || Ok(Item::default()), meter)?,
            len: 0,
        })
    }

    /// No items are left; the memory stays.
    pub(crate) fn clear(&mut self, meter: &mut Meter)
        requires { meter.old.tie ≡ self.old.tie }
        ensures empty { self.new.all ≡ [] }
        ensures memory { self.new.memory ≡ self.old.memory }
        ensures tie { self.new.tie ≡ self.old.tie }
        ensures few { length self.old.all ≤ 192 }
        ensures cost { Pays meter.old meter.new (2 * length self.old.all + 1) }
    {
        remove_all(&mut self.items, meter);
        self.len = 0;
    }

    /// How many there are.
    pub(crate) fn len(&self) -> u64
        ensures len { result ≡ length self.now.all }
        ensures within { result ≤ 192 }
    {
        self.len
    }

    /// The items of a version.
    pub(crate) fn lists(&self, version: Version, meter: &mut Meter) -> Lists
        requires { meter.old.tie ≡ self.now.tie }
        ensures addrinfo { result.addrinfo.items ≡ items_in version Addr self.now.all }
        ensures rmtinfo { result.rmtinfo.items ≡ items_in version Rmt self.now.all }
        ensures few { length self.now.all ≤ 192 }
        ensures cost { PaysAtMost meter.old meter.new (2 * length self.now.all + 1) }
    {
        lists_of(&self.items, version, meter)
    }

    /// Counts one more of the key: at its item, or at a new one if its list has room for it.
    pub(crate) fn count(&mut self, key: Key, passed: bool, indirect: bool, meter: &mut Meter)
        requires { meter.old.tie ≡ self.old.tie }
        ensures holds { HoldsOneMore (count_with key passed indirect) self.old.all self.new.all }
        ensures memory { self.new.memory ≡ self.old.memory }
        ensures tie { self.new.tie ≡ self.old.tie }
        ensures few { length self.old.all ≤ 192 }
        ensures cost { PaysAtMost meter.old meter.new (2 * length self.old.all + 2) }
    {
        match place_of(&self.items, key, meter) {
            Ok(place) => count_at(&mut self.items, place, key, passed, indirect, meter),
            Err(count) if count < GREATEST_LIST => {
                add_item(&mut self.items, key, passed, indirect, meter);
                self.len += 1;
            }
            Err(_) => {}
        }
    }
}
