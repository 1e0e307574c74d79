//! rpcb_stat of a version.
ghost use Rattle.std.specs.Prelude.{◌≡◌, ◌+◌, ◌*◌, ◌≤◌, ◌++◌, length};
ghost use Rattle.std.specs.Map.{values_of};
ghost use Rattle.rb_xdr.specs.Meter.{Pays, PaysAtMost};
ghost use Rattle.rb_xdr.specs.Puts.{Appends, HasRoom};
ghost use Rattle.rb_xdr.specs.Xdr.{linked_list, words};
ghost use Rattle.rb_stats.specs.Statistics.{item_spelling, stat_spelling, greatest_list};
ghost use Rattle.rb_stats.specs.Table.{items_in};
ghost use Rattle.rb_stats.specs.Lists.{size_of, stat_with, lists_size};
ghost use Rattle.rb_stats.specs.declared.key.Info.TheVariants.{Addr, Rmt};

use crate::counts::Counts;
use crate::item::Item;
use crate::key::{Info, Version};
use arrayvec::ArrayVec;
use rb_xdr::{Kept, Meter, Pool, Xdr};

/// The number of keys whose items a list has; further keys have none.
pub(crate) const GREATEST_LIST: usize = 32;

/// The items of a version.
#[derive(Drop)]
pub(crate) struct Lists {
    pub addrinfo: ArrayVec<Item, GREATEST_LIST>,
    pub rmtinfo: ArrayVec<Item, GREATEST_LIST>,
}

impl Lists {
    /// How many bytes rpcb_stat has with them.
    pub(crate) fn stat_size(&self) -> usize
        ensures size { result ≡ size_of self.now }
        ensures most { result ≤ 60 + 2 * (4 + 40 * greatest_list) }
    {
        60 + list_size(self.addrinfo.as_slice()) + list_size(self.rmtinfo.as_slice())
    }
}

/// The items of each version.
#[derive(Drop)]
pub(crate) struct AllLists {
    pub two: Lists,
    pub three: Lists,
    pub four: Lists,
}

impl AllLists {
    /// How many bytes the statistics of all versions have with them.
    pub(crate) fn size(&self) -> usize
        ensures { result ≡ lists_size self.now }
    {
        self.two.stat_size() + self.three.stat_size() + self.four.stat_size()
    }
}

/// The items of a version, from the items of all.
#[tactic(auto, unfolding(crate::specs::Table::items_in))]
pub(crate) fn lists_of(items: &Pool<Item>, version: Version, meter: &mut Meter) -> Lists
    requires tie { meter.old.tie ≡ items.now.tie }
    requires addrinfo { length (items_in version Addr (values_of items.now.entries))
        ≤ greatest_list }
    requires rmtinfo { length (items_in version Rmt (values_of items.now.entries))
        ≤ greatest_list }
    ensures addrinfo { result.addrinfo.items
        ≡ items_in version Addr (values_of items.now.entries) }
    ensures rmtinfo { result.rmtinfo.items ≡ items_in version Rmt (values_of items.now.entries) }
    ensures cost { PaysAtMost meter.old meter.new (2 * length items.now.entries + 1) }
{
    let mut addrinfo = ArrayVec::new();
    let mut rmtinfo = ArrayVec::new();
    let mut place = None;
    'items: while let Some((next, item)) = items.entry_after(place, meter) {
        if item.key.is_in(version, Info::Addr) {
            addrinfo.push(*item);
        }
        if item.key.is_in(version, Info::Rmt) {
            rmtinfo.push(*item);
        }
        place = Some(next);
    }
    Lists { addrinfo, rmtinfo }
}

/// How many bytes a list is written as.
#[tactic(auto, unfolding(rb_xdr::specs::Xdr::linked_list))]
fn list_size(items: &[Item]) -> usize
    requires { length items.now ≤ greatest_list }
    ensures size { result ≡ length (linked_list item_spelling items.now) }
    ensures most { result ≤ 4 + 40 * greatest_list }
{
    let mut size = 4;
    for item in items {
        size += 4 + item.size();
    }
    size
}

/// Writes a list, each item after TRUE, and FALSE at its end.
#[tactic(auto, unfolding(rb_xdr::specs::Xdr::linked_list))]
pub(crate) fn write_list(items: &[Item], out: &mut Kept, meter: &mut Meter)
    requires tie { meter.old.tie ≡ out.old.tie }
    requires room { HasRoom (linked_list item_spelling items.now) out.old }
    ensures written { Appends (linked_list item_spelling items.now) out.old out.new }
    ensures cost { Pays meter.old meter.new (length (linked_list item_spelling items.now)) }
{
    for item in items {
        true.write(out, meter);
        item.write(out, meter);
    }
    false.write(out, meter);
}

fn write_numbers(numbers: &[u32], out: &mut Kept, meter: &mut Meter)
    requires tie { meter.old.tie ≡ out.old.tie }
    requires room { HasRoom (words numbers.now) out.old }
    ensures written { Appends (words numbers.now) out.old out.new }
    ensures cost { Pays meter.old meter.new (length (words numbers.now)) }
{
    for number in numbers {
        number.write(out, meter);
    }
}

/// Writes rpcb_stat of a version (RFC 1833 section 2.1).
#[tactic(auto, unfolding(crate::specs::Statistics::stat_spelling))]
pub(crate) fn write_stat(counts: &Counts, lists: &Lists, out: &mut Kept, meter: &mut Meter)
    requires tie { meter.old.tie ≡ out.old.tie }
    requires room { HasRoom (stat_spelling (stat_with counts.now lists.now)) out.old }
    ensures written { Appends (stat_spelling (stat_with counts.now lists.now)) out.old out.new }
    ensures cost { Pays meter.old meter.new
        (length (stat_spelling (stat_with counts.now lists.now))) }
{
    write_numbers(&counts.info, out, meter);
    counts.setinfo.write(out, meter);
    counts.unsetinfo.write(out, meter);
    write_list(lists.addrinfo.as_slice(), out, meter);
    write_list(lists.rmtinfo.as_slice(), out, meter);
}
