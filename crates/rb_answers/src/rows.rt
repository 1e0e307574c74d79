//! Rows as a list shows them: the room that they need, and their bytes.
ghost use Rattle.std.specs.Prelude.{◌≡◌, ◌+◌, ◌≤◌, ◌++◌, [], true, length, take, None, IfSome, IfNone};
ghost use Rattle.rb_xdr.specs.Xdr.{number, boolean, IsContent};
ghost use Rattle.rb_xdr.specs.Meter.{Pays, PaysAtMost};
ghost use Rattle.rb_registry.specs.Registry.{Reaches, rows_at};
ghost use Rattle.rb_registry.specs.Versions.{IsFoundIn};
ghost use Rattle.rb_registry.specs.Cursors.{StandsIn};
ghost use Rattle.rb_xdr.specs.Puts.{Appends, HasRoom, Leaves};
ghost use Rattle.rb_rpc.specs.Records.{fragment_size};
ghost use Rattle.rb_answers.specs.ListReplies.{longest_row};
ghost use Rattle.rb_answers.specs.ListParts.{IsShort, FitsIfShort};
ghost use Rattle.rb_answers.specs.Searching.{IsSought, rows_left, steps_left, sought_cost, walk_cost, PassesRow};
ghost use Rattle.rb_answers.specs.Costs.{write_cost};
ghost use Rattle.rb_answers.specs.declared.answers.Listing.TheVariants.{Mappings};
ghost use Rattle.rb_answers.specs.Results.{is_inet, mapping_item, entry_told, entry_item, is_shown, row_bytes, rows_bytes};

use crate::answers::Listing;
use crate::items::entry_of;
use crate::netids::entry_end;
use crate::shown::{address_anew, own_text, text_of};
use rb_address::Netid;
use rb_registry::{
    Cursor, ListedRow, MAPPING_ITEM, MappedRow, Registry, Row, Version, Which, inet_item,
};
use rb_uaddr::Hosts;
use rb_xdr::{Kept, Meter, Xdr, residue};

/// TRUE and the length of an address, in bytes.
const ENTRY_HEAD: usize = 8;

/// The most bytes of mappings that a part of a list is made of: what was given of a row before it, the part, and a mapping.
pub const MAPPINGS: usize = 1_360;

/// Whether the list shows the row.
fn is_shown(list: Listing, listed: &ListedRow) -> bool
    ensures { result ≡ is_shown list listed.now }
{
    match list {
        Listing::Mappings => Which::Inet.includes(listed.as_row().netid),
        Listing::Rpcbs => true,
        Listing::Entries(prog, vers, _) => {
            let row = listed.as_row();
            row.prog == prog && row.vers == vers
        }
    }
}

/// The room that is left of this much after what a row adds to a list, if that fits.
#[tactic(auto, unfolding(crate::specs::Results::row_bytes))]
fn room_after_row(list: Listing, listed: &ListedRow, room: usize) -> Option<usize>
    ensures { Leaves (row_bytes list listed.now) room result }
{
    if !is_shown(list, listed) {
        return Some(room);
    }
    match list {
        Listing::Mappings => room.checked_sub(MAPPING_ITEM),
        Listing::Rpcbs => room.checked_sub(listed.item_len()),
        Listing::Entries(_, _, hosts) => {
            (true, entry_of(&hosts, listed.as_row())).room_after(room)
        }
    }
}

/// TRUE and the mapping of a row of tcp or udp.
fn mapping_item(row: &Row) -> [u8; MAPPING_ITEM]
    requires { is_inet row.now ≡ true }
    ensures { result ≡ mapping_item row.now }
{
    inet_item(row)
}

/// The same, as it was made.
fn mapped_item(mapped: &MappedRow) -> [u8; MAPPING_ITEM]
    requires { is_inet mapped.now.row ≡ true }
    ensures { result ≡ mapping_item mapped.now.row }
{
    *mapped.item()
}

/// TRUE, and how many bytes the address of an entry has.
#[tactic(auto, unfolding(rb_xdr::specs::Xdr::number, rb_xdr::specs::Xdr::boolean))]
fn entry_head(count: usize) -> [u8; ENTRY_HEAD]
    requires { count ≤ 128 }
    ensures { result ≡ boolean true ++ number count }
{
    let mut head = [0; ENTRY_HEAD];
    head[..4].copy_from_slice(&u32::from(true).to_be_bytes());
    head[4..].copy_from_slice(&(count as u32).to_be_bytes());
    head
}

/// Writes TRUE and the entry of an address on a netid, and returns how many bytes they have. They are short, and the buffer has
/// room for them if they are.
fn write_told(text: &[u8], netid: Netid, out: &mut Kept, meter: &mut Meter) -> usize
    requires content { IsContent 128 text.now }
    requires tie { meter.old.tie ≡ out.old.tie }
    requires room { FitsIfShort (entry_told text.now netid) out.old }
    ensures short { IsShort (entry_told text.now netid) }
    ensures written { Appends (entry_told text.now netid) out.old out.new }
    ensures count { result ≡ length (entry_told text.now netid) }
    ensures cost { Pays meter.old meter.new (length (entry_told text.now netid)) }
{
    let count = text.len();
    let end = entry_end(netid, residue(count));
    let _ = out.extend(&entry_head(count), meter);
    let _ = out.extend(text, meter);
    let _ = out.extend(end, meter);
    ENTRY_HEAD + count + end.len()
}

/// Writes TRUE and the entry of a row, as [`write_told`] does. It has room for a text that is spelled anew.
#[inline(never)]
fn write_anew(hosts: &Hosts, row: &Row, out: &mut Kept, meter: &mut Meter) -> usize
    requires tie { meter.old.tie ≡ out.old.tie }
    requires room { FitsIfShort (entry_item hosts.now row.now) out.old }
    ensures short { IsShort (entry_item hosts.now row.now) }
    ensures written { Appends (entry_item hosts.now row.now) out.old out.new }
    ensures count { result ≡ length (entry_item hosts.now row.now) }
    ensures cost { Pays meter.old meter.new (length (entry_item hosts.now row.now)) }
{
    match address_anew(hosts, row) {
        Some(address) => write_told(text_of(address).as_slice(), row.netid, out, meter),
        None => write_told(own_text(row), row.netid, out, meter),
    }
}

/// The same. Most rows are at a host of their own, and their texts are as they were set.
fn write_entry(hosts: &Hosts, row: &Row, out: &mut Kept, meter: &mut Meter) -> usize
    requires tie { meter.old.tie ≡ out.old.tie }
    requires room { FitsIfShort (entry_item hosts.now row.now) out.old }
    ensures short { IsShort (entry_item hosts.now row.now) }
    ensures written { Appends (entry_item hosts.now row.now) out.old out.new }
    ensures count { result ≡ length (entry_item hosts.now row.now) }
    ensures cost { Pays meter.old meter.new (length (entry_item hosts.now row.now)) }
{
    if row.addr.is_at_any_host() {
        write_anew(hosts, row, out, meter)
    } else {
        write_told(own_text(row), row.netid, out, meter)
    }
}

/// Writes what a row adds to a list: TRUE and the item, or nothing if the list doesn't show the row. It is short, and
/// the buffer has room for it if it is. It returns how many bytes that is. It is inlined, as `next_row`.
#[inline(always)]
#[tactic(auto, unfolding(crate::specs::Results::row_bytes))]
pub fn write_row(list: Listing, listed: &ListedRow, out: &mut Kept, meter: &mut Meter) -> usize
    requires tie { meter.old.tie ≡ out.old.tie }
    requires room { FitsIfShort (row_bytes list listed.now) out.old }
    ensures short { IsShort (row_bytes list listed.now) }
    ensures written { Appends (row_bytes list listed.now) out.old out.new }
    ensures count { result ≡ length (row_bytes list listed.now) }
    ensures cost { PaysAtMost meter.old meter.new (length (row_bytes list listed.now)) }
{
    if !is_shown(list, listed) {
        return 0;
    }
    match list {
        Listing::Mappings => {
            let _ = out.extend(&mapping_item(listed.as_row()), meter);
            MAPPING_ITEM
        }
        Listing::Rpcbs => {
            let _ = listed.put_item(out, meter);
            listed.item_len()
        }
        Listing::Entries(_, _, hosts) => write_entry(&hosts, listed.as_row(), out, meter),
    }
}

// DUMP-3
/// Puts what a row adds to a list of version 2 behind this many bytes that were put there, and returns how many bytes that is.
#[inline(always)]
#[tactic(auto, unfolding(crate::specs::Results::row_bytes))]
pub fn put_mapping(mapped: &MappedRow, count: usize, made: &mut [u8; MAPPINGS]) -> usize
    requires { count ≤ fragment_size + longest_row }
    ensures short { IsShort (row_bytes Mappings mapped.now.row) }
    ensures written { take (count + result) made.new
        ≡ take count made.old ++ row_bytes Mappings mapped.now.row }
    ensures count { result ≡ length (row_bytes Mappings mapped.now.row) }
    ensures few { result ≤ 20 }
{
    if !mapped.is_inet() {
        return 0;
    }
    made[count..count + MAPPING_ITEM].copy_from_slice(&mapped_item(mapped));
    MAPPING_ITEM
}

// LOOKUP-4
/// Finds the version whose rows are searched for, if the list shows those alone, nothing changed since this many changes, and
/// they are among many. It is inlined, as `next_row`: most lists have none, and then nothing is written.
#[inline(always)]
pub fn seek_version(
    list: Listing,
    registry: &Registry,
    stamp: u64,
    sought: &mut Option<Version>,
    meter: &mut Meter,
)
    requires tie { meter.old.tie ≡ registry.now.tie }
    requires none { sought.old ≡ None }
    ensures sought { IsSought list registry.now stamp sought.new }
    ensures cost { PaysAtMost meter.old meter.new (sought_cost sought.new registry.now + 1) }
{
    let Listing::Entries(prog, vers, _) = list else {
        return;
    };
    if stamp == registry.stamp() && registry.is_long(meter) {
        *sought = Some(registry.version(prog, vers, meter));
    }
}

/// The next row after the cursor, or the next of the version that is searched for, and the cursor after it. It is inlined:
/// most lists are walked, and each row of one comes by here.
#[inline(always)]
pub fn next_row<'a>(
    sought: &Option<Version>,
    registry: &'a Registry,
    stamp: u64,
    cursor: Cursor,
    meter: &mut Meter,
) -> Option<(Cursor, &'a ListedRow)>
    requires tie { meter.old.tie ≡ registry.now.tie }
    requires now { IfSome sought.now (λ version. stamp ≡ registry.now.stamp) }
    requires found { IfSome sought.now (λ version. IsFoundIn registry.now version) }
    requires place { StandsIn registry.now stamp cursor }
    ensures row { IfSome result
        (λ n. PassesRow sought.now registry.now stamp cursor n.1.now n.0) }
    ensures end { IfNone result (rows_left sought.now registry.now stamp cursor ≡ []) }
    ensures cost { PaysAtMost meter.old meter.new (steps_left sought.now registry.now cursor + 1) }
    ensures cost_row { IfSome result (λ n. meter.new.steps + steps_left sought.now registry.now n.0
        ≤ meter.old.steps + steps_left sought.now registry.now cursor) }
{
    match sought {
        Some(version) => registry.next_of(version, cursor, meter),
        None => registry.next_row(stamp, cursor, meter),
    }
}

/// The next row after the cursor as a list of version 2 sees it, and the cursor after it. It is inlined likewise.
#[inline(always)]
pub fn next_mapped<'a>(
    registry: &'a Registry,
    stamp: u64,
    cursor: Cursor,
    meter: &mut Meter,
) -> Option<(Cursor, &'a MappedRow)>
    requires tie { meter.old.tie ≡ registry.now.tie }
    requires place { StandsIn registry.now stamp cursor }
    ensures row { IfSome result
        (λ n. PassesRow None registry.now stamp cursor n.1.now.row n.0) }
    ensures end { IfNone result (rows_left None registry.now stamp cursor ≡ []) }
    ensures cost { PaysAtMost meter.old meter.new (steps_left None registry.now cursor + 1) }
    ensures cost_row { IfSome result (λ n. meter.new.steps + steps_left None registry.now n.0
        ≤ meter.old.steps + steps_left None registry.now cursor) }
{
    registry.next_mapped(stamp, cursor, meter)
}

/// The room that is left of this much after all rows that a list shows, as they were after this many changes, and its
/// end, if they fit.
pub fn room_after_rows(
    list: Listing,
    sought: &Option<Version>,
    registry: &Registry,
    stamp: u64,
    room: usize,
    meter: &mut Meter,
) -> Option<usize>
    requires registry { meter.old.tie ≡ registry.now.tie }
    requires sought { IsSought list registry.now stamp sought.now }
    requires stamp { Reaches registry.now stamp }
    ensures room { Leaves (rows_bytes (rows_at registry.now stamp) list) room result }
    ensures cost { PaysAtMost meter.old meter.new (walk_cost sought.now registry.now + 1) }
{
    let mut cursor = Cursor::start();
    let mut left = room;
    'rows: while let Some(found) = next_row(sought, registry, stamp, cursor, meter) {
        let (next, row) = found;
        left = room_after_row(list, row, left)?;
        cursor = next;
    }
    false.room_after(left)
}

/// Writes the rows that a list shows, as they were after this many changes, and its end.
pub fn write_rows(
    list: Listing,
    sought: &Option<Version>,
    registry: &Registry,
    stamp: u64,
    out: &mut Kept,
    meter: &mut Meter,
)
    requires registry { meter.old.tie ≡ registry.now.tie }
    requires sought { IsSought list registry.now stamp sought.now }
    requires tie { meter.old.tie ≡ out.old.tie }
    requires stamp { Reaches registry.now stamp }
    requires room { HasRoom (rows_bytes (rows_at registry.now stamp) list) out.old }
    ensures written { Appends (rows_bytes (rows_at registry.now stamp) list) out.old out.new }
    ensures cost { PaysAtMost meter.old meter.new
        (write_cost sought.now registry.now out.old out.new) }
{
    let mut cursor = Cursor::start();
    'rows: while let Some(found) = next_row(sought, registry, stamp, cursor, meter) {
        let (next, row) = found;
        write_row(list, row, out, meter);
        cursor = next;
    }
    false.write(out, meter);
}
