//! Replies that list rows and are given in parts: a list of any length is shown as it was at its call.
ghost use Rattle.std.specs.Prelude.{◌≡◌, ◌+◌, ◌*◌, ◌≤◌, [], length, nat_le};
ghost use Rattle.rb_xdr.specs.Meter.{Pays, PaysAtMost};
ghost use Rattle.rb_xdr.specs.Puts.{Appends, HasRoom};
ghost use Rattle.rb_registry.specs.Registry.{slots_of};
ghost use Rattle.rb_registry.specs.Cursors.{StandsIn};
ghost use Rattle.rb_rpc.specs.Records.{fragment_size};
ghost use Rattle.rb_answers.specs.declared.answers.Listing.TheVariants.{Mappings};
ghost use Rattle.rb_answers.specs.ListReplies.{longest_row, part_room, head_unless, rest_of};
ghost use Rattle.rb_answers.specs.ListParts.{ListsRows, IsNextPart, IsBehindPart, CanBeContinued, Fills};
ghost use Rattle.rb_answers.specs.Costs.{fill_cost, part_cost};

use crate::answers::Listing;
use crate::rows::{MAPPINGS, next_mapped, next_row, put_mapping, seek_version, write_row};
use rb_registry::{Cursor, Registry};
use rb_rpc::{FRAGMENT_SIZE, ReplyHead, ReplyStatus, put_reply};
use rb_xdr::{Kept, Meter, Xdr};

/// A reply that lists the rows as they were at its call, and how much of it was given. It holds no rows: each part
/// reads them from the registry again.
#[derive(Clone, Copy)]
pub struct ListReply {
    xid: u32,
    list: Listing,
    stamp: u64,
    cursor: Cursor,
    given: usize,
    begun: bool,
}

/// Names each field, so that a further one does not compile until it stands here. It belongs in the table of
/// charges of crates/rb_core/README.md first.
fn layout(reply: &ListReply) {
    let ListReply {
        xid,
        list,
        stamp,
        cursor,
        given,
        begun,
    } = *reply;
    let _: (u32, u64, usize, bool) = (xid, stamp, given, begun);
    let _: (Listing, Cursor) = (list, cursor);
}

/// Where a part stands in the buffer that it was made in, and whether the reply ends with it.
#[derive(Clone, Copy)]
pub struct ListPart {
    /// The place of its first byte.
    pub start: usize,
    /// The place after its last byte.
    pub end: usize,
    /// Whether the reply ends with it.
    pub last: bool,
}

/// Adds bytes for which there is room.
fn put(bytes: &[u8], out: &mut Kept, meter: &mut Meter)
    requires tie { meter.old.tie ≡ out.old.tie }
    requires room { HasRoom bytes.now out.old }
    ensures written { Appends bytes.now out.old out.new }
    ensures cost { Pays meter.old meter.new (length bytes.now) }
{
    let Ok(()) = out.extend(bytes, meter) else {
        unreachable!()
    };
}

impl ListReply {
    /// A reply under this xid, of which nothing was given, with the rows that are live now. It costs nothing.
    pub fn new(xid: u32, list: Listing, registry: &Registry) -> ListReply
        ensures rest { ListsRows xid list registry.now result }
        ensures told { CanBeContinued registry.now result }
        ensures stamp { result.stamp ≡ registry.now.stamp }
    {
        ListReply {
            xid,
            list,
            stamp: registry.stamp(),
            cursor: Cursor::start(),
            given: 0,
            begun: false,
        }
    }

    /// How many changes were accepted before it.
    pub fn stamp(&self) -> u64
        ensures { result ≡ self.now.stamp }
    {
        self.stamp
    }

    /// Makes the next part in a buffer, whose bytes are cleared before, and says where it stands there. It has 1,024
    /// bytes, and the last part 1 to 1,024.
    pub fn next_part(&mut self, registry: &Registry, out: &mut Kept, meter: &mut Meter) -> ListPart
        requires registry { meter.old.tie ≡ registry.now.tie }
        requires tie { meter.old.tie ≡ out.old.tie }
        requires room { part_room ≤ out.old.cap }
        requires told { CanBeContinued registry.now self.old }
        ensures part { IsNextPart registry.now self.old out.new.bytes result }
        ensures rest { IsBehindPart registry.now self.old self.new }
        ensures last { result.last ≡ nat_le (length (rest_of registry.now self.old)) fragment_size }
        ensures range { result.start ≤ result.end }
        ensures few { result.end ≤ result.start + fragment_size }
        ensures within { result.end ≤ length out.new.bytes }
        ensures told { CanBeContinued registry.now self.new }
        ensures stamp { self.new.stamp ≡ self.old.stamp }
        ensures cap { out.new.cap ≡ out.old.cap }
        ensures tie { out.new.tie ≡ out.old.tie }
        ensures cost { PaysAtMost meter.old meter.new (part_cost registry.now) }
    {
        let target = self.given + FRAGMENT_SIZE;
        let base = self.fill(registry, target, out, meter);
        let len = out.len(meter);
        let end = len.min(target);
        // what stands at the cursor is never less than was given of it
        let start = self.given.min(end);
        self.begun = true;
        self.given = end - base;
        ListPart {
            start,
            end,
            last: len <= target,
        }
    }

    /// Writes the head of the reply, unless it was given.
    #[tactic(auto, using(crate::proofs::ListReplies::success_head))]
    fn put_head(&self, out: &mut Kept, meter: &mut Meter)
        requires tie { meter.old.tie ≡ out.old.tie }
        requires empty { out.old.bytes ≡ [] }
        requires room { fragment_size ≤ out.old.cap }
        ensures written { Appends (head_unless self.now.begun self.now.xid) out.old out.new }
        ensures short { length out.new.bytes ≤ 24 }
        ensures cost { PaysAtMost meter.old meter.new (1 + length out.new.bytes) }
    {
        if self.begun {
            return;
        }
        let (xid, status) = (self.xid, ReplyStatus::Success);
        let Ok(()) = put_reply(&ReplyHead { xid, status }, out, meter) else {
            unreachable!()
        };
    }

    /// Writes what stands at the cursor and after it into the buffer, whose bytes are cleared before: as far as the first
    /// row that goes past this many bytes, or to the end. The cursor moves on to that row, or after all.
    ///
    /// It says how many bytes stand before the new cursor. The lists of all rows have each a walk of their own, in which it
    /// is known what is listed.
    fn fill(&mut self, registry: &Registry, most: usize, out: &mut Kept, meter: &mut Meter) -> usize
        requires registry { meter.old.tie ≡ registry.now.tie }
        requires tie { meter.old.tie ≡ out.old.tie }
        requires most { fragment_size ≤ most }
        requires few { most ≤ fragment_size + longest_row }
        requires room { most + longest_row ≤ out.old.cap }
        requires place { StandsIn registry.now self.old.stamp self.old.cursor }
        ensures fills { Fills registry.now self.old self.new most out.new.bytes result }
        ensures cap { out.new.cap ≡ out.old.cap }
        ensures tie { out.new.tie ≡ out.old.tie }
        ensures cost { PaysAtMost meter.old meter.new (fill_cost registry.now out.new) }
    {
        match self.list {
            Listing::Mappings => self.fill_mappings(registry, most, out, meter),
            Listing::Rpcbs => self.fill_with(Listing::Rpcbs, registry, most, out, meter),
            list => self.fill_with(list, registry, most, out, meter),
        }
    }

    /// The same with what it lists.
    #[inline(always)]
    fn fill_with(
        &mut self,
        list: Listing,
        registry: &Registry,
        most: usize,
        out: &mut Kept,
        meter: &mut Meter,
    ) -> usize
        requires list { list ≡ self.old.list }
        requires registry { meter.old.tie ≡ registry.now.tie }
        requires tie { meter.old.tie ≡ out.old.tie }
        requires most { fragment_size ≤ most }
        requires room { most + longest_row ≤ out.old.cap }
        requires place { StandsIn registry.now self.old.stamp self.old.cursor }
        ensures fills { Fills registry.now self.old self.new most out.new.bytes result }
        ensures cap { out.new.cap ≡ out.old.cap }
        ensures tie { out.new.tie ≡ out.old.tie }
        ensures cost { PaysAtMost meter.old meter.new (fill_cost registry.now out.new) }
    {
        out.clear(meter);
        self.put_head(out, meter);
        let mut base = out.len(meter);
        let mut sought = None;
        seek_version(list, registry, self.stamp, &mut sought, meter);
        let mut found = next_row(&sought, registry, self.stamp, self.cursor, meter);
        'rows: while let Some(passed) = found {
            let (next, row) = passed;
            let more = write_row(list, row, out, meter);
            if most - base < more {
                return base;
            }
            base += more;
            self.cursor = next;
            found = next_row(&sought, registry, self.stamp, next, meter);
        }
        false.write(out, meter);
        base
    }

    /// The same of a list of version 2, which reads of the rows only what it shows. Its mappings come together on the stack, and
    /// go to the buffer at once.
    fn fill_mappings(
        &mut self,
        registry: &Registry,
        most: usize,
        out: &mut Kept,
        meter: &mut Meter,
    ) -> usize
        requires list { self.old.list ≡ Mappings }
        requires registry { meter.old.tie ≡ registry.now.tie }
        requires tie { meter.old.tie ≡ out.old.tie }
        requires most { fragment_size ≤ most }
        requires few { most ≤ fragment_size + longest_row }
        requires room { most + longest_row ≤ out.old.cap }
        requires place { StandsIn registry.now self.old.stamp self.old.cursor }
        ensures fills { Fills registry.now self.old self.new most out.new.bytes result }
        ensures cap { out.new.cap ≡ out.old.cap }
        ensures tie { out.new.tie ≡ out.old.tie }
        ensures cost { PaysAtMost meter.old meter.new (fill_cost registry.now out.new) }
    {
        out.clear(meter);
        self.put_head(out, meter);
        let mut base = out.len(meter);
        let stamp = self.stamp;
        let mut cursor = self.cursor;
        let mut made = [0; MAPPINGS];
        let mut count = 0;
        let mut found = next_mapped(registry, stamp, cursor, meter);
        'rows: while let Some(passed) = found {
            let (next, mapped) = passed;
            let more = put_mapping(mapped, count, &mut made);
            count += more;
            if most - base < more {
                self.cursor = cursor;
                put(&made[..count], out, meter);
                return base;
            }
            base += more;
            cursor = next;
            found = next_mapped(registry, stamp, next, meter);
        }
        self.cursor = cursor;
        put(&made[..count], out, meter);
        false.write(out, meter);
        base
    }
}
