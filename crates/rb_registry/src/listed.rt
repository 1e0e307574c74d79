//! Rows with their items of the lists of versions 3 and 4.
ghost use Rattle.std.specs.Prelude.{◌≡◌, ◌+◌, ◌≤◌, ◌++◌, true, length, replicate};
ghost use Rattle.rb_xdr.specs.Xdr.{number, boolean, opaque, residue};
ghost use Rattle.rb_address.specs.Netids.{netid_text};
ghost use Rattle.rb_registry.specs.Items.{owner_text, rpcb_item};

use crate::row::Row;
use arrayvec::ArrayVec;
use itoa::Buffer;
use rb_address::{Netid, Owner};
use rb_xdr::{Full, Kept, Meter, residue};
use std::marker::Model;

/// The most bytes of an item: TRUE, the program and the version, 12 of the netid, 132 of the address, 16 of the owner.
const LONGEST_ITEM: usize = 172;

/// TRUE, the program and the version, with which each item of a list begins, in bytes.
pub(crate) const HEAD: usize = 12;

type Item = ArrayVec<u8, LONGEST_ITEM>;

/// A row, and its item of a list, which is made once. The item has its length before it, and stands before the row, so that
/// what a walk for a list looks at is together.
#[derive(Drop)]
pub struct ListedRow {
    len: u8,
    item: [u8; LONGEST_ITEM],
    row: Row,
}

impl Model for ListedRow {
    ghost use Rattle.std.specs.Prelude.{◌≡◌, ◌≤◌, length, take};
    ghost use Rattle.rb_registry.specs.declared.row.Row.{Row as Plain};
    ghost use Rattle.rb_registry.specs.Items.{rpcb_item};

    ghost Value = { Plain };

    ghost view = { λ listed. listed.row };

    ghost invariant = { λ listed.
        (listed.len ≤ 172) × (listed.len ≡ length (rpcb_item listed.row))
        × (take listed.len listed.item ≡ rpcb_item listed.row) };
}

/// Names each field, so that a further one does not compile until it stands here. It belongs in the table of
/// charges of crates/rb_core/README.md first.
fn layout(listed: &ListedRow) {
    let ListedRow { len, item, row } = listed;
    let _: u8 = *len;
    let _: &[u8; LONGEST_ITEM] = item;
    let _: &Row = row;
}

impl ListedRow {
    ghost use Rattle.std.specs.Prelude.{◌≡◌, ◌≤◌, length};
    ghost use Rattle.rb_xdr.specs.Meter.{Pays};
    ghost use Rattle.rb_xdr.specs.Puts.{Puts};
    ghost use Rattle.rb_registry.specs.Items.{rpcb_item};

    /// The row beside its item.
    pub(crate) fn new(row: Row) -> ListedRow
        ensures { result ≡ row }
    {
        let made = item_of(&row);
        let mut item = [0; LONGEST_ITEM];
        item[..made.len()].copy_from_slice(made.as_slice());
        ListedRow {
            len: made.len() as u8,
            item,
            row,
        }
    }

    /// The row.
    pub fn as_row(&self) -> &Row
        ensures { result.now ≡ self.now }
    {
        &self.row
    }

    /// How many bytes its item of a list has.
    pub fn item_len(&self) -> usize
        ensures len { result ≡ length (rpcb_item self.now) }
        ensures short { result ≤ 172 }
    {
        usize::from(self.len)
    }

    // DUMP-1
    // DUMP-2
    /// Adds TRUE and the rpcb of the row (RFC 1833 section 2.1), as XDR spells them, at the end of a buffer, or nothing:
    /// `Full` if they do not fit. It costs a step for each byte, in both cases.
    #[inline(always)]
    pub fn put_item(&self, out: &mut Kept, meter: &mut Meter) -> Result<(), Full>
        requires { meter.old.tie ≡ out.old.tie }
        ensures puts { Puts (rpcb_item self.now) out.old.cap out.old out.new result }
        ensures cost { Pays meter.old meter.new (length (rpcb_item self.now)) }
    {
        out.extend_front(&self.item, self.item_len(), meter)
    }
}

/// The owner as lists show it: `unknown`, `superuser` for uid 0, or the uid in decimal, whose digits stand in the buffer.
#[tactic(auto, unfolding(crate::specs::Items::owner_text))]
fn owner_text(owner: Owner, digits: &mut Buffer) -> &[u8]
    ensures text { result.now ≡ owner_text owner }
    ensures short { length result.now ≤ 12 }
{
    match owner {
        Owner::Unknown => b"unknown",
        Owner::SUPERUSER => b"superuser",
        Owner::Uid(uid) => digits.format(uid).as_bytes(),
    }
}

/// The name of the netid, which is short.
fn netid_name(netid: Netid) -> &'static [u8]
    ensures text { result.now ≡ netid_text netid }
    ensures short { length result.now ≤ 8 }
{
    netid.text().as_bytes()
}

/// Adds bytes for which there is room.
fn put(item: &mut Item, bytes: &[u8])
    requires { length item.old.items + length bytes.now ≤ 172 }
    ensures items { item.new.items ≡ item.old.items ++ bytes.now }
    ensures len { length item.new.items ≡ length item.old.items + length bytes.now }
{
    let Ok(()) = item.try_extend_from_slice(bytes) else {
        unreachable!()
    };
}

/// Adds the residual bytes after this much content.
#[tactic(auto, using(rb_xdr::proofs::XdrSets::lengths))]
fn put_residue(item: &mut Item, count: usize)
    requires { length item.old.items + residue count ≤ 172 }
    ensures items { item.new.items ≡ item.old.items ++ replicate (residue count) 0 }
    ensures len { length item.new.items ≡ length item.old.items + residue count }
{
    match residue(count) {
        0 => {}
        1 => put(item, &[0]),
        2 => put(item, &[0, 0]),
        _ => put(item, &[0, 0, 0]),
    }
}

/// Adds the bytes of a text.
#[tactic(auto, unfolding(rb_xdr::specs::Xdr::opaque, rb_xdr::specs::Xdr::number))]
fn put_text(item: &mut Item, text: &[u8])
    requires short { length text.now ≤ 128 }
    requires room { length item.old.items + 4 + length text.now + residue (length text.now) ≤ 172 }
    ensures items { item.new.items ≡ item.old.items ++ opaque text.now }
    ensures len { length item.new.items
        ≡ length item.old.items + 4 + length text.now + residue (length text.now) }
{
    let count = text.len();
    put(item, &(count as u32).to_be_bytes());
    put(item, text);
    put_residue(item, count);
}

/// TRUE, the program and the version.
#[tactic(auto, unfolding(rb_xdr::specs::Xdr::boolean, rb_xdr::specs::Xdr::number))]
pub(crate) fn head_of(row: &Row) -> [u8; HEAD]
    ensures { result ≡ boolean true ++ (number row.now.prog ++ number row.now.vers) }
{
    let mut head = [0; HEAD];
    head[..4].copy_from_slice(&u32::from(true).to_be_bytes());
    head[4..8].copy_from_slice(&row.prog.to_be_bytes());
    head[8..].copy_from_slice(&row.vers.to_be_bytes());
    head
}

/// The item of the row.
fn item_of(row: &Row) -> Item
    ensures { result.items ≡ rpcb_item row.now }
{
    let mut digits = Buffer::new();
    let mut item = Item::new();
    put(&mut item, &head_of(row));
    put_text(&mut item, netid_name(row.netid));
    put_text(&mut item, row.addr.as_slice());
    put_text(&mut item, owner_text(row.owner, &mut digits));
    item
}
