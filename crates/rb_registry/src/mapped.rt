//! Rows as a list of version 2 sees them.
ghost use Rattle.std.specs.Prelude.{◌≡◌, ◌++◌, true};
ghost use Rattle.rb_xdr.specs.Xdr.{number, boolean};
ghost use Rattle.rb_registry.specs.Items.{prot_on, inet_port, inet_item};

use crate::listed::{HEAD, head_of};
use crate::row::{Row, Which};
use crate::slot::Slot;
use rb_address::{Netid, Transport};
use rb_uaddr::AddressText;
use std::marker::Model;
use std::snapshot::Snapshot;

/// TRUE and a mapping, in bytes.
pub const MAPPING_ITEM: usize = 20;

/// When a row is live, and its mapping (RFC 1833 section 3.1), which are made once. A walk for a list of version 2 looks at
/// nothing else, so they stand by themselves: in a line of memory there are those of more than one row.
#[derive(Drop)]
pub struct MappedRow {
    added: u64,
    /// The last number of changes after which the row is live: 2^64 - 1 until it is removed.
    last: u64,
    item: [u8; MAPPING_ITEM],
    is_inet: bool,
    slot: Snapshot<Slot>,
}

impl Model for MappedRow {
    ghost use Rattle.std.specs.Prelude.{◌≡◌};
    ghost use Rattle.rb_registry.specs.declared.slot.Slot.{Slot as Plain};
    ghost use Rattle.rb_registry.specs.declared.row.Which.TheVariants.{Inet};
    ghost use Rattle.rb_registry.specs.Rows.{is_among};
    ghost use Rattle.rb_registry.specs.Items.{inet_item};
    ghost use Rattle.rb_registry.specs.Slots.{IsLastLive};

    ghost Value = { Plain };

    ghost view = { λ mapped. mapped.slot.value };

    ghost invariant = { λ mapped.
        (mapped.added ≡ mapped.slot.value.added) × IsLastLive mapped.slot.value.removed mapped.last
        × (mapped.item ≡ inet_item mapped.slot.value.row)
        × (mapped.is_inet ≡ is_among mapped.slot.value.row.netid Inet) };
}

/// Names each field, so that a further one does not compile until it stands here. It belongs in the table of
/// charges of crates/rb_core/README.md first.
fn layout(mapped: &MappedRow) {
    let MappedRow {
        added,
        last,
        item,
        is_inet,
        slot,
    } = mapped;
    let _: (u64, u64, bool) = (*added, *last, *is_inet);
    let _: &[u8; MAPPING_ITEM] = item;
    let _: &Snapshot<Slot> = slot;
}

impl MappedRow {
    ghost use Rattle.std.specs.Prelude.{◌≡◌, ◌+◌, ◌^◌, ◌<◌, Some, None};
    ghost use Rattle.rb_registry.specs.declared.row.Which.TheVariants.{Inet};
    ghost use Rattle.rb_registry.specs.Rows.{is_among};
    ghost use Rattle.rb_registry.specs.Items.{inet_item};
    ghost use Rattle.rb_registry.specs.Slots.{is_live_at};

    /// That of a row that is not removed.
    pub(crate) fn of(slot: &Slot) -> MappedRow
        requires { slot.now.removed ≡ None }
        ensures { result ≡ slot.now }
    {
        let row = slot.row.as_row();
        MappedRow {
            added: slot.added,
            last: u64::MAX,
            item: inet_item(row),
            is_inet: Which::Inet.includes(row.netid),
            slot: Snapshot::of(slot),
        }
    }

    /// The row is removed by the next change after this many.
    pub(crate) fn end(&mut self, stamp: u64, slot: &Slot)
        requires number { stamp + 1 < 2 ^ 64 }
        requires slot { slot.now ≡ record self.old { removed = Some (stamp + 1) } }
        ensures { self.new ≡ slot.now }
    {
        self.last = stamp;
        self.slot = Snapshot::of(slot);
    }

    /// Whether the row was live after this many changes.
    #[tactic(auto, unfolding(crate::specs::Slots::is_live_at))]
    pub(crate) fn is_live_at(&self, stamp: u64) -> bool
        ensures { result ≡ is_live_at stamp self.now }
    {
        self.added <= stamp && stamp <= self.last
    }

    /// Whether version 2 shows the row: whether it is of tcp or udp.
    pub fn is_inet(&self) -> bool
        ensures { result ≡ is_among self.now.row.netid Inet }
    {
        self.is_inet
    }

    /// TRUE and the mapping, as XDR spells them.
    pub fn item(&self) -> &[u8; MAPPING_ITEM]
        ensures { result.now ≡ inet_item self.now.row }
    {
        &self.item
    }
}

/// The protocol of a row of tcp or udp; 0 for another netid, whose rows version 2 does not show.
fn prot_on(netid: Netid) -> u32
    ensures { result ≡ prot_on netid }
{
    match netid {
        Netid::Tcp => Transport::Tcp.protocol(),
        Netid::Udp => Transport::Udp.protocol(),
        Netid::Tcp6 | Netid::Udp6 | Netid::Local => 0,
    }
}

/// The port of the IPv4 address that the text spells (RFC 5665 section 5.2.3.3), or 0.
fn inet_port(text: &AddressText) -> u16
    ensures { result ≡ inet_port text.now }
{
    match text.ipv4() {
        Some(address) => address.port(),
        None => 0,
    }
}

// DUMP-3
/// TRUE and the mapping of a row of tcp or udp, as XDR spells them.
#[tactic(auto, unfolding(rb_xdr::specs::Xdr::boolean, rb_xdr::specs::Xdr::number))]
pub fn inet_item(row: &Row) -> [u8; MAPPING_ITEM]
    ensures { result ≡ inet_item row.now }
{
    let mut item = [0; MAPPING_ITEM];
    item[..HEAD].copy_from_slice(&head_of(row));
    item[HEAD..16].copy_from_slice(&prot_on(row.netid).to_be_bytes());
    item[16..].copy_from_slice(&u32::from(inet_port(&row.addr)).to_be_bytes());
    item
}
