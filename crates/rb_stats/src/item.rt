//! An item of the statistics.
ghost use Rattle.std.specs.Prelude.{◌≡◌, ◌+◌, ◌≤◌, ◌++◌, length};
ghost use Rattle.rb_xdr.specs.Meter.{Pays};
ghost use Rattle.rb_xdr.specs.Puts.{Appends, HasRoom};
ghost use Rattle.rb_xdr.specs.Xdr.{opaque};
ghost use Rattle.rb_address.specs.Netids.{netid_text};
ghost use Rattle.rb_stats.specs.Statistics.{one_more, item_spelling};
ghost use Rattle.rb_stats.specs.Table.{new_item, item_after};

use crate::key::{Key, Target, Version};
use rb_address::Netid;
use rb_xdr::{Kept, Meter, Text, Xdr};

/// The greatest number of type int (RFC 4506 section 4.1), at which counts stop.
const GREATEST_INT: u32 = 0x7fff_ffff;

// STAT-2
/// Counts one more, as far as an int goes.
pub(crate) fn count_one(number: &mut u32)
    ensures { number.new ≡ one_more number.old }
{
    *number = number.saturating_add(1).min(GREATEST_INT);
}

/// How many bytes the text of a netid is written as.
#[tactic(auto, unfolding(rb_xdr::specs::Xdr::opaque, rb_xdr::specs::Xdr::number))]
fn text_size(netid: Netid) -> usize
    ensures size { result ≡ length (opaque (netid_text netid)) }
    ensures most { result ≤ 12 }
{
    match netid {
        Netid::Tcp | Netid::Udp | Netid::Tcp6 | Netid::Udp6 => 8,
        Netid::Local => 12,
    }
}

/// A key with its numbers.
#[derive(Clone, Copy)]
pub(crate) struct Item {
    pub key: Key,
    pub success: u32,
    pub failure: u32,
    /// How many came by INDIRECT.
    pub indirect: u32,
}

/// Names each field, so that a further one does not compile until it stands here. It belongs in the table of
/// charges of crates/rb_core/README.md first.
fn layout(item: &Item) {
    let Item {
        key,
        success,
        failure,
        indirect,
    } = *item;
    let _: Key = key;
    let _: [u32; 3] = [success, failure, indirect];
}

impl Item {
    pub(crate) fn new(key: Key) -> Item
        ensures { result ≡ new_item key }
    {
        Item {
            key,
            success: 0,
            failure: 0,
            indirect: 0,
        }
    }

    // STAT-5
    /// Counts one more of the key, also at its INDIRECT calls if it is one.
    pub(crate) fn count(&mut self, passed: bool, indirect: bool)
        ensures { self.new ≡ item_after passed indirect self.old }
    {
        if passed {
            count_one(&mut self.success);
        } else {
            count_one(&mut self.failure);
        }
        if indirect {
            count_one(&mut self.indirect);
        }
    }

    /// How many bytes it is written as.
    pub(crate) fn size(&self) -> usize
        ensures size { result ≡ length (item_spelling self.now) }
        ensures most { result ≤ 36 }
    {
        let netid = text_size(self.key.target.netid);
        match self.key.proc {
            None => 16 + netid,
            Some(_) => 24 + netid,
        }
    }

    /// Writes it as an item of addrinfo, or of rmtinfo if its key has a procedure.
    #[tactic(auto, unfolding(crate::specs::Statistics::item_spelling))]
    pub(crate) fn write(&self, out: &mut Kept, meter: &mut Meter)
        requires tie { meter.old.tie ≡ out.old.tie }
        requires room { HasRoom (item_spelling self.now) out.old }
        ensures written { Appends (item_spelling self.now) out.old out.new }
        ensures cost { Pays meter.old meter.new (length (item_spelling self.now)) }
    {
        let Target { prog, vers, netid } = self.key.target;
        let netid: Text<5> = Text::new(netid.text().as_bytes());
        match self.key.proc {
            None => {
                (prog, (vers, (self.success, (self.failure, netid)))).write(out, meter);
            }
            Some(proc) => {
                let numbers = (self.success, (self.failure, (self.indirect, netid)));
                (prog, (vers, (proc, numbers))).write(out, meter);
            }
        }
    }
}

/// Of no key: what fills a list's room.
impl Default for Item {
    fn default() -> Item {
        let target = Target {
            prog: 0,
            vers: 0,
            netid: Netid::Tcp,
        };
        Item::new(Key {
            version: Version::Two,
            target,
            proc: None,
        })
    }
}
