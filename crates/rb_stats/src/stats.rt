//! The statistics of a daemon.
use crate::counts::Counts;
use crate::key::{Key, Target, Version};
use crate::stat::{AllLists, write_stat};
use crate::table::Items;
use rb_xdr::{Full, Kept, Meter, NoMemory};
use std::alloc::Global;
use std::marker::Model;

/// What was called, by versions (RFC 1833 section 2.1, rpcb_stat_byvers): how often each procedure,
/// how many SETs and UNSETs answered TRUE, which addresses were looked up, and where calls were
/// forwarded to.
///
/// Each count stops at 2^31 - 1. Each of the two lists of a version has the first 32 keys that were noted; calls with
/// any other key are not counted in it. `new` takes the memory for all 192 keys.
#[derive(Drop)]
pub struct Stats {
    two: Counts,
    three: Counts,
    four: Counts,
    items: Items,
}

/// Names each field, so that a further one does not compile until it stands here. It belongs in the table of
/// charges of crates/rb_core/README.md first.
fn layout(stats: &Stats) {
    let Stats {
        two,
        three,
        four,
        items,
    } = stats;
    let _: [Counts; 3] = [*two, *three, *four];
    let _: &Items = items;
}

impl Model for Stats {
    ghost use Rattle.rb_stats.specs.declared.key.Version.TheVariants.{Two, Three, Four};
    ghost use Rattle.rb_stats.specs.Stats.{Stats as Contents};
    ghost use Rattle.rb_stats.specs.Table.{stat_in, HasProcedures};

    ghost Value = { Contents };

    ghost view = { λ s. record {
      two = stat_in Two s.two s.items.all;
      three = stat_in Three s.three s.items.all;
      four = stat_in Four s.four s.items.all;
      memory = s.items.memory;
      tie = s.items.tie;
    } };

    ghost invariant = { λ s. HasProcedures s.two × HasProcedures s.three × HasProcedures s.four };
}

impl Stats {
    ghost use Rattle.std.specs.Prelude.{◌≡◌, ◌≤◌, ◌+◌, ◌*◌, ◌++◌, [], ◌↔◌, length, IfOk, IsOk, OnOk, OnErr};
    ghost use Rattle.rb_xdr.specs.Meter.{Pays, PaysAtMost};
    ghost use Rattle.rb_stats.specs.Lists.{AreListsOf, lists_size};
    ghost use Rattle.rb_stats.specs.Statistics.{greatest_int};
    ghost use Rattle.rb_stats.specs.Statistics.Note.{Called, WasSet, WasUnset, LookedUp, Forwarded};
    ghost use Rattle.rb_stats.specs.Stats.{StandsForHistory, SameFrame, key_count, most_keys};
    ghost use Rattle.rb_stats.specs.Counting.{HasNoted, SpellsHistory, spelling, put_cost, calls_at};

    /// Nothing was called. `NoMemory` if the memory for the 192 keys is refused. It costs nothing.
    pub fn new(alloc: Global, meter: &mut Meter) -> Result<Stats, NoMemory>
        ensures made { IfOk result (λ made. StandsForHistory made []) }
        ensures tie { IfOk result (λ made. made.tie ≡ meter.old.tie) }
        ensures free { meter.new ≡ meter.old }
    {
        Ok(Stats {
            two: Counts::new(),
            three: Counts::new(),
            four: Counts::new(),
            items: Items::new(alloc, meter)?,
        })
    }

    /// Statistics begin anew: nothing was called. It costs 2 steps for each key, and 1.
    pub fn clear(&mut self, meter: &mut Meter)
        requires { meter.old.tie ≡ self.old.tie }
        ensures cleared { StandsForHistory self.new [] }
        ensures frame { SameFrame self.old self.new }
        ensures few { key_count self.old ≤ most_keys }
        ensures cost { Pays meter.old meter.new (2 * key_count self.old + 1) }
    {
        self.two = Counts::new();
        self.three = Counts::new();
        self.four = Counts::new();
        self.items.clear(meter);
    }

    // STAT-1
    /// Notes a call of a procedure of the version, whatever its arguments.
    ///
    /// A procedure above 12 is in no count; a count of 2^31 - 1 stays. It costs nothing.
    pub fn note_call(&mut self, version: Version, proc: u32)
        ensures history { HasNoted (Called version proc) self.old self.new }
        ensures full { calls_at version proc self.old ≡ greatest_int → self.new ≡ self.old }
        ensures frame { SameFrame self.old self.new }
    {
        match version {
            Version::Two => self.two.count_call(proc),
            Version::Three => self.three.count_call(proc),
            Version::Four => self.four.count_call(proc),
        }
    }

    /// Notes a SET of the version that answered TRUE; a count of 2^31 - 1 stays. It costs nothing.
    pub fn note_set(&mut self, version: Version)
        ensures history { HasNoted (WasSet version) self.old self.new }
        ensures frame { SameFrame self.old self.new }
    {
        match version {
            Version::Two => self.two.count_set(),
            Version::Three => self.three.count_set(),
            Version::Four => self.four.count_set(),
        }
    }

    /// Notes an UNSET of the version that answered TRUE; a count of 2^31 - 1 stays. It costs nothing.
    pub fn note_unset(&mut self, version: Version)
        ensures history { HasNoted (WasUnset version) self.old self.new }
        ensures frame { SameFrame self.old self.new }
    {
        match version {
            Version::Two => self.two.count_unset(),
            Version::Three => self.three.count_unset(),
            Version::Four => self.four.count_unset(),
        }
    }

    /// Notes a GETPORT, GETADDR or GETVERSADDR of the version: what it asked for, and whether a row
    /// was found.
    ///
    /// It costs at most 2 steps for each key and 2.
    pub fn note_addr(&mut self, version: Version, target: Target, found: bool, meter: &mut Meter)
        requires { meter.old.tie ≡ self.old.tie }
        ensures history { HasNoted (LookedUp version target found) self.old self.new }
        ensures frame { SameFrame self.old self.new }
        ensures few { key_count self.old ≤ most_keys }
        ensures cost { PaysAtMost meter.old meter.new (2 * key_count self.old + 2) }
    {
        let key = Key {
            version,
            target,
            proc: None,
        };
        self.items.count(key, found, false, meter);
    }

    /// Notes a CALLIT, BCAST or INDIRECT of the version when it ends: the target and its procedure, whether the
    /// target's results came back, and whether it was INDIRECT.
    ///
    /// It costs at most 2 steps for each key and 2.
    pub fn note_remote(
        &mut self,
        version: Version,
        target: Target,
        proc: u32,
        passed: bool,
        indirect: bool,
        meter: &mut Meter,
    )
        requires { meter.old.tie ≡ self.old.tie }
        ensures history { HasNoted (Forwarded version target proc passed indirect) self.old self.new }
        ensures frame { SameFrame self.old self.new }
        ensures few { key_count self.old ≤ most_keys }
        ensures cost { PaysAtMost meter.old meter.new (2 * key_count self.old + 2) }
    {
        let key = Key {
            version,
            target,
            proc: Some(proc),
        };
        self.items.count(key, passed, indirect, meter);
    }

    /// Puts the statistics of versions 2, 3 and 4 after what the buffer has (RFC 1833 section
    /// 2.2.2, RPCBPROC_GETSTAT).
    ///
    /// `Full`, with the buffer as it was, if it would then have more than `limit` bytes. It costs at most 6 steps
    /// for each key, the number of bytes put, and 4.
    pub fn put(&self, limit: usize, out: &mut Kept, meter: &mut Meter) -> Result<(), Full>
        requires tie { meter.old.tie ≡ self.now.tie }
        requires out { meter.old.tie ≡ out.old.tie }
        requires limit { limit ≤ out.old.cap }
        ensures history { SpellsHistory self.now }
        ensures room { IsOk result ↔
            (length out.old.bytes + length (spelling self.now) ≤ limit) }
        ensures ok { OnOk result (out.new
            ≡ record out.old { bytes = out.old.bytes ++ spelling self.now }) }
        ensures unchanged { OnErr result (out.new ≡ out.old) }
        ensures within { length out.old.bytes ≤ limit → length out.new.bytes ≤ limit }
        ensures cap { out.new.cap ≡ out.old.cap }
        ensures tie { out.new.tie ≡ out.old.tie }
        ensures few { key_count self.now ≤ most_keys }
        ensures cost { PaysAtMost meter.old meter.new (put_cost self.now out.old out.new) }
    {
        let lists = self.lists(meter);
        if limit.saturating_sub(out.len(meter)) < lists.size() {
            return Err(Full { value: () });
        }
        self.write(&lists, out, meter);
        Ok(())
    }

    fn lists(&self, meter: &mut Meter) -> AllLists
        requires { meter.old.tie ≡ self.now.tie }
        ensures lists { AreListsOf self.now result }
        ensures size { length (spelling self.now) ≡ lists_size result }
        ensures few { key_count self.now ≤ most_keys }
        ensures cost { PaysAtMost meter.old meter.new (6 * key_count self.now + 3) }
    {
        AllLists {
            two: self.items.lists(Version::Two, meter),
            three: self.items.lists(Version::Three, meter),
            four: self.items.lists(Version::Four, meter),
        }
    }

    #[tactic(auto, unfolding(crate::specs::Counting::spelling))]
    fn write(&self, lists: &AllLists, out: &mut Kept, meter: &mut Meter)
        requires tie { meter.old.tie ≡ out.old.tie }
        requires lists { AreListsOf self.now lists.now }
        requires room { length out.old.bytes + length (spelling self.now) ≤ out.old.cap }
        ensures written { out.new
            ≡ record out.old { bytes = out.old.bytes ++ spelling self.now } }
        ensures cost { Pays meter.old meter.new (length (spelling self.now)) }
    {
        write_stat(&self.two, &lists.two, out, meter);
        write_stat(&self.three, &lists.three, out, meter);
        write_stat(&self.four, &lists.four, out, meter);
    }

    /// How many bytes are held: 48 for each key, at most 9,216.
    pub fn held(&self) -> u64
        ensures held { result ≡ 48 * key_count self.now }
        ensures within { result ≤ 48 * 192 }
    {
        48 * self.items.len()
    }
}
