//! The rows of one version of a program, found by the index.
ghost use Rattle.std.specs.Prelude.{◌≡◌, ◌≤◌, ◌+◌, length, IfSome, IfNone, Some};
ghost use Rattle.rb_xdr.specs.Meter.{PaysAtMost};
ghost use Rattle.rb_xdr.specs.Ordered.{looks};
ghost use Rattle.rb_xdr.specs.Search.{key_of};
ghost use Rattle.rb_registry.specs.Registry.{rows_of};
ghost use Rattle.rb_registry.specs.Order.{AreInOrder, count_own};
ghost use Rattle.rb_registry.specs.Table.{OwnAreOurs};
ghost use Rattle.rb_registry.specs.Versions.{version_cost, next_cost, is_later_version, IsNextOf, IsFoundIn, place_on, later_at, later_than, earlier_of, added_at, HasNoOwn};

use crate::listed::ListedRow;
use crate::registry::Registry;
use crate::row::{RPCB_PROG, rank};
use crate::table::Table;
use rb_address::Netid;
use rb_xdr::Meter;
use std::marker::Model;

/// Where a row was found: the change that added it, and its key. None was found if the change is 0.
#[derive(Drop)]
struct Place {
    added: u64,
    key: usize,
}

impl Model for Place {
    ghost use Rattle.std.specs.Prelude.{ℕ, Option};
    ghost use Rattle.rb_registry.specs.Places.{place_in};

    ghost Value = { Option (ℕ × ℕ) };

    ghost view = { λ place. place_in place.added place.key };
}

/// A version of a program, and its rows that changes added, as the index finds them on each netid.
#[derive(Drop)]
pub struct Version {
    /// The program.
    pub prog: u32,
    /// The version.
    pub vers: u32,
    places: [Place; 5],
}

impl Registry {
    // LOOKUP-4
    /// The rows of a version, found by a search for each netid, or where the one before it was found. It costs these searches,
    /// and two steps for each.
    #[inline(never)]
    pub fn version(&self, prog: u32, vers: u32, meter: &mut Meter) -> Version
        requires { meter.old.tie ≡ self.now.tie }
        ensures prog { result.prog ≡ prog }
        ensures vers { result.vers ≡ vers }
        ensures found { IsFoundIn self.now result }
        ensures cost { PaysAtMost meter.old meter.new (version_cost self.now) }
    {
        let mut likely = 0;
        let places = [
            self.place_on(prog, vers, Netid::Tcp, &mut likely, meter),
            self.place_on(prog, vers, Netid::Udp, &mut likely, meter),
            self.place_on(prog, vers, Netid::Tcp6, &mut likely, meter),
            self.place_on(prog, vers, Netid::Udp6, &mut likely, meter),
            self.place_on(prog, vers, Netid::Local, &mut likely, meter),
        ];
        Version { prog, vers, places }
    }

    /// The change that added the live row of the version on a netid, and its key, if a change did. Its number is likely at this
    /// place in the index, and the next one behind it.
    fn place_on(
        &self,
        prog: u32,
        vers: u32,
        netid: Netid,
        likely: &mut usize,
        meter: &mut Meter,
    ) -> Place
        requires { meter.old.tie ≡ self.now.tie }
        ensures place { result ≡ place_on prog vers self.now.entries netid }
        ensures cost { PaysAtMost meter.old meter.new (looks (length (rows_of self.now)) + 2) }
    {
        let key = self.index.find_at(rank(prog, netid, vers), likely, meter);
        place_under(&self.slots, key, meter)
    }

    /// The next live row of the version after the place, with its key: an own row, or that of the earliest change.
    pub(crate) fn version_after(
        &self,
        version: &Version,
        start: Option<usize>,
        meter: &mut Meter,
    ) -> Option<(usize, &ListedRow)>
        requires tie { meter.old.tie ≡ self.now.tie }
        requires found { IsFoundIn self.now version.now }
        ensures next { IsNextOf version.now.prog version.now.vers self.now.entries start result }
        ensures cost { PaysAtMost meter.old meter.new next_cost }
    {
        let after = added_at(&self.slots, start, meter)?;
        let (prog, vers) = (version.prog, version.vers);
        if let Some(found) = own_after(&self.slots, prog, vers, start, after, meter) {
            return Some(found);
        }
        let key = self.earliest_after(version, after)?;
        let slot = self.slots.get(key, meter)?;
        Some((key, &slot.row))
    }

    /// The key of the row of the version that was added first, of those that a later change than this one added.
    fn earliest_after(&self, version: &Version, after: u64) -> Option<usize>
        requires { IsFoundIn self.now version.now }
        ensures key { result
            ≡ key_of (is_later_version version.now.prog version.now.vers after) self.now.entries }
    {
        // The places need what the table is between two calls.
        let _ = &self.slots;
        let mut best = Place::none();
        'places: for place in &version.places {
            best = best.earlier_after(place, after);
        }
        best.key()
    }
}

/// The next own row of the version after the place, with its key; the row before the place was added by this change. There is none
/// after a row that a change added, nor of another program than the portmapper's.
fn own_after<'a>(
    slots: &'a Table,
    prog: u32,
    vers: u32,
    start: Option<usize>,
    after: u64,
    meter: &mut Meter,
) -> Option<(usize, &'a ListedRow)>
    requires tie { meter.old.tie ≡ slots.now.tie }
    requires added { Some after ≡ added_at slots.now.entries start }
    requires ordered { AreInOrder 0 slots.now.entries }
    requires few { count_own slots.now.entries ≤ 12 }
    requires ours { OwnAreOurs slots.now.entries }
    ensures next { IfSome result (λ n. IsNextOf prog vers slots.now.entries start (Some n)) }
    ensures none { IfNone result (HasNoOwn prog vers slots.now.entries start) }
    ensures cost { PaysAtMost meter.old meter.new 26 }
{
    if prog != RPCB_PROG {
        return None;
    }
    if after > 0 {
        return None;
    }
    let mut place = start;
    'rows: while let Some((key, slot)) = slots.entry_after(place, meter) {
        if slot.added > 0 {
            return None;
        }
        if slot.is_version_now(prog, vers) {
            return Some((key, &slot.row));
        }
        place = Some(key);
    }
    None
}

/// The change that added the row before the place, and 0 if the place is before all rows.
fn added_at(slots: &Table, place: Option<usize>, meter: &mut Meter) -> Option<u64>
    requires tie { meter.old.tie ≡ slots.now.tie }
    ensures added { result ≡ added_at slots.now.entries place }
    ensures cost { PaysAtMost meter.old meter.new 1 }
{
    match place {
        None => Some(0),
        Some(key) => {
            let slot = slots.get(key, meter)?;
            Some(slot.added)
        }
    }
}

/// The row under a key, if a change added it.
fn place_under(slots: &Table, key: Option<usize>, meter: &mut Meter) -> Place
    requires { meter.old.tie ≡ slots.now.tie }
    ensures place { result ≡ later_at 0 slots.now.entries key }
    ensures cost { PaysAtMost meter.old meter.new 1 }
{
    let Some(key) = key else {
        return Place::none();
    };
    match slots.get(key, meter) {
        Some(slot) => Place {
            added: slot.added,
            key,
        },
        None => Place::none(),
    }
}

impl Place {
    ghost use Rattle.std.specs.Prelude.{None, option_map};

    /// None was found.
    fn none() -> Place
        ensures { result ≡ None }
    {
        Place { added: 0, key: 0 }
    }

    /// That of the row which came first, of this one and of the other, if that came after a change.
    fn earlier_after(self, other: &Place, after: u64) -> Place
        ensures { result ≡ earlier_of self (later_than after other.now) }
    {
        if after < other.added && (self.added == 0 || other.added < self.added) {
            Place {
                added: other.added,
                key: other.key,
            }
        } else {
            self
        }
    }

    /// Its key, if one was found.
    fn key(&self) -> Option<usize>
        ensures { result ≡ option_map (λ place. place.1) self.now }
    {
        if self.added == 0 {
            None
        } else {
            Some(self.key)
        }
    }
}
