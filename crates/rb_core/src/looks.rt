//! Looks at a core between two events: how many changes it accepted, its clock, and its live rows.
ghost use Rattle.std.specs.Prelude.{◌≡◌, ◌+◌, ◌*◌, length, Some, IfSome, IfNone};
ghost use Rattle.rb_xdr.specs.Meter.{PaysAtMost};
ghost use Rattle.rb_answers.specs.Ledger.{rows_in};
ghost use Rattle.rb_connections.specs.Slots.{Shows};
ghost use Rattle.rb_core.specs.StandsFor.{StandsFor};
ghost use Rattle.rb_core.specs.Looks.{rows_shown, StandsAmong, IsAtStart, row_behind, PassesOne, IsAtEnd, slot_count, slots_behind, PaysForRow, PaysIfLent};

use crate::holding::Core;
use rb_address::Netid;
use rb_registry::{Cursor, Row};
use rb_uaddr::AddressText;
use rb_xdr::Meter;

impl Core {
    /// How many changes were accepted so far: rows set, and removals of at least one row.
    pub fn changes(&self) -> u64
        ensures { Shows StandsFor (λ s. length s.ledger.changes) self.now result }
    {
        self.books.registry.stamp()
    }

    /// The greatest moment of the events so far, in milliseconds since the start of 1970.
    pub fn clock(&self) -> u64
        ensures value { result ≡ self.now.clock }
        ensures clock { Shows StandsFor (λ s. s.clock) self.now result }
    {
        self.clock
    }

    /// The place before the first live row.
    pub fn first_place(&self) -> Cursor
        ensures place { StandsAmong self.now result }
        ensures start { IsAtStart self.now result }
        ensures all { slots_behind self.now result ≡ slot_count self.now }
    {
        // it promises that the rows of this moment can be listed
        self.books.registry.stamp();
        Cursor::start()
    }

    /// The live row after the cursor, which moves on after the row. It stays if no row is after it. From `first_place` on
    /// each of them comes once, the daemon's own first, in their order, and then `None`, if no event comes between. It
    /// costs at most 2 steps for each row after the cursor, retained ones among them, and 1.
    pub(crate) fn lend_row(&self, cursor: &mut Cursor, meter: &mut Meter) -> Option<&Row>
        requires tie { meter.old.tie ≡ self.now.tie }
        requires place { StandsAmong self.now cursor.old }
        ensures row { IfSome result (λ row. row_behind self.now cursor.old ≡ Some row.now) }
        ensures place { StandsAmong self.now cursor.new }
        ensures passed { IfSome result (λ row. PassesOne self.now cursor.old cursor.new) }
        ensures end { IfNone result (IsAtEnd self.now cursor.new) }
        ensures stays { IfNone result (cursor.new ≡ cursor.old) }
        ensures rows { Shows StandsFor (λ s. rows_in s.ledger) self.now (rows_shown self.now) }
        ensures cost { PaysAtMost meter.old meter.new (2 * slots_behind self.now cursor.old + 1) }
        ensures cost_row { PaysIfLent
            self.now cursor.old cursor.new result meter.old meter.new }
    {
        let registry = &self.books.registry;
        match registry.next_row(registry.stamp(), *cursor, meter) {
            Some((next, listed)) => {
                *cursor = next;
                Some(listed.as_row())
            }
            None => None,
        }
    }
}

/// The same row.
fn copy_of(row: &Row) -> Row
    ensures { result ≡ row.now }
{
    Row {
        prog: row.prog,
        vers: row.vers,
        netid: row.netid,
        owner: row.owner,
        addr: AddressText::new(row.addr.as_slice()),
    }
}

impl Core {
    ghost use Rattle.std.specs.Prelude.{◌≡◌, ◌+◌};
    ghost use Rattle.rb_xdr.specs.Meter.{PaysAtMost};
    ghost use Rattle.rb_xdr.specs.Ordered.{looks};
    ghost use Rattle.rb_registry.specs.Rows.{find_exact};
    ghost use Rattle.rb_core.specs.Looks.{rows_held, rows_shown};

    /// The live row of this version of the program on the netid, if there is one. It costs a search in the index, and 1.
    pub fn row_at(&self, prog: u32, vers: u32, netid: Netid, meter: &mut Meter) -> Option<Row>
        requires { meter.old.tie ≡ self.now.tie }
        ensures row { result ≡ find_exact prog vers netid (rows_shown self.now) }
        ensures cost { PaysAtMost meter.old meter.new (looks (rows_held self.now).limit + 1) }
    {
        match self.books.registry.find_exact(prog, vers, netid, meter) {
            Some(row) => Some(copy_of(row)),
            None => None,
        }
    }
}
