//! The kernel's tables of connections, as turns walk through them.
ghost use Rattle.std.specs.Prelude.{◌≡◌, true};
ghost use Rattle.rb_around.specs.FirstFaults.{first_fault};

use rb_address::Family;
use rb_links::Places;
use rb_policy::Share;
use rb_sockets::{Slice, Table, TableFault};
use std::fs::Files;

/// The kernel's tables of connections, and how far a pass through them has come.
#[derive(Drop)]
pub struct Tables<H: Files> {
    table: Table<H>,
    /// The family of the one that is walked through, if a pass goes on.
    walk: Option<Family>,
    /// How much of the time they are read.
    share: Share,
    /// The first fault of one, until it is told, and whether there was one.
    pub fault: Option<TableFault>,
    has_failed: bool,
}

impl<H: Files> Tables<H> {
    /// No pass goes on.
    pub fn new(table: Table<H>) -> Tables<H> {
        Tables {
            table,
            walk: None,
            share: Share::new(),
            fault: None,
            has_failed: false,
        }
    }

    /// A turn begins at this moment.
    pub fn begin_turn(&mut self, now: u64) {
        self.share.begin_turn(now);
    }

    /// Whether a pass goes on.
    pub fn is_walking(&self) -> bool {
        self.walk.is_some()
    }

    // TABLES-6: A pass through the kernel's tables begins at once when a call needs one, unless one
    // goes on, and is for all that wait then; who comes meanwhile waits for the next.
    // TABLES-8: When a connection is given up for a client that comes, a pass shows of all from this
    // host whose they are.
    /// Reads a slice, if a connection waits for it and this turn may: each turn may in which nothing else was to be done. A
    /// pass begins at once, unless one goes on, and is for all that wait then. Returns whether all were looked at.
    pub fn look(&mut self, host: &H, places: &mut Places, now: u64, is_idle: bool) -> bool {
        if self.walk.is_none() && !places.are_sought() || !self.share.reads(now, is_idle) {
            return false;
        }
        if self.walk.is_none() {
            places.begin_pass();
            if self.begin(host, places) {
                return true;
            }
        }
        self.read(host, places)
    }

    /// Reads a slice. Returns whether all were looked at.
    fn read(&mut self, host: &H, places: &mut Places) -> bool {
        let Some(family) = self.walk else {
            return false;
        };
        match self.table.read(places.sights()) {
            Ok(Slice::More) => false,
            Ok(Slice::End) => self.end_walk(host, places, family, true),
            Err(fault) => {
                self.note_fault(fault);
                self.end_walk(host, places, family, false)
            }
        }
    }

    /// A pass begins in the first table in which something is looked for. Returns whether there is none.
    fn begin(&mut self, host: &H, places: &mut Places) -> bool {
        if self.walks_in(host, places, Family::Inet) {
            self.walk = Some(Family::Inet);
            return false;
        }
        self.begin_last(host, places)
    }

    /// A pass goes on in the table of IPv6, or ends, if nothing is looked for there. Returns whether it ends.
    fn begin_last(&mut self, host: &H, places: &mut Places) -> bool {
        if self.walks_in(host, places, Family::Inet6) {
            self.walk = Some(Family::Inet6);
            return false;
        }
        self.walk = None;
        true
    }

    /// Opens the table of a family, if something is looked for there. Whether it is open.
    fn walks_in(&mut self, host: &H, places: &mut Places, family: Family) -> bool {
        if !places.begin_walk(family) {
            return false;
        }
        match self.table.open(host, family) {
            Ok(true) => true,
            Ok(false) => {
                places.end_walk(true);
                false
            }
            Err(fault) => {
                self.note_fault(fault);
                places.end_walk(false);
                false
            }
        }
    }

    /// The walk through a table is over, which came to its end or could not go on. Returns whether the pass is.
    fn end_walk(&mut self, host: &H, places: &mut Places, family: Family, is_whole: bool) -> bool {
        places.end_walk(is_whole);
        match family {
            Family::Inet => self.begin_last(host, places),
            Family::Inet6 => {
                self.walk = None;
                true
            }
        }
    }

    /// A table could not be read whole, which must be told if it is the first time.
    fn note_fault(&mut self, fault: TableFault)
        ensures fault { self.new.fault ≡ first_fault self.old.has_failed self.old.fault fault }
        ensures failed { self.new.has_failed ≡ true }
    {
        if !self.has_failed {
            self.has_failed = true;
            self.fault = Some(fault);
        }
    }
}
