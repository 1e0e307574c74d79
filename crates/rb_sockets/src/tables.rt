//! The kernel's tables of connections, read in slices.
ghost use Rattle.std.specs.Prelude.{◌≡◌, [], IfOk};
ghost use Rattle.rb_sockets.specs.Tables.{HasReadOnce, HasReadSlice};

use rb_address::Family;
use rb_evidence::{Lines, SLICE, Sight};
use rb_policy::is_nothing_there;
use std::alloc::{AllocError, Global};
use std::fs::{File, Files};
use std::io::ErrorKind;
use std::{fs, io};

/// The most reads of a slice: the system gives a page at a time, of 4,096 bytes.
const READS: usize = SLICE / 4096;

/// What the read of a slice gave.
#[derive(Clone, Copy)]
pub enum Slice {
    /// More of it.
    More,
    /// Its end.
    End,
}

/// A table that could not be read whole.
#[derive(Drop)]
pub struct TableFault {
    /// Where it is.
    pub path: &'static str,
    /// Why.
    pub error: io::Error,
}

/// Where the table of a family is: if folders of other processes are hidden, /proc/self still has it.
fn path_of(family: Family) -> &'static str {
    match family {
        Family::Inet => "/proc/self/net/tcp",
        Family::Inet6 => "/proc/self/net/tcp6",
    }
}

/// One of the kernel's tables of connections at a time, which is open from its first slice to its last.
#[derive(Drop)]
pub struct Table<H: Files> {
    family: Family,
    file: Option<H::File>,
    lines: Lines,
}

impl<H: Files> Table<H> {
    /// None is open. There is room for a slice, if tables are read at all. An error if the allocation is refused.
    pub fn new(alloc: Global, are_read: bool) -> Result<Table<H>, AllocError>
        ensures { IfOk result (λ table. table.lines ≡ []) }
    {
        Ok(Table {
            family: Family::Inet,
            file: None,
            lines: Lines::new(alloc, are_read)?,
        })
    }

    /// Opens the table of a family. Whether there is one: a system without IPv6 has none of IPv6, and no such connection.
    pub fn open(&mut self, rt: &H, family: Family) -> Result<bool, TableFault>
        ensures lines { self.new.lines ≡ [] }
        ensures family { self.new.family ≡ family }
    {
        self.lines.clear();
        self.family = family;
        self.file = None;
        match File::open(rt, path_of(family)) {
            Ok(file) => {
                self.file = Some(file);
                Ok(true)
            }
            Err(error) if is_nothing_there(&error) && is_family_absent(rt, family) => Ok(false),
            Err(error) => Err(self.fault(error)),
        }
    }

    /// Reads the next slice, and looks at the lines that are whole then, for all of the connections that are looked
    /// for. At the end it looks at the last line, and the table is closed; and so it is if it can't be read.
    pub fn read(&mut self, sights: &mut [Option<Sight>]) -> Result<Slice, TableFault>
        ensures { IfOk result (λ slice. HasReadSlice slice
            self.old.lines self.new.lines sights.old sights.new) }
    {
        let mut count = 0usize;
        for _ in 0..READS {
            let came = self.read_once(sights)?;
            if came == 0 {
                return Ok(Slice::End);
            }
            count = count.saturating_add(came);
            if count >= SLICE {
                break;
            }
        }
        Ok(Slice::More)
    }

    /// Reads once, and says how many bytes came.
    fn read_once(&mut self, sights: &mut [Option<Sight>]) -> Result<usize, TableFault>
        ensures { IfOk result (λ count. HasReadOnce count
            self.old.lines self.new.lines sights.old sights.new) }
    {
        let Some(file) = &mut self.file else {
            return Err(self.fault(io::Error::new(ErrorKind::NotFound, "it is not open")));
        };
        match self.lines.read(file) {
            Ok(0) => {
                self.lines.look_at_last(sights);
                self.file = None;
                Ok(0)
            }
            Ok(count) => {
                self.lines.look_at_whole(sights);
                Ok(count)
            }
            Err(error) => {
                self.file = None;
                Err(self.fault(error))
            }
        }
    }

    fn fault(&self, error: io::Error) -> TableFault {
        TableFault {
            path: path_of(self.family),
            error,
        }
    }
}

/// Whether the system, which has no table of a family, has one of IPv4: then it has no IPv6.
fn is_family_absent<R: Files>(rt: &R, family: Family) -> bool {
    family == Family::Inet6 && fs::symlink_metadata(rt, path_of(Family::Inet)).is_ok()
}
