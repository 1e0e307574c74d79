//! The rows that were set are kept in a file: all of them, and then the lines of each change.
ghost use Rattle.std.specs.Prelude.{◌≡◌, ◌≢◌, nat_le, [], true, IsTrue, IfSome, OnOk};
ghost use Rattle.rb_connections.specs.Slots.{Shows};
ghost use Rattle.rb_core.specs.StandsFor.{StandsFor};
ghost use Rattle.rb_engine.specs.Writing.{NotesOwners};
ghost use Rattle.rb_engine.specs.Served.{change_count};
ghost use Rattle.rb_files.specs.Kept.{Grows, WasWritten};
ghost use Rattle.rb_engine.specs.Keeping.{AreLinesOfRows, AddsLines, AddsLinesOf, Notes, lines_next, most_changes, Takes, Writes, Keeps, SameEngine};

use crate::engine::Engine;
use rb_files::{AppendFault, KeptFile};
use rb_keep::{LONGEST_SET, Owners};
use rb_registry::RPCB_PROG;
use rb_settings::KeepNews;
use std::alloc::{AllocError, Global};
use std::fs::Files;
use std::io;

/// The length of the longest line of a row: the word `datagram`, a moment of 20 digits, a caller of 11 bytes, the call in two
/// digits for each byte, and what is between them.
const LONGEST_LINE: usize = 43 + 2 * LONGEST_SET;

/// The most changes whose lines are added at once; if there are more, all rows are written anew.
const MOST_CHANGES: usize = 64;

/// The most lines of that many changes: an UNSET removes a row on each netid.
const MOST_LINES: usize = 5 * MOST_CHANGES;

/// How many changes were accepted that the keeper has taken up: their lines are in the file, or it failed.
#[derive(Clone, Copy)]
pub struct Kept {
    changes: u64,
}

/// The file of kept rows, and the lines that are to be added to it.
#[derive(Drop)]
struct Journal<H: Files> {
    file: KeptFile<H>,
    /// How many lines it has.
    lines: usize,
    /// Whose the rows are, after the changes that were noted.
    owners: Owners,
    /// How many changes had been accepted when the last one was noted.
    noted: u64,
    /// Whether each of them was noted, so that the owners are known.
    is_known: bool,
    /// The lines that are written next, or were last: there is room for those of all rows.
    text: Vec<u8>,
    /// Of how many changes they are.
    changes: usize,
    /// Whether there were more.
    is_long: bool,
}

/// How many lines a text has.
fn count_lines(text: &[u8]) -> usize {
    text.iter().filter(|byte| **byte == b'\n').count()
}

impl<H: Files> Journal<H> {
    ghost use Rattle.std.specs.Prelude.{None, OnErr};

    fn new(alloc: Global, path: &str, rows: usize) -> Result<Journal<H>, AllocError> {
        let mut text = Vec::new(alloc);
        text.resize(rows.max(MOST_LINES).saturating_mul(LONGEST_LINE), 0)?;
        text.clear();
        let Ok(owners) = Owners::new(alloc, rows) else {
            return Err(AllocError);
        };
        Ok(Journal {
            file: KeptFile::new(alloc, path)?,
            lines: 0,
            owners,
            noted: 0,
            is_known: true,
            text,
            changes: 0,
            is_long: false,
        })
    }

    /// Adds the lines of what changed of a version of a program to those that are written next.
    fn gather(&mut self, engine: &mut Engine, prog: u32, vers: u32) -> io::Result<()>
        ensures lines { OnOk result (AddsLinesOf
            engine.old.core.core prog vers self.old.owners self.old.text.items self.new.text.items) }
        ensures owners { OnOk result
            (NotesOwners engine.old.core.core prog vers self.old.owners self.new.owners) }
        ensures file { self.new.file.placed ≡ self.old.file.placed }
        ensures engine { SameEngine engine.old engine.new }
    {
        engine.write_change(&mut self.owners, prog, vers, &mut self.text)
    }

    /// Nothing is written next so far.
    fn begin(&mut self)
        ensures text { self.new.text.items ≡ [] }
        ensures owners { self.new.owners ≡ self.old.owners }
        ensures file { self.new.file.placed ≡ self.old.file.placed }
    {
        self.text.clear();
        self.changes = 0;
        self.is_long = false;
    }

    /// Whether there is no room for the lines of another change.
    fn is_full(&self) -> bool
        ensures { result ≡ nat_le most_changes self.now.changes }
    {
        self.changes >= MOST_CHANGES
    }

    /// The lines that are written next begin anew after a write, and if there are too many.
    fn make_room(&mut self)
        ensures text { self.new.text.items ≡ lines_next self.old.changes self.old.text.items }
        ensures owners { self.new.owners ≡ self.old.owners }
        ensures file { self.new.file.placed ≡ self.old.file.placed }
    {
        if self.is_full() {
            self.begin();
            self.is_long = true;
        } else if self.changes == 0 {
            self.text.clear();
        }
    }

    /// Notes the change that the last call of the engine made: its lines are written next. Returns whether there are some.
    fn note_next(&mut self, engine: &mut Engine) -> bool
        ensures lines { IsTrue result
            → AddsLines engine.old.core.core self.old.owners self.new.owners
            (lines_next self.old.changes self.old.text.items) self.new.text.items }
        ensures file { self.new.file.placed ≡ self.old.file.placed }
        ensures engine { SameEngine engine.old engine.new }
    {
        let Some((prog, vers)) = engine.changed() else {
            return false;
        };
        if prog == RPCB_PROG {
            return false;
        }
        self.make_room();
        self.changes = self.changes.saturating_add(1);
        let before = self.text.as_slice().len();
        match self.gather(engine, prog, vers) {
            Ok(()) => before < self.text.as_slice().len(),
            Err(_) => false,
        }
    }

    // KEEP-19: The lines of each change stand behind those of the changes before it that are not written yet.
    /// Notes the change that was made since the last one was noted, if there was one.
    fn note(&mut self, engine: &mut Engine)
        ensures lines { IsTrue self.new.is_known
            → Notes engine.old.core.core self.old.noted self.old.owners self.new.owners
            self.old.changes self.old.text.items self.new.text.items }
        ensures noted { Shows StandsFor change_count engine.old.core.core self.new.noted }
        ensures file { self.new.file.placed ≡ self.old.file.placed }
        ensures engine { SameEngine engine.old engine.new }
    {
        let changes = engine.changes();
        if changes == self.noted {
            return;
        }
        let is_next = self.noted.checked_add(1) == Some(changes);
        self.is_known = self.is_known && is_next && self.note_next(engine);
        self.noted = changes;
    }

    /// Writes all rows anew.
    fn replace(&mut self, host: &H, engine: &mut Engine) -> io::Result<()>
        ensures lines { OnOk result (AreLinesOfRows engine.old.core.core self.new.text.items) }
        ensures taken { OnOk result (WasWritten self.new.file.placed
            (λ placed. placed.file) H.File.contents self.new.text.items) }
        ensures failed { OnErr result (self.new.file.placed ≡ None) }
        ensures engine { SameEngine engine.old engine.new }
    {
        self.file.leave();
        self.text.clear();
        engine.write_rows(&mut self.text)?;
        self.lines = count_lines(&self.text);
        self.file.replace(host, self.text.as_slice())
    }

    // KEEP-15: All kept rows are written anew at the first change after a start, after a failed write, and
    // when the lines would be more than twice the rows and 64 more.
    /// Whether the lines that were gathered may be added.
    fn may_add(&self) -> bool
        ensures { IsTrue result → IsTrue self.now.is_known }
    {
        let lines = self.lines.saturating_add(count_lines(&self.text));
        self.is_known
            && !self.is_long
            && self.file.is_placed()
            && lines <= self.owners.count().saturating_mul(2).saturating_add(64)
    }

    /// Adds the lines that were gathered.
    fn add(&mut self, host: &H) -> Result<(), AppendFault>
        ensures taken { OnOk result (Grows self.old.file.placed self.new.file.placed
            (λ placed. placed.file) H.File.contents self.old.text.items) }
        ensures failed { OnErr result (self.new.file.placed ≡ None) }
    {
        self.file.append(host, self.text.as_slice())?;
        self.lines = self.lines.saturating_add(count_lines(&self.text));
        Ok(())
    }

    /// Brings the file up to the rows of the core: the lines that were gathered are added, or all rows are written anew.
    /// Returns whether another file was found in its place. After an error all rows are written anew.
    fn keep(&mut self, host: &H, engine: &mut Engine) -> io::Result<bool>
        ensures taken { OnOk result (Takes
            engine.old.core.core self.old.is_known self.old.text.items
            self.old.file.placed self.new.file.placed (λ placed. placed.file) H.File.contents) }
        ensures failed { OnErr result (self.new.file.placed ≡ None) }
        ensures engine { SameEngine engine.old engine.new }
    {
        let mut is_another = false;
        if self.may_add() {
            match self.add(host) {
                Ok(()) => return Ok(false),
                Err(AppendFault::Another) => is_another = true,
                Err(AppendFault::Failed(error)) => return Err(error),
            }
        }
        self.replace(host, engine)?;
        Ok(is_another)
    }

    /// Notes the change that was made since the last one was noted, if there was one, and brings the file up to the rows of the
    /// core. Returns whether another file was found in its place.
    fn write(&mut self, host: &H, engine: &mut Engine) -> io::Result<bool>
        ensures written { OnOk result (Writes engine.old.core.core
            self.old.noted self.old.owners self.old.changes self.old.text.items
            self.old.file.placed self.new.file.placed (λ placed. placed.file) H.File.contents) }
        ensures engine { SameEngine engine.old engine.new }
    {
        self.note(engine);
        let done = self.keep(host, engine);
        self.changes = 0;
        self.is_long = false;
        done
    }
}

/// Where the rows are kept that were set, if that is asked for.
#[derive(Drop)]
pub struct Keeper<H: Files> {
    journal: Option<Journal<H>>,
    /// How many changes had been accepted when it was last written, or that was tried.
    changes: u64,
    /// Whether that failed.
    has_failed: bool,
    /// What is yet to be told.
    news: Option<KeepNews>,
}

impl<H: Files> Keeper<H> {
    ghost use Rattle.std.specs.Prelude.{false, None, IfOk, is_some};
    ghost use Rattle.rb_engine.specs.Keeping.{news_if_written, news_if_failed, AreTaken};

    /// A keeper of at most this many rows in the file at a path. Without a path nothing is kept. An error if an allocation is
    /// refused.
    pub(crate) fn new(
        alloc: Global,
        path: Option<&str>,
        rows: usize,
    ) -> Result<Keeper<H>, AllocError>
        ensures asked { IfOk result (λ keeper. is_some keeper.journal ≡ is_some path.entry) }
        ensures news { IfOk result (λ keeper. keeper.news ≡ None) }
    {
        let journal = match path {
            Some(path) => Some(Journal::new(alloc, path, rows)?),
            None => None,
        };
        Ok(Keeper {
            journal,
            changes: 0,
            has_failed: false,
            news: None,
        })
    }

    /// That all changes of the core are taken up, if they are: none waits to be written.
    pub fn kept(&self, engine: &Engine) -> Option<Kept>
        ensures changes { IfSome result
            (λ kept. Shows StandsFor change_count engine.now.core.core kept.changes) }
        ensures taken { IfSome result
            (λ kept. AreTaken self.now.journal self.now.changes kept.changes) }
    {
        let changes = engine.changes();
        if self.journal.is_none() || changes == self.changes {
            Some(Kept { changes })
        } else {
            None
        }
    }

    /// The file has what was noted so far.
    pub(crate) fn begin(&mut self, engine: &Engine) {
        self.changes = engine.changes();
        if let Some(journal) = &mut self.journal {
            journal.begin();
        }
    }

    /// Notes what the last call of the engine changed, so that its lines are written next.
    pub(crate) fn note(&mut self, engine: &mut Engine)
        ensures engine { SameEngine engine.old engine.new }
    {
        if let Some(journal) = &mut self.journal {
            journal.note(engine);
        }
    }

    /// Notes what the last call of the engine changed, so that its lines are written with those of the other changes; at
    /// once, if there is no room for another.
    pub fn gather(&mut self, host: &H, engine: &mut Engine)
        ensures engine { SameEngine engine.old engine.new }
    {
        self.note(engine);
        if self
            .journal
            .as_ref()
            .is_some_and(|journal| journal.is_full())
        {
            self.keep(host, engine);
        }
    }

    /// Adds the lines of the changes that were accepted since the file was last written, or writes it anew. If that
    /// fails, the next change tries again. All changes of the core are taken up then.
    pub fn keep(&mut self, host: &H, engine: &mut Engine) -> Kept
        ensures changes { Shows StandsFor change_count engine.new.core.core result.changes }
        ensures kept { result.changes ≢ self.old.changes
            → Keeps self.old.journal self.new.journal self.new.has_failed
            (λ old new. Writes engine.old.core.core
            old.noted old.owners old.changes old.text.items
            old.file.placed new.file.placed (λ placed. placed.file) H.File.contents) }
        ensures engine { SameEngine engine.old engine.new }
    {
        let changes = engine.changes();
        if changes != self.changes {
            self.changes = changes;
            self.write(host, engine);
        }
        Kept { changes }
    }

    fn write(&mut self, host: &H, engine: &mut Engine)
        ensures kept { Keeps self.old.journal self.new.journal self.new.has_failed
            (λ old new. Writes engine.old.core.core
            old.noted old.owners old.changes old.text.items
            old.file.placed new.file.placed (λ placed. placed.file) H.File.contents) }
        ensures engine { SameEngine engine.old engine.new }
    {
        let Some(journal) = &mut self.journal else {
            return;
        };
        match journal.write(host, engine) {
            Ok(is_another) => self.note_written(is_another),
            Err(error) => self.note_failure(error),
        }
    }

    /// A write went well. That must be told once after a failure that was told.
    fn note_written(&mut self, is_another: bool)
        ensures journal { self.new.journal ≡ self.old.journal }
        ensures news { self.new.news
            ≡ news_if_written self.old.has_failed self.old.news is_another }
        ensures failed { self.new.has_failed ≡ false }
    {
        if self.has_failed {
            self.news = match self.news.take() {
                Some(_) => None,
                None => Some(KeepNews::Written),
            };
        } else if is_another {
            self.news = Some(KeepNews::Another);
        }
        self.has_failed = false;
    }

    /// A write failed. The first one after a write that went well must be told.
    fn note_failure(&mut self, error: io::Error)
        ensures news { self.new.news ≡ news_if_failed self.old.has_failed self.old.news error }
        ensures failed { self.new.has_failed ≡ true }
    {
        if !self.has_failed {
            self.news = Some(KeepNews::Failed(error));
        }
        self.has_failed = true;
    }

    /// Whether something is yet to be told.
    pub fn has_news(&self) -> bool {
        self.news.is_some()
    }

    /// What is yet to be told.
    pub fn take_news(&mut self) -> Option<KeepNews>
        ensures news { result ≡ self.old.news }
        ensures told { self.new.news ≡ None }
    {
        self.news.take()
    }
}
