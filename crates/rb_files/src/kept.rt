//! A file that is replaced as a whole, and to which text is added.
ghost use Rattle.std.specs.Prelude.{◌≡◌, string_bytes, IfOk, OnOk};
ghost use Rattle.std.specs.Io.KnownBytes.{Appends};

use crate::identity::{Identity, identity_of, is_same_file};
use crate::new::new_file;
use std::alloc::{AllocError, Global};
use std::fs::{Files, Metadata, OpenFile};
use std::io::Write;
use std::{fs, io};

/// What the name of the file beside ends with.
const NEW: &str = ".new";

/// Why text was not added to a file.
#[derive(Drop)]
pub enum AppendFault {
    /// What is at the path is not the file that was put there, or somebody else wrote to it: nothing was added.
    Another,
    /// The system refused a step. A part of the text may be in the file.
    Failed(io::Error),
}

/// A file that was put in place, while text is added to it.
#[derive(Drop)]
struct Placed<H: Files> {
    file: H::File,
    identity: Identity,
}

/// A file that is replaced as a whole, and to which text is added: who opens it finds the old text or the new one, and
/// a part only of what was added last.
#[derive(Drop)]
pub struct KeptFile<H: Files> {
    path: String,
    beside: String,
    /// The file that was put in place last, if text may be added to it.
    placed: Option<Placed<H>>,
    /// How many bytes it has.
    len: u64,
}

impl<H: Files> KeptFile<H> {
    ghost use Rattle.std.specs.Prelude.{◌≡◌, ◌+◌, ◌++◌, length, string_bytes, codes, None, IfOk, OnOk, OnErr};
    ghost use Rattle.std.specs.Option.{is_some};
    ghost use Rattle.rb_files.specs.Kept.{Grows, WasWritten};

    /// The file at the path, whose new text is written beside it, at the path with `.new` after it. It takes the
    /// memory for both paths, and looks at no file. An error if the allocation is refused.
    pub fn new(alloc: Global, path: &str) -> Result<KeptFile<H>, AllocError>
        ensures path { IfOk result (λ file. string_bytes file.path ≡ path.now) }
        ensures beside { IfOk result (λ file. string_bytes file.beside
            ≡ path.now ++ codes ".new") }
    {
        let mut beside = text_of(alloc, path)?;
        beside.push_str(NEW)?;
        Ok(KeptFile {
            path: text_of(alloc, path)?,
            beside,
            placed: None,
            len: 0,
        })
    }

    /// The path of the file.
    pub fn path(&self) -> &str
        ensures { result.now ≡ string_bytes self.now.path }
    {
        &self.path
    }

    /// Whether text may be added: a file was put in place, and nothing failed since.
    pub fn is_placed(&self) -> bool
        ensures { result ≡ is_some self.now.placed }
    {
        self.placed.is_some()
    }

    /// Nothing is added from here on, until a file is put in place.
    pub fn leave(&mut self)
        ensures { self.new.placed ≡ None }
    {
        self.placed = None;
    }

    // FILE-4: A file of kept rows is replaced as a whole: the new text is written beside it, under its
    // name with `.new` after, reaches the disk, and is renamed. If a step fails the old one stays, and
    // the one beside goes; one of another kind that stood there stays.
    /// Puts a new file with this text in place of what is at the path, which its owner alone may read: it is written
    /// beside it, reaches the disk, and is renamed. A plain file that is there beside goes. No memory is taken. If the
    /// system refuses a step, its error: what is at the path stays, and the file beside goes.
    pub fn replace(&mut self, rt: &H, text: &[u8]) -> io::Result<()>
        ensures bytes { OnOk result (self.new.len ≡ length text.now) }
        ensures taken { OnOk result (WasWritten
            self.new.placed (λ placed. placed.file) H.File.contents text.now) }
        ensures failed { OnErr result (self.new.placed ≡ None) }
    {
        self.placed = None;
        let file = new_file(rt, &self.beside)?;
        match self.put_in_place(rt, file, text) {
            Ok(placed) => {
                self.placed = Some(placed);
                self.len = text.len() as u64;
                Ok(())
            }
            Err(error) => {
                let _ = fs::remove_file(rt, self.beside.as_str());
                Err(error)
            }
        }
    }

    fn put_in_place(&self, rt: &H, mut file: H::File, text: &[u8]) -> io::Result<Placed<H>>
        ensures { IfOk result
            (λ placed. Appends (H.File.contents file) (H.File.contents placed.file) text.now) }
    {
        file.write_all(text)?;
        file.sync_data()?;
        let found = file.metadata()?;
        fs::rename(rt, self.beside.as_str(), self.path.as_str())?;
        Ok(Placed {
            file,
            identity: identity_of(&found),
        })
    }

    // FILE-6: Text is added to the file of kept rows that was put in place last, and reaches the disk,
    // if that file stands at its path still, and nobody else wrote to it.
    /// Adds the text to the file that was put in place last, and it reaches the disk. No memory is taken. `Another` if
    /// that is not at the path any more, has not as many bytes as it was given, or none was put in place; `Failed` if
    /// the system refuses a step. After either nothing is added until a file is put in place.
    pub fn append(&mut self, rt: &H, text: &[u8]) -> Result<(), AppendFault>
        ensures bytes { OnOk result (self.new.len ≡ self.old.len + length text.now) }
        ensures taken { OnOk result (Grows
            self.old.placed self.new.placed (λ placed. placed.file) H.File.contents text.now) }
        ensures failed { OnErr result (self.new.placed ≡ None) }
    {
        let Some(mut placed) = self.placed.take() else {
            return Err(AppendFault::Another);
        };
        let len = self.len.checked_add(text.len() as u64);
        let Some(len) = len else {
            return Err(AppendFault::Another);
        };
        self.find(rt, &placed)?;
        if let Err(error) = add_to::<H>(&mut placed.file, text) {
            return Err(AppendFault::Failed(error));
        }
        self.len = len;
        self.placed = Some(placed);
        Ok(())
    }

    /// `Another` if what is at the path is not this file, as it was left.
    fn find(&self, rt: &H, placed: &Placed<H>) -> Result<(), AppendFault> {
        let Ok(found) = fs::symlink_metadata(rt, self.path.as_str()) else {
            return Err(AppendFault::Another);
        };
        if is_left(&found, placed.identity, self.len) {
            Ok(())
        } else {
            Err(AppendFault::Another)
        }
    }
}

/// Whether a file of this metadata is the one that was put in place, with as many bytes.
fn is_left(found: &Metadata, placed: Identity, len: u64) -> bool {
    is_same_file(identity_of(found), placed) && found.len() == len
}

fn add_to<H: Files>(file: &mut H::File, text: &[u8]) -> io::Result<()>
    ensures { OnOk result
        (Appends (H.File.contents file.old) (H.File.contents file.new) text.now) }
{
    file.write_all(text)?;
    file.sync_data()
}

fn text_of(alloc: Global, text: &str) -> Result<String, AllocError>
    ensures { IfOk result (λ copy. string_bytes copy ≡ text.now) }
{
    let mut copy = String::new(alloc);
    copy.push_str(text)?;
    Ok(copy)
}
