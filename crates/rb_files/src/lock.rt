//! A file whose lock says that a process has something for itself.
ghost use Rattle.std.specs.Prelude.{◌≡◌, true};
ghost use Rattle.std.specs.Fs.{new_options, with_write};

use crate::new::new_file;
use rb_policy::is_nothing_there;
use std::fs::{File, Files, OpenOptions, TryLockError};
use std::io::ErrorKind;
use std::{fs, io};

/// Why a lock is not had.
#[derive(Drop)]
pub enum LockFault {
    /// Another process has it.
    Held,
    /// What is there is no plain file, or the system refused a step.
    Failed(io::Error),
}

// FILE-7: A process has the lock of a file as long as it has the file open, and at most one has it.
/// Takes the lock of the file at the path, which is made if nothing is there: it is had as long as the answer lives.
/// `Held` if another process has it; `Failed` if what is there is no plain file, or the system refuses a step.
pub fn lock_file<R: Files<File = File>>(rt: &R, path: &str) -> Result<File, LockFault> {
    let file = open_or_make(rt, path).map_err(LockFault::Failed)?;
    match file.try_lock() {
        Ok(()) => Ok(file),
        Err(TryLockError::WouldBlock) => Err(LockFault::Held),
        Err(TryLockError::Error(error)) => Err(LockFault::Failed(error)),
    }
}

/// The plain file at the path; a new one if nothing is there. No link is followed.
fn open_or_make<R: Files<File = File>>(rt: &R, path: &str) -> io::Result<File> {
    match fs::symlink_metadata(rt, path) {
        Ok(found) if found.is_file() => there_options().open(rt, path),
        Ok(_) => Err(io::Error::new(ErrorKind::AlreadyExists, "what is there is no plain file")),
        Err(error) if is_nothing_there(&error) => new_file(rt, path),
        Err(error) => Err(error),
    }
}

/// How a file that is there is opened: it stays as it is, and none is made.
fn there_options() -> OpenOptions
    ensures { result ≡ with_write new_options true }
{
    let mut options = OpenOptions::new();
    options.write(true);
    options
}
