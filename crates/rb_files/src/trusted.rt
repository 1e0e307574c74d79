//! A file that is believed only if nobody else may have written it.
ghost use Rattle.std.specs.Prelude.{◌≤◌, length, IfOk, IfSome};
ghost use Rattle.std.specs.Fs.{file_type, metadata_mode};
ghost use Rattle.rb_files.specs.Found.{IsKeepState};

use crate::identity::{identity_of, is_same_file};
use rb_policy::{Distrust, KeepAction, KeepState, Writers, is_nothing_there, keep_action};
use std::alloc::Global;
use std::fmt::{Display, Formatter};
use std::fs::{Files, Metadata, OpenFile};
use std::io::Read;
use std::os::unix::fs::MetadataExt;
use std::{fmt, fs, io};

/// The bits of permission of a mode.
const PERMISSIONS: u32 = 0o7777;

/// Why a file is not read.
#[derive(Drop)]
pub enum KeptFileFault {
    /// It is not believed.
    Distrusted(Distrust),
    /// Another file came in its place while it was opened.
    Exchanged,
    /// It has more bytes than may be read.
    TooLong,
    /// The system refused a step, or an allocation was refused.
    Failed(io::Error),
}

// FILE-5: No link at the path of kept rows is followed: what was opened is the file that was found
// there, and is believed still.
/// The text of the file at the path; none if nothing is there. `Distrusted` if it is no plain file, or somebody
/// other than root and the daemon's own user may have written it; `TooLong` if it has over `most` bytes. A file
/// that is not believed is not read, and no link at the path is followed.
pub fn read_kept<R: Files>(
    rt: &R,
    alloc: Global,
    path: &str,
    most: usize,
) -> Result<Option<Vec<u8>>, KeptFileFault>
    ensures { IfOk result (λ found. IfSome found (λ text. length text.items ≤ most)) }
{
    let found = match fs::symlink_metadata(rt, path) {
        Ok(found) => Some(found),
        Err(error) if is_nothing_there(&error) => None,
        Err(error) => return Err(KeptFileFault::Failed(error)),
    };
    let Some(seen) = found else {
        return Ok(None);
    };
    believe(&seen)?;
    let text = read_seen(rt, alloc, path, &seen, most)?;
    Ok(Some(text))
}

/// The text of the file that was seen at the path. What was opened is looked at again: it is the file that was seen,
/// and is believed still.
fn read_seen<R: Files>(
    rt: &R,
    alloc: Global,
    path: &str,
    seen: &Metadata,
    most: usize,
) -> Result<Vec<u8>, KeptFileFault>
    ensures { IfOk result (λ text. length text.items ≤ most) }
{
    let file = fs::open(rt, path).map_err(KeptFileFault::Failed)?;
    let opened = file.metadata().map_err(KeptFileFault::Failed)?;
    believe(&opened)?;
    if !is_same_file(identity_of(&opened), identity_of(seen)) {
        return Err(KeptFileFault::Exchanged);
    }
    let mut text = Vec::new(alloc);
    let limit = (most as u64).saturating_add(1);
    if let Err(error) = file.take(limit).read_to_end(&mut text) {
        return Err(KeptFileFault::Failed(error));
    }
    if text.len() > most {
        return Err(KeptFileFault::TooLong);
    }
    Ok(text)
}

/// What a file of this metadata is, and who may have written it.
fn state_of(found: &Metadata) -> KeepState
    ensures { IsKeepState (file_type found.now) (metadata_mode found.now) result }
{
    if found.is_file() {
        KeepState::Plain(Writers {
            owner: found.uid(),
            mode: found.mode() & PERMISSIONS,
        })
    } else {
        KeepState::Other
    }
}

/// An error if the file of this metadata is not believed.
fn believe(found: &Metadata) -> Result<(), KeptFileFault> {
    match keep_action(libc::geteuid(), state_of(found)) {
        KeepAction::Begin | KeepAction::Read => Ok(()),
        KeepAction::GiveUp(distrust) => Err(KeptFileFault::Distrusted(distrust)),
    }
}

/// Said after the path of the file.
impl Display for KeptFileFault {
    fn fmt<W: fmt::Write>(&self, f: &mut Formatter<W>) -> fmt::Result {
        match self {
            KeptFileFault::Distrusted(Distrust::NoPlainFile) => write!(f, "is no plain file"),
            KeptFileFault::Distrusted(Distrust::OtherOwner(uid)) => {
                write!(f, "belongs to user {uid}")
            }
            KeptFileFault::Distrusted(Distrust::OthersMayWrite(mode)) => {
                write!(f, "others may write it (mode {mode:04o})")
            }
            KeptFileFault::Exchanged => write!(f, "another file came in its place"),
            KeptFileFault::TooLong => write!(f, "too long"),
            KeptFileFault::Failed(error) => write!(f, "{error}"),
        }
    }
}
