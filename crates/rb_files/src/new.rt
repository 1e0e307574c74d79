//! New files.
ghost use Rattle.std.specs.Prelude.{◌≡◌, true};
ghost use Rattle.std.specs.Fs.{file_type, asks_write, asks_create_new};
ghost use Rattle.rb_files.specs.Found.{IsRecordState};

use rb_policy::{RecordAction, RecordState, is_nothing_there, record_action};
use std::fs::{Files, Metadata, OpenOptions};
use std::io::ErrorKind;
use std::os::unix::fs::OpenOptionsExt;
use std::{fs, io};

/// The mode of a new file: it has what clients sent.
const MODE: u32 = 0o600;

/// A new file at the path, which its owner alone may read. A plain file that is there goes; one of another kind
/// stays, and no link is followed. An error if the system refuses a step, and `AlreadyExists` if a file stays.
pub fn new_file<R: Files>(rt: &R, path: &str) -> io::Result<R::File> {
    match record_action(file_state(rt, path)?) {
        RecordAction::Make => {}
        RecordAction::RemoveAndMake => fs::remove_file(rt, path)?,
        RecordAction::GiveUp => {
            return Err(io::Error::new(
                ErrorKind::AlreadyExists,
                "what is there is no plain file, and stays",
            ));
        }
    }
    new_options().open(rt, path)
}

// FILE-3
/// How a new file is opened: its owner alone may read it, and nothing that came there after a look is opened.
fn new_options() -> OpenOptions
    ensures made { asks_create_new result ≡ true }
    ensures written { asks_write result ≡ true }
{
    let mut options = OpenOptions::new();
    options.mode(MODE);
    options.write(true);
    options.create_new(true);
    options
}

/// What is at the path.
fn file_state<R: Files>(rt: &R, path: &str) -> io::Result<RecordState> {
    match fs::symlink_metadata(rt, path) {
        Ok(found) => Ok(state_of(&found)),
        Err(error) if is_nothing_there(&error) => Ok(RecordState::Absent),
        Err(error) => Err(error),
    }
}

/// What a file of this metadata is.
fn state_of(found: &Metadata) -> RecordState
    ensures { IsRecordState (file_type found.now) result }
{
    if found.is_file() {
        RecordState::Plain
    } else {
        RecordState::Other
    }
}
