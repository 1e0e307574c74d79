//! What is done about a file at the path of the local socket as the daemon starts, and whether the socket is root's; and when
//! its abstract name is tried again.
ghost use Rattle.std.specs.Prelude.{◌≡◌};
ghost use Rattle.std.specs.IoError.{error_kind};
ghost use Rattle.rb_policy.specs.LocalFile.{is_nothing_there, state_by_connect, file_action, obstacle_text, lets_in_root_by, entrance_of, is_roots_still, entrance_now, takes_abstract_name, next_try};

use crate::trust::{Entrance, lets_in_root_alone};
use std::io;
use std::io::ErrorKind;

/// What is at the path.
#[derive(Clone, Copy)]
pub enum FileState {
    /// Nothing.
    Absent,
    /// A file of another kind, a link among them.
    NotASocket,
    /// A socket that refuses a connection, as one does that nobody listens on any more.
    Refuses,
    /// A socket that takes a connection, or has no room for one more: another program listens on it.
    Answers,
}

/// Whether an error of a look at a path says that nothing is there. Any other one says nothing of what is.
pub fn is_nothing_there(error: &io::Error) -> bool
    ensures { result ≡ is_nothing_there (error_kind error.now) }
{
    match error.kind() {
        ErrorKind::NotFound => true,
        _ => false,
    }
}

/// What is said of a socket at the path by the error of a try to connect to it: that it refuses, or that another program
/// listens on it and has no room for one more. None if the error says neither.
pub fn state_by_connect(error: &io::Error) -> Option<FileState>
    ensures { result ≡ state_by_connect (error_kind error.now) }
{
    match error.kind() {
        ErrorKind::ConnectionRefused => Some(FileState::Refuses),
        ErrorKind::WouldBlock => Some(FileState::Answers),
        _ => None,
    }
}

/// What is done about it.
#[derive(Clone, Copy)]
pub enum FileAction {
    /// The path is bound.
    Bind,
    /// The file is removed, and the path is bound.
    RemoveAndBind,
    /// The daemon does not start, and the file stays.
    GiveUp,
}

/// What is done about what is at the path.
pub fn file_action(state: FileState) -> FileAction
    ensures { result ≡ file_action state }
{
    match state {
        FileState::Absent => FileAction::Bind,
        FileState::Refuses => FileAction::RemoveAndBind,
        FileState::NotASocket | FileState::Answers => FileAction::GiveUp,
    }
}

/// Why a file at the path keeps the daemon from its local socket, if it does.
pub fn obstacle_text(state: FileState) -> &'static str
    ensures { result.now ≡ obstacle_text state }
{
    match state {
        FileState::NotASocket => "the file is no socket, and stays",
        FileState::Answers => "another program listens on it",
        FileState::Absent | FileState::Refuses => "",
    }
}

/// Where callers of the local socket come in, whose file the system made with the first mode, if that is known, and that has
/// the second one now: it is root's if both let in root alone. Else somebody may have come in before it had its mode.
pub fn entrance_of(made: Option<u32>, mode: u32) -> Entrance
    ensures { result ≡ entrance_of made mode }
{
    if lets_in_root_by(made) && lets_in_root_alone(mode) {
        Entrance::RootSocket
    } else {
        Entrance::OpenSocket
    }
}

fn lets_in_root_by(made: Option<u32>) -> bool
    ensures { result ≡ lets_in_root_by made }
{
    match made {
        Some(mode) => lets_in_root_alone(mode),
        None => false,
    }
}

/// A file at the path of the local socket, as far as it counts.
#[derive(Clone, Copy)]
pub struct SeenFile {
    /// The device and the inode, by which the system tells files apart.
    pub device: u64,
    /// See `device`.
    pub inode: u64,
    /// The user that it belongs to.
    pub uid: u32,
    /// Its mode.
    pub mode: u32,
}

/// Where callers of the local socket come in from now on, who came in so before: the file was made so, and this one is at the
/// path now, if there is one. A socket that was opened stays open for good, as somebody may have come and still wait.
pub fn entrance_now(was: Entrance, made: SeenFile, found: Option<SeenFile>) -> Entrance
    ensures { result ≡ entrance_now was made found }
{
    match was {
        Entrance::RootSocket if !is_roots_still(made, found) => Entrance::OpenSocket,
        other => other,
    }
}

fn is_roots_still(made: SeenFile, found: Option<SeenFile>) -> bool
    ensures { result ≡ is_roots_still made found }
{
    match found {
        Some(found) => {
            made.device == found.device
                && made.inode == found.inode
                && made.uid == found.uid
                && lets_in_root_alone(found.mode)
        }
        None => false,
    }
}

/// Whether a daemon on this port takes the abstract name of the local socket too: the port of the portmapper, which clients
/// look for.
pub fn takes_abstract_name(port: u16) -> bool
    ensures { result ≡ takes_abstract_name port }
{
    port == PORTMAPPER
}

/// The port of the portmapper (RFC 1833 section 3.1).
const PORTMAPPER: u16 = 111;

/// The fewest milliseconds between two tries to take the abstract name.
const BETWEEN_TRIES: u64 = 10_000;

/// The moment at which the abstract name is tried again, which was tried at this one. In milliseconds.
#[tactic(auto, unfolding(rb_forward::specs::Forwards::later))]
pub fn next_try(last: u64) -> u64
    ensures { result ≡ next_try last }
{
    last.saturating_add(BETWEEN_TRIES)
}
