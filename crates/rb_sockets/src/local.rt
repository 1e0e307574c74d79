//! The local socket: its start, whether it is root's, and its abstract name.
ghost use Rattle.std.specs.Prelude.{◌≡◌, false, IfOk};
ghost use Rattle.rb_sockets.specs.Arrivals.{local_arrival, IsLookedAt, next_name_try};
ghost use Rattle.rb_policy.specs.LocalFile.{IsRootsByMode};
ghost use Rattle.rb_sockets.specs.News.{is_due, has_name_news, HasTried};

use mio::net::{UnixListener, UnixStream};
use rb_address::Host;
use rb_arrivals::Arrival;
use rb_policy::handed::entrance_handed;
use rb_policy::{
    ANY, Beliefs, Entrance, FileAction, FileState, SeenFile, entrance_now, entrance_of,
    file_action, is_nothing_there, next_try, obstacle_text, state_by_connect,
};
use rb_settings::LocalSocket;
use std::alloc::{AllocError, Global};
use std::fs::{Files, Permissions};
use std::io::ErrorKind;
use std::net::{Net, Shutdown};
use std::os::fd::OwnedFd;
use std::os::unix::fs::{FileTypeExt, MetadataExt, PermissionsExt};
use std::os::unix::net::{SocketAddr, SocketAddrExt};
use std::{fs, io};

/// The local socket, and how far its callers are trusted.
#[derive(Drop)]
pub struct LocalListener {
    pub(crate) listener: UnixListener,
    path: String,
    /// The file as the system made it; none if it is not known.
    made: Option<SeenFile>,
    entrance: Entrance,
    beliefs: Beliefs,
    /// Whether it is yet to be told that it is root's no longer.
    is_change_untold: bool,
}

impl LocalListener {
    /// Listens there, by a socket that was handed over, or in a new file of its mode. The memory for the path is taken first.
    pub(crate) fn bind<R: Files + Net>(
        alloc: Global,
        rt: &R,
        handed: Option<UnixListener>,
        local: &LocalSocket<'_>,
        beliefs: Beliefs,
    ) -> Result<io::Result<LocalListener>, AllocError> {
        let mut path = String::new(alloc);
        path.push_str(local.path)?;
        let listening = match handed {
            Some(listener) => Ok(listening_by(rt, local, listener)),
            None => listen(rt, local),
        };
        match listening {
            Ok(listening) => Ok(Ok(LocalListener {
                listener: listening.listener,
                path,
                made: listening.made,
                entrance: listening.entrance,
                beliefs,
                is_change_untold: false,
            })),
            Err(error) => Ok(Err(error)),
        }
    }

    /// A connection, and how its caller came in. The file is looked at after the accept: whoever came while it was another
    /// one, or open to others, is not root.
    pub(crate) fn accept<R: Files>(&mut self, rt: &R) -> io::Result<(UnixStream, Arrival)>
        ensures came { IfOk result (λ came. came.1 ≡ local_arrival self.new) }
        ensures looked { IsLookedAt self.old self.new }
    {
        let (stream, _) = self.listener.accept()?;
        self.look(rt);
        let arrival = Arrival {
            beliefs: self.beliefs,
            entrance: self.entrance,
            asked: Host::V4(ANY),
        };
        Ok((stream, arrival))
    }

    /// Looks at the file, if the socket is root's by it.
    fn look<R: Files>(&mut self, rt: &R)
        ensures { IsLookedAt self.old self.new }
    {
        if let (Entrance::RootSocket, Some(made)) = (self.entrance, self.made) {
            self.entrance = entrance_now(self.entrance, made, seen_at(rt, &self.path));
            self.is_change_untold = matches!(self.entrance, Entrance::OpenSocket);
        }
    }

    /// Whether it is yet to be told that the socket is root's no longer.
    pub(crate) fn is_changed(&self) -> bool
        ensures { result ≡ self.now.is_change_untold }
    {
        self.is_change_untold
    }

    /// Whether it was found in a look since the last question that the socket is root's no longer, which counts for good.
    pub(crate) fn take_change(&mut self) -> bool
        ensures untold { result ≡ self.old.is_change_untold }
        ensures told { self.new ≡ record self.old { is_change_untold = false } }
    {
        let is_untold = self.is_change_untold;
        self.is_change_untold = false;
        is_untold
    }
}

/// What a start of the local socket gives.
#[derive(Drop)]
pub struct Listening {
    /// Where connections come in.
    pub listener: UnixListener,
    /// Where their callers come in.
    pub entrance: Entrance,
    /// The file as the system made it; none if it is not known.
    pub made: Option<SeenFile>,
}

// LOCAL-4: The file of the local socket has the mode that is given.
/// Listens on the local socket, in a file of its mode, and says where its callers come in. A socket that nobody listens
/// on any more is removed first. It is root's if its mode lets in root alone, and the one with which the system made
/// the file did too: otherwise somebody may have come in before its mode was set.
pub fn listen<R: Files + Net>(rt: &R, local: &LocalSocket<'_>) -> io::Result<Listening>
    ensures { IfOk result (λ listening. IsRootsByMode local.now.mode listening.entrance) }
{
    let LocalSocket { path, mode } = *local;
    let state = file_state(rt, path)?;
    match file_action(state) {
        FileAction::Bind => {}
        FileAction::RemoveAndBind => fs::remove_file(rt, path)?,
        FileAction::GiveUp => return Err(in_the_way(state)),
    }
    let listener = UnixListener::bind(rt, path)?;
    let made = seen_at(rt, path);
    fs::set_permissions(rt, path, Permissions::from_mode(mode))?;
    let entrance = entrance_of(made.map(|file| file.mode), mode);
    Ok(Listening {
        listener,
        entrance,
        made,
    })
}

/// Listens on the local socket that was handed over, whose file is at the path: its mode and owner say who comes in there.
fn listening_by<R: Files>(rt: &R, local: &LocalSocket<'_>, listener: UnixListener) -> Listening {
    let made = seen_at(rt, local.path);
    Listening {
        listener,
        entrance: entrance_handed(libc::geteuid(), made),
        made,
    }
}

/// The file at the path, if the system tells it.
fn seen_at<R: Files>(rt: &R, path: &str) -> Option<SeenFile> {
    match fs::symlink_metadata(rt, path) {
        Ok(found) => Some(SeenFile {
            device: found.dev(),
            inode: found.ino(),
            uid: found.uid(),
            mode: found.permissions().mode(),
        }),
        Err(_) => None,
    }
}

/// What is at the path, as far as the system tells.
fn file_state<R: Files + Net>(rt: &R, path: &str) -> io::Result<FileState> {
    let found = match fs::symlink_metadata(rt, path) {
        Ok(found) => found,
        Err(error) if is_nothing_there(&error) => return Ok(FileState::Absent),
        Err(error) => return Err(error),
    };
    if !found.file_type().is_socket() {
        return Ok(FileState::NotASocket);
    }
    match UnixStream::connect(rt, path) {
        Ok(_) => Ok(FileState::Answers),
        Err(error) => state_by_connect(&error).ok_or(error),
    }
}

/// Why a file keeps the daemon from its local socket.
fn in_the_way(state: FileState) -> io::Error {
    let kind = match state {
        FileState::NotASocket => ErrorKind::AlreadyExists,
        FileState::Absent | FileState::Refuses | FileState::Answers => ErrorKind::AddrInUse,
    };
    io::Error::new(kind, obstacle_text(state))
}

/// The abstract name that newer clients try before the file. Nobody's mode keeps it, so nobody is answered there.
const ABSTRACT_NAME: &[u8; 17] = b"/run/rpcbind.sock";

/// The abstract name of the local socket, for a daemon that is to have it.
#[derive(Drop)]
pub struct AbstractName {
    pub(crate) held: Option<UnixStream>,
    /// The moment of the last try, in milliseconds; 0 if that was at the start.
    last_try: u64,
    /// Why the first try failed, until it is told.
    fault: Option<io::Error>,
}

impl AbstractName {
    /// Tries to take it at the start.
    pub(crate) fn new<R: Files + Net>(rt: &R) -> AbstractName {
        let (held, fault) = match hold_abstract_name(rt) {
            Ok(held) => (Some(held), None),
            Err(error) => (None, Some(error)),
        };
        AbstractName {
            held,
            last_try: 0,
            fault,
        }
    }

    /// The moment at which it is tried again, in milliseconds, if it is not held.
    pub(crate) fn next_try(&self) -> Option<u64>
        ensures { result ≡ next_name_try self.now }
    {
        match &self.held {
            Some(_) => None,
            None => Some(next_try(self.last_try)),
        }
    }

    /// Whether there is something to tell, or this moment, in milliseconds, is the one to try again.
    pub(crate) fn has_news(&self, now: u64) -> bool
        ensures { result ≡ has_name_news now self.now }
    {
        self.fault.is_some() || self.is_due(now)
    }

    /// Whether this moment, in milliseconds, is the one to try again.
    fn is_due(&self, now: u64) -> bool
        ensures { result ≡ is_due now (next_name_try self.now) }
    {
        self.next_try().is_some_and(|next| next <= now)
    }

    /// Tries again to take it, if it is not held, and this moment is the one for it. What is to be told: why the first try
    /// failed, or that it was taken after that.
    pub(crate) fn take<R: Files + Net>(&mut self, rt: &R, now: u64) -> Option<io::Result<()>>
        ensures { HasTried now self.old self.new result }
    {
        if let Some(error) = self.fault.take() {
            return Some(Err(error));
        }
        if !self.is_due(now) {
            return None;
        }
        self.last_try = now;
        self.held = hold_abstract_name(rt).ok();
        self.held.as_ref()?;
        Some(Ok(()))
    }
}

/// Holds the abstract name, so that no other program answers there in place of this one: whoever tries it is refused,
/// and goes on to the file. An error if another program has it.
fn hold_abstract_name<R: Files + Net>(rt: &R) -> io::Result<UnixStream> {
    let address = SocketAddr::from_abstract_name(ABSTRACT_NAME)?;
    let listener = UnixListener::bind_addr(rt, &address)?;
    let held = UnixStream::from(OwnedFd::from(listener));
    held.shutdown(Shutdown::Both)?;
    Ok(held)
}
