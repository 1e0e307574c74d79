//! How `serve` ends, and why it can't start.
ghost use Rattle.std.specs.Prelude.{◌≡◌};
ghost use Rattle.rb_startup.specs.Ends.{end_at_start, end_after};

use crate::keep::KeepReadFault;
use rb_settings::DaemonFault;
use rb_sockets::HandedFault;
use std::alloc::AllocError;
use std::io;

/// How `serve` ends.
#[derive(Clone, Copy)]
pub enum End {
    /// After the last turn that was asked for.
    Done,
    /// It can't start: a service manager that tried again would get the same.
    NotStarted,
    /// A turn failed, or an allocation was refused: a service manager starts it again.
    Failed,
}

impl End {
    ghost use Rattle.rb_startup.specs.Ends.{status_of};

    /// The exit status.
    pub fn status(self) -> u8
        ensures { result ≡ status_of self }
    {
        match self {
            End::Done => 0,
            End::NotStarted => 3,
            End::Failed => 1,
        }
    }
}

/// Why `serve` can't start.
#[derive(Drop)]
pub enum StartFault<'a> {
    /// An allocation was refused.
    NoMemory,
    /// Another daemon keeps its rows at this path.
    Locked(&'a str),
    /// The rows at this path are not read.
    Unread(&'a str, KeepReadFault),
    /// Sockets that a service manager handed over are not taken.
    Handed(HandedFault),
    /// The daemon can't begin.
    Daemon(DaemonFault),
    /// The file of the record can't be made at this path.
    Unmade(&'a str, io::Error),
    /// Standard output does not take where it listens.
    Unsaid,
}

impl<'a> From<AllocError> for StartFault<'a> {
    ghost use Rattle.std.specs.Prelude.{◌≡◌};
    ghost use Rattle.rb_startup.specs.declared.ending.StartFault.TheVariants.{NoMemory};

    ghost from_gives = { λ _ fault. fault ≡ NoMemory };

    fn from(_error: AllocError) -> StartFault<'a> {
        StartFault::NoMemory
    }
}

/// How it ends by a fault of its start.
pub fn end_at_start(fault: &StartFault<'_>) -> End
    ensures { result ≡ end_at_start fault.now }
{
    match fault {
        StartFault::NoMemory
        | StartFault::Handed(HandedFault::Memory(_))
        | StartFault::Daemon(DaemonFault::Memory(_)) => End::Failed,
        StartFault::Locked(_)
        | StartFault::Unread(_, _)
        | StartFault::Handed(HandedFault::Count | HandedFault::Socket(_))
        | StartFault::Daemon(DaemonFault::Limits | DaemonFault::Socket(_))
        | StartFault::Unmade(_, _)
        | StartFault::Unsaid => End::NotStarted,
    }
}

/// How it ends after these turns.
pub fn end_after(turns: &Result<(), DaemonFault>) -> End
    ensures { result ≡ end_after turns.now }
{
    match turns {
        Ok(()) => End::Done,
        Err(_) => End::Failed,
    }
}
