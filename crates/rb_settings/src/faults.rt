//! Why the daemon ends: steps with sockets that failed, among others.
use std::alloc::AllocError;
use std::fmt::{Display, Formatter};
use std::net::SocketAddr;
use std::{fmt, io};
use thiserror::Error;

/// A step that failed, and the system's word for it. It is written as `bind TCP 127.0.0.1:111: Permission denied (os
/// error 13)`.
#[derive(Debug, Drop)]
pub struct SocketFault {
    /// What was tried.
    pub step: Step,
    /// Why it failed.
    pub error: io::Error,
}

/// Why sockets could not be bound.
#[derive(Debug, Drop, Error)]
pub enum BindFault {
    /// An allocation was refused.
    #[error("no memory")]
    Memory(#[from] AllocError),
    /// A step with a socket failed.
    #[error("{0}")]
    Socket(SocketFault),
}

/// Why the daemon ends.
#[derive(Debug, Drop, Error)]
pub enum DaemonFault {
    /// An allocation was refused.
    #[error("no memory")]
    Memory(#[from] AllocError),
    /// A limit is out of its range.
    #[error("bad limits")]
    Limits,
    /// A step with a socket, the wait for events or the clock failed.
    #[error("socket failed")]
    Socket(SocketFault),
}

/// What a daemon does with sockets.
#[derive(Clone, Copy, Debug, PartialEq, Eq)]
pub enum Step {
    /// It binds a TCP socket to the address, and listens.
    BindTcp(SocketAddr),
    /// It binds a UDP socket to the address.
    BindUdp(SocketAddr),
    /// It looks at the file of the local socket, binds it, listens and sets its mode.
    BindLocal,
    /// It prepares to wait for events (epoll).
    Prepare,
    /// It waits for events.
    Wait,
    /// It accepts a connection.
    Accept,
    /// It reads a clock.
    Clock,
    /// It draws numbers of the system's randomness.
    Random,
}

impl Step {
    ghost use Rattle.std.specs.Prelude.{◌≡◌};

    /// The fault of this step.
    pub fn failed(self, error: io::Error) -> SocketFault
        ensures { result ≡ record { step = self; error = error } }
    {
        SocketFault { step: self, error }
    }
}

impl Display for Step {
    ghost use Rattle.std.specs.Prelude.{Some};
    ghost use Rattle.rb_settings.specs.Faults.{step_text};

    ghost output = { λ step. Some (step_text step) };

    fn fmt<W: fmt::Write>(&self, f: &mut Formatter<W>) -> fmt::Result {
        match self {
            Step::BindTcp(address) => write!(f, "bind TCP {address}"),
            Step::BindUdp(address) => write!(f, "bind UDP {address}"),
            Step::BindLocal => write!(f, "bind the local socket"),
            Step::Prepare => write!(f, "prepare for events"),
            Step::Wait => write!(f, "wait for events"),
            Step::Accept => write!(f, "accept a connection"),
            Step::Clock => write!(f, "read the clock"),
            Step::Random => write!(f, "read randomness"),
        }
    }
}

impl Display for SocketFault {
    fn fmt<W: fmt::Write>(&self, f: &mut Formatter<W>) -> fmt::Result {
        let SocketFault { step, error } = self;
        write!(f, "{step}: {error}")
    }
}
