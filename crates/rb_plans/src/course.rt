//! Where a course of questions stands.
use rb_address::Transport;
use rb_rpc::ReplyStatus;
use rb_uaddr::Uaddr;
use rb_words::Way;

/// Where a question goes.
#[derive(Clone, Copy)]
pub enum Place {
    /// The portmapper of the host.
    Portmapper(Transport),
    /// A port of the host.
    Port(Transport, u16),
    /// An address.
    Address(Transport, Uaddr),
}

/// A course of questions that ends with calls of procedure 0 of a program.
#[derive(Clone, Copy)]
pub struct Course {
    /// How the place of the program is found.
    pub way: Way,
    /// The number of the program.
    pub prog: u32,
    /// The user id of the AUTH_SYS credential of each question; AUTH_NONE without one.
    pub uid: Option<u32>,
}

/// The version that is called, and why.
#[derive(Clone, Copy)]
pub enum Aim {
    /// The version that was named.
    Only(u32),
    /// Version 0, whose refusal tells which there are.
    Least,
    /// The greatest version, if version 0 is one too.
    Greatest,
    /// One of those that there are.
    Each {
        /// This one.
        vers: u32,
        /// The last of them.
        high: u32,
        /// Whether one before it was not available.
        lacks: bool,
    },
}

/// How a course ends.
#[derive(Clone, Copy)]
pub enum End {
    /// Each version that was called for is ready.
    Ready,
    /// One of several is not available.
    SomeLack,
    /// The version that was named is not available, because of this refusal if procedure 0 was called.
    NotAvailable(u32, Option<ReplyStatus>),
    /// The program is not available, in the same way.
    NoProgram(Option<ReplyStatus>),
    /// The portmapper refused to say where.
    Refused(ReplyStatus),
    /// There are more versions than are called.
    TooMany,
    /// The answer is no answer to the question.
    Unreadable,
}

/// Where a course stands.
#[derive(Clone, Copy)]
pub enum Stage {
    /// The portmapper is asked where the program is.
    Find(Aim),
    /// The same by GETPORT, of a portmapper that has no GETADDR.
    FindOld(Aim, Transport),
    /// Procedure 0 is called there.
    Call(Aim, Place),
    /// Nothing more is asked.
    End(End),
}

/// What a question was answered with.
#[derive(Clone, Copy)]
pub enum Answer {
    /// The port of GETPORT.
    Port(u32),
    /// The address of GETADDR, or that there is none.
    Address(Option<Uaddr>),
    /// Procedure 0 answered.
    Ready,
    /// The call was refused (RFC 5531 section 9).
    Refused(ReplyStatus),
}

/// What follows of an answer.
#[derive(Clone, Copy)]
pub struct Step {
    /// The version that is not available, if it is one of several.
    pub lacks: Option<u32>,
    /// The stage after the answer.
    pub stage: Stage,
}
