//! Why the command ends with status 1.
use rb_address::Family;
use rb_rpc::ReplyStatus;
use rb_show::InfoFault;

/// Why the command ends with status 1.
#[derive(Clone, Copy, Drop)]
pub enum Fault {
    /// A call was not written, or its reply was not shown to its end.
    Info(InfoFault),
    /// Nobody listens there.
    NoConnection,
    /// No socket is at the path, or nobody listens on it.
    NoSocket,
    /// No byte of a reply came: nobody answered.
    NoReply,
    /// No address of the host is known.
    NoHost,
    /// The host has addresses, and none of this family.
    NoAddress(Family),
    /// A program and a version, and how its call was refused, if it was called.
    NotAvailable(u32, u32, Option<ReplyStatus>),
    /// A program of which no version is known, in the same way.
    NoProgram(u32, Option<ReplyStatus>),
    /// The program has more versions than are called.
    TooManyVersions,
    /// This machine has more routes than are read.
    TooManyRoutes,
    /// Of several versions each has its line, and one is not available.
    SomeLack,
}
