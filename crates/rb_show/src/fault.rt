//! Why a reply is not shown.
use rb_rpc::ReplyHead;
use thiserror::Error;

/// Why a call is not written, or its reply is not shown to its end.
#[derive(Clone, Copy, Debug, Drop, Error, PartialEq, Eq)]
pub enum InfoFault {
    /// The source of the reply's bytes failed.
    #[error("read failed")]
    Read,
    /// The writer failed. How much of a line went out is not known.
    #[error("write failed")]
    Write,
    /// The data is no reply to the call, whatever may follow.
    #[error("unreadable reply")]
    Unreadable,
    /// The reply's data ends before its results do.
    #[error("reply cut off")]
    CutOff,
    /// The results end after the 16,777,216 bytes that are read of a reply.
    #[error("reply too long")]
    TooLong,
    /// The call was refused, as this head says.
    #[error("refused")]
    Refused(ReplyHead),
    /// A list has more items than are shown.
    #[error("too many rows")]
    TooMany,
    /// An allocation was refused.
    #[error("no memory")]
    Memory,
}
