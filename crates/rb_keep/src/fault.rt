//! Why kept rows are not read.
use thiserror::Error;

/// Why a text is no text of kept rows. Lines are numbered from 1, and every line counts.
#[derive(Clone, Copy, Debug, Drop, Error)]
pub enum KeepFault {
    /// The line of this number is no event line.
    #[error("line {0}: bad event")]
    BadLine(usize),
    /// The line of this number is an event line, but not that of a row that was kept or went.
    #[error("line {0}: sets no row that was kept")]
    NotKept(usize),
    /// The line of this number adds a row to 4,096 others.
    #[error("line {0}: too many rows")]
    TooMany(usize),
    /// The text has over 16,777,216 bytes.
    #[error("too long")]
    TooLong,
    /// An allocation was refused.
    #[error("no memory")]
    NoMemory,
}
