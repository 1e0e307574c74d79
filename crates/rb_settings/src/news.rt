//! What must be told while a daemon serves.
use std::io;

/// What must be told of the file of kept rows.
#[derive(Drop)]
pub enum KeepNews {
    /// It could not be written.
    Failed(io::Error),
    /// It is written again, after that.
    Written,
    /// It was not at its path, or somebody else wrote to it, and all rows were written anew.
    Another,
}
