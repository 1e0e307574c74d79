//! The refusal of storage that has no room.
use thiserror::Error;

/// There is no room. Nothing changed, and a value that was handed in comes back.
#[derive(PartialEq, Eq, Debug, Drop, Error)]
#[error("there is no room")]
pub struct Full<T = ()> {
    /// The value that was handed in.
    pub value: T,
}
