//! The refusal of storage that could not be reserved.
use std::alloc::AllocError;
use thiserror::Error;

/// The allocator refused the memory for a new pool or buffer.
#[derive(Clone, Copy, Debug, Error)]
#[error("no memory")]
pub struct NoMemory;

impl From<AllocError> for NoMemory {
    fn from(_refused: AllocError) -> NoMemory {
        NoMemory
    }
}
