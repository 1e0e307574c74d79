//! How much a daemon serves.

/// How much a daemon serves.
#[derive(Clone, Copy)]
pub struct Load {
    /// How many rows are set, the daemon's own among them.
    pub rows: usize,
    /// How many may be set.
    pub most_rows: usize,
    /// How many connections there are.
    pub connections: usize,
    /// How many there may be.
    pub places: usize,
}
