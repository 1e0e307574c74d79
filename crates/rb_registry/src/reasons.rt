//! Why a SET or an UNSET changed nothing.

/// Why a SET or an UNSET changed nothing. Of several reasons the first one here counts.
#[derive(Clone, Copy, PartialEq, Eq)]
pub enum Refusal {
    /// The caller may not register.
    MayNotRegister,
    /// The row is of the portmapper's own program.
    OwnProgram,
    /// It names no netid, or no address that may be set on it.
    NoAddress,
    /// Its program is reserved for others.
    Reserved,
    /// The rows among which the caller may set one more are used up, or the numbers of changes.
    NoPlace,
    /// There is a row of its program, version and netid.
    Taken,
    /// An UNSET that covers no row.
    NothingToRemove,
}
