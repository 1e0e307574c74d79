//! Calls that are made for a caller (RFC 1833 sections 2.1 and 3.1).

/// The most bytes of arguments of a call that is forwarded: `args` of RFC 1833 sections 2.1 and 3.1.
pub const LONGEST_FORWARDED: usize = 8_800;

/// By which procedure a caller has another call made for it. It says what is answered, and when.
#[derive(Clone, Copy, PartialEq, Eq, Debug)]
pub enum Kind {
    /// PMAPPROC_CALLIT of version 2 (RFC 1833 section 3.2).
    Callit2,
    /// RPCBPROC_CALLIT of version 3 (section 2.2.1).
    Callit3,
    /// RPCBPROC_BCAST of version 4 (section 2.2.1).
    Bcast,
    /// RPCBPROC_INDIRECT of version 4 (section 2.2.1).
    Indirect,
}
