//! How many descriptors the daemon may have, and how many places that leaves for connections.
use libc::RLIMIT_NOFILE;
use libc::types::rlimit;

/// The limit of open files of this process (getrlimit(2)): its descriptors are numbers below that. The greatest number
/// if the system does not tell.
pub fn open_files() -> u64 {
    let mut limit = rlimit {
        rlim_cur: u64::MAX,
        rlim_max: u64::MAX,
    };
    if libc::getrlimit(RLIMIT_NOFILE, &mut limit) == 0 {
        limit.rlim_cur
    } else {
        u64::MAX
    }
}

/// That the limit of open files leaves fewer places for connections than are asked for.
#[derive(Clone, Copy)]
pub struct Shortage {
    /// The limit of open files.
    pub limit: u64,
    /// What it must be for all of the places.
    pub needed: u64,
    /// How many places are asked for.
    pub asked: usize,
    /// How many there are.
    pub places: usize,
}
