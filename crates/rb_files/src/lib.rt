//! Files at a path: new ones, which no link leads elsewhere, one that is replaced as a whole and added to, one that is
//! believed only if nobody else may have written it, and one that one process locks. And whether somebody answers where
//! kept rows say that programs of this machine are reached: each is asked by a NULL call.
#![tactic(auto)]

mod call;
mod check;
mod identity;
mod kept;
mod lock;
mod new;
mod probe;
mod target;
mod trusted;

pub use check::{Found, ask_all};
pub use kept::{AppendFault, KeptFile};
pub use lock::{LockFault, lock_file};
pub use new::new_file;
pub use target::OwnHosts;
pub use trusted::{KeptFileFault, read_kept};
