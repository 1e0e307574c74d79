//! What `rpcbind serve` does around the daemon: it reads the words that are given, the users, interfaces and files of the
//! machine and the rows that were kept, and says how it starts, what it finds, and why it ends.
#![tactic(auto)]

mod ending;
mod files;
mod foreign;
mod given;
mod hosts;
mod interfaces;
mod keep;
mod leveled;
mod start;
mod telling;
mod users;
mod words;

pub use ending::StartFault;
pub use foreign::say_hosts;
pub use given::given_words;
pub use hosts::{find_hosts, take_sockets};
pub use interfaces::Binds;
pub use keep::{lock_keep, read_keep, say_left_out};
pub use leveled::{Level, Leveled, is_journal};
pub use telling::{
    conclude, explain_start, say_address, say_local_change, say_loopback6, say_missing, say_name,
    say_start, say_table_fault,
};
pub use words::explain_words;
