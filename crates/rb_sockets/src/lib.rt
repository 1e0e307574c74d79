//! The sockets of the daemon: where it listens, and what comes in and goes out there. Nothing here knows the core.
#![tactic(auto)]

mod calls;
mod environment;
mod follow;
mod handed;
mod hosts;
mod laws;
mod listener;
mod local;
mod machine;
mod sockets;
mod tables;
mod user_namespace;
mod watched;
mod watching;

pub use calls::{CallSocket, CallSockets, ForwardSocket, ForwardSockets};
pub use environment::{own_notifier, own_watchdog_pause, take_handed};
pub use follow::{AddressNews, Follower};
pub use handed::{Handed, HandedFault, HandedOver, HandedSocket};
pub use hosts::{lacks_loopback6, missing_host};
pub use laws::address_examples;
pub use listener::Listener;
pub use machine::{Listing, Search};
pub use sockets::Sockets;
pub use tables::{Slice, Table, TableFault};
pub use watched::Watched;
