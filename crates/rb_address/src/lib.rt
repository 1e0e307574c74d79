//! Who is at the other end, and by which transport: hosts, peers, netids and callers, with their texts. No call takes memory.
#![tactic(auto)]

mod caller;
mod host;
mod laws;
mod netid;
mod network;
mod peer;
mod reading;
mod who;

pub use caller::Caller;
pub use host::{Family, Host};
pub use laws::{caller_laws, host_laws, name_laws, peer_laws, worked_examples};
pub use netid::{Netid, Transport};
pub use network::{Network, NetworkFault};
pub use peer::Peer;
pub use reading::{cut, number_below, plain_number};
pub use who::{Owner, Source, Trust, Who};
