//! Universal addresses of TCP and UDP over IPv4 and IPv6 (RFC 5665 section 5.2.3): their text, their
//! value, and their transport form. No call takes memory.
#![tactic(auto)]

mod address;
mod laws;
mod parse;
mod print;
mod text;
mod transport;

pub use address::{Hosts, NotAnAddress, Uaddr};
pub use laws::{grammar_laws, transport_laws, worked_examples};
pub use parse::ipv6_host;
pub use print::ipv6_host_text;
pub use text::{AddressText, MAX_KEPT, MAX_TEXT};
pub use transport::{MAX_TRANSPORT, TransportForm};
