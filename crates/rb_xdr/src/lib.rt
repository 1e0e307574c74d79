//! Storage whose calls are counted, and external data representation (RFC 4506) on it.
#![tactic(auto)]

mod chain;
mod fault;
mod full;
mod kept;
mod laws;
mod links;
mod memory;
mod meter;
mod numbers;
mod opaque;
mod ordered;
mod pairs;
mod pool;
mod tally;
mod text;
mod worked;
mod xdr;

pub use fault::XdrFault;
pub use full::Full;
pub use kept::Kept;
pub use laws::{few_looks, spelling_laws, types_are_read_exactly};
pub use memory::NoMemory;
pub use meter::Meter;
pub use opaque::{Opaque, are_zero, residue, take_opaque, write_opaque};
pub use ordered::Ordered;
pub use pool::Pool;
pub use tally::Tally;
pub use text::Text;
pub use worked::worked_examples;
pub use xdr::Xdr;
