//! The procedures of program 100000 and what their calls ask (RFC 1833): the table of procedures, the types of
//! arguments and results, and how arguments are read.
#![tactic(auto)]

mod entry;
mod kind;
mod laws;
mod lent;
mod mapping;
mod netbuf;
mod procedure;
mod remote;
mod request;
mod rpcb;
mod worked;

pub use entry::Entry;
pub use kind::{Kind, LONGEST_FORWARDED};
pub use laws::requests_are_of_the_grammar;
pub use lent::{LentNetbuf, LentRpcb, LentText};
pub use mapping::Mapping;
pub use netbuf::Netbuf;
pub use procedure::{MappingProcedure, Procedure, RpcbProcedure, VoidProcedure};
pub use remote::RemoteCall;
pub use request::{ArgumentFault, Request, read_args};
pub use rpcb::Rpcb;
pub use worked::worked_examples;
