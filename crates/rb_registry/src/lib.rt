//! The registry's rows: how they are set, removed, found and listed (RFC 1833 sections 2.2.1 and 3.2).
#![tactic(auto)]

mod cursor;
mod fault;
mod laws;
mod listed;
mod mapped;
mod reasons;
mod registry;
mod removal;
mod row;
mod slot;
mod table;
mod versions;
mod walk;
mod worked;

pub use cursor::Cursor;
pub use fault::RegistryFault;
pub use laws::row_laws;
pub use listed::ListedRow;
pub use mapped::{MAPPING_ITEM, MappedRow, inet_item};
pub use reasons::Refusal;
pub use registry::{MOST_OWN_ROWS, Registry};
pub use row::{ROW_CHARGE, RPCB_PROG, Row, Which, rank};
pub use versions::Version;
pub use worked::worked_examples;
