//! What procedures of program 100000 (RFC 1833) answer, in definitions; the types that these are of; and lists of rows as
//! they are written.
#![tactic(auto)]

mod address_buf;
mod answers;
mod call;
mod context;
mod items;
mod list_reply;
mod listener;
mod named;
mod netids;
mod reserved;
mod rows;
mod shown;

pub use address_buf::AddressBuf;
pub use answers::{Answer, Listing, Results, Value};
pub use call::Call;
pub use context::{Context, is_stranger, netid_of_caller, owner_named, who_of};
pub use list_reply::{ListPart, ListReply};
pub use listener::{Announced, Forwarding, Listener, Terms, own_row_count, own_rows};
pub use named::{row_of_mapping, row_of_rpcb};
pub use netids::{address_in, is_address, which_of};
pub use reserved::{LentReserved, MOST_RESERVED, Reservation, Reserved};
pub use rows::{room_after_rows, seek_version, write_rows};
pub use shown::{shown_port, text_of};
