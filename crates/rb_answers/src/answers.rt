//! What is answered.
use crate::address_buf::AddressBuf;
use rb_rpc::ReplyStatus;
use rb_uaddr::{Hosts, MAX_KEPT};
use rb_xdr::Text;

/// What a call is answered.
#[derive(PartialEq, Eq, Debug, Drop)]
pub enum Answer {
    /// These results (RFC 5531 section 9, SUCCESS).
    Results(Results),
    /// The call itself is refused (RFC 5531 section 9).
    Refused(ReplyStatus),
    /// Nothing yet: the call was forwarded, and is answered at its outcome.
    Forwarded,
    /// No reply at all: a CALLIT or BCAST that could not be forwarded.
    Silent,
}

/// The results of a procedure.
#[derive(PartialEq, Eq, Debug, Drop)]
pub enum Results {
    /// A value, which is there whole.
    Value(Value),
    /// Rows of the registry, which are yet to be shown.
    Rows(Listing),
    /// The statistics, which are yet to be shown.
    Statistics,
}

/// Results that are no list.
#[derive(PartialEq, Eq, Debug, Drop)]
pub enum Value {
    /// No bytes.
    Void,
    /// Whether a SET or UNSET changed anything.
    Bool(bool),
    /// A port, or a number of seconds.
    Number(u32),
    /// The text of an address, or the empty text.
    Text(Text<MAX_KEPT>),
    /// The transport form of an address, or an empty netbuf.
    Netbuf(AddressBuf),
}

/// A list of rows, each as an item of one kind.
#[derive(Clone, Copy, PartialEq, Eq, Debug)]
pub enum Listing {
    /// Each row of tcp and udp as a mapping.
    Mappings,
    /// Each row as an rpcb.
    Rpcbs,
    /// Each row of this program and version as an rpcb_entry, with these hosts in place of 0.0.0.0 and ::.
    Entries(u32, u32, Hosts),
}

/// Names each field, so that a further one does not compile until it stands here. It belongs in the table of
/// charges of crates/rb_core/README.md first.
fn layout(list: &Listing) {
    match *list {
        Listing::Mappings | Listing::Rpcbs => {}
        Listing::Entries(prog, vers, hosts) => {
            let _: (u32, u32, Hosts) = (prog, vers, hosts);
        }
    }
}
