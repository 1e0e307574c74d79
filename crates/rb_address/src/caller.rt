//! Where a call came from, and who sent it.
use crate::who::Who;

/// Where a call came from: a connection, by its number, or a datagram, with the most bytes that its reply may have.
#[derive(Clone, Copy)]
pub enum Caller {
    /// A connection, by its number, and who is at its other end.
    Tcp(u64, Who),
    /// A datagram, by its sender, and the most bytes that its reply may have.
    Udp(Who, usize),
}

/// Names each field, so that a further one does not compile until it stands here. It belongs in the table of
/// charges of crates/rb_core/README.md first.
fn layout(caller: &Caller) {
    match *caller {
        Caller::Tcp(number, who) => {
            let _: (u64, Who) = (number, who);
        }
        Caller::Udp(who, longest) => {
            let _: (Who, usize) = (who, longest);
        }
    }
}
