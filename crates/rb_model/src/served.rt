//! What a message is answered with.
use rb_answers::Listing;

/// The greatest length of a reply that is no streamed list, in bytes.
pub const LONGEST_REPLY: usize = 9_000;

/// What a datagram, or a record, is answered with.
#[derive(Clone, Copy, Debug)]
pub enum Response {
    /// Nothing: it is no call (RFC 5531 section 9). A connection on which it came is Lost.
    NoCall,
    /// A reply of at most 9,000 bytes, which is written.
    Reply,
    /// Nothing yet: the call is forwarded (RFC 1833 sections 2.2.1 and 3.2). A connection on which it came is Awaiting.
    Forwarded,
    /// Nothing: the call stays without a reply, as a CALLIT that can't be served does.
    Silent,
}

/// What a connection is settled with once its record was answered, or its forwarded call ended.
#[derive(Clone, Copy)]
pub enum Served {
    /// A reply that is written, or none.
    Answered(Response),
    /// A streamed list in reply to the call of this xid, of which nothing is written yet.
    Listed(u32, Listing),
}

impl Served {
    ghost use Rattle.std.specs.Prelude.{◌≡◌, ℕ, List};
    ghost use Rattle.rb_registry.specs.Registry.{Registry};
    ghost use Rattle.rb_model.specs.Served.{is_lost_by};

    /// Whether the message is no call: then the connection on which it came is Lost.
    pub fn is_no_call(self) -> bool
        ensures { (registry : Registry) (reply : List ℕ) → result ≡ is_lost_by registry self reply }
    {
        matches!(self, Served::Answered(Response::NoCall))
    }
}
