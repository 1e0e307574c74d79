//! The netbuf of a result (RFC 1833 section 2.1).
use rb_uaddr::MAX_TRANSPORT;
use rb_xdr::Opaque;
use std::marker::Model;

/// The netbuf of a result: of an address, or of none. It has room for no more bytes than that.
#[derive(PartialEq, Eq, Debug, Drop)]
pub struct AddressBuf {
    content: (u32, Opaque<MAX_TRANSPORT>),
}

impl Model for AddressBuf {
    ghost use Rattle.rb_arguments.specs.declared.netbuf.Netbuf.{Netbuf};

    ghost Value = { Netbuf };

    ghost view = { λ b. record { maxlen = b.content.0; buf = b.content.1 } };

    ghost inverse = { λ n. record { content = (n.maxlen, n.buf) } };
}

impl AddressBuf {
    ghost use Rattle.std.specs.Prelude.{◌≡◌, ◌≤◌, length};

    /// The netbuf of these bytes, of which there are at most 28.
    pub fn new(form: &[u8]) -> AddressBuf
        requires { length form.now ≤ MAX_TRANSPORT }
        ensures maxlen { result.maxlen ≡ length form.now }
        ensures buf { result.buf ≡ form.now }
    {
        AddressBuf {
            content: (form.len() as u32, Opaque::new(form)),
        }
    }

    /// The length of the bytes, and the bytes.
    pub fn content(&self) -> &(u32, Opaque<MAX_TRANSPORT>)
        ensures { result.now ≡ (self.now.maxlen, self.now.buf) }
    {
        &self.content
    }
}
