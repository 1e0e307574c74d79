//! netbuf (RFC 1833 section 2.1).
ghost use Rattle.rb_arguments.specs.Types.{IsNetbuf, netbuf_spelling, max_netbuf, netbuf_form, read_netbuf};

use rb_xdr::{Kept, Meter, Opaque, Xdr, XdrFault};

/// An address in the form of its transport.
#[derive(PartialEq, Eq, Drop)]
pub struct Netbuf {
    /// Of a result the length of `buf`. Of an argument it says nothing.
    pub maxlen: u32,
    /// The bytes of that form, at most 128.
    pub buf: Opaque<128>,
}

impl Xdr for Netbuf {
    ghost is_value = { IsNetbuf };

    ghost spelling = { netbuf_spelling };

    ghost max_spelling = { max_netbuf };

    ghost reads = { read_netbuf };

    ghost form = { netbuf_form };

    fn laws() {}

    fn room_after(&self, room: usize) -> Option<usize> {
        let room = self.maxlen.room_after(room)?;
        self.buf.room_after(room)
    }

    fn write(&self, out: &mut Kept, meter: &mut Meter) {
        self.maxlen.write(out, meter);
        self.buf.write(out, meter);
    }

    #[tactic(auto, unfolding(crate::specs::Types::read_netbuf))]
    fn read(bytes: &[u8]) -> Result<(Self, usize), XdrFault> {
        let (maxlen, first) = u32::read(bytes)?;
        let (buf, second) = Opaque::read(&bytes[first..])?;
        Ok((Netbuf { maxlen, buf }, first + second))
    }
}
