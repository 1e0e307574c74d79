//! rpcb (RFC 1833 section 2.1).
ghost use Rattle.rb_arguments.specs.Types.{IsRpcb, rpcb_spelling, max_rpcb, rpcb_form, read_rpcb};

use crate::lent::LentRpcb;
use rb_xdr::{Kept, Meter, Text, Xdr, XdrFault};

/// The universal address at which a version of a program is reached on a netid, and who set it.
#[derive(Drop)]
pub struct Rpcb {
    /// The program's number.
    pub prog: u32,
    /// The program's version.
    pub vers: u32,
    /// The name of the netid.
    pub netid: Text<32>,
    /// The text of the address.
    pub addr: Text<128>,
    /// Who set it, as DUMP shows owners.
    pub owner: Text<128>,
}

impl Xdr for Rpcb {
    ghost is_value = { IsRpcb };

    ghost spelling = { rpcb_spelling };

    ghost max_spelling = { max_rpcb };

    ghost reads = { read_rpcb };

    ghost form = { rpcb_form };

    fn laws() {}

    fn room_after(&self, room: usize) -> Option<usize> {
        let room = self.prog.room_after(room)?;
        let room = self.vers.room_after(room)?;
        let room = self.netid.room_after(room)?;
        let room = self.addr.room_after(room)?;
        self.owner.room_after(room)
    }

    fn write(&self, out: &mut Kept, meter: &mut Meter) {
        self.prog.write(out, meter);
        self.vers.write(out, meter);
        self.netid.write(out, meter);
        self.addr.write(out, meter);
        self.owner.write(out, meter);
    }

    fn read(bytes: &[u8]) -> Result<(Self, usize), XdrFault> {
        let (lent, used) = LentRpcb::read(bytes)?;
        Ok((lent.to_owned(), used))
    }
}
