//! rpcb_entry (RFC 1833 section 2.1).
ghost use Rattle.rb_arguments.specs.Types.{IsEntry, entry_spelling, max_entry, entry_form, read_entry};

use rb_xdr::{Kept, Meter, Text, Xdr, XdrFault};

/// An address of a program's version, and what is known of its transport.
#[derive(Drop)]
pub struct Entry {
    /// The universal address, with the listener's host in place of 0.0.0.0.
    pub maddr: Text<128>,
    /// The name of the netid.
    pub netid: Text<32>,
    /// 1 for datagrams, 3 for a stream of bytes.
    pub semantics: u32,
    /// The protocol family: inet, inet6 or loopback.
    pub protofmly: Text<32>,
    /// The protocol: tcp, udp, or - if there is none.
    pub proto: Text<32>,
}

impl Xdr for Entry {
    ghost is_value = { IsEntry };

    ghost spelling = { entry_spelling };

    ghost max_spelling = { max_entry };

    ghost reads = { read_entry };

    ghost form = { entry_form };

    fn laws() {}

    fn room_after(&self, room: usize) -> Option<usize> {
        let room = self.maddr.room_after(room)?;
        let room = self.netid.room_after(room)?;
        let room = self.semantics.room_after(room)?;
        let room = self.protofmly.room_after(room)?;
        self.proto.room_after(room)
    }

    fn write(&self, out: &mut Kept, meter: &mut Meter) {
        self.maddr.write(out, meter);
        self.netid.write(out, meter);
        self.semantics.write(out, meter);
        self.protofmly.write(out, meter);
        self.proto.write(out, meter);
    }

    #[tactic(auto, unfolding(crate::specs::Types::read_entry))]
    fn read(bytes: &[u8]) -> Result<(Self, usize), XdrFault> {
        let (maddr, first) = Text::read(bytes)?;
        let bytes = &bytes[first..];
        let (netid, second) = Text::read(bytes)?;
        let bytes = &bytes[second..];
        let (semantics, third) = u32::read(bytes)?;
        let bytes = &bytes[third..];
        let (protofmly, fourth) = Text::read(bytes)?;
        let bytes = &bytes[fourth..];
        let (proto, fifth) = Text::read(bytes)?;
        let used = first + (second + (third + (fourth + fifth)));
        Ok((
            Entry {
                maddr,
                netid,
                semantics,
                protofmly,
                proto,
            },
            used,
        ))
    }
}
