//! mapping (RFC 1833 section 3.1).
ghost use Rattle.rb_arguments.specs.Types.{IsMapping, mapping_spelling, max_mapping, mapping_form, read_mapping};

use rb_xdr::{Kept, Meter, Xdr, XdrFault};

/// The port where a version of a program is reached by a protocol, 6 for TCP and 17 for UDP.
#[derive(Clone, Copy)]
pub struct Mapping {
    /// The program's number.
    pub prog: u32,
    /// The program's version.
    pub vers: u32,
    /// The protocol's number: 6 or 17 if it is one of these transports.
    pub prot: u32,
    /// The port, at most 65,535 in a result.
    pub port: u32,
}

impl Xdr for Mapping {
    ghost is_value = { IsMapping };

    ghost spelling = { mapping_spelling };

    ghost max_spelling = { max_mapping };

    ghost reads = { read_mapping };

    ghost form = { mapping_form };

    fn laws() {}

    fn room_after(&self, room: usize) -> Option<usize> {
        let room = self.prog.room_after(room)?;
        let room = self.vers.room_after(room)?;
        let room = self.prot.room_after(room)?;
        self.port.room_after(room)
    }

    fn write(&self, out: &mut Kept, meter: &mut Meter) {
        self.prog.write(out, meter);
        self.vers.write(out, meter);
        self.prot.write(out, meter);
        self.port.write(out, meter);
    }

    #[tactic(auto, unfolding(crate::specs::Types::read_mapping))]
    fn read(bytes: &[u8]) -> Result<(Self, usize), XdrFault> {
        let (prog, first) = u32::read(bytes)?;
        let bytes = &bytes[first..];
        let (vers, second) = u32::read(bytes)?;
        let bytes = &bytes[second..];
        let (prot, third) = u32::read(bytes)?;
        let bytes = &bytes[third..];
        let (port, fourth) = u32::read(bytes)?;
        let used = first + (second + (third + fourth));
        Ok((
            Mapping {
                prog,
                vers,
                prot,
                port,
            },
            used,
        ))
    }
}
