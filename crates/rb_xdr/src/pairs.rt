//! Pairs and options (RFC 4506, sections 4.14 and 4.19).
ghost use Rattle.std.specs.Prelude.{◌+◌};
ghost use Rattle.rb_xdr.specs.Forms.Form.{Then, Optional};
ghost use Rattle.rb_xdr.specs.XdrTypes.{optional, read_pair, read_optional, max_optional};
ghost use Rattle.rb_xdr.specs.XdrLaws.{both, pair, if_there};

use crate::fault::XdrFault;
use crate::kept::Kept;
use crate::meter::Meter;
use crate::xdr::Xdr;

impl<A: Xdr, B: Xdr> Xdr for (A, B) {
    ghost is_value = { both A.is_value B.is_value };

    ghost spelling = { pair A.spelling B.spelling };

    ghost max_spelling = { A.max_spelling + B.max_spelling };

    ghost reads = { read_pair A.reads B.reads };

    ghost form = { Then A.form B.form };

    fn laws() {
        A::laws();
        B::laws();
    }

    fn room_after(&self, room: usize) -> Option<usize> {
        let left = self.0.room_after(room)?;
        self.1.room_after(left)
    }

    fn write(&self, out: &mut Kept, meter: &mut Meter) {
        self.0.write(out, meter);
        self.1.write(out, meter);
    }

    #[tactic(auto, unfolding(crate::specs::XdrTypes::read_pair))]
    fn read(bytes: &[u8]) -> Result<(Self, usize), XdrFault> {
        let (first, used) = A::read(bytes)?;
        let (second, more) = B::read(&bytes[used..])?;
        Ok(((first, second), used + more))
    }
}

impl<A: Xdr> Xdr for Option<A> {
    ghost is_value = { if_there A.is_value };

    ghost spelling = { optional A.spelling };

    ghost max_spelling = { max_optional A.max_spelling };

    ghost reads = { read_optional A.reads };

    ghost form = { Optional A.form };

    fn laws() {
        A::laws();
    }

    #[tactic(auto, using(crate::proofs::XdrSets::lengths), unfolding(crate::specs::XdrTypes::optional))]
    fn room_after(&self, room: usize) -> Option<usize> {
        match self {
            Some(item) => item.room_after(room.checked_sub(4)?),
            None => room.checked_sub(4),
        }
    }

    #[tactic(auto, using(crate::proofs::XdrSets::lengths), unfolding(crate::specs::XdrTypes::optional))]
    fn write(&self, out: &mut Kept, meter: &mut Meter) {
        match self {
            Some(item) => {
                true.write(out, meter);
                item.write(out, meter);
            }
            None => false.write(out, meter),
        }
    }

    #[tactic(auto, unfolding(crate::specs::XdrTypes::read_optional))]
    fn read(bytes: &[u8]) -> Result<(Self, usize), XdrFault> {
        let (is_there, used) = bool::read(bytes)?;
        if !is_there {
            return Ok((None, used));
        }
        let (item, more) = A::read(&bytes[used..])?;
        Ok((Some(item), used + more))
    }
}
