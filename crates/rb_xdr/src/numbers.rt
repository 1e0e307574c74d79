//! Numbers and bools (RFC 4506, sections 4.1, 4.2 and 4.4).
ghost use Rattle.rb_xdr.specs.Forms.Form.{Number, Flag};
ghost use Rattle.rb_xdr.specs.Xdr.{IsNumber, number, boolean, read_number, read_bool, max_number};
ghost use Rattle.rb_xdr.specs.XdrTypes.{signed, read_signed};
ghost use Rattle.rb_xdr.specs.XdrLaws.{anything};

use crate::fault::XdrFault;
use crate::kept::Kept;
use crate::meter::Meter;
use crate::xdr::Xdr;

impl Xdr for u32 {
    ghost is_value = { IsNumber };

    ghost spelling = { number };

    ghost max_spelling = { max_number };

    ghost reads = { read_number };

    ghost form = { Number };

    fn laws() {}

    #[tactic(auto, using(crate::proofs::XdrSets::lengths))]
    fn room_after(&self, room: usize) -> Option<usize> {
        room.checked_sub(4)
    }

    #[tactic(auto, using(crate::proofs::XdrSets::lengths), unfolding(crate::specs::Xdr::number))]
    fn write(&self, out: &mut Kept, meter: &mut Meter) {
        let _ = out.extend(&self.to_be_bytes(), meter);
    }

    #[tactic(auto, unfolding(crate::specs::Xdr::read_number, crate::specs::Xdr::number_at))]
    fn read(bytes: &[u8]) -> Result<(Self, usize), XdrFault> {
        if bytes.len() < 4 {
            return Err(XdrFault::Short);
        }
        let number = u32::from_be_bytes([bytes[0], bytes[1], bytes[2], bytes[3]]);
        Ok((number, 4))
    }
}

impl Xdr for i32 {
    ghost use Rattle.std.specs.Prelude.{FitsSigned};
    ghost use Rattle.std.specs.Int.{w32};

    ghost is_value = { λ z. FitsSigned w32 z };

    ghost spelling = { signed };

    ghost max_spelling = { max_number };

    ghost reads = { read_signed };

    ghost form = { Number };

    fn laws() {}

    #[tactic(auto, using(crate::proofs::XdrSets::lengths))]
    fn room_after(&self, room: usize) -> Option<usize> {
        room.checked_sub(4)
    }

    #[tactic(auto, using(crate::proofs::XdrSets::lengths), unfolding(crate::specs::XdrTypes::signed))]
    fn write(&self, out: &mut Kept, meter: &mut Meter) {
        let value = *self;
        value.cast_unsigned().write(out, meter);
    }

    #[tactic(auto, unfolding(crate::specs::XdrTypes::read_signed))]
    fn read(bytes: &[u8]) -> Result<(Self, usize), XdrFault> {
        let (number, used) = u32::read(bytes)?;
        Ok((number.cast_signed(), used))
    }
}

impl Xdr for bool {
    ghost is_value = { anything };

    ghost spelling = { boolean };

    ghost max_spelling = { max_number };

    ghost reads = { read_bool };

    ghost form = { Flag };

    fn laws() {}

    #[tactic(auto, using(crate::proofs::XdrSets::lengths))]
    fn room_after(&self, room: usize) -> Option<usize> {
        room.checked_sub(4)
    }

    #[tactic(auto, using(crate::proofs::XdrSets::lengths), unfolding(crate::specs::Xdr::boolean))]
    fn write(&self, out: &mut Kept, meter: &mut Meter) {
        (*self as u32).write(out, meter);
    }

    #[tactic(auto, unfolding(crate::specs::Xdr::read_bool))]
    fn read(bytes: &[u8]) -> Result<(Self, usize), XdrFault> {
        let (number, used) = u32::read(bytes)?;
        match number {
            0 => Ok((false, used)),
            1 => Ok((true, used)),
            _ => Err(XdrFault::BadBool),
        }
    }
}
