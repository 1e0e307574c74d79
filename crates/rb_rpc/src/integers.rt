//! Numbers in bytes, and one after the other into a buffer.
ghost use Rattle.std.specs.Prelude.{◌≡◌, ◌+◌, ◌*◌, ◌^◌, ◌<◌, ◌≤◌, ◌↔◌, ◌++◌, length, IsOk, OnOk, OnErr};
ghost use Rattle.rb_xdr.specs.Meter.{Pays};
ghost use Rattle.rb_xdr.specs.Xdr.{number_at, words};
ghost use Rattle.rb_xdr.specs.Puts.{Appends};

use rb_xdr::{Full, Kept, Meter, Xdr};

/// The number that the four bytes from a place spell.
#[tactic(auto, unfolding(rb_xdr::specs::Xdr::number_at))]
pub(crate) fn number_at(bytes: &[u8], place: usize) -> u32
    requires { place + 4 ≤ length bytes.now }
    ensures { result ≡ number_at place bytes.now }
{
    let (_, rest) = bytes.split_at(place);
    let (number, _) = rest.split_at(4);
    u32::from_be_bytes([number[0], number[1], number[2], number[3]])
}

/// Puts these numbers, one after the other, or nothing.
pub(crate) fn put_numbers(numbers: &[u32], out: &mut Kept, meter: &mut Meter) -> Result<(), Full>
    requires tie { meter.old.tie ≡ out.old.tie }
    requires few { length numbers.now < 2 ^ 32 }
    ensures room { IsOk result ↔ (length out.old.bytes + 4 * length numbers.now ≤ out.old.cap) }
    ensures ok { OnOk result (Appends (words numbers.now) out.old out.new) }
    ensures unchanged { OnErr result (out.new ≡ out.old) }
    ensures cap { out.new.cap ≡ out.old.cap }
    ensures tie { out.new.tie ≡ out.old.tie }
    ensures cost { OnOk result (Pays meter.old meter.new (1 + 4 * length numbers.now)) }
    ensures cost_of_refusal { OnErr result (Pays meter.old meter.new 1) }
{
    if out.room(meter) < 4 * numbers.len() {
        return Err(Full { value: () });
    }
    // There is room for all of them, so `Xdr::put` need not ask again for each.
    for number in numbers {
        number.write(out, meter);
    }
    Ok(())
}
