//! Values that are spelled in bytes (RFC 4506).
ghost use Rattle.std.specs.Prelude.{◌≡◌, ℕ, ◌+◌, ◌≤◌, ◌<◌, List, length, take, Result, Ok, OnOk, OnErr, IfOk, IfErr, MatchOption};
ghost use Rattle.rb_xdr.specs.Puts.{Appends, HasRoom, Leaves, Puts};
ghost use Rattle.rb_xdr.specs.Meter.{Pays};
ghost use Rattle.rb_xdr.specs.Forms.{Form, FirstFault, HasForm};
ghost use Rattle.rb_xdr.specs.Xdr.{Reader};
ghost use Rattle.rb_xdr.specs.XdrLaws.{BeginsWith, IsOnlyRead, BeginsWithNone, IsSound, IsComplete, IsBounded};

use crate::fault::XdrFault;
use crate::full::Full;
use crate::kept::Kept;
use crate::meter::Meter;

/// A type with an XDR encoding (RFC 4506), here called spelling: each value has exactly one, and none is a proper
/// prefix of another.
///
/// An impl gives `laws`, `room_after`, `write` and `read`; callers use `take` and `put`.
pub trait Xdr: Drop {
    /// Holds of the values of the type: a number is in range, a text within its limit.
    ghost is_value: { Self → Type 0 };

    /// The spelling of a value.
    ghost spelling: { Self → List ℕ };

    /// No spelling is longer.
    ghost max_spelling: { ℕ };

    /// What the front of the bytes is read as: a value and the length of its spelling, or the first
    /// fault.
    ghost reads: { Reader Self };

    /// What a spelling is made of: it says which fault comes first.
    ghost form: { Form };

    /// What holds of the type. It does nothing.
    ///
    /// What is read is a value whose spelling stands in front of what is left, and its spelling is
    /// read as that value, whatever follows it. No spelling is longer than the greatest, and the
    /// faults are those of the form.
    fn laws()
        ensures sound { IsSound is_value spelling reads }
        ensures complete { IsComplete is_value spelling reads }
        ensures bounded { IsBounded is_value spelling max_spelling }
        ensures faults { HasForm form reads };

    /// How many of `room` bytes are left after the value's spelling, or `None` if it has more than `room` bytes.
    fn room_after(&self, room: usize) -> Option<usize>
        ensures { Leaves (spelling self.now) room result };

    /// Adds the spelling at the end of a buffer that has room for it.
    fn write(&self, out: &mut Kept, meter: &mut Meter)
        requires tie { meter.old.tie ≡ out.old.tie }
        requires room { HasRoom (spelling self.now) out.old }
        ensures value { is_value self.now }
        ensures written { Appends (spelling self.now) out.old out.new }
        ensures cost { Pays meter.old meter.new (length (spelling self.now)) };

    /// Reads the front of the bytes.
    fn read(bytes: &[u8]) -> Result<(Self, usize), XdrFault>
        ensures exact { result ≡ reads bytes.now }
        ensures within { IfOk result (λ read. read.1 ≤ length bytes.now) };

    /// Reads a value from the front of the bytes, and says how many of them spell it. Bytes after
    /// them count for nothing.
    ///
    /// It fails exactly if no front of the bytes is a spelling, with the first fault of the form.
    final fn take(bytes: &[u8]) -> Result<(Self, usize), XdrFault>
        ensures found { IfOk result (BeginsWith is_value spelling bytes.now) }
        ensures only { IsOnlyRead is_value spelling bytes.now result }
        ensures none { OnErr result (BeginsWithNone is_value spelling bytes.now) }
        ensures fault { IfErr result (FirstFault form bytes.now) }
        ensures exact { result ≡ reads bytes.now }
    {
        Self::laws();
        Self::read(bytes)
    }

    /// Writes the spelling at the end of a buffer: 1 step, and one for each byte. `Full`, with the buffer as it was,
    /// if it does not fit: 1 step.
    final fn put(&self, out: &mut Kept, meter: &mut Meter) -> Result<(), Full>
        requires { meter.old.tie ≡ out.old.tie }
        ensures puts { Puts (spelling self.now) out.old.cap out.old out.new result }
        ensures value { OnOk result (is_value self.now) }
        ensures cost { OnOk result (Pays meter.old meter.new (1 + length (spelling self.now))) }
        ensures cost_of_refusal { OnErr result (Pays meter.old meter.new 1) }
    {
        if self.room_after(out.room(meter)).is_none() {
            return Err(Full { value: () });
        }
        self.write(out, meter);
        Ok(())
    }
}
