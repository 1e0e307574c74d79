//! The buffers of entries, and the calls in them.
ghost use Rattle.std.specs.Prelude.{◌≡◌, ◌≤◌, ◌<◌, ◌+◌, ◌*◌, ◌++◌, [], All, length, IfOk};
ghost use Rattle.std.specs.Map.{values_of};
ghost use Rattle.rb_xdr.specs.Meter.{PaysAtMost};
ghost use Rattle.rb_xdr.specs.Pool.{HasDistinctKeys, SameFrame};
ghost use Rattle.rb_rpc.specs.CallBytes.{call_bytes};
ghost use Rattle.rb_rpc.specs.declared.call.Credential.TheVariants as credentials;
ghost use Rattle.rb_forward.specs.Table.{IsBuffer, IsSpare};
ghost use Rattle.rb_arguments.specs.Forwarded.{longest_forwarded};
ghost use Rattle.rb_forward.specs.StandsFor.{longest_forwarded_call};

use rb_arguments::LONGEST_FORWARDED;
use rb_rpc::{CallHead, put_call};
use rb_xdr::{Kept, Meter, NoMemory, Pool};
use std::alloc::Global;

/// A call's head with AUTH_NONE, in bytes.
pub(crate) const HEAD: usize = 40;

/// The longest forwarded call, in bytes: its head and the content of its arguments.
pub const LONGEST_FORWARDED_CALL: usize = HEAD + LONGEST_FORWARDED;

/// Takes the first spare buffer out. It is empty.
pub(crate) fn take_buffer(spare: &mut Pool<Kept>, meter: &mut Meter) -> Kept
    requires tie { meter.old.tie ≡ spare.old.tie }
    requires some { 0 < length spare.old.entries }
    requires buffers { All (IsSpare spare.old.tie) (values_of spare.old.entries) }
    requires distinct { HasDistinctKeys spare.old.entries }
    ensures fewer { length spare.old.entries ≡ length spare.new.entries + 1 }
    ensures buffers { All (IsSpare spare.old.tie) (values_of spare.new.entries) }
    ensures distinct { HasDistinctKeys spare.new.entries }
    ensures made { IsSpare spare.old.tie result }
    ensures frame { SameFrame spare.old spare.new }
    ensures cost { PaysAtMost meter.old meter.new 2 }
{
    let Some(key) = spare.first(meter) else {
        unreachable!()
    };
    let Some(buffer) = spare.remove(key, meter) else {
        unreachable!()
    };
    buffer
}

/// Empties a buffer and adds it to the spare ones.
pub(crate) fn put_buffer(spare: &mut Pool<Kept>, mut buffer: Kept, meter: &mut Meter)
    requires tie { meter.old.tie ≡ spare.old.tie }
    requires room { length spare.old.entries < spare.old.cap }
    requires buffers { All (IsSpare spare.old.tie) (values_of spare.old.entries) }
    requires made { IsBuffer spare.old.tie buffer }
    requires distinct { HasDistinctKeys spare.old.entries }
    ensures more { length spare.new.entries ≡ length spare.old.entries + 1 }
    ensures buffers { All (IsSpare spare.old.tie) (values_of spare.new.entries) }
    ensures distinct { HasDistinctKeys spare.new.entries }
    ensures frame { SameFrame spare.old spare.new }
    ensures cost { PaysAtMost meter.old meter.new 2 }
{
    buffer.clear(meter);
    spare.add(buffer, meter);
}

/// As many buffers as there may be entries.
#[tactic(auto, unfolding(rb_arguments::specs::Forwarded::longest_forwarded))]
pub(crate) fn make_spare(
    alloc: Global,
    cap: usize,
    meter: &mut Meter,
) -> Result<Pool<Kept>, NoMemory>
    ensures distinct { IfOk result (λ spare. HasDistinctKeys spare.entries) }
    ensures all { IfOk result (λ spare. length spare.entries ≡ cap) }
    ensures cap { IfOk result (λ spare. spare.cap ≡ cap) }
    ensures tie { IfOk result (λ spare. spare.tie ≡ meter.old.tie) }
    ensures buffers { IfOk result
        (λ spare. All (IsSpare meter.old.tie) (values_of spare.entries)) }
    ensures cost { PaysAtMost meter.old meter.new (2 * cap) }
{
    let mut spare = Pool::new(alloc, cap, meter)?;
    for _i in 0..cap {
        put_buffer(
            &mut spare,
            Kept::new(alloc, LONGEST_FORWARDED_CALL, meter)?,
            meter,
        );
    }
    Ok(spare)
}

/// Writes a call with AUTH_NONE into an empty buffer: its head, and the content of its arguments.
#[tactic(auto, using(crate::proofs::Heads::heads))]
pub(crate) fn write_call(buffer: &mut Kept, head: &CallHead, args: &[u8], meter: &mut Meter)
    requires tie { meter.old.tie ≡ buffer.old.tie }
    requires spare { buffer.old.bytes ≡ [] }
    requires cap { buffer.old.cap ≡ longest_forwarded_call }
    requires head { head.now.cred ≡ credentials.None }
    requires args { length args.now ≤ longest_forwarded }
    ensures written { buffer.new
        ≡ record buffer.old { bytes = call_bytes head.now ++ args.now } }
    ensures count { length buffer.new.bytes ≡ 40 + length args.now }
    ensures cost { PaysAtMost meter.old meter.new (41 + length args.now) }
{
    let Ok(()) = put_call(head, buffer, meter) else {
        unreachable!()
    };
    let Ok(()) = buffer.extend(args, meter) else {
        unreachable!()
    };
}
