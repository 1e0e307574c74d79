//! Replies that the core gives go into the outbox of their connection.
ghost use Rattle.std.specs.Prelude.{◌≤◌, length, IfOk};
ghost use Rattle.rb_model.specs.Exchanges.{count_given};
ghost use Rattle.rb_engine.specs.Moves.{RecordsExchange};
ghost use Rattle.rb_inside.specs.Outboxes.{FillsOutbox, WritesToOutbox};

use rb_core::{CoreFault, Exchanged, Given};
use rb_engine::Engine;
use rb_links::Outbox;

/// Hands bytes in that came on a connection, and takes the reply over that is given at once, if there is one.
pub(crate) fn exchange(
    engine: &mut Engine,
    id: u64,
    piece: &[u8],
    outbox: &mut Outbox,
) -> Result<Exchanged, CoreFault>
    ensures acts { FillsOutbox id piece.now engine.old engine.new outbox.old outbox.new result }
    ensures recorded { RecordsExchange id piece.now (count_given result) engine.old engine.new }
    ensures within { IfOk result (λ done. done.taken.count ≤ length piece.now) }
{
    let room = &mut outbox.bytes.as_mut_slice()[outbox.end..];
    let done = engine.exchange(id, piece, room)?;
    outbox.end += done.given;
    Ok(done)
}

/// Takes over what a connection owes, whole fragments, as many as what is free of the outbox has room for.
pub(crate) fn write_into(
    engine: &mut Engine,
    id: u64,
    outbox: &mut Outbox,
) -> Result<Given, CoreFault>
    ensures { WritesToOutbox id engine.old engine.new outbox.old outbox.new result }
{
    let room = &mut outbox.bytes.as_mut_slice()[outbox.end..];
    let given = engine.write_into(id, room)?;
    outbox.end += given.count;
    Ok(given)
}
