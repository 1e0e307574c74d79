//! A core begins with the rows that were kept.
ghost use Rattle.std.specs.Prelude.{◌≡◌, [], ◌∷◌, IsTrue, IsErrOf, IfOk, OnOk, false};
ghost use Rattle.rb_model.specs.Step.{after};
ghost use Rattle.rb_model.specs.ChangeLaws.{set_call, set_calls};
ghost use Rattle.rb_lines.specs.Starts.{MeetsLaws};
ghost use Rattle.rb_settings.specs.Settings.{listener_of};
ghost use Rattle.rb_engine.specs.Served.{with_rows_again};
ghost use Rattle.rb_engine.specs.Moves.{IsNewEngine, Moves};

use crate::engine::Engine;
use crate::keeping::Keeper;
use crate::replies::Replies;
use rb_registry::Row;
use rb_settings::{DaemonFault, Settings};
use std::alloc::{AllocError, Global};
use std::fs::Files;

/// A core with the rows that were kept.
#[derive(Drop)]
pub struct Begun<H: Files> {
    /// The core.
    pub engine: Engine,
    /// What keeps them.
    pub keeper: Keeper<H>,
    /// Replies that wait until changes are kept: none.
    pub replies: Replies,
    /// Which of the rows are not set again.
    pub left_out: Vec<usize>,
}

/// An engine at this moment, whose first forwarded call has this xid. `Memory` if an allocation is refused.
fn engine_of(
    alloc: Global,
    settings: &Settings<'_>,
    xid: u32,
    moment: u64,
) -> Result<Engine, DaemonFault>
    requires { MeetsLaws (listener_of settings.now) settings.now.record_limit }
    ensures others { IsErrOf result DaemonFault.Limits → IsTrue false }
    ensures made { IfOk result
        (IsNewEngine xid moment settings.now.limits (listener_of settings.now)) }
    ensures record { IfOk result (λ engine. engine.tape.limit ≡ settings.now.record_limit) }
{
    let made = Engine::new(
        alloc,
        settings.limits,
        settings.listener(),
        xid,
        moment,
        settings.record_limit,
        settings.log,
    );
    match made {
        Ok(engine) => Ok(engine),
        Err(_) => Err(DaemonFault::Memory(AllocError)),
    }
}

/// Begins at this moment, sets the rows again that were kept, and keeps those from here on. `Memory` if an allocation is
/// refused.
pub fn begin<H: Files>(
    alloc: Global,
    settings: &Settings<'_>,
    xid: u32,
    moment: u64,
    kept: &[Row],
) -> Result<Begun<H>, DaemonFault>
    requires { MeetsLaws (listener_of settings.now) settings.now.record_limit }
    ensures others { IsErrOf result DaemonFault.Limits → IsTrue false }
{
    let replies = Replies::new(alloc).map_err(DaemonFault::Memory)?;
    let mut engine = engine_of(alloc, settings, xid, moment)?;
    let rows = settings.limits.rows;
    let mut keeper = Keeper::new(alloc, settings.keep, rows).map_err(DaemonFault::Memory)?;
    match restore(alloc, &mut engine, &mut keeper, kept) {
        Ok(left_out) => Ok(Begun {
            engine,
            keeper,
            replies,
            left_out,
        }),
        Err(error) => Err(DaemonFault::Memory(error)),
    }
}

/// Sets a row again that was kept, and notes whose it is. If it is not set, its place is left out. An error if an allocation
/// is refused.
fn restore_row<H: Files>(
    engine: &mut Engine,
    keeper: &mut Keeper<H>,
    row: &Row,
    place: usize,
    left_out: &mut Vec<usize>,
) -> Result<(), AllocError>
    ensures acts { Moves (λ s now. after s (set_call now row.now ∷ [])) engine.old engine.new }
    ensures moment { engine.new.moment ≡ engine.old.moment }
{
    let is_set = engine.restore(row);
    keeper.note(engine);
    if !is_set {
        left_out.push(place)?;
    }
    Ok(())
}

/// Sets the rows again that were kept, in their order, and notes whose they are. The places of those that are not set are left
/// out. An error if an allocation is refused.
fn restore_rows<H: Files>(
    engine: &mut Engine,
    keeper: &mut Keeper<H>,
    rows: &[Row],
    left_out: &mut Vec<usize>,
) -> Result<(), AllocError>
    ensures { OnOk result (Moves (λ s now. after s (set_calls now rows.now)) engine.old engine.new) }
{
    let mut place = 0usize;
    for row in rows {
        restore_row(engine, keeper, row, place, left_out)?;
        place = place.saturating_add(1);
    }
    Ok(())
}

/// Sets the rows again that were kept, notes whose they are, and begins the statistics anew after them. Returns the places
/// of those that are not set. An error if an allocation is refused.
fn restore<H: Files>(
    alloc: Global,
    engine: &mut Engine,
    keeper: &mut Keeper<H>,
    rows: &[Row],
) -> Result<Vec<usize>, AllocError>
    ensures { OnOk result (Moves (with_rows_again rows.now) engine.old engine.new) }
{
    let mut left_out = Vec::new(alloc);
    restore_rows(engine, keeper, rows, &mut left_out)?;
    keeper.begin(engine);
    if rows.is_empty() {
        return Ok(left_out);
    }
    engine.zero_stats();
    Ok(left_out)
}
