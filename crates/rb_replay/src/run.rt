//! Runs: lists of events.
ghost use Rattle.std.specs.Prelude.{OnOk, OnErr};
ghost use Rattle.rb_model.specs.Plain.{events_of};
ghost use Rattle.rb_replay.specs.Runs.{AllHappened, SomeHappened, PaysForRun, PaysWithinBound, PaysForAnswered, StaysWithinBound};

use crate::events::happen;
use rb_core::Metered;
use rb_model::{Event, Output};
use rb_xdr::NoMemory;
use std::alloc::Global;

/// Does the events, one after another, and appends the output of each. `NoMemory` if an allocation for an output
/// is refused: then those events were done whose outputs were appended, and no other.
pub fn replay(
    alloc: Global,
    core: &mut Metered,
    events: &[Event],
    out: &mut Vec<Output>,
) -> Result<(), NoMemory>
    ensures all { OnOk result (AllHappened events.now core.old core.new out.old out.new) }
    ensures some { OnErr result (SomeHappened events.now core.old core.new out.old out.new) }
    ensures cost { PaysForRun core.old.core (events_of events.now) core.old.meter core.new.meter }
    ensures bound { PaysWithinBound core.old.core
        (events_of events.now) core.old.meter core.new.meter }
    ensures whole { PaysForAnswered events.now core.old core.new out.old out.new }
    ensures held { StaysWithinBound core.old.core core.new.core }
{
    for event in events {
        let Ok(()) = out.reserve(1) else {
            return Err(NoMemory);
        };
        let output = happen(alloc, core, event)?;
        out.push(output).unwrap();
    }
    Ok(())
}
