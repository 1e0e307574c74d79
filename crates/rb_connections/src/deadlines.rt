//! How long a connection may stay in a stage.
ghost use Rattle.std.specs.Prelude.{◌≡◌};
ghost use Rattle.rb_model.specs.Losses.{time_in};
ghost use Rattle.rb_connections.specs.Slots.{phase_like};

use crate::slot::Stage;

/// From the opening, the last byte of a reply given, or the end of a silent call to the next record, in milliseconds.
const IDLE_TIME: u64 = 300_000;

/// From the first byte of a record to its end, in milliseconds.
const READING_TIME: u64 = 30_000;

/// From the end of a call, or a byte of its reply given, to the next byte given, in milliseconds.
const OWING_TIME: u64 = 30_000;

/// How long a connection may stay in this stage, from `since` on, in milliseconds: None if it has no deadline.
pub(crate) fn time_in(stage: &Stage) -> Option<u64>
    ensures { result ≡ time_in (phase_like stage.now) }
{
    match stage {
        Stage::Idle => Some(IDLE_TIME),
        Stage::Reading(_) => Some(READING_TIME),
        Stage::Owing(_) => Some(OWING_TIME),
        Stage::Awaiting | Stage::Lost => None,
    }
}
