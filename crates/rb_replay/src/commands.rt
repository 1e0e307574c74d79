//! The commands `replay` and `replay --check`, as a program calls them.
ghost use Rattle.std.specs.Prelude.{◌≡◌, ◌≤◌, IsTrue};
ghost use Rattle.rb_model.specs.State.{are_good};

use crate::checking::run_check;
use crate::running::run_replay;
use rb_lines::{Beginning, Ending, Fault, explain};
use rb_xdr::Meter;
use std::alloc::Global;
use std::io::{BufWriter, Read, Write};

/// Runs the command `replay` from a reader to a writer. What is wrong is written to `faults`.
pub fn replay_lines<R: Read, W: Write + Drop, E: Write>(
    alloc: Global,
    beginning: &Beginning,
    reader: &mut R,
    writer: W,
    faults: &mut E,
) -> Ending
    ensures status { result.status ≤ 2 }
    ensures good { result.status ≡ 0 → IsTrue (are_good beginning.now.limits beginning.now.listener) }
{
    let Ok(mut output) = BufWriter::new(alloc, writer) else {
        return explain(Fault::NoMemory, faults);
    };
    let mut meter = Meter::new();
    run_replay(alloc, beginning, reader, &mut output, faults, &mut meter)
}

/// Runs the command `replay --check` from a reader to a writer. What is wrong is written to `faults`.
pub fn check_lines<R: Read, W: Write + Drop, E: Write>(
    alloc: Global,
    beginning: &Beginning,
    reader: &mut R,
    writer: W,
    faults: &mut E,
) -> Ending
    ensures status { result.status ≤ 2 }
    ensures good { result.status ≡ 0 → IsTrue (are_good beginning.now.limits beginning.now.listener) }
{
    let Ok(mut output) = BufWriter::new(alloc, writer) else {
        return explain(Fault::NoMemory, faults);
    };
    run_check(alloc, beginning, reader, &mut output, faults)
}
