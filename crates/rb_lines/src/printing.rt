//! The lines that are printed of a run.
ghost use Rattle.std.specs.Prelude.{OnOk};
ghost use Rattle.rb_lines.specs.Printing.{printed, steps_line, report, Writes};

use crate::outputs::output_line;
use rb_model::Output;
use std::io::Write;
use thiserror::Error;

/// The writer failed. How much of a line it has is not known.
#[derive(Clone, Copy, Debug, Drop, Error)]
#[error("write failed")]
pub struct WriteFailed;

/// Writes the line of an output. `WriteFailed` if the writer fails; how much of the line it has then is not known.
pub fn print_output<W: Write>(output: &Output, writer: &mut W) -> Result<(), WriteFailed>
    ensures { OnOk result (Writes W.contents writer.old writer.new (printed output.now)) }
{
    match output_line(output).write_to(writer) {
        Ok(()) => Ok(()),
        Err(_) => Err(WriteFailed),
    }
}

/// Writes how many steps a run took, and how many it may.
pub fn print_steps<W: Write>(steps: u128, bound: u128, writer: &mut W) -> Result<(), WriteFailed>
    ensures { OnOk result (Writes W.contents writer.old writer.new (steps_line steps bound)) }
{
    match writeln!(writer, "steps {steps} bound {bound}") {
        Ok(()) => Ok(()),
        Err(_) => Err(WriteFailed),
    }
}

/// Writes the lines of the outputs, in their order. `WriteFailed` as of one.
pub fn print_outputs<W: Write>(outputs: &[Output], writer: &mut W) -> Result<(), WriteFailed>
    ensures { OnOk result (Writes W.contents writer.old writer.new (report outputs.now)) }
{
    for output in outputs {
        print_output(output, writer)?;
    }
    Ok(())
}
