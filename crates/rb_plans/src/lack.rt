//! The line of a version that is not available.
ghost use Rattle.std.specs.Prelude.{OnOk};
ghost use Rattle.rb_show.specs.Asks.{Writes};
ghost use Rattle.rb_plans.specs.Lacks.{lack_line};

use std::io;
use std::io::Write;

/// Writes the line of a version that is not available. An error if the writer fails.
pub fn show_lack<W: Write>(prog: u32, vers: u32, writer: &mut W) -> io::Result<()>
    ensures { OnOk result (Writes W.contents writer.old writer.new (lack_line prog vers)) }
{
    writeln!(writer, "program {prog} version {vers} not available")
}
