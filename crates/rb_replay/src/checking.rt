//! The command `replay --check`: the outputs of a run, against those that stand in its input.
ghost use Rattle.std.specs.Prelude.{◌≡◌, ◌≤◌, ◌<◌, ◌++◌, [], false, length, codes, IsTrue, IfOk, IfErr, IfSome, OnOk};
ghost use Rattle.std.specs.Bool.{Decides};
ghost use Rattle.std.specs.Io.Buffered.{writer_buffer};
ghost use Rattle.rb_model.specs.State.{are_good};
ghost use Rattle.rb_model.specs.Plain.{outputs_of};
ghost use Rattle.rb_lines.specs.Lines.{read};
ghost use Rattle.rb_replay.specs.Running.{BufWrites};
ghost use Rattle.rb_lines.specs.OutputLines.{output_line_in};
ghost use Rattle.rb_replay.specs.Checking.{output_line_of, lines_of_outputs, agreement, whole_len, whole_lines, whole_input, IsPrintedAs, Agrees, AgreesWith, IsUnlike, OfRun, IsAgreed, FindsAgreed, CannotBeChecked, IsWrongWith, GoesOn, IsWrongAt, IsEnd, IsWhy, RefusesCheck, ExplainsCheck};

use crate::running::{read_input, run_from};
use rb_lines::{
    Beginning, DONE, Ending, Fault, WriteFailed, explain_run, longest_input, print_output,
    read_events,
};
use rb_model::Output;
use rb_xdr::Meter;
use std::alloc::Global;
use std::io::{BufWriter, Read, Write};

/// What a check found.
#[derive(Clone, Copy)]
pub struct Agreement {
    /// How many output lines agree with the run.
    pub count: usize,
    /// Whether the last line of the input is cut off, and was left out.
    pub is_cut: bool,
}

/// What an output line says, which stands after `#> `.
#[tactic(auto, unfolding(rb_lines::specs::OutputLines::output_line_in))]
fn output_line_in(line: &[u8]) -> Option<&[u8]>
    ensures { output_line_of result ≡ output_line_in line.now }
{
    line.strip_prefix(b"#> ")
}

/// Whether the text is this line and the line feed that ends it.
fn is_ended(text: &[u8], line: &[u8]) -> bool
    ensures { Decides result (text.now ≡ line.now ++ codes "\n") }
{
    match text.strip_suffix(b"\n") {
        Some(front) => front == line,
        None => false,
    }
}

/// Whether the output is printed as this line, which is not ended by its line feed.
fn is_printed_as(output: &Output, line: &[u8], shown: &mut Vec<u8>) -> Result<bool, Fault>
    ensures same { IfOk result (IsPrintedAs output.now line.now) }
    ensures err { IfErr result (λ fault. fault ≡ Fault.NoMemory) }
{
    shown.clear();
    match print_output(output, shown) {
        Ok(()) => Ok(is_ended(shown, line)),
        Err(WriteFailed) => Err(Fault::NoMemory),
    }
}

// CHECK-2
/// Compares the line of this number with the next output, if it is an output line.
fn compare_line(
    outputs: &[Output],
    next: &mut usize,
    number: usize,
    line: &[u8],
    shown: &mut Vec<u8>,
) -> Result<(), Fault>
    requires { next.old ≤ length outputs.now }
    ensures few { OnOk result (next.new ≤ length outputs.now) }
    ensures ok { OnOk result (GoesOn (lines_of_outputs outputs.now) line.now next.old next.new) }
    ensures err { IfErr result (IsWrongAt number (lines_of_outputs outputs.now) line.now next.old) }
{
    let Some(said) = output_line_in(line) else {
        return Ok(());
    };
    let Some(output) = outputs.get(*next) else {
        return Err(Fault::Differs(number));
    };
    if !is_printed_as(output, said, shown)? {
        return Err(Fault::Differs(number));
    }
    *next += 1;
    Ok(())
}

// CHECK-2
/// What is said once all output lines of a text agreed: there are `found` of them, and the run has `count` outputs.
fn end_of(found: usize, count: usize) -> Result<(), Fault>
    ensures ok { OnOk result ((count ≤ found) × (0 < found)) }
    ensures err { IfErr result (IsEnd found count) }
{
    if found == 0 {
        Err(Fault::NoOutputs)
    } else if found < count {
        Err(Fault::Lacks(found + 1))
    } else {
        Ok(())
    }
}

/// Compares the output lines of a text with the outputs of a run.
fn compare(alloc: Global, text: &[u8], outputs: &[Output]) -> Result<(), Fault>
    ensures ok { OnOk result (Agrees text.now (outputs_of outputs.now)) }
    ensures err { IfErr result (IsUnlike text.now (outputs_of outputs.now)) }
{
    let mut shown = Vec::new(alloc);
    let mut next = 0;
    for (i, line) in text.split(|b| *b == b'\n').enumerate() {
        if let Err(fault) = compare_line(outputs, &mut next, i + 1, line, &mut shown) {
            return Err(fault);
        }
    }
    end_of(next, outputs.len())
}

/// Runs the events of a text, and compares what they give with the output lines of the text. The answer is how many
/// outputs there are, all of which agree. `NoOutputs` if the text has no output lines, `Differs` with the number
/// of the first line that says another output than the run gives there, and `Lacks` with the number of the first
/// output for which the text has no line, each counted from 1; `Lines` and `BadLimits` as when it is replayed.
pub fn check_text(alloc: Global, beginning: &Beginning, text: &[u8]) -> Result<usize, Fault>
    ensures ok { IfOk result
        (λ n. OfRun beginning.now (AgreesWith text.now false n) (read text.now)) }
    ensures good { OnOk result (IsTrue (are_good beginning.now.limits beginning.now.listener)) }
    ensures err { IfErr result (IsWrongWith beginning.now text.now) }
{
    check_lines(alloc, beginning, text, false)
}

/// Checks a text, of which a last line was cut off or was not: if it was, outputs may have no lines.
fn check_lines(
    alloc: Global,
    beginning: &Beginning,
    text: &[u8],
    is_cut: bool,
) -> Result<usize, Fault>
    ensures ok { IfOk result
        (λ n. OfRun beginning.now (AgreesWith text.now is_cut n) (read text.now)) }
    ensures good { OnOk result (IsTrue (are_good beginning.now.limits beginning.now.listener)) }
    ensures err { IfErr result (IsWrongWith beginning.now text.now) }
{
    let events = match read_events(alloc, text) {
        Ok(events) => events,
        Err(fault) => return Err(Fault::Lines(fault)),
    };
    let ran = run_from(alloc, beginning, &events, &mut Meter::new())?;
    match compare(alloc, text, &ran.outputs) {
        Ok(()) => Ok(ran.outputs.len()),
        Err(Fault::Lacks(next)) if is_cut => Ok(next.saturating_sub(1)),
        Err(fault) => Err(fault),
    }
}

/// How many bytes of a text stand up to its last line feed, and with it.
fn whole_len(text: &[u8]) -> usize
    ensures { result ≡ whole_len text.now (length text.now) }
{
    let mut len = text.len();
    while len > 0 {
        if text[len - 1] == b'\n' {
            return len;
        }
        len -= 1;
    }
    0
}

/// What is checked of a text: all of it, but for a last line that is cut off.
fn whole_lines(text: &[u8]) -> &[u8]
    ensures { result.now ≡ whole_lines text.now }
{
    if text.len() > longest_input() {
        return text;
    }
    &text[..whole_len(text)]
}

/// Reads the reader to its end, or one byte more than an input may have, and checks the text.
fn check_all<R: Read>(
    alloc: Global,
    beginning: &Beginning,
    reader: &mut R,
) -> Result<Agreement, Fault>
    ensures ok { IfOk result (λ a. IsAgreed beginning.now R.remaining reader.old a) }
    ensures good { OnOk result (IsTrue (are_good beginning.now.limits beginning.now.listener)) }
    ensures refused { IfErr result (RefusesCheck (whole_input R.remaining) reader.old) }
    ensures why { IfErr result (IsWhy beginning.now (whole_input R.remaining) reader.old) }
{
    let text = match read_input(alloc, reader) {
        Ok(text) => text,
        Err(fault) => return Err(fault),
    };
    let whole = whole_lines(&text);
    let is_cut = whole.len() < text.len();
    match check_lines(alloc, beginning, whole, is_cut) {
        Ok(count) => Ok(Agreement { count, is_cut }),
        Err(fault) => Err(fault),
    }
}

/// Writes what agrees, to the last byte.
fn put_agreement<W: Write + Drop>(found: Agreement, out: &mut BufWriter<W>) -> Result<(), Fault>
    ensures ok { OnOk result (BufWrites W.contents out.old out.new (agreement found)) }
    ensures flushed { OnOk result (writer_buffer out.new ≡ []) }
    ensures err { IfErr result (λ fault. fault ≡ Fault.WriteFailed) }
{
    let Agreement { count, is_cut } = found;
    if is_cut {
        if writeln!(out, "{count} outputs agree; the last line is cut off").is_err()
            || out.flush().is_err()
        {
            return Err(Fault::WriteFailed);
        }
        return Ok(());
    }
    if writeln!(out, "{count} outputs agree").is_err() || out.flush().is_err() {
        return Err(Fault::WriteFailed);
    }
    Ok(())
}

/// Runs the command `replay --check`: it reads event lines to the end, makes a core, runs their events on it, and
/// compares what each gives with the output lines of the input, which begin with `#> `.
///
/// Status 0 says that all agree, and so does the one line that is written to `out`. Of an input whose last line is cut off,
/// since no line feed ends it, as of a record whose disk was full, that line is left out and the rest is checked, which
/// the line tells. 2 says that the input is no event lines or has no output lines. 1 says that an output differs or has no line, that the limits are out of their
/// ranges, or that reading, writing or memory failed. What is wrong is written to `faults`; at 0 nothing is.
pub fn run_check<R: Read, W: Write + Drop, E: Write>(
    alloc: Global,
    beginning: &Beginning,
    reader: &mut R,
    out: &mut BufWriter<W>,
    faults: &mut E,
) -> Ending
    ensures status { result.status ≤ 2 }
    ensures ok { result.status ≡ 0
        → FindsAgreed beginning.now R.remaining reader.old W.contents out.old out.new }
    ensures good { result.status ≡ 0 → IsTrue (are_good beginning.now.limits beginning.now.listener) }
    ensures flushed { result.status ≡ 0 → writer_buffer out.new ≡ [] }
    ensures quiet { result.status ≡ 0 → faults.new ≡ faults.old }
    ensures refused { result.status ≡ 2
        → IfSome (whole_input R.remaining reader.old) CannotBeChecked }
    ensures unwritten { result.status ≡ 2 → out.new ≡ out.old }
    ensures told { ExplainsCheck
        beginning.now (whole_input R.remaining) reader.old E.contents faults.old faults.new result }
{
    let found = match check_all(alloc, beginning, reader) {
        Ok(found) => found,
        Err(fault) => return explain_run(fault, &beginning.limits, &beginning.listener, faults),
    };
    match put_agreement(found, out) {
        Ok(()) => DONE,
        Err(fault) => explain_run(fault, &beginning.limits, &beginning.listener, faults),
    }
}
