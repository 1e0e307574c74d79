//! Why `rpcbind` ends before all is done, and what it says of it.
ghost use Rattle.std.specs.Prelude.{◌≡◌, OnOk};
ghost use Rattle.rb_lines.specs.Printing.{Writes};
ghost use Rattle.rb_lines.specs.Faults.{status_of, Says, fault_line, limit_line, lines_before, fault_lines};

use crate::limits::{BadLimit, bad_limit};
use crate::lines::ReadFault;
use rb_answers::Listener;
use rb_model::Limits;
use std::io;
use std::io::Write;

/// Why the program ends before all is done.
#[derive(Clone, Copy)]
pub enum Fault {
    /// A word of the command line is no text.
    NotText,
    /// The input is no event lines, or there was no memory for them.
    Lines(ReadFault),
    /// An allocation was refused.
    NoMemory,
    /// A limit is out of its range.
    BadLimits,
    /// A step with a socket, the wait for events or the clock failed.
    SocketFailed,
    /// The input could not be read.
    ReadFailed,
    /// The output, or the file of a record, could not be written.
    WriteFailed,
    /// An input that must be checked has no output lines.
    NoOutputs,
    /// The line of this number says another output than the run gives there.
    Differs(usize),
    /// There is no line for the output of this number.
    Lacks(usize),
}

impl Fault {
    ghost use Rattle.rb_lines.specs.Faults.{status_of};

    /// The exit status of a program that ends by this fault: 2 if its words or its input are at fault, else 1.
    pub fn status(self) -> u8
        ensures { result ≡ status_of self }
    {
        match self {
            Fault::NotText
            | Fault::Lines(ReadFault::BadLine(_) | ReadFault::TooLong)
            | Fault::NoOutputs => 2,
            Fault::Lines(ReadFault::NoMemory)
            | Fault::NoMemory
            | Fault::BadLimits
            | Fault::SocketFailed
            | Fault::ReadFailed
            | Fault::WriteFailed
            | Fault::Differs(_)
            | Fault::Lacks(_) => 1,
        }
    }
}

/// How a command ended.
#[derive(Clone, Copy)]
pub struct Ending {
    /// The exit status: 0, 1 or 2.
    pub status: u8,
    /// Whether all that there is to tell was written to the error output, to the last byte.
    pub is_told: bool,
}

/// It ended well, and there is nothing to tell.
pub const DONE: Ending = Ending {
    status: 0,
    is_told: true,
};

/// Writes in front of bad limits the first that is out of its range.
#[tactic(auto, using(crate::proofs::Written::nothing))]
fn write_before<E: Write>(
    fault: Fault,
    limits: &Limits,
    listener: &Listener,
    faults: &mut E,
) -> io::Result<()>
    ensures { OnOk result
        (Writes E.contents faults.old faults.new (lines_before limits.now listener.now fault)) }
{
    match fault {
        Fault::BadLimits => write_limit(bad_limit(limits, listener), faults),
        Fault::NotText
        | Fault::Lines(_)
        | Fault::NoMemory
        | Fault::SocketFailed
        | Fault::ReadFailed
        | Fault::WriteFailed
        | Fault::NoOutputs
        | Fault::Differs(_)
        | Fault::Lacks(_) => Ok(()),
    }
}

#[tactic(auto, using(crate::proofs::Written::nothing))]
fn write_limit<E: Write>(bad: Option<BadLimit>, faults: &mut E) -> io::Result<()>
    ensures { OnOk result (Writes E.contents faults.old faults.new (limit_line bad)) }
{
    match bad {
        Some(bad) => writeln!(faults, "rpcbind: {bad}"),
        None => Ok(()),
    }
}

fn write_fault_lines<E: Write>(
    fault: Fault,
    limits: &Limits,
    listener: &Listener,
    faults: &mut E,
) -> io::Result<()>
    ensures { OnOk result
        (Writes E.contents faults.old faults.new (fault_lines limits.now listener.now fault)) }
{
    write_before(fault, limits, listener, faults)?;
    write_fault(fault, faults)
}

/// Ends a run with these limits at this listener by a fault. In front of the line of bad limits stands one that names
/// the first that is out of its range.
pub fn explain_run<E: Write>(
    fault: Fault,
    limits: &Limits,
    listener: &Listener,
    faults: &mut E,
) -> Ending
    ensures status { result.status ≡ status_of fault }
    ensures told { Says E.contents faults.old faults.new result
        (fault_lines limits.now listener.now fault) }
{
    let is_told = write_fault_lines(fault, limits, listener, faults).is_ok();
    Ending {
        status: fault.status(),
        is_told,
    }
}

/// Writes the line of a fault, with its end.
fn write_fault<E: Write>(fault: Fault, faults: &mut E) -> io::Result<()>
    ensures { OnOk result (Writes E.contents faults.old faults.new (fault_line fault)) }
{
    match fault {
        Fault::NotText => faults.write_all(b"rpcbind: a word is no text\n"),
        Fault::Lines(ReadFault::BadLine(n)) => writeln!(faults, "rpcbind: line {n}: bad event"),
        Fault::Lines(ReadFault::TooLong) => faults.write_all(b"rpcbind: input too long\n"),
        Fault::Lines(ReadFault::NoMemory) | Fault::NoMemory => {
            faults.write_all(b"rpcbind: no memory\n")
        }
        Fault::BadLimits => faults.write_all(b"rpcbind: bad limits\n"),
        Fault::SocketFailed => faults.write_all(b"rpcbind: socket failed\n"),
        Fault::ReadFailed => faults.write_all(b"rpcbind: read failed\n"),
        Fault::WriteFailed => faults.write_all(b"rpcbind: write failed\n"),
        Fault::NoOutputs => faults.write_all(b"rpcbind: no output lines\n"),
        Fault::Differs(n) => { writeln!(faults, "rpcbind: line {n}: the run gives another output") }
        Fault::Lacks(n) => writeln!(faults, "rpcbind: output {n} of the run has no line"),
    }
}

/// Ends by a fault: its line is written, if that can be.
pub fn explain<E: Write>(fault: Fault, faults: &mut E) -> Ending
    ensures status { result.status ≡ status_of fault }
    ensures told { Says E.contents faults.old faults.new result (fault_line fault) }
{
    let is_told = write_fault(fault, faults).is_ok();
    Ending {
        status: fault.status(),
        is_told,
    }
}
