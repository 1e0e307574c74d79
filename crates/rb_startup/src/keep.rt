//! What `serve` begins with of the rows that were kept, and what it says of them.
ghost use Rattle.std.specs.Prelude.{◌≡◌, true, false};
ghost use Rattle.rb_startup.specs.declared.ending.StartFault.TheVariants.{NoMemory, Unread};
ghost use Rattle.rb_startup.specs.Ends.{is_memory};
ghost use Rattle.rb_startup.specs.Starts.{hosts_of};

use crate::ending::StartFault;
use crate::leveled::{Level, Leveled};
use rb_address::Host;
use rb_answers::Announced;
use rb_commands::Serve;
use rb_files::{Found, KeptFileFault, LockFault, OwnHosts, ask_all, lock_file, read_kept};
use rb_keep::{KeepFault, read_rows, whole_part};
use rb_lines::longest_input;
use rb_policy::ANY;
use rb_registry::Row;
use rb_settings::{Few, Settings};
use std::alloc::{AllocError, Global};
use std::fmt;
use std::fmt::{Display, Formatter};
use std::fs::{File, Files};
use std::io::{ErrorKind, Write};
use std::net::Net;
use std::rt::Clock;

/// Why rows that were kept are not read.
#[derive(Drop)]
pub enum KeepReadFault {
    /// Their file is not read.
    File(KeptFileFault),
    /// It is no text of kept rows.
    Text(KeepFault),
}

impl Display for KeepReadFault {
    fn fmt<W: fmt::Write>(&self, f: &mut Formatter<W>) -> fmt::Result {
        match self {
            KeepReadFault::File(fault) => write!(f, "{fault}"),
            KeepReadFault::Text(fault) => write!(f, "{fault}"),
        }
    }
}

// KEEP-17: One daemon at most has the lock of a file of kept rows, at its path with `.lock` after it;
// a second one does not start.
/// The lock of the file where rows are kept, if they are: it is had as long as the answer lives. An error if another daemon
/// has it, or an allocation is refused. If the system refuses it, that is said, and the daemon goes on without it.
pub fn lock_keep<'a, R, E>(
    rt: &R,
    settings: &Settings<'a>,
    faults: &mut E,
) -> Result<Option<File>, StartFault<'a>>
where
    R: Files<File = File> + AllocGlobal,
    E: Write,
{
    let Some(path) = settings.keep else {
        return Ok(None);
    };
    let lock = lock_path(rt.alloc(), path)?;
    match lock_file(rt, &lock) {
        Ok(file) => Ok(Some(file)),
        Err(LockFault::Held) => Err(StartFault::Locked(path)),
        Err(LockFault::Failed(error)) => {
            let _ = writeln!(faults, "rpcbind: {lock}: {error}; {path} is not locked");
            Ok(None)
        }
    }
}

fn lock_path(alloc: Global, path: &str) -> Result<String, AllocError> {
    let mut lock = String::new(alloc);
    lock.push_str(path)?;
    lock.push_str(".lock")?;
    Ok(lock)
}

/// The rows of the file at the path; none if nothing is there. If its last line was not written whole, that is said.
fn rows_at<R: Files, E: Write>(
    rt: &R,
    alloc: Global,
    path: &str,
    faults: &mut E,
) -> Result<Vec<Row>, KeepReadFault> {
    match read_kept(rt, alloc, path, longest_input()) {
        Ok(Some(text)) => {
            say_torn(path, &text, faults);
            read_rows(alloc, &text).map_err(KeepReadFault::Text)
        }
        Ok(None) => Ok(Vec::new(alloc)),
        Err(fault) => Err(KeepReadFault::File(fault)),
    }
}

// KEEP-13
/// Says how many bytes stand behind the last line feed of a text, if any do.
fn say_torn<E: Write>(path: &str, text: &[u8], faults: &mut E) {
    let torn = text.len().saturating_sub(whole_part(text).len());
    if torn > 0 {
        let _ = writeln!(
            faults,
            "rpcbind: {path}: its last line is not whole, and is left out ({torn} bytes)"
        );
    }
}

/// The rows that were kept, in their order: none if none should be kept, or if nothing is at the path. Those of this
/// machine at whose port nobody answers are left out and said, if that is asked for. An error if the rows can't be read, or
/// an allocation is refused.
pub fn read_keep<'a, R, E>(
    rt: &R,
    serve: &Serve<'a>,
    faults: &mut E,
) -> Result<Vec<Row>, StartFault<'a>>
where
    R: Files + Net + Clock + AllocGlobal,
    E: Write,
{
    let settings = &serve.settings;
    let Some(path) = settings.keep else {
        return Ok(Vec::new(rt.alloc()));
    };
    let rows = match rows_at(rt, rt.alloc(), path, faults) {
        Ok(rows) => rows,
        Err(fault) => return Err(start_fault(path, fault)),
    };
    if serve.keep_check {
        Ok(without_silent(rt, path, settings, rows, faults)?)
    } else {
        Ok(rows)
    }
}

/// Whether an allocation was refused.
fn is_memory(fault: &KeepReadFault) -> bool
    ensures { result ≡ is_memory fault.now }
{
    match fault {
        KeepReadFault::Text(KeepFault::NoMemory) => true,
        KeepReadFault::File(KeptFileFault::Failed(error)) => {
            matches!(error.kind(), ErrorKind::OutOfMemory)
        }
        KeepReadFault::Text(_) | KeepReadFault::File(_) => false,
    }
}

// EXIT-1
/// Why it can't start, if this is why the rows at the path are not read.
fn start_fault<'a>(path: &'a str, fault: KeepReadFault) -> StartFault<'a>
    ensures memory { is_memory fault ≡ true → result ≡ NoMemory }
    ensures unread { is_memory fault ≡ false → result ≡ Unread path.entry fault }
{
    if is_memory(&fault) {
        StartFault::NoMemory
    } else {
        StartFault::Unread(path, fault)
    }
}

fn without_silent<R: Net + Clock + AllocGlobal, E: Write>(
    rt: &R,
    path: &str,
    settings: &Settings<'_>,
    rows: Vec<Row>,
    faults: &mut E,
) -> Result<Vec<Row>, AllocError> {
    let found = ask_rows(rt, settings, &rows)?;
    let mut answering = Vec::with_capacity(rt.alloc(), rows.len())?;
    for (row, found) in rows.into_iter().zip(&found) {
        if found.is_nobody() {
            say_row(path, &row, ": nobody answers", faults);
        } else {
            answering.push(row)?;
        }
    }
    Ok(answering)
}

/// The hosts that are announced.
fn hosts_of(announced: Announced) -> Few<Host>
    ensures { result ≡ hosts_of announced }
{
    let mut hosts = Few::new(Host::V4(ANY));
    if let Some(octets) = announced.inet {
        hosts.push(Host::V4(octets));
    }
    if let Some(octets) = announced.inet6 {
        hosts.push(Host::V6(octets));
    }
    hosts
}

/// What is known of who answers at the address of each row.
fn ask_rows<R: Net + Clock + AllocGlobal>(
    rt: &R,
    settings: &Settings<'_>,
    rows: &[Row],
) -> Result<Vec<Found>, AllocError> {
    let announced = hosts_of(settings.announced());
    let own = OwnHosts {
        bound: settings.bind.as_slice(),
        announced: announced.as_slice(),
    };
    ask_all(rt, rt.alloc(), rows, own)
}

/// Says of the rows at these places that they were not set again.
pub fn say_left_out<E: Write>(
    settings: &Settings<'_>,
    rows: &[Row],
    left_out: &[usize],
    faults: &mut E,
) {
    let Some(path) = settings.keep else {
        return;
    };
    for place in left_out {
        if let Some(row) = rows.get(*place) {
            say_row(path, row, " can't be set again", faults);
        }
    }
}

/// A line of a row of the file: its program, its version and its netid, and what is said of it.
fn say_row<E: Write>(path: &str, row: &Row, words: &str, faults: &mut E) {
    let (prog, vers) = (row.prog, row.vers);
    let netid = row.netid.text();
    let mut warnings = Leveled::new(faults, Level::Warning);
    let _ = writeln!(warnings, "rpcbind: {path}: {prog} {vers} {netid}{words}");
}
