//! What `serve` says of its start and of its end.
ghost use Rattle.std.specs.Prelude.{◌≡◌, OnOk};
ghost use Rattle.std.specs.Io.KnownBytes.{Appends};
ghost use Rattle.std.specs.Option.{option_map};
ghost use Rattle.rb_startup.specs.Ends.{status_of, end_at_start, end_after};
ghost use Rattle.rb_startup.specs.Starts.{loopback6_text};
ghost use Rattle.rb_startup.specs.Fronts.{front_text};
ghost use Rattle.rb_startup.specs.Faults.{HasWritten, TellsThen, TellsFault, TellsStart, TellsTurns};

use crate::ending::{StartFault, end_after, end_at_start};
use crate::leveled::{Level, Leveled};
use crate::start::{ListeningText, ShortageLine, UnannouncedLine};
use rb_address::Host;
use rb_answers::Announced;
use rb_lines::{Ending, Fault, explain, explain_run};
use rb_policy::is_no_address;
use rb_settings::{DaemonFault, LocalSocket, MOST, Settings, Shortage, SocketFault, Step};
use rb_sockets::{AddressNews, TableFault};
use std::fmt::{Display, Formatter};
use std::io::Write;
use std::{fmt, io};

/// What is wrong if the lock of kept rows is had.
const ANOTHER_DAEMON: &str = "another daemon keeps its rows there";

/// Says on standard output where the daemon listens, and before that on `faults` if clients over UDP will be told no
/// address, and if there is a shortage of descriptors. An error if standard output failed.
pub fn say_start<R: Print, E: Write>(
    rt: &R,
    settings: &Settings<'_>,
    shortage: Option<Shortage>,
    faults: &mut E,
) -> io::Result<()> {
    let mut warnings = Leveled::new(&mut *faults, Level::Warning);
    say_shortage(shortage, &mut warnings);
    say_announced(settings, &mut warnings);
    print!(rt; "{}", ListeningText(settings))
}

/// For each family whether clients over UDP will be told no address of it, since none is given.
fn say_announced<E: Write>(settings: &Settings<'_>, faults: &mut E) {
    let Announced { inet, inet6 } = settings.announced();
    let inet = inet.map(Host::V4);
    let inet6 = inet6.map(Host::V6);
    for host in [inet, inet6].into_iter().flatten() {
        if is_no_address(host) {
            let _ = writeln!(faults, "{}", UnannouncedLine(host));
        }
    }
}

/// How many connections there may be, if they are fewer than were asked for.
fn say_shortage<E: Write>(shortage: Option<Shortage>, faults: &mut E) {
    if let Some(shortage) = shortage {
        let _ = writeln!(faults, "{}", ShortageLine(shortage));
    }
}

/// Says which of the kernel's tables could not be read, and what that means.
pub fn say_table_fault<E: Write>(fault: Option<TableFault>, faults: &mut E) {
    if let Some(TableFault { path, error }) = fault {
        let _ = writeln!(
            faults,
            "rpcbind: read {path}: {error}; meanwhile programs can't register over TCP"
        );
    }
}

/// Says that the local socket is root's no longer, if that was found.
pub fn say_local_change<E: Write>(settings: &Settings<'_>, is_changed: bool, faults: &mut E) {
    if let (Some(local), true) = (settings.local, is_changed) {
        let path = local.path;
        let _ = writeln!(
            faults,
            "rpcbind: {path} was replaced, removed or opened to others: its callers are unknown until a restart"
        );
    }
}

/// Says why the abstract name was not taken at the start, or that it was taken later.
pub fn say_name<E: Write>(tried: Option<io::Result<()>>, faults: &mut E) {
    match tried {
        Some(Ok(())) => {
            let _ = writeln!(faults, "rpcbind: @/run/rpcbind.sock is taken now");
        }
        Some(Err(error)) => {
            let _ = writeln!(
                faults,
                "rpcbind: take @/run/rpcbind.sock: {error}; it is tried again"
            );
        }
        None => {}
    }
}

/// Says that the start waits for an address that the machine does not have.
pub fn say_missing<E: Write>(host: Host, faults: &mut E) {
    let _ = writeln!(faults, "rpcbind: waits for the address {host}");
}

/// Says that an interface of `--bind` adds no address now.
pub fn say_silent<E: Write>(name: Option<&str>, faults: &mut E) {
    if let Some(name) = name {
        let mut warnings = Leveled::new(faults, Level::Warning);
        let _ = writeln!(
            warnings,
            "rpcbind: --bind {name} adds no address now; it is tried again"
        );
    }
}

// FOLLOW-2: A line names each address that is listened on, that has come, that has gone, and that is one too many.
/// Says what there is to be told of addresses that are followed.
pub fn say_address<E: Write>(port: u16, news: AddressNews, faults: &mut E) {
    let level = match &news {
        AddressNews::Came(_) | AddressNews::Gone(_) => Level::Notice,
        AddressNews::LeftOut(_) | AddressNews::Unread(_) | AddressNews::Failed(_) => Level::Warning,
    };
    let mut lines = Leveled::new(faults, level);
    let _ = match news {
        AddressNews::Came(host) => writeln!(lines, "rpcbind: listening on {host} port {port}"),
        AddressNews::Gone(host) => writeln!(lines, "rpcbind: {host} is gone, and left"),
        AddressNews::LeftOut(host) => writeln!(
            lines,
            "rpcbind: more than {MOST} addresses: {host} and those behind it are not listened on"
        ),
        AddressNews::Unread(TableFault { path, error }) => writeln!(
            lines,
            "rpcbind: read {path}: {error}; meanwhile addresses are not followed"
        ),
        AddressNews::Failed(fault) => writeln!(lines, "rpcbind: {fault}; it is tried again"),
    };
}

/// The port of the portmapper (RFC 1833 section 3.1).
const PORTMAPPER: u16 = 111;

/// What is said at this port of a machine that has no ::1, if it has none.
fn loopback6_text(port: u16, is_missing: bool) -> Option<&'static str>
    ensures { option_map (λ text. text.now) result ≡ loopback6_text port is_missing }
{
    if port == PORTMAPPER && is_missing {
        Some(
            "rpcbind: ::1 is no address of this machine: users but root register only if /etc/netconfig has no tcp6",
        )
    } else {
        None
    }
}

/// Says that the machine has no ::1, if programs of it register here, of which those of other users than root need it.
pub fn say_loopback6<E: Write>(settings: &Settings<'_>, is_missing: bool, faults: &mut E) {
    if let Some(text) = loopback6_text(settings.port, is_missing) {
        let _ = writeln!(faults, "{text}");
    }
}

// EXIT-1
/// Ends by a fault of the start: what it is was written, as the last line, if it can be.
pub fn explain_start<E: Write>(
    fault: &StartFault<'_>,
    settings: &Settings<'_>,
    faults: &mut E,
) -> Ending
    ensures status { result.status ≡ status_of (end_at_start fault.now) }
    ensures told { TellsStart
        settings.now E.contents faults.old faults.new result.is_told fault.now }
{
    Ending {
        status: end_at_start(fault).status(),
        is_told: tell_start(fault, settings, faults),
    }
}

// EXIT-1
/// Ends after these turns: what went wrong with the last one was written, if anything did, and can be.
pub fn conclude<E: Write>(
    turns: &Result<(), DaemonFault>,
    settings: &Settings<'_>,
    faults: &mut E,
) -> Ending
    ensures status { result.status ≡ status_of (end_after turns.now) }
    ensures told { TellsTurns
        settings.now E.contents faults.old faults.new result.is_told turns.now }
{
    Ending {
        status: end_after(turns).status(),
        is_told: tell_turns(turns, settings, faults),
    }
}

/// Writes what is wrong with a start. Whether all of it was written.
fn tell_start<E: Write>(fault: &StartFault<'_>, settings: &Settings<'_>, faults: &mut E) -> bool
    ensures { TellsStart settings.now E.contents faults.old faults.new result fault.now }
{
    match fault {
        StartFault::NoMemory => explain(Fault::NoMemory, faults).is_told,
        StartFault::Locked(path) => {
            tell_then(Fault::ReadFailed, Front::At(path), &ANOTHER_DAEMON, faults)
        }
        StartFault::Unread(path, why) => {
            tell_then(Fault::ReadFailed, Front::At(path), why, faults)
        }
        StartFault::Handed(why) => write_behind(Front::Own, why, faults).is_ok(),
        StartFault::Daemon(fault) => tell_fault(fault, settings, faults),
        StartFault::Unmade(path, error) => {
            tell_then(Fault::WriteFailed, Front::Make(path), error, faults)
        }
        StartFault::Unsaid => explain(Fault::WriteFailed, faults).is_told,
    }
}

/// Writes what is wrong with the last of these turns, if anything is. Whether all of it was written.
fn tell_turns<E: Write>(
    turns: &Result<(), DaemonFault>,
    settings: &Settings<'_>,
    faults: &mut E,
) -> bool
    ensures { TellsTurns settings.now E.contents faults.old faults.new result turns.now }
{
    match turns {
        Ok(()) => true,
        Err(fault) => tell_fault(fault, settings, faults),
    }
}

/// Writes what is wrong with the daemon. Of a socket, the step that failed comes last. Whether all of it was written.
fn tell_fault<E: Write>(fault: &DaemonFault, settings: &Settings<'_>, faults: &mut E) -> bool
    ensures { TellsFault settings.now E.contents faults.old faults.new result fault.now }
{
    match fault {
        DaemonFault::Memory(_) => explain(Fault::NoMemory, faults).is_told,
        DaemonFault::Limits => {
            let limits = &settings.limits;
            explain_run(Fault::BadLimits, limits, &settings.listener(), faults).is_told
        }
        DaemonFault::Socket(failed) => tell_then(
            Fault::SocketFailed,
            Front::OfStep(failed.step, settings.local),
            &failed.error,
            faults,
        ),
    }
}

/// Writes the line of a fault, and another of a front and a word for what is wrong. Whether all of it was written.
fn tell_then<D: Display, E: Write>(fault: Fault, front: Front<'_>, word: &D, faults: &mut E) -> bool
    ensures { TellsThen E.contents faults.old result fault (front_text front.entry) }
{
    let ending = explain(fault, faults);
    let is_written = write_behind(front, word, faults).is_ok();
    ending.is_told && is_written
}

/// What stands before a word for what is wrong, which may be the system's.
#[derive(Clone, Copy)]
pub enum Front<'a> {
    /// The program's name alone.
    Own,
    /// What is wrong at this path.
    At(&'a str),
    /// The file at this path can't be read.
    Read(&'a str),
    /// The file at this path can't be made.
    Make(&'a str),
    /// A step failed, with its address, or the path of the local socket.
    OfStep(Step, Option<LocalSocket<'a>>),
}

impl Display for Front<'_> {
    ghost use Rattle.std.specs.Prelude.{Some};
    ghost use Rattle.rb_startup.specs.Fronts.{front_text};

    ghost output = { λ front. Some (front_text front) };

    fn fmt<W: fmt::Write>(&self, f: &mut Formatter<W>) -> fmt::Result {
        match *self {
            Front::Own => write!(f, "rpcbind: "),
            Front::At(path) => write!(f, "rpcbind: {path}: "),
            Front::Read(path) => write!(f, "rpcbind: read {path}: "),
            Front::Make(path) => write!(f, "rpcbind: make {path}: "),
            Front::OfStep(Step::BindLocal, Some(local)) => {
                let path = local.path;
                write!(f, "rpcbind: bind {path}: ")
            }
            Front::OfStep(step, _) => write!(f, "rpcbind: {step}: "),
        }
    }
}

/// Writes a line of a front and a word.
pub fn write_behind<D: Display, E: Write>(
    front: Front<'_>,
    word: &D,
    faults: &mut E,
) -> io::Result<()>
    ensures { OnOk result (HasWritten E.contents faults.old (front_text front.entry)) }
{
    write_front(front, faults)?;
    writeln!(faults, "{word}")
}

fn write_front<E: Write>(front: Front<'_>, faults: &mut E) -> io::Result<()>
    ensures { OnOk result
        (Appends (E.contents faults.old) (E.contents faults.new) (front_text front.entry)) }
{
    write!(faults, "{front}")
}
