//! The command line.
ghost use Rattle.std.specs.Prelude.{◌≡◌, ◌≤◌, true, IfErr, OnOk};
ghost use Rattle.rpcinfo.specs.Running.{EndsSaying, EndsUnread};

use clap::error::ErrorKind;
use clap::{Arg, ArgAction, ArgMatches, Command, Error};
use rb_plans::{Ending, Fault, Invocation, UNREADABLE, explain, read_invocation, wants_names};
use rb_show::InfoFault;
use rb_words::{Flag, Layout, Service, Shape};
use std::alloc::{AllocError, Global};
use std::convert::AsStr;
use std::io::Write;

const VERSION: &str = "0.3.0";

/// The names of programs.
const PROGRAMS: &str = "/etc/rpc";

/// Each flag of one letter with its name and its help.
const FLAGS: [(Flag, char, &str, &str); 8] = [
    (
        Flag::Table,
        'p',
        "pmap",
        "Shows the mappings of version 2 as a table",
    ),
    (
        Flag::Short,
        's',
        "short",
        "Shows programs, versions and netids",
    ),
    (
        Flag::List,
        'l',
        "list",
        "Shows the addresses of a program's version",
    ),
    (Flag::Statistics, 'm', "statistics", "Shows the statistics"),
    (
        Flag::Tcp,
        't',
        "tcp",
        "Calls procedure 0 of a program over TCP, in one version or in each",
    ),
    (
        Flag::Udp,
        'u',
        "udp",
        "Calls procedure 0 of a program over UDP, in one version or in each",
    ),
    (
        Flag::Delete,
        'd',
        "delete",
        "Removes a program's version from this machine",
    ),
    (
        Flag::Broadcast,
        'b',
        "broadcast-call",
        "Has the portmappers of a network call procedure 0 of a program",
    ),
];

/// Each layout with its name and its help.
const LAYOUTS: [(Layout, &str, &str); 2] = [
    (
        Layout::Names,
        "names",
        "writes the names of programs in lists",
    ),
    (
        Layout::Json,
        "json",
        "writes an object of JSON on each line",
    ),
];

/// An option with a value. Values are read as texts: what a number is the reader of the words says.
fn option<'a>(alloc: Global, name: &'a str, value: &'a str, help: &'a str) -> Arg<'a> {
    Arg::new(alloc, name)
        .action(ArgAction::Set)
        .value_name(value)
        .help(help)
}

/// An option without a value.
fn flag<'a>(alloc: Global, name: &'a str, help: &'a str) -> Arg<'a> {
    Arg::new(alloc, name).action(ArgAction::SetTrue).help(help)
}

// The functions that add an option: whoever adds several then holds no option of clap's, each of which has many parts that
// the check of borrows would follow through all that comes after it.

fn add<'a>(
    alloc: Global,
    args: &mut Vec<Arg<'a>>,
    name: &'a str,
    value: &'a str,
    help: &'a str,
) -> Result<(), AllocError> {
    args.push(option(alloc, name, value, help).long(name))?;
    Ok(())
}

fn add_letter<'a>(
    alloc: Global,
    args: &mut Vec<Arg<'a>>,
    letter: char,
    name: &'a str,
    value: &'a str,
    help: &'a str,
) -> Result<(), AllocError> {
    args.push(option(alloc, name, value, help).short(letter))?;
    Ok(())
}

fn add_flag<'a>(
    alloc: Global,
    args: &mut Vec<Arg<'a>>,
    name: &'a str,
    help: &'a str,
) -> Result<(), AllocError> {
    args.push(flag(alloc, name, help).long(name))?;
    Ok(())
}

fn add_letter_flag<'a>(
    alloc: Global,
    args: &mut Vec<Arg<'a>>,
    letter: char,
    name: &'a str,
    help: &'a str,
) -> Result<(), AllocError> {
    args.push(flag(alloc, name, help).short(letter))?;
    Ok(())
}

fn add_words<'a>(alloc: Global, args: &mut Vec<Arg<'a>>) -> Result<(), AllocError> {
    args.push(
        Arg::new(alloc, "words")
            .action(ArgAction::Append)
            .num_args(0..)
            .help("[host] [program] [version]; host - reads a reply from standard input"),
    )?;
    Ok(())
}

fn add_flags<'a>(alloc: Global, args: &mut Vec<Arg<'a>>) -> Result<(), AllocError> {
    for (_, letter, name, help) in FLAGS {
        add_letter_flag(alloc, args, letter, name, help)?;
    }
    add_flag(alloc, args, "summary", "Shows a line for each program")
}

/// The options that say what is called, and where.
fn add_places<'a>(alloc: Global, args: &mut Vec<Arg<'a>>) -> Result<(), AllocError> {
    let help = "where -b goes [each network of this machine]";
    add(alloc, args, "broadcast", "ADDRESS", help)?;
    let help = "tcp, udp, tcp6, udp6 or local";
    add_letter(alloc, args, 'T', "netid", "NETID", help)?;
    let help = "the address that is called, with -T";
    add_letter(alloc, args, 'a', "address", "ADDRESS", help)?;
    let help = "the port that is called, with -t and -u";
    add_letter(alloc, args, 'n', "target", "N", help)
}

/// The options that say how a list is written.
fn add_layouts<'a>(alloc: Global, args: &mut Vec<Arg<'a>>) -> Result<(), AllocError> {
    for (_, name, help) in LAYOUTS {
        add_flag(alloc, args, name, help)?;
    }
    let help = "a file of names of programs [/etc/rpc]";
    add(alloc, args, "programs", "PATH", help)
}

/// The options that say how a portmapper is asked.
fn add_portmapper<'a>(alloc: Global, args: &mut Vec<Arg<'a>>) -> Result<(), AllocError> {
    let help = "the portmapper's port, 1 to 65535 [111]";
    add(alloc, args, "port", "N", help)?;
    add(alloc, args, "uid", "N", "asks as this user")?;
    let help = "asks over this socket, without HOST";
    add(alloc, args, "local", "PATH", help)
}

fn add_all<'a>(alloc: Global, args: &mut Vec<Arg<'a>>) -> Result<(), AllocError> {
    add_flags(alloc, args)?;
    add_places(alloc, args)?;
    add_layouts(alloc, args)?;
    add_portmapper(alloc, args)?;
    add_words(alloc, args)
}

fn all_args<'a>(alloc: Global) -> Result<Vec<Arg<'a>>, AllocError> {
    let mut args = Vec::new(alloc);
    add_all(alloc, &mut args)?;
    Ok(args)
}

fn command<'a>(alloc: Global) -> Result<Command<'a>, AllocError> {
    let args = all_args(alloc)?;
    Command::new(alloc, "rpcinfo")
        .version(VERSION)
        .about("Asks a portmapper and shows what it answers")
        .args(args)
}

/// The words by their shape.
pub fn matches_of<'a, S: AsStr>(alloc: Global, words: &'a [S]) -> Result<ArgMatches<'a>, Error> {
    command(alloc)?.try_get_matches_from(words)
}

/// The path of the file of names of programs.
pub fn programs_path<'a>(matches: &ArgMatches<'a>) -> &'a str {
    matches.get_str("programs").unwrap_or(PROGRAMS)
}

/// Writes the text of help, or what is wrong with the words.
pub fn show<O: Write, E: Write>(error: &Error, output: &mut O, faults: &mut E) -> Ending
    ensures ends { EndsUnread E.contents output.old output.new faults.old faults.new result }
    ensures told { result.status ≡ 0 → result.is_told ≡ true }
{
    if error.kind() == ErrorKind::OutOfMemory {
        return explain(Fault::Info(InfoFault::Memory), faults);
    }
    if error.use_stderr() {
        let is_told = write!(faults, "{error}").is_ok();
        return Ending {
            status: UNREADABLE,
            is_told,
        };
    }
    if write!(output, "{error}").is_err() || output.flush().is_err() {
        return explain(Fault::Info(InfoFault::Write), faults);
    }
    Ending {
        status: 0,
        is_told: true,
    }
}

/// The flags that were given.
fn flags_of(alloc: Global, matches: &ArgMatches<'_>) -> Result<Vec<Flag>, AllocError> {
    let mut flags = Vec::new(alloc);
    for (flag, _, id, _) in FLAGS {
        if matches.get_flag(id) {
            flags.push(flag)?;
        }
    }
    if matches.get_flag("summary") {
        flags.push(Flag::Summary)?;
    }
    Ok(flags)
}

/// The layouts that were given.
fn layouts_of(alloc: Global, matches: &ArgMatches<'_>) -> Result<Vec<Layout>, AllocError> {
    let mut layouts = Vec::new(alloc);
    for (layout, name, _) in LAYOUTS {
        if matches.get_flag(name) {
            layouts.push(layout)?;
        }
    }
    Ok(layouts)
}

/// Whether the words want names of programs.
pub fn needs_names(alloc: Global, matches: &ArgMatches<'_>) -> Result<bool, AllocError> {
    let flags = flags_of(alloc, matches)?;
    let layouts = layouts_of(alloc, matches)?;
    let shape = Shape {
        flags: &flags,
        port: matches.get_str("port"),
        uid: matches.get_str("uid"),
        target: matches.get_str("target"),
        netid: matches.get_str("netid"),
        address: matches.get_str("address"),
        local: matches.get_str("local"),
        broadcast: matches.get_str("broadcast"),
        layouts: &layouts,
        words: matches.get_strs("words").unwrap_or(&[]),
        services: &[],
    };
    Ok(wants_names(&shape))
}

/// What the words ask for; programs may be given by these names. Faults are written, and then the `Err` says how
/// the command ended.
pub fn read_matches<'a, 'n, E: Write>(
    alloc: Global,
    matches: &ArgMatches<'a>,
    services: &'n [Service],
    faults: &mut E,
) -> Result<Invocation<'a, 'n>, Ending>
    ensures read { OnOk result (faults.new ≡ faults.old) }
    ensures refused { IfErr result (EndsSaying E.contents faults.old faults.new) }
{
    let Ok(flags) = flags_of(alloc, matches) else {
        return Err(explain(Fault::Info(InfoFault::Memory), faults));
    };
    let Ok(layouts) = layouts_of(alloc, matches) else {
        return Err(explain(Fault::Info(InfoFault::Memory), faults));
    };
    let shape = Shape {
        flags: &flags,
        port: matches.get_str("port"),
        uid: matches.get_str("uid"),
        target: matches.get_str("target"),
        netid: matches.get_str("netid"),
        address: matches.get_str("address"),
        local: matches.get_str("local"),
        broadcast: matches.get_str("broadcast"),
        layouts: &layouts,
        words: matches.get_strs("words").unwrap_or(&[]),
        services,
    };
    read_invocation(&shape, faults)
}
