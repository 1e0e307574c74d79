//! The commands of the program and their options, as `--help` shows them.
use crate::options::Valued;
use crate::serving::serve_default;
use clap::{Arg, ArgAction, Command};
use std::alloc::{AllocError, Global};

const VERSION: &str = "0.3.0";

/// What the help says of `--udp-lists`.
const UDP_LISTS: &str =
    "To whom replies over UDP may have more than twice the bytes of their calls: local, to this machine alone, or all";

/// An option with a value. clap takes each value as a text; what it means is said in options.rt and serving.rt.
fn option<'a>(alloc: Global, name: &'a str, value: &'a str, help: &'a str) -> Arg<'a> {
    Arg::new(alloc, name)
        .long(name)
        .value_name(value)
        .help(help)
}

/// An option without a value.
fn flag<'a>(alloc: Global, name: &'a str, help: &'a str) -> Arg<'a> {
    Arg::new(alloc, name)
        .long(name)
        .help(help)
        .action(ArgAction::SetTrue)
}

// The functions that add an option: whoever adds several then holds no option of clap's, each of which has many parts that
// the check of borrows would follow through all that comes after it.

fn add<'a>(
    alloc: Global,
    args: &mut Vec<Arg<'a>>,
    name: &'a str,
    value: &'a str,
    help: &'a str,
) -> Result<(), AllocError> {
    args.push(option(alloc, name, value, help))?;
    Ok(())
}

fn add_with<'a>(
    alloc: Global,
    args: &mut Vec<Arg<'a>>,
    name: &'a str,
    value: &'a str,
    help: &'a str,
    default: &'a str,
) -> Result<(), AllocError> {
    args.push(option(alloc, name, value, help).default_value(default))?;
    Ok(())
}

fn add_many<'a>(
    alloc: Global,
    args: &mut Vec<Arg<'a>>,
    name: &'a str,
    value: &'a str,
    help: &'a str,
) -> Result<(), AllocError> {
    args.push(option(alloc, name, value, help).action(ArgAction::Append))?;
    Ok(())
}

fn add_flag<'a>(
    alloc: Global,
    args: &mut Vec<Arg<'a>>,
    name: &'a str,
    help: &'a str,
) -> Result<(), AllocError> {
    args.push(flag(alloc, name, help))?;
    Ok(())
}

/// A command, with what it does.
fn named<'a>(alloc: Global, name: &'a str, about: &'a str) -> Command<'a> {
    Command::new(alloc, name).version(VERSION).about(about)
}

/// The program with its commands.
pub fn command<'a>(alloc: Global) -> Result<Command<'a>, AllocError> {
    let commands = commands(alloc)?;
    let about = "Tells ONC RPC clients at which address a program listens (RFC 1833)";
    named(alloc, "rpcbind", about)
        .subcommand_required(true)
        .subcommands(commands)
}

fn commands<'a>(alloc: Global) -> Result<Vec<Command<'a>>, AllocError> {
    let mut commands = Vec::new(alloc);
    add_serve(alloc, &mut commands)?;
    add_replay(alloc, &mut commands)?;
    Ok(commands)
}

fn add_serve<'a>(alloc: Global, commands: &mut Vec<Command<'a>>) -> Result<(), AllocError> {
    let args = serve_args(alloc)?;
    let about = "Listens over TCP and UDP, and serves until it is stopped";
    add_command(alloc, commands, "serve", about, args)
}

fn add_replay<'a>(alloc: Global, commands: &mut Vec<Command<'a>>) -> Result<(), AllocError> {
    let args = replay_args(alloc)?;
    let about = "Runs event lines of standard input, without sockets, and prints what each gives";
    add_command(alloc, commands, "replay", about, args)
}

fn add_command<'a>(
    alloc: Global,
    commands: &mut Vec<Command<'a>>,
    name: &'a str,
    about: &'a str,
    args: Vec<Arg<'a>>,
) -> Result<(), AllocError> {
    let command = named(alloc, name, about).args(args)?;
    commands.push(command)?;
    Ok(())
}

/// The options of `serve`.
fn serve_args<'a>(alloc: Global) -> Result<Vec<Arg<'a>>, AllocError> {
    let mut args = Vec::new(alloc);
    fill_serve(alloc, &mut args)?;
    Ok(args)
}

fn fill_serve<'a>(alloc: Global, args: &mut Vec<Arg<'a>>) -> Result<(), AllocError> {
    add_hosts(alloc, args)?;
    add_sockets(alloc, args)?;
    add_record(alloc, args)?;
    add_keep(alloc, args)?;
    add_options(alloc, args)?;
    add_limits(
        alloc,
        args,
        serve_default(Valued::Port),
        serve_default(Valued::Conns),
        serve_default(Valued::Rows),
        serve_default(Valued::Forwards),
    )?;
    on_terms(alloc, args)?;
    add_with(
        alloc,
        args,
        "turns",
        "N",
        "End after N turns of at most 100 milliseconds; 0 never ends",
        serve_default(Valued::Turns),
    )
}

/// Where `serve` listens, whom it serves, and what its answers show.
fn add_hosts<'a>(alloc: Global, args: &mut Vec<Arg<'a>>) -> Result<(), AllocError> {
    add_bind(alloc, args)?;
    add_many(
        alloc,
        args,
        "from",
        "NETWORK",
        "Serve hosts of this network alone, as 192.0.2.0/24, beside the loopback and the local socket; may be given up to 16 times",
    )?;
    add_many(
        alloc,
        args,
        "announce",
        "HOST",
        "Address that answers show for 0.0.0.0 or :: where none was asked, once for each family [default: the first --bind]",
    )
}

fn add_bind<'a>(alloc: Global, args: &mut Vec<Arg<'a>>) -> Result<(), AllocError> {
    let bind = option(
        alloc,
        "bind",
        "HOST",
        "Address to listen on over TCP and UDP, 0.0.0.0 for all of IPv4, :: for all; or an interface, or all, for each address there; may be given up to 16 times",
    );
    args.push(
        bind.action(ArgAction::Append)
            .default_value(serve_default(Valued::Bind(0))),
    )?;
    Ok(())
}

/// On which terms `serve` serves.
fn on_terms<'a>(alloc: Global, args: &mut Vec<Arg<'a>>) -> Result<(), AllocError> {
    add_reserve(alloc, args)?;
    let whom = serve_default(Valued::UdpLists);
    add_with(alloc, args, "udp-lists", "WHOM", UDP_LISTS, whom)?;
    add_with(
        alloc,
        args,
        "forward-for",
        "WHOM",
        "For whom calls are forwarded where --forwards is above 0: local, for this machine alone, or all",
        serve_default(Valued::ForwardFor),
    )?;
    add(
        alloc,
        args,
        "udp-rate",
        "N[,M]",
        "Most datagrams a second, 1 to 1000, that are served of one network of others, IPv4 /24 or IPv6 /48, and of one host [default: any number]",
    )
}

/// What else `serve` listens on.
fn add_sockets<'a>(alloc: Global, args: &mut Vec<Arg<'a>>) -> Result<(), AllocError> {
    add(
        alloc,
        args,
        "local",
        "PATH",
        "Listen on a stream socket at PATH too",
    )?;
    add_with(
        alloc,
        args,
        "local-mode",
        "MODE",
        "Mode of the local socket's file, in octal digits; its callers are root where that lets in root alone",
        serve_default(Valued::LocalMode),
    )?;
    add_flag(
        alloc,
        args,
        "loopback6",
        "Listen on ::1 too, as with --bind ::1",
    )?;
    add_flag(
        alloc,
        args,
        "believe-claims",
        "Believe credentials of callers from the loopback, the announced addresses and the local socket",
    )
}

/// Where `serve` records its events.
fn add_record<'a>(alloc: Global, args: &mut Vec<Arg<'a>>) -> Result<(), AllocError> {
    add(
        alloc,
        args,
        "record",
        "FILE",
        "Record events and what each gives in FILE, for 'replay --check'",
    )?;
    add_with(
        alloc,
        args,
        "record-limit",
        "N",
        "Most bytes of the record, 1000 to 16777216; it takes as much memory",
        serve_default(Valued::RecordLimit),
    )
}

// KEEP-9: `--keep-check` is taken with `--keep` alone: without it status 2, and nothing is run.
/// What `serve` keeps over a restart, and what it tells while it serves.
fn add_keep<'a>(alloc: Global, args: &mut Vec<Arg<'a>>) -> Result<(), AllocError> {
    add(
        alloc,
        args,
        "keep",
        "FILE",
        "Keep the rows in FILE, and set those that are in it at the start",
    )?;
    add_keep_check(alloc, args)?;
    add(
        alloc,
        args,
        "log",
        "WHAT",
        "Tell on standard error of changes: changes, or of refused calls and closed connections too: all [default: nothing]",
    )
}

/// Options of Debian's rpcbind(8). The program puts words of `serve` in their place before these are read.
fn add_options<'a>(alloc: Global, args: &mut Vec<Arg<'a>>) -> Result<(), AllocError> {
    add(
        alloc,
        args,
        "options",
        "TEXT",
        "Options of Debian's rpcbind, as in /etc/default/rpcbind: those that have a like here are taken",
    )
}

fn add_keep_check<'a>(alloc: Global, args: &mut Vec<Arg<'a>>) -> Result<(), AllocError> {
    let help = "Leave out kept rows of this host at whose port nobody answers";
    args.push(flag(alloc, "keep-check", help).requires_arg("keep")?)?;
    Ok(())
}

/// The options of `replay`.
fn replay_args<'a>(alloc: Global) -> Result<Vec<Arg<'a>>, AllocError> {
    let mut args = Vec::new(alloc);
    fill_replay(alloc, &mut args)?;
    Ok(args)
}

fn fill_replay<'a>(alloc: Global, args: &mut Vec<Arg<'a>>) -> Result<(), AllocError> {
    add_shown(alloc, args)?;
    add_limits(alloc, args, "111", "4", "300", "4")?;
    add_check(alloc, args)?;
    add_with(
        alloc,
        args,
        "xid",
        "N",
        "Xid of the first forwarded call",
        "1000",
    )?;
    add_with(
        alloc,
        args,
        "now",
        "MS",
        "First moment, in milliseconds since the start of 1970",
        "0",
    )?;
    add_with(alloc, args, "udp-lists", "WHOM", UDP_LISTS, "all")?;
    add_with(
        alloc,
        args,
        "forward-for",
        "WHOM",
        "For whom calls are forwarded: any, to other hosts too; all; or local, for this machine alone",
        "any",
    )?;
    add_reserve(alloc, args)
}

/// Whose programs are, of both commands.
fn add_reserve<'a>(alloc: Global, args: &mut Vec<Arg<'a>>) -> Result<(), AllocError> {
    add_many(
        alloc,
        args,
        "reserve",
        "PROGRAM[-PROGRAM]=UID",
        "Rows of these programs are set by this uid, or by uid 0, alone; may be given up to 64 times",
    )
}

/// What the answers of `replay` show of this machine.
fn add_shown<'a>(alloc: Global, args: &mut Vec<Arg<'a>>) -> Result<(), AllocError> {
    let announce = option(
        alloc,
        "announce",
        "HOST",
        "Address that answers show for 0.0.0.0 or :: where none was asked; each family of which one is given is served",
    );
    args.push(
        announce
            .action(ArgAction::Append)
            .default_value("192.0.2.1"),
    )?;
    add(
        alloc,
        args,
        "local",
        "PATH",
        "Path of the local socket that answers show",
    )
}

// CHECK-5: `--check` and `--steps` are not taken together: status 2, and nothing is run.
/// Whether `replay` compares its outputs, and whether it tells its steps: one of them at most.
fn add_check<'a>(alloc: Global, args: &mut Vec<Arg<'a>>) -> Result<(), AllocError> {
    add_comparison(alloc, args)?;
    add_flag(
        alloc,
        args,
        "steps",
        "Tell in a last line how many counted steps the run took, and how many it may",
    )
}

fn add_comparison<'a>(alloc: Global, args: &mut Vec<Arg<'a>>) -> Result<(), AllocError> {
    let help =
        "Compare what each event gives with the '#> ' lines of the input, and print no outputs";
    args.push(flag(alloc, "check", help).conflicts_with("steps")?)?;
    Ok(())
}

/// The options that both commands have. The defaults are those of `--port`, `--conns`, `--rows` and `--forwards`.
fn add_limits<'a>(
    alloc: Global,
    args: &mut Vec<Arg<'a>>,
    port: &'a str,
    conns: &'a str,
    rows: &'a str,
    forwards: &'a str,
) -> Result<(), AllocError> {
    let help = "TCP and UDP port, 1 to 65535";
    add_with(alloc, args, "port", "PORT", help, port)?;
    let help = "Most TCP connections at a time, 1 to 256";
    add_with(alloc, args, "conns", "N", help, conns)?;
    let help = "Most rows, to 4096; at least two more than those of the portmapper";
    add_with(alloc, args, "rows", "N", help, rows)?;
    let help = "Most forwarded calls at a time, 0 to 64";
    add_with(alloc, args, "forwards", "N", help, forwards)
}
