//! The words of the command line: two commands and their options.
ghost use Rattle.std.specs.Prelude.{◌≡◌, IfOk, IfErr};
ghost use Rattle.clap.specs.Words.{kind_of};
ghost use Rattle.rb_commands.specs.Asked.{BeginsWell, AsksWell};
ghost use Rattle.rb_commands.specs.Faults.{EndsWith, EndsUnrun};
ghost use Rattle.rb_commands.specs.Wanted.{is_the_record};

use crate::command::command;
use crate::options::{ReplayTexts, Valued, read_beginning};
use crate::serving::{Serve, ServeTexts, read_serve};
use crate::wanted::{BadValue, texts_of};
use clap::error::ErrorKind;
use clap::{ArgMatches, Error};
use rb_lines::{Beginning, DONE, Ending, Fault, explain};
use rb_settings::open_files;
use std::alloc::Global;
use std::convert::AsStr;
use std::io::Write;

/// The status of words that can't be read.
const UNREADABLE: u8 = 2;

/// What a command line asks for.
#[derive(Drop)]
pub enum Words<'a> {
    /// The daemon.
    Serve(Serve<'a>),
    /// A replay whose outputs are printed.
    Replay(Beginning),
    /// A replay whose outputs are compared with those of its input.
    Check(Beginning),
}

// WORD-3: Words that name no command, or an option that can't be read, end the program with status
// 2, and nothing is run.
/// What the words ask for, the program's own name first. If nothing needs to be run, what there is to say was
/// written, and how it ended is the error: with status 0 if help or the version went to `output`; with 2 if the words
/// can't be read, and `faults` got the reason; with 1 if memory or `output` failed.
pub fn read_words<'a, S: AsStr, O: Write, E: Write>(
    alloc: Global,
    words: &'a [S],
    output: &mut O,
    faults: &mut E,
) -> Result<Words<'a>, Ending>
    ensures asks { IfOk result AsksWell }
    ensures unrun { IfErr result
        (EndsUnrun E.contents faults.old faults.new output.old output.new) }
{
    let command = match command(alloc) {
        Ok(command) => command,
        Err(_) => return Err(explain(Fault::NoMemory, faults)),
    };
    match command.try_get_matches_from(words) {
        Ok(matches) => read_matches(&matches, faults),
        Err(error) => Err(show(&error, output, faults)),
    }
}

/// Writes help, or what is wrong with the words, and says how it ends by that.
fn show<O: Write, E: Write>(error: &Error, output: &mut O, faults: &mut E) -> Ending
    ensures { EndsWith
        E.contents faults.old faults.new output.old output.new (kind_of error.now) result }
{
    match error.kind() {
        ErrorKind::OutOfMemory => explain(Fault::NoMemory, faults),
        ErrorKind::DisplayHelp | ErrorKind::DisplayVersion => {
            if write!(output, "{error}").is_err() || output.flush().is_err() {
                explain(Fault::WriteFailed, faults)
            } else {
                DONE
            }
        }
        _ => Ending {
            status: UNREADABLE,
            is_told: write!(faults, "{error}").is_ok(),
        },
    }
}

fn read_matches<'a, E: Write>(matches: &ArgMatches<'a>, faults: &mut E) -> Result<Words<'a>, Ending>
    ensures asks { IfOk result AsksWell }
    ensures unread { IfErr result (λ ending. ending.status ≡ 2) }
{
    match words_of(matches) {
        Ok(words) => Ok(words),
        Err(bad) => Err(Ending {
            status: UNREADABLE,
            is_told: writeln!(faults, "{bad}").is_ok(),
        }),
    }
}

/// What the matches ask for. `command` takes no words without one of its two commands, so the last case never comes.
fn words_of<'a>(matches: &ArgMatches<'a>) -> Result<Words<'a>, BadValue<'a>>
    ensures { IfOk result AsksWell }
{
    if let Some(serve) = matches.subcommand_matches("serve") {
        return match serve_of(serve) {
            Ok(serve) => Ok(Words::Serve(serve)),
            Err(bad) => Err(bad),
        };
    }
    if let Some(replay) = matches.subcommand_matches("replay") {
        return replay_of(replay);
    }
    Err(BadValue {
        option: "help",
        value: "",
        wanted: "a command",
    })
}

/// What `replay` is asked for.
fn replay_of<'a>(matches: &ArgMatches<'a>) -> Result<Words<'a>, BadValue<'a>>
    ensures { IfOk result AsksWell }
{
    let is_checked = matches.get_flag("check");
    match beginning_of(matches) {
        Ok(beginning) if is_checked => Ok(Words::Check(beginning)),
        Ok(beginning) => Ok(Words::Replay(beginning)),
        Err(bad) => Err(bad),
    }
}

/// What `serve` is asked for.
#[tactic(auto, using(crate::proofs::Asked::serve_begins_well))]
fn serve_of<'a>(matches: &ArgMatches<'a>) -> Result<Serve<'a>, BadValue<'a>>
    ensures { IfOk result BeginsWell }
{
    let texts = ServeTexts {
        announce: matches.get_strs("announce").unwrap_or(&[]),
        bind: matches.get_strs("bind").unwrap_or(&[]),
        from: matches.get_strs("from").unwrap_or(&[]),
        loopback6: matches.get_flag("loopback6"),
        local: matches.get_str("local"),
        local_mode: text_of(matches, "local-mode"),
        believe_claims: matches.get_flag("believe-claims"),
        port: text_of(matches, "port"),
        conns: text_of(matches, "conns"),
        rows: text_of(matches, "rows"),
        forwards: text_of(matches, "forwards"),
        udp_lists: text_of(matches, "udp-lists"),
        forward_for: text_of(matches, "forward-for"),
        reserve: matches.get_strs("reserve").unwrap_or(&[]),
        udp_rate: matches.get_str("udp-rate"),
        record_path: matches.get_str("record"),
        record_limit: text_of(matches, "record-limit"),
        keep: matches.get_str("keep"),
        keep_check: matches.get_flag("keep-check"),
        log: matches.get_str("log"),
        turns: text_of(matches, "turns"),
    };
    match read_serve(&texts, open_files()) {
        Ok(serve) => unless_kept_in_the_record(serve),
        Err(bad) => Err(bad_value(bad, matches)),
    }
}

/// What is asked for, unless the rows must be kept in the file of the record: a start would remove them.
fn unless_kept_in_the_record<'a>(serve: Serve<'a>) -> Result<Serve<'a>, BadValue<'a>>
    ensures { IfOk result (λ asked. asked ≡ serve.entry) }
{
    match serve.settings.keep {
        Some(path) if is_the_record(path, serve.record_path) => Err(BadValue {
            option: "keep",
            value: path,
            wanted: "another file than that of --record",
        }),
        _ => Ok(serve),
    }
}

/// Whether this path, at which rows are kept, is that of the record. Another path of one file is not noticed.
fn is_the_record(keep: &str, record_path: Option<&str>) -> bool
    ensures { result ≡ is_the_record keep.now record_path.entry }
{
    match record_path {
        Some(path) => keep == path,
        None => false,
    }
}

/// What a replay begins with.
fn beginning_of<'a>(matches: &ArgMatches<'a>) -> Result<Beginning, BadValue<'a>> {
    let texts = ReplayTexts {
        announce: matches.get_strs("announce").unwrap_or(&[]),
        local: matches.get_str("local"),
        conns: text_of(matches, "conns"),
        rows: text_of(matches, "rows"),
        forwards: text_of(matches, "forwards"),
        port: text_of(matches, "port"),
        xid: text_of(matches, "xid"),
        moment: text_of(matches, "now"),
        udp_lists: text_of(matches, "udp-lists"),
        forward_for: text_of(matches, "forward-for"),
        reserve: matches.get_strs("reserve").unwrap_or(&[]),
        steps: matches.get_flag("steps"),
    };
    match read_beginning(&texts) {
        Ok(beginning) => Ok(beginning),
        Err(bad) => Err(bad_value(bad, matches)),
    }
}

/// What is wrong with the value of an option.
fn bad_value<'a>(bad: Valued, matches: &ArgMatches<'a>) -> BadValue<'a> {
    let texts = texts_of(bad);
    let value = match bad {
        Valued::Announce(place)
        | Valued::Bind(place)
        | Valued::From(place)
        | Valued::Reserve(place) => value_at(matches, texts.name, place),
        _ => text_of(matches, texts.name),
    };
    BadValue {
        option: texts.name,
        value,
        wanted: texts.wanted,
    }
}

/// The value of an option at a place, of those that it is given.
fn value_at<'a>(matches: &ArgMatches<'a>, option: &str, place: usize) -> &'a str {
    let values = matches.get_strs(option).unwrap_or(&[]);
    values.get(place).copied().unwrap_or("")
}

/// The text of an option's value. One without a value has the empty text, which no reader of a value takes.
fn text_of<'a>(matches: &ArgMatches<'a>, option: &str) -> &'a str {
    matches.get_str(option).unwrap_or("")
}
