//! `rpcinfo` asks a portmapper and shows what it answers.
#![tactic(auto)]

ghost use Rattle.std.specs.IoError.{error_kind};
ghost use Rattle.rpcinfo.specs.Running.{EndsWithout};

mod asking;
mod broadcast;
mod command_line;
mod files;
mod hosts;
mod net;
mod networks;
mod patient;
mod programs;
mod run;

use rb_plans::{Ending, Fault, explain, refuse_text};
use rb_show::InfoFault;
use run::run_info;
use std::io::{ErrorKind, Write};
use std::process::ExitCode;
use std::{env, io};

/// The words of the command line, if each is text.
fn words_of(rt: &HostRuntime) -> io::Result<Vec<String>> {
    let words = env::args(rt)?.collect(rt.alloc())?;
    Ok(words)
}

/// Says why the words of the command line can't be had.
fn explain_words<E: Write>(error: &io::Error, faults: &mut E) -> Ending
    ensures { EndsWithout E.contents faults.old faults.new result (error_kind error.now) }
{
    match error.kind() {
        ErrorKind::OutOfMemory => explain(Fault::Info(InfoFault::Memory), faults),
        _ => refuse_text(faults),
    }
}

fn main(rt: HostRuntime) -> ExitCode {
    let words = match words_of(&rt) {
        Ok(words) => words,
        Err(error) => return ExitCode::from(explain_words(&error, &mut rt.stderr()).status),
    };
    let ending = run_info(
        rt.alloc(),
        &rt,
        &words,
        &mut rt.reader(),
        &mut io::writer(&rt),
        &mut rt.stderr(),
    );
    ExitCode::from(ending.status)
}
