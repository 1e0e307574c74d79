//! The words that the program was called with.
ghost use Rattle.std.specs.Prelude.{◌≡◌, IfErr};
ghost use Rattle.std.specs.IoError.{error_kind};
ghost use Rattle.rb_commands.specs.Faults.{words_fault, IsOfWords};

use rb_lines::Fault;
use std::env::Env;
use std::io::ErrorKind;
use std::{env, io};

fn words_of<R: Env + AllocGlobal>(rt: &R) -> io::Result<Vec<String>> {
    let words = env::args(rt)?.collect(rt.alloc())?;
    Ok(words)
}

/// The words of the command line, if each is text; else why they can't be had.
pub fn command_words<R: Env + AllocGlobal>(rt: &R) -> Result<Vec<String>, Fault>
    ensures { IfErr result IsOfWords }
{
    match words_of(rt) {
        Ok(words) => Ok(words),
        Err(error) => Err(fault_of(&error)),
    }
}

/// Why the words can't be had: memory was refused, or one of them is no text.
fn fault_of(error: &io::Error) -> Fault
    ensures fault { result ≡ words_fault (error_kind error.now) }
    ensures few { IsOfWords result }
{
    match error.kind() {
        ErrorKind::OutOfMemory => Fault::NoMemory,
        _ => Fault::NotText,
    }
}
