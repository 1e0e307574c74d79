//! What the words of `rpcbind` ask for.
use crate::service::run_service;
use rb_commands::{Words, read_words};
use rb_lines::Ending;
use rb_replay::{check_lines, replay_lines};
use rb_startup::{Leveled, explain_words, given_words, say_hosts};
use rb_turns::Starts;
use std::env::Env;
use std::fs::{File, Files};
use std::io::{Read, Write};
use std::net::Net;
use std::random::RandomSource;
use std::rt::Clock;
use std::sync::Wait;

/// What the commands read and write.
pub struct Streams<I, O, E> {
    /// Standard input.
    pub input: I,
    /// Standard output.
    pub output: O,
    /// Standard error, for what is wrong with event lines.
    pub errors: E,
}

/// Does what the words of the program ask for, by moments of `clock`. What is wrong with the words or a service goes to
/// `faults`.
pub fn run<C, D, R, I, O, E>(
    rt: &R,
    clock: C,
    streams: Streams<I, O, E>,
    faults: &mut Leveled<E>,
) -> Ending
where
    C: Copy,
    D: Starts<C, R> + Drop,
    R: Net + Files<File = File> + Clock + RandomSource + Wait + AllocGlobal + Print + Env,
    I: Read + Drop,
    O: Write + Drop,
    E: Write + Drop,
{
    let Streams {
        mut input,
        mut output,
        mut errors,
    } = streams;
    let (words, binds) = match given_words(rt, faults) {
        Ok(words) => words,
        Err(fault) => return explain_words(&fault, faults),
    };
    match read_words(rt.alloc(), &words, &mut output, faults) {
        Ok(Words::Serve(serve)) => {
            say_hosts(rt, faults);
            run_service::<C, D, R, Leveled<E>>(rt, clock, serve, binds, faults)
        }
        Ok(Words::Replay(beginning)) => {
            replay_lines(rt.alloc(), &beginning, &mut input, output, &mut errors)
        }
        Ok(Words::Check(beginning)) => {
            check_lines(rt.alloc(), &beginning, &mut input, output, &mut errors)
        }
        Err(ending) => ending,
    }
}
