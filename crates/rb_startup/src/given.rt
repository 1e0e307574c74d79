//! The words of the command line, as this machine changes them.
use crate::foreign::translate_words;
use crate::interfaces::{Binds, take_interfaces};
use crate::users::name_users;
use crate::words::WordsFault;
use rb_commands::command_words;
use std::env::Env;
use std::fs::Files;
use std::io::Write;

/// The words of the command line, with those of ours in the place of Debian's, and uids in that of users' names; without
/// interfaces of `--bind`, which come with them.
pub fn given_words<R, E>(rt: &R, faults: &mut E) -> Result<(Vec<String>, Binds), WordsFault>
where
    R: Files + Env + AllocGlobal,
    E: Write,
{
    let words = command_words(rt).map_err(WordsFault::NotHad)?;
    let mut words = translate_words(rt, words, faults)?;
    name_users(rt, &mut words)?;
    Ok(take_interfaces(rt.alloc(), words)?)
}
