//! Users by their names in `--reserve` of `serve`: /etc/passwd has their uids (passwd(5)).
ghost use Rattle.std.specs.Prelude.{◌≡◌, IfErr};
ghost use Rattle.rb_startup.specs.Foreign.{uid_behind, uid_in};
ghost use Rattle.rb_startup.specs.Words.{IsOfUsers};

use crate::files::text_of;
use crate::words::WordsFault;
use rb_address::{cut, plain_number};
use std::alloc::Global;
use std::fs::Files;
use std::io::ErrorKind;

const PASSWD: &str = "/etc/passwd";

const OPTION: &str = "--reserve";

/// The same with a value behind it.
const WITH_VALUE: &str = "--reserve=";

/// The uid in a line, behind the name and a password.
fn uid_behind(rest: &[u8]) -> Option<u32>
    ensures { result ≡ uid_behind rest.now }
{
    let (_, rest) = cut(rest, b':')?;
    let (uid, _) = cut(rest, b':')?;
    let uid = plain_number(uid, 1 << 32)?;
    Some(uid as u32)
}

/// The uid of the user of this name, if the line is that user's.
fn uid_in(line: &[u8], name: &[u8]) -> Option<u32>
    ensures { result ≡ uid_in name.now line.now }
{
    let (own, rest) = cut(line, b':')?;
    if own == name { uid_behind(rest) } else { None }
}

/// The uid of the user of this name: that of the first such line.
fn uid_of(passwd: &[u8], name: &[u8]) -> Option<u32> {
    for line in passwd.split(|byte| *byte == b'\n') {
        let uid = uid_in(line, name);
        if uid.is_some() {
            return uid;
        }
    }
    None
}

/// What stands before the user in a value of the option or in the whole word, and the user, if it is named by something else
/// than a number.
fn user_named(word: &str) -> Option<(&str, &str)> {
    let (programs, name) = word.rsplit_once('=')?;
    let first = name.as_bytes().first()?;
    if first.is_ascii_digit() {
        None
    } else {
        Some((programs, name))
    }
}

/// The value with the uid in the name's place.
fn with_uid<R: Files>(
    rt: &R,
    alloc: Global,
    programs: &str,
    name: &str,
) -> Result<String, WordsFault>
    ensures { IfErr result IsOfUsers }
{
    let passwd = match text_of(rt, alloc, PASSWD) {
        Ok(passwd) => passwd,
        Err(error) if error.kind() == ErrorKind::OutOfMemory => return Err(WordsFault::NoMemory),
        Err(error) => return Err(WordsFault::NoUsers(error)),
    };
    match uid_of(&passwd, name.as_bytes()) {
        Some(uid) => Ok(format!(in alloc; "{programs}={uid}")?),
        None => Err(WordsFault::NoUser(String::from_str(alloc, name)?)),
    }
}

/// Puts uids in the places of users' names in the values of `--reserve`, if the words are those of `serve`. An error if there
/// is no user of a name, or the names can't be read, or an allocation is refused.
pub fn name_users<R: Files + AllocGlobal>(rt: &R, words: &mut [String]) -> Result<(), WordsFault>
    ensures { IfErr result IsOfUsers }
{
    let mut is_value = false;
    for (place, word) in words.iter_mut().enumerate() {
        if place == 1 && word.as_str() != "serve" {
            return Ok(());
        }
        if is_value || word.starts_with(WITH_VALUE) {
            name_user(rt, word)?;
        }
        is_value = word.as_str() == OPTION;
    }
    Ok(())
}

/// Puts the uid in the place of a user's name in one value, or in a word that ends with it.
fn name_user<R: Files + AllocGlobal>(rt: &R, value: &mut String) -> Result<(), WordsFault>
    ensures { IfErr result IsOfUsers }
{
    let Some((programs, name)) = user_named(value.as_str()) else {
        return Ok(());
    };
    *value = with_uid(rt, rt.alloc(), programs, name)?;
    Ok(())
}
