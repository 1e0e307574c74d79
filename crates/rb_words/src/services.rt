//! Names of programs, as rpc(5) writes them: a line has a name, a number and further names, with white space between
//! them, and a comment after `#`.
ghost use Rattle.std.specs.Prelude.{◌≡◌, [], ◌∷◌, List, option_map, IfOk, OnOk};
ghost use Rattle.std.specs.List.{slice_split, before_first};
ghost use Rattle.std.specs.Char.{is_ascii_whitespace};
ghost use Rattle.rb_words.specs.Numbers.{number_in};
ghost use Rattle.rb_words.specs.Services.{named_numbers, borrowed_texts, AddsNames, is_newline, is_hash, words_of, pairs_of_lent, services_of_lent, services_in_line, services_in, number_of, name_of};

use crate::number::number_in;
use std::alloc::{AllocError, Global};
use std::str;

/// The length in bytes of the longest text that has names.
pub const LONGEST_SERVICES: usize = 65_536;

/// The length in bytes of the longest line that has names.
const LONGEST_LINE: usize = 1_024;

/// A name of a program, with the program's number.
#[derive(Drop)]
pub struct Service {
    /// The name, of any bytes but white space and `#`.
    pub name: Vec<u8>,
    /// The number of the program.
    pub number: u32,
}

/// The lines of a text.
fn lines_of<'a>(alloc: Global, text: &'a [u8]) -> Result<Vec<&'a [u8]>, AllocError>
    ensures { IfOk result
        (λ lines. borrowed_texts lines.items ≡ slice_split is_newline text.now) }
{
    text.split(|byte| *byte == b'\n').collect(alloc)
}

/// A line up to its comment.
fn without_comment(line: &[u8]) -> &[u8]
    ensures { result.now ≡ before_first is_hash line.now }
{
    match line.iter().position(|byte| *byte == b'#') {
        Some(at) => &line[..at],
        None => line,
    }
}

/// What stands between white space.
fn words_of<'a>(alloc: Global, line: &'a [u8]) -> Result<Vec<&'a [u8]>, AllocError>
    ensures { IfOk result
        (λ words. borrowed_texts words.items ≡ words_of line.now) }
{
    line.split(|byte| byte.is_ascii_whitespace())
        .filter(|word| !word.is_empty())
        .collect(alloc)
}

/// The number of a program that a word is.
fn number_in_word(word: &[u8]) -> Option<u32>
    ensures { result ≡ number_in 0 4294967295 word.now }
{
    match str::from_utf8(word) {
        Ok(text) => number_in(text, 0, u32::MAX),
        Err(_) => None,
    }
}

/// Adds a name of a program.
fn push_name(
    alloc: Global,
    name: &[u8],
    number: u32,
    services: &mut Vec<Service>,
) -> Result<(), AllocError>
    ensures { OnOk result
        (AddsNames services.old services.new ((name.now, number) ∷ [])) }
{
    let mut own = Vec::new(alloc);
    own.extend_from_slice(name)?;
    services.push(Service { name: own, number })?;
    Ok(())
}

/// Adds names of one program.
fn push_names(
    alloc: Global,
    names: &[&[u8]],
    number: u32,
    services: &mut Vec<Service>,
) -> Result<(), AllocError>
    ensures { OnOk result (AddsNames services.old services.new (pairs_of_lent names.now number)) }
{
    for name in names {
        push_name(alloc, name, number, services)?;
    }
    Ok(())
}

/// Adds the names that the words of a line give.
fn push_words(alloc: Global, words: &[&[u8]], services: &mut Vec<Service>) -> Result<(), AllocError>
    ensures { OnOk result (AddsNames services.old services.new (services_of_lent words.now)) }
{
    let [name, number, aliases @ ..] = words else {
        return Ok(());
    };
    let Some(number) = number_in_word(number) else {
        return Ok(());
    };
    push_name(alloc, name, number, services)?;
    push_names(alloc, aliases, number, services)
}

/// Adds the names of a line.
fn push_line(alloc: Global, line: &[u8], services: &mut Vec<Service>) -> Result<(), AllocError>
    ensures { OnOk result
        (AddsNames services.old services.new (services_in_line line.now)) }
{
    if line.len() > LONGEST_LINE {
        return Ok(());
    }
    let words = words_of(alloc, without_comment(line))?;
    push_words(alloc, &words, services)
}

/// Reads the names of programs in a text, in their order. A line of more than 1,024 bytes has none, a line whose second
/// word is no number of 32 bits has none, and a text of more than 65,536 bytes has none. `AllocError` if an
/// allocation is refused.
pub fn read_services(alloc: Global, text: &[u8]) -> Result<Vec<Service>, AllocError>
    ensures { IfOk result (λ services. named_numbers services.items ≡ services_in text.now) }
{
    let mut services = Vec::new(alloc);
    if text.len() > LONGEST_SERVICES {
        return Ok(services);
    }
    let lines = lines_of(alloc, text)?;
    for line in &lines {
        push_line(alloc, line, &mut services)?;
    }
    Ok(services)
}

/// Returns the number of the program of this name, and of several lines with the name that of the first; `None` if
/// no line has it.
pub fn number_of(services: &[Service], name: &[u8]) -> Option<u32>
    ensures { result ≡ number_of services.now name.now }
{
    match services
        .iter()
        .find(|service| service.name.as_slice() == name)
    {
        Some(service) => Some(service.number),
        None => None,
    }
}

/// Returns the first name of the program of this number; `None` if it has no name.
pub fn name_of<'a>(services: &'a [Service], number: u32) -> Option<&'a [u8]>
    ensures { option_map (λ name. name.now) result ≡ name_of services.now number }
{
    match services.iter().find(|service| service.number == number) {
        Some(service) => Some(service.name.as_slice()),
        None => None,
    }
}
