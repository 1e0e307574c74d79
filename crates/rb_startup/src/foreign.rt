//! Settings that were made for another rpcbind: options of Debian's, and the files of tcpd.
ghost use Rattle.std.specs.Prelude.{◌≡◌, IfErr};
ghost use Rattle.rb_startup.specs.Foreign.{is_service, is_between};
ghost use Rattle.rb_startup.specs.Words.{IsOfOptions};

use crate::files::text_of;
use crate::leveled::{Level, Leveled};
use crate::words::WordsFault;
use rb_address::cut;
use rb_commands::{Machine, Translation, translate};
use std::alloc::{AllocError, Global};
use std::env::{self, Env};
use std::fs::Files;
use std::io::Write;

/// The option of `serve` with options of Debian's rpcbind.
const OPTIONS: &str = "--options";

/// The addresses of IPv6 (proc(5)).
const IF_INET6: &str = "/proc/net/if_inet6";

/// ::1 in a line of that.
const LOOPBACK6: &[u8] = b"00000000000000000000000000000001 ";

/// The files of tcpd's access control (hosts_access(5)).
const HOSTS: [&str; 2] = ["/etc/hosts.allow", "/etc/hosts.deny"];

/// Whether this machine has ::1.
fn has_loopback6<R: Files>(rt: &R, alloc: Global) -> bool {
    match text_of(rt, alloc, IF_INET6) {
        Ok(text) => text
            .split(|byte| *byte == b'\n')
            .any(|line| line.starts_with(LOOPBACK6)),
        Err(_) => false,
    }
}

fn machine_of<R: Files + Env + AllocGlobal>(rt: &R) -> Machine {
    Machine {
        has_loopback6: has_loopback6(rt, rt.alloc()),
        has_sockets: env::var(rt, "LISTEN_FDS").is_ok(),
    }
}

/// Words as one text, with a space before each.
fn joined(alloc: Global, words: &[String]) -> Result<String, AllocError> {
    let mut text = String::new(alloc);
    for word in words {
        text.push_str(" ")?;
        text.push_str(word.as_str())?;
    }
    Ok(text)
}

/// Whether a word is an option of one dash, and not that for the version.
fn is_dashed(word: &str) -> bool {
    word.starts_with('-') && !word.starts_with("--") && word != "-V"
}

/// Whether the program's words are options of Debian's rpcbind: the first is one of one dash, and not alone if it is `-h`,
/// which is for help then.
fn are_options(words: &[String]) -> bool {
    match words {
        [_, word] => is_dashed(word.as_str()) && word.as_str() != "-h",
        [_, word, ..] => is_dashed(word.as_str()),
        _ => false,
    }
}

/// Whether the program's words are those of `serve`.
fn are_of_serve(words: &[String]) -> bool {
    match words.get(1) {
        Some(word) => word.as_str() == "serve",
        None => false,
    }
}

/// Puts words of `serve` in the place of options of Debian's rpcbind: of all words, if they are such options, and of the text
/// of `--options` of `serve`. What is taken is said, and in the text also what is not. An error if an option without its like
/// is no part of a text, if `-h HOST` is, or if an allocation is refused.
pub fn translate_words<R, E>(
    rt: &R,
    words: Vec<String>,
    faults: &mut E,
) -> Result<Vec<String>, WordsFault>
where
    R: Files + Env + AllocGlobal,
    E: Write,
    ensures { IfErr result IsOfOptions }
{
    if are_options(&words) {
        return translate_all(rt, &words, faults);
    }
    if are_of_serve(&words) {
        return translate_serve(rt, &words, faults);
    }
    Ok(words)
}

/// Words of which each is one of Debian's options, or belongs to one.
fn translate_all<R, E>(rt: &R, words: &[String], faults: &mut E) -> Result<Vec<String>, WordsFault>
where
    R: Files + Env + AllocGlobal,
    E: Write,
    ensures { IfErr result IsOfOptions }
{
    let (ours, left) = ours_for(rt.alloc(), machine_of(rt), words)?;
    if !left.is_empty() {
        return Err(WordsFault::NotTaken(left));
    }
    say_ours(rt.alloc(), &ours, faults)?;
    Ok(ours)
}

/// Our words for those of Debian's rpcbind, and what is said of those that have no like.
fn ours_for(
    alloc: Global,
    machine: Machine,
    words: &[String],
) -> Result<(Vec<String>, String), AllocError> {
    let mut options = Vec::new(alloc);
    for word in words.iter().skip(1) {
        options.push(word.as_str())?;
    }
    let Translation { taken, left, .. } = translate(alloc, &[], machine, &options)?;
    let mut ours = Vec::new(alloc);
    if let Some(name) = words.first() {
        push_word(alloc, &mut ours, name.as_str())?;
    }
    push_word(alloc, &mut ours, "serve")?;
    for word in taken {
        ours.push(word)?;
    }
    Ok((ours, left))
}

fn say_ours<E: Write>(alloc: Global, ours: &[String], faults: &mut E) -> Result<(), AllocError> {
    let text = joined(alloc, ours.get(1..).unwrap_or(&[]))?;
    let mut notices = Leveled::new(faults, Level::Notice);
    let _ = writeln!(notices, "rpcbind: taken as:{text}");
    Ok(())
}

/// Words of `serve`.
fn translate_serve<R, E>(
    rt: &R,
    words: &[String],
    faults: &mut E,
) -> Result<Vec<String>, WordsFault>
where
    R: Files + Env + AllocGlobal,
    E: Write,
    ensures { IfErr result IsOfOptions }
{
    if has_host_for_help(words) {
        return Err(WordsFault::HostForHelp);
    }
    let (mut rest, text) = without_options(rt.alloc(), words)?;
    if !text.is_empty() {
        add_text(rt.alloc(), machine_of(rt), &mut rest, text.as_str(), faults)?;
    }
    Ok(rest)
}

/// Whether words have `-h`, which is for help, with a word behind it.
fn has_host_for_help(words: &[String]) -> bool {
    let mut is_help = false;
    for word in words {
        if is_help {
            return true;
        }
        is_help = word.as_str() == "-h";
    }
    false
}

/// The words without `--options`, and the texts that these have, each after a space. An `--options` that is the last word
/// stays, since its text is missing.
fn without_options(alloc: Global, words: &[String]) -> Result<(Vec<String>, String), AllocError> {
    let mut rest = Vec::new(alloc);
    let mut text = String::new(alloc);
    let mut is_text = false;
    for word in words {
        let word = word.as_str();
        if is_text {
            push_text(&mut text, word)?;
            is_text = false;
        } else if word == OPTIONS {
            is_text = true;
        } else {
            sort_word(alloc, &mut rest, &mut text, word)?;
        }
    }
    if is_text {
        push_word(alloc, &mut rest, OPTIONS)?;
    }
    Ok((rest, text))
}

fn push_word(alloc: Global, words: &mut Vec<String>, word: &str) -> Result<(), AllocError> {
    let word = String::from_str(alloc, word)?;
    words.push(word)?;
    Ok(())
}

fn push_text(text: &mut String, more: &str) -> Result<(), AllocError> {
    text.push_str(" ")?;
    text.push_str(more)
}

/// Adds the text in a word `--options=TEXT` to the text, and any other word to the rest.
fn sort_word(
    alloc: Global,
    rest: &mut Vec<String>,
    text: &mut String,
    word: &str,
) -> Result<(), AllocError> {
    match word.strip_prefix("--options=") {
        Some(value) => push_text(text, value),
        None => push_word(alloc, rest, word),
    }
}

// DEBIAN-4: What is taken in the place of options is said in a line, as words of `serve`.
/// Adds words for the options in a text, and says what is taken of them and what isn't.
fn add_text<E: Write>(
    alloc: Global,
    machine: Machine,
    words: &mut Vec<String>,
    text: &str,
    faults: &mut E,
) -> Result<(), AllocError> {
    let options: Vec<&str> = text.split_ascii_whitespace().collect(alloc)?;
    let Translation { taken, left, .. } = translate(alloc, words.as_slice(), machine, &options)?;
    if !taken.is_empty() {
        let text = joined(alloc, &taken)?;
        let mut notices = Leveled::new(&mut *faults, Level::Notice);
        let _ = writeln!(notices, "rpcbind: {OPTIONS}: taken as:{text}");
    }
    if !left.is_empty() {
        let mut warnings = Leveled::new(faults, Level::Warning);
        let _ = writeln!(warnings, "rpcbind: {OPTIONS}: not taken: {left}");
    }
    for word in taken {
        words.push(word)?;
    }
    Ok(())
}

/// Whether a name in a line of these files is that of the service, at one host or at each.
fn is_service(name: &[u8]) -> bool
    ensures { result ≡ is_service name.now }
{
    let name = match cut(name, b'@') {
        Some((name, _)) => name,
        None => name,
    };
    name == b"rpcbind".as_slice() || name == b"portmap".as_slice() || name == b"ALL".as_slice()
}

fn is_between(byte: u8) -> bool
    ensures { result ≡ is_between byte }
{
    byte == b' ' || byte == b'\t' || byte == b','
}

/// Whether a line of these files is for the service: it is no comment, and one of the names before its first colon is.
fn is_for_service(line: &[u8]) -> bool {
    let Some((names, _)) = cut(line, b':') else {
        return false;
    };
    !names.starts_with(b"#")
        && names
            .split(|byte| is_between(*byte))
            .any(|name| is_service(name))
}

/// Whether there is a line for the service in a file; none in one that can't be read.
fn is_named_in<R: Files>(rt: &R, alloc: Global, path: &str) -> bool {
    match text_of(rt, alloc, path) {
        Ok(text) => text
            .split(|byte| *byte == b'\n')
            .any(|line| is_for_service(line)),
        Err(_) => false,
    }
}

// HOSTS-1: At the start of `serve` a line names those of /etc/hosts.allow and /etc/hosts.deny that have a line for rpcbind,
// portmap or ALL, which is not heeded.
/// Says which of the files of tcpd are not heeded.
pub fn say_hosts<R: Files + AllocGlobal, E: Write>(rt: &R, faults: &mut E) {
    let mut warnings = Leveled::new(faults, Level::Warning);
    for path in HOSTS {
        if is_named_in(rt, rt.alloc(), path) {
            let _ = writeln!(
                warnings,
                "rpcbind: {path} has a line for rpcbind, which is not heeded: --from says whom it serves"
            );
        }
    }
}
