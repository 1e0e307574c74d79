//! Options of Debian's rpcbind(8), and the words of `serve` that are taken in their place.
ghost use Rattle.std.specs.Prelude.{◌≡◌, option_map};
ghost use Rattle.rb_commands.specs.Debian.{taken_as, lack_text, name_in, is_option, binds};

use rb_address::cut;
use std::alloc::{AllocError, Global};

/// What is said of a word that is none of its options.
const UNKNOWN: &str = "not known here";

/// What counts of this machine for the options.
#[derive(Clone, Copy)]
pub struct Machine {
    /// Whether it has ::1.
    pub has_loopback6: bool,
    /// Whether the service manager hands over sockets, so that it says where to listen.
    pub has_sockets: bool,
}

/// What is made of options.
#[derive(Drop)]
pub struct Translation {
    /// Words of `serve`, beside those that were given.
    pub taken: Vec<String>,
    /// What is not taken, each with what is said of it; empty if all is.
    pub left: String,
    /// Whether a host of `-h` is taken.
    has_host: bool,
    /// Whether the next word is the host of `-h`.
    awaits_host: bool,
}

// DEBIAN-1
/// The options of `serve` that are taken in the place of the option of this letter; none, if there is nothing like it. The
/// host of `-h` follows.
pub fn taken_as(letter: u8) -> Option<&'static str>
    ensures { option_map (λ words. words.now) result ≡ taken_as letter }
{
    match letter {
        b'h' => Some("--bind"),
        b'w' => Some("--keep /run/rpcbind-proved/rows"),
        b'r' => Some("--forwards 16 --forward-for all"),
        b'l' | b'd' => Some("--log all"),
        b'f' => Some(""),
        _ => None,
    }
}

// DEBIAN-2
/// What is said of the option of a letter for which there is nothing.
pub fn lack_text(letter: u8) -> &'static str
    ensures { result.now ≡ lack_text letter }
{
    match letter {
        b'i' => "other hosts never register here; --believe-claims comes nearest",
        b's' => "the user is that of User= in the unit, or of the program that starts it",
        b'a' => "nothing aborts here",
        _ => UNKNOWN,
    }
}

/// What stands before `=` in a word, or all of it.
fn name_in(word: &[u8]) -> &[u8]
    ensures { result.now ≡ name_in word.now }
{
    match cut(word, b'=') {
        Some((name, _)) => name,
        None => word,
    }
}

/// Whether a word is this option, with its value after `=` or without.
fn is_option(word: &str, name: &str) -> bool
    ensures { result ≡ is_option name.now word.now }
{
    name_in(word.as_bytes()) == name.as_bytes()
}

/// Whether words have this option.
fn has_option(words: &[String], name: &str) -> bool {
    words.iter().any(|word| is_option(word.as_str(), name))
}

/// Whether a word is `--bind` with this host after `=`.
fn binds(word: &str, host: &str) -> bool
    ensures { result ≡ binds host.now word.now }
{
    match cut(word.as_bytes(), b'=') {
        Some((name, value)) => name == b"--bind".as_slice() && value == host.as_bytes(),
        None => false,
    }
}

/// Whether words have `--bind` of this host.
fn has_bind(words: &[String], host: &str) -> bool {
    let mut is_value = false;
    for word in words {
        let word = word.as_str();
        if binds(word, host) || (is_value && word == host) {
            return true;
        }
        is_value = word == "--bind";
    }
    false
}

impl Translation {
    /// Of no options.
    fn new(alloc: Global) -> Translation {
        Translation {
            taken: Vec::new(alloc),
            left: String::new(alloc),
            has_host: false,
            awaits_host: false,
        }
    }

    /// One more word.
    fn push(&mut self, alloc: Global, word: &str) -> Result<(), AllocError> {
        let word = String::from_str(alloc, word)?;
        self.taken.push(word)?;
        Ok(())
    }

    /// A word is not taken, for this reason.
    fn leave(&mut self, word: &str, why: &str) -> Result<(), AllocError> {
        if !self.left.is_empty() {
            self.left.push_str("; ")?;
        }
        self.left.push_str(word)?;
        self.left.push_str(": ")?;
        self.left.push_str(why)
    }

    /// The option of a letter is not taken.
    fn leave_letter(&mut self, alloc: Global, letter: u8) -> Result<(), AllocError> {
        let shown = char::from(letter);
        let word = format!(in alloc; "-{shown}")?;
        self.leave(word.as_str(), lack_text(letter))
    }

    /// Adds options with their values, but for those that are given.
    fn add(&mut self, alloc: Global, given: &[String], options: &str) -> Result<(), AllocError> {
        let mut is_new = false;
        for word in options.split_ascii_whitespace() {
            if word.starts_with("--") {
                is_new = !has_option(given, word) && !has_option(&self.taken, word);
            }
            if is_new {
                self.push(alloc, word)?;
            }
        }
        Ok(())
    }

    /// Options of these letters.
    fn add_letters(
        &mut self,
        alloc: Global,
        given: &[String],
        letters: &str,
    ) -> Result<(), AllocError> {
        for letter in letters.bytes() {
            match taken_as(letter) {
                Some(options) => self.add(alloc, given, options)?,
                None => self.leave_letter(alloc, letter)?,
            }
        }
        Ok(())
    }

    /// Whether a host is listened on.
    fn has_bind(&self, given: &[String], host: &str) -> bool {
        has_bind(given, host) || has_bind(&self.taken, host)
    }

    /// `--bind` of a host, unless it is given.
    fn bind(&mut self, alloc: Global, given: &[String], host: &str) -> Result<(), AllocError> {
        if !self.has_bind(given, host) {
            self.push(alloc, "--bind")?;
            self.push(alloc, host)?;
        }
        Ok(())
    }

    /// The host of `-h`.
    fn add_host(
        &mut self,
        alloc: Global,
        given: &[String],
        machine: Machine,
        host: &str,
    ) -> Result<(), AllocError> {
        if machine.has_sockets {
            return self.leave("-h", "the socket unit says where it listens");
        }
        self.has_host = true;
        self.bind(alloc, given, host)
    }

    /// A word of options: letters after a dash, the last of which may be `h` with its host, or the host of the word before.
    fn add_word(
        &mut self,
        alloc: Global,
        given: &[String],
        machine: Machine,
        word: &str,
    ) -> Result<(), AllocError> {
        if self.awaits_host {
            self.awaits_host = false;
            return self.add_host(alloc, given, machine, word);
        }
        match word.strip_prefix('-') {
            Some(letters) if !letters.is_empty() && !letters.starts_with('-') => {
                self.add_dashed(alloc, given, machine, letters)
            }
            _ => self.leave(word, UNKNOWN),
        }
    }

    /// What follows a dash.
    fn add_dashed(
        &mut self,
        alloc: Global,
        given: &[String],
        machine: Machine,
        letters: &str,
    ) -> Result<(), AllocError> {
        let Some((letters, host)) = letters.split_once('h') else {
            return self.add_letters(alloc, given, letters);
        };
        self.add_letters(alloc, given, letters)?;
        if host.is_empty() {
            self.awaits_host = true;
            return Ok(());
        }
        self.add_host(alloc, given, machine, host)
    }

    /// Beside hosts of `-h` the loopback is listened on, of IPv6 if the machine has it.
    fn add_loopback(
        &mut self,
        alloc: Global,
        given: &[String],
        machine: Machine,
    ) -> Result<(), AllocError> {
        let is_every = self.has_bind(given, "::");
        if !is_every && !self.has_bind(given, "0.0.0.0") {
            self.bind(alloc, given, "127.0.0.1")?;
        }
        if machine.has_loopback6 && !is_every && !self.has_bind(given, "::1") {
            self.add(alloc, given, "--loopback6")?;
        }
        Ok(())
    }
}

/// What is made of options of Debian's rpcbind(8), if these words of `serve` are given beside them.
pub fn translate(
    alloc: Global,
    given: &[String],
    machine: Machine,
    options: &[&str],
) -> Result<Translation, AllocError> {
    let mut translation = Translation::new(alloc);
    for word in options {
        translation.add_word(alloc, given, machine, word)?;
    }
    if translation.awaits_host {
        translation.leave("-h", "a host is wanted")?;
    }
    if translation.has_host {
        translation.add_loopback(alloc, given, machine)?;
    }
    Ok(translation)
}
