//! Interfaces in `--bind` of `serve`, whose addresses are followed.
use rb_policy::machine::names_interface;
use std::alloc::{AllocError, Global};

const OPTION: &str = "--bind";

/// What is given as `--bind`.
#[derive(Drop)]
pub struct Binds {
    /// Names of interfaces, or `all`.
    pub interfaces: Vec<String>,
    /// Whether anything else is.
    pub are_hosts: bool,
}

impl Binds {
    fn none(alloc: Global) -> Binds {
        Binds {
            interfaces: Vec::new(alloc),
            are_hosts: false,
        }
    }

    /// Whether the option is given.
    pub fn are_given(&self) -> bool {
        self.are_hosts || !self.interfaces.is_empty()
    }
}

/// The value of the option in one word with it.
fn value_in(word: &str) -> Option<&str> {
    word.strip_prefix("--bind=")
}

fn push_word(alloc: Global, words: &mut Vec<String>, word: &str) -> Result<(), AllocError> {
    let word = String::from_str(alloc, word)?;
    words.push(word)?;
    Ok(())
}

/// Sorts a value of the option, which stands in a word of its own.
fn sort_value(
    alloc: Global,
    words: &mut Vec<String>,
    binds: &mut Binds,
    value: String,
) -> Result<(), AllocError> {
    if names_interface(value.as_bytes()) {
        binds.interfaces.push(value)?;
        return Ok(());
    }
    binds.are_hosts = true;
    push_word(alloc, words, OPTION)?;
    words.push(value)?;
    Ok(())
}

/// Sorts a word that is no value of the option by itself.
fn sort_word(
    alloc: Global,
    words: &mut Vec<String>,
    binds: &mut Binds,
    word: String,
) -> Result<(), AllocError> {
    if let Some(value) = value_in(word.as_str()) {
        if names_interface(value.as_bytes()) {
            return push_word(alloc, &mut binds.interfaces, value);
        }
        binds.are_hosts = true;
    }
    words.push(word)?;
    Ok(())
}

/// Takes interfaces out of the words, if they are those of `serve`. The option stays where its value is missing.
pub fn take_interfaces(
    alloc: Global,
    words: Vec<String>,
) -> Result<(Vec<String>, Binds), AllocError> {
    let mut binds = Binds::none(alloc);
    if !words.get(1).is_some_and(|word| word.as_str() == "serve") {
        return Ok((words, binds));
    }
    let mut rest = Vec::new(alloc);
    let mut is_value = false;
    for word in words {
        if is_value {
            sort_value(alloc, &mut rest, &mut binds, word)?;
            is_value = false;
        } else if word.as_str() == OPTION {
            is_value = true;
        } else {
            sort_word(alloc, &mut rest, &mut binds, word)?;
        }
    }
    if is_value {
        push_word(alloc, &mut rest, OPTION)?;
    }
    Ok((rest, binds))
}
