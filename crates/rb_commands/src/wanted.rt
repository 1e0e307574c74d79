//! What is said of an option: its name, its default, what is expected as its value, and that a value is wrong.
ghost use Rattle.std.specs.Prelude.{◌≡◌};
ghost use Rattle.rb_commands.specs.Wanted.{said, option_texts, texts_of, announced_text, bound_text, served_text, reserve_text};

use crate::options::Valued;
use rb_answers::MOST_RESERVED;
use rb_settings::MOST;
use std::fmt;
use std::fmt::{Display, Formatter};

const NUMBER: &str = "a number of 64 bits";

const ADDRESS: &str = "an address as 192.0.2.1 or 2001:db8::1";

const NETWORK: &str = "a network as 192.0.2.0/24, with no bit set behind its length,";

const WHOM: &str = "all or local";

/// An option whose value can't be read.
#[derive(Clone, Copy)]
pub(crate) struct BadValue<'a> {
    /// Its name, without the two dashes.
    pub(crate) option: &'static str,
    /// Its value.
    pub(crate) value: &'a str,
    /// What is expected in place of that.
    pub(crate) wanted: &'static str,
}

impl Display for BadValue<'_> {
    ghost use Rattle.std.specs.Prelude.{Some};
    ghost use Rattle.rb_commands.specs.Wanted.{bad_value_text};

    ghost output = { λ bad. Some (bad_value_text bad) };

    fn fmt<W: fmt::Write>(&self, f: &mut Formatter<W>) -> fmt::Result {
        let BadValue {
            option,
            value,
            wanted,
        } = *self;
        write!(
            f,
            "error: invalid value '{value}' for '--{option}': {wanted} is wanted"
        )
    }
}

/// What is said of an option.
#[derive(Clone, Copy)]
pub(crate) struct OptionTexts {
    /// Its name, without the two dashes.
    pub(crate) name: &'static str,
    /// The text that stands for its value if `serve` is not given it, as it stands in the help. If nothing stands for it,
    /// the empty text, which no reader of a value takes.
    pub(crate) default: &'static str,
    /// What is expected as its value. That of `--announce` at a place after the first may be the second of its family, and
    /// those of `--bind`, `--from` and `--reserve` may be one too many.
    pub(crate) wanted: &'static str,
}

fn option_texts(name: &'static str, default: &'static str, wanted: &'static str) -> OptionTexts
    ensures { said result ≡ option_texts name.now default.now wanted.now }
{
    OptionTexts {
        name,
        default,
        wanted,
    }
}

/// The table of the options that have a value.
pub(crate) fn texts_of(option: Valued) -> OptionTexts
    ensures { said result ≡ texts_of option }
{
    match option {
        Valued::Announce(place) => option_texts("announce", "", announced_text(place)),
        Valued::Bind(place) => option_texts("bind", "127.0.0.1", bound_text(place)),
        Valued::From(place) => option_texts("from", "", served_text(place)),
        Valued::Local => option_texts(
            "local",
            "",
            "a path of at most 107 bytes, without quotes and control characters,",
        ),
        Valued::LocalMode => option_texts(
            "local-mode",
            "0600",
            "a mode from 0 to 777 in octal digits",
        ),
        Valued::Port => option_texts("port", "111", "a port from 1 to 65535"),
        Valued::Conns => option_texts("conns", "64", NUMBER),
        Valued::Rows => option_texts("rows", "1024", NUMBER),
        Valued::Forwards => option_texts("forwards", "0", NUMBER),
        Valued::UdpLists => option_texts("udp-lists", "local", WHOM),
        Valued::ForwardFor => option_texts("forward-for", "local", WHOM),
        Valued::ReplayForwardFor => option_texts("forward-for", "", "any, all or local"),
        Valued::UdpRate => option_texts("udp-rate", "", "a number from 1 to 1000, or two as 20,5,"),
        Valued::Xid => option_texts("xid", "", "a number from 0 to 4294967295"),
        Valued::Now => option_texts("now", "", NUMBER),
        Valued::Turns => option_texts("turns", "0", NUMBER),
        Valued::RecordLimit => option_texts(
            "record-limit",
            "16000000",
            "a number from 1000 to 16777216",
        ),
        Valued::Keep => option_texts("keep", "", "the path of a file"),
        Valued::Log => option_texts("log", "", "changes or all"),
        Valued::Reserve(place) => option_texts("reserve", "", reserve_text(place)),
    }
}

fn announced_text(place: usize) -> &'static str
    ensures { result.now ≡ announced_text place }
{
    if place == 0 {
        ADDRESS
    } else {
        "no more than one address of each family"
    }
}

fn bound_text(place: usize) -> &'static str
    ensures { result.now ≡ bound_text place }
{
    if place < MOST {
        ADDRESS
    } else {
        "no more than 16 addresses"
    }
}

fn served_text(place: usize) -> &'static str
    ensures { result.now ≡ served_text place }
{
    if place < MOST {
        NETWORK
    } else {
        "no more than 16 networks"
    }
}

fn reserve_text(place: usize) -> &'static str
    ensures { result.now ≡ reserve_text place }
{
    if place < MOST_RESERVED {
        "a reservation as 100003=0 or 100003-100005=0"
    } else {
        "no more than 64 reservations"
    }
}
