//! Words that can't be read.
ghost use Rattle.std.specs.Prelude.{◌≡◌};
ghost use Rattle.rb_words.specs.Refusals.{flag_text, layout_text, spot_text, wanted_text, refusal_lines, named_line, Prints};

use crate::plan::Layout;
use crate::shape::{Flag, Shape};
use std::io;
use std::io::Write;

/// A place of a command line at which something can't be read.
#[derive(Clone, Copy)]
pub enum Spot {
    /// A flag after another one.
    Flag(Flag),
    /// The value of `--port`.
    Port,
    /// The value of `--uid`.
    Uid,
    /// The value of `-n`.
    Target,
    /// The value of `-T`.
    Netid,
    /// The value of `-a`.
    Address,
    /// The value of `--local`.
    Local,
    /// The value of `--broadcast`.
    Broadcast,
    /// `--names` or `--json`.
    Layout(Layout),
    /// The word of this number, from 0.
    Word(usize),
    /// A word is missing.
    End,
}

/// What is expected in place of what can't be read.
#[derive(Clone, Copy)]
pub enum Expected {
    /// One flag at most.
    OneFlag,
    /// A number from 1 to 65535.
    Port,
    /// A number from 0 to 4294967295.
    Uid,
    /// One of the five netids.
    Netid,
    /// A netid of TCP or UDP.
    Socket,
    /// A universal address.
    Address,
    /// The name or the address of a host.
    Host,
    /// A number from 0 to 4294967295, or a name of a program.
    Program,
    /// A number from 0 to 4294967295.
    Version,
    /// No further word.
    NoWord,
    /// `-n` goes with `-t` and `-u` alone.
    Ping,
    /// `-T` goes with `-d`, with `-a`, and without a flag.
    NoFlagOrDelete,
    /// `-a` goes with `-T`, without a flag.
    NetidAlone,
    /// `--local` goes with forms that have no HOST.
    NoHost,
    /// An IPv4 address.
    Broadcast,
    /// `--broadcast` goes with `-b` alone.
    BroadcastAlone,
    /// One of `--names` and `--json` at most.
    OneLayout,
    /// `--names` goes with lists of programs.
    List,
    /// `--json` goes with lists but the short one, and with statistics.
    Objects,
}

/// Why words can't be read: what stands where, and what is expected there.
#[derive(Clone, Copy)]
pub struct Refusal {
    /// The place of what can't be read.
    pub at: Spot,
    /// What is expected there.
    pub wanted: Expected,
}

/// A flag as it is written.
fn flag_text(flag: Flag) -> &'static str
    ensures { result.now ≡ flag_text flag }
{
    match flag {
        Flag::Table => "-p",
        Flag::Short => "-s",
        Flag::Summary => "--summary",
        Flag::List => "-l",
        Flag::Statistics => "-m",
        Flag::Tcp => "-t",
        Flag::Udp => "-u",
        Flag::Delete => "-d",
        Flag::Broadcast => "-b",
    }
}

/// A layout as it is written.
fn layout_text(layout: Layout) -> &'static str
    ensures { result.now ≡ layout_text layout }
{
    match layout {
        Layout::Names => "--names",
        Layout::Json => "--json",
    }
}

/// What stands there, or nothing.
fn spot_text<'a>(shape: &Shape<'_, 'a, '_>, at: Spot) -> &'a str
    ensures { result.now ≡ spot_text shape.now at }
{
    match at {
        Spot::Flag(flag) => flag_text(flag),
        Spot::Port => shape.port.unwrap_or(""),
        Spot::Uid => shape.uid.unwrap_or(""),
        Spot::Target => shape.target.unwrap_or(""),
        Spot::Netid => shape.netid.unwrap_or(""),
        Spot::Address => shape.address.unwrap_or(""),
        Spot::Local => shape.local.unwrap_or(""),
        Spot::Broadcast => shape.broadcast.unwrap_or(""),
        Spot::Layout(layout) => layout_text(layout),
        Spot::Word(i) => shape.words.get(i).copied().unwrap_or(""),
        Spot::End => "",
    }
}

/// What is expected, in words.
fn wanted_text(wanted: Expected) -> &'static str
    ensures { result.now ≡ wanted_text wanted }
{
    match wanted {
        Expected::OneFlag => "one flag at most is wanted",
        Expected::Port => "a number from 1 to 65535 is wanted",
        Expected::Uid => "a number from 0 to 4294967295 is wanted",
        Expected::Netid => "tcp, udp, tcp6, udp6 or local is wanted",
        Expected::Socket => "tcp, udp, tcp6 or udp6 is wanted",
        Expected::Address => "a universal address is wanted, as 192.0.2.1.0.111",
        Expected::Host => "HOST is wanted, a name or an address",
        Expected::Program => "PROGRAM is wanted, a number from 0 to 4294967295 or a name",
        Expected::Version => "VERSION is wanted, a number from 0 to 4294967295",
        Expected::NoWord => "no further word is wanted",
        Expected::Ping => "-n goes with -t and -u alone",
        Expected::NoFlagOrDelete => "-T goes with -d, or with no flag",
        Expected::NetidAlone => "-a goes with -T, and with no flag",
        Expected::NoHost => "--local goes with no HOST",
        Expected::Broadcast => "an IPv4 address is wanted, as 192.0.2.255",
        Expected::BroadcastAlone => "--broadcast goes with -b alone",
        Expected::OneLayout => "one of --names and --json at most is wanted",
        Expected::List => "--names goes with -p, -s, -l, or with no flag and no -T",
        Expected::Objects => "--json goes with -p, -l, -m, or with no flag and no -T",
    }
}

/// The line that names the word, if there is one, and what is expected.
fn write_named<W: Write>(
    shape: &Shape<'_, '_, '_>,
    refusal: Refusal,
    writer: &mut W,
) -> io::Result<()>
    ensures { Prints W.contents writer.old writer.new (named_line shape.now refusal) result }
{
    let wanted = wanted_text(refusal.wanted);
    match refusal.at {
        Spot::End => writeln!(writer, "rpcinfo: {wanted}"),
        at => {
            let word = spot_text(shape, at);
            writeln!(writer, "rpcinfo: '{word}': {wanted}")
        }
    }
}

/// Writes two lines: that the words can't be read, and which of them and what is expected there. An error if the writer
/// fails; how much went out is then not known.
pub fn write_refusal<W: Write>(
    shape: &Shape<'_, '_, '_>,
    refusal: Refusal,
    writer: &mut W,
) -> io::Result<()>
    ensures { Prints W.contents writer.old writer.new (refusal_lines shape.now refusal) result }
{
    writeln!(writer, "rpcinfo: the words can't be read; see --help")?;
    write_named(shape, refusal, writer)
}
