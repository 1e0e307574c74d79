//! The lines of a log, with no byte in them that a caller could write over others with.
ghost use Rattle.std.specs.Prelude.{◌≡◌, ◌<◌, ◌≤◌, length};
ghost use Rattle.rb_policy.specs.LogLines.{shown_byte, shown_text, status_text, owner_text, stranger_text, changes_text, end_text, kind_text};

use crate::caller_rate::{LeftOut, LogCaller};
use arrayvec::ArrayString;
use rb_address::{Owner, Source, Trust, Who};
use rb_registry::Refusal;
use rb_rpc::ReplyStatus;
use std::fmt;

/// The most bytes of a text of a caller that are shown.
pub const MOST_SHOWN: usize = 128;

/// The most bytes of a line, its line break among them.
pub const LONGEST_LOG_LINE: usize = 320;

/// A kind of lines, of which a log gets this many in a second.
#[derive(Clone, Copy)]
pub enum LogKind {
    /// SETs and UNSETs that were accepted.
    Accepted,
    /// SETs and UNSETs that were refused.
    Refused,
    /// Calls that were refused.
    Calls,
    /// Connections that were given up.
    GivenUp,
}

/// A SET or an UNSET.
#[derive(Clone, Copy)]
pub struct ChangeLine<'a> {
    /// Whether it is a SET.
    pub adds: bool,
    /// The program's number.
    pub prog: u32,
    /// The program's version.
    pub vers: u32,
    /// The netid as it was named.
    pub netid: &'a [u8],
    /// The address as it was given. That of an UNSET is not shown.
    pub addr: &'a [u8],
    /// As whom the caller registers.
    pub owner: Owner,
    /// Who called.
    pub who: Who,
    /// Why the rows were not changed, if they were not.
    pub refusal: Option<Refusal>,
}

/// A line of a log.
#[derive(Clone, Copy)]
pub enum LogLine<'a> {
    /// A SET or an UNSET.
    Change(ChangeLine<'a>),
    /// A call of this caller that was refused so.
    RefusedCall(Who, ReplyStatus),
    /// A connection from there that was given up.
    GivenUp(Source),
    /// How many lines of a kind were left out.
    More(LeftOut, LogKind),
}

fn shown_char(byte: u8) -> char
    ensures shown { result ≡ shown_byte byte }
    ensures ascii { result < 128 }
{
    if byte.is_ascii_graphic() {
        char::from(byte)
    } else {
        '?'
    }
}

/// A text that a caller sent: its first 128 bytes, with `?` for each byte that is no printable character or a space, and
/// `-` for an empty one.
fn shown_text(text: &[u8]) -> ArrayString<MOST_SHOWN>
    ensures { result.bytes ≡ shown_text text.now }
{
    let mut shown = ArrayString::new();
    if text.is_empty() {
        shown.push('-');
        return shown;
    }
    for byte in &text[..text.len().min(MOST_SHOWN)] {
        shown.push(shown_char(*byte));
    }
    shown
}

/// The word for a refusal.
fn status_text(status: ReplyStatus) -> &'static str
    ensures { result.now ≡ status_text status }
{
    match status {
        ReplyStatus::Success => "success",
        ReplyStatus::ProgUnavail => "program unavailable",
        ReplyStatus::ProgMismatch(_, _) => "version unavailable",
        ReplyStatus::ProcUnavail => "procedure unavailable",
        ReplyStatus::GarbageArgs => "garbage arguments",
        ReplyStatus::SystemErr => "system error",
        ReplyStatus::RpcMismatch(_, _) => "version of RPC unavailable",
        ReplyStatus::AuthError(_) => "credential refused",
    }
}

fn stranger_text(trust: Trust) -> &'static str
    ensures { result.now ≡ stranger_text trust }
{
    match trust {
        Trust::Claims | Trust::Local(_) => "",
        Trust::Stranger => " (stranger)",
    }
}

fn change_text(adds: bool) -> &'static str
    ensures { result.now ≡ changes_text adds }
{
    if adds { "SET" } else { "UNSET" }
}

fn end_text(refusal: Option<Refusal>) -> &'static str
    ensures { result.now ≡ end_text refusal }
{
    match refusal {
        None => "accepted",
        Some(Refusal::MayNotRegister) => "refused: may not register",
        Some(Refusal::OwnProgram) => "refused: own program",
        Some(Refusal::NoAddress) => "refused: no address",
        Some(Refusal::Reserved) => "refused: reserved",
        Some(Refusal::NoPlace) => "refused: no place",
        Some(Refusal::Taken) => "refused: taken",
        Some(Refusal::NothingToRemove) => "refused: nothing to remove",
    }
}

fn kind_text(kind: LogKind) -> &'static str
    ensures { result.now ≡ kind_text kind }
{
    match kind {
        LogKind::Accepted => "accepted changes",
        LogKind::Refused => "refused changes",
        LogKind::Calls => "refused calls",
        LogKind::GivenUp => "connections given up",
    }
}

/// An owner: `unknown` or the uid.
#[derive(Clone, Copy)]
struct OwnerText(Owner);

impl fmt::Display for OwnerText {
    ghost use Rattle.std.specs.Prelude.{Some};
    ghost use Rattle.rb_policy.specs.LogLines.{owner_text};

    ghost output = { λ o. Some (owner_text o.0) };

    fn fmt<W: fmt::Write>(&self, f: &mut fmt::Formatter<W>) -> fmt::Result {
        match self.0 {
            Owner::Unknown => write!(f, "unknown"),
            Owner::Uid(uid) => write!(f, "{uid}"),
        }
    }
}

/// Where a caller calls from, and whether it is a stranger.
#[derive(Clone, Copy)]
struct CallerText(Who);

impl fmt::Display for CallerText {
    ghost use Rattle.std.specs.Prelude.{Some};
    ghost use Rattle.rb_policy.specs.LogLines.{caller_text};

    ghost output = { λ caller. Some (caller_text caller.0) };

    fn fmt<W: fmt::Write>(&self, f: &mut fmt::Formatter<W>) -> fmt::Result {
        let source = self.0.source;
        let stranger = stranger_text(self.0.trust);
        write!(f, "{source}{stranger}")
    }
}

/// Whose lines were left out, if that is known of one: ` of 1000` of an owner, ` by 192.0.2.7` of a host.
#[derive(Clone, Copy)]
struct WhosePart(Option<LogCaller>);

impl fmt::Display for WhosePart {
    ghost use Rattle.std.specs.Prelude.{Some};
    ghost use Rattle.rb_policy.specs.LogLines.{whose_part};

    ghost output = { λ part. Some (whose_part part.0) };

    fn fmt<W: fmt::Write>(&self, f: &mut fmt::Formatter<W>) -> fmt::Result {
        match self.0 {
            Some(LogCaller::Owner(owner)) => {
                let owner = OwnerText(owner);
                write!(f, " of {owner}")
            }
            Some(LogCaller::Host(host)) => write!(f, " by {host}"),
            None => Ok(()),
        }
    }
}

/// The address of a SET, after a space.
#[derive(Clone, Copy)]
struct AddressPart<'a> {
    is_shown: bool,
    addr: &'a [u8],
}

impl fmt::Display for AddressPart<'_> {
    ghost use Rattle.std.specs.Prelude.{Some};
    ghost use Rattle.rb_policy.specs.LogLines.{address_part};

    ghost output = { λ part. Some (address_part part.is_shown part.addr.now) };

    fn fmt<W: fmt::Write>(&self, f: &mut fmt::Formatter<W>) -> fmt::Result {
        if !self.is_shown {
            return Ok(());
        }
        let addr = shown_text(self.addr);
        write!(f, " {addr}")
    }
}

/// The program, the version and the netid that a change is about, and the address of a SET.
#[derive(Clone, Copy)]
struct RowPart<'a>(ChangeLine<'a>);

impl fmt::Display for RowPart<'_> {
    ghost use Rattle.std.specs.Prelude.{Some};
    ghost use Rattle.rb_policy.specs.LogLines.{row_part};

    ghost output = { λ part. Some (row_part part.0) };

    fn fmt<W: fmt::Write>(&self, f: &mut fmt::Formatter<W>) -> fmt::Result {
        let (prog, vers) = (self.0.prog, self.0.vers);
        let netid = shown_text(self.0.netid);
        let addr = AddressPart {
            is_shown: self.0.adds,
            addr: self.0.addr,
        };
        write!(f, "{prog} {vers} {netid}{addr}")
    }
}

/// `rpcbind: SET 100003 3 tcp 0.0.0.0.8.1 of 0 by 127.0.0.1:900: accepted`; of an UNSET no address.
impl fmt::Display for ChangeLine<'_> {
    ghost use Rattle.std.specs.Prelude.{Some};
    ghost use Rattle.rb_policy.specs.LogLines.{change_line};

    ghost output = { λ line. Some (change_line line) };

    fn fmt<W: fmt::Write>(&self, f: &mut fmt::Formatter<W>) -> fmt::Result {
        let change = change_text(self.adds);
        let row = RowPart(*self);
        let owner = OwnerText(self.owner);
        let caller = CallerText(self.who);
        let end = end_text(self.refusal);
        write!(f, "rpcbind: {change} {row} of {owner} by {caller}: {end}")
    }
}

/// A line, without its line break.
impl fmt::Display for LogLine<'_> {
    ghost use Rattle.std.specs.Prelude.{Some};
    ghost use Rattle.rb_policy.specs.LogLines.{log_line};

    ghost output = { λ line. Some (log_line line) };

    fn fmt<W: fmt::Write>(&self, f: &mut fmt::Formatter<W>) -> fmt::Result {
        match self {
            LogLine::Change(change) => write!(f, "{change}"),
            LogLine::RefusedCall(who, status) => {
                let caller = CallerText(*who);
                let why = status_text(*status);
                write!(f, "rpcbind: call by {caller} refused: {why}")
            }
            LogLine::GivenUp(source) => write!(f, "rpcbind: connection of {source} given up"),
            LogLine::More(left_out, kind) => {
                let kind = kind_text(*kind);
                let count = left_out.count;
                let whose = WhosePart(left_out.caller);
                write!(f, "rpcbind: {count} more {kind}{whose}")
            }
        }
    }
}
