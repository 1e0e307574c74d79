//! How the command ends.
ghost use Rattle.std.specs.Prelude.{◌≡◌, None, true, false, IsOk};
ghost use Rattle.rb_words.specs.Refusals.{Prints};
ghost use Rattle.rb_plans.specs.Ending.{info_text, family_text, fault_line, text_line, auth_text, server_line, versions_line, auth_line, status_line, status_in, detail_line, fault_lines, no_row_line, answered_line, old_line, notice_lines, shown_status, status_of, answer_lines, EndsBy, IsNothing, Says, SaysWhere};

use crate::fault::Fault;
use rb_address::Family;
use rb_rpc::{AuthStat, ReplyStatus};
use rb_show::{InfoFault, Shown};
use std::io;
use std::io::Write;
use std::net::IpAddr;

/// The status of a fault while running.
pub const FAILED: u8 = 1;

/// The status of words that can't be read.
pub const UNREADABLE: u8 = 2;

/// How a command ended.
#[derive(Clone, Copy)]
pub struct Ending {
    /// The exit status.
    pub status: u8,
    /// What there is to say to the fault output was written, to the last byte.
    pub is_told: bool,
}

/// What is said beside an answer.
#[derive(Clone, Copy)]
pub struct Notices {
    /// The address that answered, if the host has several.
    pub answered: Option<IpAddr>,
    /// A question of version 3 was asked again by version 2.
    pub is_old: bool,
}

fn info_text(fault: InfoFault) -> &'static str
    ensures { result.now ≡ info_text fault }
{
    match fault {
        InfoFault::Read | InfoFault::TooLong => "read failed",
        InfoFault::Write => "write failed",
        InfoFault::Unreadable | InfoFault::CutOff => "unreadable reply",
        InfoFault::Refused(_) => "refused",
        InfoFault::TooMany => "too many rows",
        InfoFault::Memory => "no memory",
    }
}

fn family_text(family: Family) -> &'static str
    ensures { result.now ≡ family_text family }
{
    match family {
        Family::Inet => "IPv4",
        Family::Inet6 => "IPv6",
    }
}

/// Writes the line of a host without an address of this family.
fn write_no_address<E: Write>(family: Family, faults: &mut E) -> io::Result<()>
    ensures { Prints E.contents faults.old faults.new (fault_line (Fault.NoAddress family)) result }
{
    let text = family_text(family);
    writeln!(faults, "rpcinfo: the host has no {text} address")
}

/// Writes the first line of a fault.
#[tactic(auto, using(crate::proofs::Written::nothing))]
fn write_line<E: Write>(fault: Fault, faults: &mut E) -> io::Result<()>
    ensures { Prints E.contents faults.old faults.new (fault_line fault) result }
{
    match fault {
        Fault::Info(fault) => {
            let text = info_text(fault);
            writeln!(faults, "rpcinfo: {text}")
        }
        Fault::NoConnection => writeln!(faults, "rpcinfo: no connection"),
        Fault::NoSocket => writeln!(faults, "rpcinfo: nobody listens on the socket"),
        Fault::NoReply => writeln!(faults, "rpcinfo: no reply"),
        Fault::NoHost => writeln!(faults, "rpcinfo: no such host"),
        Fault::NoAddress(family) => write_no_address(family, faults),
        Fault::TooManyVersions => writeln!(faults, "rpcinfo: too many versions"),
        Fault::TooManyRoutes => writeln!(faults, "rpcinfo: too many routes"),
        Fault::NotAvailable(prog, vers, _) => {
            writeln!(
                faults,
                "rpcinfo: program {prog} version {vers} not available"
            )
        }
        Fault::NoProgram(prog, _) => writeln!(faults, "rpcinfo: program {prog} not available"),
        Fault::SomeLack => Ok(()),
    }
}

/// Why a caller is refused, by the standard's name (RFC 5531 section 9).
fn auth_text(stat: AuthStat) -> &'static str
    ensures { result.now ≡ auth_text stat }
{
    match stat {
        AuthStat::Success => "AUTH_OK",
        AuthStat::BadCredential => "AUTH_BADCRED",
        AuthStat::RejectedCredential => "AUTH_REJECTEDCRED",
        AuthStat::BadVerifier => "AUTH_BADVERF",
        AuthStat::RejectedVerifier => "AUTH_REJECTEDVERF",
        AuthStat::TooWeak => "AUTH_TOOWEAK",
        AuthStat::InvalidResponse => "AUTH_INVALIDRESP",
        AuthStat::Failed => "AUTH_FAILED",
        AuthStat::Kerberos => "AUTH_KERB_GENERIC",
        AuthStat::TimeExpired => "AUTH_TIMEEXPIRE",
        AuthStat::TicketFile => "AUTH_TKT_FILE",
        AuthStat::Decode => "AUTH_DECODE",
        AuthStat::NetAddress => "AUTH_NET_ADDR",
        AuthStat::GssCredential => "RPCSEC_GSS_CREDPROBLEM",
        AuthStat::GssContext => "RPCSEC_GSS_CTXPROBLEM",
    }
}

/// Writes a line that says something of the server.
fn write_server<E: Write>(text: &str, faults: &mut E) -> io::Result<()>
    ensures { Prints E.contents faults.old faults.new (server_line text.now) result }
{
    writeln!(faults, "rpcinfo: the server {text}")
}

/// Writes the line that says which versions the server has.
fn write_versions<E: Write>(low: u32, high: u32, of: &str, faults: &mut E) -> io::Result<()>
    ensures { Prints E.contents faults.old faults.new (versions_line low high of.now) result }
{
    writeln!(
        faults,
        "rpcinfo: the server has versions {low} to {high} of {of}"
    )
}

/// Writes the line that says why the caller is refused.
fn write_auth<E: Write>(stat: AuthStat, faults: &mut E) -> io::Result<()>
    ensures { Prints E.contents faults.old faults.new (auth_line stat) result }
{
    let text = auth_text(stat);
    writeln!(faults, "rpcinfo: the server refuses the caller: {text}")
}

/// Writes what a refusal says, as a line.
#[tactic(auto, using(crate::proofs::Written::nothing))]
fn write_status<E: Write>(status: ReplyStatus, faults: &mut E) -> io::Result<()>
    ensures { Prints E.contents faults.old faults.new (status_line status) result }
{
    match status {
        ReplyStatus::Success => Ok(()),
        ReplyStatus::ProgUnavail => write_server("has no such program", faults),
        ReplyStatus::ProgMismatch(low, high) => write_versions(low, high, "the program", faults),
        ReplyStatus::ProcUnavail => write_server("has no such procedure", faults),
        ReplyStatus::GarbageArgs => write_server("can't read the arguments", faults),
        ReplyStatus::SystemErr => write_server("failed", faults),
        ReplyStatus::RpcMismatch(low, high) => write_versions(low, high, "RPC", faults),
        ReplyStatus::AuthError(stat) => write_auth(stat, faults),
    }
}

/// The refusal that a fault tells of.
fn status_in(fault: Fault) -> Option<ReplyStatus>
    ensures { result ≡ status_in fault }
{
    match fault {
        Fault::Info(InfoFault::Refused(head)) => Some(head.status),
        Fault::NotAvailable(_, _, why) | Fault::NoProgram(_, why) => why,
        Fault::Info(_)
        | Fault::NoConnection
        | Fault::NoSocket
        | Fault::NoReply
        | Fault::NoHost
        | Fault::NoAddress(_)
        | Fault::TooManyVersions
        | Fault::TooManyRoutes
        | Fault::SomeLack => None,
    }
}

/// Writes what a fault's refusal says, if it tells of one.
#[tactic(auto, using(crate::proofs::Written::nothing))]
fn write_detail<E: Write>(fault: Fault, faults: &mut E) -> io::Result<()>
    ensures { Prints E.contents faults.old faults.new (detail_line fault) result }
{
    match status_in(fault) {
        Some(status) => write_status(status, faults),
        None => Ok(()),
    }
}

/// Writes the lines of a fault.
fn write_fault<E: Write>(fault: Fault, faults: &mut E) -> io::Result<()>
    ensures { Prints E.contents faults.old faults.new (fault_lines fault) result }
{
    write_line(fault, faults)?;
    write_detail(fault, faults)
}

/// Says what is wrong.
pub fn explain<E: Write>(fault: Fault, faults: &mut E) -> Ending
    ensures status { result.status ≡ 1 }
    ensures said { Says E.contents faults.old faults.new result (fault_lines fault) }
{
    let is_told = write_fault(fault, faults).is_ok();
    Ending {
        status: FAILED,
        is_told,
    }
}

/// Says that a word of the command line is no text.
pub fn refuse_text<E: Write>(faults: &mut E) -> Ending
    ensures status { result.status ≡ 2 }
    ensures said { Says E.contents faults.old faults.new result text_line }
{
    let is_told = writeln!(faults, "rpcinfo: a word is no text").is_ok();
    Ending {
        status: UNREADABLE,
        is_told,
    }
}

/// UNSET that removed nothing is no success.
fn shown_status(shown: Shown) -> u8
    ensures { result ≡ shown_status shown }
{
    match shown {
        Shown::Removed(false) => FAILED,
        Shown::Removed(true)
        | Shown::Rows(_)
        | Shown::Statistics(_)
        | Shown::Port(_)
        | Shown::Address(_)
        | Shown::Null => 0,
    }
}

/// Says why UNSET may have removed nothing.
#[tactic(auto, using(crate::proofs::Written::nothing))]
fn write_removed<E: Write>(shown: Shown, faults: &mut E) -> io::Result<()>
    ensures said { Prints E.contents faults.old faults.new (no_row_line shown) result }
    ensures quiet { shown_status shown ≡ 0 → faults.new ≡ faults.old }
{
    match shown {
        Shown::Removed(false) => {
            writeln!(
                faults,
                "rpcinfo: there is no such row, or it is another user's"
            )
        }
        Shown::Removed(true)
        | Shown::Rows(_)
        | Shown::Statistics(_)
        | Shown::Port(_)
        | Shown::Address(_)
        | Shown::Null => Ok(()),
    }
}

/// Ends by what was shown.
fn end_shown<E: Write>(shown: Shown, faults: &mut E) -> Ending
    ensures status { result.status ≡ shown_status shown }
    ensures said { Says E.contents faults.old faults.new result (no_row_line shown) }
    ensures quiet { result.status ≡ 0 → faults.new ≡ faults.old }
{
    let is_told = write_removed(shown, faults).is_ok();
    Ending {
        status: shown_status(shown),
        is_told,
    }
}

/// Ends by an answer alone.
fn end_answer<E: Write>(answer: Result<Shown, Fault>, faults: &mut E) -> Ending
    ensures status { result.status ≡ status_of answer }
    ensures said { Says E.contents faults.old faults.new result (answer_lines answer) }
    ensures quiet { result.status ≡ 0 → faults.new ≡ faults.old }
{
    match answer {
        Ok(shown) => end_shown(shown, faults),
        Err(fault) => explain(fault, faults),
    }
}

/// Names the address that answered, if the host has several.
#[tactic(auto, using(crate::proofs::Written::nothing))]
fn write_answered<E: Write>(answered: Option<IpAddr>, faults: &mut E) -> io::Result<()>
    ensures said { Prints E.contents faults.old faults.new (answered_line answered) result }
    ensures quiet { answered ≡ None → faults.new ≡ faults.old }
    ensures fine { answered ≡ None → IsOk result }
{
    match answered {
        Some(address) => writeln!(faults, "rpcinfo: {address} answered"),
        None => Ok(()),
    }
}

/// Says that version 2 was asked.
#[tactic(auto, using(crate::proofs::Written::nothing))]
fn write_old<E: Write>(is_old: bool, faults: &mut E) -> io::Result<()>
    ensures said { Prints E.contents faults.old faults.new (old_line is_old) result }
    ensures quiet { is_old ≡ false → faults.new ≡ faults.old }
    ensures fine { is_old ≡ false → IsOk result }
{
    if is_old {
        writeln!(faults, "rpcinfo: asked by version 2")
    } else {
        Ok(())
    }
}

/// Says what there is to notice.
fn write_notices<E: Write>(notices: Notices, faults: &mut E) -> io::Result<()>
    ensures said { Prints E.contents faults.old faults.new (notice_lines notices) result }
    ensures quiet { IsNothing notices → faults.new ≡ faults.old }
    ensures fine { IsNothing notices → IsOk result }
{
    write_answered(notices.answered, faults)?;
    write_old(notices.is_old, faults)
}

/// Says what there is to notice, and answers whether it was written.
fn is_noticed<E: Write>(notices: Notices, faults: &mut E) -> bool
    ensures said { SaysWhere E.contents faults.old faults.new result (notice_lines notices) }
    ensures quiet { IsNothing notices → faults.new ≡ faults.old }
    ensures fine { IsNothing notices → result ≡ true }
{
    write_notices(notices, faults).is_ok()
}

/// The same ending, of which all was told only if what there was to notice was told too.
fn behind(ending: Ending, is_noticed: bool) -> Ending
    ensures status { result.status ≡ ending.status }
    ensures noticed { result.is_told ≡ true → is_noticed ≡ true }
    ensures told { result.is_told ≡ true → ending.is_told ≡ true }
{
    Ending {
        status: ending.status,
        is_told: is_noticed && ending.is_told,
    }
}

/// Ends by an answer, with its status: says what there is to notice, and then what is wrong.
pub fn conclude<E: Write>(answer: Result<Shown, Fault>, notices: Notices, faults: &mut E) -> Ending
    ensures ends { EndsBy E.contents faults.old faults.new result answer notices }
    ensures quiet { result.status ≡ 0 → IsNothing notices → faults.new ≡ faults.old }
{
    let is_noticed = is_noticed(notices, faults);
    let ending = end_answer(answer, faults);
    behind(ending, is_noticed)
}
