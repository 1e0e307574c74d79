//! Replies (RFC 5531 section 9).
ghost use Rattle.std.specs.Prelude.{◌≡◌, ◌+◌, ◌<◌, ◌≤◌, ◌↔◌, ◌++◌, length, IsOk, IfOk, OnOk, OnErr};
ghost use Rattle.std.specs.Result.{result_ok};
ghost use Rattle.rb_xdr.specs.Meter.{Pays};
ghost use Rattle.rb_rpc.specs.Messages.{auth_none};
ghost use Rattle.rb_xdr.specs.Puts.{Appends, HasRoom};
ghost use Rattle.rb_rpc.specs.Replies.{accepted_reply, reply_bytes};
ghost use Rattle.rb_rpc.specs.ReadReplies.{read_prog_mismatch, read_accept_stat, read_accepted, read_rpc_mismatch, read_denied, read_reply};

use crate::auth::AuthStat;
use crate::integers::{number_at, put_numbers};
use crate::opaque_auth::{AUTH_NONE, auth_end, is_broken, is_over_long};
use rb_xdr::{Full, Kept, Meter};
use thiserror::Error;

/// Whether a reply has results, or else why the call was refused (RFC 5531 section 9, accept_stat and reject_stat).
#[derive(Clone, Copy, PartialEq, Eq, Debug)]
pub enum ReplyStatus {
    /// The results follow.
    Success,
    /// PROG_UNAVAIL: there is no such program.
    ProgUnavail,
    /// PROG_MISMATCH: the least and the greatest version of the program.
    ProgMismatch(u32, u32),
    /// PROC_UNAVAIL: the version has no such procedure.
    ProcUnavail,
    /// GARBAGE_ARGS: the arguments cannot be read.
    GarbageArgs,
    /// SYSTEM_ERR: something failed, as an allocation.
    SystemErr,
    /// RPC_MISMATCH: the least and the greatest version of RPC.
    RpcMismatch(u32, u32),
    /// AUTH_ERROR: why the credential or the verifier is refused.
    AuthError(AuthStat),
}

/// The head of a reply. Its verifier isn't kept.
#[derive(Clone, Copy, PartialEq, Eq, Debug)]
pub struct ReplyHead {
    /// The number of the call that it answers.
    pub xid: u32,
    /// What became of the call.
    pub status: ReplyStatus,
}

/// The bytes begin with no reply.
#[derive(Clone, Copy, PartialEq, Eq, Debug, Error)]
#[error("no reply can be read")]
pub struct BadReply;

/// Where the verifier of an accepted reply begins, after three words.
const VERIFIER: usize = 12;

/// How many bytes an accepted reply has up to its accept_stat, if its verifier is the null one.
const ACCEPTED_HEAD: usize = 24;

const REPLY: u32 = 1;

// reply_stat
const ACCEPTED: u32 = 0;

const DENIED: u32 = 1;

// accept_stat
const SUCCESS: u32 = 0;

const PROG_UNAVAIL: u32 = 1;

const PROG_MISMATCH: u32 = 2;

const PROC_UNAVAIL: u32 = 3;

const GARBAGE_ARGS: u32 = 4;

const SYSTEM_ERR: u32 = 5;

// reject_stat
const RPC_MISMATCH: u32 = 0;

const AUTH_ERROR: u32 = 1;

/// An accepted reply with the null verifier up to its accept_stat.
#[tactic(auto, unfolding(rb_xdr::specs::Xdr::number, rb_xdr::specs::Xdr::opaque))]
fn accepted(xid: u32, stat: u32) -> [u8; ACCEPTED_HEAD]
    ensures { result ≡ accepted_reply xid auth_none stat }
{
    let mut head = [0; ACCEPTED_HEAD];
    head[..4].copy_from_slice(&xid.to_be_bytes());
    head[4..8].copy_from_slice(&REPLY.to_be_bytes());
    head[8..12].copy_from_slice(&ACCEPTED.to_be_bytes());
    head[12..16].copy_from_slice(&AUTH_NONE.to_be_bytes());
    head[20..].copy_from_slice(&stat.to_be_bytes());
    head
}

/// Puts an accepted reply with the null verifier up to its accept_stat, or nothing. It is written at once, since each
/// reply with results begins so.
fn put_accepted(xid: u32, stat: u32, out: &mut Kept, meter: &mut Meter) -> Result<(), Full>
    requires { meter.old.tie ≡ out.old.tie }
    ensures room { IsOk result ↔ HasRoom (accepted_reply xid auth_none stat) out.old }
    ensures ok { OnOk result (Appends (accepted_reply xid auth_none stat) out.old out.new) }
    ensures unchanged { OnErr result (out.new ≡ out.old) }
    ensures cap { out.new.cap ≡ out.old.cap }
    ensures tie { out.new.tie ≡ out.old.tie }
    ensures cost { OnOk result (Pays meter.old meter.new 25) }
    ensures cost_of_refusal { OnErr result (Pays meter.old meter.new 1) }
{
    let head = accepted(xid, stat);
    if out.room(meter) < head.len() {
        return Err(Full { value: () });
    }
    out.extend(&head, meter)
}

// REPLY-1
/// Writes the head of a reply at the end of a buffer (RFC 5531 section 9); the verifier of an accepted one is
/// AUTH_NONE, empty. It costs 1 step and one for each byte. `Full`, with the buffer as it was, if it does not fit:
/// 1 step.
#[tactic(auto, unfolding(crate::specs::Replies::reply_head, rb_xdr::specs::Xdr::number, rb_xdr::specs::Xdr::opaque))]
pub fn put_reply(head: &ReplyHead, out: &mut Kept, meter: &mut Meter) -> Result<(), Full>
    requires { meter.old.tie ≡ out.old.tie }
    ensures room { IsOk result ↔ HasRoom (reply_bytes head.now) out.old }
    ensures ok { OnOk result (Appends (reply_bytes head.now) out.old out.new) }
    ensures unchanged { OnErr result (out.new ≡ out.old) }
    ensures cap { out.new.cap ≡ out.old.cap }
    ensures tie { out.new.tie ≡ out.old.tie }
    ensures cost { OnOk result (Pays meter.old meter.new (1 + length (reply_bytes head.now))) }
    ensures cost_of_refusal { OnErr result (Pays meter.old meter.new 1) }
{
    let ReplyHead { xid, status } = *head;
    match status {
        ReplyStatus::Success => put_accepted(xid, SUCCESS, out, meter),
        ReplyStatus::ProgUnavail => put_accepted(xid, PROG_UNAVAIL, out, meter),
        ReplyStatus::ProgMismatch(low, high) => {
            let words = [xid, REPLY, ACCEPTED, AUTH_NONE, 0, PROG_MISMATCH, low, high];
            put_numbers(&words, out, meter)
        }
        ReplyStatus::ProcUnavail => put_accepted(xid, PROC_UNAVAIL, out, meter),
        ReplyStatus::GarbageArgs => put_accepted(xid, GARBAGE_ARGS, out, meter),
        ReplyStatus::SystemErr => put_accepted(xid, SYSTEM_ERR, out, meter),
        ReplyStatus::RpcMismatch(low, high) => {
            put_numbers(&[xid, REPLY, DENIED, RPC_MISMATCH, low, high], out, meter)
        }
        ReplyStatus::AuthError(stat) => {
            put_numbers(&[xid, REPLY, DENIED, AUTH_ERROR, stat.number()], out, meter)
        }
    }
}

/// PROG_MISMATCH at a place, with the versions.
#[tactic(auto, unfolding(crate::specs::ReadReplies::read_prog_mismatch))]
fn read_prog_mismatch(bytes: &[u8], place: usize) -> Result<(ReplyHead, usize), BadReply>
    requires { place ≤ length bytes.now }
    ensures read { result_ok result ≡ read_prog_mismatch place bytes.now }
    ensures within { IfOk result (λ read. read.1 ≤ length bytes.now) }
{
    if bytes.len() < place + 12 {
        return Err(BadReply);
    }
    let xid = number_at(bytes, 0);
    let status = ReplyStatus::ProgMismatch(
        number_at(bytes, place + 4),
        number_at(bytes, place + 8),
    );
    Ok((ReplyHead { xid, status }, place + 12))
}

/// What accept_stat at a place says, with what belongs to it.
#[tactic(auto, unfolding(crate::specs::ReadReplies::read_accept_stat))]
fn read_accept_stat(bytes: &[u8], place: usize) -> Result<(ReplyHead, usize), BadReply>
    requires head { 12 ≤ length bytes.now }
    requires place { place ≤ length bytes.now }
    ensures read { result_ok result ≡ read_accept_stat place bytes.now }
    ensures within { IfOk result (λ read. read.1 ≤ length bytes.now) }
{
    if bytes.len() < place + 4 {
        return Err(BadReply);
    }
    let status = match number_at(bytes, place) {
        SUCCESS => ReplyStatus::Success,
        PROG_UNAVAIL => ReplyStatus::ProgUnavail,
        PROG_MISMATCH => return read_prog_mismatch(bytes, place),
        PROC_UNAVAIL => ReplyStatus::ProcUnavail,
        GARBAGE_ARGS => ReplyStatus::GarbageArgs,
        SYSTEM_ERR => ReplyStatus::SystemErr,
        _ => return Err(BadReply),
    };
    let xid = number_at(bytes, 0);
    Ok((ReplyHead { xid, status }, place + 4))
}

/// An accepted reply, whose verifier stands after three words, and accept_stat after the verifier.
#[tactic(auto, unfolding(crate::specs::ReadReplies::read_accepted))]
fn read_accepted(bytes: &[u8]) -> Result<(ReplyHead, usize), BadReply>
    requires { 12 ≤ length bytes.now }
    ensures read { result_ok result ≡ read_accepted bytes.now }
    ensures within { IfOk result (λ read. read.1 ≤ length bytes.now) }
{
    if is_over_long(bytes, VERIFIER) || is_broken(bytes, VERIFIER) {
        return Err(BadReply);
    }
    read_accept_stat(bytes, auth_end(bytes, VERIFIER))
}

/// RPC_MISMATCH, with the versions.
#[tactic(auto, unfolding(crate::specs::ReadReplies::read_rpc_mismatch))]
fn read_rpc_mismatch(bytes: &[u8]) -> Result<(ReplyHead, usize), BadReply>
    ensures read { result_ok result ≡ read_rpc_mismatch bytes.now }
    ensures within { IfOk result (λ read. read.1 ≤ length bytes.now) }
{
    if bytes.len() < 24 {
        return Err(BadReply);
    }
    let xid = number_at(bytes, 0);
    let status = ReplyStatus::RpcMismatch(number_at(bytes, 16), number_at(bytes, 20));
    Ok((ReplyHead { xid, status }, 24))
}

/// A denied reply, whose reject_stat is the fourth word.
#[tactic(auto, unfolding(crate::specs::ReadReplies::read_denied))]
fn read_denied(bytes: &[u8]) -> Result<(ReplyHead, usize), BadReply>
    ensures read { result_ok result ≡ read_denied bytes.now }
    ensures within { IfOk result (λ read. read.1 ≤ length bytes.now) }
{
    if bytes.len() < 20 {
        return Err(BadReply);
    }
    let xid = number_at(bytes, 0);
    match number_at(bytes, 12) {
        RPC_MISMATCH => read_rpc_mismatch(bytes),
        AUTH_ERROR => {
            let stat = AuthStat::from_number(number_at(bytes, 16)).ok_or(BadReply)?;
            let status = ReplyStatus::AuthError(stat);
            Ok((ReplyHead { xid, status }, 20))
        }
        _ => Err(BadReply),
    }
}

/// Reads the head of a reply from the front of the bytes (RFC 5531 section 9), and says where its results begin, or
/// where it ends. A verifier may have any flavor and at most 400 bytes. `BadReply` if no front of the bytes is the
/// head of a reply.
#[tactic(auto, unfolding(crate::specs::ReadReplies::read_reply))]
pub fn read_reply(bytes: &[u8]) -> Result<(ReplyHead, usize), BadReply>
    ensures read { result_ok result ≡ read_reply bytes.now }
    ensures within { IfOk result (λ read. read.1 ≤ length bytes.now) }
{
    if bytes.len() < VERIFIER || number_at(bytes, 4) != REPLY {
        return Err(BadReply);
    }
    match number_at(bytes, 8) {
        ACCEPTED => read_accepted(bytes),
        DENIED => read_denied(bytes),
        _ => Err(BadReply),
    }
}
