//! Calls, and the verdict on a message (RFC 5531 sections 8.2 and 9).
ghost use Rattle.std.specs.Prelude.{◌≡◌, ◌+◌, ◌*◌, ◌<◌, ◌≤◌, ◌↔◌, ◌++◌, length, not, IsTrue, IsOk, OnOk, OnErr};
ghost use Rattle.std.specs.Result.{result_ok};
ghost use Rattle.rb_xdr.specs.Meter.{Pays};
ghost use Rattle.rb_xdr.specs.Puts.{Appends, HasRoom};
ghost use Rattle.rb_rpc.specs.CallBytes.{call_bytes};
ghost use Rattle.rb_rpc.specs.Verdict.{is_broken, auth_end, sys_uid, head_of, verdict, EndsWithin};

use crate::auth::AuthStat;
use crate::integers::{number_at, put_numbers};
use crate::opaque_auth::{AUTH_NONE, AUTH_SYS, auth_end, body_length, is_broken, is_over_long};
use crate::sys::uid_of;
use rb_xdr::{Full, Kept, Meter};

/// Who calls, as the credential says (RFC 5531 section 8.2). Nothing authenticates it.
#[derive(Clone, Copy, PartialEq, Eq, Debug)]
pub enum Credential {
    /// AUTH_NONE (section 10.1).
    None,
    /// The uid of AUTH_SYS (appendix A).
    Sys(u32),
}

/// The head of a call (RFC 5531 section 9). Of the credential the uid of AUTH_SYS is kept, of the verifier nothing.
#[derive(Clone, Copy, PartialEq, Eq, Debug)]
pub struct CallHead {
    /// The number by which the caller knows the reply.
    pub xid: u32,
    /// The program's number.
    pub prog: u32,
    /// The program's version.
    pub vers: u32,
    /// The procedure's number.
    pub proc: u32,
    /// Who calls.
    pub cred: Credential,
}

/// Names each field, so that a further one does not compile until it stands here. It belongs in the table of
/// charges of crates/rb_core/README.md first.
fn layout(head: &CallHead) {
    let CallHead {
        xid,
        prog,
        vers,
        proc,
        cred,
    } = *head;
    let _: [u32; 4] = [xid, prog, vers, proc];
    match cred {
        Credential::None => {}
        Credential::Sys(uid) => {
            let _: u32 = uid;
        }
    }
}

/// What a message is, before its program is looked at: the data of a record, or a datagram.
#[derive(Clone, Copy, PartialEq, Eq, Debug)]
pub enum Verdict {
    /// No call. It gets no reply.
    NoCall,
    /// A call of another RPC version than 2, by its xid.
    RpcMismatch(u32),
    /// A call whose credential or verifier is refused, by its xid.
    AuthError(u32, AuthStat),
    /// A call, and how many bytes stand before its arguments.
    Call(CallHead, usize),
}

/// Where the credential begins, after six words.
const CREDENTIAL: usize = 24;

/// The message type of a call (RFC 5531 section 9).
pub const CALL: u32 = 0;

/// The version of RPC that is spoken (RFC 5531 section 9).
pub const RPC_VERSION: u32 = 2;

/// The uid of the credential's body as one of AUTH_SYS.
#[tactic(auto, unfolding(crate::specs::Verdict::sys_uid, crate::specs::Verdict::auth_end))]
fn sys_uid(bytes: &[u8]) -> Option<u32>
    requires { auth_end 24 bytes.now ≤ length bytes.now }
    ensures { result ≡ sys_uid bytes.now }
{
    let body = CREDENTIAL + 8;
    uid_of(&bytes[body..body + body_length(bytes, CREDENTIAL)]).ok()
}

/// What the words say, beside the credential that was read. It is inlined, so that the words go into the verdict one
/// by one.
#[inline(always)]
fn head_with(bytes: &[u8], cred: Credential) -> CallHead
    requires { 32 ≤ length bytes.now }
    ensures { result ≡ record (head_of bytes.now) { cred = cred } }
{
    CallHead {
        xid: number_at(bytes, 0),
        prog: number_at(bytes, 12),
        vers: number_at(bytes, 16),
        proc: number_at(bytes, 20),
        cred,
    }
}

/// The verdict on a message: the first refusal that holds of all its bytes, else the call. The order is: no call;
/// another version of RPC; a head that is cut short; a credential of over 400 bytes; a credential that is cut short
/// or has a residual byte that is not zero; the same of the verifier; a flavor that is not taken; an AUTH_SYS that
/// cannot be read.
///
/// It is inlined, so that its words stay where they are needed.
#[tactic(auto, unfolding(crate::specs::Verdict::verdict, crate::specs::Verdict::credential_end, crate::specs::Verdict::verifier_end))]
#[inline(always)]
pub fn read_call(bytes: &[u8]) -> Verdict
    ensures verdict { result ≡ verdict bytes.now }
    ensures within { EndsWithin result (length bytes.now) }
{
    if bytes.len() < 12 || number_at(bytes, 4) != CALL {
        return Verdict::NoCall;
    }
    let xid = number_at(bytes, 0);
    if number_at(bytes, 8) != RPC_VERSION {
        return Verdict::RpcMismatch(xid);
    }
    if bytes.len() < CREDENTIAL {
        return Verdict::NoCall;
    }
    if is_over_long(bytes, CREDENTIAL) {
        return Verdict::AuthError(xid, AuthStat::BadCredential);
    }
    if is_broken(bytes, CREDENTIAL) {
        return Verdict::NoCall;
    }
    let verifier = auth_end(bytes, CREDENTIAL);
    if is_over_long(bytes, verifier) {
        return Verdict::AuthError(xid, AuthStat::BadVerifier);
    }
    if is_broken(bytes, verifier) {
        return Verdict::NoCall;
    }
    let cred = match number_at(bytes, CREDENTIAL) {
        AUTH_NONE => Credential::None,
        AUTH_SYS => match sys_uid(bytes) {
            Some(uid) => Credential::Sys(uid),
            None => return Verdict::AuthError(xid, AuthStat::BadCredential),
        },
        _ => return Verdict::AuthError(xid, AuthStat::RejectedCredential),
    };
    Verdict::Call(head_with(bytes, cred), auth_end(bytes, verifier))
}

/// Writes the head of a call at the end of a buffer: 40 bytes with AUTH_NONE; 60 with AUTH_SYS, whose stamp is 0, its
/// name empty, its gid 0 and its gids none. The verifier is AUTH_NONE, empty. `Full`, with the buffer as it was,
/// if the head does not fit. It costs 1 step and one for each byte, and 1 step if it is refused.
#[tactic(auto, unfolding(crate::specs::CallBytes::call_bytes, rb_xdr::specs::Xdr::number, rb_xdr::specs::Xdr::opaque))]
pub fn put_call(head: &CallHead, out: &mut Kept, meter: &mut Meter) -> Result<(), Full>
    requires { meter.old.tie ≡ out.old.tie }
    ensures room { IsOk result ↔ HasRoom (call_bytes head.now) out.old }
    ensures ok { OnOk result (Appends (call_bytes head.now) out.old out.new) }
    ensures unchanged { OnErr result (out.new ≡ out.old) }
    ensures cap { out.new.cap ≡ out.old.cap }
    ensures tie { out.new.tie ≡ out.old.tie }
    ensures cost { OnOk result (Pays meter.old meter.new (1 + length (call_bytes head.now))) }
    ensures cost_of_refusal { OnErr result (Pays meter.old meter.new 1) }
{
    let CallHead {
        xid,
        prog,
        vers,
        proc,
        cred,
    } = *head;
    match cred {
        // xid, CALL, the version of RPC, what is called; credential and verifier AUTH_NONE, empty
        Credential::None => put_numbers(&[xid, 0, 2, prog, vers, proc, 0, 0, 0, 0], out, meter),
        // the credential AUTH_SYS, of 20 bytes: stamp, name, uid, gid, gids
        Credential::Sys(uid) => put_numbers(
            &[xid, 0, 2, prog, vers, proc, 1, 20, 0, 0, uid, 0, 0, 0, 0],
            out,
            meter,
        ),
    }
}
