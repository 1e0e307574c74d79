//! The head of a call word by word (RFC 5531 section 9).
ghost use Rattle.std.specs.Prelude.{◌≡◌, ◌+◌, ◌≤◌};
ghost use Rattle.rb_xdr.specs.Xdr.{residue};
ghost use Rattle.rb_rpc.specs.declared.stage.Stage.TheVariants.{MessageType, RpcVersion, Proc};
ghost use Rattle.rb_rpc.specs.Stages.{claim_of, credential_before, credential_after, head_of, stage_behind, verifier_before, verifier_after, stage_after};

use crate::auth::AuthStat;
use crate::call::{CALL, CallHead, Credential, RPC_VERSION, Verdict};
use crate::opaque_auth::{AUTH_NONE, AUTH_SYS, MAX_AUTH_BODY};
use crate::sys_fields::{SysField, ends_in_zeros, part};
use rb_xdr::residue;

/// The words of a call that say what is called.
#[derive(Clone, Copy)]
pub(crate) struct CallWords {
    pub(crate) xid: u32,
    pub(crate) prog: u32,
    pub(crate) vers: u32,
    pub(crate) proc: u32,
}

/// What a whole credential says. It's judged after the verifier alone.
#[derive(Clone, Copy)]
pub(crate) enum Claim {
    /// AUTH_NONE, or an AUTH_SYS that was read.
    Taken { cred: Credential },
    /// AUTH_SYS with a body that can't be read.
    Unreadable,
    /// Another flavor.
    Rejected,
}

/// Which word comes next, and what those before it say that matters. Lengths are of bodies, in
/// bytes without the residual ones.
#[derive(Clone, Copy)]
pub(crate) enum Stage {
    Xid,
    MessageType {
        xid: u32,
    },
    RpcVersion {
        xid: u32,
    },
    Prog {
        xid: u32,
    },
    Vers {
        xid: u32,
        prog: u32,
    },
    Proc {
        xid: u32,
        prog: u32,
        vers: u32,
    },
    CredentialFlavor {
        call: CallWords,
    },
    CredentialLength {
        call: CallWords,
        flavor: u32,
    },
    /// The number of bytes to come of the credential's body. It's read as one of AUTH_SYS.
    CredentialBody {
        call: CallWords,
        flavor: u32,
        len: u16,
        left: u16,
        field: SysField,
    },
    VerifierFlavor {
        call: CallWords,
        claim: Claim,
        len: u16,
    },
    VerifierLength {
        call: CallWords,
        claim: Claim,
        len: u16,
    },
    /// The number of bytes to come of the verifier's body. The arguments begin at the place.
    VerifierBody {
        call: CallWords,
        claim: Claim,
        place: u32,
        left: u16,
    },
    /// Arguments alone: the head is whole, and they begin at the place.
    Arguments {
        head: CallHead,
        place: u32,
    },
    /// Nothing: no call can come of it.
    NoCall,
    /// Nothing: another version of RPC.
    RpcMismatch {
        xid: u32,
    },
    /// Nothing: the credential is over 400 bytes, or an AUTH_SYS that can't be read.
    BadCredential {
        xid: u32,
    },
    /// Nothing: the credential's flavor isn't taken.
    RejectedCredential {
        xid: u32,
    },
    /// Nothing: the verifier is over 400 bytes.
    BadVerifier {
        xid: u32,
    },
}

/// Names each field, so that a further one does not compile until it stands here. It belongs in the table of
/// charges of crates/rb_core/README.md first.
fn layout(stage: &Stage) {
    match *stage {
        Stage::Xid | Stage::NoCall => {}
        Stage::MessageType { xid }
        | Stage::RpcVersion { xid }
        | Stage::Prog { xid }
        | Stage::RpcMismatch { xid }
        | Stage::BadCredential { xid }
        | Stage::RejectedCredential { xid }
        | Stage::BadVerifier { xid } => part::<u32>(xid),
        Stage::Vers { xid, prog } => part::<(u32, u32)>((xid, prog)),
        Stage::Proc { xid, prog, vers } => part::<(u32, u32, u32)>((xid, prog, vers)),
        Stage::CredentialFlavor { call } => part::<CallWords>(call),
        Stage::CredentialLength { call, flavor } => part::<(CallWords, u32)>((call, flavor)),
        Stage::CredentialBody {
            call,
            flavor,
            len,
            left,
            field,
        } => part::<(CallWords, u32, u16, u16, SysField)>((call, flavor, len, left, field)),
        Stage::VerifierFlavor { call, claim, len } | Stage::VerifierLength { call, claim, len } =>
            part::<(CallWords, Claim, u16)>((call, claim, len)),
        Stage::VerifierBody {
            call,
            claim,
            place,
            left,
        } => part::<(CallWords, Claim, u32, u16)>((call, claim, place, left)),
        Stage::Arguments { head, place } => part::<(CallHead, u32)>((head, place)),
    }
}

/// The parts of a stage, as those of the stage itself.
fn layout_of_words(claim: &Claim, call: &CallWords) {
    match *claim {
        Claim::Taken { cred } => part::<Credential>(cred),
        Claim::Unreadable | Claim::Rejected => {}
    }
    let CallWords {
        xid,
        prog,
        vers,
        proc,
    } = *call;
    let _: [u32; 4] = [xid, prog, vers, proc];
}

/// After the message type.
#[tactic(auto, unfolding(crate::specs::Stages::stage_after))]
fn message_type_after(xid: u32, word: u32) -> Stage
    ensures { result ≡ stage_after (MessageType xid) word }
{
    if word == CALL {
        Stage::RpcVersion { xid }
    } else {
        Stage::NoCall
    }
}

/// After the version of RPC.
#[tactic(auto, unfolding(crate::specs::Stages::stage_after))]
fn rpc_version_after(xid: u32, word: u32) -> Stage
    ensures { result ≡ stage_after (RpcVersion xid) word }
{
    if word == RPC_VERSION {
        Stage::Prog { xid }
    } else {
        Stage::RpcMismatch { xid }
    }
}

/// After the procedure.
#[tactic(auto, unfolding(crate::specs::Stages::stage_after))]
fn proc_after(xid: u32, prog: u32, vers: u32, proc: u32) -> Stage
    ensures { result ≡ stage_after (Proc xid prog vers) proc }
{
    Stage::CredentialFlavor {
        call: CallWords {
            xid,
            prog,
            vers,
            proc,
        },
    }
}

/// What a whole credential says.
#[tactic(auto, unfolding(crate::specs::Stages::claim_of))]
pub(crate) fn claim_of(flavor: u32, field: SysField) -> Claim
    ensures { result ≡ claim_of flavor field }
{
    if flavor == AUTH_NONE {
        Claim::Taken {
            cred: Credential::None,
        }
    } else if flavor > AUTH_SYS {
        Claim::Rejected
    } else if let SysField::Whole { uid } = field {
        Claim::Taken {
            cred: Credential::Sys(uid),
        }
    } else {
        Claim::Unreadable
    }
}

/// After the credential's length word.
#[tactic(auto, unfolding(crate::specs::Stages::credential_before))]
fn credential_before(call: CallWords, flavor: u32, len: u32) -> Stage
    ensures { result ≡ credential_before call flavor len }
{
    if len > MAX_AUTH_BODY {
        return Stage::BadCredential { xid: call.xid };
    }
    let len = len as u16;
    let field = SysField::Stamp;
    if len == 0 {
        let claim = claim_of(flavor, field);
        return Stage::VerifierFlavor { call, claim, len };
    }
    let left = len;
    Stage::CredentialBody {
        call,
        flavor,
        len,
        left,
        field,
    }
}

/// After a word of the credential's body, of which this many bytes were to come.
#[tactic(auto, unfolding(crate::specs::Stages::credential_after))]
fn credential_after(
    call: CallWords,
    flavor: u32,
    len: u16,
    left: u16,
    field: SysField,
    word: u32,
) -> Stage
    ensures { result ≡ credential_after call flavor len left field word }
{
    if left > 4 {
        return Stage::CredentialBody {
            call,
            flavor,
            len,
            left: left - 4,
            field: field.after(word),
        };
    }
    if !ends_in_zeros(left as usize, word) {
        return Stage::NoCall;
    }
    let field = if left == 4 { field.after(word) } else { field };
    let claim = claim_of(flavor, field);
    Stage::VerifierFlavor { call, claim, len }
}

fn head_of(call: CallWords, cred: Credential) -> CallHead
    ensures { result ≡ head_of call cred }
{
    let CallWords {
        xid,
        prog,
        vers,
        proc,
    } = call;
    CallHead {
        xid,
        prog,
        vers,
        proc,
        cred,
    }
}

/// After the verifier, if the arguments begin at this place.
#[tactic(auto, unfolding(crate::specs::Stages::stage_behind))]
pub(crate) fn stage_behind(call: CallWords, claim: Claim, place: u32) -> Stage
    ensures { result ≡ stage_behind call claim place }
{
    match claim {
        Claim::Taken { cred } => Stage::Arguments {
            head: head_of(call, cred),
            place,
        },
        Claim::Unreadable => Stage::BadCredential { xid: call.xid },
        Claim::Rejected => Stage::RejectedCredential { xid: call.xid },
    }
}

/// With residual bytes.
fn padded_length(len: u16) -> u32
    ensures { result ≡ len + residue len }
{
    u32::from(len) + residue(len as usize) as u32
}

/// After the verifier's length word.
#[tactic(auto, unfolding(crate::specs::Stages::verifier_before))]
fn verifier_before(call: CallWords, claim: Claim, len: u16, verifier_len: u32) -> Stage
    ensures { result ≡ verifier_before call claim len verifier_len }
{
    if verifier_len > MAX_AUTH_BODY {
        return Stage::BadVerifier { xid: call.xid };
    }
    let verifier_len = verifier_len as u16;
    let place = 40 + padded_length(len) + padded_length(verifier_len);
    if verifier_len == 0 {
        return stage_behind(call, claim, place);
    }
    Stage::VerifierBody {
        call,
        claim,
        place,
        left: verifier_len,
    }
}

/// After a word of the verifier's body, of which this many bytes were to come.
#[tactic(auto, unfolding(crate::specs::Stages::verifier_after))]
fn verifier_after(call: CallWords, claim: Claim, place: u32, left: u16, word: u32) -> Stage
    ensures { result ≡ verifier_after call claim place left word }
{
    if left > 4 {
        let left = left - 4;
        return Stage::VerifierBody {
            call,
            claim,
            place,
            left,
        };
    }
    if !ends_in_zeros(left as usize, word) {
        return Stage::NoCall;
    }
    stage_behind(call, claim, place)
}

impl Stage {
    ghost use Rattle.std.specs.Prelude.{◌≡◌};
    ghost use Rattle.rb_rpc.specs.Stages.{stage_after, verdict_at, is_call};

    /// After one more word.
    #[tactic(auto, unfolding(crate::specs::Stages::stage_after))]
    pub(crate) fn after(self, word: u32) -> Stage
        ensures { result ≡ stage_after self word }
    {
        match self {
            Stage::Xid => Stage::MessageType { xid: word },
            Stage::MessageType { xid } => message_type_after(xid, word),
            Stage::RpcVersion { xid } => rpc_version_after(xid, word),
            Stage::Prog { xid } => Stage::Vers { xid, prog: word },
            Stage::Vers { xid, prog } => Stage::Proc {
                xid,
                prog,
                vers: word,
            },
            Stage::Proc { xid, prog, vers } => proc_after(xid, prog, vers, word),
            Stage::CredentialFlavor { call } => Stage::CredentialLength { call, flavor: word },
            Stage::CredentialLength { call, flavor } => credential_before(call, flavor, word),
            Stage::CredentialBody {
                call,
                flavor,
                len,
                left,
                field,
            } => { credential_after(call, flavor, len, left, field, word) }
            Stage::VerifierFlavor { call, claim, len } => Stage::VerifierLength {
                call,
                claim,
                len,
            },
            Stage::VerifierLength { call, claim, len } => verifier_before(call, claim, len, word),
            Stage::VerifierBody {
                call,
                claim,
                place,
                left,
            } => { verifier_after(call, claim, place, left, word) }
            Stage::Arguments { .. }
            | Stage::NoCall
            | Stage::RpcMismatch { .. }
            | Stage::BadCredential { .. }
            | Stage::RejectedCredential { .. }
            | Stage::BadVerifier { .. } => self,
        }
    }

    /// What the bytes so far are worth.
    #[tactic(auto, unfolding(crate::specs::Stages::verdict_at))]
    pub(crate) fn verdict(self) -> Verdict
        ensures { result ≡ verdict_at self }
    {
        match self {
            Stage::Arguments { head, place } => Verdict::Call(head, place as usize),
            Stage::RpcMismatch { xid } => Verdict::RpcMismatch(xid),
            Stage::BadCredential { xid } => Verdict::AuthError(xid, AuthStat::BadCredential),
            Stage::RejectedCredential { xid } => Verdict::AuthError(
                xid,
                AuthStat::RejectedCredential,
            ),
            Stage::BadVerifier { xid } => Verdict::AuthError(xid, AuthStat::BadVerifier),
            _ => Verdict::NoCall,
        }
    }

    /// Whether the head of a call is whole.
    #[tactic(auto, unfolding(crate::specs::Stages::verdict_at))]
    pub(crate) fn is_call(&self) -> bool
        ensures { result ≡ is_call (verdict_at self.now) }
    {
        matches!(self, Stage::Arguments { .. })
    }
}
