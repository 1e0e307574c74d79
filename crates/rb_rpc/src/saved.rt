//! A stage as eleven words: its number, in the order of the stages; what is called; the credential's flavor; a length
//! or the arguments' place; the bytes left of a body; and three words on how far the credential's body was read.
ghost use Rattle.std.specs.Prelude.{◌≡◌, length};
ghost use Rattle.rb_rpc.specs.Stages.{claim_of};
ghost use Rattle.rb_rpc.specs.Saved.{field_saved_as, stage_of, stage_saved_as};

use crate::call::Credential;
use crate::opaque_auth::{AUTH_NONE, AUTH_SYS};
use crate::stage::{CallWords, Claim, Stage, claim_of, stage_behind};
use crate::sys_fields::SysField;

type StageWords = [u32; 11];

/// A field's number, the uid, and what is left of a name or of gids.
#[tactic(auto, unfolding(crate::specs::Saved::field_saved_as))]
fn field_words(field: SysField) -> (u32, u32, u32)
    ensures { field_saved_as result.0 result.1 result.2 ≡ field }
{
    match field {
        SysField::Stamp => (0, 0, 0),
        SysField::NameLength => (1, 0, 0),
        SysField::Name { left } => (2, 0, left),
        SysField::Uid => (3, 0, 0),
        SysField::Gid { uid } => (4, uid, 0),
        SysField::GidCount { uid } => (5, uid, 0),
        SysField::Gids { uid, left } => (6, uid, left),
        SysField::Whole { uid } => (7, uid, 0),
        SysField::Unreadable => (8, 0, 0),
    }
}

#[tactic(auto, unfolding(crate::specs::Saved::field_saved_as))]
fn field_saved_as(number: u32, uid: u32, left: u32) -> SysField
    ensures { result ≡ field_saved_as number uid left }
{
    match number {
        0 => SysField::Stamp,
        1 => SysField::NameLength,
        2 => SysField::Name { left },
        3 => SysField::Uid,
        4 => SysField::Gid { uid },
        5 => SysField::GidCount { uid },
        6 => SysField::Gids { uid, left },
        7 => SysField::Whole { uid },
        _ => SysField::Unreadable,
    }
}

/// A flavor and the field after its body that claim as much.
#[tactic(auto, unfolding(crate::specs::Stages::claim_of))]
fn claim_words(claim: Claim) -> (u32, SysField)
    ensures { claim_of result.0 result.1 ≡ claim }
{
    match claim {
        Claim::Taken { cred } => match cred {
            Credential::None => (AUTH_NONE, SysField::Stamp),
            Credential::Sys(uid) => (AUTH_SYS, SysField::Whole { uid }),
        },
        Claim::Unreadable => (AUTH_SYS, SysField::Unreadable),
        Claim::Rejected => (u32::MAX, SysField::Stamp),
    }
}

/// The words of a stage after the procedure's number.
#[tactic(auto, unfolding(crate::specs::Saved::stage_saved_as))]
fn parts(number: u32, call: CallWords, cred: (u32, SysField), len: u32, left: u16) -> StageWords
    ensures { stage_saved_as result ≡ stage_of number call cred.0 len left cred.1 }
{
    let (flavor, field) = cred;
    let (part, uid, more) = field_words(field);
    let left = u32::from(left);
    [
        number, call.xid, call.prog, call.vers, call.proc, flavor, len, left, part, uid, more,
    ]
}

/// The words of a stage.
#[tactic(auto, unfolding(crate::specs::Saved::stage_saved_as, crate::specs::Saved::stage_of, crate::specs::Stages::stage_behind))]
pub(crate) fn stage_words(stage: Stage) -> StageWords
    ensures { stage_saved_as result ≡ stage }
{
    match stage {
        Stage::Xid => [0; 11],
        Stage::MessageType { xid } => [1, xid, 0, 0, 0, 0, 0, 0, 0, 0, 0],
        Stage::RpcVersion { xid } => [2, xid, 0, 0, 0, 0, 0, 0, 0, 0, 0],
        Stage::Prog { xid } => [3, xid, 0, 0, 0, 0, 0, 0, 0, 0, 0],
        Stage::Vers { xid, prog } => [4, xid, prog, 0, 0, 0, 0, 0, 0, 0, 0],
        Stage::Proc { xid, prog, vers } => [5, xid, prog, vers, 0, 0, 0, 0, 0, 0, 0],
        Stage::CredentialFlavor { call } => parts(6, call, (0, SysField::Stamp), 0, 0),
        Stage::CredentialLength { call, flavor } => parts(7, call, (flavor, SysField::Stamp), 0, 0),
        Stage::CredentialBody {
            call,
            flavor,
            len,
            left,
            field,
        } => { parts(8, call, (flavor, field), u32::from(len), left) }
        Stage::VerifierFlavor { call, claim, len } => {
            parts(9, call, claim_words(claim), u32::from(len), 0)
        }
        Stage::VerifierLength { call, claim, len } => {
            parts(10, call, claim_words(claim), u32::from(len), 0)
        }
        Stage::VerifierBody {
            call,
            claim,
            place,
            left,
        } => { parts(11, call, claim_words(claim), place, left) }
        Stage::Arguments { head, place } => {
            let call = CallWords {
                xid: head.xid,
                prog: head.prog,
                vers: head.vers,
                proc: head.proc,
            };
            let claim = Claim::Taken { cred: head.cred };
            parts(12, call, claim_words(claim), place, 0)
        }
        Stage::NoCall => [13, 0, 0, 0, 0, 0, 0, 0, 0, 0, 0],
        Stage::RpcMismatch { xid } => [14, xid, 0, 0, 0, 0, 0, 0, 0, 0, 0],
        Stage::BadCredential { xid } => [15, xid, 0, 0, 0, 0, 0, 0, 0, 0, 0],
        Stage::RejectedCredential { xid } => [16, xid, 0, 0, 0, 0, 0, 0, 0, 0, 0],
        Stage::BadVerifier { xid } => [17, xid, 0, 0, 0, 0, 0, 0, 0, 0, 0],
    }
}

/// The stage that was saved as these words; of other words some stage.
#[tactic(auto, unfolding(crate::specs::Saved::stage_saved_as, crate::specs::Saved::stage_of))]
pub(crate) fn stage_saved_as(words: &[u32]) -> Stage
    requires { length words.now ≡ 11 }
    ensures { result ≡ stage_saved_as words.now }
{
    let [number, xid, prog, vers, proc] = [words[0], words[1], words[2], words[3], words[4]];
    let [flavor, place] = [words[5], words[6]];
    let call = CallWords {
        xid,
        prog,
        vers,
        proc,
    };
    let field = field_saved_as(words[8], words[9], words[10]);
    let claim = claim_of(flavor, field);
    let len = (place % 65536) as u16;
    let left = (words[7] % 65536) as u16;
    match number {
        0 => Stage::Xid,
        1 => Stage::MessageType { xid },
        2 => Stage::RpcVersion { xid },
        3 => Stage::Prog { xid },
        4 => Stage::Vers { xid, prog },
        5 => Stage::Proc { xid, prog, vers },
        6 => Stage::CredentialFlavor { call },
        7 => Stage::CredentialLength { call, flavor },
        8 => Stage::CredentialBody {
            call,
            flavor,
            len,
            left,
            field,
        },
        9 => Stage::VerifierFlavor { call, claim, len },
        10 => Stage::VerifierLength { call, claim, len },
        11 => Stage::VerifierBody {
            call,
            claim,
            place,
            left,
        },
        12 => stage_behind(call, claim, place),
        14 => Stage::RpcMismatch { xid },
        15 => Stage::BadCredential { xid },
        16 => Stage::RejectedCredential { xid },
        17 => Stage::BadVerifier { xid },
        _ => Stage::NoCall,
    }
}
