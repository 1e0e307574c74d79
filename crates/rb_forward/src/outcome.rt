//! What the datagram of a target says.
ghost use Rattle.std.specs.Prelude.{◌≡◌, ◌≤◌, length, nat_le, if◌then◌else◌, Some, None};
ghost use Rattle.rb_xdr.specs.Xdr.{word};
ghost use Rattle.rb_forward.specs.Forwards.{outcome_of};
ghost use Rattle.rb_forward.specs.Outcomes.{PassesWithin};

use crate::types::ForwardEnd;
use rb_rpc::{ReplyStatus, read_reply};

/// The most bytes of results that are passed on to a caller: `res` of RFC 1833 section 2.1 and `results` of section
/// 3.1.
pub const LONGEST_RESULTS: usize = 8_800;

/// The xid of a datagram, unless it has fewer than 4 bytes.
#[tactic(auto, unfolding(rb_xdr::specs::Xdr::number_at))]
pub(crate) fn xid_of(bytes: &[u8]) -> Option<u32>
    ensures { result ≡ (if nat_le 4 (length bytes.now) then Some (word 0 bytes.now) else None) }
{
    if bytes.len() < 4 {
        return None;
    }
    Some(u32::from_be_bytes([bytes[0], bytes[1], bytes[2], bytes[3]]))
}

/// How the call ends whose reply this is.
#[tactic(auto, unfolding(crate::specs::Forwards::outcome_of, crate::specs::Forwards::longest_results))]
pub(crate) fn outcome_of(bytes: &[u8]) -> ForwardEnd
    ensures outcome { result ≡ outcome_of bytes.now }
    ensures within { PassesWithin result (length bytes.now) }
{
    let Ok((head, place)) = read_reply(bytes) else {
        return ForwardEnd::Failed;
    };
    match head.status {
        ReplyStatus::Success => {
            if bytes.len() - place <= LONGEST_RESULTS {
                ForwardEnd::Passed(place)
            } else {
                ForwardEnd::Failed
            }
        }
        ReplyStatus::RpcMismatch(..) | ReplyStatus::AuthError(_) => ForwardEnd::Failed,
        ReplyStatus::ProgUnavail
        | ReplyStatus::ProgMismatch(..)
        | ReplyStatus::ProcUnavail
        | ReplyStatus::GarbageArgs
        | ReplyStatus::SystemErr => ForwardEnd::Refused(head.status),
    }
}
