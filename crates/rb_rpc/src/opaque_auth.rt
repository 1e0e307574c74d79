//! Credentials and verifiers at a place: a flavor, a length word, a body and its residual bytes
//! (RFC 5531 section 8.2).
ghost use Rattle.std.specs.Prelude.{◌≡◌, ◌+◌, ◌^◌, ◌<◌, ◌≤◌, length, take, drop, not, IsTrue, option_copied};
ghost use Rattle.rb_rpc.specs.Verdict.{body_length, auth_end, is_over_long, is_broken};

use crate::integers::number_at;
use rb_xdr::{are_zero, residue};

/// The flavor of no authentication (RFC 5531 section 8.2).
pub const AUTH_NONE: u32 = 0;

/// The flavor whose body says the caller's uid (RFC 5531 section 8.2 and appendix A).
pub const AUTH_SYS: u32 = 1;

/// The greatest body of a credential or verifier, in bytes (RFC 5531 section 8.2).
pub const MAX_AUTH_BODY: u32 = 400;

/// What the length word says.
#[tactic(auto, unfolding(crate::specs::Verdict::body_length))]
pub(crate) fn body_length(bytes: &[u8], place: usize) -> usize
    requires { place + 8 ≤ length bytes.now }
    ensures length { result ≡ body_length place bytes.now }
    ensures fits { result < 2 ^ 32 }
{
    number_at(bytes, place + 4) as usize
}

/// Where the residual bytes end, as the length word says.
#[tactic(auto, unfolding(crate::specs::Verdict::auth_end))]
pub(crate) fn auth_end(bytes: &[u8], place: usize) -> usize
    requires { place + 8 ≤ length bytes.now }
    ensures { result ≡ auth_end place bytes.now }
{
    let body = body_length(bytes, place);
    place + 8 + body + residue(body)
}

/// The length word is there, and says more than 400.
#[tactic(auto, unfolding(crate::specs::Verdict::is_over_long))]
pub(crate) fn is_over_long(bytes: &[u8], place: usize) -> bool
    requires { place ≤ length bytes.now }
    ensures { result ≡ is_over_long place bytes.now }
{
    bytes.len() >= place + 8 && body_length(bytes, place) > MAX_AUTH_BODY as usize
}

/// Something is cut short, or a residual byte isn't zero.
#[tactic(auto, unfolding(crate::specs::Verdict::is_broken, crate::specs::Verdict::auth_end))]
pub(crate) fn is_broken(bytes: &[u8], place: usize) -> bool
    requires { place ≤ length bytes.now }
    ensures broken { result ≡ is_broken place bytes.now }
    ensures whole { IsTrue (not result) → auth_end place bytes.now ≤ length bytes.now }
    ensures header { IsTrue (not result) → place + 8 ≤ length bytes.now }
{
    if bytes.len() < place + 8 {
        return true;
    }
    let end = auth_end(bytes, place);
    let body_end = place + 8 + body_length(bytes, place);
    bytes.len() < end || !are_zero(&bytes[body_end..end])
}
