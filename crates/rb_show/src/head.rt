//! The head of a reply (RFC 5531 section 9).
ghost use Rattle.std.specs.Prelude.{◌≡◌, ◌<◌, IfOk};
ghost use Rattle.rb_show.specs.Heads.{may_begin, take_head};
ghost use Rattle.rb_show.specs.Fronts.{TakesOr};

use crate::fault::InfoFault;
use crate::take::Pause;
use rb_rpc::{ReplyHead, read_reply};

/// The bytes of the longest head: three words, a verifier with a body of 400 bytes, accept_stat and two versions.
const LONGEST_HEAD: usize = 432;

/// Whether a head may begin with these bytes, in which none can be read: one of its first three words is not there yet,
/// or they are one with zeros for the words that are not.
#[tactic(auto, unfolding(crate::specs::Heads::may_begin))]
fn may_begin(bytes: &[u8]) -> bool
    ensures { result ≡ may_begin bytes.now }
{
    if bytes.len() < 12 {
        return true;
    }
    let count = 4 * (bytes.len() / 4).min(LONGEST_HEAD / 4);
    let mut filled = [0; LONGEST_HEAD];
    filled[..count].copy_from_slice(&bytes[..count]);
    read_reply(&filled).is_ok()
}

/// Takes the head of a reply from the front of the data.
pub(crate) fn take_head(bytes: &[u8]) -> Result<(ReplyHead, usize), Pause>
    ensures takes { TakesOr take_head bytes.now result }
    ensures some { IfOk result (λ taken. 0 < taken.1) }
{
    match read_reply(bytes) {
        Ok(read) => Ok(read),
        Err(_) => {
            if may_begin(bytes) {
                Err(Pause::More)
            } else {
                Err(Pause::Fault(InfoFault::Unreadable))
            }
        }
    }
}
