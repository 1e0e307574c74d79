//! How long a reply may be.
ghost use Rattle.std.specs.Prelude.{◌≡◌, ◌≤◌};
ghost use Rattle.rb_model.specs.Calls.{longest_reply, longest_for};
ghost use Rattle.rb_model.specs.Step.{longest_to};

use rb_address::{Caller, Who};
use rb_model::LONGEST_REPLY;
use rb_proto::{Terms, is_stranger};

/// The length of a reply without results, in bytes, which each call may be answered with (RFC 5531 section 9).
const SHORTEST_REPLY: usize = 24;

/// The most bytes of the reply to a datagram of this many: to a stranger at most twice as many, if replies over UDP are
/// held to that, so that no more is sent to a host whose address was forged. Else 9,000.
#[tactic(auto, unfolding(rb_model::specs::Step::longest_to, rb_model::specs::Calls::longest_reply))]
pub fn longest_to(terms: &Terms, who: &Who, count: usize) -> usize
    ensures { result ≡ longest_to terms.now who.now count }
{
    if terms.long_replies || !is_stranger(who) {
        LONGEST_REPLY
    } else {
        (2 * count.min(LONGEST_REPLY)).min(LONGEST_REPLY)
    }
}

/// The most bytes of a reply to this caller, but for a list that is streamed.
#[tactic(auto, unfolding(rb_model::specs::Calls::longest_reply))]
pub(crate) fn longest_for(caller: &Caller) -> usize
    ensures value { result ≡ longest_for caller.now }
    ensures most { result ≤ longest_reply }
{
    match caller {
        Caller::Tcp(_, _) => LONGEST_REPLY,
        Caller::Udp(_, longest) => SHORTEST_REPLY.max(*longest).min(LONGEST_REPLY),
    }
}
