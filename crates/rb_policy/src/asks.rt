//! Which calls over TCP from this machine wait until it is known whose they are.
ghost use Rattle.std.specs.Prelude.{◌≡◌, ◌≤◌, ◌+◌, length};
ghost use Rattle.rb_xdr.specs.Xdr.{number_at};
ghost use Rattle.rb_policy.specs.Asks.{may_change, has_short_fragment, changes, held_in};

use rb_rpc::one_fragment;

/// The bytes of a record from which on it is known what it calls: the mark of its first fragment and six words, of which
/// the fourth is the program and the sixth the procedure (RFC 5531 sections 9 and 11).
pub const CALL: usize = 28;

/// The program of rpcbind.
const RPCBIND: u32 = 100_000;

/// What is held back of a call until it is known whose it is.
#[derive(Clone, Copy, PartialEq, Eq)]
pub enum Held {
    /// Nothing.
    Nothing,
    /// A part: its client has yet to send the rest.
    Part,
    /// All of it: its client waits.
    Whole,
}

/// How much of a call is held back, of whose record these bytes came. One that is cut into fragments counts as a part.
pub fn held_in(front: &[u8]) -> Held
    ensures { result ≡ held_in front.now }
{
    match one_fragment(front) {
        Some(_) => Held::Whole,
        None => Held::Part,
    }
}

/// Whether a record that begins with these bytes may be a call whose answer depends on whose it is, or they don't tell yet:
/// a SET or an UNSET of some version, or a call to be forwarded.
pub fn may_change(front: &[u8]) -> bool
    ensures { result ≡ may_change front.now }
{
    if front.len() < CALL || has_short_fragment(front) {
        return true;
    }
    number_at(front, 16) == RPCBIND && changes(number_at(front, 24))
}

/// Whether the first fragment ends before the procedure.
fn has_short_fragment(front: &[u8]) -> bool
    requires { 4 ≤ length front.now }
    ensures { result ≡ has_short_fragment front.now }
{
    number_at(front, 0) % 0x8000_0000 < 24
}

/// The number that the four bytes from a place spell.
#[tactic(auto, unfolding(rb_xdr::specs::Xdr::number_at))]
fn number_at(front: &[u8], place: usize) -> u32
    requires { place + 4 ≤ length front.now }
    ensures { result ≡ number_at place front.now }
{
    let (_, rest) = front.split_at(place);
    let (number, _) = rest.split_at(4);
    u32::from_be_bytes([number[0], number[1], number[2], number[3]])
}

/// Whether a procedure of this number changes rows in a version: SET and UNSET, or forwards a call in one: CALLIT and
/// BCAST, and INDIRECT.
fn changes(procedure: u32) -> bool
    ensures { result ≡ changes procedure }
{
    matches!(procedure, 1 | 2 | 5 | 10)
}
