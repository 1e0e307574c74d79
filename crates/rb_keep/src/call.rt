//! The calls that set a row again and remove it: a SET and an UNSET of version 4 in the name of its owner (RFC 1833
//! section 2.2.1).
ghost use Rattle.std.specs.Prelude.{◌≡◌, ◌+◌, ◌*◌, ◌≤◌, [], ◌++◌, length};
ghost use Rattle.rb_xdr.specs.Xdr.{words, opaque};
ghost use Rattle.rb_rpc.specs.CallBytes.{call_bytes};
ghost use Rattle.rb_model.specs.ChangeLaws.{this_machine, set_bytes};
ghost use Rattle.rb_keep.specs.Kept.{opaque_length, head_by, unset_bytes};

use arrayvec::ArrayVec;
use rb_address::{Host, Netid, Owner, Peer, Source, Trust, Who};
use rb_registry::{RPCB_PROG, Row};
use rb_xdr::residue;

/// The length in bytes of the longest call that sets a row: a head with AUTH_SYS has 60, two numbers 8, the name of a
/// netid at most 12, an address of 128 bytes 132, and no owner 4.
pub const LONGEST_SET: usize = 216;

/// The procedures of version 4 (RFC 1833 section 2.1).
pub(crate) const SET: u32 = 1;

pub(crate) const UNSET: u32 = 2;

/// Who such a call comes from: port 0 of 127.0.0.1, with nothing but its own word.
#[tactic(auto, unfolding(rb_address::specs::Hosts::plain_host))]
pub fn this_machine() -> Who
    ensures { result ≡ this_machine }
{
    Who {
        source: Source::Inet(Peer::new(Host::V4([127, 0, 0, 1]), 0)),
        asked: Host::V4([0; 4]),
        trust: Trust::Claims,
    }
}

/// Adds bytes.
fn put_bytes(bytes: &[u8], call: &mut ArrayVec<u8, LONGEST_SET>)
    requires { length call.old.items + length bytes.now ≤ 216 }
    ensures { call.new.items ≡ call.old.items ++ bytes.now }
{
    let Ok(()) = call.try_extend_from_slice(bytes) else {
        unreachable!()
    };
}

/// Adds numbers, one after the other (RFC 4506 section 4.1).
fn put_words(numbers: &[u32], call: &mut ArrayVec<u8, LONGEST_SET>)
    requires { length call.old.items + 4 * length numbers.now ≤ 216 }
    ensures words { call.new.items ≡ call.old.items ++ words numbers.now }
    ensures count { length call.new.items ≡ length call.old.items + 4 * length numbers.now }
{
    for number in numbers {
        put_bytes(&number.to_be_bytes(), call);
    }
}

/// Adds opaque data: its length, the content, and zeros up to a multiple of four bytes (RFC 4506 section 4.10).
fn put_opaque(content: &[u8], call: &mut ArrayVec<u8, LONGEST_SET>)
    requires { length call.old.items + opaque_length content.now ≤ 216 }
    ensures opaque { call.new.items ≡ call.old.items ++ opaque content.now }
    ensures count { length call.new.items ≡ length call.old.items + opaque_length content.now }
{
    put_words(&[content.len() as u32], call);
    put_bytes(content, call);
    put_bytes(&[0; 3][..residue(content.len())], call);
}

/// Adds the head: a call of a procedure of the portmapper in version 4, by AUTH_SYS of the owner, or by AUTH_NONE if
/// none is known (RFC 5531 sections 9 and 10.1, appendix A).
#[tactic(auto, unfolding(rb_rpc::specs::CallBytes::call_bytes, rb_xdr::specs::Xdr::number, rb_xdr::specs::Xdr::opaque))]
fn put_head(proc: u32, owner: Owner, call: &mut ArrayVec<u8, LONGEST_SET>)
    requires { call.old.items ≡ [] }
    ensures head { call.new.items ≡ call_bytes (head_by proc owner) }
    ensures count { length call.new.items ≤ 60 }
{
    match owner {
        Owner::Unknown => put_words(&[0, 0, 2, RPCB_PROG, 4, proc, 0, 0, 0, 0], call),
        Owner::Uid(uid) => put_words(
            &[0, 0, 2, RPCB_PROG, 4, proc, 1, 20, 0, 0, uid, 0, 0, 0, 0],
            call,
        ),
    }
}

/// The bytes of the call that sets the row again, in the name of its owner.
pub fn set_call(row: &Row) -> ArrayVec<u8, LONGEST_SET>
    ensures { result.items ≡ set_bytes row.now }
{
    let mut call = ArrayVec::new();
    put_head(SET, row.owner, &mut call);
    put_words(&[row.prog, row.vers], &mut call);
    put_opaque(row.netid.text().as_bytes(), &mut call);
    put_opaque(row.addr.as_slice(), &mut call);
    put_opaque(b"", &mut call);
    call
}

/// The bytes of the call that removes the row alone, in the name of its owner.
pub fn unset_call(row: &Row) -> ArrayVec<u8, LONGEST_SET>
    ensures { result.items ≡ unset_bytes row.now }
{
    let mut call = ArrayVec::new();
    put_head(UNSET, row.owner, &mut call);
    put_words(&[row.prog, row.vers], &mut call);
    put_opaque(row.netid.text().as_bytes(), &mut call);
    put_opaque(b"", &mut call);
    put_opaque(b"", &mut call);
    call
}
