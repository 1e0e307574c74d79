//! The body of an AUTH_SYS credential (RFC 5531 appendix A).
ghost use Rattle.std.specs.Prelude.{◌≡◌, is_ok};
ghost use Rattle.std.specs.Result.{result_ok};
ghost use Rattle.rb_xdr.specs.Xdr.{read_array};
ghost use Rattle.rb_rpc.specs.Messages.{max_gids, body_of_sys, uid_of};

use rb_xdr::{Xdr, XdrFault, take_opaque};

/// The greatest machinename of AUTH_SYS, in bytes (RFC 5531 appendix A).
pub const MAX_MACHINE: u32 = 255;

/// The most gids of AUTH_SYS beside its own (RFC 5531 appendix A).
pub const MAX_GIDS: u32 = 16;

/// Whether there is an array of at most 16 numbers.
fn has_gids(bytes: &[u8]) -> bool
    ensures { result ≡ is_ok (read_array max_gids bytes.now) }
{
    match u32::take(bytes) {
        Ok((count, used)) => count <= MAX_GIDS && bytes.len() - used >= 4 * count as usize,
        Err(_) => false,
    }
}

/// The uid that the body says. What follows its fields counts for nothing.
pub(crate) fn uid_of(body: &[u8]) -> Result<u32, XdrFault>
    ensures { result_ok result ≡ uid_of (body_of_sys body.now) }
{
    let (_stamp, used) = u32::take(body)?;
    let (_, body) = body.split_at(used);
    let (_machine, used) = take_opaque(body, MAX_MACHINE as usize)?;
    let (_, body) = body.split_at(used);
    let (uid, used) = u32::take(body)?;
    let (_, body) = body.split_at(used);
    let (_gid, used) = u32::take(body)?;
    let (_, body) = body.split_at(used);
    if !has_gids(body) {
        return Err(XdrFault::Short);
    }
    Ok(uid)
}
