//! Opaque data (RFC 4506, section 4.10).
ghost use Rattle.std.specs.Prelude.{◌≡◌, ℕ, ◌+◌, ◌-◌, ◌^◌, ◌<◌, ◌≤◌, List, length, replicate, IfOk, IfErr, OnErr, Result, Ok};
ghost use Rattle.rb_xdr.specs.Forms.{FirstFault};
ghost use Rattle.rb_xdr.specs.Forms.Form.{Content};
ghost use Rattle.rb_xdr.specs.Xdr.{IsContent, opaque, residue, are_zero, read_content, read_opaque, max_opaque};
ghost use Rattle.rb_xdr.specs.XdrLaws.{BeginsWith, IsOnlyRead, BeginsWithNone};
ghost use Rattle.rb_xdr.specs.XdrLends.{reading_of};
ghost use Rattle.rb_xdr.specs.Puts.{Appends, HasRoom};
ghost use Rattle.rb_xdr.specs.Meter.{Pays};

use crate::fault::XdrFault;
use crate::kept::Kept;
use crate::meter::Meter;
use crate::xdr::Xdr;
use arrayvec::ArrayVec;
use std::alloc::AllocError;
use std::fmt;
use std::marker::Model;

/// How many residual bytes follow `count` bytes of opaque data, so that both together are a multiple of four (RFC
/// 4506 section 3): 0 to 3.
pub fn residue(count: usize) -> usize
    ensures { result ≡ residue count }
{
    (4 - count % 4) % 4
}

/// Writes the residual bytes after this much content: each number of them by itself, as a copy of a length that is
/// known. Their steps are for the caller to pay.
#[tactic(auto, using(crate::proofs::XdrSets::lengths))]
fn append_residue(count: usize, out: &mut Kept)
    requires room { HasRoom (replicate (residue count) 0) out.old }
    ensures written { Appends (replicate (residue count) 0) out.old out.new }
{
    match residue(count) {
        0 => {}
        1 => out.append(&[0]),
        2 => out.append(&[0, 0]),
        _ => out.append(&[0, 0, 0]),
    }
}

/// Whether each of the bytes is zero, as residual bytes have to be (RFC 4506 section 3).
pub fn are_zero(bytes: &[u8]) -> bool
    ensures { result ≡ are_zero bytes.now }
{
    bytes.iter().all(|byte| *byte == 0)
}

// This much content and its residual bytes.
#[tactic(auto, unfolding(crate::specs::Xdr::read_content))]
fn take_content(bytes: &[u8], count: usize) -> Result<(&[u8], usize), XdrFault>
    requires { count < 2 ^ 32 }
    ensures exact { reading_of result ≡ read_content count bytes.now }
    ensures within { IfOk result (λ read. read.1 ≤ length bytes.now) }
{
    let padded = count + residue(count);
    if bytes.len() < padded {
        return Err(XdrFault::Short);
    }
    if !are_zero(&bytes[count..padded]) {
        return Err(XdrFault::BadPadding);
    }
    Ok((&bytes[..count], padded))
}

// Opaque data of at most this many bytes.
#[tactic(auto, unfolding(crate::specs::Xdr::read_opaque))]
fn lend_opaque(bytes: &[u8], limit: usize) -> Result<(&[u8], usize), XdrFault>
    ensures { reading_of result ≡ read_opaque limit bytes.now }
{
    let (count, used) = u32::read(bytes)?;
    if count as usize > limit {
        return Err(XdrFault::TooLong);
    }
    let (content, more) = take_content(&bytes[used..], count as usize)?;
    Ok((content, used + more))
}

/// Lends the content of opaque data or of a string of at most `limit` bytes, from the front of the
/// bytes, and says how many of them spell it.
///
/// A count that is cut short is Short, one over the limit TooLong; then content or residual bytes
/// that are missing are Short, and a residual byte that is not zero is BadPadding.
pub fn take_opaque(bytes: &[u8], limit: usize) -> Result<(&[u8], usize), XdrFault>
    ensures found { IfOk (reading_of result) (BeginsWith (IsContent limit) opaque bytes.now) }
    ensures only { IsOnlyRead (IsContent limit) opaque bytes.now (reading_of result) }
    ensures none { OnErr result (BeginsWithNone (IsContent limit) opaque bytes.now) }
    ensures fault { IfErr result (FirstFault (Content limit) bytes.now) }
    ensures exact { reading_of result ≡ read_opaque limit bytes.now }
{
    lend_opaque(bytes, limit)
}

/// Adds the spelling of this content, as opaque data or as a string (RFC 4506, sections 4.10 and 4.11),
/// at the end of a buffer that has room for it, in as many steps as the spelling has bytes.
#[tactic(auto, using(crate::proofs::XdrSets::lengths), unfolding(crate::specs::Xdr::opaque, crate::specs::Xdr::number))]
pub fn write_opaque(content: &[u8], out: &mut Kept, meter: &mut Meter)
    requires tie { meter.old.tie ≡ out.old.tie }
    requires count { length content.now < 2 ^ 32 }
    requires room { HasRoom (opaque content.now) out.old }
    ensures written { Appends (opaque content.now) out.old out.new }
    ensures cost { Pays meter.old meter.new (length (opaque content.now)) }
{
    let count = content.len();
    meter.pay((4 + count + residue(count)) as u64);
    out.append(&(count as u32).to_be_bytes());
    out.append(content);
    append_residue(count, out);
}

/// Opaque data (RFC 4506 section 4.10): bytes, at most `N` of them and fewer than 2^32.
#[derive(Drop)]
pub struct Opaque<const N: usize> {
    bytes: ArrayVec<u8, N>,
}

impl<const N: usize> Model for Opaque<N> {
    ghost use Rattle.std.specs.Prelude.{List, ℕ};
    ghost use Rattle.rb_xdr.specs.Xdr.{IsContent};

    ghost Value = { List ℕ };

    ghost view = { λ o. o.bytes.items };

    ghost invariant = { λ o. IsContent N o.bytes.items };
}

impl<const N: usize> Opaque<N> {
    /// A copy of these bytes, of which there are at most `N` and fewer than 2^32.
    pub fn new(bytes: &[u8]) -> Opaque<N>
        requires limit { length bytes.now ≤ N }
        requires count { length bytes.now < 2 ^ 32 }
        ensures { result ≡ bytes.now }
    {
        let mut kept = ArrayVec::new();
        match kept.try_extend_from_slice(bytes) {
            Ok(()) => Opaque { bytes: kept },
            Err(_) => unreachable!(),
        }
    }

    /// The bytes.
    pub fn as_slice(&self) -> &[u8]
        ensures bytes { result.now ≡ self.now }
        ensures content { IsContent N self.now }
    {
        self.bytes.as_slice()
    }
}

impl<const N: usize> Xdr for Opaque<N> {
    ghost is_value = { IsContent N };

    ghost spelling = { opaque };

    ghost max_spelling = { max_opaque N };

    ghost reads = { read_opaque N };

    ghost form = { Content N };

    fn laws() {}

    #[tactic(auto, using(crate::proofs::XdrSets::lengths))]
    fn room_after(&self, room: usize) -> Option<usize> {
        let count = self.as_slice().len();
        room.checked_sub(4)?
            .checked_sub(count)?
            .checked_sub(residue(count))
    }

    fn write(&self, out: &mut Kept, meter: &mut Meter) {
        write_opaque(self.as_slice(), out, meter);
    }

    fn read(bytes: &[u8]) -> Result<(Self, usize), XdrFault> {
        let (content, used) = take_opaque(bytes, N)?;
        Ok((Opaque::new(content), used))
    }
}

impl<const N: usize> PartialEq for Opaque<N> {
    ghost use Rattle.std.specs.Str.{bytes_eq};
    ghost use Rattle.std.proofs.Common.{rules};
    ghost use Rattle.std.specs.Cmp.Rules.{comparing};

    ghost eq = { bytes_eq };

    ghost laws = { Prim.search (comparing, rules) };

    fn eq(&self, other: &Opaque<N>) -> bool {
        self.as_slice() == other.as_slice()
    }
}

impl<const N: usize> Eq for Opaque<N> {
    ghost use Rattle.std.proofs.Common.{rules};
    ghost use Rattle.std.specs.Cmp.Rules.{comparing};

    ghost laws = { Prim.search (comparing, rules) };
}

impl<const N: usize> Clone for Opaque<N> {
    ghost use Rattle.std.specs.Prelude.{⊤, ◌≡◌};

    ghost is_clone = { λ x y. y ≡ x };

    ghost is_infallible = { λ _. ⊤ };

    fn clone(&self) -> Result<Opaque<N>, AllocError> {
        Ok(Opaque::new(self.as_slice()))
    }
}

impl<const N: usize> fmt::Debug for Opaque<N> {
    fn fmt<W: fmt::Write>(&self, f: &mut fmt::Formatter<W>) -> fmt::Result {
        f.debug_list().entries(self.as_slice()).finish()
    }
}
