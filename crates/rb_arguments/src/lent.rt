//! Arguments whose texts stay in the bytes that they were read from: no text is copied, and a call is a few words.
ghost use Rattle.std.specs.Prelude.{◌≡◌, ◌≤◌, length, IfOk};
ghost use Rattle.rb_xdr.specs.Xdr.{IsContent, read_opaque};
ghost use Rattle.rb_arguments.specs.Types.{read_rpcb, read_netbuf};

use crate::rpcb::Rpcb;
use rb_xdr::{Text, Xdr, XdrFault, take_opaque};
use std::marker::Model;

/// The content of a string or of opaque data of at most `N` bytes.
#[derive(Drop)]
pub struct LentText<'a, const N: usize> {
    content: &'a [u8],
}

impl<'a, const N: usize> Model for LentText<'a, N> {
    ghost use Rattle.std.specs.Prelude.{ℕ, List};
    ghost use Rattle.rb_xdr.specs.Xdr.{IsContent};

    ghost Value = { List ℕ };

    ghost view = { λ text. text.content.now };

    ghost invariant = { λ text. IsContent N text.content.now };
}

impl<'a, const N: usize> LentText<'a, N> {
    /// The content in front of the bytes, and how many of them spell it.
    pub(crate) fn read(bytes: &'a [u8]) -> Result<(LentText<'a, N>, usize), XdrFault>
        ensures exact { result ≡ read_opaque N bytes.now }
        ensures within { IfOk result (λ read. read.1 ≤ length bytes.now) }
    {
        let (content, used) = take_opaque(bytes, N)?;
        Ok((LentText { content }, used))
    }

    /// The bytes.
    pub fn as_slice(&self) -> &'a [u8]
        ensures bytes { result.now ≡ self.now }
        ensures content { IsContent N self.now }
    {
        self.content
    }

    /// A copy of it.
    fn to_owned(&self) -> Text<N>
        ensures { result ≡ self.now }
    {
        Text::new(self.as_slice())
    }
}

/// An rpcb (RFC 1833 section 2.1).
#[derive(Drop)]
pub struct LentRpcb<'a> {
    prog: u32,
    vers: u32,
    netid: LentText<'a, 32>,
    addr: LentText<'a, 128>,
    owner: LentText<'a, 128>,
}

impl<'a> Model for LentRpcb<'a> {
    ghost use Rattle.rb_arguments.specs.declared.rpcb.Rpcb.{Rpcb};

    ghost Value = { Rpcb };

    ghost view = { λ r. record { prog = r.prog; vers = r.vers; netid = r.netid; addr = r.addr; owner = r.owner } };
}

impl<'a> LentRpcb<'a> {
    /// The rpcb in front of the bytes, and how many of them spell it. It is not inlined: a call without texts was measured
    /// to be faster so.
    #[inline(never)]
    #[tactic(auto, unfolding(crate::specs::Types::read_rpcb))]
    pub(crate) fn read(bytes: &'a [u8]) -> Result<(LentRpcb<'a>, usize), XdrFault>
        ensures exact { result ≡ read_rpcb bytes.now }
        ensures within { IfOk result (λ read. read.1 ≤ length bytes.now) }
    {
        let (prog, first) = u32::read(bytes)?;
        let bytes = &bytes[first..];
        let (vers, second) = u32::read(bytes)?;
        let bytes = &bytes[second..];
        let (netid, third) = LentText::read(bytes)?;
        let bytes = &bytes[third..];
        let (addr, fourth) = LentText::read(bytes)?;
        let bytes = &bytes[fourth..];
        let (owner, fifth) = LentText::read(bytes)?;
        let used = first + (second + (third + (fourth + fifth)));
        Ok((
            LentRpcb {
                prog,
                vers,
                netid,
                addr,
                owner,
            },
            used,
        ))
    }

    /// The same with copies of its texts.
    pub(crate) fn to_owned(&self) -> Rpcb
        ensures { result ≡ self.now }
    {
        Rpcb {
            prog: self.prog,
            vers: self.vers,
            netid: self.netid.to_owned(),
            addr: self.addr.to_owned(),
            owner: self.owner.to_owned(),
        }
    }

    /// The program's number.
    pub fn prog(&self) -> u32
        ensures { result ≡ self.now.prog }
    {
        self.prog
    }

    /// The program's version.
    pub fn vers(&self) -> u32
        ensures { result ≡ self.now.vers }
    {
        self.vers
    }

    /// The name of the netid, of at most 32 bytes.
    pub fn netid(&self) -> &'a [u8]
        ensures { result.now ≡ self.now.netid }
    {
        self.netid.as_slice()
    }

    /// The text of the address, of at most 128 bytes.
    pub fn addr(&self) -> &'a [u8]
        ensures bytes { result.now ≡ self.now.addr }
        ensures content { IsContent 128 self.now.addr }
    {
        self.addr.as_slice()
    }
}

/// A netbuf (RFC 1833 section 2.1).
#[derive(Drop)]
pub struct LentNetbuf<'a> {
    maxlen: u32,
    buf: LentText<'a, 128>,
}

impl<'a> Model for LentNetbuf<'a> {
    ghost use Rattle.rb_arguments.specs.declared.netbuf.Netbuf.{Netbuf};

    ghost Value = { Netbuf };

    ghost view = { λ n. record { maxlen = n.maxlen; buf = n.buf } };
}

impl<'a> LentNetbuf<'a> {
    /// The netbuf in front of the bytes, and how many of them spell it. It is not inlined, as that of an rpcb.
    #[inline(never)]
    #[tactic(auto, unfolding(crate::specs::Types::read_netbuf))]
    pub(crate) fn read(bytes: &'a [u8]) -> Result<(LentNetbuf<'a>, usize), XdrFault>
        ensures { result ≡ read_netbuf bytes.now }
    {
        let (maxlen, first) = u32::read(bytes)?;
        let (buf, second) = LentText::read(&bytes[first..])?;
        Ok((LentNetbuf { maxlen, buf }, first + second))
    }

    /// The bytes of the transport form, of which there are at most 128.
    pub fn buf(&self) -> &'a [u8]
        ensures { result.now ≡ self.now.buf }
    {
        self.buf.as_slice()
    }
}
