//! Texts that are kept as they were given, beside the address that they spell.
ghost use Rattle.std.specs.Prelude.{◌≡◌, ◌≤◌, length};
ghost use Rattle.rb_uaddr.specs.Uaddr.{parse, parse_ipv4, parse_ipv6, is_local_text, ipv4_alone, ipv6_alone, is_at_any};

use crate::address::{ANY_HOST, ANY_HOST6, Uaddr};
use std::alloc::AllocError;
use std::fmt;
use std::marker::Model;

/// The most bytes that the text of an address has: 39 of an IPv6 host and 8 of the port.
pub const MAX_TEXT: usize = 47;

/// The most bytes of a text that is kept as it was given.
pub const MAX_KEPT: usize = 128;

/// A text as it was given, of at most 128 bytes, beside the universal address that it spells, if it
/// spells one.
#[derive(Drop)]
pub struct AddressText {
    address: Option<Uaddr>,
    len: u8,
    bytes: [u8; MAX_KEPT],
}

impl Model for AddressText {
    ghost use Rattle.std.specs.Prelude.{◌≡◌, ◌≤◌, List, ℕ, take};
    ghost use Rattle.rb_uaddr.specs.Uaddr.{parse};

    ghost Value = { List ℕ };

    ghost view = { λ t. take t.len t.bytes };

    ghost invariant = { λ t. (t.len ≤ 128) × (t.address ≡ parse (take t.len t.bytes)) };
}

/// Names each field, so that a further one does not compile until it stands here. It belongs in the table of
/// charges of crates/rb_core/README.md first.
fn layout(text: &AddressText) {
    let AddressText {
        address,
        len,
        bytes,
    } = text;
    let _: u8 = *len;
    let _: &[u8; MAX_KEPT] = bytes;
    match *address {
        Some(Uaddr::V4(host, port)) => {
            let _: ([u8; 4], u16) = (host, port);
        }
        Some(Uaddr::V6(host, port)) => {
            let _: ([u8; 16], u16) = (host, port);
        }
        None => {}
    }
}

impl AddressText {
    /// The text as it is given, of at most 128 bytes.
    pub fn new(bytes: &[u8]) -> AddressText
        requires { length bytes.now ≤ MAX_KEPT }
        ensures { result ≡ bytes.now }
    {
        AddressText::of(bytes, Uaddr::parse(bytes).ok())
    }

    pub(crate) fn of(bytes: &[u8], address: Option<Uaddr>) -> AddressText
        requires fits { length bytes.now ≤ MAX_KEPT }
        requires address { address ≡ parse bytes.now }
        ensures { result ≡ bytes.now }
    {
        let mut kept = [0; MAX_KEPT];
        kept[..bytes.len()].copy_from_slice(bytes);
        AddressText {
            address,
            len: bytes.len() as u8,
            bytes: kept,
        }
    }

    /// The bytes of the text.
    pub fn as_slice(&self) -> &[u8]
        ensures value { result.now ≡ self.now }
        ensures short { length result.now ≤ MAX_KEPT }
    {
        &self.bytes[..usize::from(self.len)]
    }

    /// The IPv4 address that the text spells, if it spells one (RFC 5665 section 5.2.3.3). It was read once, and is not
    /// read again.
    #[tactic(auto, using(crate::proofs::Families::ipv4_alone_is_read))]
    pub fn ipv4(&self) -> Option<Uaddr>
        ensures { result ≡ parse_ipv4 self.now }
    {
        ipv4_alone(self.address)
    }

    /// The IPv6 address that the text spells, if it spells one (RFC 5665 section 5.2.3.4). It was read once, and is not
    /// read again.
    #[tactic(auto, using(crate::proofs::Families::ipv6_alone_is_read))]
    pub fn ipv6(&self) -> Option<Uaddr>
        ensures { result ≡ parse_ipv6 self.now }
    {
        ipv6_alone(self.address)
    }

    /// Whether the text spells an address at 0.0.0.0 or ::.
    pub fn is_at_any_host(&self) -> bool
        ensures { result ≡ is_at_any (parse self.now) }
    {
        match &self.address {
            Some(Uaddr::V4(host, _)) => *host == ANY_HOST,
            Some(Uaddr::V6(host, _)) => *host == ANY_HOST6,
            None => false,
        }
    }

    /// Whether the text may be the address of a local socket: it has 1 to 128 bytes, and none of them is zero.
    #[tactic(auto, unfolding(crate::specs::Uaddr::is_local_text))]
    pub fn is_local(&self) -> bool
        ensures { result ≡ is_local_text self.now }
    {
        self.len > 0 && !self.as_slice().contains(&0)
    }
}

/// The address, if it is of IPv4.
fn ipv4_alone(address: Option<Uaddr>) -> Option<Uaddr>
    ensures { result ≡ ipv4_alone address }
{
    match address? {
        Uaddr::V4(host, port) => Some(Uaddr::V4(host, port)),
        Uaddr::V6(..) => None,
    }
}

/// The address, if it is of IPv6.
fn ipv6_alone(address: Option<Uaddr>) -> Option<Uaddr>
    ensures { result ≡ ipv6_alone address }
{
    match address? {
        Uaddr::V6(host, port) => Some(Uaddr::V6(host, port)),
        Uaddr::V4(..) => None,
    }
}

impl PartialEq for AddressText {
    ghost use Rattle.std.specs.Str.{bytes_eq};
    ghost use Rattle.std.proofs.Common.{rules};
    ghost use Rattle.std.specs.Cmp.Rules.{comparing};

    ghost eq = { bytes_eq };

    ghost laws = { Prim.search (comparing, rules) };

    fn eq(&self, other: &AddressText) -> bool {
        self.as_slice() == other.as_slice()
    }
}

impl Eq for AddressText {
    ghost use Rattle.std.proofs.Common.{rules};
    ghost use Rattle.std.specs.Cmp.Rules.{comparing};

    ghost laws = { Prim.search (comparing, rules) };
}

impl Clone for AddressText {
    ghost use Rattle.std.specs.Prelude.{⊤, ◌≡◌};

    ghost is_clone = { λ x y. y ≡ x };

    ghost is_infallible = { λ _. ⊤ };

    fn clone(&self) -> Result<AddressText, AllocError> {
        Ok(AddressText::of(self.as_slice(), self.address))
    }
}

impl fmt::Debug for AddressText {
    fn fmt<W: fmt::Write>(&self, f: &mut fmt::Formatter<W>) -> fmt::Result {
        write!(f, "\"{}\"", self.as_slice().escape_ascii())
    }
}
