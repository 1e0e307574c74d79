//! What is known of each netid.
ghost use Rattle.std.specs.Prelude.{◌≡◌, ◌≤◌, ◌∷◌, ◌++◌, length, replicate};
ghost use Rattle.rb_answers.specs.Netids.{which_of, semantics_of, family_text, proto_text, entry_end, address_in, is_address};

use rb_address::Netid;
use rb_registry::Which;
use rb_uaddr::{AddressText, Uaddr};

/// The netids that an UNSET of this name means: all if it is empty.
#[tactic(auto, unfolding(crate::specs::Netids::which_of))]
pub fn which_of(text: &[u8]) -> Option<Which>
    ensures { result ≡ which_of text.now }
{
    if text.is_empty() {
        return Some(Which::All);
    }
    Some(Which::One(Netid::named(text)?))
}

/// Whether calls come in datagrams, 1, or on connections that end in order, 3.
pub fn semantics_of(netid: Netid) -> u32
    ensures { result ≡ semantics_of netid }
{
    match netid {
        Netid::Tcp | Netid::Tcp6 | Netid::Local => 3,
        Netid::Udp | Netid::Udp6 => 1,
    }
}

/// The protocol family.
pub fn family_text(netid: Netid) -> &'static [u8]
    ensures { result.now ≡ family_text netid }
{
    match netid {
        Netid::Tcp | Netid::Udp => b"inet",
        Netid::Tcp6 | Netid::Udp6 => b"inet6",
        Netid::Local => b"loopback",
    }
}

/// The protocol's name.
pub fn proto_text(netid: Netid) -> &'static [u8]
    ensures { result.now ≡ proto_text netid }
{
    match netid {
        Netid::Tcp | Netid::Tcp6 => b"tcp",
        Netid::Udp | Netid::Udp6 => b"udp",
        Netid::Local => b"-",
    }
}

/// The residual bytes of an address, and what an entry says after it of a netid, as XDR spells it: its name, its semantics,
/// family and protocol.
pub fn entry_end(netid: Netid, residue: usize) -> &'static [u8]
    requires few { residue ≤ 3 }
    ensures end { result.now ≡ replicate residue 0 ++ entry_end netid }
    ensures short { length result.now ≤ 39 }
{
    &padded_entry_end(netid)[3 - residue..]
}

/// The same after three residual bytes.
#[tactic(auto, unfolding(rb_xdr::specs::Xdr::opaque, rb_xdr::specs::Xdr::number))]
fn padded_entry_end(netid: Netid) -> &'static [u8]
    ensures end { result.now ≡ 0 ∷ 0 ∷ 0 ∷ entry_end netid }
    ensures short { length result.now ≤ 39 }
{
    match netid {
        Netid::Tcp => b"\0\0\0\0\0\0\x03tcp\0\0\0\0\x03\0\0\0\x04inet\0\0\0\x03tcp\0",
        Netid::Udp => b"\0\0\0\0\0\0\x03udp\0\0\0\0\x01\0\0\0\x04inet\0\0\0\x03udp\0",
        Netid::Tcp6 => b"\0\0\0\0\0\0\x04tcp6\0\0\0\x03\0\0\0\x05inet6\0\0\0\0\0\0\x03tcp\0",
        Netid::Udp6 => b"\0\0\0\0\0\0\x04udp6\0\0\0\x01\0\0\0\x05inet6\0\0\0\0\0\0\x03udp\0",
        Netid::Local => b"\0\0\0\0\0\0\x05local\0\0\0\0\0\0\x03\0\0\0\x08loopback\0\0\0\x01-\0\0\0",
    }
}

/// The universal address of the netid's family that the text spells (RFC 5665 section 5.2.3), if it spells one.
#[tactic(auto, unfolding(crate::specs::Netids::address_in))]
pub fn address_in(netid: Netid, text: &AddressText) -> Option<Uaddr>
    ensures { result ≡ address_in netid text.now }
{
    match netid {
        Netid::Tcp | Netid::Udp => text.ipv4(),
        Netid::Tcp6 | Netid::Udp6 => text.ipv6(),
        Netid::Local => None,
    }
}

/// Whether the text may be set on the netid: a universal address of its family that has a port, or the name of a local
/// socket.
#[tactic(auto, unfolding(crate::specs::Netids::is_address))]
pub fn is_address(netid: Netid, text: &AddressText) -> bool
    ensures { result ≡ is_address netid text.now }
{
    match netid {
        Netid::Local => text.is_local(),
        Netid::Tcp | Netid::Udp | Netid::Tcp6 | Netid::Udp6 => {
            address_in(netid, text).is_some_and(|address| address.port() != 0)
        }
    }
}
