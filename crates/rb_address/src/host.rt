//! Hosts of IPv4 and IPv6.
ghost use Rattle.std.specs.Prelude.{◌≡◌, ◌++◌, drop};
ghost use Rattle.rb_address.specs.Hosts.{family_of, is_loopback, is_any, is_mapped, mapped_front, plain_host, mapped_host};
ghost use Rattle.rb_address.specs.Networks.{plain_host_of};

use crate::network::plain_host_of;
use std::fmt;
use std::net::Ipv6Addr;

/// A family of addresses.
#[derive(Clone, Copy, Debug, PartialEq, Eq)]
pub enum Family {
    /// IPv4.
    Inet,
    /// IPv6.
    Inet6,
}

/// A host, its most significant byte first.
#[derive(Clone, Copy, Debug, PartialEq, Eq)]
pub enum Host {
    /// An IPv4 host.
    V4([u8; 4]),
    /// An IPv6 host.
    V6([u8; 16]),
}

/// The front of an IPv4 host in IPv6's form (RFC 4291 section 2.5.5.2).
const MAPPED: [u8; 12] = [0, 0, 0, 0, 0, 0, 0, 0, 0, 0, 0xff, 0xff];

const LOOPBACK6: [u8; 16] = [0, 0, 0, 0, 0, 0, 0, 0, 0, 0, 0, 0, 0, 0, 0, 1];

impl Host {
    /// The host that has this text: `192.0.2.1`, without leading zeros, or an IPv6 host in any spelling, without
    /// brackets. None of IPv4 in IPv6's form, as which no peer counts.
    pub fn read(text: &[u8]) -> Option<Host>
        ensures { result ≡ plain_host_of text.now }
    {
        plain_host_of(text)
    }

    /// The family that it is of.
    pub fn family(self) -> Family
        ensures { result ≡ family_of self }
    {
        match self {
            Host::V4(_) => Family::Inet,
            Host::V6(_) => Family::Inet6,
        }
    }

    /// Whether it is this host by its address alone: 127.0.0.0/8 or ::1.
    #[tactic(auto, unfolding(crate::specs::Hosts::is_loopback))]
    pub fn is_loopback(self) -> bool
        ensures { result ≡ is_loopback self }
    {
        match self {
            Host::V4(octets) => octets[0] == 127,
            Host::V6(octets) => octets == LOOPBACK6,
        }
    }

    /// Whether it stands for every host of its family: 0.0.0.0 or ::.
    #[tactic(auto, unfolding(crate::specs::Hosts::is_any))]
    pub fn is_any(self) -> bool
        ensures { result ≡ is_any self }
    {
        match self {
            Host::V4(octets) => octets == [0; 4],
            Host::V6(octets) => octets == [0; 16],
        }
    }

    /// The host, as one of IPv4 if it is ::ffff:a.b.c.d.
    #[tactic(auto, unfolding(crate::specs::Hosts::plain_host))]
    pub fn plain(self) -> Host
        ensures { result ≡ plain_host self }
    {
        match self {
            Host::V6(octets) if is_mapped(&octets) => Host::V4(last_four(&octets)),
            Host::V4(_) | Host::V6(_) => self,
        }
    }

    /// The host in IPv6's form: of an IPv4 host ::ffff:a.b.c.d.
    pub fn mapped(self) -> Host
        ensures { result ≡ mapped_host self }
    {
        match self {
            Host::V4(octets) => Host::V6(mapped_octets(octets)),
            Host::V6(_) => self,
        }
    }
}

/// `h1.h2.h3.h4`, or the groups of an IPv6 host as RFC 5952 section 4 prints them.
impl fmt::Display for Host {
    ghost use Rattle.std.specs.Prelude.{Some};
    ghost use Rattle.rb_address.specs.Peers.{bare_host_text};

    ghost output = { λ h. Some (bare_host_text h) };

    #[tactic(auto, unfolding(rb_uaddr::specs::Uaddr::ipv6_host_text))]
    fn fmt<W: fmt::Write>(&self, f: &mut fmt::Formatter<W>) -> fmt::Result {
        match *self {
            Host::V4(octets) => {
                let [a, b, c, d] = octets;
                write!(f, "{a}.{b}.{c}.{d}")
            }
            Host::V6(octets) => {
                let groups = Ipv6Addr::from_octets(octets).hex_groups();
                write!(f, "{groups}")
            }
        }
    }
}

/// Whether these sixteen bytes are an IPv4 host in IPv6's form.
#[tactic(auto, unfolding(crate::specs::Hosts::is_mapped))]
pub(crate) fn is_mapped(octets: &[u8; 16]) -> bool
    ensures { result ≡ is_mapped octets.now }
{
    &octets[..12] == MAPPED.as_slice()
}

/// The IPv4 host whose form in IPv6 these bytes are.
fn last_four(octets: &[u8; 16]) -> [u8; 4]
    ensures { result ≡ drop 12 octets.now }
{
    let mut last = [0; 4];
    last.copy_from_slice(&octets[12..]);
    last
}

/// The bytes of an IPv4 host in IPv6's form.
fn mapped_octets(octets: [u8; 4]) -> [u8; 16]
    ensures { result ≡ mapped_front ++ octets }
{
    let [a, b, c, d] = octets;
    [0, 0, 0, 0, 0, 0, 0, 0, 0, 0, 0xff, 0xff, a, b, c, d]
}
