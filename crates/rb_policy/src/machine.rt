//! The addresses of this machine, line by line, as the kernel lists them (proc(5)): those of IPv4 in /proc/net/fib_trie, those of
//! IPv6 in /proc/net/if_inet6, and the networks that an interface reaches in /proc/net/route. No file is read here.
ghost use Rattle.std.specs.Prelude.{◌≡◌};
ghost use Rattle.std.specs.List.{list_all};
ghost use Rattle.rb_policy.specs.Machine.{named, unindented, leaf_of, trie_line, is_wanted, is_ready, octets_of, inet6_of, inet6_at, word_of, network_of, reached_by, loopback_network, are_within, reaches, is_reached, is_inet_of, is_of_name, names_interface, first_outside, next_change};

use crate::addresses::has_host;
use hex::FromHex;
use rb_address::{Host, cut};

/// What a line of /proc/net/fib_trie says.
#[derive(Clone, Copy)]
pub enum TrieLine {
    /// The lines from here on are about this host.
    Leaf(Host),
    /// That host is an address of this machine.
    Local,
    /// Anything else.
    Other,
}

/// A text without the spaces in front of it.
fn unindented(text: &[u8]) -> &[u8]
    ensures { result.now ≡ unindented text.now }
{
    let [first, rest @ ..] = text else {
        return text;
    };
    if *first == b' ' {
        unindented(rest)
    } else {
        text
    }
}

fn leaf_of(text: &[u8]) -> Option<Host>
    ensures { result ≡ leaf_of text.now }
{
    let (mark, address) = cut(text, b' ')?;
    if mark == b"|--".as_slice() {
        Host::read(address)
    } else {
        None
    }
}

/// What a line of /proc/net/fib_trie says.
pub fn trie_line(line: &[u8]) -> TrieLine
    ensures { result ≡ trie_line line.now }
{
    let text = unindented(line);
    if text == b"/32 host LOCAL".as_slice() {
        return TrieLine::Local;
    }
    match leaf_of(text) {
        Some(host) => TrieLine::Leaf(host),
        None => TrieLine::Other,
    }
}

/// Whether an interface is the one of this name, or any, if none is named.
fn is_wanted(interface: &[u8], name: Option<&[u8]>) -> bool
    ensures { result ≡ is_wanted interface.now (named name.entry) }
{
    match name {
        Some(name) => interface == name,
        None => true,
    }
}

/// Whether the flags of an address of IPv6 say that it is in use: its network is not asked any more whether another machine has
/// it (IFA_F_TENTATIVE, 64), and none has (IFA_F_DADFAILED, 8).
fn is_ready(flags: &[u8]) -> bool
    ensures { result ≡ is_ready flags.now }
{
    match <[u8; 1] as FromHex>::from_hex(flags) {
        Ok(flags) => flags[0] & 72 == 0,
        Err(_) => false,
    }
}

fn octets_of(digits: &[u8]) -> Option<[u8; 16]>
    ensures { result ≡ octets_of digits.now }
{
    match <[u8; 16] as FromHex>::from_hex(digits) {
        Ok(octets) => Some(octets),
        Err(_) => None,
    }
}

/// The address of a line of /proc/net/if_inet6, which is of this interface, or of any if none is named; none if it is one of
/// a link, or not in use.
pub fn inet6_at(line: &[u8], name: Option<&[u8]>) -> Option<Host>
    ensures { result ≡ inet6_at line.now (named name.entry) }
{
    let (digits, rest) = cut(line, b' ')?;
    let (_, rest) = cut(rest, b' ')?;
    let (_, rest) = cut(rest, b' ')?;
    let (scope, rest) = cut(rest, b' ')?;
    let (flags, interface) = cut(rest, b' ')?;
    if scope == b"20".as_slice() || !is_ready(flags) || !is_wanted(unindented(interface), name) {
        return None;
    }
    Some(Host::V6(octets_of(digits)?))
}

/// A network of IPv4: its first address, and the mask whose bits it has in common with all others.
#[derive(Clone, Copy)]
pub struct Reached {
    first: [u8; 4],
    mask: [u8; 4],
}

/// Four bytes of a table, whose last byte comes first.
fn word_of(digits: &[u8]) -> Option<[u8; 4]>
    ensures { result ≡ word_of digits.now }
{
    match <[u8; 4] as FromHex>::from_hex(digits) {
        Ok(octets) => {
            let [a, b, c, d] = octets;
            Some([d, c, b, a])
        }
        Err(_) => None,
    }
}

fn network_of(first: &[u8], mask: &[u8]) -> Option<Reached>
    ensures { result ≡ network_of first.now mask.now }
{
    Some(Reached {
        first: word_of(first)?,
        mask: word_of(mask)?,
    })
}

/// The network of a line of /proc/net/route, which this interface reaches without a router.
pub fn reached_by(line: &[u8], name: &[u8]) -> Option<Reached>
    ensures { result ≡ reached_by line.now name.now }
{
    let (interface, rest) = cut(line, b'\t')?;
    let (first, rest) = cut(rest, b'\t')?;
    let (router, rest) = cut(rest, b'\t')?;
    let (_, rest) = cut(rest, b'\t')?;
    let (_, rest) = cut(rest, b'\t')?;
    let (_, rest) = cut(rest, b'\t')?;
    let (_, rest) = cut(rest, b'\t')?;
    let (mask, _) = cut(rest, b'\t')?;
    let none = b"00000000".as_slice();
    if interface == name && router == none && mask != none {
        network_of(first, mask)
    } else {
        None
    }
}

fn are_within(first: &[u8], mask: &[u8], octets: &[u8]) -> bool
    ensures { result ≡ are_within first.now mask.now octets.now }
{
    let [x, first @ ..] = first else {
        return true;
    };
    let [m, mask @ ..] = mask else {
        return true;
    };
    let [octet, octets @ ..] = octets else {
        return true;
    };
    *octet & *m == *x && are_within(first, mask, octets)
}

impl Reached {
    ghost use Rattle.std.specs.Prelude.{◌≡◌};
    ghost use Rattle.rb_policy.specs.Machine.{loopback_network, reaches};

    /// 127.0.0.0/8, which stands in no line: it is the loopback's.
    pub fn loopback() -> Reached
        ensures { result ≡ loopback_network }
    {
        Reached {
            first: [127, 0, 0, 0],
            mask: [255, 0, 0, 0],
        }
    }

    fn has(self, host: Host) -> bool
        ensures { result ≡ reaches host self }
    {
        match host {
            Host::V4(octets) => are_within(&self.first, &self.mask, &octets),
            Host::V6(_) => false,
        }
    }
}

fn is_reached(reached: &[Reached], host: Host) -> bool
    ensures { result ≡ is_reached host reached.now }
{
    reached.iter().any(|network| network.has(host))
}

/// Whether an address of IPv4 is of an interface that reaches these networks, or of any but the loopback if none is named.
pub fn is_inet_of(is_named: bool, reached: &[Reached], host: Host) -> bool
    ensures { result ≡ is_inet_of is_named reached.now host }
{
    if is_named {
        is_reached(reached, host)
    } else {
        !host.is_loopback()
    }
}

/// Whether a byte may stand in the name of an interface, as it is taken.
fn is_of_name(byte: u8) -> bool
    ensures { result ≡ is_of_name byte }
{
    byte.is_ascii_alphanumeric() || byte == b'.' || byte == b'-' || byte == b'_'
}

fn are_of_name(bytes: &[u8]) -> bool
    ensures { result ≡ list_all is_of_name bytes.now }
{
    bytes.iter().all(|byte| is_of_name(*byte))
}

/// Whether a value of `--bind` names an interface, or all by `all`.
pub fn names_interface(text: &[u8]) -> bool
    ensures { result ≡ names_interface text.now }
{
    match text {
        [first, rest @ ..] => {
            first.is_ascii_alphabetic() && rest.len() < 15 && are_of_name(rest)
        }
        [] => false,
    }
}

/// What is done next, so that these addresses are listened on and no others.
#[derive(Clone, Copy)]
pub enum AddressChange {
    /// This one is listened on no more.
    Leave(Host),
    /// This one is listened on too.
    Listen(Host),
}

fn first_outside(hosts: &[Host], others: &[Host]) -> Option<Host>
    ensures { result ≡ first_outside hosts.now others.now }
{
    match hosts {
        [host, rest @ ..] => {
            if has_host(others, *host) {
                first_outside(rest, others)
            } else {
                Some(*host)
            }
        }
        [] => None,
    }
}

/// What is done next, given those that are listened on, and those that the machine has.
pub fn next_change(bound: &[Host], found: &[Host]) -> Option<AddressChange>
    ensures { result ≡ next_change bound.now found.now }
{
    if let Some(host) = first_outside(bound, found) {
        return Some(AddressChange::Leave(host));
    }
    match first_outside(found, bound) {
        Some(host) => Some(AddressChange::Listen(host)),
        None => None,
    }
}
