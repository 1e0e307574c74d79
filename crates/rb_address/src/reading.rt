//! Texts of peers and callers, read.
ghost use Rattle.std.specs.Prelude.{◌≡◌, ◌==◌, ◌+◌, ◌*◌, ◌<◌, ◌^◌, IfSome};
ghost use Rattle.std.specs.List.{position};
ghost use Rattle.std.specs.Option.{SomeIff};
ghost use Rattle.rb_address.specs.Reading.{cut, cut_of, behind, behind_of, number_below, plain_number, ipv4_host, printed_ipv6, ipv4_peer, ipv6_peer, peer};
ghost use Rattle.rb_address.specs.CallerTexts.{source, printed_host, asked, trust, claimant, who};

use crate::host::{Host, is_mapped};
use crate::peer::Peer;
use crate::who::{Owner, Source, Trust, Who};
use rb_uaddr::{ipv6_host, ipv6_host_text};

/// Where a byte stands first.
fn place(text: &[u8], at: u8) -> Option<usize>
    ensures { result ≡ position (λ b. b == at) text.now }
{
    text.iter().position(|b| *b == at)
}

/// What stands before the first such byte, and what stands after it.
#[tactic(auto, unfolding(crate::specs::Reading::cut))]
pub fn cut(text: &[u8], at: u8) -> Option<(&[u8], &[u8])>
    ensures { cut_of result ≡ cut at text.now }
{
    let i = place(text, at)?;
    let (front, rest) = text.split_at(i);
    let (_, back) = rest.split_at(1);
    Some((front, back))
}

/// The number with one digit more, if it fits in 64 bits.
fn with_digit(n: u64, digit: u32) -> Option<u64>
    ensures { SomeIff result (n * 10 + digit < 2 ^ 64) (n * 10 + digit) }
{
    n.checked_mul(10)?.checked_add(u64::from(digit))
}

// LINE-6
/// A number of 64 bits in decimal digits, leading zeros allowed. A sign is no digit.
#[tactic(auto, unfolding(crate::specs::Reading::number_below))]
pub fn number_below(text: &[u8]) -> Option<u64>
    ensures { result ≡ number_below (2 ^ 64) text.now }
{
    if text.is_empty() {
        return None;
    }
    let mut n: u64 = 0;
    for b in text {
        let Some(digit) = char::from(*b).to_digit(10) else {
            return None;
        };
        let Some(more) = with_digit(n, digit) else {
            return None;
        };
        n = more;
    }
    Some(n)
}

/// A number below the limit, without leading zeros.
#[tactic(auto, unfolding(crate::specs::Reading::plain_number, crate::specs::Reading::number_below))]
pub fn plain_number(text: &[u8], limit: u64) -> Option<u64>
    ensures value { result ≡ plain_number limit text.now }
    ensures small { IfSome result (λ n. n < limit) }
{
    if text.len() > 1 && text[0] == b'0' {
        return None;
    }
    let n = number_below(text)?;
    if n < limit { Some(n) } else { None }
}

/// A host as `h1.h2.h3.h4`, in decimal without leading zeros.
#[tactic(auto, unfolding(crate::specs::Reading::ipv4_host))]
pub(crate) fn ipv4_host(text: &[u8]) -> Option<[u8; 4]>
    ensures { result ≡ ipv4_host text.now }
{
    let (a, rest) = cut(text, b'.')?;
    let (b, rest) = cut(rest, b'.')?;
    let (c, d) = cut(rest, b'.')?;
    let a = plain_number(a, 256)?;
    let b = plain_number(b, 256)?;
    let c = plain_number(c, 256)?;
    let d = plain_number(d, 256)?;
    Some([a as u8, b as u8, c as u8, d as u8])
}

/// What stands after this first byte.
fn behind(text: &[u8], at: u8) -> Option<&[u8]>
    ensures { behind_of result ≡ behind at text.now }
{
    match text {
        [first, rest @ ..] if *first == at => Some(rest),
        _ => None,
    }
}

/// An IPv6 host in the one form that is printed, but none of IPv4 in IPv6's form.
#[tactic(auto, unfolding(crate::specs::Reading::printed_ipv6))]
fn printed_ipv6(text: &[u8]) -> Option<[u8; 16]>
    ensures { result ≡ printed_ipv6 text.now }
{
    let octets = ipv6_host(text)?;
    if ipv6_host_text(&octets).as_str().as_bytes() == text && !is_mapped(&octets) {
        Some(octets)
    } else {
        None
    }
}

/// A peer as `h1.h2.h3.h4:port`.
#[tactic(auto, unfolding(crate::specs::Reading::ipv4_peer))]
fn ipv4_peer(text: &[u8]) -> Option<Peer>
    ensures { result ≡ ipv4_peer text.now }
{
    let (host, port) = cut(text, b':')?;
    let host = ipv4_host(host)?;
    let port = plain_number(port, 65_536)?;
    Some(Peer::at(Host::V4(host), port as u16))
}

/// A peer as `[x1:x2:x3:x4:x5:x6:x7:x8]:port`.
#[tactic(auto, unfolding(crate::specs::Reading::ipv6_peer))]
fn ipv6_peer(text: &[u8]) -> Option<Peer>
    ensures { result ≡ ipv6_peer text.now }
{
    let inside = behind(text, b'[')?;
    let (host, rest) = cut(inside, b']')?;
    let port = behind(rest, b':')?;
    let host = printed_ipv6(host)?;
    let port = plain_number(port, 65_536)?;
    Some(Peer::at(Host::V6(host), port as u16))
}

/// The peer that has this text, exactly if it is what is printed of the peer.
#[tactic(auto, unfolding(crate::specs::Reading::peer))]
pub(crate) fn peer(text: &[u8]) -> Option<Peer>
    ensures { result ≡ peer text.now }
{
    ipv4_peer(text).or_else(|| ipv6_peer(text))
}

/// Where a call comes from: `local`, or a peer.
#[tactic(auto, unfolding(crate::specs::CallerTexts::source))]
fn source(text: &[u8]) -> Option<Source>
    ensures { result ≡ source text.now }
{
    if text == b"local".as_slice() {
        return Some(Source::Local);
    }
    Some(Source::Inet(peer(text)?))
}

/// A host of either family, in the one form that is printed.
#[tactic(auto, unfolding(crate::specs::CallerTexts::printed_host))]
fn printed_host(text: &[u8]) -> Option<Host>
    ensures { result ≡ printed_host text.now }
{
    match ipv4_host(text) {
        Some(octets) => Some(Host::V4(octets)),
        None => Some(Host::V6(printed_ipv6(text)?)),
    }
}

/// The host that was asked. 0.0.0.0, which says that it is not known, is not written.
#[tactic(auto, unfolding(crate::specs::CallerTexts::asked))]
fn asked(text: &[u8]) -> Option<Host>
    ensures { result ≡ asked text.now }
{
    let host = printed_host(text)?;
    if host == Host::V4([0; 4]) {
        None
    } else {
        Some(host)
    }
}

/// Whose word there is for a caller: `unknown`, `stranger` or a uid.
#[tactic(auto, unfolding(crate::specs::CallerTexts::trust))]
fn trust(text: &[u8]) -> Option<Trust>
    ensures { result ≡ trust text.now }
{
    if text == b"unknown".as_slice() {
        return Some(Trust::Local(Owner::Unknown));
    }
    if text == b"stranger".as_slice() {
        return Some(Trust::Stranger);
    }
    let uid = plain_number(text, 0x1_0000_0000)?;
    Some(Trust::Local(Owner::Uid(uid as u32)))
}

/// A caller of whom nothing is known but what it says: a source, and after `>` the host that was asked.
#[tactic(auto, unfolding(crate::specs::CallerTexts::claimant))]
fn claimant(text: &[u8]) -> Option<Who>
    ensures { result ≡ claimant text.now }
{
    let (source, asked) = match cut(text, b'>') {
        Some((from, host)) => (source(from)?, asked(host)?),
        None => (source(text)?, Host::V4([0; 4])),
    };
    Some(Who {
        source,
        asked,
        trust: Trust::Claims,
    })
}

/// The caller that has this text, exactly if it is what is printed of the caller.
#[tactic(auto, unfolding(crate::specs::CallerTexts::who))]
pub(crate) fn who(text: &[u8]) -> Option<Who>
    ensures { result ≡ who text.now }
{
    let Some((front, known)) = cut(text, b'/') else {
        return claimant(text);
    };
    let caller = claimant(front)?;
    let trust = trust(known)?;
    Some(Who { trust, ..caller })
}
