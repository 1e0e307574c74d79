//! A peer as the kernel's table of connections has it.
ghost use Rattle.std.specs.Prelude.{◌≡◌, ◌<◌, ◌≤◌, ◌+◌, ◌/◌, ◌%◌, [], ◌∷◌, ◌++◌, length};
ghost use Rattle.rb_address.specs.Hosts.{octets_of_host};
ghost use Rattle.rb_evidence.specs.Table.{upper_digit, byte_text, port_text, word_text, words_text, text_at, endpoint_text, mapped_text};

use arrayvec::ArrayString;
use rb_address::{Host, Peer};

/// The most bytes that a peer has there: 32 of an IPv6 host, a colon, and four of the port.
pub(crate) const MAX_ENDPOINT: usize = 37;

/// A peer as the table has it.
pub(crate) type Endpoint = ArrayString<MAX_ENDPOINT>;

/// The peer: its host in words of this machine's byte order, a colon, and its port, all in upper-case hexadecimal.
#[tactic(auto, unfolding(crate::specs::Table::endpoint_text))]
pub(crate) fn endpoint_text(peer: &Peer) -> Endpoint
    ensures { result.bytes ≡ endpoint_text peer.now }
{
    text_at(peer.host(), peer.port())
}

/// The same with the host in IPv6's form.
#[tactic(auto, unfolding(crate::specs::Table::mapped_text))]
pub(crate) fn mapped_text(peer: &Peer) -> Endpoint
    ensures { result.bytes ≡ mapped_text peer.now }
{
    text_at(peer.host().mapped(), peer.port())
}

fn text_at(host: Host, port: u16) -> Endpoint
    ensures { result.bytes ≡ text_at host port }
{
    let mut text = ArrayString::new();
    push_host(&mut text, host);
    text.push(':');
    push_port(&mut text, port);
    text
}

fn push_host(text: &mut ArrayString<MAX_ENDPOINT>, host: Host)
    requires { text.old.bytes ≡ [] }
    ensures bytes { text.new.bytes ≡ words_text (octets_of_host host) }
    ensures len { length text.new.bytes ≤ 32 }
{
    match host {
        Host::V4(octets) => push_ipv4(text, &octets),
        Host::V6(octets) => push_ipv6(text, &octets),
    }
}

fn push_port(text: &mut ArrayString<MAX_ENDPOINT>, port: u16)
    requires { length text.old.bytes + 4 ≤ MAX_ENDPOINT }
    ensures bytes { text.new.bytes ≡ text.old.bytes ++ port_text port }
{
    push_byte(text, (port / 256) as u8);
    push_byte(text, (port % 256) as u8);
}

fn push_ipv4(text: &mut ArrayString<MAX_ENDPOINT>, octets: &[u8; 4])
    requires { text.old.bytes ≡ [] }
    ensures bytes { text.new.bytes ≡ words_text octets.now }
    ensures len { length text.new.bytes ≤ 32 }
{
    let [a, b, c, d] = *octets;
    push_word(text, a, b, c, d);
}

fn push_ipv6(text: &mut ArrayString<MAX_ENDPOINT>, octets: &[u8; 16])
    requires { text.old.bytes ≡ [] }
    ensures bytes { text.new.bytes ≡ words_text octets.now }
    ensures len { length text.new.bytes ≤ 32 }
{
    let [a, b, c, d, e, f, g, h, i, j, k, l, m, n, o, p] = *octets;
    push_word(text, a, b, c, d);
    push_word(text, e, f, g, h);
    push_word(text, i, j, k, l);
    push_word(text, m, n, o, p);
}

/// Four bytes of an address as a word of this machine, whose last byte is the most significant.
fn push_word(text: &mut ArrayString<MAX_ENDPOINT>, a: u8, b: u8, c: u8, d: u8)
    requires { length text.old.bytes + 8 ≤ MAX_ENDPOINT }
    ensures bytes { text.new.bytes ≡ text.old.bytes ++ word_text a b c d }
    ensures len { length text.new.bytes ≡ length text.old.bytes + 8 }
{
    push_byte(text, d);
    push_byte(text, c);
    push_byte(text, b);
    push_byte(text, a);
}

fn push_byte(text: &mut ArrayString<MAX_ENDPOINT>, byte: u8)
    requires { length text.old.bytes + 2 ≤ MAX_ENDPOINT }
    ensures bytes { text.new.bytes ≡ text.old.bytes ++ byte_text byte }
    ensures len { length text.new.bytes ≡ length text.old.bytes + 2 }
{
    push_digit(text, byte / 16);
    push_digit(text, byte % 16);
}

fn push_digit(text: &mut ArrayString<MAX_ENDPOINT>, digit: u8)
    requires digit { digit < 16 }
    requires room { length text.old.bytes + 1 ≤ MAX_ENDPOINT }
    ensures bytes { text.new.bytes ≡ text.old.bytes ++ upper_digit digit ∷ [] }
    ensures len { length text.new.bytes ≡ length text.old.bytes + 1 }
{
    let byte = match digit {
        small @ 0..=9 => b'0' + small,
        large => b'A' + (large - 10),
    };
    text.push(char::from(byte));
}
