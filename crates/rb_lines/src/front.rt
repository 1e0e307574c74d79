//! The front of a line: words, numbers and addresses, on the stack.
ghost use Rattle.std.specs.Prelude.{◌≡◌, ◌≤◌, ◌+◌, ◌++◌, length, decimal, codes};
ghost use Rattle.std.specs.Net.Text.{ipv4_text};
ghost use Rattle.rb_uaddr.specs.Uaddr.{ipv6_host_text};
ghost use Rattle.rb_address.specs.Callers.{source_text, asked_text, trust_text, who_text};
ghost use Rattle.rb_address.specs.Peers.{bare_host_text, host_text, peer_text};

use arrayvec::ArrayVec;
use itoa::Buffer;
use rb_address::{Host, Owner, Peer, Source, Trust, Who};
use rb_uaddr::ipv6_host_text;

/// The room for the front of a line of an event or of an output, in bytes, which have less with 20 digits for each
/// number.
pub(crate) const MAX_FRONT: usize = 640;

/// Words, numbers and addresses: at most `N` bytes.
#[derive(Drop)]
pub(crate) struct Front<const N: usize> {
    text: ArrayVec<u8, N>,
}

impl<const N: usize> Front<N> {
    /// A front that begins with a word.
    pub(crate) fn new(word: &str) -> Front<N>
        requires word { length word.now ≤ 64 }
        requires room { 64 ≤ N }
        ensures text { result.text.items ≡ word.now }
        ensures count { length result.text.items ≡ length word.now }
    {
        let mut front = Front {
            text: ArrayVec::new(),
        };
        front.push(word.as_bytes());
        front
    }

    /// Its bytes.
    pub(crate) fn as_slice(&self) -> &[u8]
        ensures value { result.now ≡ self.now.text.items }
        ensures short { length result.now ≤ N }
    {
        self.text.as_slice()
    }

    /// Adds bytes.
    pub(crate) fn push(&mut self, bytes: &[u8])
        requires { length self.old.text.items + length bytes.now ≤ N }
        ensures text { self.new.text.items ≡ self.old.text.items ++ bytes.now }
        ensures count { length self.new.text.items ≡ length self.old.text.items + length bytes.now }
    {
        let Ok(()) = self.text.try_extend_from_slice(bytes) else {
            unreachable!()
        };
    }

    /// Adds a number in decimal.
    pub(crate) fn push_number(&mut self, number: u64)
        requires { length self.old.text.items + 20 ≤ N }
        ensures text { self.new.text.items ≡ self.old.text.items ++ decimal number }
        ensures short { length self.new.text.items ≤ length self.old.text.items + 20 }
    {
        self.push(Buffer::new().format(number).as_bytes());
    }

    /// Adds an octet of an IPv4 host, and a dot in front of it.
    fn push_octet(&mut self, octet: u8)
        requires { length self.old.text.items + 21 ≤ N }
        ensures text { self.new.text.items ≡ self.old.text.items ++ codes "." ++ decimal octet }
        ensures short { length self.new.text.items ≤ length self.old.text.items + 21 }
    {
        self.push(b".");
        self.push_number(u64::from(octet));
    }

    /// Adds an IPv4 host.
    fn push_inet(&mut self, octets: [u8; 4])
        requires { length self.old.text.items + 83 ≤ N }
        ensures text { self.new.text.items ≡ self.old.text.items ++ ipv4_text octets }
        ensures short { length self.new.text.items ≤ length self.old.text.items + 83 }
    {
        let [first, second, third, fourth] = octets;
        self.push_number(u64::from(first));
        self.push_octet(second);
        self.push_octet(third);
        self.push_octet(fourth);
    }

    /// Adds the groups of an IPv6 host.
    fn push_inet6(&mut self, octets: &[u8; 16])
        requires { length self.old.text.items + 47 ≤ N }
        ensures text { self.new.text.items ≡ self.old.text.items ++ ipv6_host_text octets.now }
        ensures short { length self.new.text.items ≤ length self.old.text.items + 47 }
    {
        self.push(ipv6_host_text(octets).as_str().as_bytes());
    }

    /// Adds a host, without brackets.
    pub(crate) fn push_host(&mut self, host: Host)
        requires { length self.old.text.items + 83 ≤ N }
        ensures text { self.new.text.items ≡ self.old.text.items ++ bare_host_text host }
        ensures short { length self.new.text.items ≤ length self.old.text.items + 83 }
    {
        match host {
            Host::V4(octets) => self.push_inet(octets),
            Host::V6(octets) => self.push_inet6(&octets),
        }
    }

    /// Adds a host, the groups of IPv6 in brackets.
    fn push_bracketed(&mut self, host: Host)
        requires { length self.old.text.items + 83 ≤ N }
        ensures text { self.new.text.items ≡ self.old.text.items ++ host_text host }
        ensures short { length self.new.text.items ≤ length self.old.text.items + 83 }
    {
        match host {
            Host::V4(octets) => self.push_inet(octets),
            Host::V6(octets) => {
                self.push(b"[");
                self.push_inet6(&octets);
                self.push(b"]");
            }
        }
    }

    /// Adds a peer: its host and its port.
    pub(crate) fn push_peer(&mut self, peer: Peer)
        requires { length self.old.text.items + 104 ≤ N }
        ensures text { self.new.text.items ≡ self.old.text.items ++ peer_text peer }
        ensures short { length self.new.text.items ≤ length self.old.text.items + 104 }
    {
        self.push_bracketed(peer.host());
        self.push(b":");
        self.push_number(u64::from(peer.port()));
    }

    /// Adds where a call came from.
    pub(crate) fn push_source(&mut self, source: Source)
        requires { length self.old.text.items + 104 ≤ N }
        ensures text { self.new.text.items ≡ self.old.text.items ++ source_text source }
        ensures short { length self.new.text.items ≤ length self.old.text.items + 104 }
    {
        match source {
            Source::Inet(peer) => self.push_peer(peer),
            Source::Local => self.push(b"local"),
        }
    }

    /// Adds the host that was asked, if it is known.
    fn push_asked(&mut self, asked: Host)
        requires { length self.old.text.items + 84 ≤ N }
        ensures text { self.new.text.items ≡ self.old.text.items ++ asked_text asked }
        ensures short { length self.new.text.items ≤ length self.old.text.items + 84 }
    {
        if asked != Host::V4([0; 4]) {
            self.push(b">");
            self.push_host(asked);
        }
    }

    /// Adds whose word there is for a caller, if there is more than its own.
    fn push_trust(&mut self, trust: Trust)
        requires { length self.old.text.items + 21 ≤ N }
        ensures text { self.new.text.items ≡ self.old.text.items ++ trust_text trust }
        ensures short { length self.new.text.items ≤ length self.old.text.items + 21 }
    {
        match trust {
            Trust::Claims => {}
            Trust::Local(Owner::Unknown) => self.push(b"/unknown"),
            Trust::Local(Owner::Uid(uid)) => {
                self.push(b"/");
                self.push_number(u64::from(uid));
            }
            Trust::Stranger => self.push(b"/stranger"),
        }
    }

    /// Adds a caller.
    pub(crate) fn push_who(&mut self, who: Who)
        requires { length self.old.text.items + 209 ≤ N }
        ensures text { self.new.text.items ≡ self.old.text.items ++ who_text who }
        ensures short { length self.new.text.items ≤ length self.old.text.items + 209 }
    {
        self.push_source(who.source);
        self.push_asked(who.asked);
        self.push_trust(who.trust);
    }
}
