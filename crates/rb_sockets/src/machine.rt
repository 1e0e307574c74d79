//! The addresses of this machine that are looked for, by whole texts of the kernel's lists.
ghost use Rattle.std.specs.Prelude.{◌≡◌, [], ◌∷◌};
ghost use Rattle.rb_policy.specs.Machine.{named};
ghost use Rattle.rb_sockets.specs.Machine.{is_lo, own_networks};

use rb_address::Host;
use rb_evidence::around;
use rb_policy::has_host;
use rb_policy::machine::{Reached, TrieLine, inet6_at, is_inet_of, reached_by, trie_line};
use rb_settings::{Few, MOST};

/// A list of the kernel's.
#[derive(Clone, Copy)]
pub enum Listing {
    /// /proc/net/route
    Route,
    /// /proc/net/fib_trie
    Trie,
    /// /proc/net/if_inet6
    Inet6,
}

/// What was found so far.
#[derive(Drop)]
pub struct Search {
    /// The networks of IPv4 that the interface reaches which is read about.
    reached: Few<Reached>,
    /// The host that the lines of /proc/net/fib_trie are about.
    leaf: Option<Host>,
    /// The addresses, each once.
    pub hosts: Few<Host>,
    /// The first for which there was no room.
    pub left_out: Option<Host>,
}

fn is_lo(name: &[u8]) -> bool
    ensures { result ≡ is_lo name.now }
{
    name == b"lo".as_slice()
}

/// The networks of an interface that stand in no line.
fn own_networks(name: Option<&[u8]>) -> Few<Reached>
    ensures { result ≡ own_networks (named name.entry) }
{
    let mut networks = Few::new(Reached::loopback());
    if let Some(name) = name {
        if is_lo(name) {
            networks.push(Reached::loopback());
        }
    }
    networks
}

impl Search {
    ghost use Rattle.std.specs.Prelude.{◌≡◌, [], is_some};
    ghost use Rattle.rb_evidence.specs.Table.{lines_of};
    ghost use Rattle.rb_policy.specs.Machine.{named};
    ghost use Rattle.rb_policy.specs.Machine.{trie_line};
    ghost use Rattle.rb_sockets.specs.Machine.{search_for, with_host, with_network, with_inet, with_inet6, after_route, after_trie_line, after_line, after_lines, begun};

    /// These were given, and count.
    pub(crate) fn new(given: Few<Host>) -> Search
        ensures { result ≡ search_for given }
    {
        Search {
            reached: Few::new(Reached::loopback()),
            leaf: None,
            hosts: given,
            left_out: None,
        }
    }

    /// What is read from here on is about the interface of this name, or about all.
    pub(crate) fn begin(&mut self, name: Option<&[u8]>)
        ensures { self.new ≡ begun (named name.entry) self.old }
    {
        self.reached = own_networks(name);
        self.leaf = None;
    }

    fn add(&mut self, host: Host)
        ensures { self.new ≡ with_host host self.old }
    {
        if has_host(self.hosts.as_slice(), host) {
            return;
        }
        if self.hosts.len() < MOST {
            self.hosts.push(host);
        } else {
            self.left_out = self.left_out.or(Some(host));
        }
    }

    fn add_network(&mut self, network: Option<Reached>)
        ensures { self.new ≡ with_network network self.old }
    {
        if let Some(network) = network {
            if self.reached.len() < MOST {
                self.reached.push(network);
            }
        }
    }

    fn add_inet(&mut self, is_named: bool)
        ensures { self.new ≡ with_inet is_named self.old.leaf self.old }
    {
        if let Some(host) = self.leaf {
            if is_inet_of(is_named, self.reached.as_slice(), host) {
                self.add(host);
            }
        }
    }

    fn add_inet6(&mut self, is_named: bool, found: Option<Host>)
        ensures { self.new ≡ with_inet6 is_named found self.old }
    {
        if let Some(host) = found {
            if is_named || !host.is_loopback() {
                self.add(host);
            }
        }
    }

    fn take_route(&mut self, name: Option<&[u8]>, line: &[u8])
        ensures { self.new ≡ after_route (named name.entry) line.now self.old }
    {
        if let Some(name) = name {
            self.add_network(reached_by(line, name));
        }
    }

    fn take_trie(&mut self, is_named: bool, line: &[u8])
        ensures { self.new ≡ after_trie_line is_named (trie_line line.now) self.old }
    {
        match trie_line(line) {
            TrieLine::Leaf(host) => self.leaf = Some(host),
            TrieLine::Local => self.add_inet(is_named),
            TrieLine::Other => {}
        }
    }

    /// Takes what a line says.
    fn take_line(&mut self, listing: Listing, name: Option<&[u8]>, line: &[u8])
        ensures { self.new ≡ after_line listing (named name.entry) line.now self.old }
    {
        match listing {
            Listing::Route => self.take_route(name, line),
            Listing::Trie => self.take_trie(name.is_some(), line),
            Listing::Inet6 => self.add_inet6(name.is_some(), inet6_at(line, name)),
        }
    }

    /// Takes what a list says of the interface of this name, or of all.
    pub(crate) fn take(&mut self, listing: Listing, name: Option<&[u8]>, text: &[u8])
        ensures { self.new ≡ after_lines listing (named name.entry) self.old (lines_of text.now) }
    {
        let mut rest = text;
        while let Some((line, back)) = around(rest, b'\n') {
            self.take_line(listing, name, line);
            rest = back;
        }
        self.take_line(listing, name, rest);
    }
}
