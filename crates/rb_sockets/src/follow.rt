//! The addresses of this machine or of its interfaces, which are followed: those that come are listened on, those that go are not.
ghost use Rattle.std.specs.Prelude.{◌≡◌};
ghost use Rattle.rb_sockets.specs.Following.{put_behind, all_but};

use crate::hosts::is_missing;
use crate::machine::{Listing, Search};
use crate::sockets::is_no_host;
use crate::tables::TableFault;
use rb_address::Host;
use rb_policy::machine::{AddressChange, next_change};
use rb_policy::{ANY, LOOPBACK, has_host, is_nothing_there, next_try};
use rb_settings::{BindFault, Few, MOST, SocketFault};
use std::alloc::{AllocError, Global};
use std::fs::{File, Files};
use std::io;
use std::io::{ErrorKind, Read};
use std::net::Net;

/// The most bytes of a list of the kernel's that are read.
const LONGEST: usize = 1_048_576;

/// The word that stands for all interfaces.
const ALL: &str = "all";

/// The loopback's interface, which is always among them.
const LO: &str = "lo";

/// What there is to be told of addresses that are followed.
#[derive(Drop)]
pub enum AddressNews {
    /// This one is listened on from here on.
    Came(Host),
    /// The machine has this one no more.
    Gone(Host),
    /// There is no room for this one.
    LeftOut(Host),
    /// The system does not tell which there are.
    Unread(TableFault),
    /// One could not be listened on.
    Failed(SocketFault),
}

/// Which addresses are followed, and which of them are listened on.
#[derive(Drop)]
pub struct Follower {
    /// Names of interfaces, or `all`.
    names: Vec<String>,
    /// Those that stay, whatever the machine has.
    given: Few<Host>,
    bound: Few<Host>,
    found: Few<Host>,
    /// Those that were left after the last reading.
    left: Few<Host>,
    /// Room for the longest list.
    text: Vec<u8>,
    /// The moment of the last reading, in milliseconds; 0 if that was at the start.
    last_read: u64,
    /// The first interface that added no address at the last reading.
    silent: Option<usize>,
    /// The first for which there was no room, and the first fault, each until it is told.
    left_out: Option<Host>,
    fault: Option<TableFault>,
    has_left_out: bool,
    has_fault: bool,
    has_failed: bool,
}

/// Where it is: if folders of other processes are hidden, /proc/self still has it.
fn path_of(listing: Listing) -> &'static str {
    match listing {
        Listing::Route => "/proc/self/net/route",
        Listing::Trie => "/proc/self/net/fib_trie",
        Listing::Inet6 => "/proc/self/net/if_inet6",
    }
}

/// The interface of this name; none stands for all.
fn interface_of(name: &str) -> Option<&[u8]> {
    if name == ALL {
        None
    } else {
        Some(name.as_bytes())
    }
}

/// Puts one behind the others, if there is room.
fn put(hosts: &mut Few<Host>, host: Host)
    ensures { hosts.new ≡ put_behind host hosts.old }
{
    if hosts.len() < MOST {
        hosts.push(host);
    }
}

/// The same hosts without this one.
fn without(hosts: &[Host], other: Option<Host>) -> Few<Host>
    ensures { result ≡ all_but other hosts.now }
{
    let mut left = Few::new(Host::V4(ANY));
    for host in hosts {
        if Some(*host) != other {
            put(&mut left, *host);
        }
    }
    left
}

/// Reads a list of the kernel's. A system without IPv6 has none of that.
fn read<R: Files>(rt: &R, listing: Listing, text: &mut Vec<u8>) -> io::Result<()> {
    text.clear();
    let file = match File::open(rt, path_of(listing)) {
        Ok(file) => file,
        Err(error) if is_nothing_there(&error) && matches!(listing, Listing::Inet6) => {
            return Ok(());
        }
        Err(error) => return Err(error),
    };
    file.take(LONGEST as u64).read_to_end(text)?;
    if text.len() < LONGEST {
        Ok(())
    } else {
        Err(io::Error::new(ErrorKind::InvalidData, "it is too long"))
    }
}

/// Searches in the lists for the addresses of an interface, or of all.
fn search_about<R: Files>(
    rt: &R,
    name: Option<&[u8]>,
    text: &mut Vec<u8>,
    search: &mut Search,
) -> Result<(), TableFault> {
    search.begin(name);
    for listing in [Listing::Route, Listing::Trie, Listing::Inet6] {
        match read(rt, listing, text) {
            Ok(()) => search.take(listing, name, text.as_slice()),
            Err(error) => {
                return Err(TableFault {
                    path: path_of(listing),
                    error,
                });
            }
        }
    }
    Ok(())
}

impl Follower {
    ghost use Rattle.std.specs.Prelude.{◌≡◌, ◌<◌, length, None, Some};
    ghost use Rattle.rb_policy.specs.LocalFile.{next_try};
    ghost use Rattle.rb_policy.specs.Machine.{next_change};
    ghost use Rattle.rb_sockets.specs.Following.{put_behind, all_but, news_of, without_news, first_left_out, first_fault, IsReadIfDue, IsFirstFailure, ListensFrom};

    /// Of these names of interfaces, or `all`, and beside these hosts. It takes its memory here.
    pub fn new(alloc: Global, names: Vec<String>, given: &[Host]) -> Result<Follower, AllocError> {
        let text = Vec::with_capacity(alloc, LONGEST)?;
        Ok(Follower {
            names,
            bound: without(given, None),
            found: without(given, None),
            given: without(given, None),
            left: Few::new(Host::V4(ANY)),
            text,
            last_read: 0,
            silent: None,
            left_out: None,
            fault: None,
            has_left_out: false,
            has_fault: false,
            has_failed: false,
        })
    }

    /// The hosts to begin with: those that were given, and those that the machine has and that can be bound, the loopback's
    /// last; 127.0.0.1 if there are none.
    pub fn begin<R: Files + Net>(&mut self, rt: &R) -> Few<Host>
        ensures bound { result ≡ all_but None self.new.bound }
        ensures some { 0 < length self.new.bound }
    {
        self.look(rt);
        'kinds: for is_loopback in [false, true] {
            'hosts: for host in self.found.as_slice() {
                let is_given = has_host(self.given.as_slice(), *host);
                if host.is_loopback() == is_loopback && !is_given && !is_missing(rt, *host) {
                    put(&mut self.bound, *host);
                }
            }
        }
        if self.bound.len() == 0 {
            put(&mut self.bound, Host::V4(LOOPBACK));
        }
        without(self.bound.as_slice(), None)
    }

    /// The first interface that added no address at the last reading.
    pub fn silent(&self) -> Option<&str> {
        match self.names.get(self.silent?) {
            Some(name) => Some(name.as_str()),
            None => None,
        }
    }

    /// What is to be told of the last reading, once: the first fault, and the first address without room.
    pub fn take_news(&mut self) -> Option<AddressNews>
        ensures news { result ≡ news_of self.old.fault self.old.left_out }
        ensures told { self.new ≡ without_news self.old }
    {
        if let Some(fault) = self.fault.take() {
            return Some(AddressNews::Unread(fault));
        }
        match self.left_out.take() {
            Some(host) => Some(AddressNews::LeftOut(host)),
            None => None,
        }
    }

    /// Finds out which addresses there are. If the system does not tell, those that are listened on stay.
    fn look<R: Files>(&mut self, rt: &R)
        ensures bound { self.new.bound ≡ self.old.bound }
        ensures read { self.new.last_read ≡ self.old.last_read }
        ensures left { self.new.left ≡ self.old.left }
    {
        match self.search(rt) {
            Ok(
                Search {
                    hosts,
                    left_out,
                    ..
                },
            ) => {
                self.found = hosts;
                self.note_left_out(left_out);
            }
            Err(fault) => {
                self.found = without(self.bound.as_slice(), None);
                self.note_fault(fault);
            }
        }
    }

    fn note_left_out(&mut self, left_out: Option<Host>)
        ensures { self.new ≡ first_left_out left_out self.old }
    {
        if left_out.is_some() && !self.has_left_out {
            self.has_left_out = true;
            self.left_out = left_out;
        }
    }

    fn note_fault(&mut self, fault: TableFault)
        ensures { self.new ≡ first_fault fault self.old }
    {
        if !self.has_fault {
            self.has_fault = true;
            self.fault = Some(fault);
        }
    }

    fn search<R: Files>(&mut self, rt: &R) -> Result<Search, TableFault>
        ensures { self.new ≡ record self.old { text = self.new.text; silent = self.new.silent } }
    {
        let mut search = Search::new(without(self.given.as_slice(), None));
        self.silent = None;
        search_about(rt, interface_of(LO), &mut self.text, &mut search)?;
        'names: for (place, name) in self.names.iter().enumerate() {
            let before = search.hosts.len();
            search_about(rt, interface_of(name.as_str()), &mut self.text, &mut search)?;
            let is_silent = search.hosts.len() == before && name.as_str() != LO;
            if is_silent && self.silent.is_none() {
                self.silent = Some(place);
            }
        }
        Ok(search)
    }

    /// The moment of the next reading, in milliseconds.
    pub(crate) fn next_look(&self) -> u64
        ensures { result ≡ next_try self.now.last_read }
    {
        next_try(self.last_read)
    }

    /// What is done next at this moment, in milliseconds, so that all addresses are listened on which the machine has.
    pub(crate) fn next_change<R: Files>(&mut self, rt: &R, now: u64) -> Option<AddressChange>
        ensures next { result ≡ next_change self.new.bound self.new.found }
        ensures bound { self.new.bound ≡ self.old.bound }
        ensures read { IsReadIfDue now self.old self.new }
    {
        if self.next_look() <= now {
            self.last_read = now;
            self.left = Few::new(Host::V4(ANY));
            self.look(rt);
        }
        next_change(self.bound.as_slice(), self.found.as_slice())
    }

    /// It is listened on no more.
    pub(crate) fn note_gone(&mut self, host: Host)
        ensures left { self.new.left ≡ put_behind host self.old.left }
        ensures bound { self.new.bound ≡ all_but (Some host) self.old.bound }
    {
        self.bound = without(self.bound.as_slice(), Some(host));
        put(&mut self.left, host);
    }

    /// Those that were left after the last reading, so that calls which came there and were forwarded may still wait.
    pub(crate) fn left(&self) -> &[Host]
        ensures { result.now ≡ self.now.left }
    {
        self.left.as_slice()
    }

    /// It was tried to listen on it. What is to be told: that it is listened on, or the first fault. One that the machine does
    /// not have yet is looked for at the next reading, as is one that failed.
    pub(crate) fn note_tried(
        &mut self,
        host: Host,
        listening: Result<(), BindFault>,
    ) -> Option<AddressNews>
        ensures { ListensFrom host listening self.old self.new result }
    {
        match listening {
            Ok(()) => {
                put(&mut self.bound, host);
                Some(AddressNews::Came(host))
            }
            Err(fault) => {
                self.found = without(self.found.as_slice(), Some(host));
                self.first_failure(fault)
            }
        }
    }

    fn first_failure(&mut self, fault: BindFault) -> Option<AddressNews>
        ensures { IsFirstFailure fault self.old self.new result }
    {
        let BindFault::Socket(fault) = fault else {
            return None;
        };
        if self.has_failed || is_no_host(&fault.error) {
            return None;
        }
        self.has_failed = true;
        Some(AddressNews::Failed(fault))
    }
}
