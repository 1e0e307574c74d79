//! How many datagrams of strangers are served in a second: of one network, and of one host.
ghost use Rattle.std.specs.Prelude.{◌≡◌, ◌<◌, [], List, IfOk};
ghost use Rattle.rb_policy.specs.declared.recent.TheConstants.{PLACES};
ghost use Rattle.rb_policy.specs.Recents.{RecentMoments};
ghost use Rattle.rb_policy.specs.Places.{network_place, host_place};
ghost use Rattle.rb_policy.specs.Brake.{has_room_for, Datagram, admits, admit, host_counted, passes, pass, StandsForServed, ShowsServed, BecomesServed};

use crate::places::{PlaceKey, host_place, network_place};
use crate::recent::{PLACES, Table};
use rb_address::{Host, Source, Trust, Who};
use std::alloc::{AllocError, Global};
use std::marker::Model;

/// How many datagrams are served in a second.
#[derive(Clone, Copy)]
pub struct Rate {
    /// Of one network: of an IPv4 /24, or of an IPv6 /48.
    pub network: u32,
    /// Of one host.
    pub host: u32,
}

/// What drops datagrams that come too often. Networks and hosts are told apart by their places in tables of 1,024 each,
/// which go by a key, so those that share a place share what is served of it. `new` takes all of its memory: 8,192 bytes for each datagram
/// of the rate, and about 130,000 bytes as well.
#[derive(Drop)]
pub struct Brake {
    key: PlaceKey,
    rate: Rate,
    networks: Table,
    hosts: Table,
    /// The moment of the last that was served, in milliseconds.
    latest: u64,
}

impl Model for Brake {
    ghost use Rattle.rb_policy.specs.Brake.{BrakeTables};

    ghost Value = { BrakeTables };

    ghost view = { λ b. record {
      key = b.key;
      rate = b.rate;
      networks = b.networks;
      hosts = b.hosts;
      latest = b.latest;
    } };
}

impl Brake {
    /// Nothing was served. An error if an allocation is refused.
    pub fn new(alloc: Global, key: PlaceKey, rate: Rate) -> Result<Brake, AllocError>
        ensures key { IfOk result (λ brake. brake.key ≡ key) }
        ensures rate { IfOk result (λ brake. brake.rate ≡ rate) }
        ensures stands { IfOk result (λ brake. StandsForServed brake []) }
    {
        Ok(Brake {
            key,
            rate,
            networks: Table::new(alloc, rate.network as usize)?,
            hosts: Table::new(alloc, rate.host as usize)?,
            latest: 0,
        })
    }

    /// Whether a datagram from this host is served that came at this moment, in milliseconds. One that is served counts
    /// from then on. A moment before the last one counts as that.
    pub fn admit(&mut self, now: u64, host: Host) -> bool
        ensures key { self.new.key ≡ self.old.key }
        ensures rate { self.new.rate ≡ self.old.rate }
        ensures admits { ShowsServed
            (λ served. admits self.old.key self.old.rate served now host) self.old result }
        ensures stands { BecomesServed
            (λ served. admit self.old.key self.old.rate served now host) self.old self.new }
    {
        let now = now.max(self.latest);
        let network = network_place(self.key, host);
        let place = host_place(self.key, host);
        if !self.has_room(network, place, now) {
            return false;
        }
        self.networks.note(network, now);
        self.hosts.note(place, now);
        self.latest = now;
        true
    }

    /// Whether a datagram of this caller is served that came at this moment, in milliseconds: of a stranger if it is
    /// admitted, and of anyone else always.
    pub fn passes(&mut self, now: u64, who: &Who) -> bool
        ensures key { self.new.key ≡ self.old.key }
        ensures rate { self.new.rate ≡ self.old.rate }
        ensures passes { ShowsServed
            (λ served. passes self.old.key self.old.rate served now who.now) self.old result }
        ensures stands { BecomesServed
            (λ served. pass self.old.key self.old.rate served now who.now) self.old self.new }
    {
        match host_counted(who) {
            Some(host) => self.admit(now, host),
            None => true,
        }
    }

    /// Whether one more may be served of the place of a network, and of that of a host, at this moment.
    fn has_room(&self, network: usize, host: usize, now: u64) -> bool
        requires network { network < PLACES }
        requires host { host < PLACES }
        ensures { (other : RecentMoments) → result ≡ has_room_for self.now network host now other }
    {
        self.networks.has_room(network, now) && self.hosts.has_room(host, now)
    }
}

/// The host by which a datagram of this caller counts, if it is a stranger.
fn host_counted(who: &Who) -> Option<Host>
    ensures { result ≡ host_counted who.now.trust who.now.source }
{
    match (who.trust, who.source) {
        (Trust::Stranger, Source::Inet(peer)) => Some(peer.host()),
        (Trust::Stranger, Source::Local) | (Trust::Claims | Trust::Local(_), _) => None,
    }
}
