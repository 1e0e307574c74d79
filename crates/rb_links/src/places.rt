//! All places of connections: which of them are left for later, and who gets one.
ghost use Rattle.std.specs.Prelude.{◌≡◌, ◌-◌, ◌<◌, ℕ, ◌+◌, true, false, ◌||◌, vec_len, length, map, position, Some, None, IfOk, IfSome};
ghost use Rattle.std.specs.Option.{is_some};
ghost use Rattle.std.specs.List.{list_any};
ghost use Rattle.rb_policy.specs.Door.{IsAdmitted};
ghost use Rattle.rb_policy.specs.Turns.{accept_count, last_round};
ghost use Rattle.rb_policy.specs.Rounds.{StayBut, IsLeft};
ghost use Rattle.rb_links.specs.Shown.{is_held};
ghost use Rattle.rb_forward.specs.Deadlines.{soonest_of};
ghost use Rattle.rb_links.specs.Stands.{is_number, stuck_of};
ghost use Rattle.rb_links.specs.Served.{link_at, key_at, stuck_at, awaits_at, next_stuck, ChangesAt, IsWoken, when_ended, unnumbered, renumbered, in_pass, is_sought_at, is_taken_at, taken_after, IsOverAt, StaysUnknownAt, IsNotedAt, AreNoted, is_unawaited_at, looks_for_ends, is_opened_at, round_at, IsLeftAt};
ghost use Rattle.rb_links.specs.Numbers.{number_at, arrival_at};
ghost use Rattle.rb_links.specs.Rounds.{IsServedAt, IsFirstAt, IsAgainAt, IsTakenUp};
ghost use Rattle.rb_links.specs.Tables.{sight_at, IsSeatedAt, IsShownAt, IsSoughtAt, AreSoughtIn, AreSought, HasSeenAt, HaveSeenIn, HaveSeen};
ghost use Rattle.rb_links.specs.Outgoing.{nothing_in, long_room};

use crate::link::{Link, Turn};
use crate::outbox::{LONG_ROOM, Outbox};
use mio::{Registry, Token};
use rb_address::Family;
use rb_arrivals::{Accepted, Arrival};
use rb_evidence::Sight;
use rb_forward::sooner;
use rb_policy::rounds::Rounds;
use rb_policy::{Admission, Holder, Origin, Round, accept_count, admit, is_unawaited};
use std::alloc::{AllocError, Global};

/// The places of connections, by the keys that their events show.
#[derive(Drop)]
pub struct Places {
    /// Each place, under its key.
    pub links: Vec<Link>,
    /// The long outbox, or that of the connection which has it.
    pub long_outbox: Outbox,
    /// What decides who is let in knows of each place, as of the last newcomer.
    holders: Vec<Option<Holder>>,
    /// How many places have connections.
    taken: usize,
    /// What the walk through one of the kernel's tables looks for, at each place.
    sights: Vec<Option<Sight>>,
    /// Whether connections may wait for a pass through the tables that has not begun.
    are_sought: bool,
    /// Whether bytes may wait for the sockets of some.
    are_owed: bool,
    /// Which of them a turn has served, and which are left.
    rounds: Rounds,
}

// PLACES-2: There are as many places as connections may be, or as descriptors are left for, and
// their memory is written at the start.
/// A number of free places. Each is written, so that its memory is the process's from here on.
fn free_places(alloc: Global, count: usize) -> Result<Vec<Link>, AllocError>
    ensures { IfOk result (λ places. vec_len places ≡ count) }
{
    let mut places = Vec::with_capacity(alloc, count)?;
    'places: for _i in 0..count {
        places.push_reserved(Link::new(alloc)?);
    }
    Ok(places)
}

/// As many places for what is looked for. Each is written, so that its memory is the process's from here on.
fn no_sights(alloc: Global, count: usize) -> Result<Vec<Option<Sight>>, AllocError> {
    let mut sights = Vec::with_capacity(alloc, count)?;
    'sights: for _i in 0..count {
        sights.push_reserved(None);
    }
    Ok(sights)
}

/// Notes at a place what a walk through the table of a family looks for there. Whether that is anything.
fn seek_at(links: &[Link], sights: &mut [Option<Sight>], key: usize, table: Family) -> bool
    ensures here { IsSoughtAt key table links.now sights.new }
    ensures others { StayBut key sights.old sights.new }
{
    if key >= links.len() || key >= sights.len() {
        return false;
    }
    let sight = links[key].sight_in(table);
    let is_some = sight.is_some();
    sights[key] = sight;
    is_some
}

/// Notes at each place what a walk through the table of a family looks for there. Whether that is anything.
fn seek_all(links: &[Link], sights: &mut [Option<Sight>], table: Family) -> bool
    ensures { AreSoughtIn table links.now sights.new }
{
    let mut is_some = false;
    'places: for key in 0..links.len() {
        is_some |= seek_at(links, sights, key, table);
    }
    is_some
}

/// Notes what a walk has seen of the connection at a place.
fn note_at(links: &mut [Link], sights: &mut [Option<Sight>], key: usize, is_whole: bool)
    ensures here { HasSeenAt key is_whole sights.old links.old links.new }
    ensures others { StayBut key links.old links.new }
    ensures sights { StayBut key sights.old sights.new }
{
    if key >= links.len() || key >= sights.len() {
        return;
    }
    if let Some(sight) = &sights[key] {
        links[key].note_seen(is_whole, sight);
    }
    sights[key] = None;
}

/// Notes what a walk has seen of each connection.
fn note_all(links: &mut [Link], sights: &mut [Option<Sight>], is_whole: bool)
    ensures { HaveSeenIn is_whole sights.old links.old links.new }
{
    'places: for key in 0..links.len() {
        note_at(links, sights, key, is_whole);
    }
}

/// A pass through the kernel's tables begins for each connection.
fn begin_all(links: &mut [Link])
    ensures { links.new ≡ map in_pass links.old }
{
    for link in links.iter_mut() {
        link.begin_pass();
    }
}

/// The first moment at which one of the connections is given up whose socket takes nothing until then.
fn first_stuck(links: &[Link]) -> Option<u64>
    ensures { result ≡ soonest_of (map stuck_of links.now) }
{
    let mut first = None;
    for link in links {
        first = sooner(first, link.stuck_at());
    }
    first
}

/// Notes what decides who is let in knows of the connection at a place.
fn note_holder(links: &[Link], holders: &mut [Option<Holder>], key: usize)
    ensures here { IsNotedAt key links.now holders.new }
    ensures others { StayBut key holders.old holders.new }
{
    if key < links.len() && key < holders.len() {
        holders[key] = links[key].holder();
    }
}

/// Notes it of each connection.
fn note_holders(links: &[Link], holders: &mut [Option<Holder>])
    ensures { AreNoted links.now holders.new }
{
    'holders: for key in 0..links.len() {
        note_holder(links, holders, key);
    }
}

impl Places {
    /// A number of places, which no connections have. An error if an allocation is refused.
    pub fn new(alloc: Global, count: usize) -> Result<Places, AllocError>
        ensures count { IfOk result (λ places. vec_len places.links ≡ count) }
        ensures long { IfOk result (λ places. places.long_outbox ≡ nothing_in long_room) }
        ensures rounds { IfOk result (λ places. length places.rounds.served.items ≡ count) }
    {
        let mut holders = Vec::with_capacity(alloc, count)?;
        holders.resize(count, None)?;
        Ok(Places {
            links: free_places(alloc, count)?,
            long_outbox: Outbox::new(alloc, LONG_ROOM)?,
            holders,
            sights: no_sights(alloc, count)?,
            taken: 0,
            are_sought: false,
            are_owed: false,
            rounds: Rounds::new(alloc, count)?,
        })
    }

    /// How many places there are.
    pub fn count(&self) -> usize
        ensures { result ≡ vec_len self.now.links }
    {
        self.links.len()
    }

    /// How many of them have connections.
    pub fn taken(&self) -> usize
        ensures { result ≡ self.now.taken }
    {
        self.taken
    }

    /// How many connections a turn accepts, as the places are now.
    pub fn accept_count(&self) -> usize
        ensures { result
            ≡ accept_count (vec_len self.now.links - self.now.taken) (vec_len self.now.links) }
    {
        let count = self.links.len();
        accept_count(count.saturating_sub(self.taken), count)
    }

    /// The key of the place that the connection of this number has.
    pub fn key_of(&self, id: u64) -> Option<usize>
        ensures { result ≡ position (λ link. is_number id link.id) self.now.links.items }
    {
        self.links.iter().position(|link| link.is_of(id))
    }

    /// The round of a turn in which the connection at a place is served.
    pub fn round(&self, key: usize) -> Option<Round>
        ensures round { result ≡ round_at key self.now }
        ensures none { result ≡ None → is_opened_at key self.now ≡ false }
    {
        match self.links.get(key) {
            Some(link) => Some(link.round(self.rounds.is_left(key))),
            None => None,
        }
    }

    /// Whether a connection is opened at a place.
    fn is_opened(&self, key: usize) -> bool
        ensures { result ≡ is_opened_at key self.now }
    {
        match self.links.get(key) {
            Some(link) => link.id().is_some(),
            None => false,
        }
    }

    /// A turn serves the connection at a place, if one is opened there and the turn has not served it yet. Whether it does.
    pub fn begins(&mut self, turn: Turn, key: usize) -> bool
        ensures taken_up { IsTakenUp turn.number key self.new }
        ensures served { result ≡ true → IsServedAt turn.number key self.new }
        ensures first { result ≡ true → IsFirstAt turn.number key self.old }
        ensures again { result ≡ false → IsAgainAt turn.number key self.old }
        ensures others { StayBut key
            self.old.rounds.served.items self.new.rounds.served.items }
        ensures left { self.new.rounds.left ≡ self.old.rounds.left }
        ensures count { self.new.rounds.count ≡ self.old.rounds.count }
        ensures links { self.new ≡ record self.old { rounds = self.new.rounds } }
    {
        if !self.is_opened(key) {
            return false;
        }
        self.rounds.serve(key, turn.number)
    }

    /// The connection at a place must be served though no event shows it again, if one is opened there.
    pub fn leave(&mut self, key: usize)
        ensures left { is_opened_at key self.old ≡ true → IsLeftAt key self.new }
        ensures taken_up { (turn : ℕ) → IsTakenUp turn key self.new }
        ensures others { StayBut key self.old.rounds.left.items self.new.rounds.left.items }
        ensures served { self.new.rounds.served ≡ self.old.rounds.served }
        ensures count { self.new.rounds.count ≡ self.old.rounds.count }
        ensures links { self.new ≡ record self.old { rounds = self.new.rounds } }
    {
        if self.is_opened(key) {
            self.rounds.leave(key);
        }
    }

    /// The connection of the number goes on, though no event shows it: its forwarded call has ended.
    pub fn wake(&mut self, id: u64)
        ensures { IfSome (key_at id self.old) (λ key. IsWoken key self.old self.new) }
    {
        let Some(key) = self.key_of(id) else {
            return;
        };
        if let Some(link) = self.links.get_mut(key) {
            link.wake();
            self.rounds.leave(key);
        }
    }

    /// Whether connections must be served though no event shows them.
    pub fn are_left(&self) -> bool
        ensures { result ≡ self.now.rounds.are_left }
    {
        self.rounds.are_left()
    }

    /// The last round of a turn begins, if connections are left for it. Whether some are.
    pub fn begin_last_round(&mut self) -> bool
        ensures left { self.new.rounds.left ≡ self.old.rounds.left }
        ensures served { self.new.rounds.served ≡ self.old.rounds.served }
        ensures count { self.new.rounds.count ≡ 0 }
    {
        self.rounds.begin();
        self.rounds.are_left()
    }

    /// The place of the next connection that the last round serves, if there is one: it is left no longer.
    pub fn take_left(&mut self) -> Option<usize>
        ensures was { IfSome result (λ key. IsLeft key self.old.rounds.left.items) }
        ensures others { IfSome result (λ key.
            StayBut key self.old.rounds.left.items self.new.rounds.left.items) }
        ensures none { result ≡ None → self.new.rounds.left ≡ self.old.rounds.left }
        ensures few { IfSome result (λ key. self.old.rounds.count < last_round) }
        ensures count { IfSome result (λ key.
            self.new.rounds.count ≡ self.old.rounds.count + 1) }
        ensures served { self.new.rounds.served ≡ self.old.rounds.served }
        ensures links { self.new ≡ record self.old { rounds = self.new.rounds } }
    {
        self.rounds.take()
    }

    /// A turn has served the connection at a place: bytes may wait for its socket from here on, and its call for a pass.
    pub fn note_served(&mut self, key: usize)
        ensures { self.new ≡ record self.old {
          are_owed = self.old.are_owed || is_some (stuck_at key self.old);
          are_sought = self.old.are_sought || awaits_at key self.old;
        } }
    {
        self.are_owed |= self.stuck_at(key).is_some();
        self.are_sought |= self.links.get(key).is_some_and(|link| link.awaits_pass());
    }

    /// The moment, in milliseconds, at which the connection at a place is given up, if its socket takes nothing of what
    /// waits for it until then; none if nothing waits.
    pub fn stuck_at(&self, key: usize) -> Option<u64>
        ensures { result ≡ stuck_at key self.now }
    {
        self.links.get(key)?.stuck_at()
    }

    /// The first such moment of all connections.
    pub fn next_stuck(&mut self) -> Option<u64>
        ensures next { result ≡ next_stuck self.old }
        ensures owed { self.new ≡ record self.old { are_owed = is_some result } }
    {
        if !self.are_owed {
            return None;
        }
        let next = first_stuck(self.links.as_slice());
        self.are_owed = next.is_some();
        next
    }

    // TABLES-9
    /// Closes the connection at a place, if there is one, and gives its number, if it is opened. Nothing that a walk saw of
    /// it is left.
    pub fn close(&mut self, key: usize) -> Option<u64>
        ensures number { IfSome result (λ id. number_at self.old key ≡ Some id) }
        ensures sight { IfSome result (λ id. sight_at self.new key ≡ None) }
        ensures over { is_taken_at key self.old ≡ true → IsOverAt key self.old self.new }
        ensures others { StayBut key self.old.links.items self.new.links.items }
        ensures served { self.new.rounds.served ≡ self.old.rounds.served }
        ensures count { self.new.rounds.count ≡ self.old.rounds.count }
    {
        let link = self.links.get_mut(key)?;
        if link.is_free() {
            return None;
        }
        self.rounds.forget(key);
        self.taken = self.taken.saturating_sub(1);
        if let Some(sight) = self.sights.get_mut(key) {
            *sight = None;
        }
        link.close(&mut self.long_outbox)
    }

    /// What is done with a newcomer in a turn, as the connections stand now. If one is given up, the kernel's tables are to
    /// show of all from this host whose they are.
    pub fn admit(&mut self, newcomer: &Origin, turn: Turn) -> Admission
        ensures { IsAdmitted self.new.holders.items newcomer.now turn.moment result }
    {
        let mut admission = self.admit_by_events(newcomer, turn);
        if self.look_for_ends(admission) {
            admission = self.admit_by_events(newcomer, turn);
        }
        if let Admission::GiveUp(_) = admission {
            for link in &mut self.links {
                self.are_sought |= link.seek();
            }
        }
        admission
    }

    /// What is done with a newcomer, by what is noted of the connections.
    fn admit_by_events(&mut self, newcomer: &Origin, turn: Turn) -> Admission
        ensures admitted { IsAdmitted self.new.holders.items newcomer.now turn.moment result }
        ensures noted { AreNoted self.new.links.items self.new.holders.items }
        ensures links { self.new.links ≡ self.old.links }
    {
        note_holders(self.links.as_slice(), self.holders.as_mut_slice());
        admit(self.holders.as_slice(), newcomer, turn.moment)
    }

    // DOOR-14: While calls are held back, it is looked which clients of this host have ended what they
    // send, before a connection is given up on which somebody may wait.
    /// Looks which clients of this host have ended what they send, if calls are held back and a connection is given up on which
    /// somebody may wait. Whether it did.
    fn look_for_ends(&mut self, admission: Admission) -> bool
        ensures looks { result ≡ looks_for_ends admission self.old }
        ensures not { result ≡ false → self.new ≡ self.old }
    {
        let Admission::GiveUp(key) = admission else {
            return false;
        };
        if self.is_unawaited(key) || !self.are_held() {
            return false;
        }
        for link in &mut self.links {
            link.look_for_end();
        }
        true
    }

    /// Whether nobody waits on the connection at a place, as of the last newcomer.
    fn is_unawaited(&self, key: usize) -> bool
        ensures { result ≡ is_unawaited_at key self.now }
    {
        match self.holders.get(key) {
            Some(Some(holder)) => is_unawaited(&holder.origin),
            Some(None) | None => false,
        }
    }

    /// Whether calls are held back.
    fn are_held(&self) -> bool
        ensures { result ≡ list_any (λ link. is_held link.held) self.now.links.items }
    {
        self.links.iter().any(|link| link.is_held())
    }

    /// An event shows that the peer of the connection at a place has ended what it sends, or has reset it.
    pub fn note_ended(&mut self, key: usize)
        ensures { ChangesAt key when_ended self.old self.new }
    {
        if let Some(link) = self.links.get_mut(key) {
            link.note_ended();
        }
    }

    /// Gives a connection a place at this moment, in milliseconds, if there is that place. It is not opened yet.
    pub fn seat(&mut self, key: usize, accepted: Accepted, origin: Origin, moment: u64)
        ensures seated { IsSeatedAt key accepted.visitor origin moment self.new }
        ensures taken { self.new.taken ≡ taken_after key self.old }
    {
        if let Some(link) = self.links.get_mut(key) {
            link.take(accepted, origin, moment);
            self.taken = self.taken.saturating_add(1);
        }
    }

    /// How whoever is at a place came in, as far as is known.
    pub fn arrival(&self, key: usize) -> Option<Arrival>
        ensures { result ≡ arrival_at self.now key }
    {
        self.links.get(key)?.arrival()
    }

    /// The connection at a place is opened under this number of the core's, and its events are shown under the place's
    /// key. Whether that was done.
    pub fn open(&mut self, registry: &Registry, key: usize, id: u64) -> bool
        ensures number { result ≡ true → number_at self.new key ≡ Some id }
        ensures others { StayBut key self.old.links.items self.new.links.items }
    {
        match self.links.get_mut(key) {
            Some(link) => link.open(registry, Token(key), id),
            None => false,
        }
    }

    /// Whether connections may wait for a pass through the kernel's tables that has not begun.
    pub fn are_sought(&self) -> bool
        ensures { result ≡ self.now.are_sought }
    {
        self.are_sought
    }

    /// A pass through the kernel's tables begins, for all of which they are to show now whose they are.
    pub fn begin_pass(&mut self)
        ensures sought { self.new.are_sought ≡ false }
        ensures links { self.new.links.items ≡ map in_pass self.old.links.items }
    {
        self.are_sought = false;
        begin_all(self.links.as_mut_slice());
    }

    // TABLES-2
    /// A walk through the table of a family begins: what it looks for, if anything is looked for there.
    pub fn begin_walk(&mut self, table: Family) -> bool
        ensures { AreSought table self.new }
    {
        seek_all(self.links.as_slice(), self.sights.as_mut_slice(), table)
    }

    /// What the walk looks for, at each place.
    pub fn sights(&mut self) -> &mut [Option<Sight>] {
        self.sights.as_mut_slice()
    }

    // TABLES-3
    /// The walk is over: it came to the end of its table, or the table can't be read.
    pub fn end_walk(&mut self, is_whole: bool)
        ensures { HaveSeen is_whole self.old self.new }
    {
        note_all(
            self.links.as_mut_slice(),
            self.sights.as_mut_slice(),
            is_whole,
        );
    }

    /// A pass has ended at this moment, in milliseconds: whether the connection at a place goes on as who it is, as a call is
    /// held back there and need not wait for one more.
    pub fn shown(&mut self, key: usize, moment: u64) -> bool
        ensures shown { result ≡ true → IsShownAt key moment self.old self.new }
        ensures waits { result ≡ false → StaysUnknownAt key self.old self.new }
        ensures sought { self.new.are_sought ≡ (self.old.are_sought || is_sought_at key self.new) }
    {
        let Some(link) = self.links.get_mut(key) else {
            return false;
        };
        let goes_on = link.shown(moment);
        self.are_sought |= link.is_sought();
        goes_on
    }

    /// The number of the connection at a place, which is its own no longer.
    pub fn take_id(&mut self, key: usize) -> Option<u64>
        ensures taken { result ≡ number_at self.old key }
        ensures changed { ChangesAt key unnumbered self.old self.new }
    {
        self.links.get_mut(key)?.take_id()
    }

    /// The connection at a place goes on under this number. Whether there is such a place.
    pub fn renumber(&mut self, key: usize, id: u64) -> bool
        ensures number { result ≡ true → number_at self.new key ≡ Some id }
        ensures left { result ≡ true → IsLeftAt key self.new }
        ensures there { result ≡ is_some (link_at self.old key) }
        ensures changed { ChangesAt key (renumbered id) self.old self.new }
    {
        let Some(link) = self.links.get_mut(key) else {
            return false;
        };
        link.renumber(id);
        self.rounds.leave(key);
        true
    }
}
