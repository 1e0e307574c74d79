//! The moments of what was served last, of one place and of all places of a table.
ghost use Rattle.std.specs.Prelude.{◌≡◌, [], IfOk};
ghost use Rattle.std.specs.VecDeque.{deque_capacity};
ghost use Rattle.rb_policy.specs.Recents.{has_room, noted};

use std::alloc::{AllocError, Global};
use std::collections::VecDeque;
use std::marker::Model;

/// How many places a table has.
pub(crate) const PLACES: usize = 1_024;

/// How long what was served counts, in milliseconds.
pub(crate) const SECOND: u64 = 1_000;

/// The moments of the last that were served of one place, in their order: at most `most`. `new` takes and writes all of
/// their memory.
#[derive(Drop)]
pub(crate) struct Recent {
    moments: VecDeque<u64>,
    most: usize,
}

impl Model for Recent {
    ghost use Rattle.std.specs.VecDeque.{deque_capacity};
    ghost use Rattle.rb_policy.specs.Recents.{RecentMoments, IsRecent};

    ghost Value = { RecentMoments };

    ghost view = { λ r. record { most = r.most; moments = r.moments.items } };

    ghost invariant = { λ r. IsRecent r.moments.items (deque_capacity r.moments) r.most };
}

/// Memory for this many moments, each of which was written.
fn memory_for(alloc: Global, most: usize) -> Result<VecDeque<u64>, AllocError>
    ensures empty { IfOk result (λ moments. moments.items ≡ []) }
    ensures room { IfOk result (λ moments. deque_capacity moments ≡ most) }
{
    let mut moments = VecDeque::with_capacity(alloc, most)?;
    'moments: for _i in 0..most {
        moments.push_back_reserved(0);
    }
    moments.clear();
    Ok(moments)
}

impl Recent {
    /// Nothing was served. An error if the allocation is refused.
    fn new(alloc: Global, most: usize) -> Result<Recent, AllocError>
        ensures { IfOk result (λ r. r ≡ record { most = most; moments = [] }) }
    {
        Ok(Recent {
            moments: memory_for(alloc, most)?,
            most,
        })
    }

    /// Whether fewer than the most were served within a second before this moment, if none was served after it.
    fn has_room(&self, now: u64) -> bool
        ensures { result ≡ has_room self.now now }
    {
        if self.moments.len() < self.most {
            return true;
        }
        match self.moments.front() {
            Some(first) => now.saturating_sub(*first) >= SECOND,
            None => false,
        }
    }

    /// One more was served, at this moment.
    fn note(&mut self, now: u64)
        ensures { self.new ≡ noted self.old now }
    {
        if self.moments.len() == self.most {
            let _ = self.moments.pop_front();
        }
        if self.moments.len() < self.most {
            self.moments.push_back_reserved(now);
        }
    }
}

/// What was served last of each place.
#[derive(Drop)]
pub(crate) struct Table {
    places: Vec<Recent>,
}

impl Model for Table {
    ghost use Rattle.std.specs.Prelude.{List, ◌≡◌, length};
    ghost use Rattle.rb_policy.specs.declared.recent.TheConstants.{PLACES};
    ghost use Rattle.rb_policy.specs.Recents.{RecentMoments};

    ghost Value = { List RecentMoments };

    ghost view = { λ t. t.places.items };

    ghost invariant = { λ t. length t.places.items ≡ PLACES };
}

impl Table {
    ghost use Rattle.std.specs.Prelude.{◌≡◌, ◌<◌, slice_index_or, replicate, IfOk};
    ghost use Rattle.rb_policy.specs.declared.recent.TheConstants.{PLACES};
    ghost use Rattle.rb_policy.specs.Recents.{NotesAt, RecentMoments, has_room, nothing_of};

    /// Nothing was served of any place, of each of which at most `most` count. An error if an allocation is refused.
    pub(crate) fn new(alloc: Global, most: usize) -> Result<Table, AllocError>
        ensures { IfOk result (λ table. table ≡ replicate PLACES (nothing_of most)) }
    {
        let mut places = Vec::with_capacity(alloc, PLACES)?;
        'places: for _i in 0..PLACES {
            places.push_reserved(Recent::new(alloc, most)?);
        }
        Ok(Table { places })
    }

    /// Whether one more may be served of a place at this moment.
    pub(crate) fn has_room(&self, place: usize, now: u64) -> bool
        requires { place < PLACES }
        ensures { (d : RecentMoments) → result ≡ has_room (slice_index_or self.now place d) now }
    {
        self.places[place].has_room(now)
    }

    /// One more was served of a place, at this moment.
    pub(crate) fn note(&mut self, place: usize, now: u64)
        requires { place < PLACES }
        ensures { NotesAt place now self.old self.new }
    {
        let recent = &mut self.places[place];
        recent.note(now);
    }
}
