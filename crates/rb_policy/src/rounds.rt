//! Which connections a turn serves, by their places, and which are left for later.
ghost use Rattle.std.specs.Prelude.{◌≡◌, IfSome, length};
ghost use Rattle.rb_policy.specs.Rounds.{is_left_at, IsLeft, IsNoted, NoneWithin};

use crate::turns::serves_another;
use std::alloc::{AllocError, Global};

/// Which connections were served, and which must be served though no event shows them: these are left. `new` takes all of
/// its memory.
#[derive(Drop)]
pub struct Rounds {
    /// Of each place the number of the last turn that served it.
    served: Vec<u64>,
    /// Whether it is left.
    left: Vec<bool>,
    /// Whether one may be left.
    are_left: bool,
    /// The place at which the last round of a turn begins.
    first: usize,
    /// The place at which this one goes on.
    next: usize,
    /// Whether it has been at all places from the first one on.
    has_turned: bool,
    /// How many it has served.
    count: usize,
    ghost sizes: { length left.items ≡ length served.items },
    ghost noted: { IsNoted left.items are_left },
}

/// Whether the connection at a place is left.
fn is_left(left: &[bool], key: usize) -> bool
    ensures { result ≡ is_left_at left.now key }
{
    match left.get(key) {
        Some(is_left) => *is_left,
        None => false,
    }
}

/// The first of the places from this one on, in front of that one, that is left.
fn find(left: &[bool], from: usize, to: usize) -> Option<usize>
    ensures found { IfSome result (λ key. IsLeft key left.now) }
    ensures none { NoneWithin left.now from to result }
{
    'places: for key in from..to {
        if is_left(left, key) {
            return Some(key);
        }
    }
    None
}

impl Rounds {
    ghost use Rattle.std.specs.Prelude.{◌≡◌, ◌<◌, ◌+◌, true, false, None, length, IfOk, IfSome};
    ghost use Rattle.rb_policy.specs.Turns.{last_round};
    ghost use Rattle.rb_policy.specs.Rounds.{IsServedIn, StayBut};

    /// A number of places, none of which was served or is left. An error if an allocation is refused.
    pub fn new(alloc: Global, count: usize) -> Result<Rounds, AllocError>
        ensures count { IfOk result (λ rounds. length rounds.served.items ≡ count) }
        ensures none { IfOk result (λ rounds. rounds.are_left ≡ false) }
    {
        let mut served = Vec::with_capacity(alloc, count)?;
        served.resize(count, 0u64)?;
        let mut left = Vec::with_capacity(alloc, count)?;
        left.resize(count, false)?;
        Ok(Rounds {
            served,
            left,
            are_left: false,
            first: 0,
            next: 0,
            has_turned: false,
            count: 0,
        })
    }

    /// The turn of this number serves the connection at a place, if it has not yet. Whether it has not.
    pub fn serve(&mut self, key: usize, turn: u64) -> bool
        ensures served { key < length self.new.served.items → IsServedIn turn key self.new.served.items }
        ensures once { result ≡ true → IsServedIn turn key self.old.served.items → ⊥ }
        ensures again { result ≡ false → key < length self.old.served.items
            → IsServedIn turn key self.old.served.items }
        ensures others { StayBut key self.old.served.items self.new.served.items }
        ensures left { self.new.left ≡ self.old.left }
        ensures count { self.new.count ≡ self.old.count }
    {
        let Some(served) = self.served.get_mut(key) else {
            return false;
        };
        let is_first = *served != turn;
        *served = turn;
        is_first
    }

    /// The connection at a place is left.
    pub fn leave(&mut self, key: usize)
        ensures left { key < length self.new.served.items → IsLeft key self.new.left.items }
        ensures others { StayBut key self.old.left.items self.new.left.items }
        ensures served { self.new.served ≡ self.old.served }
        ensures count { self.new.count ≡ self.old.count }
    {
        if let Some(is_left) = self.left.get_mut(key) {
            *is_left = true;
            self.are_left = true;
        }
    }

    /// The connection at a place is left no longer.
    pub fn forget(&mut self, key: usize)
        ensures here { IsLeft key self.new.left.items → ⊥ }
        ensures others { StayBut key self.old.left.items self.new.left.items }
        ensures served { self.new.served ≡ self.old.served }
        ensures count { self.new.count ≡ self.old.count }
    {
        if let Some(is_left) = self.left.get_mut(key) {
            *is_left = false;
        }
    }

    /// Whether the connection at a place is left.
    pub fn is_left(&self, key: usize) -> bool
        ensures { result ≡ is_left_at self.now.left.items key }
    {
        is_left(self.left.as_slice(), key)
    }

    /// Whether connections may be left: if one is, the next turn does not wait.
    pub fn are_left(&self) -> bool
        ensures { result ≡ self.now.are_left }
    {
        self.are_left
    }

    /// The last round of a turn begins.
    pub fn begin(&mut self)
        ensures left { self.new.left ≡ self.old.left }
        ensures served { self.new.served ≡ self.old.served }
        ensures count { self.new.count ≡ 0 }
    {
        self.next = self.first;
        self.has_turned = false;
        self.count = 0;
    }

    /// The next connection that is served in the last round, by its place: it is left no longer. None if there is none, or as
    /// many were served as in a turn are. The next turn's then begins with the first that was passed over.
    pub fn take(&mut self) -> Option<usize>
        ensures was { IfSome result (λ key. IsLeft key self.old.left.items) }
        ensures is { IfSome result (λ key. IsLeft key self.new.left.items → ⊥) }
        ensures others { IfSome result (λ key. StayBut key self.old.left.items self.new.left.items) }
        ensures none { result ≡ None → self.new.left ≡ self.old.left }
        ensures few { IfSome result (λ key. self.old.count < last_round) }
        ensures count { IfSome result (λ key. self.new.count ≡ self.old.count + 1) }
        ensures served { self.new.served ≡ self.old.served }
    {
        if serves_another(self.count) {
            if let Some(key) = self.find_ahead() {
                self.count += 1;
                self.next = key.saturating_add(1);
                self.forget(key);
                return Some(key);
            }
        }
        self.end();
        None
    }

    /// The next one that is left, of those at which the last round has not been.
    fn find_ahead(&mut self) -> Option<usize>
        ensures found { IfSome result (λ key. IsLeft key self.new.left.items) }
        ensures left { self.new.left ≡ self.old.left }
        ensures served { self.new.served ≡ self.old.served }
        ensures count { self.new.count ≡ self.old.count }
    {
        if !self.has_turned {
            let all = self.left.len();
            if let Some(key) = find(self.left.as_slice(), self.next, all) {
                return Some(key);
            }
            self.has_turned = true;
            self.next = 0;
        }
        find(self.left.as_slice(), self.next, self.first)
    }

    /// The last round is over: the next one begins with the first that was passed over.
    fn end(&mut self)
        ensures left { self.new.left ≡ self.old.left }
        ensures served { self.new.served ≡ self.old.served }
    {
        let left = self.left.as_slice();
        let ahead = find(left, self.next, left.len());
        let passed = match ahead {
            Some(key) => Some(key),
            None => find(left, 0, self.next),
        };
        self.are_left = passed.is_some();
        if let Some(key) = passed {
            self.first = key;
        }
    }
}
