//! Connections whose replies wait until the changes of a turn are kept.
use rb_policy::MOST_HELD;
use std::alloc::{AllocError, Global};

/// A connection whose replies wait in its outbox.
#[derive(Clone, Copy)]
pub struct HeldLink {
    /// Its place.
    pub key: usize,
    /// How many socket calls of the turn were made for it.
    pub calls: usize,
    /// Whether its peer may have ended what it sends.
    pub may_end: bool,
}

/// Connections whose replies wait, in their order.
#[derive(Drop)]
pub struct HeldLinks {
    all: Vec<HeldLink>,
}

impl HeldLinks {
    ghost use Rattle.std.specs.Prelude.{◌≡◌, [], ◌∷◌, ◌++◌, IsTrue, IfOk};

    /// None, with room for those that may wait.
    pub fn new(alloc: Global) -> Result<HeldLinks, AllocError>
        ensures { IfOk result (λ links. links.all.items ≡ []) }
    {
        let mut all = Vec::with_capacity(alloc, MOST_HELD)?;
        let blank = HeldLink {
            key: 0,
            calls: 0,
            may_end: false,
        };
        all.resize(MOST_HELD, blank)?;
        all.clear();
        Ok(HeldLinks { all })
    }

    /// Whether there is room for no more.
    pub fn is_full(&self) -> bool {
        self.all.len() >= MOST_HELD
    }

    /// Has the connection at a place wait behind the others, if there is room. Returns whether it waits.
    pub fn hold(&mut self, key: usize, calls: usize, may_end: bool) -> bool
        ensures { IsTrue result → self.new.all.items
            ≡ self.old.all.items ++ (record { key = key; calls = calls; may_end = may_end }) ∷ [] }
    {
        let link = HeldLink {
            key,
            calls,
            may_end,
        };
        !self.is_full() && self.all.push(link).is_ok()
    }

    /// Those that wait.
    pub fn as_slice(&self) -> &[HeldLink]
        ensures { result.now ≡ self.now.all.items }
    {
        self.all.as_slice()
    }

    /// None waits from here on.
    pub fn clear(&mut self)
        ensures { self.new.all.items ≡ [] }
    {
        self.all.clear();
    }
}
