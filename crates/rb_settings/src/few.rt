//! A list of few values.
use std::marker::Model;

/// The most values of a list: of the hosts of `--bind`, and of the networks of `--from`.
pub const MOST: usize = 16;

/// At most 16 values, in their order. It takes no memory but its own.
#[derive(Drop)]
pub struct Few<T> {
    /// Those from `len` on stand for nothing.
    places: [T; MOST],
    len: usize,
}

impl<T> Model for Few<T> {
    ghost use Rattle.std.specs.Prelude.{◌≡◌, ◌≤◌, List, length, take};

    ghost Value = { List T };

    ghost view = { λ few. take few.len few.places };

    ghost invariant = { λ few. few.len ≤ 16 };
}

impl<T: Copy> Few<T> {
    ghost use Rattle.std.specs.Prelude.{◌≡◌, ◌<◌, [], ◌∷◌, ◌++◌, length};

    /// None yet. Until they are taken, the places have the value `blank`.
    pub fn new(blank: T) -> Few<T>
        ensures { result ≡ [] }
    {
        Few {
            places: [blank; MOST],
            len: 0,
        }
    }

    /// How many there are.
    pub fn len(&self) -> usize
        ensures { result ≡ length self.now }
    {
        self.as_slice().len()
    }

    /// Puts one after the others.
    pub fn push(&mut self, value: T)
        requires { length self.old < MOST }
        ensures { self.new ≡ self.old ++ value ∷ [] }
    {
        self.places[self.len] = value;
        self.len += 1;
    }

    /// All of them.
    pub fn as_slice(&self) -> &[T]
        ensures { result.now ≡ self.now }
    {
        &self.places[..self.len]
    }
}
