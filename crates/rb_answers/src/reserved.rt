//! Programs that belong to somebody: who may set their rows.
ghost use Rattle.std.specs.Prelude.{◌≡◌};
ghost use Rattle.std.specs.List.{list_any};
ghost use Rattle.rb_answers.specs.Reserved.{is_covered, is_reserved, is_reserved_by, is_its_owner, may_own};

use arrayvec::ArrayVec;
use rb_address::Owner;
use rb_registry::Row;
use std::marker::Model;

/// How many reservations there may be.
pub const MOST_RESERVED: usize = 64;

/// Rows of the programs from `first` to `last` are set by this uid, or by uid 0, alone. If several reservations cover a
/// program, it belongs to the uids of all of them.
#[derive(Clone, Copy, Default)]
pub struct Reservation {
    /// The first program.
    pub first: u32,
    /// The last program.
    pub last: u32,
    /// Whose they are.
    pub uid: u32,
}

/// The reservations, at most 64.
#[derive(Drop)]
pub struct Reserved {
    all: ArrayVec<Reservation, MOST_RESERVED>,
}

impl Model for Reserved {
    ghost use Rattle.std.specs.Prelude.{List};
    ghost use Rattle.rb_answers.specs.declared.reserved.Reservation.{Reservation};

    ghost Value = { List Reservation };

    ghost view = { λ r. r.all.items };
}

/// The reservations, which the listener has.
#[derive(Drop)]
pub struct LentReserved<'a> {
    reserved: &'a Reserved,
}

impl<'a> Model for LentReserved<'a> {
    ghost use Rattle.std.specs.Prelude.{List};
    ghost use Rattle.rb_answers.specs.declared.reserved.Reservation.{Reservation};

    ghost Value = { List Reservation };

    ghost view = { λ r. r.reserved.now };
}

impl Reservation {
    /// Whether the program is one of these.
    fn covers(&self, prog: u32) -> bool
        ensures { result ≡ is_covered prog self.now }
    {
        self.first <= prog && prog <= self.last
    }

    /// Whether the program is one of these, and they are of this uid.
    fn is_by(&self, prog: u32, uid: u32) -> bool
        ensures { result ≡ is_reserved_by prog uid self.now }
    {
        self.covers(prog) && self.uid == uid
    }
}

/// Whether some reservation covers the program.
fn is_reserved(reserved: &[Reservation], prog: u32) -> bool
    ensures { result ≡ is_reserved reserved.now prog }
{
    reserved.iter().any(|r| r.covers(prog))
}

/// Whether the program is reserved for this uid.
fn is_for(reserved: &[Reservation], prog: u32, uid: u32) -> bool
    ensures { result ≡ list_any (is_reserved_by prog uid) reserved.now }
{
    reserved.iter().any(|r| r.is_by(prog, uid))
}

/// Whether the owner is uid 0, or a uid for which the program is reserved.
fn is_its_owner(reserved: &[Reservation], prog: u32, owner: Owner) -> bool
    ensures { result ≡ is_its_owner reserved.now prog owner }
{
    match owner {
        Owner::Unknown => false,
        Owner::Uid(uid) => uid == 0 || is_for(reserved, prog, uid),
    }
}

impl Reserved {
    ghost use Rattle.std.specs.Prelude.{◌≡◌, ◌++◌, ◌∷◌, [], ◌<◌, ◌≤◌, length};

    /// None.
    pub fn new() -> Reserved
        ensures { result ≡ [] }
    {
        Reserved {
            all: ArrayVec::new(),
        }
    }

    /// Another list of the same.
    pub fn copied(&self) -> Reserved
        ensures { result ≡ self.now }
    {
        let mut all = ArrayVec::new();
        match all.try_extend_from_slice(self.as_slice()) {
            Ok(()) => Reserved { all },
            Err(_) => unreachable!(),
        }
    }

    /// How many there are.
    pub fn len(&self) -> usize
        ensures { result ≡ length self.now }
    {
        self.as_slice().len()
    }

    /// Puts one behind the others.
    pub fn push(&mut self, reservation: Reservation)
        requires { length self.old < 64 }
        ensures { self.new ≡ self.old ++ reservation ∷ [] }
    {
        self.all.push(reservation);
    }

    /// All of them, in the order in which they came.
    pub fn as_slice(&self) -> &[Reservation]
        ensures all { result.now ≡ self.now }
        ensures few { length result.now ≤ 64 }
    {
        self.all.as_slice()
    }

    /// The same, for a call.
    pub fn lend(&self) -> LentReserved<'_>
        ensures { result ≡ self.now }
    {
        LentReserved { reserved: self }
    }
}

impl<'a> LentReserved<'a> {
    /// Whether rows of this program may be set by this owner.
    #[tactic(auto, unfolding(crate::specs::Reserved::may_own))]
    pub fn may_own(&self, row: &Row) -> bool
        ensures { result ≡ may_own self.now row.now }
    {
        let all = self.reserved.as_slice();
        !is_reserved(all, row.prog) || is_its_owner(all, row.prog, row.owner)
    }
}
