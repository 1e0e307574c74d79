//! Who set the rows that were kept.
ghost use Rattle.std.specs.Prelude.{◌≡◌};
ghost use Rattle.rb_keep.specs.Kept.{owner_number, owner_numbered};

use rb_address::Owner;
use rb_xdr::{Meter, NoMemory, Ordered};
use std::alloc::Global;
use std::io;
use std::io::ErrorKind;
use std::marker::Model;

/// The owner of each row that was kept, by program, netid and version: so a change is known of without a look at the
/// other rows.
#[derive(Drop)]
pub struct Owners {
    numbers: Ordered,
    /// How many they are.
    count: usize,
    /// How many they may be.
    most: usize,
    meter: Meter,
}

impl Model for Owners {
    ghost use Rattle.std.specs.Prelude.{◌≡◌, ℕ, List, length};

    ghost Value = { List (ℕ × ℕ) };

    ghost view = { λ o. o.numbers.entries };

    ghost invariant = { λ o. (o.meter.tie ≡ o.numbers.tie)
        × (o.count ≡ length o.numbers.entries) × (o.numbers.cap ≡ o.most) };
}

/// The number of an owner: 0 if none is known, else the one after the uid.
fn owner_number(owner: Owner) -> usize
    ensures { result ≡ owner_number owner }
{
    match owner {
        Owner::Unknown => 0,
        Owner::Uid(uid) => uid as usize + 1,
    }
}

/// The owner of a number, as `find` gives it.
pub fn owner_numbered(number: usize) -> Owner
    ensures { result ≡ owner_numbered number }
{
    if number == 0 || number > 1 << 32 {
        Owner::Unknown
    } else {
        Owner::Uid((number - 1) as u32)
    }
}

impl Owners {
    ghost use Rattle.std.specs.Prelude.{◌≡◌, [], None, length, IfOk, OnOk};
    ghost use Rattle.rb_xdr.specs.Pool.{value_at, without};
    ghost use Rattle.rb_xdr.specs.Ordered.{with_number};
    ghost use Rattle.rb_keep.specs.Kept.{owner_number};

    /// Those of no rows, with room for so many. It takes its memory here. `NoMemory` if that is refused.
    pub fn new(alloc: Global, most: usize) -> Result<Owners, NoMemory>
        ensures { IfOk result (λ owners. owners ≡ []) }
    {
        let mut meter = Meter::new();
        let numbers = Ordered::new(alloc, most, &mut meter)?;
        Ok(Owners {
            numbers,
            count: 0,
            most,
            meter,
        })
    }

    /// Of how many rows.
    pub fn count(&self) -> usize
        ensures { result ≡ length self.now }
    {
        self.count
    }

    /// The number of the owner of the row of this rank, if there is one.
    pub fn find(&mut self, rank: u128) -> Option<usize>
        ensures number { result ≡ value_at self.old rank }
        ensures stays { self.new ≡ self.old }
    {
        self.numbers.find(rank, &mut self.meter)
    }

    /// Notes the owner of a row of another rank than the others. An error if there is no room.
    pub fn add(&mut self, rank: u128, owner: Owner) -> io::Result<()>
        requires { value_at self.old rank ≡ None }
        ensures { OnOk result (self.new ≡ with_number self.old rank (owner_number owner)) }
    {
        match self
            .numbers
            .insert(rank, owner_number(owner), &mut self.meter)
        {
            Ok(()) => {
                self.count += 1;
                Ok(())
            }
            Err(_) => Err(io::Error::from(ErrorKind::OutOfMemory)),
        }
    }

    /// The row of this rank went.
    pub fn remove(&mut self, rank: u128)
        ensures { self.new ≡ without self.old rank }
    {
        match self.numbers.remove(rank, &mut self.meter) {
            Some(_number) => self.count -= 1,
            None => {}
        }
    }
}
