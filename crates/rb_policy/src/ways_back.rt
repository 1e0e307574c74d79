//! Where the ends of calls go that came over UDP and were forwarded.
ghost use Rattle.std.specs.Prelude.{◌≡◌};
ghost use Rattle.rb_policy.specs.WaysBack.{socket_of};

use std::alloc::{AllocError, Global};
use std::marker::Model;

/// A forwarded call, and the socket on which it came.
#[derive(Clone, Copy)]
struct Way {
    /// The number of the call.
    number: u64,
    /// The number of the socket.
    socket: usize,
}

/// For each call that came over UDP, was forwarded and has not ended, the socket on which it came. `new` takes all of
/// its memory.
#[derive(Drop)]
pub struct WaysBack {
    all: Vec<Way>,
}

impl Model for WaysBack {
    ghost use Rattle.std.specs.Prelude.{vec_capacity};
    ghost use Rattle.rb_policy.specs.WaysBack.{Ways};

    ghost Value = { Ways };

    ghost view = { λ w. record { most = vec_capacity w.all; all = w.all.items } };
}

impl WaysBack {
    ghost use Rattle.std.specs.Prelude.{◌≡◌, [], IfOk};
    ghost use Rattle.rb_policy.specs.WaysBack.{noted, socket_of, without};

    /// No call, and room for this many. An error if the allocation is refused.
    pub fn new(alloc: Global, most: usize) -> Result<WaysBack, AllocError>
        ensures { IfOk result (λ w. w ≡ record { most = most; all = [] }) }
    {
        Ok(WaysBack {
            all: Vec::with_capacity(alloc, most)?,
        })
    }

    /// The call of this number came on the socket of this number, and was forwarded. Nothing is noted if there is
    /// no room.
    pub fn note(&mut self, number: u64, socket: usize)
        ensures { self.new ≡ noted self.old number socket }
    {
        if self.all.len() < self.all.capacity() {
            self.all.push_reserved(Way { number, socket });
        }
    }

    /// The call of this number has ended: the number of the socket on which it came, if that is noted. It is noted
    /// no longer.
    pub fn take(&mut self, number: u64) -> Option<usize>
        ensures told { result ≡ socket_of number self.old.all }
        ensures rest { self.new ≡ without number self.old }
    {
        let socket = socket_of(&self.all, number);
        self.all.retain(|way| way.number != number);
        socket
    }
}

/// The number of the socket on which the call of this number came.
fn socket_of(all: &[Way], number: u64) -> Option<usize>
    ensures { result ≡ socket_of number all.now }
{
    let way = all.iter().find(|way| way.number == number)?;
    Some(way.socket)
}
