//! Replies that wait until changes are kept.
ghost use Rattle.rb_engine.specs.Waiting.{HandsAll, dispatch_of};

use crate::engine::Engine;
use crate::keeping::Kept;
use arrayvec::ArrayVec;
use rb_address::Source;
use rb_arrivals::Datagrams;
use rb_policy::MOST_HELD;
use std::alloc::{AllocError, Global};
use std::marker::Model;

/// The longest reply to a datagram that waits: one to a SET or an UNSET has 28 bytes.
const LONGEST_HELD: usize = 64;

/// A reply to a datagram.
#[derive(Drop)]
struct HeldReply {
    bytes: ArrayVec<u8, LONGEST_HELD>,
    to: Source,
    /// The number of the socket on which the datagram came.
    socket: usize,
}

impl Model for HeldReply {
    ghost use Rattle.rb_engine.specs.Waiting.{Waiting};

    ghost Value = { Waiting };

    ghost view = { λ held. record {
      bytes = held.bytes.items;
      to = held.to;
      socket = held.socket;
    } };
}

/// Hands a reply to sockets.
fn send_one<S: Datagrams>(held: &HeldReply, sockets: &mut S)
    ensures { S.sends sockets.old (dispatch_of held.now) sockets.new }
{
    sockets.reply(held.socket, held.to, held.bytes.as_slice());
}

/// Hands replies to sockets, in their order.
fn send_all<S: Datagrams>(all: &[HeldReply], sockets: &mut S)
    ensures { HandsAll S.sends all.now sockets.old sockets.new }
{
    for held in all {
        send_one(held, sockets);
    }
}

/// Replies to datagrams that wait, in their order.
#[derive(Drop)]
pub struct Replies {
    all: Vec<HeldReply>,
}

impl Model for Replies {
    ghost use Rattle.std.specs.Prelude.{List};
    ghost use Rattle.rb_engine.specs.Waiting.{Waiting};

    ghost Value = { List Waiting };

    ghost view = { λ replies. replies.all.items };
}

impl Replies {
    ghost use Rattle.std.specs.Prelude.{◌≡◌, [], ◌∷◌, ◌++◌, IsTrue, false, IfOk};
    ghost use Rattle.rb_connections.specs.Slots.{Shows};
    ghost use Rattle.rb_core.specs.StandsFor.{StandsFor};
    ghost use Rattle.rb_engine.specs.Served.{change_count};
    ghost use Rattle.rb_engine.specs.Waiting.{waiting, HandsAll};

    /// None, with room for those that may wait. It is written to, so that its memory is the process's from here on.
    pub fn new(alloc: Global) -> Result<Replies, AllocError>
        ensures { IfOk result (λ replies. replies ≡ []) }
    {
        let mut all = Vec::with_capacity(alloc, MOST_HELD)?;
        'replies: for _i in 0..MOST_HELD {
            all.push(HeldReply {
                bytes: ArrayVec::new(),
                to: Source::Local,
                socket: 0,
            })?;
        }
        all.clear();
        Ok(Replies { all })
    }

    // KEEP-20
    /// Has a reply wait behind the others, if there is room for it: to this caller, over the socket of this number. Returns
    /// whether it waits.
    pub(crate) fn hold(&mut self, socket: usize, to: Source, reply: &[u8]) -> bool
        ensures waits { IsTrue result
            → self.new ≡ self.old ++ waiting socket to reply.now ∷ [] }
        ensures full { result ≡ false → self.new ≡ self.old }
    {
        if self.all.len() >= MOST_HELD {
            return false;
        }
        let mut bytes = ArrayVec::new();
        match bytes.try_extend_from_slice(reply) {
            Ok(()) => self.all.push(HeldReply { bytes, to, socket }).is_ok(),
            Err(_) => false,
        }
    }

    // KEEP-16
    /// Sends the replies that wait, in their order, once all changes were kept.
    pub fn send<S: Datagrams>(&mut self, engine: &Engine, sockets: &mut S, kept: Kept)
        requires { Shows StandsFor change_count engine.now.core.core kept.changes }
        ensures none { self.new ≡ [] }
        ensures sent { HandsAll S.sends self.old sockets.old sockets.new }
    {
        send_all(&self.all, sockets);
        self.all.clear();
    }
}
