//! How one of the daemon's own sockets is called in a turn, and when it is served again.
ghost use Rattle.std.specs.Prelude.{◌≡◌};
ghost use Rattle.rb_policy.specs.Drains.{ended_by, IsDrained};

use crate::outcome::Next;
use crate::turns::{Again, after_all_calls};

/// What a call of a socket came to.
#[derive(Clone, Copy)]
pub enum Came {
    /// It got a datagram or a connection.
    Something,
    /// It got nothing, and this is done next.
    Nothing(Next),
}

/// What came of the calls of a socket in a turn so far.
#[derive(Clone, Copy)]
pub struct CallsSoFar {
    /// How many they are.
    pub calls: usize,
    /// How many of them got something.
    pub got: usize,
    /// When it is served again, if the last one says that no other comes in this turn.
    ended: Option<Again>,
}

/// A socket that a turn calls, and what is done with what comes.
pub trait Drains {
    ghost use Rattle.rb_policy.specs.declared.drains.Came.{Came};
    ghost use Rattle.rb_policy.specs.declared.drains.CallsSoFar.{CallsSoFar};
    ghost use Rattle.rb_policy.specs.declared.turns.Again.{Again};

    /// How it is after a call that came to this, after those before it.
    ghost comes: { Self → CallsSoFar → Came → Self → Type 0 };

    /// How it is once it is known when it is served again.
    ghost leaves: { Self → Again → Self → Type 0 };

    /// Calls it once. `before` is what came of the calls before.
    fn call(&mut self, before: CallsSoFar) -> Came
        ensures { comes self.old before result self.new };

    /// The turn calls it no more: it is served again then.
    fn leave(&mut self, again: Again)
        ensures { leaves self.old again self.new };
}

/// When a socket is served again, if this is what a call came to and no other comes in this turn.
fn ended_by(came: Came) -> Option<Again>
    ensures { result ≡ ended_by came }
{
    match came {
        Came::Nothing(Next::AwaitEvent) => Some(Again::AtEvent),
        Came::Nothing(Next::AwaitTurn) => Some(Again::AfterWait),
        Came::Nothing(Next::GoOn | Next::Close) | Came::Something => None,
    }
}

impl CallsSoFar {
    ghost use Rattle.std.specs.Prelude.{◌≡◌};
    ghost use Rattle.rb_policy.specs.Drains.{goes_on, has_room, again_of, after, nothing_yet};

    /// No call yet.
    fn new() -> CallsSoFar
        ensures { result ≡ nothing_yet }
    {
        CallsSoFar {
            calls: 0,
            got: 0,
            ended: None,
        }
    }

    /// Whether the turn calls it once more, if it makes this many calls at most, and this many may get something.
    fn goes_on(self, most: usize, share: usize) -> bool
        ensures { result ≡ goes_on most share self }
    {
        self.ended.is_none() && self.has_room(most, share)
    }

    /// Whether there are fewer calls so far, and fewer that got something.
    fn has_room(self, most: usize, share: usize) -> bool
        ensures { result ≡ has_room most share self }
    {
        self.got < share && self.calls < most
    }

    /// One more call came to this.
    fn after(self, came: Came) -> CallsSoFar
        ensures { result ≡ after came self }
    {
        let calls = self.calls.saturating_add(1);
        match came {
            Came::Something => CallsSoFar {
                calls,
                got: self.got.saturating_add(1),
                ended: None,
            },
            Came::Nothing(_) => CallsSoFar {
                calls,
                got: self.got,
                ended: ended_by(came),
            },
        }
    }

    /// When it is served again, if the turn calls it no more and this many calls might get something.
    fn again(self, share: usize) -> Again
        ensures { result ≡ again_of share self }
    {
        match self.ended {
            Some(again) => again,
            None if self.got < share => after_all_calls(self.got > 0),
            None => Again::AtOnce,
        }
    }
}

/// Calls a socket until it would block or fails, at most this often, and until this many calls got something. It is served
/// again then. How many calls got something.
pub fn drain<S: Drains>(socket: &mut S, most: usize, share: usize) -> usize
    ensures { IsDrained S.comes S.leaves most share socket.old socket.new result }
{
    let mut drain = CallsSoFar::new();
    'calls: while drain.goes_on(most, share) {
        let came = socket.call(drain);
        drain = drain.after(came);
    }
    socket.leave(drain.again(share));
    drain.got
}
