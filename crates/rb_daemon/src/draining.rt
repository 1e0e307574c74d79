//! The daemon's own sockets, as a turn calls them.
ghost use Rattle.std.specs.Prelude.{⊤};
ghost use Rattle.rb_sockets.specs.Leaving.{IsServedNextAt, IsServedNextOf};

use crate::serving::Serving;
use mio::Registry;
use rb_address::Family;
use rb_around::{Serves, is_told, note_fault};
use rb_arrivals::{Asker, Returned, plain_who};
use rb_policy::drains::{CallsSoFar, Came, Drains, drain};
use rb_policy::{Again, Brake, Next, SOCKET_CALLS, after_accept, after_receive, outcome_of};
use std::fs::Files;

/// The most datagrams of one socket in a turn: each is a socket call, and a reply to it is another.
const DATAGRAMS: usize = SOCKET_CALLS / 2;

/// A socket where calls come in.
#[derive(Drop)]
struct Calls<'a, H: Files, C> {
    serving: &'a mut Serving<H, C>,
    host: &'a H,
    /// Its number.
    number: usize,
}

// What is believed of the system: what a call comes to.
impl<H: Files, C: Serves<H>> Drains for Calls<'_, H, C> {
    ghost comes = { λ old before came new. ⊤ };

    ghost leaves = { λ old again new.
        IsServedNextAt old.number again new.serving.now.sockets.calls.all.items };

    fn call(&mut self, _before: CallsSoFar) -> Came {
        self.serving.answer_on(self.host, self.number)
    }

    fn leave(&mut self, again: Again) {
        self.serving.sockets.leave_calls(self.number, again);
    }
}

/// The socket where replies to calls come in that were forwarded to targets of a family.
#[derive(Drop)]
struct ForwardReplies<'a, H: Files, C> {
    serving: &'a mut Serving<H, C>,
    host: &'a H,
    family: Family,
}

impl<H: Files, C: Serves<H>> Drains for ForwardReplies<'_, H, C> {
    ghost comes = { λ old before came new. ⊤ };

    ghost leaves = { λ old again new.
        IsServedNextOf old.family again new.serving.now.sockets.forwards };

    fn call(&mut self, _before: CallsSoFar) -> Came {
        self.serving.take_reply(self.host, self.family)
    }

    fn leave(&mut self, again: Again) {
        self.serving.sockets.leave_replies(self.family, again);
    }
}

/// A listener.
#[derive(Drop)]
struct Door<'a, H: Files, C> {
    serving: &'a mut Serving<H, C>,
    host: &'a H,
    registry: &'a Registry,
    /// Its number.
    number: usize,
}

impl<H: Files, C: Serves<H>> Drains for Door<'_, H, C> {
    ghost comes = { λ old before came new. ⊤ };

    ghost leaves = { λ old again new.
        IsServedNextAt old.number again new.serving.now.sockets.listeners.items };

    fn call(&mut self, before: CallsSoFar) -> Came {
        self.serving
            .accept_on(self.host, self.registry, self.number, before)
    }

    fn leave(&mut self, again: Again) {
        self.serving.sockets.leave_listener(self.number, again);
    }
}

/// Whether a datagram is served that came so at this moment: each one is, if there is no brake.
fn passes(brake: &mut Option<Brake>, now: u64, asker: Asker) -> bool {
    match brake {
        Some(brake) => brake.passes(now, &plain_who(asker.arrival.who())),
        None => true,
    }
}

impl<H: Files, C: Serves<H>> Serving<H, C> {
    ghost use Rattle.std.specs.Prelude.{◌≤◌, length};

    /// Answers datagrams, and takes what comes back for forwarded calls, if one of the sockets may have to be served.
    pub(crate) fn serve_datagrams(&mut self, host: &H) {
        if self.sockets.may_want() {
            self.answer_calls(host);
            self.take_forward_replies(host);
            self.sockets.settle();
        }
    }

    /// Answers datagrams on each socket where calls come in.
    fn answer_calls(&mut self, host: &H) {
        for i in 0..self.sockets.calls.all.len() {
            let is_ready = self
                .sockets
                .calls
                .all
                .get(i)
                .is_some_and(|calls| calls.is_ready());
            if is_ready {
                let mut socket = Calls {
                    serving: &mut *self,
                    host,
                    number: i,
                };
                drain(&mut socket, DATAGRAMS, DATAGRAMS);
            }
        }
    }

    /// Answers a datagram on the socket of this number, if one comes.
    fn answer_on(&mut self, host: &H, number: usize) -> Came {
        let sockets = &self.sockets;
        let networks = &self.networks;
        let Some(came) = sockets.calls.receive(number, networks, &mut self.datagram) else {
            return Came::Nothing(Next::AwaitTurn);
        };
        match came {
            Ok(from) => {
                if let Some(asker) = from {
                    self.answer(host, asker);
                }
                Came::Something
            }
            Err(error) => Came::Nothing(after_receive(outcome_of(&error))),
        }
    }

    /// Answers the datagram that came, unless the brake drops it.
    fn answer(&mut self, host: &H, asker: Asker)
        requires { asker.len ≤ length self.old.datagram.items }
    {
        if !passes(&mut self.brake, self.turn.moment, asker) {
            return;
        }
        self.core.answer(
            host,
            &mut self.sockets,
            &mut self.ways_back,
            asker,
            self.datagram.as_slice(),
        );
    }

    /// Takes what comes back for forwarded calls.
    fn take_forward_replies(&mut self, host: &H) {
        if self.sockets.forwards.is_ready(Family::Inet) {
            self.take_forward_replies_from(host, Family::Inet);
        }
        if self.sockets.forwards.is_ready(Family::Inet6) {
            self.take_forward_replies_from(host, Family::Inet6);
        }
    }

    /// Takes what comes back from targets of a family.
    fn take_forward_replies_from(&mut self, host: &H, family: Family) {
        let mut socket = ForwardReplies {
            serving: &mut *self,
            host,
            family,
        };
        drain(&mut socket, DATAGRAMS, DATAGRAMS);
    }

    /// Takes a datagram from a target of a family, if one comes.
    fn take_reply(&mut self, host: &H, family: Family) -> Came {
        let sockets = &self.sockets;
        let Some(forwards) = sockets.forwards.of(family) else {
            return Came::Nothing(Next::AwaitTurn);
        };
        match forwards.socket.receive(&mut self.datagram) {
            Ok(from) => {
                if let Some(returned) = from {
                    self.take_back(host, returned);
                }
                Came::Something
            }
            Err(error) => Came::Nothing(after_receive(outcome_of(&error))),
        }
    }

    /// Takes in the datagram that came. The connection goes on whose forwarded call it ends.
    fn take_back(&mut self, host: &H, returned: Returned)
        requires { returned.len ≤ length self.old.datagram.items }
    {
        let ready = self.core.take_back(
            host,
            &mut self.sockets,
            &mut self.ways_back,
            returned,
            self.datagram.as_slice(),
        );
        if let Some(id) = ready {
            self.places.wake(id);
        }
    }

    /// Accepts connections on each listener, beginning with another one in each turn, until they are as many as a
    /// turn accepts.
    pub(crate) fn accept_all(&mut self, host: &H, registry: &Registry) {
        if !self.sockets.are_listeners_ready() {
            return;
        }
        let mut left = self.places.accept_count();
        for i in 0..self.sockets.listeners.len() {
            let which = self.sockets.nth_listener(self.turn.number, i);
            let is_ready = self
                .sockets
                .listeners
                .get(which)
                .is_some_and(|listener| listener.is_ready());
            if is_ready {
                let mut door = Door {
                    serving: &mut *self,
                    host,
                    registry,
                    number: which,
                };
                let got = drain(&mut door, SOCKET_CALLS, left);
                left = left.saturating_sub(got);
            }
        }
        self.sockets.settle();
    }

    // LISTENER-1: The first fault of each listener is told, and no later one; each turn tries again.
    /// Accepts a connection on the listener of this number, if one comes, after what came before.
    fn accept_on(
        &mut self,
        host: &H,
        registry: &Registry,
        number: usize,
        before: CallsSoFar,
    ) -> Came {
        let Some(accepted) = self.sockets.accept(host, number, &self.networks) else {
            return Came::Nothing(Next::AwaitTurn);
        };
        match accepted {
            Ok(accepted) => {
                if let Some(accepted) = accepted {
                    self.open(registry, accepted);
                }
                Came::Something
            }
            Err(error) => {
                let next = after_accept(outcome_of(&error));
                if is_told(next, before) {
                    note_fault(&mut self.fault, &mut self.sockets, number, error);
                }
                Came::Nothing(next)
            }
        }
    }
}
