//! Which of the daemon's own sockets a turn serves, and which the next one.
use crate::sockets::Sockets;
use crate::watched::leave_at;
use mio::Token;
use rb_address::{Family, Network};
use rb_arrivals::{Accepted, Shown};
use rb_policy::Again;
use std::fs::Files;
use std::io;

impl Sockets {
    ghost use Rattle.std.specs.Prelude.{◌≡◌, vec_len, slice_get, IfSome};
    ghost use Rattle.rb_sockets.specs.Arrivals.{nth_of, IsLetInAt};
    ghost use Rattle.rb_sockets.specs.Events.{shown_by};
    ghost use Rattle.rb_sockets.specs.Leaving.{IsServedNextAt, IsServedNextOf};
    ghost use Rattle.rb_sockets.specs.News.{is_local_changed};
    ghost use Rattle.rb_sockets.specs.Watching.{is_at_once, is_after_wait, of_datagrams, of_listeners, of_all, are_listeners_ready, fails_first, wants_turn, IsSettled, NotesShown};

    /// Whether one of them may have to be served, or have something to tell: if not, none is looked at.
    pub fn may_want(&self) -> bool
        ensures { result ≡ self.now.may_want }
    {
        self.may_want
    }

    /// Settles, after some were served, whether one of them must be served, or has something to tell.
    pub fn settle(&mut self)
        ensures { IsSettled self.old self.new }
    {
        self.may_want = self.wants_turn();
    }

    fn wants_turn(&self) -> bool
        ensures { result ≡ wants_turn self.now }
    {
        self.may_want
            && (self.forwards.are_ready()
                || self.calls.are_ready()
                || self.are_listeners_ready()
                || self.is_local_changed())
    }

    /// Whether it is yet to be told that the local socket is root's no longer.
    pub(crate) fn is_local_changed(&self) -> bool
        ensures { result ≡ is_local_changed self.now }
    {
        self.may_want
            && self
                .listeners
                .iter()
                .any(|listener| listener.socket.is_changed())
    }

    /// Notes what an event with this token shows, if that is one of these sockets.
    pub fn note_ready(&mut self, token: Token)
        ensures { NotesShown (shown_by token.0) self.old self.new }
    {
        match Sockets::shown_by(token) {
            Shown::Connection(_) => {}
            Shown::Forwards(family) => {
                self.may_want = true;
                self.forwards.note_ready(family);
            }
            Shown::Calls(i) => {
                self.may_want = true;
                if let Some(calls) = self.calls.all.get_mut(i) {
                    calls.note_ready();
                }
            }
            Shown::Listener(i) => {
                self.may_want = true;
                if let Some(listener) = self.listeners.get_mut(i) {
                    listener.note_ready();
                }
            }
        }
    }

    /// The socket of this number, where calls come in, is served again then, if there is one.
    pub fn leave_calls(&mut self, number: usize, again: Again)
        ensures { IsServedNextAt number again self.new.calls.all.items }
    {
        self.may_want = true;
        leave_at(&mut self.calls.all, number, again);
    }

    /// The socket for targets of a family is served again then, if there is one.
    pub fn leave_replies(&mut self, family: Family, again: Again)
        ensures { IsServedNextOf family again self.new.forwards }
    {
        self.may_want = true;
        self.forwards.leave(family, again);
    }

    /// The listener of this number is served again then, if there is one.
    pub fn leave_listener(&mut self, number: usize, again: Again)
        ensures { IsServedNextAt number again self.new.listeners.items }
    {
        self.may_want = true;
        leave_at(&mut self.listeners, number, again);
    }

    /// Accepts a connection on the listener of this number, if there is one. The connection is closed if it is nobody's when
    /// these networks are served.
    pub fn accept<R: Files>(
        &mut self,
        rt: &R,
        number: usize,
        networks: &[Network],
    ) -> Option<io::Result<Option<Accepted>>>
        ensures { IfSome result (IsLetInAt self.new.listeners.items number) }
    {
        self.may_want = true;
        let listener = self.listeners.get_mut(number)?;
        Some(listener.socket.accept(rt, networks))
    }

    /// The listener of this number failed. Whether there is one, and that is its first failure.
    pub fn note_failure(&mut self, number: usize) -> bool
        ensures { result ≡ fails_first (slice_get self.old.listeners.items number) }
    {
        self.may_want = true;
        match self.listeners.get_mut(number) {
            Some(listener) => listener.fail(),
            None => false,
        }
    }

    // ACCEPT-4: Each turn begins to accept at another listener.
    /// The number of the listener that comes at this place in a turn.
    pub fn nth_listener(&self, turn: u64, place: usize) -> usize
        ensures { result ≡ nth_of (vec_len self.now.listeners) turn place }
    {
        match self.listeners.len() {
            0 => 0,
            count => {
                let first = usize::try_from(turn % count as u64).unwrap_or(0);
                first.wrapping_add(place) % count
            }
        }
    }

    /// Whether one of the listeners must be served in this turn.
    pub fn are_listeners_ready(&self) -> bool
        ensures { result ≡ are_listeners_ready self.now }
    {
        self.may_want && self.listeners.iter().any(|listener| listener.is_ready())
    }

    /// Whether one of them on which datagrams come in must be served at once.
    pub fn are_datagrams_left(&self) -> bool
        ensures { result ≡ of_datagrams is_at_once self.now }
    {
        self.may_want && (self.forwards.is_left() || self.calls.is_left())
    }

    /// Whether one of them must be served at once.
    pub fn is_something_left(&self) -> bool
        ensures { result ≡ of_all is_at_once self.now }
    {
        self.are_datagrams_left() || self.are_listeners_left()
    }

    fn are_listeners_left(&self) -> bool
        ensures { result ≡ of_listeners is_at_once self.now }
    {
        self.may_want && self.listeners.iter().any(|listener| listener.is_left())
    }

    /// Whether one of them must be served after a wait though no event shows it.
    pub fn is_tried_again(&self) -> bool
        ensures { result ≡ of_all is_after_wait self.now }
    {
        self.may_want
            && (self.forwards.is_tried_again()
                || self.calls.is_tried_again()
                || self.are_listeners_tried_again())
    }

    fn are_listeners_tried_again(&self) -> bool
        ensures { result ≡ of_listeners is_after_wait self.now }
    {
        self.listeners
            .iter()
            .any(|listener| listener.is_tried_again())
    }
}
