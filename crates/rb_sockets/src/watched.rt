//! When one of the daemon's own sockets is served again.
ghost use Rattle.std.specs.Prelude.{◌≡◌, true, false, not, IfOk, [], ◌∷◌, ◌++◌};
ghost use Rattle.rb_sockets.specs.Leaving.{IsServedNextAt};
ghost use Rattle.rb_sockets.specs.Room.{put_in};
ghost use Rattle.rb_sockets.specs.Wanted.{is_ready};
ghost use Rattle.rb_sockets.specs.Watching.{is_at_once, is_after_wait, unserved, shown_now};

use rb_policy::Again;
use rb_settings::BindFault;
use std::alloc::AllocError;

/// One of the daemon's own sockets, and when it is served again.
#[derive(Drop)]
pub struct Watched<S> {
    /// The socket itself.
    pub socket: S,
    again: Again,
    is_shown: bool,
    has_failed: bool,
}

impl<S> Watched<S> {
    pub(crate) fn new(socket: S) -> Watched<S>
        ensures { result ≡ unserved socket }
    {
        Watched {
            socket,
            again: Again::AtEvent,
            is_shown: false,
            has_failed: false,
        }
    }

    /// An event showed it.
    pub fn note_ready(&mut self)
        ensures { self.new ≡ shown_now self.old }
    {
        self.is_shown = true;
    }

    /// Whether it must be served in this turn.
    pub fn is_ready(&self) -> bool
        ensures { result ≡ is_ready self.now }
    {
        self.is_shown || !matches!(self.again, Again::AtEvent)
    }

    /// It was served; `again` says when it is served next.
    pub fn leave(&mut self, again: Again)
        ensures again { self.new.again ≡ again }
        ensures shown { self.new.is_shown ≡ false }
    {
        self.again = again;
        self.is_shown = false;
    }

    /// It failed. Whether that is the first time.
    pub fn fail(&mut self) -> bool
        ensures first { result ≡ not self.old.has_failed }
        ensures failed { self.new.has_failed ≡ true }
    {
        let is_first = !self.has_failed;
        self.has_failed = true;
        is_first
    }

    /// Whether the next turn must serve it without a wait.
    pub fn is_left(&self) -> bool
        ensures { result ≡ is_at_once self.now.again }
    {
        matches!(self.again, Again::AtOnce)
    }

    /// Whether it must be served after a wait though no event shows it.
    pub fn is_tried_again(&self) -> bool
        ensures { result ≡ is_after_wait self.now.again }
    {
        matches!(self.again, Again::AfterWait)
    }
}

/// The socket of this number is served again then, if there is one.
pub(crate) fn leave_at<S>(sockets: &mut Vec<Watched<S>>, number: usize, again: Again)
    ensures { IsServedNextAt number again sockets.new.items }
{
    if let Some(socket) = sockets.get_mut(number) {
        socket.leave(again);
    }
}

/// Puts a socket at a place, or after the others.
pub(crate) fn put_at<S: Drop>(
    all: &mut Vec<Watched<S>>,
    place: usize,
    socket: S,
) -> Result<(), BindFault>
    ensures { IfOk result (λ done. all.new.items ≡ put_in place (unserved socket) all.old.items) }
{
    match all.get_mut(place) {
        Some(watched) => {
            *watched = Watched::new(socket);
            Ok(())
        }
        None => put(all, socket),
    }
}

/// Puts a socket after the others.
pub(crate) fn put<S: Drop>(all: &mut Vec<Watched<S>>, socket: S) -> Result<(), BindFault>
    ensures { IfOk result (λ done. all.new.items ≡ all.old.items ++ unserved socket ∷ []) }
{
    match all.push(Watched::new(socket)) {
        Ok(()) => Ok(()),
        Err(error) => Err(BindFault::Memory(AllocError::from(error))),
    }
}
