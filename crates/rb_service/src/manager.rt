//! What a service manager is told of `serve` (sd_notify(3)).
use rb_address::Host;
use rb_descriptors::Notifier;
use rb_policy::Watchdog;
use rb_sockets::{own_notifier, own_watchdog_pause};
use rb_turns::Load;
use std::env::Env;
use std::fmt;
use std::fmt::{Display, Formatter};
use std::io::Write;
use std::net::Net;

/// More bytes than any news have.
const ROOM: usize = 160;

/// What a service manager is told.
#[derive(Clone, Copy)]
pub enum News {
    /// The start waits for this address.
    Missing(Host),
    /// It serves, this much.
    Ready(Load),
    /// A turn was made, and this much is served.
    Turn(Load),
    /// It ends.
    End,
}

impl Display for News {
    ghost use Rattle.std.specs.Prelude.{Some};
    ghost use Rattle.rb_service.specs.News.{news_text};

    ghost output = { λ news. Some (news_text news) };

    fn fmt<W: fmt::Write>(&self, f: &mut Formatter<W>) -> fmt::Result {
        match *self {
            News::Missing(host) => write!(f, "STATUS=waits for the address {host}"),
            News::Ready(load) => {
                let load = LoadText(load);
                write!(f, "READY=1\nSTATUS={load}")
            }
            News::Turn(load) => {
                let load = LoadText(load);
                write!(f, "WATCHDOG=1\nSTATUS={load}")
            }
            News::End => write!(f, "STOPPING=1"),
        }
    }
}

/// How much is served.
#[derive(Clone, Copy)]
struct LoadText(Load);

impl Display for LoadText {
    ghost use Rattle.std.specs.Prelude.{Some};
    ghost use Rattle.rb_service.specs.News.{load_text};

    ghost output = { λ text. Some (load_text text.0) };

    fn fmt<W: fmt::Write>(&self, f: &mut Formatter<W>) -> fmt::Result {
        let Load {
            rows,
            most_rows,
            connections,
            places,
        } = self.0;
        write!(
            f,
            "{rows} of {most_rows} rows, {connections} of {places} connections"
        )
    }
}

/// The service manager, if there is one that is told of this process.
#[derive(Drop)]
pub struct Manager {
    notifier: Option<Notifier>,
    watchdog: Option<Watchdog>,
}

impl Manager {
    /// That of which the environment tells.
    pub fn of<R: Env + Net>(rt: &R) -> Manager {
        let notifier = own_notifier(rt);
        let watchdog = match (&notifier, own_watchdog_pause(rt)) {
            (Some(_), Some(pause)) => Some(Watchdog::new(pause)),
            (_, _) => None,
        };
        Manager { notifier, watchdog }
    }

    /// Whether there is one.
    pub fn is_there(&self) -> bool {
        self.notifier.is_some()
    }

    /// Tells it the news. Those of a turn are lost if it has no room for them.
    pub fn tell(&self, news: News) {
        let Some(notifier) = &self.notifier else {
            return;
        };
        let mut room = [0; ROOM];
        let mut left = room.as_mut_slice();
        let _ = write!(left, "{news}");
        let len = ROOM.saturating_sub(left.len());
        match news {
            News::Turn(_) => notifier.tell_at_once(&room[..len]),
            News::Missing(_) | News::Ready(_) | News::End => notifier.tell(&room[..len]),
        }
    }

    /// For how many milliseconds a turn may wait at this moment, if the watchdog is told of it.
    pub fn wait(&self, now: u64) -> Option<u64> {
        match &self.watchdog {
            Some(watchdog) => Some(watchdog.wait(now)),
            None => None,
        }
    }

    /// Whether the watchdog is told of a turn at this moment.
    pub fn hears_of_turn(&mut self, now: u64) -> bool {
        match &mut self.watchdog {
            Some(watchdog) => watchdog.tells(now),
            None => false,
        }
    }
}
