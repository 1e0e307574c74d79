//! What serves connections and datagrams: the core, as turns see it.
ghost use Rattle.rb_lines.specs.Starts.{MeetsLaws};
ghost use Rattle.rb_settings.specs.Settings.{listener_of};

use crate::held::HeldLink;
use mio::Registry;
use rb_arrivals::{Asker, Datagrams, Returned};
use rb_links::{Link, Outbox, Places, Turn};
use rb_policy::WaysBack;
use rb_registry::Row;
use rb_settings::{DaemonFault, KeepNews, Settings};
use std::alloc::Global;
use std::io;
use std::io::Write;

/// How a connection stands after it was served.
#[derive(Clone, Copy)]
pub enum Progress {
    /// It waits for an event.
    Blocked,
    /// It used up its socket calls, or wrote enough.
    CutOff,
    /// Its replies wait until what changed is kept. It has made this many socket calls.
    Unkept(usize),
    /// It must be closed.
    Over,
}

/// What serves, as it begins.
#[derive(Drop)]
pub struct Begun<C> {
    pub core: C,
    /// Which of the rows that were kept are not set again, by their places, in order.
    pub left_out: Vec<usize>,
}

/// What serves connections and datagrams, with files of a host. Those that wait until changes are kept go on then.
pub trait Serves<H>: Drop {
    ghost use Rattle.std.specs.Prelude.{◌≡◌, ◌≤◌, ℕ, length, None, Option, IsErrOf, IsTrue, OnOk, false};
    ghost use Rattle.rb_lines.specs.Tapes.{Tape};
    ghost use Rattle.rb_settings.specs.declared.news.KeepNews.{KeepNews};
    ghost use Rattle.rb_around.specs.Records.{WritesRecord};
    ghost use Rattle.rb_around.specs.Turning.{ServesOnly, ServesEach};

    /// That so many rows are set.
    ghost rows: { Self → ℕ → Type 0 };

    /// That one look was taken.
    ghost looks: { Self → Self → Type 0 };

    /// What is recorded of events.
    ghost tape: { Self → Tape };

    /// What is yet to be told of the rows that are kept.
    ghost news: { Self → Option KeepNews };

    /// Begins at this moment, with this xid for the first forwarded call, sets the rows again that were kept, and keeps those
    /// from here on. `Memory` if an allocation is refused.
    fn begin(
        alloc: Global,
        settings: &Settings<'_>,
        xid: u32,
        moment: u64,
        kept: &[Row],
    ) -> Result<Begun<Self>, DaemonFault>
        requires { MeetsLaws (listener_of settings.now) settings.now.record_limit }
        ensures { IsErrOf result DaemonFault.Limits → IsTrue false };

    /// What happens from here on happens at this moment, in milliseconds since the start of 1970.
    fn set_moment(&mut self, moment: u64);

    /// The moment from which `expire` finds something, in milliseconds since the start of 1970, if anything has a deadline.
    fn next_deadline(&mut self) -> Option<u64>
        ensures { looks self.old self.new };

    /// The moment from which the log tells of lines that were left out, if some were.
    fn next_log_line(&self) -> Option<u64>;

    /// Whether something is to be told of the rows that are kept, or lines of the log may be there that are not written yet.
    fn has_news(&self) -> bool;

    /// What is to be told of the rows that are kept, once.
    fn take_news(&mut self) -> Option<KeepNews>
        ensures news { result ≡ news self.old }
        ensures told { news self.new ≡ None };

    /// How many rows are set. It goes through all of them.
    fn count_rows(&mut self) -> usize
        ensures { rows self.old result };

    /// Serves a connection until its socket would block or has had its calls of this turn. `may_end` is whether its peer may have
    /// ended what it sends. It has the long outbox meanwhile, if that is free, and longer if bytes are left in it.
    fn serve<S: Datagrams>(
        &mut self,
        host: &H,
        link: &mut Link,
        sockets: &mut S,
        long_outbox: &mut Outbox,
        turn: Turn,
        may_end: bool,
    ) -> Progress;

    /// The connection at a place was served, and stands so: it is left for later, or closed, or waits for an event.
    fn note_served(&mut self, places: &mut Places, key: usize, progress: Progress)
        ensures { ServesOnly key places.old places.new };

    /// Answers the datagram that the room begins with: its reply goes out, or waits until what changed is kept.
    fn answer<S: Datagrams>(
        &mut self,
        host: &H,
        sockets: &mut S,
        ways: &mut WaysBack,
        asker: Asker,
        room: &[u8],
    )
        requires { asker.len ≤ length room.now };

    /// Takes in the datagram that the room begins with, which came where forwarded calls are sent from. The answer is the
    /// connection that goes on.
    fn take_back<S: Datagrams>(
        &mut self,
        host: &H,
        sockets: &mut S,
        ways: &mut WaysBack,
        returned: Returned,
        room: &[u8],
    ) -> Option<u64>
        requires { returned.len ≤ length room.now };

    /// Keeps what changed.
    fn keep(&mut self, host: &H);

    /// Keeps what changed, and then sends the replies to datagrams that waited for it, and goes on with these connections.
    fn answer_changes<S: Datagrams>(
        &mut self,
        host: &H,
        sockets: &mut S,
        places: &mut Places,
        turn: Turn,
        held: &[HeldLink],
    )
        ensures { ServesEach held.now places.old places.new };

    /// Opens the connection at a place, as one of whoever came in there, and shows its events. Whether that was done: if not,
    /// the core knows nothing of it.
    fn open(&mut self, places: &mut Places, registry: &Registry, key: usize) -> bool;

    /// The connection at a place, of which the core has no part of a record and owes nothing, goes on as whoever came in there;
    /// one with which that can't be done is closed.
    fn open_again(&mut self, places: &mut Places, key: usize);

    /// Closes the connection at a place, if there is one.
    fn close(&mut self, places: &mut Places, key: usize);

    /// Closes the connection at a place, which is given up, and tells the log so.
    fn give_up(&mut self, places: &mut Places, key: usize);

    /// Closes the connections that the core has given up for the room of a row, if a change was accepted since the last time.
    fn close_lost(&mut self, places: &mut Places);

    /// Keeps what changed, and ends what is due first: the connection goes on whose forwarded call it ends, and one that must be
    /// closed is. Whether something was due.
    fn expire<S: Datagrams>(
        &mut self,
        host: &H,
        sockets: &mut S,
        ways: &mut WaysBack,
        places: &mut Places,
    ) -> bool;

    /// Writes what was recorded and not yet written (docs/EVENTS.md). If that fails, the recording ends.
    fn write_record<W: Write>(&mut self, writer: &mut W) -> io::Result<()>
        ensures { OnOk result
            (WritesRecord W.contents writer.old writer.new (tape self.old) (tape self.new)) };

    /// Writes the lines of the log that are not written yet. If that fails, they are lost.
    fn write_log<W: Write>(&mut self, writer: &mut W) -> io::Result<()>;
}
