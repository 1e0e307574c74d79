//! What turns see of the core.
ghost use Rattle.rb_lines.specs.Starts.{MeetsLaws};
ghost use Rattle.rb_settings.specs.Settings.{listener_of};

use crate::closing::{close_given_up, close_lost, give_up};
use crate::opening::{close_at, open_again, open_at};
use crate::served::{go_on_each, note_served};
use crate::steps::serve;
use mio::Registry;
use rb_around::{Begun, HeldLink, Progress, Serves};
use rb_arrivals::{Asker, Datagrams, Returned};
use rb_engine::{Asked, Due, Engine, Keeper, Replies, Sender, answer_call, begin, take_back};
use rb_links::{Link, Outbox, Places, Turn};
use rb_policy::WaysBack;
use rb_registry::Row;
use rb_settings::{DaemonFault, KeepNews, Settings};
use std::alloc::Global;
use std::fs::Files;
use std::io;
use std::io::Write;

/// The core, what keeps its rows, and replies that wait for that.
#[derive(Drop)]
pub struct Inside<H: Files> {
    engine: Engine,
    /// Where the rows are kept that were set.
    keeper: Keeper<H>,
    /// Replies to datagrams that wait until the changes of the turn are kept.
    replies: Replies,
    /// How many changes had been accepted when connections were last closed that the core had given up for one.
    changes: u64,
}

// What each of these does, rb_around says.
impl<H: Files> Serves<H> for Inside<H> {
    ghost use Rattle.std.specs.Prelude.{◌≡◌};
    ghost use Rattle.rb_connections.specs.Slots.{Shows};
    ghost use Rattle.rb_core.specs.StandsFor.{StandsFor};
    ghost use Rattle.rb_engine.specs.Served.{row_count};
    ghost use Rattle.rb_engine.specs.Moves.{LooksOnce};

    ghost rows = { λ inside count. Shows StandsFor row_count inside.engine.core.core count };

    ghost looks = { λ old new. LooksOnce old.engine new.engine };

    ghost tape = { λ inside. inside.engine.tape };

    ghost news = { λ inside. inside.keeper.news };

    fn begin(
        alloc: Global,
        settings: &Settings<'_>,
        xid: u32,
        moment: u64,
        kept: &[Row],
    ) -> Result<Begun<Inside<H>>, DaemonFault> {
        let begun = begin(alloc, settings, xid, moment, kept)?;
        Ok(Begun {
            core: Inside {
                engine: begun.engine,
                keeper: begun.keeper,
                replies: begun.replies,
                changes: 0,
            },
            left_out: begun.left_out,
        })
    }

    fn set_moment(&mut self, moment: u64) {
        self.engine.set_moment(moment);
    }

    fn next_deadline(&mut self) -> Option<u64> {
        self.engine.next_deadline()
    }

    fn next_log_line(&self) -> Option<u64> {
        self.engine.next_log_line()
    }

    fn has_news(&self) -> bool {
        self.keeper.has_news() || self.engine.may_have_log_lines()
    }

    fn take_news(&mut self) -> Option<KeepNews> {
        self.keeper.take_news()
    }

    fn count_rows(&mut self) -> usize {
        self.engine.count_rows()
    }

    fn serve<S: Datagrams>(
        &mut self,
        host: &H,
        link: &mut Link,
        sockets: &mut S,
        long_outbox: &mut Outbox,
        turn: Turn,
        may_end: bool,
    ) -> Progress {
        serve(
            host,
            link,
            &mut self.engine,
            &mut self.keeper,
            sockets,
            long_outbox,
            turn,
            may_end,
        )
    }

    fn note_served(&mut self, places: &mut Places, key: usize, progress: Progress) {
        note_served(places, &mut self.engine, key, progress);
    }

    fn answer<S: Datagrams>(
        &mut self,
        host: &H,
        sockets: &mut S,
        ways: &mut WaysBack,
        asker: Asker,
        room: &[u8],
    ) {
        answer_call(
            host,
            &mut self.engine,
            &mut self.keeper,
            &mut self.replies,
            sockets,
            ways,
            Asked::of(asker),
            room,
        );
    }

    fn take_back<S: Datagrams>(
        &mut self,
        host: &H,
        sockets: &mut S,
        ways: &mut WaysBack,
        returned: Returned,
        room: &[u8],
    ) -> Option<u64> {
        take_back(
            host,
            &mut self.engine,
            &mut self.keeper,
            sockets,
            ways,
            Sender::of(returned),
            room,
        )
    }

    fn keep(&mut self, host: &H) {
        self.keeper.keep(host, &mut self.engine);
    }

    // KEEP-18: What changes in a turn, over UDP, TCP and the local socket, is added to the file by one write, if there is room
    // for its lines, and the replies that waited for it go out then.
    fn answer_changes<S: Datagrams>(
        &mut self,
        host: &H,
        sockets: &mut S,
        places: &mut Places,
        turn: Turn,
        held: &[HeldLink],
    ) {
        let kept = self.keeper.keep(host, &mut self.engine);
        self.replies.send(&self.engine, sockets, kept);
        go_on_each(host, &mut self.engine, &mut self.keeper, places, turn, held);
    }

    fn open(&mut self, places: &mut Places, registry: &Registry, key: usize) -> bool {
        open_at(places, &mut self.engine, registry, key)
    }

    fn open_again(&mut self, places: &mut Places, key: usize) {
        if !open_again(places, &mut self.engine, key) {
            close_at(places, &mut self.engine, key);
        }
    }

    fn close(&mut self, places: &mut Places, key: usize) {
        close_at(places, &mut self.engine, key);
    }

    fn give_up(&mut self, places: &mut Places, key: usize) {
        give_up(places, &mut self.engine, key);
    }

    fn close_lost(&mut self, places: &mut Places) {
        let changes = self.engine.changes();
        if changes != self.changes {
            self.changes = changes;
            close_lost(places, &mut self.engine);
        }
    }

    fn expire<S: Datagrams>(
        &mut self,
        host: &H,
        sockets: &mut S,
        ways: &mut WaysBack,
        places: &mut Places,
    ) -> bool {
        let kept = self.keeper.keep(host, &mut self.engine);
        match self.engine.expire(sockets, ways, kept) {
            Due::Nothing => return false,
            Due::Done => {}
            Due::Ready(id) => places.wake(id),
            Due::Closed(id) => close_given_up(places, &mut self.engine, id),
        }
        true
    }

    fn write_record<W: Write>(&mut self, writer: &mut W) -> io::Result<()> {
        self.engine.write_record(writer)
    }

    fn write_log<W: Write>(&mut self, writer: &mut W) -> io::Result<()> {
        self.engine.write_log(writer)
    }
}
