//! What takes turns.
ghost use Rattle.rb_lines.specs.Starts.{MeetsLaws};
ghost use Rattle.rb_settings.specs.Settings.{listener_of};

use crate::load::Load;
use crate::news::News;
use rb_registry::Row;
use rb_settings::{DaemonFault, Settings, Shortage};
use rb_sockets::{AddressNews, Follower, Handed};
use std::alloc::{AllocError, Global};
use std::fs::Files;
use std::io;
use std::io::Write;
use std::net::Net;
use std::random::RandomSource;

/// The fault of a turn after which the daemon can do no more is there to be taken.
#[derive(Clone, Copy, Debug)]
pub struct TurnFailed;

/// What takes turns, with files of a host.
pub trait Turns<H> {
    /// The moment of the last turn, in milliseconds since the start of 1970.
    fn moment(&self) -> u64;

    /// How much it serves. It goes through all rows.
    fn load(&mut self) -> Load;

    /// That the limit of open files leaves fewer places for connections than the settings ask for, if it does.
    fn shortage(&self) -> Option<Shortage>;

    /// Which of the rows that were kept are not set again, by their places, in order.
    fn left_out(&self) -> &[usize];

    /// Waits for events once, for `longest` milliseconds at most, and serves what the wait showed. After a fault no turn can be
    /// taken any more.
    fn turn(&mut self, host: &H, longest: Option<u64>) -> Result<(), TurnFailed>;

    /// How the turns ended: `Socket` if one failed, once.
    fn take_end(&mut self) -> Result<(), DaemonFault>;

    /// Whether one of the calls below has something to tell, or something to look for is due: if not, none need be made after
    /// this turn.
    fn has_news(&self) -> bool;

    /// What there is to tell, once. The abstract name of the local socket is tried again, if it is to be held and is not: every
    /// 10 seconds, which a turn knows of.
    fn take_news<N: Files + Net>(&mut self, host: &N) -> News;

    /// From here on addresses are followed. An error if an allocation is refused.
    fn follow_by(&mut self, follower: Follower) -> Result<(), AllocError>;

    /// Listens on an address that has come, or no more on one that has gone, if addresses are followed: they are found out
    /// every 10 seconds, which a turn knows of. What is to be told, once each; nothing once all is done.
    fn follow<N: Files + Net>(&mut self, host: &N) -> Option<AddressNews>;

    /// Writes what was recorded of the turns and not yet written (docs/EVENTS.md).
    fn write_record<W: Write>(&mut self, writer: &mut W) -> io::Result<()>;

    /// Writes the lines of the log that the turns added and that are not written yet (rpcbind(8), `--log`). If that
    /// fails, they are lost, and the daemon goes on.
    fn write_log<W: Write>(&mut self, writer: &mut W) -> io::Result<()>;
}

/// What begins to take turns, by a clock.
pub trait Starts<C, H>: Turns<H> {
    /// One that listens where the settings say. Before that it sets the rows again that were kept.
    fn new<B: Files + Net + RandomSource>(
        alloc: Global,
        host: &B,
        clock: C,
        settings: &Settings<'_>,
        kept: &[Row],
        handed: Handed,
    ) -> Result<Self, DaemonFault>
        requires { MeetsLaws (listener_of settings.now) settings.now.record_limit };
}
