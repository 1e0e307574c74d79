//! What is around the core: sockets, the wait for their events, and the memory with which they are served.
ghost use Rattle.std.specs.Prelude.{◌≡◌, IsErrOf, IsTrue, nat_lt, false, is_some};
ghost use Rattle.rb_policy.specs.Turns.{others_of};

use crate::room::Room;
use crate::waiting::{Times, Waiting};
use mio::Registry;
use rb_policy::{others_of, place_count};
use rb_settings::{BindFault, DaemonFault, Settings, Shortage, Step};
use rb_sockets::{Handed, Sockets};
use std::alloc::Global;
use std::fs::Files;
use std::net::Net;

// PLACES-1
/// How many descriptors are for no connection, if so many are for no connection and no file.
fn others_beside(sockets: u64, settings: &Settings<'_>) -> u64
    ensures { result
        ≡ others_of sockets (nat_lt 0 settings.now.record_limit) (is_some settings.now.keep) }
{
    others_of(sockets, settings.record_limit > 0, settings.keep.is_some())
}

// START-2
/// How many places there are for connections, and the shortage, if they are fewer than the settings ask for.
fn places_of<N: Net>(
    host: &N,
    settings: &Settings<'_>,
    sockets: &Sockets,
) -> (usize, Option<Shortage>) {
    let asked = settings.limits.conns;
    let limit = settings.open_files;
    let others = others_beside(sockets.count_descriptors(host), settings);
    let places = place_count(asked, limit, others);
    if places == asked {
        return (places, None);
    }
    let shortage = Shortage {
        limit,
        needed: others.saturating_add(asked as u64).saturating_add(1),
        asked,
        places,
    };
    (places, Some(shortage))
}

/// What is around the core: the wait, the sockets whose events it shows, and the memory with which they are served.
#[derive(Drop)]
pub struct Around<H: Files> {
    pub waiting: Waiting,
    pub sockets: Sockets,
    pub room: Room<H>,
    /// That the limit of open files leaves fewer places for connections than the settings ask for, if it does.
    pub shortage: Option<Shortage>,
}

/// Binds sockets to all that the settings name and that was not handed over, and waits on them from this first moment on.
/// `Memory` or `Socket`, whichever occurs first.
pub fn open<B: Files + Net, H: Files>(
    alloc: Global,
    host: &B,
    settings: &Settings<'_>,
    first: Times,
    handed: Handed,
) -> Result<Around<H>, DaemonFault>
    ensures others { IsErrOf result DaemonFault.Limits → IsTrue false }
{
    let waiting = Waiting::new(alloc, host, first)?;
    let sockets = bind(alloc, host, settings, handed, waiting.registry())?;
    furnish(alloc, host, settings, waiting, sockets)
}

/// Takes the memory with which sockets are served, and that of the stack. `Memory` if an allocation is refused.
fn furnish<B: Files + Net, H: Files>(
    alloc: Global,
    host: &B,
    settings: &Settings<'_>,
    waiting: Waiting,
    sockets: Sockets,
) -> Result<Around<H>, DaemonFault>
    ensures others { IsErrOf result DaemonFault.Limits → IsTrue false }
{
    sockets.write_stack(host);
    let (places, shortage) = places_of(host, settings, &sockets);
    let networks = settings.from.as_slice();
    let forwards = settings.limits.forwards;
    let are_tables_read = !sockets.are_claims_believed;
    match Room::new(alloc, networks, places, forwards, are_tables_read) {
        Ok(room) => Ok(Around {
            waiting,
            sockets,
            room,
            shortage,
        }),
        Err(error) => Err(DaemonFault::Memory(error)),
    }
}

/// The sockets that the settings name, registered where their events are shown.
fn bind<B: Files + Net>(
    alloc: Global,
    host: &B,
    settings: &Settings<'_>,
    handed: Handed,
    registry: &Registry,
) -> Result<Sockets, DaemonFault>
    ensures others { IsErrOf result DaemonFault.Limits → IsTrue false }
{
    let mut sockets = match Sockets::bind(alloc, host, settings, handed) {
        Ok(sockets) => sockets,
        Err(BindFault::Memory(error)) => return Err(DaemonFault::Memory(error)),
        Err(BindFault::Socket(fault)) => return Err(DaemonFault::Socket(fault)),
    };
    match sockets.register(registry) {
        Ok(()) => Ok(sockets),
        Err(error) => Err(DaemonFault::Socket(Step::Prepare.failed(error))),
    }
}
