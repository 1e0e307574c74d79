//! What a service manager says in the environment (sd_listen_fds(3), sd_watchdog_enabled(3), sd_notify(3)).
use crate::handed::{HandedFault, HandedOver};
use rb_descriptors::{Descriptors, Notifier};
use rb_policy::handed::handed_count;
use rb_policy::watchdog_pause;
use std::alloc::Global;
use std::env::{Env, FillError};
use std::net::Net;

/// More bytes than a number has, and one more than the longest path of a local socket.
const ROOM: usize = 108;

/// The first bytes of the value of a variable, if it is there: all of them if they are no more than there is room for.
fn value_of<'a, R: Env>(rt: &R, name: &str, room: &'a mut [u8; ROOM]) -> Option<&'a [u8]> {
    match rt.var(name, room) {
        Ok(len) => room.get(..len),
        Err(FillError::TooLong) => Some(room.as_slice()),
        Err(FillError::NotPresent) => None,
    }
}

/// The number of this process.
fn own_pid() -> u32 {
    libc::getpid().unsigned_abs()
}

/// The sockets that were handed over. They are taken, so this is asked once. `Count` if LISTEN_FDS is no number of at most 64,
/// `Memory` if an allocation is refused.
pub fn take_handed<R: Env>(alloc: Global, rt: &R) -> Result<HandedOver, HandedFault> {
    let (mut pid, mut count) = ([0; ROOM], [0; ROOM]);
    let pid = value_of(rt, "LISTEN_PID", &mut pid);
    let count = value_of(rt, "LISTEN_FDS", &mut count);
    match handed_count(own_pid(), pid, count) {
        Some(count) => HandedOver::take(alloc, Descriptors::new(count)),
        None => Err(HandedFault::Count),
    }
}

/// After how many milliseconds the watchdog of this process is told of turns, if there is one.
pub fn own_watchdog_pause<R: Env>(rt: &R) -> Option<u64> {
    let (mut pid, mut micros) = ([0; ROOM], [0; ROOM]);
    let pid = value_of(rt, "WATCHDOG_PID", &mut pid);
    let micros = value_of(rt, "WATCHDOG_USEC", &mut micros);
    watchdog_pause(own_pid(), pid, micros)
}

/// Where a service manager is told of this process, if there is one.
pub fn own_notifier<R: Env + Net>(rt: &R) -> Option<Notifier> {
    let mut address = [0; ROOM];
    Notifier::new(rt, value_of(rt, "NOTIFY_SOCKET", &mut address)?)
}
