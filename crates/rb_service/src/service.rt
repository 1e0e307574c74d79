//! The command `serve`.
ghost use Rattle.rb_commands.specs.Asked.{BeginsWell};
ghost use Rattle.rb_startup.specs.Faults.{EndsServe, EndsAfterTurns};

use crate::manager::{Manager, News};
use crate::news::say_news;
use crate::record::{Recorder, make_record};
use rb_address::Host;
use rb_commands::Serve;
use rb_forward::sooner;
use rb_lines::Ending;
use rb_settings::{Settings, Shortage};
use rb_sockets::{Follower, Handed, lacks_loopback6, missing_host};
use rb_startup::{
    Binds, Level, Leveled, StartFault, conclude, explain_start, find_hosts, lock_keep, read_keep,
    say_left_out, say_loopback6, say_missing, say_start, take_sockets,
};
use rb_turns::{Starts, TurnFailed, Turns};
use std::env::Env;
use std::fs::{File, Files};
use std::io::Write;
use std::net::Net;
use std::random::RandomSource;
use std::rt::Clock;
use std::sync::Wait;
use std::thread;
use std::time::Duration;

/// The longest wait of a turn, in milliseconds, if a number of turns is asked for.
const WAIT: u64 = 100;

/// How often a start looks for an address that the machine does not have.
const HOST_TRIES: u64 = 150;

/// After how many milliseconds it looks again.
const HOST_PAUSE: u64 = 200;

const _: () = prove!(HOST_TRIES * HOST_PAUSE == 30_000);

/// Serves, and says on standard output where it listens, and to a service manager that it serves. If it can't start, or a turn
/// fails, the reason goes to `faults`, as the last line.
/// Its moments are of `clock`. If `--bind` is not given, it listens at the hosts of sockets that a service manager handed over.
pub fn run_service<C, D, R, E>(
    rt: &R,
    clock: C,
    mut serve: Serve<'_>,
    binds: Binds,
    faults: &mut E,
) -> Ending
where
    C: Copy,
    D: Starts<C, R> + Drop,
    R: Net + Files<File = File> + Clock + RandomSource + Wait + AllocGlobal + Print + Env,
    E: Write,
    requires { BeginsWell serve }
    ensures { EndsServe E.contents faults.new result }
{
    let mut manager = Manager::of(rt);
    let ending = lock_and_run::<C, D, R, E>(rt, clock, &mut serve, binds, &mut manager, faults);
    manager.tell(News::End);
    ending
}

/// Takes the lock of the file of the kept rows, if there is one, and runs.
#[tactic(auto, using(crate::proofs::Endings::ends_by_start))]
fn lock_and_run<C, D, R, E>(
    rt: &R,
    clock: C,
    serve: &mut Serve<'_>,
    binds: Binds,
    manager: &mut Manager,
    faults: &mut E,
) -> Ending
where
    C: Copy,
    D: Starts<C, R> + Drop,
    R: Net + Files<File = File> + Clock + RandomSource + Wait + AllocGlobal + Print + Env,
    E: Write,
    requires { BeginsWell serve.old }
    ensures { EndsServe E.contents faults.new result }
{
    match lock_keep(rt, &serve.settings, faults) {
        Ok(lock) => {
            let ending = run_locked::<C, D, R, E>(rt, clock, serve, binds, manager, faults);
            drop(lock);
            ending
        }
        Err(fault) => explain_start(&fault, &serve.settings, faults),
    }
}

/// Finds the hosts, begins, and takes the turns, while the file of the kept rows is this daemon's.
#[tactic(auto, using(crate::proofs::Endings::ends_by_start, crate::proofs::Begins::still_begins))]
fn run_locked<C, D, R, E>(
    rt: &R,
    clock: C,
    serve: &mut Serve<'_>,
    binds: Binds,
    manager: &mut Manager,
    faults: &mut E,
) -> Ending
where
    C: Copy,
    D: Starts<C, R> + Drop,
    R: Net + Files + Clock + RandomSource + Wait + AllocGlobal + Print + Env,
    E: Write,
    requires { BeginsWell serve.old }
    ensures { EndsServe E.contents faults.new result }
{
    let are_given = binds.are_given();
    match find_hosts(rt, &mut serve.settings, binds, faults) {
        Ok(mut follower) => run_at::<C, D, R, E>(
            rt,
            clock,
            serve,
            are_given,
            &mut follower,
            manager,
            faults,
        ),
        Err(error) => explain_start(&StartFault::from(error), &serve.settings, faults),
    }
}

/// Begins, and takes the turns. What follows addresses is handed to a daemon that is lent, since each place that lets a daemon go
/// is dear to prove.
#[tactic(auto, using(crate::proofs::Endings::ends_by_start))]
fn run_at<C, D, R, E>(
    rt: &R,
    clock: C,
    serve: &mut Serve<'_>,
    are_given: bool,
    follower: &mut Option<Follower>,
    manager: &mut Manager,
    faults: &mut E,
) -> Ending
where
    C: Copy,
    D: Starts<C, R> + Drop,
    R: Net + Files + Clock + RandomSource + Wait + AllocGlobal + Print + Env,
    E: Write,
    requires { BeginsWell serve.old }
    ensures { EndsServe E.contents faults.new result }
{
    match begin::<C, D, R, E>(rt, clock, serve, are_given, manager, faults) {
        Ok(mut daemon) => serve_until_the_end(rt, &mut daemon, follower, serve, manager, faults),
        Err(fault) => explain_start(&fault, &serve.settings, faults),
    }
}

// KEEP-10: Kept rows are read, and asked, before anything listens.
/// A daemon that has the rows that were kept, which are read before anything listens; those that it has not are said. It has the
/// sockets that were handed over.
#[tactic(auto, using(crate::proofs::Begins::still_begins))]
fn begin<'s, C, D, R, E>(
    rt: &R,
    clock: C,
    serve: &mut Serve<'s>,
    are_given: bool,
    manager: &Manager,
    faults: &mut E,
) -> Result<D, StartFault<'s>>
where
    C: Copy,
    D: Starts<C, R>,
    R: Net + Files + Clock + RandomSource + AllocGlobal + Env,
    E: Write,
    requires { BeginsWell serve.old }
{
    let handed = match take_sockets(rt, &mut serve.settings, are_given) {
        Ok(handed) => handed,
        Err(fault) => return Err(StartFault::Handed(fault)),
    };
    let settings = &serve.settings;
    if manager.is_there() {
        wait_for_hosts(rt, settings, &handed, manager, faults);
    }
    let rows = read_keep(rt, serve, faults)?;
    match D::new(rt.alloc(), rt, clock, settings, &rows, handed) {
        Ok(daemon) => {
            say_left_out(settings, &rows, daemon.left_out(), faults);
            Ok(daemon)
        }
        Err(fault) => Err(StartFault::Daemon(fault)),
    }
}

// START-3: If a service manager is told of the start, it waits up to 30 seconds for an address of `--bind` that the machine does
// not have yet, and says so.
/// Waits until the machine has each host of the settings, or for 30 seconds.
fn wait_for_hosts<R: Net + Clock, E: Write>(
    rt: &R,
    settings: &Settings<'_>,
    handed: &Handed,
    manager: &Manager,
    faults: &mut E,
) {
    let mut told: Option<Host> = None;
    for _ in 0..HOST_TRIES {
        let Some(host) = missing_host(rt, settings, handed) else {
            return;
        };
        if told != Some(host) {
            say_missing(host, &mut Leveled::new(&mut *faults, Level::Notice));
            manager.tell(News::Missing(host));
            told = Some(host);
        }
        thread::sleep(rt, Duration::from_millis(HOST_PAUSE));
    }
}

/// Begins to serve, and takes the turns.
#[tactic(auto, using(crate::proofs::Endings::ends_by_start, crate::proofs::Endings::ends_turned))]
fn serve_until_the_end<D, R, E>(
    rt: &R,
    daemon: &mut D,
    follower: &mut Option<Follower>,
    serve: &Serve<'_>,
    manager: &mut Manager,
    faults: &mut E,
) -> Ending
where
    D: Turns<R>,
    R: Files + Net + Clock + Wait + Print,
    E: Write,
    ensures { EndsServe E.contents faults.new result }
{
    match prepare(rt, daemon, follower, serve, faults) {
        Ok(recorder) => serve_on(rt, daemon, serve, recorder, manager, faults),
        Err(fault) => explain_start(&fault, &serve.settings, faults),
    }
}

/// Has addresses followed, makes the file of the record, and says where the daemon listens.
fn prepare<'s, D, R, E>(
    rt: &R,
    daemon: &mut D,
    follower: &mut Option<Follower>,
    serve: &Serve<'s>,
    faults: &mut E,
) -> Result<Recorder<R::File>, StartFault<'s>>
where
    D: Turns<R>,
    R: Files + Net + Clock + Print,
    E: Write,
{
    if let Some(follower) = follower.take() {
        daemon.follow_by(follower)?;
    }
    announce(rt, daemon.shortage(), serve, faults)
}

/// Makes the file of the record, and says where the daemon listens, and that descriptors are short, if they are.
fn announce<'s, R, E>(
    rt: &R,
    shortage: Option<Shortage>,
    serve: &Serve<'s>,
    faults: &mut E,
) -> Result<Recorder<R::File>, StartFault<'s>>
where
    R: Files + Net + Print,
    E: Write,
{
    let settings = &serve.settings;
    let recorder = make_record(rt, serve.record_path)?;
    say_loopback6(
        settings,
        lacks_loopback6(rt),
        &mut Leveled::new(&mut *faults, Level::Warning),
    );
    match say_start(rt, settings, shortage, faults) {
        Ok(()) => Ok(recorder),
        Err(_) => Err(StartFault::Unsaid),
    }
}

/// Takes the turns, with what is recorded of them.
#[tactic(auto, using(crate::proofs::Endings::ends_after_turns))]
fn serve_on<D, R, F, E>(
    rt: &R,
    daemon: &mut D,
    serve: &Serve<'_>,
    mut recorder: Recorder<F>,
    manager: &mut Manager,
    faults: &mut E,
) -> Ending
where
    D: Turns<R>,
    R: Files + Net + Clock + Wait,
    F: Write + Drop,
    E: Write,
    ensures { EndsAfterTurns E.contents faults.new result }
{
    recorder.write(daemon, faults);
    manager.tell(News::Ready(daemon.load()));
    let _ = take_turns(rt, daemon, serve, &mut recorder, manager, faults);
    conclude(&daemon.take_end(), &serve.settings, faults)
}

/// Takes a turn, which waits this many milliseconds at most, and writes what was recorded of it, the lines of the log,
/// and one for each listener that failed the first time, for the rows that could not be written, and for what else was found
/// out of the system. If standard error takes no lines, they are lost. The watchdog is told of it if that is due.
fn take_turn<D: Turns<R>, R: Files + Net, F: Write + Drop, E: Write>(
    rt: &R,
    daemon: &mut D,
    settings: &Settings<'_>,
    recorder: &mut Recorder<F>,
    manager: &mut Manager,
    faults: &mut E,
    longest: Option<u64>,
) -> Result<(), TurnFailed> {
    let turned = daemon.turn(rt, sooner(longest, manager.wait(daemon.moment())));
    recorder.write(daemon, faults);
    if daemon.has_news() {
        say_news(rt, daemon, settings, faults);
    }
    if turned.is_ok() && manager.hears_of_turn(daemon.moment()) {
        manager.tell(News::Turn(daemon.load()));
    }
    turned
}

/// Takes the turns that are asked for, or all, until one fails.
fn take_turns<D: Turns<R>, R: Files + Net + Wait, F: Write + Drop, E: Write>(
    rt: &R,
    daemon: &mut D,
    serve: &Serve<'_>,
    recorder: &mut Recorder<F>,
    manager: &mut Manager,
    faults: &mut E,
) -> Result<(), TurnFailed> {
    let settings = &serve.settings;
    if serve.turns > 0 {
        for _ in 0..serve.turns {
            take_turn(rt, daemon, settings, recorder, manager, faults, Some(WAIT))?;
        }
        return Ok(());
    }
    for _ in rt.forever() {
        take_turn(rt, daemon, settings, recorder, manager, faults, None)?;
    }
    unreachable!()
}
