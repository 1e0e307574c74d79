//! `rpcbind serve` is the daemon; `rpcbind replay` reads event lines and prints what each event gives.
#![tactic(auto)]

use rb_daemon::Daemon;
use rb_inside::Inside;
use rb_service::{Streams, run};
use rb_startup::{Leveled, is_journal};
use std::io;
use std::process::ExitCode;

fn main(rt: HostRuntime) -> ExitCode {
    let mut faults = Leveled::standard_error(rt.stderr(), is_journal(&rt));
    let streams = Streams {
        input: rt.reader(),
        output: io::writer(&rt),
        errors: rt.stderr(),
    };
    let ending = run::<_, Daemon<'_, HostRuntime, HostRuntime, Inside<HostRuntime>>, _, _, _, _>(
        &rt,
        &rt,
        streams,
        &mut faults,
    );
    ExitCode::from(ending.status)
}
