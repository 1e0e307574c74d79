//! The command `replay`.
ghost use Rattle.std.specs.Prelude.{◌≡◌, ◌≤◌, ◌⊎◌, [], IsTrue, IfOk, IfErr, OnOk};
ghost use Rattle.std.specs.Io.Buffered.{writer_buffer};
ghost use Rattle.rb_model.specs.State.{are_good};
ghost use Rattle.rb_model.specs.Plain.{events_of};
ghost use Rattle.rb_core.specs.StandsFor.{StandsFor};
ghost use Rattle.rb_lines.specs.Lines.{read};
ghost use Rattle.rb_lines.specs.Faults.{status_of};
ghost use Rattle.rb_replay.specs.Running.{first_state, BeginsFrom, AreCounted, IsRunOf, CountsSteps, KeepsBound, KeepsBoundFrom, BufWrites, IsEnoughOf, IsReplayFault, IsCoreFault, IsRefused, PrintsRun, Reads, Replays, Refuses, RunsFrom, ran_text, Explains};

use crate::run::replay;
use crate::run_bound::whole_bound;
use rb_answers::Listener;
use rb_core::{CoreFault, Metered};
use rb_lines::{
    Beginning, DONE, Ending, Fault, WriteFailed, explain_run, longest_input, print_outputs,
    print_steps, read_events,
};
use rb_model::{Event, Limits, Output};
use rb_uaddr::AddressText;
use rb_xdr::Meter;
use std::alloc::Global;
use std::io::{BufWriter, Read, Write};
use std::{io, mem};

/// The first bytes of what the reader has left: as many as an input may have, and one more.
pub(crate) fn read_input<R: Read>(alloc: Global, reader: &mut R) -> Result<Vec<u8>, Fault>
    ensures bytes { IfOk result (λ text. IsEnoughOf (R.remaining reader.old) text.items) }
    ensures err { IfErr result (λ fault. (fault ≡ Fault.NoMemory) ⊎ (fault ≡ Fault.ReadFailed)) }
{
    let mut text = Vec::new(alloc);
    let limit = longest_input() as u64 + 1;
    match reader.take(limit).read_to_end(&mut text) {
        Ok(_) => Ok(text),
        Err(error) if error.kind() == io::ErrorKind::OutOfMemory => Err(Fault::NoMemory),
        Err(_) => Err(Fault::ReadFailed),
    }
}

/// Another such listener.
fn listener_like(listener: &Listener) -> Listener
    ensures { result ≡ listener.now }
{
    match &listener.local {
        Some(path) => Listener {
            announced: listener.announced,
            port: listener.port,
            local: Some(AddressText::new(path.as_slice())),
            terms: listener.terms,
            reserved: listener.reserved.copied(),
        },
        None => Listener {
            announced: listener.announced,
            port: listener.port,
            local: None,
            terms: listener.terms,
            reserved: listener.reserved.copied(),
        },
    }
}

/// A new core, as a replay begins, with a meter that counts on.
fn first_core(alloc: Global, beginning: &Beginning, meter: Meter) -> Result<Metered, Fault>
    ensures made { IfOk result (λ made. StandsFor made.core (first_state beginning.now)) }
    ensures cost { IfOk result (λ made. BeginsFrom beginning.now meter made.meter) }
    ensures good { OnOk result (IsTrue (are_good beginning.now.limits beginning.now.listener)) }
    ensures err { IfErr result (IsCoreFault beginning.now) }
{
    let Beginning {
        limits,
        listener,
        first_xid,
        moment,
        steps: _,
    } = beginning;
    let listener = listener_like(listener);
    match Metered::counted_by(meter, alloc, *limits, listener, *first_xid, *moment) {
        Ok(core) => Ok(core),
        Err(CoreFault::BadLimits) => Err(Fault::BadLimits),
        Err(_) => Err(Fault::NoMemory),
    }
}

/// What a run gave, how many steps it took, and how many it may.
#[derive(Drop)]
pub(crate) struct Ran {
    pub outputs: Vec<Output>,
    pub steps: u128,
    pub bound: u128,
}

// STEPS-6
/// Runs the events on a core of these limits.
fn run_on(
    alloc: Global,
    core: &mut Metered,
    limits: &Limits,
    events: &[Event],
) -> Result<Ran, Fault>
    ensures ok { RunsFrom limits.now (events_of events.now) core.old.core result }
    ensures steps { IfOk result (CountsSteps core.old.meter core.new.meter) }
    ensures within { KeepsBoundFrom limits.now core.old.core result }
    ensures err { IfErr result (λ fault. fault ≡ Fault.NoMemory) }
{
    let before = core.count();
    let Ok(mut outputs) = Vec::with_capacity(alloc, events.len()) else {
        return Err(Fault::NoMemory);
    };
    match replay(alloc, core, events, &mut outputs) {
        Ok(()) => {
            let steps = core.count().saturating_sub(before);
            let bound = whole_bound(limits, events, &outputs);
            Ok(Ran {
                outputs,
                steps,
                bound,
            })
        }
        Err(_) => Err(Fault::NoMemory),
    }
}

/// Runs the events, from a new core whose steps the meter counts.
pub(crate) fn run_from(
    alloc: Global,
    beginning: &Beginning,
    events: &[Event],
    meter: &mut Meter,
) -> Result<Ran, Fault>
    ensures ok { IfOk result (IsRunOf beginning.now (events_of events.now)) }
    ensures within { IfOk result KeepsBound }
    ensures counted { IfOk result
        (λ ran. AreCounted beginning.now ran.steps meter.old meter.new) }
    ensures good { OnOk result (IsTrue (are_good beginning.now.limits beginning.now.listener)) }
    ensures err { IfErr result (IsCoreFault beginning.now) }
{
    let counting = mem::replace(meter, Meter::new());
    let mut core = first_core(alloc, beginning, counting)?;
    let ran = run_on(alloc, &mut core, &beginning.limits, events)?;
    *meter = core.into_meter();
    Ok(ran)
}

// REPLAY-3
/// Writes what a run is printed as, to the last byte, and its steps if that is asked for.
fn put_ran<W: Write + Drop>(
    ran: &Ran,
    shows_steps: bool,
    out: &mut BufWriter<W>,
) -> Result<(), WriteFailed>
    ensures ok { OnOk result
        (BufWrites W.contents out.old out.new (ran_text ran.now shows_steps)) }
    ensures flushed { OnOk result (writer_buffer out.new ≡ []) }
{
    print_outputs(&ran.outputs, out)?;
    if shows_steps {
        print_steps(ran.steps, ran.bound, out)?;
    }
    match out.flush() {
        Ok(()) => Ok(()),
        Err(_) => Err(WriteFailed),
    }
}

/// Runs the events of a text and writes what they give.
fn replay_text<W: Write + Drop>(
    alloc: Global,
    beginning: &Beginning,
    text: &[u8],
    out: &mut BufWriter<W>,
    meter: &mut Meter,
) -> Result<(), Fault>
    ensures ok { OnOk result
        (PrintsRun beginning.now meter.old meter.new W.contents out.old out.new (read text.now)) }
    ensures good { OnOk result (IsTrue (are_good beginning.now.limits beginning.now.listener)) }
    ensures flushed { OnOk result (writer_buffer out.new ≡ []) }
    ensures err { IfErr result (λ fault. IsReplayFault beginning.now fault (read text.now)) }
    ensures unwritten { IfErr result (λ fault. status_of fault ≡ 2 → out.new ≡ out.old) }
{
    let events = match read_events(alloc, text) {
        Ok(events) => events,
        Err(fault) => return Err(Fault::Lines(fault)),
    };
    let ran = run_from(alloc, beginning, &events, meter)?;
    match put_ran(&ran, beginning.steps, out) {
        Ok(()) => Ok(()),
        Err(WriteFailed) => Err(Fault::WriteFailed),
    }
}

/// Reads the reader to its end, or one byte more than an input may have, runs the events and writes what they give.
fn replay_all<R: Read, W: Write + Drop>(
    alloc: Global,
    beginning: &Beginning,
    reader: &mut R,
    out: &mut BufWriter<W>,
    meter: &mut Meter,
) -> Result<(), Fault>
    ensures ok { OnOk result (Replays beginning.now meter.old meter.new
        R.remaining reader.old W.contents out.old out.new) }
    ensures good { OnOk result (IsTrue (are_good beginning.now.limits beginning.now.listener)) }
    ensures flushed { OnOk result (writer_buffer out.new ≡ []) }
    ensures refused { IfErr result (Refuses beginning.now R.remaining reader.old) }
    ensures unwritten { IfErr result (λ fault. status_of fault ≡ 2 → out.new ≡ out.old) }
{
    let text = read_input(alloc, reader)?;
    replay_text(alloc, beginning, &text, out, meter)
}

/// Runs the command `replay`: it reads event lines to the end, makes a core, runs their events on it and writes a
/// line for each.
///
/// Status 0 says that all went well and that the writer's buffer was written out. 2 says that the input is no event
/// lines, and nothing was run or written, whatever the limits are. 1 says that the limits are out of their ranges, or
/// that reading, writing or memory failed. What is wrong is written to `faults`; at 0 nothing is.
///
/// The meter counts the steps of the run, from where it stands; if the run fails, it may count none of them.
pub fn run_replay<R: Read, W: Write + Drop, E: Write>(
    alloc: Global,
    beginning: &Beginning,
    reader: &mut R,
    out: &mut BufWriter<W>,
    faults: &mut E,
    meter: &mut Meter,
) -> Ending
    ensures status { result.status ≤ 2 }
    ensures ok { result.status ≡ 0 → Replays beginning.now meter.old meter.new
        R.remaining reader.old W.contents out.old out.new }
    ensures good { result.status ≡ 0 → IsTrue (are_good beginning.now.limits beginning.now.listener) }
    ensures flushed { result.status ≡ 0 → writer_buffer out.new ≡ [] }
    ensures quiet { result.status ≡ 0 → faults.new ≡ faults.old }
    ensures refused { result.status ≡ 2 → Reads R.remaining reader.old IsRefused }
    ensures unwritten { result.status ≡ 2 → out.new ≡ out.old }
    ensures told { Explains
        beginning.now R.remaining reader.old E.contents faults.old faults.new result }
{
    match replay_all(alloc, beginning, reader, out, meter) {
        Ok(()) => DONE,
        Err(fault) => explain_run(fault, &beginning.limits, &beginning.listener, faults),
    }
}
