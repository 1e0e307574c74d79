//! What a message is answered with, and what every run gives, on three pages.
ghost use Rattle.std.specs.Prelude.{not, ◌↔◌, IsTrue, IfOk, IfErr, IsErrOf};
ghost use Rattle.rb_model.specs.Plain.{events_of, outputs_of};
ghost use Rattle.rb_model.specs.State.{are_good};
ghost use Rattle.rb_core.specs.Memory.{LacksMemory};
ghost use Rattle.rb_promises.specs.Answers.{MessagesAreAnsweredAsSaid, CallersAreServedAsSaid};
ghost use Rattle.rb_promises.specs.PassedRuns.{RunsPassAsSaid};
ghost use Rattle.rb_promises.specs.Headline.{IsServed, RunsAreServed};

use rb_core::{CoreFault, Limits, Listener, Metered};
use rb_model::{Event, Output};
use rb_replay::replay;
use rb_rpc::replies_are_of_the_grammar;
use std::alloc::Global;

/// A message is answered with something if and only if the page of answers says so; so the page gives each message one answer.
/// The hosts that were asked and that are announced have the bytes of their family, and no two rows have the same program,
/// version and netid, as in each state that a run reaches.
pub fn messages_are_answered_as_said()
    ensures said { MessagesAreAnsweredAsSaid }
    ensures served { CallersAreServedAsSaid }
{}

/// For every list of events from every opening, each event has an output that the page of runs has, after those before it. A datagram,
/// and the data of each record that ends in the bytes taken on a connection, is answered as the page of answers says, of the rows that
/// the SETs and UNSETs before it left. Bytes are taken only once all replies were given; what is pending and what is given comes next
/// in the marked replies of the connection's calls.
pub fn runs_pass_as_said()
    ensures { RunsPassAsSaid }
{}

/// For every list of events from every opening, the model's outputs are those that `serve_events` promises.
pub fn runs_are_served()
    ensures { RunsAreServed }
{
    replies_are_of_the_grammar();
}

/// Makes a core of these limits, for this listener, and has these events happen, one after another: what it gives for each.
/// Each call of a connection and each datagram is answered as the page of answers says, of the rows that the SETs and UNSETs
/// answered TRUE left until then, and of the calls that statistics count; the calls of a connection are the records in its
/// bytes, and what it was given are their replies, in order. Connections close, deadlines come, and forwarded calls are sent
/// and end as the page of ends says. Events are openings, bytes in any cut, partial writes, closings, datagrams, forwarded
/// calls that are sent or answered, moments and looks; a refused one is among them. Moments, addresses and what is known of
/// callers are as they are handed in. `BadLimits` if a limit is out of its range, or the rows have no room for the own ones
/// and two more; else `NoMemory` if an allocation is refused.
pub fn serve_events(
    alloc: Global,
    limits: Limits,
    listener: Listener,
    first_xid: u32,
    now: u64,
    events: &[Event],
) -> Result<Vec<Output>, CoreFault>
    ensures served { IfOk result (λ outputs.
        IsServed limits listener first_xid now (events_of events.now) (outputs_of outputs.items)) }
    ensures bad { IsErrOf result CoreFault.BadLimits ↔ IsTrue (not (are_good limits listener)) }
    ensures memory { IfErr result (LacksMemory limits listener) }
{
    runs_are_served();
    let mut core = Metered::new(alloc, limits, listener, first_xid, now)?;
    let mut outputs = Vec::new(alloc);
    match replay(alloc, &mut core, events, &mut outputs) {
        Ok(()) => Ok(outputs),
        Err(_) => Err(CoreFault::NoMemory),
    }
}
