//! The bound of a whole run, in counted steps.
ghost use Rattle.std.specs.Prelude.{◌≡◌};
ghost use Rattle.rb_model.specs.Bounds.{bytes_in, bytes_lent};
ghost use Rattle.rb_replay.specs.Runs.{bound_shown};
ghost use Rattle.rb_model.specs.WholeRuns.{bytes_reported, event_allowance};
ghost use Rattle.rb_model.specs.Plain.{event_of, output_of, events_of, outputs_of};

use rb_core::MOST_KEYS;
use rb_model::{Event, Limits, Output};

/// How many bytes an event takes, by its output. A datagram counts whole; what is refused takes none.
fn bytes_in(event: &Event, output: &Output) -> usize
    ensures { result ≡ bytes_in (event_of event.now) (output_of output.now) }
{
    match (event, output) {
        (Event::Datagram(_, _, content), _) => content.len(),
        (Event::Forward(_, _, message), _) => message.len(),
        (_, Output::Took(count) | Output::TookAndLost(count)) => *count,
        _ => 0,
    }
}

/// How many bytes an output has.
fn bytes_lent(output: &Output) -> usize
    ensures { result ≡ bytes_lent (output_of output.now) }
{
    match output {
        Output::Pending(bytes) => bytes.len(),
        Output::Replied(reply) | Output::RepliedTo(_, reply) => reply.len(),
        Output::Unsent(Some(unsent)) => unsent.call.len(),
        _ => 0,
    }
}

/// How many bytes an event lends, or how many a `gave` reports that was called.
fn bytes_reported(event: &Event, output: &Output) -> u64
    ensures { result ≡ bytes_reported (event_of event.now) (output_of output.now) }
{
    match (event, output) {
        (Event::Gave(_, _, n), Output::Done | Output::Refused(_)) => *n,
        _ => bytes_lent(output) as u64,
    }
}

/// How many steps one event may take at these limits, apart from those for its bytes.
fn event_allowance(limits: &Limits) -> u128
    ensures { result ≡ event_allowance limits.now }
{
    let Limits {
        conns,
        rows,
        forwards,
    } = *limits;
    let places = conns as u128 + rows as u128 + u128::from(MOST_KEYS) + forwards as u128;
    64 * places + 4096
}

/// The most steps that a run takes at these limits, if these events had these outputs and the connections' buffers were
/// empty as it began: 16 for each byte that was taken or given, and for each event 64 for each connection, row, key of
/// the statistics and forwarded call that there may be, and 4,096. If that is more than 2^128 - 1, it is 2^128 - 1.
pub fn whole_bound(limits: &Limits, events: &[Event], outputs: &[Output]) -> u128
    ensures { result
        ≡ bound_shown limits.now (events_of events.now) (outputs_of outputs.now) }
{
    let mut bytes: u128 = 0;
    let count = events.len().min(outputs.len());
    for i in 0..count {
        let taken = bytes_in(&events[i], &outputs[i]) as u128;
        let reported = bytes_reported(&events[i], &outputs[i]) as u128;
        bytes = bytes.saturating_add(taken + reported);
    }
    let allowance = event_allowance(limits);
    let all = (events.len() as u128).saturating_mul(allowance);
    bytes.saturating_mul(16).saturating_add(all)
}
