//! Single events: a call on a core, with the look at its reply if there is one.
ghost use Rattle.std.specs.Prelude.{◌≡◌, ◌≤◌, ◌+◌, [], length, vec_capacity, OnErr};
ghost use Rattle.rb_model.specs.Calls.{longest_reply};
ghost use Rattle.rb_model.specs.Step.{show_taken, show_told, pending, is_too_much};
ghost use Rattle.rb_model.specs.Step.Event.{Open, Bytes, Pending, Gave, Closed, NextLost, Datagram, Unsent, Sent, Forward, Expire, ZeroStats};
ghost use Rattle.rb_core.specs.StandsFor.{StandsFor};
ghost use Rattle.rb_model.specs.Plain.{event_of, output_of};
ghost use Rattle.rb_core.specs.Events.{OnlyBegins};
ghost use Rattle.rb_replay.specs.Events.{HasHappened, MayHappen};
ghost use Rattle.rb_xdr.specs.Meter.{PaysAtMost};
ghost use Rattle.rb_connections.specs.Slots.{Shows};
ghost use Rattle.rb_connections.specs.Costs.{look_cost};

use rb_address::{Peer, Who};
use rb_core::Metered;
use rb_forward::{FwdId, LONGEST_FORWARDED_CALL};
use rb_model::{Event, Expired, LONGEST_REPLY, Output, Response, Taken, Told, UnsentCall};
use rb_rpc::LONGEST_FRAGMENT;
use rb_xdr::NoMemory;
use std::alloc::Global;

#[tactic(auto, unfolding(rb_model::specs::Step::step))]
fn open(core: &mut Metered, now: u64, who: Who) -> Output
    ensures { HasHappened (Open now who) core.old core.new result }
{
    match core.open(now, who) {
        Ok(number) => Output::Opened(number),
        Err(fault) => Output::Refused(fault),
    }
}

#[tactic(auto, unfolding(rb_model::specs::Step::step))]
fn bytes(core: &mut Metered, now: u64, id: u64, piece: &[u8]) -> Output
    ensures { HasHappened (Bytes now id piece.now) core.old core.new result }
{
    match core.bytes(now, id, piece) {
        Ok((taken, _)) => show_taken(taken),
        Err(fault) => Output::Refused(fault),
    }
}

fn show_taken(taken: Taken) -> Output
    ensures { output_of result ≡ show_taken taken }
{
    if taken.lost {
        Output::TookAndLost(taken.count)
    } else {
        Output::Took(taken.count)
    }
}

/// Looks at what is pending.
#[tactic(auto, unfolding(rb_model::specs::Step::step, rb_model::specs::Connections::longest_fragment))]
fn pending(alloc: Global, core: &mut Metered, id: u64) -> Result<Output, NoMemory>
    ensures ok { MayHappen (Pending id) core.old core.new result }
    ensures err { OnErr result (core.new ≡ core.old) }
{
    let Ok(mut copy) = Vec::with_capacity(alloc, LONGEST_FRAGMENT) else {
        return Err(NoMemory);
    };
    match core.pending(id) {
        Ok(bytes) => {
            copy.extend_from_slice(bytes).unwrap();
            copy.shrink_to_fit();
            Ok(Output::Pending(copy))
        }
        Err(fault) => Ok(Output::Refused(fault)),
    }
}

fn is_too_much(core: &mut Metered, id: u64, n: u64) -> bool
    ensures value { Shows StandsFor (λ s. is_too_much n (pending s id)) core.old.core result }
    ensures stays { core.new.core ≡ core.old.core }
    ensures cost { PaysAtMost core.old.meter core.new.meter
        (look_cost core.old.core.connections + 1) }
{
    match core.pending_len(id) {
        Ok(len) => (len as u64) < n,
        Err(_) => false,
    }
}

#[tactic(auto, unfolding(rb_model::specs::Step::step))]
fn gave(core: &mut Metered, now: u64, id: u64, n: u64) -> Output
    ensures { HasHappened (Gave now id n) core.old core.new result }
{
    if is_too_much(core, id, n) {
        return Output::TooMuch;
    }
    match core.gave(now, id, n as usize) {
        Ok(_) => Output::Done,
        Err(fault) => Output::Refused(fault),
    }
}

#[tactic(auto, unfolding(rb_model::specs::Step::step))]
fn closed(core: &mut Metered, id: u64) -> Output
    ensures { HasHappened (Closed id) core.old core.new result }
{
    match core.closed(id) {
        Ok(()) => Output::Done,
        Err(fault) => Output::Refused(fault),
    }
}

#[tactic(auto, unfolding(rb_model::specs::Step::step))]
fn next_lost(core: &mut Metered) -> Output
    ensures { HasHappened NextLost core.old core.new result }
{
    Output::Lost(core.next_lost())
}

#[tactic(auto, unfolding(rb_model::specs::Step::step, rb_model::specs::Calls::longest_reply))]
fn datagram(
    alloc: Global,
    core: &mut Metered,
    now: u64,
    who: Who,
    content: &[u8],
) -> Result<Output, NoMemory>
    ensures ok { MayHappen (Datagram now who content.now)
        core.old core.new result }
    ensures err { OnErr result (core.new ≡ core.old) }
{
    let Ok(mut reply) = Vec::with_capacity(alloc, LONGEST_REPLY) else {
        return Err(NoMemory);
    };
    match core.datagram(now, who, content) {
        Response::NoCall | Response::Silent => Ok(Output::Silent),
        Response::Forwarded => Ok(Output::Forwarded),
        Response::Reply => {
            reply.extend_from_slice(core.udp_reply()).unwrap();
            reply.shrink_to_fit();
            Ok(Output::Replied(reply))
        }
    }
}

/// Looks for the forwarded call that must be sent.
#[tactic(auto, unfolding(rb_model::specs::Step::step, rb_arguments::specs::Forwarded::longest_forwarded))]
fn unsent(alloc: Global, core: &mut Metered) -> Result<Output, NoMemory>
    ensures ok { MayHappen Unsent core.old core.new result }
    ensures err { OnErr result (core.new ≡ core.old) }
{
    let Ok(mut call) = Vec::with_capacity(alloc, LONGEST_FORWARDED_CALL) else {
        return Err(NoMemory);
    };
    let Some(unsent) = core.unsent() else {
        return Ok(Output::Unsent(None));
    };
    call.extend_from_slice(unsent.call).unwrap();
    call.shrink_to_fit();
    let (number, target) = (unsent.id.number, unsent.target);
    Ok(Output::Unsent(Some(UnsentCall {
        number,
        target,
        call,
    })))
}

#[tactic(auto, unfolding(rb_model::specs::Step::step))]
fn sent(core: &mut Metered, number: u64) -> Output
    ensures { HasHappened (Sent number) core.old core.new result }
{
    match core.sent(FwdId { number }) {
        Ok(()) => Output::Done,
        Err(fault) => Output::Refused(fault),
    }
}

/// The output of an event that ended a forwarded call, with the reply over UDP if there is one.
#[tactic(auto, unfolding(rb_model::specs::Calls::longest_reply))]
fn show_told(core: &mut Metered, told: Told, mut reply: Vec<u8>) -> Output
    requires short { length core.old.core.reply ≤ longest_reply }
    requires empty { reply.items ≡ [] }
    requires room { longest_reply ≤ vec_capacity reply }
    ensures told { output_of result ≡ show_told core.old.core.reply told }
    ensures core { OnlyBegins core.old.core core.new.core }
    ensures cost { PaysAtMost core.old.meter core.new.meter (1 + length core.old.core.reply) }
{
    match told {
        Told::TcpReady(id) => Output::Ready(id),
        Told::Datagram(_, who) => {
            reply.extend_from_slice(core.udp_reply()).unwrap();
            reply.shrink_to_fit();
            Output::RepliedTo(who, reply)
        }
        Told::Silent(_) => Output::Silent,
    }
}

#[tactic(auto, unfolding(rb_model::specs::Step::step, rb_model::specs::Calls::longest_reply))]
fn forward(
    alloc: Global,
    core: &mut Metered,
    now: u64,
    from: Peer,
    message: &[u8],
) -> Result<Output, NoMemory>
    ensures ok { MayHappen (Forward now from message.now) core.old core.new result }
    ensures err { OnErr result (core.new ≡ core.old) }
{
    let Ok(reply) = Vec::with_capacity(alloc, LONGEST_REPLY) else {
        return Err(NoMemory);
    };
    match core.forward_reply(now, from, message) {
        Some(told) => Ok(show_told(core, told, reply)),
        None => Ok(Output::Ignored),
    }
}

#[tactic(auto, unfolding(rb_model::specs::Step::step, rb_model::specs::Calls::longest_reply))]
fn expire(alloc: Global, core: &mut Metered, now: u64) -> Result<Output, NoMemory>
    ensures ok { MayHappen (Expire now) core.old core.new result }
    ensures err { OnErr result (core.new ≡ core.old) }
{
    let Ok(reply) = Vec::with_capacity(alloc, LONGEST_REPLY) else {
        return Err(NoMemory);
    };
    match core.expire(now) {
        Expired::Ended(told) => Ok(show_told(core, told, reply)),
        Expired::ConnectionLost(id) => Ok(Output::ConnectionLost(id)),
        Expired::Nothing => Ok(Output::Nothing),
    }
}

#[tactic(auto, unfolding(rb_model::specs::Step::step))]
fn zero_stats(core: &mut Metered) -> Output
    ensures { HasHappened ZeroStats core.old core.new result }
{
    core.zero_stats();
    Output::Done
}

/// Does one event; `NoMemory`, and nothing is done, if the allocation for its output is refused.
pub(crate) fn happen(alloc: Global, core: &mut Metered, event: &Event) -> Result<Output, NoMemory>
    ensures ok { MayHappen (event_of event.now) core.old core.new result }
    ensures err { OnErr result (core.new ≡ core.old) }
{
    match event {
        Event::Open(now, who) => Ok(open(core, *now, *who)),
        Event::Bytes(now, id, piece) => Ok(bytes(core, *now, *id, piece)),
        Event::Pending(id) => pending(alloc, core, *id),
        Event::Gave(now, id, n) => Ok(gave(core, *now, *id, *n)),
        Event::Closed(id) => Ok(closed(core, *id)),
        Event::NextLost => Ok(next_lost(core)),
        Event::Datagram(now, who, content) => datagram(alloc, core, *now, *who, content),
        Event::Unsent => unsent(alloc, core),
        Event::Sent(number) => Ok(sent(core, *number)),
        Event::Forward(now, from, message) => forward(alloc, core, *now, *from, message),
        Event::Expire(now) => expire(alloc, core, *now),
        Event::ZeroStats => Ok(zero_stats(core)),
    }
}
