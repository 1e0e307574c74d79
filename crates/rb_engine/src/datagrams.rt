//! What is done about a datagram with a call: what it changed is gathered, and its reply goes out or waits.
ghost use Rattle.std.specs.Prelude.{◌≤◌, length, take};
ghost use Rattle.rb_connections.specs.Slots.{Shows};
ghost use Rattle.rb_model.specs.Ending.{forward_reply};
ghost use Rattle.rb_model.specs.Step.{datagram};
ghost use Rattle.rb_core.specs.StandsFor.{StandsFor};
ghost use Rattle.rb_engine.specs.Moves.{ActsNow, HandsNow, ShowsNow};
ghost use Rattle.rb_engine.specs.Sending.{answer_sent, reply_after, ways_after, ways_answered};
ghost use Rattle.rb_engine.specs.Served.{change_count, take_forward_reply};
ghost use Rattle.rb_engine.specs.Waiting.{PostsNow, PostsReply, waiting};

use crate::callers::{Asked, Sender};
use crate::engine::{Answer, Engine};
use crate::keeping::{Keeper, Kept};
use crate::replies::Replies;
use rb_arrivals::Datagrams;
use rb_policy::WaysBack;
use std::fs::Files;

/// Answers the datagram that the room begins with: its reply goes out, or waits until what changed is kept. A call that is
/// forwarded is sent at once, and the socket on which it came is noted.
pub fn answer_call<H: Files, S: Datagrams>(
    host: &H,
    engine: &mut Engine,
    keeper: &mut Keeper<H>,
    replies: &mut Replies,
    sockets: &mut S,
    ways: &mut WaysBack,
    asked: Asked,
    room: &[u8],
)
    requires { asked.len ≤ length room.now }
    ensures sent { PostsNow S.sends
        (λ s now. answer_sent asked.socket asked.caller.who.source
        (datagram s now asked.caller.who (take asked.len room.now)))
        engine.old replies.old replies.new sockets.old sockets.new }
    ensures ways { ShowsNow
        (λ s now. ways_answered asked.socket ways.old
        (datagram s now asked.caller.who (take asked.len room.now)))
        engine.old ways.new }
{
    let answer = engine.answer(asked.caller, &room[..asked.len]);
    engine.tell_call();
    keeper.gather(host, engine);
    match answer {
        Answer::Reply => reply(host, engine, keeper, replies, sockets, asked),
        Answer::Forwarded => {
            if let Some(number) = engine.send_forward(sockets) {
                ways.note(number, asked.socket);
            }
        }
        Answer::Nothing => {}
    }
}

/// Sends the reply to the last datagram, or has it wait until all changes are kept. If it can't wait, they are kept at once.
fn reply<H: Files, S: Datagrams>(
    host: &H,
    engine: &mut Engine,
    keeper: &mut Keeper<H>,
    replies: &mut Replies,
    sockets: &mut S,
    asked: Asked,
)
    ensures { PostsReply S.sends
        (waiting asked.socket asked.caller.who.source engine.old.core.core.reply)
        replies.old replies.new sockets.old sockets.new }
{
    match keeper.kept(engine) {
        Some(kept) => send_now(engine, replies, sockets, asked, kept),
        None => {
            if !engine.hold_reply(asked, replies) {
                let kept = keeper.keep(host, engine);
                send_now(engine, replies, sockets, asked, kept);
            }
        }
    }
}

// KEEP-16
/// Sends what waits, and then the reply to the last datagram, once all changes were kept.
fn send_now<S: Datagrams>(
    engine: &mut Engine,
    replies: &mut Replies,
    sockets: &mut S,
    asked: Asked,
    kept: Kept,
)
    requires { Shows StandsFor change_count engine.old.core.core kept.changes }
    ensures { PostsReply S.sends
        (waiting asked.socket asked.caller.who.source engine.old.core.core.reply)
        replies.old replies.new sockets.old sockets.new }
{
    replies.send(engine, sockets, kept);
    engine.reply(asked, sockets, kept);
}

// KEEP-16
/// Takes in the datagram that the room begins with, which came where forwarded calls are sent from, once all changes are kept.
/// The answer is the connection that goes on.
pub fn take_back<H: Files, S: Datagrams>(
    host: &H,
    engine: &mut Engine,
    keeper: &mut Keeper<H>,
    sockets: &mut S,
    ways: &mut WaysBack,
    sender: Sender,
    room: &[u8],
) -> Option<u64>
    requires { sender.len ≤ length room.now }
    ensures sent { HandsNow S.sends
        (λ s now. reply_after ways.old.all
        (forward_reply s now sender.peer (take sender.len room.now)))
        engine.old sockets.old sockets.new }
    ensures ways { ShowsNow
        (λ s now. ways_after ways.old
        (forward_reply s now sender.peer (take sender.len room.now)))
        engine.old ways.new }
    ensures acts { ActsNow (take_forward_reply sender.peer (take sender.len room.now))
        engine.old engine.new result }
{
    let kept = keeper.keep(host, engine);
    engine.take_forward_reply(sender, &room[..sender.len], sockets, ways, kept)
}
