//! What takes datagrams: which bytes go to whom, and over which socket.
ghost use Rattle.std.specs.Prelude.{◌≡◌};
ghost use Rattle.rb_policy.specs.WaysBack.{without};
ghost use Rattle.rb_arrivals.specs.Dispatches.{Dispatch, Hands, reply_back};
ghost use Rattle.rb_arrivals.specs.Dispatches.Dispatch.{Reply, Call};

use rb_address::{Peer, Source};
use rb_policy::WaysBack;

/// Sockets that take datagrams to send. What they do with one is the system's: a datagram that none takes is lost.
pub trait Datagrams {
    /// How they are after they were handed a datagram.
    ghost sends: { Self → Dispatch → Self → Type 0 };

    /// Hands a reply to the socket for calls of this number.
    fn reply(&mut self, socket: usize, to: Source, reply: &[u8])
        ensures { sends self.old (Reply socket to reply.now) self.new };

    /// Hands a forwarded call to the socket for its target.
    fn call(&mut self, target: Peer, call: &[u8])
        ensures { sends self.old (Call target call.now) self.new };
}

// WAYBACK-1
/// Sends the reply to the forwarded call of this number on the socket on which that came. If none is noted, nothing is sent.
pub fn reply_to_forwarded<S: Datagrams>(
    sockets: &mut S,
    ways: &mut WaysBack,
    number: u64,
    to: Source,
    reply: &[u8],
)
    ensures sent { Hands S.sends
        (reply_back ways.old.all number to reply.now) sockets.old sockets.new }
    ensures ways { ways.new ≡ without number ways.old }
{
    if let Some(socket) = ways.take(number) {
        sockets.reply(socket, to, reply);
    }
}
