//! Callers and senders as the core is told of them: none of their hosts is of IPv4 in IPv6's form, and so each has a line.
ghost use Rattle.rb_address.specs.Callers.{IsWho};
ghost use Rattle.rb_address.specs.Peers.{IsPeer};

use rb_address::{Peer, Who};
use rb_arrivals::{Arrival, Asker, Returned, plain_peer, plain_who};
use rb_keep::this_machine;

/// A caller.
#[derive(Clone, Copy)]
pub struct Caller {
    pub who: Who,
    ghost is_who: { ∥ IsWho who ∥₁ },
}

/// Who asked by a datagram, on the socket of which number, and how many bytes it has.
#[derive(Clone, Copy)]
pub struct Asked {
    pub caller: Caller,
    pub(crate) socket: usize,
    pub(crate) len: usize,
}

/// Where a datagram came from, and how many bytes it has.
#[derive(Clone, Copy)]
pub struct Sender {
    pub(crate) peer: Peer,
    pub(crate) len: usize,
    ghost is_peer: { ∥ IsPeer peer ∥₁ },
}

impl Caller {
    ghost use Rattle.std.specs.Prelude.{◌≡◌};
    ghost use Rattle.rb_model.specs.ChangeLaws.{this_machine};
    ghost use Rattle.rb_arrivals.specs.Arrivals.{who_of};
    ghost use Rattle.rb_arrivals.specs.PlainCallers.{plain_who};

    // TRUST-14
    /// Who came in so.
    pub fn of(arrival: Arrival) -> Caller
        ensures { result.who ≡ plain_who (who_of arrival) }
    {
        Caller::plain(arrival.who())
    }

    /// The caller with its hosts in their plain form.
    fn plain(who: Who) -> Caller
        ensures { result.who ≡ plain_who who }
    {
        let who = plain_who(who);
        Caller { who }
    }

    /// A caller of this machine that claims who it is, as which rows are set again.
    #[tactic(auto, unfolding(rb_address::specs::Hosts::plain_host))]
    pub(crate) fn of_this_machine() -> Caller
        ensures { result.who ≡ this_machine }
    {
        Caller::plain(this_machine())
    }
}

impl Asked {
    ghost use Rattle.std.specs.Prelude.{◌≡◌};
    ghost use Rattle.rb_arrivals.specs.Arrivals.{who_of};
    ghost use Rattle.rb_arrivals.specs.PlainCallers.{plain_who};

    /// Who asked so.
    pub fn of(asker: Asker) -> Asked
        ensures caller { result.caller.who ≡ plain_who (who_of asker.arrival) }
        ensures socket { result.socket ≡ asker.socket }
        ensures len { result.len ≡ asker.len }
    {
        Asked {
            caller: Caller::of(asker.arrival),
            socket: asker.socket,
            len: asker.len,
        }
    }
}

impl Sender {
    ghost use Rattle.std.specs.Prelude.{◌≡◌};
    ghost use Rattle.rb_arrivals.specs.PlainCallers.{plain_peer};

    /// The sender with its host in its plain form.
    pub fn of(returned: Returned) -> Sender
        ensures peer { result.peer ≡ plain_peer returned.peer }
        ensures len { result.len ≡ returned.len }
    {
        let peer = plain_peer(returned.peer);
        let len = returned.len;
        Sender { peer, len }
    }
}
