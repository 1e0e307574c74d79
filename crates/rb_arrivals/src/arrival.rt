//! How callers came in: who they are follows from that alone.
ghost use Rattle.std.specs.Prelude.{◌≡◌};
ghost use Rattle.rb_arrivals.specs.Arrivals.{source_of};

use rb_address::{Host, Peer, Source, Who};
use rb_policy::{Beliefs, Entrance, Evidence, trust_of};

/// How a caller came in.
#[derive(Clone, Copy)]
pub struct Arrival {
    /// What is believed.
    pub beliefs: Beliefs,
    /// Where it came in.
    pub entrance: Entrance,
    /// The host that it asked; 0.0.0.0 if that is not known.
    pub asked: Host,
}

/// Our own end of a connection over TCP: no peer, so that neither end is taken for the other.
#[derive(Clone, Copy)]
pub struct OwnEnd {
    /// The host that was asked, and its port.
    pub address: Peer,
}

/// The two ends of a connection over TCP.
#[derive(Clone, Copy)]
pub struct Ends {
    /// Who is at the other end.
    pub theirs: Peer,
    /// Our own end.
    pub ours: OwnEnd,
    /// What is believed.
    pub beliefs: Beliefs,
}

fn source_of(entrance: Entrance) -> Source
    ensures { result ≡ source_of entrance }
{
    match entrance {
        Entrance::RootSocket | Entrance::OpenSocket => Source::Local,
        Entrance::Tcp(peer, _) | Entrance::Udp(_, peer) => Source::Inet(peer),
    }
}

impl Arrival {
    ghost use Rattle.std.specs.Prelude.{◌≡◌};
    ghost use Rattle.rb_arrivals.specs.Arrivals.{who_of, source_of};

    // TRUST-14
    /// Who came in so.
    pub fn who(self) -> Who
        ensures { result ≡ who_of self }
    {
        Who {
            source: source_of(self.entrance),
            asked: self.asked,
            trust: trust_of(self.beliefs, self.entrance),
        }
    }

    /// Where it came from.
    pub fn source(self) -> Source
        ensures { result ≡ source_of self.entrance }
    {
        source_of(self.entrance)
    }
}

impl Ends {
    ghost use Rattle.std.specs.Prelude.{◌≡◌};
    ghost use Rattle.rb_arrivals.specs.Arrivals.{arrival_of};

    // ASKED-2: A connection over TCP asked the host of its own end, also if the listener has every
    // host; one on the local socket asked none.
    /// How it came in, by what the kernel's tables show.
    pub fn arrival(self, evidence: Evidence) -> Arrival
        ensures { result ≡ arrival_of self evidence }
    {
        Arrival {
            beliefs: self.beliefs,
            entrance: Entrance::Tcp(self.theirs, evidence),
            asked: self.ours.address.host(),
        }
    }
}
