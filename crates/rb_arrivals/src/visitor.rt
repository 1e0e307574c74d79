//! Connections that were accepted, and whose they are.
ghost use Rattle.std.specs.Prelude.{◌≡◌};
ghost use Rattle.rb_arrivals.specs.Arrivals.{visitor_of, first_arrival};

use crate::arrival::{Arrival, Ends};
use crate::stream::Stream;
use rb_policy::{Evidence, is_shown};

/// Whose a connection is, as far as its accept tells.
#[derive(Clone, Copy)]
pub enum Visitor {
    /// All is known of it.
    Known(Arrival),
    /// It is from this host over TCP: the kernel's tables show whose it is.
    Unknown(Ends),
}

impl Visitor {
    /// Whose a connection over TCP of these ends is.
    pub fn of(ends: Ends) -> Visitor
        ensures { result ≡ visitor_of ends }
    {
        if is_shown(ends.beliefs.claims, ends.theirs) {
            Visitor::Unknown(ends)
        } else {
            Visitor::Known(ends.arrival(Evidence::NotFound))
        }
    }

    /// How it came in, before the kernel's tables show whose it is.
    pub fn arrival(self) -> Arrival
        ensures { result ≡ first_arrival self }
    {
        match self {
            Visitor::Known(arrival) => arrival,
            Visitor::Unknown(ends) => ends.arrival(Evidence::NotFound),
        }
    }
}

/// A connection that was accepted, and whose it is. Nothing else has its ends.
#[derive(Drop)]
pub struct Accepted {
    /// Its socket.
    pub stream: Stream,
    /// Whose it is, by the two ends of that socket.
    pub visitor: Visitor,
}
