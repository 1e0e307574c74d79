//! How connections stay, come and go.
ghost use Rattle.rb_promises.specs.Connections.{LostConnectionsStay, OnlyOpeningsAdd, OnlyClosesRemove, ConnectionsAreInOrder, FirstConnectionsAreLeast, NumbersAreDistinct, GavesAreCapped};

/// From every state, a Lost connection stays as it is under every event but its close, which is not refused, and leaves
/// none of its number.
pub fn lost_connections_stay()
    ensures { LostConnectionsStay }
{}

/// From every state, each connection after an event was there before it, with the same at its other end, or the event
/// is an opening that is not refused, and opened it. Each that was there before is there after it, unless the event is
/// its close.
pub fn only_openings_add()
    ensures added { OnlyOpeningsAdd }
    ensures removed { OnlyClosesRemove }
{}

/// In each state that a run reaches, the connections are in the order of their numbers, each below the next one. So the
/// first of them that passes a test is the one of least number, and no two have one number.
pub fn numbers_are_distinct()
    ensures in_order { ConnectionsAreInOrder }
    ensures least { FirstConnectionsAreLeast }
    ensures distinct { NumbersAreDistinct }
{}

/// From every state, more bytes that are given on a live connection than are pending count as those that are pending:
/// `gave` does what the event does of these.
pub fn gaves_are_capped()
    ensures { GavesAreCapped }
{}
