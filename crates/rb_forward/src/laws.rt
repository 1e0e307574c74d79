//! What holds of the definitions.
ghost use Rattle.rb_forward.specs.Ends.{RepliesEndTheirOwn, DeadlinesEnd, ClosingsEnd};
ghost use Rattle.rb_forward.specs.Laws.{NumbersNeverRecur, EachEndsOnce, EntriesAreInOrder, EndsAreTold};

/// A datagram ends the first entry that was sent, whose xid, host and port are those of the datagram and whose
/// deadline has not come. `due` ends the first entry whose deadline has come, and the end of a connection its entry.
/// The others stay as they are.
pub fn calls_end_the_first()
    ensures replies { RepliesEndTheirOwn }
    ensures deadlines { DeadlinesEnd }
    ensures closings { ClosingsEnd }
    ensures told { EndsAreTold }
{}

/// In each run each entry that begins ends once, or is still there; numbers never recur, and entries stand in their order.
pub fn each_entry_ends_once()
    ensures once { EachEndsOnce }
    ensures numbers { NumbersNeverRecur }
    ensures in_order { EntriesAreInOrder }
{}
