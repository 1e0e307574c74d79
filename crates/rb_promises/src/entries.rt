//! The order of forwarded calls.
ghost use Rattle.rb_promises.specs.Entries.{EntriesAreInOrder, FirstEntriesAreLeast};

/// In each state that a run reaches, the forwarded calls are in the order of their numbers, each below the next one. So
/// the first of them that passes a test is the one of least number.
pub fn numbers_go_up()
    ensures in_order { EntriesAreInOrder }
    ensures least { FirstEntriesAreLeast }
{}
