//! What holds of every forwarded call, and of every list.
ghost use Rattle.rb_proto.specs.ForwardLaws.{ForwardsGoToRows, ForwardsAreNotedOnce};
ghost use Rattle.rb_answers.specs.ListParts.{ListRepliesGoOn};

/// If a call is forwarded, it goes to a live row on udp of exactly its program and version, and never to the
/// portmapper.
pub fn forwards_go_to_rows()
    ensures { ForwardsGoToRows }
{}

/// Each call that asks for another is noted once, at its outcome: when it is refused, or when its entry ends.
pub fn forwards_are_noted_once()
    ensures { ForwardsAreNotedOnce }
{}

/// What is yet to be given of a list stays the same, whatever is called in between.
pub fn list_replies_go_on()
    ensures { ListRepliesGoOn }
{}
