//! SET and UNSET.
ghost use Rattle.rb_promises.specs.Sets.{SetsAreAcceptedExactly};
ghost use Rattle.rb_promises.specs.Unsets.{UnsetsAreAcceptedExactly};

/// From every ledger, a SET is answered TRUE exactly if the row that it asks for is accepted: its caller is of this
/// machine; its program is not the portmapper's; its address is one of its netid, with a port other than 0; no live row
/// is of its program, version and netid; there is a place for one more row, which for a caller that is known as another
/// owner than the superuser is none of the last quarter; and there is a number for one more change. It is then live
/// after the others, and nothing else is changed but that the SET is noted. Every other SET is answered FALSE and
/// changes nothing.
pub fn sets_are_accepted_exactly()
    ensures { SetsAreAcceptedExactly }
{}

/// From every ledger, an UNSET is answered TRUE exactly if its caller is of this machine, it covers a live row, and a
/// number is left for one more change. It covers the rows of its program and version on the netids that it means, but
/// for those of program 100000, that are of its caller's owner, and those of every owner if that is the superuser.
/// If the own rows are of program 100000, as they are in each state that a run reaches, just these are then no longer
/// live, the others stay in their order, and nothing else is changed but that the UNSET is noted. Every other UNSET is
/// answered FALSE and changes nothing.
pub fn unsets_are_accepted_exactly()
    ensures { UnsetsAreAcceptedExactly }
{}
