//! Look-ups.
ghost use Rattle.rb_promises.specs.LookUps.{GetaddrAnswers, GetversaddrAnswers, GetportAnswers};

/// From every ledger, if hosts have the bytes of their family, GETADDR tells the address of a live row of its program
/// on the netid by which the call came: of the version that it asks for, or, if there is none, of the greatest one.
/// If there is no row of the program, the text is empty. In place of 0.0.0.0 and :: stands the host that the caller
/// asked, if that is one of the family and is neither of these, else the announced one, if there is one. An IPv6
/// address is printed as RFC 5952 section 4 says, and the name of a local socket is told as it was set.
pub fn getaddr_answers()
    ensures { GetaddrAnswers }
{}

/// From every ledger, with the same premise, GETVERSADDR tells the same of a live row of just the version that it asks
/// for, and an empty text if there is none.
pub fn getversaddr_answers()
    ensures { GetversaddrAnswers }
{}

/// From every ledger, GETPORT tells the port of a live row of its program on the netid of its protocol: of the version
/// that it asks for, or, if there is none, of the greatest one. If there is no row of the program, or the protocol
/// is neither TCP nor UDP, it tells 0.
pub fn getport_answers()
    ensures { GetportAnswers }
{}
