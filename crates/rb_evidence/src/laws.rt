//! What holds of each table, and worked examples.
ghost use Rattle.rb_evidence.specs.Laws.{EndpointsDiffer, MappedDiffer, UidIsOfOneSocket, TwoSocketsAreNone, ShownTwiceIsOne};
ghost use Rattle.rb_evidence.specs.Walks.{CutLinesAreOne, WalksSeeTheWhole};
ghost use Rattle.rb_evidence.specs.Worked.{OverIpv4, OverIpv6, OverIpv4InIpv6};

/// The uid is of one socket, which is of this connection and no other, in however many lines it is shown.
pub fn table_laws()
    ensures endpoints_differ { EndpointsDiffer }
    ensures mapped_differ { MappedDiffer }
    ensures uid_is_of_one_socket { UidIsOfOneSocket }
    ensures two_sockets_are_none { TwoSocketsAreNone }
    ensures shown_twice_is_one { ShownTwiceIsOne }
{}

/// However a table is cut into slices, its lines are looked at once, and show of a connection what the whole table shows.
pub fn walk_laws()
    ensures lines { CutLinesAreOne }
    ensures whole { WalksSeeTheWhole }
{}

/// Worked examples, of tables that Linux 6.18 showed.
#[tactic(auto, unfolding(crate::proofs::OnLiterals::rb_evidence_on_literals))]
pub fn worked_examples()
    ensures over_ipv4 { OverIpv4 }
    ensures over_ipv6 { OverIpv6 }
    ensures over_ipv4_in_ipv6 { OverIpv4InIpv6 }
{}
