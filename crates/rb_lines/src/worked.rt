//! Worked examples of the definitions, which the proof computes.
ghost use Rattle.rb_lines.specs.Worked.{StoredRunIsRead, StoredRunIsPrinted, BadEventLine, LinesAreCounted, NumbersOfLines, PeersOfLines, ConnectionsAreRead, ConnectionsArePrinted, ForwardsAreRead, ZeroIsRead, ZeroIsPrinted, ForwardsArePrinted, CallersAreRead, CallersArePrinted, OptionsArePrinted, Ipv6PeersAreRead, Ipv6PeersArePrinted};

// LINE-6 LINE-8 LINE-9
/// The definitions give what the worked examples say.
#[tactic(auto, unfolding(crate::proofs::OnLiterals::rb_lines_on_literals))]
pub fn worked_examples()
    ensures stored_run_is_read { StoredRunIsRead }
    ensures stored_run_is_printed { StoredRunIsPrinted }
    ensures bad_event_line { BadEventLine }
    ensures lines_are_counted { LinesAreCounted }
    ensures numbers { NumbersOfLines }
    ensures peers { PeersOfLines }
    ensures connections_are_read { ConnectionsAreRead }
    ensures connections_are_printed { ConnectionsArePrinted }
    ensures forwards_are_read { ForwardsAreRead }
    ensures zero_is_read { ZeroIsRead }
    ensures zero_is_printed { ZeroIsPrinted }
    ensures forwards_are_printed { ForwardsArePrinted }
    ensures callers_are_read { CallersAreRead }
    ensures callers_are_printed { CallersArePrinted }
    ensures options_are_printed { OptionsArePrinted }
    ensures ipv6_peers_are_read { Ipv6PeersAreRead }
    ensures ipv6_peers_are_printed { Ipv6PeersArePrinted }
{}
