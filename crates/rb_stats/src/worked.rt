//! Worked rows of the definitions.
#![tactic(auto, unfolding(crate::proofs::OnLiterals::rb_stats_on_literals))]

ghost use Rattle.rb_stats.specs.Worked.{FirstCall, CallsAreCounted, FirstKeysAlone, ForwardsAreCounted, NetidsAreApart, LocalIsLonger};

/// The definitions give what the worked rows say.
pub fn worked_examples()
    ensures getstat_first_call { FirstCall }
    ensures getstat_after_calls { CallsAreCounted }
    ensures getstat_first_keys { FirstKeysAlone }
    ensures getstat_forwards { ForwardsAreCounted }
    ensures getstat_netids { NetidsAreApart }
    ensures getstat_local { LocalIsLonger }
{}
