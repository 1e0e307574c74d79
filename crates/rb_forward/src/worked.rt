//! Worked examples of the definitions.
#![tactic(auto, unfolding(crate::proofs::OnLiterals::rb_forward_on_literals))]

ghost use Rattle.rb_forward.specs.Worked.{IsAsked, ArgumentsFollow, SentOnce, XidsWrap, OnePlace, NumbersAreSpent, OtherHost, OtherPort, OtherXid, ThreeBytes, BeforeItIsSent, AtTheDeadline, InTime, EndsAtTheDeadline, TargetRefuses, TargetDenies, FourBytes, LongResultsPass, LongerResultsFail, CallerGoesAway, WhatIsHeld};

/// The definitions give what the worked examples say.
pub fn worked_examples()
    ensures is_asked { IsAsked }
    ensures arguments_follow { ArgumentsFollow }
    ensures sent_once { SentOnce }
    ensures xids_wrap { XidsWrap }
    ensures one_place { OnePlace }
    ensures numbers_are_spent { NumbersAreSpent }
    ensures other_host { OtherHost }
    ensures other_port { OtherPort }
    ensures other_xid { OtherXid }
    ensures three_bytes { ThreeBytes }
    ensures before_it_is_sent { BeforeItIsSent }
    ensures at_the_deadline { AtTheDeadline }
    ensures in_time { InTime }
    ensures ends_at_the_deadline { EndsAtTheDeadline }
    ensures target_refuses { TargetRefuses }
    ensures target_denies { TargetDenies }
    ensures four_bytes { FourBytes }
    ensures long_results_pass { LongResultsPass }
    ensures longer_results_fail { LongerResultsFail }
    ensures caller_goes_away { CallerGoesAway }
    ensures what_is_held { WhatIsHeld }
{}
