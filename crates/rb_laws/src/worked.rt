//! Worked examples of the definitions.
#![tactic(auto, unfolding(rb_model::proofs::OnLiterals::rb_model_on_literals))]

ghost use Rattle.rb_laws.specs.WorkedConnections.{NoCallCloses, OtherRpcVersionOnTcp, SingleByteFragmentsInOnePiece, SingleByteFragmentsByteByByte, SingleByteFragmentsInSevens, BytesBehindArguments, OneRecordAtATime, OneRecordAtATimePasses, NoCallPasses, GivenInParts, TooMuchIsRefused, GoodLimits, NumbersDoNotRecur};
ghost use Rattle.rb_laws.specs.WorkedChanges.{ChangesOfSomeCalls, ChangesOfPieces, KeptCallsOfSomeCalls};
ghost use Rattle.rb_laws.specs.WorkedHistory.{HistoryOfSomeCalls, HistoryOfLookUps, HistoryOfForwards, HistoryBegunAnew};
ghost use Rattle.rb_laws.specs.WorkedForwards.{ForwardWithoutRow, RefusedCallsAreCounted, ForwardUntilDeadline, IndirectPasses, CallitPasses, TargetRefuses, DeniedIsSystemErr, CallitIsSilent, GreatestResults, NoPlace, GreatestArguments, SilentOnTcp, ForwardPassesOnTcp, ForwardOnTcpIsWhole, ClosedCallerIsDropped, EachEndsInTurn};
ghost use Rattle.rb_laws.specs.WorkedStrangers.{StrangersLookUp, StrangersGetNoLists, StrangersCountForRows, MadeForThisMachine, MadeToThisHost, MountdIsNotAsked, StrangersAreToldShortly, LaterEventsAreTheirs, DeadlinesAreTheirs};
ghost use Rattle.rb_laws.specs.WorkedCallers.{KnownCallersSetAsTheyAre, StrangersAreRefused, LastQuarterIsKept, AskedHostIsTold, CallersOverIpv6AreTold, CallsOverIpv6AreForwarded, OwnRowsOfAllNetids, OwnRowsNeedRoom};
ghost use Rattle.rb_laws.specs.WorkedBounds.{BytesBounds, StepsBounds};
ghost use Rattle.rb_laws.specs.WorkedLists.{DumpSurvivesUnsetAndEvicts, OldReadersAreEvicted, FullTableRefuses, RowsThatCameAndWentAreNeeded, ListInTwoFragments, ListAsOfItsCall, ListIntoRoom};
ghost use Rattle.rb_laws.specs.WorkedDeadlines.{IdleEnds, ReadingEnds, TwoEnd, OwingEnds, GivenBytesAreProgress, IdleAfterTheReply, DueAtOnceAtTheGreatestMoment, ForwardedCallsComeFirst, NextOfEach};
ghost use Rattle.rb_laws.specs.Worked.{NullIsAnswered, SetThenAskThenSetAgain, GreatestVersionElse, OwnRowsAreAsked, LimitIsReached, LocalCallersSet, NothingIsSilent, NullBySys, OtherRpcVersion, TooShort, GreatestCredential, OverlongCredential, SysBodyCutShort, OverlongVerifier, BadResidue, GoodResidue, GssBeforeProgram, OtherVersion, UnknownProcedure, GarbageArguments, OtherProgram, NullOfThree, NullOfFour, GetstatFirstCall, GetstatOfRefusals};

/// The definitions give what the worked examples say.
pub fn worked_examples()
    ensures null_reply { NullIsAnswered }
    ensures set_getport_set_again { SetThenAskThenSetAgain }
    ensures getport_greatest_version { GreatestVersionElse }
    ensures own_rows { OwnRowsAreAsked }
    ensures set_at_row_limit { LimitIsReached }
    ensures locality { LocalCallersSet }
    ensures empty_datagram { NothingIsSilent }
    ensures null_by_sys { NullBySys }
    ensures rpc_version_mismatch { OtherRpcVersion }
    ensures too_short { TooShort }
    ensures credential_of_400_bytes { GreatestCredential }
    ensures credential_of_401_bytes { OverlongCredential }
    ensures sys_body_cut_short { SysBodyCutShort }
    ensures verifier_of_401_bytes { OverlongVerifier }
    ensures residual_byte_not_zero { BadResidue }
    ensures residual_byte_zero { GoodResidue }
    ensures gss_is_rejected_before_program { GssBeforeProgram }
    ensures other_version { OtherVersion }
    ensures unknown_procedure { UnknownProcedure }
    ensures garbage_arguments { GarbageArguments }
    ensures other_program { OtherProgram }
    ensures null_of_version_3 { NullOfThree }
    ensures null_of_version_4 { NullOfFour }
    ensures getstat_first_call { GetstatFirstCall }
    ensures getstat_of_refusals { GetstatOfRefusals }
{}

/// The definitions give what the worked examples of connections say.
pub fn worked_connections()
    ensures no_call_closes { NoCallCloses }
    ensures rpc_version_mismatch { OtherRpcVersionOnTcp }
    ensures null_in_single_byte_fragments { SingleByteFragmentsInOnePiece }
    ensures single_bytes { SingleByteFragmentsByteByByte }
    ensures pieces_of_seven { SingleByteFragmentsInSevens }
    ensures overlong_record_is_answered { BytesBehindArguments }
    ensures two_calls_in_one_piece { OneRecordAtATime }
    ensures two_calls_pass { OneRecordAtATimePasses }
    ensures no_call_passes { NoCallPasses }
    ensures partial_writes { GivenInParts }
    ensures more_than_is_pending { TooMuchIsRefused }
    ensures limits { GoodLimits }
    ensures numbers { NumbersDoNotRecur }
{}

/// The definitions give what the worked examples of forwarded calls say.
pub fn worked_forwards()
    ensures forward_without_row { ForwardWithoutRow }
    ensures refused_calls_are_counted { RefusedCallsAreCounted }
    ensures forward_until_deadline { ForwardUntilDeadline }
    ensures forward_passes { IndirectPasses }
    ensures callit_passes { CallitPasses }
    ensures target_refuses { TargetRefuses }
    ensures denied_is_system_err { DeniedIsSystemErr }
    ensures callit_is_silent { CallitIsSilent }
    ensures greatest_results { GreatestResults }
    ensures no_place { NoPlace }
    ensures forward_greatest_arguments { GreatestArguments }
    ensures silent_on_tcp { SilentOnTcp }
    ensures forward_passes_on_tcp { ForwardPassesOnTcp }
    ensures forward_on_tcp_is_whole { ForwardOnTcpIsWhole }
    ensures closed_caller_is_dropped { ClosedCallerIsDropped }
    ensures each_ends_in_turn { EachEndsInTurn }
{}

/// The definitions give what the worked examples of lists that are streamed say.
pub fn worked_lists()
    ensures dump_survives_unset_and_evicts { DumpSurvivesUnsetAndEvicts }
    ensures old_readers { OldReadersAreEvicted }
    ensures full_table { FullTableRefuses }
    ensures came_and_went { RowsThatCameAndWentAreNeeded }
    ensures two_fragments { ListInTwoFragments }
    ensures as_of_its_call { ListAsOfItsCall }
    ensures into_room { ListIntoRoom }
{}

// DEADLINE-3
/// The definitions give what the worked examples of deadlines say.
pub fn worked_deadlines()
    ensures idle { IdleEnds }
    ensures reading { ReadingEnds }
    ensures two { TwoEnd }
    ensures owing { OwingEnds }
    ensures given { GivenBytesAreProgress }
    ensures idle_again { IdleAfterTheReply }
    ensures greatest_moment { DueAtOnceAtTheGreatestMoment }
    ensures forwarded_first { ForwardedCallsComeFirst }
    ensures next { NextOfEach }
{}

/// The definitions give what the worked examples of the bounds of held bytes and of steps say.
pub fn worked_bounds()
    ensures bytes_bounds { BytesBounds }
    ensures steps_bounds { StepsBounds }
{}

// CHANGE-3 KEEP-1
/// The definitions give what the worked examples of changes say.
pub fn worked_changes()
    ensures changes_of_some_calls { ChangesOfSomeCalls }
    ensures changes_of_pieces { ChangesOfPieces }
    ensures kept_calls_of_some_calls { KeptCallsOfSomeCalls }
{}

/// The definitions give what the worked examples of callers say.
pub fn worked_callers()
    ensures known_as_uid_5 { KnownCallersSetAsTheyAre }
    ensures stranger_on_this_host { StrangersAreRefused }
    ensures last_quarter { LastQuarterIsKept }
    ensures host_that_was_asked { AskedHostIsTold }
    ensures caller_over_ipv6 { CallersOverIpv6AreTold }
    ensures forwarded_over_ipv6 { CallsOverIpv6AreForwarded }
    ensures own_rows_of_all_netids { OwnRowsOfAllNetids }
    ensures room_for_own_rows { OwnRowsNeedRoom }
{}

/// The definitions give what the worked examples of strangers say.
pub fn worked_strangers()
    ensures looked_up { StrangersLookUp }
    ensures no_lists { StrangersGetNoLists }
    ensures counted_for_rows { StrangersCountForRows }
    ensures made_for_this_machine { MadeForThisMachine }
    ensures made_to_this_host { MadeToThisHost }
    ensures not_of_mountd { MountdIsNotAsked }
    ensures told_shortly { StrangersAreToldShortly }
    ensures later_events { LaterEventsAreTheirs }
    ensures deadlines { DeadlinesAreTheirs }
{}

// STAT-7 HISTORY-1
/// The definitions give what the worked examples of the history of calls say.
pub fn worked_history()
    ensures history_of_some_calls { HistoryOfSomeCalls }
    ensures history_of_look_ups { HistoryOfLookUps }
    ensures history_of_forwards { HistoryOfForwards }
    ensures history_begun_anew { HistoryBegunAnew }
{}
