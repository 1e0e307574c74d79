//! Worked examples of the definitions.
#![tactic(auto, unfolding(crate::proofs::OnLiterals::rb_rpc_on_literals))]

ghost use Rattle.rb_rpc.specs.Worked.{NullCall, NullCallAndMore, NullCallBySys, OtherRpcVersion, TooShort, GreatestCredential, OverlongCredential, HugeCredential, OtherFlavor, SysBodyCutShort, OverlongVerifier, BadResidue, GoodResidue, CutCalls, CutMismatches, CutCredentials, WritesNone, WritesSys, WritesRpcMismatch, WritesSuccess, WritesAuthError, WritesProgMismatch, WritesFaults, ReadsSuccess, ReadsNoneShort, ReadsProgMismatch, ReadsDenied, ReadsAuthStat, ReadsNoOtherAuthStat, ReadsVerifier, ManyFragments, ManyFragmentsData, OneByteLess, FirstOfTwo, ShortRecord, HugeFragment, MarkedReply, MarkedInNine, LongRecord, LongRecordVerdict};

/// The verdicts on worked messages, and calls as they are written.
pub fn worked_calls()
    ensures null_call { NullCall }
    ensures null_call_and_more { NullCallAndMore }
    ensures null_call_by_sys { NullCallBySys }
    ensures other_rpc_version { OtherRpcVersion }
    ensures too_short { TooShort }
    ensures greatest_credential { GreatestCredential }
    ensures overlong_credential { OverlongCredential }
    ensures huge_credential { HugeCredential }
    ensures other_flavor { OtherFlavor }
    ensures sys_body_cut_short { SysBodyCutShort }
    ensures overlong_verifier { OverlongVerifier }
    ensures bad_residue { BadResidue }
    ensures good_residue { GoodResidue }
    ensures cut_calls { CutCalls }
    ensures cut_mismatches { CutMismatches }
    ensures cut_credentials { CutCredentials }
    ensures writes_none { WritesNone }
    ensures writes_sys { WritesSys }
{}

/// Worked replies, as they are written and read.
pub fn worked_replies()
    ensures writes_rpc_mismatch { WritesRpcMismatch }
    ensures writes_success { WritesSuccess }
    ensures writes_auth_error { WritesAuthError }
    ensures writes_prog_mismatch { WritesProgMismatch }
    ensures writes_faults { WritesFaults }
    ensures reads_success { ReadsSuccess }
    ensures reads_none_short { ReadsNoneShort }
    ensures reads_prog_mismatch { ReadsProgMismatch }
    ensures reads_denied { ReadsDenied }
    ensures reads_auth_stat { ReadsAuthStat }
    ensures reads_no_other_auth_stat { ReadsNoOtherAuthStat }
    ensures reads_verifier { ReadsVerifier }
{}

/// Worked records of fragments.
pub fn worked_records()
    ensures many_fragments { ManyFragments }
    ensures many_fragments_data { ManyFragmentsData }
    ensures one_byte_less { OneByteLess }
    ensures first_of_two { FirstOfTwo }
    ensures short_record { ShortRecord }
    ensures huge_fragment { HugeFragment }
    ensures marked_reply { MarkedReply }
    ensures marked_in_nine { MarkedInNine }
    ensures long_record { LongRecord }
    ensures long_record_verdict { LongRecordVerdict }
{}
