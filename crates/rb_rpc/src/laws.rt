//! What holds of every message, and of records in a stream.
ghost use Rattle.rb_rpc.specs.RecordLaws.{FirstRecordIsLeast, NoneWhereNoFrontIsOne, RecordsStay, RecordsEndLater, RecordsAreFirstOnes, RecordsEnd, RecordsAreUnique, DataIsJoined, NoRecordBeginsAnother, RepliesAreMarked};
ghost use Rattle.rb_rpc.specs.Streams.{NoRecordEnded};
ghost use Rattle.rb_rpc.specs.FeedLaws.{CallsStay, HeadsEndAtThePlace};
ghost use Rattle.rb_rpc.specs.Grammar.{VerdictIsOfTheGrammar, MismatchesAreOfTheGrammar, AuthErrorsAreOfTheGrammar, TheRestIsNoCall, RepliesAreOfTheGrammar, WrittenRepliesAreRead, WrittenCallsAreRead};

/// The first record of bytes is their shortest prefix that is a marked record; there is none if no prefix is one.
pub fn first_record_is_least()
    ensures least { FirstRecordIsLeast }
    ensures none { NoneWhereNoFrontIsOne }
{}

/// The first record of bytes stays the first of more bytes, and one that ends later is longer.
pub fn first_record_of_more()
    ensures stays { RecordsStay }
    ensures later { RecordsEndLater }
{}

/// The records of a byte stream are its first ones, one after the other, until there is none.
pub fn records_are_unique()
    ensures first_ones { RecordsAreFirstOnes }
    ensures end { RecordsEnd }
    ensures unique { RecordsAreUnique }
{}

/// No record ends within the bytes that were fed since the last end of a record.
pub fn fed_bytes_have_no_record()
    ensures { NoRecordEnded }
{}

/// The data of a record is that of its fragments.
pub fn data_is_joined()
    ensures { DataIsJoined }
{}

/// No marked record is a proper front of another.
pub fn no_record_begins_another()
    ensures { NoRecordBeginsAnother }
{}

/// A marked reply is a marked record of the reply, in fragments of 1,024 bytes but for the last.
pub fn replies_are_marked()
    ensures { RepliesAreMarked }
{}

/// The verdict is a call exactly if the bytes begin with one.
pub fn verdict_is_of_the_grammar()
    ensures { VerdictIsOfTheGrammar }
{}

/// A call stays the same call whatever follows it. Its head has at most 840 bytes, and with fewer
/// bytes than its head it is no call yet.
pub fn calls_stay_calls()
    ensures stay { CallsStay }
    ensures end { HeadsEndAtThePlace }
{}

/// A message is refused exactly if it begins with what the refusal says: another version of RPC;
/// an over-long credential, or one of AUTH_SYS that can't be read; an over-long verifier; another
/// flavor. It is no call exactly if it begins with none of these and with no call.
pub fn refusals_are_of_the_grammar()
    ensures mismatch { MismatchesAreOfTheGrammar }
    ensures auth_error { AuthErrorsAreOfTheGrammar }
    ensures no_call { TheRestIsNoCall }
{}

/// A reply is read exactly if the bytes begin with one.
pub fn replies_are_of_the_grammar()
    ensures { RepliesAreOfTheGrammar }
{}

/// A reply's head that is written is read again, whatever results follow.
pub fn written_replies_are_read()
    ensures { WrittenRepliesAreRead }
{}

/// A call that is written is read again, whatever arguments follow.
pub fn written_calls_are_read()
    ensures { WrittenCallsAreRead }
{}
