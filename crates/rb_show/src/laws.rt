//! What the calls have to do with rb_arguments' side of them and the replies with rb_rpc's, and what texts and objects of
//! JSON are.
ghost use Rattle.rb_show.specs.HeadLaws.{HeadsAreRead, HeadsStay, NoHeadComes};
ghost use Rattle.rb_show.specs.FrontLaws.{LinesStay};
ghost use Rattle.rb_show.specs.FaultLaws.{FaultsStay, UnreadableStays};
ghost use Rattle.rb_show.specs.ListLaws.{ListsAreShown, LongerListsStop, ListsAreTaken};
ghost use Rattle.rb_show.specs.AskLaws.{QuestionsAreRequests};
ghost use Rattle.rb_show.specs.JsonLaws.{EachByteIsACharacter, AllBytesArePrintable};
ghost use Rattle.rb_show.specs.ObjectLaws.{EachLineIsAnObject, OnlyObjectsAreWritten, ObjectLinesAreTexts};

use rb_xdr::Xdr;

/// The number of a question in its version is that of its procedure in rb_arguments' table, and its arguments are
/// spelled as a portmapper reads them.
pub fn questions_are_requests()
    ensures { QuestionsAreRequests }
{}

/// A text of JSON spells each byte of a text as the character of its number, and is of printable ASCII characters.
pub fn json_texts_are_of_the_grammar()
    ensures each { EachByteIsACharacter }
    ensures printable { AllBytesArePrintable }
{}

/// Each line that a reply tells as an object is one object of the grammar of JSON and a line feed, and so a text of
/// JSON. Of such a reply nothing but whole lines of this kind is written, unless the writer fails.
pub fn objects_are_of_the_grammar()
    ensures each { EachLineIsAnObject }
    ensures written { OnlyObjectsAreWritten }
    ensures texts { ObjectLinesAreTexts }
{}

/// What `take_head` takes from the front of a reply's data is the head that `read_reply` says of all the data, and the
/// data after it is left; if `read_reply` says none, it is `Unreadable`, or ends too early. A head stays one whatever
/// follows it; and where no head may begin, none comes.
pub fn heads_are_read()
    ensures read { HeadsAreRead }
    ensures stay { HeadsStay }
    ensures none { NoHeadComes }
{}

/// The lines that a front of a reply's data tells are a front of those that all of it tells, however it ends.
pub fn lines_stay()
    ensures { LinesStay }
{}

/// Bytes that begin with no value, for another reason than that there are too few of them, begin with none whatever
/// follows them, for the same reason: so all data that begins with them is `Unreadable`.
pub fn faults_stay<T: Xdr>()
    ensures faults { FaultsStay T.reads }
    ensures unreadable { UnreadableStays T.reads }
{
    T::laws();
}

/// Of data that begins with a list of at most 4,096 values, as RFC 4506 section 4.19 spells it, the
/// line of each is told, in their order, and these values are taken; what stands after the list is left. Of a longer
/// list the lines of the first 4,096 values are told, and then that there are too many.
pub fn lists_are_shown<T: Xdr>()
    ensures shown { ListsAreShown T.is_value T.spelling T.reads }
    ensures longer { LongerListsStop T.is_value T.spelling T.reads }
    ensures taken { ListsAreTaken T.is_value T.spelling T.reads }
{
    T::laws();
}
