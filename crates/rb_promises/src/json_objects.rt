//! What rpcinfo shows as objects of JSON (RFC 8259).
ghost use Rattle.rb_promises.specs.JsonExamples.{TextsAreUtf8, ExamplesAreTexts, OthersAreNone};
ghost use Rattle.rb_promises.specs.JsonMembers.{NamesAreReadInOneWay, EachHasItsMembers, NoNameIsTwice};

/// Each line that a reply tells as an object has the members of its kind and no others, in the order of the manual
/// page, whatever the reply's bytes are and however the grammar reads the line. No name is twice in an object.
pub fn objects_have_their_members()
    ensures one_way { NamesAreReadInOneWay }
    ensures each { EachHasItsMembers }
    ensures distinct { NoNameIsTwice }
{}

/// Each text of the grammar is UTF-8.
pub fn texts_are_utf8()
    ensures { TextsAreUtf8 }
{}

/// The examples of RFC 8259 are texts of the grammar, and thirty texts that only come near to it are none.
pub fn worked_texts()
    ensures examples { ExamplesAreTexts }
    ensures others { OthersAreNone }
{}
