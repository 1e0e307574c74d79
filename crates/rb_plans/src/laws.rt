//! What holds of the definitions.
ghost use Rattle.rb_plans.specs.AddressLaws.{AskedUpToAnAnswer, AllAreAsked};
ghost use Rattle.rb_plans.specs.CourseLaws.{SeveralStay, FaultsAreLast, EndsAreLast};
ghost use Rattle.rb_plans.specs.InputLaws.{HexTextsGiveBytes, OnlyHexTextsDo, OthersAreUnreadable, DigitsGiveTheirBytes, LongTextsAreNotRead, TheRestIsRead};
ghost use Rattle.rb_plans.specs.ObjectLaws.{ObjectsAreAskedFor, VersionTwoHasObjects, TextsAreShownAsObjects};
ghost use Rattle.rb_plans.specs.WholeCourses.{EachVersionIsCalled};

/// A text gives bytes exactly if it is an even number of hexadecimal digits with white space anywhere, and bytes'
/// own digits give them; any other text is unreadable. One of more than 67,108,864 bytes is not read at all.
pub fn texts_are_hexadecimal()
    ensures accepted { HexTextsGiveBytes }
    ensures only { OnlyHexTextsDo }
    ensures others { OthersAreUnreadable }
    ensures bytes { DigitsGiveTheirBytes }
    ensures long { LongTextsAreNotRead }
    ensures short { TheRestIsRead }
{}

/// The addresses of a host are asked in their order up to the first that answers, and all if none does.
pub fn addresses_are_asked_in_order()
    ensures first { AskedUpToAnAnswer }
    ensures none { AllAreAsked }
{}

/// Once the versions of a program are known, each reply, or the want of one, is followed by a call of several or by the
/// end, and no end has the host's next address asked. Versions 0 and 4294967295, by which they are learnt, may be called
/// at several addresses.
pub fn versions_are_asked_once()
    ensures stay { SeveralStay }
    ensures faults { FaultsAreLast }
    ensures ends { EndsAreLast }
{}

/// Words that want objects ask only for what is shown as objects, in version 2 too if it is asked in place of
/// another. Of a reply on standard input nothing but whole lines of such objects is written, unless the output fails.
pub fn objects_are_shown()
    ensures asked { ObjectsAreAskedFor }
    ensures old { VersionTwoHasObjects }
    ensures texts { TextsAreShownAsObjects }
{}

/// If a program's place is known, each of the versions that it has is called once, from the least to the greatest,
/// whatever is answered, or not.
pub fn courses_are_whole()
    ensures { EachVersionIsCalled }
{}
