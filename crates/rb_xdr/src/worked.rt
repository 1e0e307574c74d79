//! Worked examples of the definitions.
ghost use Rattle.rb_xdr.specs.Worked.{WritesNumbers, WritesInts, ReadsInts, WritesFile, ReadsFile, WritesOptions, ReadsOptions, WritesLists, ReadsArray, CountIsShort, CountIsTooLong, ContentIsShort, ResidueIsShort, ResidueIsNotZero, BoolIsTwo, FirstFieldDecides, FindsLast, PutsInPlace, LooksOfSearches};

/// The definitions give what the worked examples say.
#[tactic(auto, unfolding(crate::specs::Xdr::number, crate::specs::Xdr::number_at, crate::specs::XdrTypes::signed, crate::specs::Xdr::boolean, crate::specs::Xdr::opaque, crate::specs::Xdr::array, crate::specs::XdrTypes::optional, crate::specs::Xdr::linked_list, crate::specs::Xdr::read_number, crate::specs::XdrTypes::read_signed, crate::specs::Xdr::read_bool, crate::specs::Xdr::read_content, crate::specs::Xdr::read_opaque, crate::specs::XdrTypes::read_pair, crate::specs::XdrTypes::read_optional, crate::specs::Xdr::read_array, crate::specs::Ordered::looks))]
pub fn worked_examples()
    ensures writes_numbers { WritesNumbers }
    ensures writes_ints { WritesInts }
    ensures reads_ints { ReadsInts }
    ensures writes_file { WritesFile }
    ensures reads_file { ReadsFile }
    ensures writes_options { WritesOptions }
    ensures reads_options { ReadsOptions }
    ensures writes_lists { WritesLists }
    ensures reads_array { ReadsArray }
    ensures count_is_short { CountIsShort }
    ensures count_is_too_long { CountIsTooLong }
    ensures content_is_short { ContentIsShort }
    ensures residue_is_short { ResidueIsShort }
    ensures residue_is_not_zero { ResidueIsNotZero }
    ensures bool_is_two { BoolIsTwo }
    ensures first_field_decides { FirstFieldDecides }
    ensures finds_last { FindsLast }
    ensures puts_in_place { PutsInPlace }
    ensures looks_of_searches { LooksOfSearches }
{}
