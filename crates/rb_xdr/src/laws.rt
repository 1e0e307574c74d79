//! What holds of the spellings of every type.
ghost use Rattle.std.specs.Prelude.{ℕ, List};
ghost use Rattle.rb_xdr.specs.Ordered.{LooksAreFew};
ghost use Rattle.rb_xdr.specs.XdrLaws.{IsReadOfOneText, SpellsOneValue, NoneIsLonger, IsNoFront, NumberIsType, SignedIsType, BooleanIsType, OpaqueIsType};

use crate::xdr::Xdr;

/// A value is read of one whole text alone. Each spelling is of one value, none is a proper prefix of another, and
/// none is longer than the greatest.
pub fn spelling_laws<T: Xdr>()
    ensures one_spelling { IsReadOfOneText T.reads }
    ensures no_proper_prefix { (a more : List ℕ) → IsNoFront T.is_value T.spelling a more }
    ensures one_value { SpellsOneValue T.is_value T.spelling }
    ensures bounded { NoneIsLonger T.is_value T.spelling T.max_spelling }
{
    T::laws();
}

/// Numbers, ints, bools and opaque data are read exactly if they are spelled, so nothing but a value's one
/// spelling is read as it. No spelling begins another, and none is longer than the greatest of its type.
pub fn types_are_read_exactly()
    ensures number { NumberIsType }
    ensures int { SignedIsType }
    ensures boolean { BooleanIsType }
    ensures opaque { OpaqueIsType }
{}

/// A search among at most 2^k numbers takes k + 1 looks at most.
pub fn few_looks()
    ensures { LooksAreFew }
{}
