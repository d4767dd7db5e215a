//! Laws of what the other modules' contracts speak of.

ghost use Rattle.std.specs.Cmp.{IsTotalOrder};
ghost use Rattle.np_space.specs.Header.{header_order, TieOnlyWhenEqual, ValidAsStated};
ghost use Rattle.np_space.specs.Ternary.{HasAsStated};
ghost use Rattle.np_space.specs.Bits.{OrderIsByBits, EqualFromBits, BitsAreInPlace, HaveAllBits};
ghost use Rattle.np_space.specs.Classes.{LeastsAreUnique, OneForEachClass, OneClassWithoutCuts};

/// The order is total, and no two headers but equal ones tie in it.
#[tactic(auto, using(crate::proofs::HeaderLemmas::order_total, crate::proofs::HeaderLemmas::order_ties))]
pub fn order_is_total()
    ensures total { IsTotalOrder header_order }
    ensures ties { TieOnlyWhenEqual }
{}

/// A header is valid exactly where its protocol allows its fields: TCP alone has `est`, the type
/// and the code of ICMP are below 256, and every protocol other than ICMP, TCP and UDP has 0 in `a`
/// and `b`.
#[tactic(auto, using(crate::proofs::HeaderLemmas::valid_as_stated))]
pub fn validity_is_by_protocol()
    ensures { ValidAsStated }
{}

/// A pattern has exactly the numbers of 32 bits that have the value's bit wherever the pattern isn't
/// wild.
#[tactic(auto, using(crate::proofs::PatternLemmas::has_as_stated))]
pub fn pattern_is_by_bits()
    ensures { HasAsStated }
{}

/// Headers whose fields are of their widths stand in the order of their 111 bits, field by field and
/// the highest bit of each first, and such headers with the same bits are equal. In bits that stand
/// for several numbers, one after another, each bit of a number is at the number's offset.
#[tactic(auto, using(crate::proofs::BitOrderLaws::order_by_bits, crate::proofs::BitOrderLaws::equal_from_bits, crate::proofs::BitOrderLaws::all_bits, crate::proofs::BitOrderLaws::bits_in_place))]
pub fn order_is_by_bits()
    ensures order { OrderIsByBits }
    ensures equal { EqualFromBits }
    ensures length { HaveAllBits }
    ensures places { BitsAreInPlace }
{}

/// The least members of the classes are determined by the cuts' tests: two lists that are the leasts
/// of the same tests are equal.
pub fn leasts_are_unique()
    ensures { LeastsAreUnique }
{}

/// No two least members are alike: each class has one number.
#[tactic(auto, using(crate::proofs::ClassLaws::one_for_each_class))]
pub fn each_class_has_one_least()
    ensures { OneForEachClass }
{}

/// Without cuts all valid headers are one class, and its least member is the header whose fields are
/// all 0.
#[tactic(auto, using(crate::proofs::ClassLaws::one_class_without_cuts))]
pub fn without_cuts_one_class()
    ensures { OneClassWithoutCuts }
{}
