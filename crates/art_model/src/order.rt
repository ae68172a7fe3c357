//! Keys: what the tests decide, and their order.

ghost use Rattle.art_model.specs.KeyLaws.{FrontsAreDecided, RelationIsDecided, SamenessIsDecided, OrderIsDecided, OrderIsStrict, OrderIsTransitive, OrderIsTotal, CommonFrontIsLongest};

/// What the tests of prefixes, of related and of equal keys return.
pub fn tests_of_keys_are_right()
    ensures fronts { FrontsAreDecided }
    ensures related { RelationIsDecided }
    ensures same { SamenessIsDecided }
    ensures common { CommonFrontIsLongest }
{}

/// Keys are ordered byte by byte, and a proper prefix comes first.
pub fn keys_are_ordered_by_bytes()
    ensures bytes { OrderIsDecided }
    ensures strict { OrderIsStrict }
    ensures transitive { OrderIsTransitive }
    ensures total { OrderIsTotal }
{}
