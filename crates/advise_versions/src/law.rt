// Laws of the order.
ghost use Rattle.std.specs.Prelude.{◌≡◌, ℕ, List};
ghost use Rattle.std.specs.Ordering.{nat_cmp};
ghost use Rattle.advise_versions.specs.Numbers.{AreDigits, value};
ghost use Rattle.advise_versions.specs.Order.{piece_order, version_order, IsVersionOrder};
ghost use Rattle.advise_versions.specs.Pieces.{Number, without_zeros};

/// Law: the order of versions is total. Two versions are equal exactly if they have the same pieces.
pub fn versions_are_ordered()
    ensures { IsVersionOrder version_order }
{}

/// Law: numbers are compared by value. Leading zeros make no difference.
pub fn numbers_are_compared_by_value()
    ensures { (xs ys : List ℕ) → AreDigits xs → AreDigits ys → piece_order (Number (without_zeros xs)) (Number (without_zeros ys)) ≡ nat_cmp (value xs) (value ys) }
{}
