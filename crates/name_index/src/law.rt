// Laws of the definitions. The functions do nothing: their clauses are the laws.
ghost use Rattle.std.specs.Prelude.{◌↔◌, ℕ, List, IsPermutation};
ghost use Rattle.name_index.specs.Elements.{SameElements};
ghost use Rattle.name_index.specs.Laws.{FittingLaws};

/// Law: held numbers still fit a table after each of these changes:
///
/// - a name is held
/// - a number is released that the index doesn't hold
/// - a live number is added to the index, or one is removed
///
/// A number that isn't live isn't held. If two lists of held numbers have the same elements, each pair of one list is
/// in the other list. If no live number has a name, holding this name returns a number that wasn't live. After a name
/// is held, the returned number is live and has this name.
pub fn fitting_laws()
    ensures { FittingLaws }
{}

/// Law: two lists of numbers have the same elements exactly if one list is a rearrangement of the other.
pub fn same_elements_rearrange()
    ensures { (xs ys : List ℕ) → SameElements xs ys ↔ IsPermutation xs ys }
{}
