// Removes the repetitions from a list of numbers.
ghost use Rattle.std.specs.Prelude.{◌≡◌, ℕ};
ghost use Rattle.name_index.specs.Elements.{SameElements};
ghost use Rattle.name_index.specs.Table.{IsNameTable, Names};
ghost use Rattle.fact_laws.specs.Shown.{different, names_at, one_if_some, times_in_list};
ghost use Rattle.fact_boards.specs.Kept.{AreFactNames};

use name_index::NameId;

/// Sorts a list of numbers and keeps each number once. Its use: the names to which the facts of a statement lead,
/// without repetition. Allocates: no.
pub fn keep_each_once(numbers: &mut Vec<NameId>)
    ensures once { (id : ℕ) → times_in_list id numbers.new.items ≡ one_if_some (times_in_list id numbers.old.items) }
    ensures live { (names : Names) → AreFactNames names numbers.old.items → AreFactNames names numbers.new.items }
    ensures different { (names : Names) → IsNameTable names → AreFactNames names numbers.old.items → SameElements (names_at names numbers.new.items) (different (names_at names numbers.old.items)) }
{
    numbers.sort_unstable();
    numbers.dedup();
}
