// Laws of targets and the table of their names. The function does nothing: its clauses are the laws.
ghost use Rattle.std.specs.Prelude.{◌≡◌, ◌≤◌, ℕ, None};
ghost use Rattle.name_index.specs.cpe_name.Eleven.{Values};
ghost use Rattle.name_index.specs.Table.{Names, find_kept, HoldsName, Releases};
ghost use Rattle.name_index.specs.Index.{times_held};
ghost use Rattle.level_board.specs.Targets.{Targets, FitsTargets, StaysAt, held};

/// Law: targets that fit a table still fit it after each of these changes:
///
/// - a name is held
/// - a number is released; if it isn't live any more, it is not the number of a target
/// - any change that leaves the name and the product number of each target unchanged
pub fn targets_stay()
    ensures held { (old new : Names) (id : ℕ) (name : Values) (targets : Targets) → HoldsName old new id name → FitsTargets targets old → FitsTargets targets new }
    ensures released { (old new : Names) (id : ℕ) (targets : Targets) → Releases old new id → (find_kept new id ≡ None → times_held (held targets) id ≡ 0) → FitsTargets targets old → FitsTargets targets new }
    ensures kept { (old new : Names) (targets : Targets) → ((id : ℕ) → 1 ≤ times_held (held targets) id → StaysAt old new id) → FitsTargets targets old → FitsTargets targets new }
{}
