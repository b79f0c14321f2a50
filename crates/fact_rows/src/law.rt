//! Law: the truth of a fact stays the same if the board changes, but marks none of the fact's ends. The function is a
//! no-op: its clause is the law.
ghost use Rattle.std.specs.Prelude.{◌≡◌, ◌≤◌, false, List};
ghost use Rattle.std.specs.List.{AllByRecursion, list_any};
ghost use Rattle.name_index.specs.declared.table.NameId.{NameId};
ghost use Rattle.level_board.specs.Board.{Board, is_probe_marked, KeepsLevels, probe_times};
ghost use Rattle.fact_rows.specs.Truths.{truth_at_ends};

/// The truth of names is unchanged by a change of the board if all of them are probes before and after it, and none of
/// them is marked.
pub fn unmarked_truths_stay()
    ensures { (old new : Board) (names : List NameId) → KeepsLevels old new → AllByRecursion (λ (x : NameId). 1 ≤ probe_times old x.0) names → AllByRecursion (λ (x : NameId). 1 ≤ probe_times new x.0) names
        → list_any (λ (x : NameId). is_probe_marked new x.0) names ≡ false → truth_at_ends new names ≡ truth_at_ends old names }
{}
