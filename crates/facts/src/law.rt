//! Laws from levels to the rows. The functions are no-ops: their clauses are the laws.
ghost use Rattle.std.specs.Prelude.{◌≡◌, ◌≤◌, List};
ghost use Rattle.std.specs.List.{AllByRecursion};
ghost use Rattle.cpe_rows.specs.Prelude.{fact_truth, Rows, Values};
ghost use Rattle.cpe_rows.specs.declared.statement.Mode.{Mode};
ghost use Rattle.name_index.specs.declared.table.NameId.{NameId};
ghost use Rattle.name_index.specs.Table.{Names};
ghost use Rattle.fact_boards.specs.level_board.Board.{AreAnswers, Board, FitsBoard, probe_times};
ghost use Rattle.fact_laws.specs.Shown.{names_at};
ghost use Rattle.fact_laws.specs.Asked.{leads};
ghost use Rattle.fact_boards.specs.Kept.{ShowsRows};
ghost use Rattle.fact_rows.specs.Truths.{truth_at_ends};

/// The levels of the names to which a fact leads give it the truth that the rows give it, if all of these names are
/// probes.
pub fn facts_are_shown()
    ensures { (names : Names) (board : Board) (rows : Rows) (mode : Mode) (fact : Values) (numbers : List NameId) → AreAnswers board → FitsBoard board names → ShowsRows names board rows mode
        → AllByRecursion (λ (x : NameId). 1 ≤ probe_times board x.0) numbers → names_at names numbers ≡ leads rows.entries mode fact → truth_at_ends board numbers ≡ fact_truth rows mode fact }
{}
