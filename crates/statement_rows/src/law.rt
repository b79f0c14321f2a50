// What verdicts say of names, and what a refresh makes of rows. The functions do nothing: their clauses are the laws.
ghost use Rattle.std.specs.Prelude.{◌≡◌, ◌++◌, ℕ, List, false, true, map};
ghost use Rattle.std.specs.List.{AllByRecursion};
ghost use Rattle.cpe_rows.specs.Prelude.{fact_names, Values};
ghost use Rattle.cpe_rows.specs.declared.statement.Statement.{Statement};
ghost use Rattle.cpe_rows.specs.declared.test.CheckKey.{CheckKey};
ghost use Rattle.cpe_rows.specs.declared.truth.Truth.{Truth};
ghost use Rattle.cpe_rows.specs.Evaluation.{test_truth};
ghost use Rattle.check_results.specs.Kept.{kept_truth};
ghost use Rattle.name_index.specs.declared.table.NameId.{NameId};
ghost use Rattle.statement_rows.specs.Readings.{FactTruths, has_fact, truths_of};
ghost use Rattle.statement_rows.specs.Rows.{verdict_by};
ghost use Rattle.statement_rows.specs.State.{AreJudged, State, StatementRow, at_tickets, judge};
ghost use Rattle.statement_rows.specs.Tickets.{among};

/// The verdict is the truth of the test by a function of names, if the number of each fact reference has the truth that
/// the function gives its name.
pub fn verdicts_are_truths()
    ensures { (truth : FactTruths) (checks : List (CheckKey × Truth)) (s : Statement) (ids : List NameId) (fact : Values → Truth) → map fact (fact_names s.test) ≡ truths_of truth s.mode ids → verdict_by truth checks s ids ≡ test_truth fact (kept_truth checks) s.test }
{}

/// A row is judged the same by other truths, if those of its own numbers are the same.
pub fn same_truths_judge_the_same()
    ensures { (old new : FactTruths) (checks : List (CheckKey × Truth)) (j : StatementRow) → ((q : ℕ) → has_fact j.ids q ≡ true → old j.statement.mode q ≡ new j.statement.mode q) → judge old checks j ≡ judge new checks j }
{}

/// Two refreshes, one after the other, are one refresh of all their tickets.
pub fn refreshes_add_up()
    ensures { (truth : FactTruths) (checks : List (CheckKey × Truth)) (ts us : List ℕ) (rows : List StatementRow) → at_tickets us (judge truth checks) (at_tickets ts (judge truth checks) rows) ≡ at_tickets (ts ++ us) (judge truth checks) rows }
{}

/// After a refresh by new truths all rows are judged by these, if the old truths judged all rows, and judge the other
/// rows the same.
pub fn refreshes_judge()
    ensures { (old new : FactTruths) (ts : List ℕ) (a b : State) → b.rows ≡ at_tickets ts (judge new a.checks) a.rows → b.checks ≡ a.checks → AreJudged a old
        → AllByRecursion (λ j. among ts j.ticket ≡ false → judge old a.checks j ≡ judge new a.checks j) a.rows → AreJudged b new }
{}
