// Laws of edits.
ghost use Rattle.std.specs.Prelude.{◌≡◌, ℕ, List, None};
ghost use Rattle.cpe_rows.specs.cpe_name.Eleven.{Values};
ghost use Rattle.advise_ranges.specs.Rows.{AdviceRows};
ghost use Rattle.advise_ranges.specs.Step.{after_advice, full_advice};

use crate::edit::AdviceEdit;

/// If rows are within their limits, an edit that removes something exceeds no limit. So such an edit needs no test of
/// limits. The function does nothing: its clauses are the law.
pub fn drops_are_never_full()
    ensures items { (rows : AdviceRows) (n : Values) → full_advice rows ≡ None → full_advice (after_advice rows (AdviceEdit.DropItem n)) ≡ None }
    ensures advisories { (rows : AdviceRows) (id : List ℕ) → full_advice rows ≡ None → full_advice (after_advice rows (AdviceEdit.Drop id)) ≡ None }
{}
