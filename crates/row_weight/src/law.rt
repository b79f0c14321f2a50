// Laws of the weight. These functions do nothing: their clauses are the laws.
ghost use Rattle.std.specs.Prelude.{◌≡◌, ◌+◌, ◌≤◌, ℕ, List, true};
ghost use Rattle.std.specs.List.{list_any};
ghost use Rattle.cpe_rows.specs.Prelude.{after, is_same, Values};
ghost use Rattle.cpe_rows.specs.Rows.{Rows, is_checked};
ghost use Rattle.cpe_rows.specs.Weight.{weight, name_weight, key_weight};
ghost use Rattle.cpe_rows.specs.declared.test.CheckKey.{CheckKey};
ghost use Rattle.row_weight.specs.Gain.{gain, loss};

use cpe_rows::Edit;

/// Law: the weight after an edit equals the weight before it, plus what the edit adds, minus what it removes. The
/// removed weight is at most the weight before.
pub fn edits_weigh()
    ensures weight { (rows : Rows) (e : Edit) → weight (after rows e) + loss rows e ≡ weight rows + gain rows e }
    ensures loss { (rows : Rows) (e : Edit) → loss rows e ≤ weight rows }
{}

/// Law: if an item or a result is removed, the weight decreases by that of its name or key. No removal raises the
/// weight.
pub fn losses_are_known()
    ensures items { (rows : Rows) (n : Values) → list_any (is_same n) rows.items ≡ true → loss rows (Edit.DropItem n) ≡ name_weight n }
    ensures checks { (rows : Rows) (k : CheckKey) → is_checked rows k ≡ true → loss rows (Edit.DropCheck k) ≡ key_weight k }
    ensures dropped_items { (rows : Rows) (n : Values) → weight (after rows (Edit.DropItem n)) ≤ weight rows }
    ensures dropped_statements { (rows : Rows) (id : List ℕ) → weight (after rows (Edit.DropStatement id)) ≤ weight rows }
    ensures dropped_checks { (rows : Rows) (k : CheckKey) → weight (after rows (Edit.DropCheck k)) ≤ weight rows }
{
    cpe_rows::law::names_are_equal();
}
