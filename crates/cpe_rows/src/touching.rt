// Laws about the facts and checks that an edit touches. These functions do nothing: their clauses are the laws.
ghost use Rattle.std.specs.Prelude.{◌≡◌, [], List, Bool, Some, false};
ghost use Rattle.std.specs.List.{list_any};
ghost use Rattle.cpe_rows.specs.Prelude.{after, changes, check_truth, covers, ends, fact_truth, IsAccepted, leads_to, maybe, Rows, same_key, truth, Values, verdict};
ghost use Rattle.cpe_rows.specs.Evaluation.{test_truth};
ghost use Rattle.cpe_rows.specs.declared.truth.Truth.{Truth};
ghost use Rattle.cpe_rows.specs.declared.test.CheckKey.{CheckKey};
ghost use Rattle.cpe_rows.specs.declared.test.Test.{Test};
ghost use Rattle.cpe_rows.specs.declared.entry.Entry.{Entry};
ghost use Rattle.cpe_rows.specs.declared.statement.Mode.{Mode};
ghost use Rattle.cpe_rows.specs.declared.statement.Mode.TheVariants.{Plain, Follow};
ghost use Rattle.cpe_rows.specs.declared.statement.Statement.{Statement};
ghost use Rattle.cpe_rows.specs.Touching.{test_touches, is_related, touches_item, deprecation_changed, touches_deprecation, touches_fact, touches_check, touches_statement};

use crate::edit::Edit;

/// Law: a test keeps its truth if none of its facts and checks is touched, and each untouched fact or check keeps its
/// truth.
pub fn untouched_tests_stay()
    ensures { (fact later_fact : Values → Truth) (check later_check : CheckKey → Truth) (touched : Values → Bool) (touched_check : CheckKey → Bool) (t : Test)
        → ((n : Values) → touched n ≡ false → fact n ≡ later_fact n) → ((k : CheckKey) → touched_check k ≡ false → check k ≡ later_check k)
        → test_touches touched touched_check t ≡ false → test_truth fact check t ≡ test_truth later_fact later_check t }
{}

/// Law: a fact is TRUE exactly if it covers an item. Otherwise it is UNKNOWN exactly if it may cover an item. An added
/// or removed item touches only the facts that cover it or may cover it. It touches no check.
pub fn items_touch()
    ensures truth { (rows : Rows) (mode : Mode) (fact : Values) → fact_truth rows mode fact
        ≡ truth (list_any (is_related covers rows.entries mode fact) rows.items) (list_any (is_related maybe rows.entries mode fact) rows.items) }
    ensures added { (rows : Rows) (mode : Mode) (fact n : Values) → touches_item rows.entries mode fact n ≡ false
        → fact_truth (after rows (Edit.Item n)) mode fact ≡ fact_truth rows mode fact }
    ensures dropped { (rows : Rows) (mode : Mode) (fact n : Values) → touches_item rows.entries mode fact n ≡ false
        → fact_truth (after rows (Edit.DropItem n)) mode fact ≡ fact_truth rows mode fact }
    ensures added_checks { (rows : Rows) (n : Values) (key : CheckKey) → check_truth (after rows (Edit.Item n)) key ≡ check_truth rows key }
    ensures dropped_checks { (rows : Rows) (n : Values) (key : CheckKey) → check_truth (after rows (Edit.DropItem n)) key ≡ check_truth rows key }
{}

/// Law: a result that is set or removed touches only the checks with its key, and no fact.
pub fn checks_touch()
    ensures kept { (rows : Rows) (k key : CheckKey) (t : Truth) → same_key k key ≡ false → check_truth (after rows (Edit.SetCheck k t)) key ≡ check_truth rows key }
    ensures dropped { (rows : Rows) (k key : CheckKey) → same_key k key ≡ false → check_truth (after rows (Edit.DropCheck k)) key ≡ check_truth rows key }
    ensures turned { (a b : CheckKey) → same_key a b ≡ same_key b a }
    ensures fact_boards { (rows : Rows) (k : CheckKey) (t : Truth) (mode : Mode) (fact : Values) → fact_truth (after rows (Edit.SetCheck k t)) mode fact ≡ fact_truth rows mode fact }
    ensures dropped_facts { (rows : Rows) (k : CheckKey) (mode : Mode) (fact : Values) → fact_truth (after rows (Edit.DropCheck k)) mode fact ≡ fact_truth rows mode fact }
{}

/// Law: a changed deprecation of an entry changes only the ends of names that lead to this entry. It touches no check,
/// and no fact in mode `plain`. In mode `follow` it touches the facts that lead to the entry. It also touches a fact
/// with an end that covers, or may cover, an end of an item that leads to the entry. Here the ends of the item before
/// the edit and after it count.
pub fn deprecations_touch()
    ensures ends { (rows : Rows) (e : Edit) (n x : Values) → deprecation_changed e ≡ Some n → leads_to rows.entries x n ≡ false → ends (after rows e).entries x ≡ ends rows.entries x }
    ensures items { (rows : Rows) (e : Edit) (n : Values) → deprecation_changed e ≡ Some n → (after rows e).items ≡ rows.items }
    ensures checks { (rows : Rows) (e : Edit) (n : Values) → deprecation_changed e ≡ Some n → (after rows e).checks ≡ rows.checks }
    ensures statements { (rows : Rows) (e : Edit) (n : Values) → deprecation_changed e ≡ Some n → (after rows e).statements ≡ rows.statements }
    ensures plain { (rows : Rows) (e : Edit) (n fact : Values) → deprecation_changed e ≡ Some n → fact_truth (after rows e) Plain fact ≡ fact_truth rows Plain fact }
    ensures facts { (rows : Rows) (e : Edit) (n fact : Values) (mode : Mode) → deprecation_changed e ≡ Some n → touches_deprecation rows (after rows e) n mode fact ≡ false
        → fact_truth (after rows e) mode fact ≡ fact_truth rows mode fact }
{}

/// Law: an added entry changes no verdict.
pub fn entries_change_nothing()
    ensures verdicts { (rows next : Rows) (e : Entry) (s : Statement) → IsAccepted rows (Edit.Entry e) next → verdict next s ≡ verdict rows s }
    ensures changes { (rows next : Rows) (e : Entry) → IsAccepted rows (Edit.Entry e) next → changes rows (Edit.Entry e) ≡ [] }
{}

/// Law: each fact, check and verdict that an accepted edit doesn't touch is unchanged. This includes verdicts of
/// statements that are not among the rows.
pub fn untouched_verdicts_stay()
    ensures left { (rows next : Rows) (e : Edit) → IsAccepted rows e next → next ≡ after rows e }
    ensures facts { (rows next : Rows) (e : Edit) (mode : Mode) (fact : Values) → IsAccepted rows e next → touches_fact rows e mode fact ≡ false → fact_truth next mode fact ≡ fact_truth rows mode fact }
    ensures checks { (rows next : Rows) (e : Edit) (key : CheckKey) → IsAccepted rows e next → touches_check e key ≡ false → check_truth next key ≡ check_truth rows key }
    ensures verdicts { (rows next : Rows) (e : Edit) (s : Statement) → IsAccepted rows e next → touches_statement rows e s ≡ false → verdict next s ≡ verdict rows s }
{}
