// Laws of the definitions. These functions do nothing: their clauses are the laws.
ghost use Rattle.std.specs.Prelude.{◌≡◌, ◌↔◌, ◌∷◌, ◌++◌, [], ℕ, List, IsTrue, false, true, Contains, All, map, length, Ok, Some, None, Option, position, find, if◌then◌else◌};
ghost use Rattle.std.specs.List.{list_any};
ghost use Rattle.cpe_rows.specs.Prelude.{after, check_truth, first_some, has_id, has_key, is_lower, is_named, is_same, IsAccepted, no_rows, RefusesEdit, Rows, same_key, step, Values, verdict};
ghost use Rattle.cpe_name.specs.Lower.{IsLower, lower_name};
ghost use Rattle.cpe_rows.specs.Truth.{and_all, or_all, and_of, or_of, not_of};
ghost use Rattle.cpe_rows.specs.Negation.{negation_of, HaveSameTruth, HasNegatedTruth};
ghost use Rattle.cpe_rows.specs.declared.test.Operator.{Operator};
ghost use Rattle.cpe_rows.specs.declared.test.Operator.TheVariants.{And, Or};
ghost use Rattle.cpe_rows.specs.declared.test.Test.{Test, Logic};
ghost use Rattle.cpe_rows.specs.Reach.{IsDecided};
ghost use Rattle.cpe_rows.specs.Chains.{is_successor, chain, ends};
ghost use Rattle.cpe_rows.specs.Changes.{change, changes, dropped};
ghost use Rattle.cpe_rows.specs.Limits.{AreWithin};
ghost use Rattle.cpe_rows.specs.Faults.{faults};
ghost use Rattle.cpe_rows.specs.Causes.{causes, heavy, IsCause};
ghost use Rattle.cpe_rows.specs.Lawful.{IsLawful, are_different};
ghost use Rattle.cpe_rows.specs.declared.truth.Truth.{Truth};
ghost use Rattle.cpe_rows.specs.declared.truth.Truth.TheVariants.{True, False, Unknown};
ghost use Rattle.cpe_rows.specs.declared.entry.Entry.{Entry};
ghost use Rattle.cpe_rows.specs.declared.statement.Statement.{Statement};
ghost use Rattle.cpe_rows.specs.declared.test.CheckKey.{CheckKey};
ghost use Rattle.cpe_rows.specs.declared.fault.EditFault.{EditFault};

use crate::edit::Edit;

/// Law: an entry is in the chain of a name exactly if a path leads from the name to this entry. A path is a list of
/// entries. The first entry has the name, and each later entry is a successor of the entry before it.
pub fn chains_are_paths()
    ensures { (entries : List Entry) (n : Values) → IsDecided is_successor entries (is_named n) }
{}

/// Law: the empty rows are lawful, and each accepted edit leaves lawful rows.
pub fn rows_stay_lawful()
    ensures start { IsLawful no_rows }
    ensures kept { (rows next : Rows) (e : Edit) → IsAccepted rows e next → IsLawful next }
{}

/// Law: an edit with a fault is refused, by its first fault or because memory runs out. An edit without a fault leaves
/// the rows that the definitions fix.
pub fn faults_refuse()
    ensures refused { (rows : Rows) (e : Edit) (f : EditFault) → IsCause f (first_some (faults rows e)) → RefusesEdit f (step rows e) }
    ensures accepted { (rows : Rows) (e : Edit) → first_some (faults rows e) ≡ None → step rows e ≡ Ok (after rows e) }
{}

/// Law: if the rows are within their limits, the first fault of an edit is the first of its causes. If the edit has no
/// cause, its only possible fault is that the rows after it weigh too much.
pub fn causes_are_faults()
    ensures { (rows : Rows) (e : Edit) → AreWithin rows → first_some (faults rows e) ≡ first_some (causes rows e ++ heavy (after rows e) ∷ []) }
{}

/// Law: rows within their limits refuse an edit by its first cause, or because memory runs out. An edit without a cause
/// is refused if the rows after it weigh too much. Otherwise the edit is accepted. After an item, a statement or a
/// result is removed, the rows never weigh too much.
pub fn causes_refuse()
    ensures refused { (rows : Rows) (e : Edit) (f : EditFault) → AreWithin rows → IsCause f (first_some (causes rows e)) → RefusesEdit f (step rows e) }
    ensures too_heavy { (rows : Rows) (e : Edit) (f : EditFault) → AreWithin rows → first_some (causes rows e) ≡ None → IsCause f (heavy (after rows e)) → RefusesEdit f (step rows e) }
    ensures accepted { (rows : Rows) (e : Edit) → AreWithin rows → first_some (causes rows e) ≡ None → heavy (after rows e) ≡ None → step rows e ≡ Ok (after rows e) }
    ensures item_dropped { (rows : Rows) (n : Values) → AreWithin rows → heavy (after rows (Edit.DropItem n)) ≡ None }
    ensures statement_dropped { (rows : Rows) (id : List ℕ) → AreWithin rows → heavy (after rows (Edit.DropStatement id)) ≡ None }
    ensures check_dropped { (rows : Rows) (k : CheckKey) → AreWithin rows → heavy (after rows (Edit.DropCheck k)) ≡ None }
{}

/// Law: if a result is set, the checks with its key have this result. If a result is removed, the checks with its key
/// are UNKNOWN. Checks with other keys are unchanged. For removal, the kept results need different keys.
pub fn checks_after_edits()
    ensures set { (rows : Rows) (k key : CheckKey) (t : Truth) → check_truth (after rows (Edit.SetCheck k t)) key ≡ (if same_key key k then t else check_truth rows key) }
    ensures dropped { (rows : Rows) (k key : CheckKey) → are_different (λ c. has_key c.0) rows.checks ≡ true → check_truth (after rows (Edit.DropCheck k)) key ≡ (if same_key key k then Unknown else check_truth rows key) }
{}

/// Law: an accepted entry changes the ends of no name. It is in no chain except its own.
pub fn entries_are_independent()
    ensures ends { (rows next : Rows) (e : Entry) (n : Values) → IsAccepted rows (Edit.Entry e) next → ends next.entries n ≡ ends rows.entries n }
    ensures chains { (rows next : Rows) (e : Entry) (n : Values) → IsAccepted rows (Edit.Entry e) next → is_same n e.name ≡ false → chain next.entries n ≡ chain rows.entries n }
{}

/// Law: a name without an entry has an empty chain, and is its only end.
pub fn absent_names_are_alone()
    ensures chains { (entries : List Entry) (n : Values) → list_any (is_named n) entries ≡ false → chain entries n ≡ [] }
    ensures ends { (entries : List Entry) (n : Values) → list_any (is_named n) entries ≡ false → ends entries n ≡ n ∷ [] }
{}

/// Law: `is_same` is true exactly if two names are equal. Names in lower case are equal exactly if they differ at most
/// in letter case. `is_lower` is true exactly if no letter is in upper case.
pub fn names_are_equal()
    ensures same { (a b : Values) → IsTrue (is_same a b) ↔ (a ≡ b) }
    ensures lower { (n : Values) → IsTrue (is_lower n) ↔ IsLower n }
    ensures regardless_of_case { (a b : Values) → IsLower a → IsLower b → IsTrue (is_same a b) ↔ (lower_name a ≡ lower_name b) }
{}

/// Law: if a statement is added or removed, no other verdict changes. So it is the only change.
pub fn statements_are_independent()
    ensures put { (rows : Rows) (new s : Statement) → verdict (after rows (Edit.PutStatement new)) s ≡ verdict rows s }
    ensures dropped { (rows : Rows) (id : List ℕ) (s : Statement) → verdict (after rows (Edit.DropStatement id)) s ≡ verdict rows s }
    ensures put_changes { (rows : Rows) (s : Statement) → changes rows (Edit.PutStatement s) ≡ change (length rows.statements) None (Some (verdict rows s)) ∷ [] }
    ensures dropped_changes { (rows : Rows) (id : List ℕ) → changes rows (Edit.DropStatement id) ≡ dropped rows (position (has_id id) rows.statements) (find (has_id id) rows.statements) }
{}

/// Law: if a truth is appended to a list, the new AND is the AND of the old one and this truth. The same is true of OR.
pub fn tables_are_folds()
    ensures and_all { (ts : List Truth) (t : Truth) → and_all (ts ++ t ∷ []) ≡ and_of (and_all ts) t }
    ensures or_all { (ts : List Truth) (t : Truth) → or_all (ts ++ t ∷ []) ≡ or_of (or_all ts) t }
{}

/// Law: AND and OR are commutative, associative and idempotent.
pub fn truths_join_in_any_order()
    ensures and_order { (a b : Truth) → and_of a b ≡ and_of b a }
    ensures or_order { (a b : Truth) → or_of a b ≡ or_of b a }
    ensures and_group { (a b c : Truth) → and_of (and_of a b) c ≡ and_of a (and_of b c) }
    ensures or_group { (a b c : Truth) → or_of (or_of a b) c ≡ or_of a (or_of b c) }
    ensures and_twice { (t : Truth) → and_of t t ≡ t }
    ensures or_twice { (t : Truth) → or_of t t ≡ t }
{}

/// Law: AND and OR of a list depend only on which truths the list has. Order, grouping and repetition make no
/// difference.
pub fn tables_are_of_members()
    ensures and_all { (ts us : List Truth) → ((t : Truth) → Contains ts t ↔ Contains us t) → and_all ts ≡ and_all us }
    ensures or_all { (ts us : List Truth) → ((t : Truth) → Contains ts t ↔ Contains us t) → or_all ts ≡ or_all us }
{}

/// Law: an AND with FALSE is FALSE, and TRUE is neutral in AND. An OR with TRUE is TRUE, and FALSE is neutral in OR.
pub fn tables_have_deciding_truths()
    ensures and_decided { (t : Truth) → and_of False t ≡ False }
    ensures or_decided { (t : Truth) → or_of True t ≡ True }
    ensures and_neutral { (t : Truth) → and_of True t ≡ t }
    ensures or_neutral { (t : Truth) → or_of False t ≡ t }
{}

/// Law: AND is FALSE exactly if one of the truths is FALSE, and TRUE exactly if all are TRUE. OR is TRUE exactly if one
/// of the truths is TRUE, and FALSE exactly if all are FALSE.
pub fn tables_part_some_from_all()
    ensures some_false { (ts : List Truth) → (and_all ts ≡ False) ↔ Contains ts False }
    ensures some_true { (ts : List Truth) → (or_all ts ≡ True) ↔ Contains ts True }
    ensures all_true { (ts : List Truth) → (and_all ts ≡ True) ↔ All (λ t. t ≡ True) ts }
    ensures all_false { (ts : List Truth) → (or_all ts ≡ False) ↔ All (λ t. t ≡ False) ts }
{}

/// Law: two negations cancel each other. The negation of AND is OR of the negated truths, and the negation of OR is AND
/// of the negated truths (De Morgan). Both are so for all four truths.
pub fn negation_swaps_tables()
    ensures twice { (t : Truth) → not_of (not_of t) ≡ t }
    ensures and_of { (a b : Truth) → not_of (and_of a b) ≡ or_of (not_of a) (not_of b) }
    ensures or_of { (a b : Truth) → not_of (or_of a b) ≡ and_of (not_of a) (not_of b) }
    ensures and_all { (ts : List Truth) → not_of (and_all ts) ≡ or_all (map not_of ts) }
    ensures or_all { (ts : List Truth) → not_of (or_all ts) ≡ and_all (map not_of ts) }
{}

/// Law: a logical test that negates its only child has the child's truth negated, by either operator. Two such tests,
/// one around the other, leave the truth unchanged. A negated AND equals the OR of its negated children, and a negated
/// OR equals the AND of its negated children (De Morgan).
pub fn negation_moves_inward()
    ensures once { (o : Operator) (t : Test) → HasNegatedTruth (negation_of o t) t }
    ensures twice { (o p : Operator) (t : Test) → HaveSameTruth (negation_of o (negation_of p t)) t }
    ensures of_and { (o : Operator) (of : List Test) → HaveSameTruth (Logic And true of) (Logic Or false (map (negation_of o) of)) }
    ensures of_or { (o : Operator) (of : List Test) → HaveSameTruth (Logic Or true of) (Logic And false (map (negation_of o) of)) }
{}
