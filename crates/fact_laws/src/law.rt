// Laws of facts: the probes and targets of rows, their changes by edits, and counts of numbers that show lists of
// names. These functions do nothing: their clauses are the laws.
ghost use Rattle.std.specs.Prelude.{◌≡◌, ◌∷◌, ◌≤◌, ℕ, List, None, count_by, length, ◌⊎◌, ◌++◌, Bool, Some, true, cond, filter, find, replicate};
ghost use Rattle.std.specs.List.{AllByRecursion, sum_by, flat_map, list_any};
ghost use Rattle.cpe_rows.specs.cpe_name.Eleven.{Values};
ghost use Rattle.name_index.specs.Elements.{SameElements};
ghost use Rattle.name_index.specs.declared.table.NameId.{NameId};
ghost use Rattle.name_index.specs.Table.{Names, find_kept, IsNameTable, HasName, HoldsName, IsLive, Releases};
ghost use Rattle.cpe_rows.specs.cpe_values.declared.value.Value.{Value};
ghost use Rattle.name_index.specs.declared.products.Side.{Side};
ghost use Rattle.name_index.specs.Index.{ids, times_held};
ghost use Rattle.fact_laws.specs.Laws.{ListsAreShown};
ghost use Rattle.fact_laws.specs.Shown.{different, is_met_on, names_in, near_names, one_if_some, holds_in, name_at, names_at, Shows, times_in_list, times_named};
ghost use Rattle.cpe_rows.specs.Prelude.{after, covers, ends, fact_names, fact_truth, has_id, is_named, is_same, IsAccepted, leads_to, maybe, Rows, truth};
ghost use Rattle.cpe_rows.specs.Lawful.{are_different, IsLawful};
ghost use Rattle.cpe_rows.specs.declared.entry.Entry.{Entry};
ghost use Rattle.cpe_rows.specs.declared.statement.Mode.{Mode};
ghost use Rattle.cpe_rows.specs.declared.statement.Mode.TheVariants.{Plain};
ghost use Rattle.cpe_rows.specs.declared.statement.Statement.{Statement};
ghost use Rattle.cpe_rows.specs.declared.test.CheckKey.{CheckKey};
ghost use Rattle.cpe_rows.specs.declared.truth.Truth.{Truth};
ghost use Rattle.cpe_rows.specs.Touching.{deprecation_changed};
ghost use Rattle.fact_laws.specs.Asked.{asked, statement_facts, names_of_facts, fresh_facts, is_one, is_referred, leads, names_of_rows, references_in, references_of, source_names, target_names};

use cpe_rows::Edit;

// ---- numbers and the lists that they show

/// Law: counts of numbers show a list of names. If numbers are added or removed, so are their names. The order of the
/// list doesn't matter. The name of some counted number passes a test exactly if some name of the list passes the test.
pub fn lists_are_shown()
    ensures { ListsAreShown }
{}

/// Law: the counts of holds show the list of the held names, each as often as it is held. A hold adds the name to the
/// list, and a release removes it.
pub fn tables_are_lists()
    ensures held { (old new : Names) (id : ℕ) (name : Values) (list : List Values) → HoldsName old new id name → Shows old (holds_in old) list → Shows new (holds_in new) (name ∷ list) }
    ensures released { (old new : Names) (id : ℕ) (name : Values) (list : List Values) → IsNameTable old → HasName old id name → Releases old new id
        → Shows old (holds_in old) (name ∷ list) → Shows new (holds_in new) list }
{}

/// Law: other counts still show the same list after a hold of a name. So they do after a release, if the number is
/// still live or has count 0.
pub fn tables_move()
    ensures held { (old new : Names) (id : ℕ) (name : Values) (times : ℕ → ℕ) (list : List Values) → HoldsName old new id name → Shows old times list → Shows new times list }
    ensures released { (old new : Names) (id : ℕ) (times : ℕ → ℕ) (list : List Values) → Releases old new id → (find_kept new id ≡ None → times id ≡ 0) → Shows old times list → Shows new times list }
    ensures names { (old new : Names) (id : ℕ) (name : Values) (x : NameId) → HoldsName old new id name → IsLive old x.0 → name_at new x ≡ name_at old x }
{}

/// Law: an index that holds each number with a count above 0 once has the different names of the list. As many of its
/// names meet a product, and it has at most as many names as the list.
pub fn indexes_are_different_names()
    ensures names { (names : Names) (times : ℕ → ℕ) (list : List Values) (held : List (ℕ × ℕ)) → IsNameTable names → ((id : ℕ) → times_held held id ≡ one_if_some (times id)) → Shows names times list
        → SameElements (names_in names held) (different list) }
    ensures near { (names : Names) (times : ℕ → ℕ) (list : List Values) (held : List (ℕ × ℕ)) (side : Side) (asked : Value) → IsNameTable names → ((id : ℕ) → times_held held id ≡ one_if_some (times id)) → Shows names times list
        → count_by (is_met_on names side asked) (ids held) ≡ near_names side asked (different list) }
    ensures few { (names : Names) (times : ℕ → ℕ) (list : List Values) (held : List (ℕ × ℕ)) → IsNameTable names → ((id : ℕ) → times_held held id ≡ one_if_some (times id)) → Shows names times list → length held ≤ length list }
{}

/// Law: the different names of a list are the names of the list, each once. They aren't more than the list has, and for
/// any weight they weigh at most as much. A list of numbers without repetition has the different names of the numbers.
pub fn different_names_occur_once()
    ensures once { (n : Values) (list : List Values) → times_named n (different list) ≡ one_if_some (times_named n list) }
    ensures few { (list : List Values) → length (different list) ≤ length list }
    ensures less { (f : Values → ℕ) (list : List Values) → sum_by f (different list) ≤ sum_by f list }
    ensures numbers { (names : Names) (numbers once : List NameId) → IsNameTable names → AllByRecursion (λ (x : NameId). IsLive names x.0) numbers → AllByRecursion (λ (x : NameId). IsLive names x.0) once
        → ((id : ℕ) → times_in_list id once ≡ one_if_some (times_in_list id numbers)) → SameElements (names_at names once) (different (names_at names numbers)) }
{}

// ---- probes and targets

/// Law: a fact is TRUE exactly if a name to which it leads covers a target. Otherwise it is UNKNOWN exactly if one may
/// cover a target. The order of the targets doesn't matter.
pub fn facts_are_asked()
    ensures truth { (rows : Rows) (mode : Mode) (fact : Values) → fact_truth rows mode fact
        ≡ truth (is_one covers (leads rows.entries mode fact) (target_names rows mode)) (is_one maybe (leads rows.entries mode fact) (target_names rows mode)) }
    ensures order { (relates : Values → Values → Bool) (names others same : List Values) → SameElements others same → is_one relates names others ≡ is_one relates names same }
{}

/// Law: an added item adds the names to which it leads to the targets. A removed item removes them. The probes are
/// unchanged.
pub fn items_arrive()
    ensures there { (rows : Rows) (mode : Mode) (n : Values) → SameElements (leads rows.entries mode n ++ target_names rows mode) (target_names (after rows (Edit.Item n)) mode) }
    ensures left { (rows : Rows) (mode : Mode) (n : Values) → list_any (is_same n) rows.items ≡ true
        → SameElements (target_names rows mode) (leads rows.entries mode n ++ target_names (after rows (Edit.DropItem n)) mode) }
    ensures asked { (rows : Rows) (mode : Mode) (n : Values) → asked (after rows (Edit.Item n)) mode ≡ asked rows mode }
    ensures asked_still { (rows : Rows) (mode : Mode) (n : Values) → asked (after rows (Edit.DropItem n)) mode ≡ asked rows mode }
    ensures kept { (rows : Rows) (n : Values) → SameElements (n ∷ names_of_rows rows) (names_of_rows (after rows (Edit.Item n))) }
    ensures kept_without { (rows : Rows) (n : Values) → list_any (is_same n) rows.items ≡ true → SameElements (names_of_rows rows) (n ∷ names_of_rows (after rows (Edit.DropItem n))) }
{}

/// Law: an added statement adds the probes of those facts to which no other statement refers, and its removal removes
/// them. The targets are unchanged.
pub fn statements_ask()
    ensures asked { (rows : Rows) (mode : Mode) (s : Statement)
        → SameElements (flat_map (leads rows.entries mode) (fresh_facts mode rows.statements s) ++ asked rows mode) (asked (after rows (Edit.PutStatement s)) mode) }
    ensures no_more { (rows : Rows) (mode : Mode) (id : List ℕ) (s : Statement) → find (has_id id) rows.statements ≡ Some s
        → SameElements (asked rows mode) (flat_map (leads rows.entries mode) (fresh_facts mode (after rows (Edit.DropStatement id)).statements s) ++ asked (after rows (Edit.DropStatement id)) mode) }
    ensures there { (rows : Rows) (mode : Mode) (s : Statement) → target_names (after rows (Edit.PutStatement s)) mode ≡ target_names rows mode }
    ensures there_still { (rows : Rows) (mode : Mode) (id : List ℕ) → target_names (after rows (Edit.DropStatement id)) mode ≡ target_names rows mode }
    ensures kept { (rows : Rows) (s : Statement) → SameElements (fact_names s.test ++ names_of_rows rows) (names_of_rows (after rows (Edit.PutStatement s))) }
    ensures kept_without { (rows : Rows) (id : List ℕ) (s : Statement) → find (has_id id) rows.statements ≡ Some s
        → SameElements (names_of_rows rows) (fact_names s.test ++ names_of_rows (after rows (Edit.DropStatement id))) }
{}

/// Law: each fact is in the list of its mode's facts once, however many statements refer to it. So the facts weigh at
/// most as much as all references to them, for any weight, such as the number of looks.
pub fn facts_occur_once()
    ensures times { (mode : Mode) (statements : List Statement) (fact : Values) → times_named fact (statement_facts mode statements) ≡ cond (is_referred mode statements fact) 1 0 }
    ensures less { (mode : Mode) (s : Statement) (weight : Values → ℕ) → sum_by weight (names_of_facts mode s) ≤ sum_by weight (references_of mode s) }
    ensures less_fresh { (mode : Mode) (others : List Statement) (s : Statement) (weight : Values → ℕ) → sum_by weight (fresh_facts mode others s) ≤ sum_by weight (references_of mode s) }
    ensures less_in { (mode : Mode) (statements : List Statement) (weight : Values → ℕ) → sum_by weight (statement_facts mode statements) ≤ sum_by weight (references_in mode statements) }
{}

/// Law: an added entry is its own end, as its name was before. The probes and targets are unchanged.
pub fn entries_lead_to_themselves()
    ensures asked { (rows next : Rows) (mode : Mode) (e : Entry) → IsAccepted rows (Edit.Entry e) next → asked next mode ≡ asked rows mode }
    ensures there { (rows next : Rows) (mode : Mode) (e : Entry) → IsAccepted rows (Edit.Entry e) next → target_names next mode ≡ target_names rows mode }
    ensures kept { (rows next : Rows) (e : Entry) → IsAccepted rows (Edit.Entry e) next → SameElements (e.name ∷ names_of_rows rows) (names_of_rows next) }
{}

/// Law: if a deprecation is added, replaced or removed, the items and facts that lead to its entry get new ends. In
/// mode plain the probes and targets are unchanged.
pub fn deprecations_lead_elsewhere()
    ensures there { (rows : Rows) (mode : Mode) (e : Edit) (n : Values) → deprecation_changed e ≡ Some n → SameElements
        (flat_map (leads (after rows e).entries mode) (filter (λ x. leads_to rows.entries x n) rows.items) ++ target_names rows mode)
        (flat_map (leads rows.entries mode) (filter (λ x. leads_to rows.entries x n) rows.items) ++ target_names (after rows e) mode) }
    ensures asked { (rows : Rows) (mode : Mode) (e : Edit) (n : Values) → deprecation_changed e ≡ Some n → SameElements
        (flat_map (leads (after rows e).entries mode) (filter (λ x. leads_to rows.entries x n) (statement_facts mode rows.statements)) ++ asked rows mode)
        (flat_map (leads rows.entries mode) (filter (λ x. leads_to rows.entries x n) (statement_facts mode rows.statements)) ++ asked (after rows e) mode) }
    ensures plain { (rows : Rows) (e : Edit) (n : Values) → deprecation_changed e ≡ Some n → asked (after rows e) Plain ≡ asked rows Plain }
    ensures plain_there { (rows : Rows) (e : Edit) (n : Values) → deprecation_changed e ≡ Some n → target_names (after rows e) Plain ≡ target_names rows Plain }
    ensures kept { (rows : Rows) (e : Edit) (n : Values) → deprecation_changed e ≡ Some n → names_of_rows (after rows e) ≡ names_of_rows rows }
{}

/// Law: results of checks leave the probes and targets unchanged.
pub fn checks_ask_nothing()
    ensures set { (rows : Rows) (mode : Mode) (k : CheckKey) (t : Truth) → asked (after rows (Edit.SetCheck k t)) mode ≡ asked rows mode }
    ensures set_there { (rows : Rows) (mode : Mode) (k : CheckKey) (t : Truth) → target_names (after rows (Edit.SetCheck k t)) mode ≡ target_names rows mode }
    ensures dropped { (rows : Rows) (mode : Mode) (k : CheckKey) → asked (after rows (Edit.DropCheck k)) mode ≡ asked rows mode }
    ensures dropped_there { (rows : Rows) (mode : Mode) (k : CheckKey) → target_names (after rows (Edit.DropCheck k)) mode ≡ target_names rows mode }
{}

/// Law: all probes and all targets are names of entries, items or facts.
pub fn asked_names_are_kept()
    ensures asked { (rows : Rows) (mode : Mode) (passes : Values → Bool) → list_any passes (asked rows mode) ≡ true → list_any passes (names_of_rows rows) ≡ true }
    ensures there { (rows : Rows) (mode : Mode) (passes : Values → Bool) → list_any passes (target_names rows mode) ≡ true → list_any passes (names_of_rows rows) ≡ true }
{}

/// Law: the names of a list that lead to an entry are the names of the entry's sources, each as often as in the list.
/// In the lists of items and of facts no name is repeated. An end of a name is the name itself, or the name leads to
/// the end's entry.
pub fn led_are_sources()
    ensures ends { (entries : List Entry) (name end : Values) → list_any (is_same end) (ends entries name) ≡ true → (name ≡ end) ⊎ (leads_to entries name end ≡ true) }
    ensures led { (entries : List Entry) (n : Values) (list : List Values) → are_different (λ (e : Entry). is_named e.name) entries ≡ true
        → SameElements (filter (λ x. leads_to entries x n) list) (flat_map (λ s. replicate (times_named s list) s) (source_names entries n)) }
    ensures once { (entries : List Entry) (n : Values) (list : List Values) → are_different (λ (e : Entry). is_named e.name) entries ≡ true → ((x : Values) → times_named x list ≤ 1)
        → SameElements (filter (λ x. leads_to entries x n) list) (filter (λ s. list_any (is_same s) list) (source_names entries n)) }
    ensures items_once { (rows : Rows) (x : Values) → IsLawful rows → times_named x rows.items ≤ 1 }
    ensures facts_once { (mode : Mode) (statements : List Statement) (x : Values) → times_named x (statement_facts mode statements) ≤ 1 }
{}

/// Law: lawful rows have few names, probes and targets, all repetitions counted. Each of these numbers fits in 32 bits.
pub fn lawful_rows_ask_few()
    ensures leads { (rows : Rows) (mode : Mode) (n : Values) → IsLawful rows → length (leads rows.entries mode n) ≤ 256 }
    ensures asked { (rows : Rows) (mode : Mode) → IsLawful rows → length (asked rows mode) ≤ 256000000 }
    ensures there { (rows : Rows) (mode : Mode) → IsLawful rows → length (target_names rows mode) ≤ 256000000 }
    ensures kept { (rows : Rows) → IsLawful rows → length (names_of_rows rows) ≤ 4000000 }
{}
