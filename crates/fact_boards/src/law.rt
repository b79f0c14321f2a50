// Laws of facts and their boards. These functions do nothing: their clauses are the laws.
ghost use Rattle.std.specs.Prelude.{◌≡◌, ◌≤◌, ◌<◌, ℕ, List, [], None, length, true, false};
ghost use Rattle.std.specs.List.{AllByRecursion};
ghost use Rattle.cpe_rows.specs.Prelude.{after, fact_truth, IsAccepted, IsLawful, Rows, Values};
ghost use Rattle.name_index.specs.declared.products.Side.TheVariants as side;
ghost use Rattle.name_index.specs.declared.table.NameId.{NameId};
ghost use Rattle.name_index.specs.Table.{IsNameTable, Names, find_kept, HoldsName, Releases};
ghost use Rattle.level_board.specs.Board.{Board, AreHeldIds, is_probe_marked, probe_times, target_ids, target_times};
ghost use Rattle.cpe_rows.specs.declared.entry.Entry.{Entry};
ghost use Rattle.cpe_rows.specs.declared.test.CheckKey.{CheckKey};
ghost use Rattle.cpe_rows.specs.declared.truth.Truth.{Truth};
ghost use Rattle.cpe_rows.specs.declared.statement.Mode.{Mode};
ghost use Rattle.fact_laws.specs.Shown.{names_at};
ghost use Rattle.fact_laws.specs.Asked.{asked, is_referred, leads, target_names};
ghost use Rattle.fact_boards.specs.Lists.{fact_looks, truth_of_names};
ghost use Rattle.fact_boards.specs.Kept.{AreKnown, AreFactNames, AreNowhere, AreSound, board_of_mode, Boards, FitBoards, KeepLevels, looks_by, SameBoards, ShowRows, ShowsRows};

use cpe_rows::Edit;

/// Law: the names to which a fact leads decide its truth. It is TRUE if one of them covers a target of its mode;
/// otherwise UNKNOWN if one of them may cover a target; otherwise FALSE.
pub fn facts_are_kept()
    ensures { (rows : Rows) (mode : Mode) (names : Names) (fact : Values) (numbers : List NameId) → names_at names numbers ≡ leads rows.entries mode fact
        → fact_truth rows mode fact ≡ truth_of_names (names_at names numbers) (target_names rows mode) }
{}

/// Law: the truth of a fact is unchanged if the fact leads to the same names as before. All these names must be probes
/// before and after, and none may be marked.
pub fn unmarked_facts_stay()
    ensures { (rows next : Rows) (mode : Mode) (names : Names) (old new : Boards) (fact : Values) (numbers : List NameId)
        → FitBoards old names → FitBoards new names → ShowRows names old rows → ShowRows names new next → AreSound old → AreSound new → KeepLevels old new
        → names_at names numbers ≡ leads rows.entries mode fact → names_at names numbers ≡ leads next.entries mode fact
        → AllByRecursion (λ (x : NameId). 1 ≤ probe_times (board_of_mode old mode) x.0) numbers → AllByRecursion (λ (x : NameId). 1 ≤ probe_times (board_of_mode new mode) x.0) numbers
        → AllByRecursion (λ (x : NameId). is_probe_marked (board_of_mode new mode) x.0 ≡ false) numbers → fact_truth next mode fact ≡ fact_truth rows mode fact }
{}

/// Law: if a statement refers to a fact, the names to which the fact leads are probes. So the board has the fact's
/// truth.
pub fn asked_facts_are_on()
    ensures { (names : Names) (board : Board) (rows : Rows) (mode : Mode) (fact : Values) (numbers : List NameId) → IsNameTable names → ShowsRows names board rows mode → is_referred mode rows.statements fact ≡ true
        → AreFactNames names numbers → names_at names numbers ≡ leads rows.entries mode fact → AllByRecursion (λ (x : NameId). 1 ≤ probe_times board x.0) numbers }
{}

/// Law: added entries, and changed results of checks, leave the probes and targets of the rows unchanged.
pub fn boards_stay()
    ensures entries { (names : Names) (boards : Boards) (rows next : Rows) (e : Entry) → IsAccepted rows (Edit.Entry e) next → ShowRows names boards rows → ShowRows names boards next }
    ensures set { (names : Names) (boards : Boards) (rows : Rows) (k : CheckKey) (t : Truth) → ShowRows names boards rows → ShowRows names boards (after rows (Edit.SetCheck k t)) }
    ensures dropped { (names : Names) (boards : Boards) (rows : Rows) (k : CheckKey) → ShowRows names boards rows → ShowRows names boards (after rows (Edit.DropCheck k)) }
    ensures same { (names : Names) (old new : Boards) (rows : Rows) → SameBoards old new → ShowRows names old rows → ShowRows names new rows }
{}

/// Law: the boards still show the rows and fit the table if a name is held or released. A name that is released for the
/// last time must be on neither board.
pub fn tables_change()
    ensures held { (old new : Names) (id : ℕ) (name : Values) (boards : Boards) (rows : Rows) → HoldsName old new id name → ShowRows old boards rows → ShowRows new boards rows }
    ensures fit { (old new : Names) (id : ℕ) (name : Values) (boards : Boards) → AreSound boards → HoldsName old new id name → FitBoards boards old → FitBoards boards new }
    ensures released { (old new : Names) (id : ℕ) (boards : Boards) (rows : Rows) → Releases old new id → (find_kept new id ≡ None → AreNowhere boards id) → ShowRows old boards rows → ShowRows new boards rows }
    ensures fit_still { (old new : Names) (id : ℕ) (boards : Boards) → AreSound boards → Releases old new id → (find_kept new id ≡ None → AreNowhere boards id) → FitBoards boards old → FitBoards boards new }
{}

/// Law: after a release, the boards still show the rows and fit the table, if the table has all names of the rows. So a
/// name that is released for the last time is on neither board.
pub fn releases_are_safe()
    ensures asked { (old new : Names) (id : ℕ) (boards : Boards) (rows : Rows) → IsNameTable old → Releases old new id → AreKnown new rows → ShowRows old boards rows → ShowRows new boards rows }
    ensures fit { (old new : Names) (id : ℕ) (boards : Boards) (rows : Rows) → IsNameTable old → AreSound boards → Releases old new id → AreKnown new rows → ShowRows old boards rows
        → FitBoards boards old → FitBoards boards new }
{}

/// Law: the looks of a board are those for the different names of the rows that are probes or targets. A board keeps at
/// most as many numbers as the rows have such names.
pub fn looks_are_by_names()
    ensures asked { (names : Names) (board : Board) (rows : Rows) (mode : Mode) (numbers : List NameId) → IsNameTable names → AreHeldIds board → ShowsRows names board rows mode
        → fact_looks names side.Target board.probe_ids numbers ≡ looks_by side.Target (asked rows mode) (names_at names numbers) }
    ensures there { (names : Names) (board : Board) (rows : Rows) (mode : Mode) (numbers : List NameId) → IsNameTable names → AreHeldIds board → ShowsRows names board rows mode
        → fact_looks names side.Source (target_ids board) numbers ≡ looks_by side.Source (target_names rows mode) (names_at names numbers) }
    ensures few { (names : Names) (board : Board) (rows : Rows) (mode : Mode) → IsNameTable names → AreHeldIds board → ShowsRows names board rows mode → length board.probe_ids ≤ length (asked rows mode) }
    ensures few_there { (names : Names) (board : Board) (rows : Rows) (mode : Mode) → IsNameTable names → AreHeldIds board → ShowsRows names board rows mode → length (target_ids board) ≤ length (target_names rows mode) }
{}

/// Law: the boards of lawful rows have few probes and targets. The multiplicity of each number is at most 256000000, so
/// it fits in 32 bits.
pub fn few_present()
    ensures probes { (names : Names) (board : Board) (rows : Rows) (mode : Mode) (p : ℕ) → ShowsRows names board rows mode → IsLawful rows → probe_times board p ≤ 256000000 }
    ensures targets { (names : Names) (board : Board) (rows : Rows) (mode : Mode) (t : ℕ) → ShowsRows names board rows mode → IsLawful rows → target_times board t ≤ 256000000 }
    ensures probe_ids { (names : Names) (board : Board) (rows : Rows) (mode : Mode) → IsNameTable names → AreHeldIds board → ShowsRows names board rows mode → IsLawful rows → length board.probe_ids ≤ 256000000 }
    ensures target_ids { (names : Names) (board : Board) (rows : Rows) (mode : Mode) → IsNameTable names → AreHeldIds board → ShowsRows names board rows mode → IsLawful rows → length (target_ids board) ≤ 256000000 }
{}
