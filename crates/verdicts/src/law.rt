//! Laws on edits that change no verdict. The functions are no-ops: their clauses are the laws.
ghost use Rattle.std.specs.Prelude.{ℕ, List};
ghost use Rattle.cpe_rows.specs.Prelude.{IsAccepted, Rows, Values};
ghost use Rattle.cpe_rows.specs.declared.edit.Edit.TheVariants as edit;
ghost use Rattle.cpe_rows.specs.declared.entry.Entry.{Entry};
ghost use Rattle.name_index.specs.Table.{IsNameTable, HoldsName, Names, Releases};
ghost use Rattle.fact_boards.specs.Kept.{AreKnown};
ghost use Rattle.verdicts.specs.Verdicts.{HasVerdicts, only_entries, VerdictsNow};

/// Verdicts are still those of the rows after a table holds one more name.
pub fn held_names_keep_verdicts()
    ensures { (old new : Names) (id : ℕ) (name : Values) (v : VerdictsNow) (rows : Rows) → HoldsName old new id name → HasVerdicts old v rows → HasVerdicts new v rows }
{
    fact_boards::law::tables_change();
}

/// Verdicts are still those of the rows after a table releases a name, if it still has all names of the rows.
pub fn released_names_keep_verdicts()
    ensures { (old new : Names) (id : ℕ) (v : VerdictsNow) (rows : Rows) → IsNameTable old → Releases old new id → AreKnown new rows → HasVerdicts old v rows → HasVerdicts new v rows }
{
    fact_boards::law::releases_are_safe();
}

/// Verdicts are still those of the rows after an entry was added.
pub fn new_entries_change_no_verdict()
    ensures { (names : Names) (v : VerdictsNow) (rows next : Rows) (e : Entry) → IsAccepted rows (edit.Entry e) next → HasVerdicts names v rows → HasVerdicts names v next }
{
    fact_boards::law::boards_stay();
    cpe_rows::law::entries_are_independent();
    cpe_rows::touching::untouched_verdicts_stay();
}

/// Verdicts of rows that are entries alone are those of any such rows.
pub fn entries_alone_have_no_verdict()
    ensures { (names : Names) (v : VerdictsNow) (was now : List Entry) → HasVerdicts names v (only_entries was) → HasVerdicts names v (only_entries now) }
{}
