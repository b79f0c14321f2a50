// Truths of facts by the levels of a board. A fact whose truth was replaced is added to the list of changed facts.
ghost use Rattle.std.specs.Prelude.{◌≡◌, ◌+◌, ◌≤◌, ◌&&◌, ℕ, [], not, nat_eq, length};
ghost use Rattle.std.specs.List.{list_any};
ghost use Rattle.name_index.specs.declared.table.NameId.{NameId};
ghost use Rattle.fact_rows.specs.Facts.{IsChangeList, fact_row_in, facts_of_end, has_end_of_fact};
ghost use Rattle.cpe_rows.specs.declared.statement.Mode.TheVariants.{Follow};
ghost use Rattle.fact_rows.specs.Calls.{RowsRefreshed};
ghost use Rattle.fact_rows.specs.Rows.{is_changed, fact_row_at, unchanged};

use crate::links::facts_of;
use crate::row::FactRow;
use crate::rows::{clear_row, refresh_row};
use cpe_rows::Mode;
use level_board::LevelBoard;
use name_index::NameId;
use std::collections::HashMap;

fn refresh_fact(
    rows: &mut HashMap<u32, FactRow>,
    changed: &mut Vec<NameId>,
    mode: Mode,
    fact: NameId,
    board: &LevelBoard,
)
    requires { IsChangeList rows.old.entries changed.old }
    ensures changes { IsChangeList rows.new.entries changed.new }
    ensures rows { RowsRefreshed rows.old.entries rows.new.entries changed.old.items changed.new.items (nat_eq fact.0) mode board.now }
{
    if refresh_row(rows, mode, fact, board) {
        changed.push_reserved(fact);
    }
}

// Refreshes these facts.
pub(crate) fn refresh_facts(
    rows: &mut HashMap<u32, FactRow>,
    changed: &mut Vec<NameId>,
    mode: Mode,
    facts: &[NameId],
    board: &LevelBoard,
)
    requires { IsChangeList rows.old.entries changed.old }
    ensures changes { IsChangeList rows.new.entries changed.new }
    ensures rows { RowsRefreshed rows.old.entries rows.new.entries changed.old.items changed.new.items (has_end_of_fact facts.now) mode board.now }
{
    for fact in facts {
        refresh_fact(rows, changed, mode, *fact, board);
    }
}

// Refreshes the facts of these ends.
pub(crate) fn refresh_ends(
    rows: &mut HashMap<u32, FactRow>,
    changed: &mut Vec<NameId>,
    by_end: &HashMap<u32, Vec<NameId>>,
    ends: &[NameId],
    board: &LevelBoard,
)
    requires { IsChangeList rows.old.entries changed.old }
    ensures changes { IsChangeList rows.new.entries changed.new }
    ensures rows { RowsRefreshed rows.old.entries rows.new.entries changed.old.items changed.new.items (λ q. list_any (λ (id : NameId). has_end_of_fact (facts_of_end by_end.now.entries id.0) q) ends.now) Follow board.now }
{
    for end in ends {
        refresh_facts(rows, changed, Mode::Follow, facts_of(by_end, end.0), board);
    }
}

// Clears the flags of these facts, which are the changed ones.
fn clear_rows(rows: &mut HashMap<u32, FactRow>, facts: &[NameId])
    ensures facts { (q : ℕ) → fact_row_in rows.new.entries q ≡ fact_row_in rows.old.entries q }
    ensures marks { (q : ℕ) → is_changed (fact_row_at rows.new.entries q) ≡ (is_changed (fact_row_at rows.old.entries q) && not (has_end_of_fact facts.now q)) }
    ensures many { unchanged rows.new.entries ≤ unchanged rows.old.entries + length facts.now }
{
    for fact in facts {
        clear_row(rows, fact.0);
    }
}

pub(crate) fn clear_changed(rows: &mut HashMap<u32, FactRow>, changed: &mut Vec<NameId>)
    requires { IsChangeList rows.old.entries changed.old }
    ensures changes { IsChangeList rows.new.entries changed.new }
    ensures cleared { changed.new.items ≡ [] }
    ensures facts { (q : ℕ) → fact_row_in rows.new.entries q ≡ fact_row_in rows.old.entries q }
{
    clear_rows(rows, changed);
    changed.clear();
}
