// Adds the numbers of a list to a board, or removes them, one after the other, as targets or as probes.
ghost use Rattle.std.specs.Prelude.{◌≡◌, ◌+◌, ◌≤◌, ◌<◌, ℕ, List, length};
ghost use Rattle.std.specs.List.{AllByRecursion, list_any};
ghost use Rattle.cpe_rows.specs.Prelude.{covers, maybe, truth, Values};
ghost use Rattle.name_index.specs.declared.products.Side.TheVariants as side;
ghost use Rattle.name_index.specs.declared.table.NameId.{NameId};
ghost use Rattle.name_index.specs.Table.{Names};
ghost use Rattle.level_board.specs.Board.{MarksAreProbes, FitsBoard, probe_times, target_ids, target_times};
ghost use Rattle.fact_laws.specs.Shown.{name_at, names_at, Shows, times_in_list};
ghost use Rattle.fact_boards.specs.Kept.{AreFactNames};
ghost use Rattle.fact_boards.specs.Lists.{Arrives, Asks, IsWide, Departs, Unasks, fact_looks, truth_of_names};

use cpe_rows::{Truth, or_of};
use level_board::{Level, LevelBoard};
use name_index::{NameId, NameTable, Steps};
use std::sync::ledger::Ledger;

// Adds targets. Looks at each of them, and at the probes whose products meet theirs. Allocates: no.
pub(crate) fn arrive<L: Ledger>(
    board: &mut LevelBoard,
    table: &NameTable,
    numbers: &[NameId],
    steps: &mut Steps<L>,
)
    requires fits { FitsBoard board.old table.now }
    requires live { AreFactNames table.now numbers.now }
    requires wide { IsWide board.old table.now }
    requires room { length numbers.now ≤ board.old.target_room }
    requires few { (t : ℕ) → target_times board.old t + length numbers.now ≤ 4294967295 }
    requires marked { MarksAreProbes board.old }
    ensures arrives { Arrives board.old board.new table.now numbers.now }
    ensures steps { steps.new ≤ steps.old + fact_looks table.now side.Target board.old.probe_ids numbers.now }
    ensures rise { steps.old ≤ steps.new }
{
    for id in numbers {
        board.add_target(table, *id, steps);
    }
}

// Removes targets. Looks at each of them, and at the probes whose products meet theirs. Allocates: no.
pub(crate) fn leave<L: Ledger>(
    board: &mut LevelBoard,
    table: &NameTable,
    numbers: &[NameId],
    steps: &mut Steps<L>,
)
    requires fits { FitsBoard board.old table.now }
    requires live { AreFactNames table.now numbers.now }
    requires there { (t : ℕ) → times_in_list t numbers.now ≤ target_times board.old t }
    requires marked { MarksAreProbes board.old }
    ensures leaves { Departs board.old board.new table.now numbers.now }
    ensures steps { steps.new ≤ steps.old + fact_looks table.now side.Target board.old.probe_ids numbers.now }
    ensures rise { steps.old ≤ steps.new }
{
    for id in numbers {
        board.drop_target(table, *id, steps);
    }
}

// Adds probes. Looks at each of them, and at the targets whose products meet theirs. Allocates: no.
pub(crate) fn ask<L: Ledger>(
    board: &mut LevelBoard,
    table: &NameTable,
    numbers: &[NameId],
    steps: &mut Steps<L>,
)
    requires fits { FitsBoard board.old table.now }
    requires live { AreFactNames table.now numbers.now }
    requires wide { IsWide board.old table.now }
    requires room { length numbers.now ≤ board.old.probe_room }
    requires few { (p : ℕ) → probe_times board.old p + length numbers.now ≤ 4294967295 }
    ensures asks { Asks board.old board.new table.now numbers.now }
    ensures steps { steps.new ≤ steps.old + fact_looks table.now side.Source (target_ids board.old) numbers.now }
    ensures rise { steps.old ≤ steps.new }
{
    for id in numbers {
        board.add_probe(table, *id, steps);
    }
}

// Removes probes. Takes no looks. Allocates: no.
pub(crate) fn unask<L: Ledger>(
    board: &mut LevelBoard,
    table: &NameTable,
    numbers: &[NameId],
    steps: &mut Steps<L>,
)
    requires fits { FitsBoard board.old table.now }
    requires live { AreFactNames table.now numbers.now }
    requires asked { (p : ℕ) → times_in_list p numbers.now ≤ probe_times board.old p }
    ensures unasks { Unasks board.old board.new table.now numbers.now }
    ensures steps { steps.new ≡ steps.old }
{
    for id in numbers {
        board.drop_probe(table, *id, steps);
    }
}

// The truth that one probe, by its level, gives to a fact that leads to it.
fn truth_at(board: &LevelBoard, id: NameId) -> Truth
    ensures { 1 ≤ probe_times board.now id.0 → (names : Names) (there : List Values) → FitsBoard board.now names → Shows names (target_times board.now) there
        → result ≡ truth (list_any (covers (name_at names id)) there) (list_any (maybe (name_at names id)) there) }
{
    fact_laws::law::lists_are_shown();
    match board.level(id) {
        Level::Covered => Truth::True,
        Level::Maybe => Truth::Unknown,
        Level::Free => Truth::False,
    }
}

// The truth of a fact that leads to these names, if all of them are probes. Takes no looks.
pub(crate) fn truth_by(board: &LevelBoard, numbers: &[NameId]) -> Truth
    ensures { AllByRecursion (λ (x : NameId). 1 ≤ probe_times board.now x.0) numbers.now → (names : Names) (there : List Values) → FitsBoard board.now names → Shows names (target_times board.now) there
        → result ≡ truth_of_names (names_at names numbers.now) there }
{
    let mut truth = Truth::False;
    for id in numbers {
        match truth_at(board, *id) {
            Truth::True => return Truth::True,
            one => truth = or_of(truth, one),
        }
    }
    truth
}
