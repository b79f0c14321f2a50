// A board in use, and how many looks a change takes.
ghost use Rattle.std.specs.Prelude.{◌≡◌, ◌≢◌, true, ◌+◌, ◌≤◌, ◌<◌, ℕ, [], ◌∷◌, List};
ghost use Rattle.name_index.specs.Prelude.{IsLive, kept_at, SameElements};
ghost use Rattle.fact_boards.specs.level_board.Board.{MarksAreProbes, FitsBoard, covers_at, is_probe_marked, maybe_at, target_times, probe_times};
ghost use Rattle.fact_boards.specs.level_board.declared.level.Level.TheVariants.{Covered, Maybe, Free};
ghost use Rattle.library_tests.specs.Tried.{tried_value};

use fact_boards::{Level, LevelBoard};
use name_index::{NameId, NameTable, Steps};
use std::sync::ledger::Ledger;

// Adds a target of the product `p`. The board has five probes, of the products `p` and `q0` to `q3`. Two looks are
// taken at most.
fn add_target_two_looks<L: Ledger>(
    board: &mut LevelBoard,
    table: &NameTable,
    target: NameId,
    steps: &mut Steps<L>,
)
    requires probes { SameElements ((0, 0) ∷ (1, 1) ∷ (2, 2) ∷ (3, 3) ∷ (4, 4) ∷ []) board.old.probe_ids }
    requires fits { FitsBoard board.old table.now }
    requires first { (kept_at table.now 0).name.product ≡ tried_value (112 ∷ []) }
    requires second { (kept_at table.now 1).name.product ≡ tried_value (113 ∷ 48 ∷ []) }
    requires third { (kept_at table.now 2).name.product ≡ tried_value (113 ∷ 49 ∷ []) }
    requires fourth { (kept_at table.now 3).name.product ≡ tried_value (113 ∷ 50 ∷ []) }
    requires fifth { (kept_at table.now 4).name.product ≡ tried_value (113 ∷ 51 ∷ []) }
    requires live { IsLive table.now target.0 }
    requires target { (kept_at table.now target.0).name.product ≡ tried_value (112 ∷ []) }
    requires room { 1 ≤ board.old.target_room }
    requires product { (kept_at table.now target.0).product < board.old.wide }
    requires new { target_times board.old target.0 ≡ 0 }
    requires marked { MarksAreProbes board.old }
    ensures { steps.new ≤ steps.old + 2 }
{
    board.add_target(table, target, steps);
}

// Adds two targets, and then a probe that covers the second. Removes the first target, and then the second. Returns
// the probe's level after each removal. At the end the probe is marked.
fn drop_two_targets<L: Ledger>(
    board: &mut LevelBoard,
    table: &NameTable,
    first: NameId,
    second: NameId,
    probe: NameId,
    steps: &mut Steps<L>,
) -> (Level, Level)
    requires first { IsLive table.now first.0 }
    requires second { IsLive table.now second.0 }
    requires probe { IsLive table.now probe.0 }
    requires apart { second.0 ≢ first.0 }
    requires fits { FitsBoard board.old table.now }
    requires no_targets { (t : ℕ) → target_times board.old t ≡ 0 }
    requires no_probes { (p : ℕ) → probe_times board.old p ≡ 0 }
    requires target_room { 2 ≤ board.old.target_room }
    requires probe_room { 1 ≤ board.old.probe_room }
    requires first_product { (kept_at table.now first.0).product < board.old.wide }
    requires second_product { (kept_at table.now second.0).product < board.old.wide }
    requires probe_product { (kept_at table.now probe.0).product < board.old.wide }
    requires covers_second { covers_at table.now probe.0 second.0 ≡ true }
    requires all_marked { MarksAreProbes board.old }
    ensures one_left { result.0 ≡ Covered }
    ensures none_left { result.1 ≡ Free }
    ensures marked { is_probe_marked board.new probe.0 ≡ true }
{
    board.add_target(table, first, steps);
    board.add_target(table, second, steps);
    board.add_probe(table, probe, steps);
    board.drop_target(table, first, steps);
    let one_left = board.level(probe);
    board.drop_target(table, second, steps);
    (one_left, board.level(probe))
}

// Adds the only target, and returns the probe's level. The target is known in part, and the probe may cover it.
fn add_target_known_in_part<L: Ledger>(
    board: &mut LevelBoard,
    table: &NameTable,
    target: NameId,
    probe: NameId,
    steps: &mut Steps<L>,
) -> Level
    requires live { IsLive table.now target.0 }
    requires fits { FitsBoard board.old table.now }
    requires no_targets { (t : ℕ) → target_times board.old t ≡ 0 }
    requires asked { 1 ≤ probe_times board.old probe.0 }
    requires room { 1 ≤ board.old.target_room }
    requires product { (kept_at table.now target.0).product < board.old.wide }
    requires may { maybe_at table.now probe.0 target.0 ≡ true }
    requires marked { MarksAreProbes board.old }
    ensures { result ≡ Maybe }
{
    cpe_relation::law::maybe_laws();
    board.add_target(table, target, steps);
    board.level(probe)
}

// Removes a target that the probe may cover, and returns the probe's level. The probe covers another target, which is
// not removed.
fn drop_target_known_in_part<L: Ledger>(
    board: &mut LevelBoard,
    table: &NameTable,
    part: NameId,
    whole: NameId,
    probe: NameId,
    steps: &mut Steps<L>,
) -> Level
    requires live { IsLive table.now part.0 }
    requires fits { FitsBoard board.old table.now }
    requires apart { whole.0 ≢ part.0 }
    requires part { 1 ≤ target_times board.old part.0 }
    requires whole { 1 ≤ target_times board.old whole.0 }
    requires asked { 1 ≤ probe_times board.old probe.0 }
    requires may { maybe_at table.now probe.0 part.0 ≡ true }
    requires covers { covers_at table.now probe.0 whole.0 ≡ true }
    requires marked { MarksAreProbes board.old }
    ensures { result ≡ Covered }
{
    board.drop_target(table, part, steps);
    board.level(probe)
}
