// Facts that a statement adds, since no other statement uses them.
ghost use Rattle.std.specs.Prelude.{◌≡◌, ◌≤◌, ◌++◌, ◌∷◌, ℕ, [], List, IfOk, OnOk, None, cond, false, filter, not, true};
ghost use Rattle.name_index.specs.declared.table.NameId.{NameId};
ghost use Rattle.name_index.specs.Table.{IsLive, Names};
ghost use Rattle.cpe_rows.specs.Prelude.{IsLawful, Rows};
ghost use Rattle.facts.specs.fact_laws.Shown.{times_in_list};
ghost use Rattle.fact_boards.specs.Kept.{AreFactNames};
ghost use Rattle.facts.specs.fact_rows.Facts.{fact_at, has_end_of_fact, leads_by, OthersStay};
ghost use Rattle.facts.specs.Facts.{HasFacts, is_used, LeadsTo, table_of};
ghost use Rattle.facts.specs.Room.{KeepsFacts};
ghost use Rattle.verdicts.specs.Addition.{AreAdded, AreFresh, AreReady, FreshBeside, HasAskedRoom};

use crate::ends::{MOST_ENDS, leads_of_all};
use cpe_rows::{Memory, Mode};
use fact_boards::{WantedRoom, keep_each_once};
use facts::Facts;
use name_index::{NameId, NameTable};
use name_registry::Registry;
use std::alloc::Global;

// The facts among these numbers that no statement of the mode uses, each once.
pub(crate) fn fresh_of(
    facts: &Facts,
    alloc: Global,
    mode: Mode,
    ids: &[NameId],
) -> Result<Vec<NameId>, Memory>
    ensures fresh { IfOk result (λ v. AreFresh (table_of facts.now mode) ids.now v.items) }
    ensures live { (names : Names) → AreFactNames names ids.now → IfOk result (λ v. AreFactNames names v.items) }
{
    let mut fresh = unused_of(facts, alloc, mode, ids)?;
    keep_each_once(&mut fresh);
    Ok(fresh)
}

// The same, each as often as it is among the numbers.
fn unused_of(
    facts: &Facts,
    alloc: Global,
    mode: Mode,
    ids: &[NameId],
) -> Result<Vec<NameId>, Memory>
    ensures { IfOk result (λ v. v.items ≡ filter (λ (x : NameId). not (is_used (table_of facts.now mode) x.0)) ids.now) }
{
    let mut unused = Vec::new(alloc);
    for id in ids {
        add_unused(facts, mode, *id, &mut unused)?;
    }
    Ok(unused)
}

fn add_unused(facts: &Facts, mode: Mode, id: NameId, unused: &mut Vec<NameId>) -> Result<(), Memory>
    ensures { OnOk result (unused.new.items ≡ unused.old.items ++ cond (not (is_used (table_of facts.now mode) id.0)) (id ∷ []) []) }
{
    if facts.users(mode, id).is_empty() {
        unused.push(id)?;
    }
    Ok(())
}

// The ends of a new fact: none in mode plain, and those of its name in mode follow.
fn ends_of(
    registry: &Registry,
    alloc: Global,
    mode: Mode,
    fact: NameId,
) -> Result<Vec<NameId>, Memory>
    requires { IsLive registry.now.table fact.0 }
    ensures { IfOk result (λ v. LeadsTo registry.now.table registry.now.entries mode fact.0 (leads_by mode fact.0 v.items)) }
{
    match mode {
        Mode::Plain => Ok(Vec::new(alloc)),
        Mode::Follow => registry.ends_of(alloc, fact),
    }
}

// Adds one fact that no statement uses.
fn add_fresh(
    facts: &mut Facts,
    alloc: Global,
    registry: &Registry,
    mode: Mode,
    fact: NameId,
) -> Result<(), Memory>
    requires live { IsLive registry.now.table fact.0 }
    requires none { fact_at (table_of facts.old mode) fact.0 ≡ None }
    ensures beside { FreshBeside facts.old facts.new registry.now.table mode (fact ∷ []) }
    ensures others { OthersStay fact.0 (table_of facts.old mode) (table_of facts.new mode) }
    ensures added { OnOk result (AreAdded facts.new registry.now.table registry.now.entries mode (fact ∷ [])) }
{
    let ends = ends_of(registry, alloc, mode, fact)?;
    facts.add_fact(alloc, mode, fact, ends)
}

// Adds facts that no statement uses, each once.
fn add_all_fresh(
    facts: &mut Facts,
    alloc: Global,
    registry: &Registry,
    mode: Mode,
    fresh: &[NameId],
) -> Result<(), Memory>
    requires live { AreFactNames registry.now.table fresh.now }
    requires once { (q : ℕ) → times_in_list q fresh.now ≤ 1 }
    requires none { (q : ℕ) → has_end_of_fact fresh.now q ≡ true → fact_at (table_of facts.old mode) q ≡ None }
    ensures beside { FreshBeside facts.old facts.new registry.now.table mode fresh.now }
    ensures added { OnOk result (AreAdded facts.new registry.now.table registry.now.entries mode fresh.now) }
{
    for fact in fresh {
        add_fresh(facts, alloc, registry, mode, *fact)?;
    }
    Ok(())
}

// Reserves room on the board of a mode for names that will be asked.
fn reserve_asked(
    facts: &mut Facts,
    table: &NameTable,
    mode: Mode,
    asked: &[NameId],
) -> Result<(), Memory>
    requires { (rows : Rows) × (tickets : List ℕ) × IsLawful rows × HasFacts table.now facts.old rows tickets }
    ensures facts { KeepsFacts facts.old facts.new }
    ensures plain { facts.new.plain ≡ facts.old.plain }
    ensures follow { facts.new.follow ≡ facts.old.follow }
    ensures room { OnOk result (HasAskedRoom facts.new table.now mode asked.now) }
{
    if asked.len() > MOST_ENDS {
        return Err(Memory);
    }
    let wanted = WantedRoom {
        asked: asked.len() as u32,
        there: 0,
    };
    let none = WantedRoom { asked: 0, there: 0 };
    match mode {
        Mode::Plain => facts.reserve(table, wanted, none),
        Mode::Follow => facts.reserve(table, none, wanted),
    }
}

// Adds the fresh facts of a statement, and reserves room for one more user of each of its facts, and for the names to
// which the fresh facts lead. Returns these names.
pub(crate) fn ready_facts(
    facts: &mut Facts,
    alloc: Global,
    registry: &Registry,
    mode: Mode,
    ids: &[NameId],
    fresh: &[NameId],
) -> Result<Vec<NameId>, Memory>
    requires live { AreFactNames registry.now.table fresh.now }
    requires once { (q : ℕ) → times_in_list q fresh.now ≤ 1 }
    requires none { (q : ℕ) → has_end_of_fact fresh.now q ≡ true → fact_at (table_of facts.old mode) q ≡ None }
    requires whole { (q : ℕ) → has_end_of_fact ids.now q ≡ true → has_end_of_fact fresh.now q ≡ false → is_used (table_of facts.old mode) q ≡ true }
    requires rows_before { (rows : Rows) × (tickets : List ℕ) × IsLawful rows × HasFacts registry.now.table facts.old rows tickets }
    ensures beside { FreshBeside facts.old facts.new registry.now.table mode fresh.now }
    ensures ready { IfOk result (λ v. AreReady facts.new registry.now.table registry.now.entries mode ids.now fresh.now v.items) }
{
    add_all_fresh(facts, alloc, registry, mode, fresh)?;
    let asked = leads_of_all(facts, alloc, mode, fresh)?;
    facts.reserve_users(mode, ids)?;
    reserve_asked(facts, registry.table(), mode, &asked)?;
    Ok(asked)
}
