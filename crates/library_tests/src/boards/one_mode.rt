// Facts of one mode. A fact gets another end. A fact of mode follow that has no ends is FALSE, whatever its own name
// covers.
ghost use Rattle.std.specs.Prelude.{◌≡◌, [], Some};
ghost use Rattle.cpe_rows.specs.declared.truth.Truth.TheVariants.{False};
ghost use Rattle.fact_rows.specs.Facts.{fact_at, new_fact, truth_of_fact};

use cpe_rows::{Memory, Mode};
use fact_boards::LevelBoard;
use fact_rows::FactRows;
use name_index::NameId;
use std::alloc::Global;

// Computes again the fact of a removed name, which has no end.
fn refresh_fact_without_ends(facts: &mut FactRows, board: &LevelBoard, fact: NameId)
    requires { fact_at facts.old fact.0 ≡ Some (new_fact []) }
    ensures { truth_of_fact facts.new fact.0 ≡ False }
{
    facts.refresh_facts(Mode::Follow, &[fact], board);
}

fn one_end(alloc: Global, end: u32) -> Result<Vec<NameId>, Memory> {
    let mut ends = Vec::new(alloc);
    ends.push(NameId(end))?;
    Ok(ends)
}

// Adds a fact with this end, unless it is a fact already.
fn add(alloc: Global, facts: &mut FactRows, fact: u32, end: u32) -> bool {
    if facts.has(NameId(fact)) {
        return false;
    }
    match one_end(alloc, end) {
        Ok(ends) => facts.add_fact(alloc, NameId(fact), ends).is_ok(),
        Err(_) => false,
    }
}

fn lead(alloc: Global, facts: &mut FactRows, fact: u32, end: u32) -> bool {
    match one_end(alloc, end) {
        Ok(ends) => {
            let linked = facts.link(alloc, NameId(fact), &ends).is_ok();
            facts.set_ends(NameId(fact), ends);
            linked
        }
        Err(_) => false,
    }
}

// Whether the end has this fact and no other.
fn has_one(facts: &FactRows, end: u32, fact: u32) -> bool {
    match facts.facts_of(NameId(end)) {
        [only] => only.0 == fact,
        _ => false,
    }
}

// Adds two facts with the same end, and then gives one of them another end.
fn leads_elsewhere(alloc: Global) -> bool {
    let mut facts = FactRows::new(alloc);
    let added = add(alloc, &mut facts, 1, 8) && add(alloc, &mut facts, 2, 8);
    let led = lead(alloc, &mut facts, 1, 9);
    added && led && has_one(&facts, 8, 2) && has_one(&facts, 9, 1)
}

#[test]
fn a_fact_gets_another_end(rt: HostRuntime) {
    assert!(rt; leads_elsewhere(rt.alloc()));
}
