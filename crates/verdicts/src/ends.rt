// The ends of names, before and after a planned change of a deprecation, and the facts that it leads elsewhere.
ghost use Rattle.std.specs.Prelude.{◌≡◌, ℕ, IfOk, List, OnOk, Some, filter, length, map};
ghost use Rattle.std.specs.List.{AllByRecursion, flat_map};
ghost use Rattle.cpe_rows.specs.Prelude.{ends as ends_in, IsLawful, Rows};
ghost use Rattle.cpe_dictionary.specs.Plans.{IsAllowed, ends_by};
ghost use Rattle.name_index.specs.Table.{IsLive};
ghost use Rattle.name_index.specs.declared.table.NameId.{NameId};
ghost use Rattle.facts.specs.fact_laws.Shown.{names_at};
ghost use Rattle.fact_boards.specs.Kept.{AreFactNames, AreSound};
ghost use Rattle.facts.specs.fact_rows.Facts.{leads_of};
ghost use Rattle.facts.specs.Facts.{HasFacts, is_used, table_of};
ghost use Rattle.facts.specs.LeadCalls.{HasRoomForEnds};
ghost use Rattle.facts.specs.Room.{KeepsFacts};
ghost use Rattle.facts.specs.declared.lead.Led.{Led};
ghost use Rattle.verdicts.specs.Leads.{IsLinkedAhead, MoreLinks};

use cpe_dictionary::Plan;
use cpe_rows::{Memory, Mode};
use fact_boards::WantedRoom;
use facts::{Facts, Led};
use name_index::{NameId, NameTable};
use name_registry::Registry;
use std::alloc::Global;

// How many new names of items or of facts an edit may have. Lawful rows have fewer.
pub(crate) const MOST_ENDS: usize = 268_435_456;

// Whether a statement of mode follow uses a fact.
fn has_users(facts: &Facts, fact: NameId) -> bool
    ensures { result ≡ is_used facts.now.follow fact.0 }
{
    !facts.users(Mode::Follow, fact).is_empty()
}

// Those of these names that are facts of mode follow.
pub(crate) fn facts_among(
    alloc: Global,
    facts: &Facts,
    names: &[NameId],
) -> Result<Vec<NameId>, Memory>
    ensures { IfOk result (λ v. v.items ≡ filter (λ (x : NameId). is_used facts.now.follow x.0) names.now) }
{
    let mut found = Vec::new(alloc);
    for name in names {
        if has_users(facts, *name) {
            found.push(*name)?;
        }
    }
    Ok(found)
}

// The ends of these names, those of one after those of another.
pub(crate) fn all_ends(
    alloc: Global,
    registry: &Registry,
    names: &[NameId],
) -> Result<Vec<NameId>, Memory>
    requires { AreFactNames registry.now.table names.now }
    ensures live { IfOk result (λ v. AreFactNames registry.now.table v.items) }
    ensures names { IfOk result (λ v. names_at registry.now.table v.items ≡ flat_map (ends_in registry.now.entries) (names_at registry.now.table names.now)) }
{
    let mut all = Vec::new(alloc);
    for name in names {
        let ends = registry.ends_of(alloc, *name)?;
        all.extend_from_slice(&ends)?;
    }
    Ok(all)
}

// The same after a planned change.
pub(crate) fn all_ends_after(
    alloc: Global,
    registry: &Registry,
    plan: &Plan,
    names: &[NameId],
) -> Result<Vec<NameId>, Memory>
    requires live { AreFactNames registry.now.table names.now }
    requires allowed { IsAllowed registry.now.entries plan.now.number plan.now.next }
    ensures live { IfOk result (λ v. AreFactNames registry.now.table v.items) }
    ensures names { IfOk result (λ v. names_at registry.now.table v.items ≡ flat_map (ends_by registry.now.entries (Some plan.now)) (names_at registry.now.table names.now)) }
{
    let mut all = Vec::new(alloc);
    for name in names {
        let ends = registry.ends_after(alloc, plan, *name)?;
        all.extend_from_slice(&ends)?;
    }
    Ok(all)
}

// The names to which facts lead, those of one fact after those of another.
pub(crate) fn leads_of_all(
    facts: &Facts,
    alloc: Global,
    mode: Mode,
    numbers: &[NameId],
) -> Result<Vec<NameId>, Memory>
    ensures { IfOk result (λ v. v.items ≡ flat_map (λ (x : NameId). leads_of mode (table_of facts.now mode) x.0) numbers.now) }
{
    let mut all = Vec::new(alloc);
    for number in numbers {
        all.extend_from_slice(facts.leads(mode, number))?;
    }
    Ok(all)
}

// Links a fact to the ends that a planned change will give it.
fn link_one(
    alloc: Global,
    facts: &mut Facts,
    registry: &Registry,
    plan: &Plan,
    fact: NameId,
) -> Result<Led, Memory>
    requires live { IsLive registry.now.table fact.0 }
    requires allowed { IsAllowed registry.now.entries plan.now.number plan.now.next }
    ensures more { MoreLinks facts.old facts.new }
    ensures fact { IfOk result (λ led. led.fact ≡ fact) }
    ensures planned { IfOk result (IsLinkedAhead registry.now.table registry.now.entries plan.now facts.new.follow) }
{
    let ends = registry.ends_after(alloc, plan, fact)?;
    facts.link(alloc, fact, &ends)?;
    Ok(Led { fact, ends })
}

// Links each of these facts to the ends that a planned change will give it, and returns each with these ends.
pub(crate) fn link_all(
    alloc: Global,
    facts: &mut Facts,
    registry: &Registry,
    plan: &Plan,
    ids: &[NameId],
) -> Result<Vec<Led>, Memory>
    requires live { AreFactNames registry.now.table ids.now }
    requires allowed { IsAllowed registry.now.entries plan.now.number plan.now.next }
    ensures more { MoreLinks facts.old facts.new }
    ensures facts { IfOk result (λ v. map (λ x. x.fact) v.items ≡ ids.now) }
    ensures planned { IfOk result (λ v. AllByRecursion (IsLinkedAhead registry.now.table registry.now.entries plan.now facts.new.follow) v.items) }
{
    let mut all = Vec::new(alloc);
    for id in ids {
        let led = link_one(alloc, facts, registry, plan, *id)?;
        all.push(led)?;
    }
    Ok(all)
}

// The ends that facts will have, those of one after those of another.
pub(crate) fn led_ends(alloc: Global, facts: &[Led]) -> Result<Vec<NameId>, Memory>
    ensures { IfOk result (λ v. v.items ≡ flat_map (λ (x : Led). x.ends.items) facts.now) }
{
    let mut all = Vec::new(alloc);
    for led in facts {
        all.extend_from_slice(&led.ends)?;
    }
    Ok(all)
}

// Reserves room for new ends of items and of facts.
pub(crate) fn reserve_ends(
    facts: &mut Facts,
    table: &NameTable,
    of_items: &[NameId],
    of_facts: &[NameId],
) -> Result<(), Memory>
    requires { (rows : Rows) × (tickets : List ℕ) × IsLawful rows × HasFacts table.now facts.old rows tickets }
    ensures facts { KeepsFacts facts.old facts.new }
    ensures plain { facts.new.plain ≡ facts.old.plain }
    ensures follow { facts.new.follow ≡ facts.old.follow }
    ensures sound { AreSound facts.new.boards }
    ensures room { OnOk result (HasRoomForEnds facts.new table.now (length of_items.now) (length of_facts.now)) }
{
    facts.lawful();
    if of_items.len() > MOST_ENDS || of_facts.len() > MOST_ENDS {
        return Err(Memory);
    }
    let plain = WantedRoom { asked: 0, there: 0 };
    let follow = WantedRoom {
        asked: of_facts.len() as u32,
        there: of_items.len() as u32,
    };
    let reserved = facts.reserve(table, plain, follow);
    facts.lawful();
    reserved
}
