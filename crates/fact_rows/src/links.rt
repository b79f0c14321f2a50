// Which facts lead to an end.
ghost use Rattle.std.specs.Prelude.{◌≡◌, ◌≢◌, ◌-◌, ℕ, [], true, false, nat_eq, None, OnOk, OnErr, position};
ghost use Rattle.std.specs.Bool.{OnTrue};
ghost use Rattle.std.specs.Map.{lookup};
ghost use Rattle.fact_rows.specs.Facts.{AreOnce, facts_of_end, IsUnder, IsUnderNone, KeepsLinks, NoneIsEmpty, SameElsewhere, SameOthers, times_among, with_end};
ghost use Rattle.name_index.specs.declared.table.NameId.{NameId};
ghost use Rattle.fact_rows.specs.Facts.{has_end_of_fact as is_among};
ghost use Rattle.fact_rows.specs.Calls.{LinkAdded};
ghost use Rattle.fact_rows.specs.Rows.{count_if};

use crate::ends::has_end;
use cpe_rows::Memory;
use name_index::NameId;
use std::alloc::Global;
use std::collections::HashMap;

// The facts of an end.
pub(crate) fn facts_of(facts: &HashMap<u32, Vec<NameId>>, end: u32) -> &[NameId]
    ensures { result.now ≡ facts_of_end facts.now.entries end }
{
    match facts.get(&end) {
        Some(list) => list.as_slice(),
        None => &[],
    }
}

// Appends a name, unless it is in the list.
fn add_once(list: &mut Vec<NameId>, id: NameId) -> Result<(), Memory>
    ensures ok { OnOk result (list.new.items ≡ with_end id list.old.items) }
    ensures err { OnErr result (list.new.items ≡ list.old.items) }
{
    if has_end(list, id.0) {
        return Ok(());
    }
    match list.push(id) {
        Ok(()) => Ok(()),
        Err(_) => Err(Memory),
    }
}

fn add_at(
    facts: &mut HashMap<u32, Vec<NameId>>,
    alloc: Global,
    end: u32,
    fact: NameId,
) -> Result<(), Memory>
    ensures { LinkAdded facts.old.entries facts.new.entries end fact result }
{
    match facts.get_mut(&end) {
        Some(list) => add_once(list, fact),
        None => add_first(facts, alloc, end, fact),
    }
}

fn add_first(
    facts: &mut HashMap<u32, Vec<NameId>>,
    alloc: Global,
    end: u32,
    fact: NameId,
) -> Result<(), Memory>
    requires { facts_of_end facts.old.entries end ≡ [] }
    ensures { LinkAdded facts.old.entries facts.new.entries end fact result }
{
    let mut list = Vec::new(alloc);
    add_once(&mut list, fact)?;
    match facts.insert(end, list) {
        Ok(_) => Ok(()),
        Err(_) => Err(Memory),
    }
}

// Adds a fact to those of an end, unless it is among them.
fn link_end(
    facts: &mut HashMap<u32, Vec<NameId>>,
    alloc: Global,
    end: u32,
    fact: NameId,
) -> Result<(), Memory>
    ensures here { OnOk result (is_among (facts_of_end facts.new.entries end) fact.0 ≡ true) }
    ensures links { KeepsLinks (facts_of_end facts.old.entries) (facts_of_end facts.new.entries) }
    ensures others { SameOthers fact.0 (facts_of_end facts.old.entries) (facts_of_end facts.new.entries) }
    ensures elsewhere { (other : ℕ) → nat_eq end other ≡ false → facts_of_end facts.new.entries other ≡ facts_of_end facts.old.entries other }
    ensures tight { NoneIsEmpty facts.old.entries → NoneIsEmpty facts.new.entries }
    ensures once { AreOnce facts.old.entries → AreOnce facts.new.entries }
{
    add_at(facts, alloc, end, fact)
}

// Adds a fact to those of each of these ends.
pub(crate) fn link(
    facts: &mut HashMap<u32, Vec<NameId>>,
    alloc: Global,
    fact: NameId,
    ends: &[NameId],
) -> Result<(), Memory>
    ensures ok { OnOk result (IsUnder (facts_of_end facts.new.entries) fact.0 ends.now) }
    ensures links { KeepsLinks (facts_of_end facts.old.entries) (facts_of_end facts.new.entries) }
    ensures others { SameOthers fact.0 (facts_of_end facts.old.entries) (facts_of_end facts.new.entries) }
    ensures elsewhere { SameElsewhere ends.now (facts_of_end facts.old.entries) (facts_of_end facts.new.entries) }
    ensures tight { NoneIsEmpty facts.old.entries → NoneIsEmpty facts.new.entries }
    ensures once { AreOnce facts.old.entries → AreOnce facts.new.entries }
{
    for id in ends {
        link_end(facts, alloc, id.0, fact)?;
    }
    Ok(())
}

fn place_of(list: &[NameId], number: u32) -> Option<usize>
    ensures { result ≡ position (λ (id : NameId). nat_eq id.0 number) list.now }
{
    list.iter().position(|id| id.0 == number)
}

// Removes a number. The last one moves to its place, since they have no order.
fn remove_number(list: &mut Vec<NameId>, number: u32)
    ensures others { (q : ℕ) → q ≢ number → is_among list.new.items q ≡ is_among list.old.items q }
    ensures times { (q : ℕ) → times_among list.new.items q ≡ times_among list.old.items q - count_if (nat_eq number q) }
{
    if let Some(place) = place_of(list, number) {
        list.swap_remove(place);
    }
}

// Removes a fact from those of an end. Returns whether none is left.
fn remove_at(facts: &mut HashMap<u32, Vec<NameId>>, end: u32, fact: NameId) -> bool
    ensures empty { OnTrue result (facts_of_end facts.new.entries end ≡ []) }
    ensures left { facts_of_end facts.new.entries end ≡ [] → result ≡ true }
    ensures here { (q : ℕ) → q ≢ fact.0 → is_among (facts_of_end facts.new.entries end) q ≡ is_among (facts_of_end facts.old.entries end) q }
    ensures times { (q : ℕ) → times_among (facts_of_end facts.new.entries end) q ≡ times_among (facts_of_end facts.old.entries end) q - count_if (nat_eq fact.0 q) }
    ensures elsewhere { (other : ℕ) → nat_eq end other ≡ false → lookup (nat_eq other) facts.new.entries ≡ lookup (nat_eq other) facts.old.entries }
{
    match facts.get_mut(&end) {
        Some(list) => {
            remove_number(list, fact.0);
            list.is_empty()
        }
        None => true,
    }
}

fn remove_link(facts: &mut HashMap<u32, Vec<NameId>>, end: u32, fact: NameId)
    ensures here { (q : ℕ) → q ≢ fact.0 → is_among (facts_of_end facts.new.entries end) q ≡ is_among (facts_of_end facts.old.entries end) q }
    ensures times { (q : ℕ) → times_among (facts_of_end facts.new.entries end) q ≡ times_among (facts_of_end facts.old.entries end) q - count_if (nat_eq fact.0 q) }
    ensures elsewhere { (other : ℕ) → nat_eq end other ≡ false → lookup (nat_eq other) facts.new.entries ≡ lookup (nat_eq other) facts.old.entries }
    ensures gone { facts_of_end facts.new.entries end ≡ [] → lookup (nat_eq end) facts.new.entries ≡ None }
{
    if remove_at(facts, end, fact) {
        drop(facts.remove(&end));
    }
}

// Removes a fact from those of an end, and the list if it is empty then.
fn unlink_end(facts: &mut HashMap<u32, Vec<NameId>>, end: u32, fact: NameId)
    ensures others { SameOthers fact.0 (facts_of_end facts.old.entries) (facts_of_end facts.new.entries) }
    ensures elsewhere { (other : ℕ) → nat_eq end other ≡ false → facts_of_end facts.new.entries other ≡ facts_of_end facts.old.entries other }
    ensures tight { NoneIsEmpty facts.old.entries → NoneIsEmpty facts.new.entries }
    ensures once { AreOnce facts.old.entries → AreOnce facts.new.entries }
    ensures gone { AreOnce facts.old.entries → is_among (facts_of_end facts.new.entries end) fact.0 ≡ false }
    ensures away { (e : ℕ) → is_among (facts_of_end facts.old.entries e) fact.0 ≡ false → is_among (facts_of_end facts.new.entries e) fact.0 ≡ false }
{
    remove_link(facts, end, fact);
}

// Removes a fact from those of each of these ends.
pub(crate) fn unlink(facts: &mut HashMap<u32, Vec<NameId>>, fact: NameId, ends: &[NameId])
    ensures others { SameOthers fact.0 (facts_of_end facts.old.entries) (facts_of_end facts.new.entries) }
    ensures elsewhere { SameElsewhere ends.now (facts_of_end facts.old.entries) (facts_of_end facts.new.entries) }
    ensures tight { NoneIsEmpty facts.old.entries → NoneIsEmpty facts.new.entries }
    ensures once { AreOnce facts.old.entries → AreOnce facts.new.entries }
    ensures gone { AreOnce facts.old.entries → IsUnderNone (facts_of_end facts.new.entries) fact.0 ends.now }
{
    for id in ends {
        unlink_end(facts, id.0, fact);
    }
}

// Removes a fact from those of an end, unless the end is one of these.
fn unlink_unless(facts: &mut HashMap<u32, Vec<NameId>>, end: u32, fact: NameId, ends: &[NameId])
    ensures others { SameOthers fact.0 (facts_of_end facts.old.entries) (facts_of_end facts.new.entries) }
    ensures kept { (e : ℕ) → is_among ends.now e ≡ true → facts_of_end facts.new.entries e ≡ facts_of_end facts.old.entries e }
    ensures tight { NoneIsEmpty facts.old.entries → NoneIsEmpty facts.new.entries }
    ensures once { AreOnce facts.old.entries → AreOnce facts.new.entries }
    ensures gone { AreOnce facts.old.entries → is_among ends.now end ≡ false → is_among (facts_of_end facts.new.entries end) fact.0 ≡ false }
    ensures away { (e : ℕ) → is_among (facts_of_end facts.old.entries e) fact.0 ≡ false → is_among (facts_of_end facts.new.entries e) fact.0 ≡ false }
{
    if has_end(ends, end) {
        return;
    }
    unlink_end(facts, end, fact);
}

// Removes a fact from those of the old ends that are not among the new ones.
pub(crate) fn unlink_old(
    facts: &mut HashMap<u32, Vec<NameId>>,
    fact: NameId,
    old_ends: &[NameId],
    ends: &[NameId],
)
    ensures others { SameOthers fact.0 (facts_of_end facts.old.entries) (facts_of_end facts.new.entries) }
    ensures kept { (e : ℕ) → is_among ends.now e ≡ true → facts_of_end facts.new.entries e ≡ facts_of_end facts.old.entries e }
    ensures tight { NoneIsEmpty facts.old.entries → NoneIsEmpty facts.new.entries }
    ensures once { AreOnce facts.old.entries → AreOnce facts.new.entries }
    ensures gone { AreOnce facts.old.entries → (e : ℕ) → is_among old_ends.now e ≡ true → is_among ends.now e ≡ false → is_among (facts_of_end facts.new.entries e) fact.0 ≡ false }
{
    for id in old_ends {
        unlink_unless(facts, id.0, fact, ends);
    }
}
