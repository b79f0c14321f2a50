// The rows of facts, by the numbers of their names.
ghost use Rattle.std.specs.Prelude.{◌≡◌, ◌≢◌, ◌+◌, ◌<◌, ◌≤◌, ◌||◌, ℕ, [], true, false, not, nat_eq, is_some, length, None, Some, OnOk, OnErr, vec_capacity};
ghost use Rattle.std.specs.HashMap.{spare};
ghost use Rattle.std.specs.Option.{option_map, option_map_or};
ghost use Rattle.ticket_list.specs.Rising.{IsRising};
ghost use Rattle.fact_rows.specs.Facts.{AreOnce, has_end_of_fact, ends_or_none, facts_of_end, IsUnder, KeepsLinks, NoneIsEmpty, SameOthers, fact_row_in, leads_by, room_or_none, truth_or_unknown, without_truth, users_or_none, with_ends};
ghost use Rattle.fact_rows.specs.Rows.{is_changed, is_news, KeepsChanged, count_if, fact_row_at, fact_row_with, unchanged};
ghost use Rattle.ticket_list.specs.Tickets.{ends_with, is_empty, with_last, without};
ghost use Rattle.fact_rows.specs.Truths.{truth_at_ends};

use crate::links::{link, unlink};
use crate::row::FactRow;
use cpe_rows::{Memory, Mode, Truth};
use level_board::LevelBoard;
use name_index::NameId;
use std::alloc::Global;
use std::collections::HashMap;

// ---- reads

pub(crate) fn has(rows: &HashMap<u32, FactRow>, fact: u32) -> bool
    ensures { result ≡ is_some (fact_row_in rows.now.entries fact) }
{
    match rows.get(&fact) {
        Some(_) => true,
        None => false,
    }
}

pub(crate) fn ends_of(rows: &HashMap<u32, FactRow>, fact: u32) -> &[NameId]
    ensures { result.now ≡ ends_or_none (fact_row_in rows.now.entries fact) }
{
    match rows.get(&fact) {
        Some(row) => row.ends.as_slice(),
        None => &[],
    }
}

pub(crate) fn users_of(rows: &HashMap<u32, FactRow>, fact: u32) -> &[u64]
    ensures { result.now ≡ users_or_none (fact_row_in rows.now.entries fact) }
{
    match rows.get(&fact) {
        Some(row) => row.users.as_slice(),
        None => &[],
    }
}

pub(crate) fn truth_of(rows: &HashMap<u32, FactRow>, fact: u32) -> Truth
    ensures { result ≡ truth_or_unknown (fact_row_in rows.now.entries fact) }
{
    match rows.get(&fact) {
        Some(row) => row.truth,
        None => Truth::Unknown,
    }
}

// ---- rows as wholes

// Reserves room for one more row, and for that row and all others in the list of changed facts.
pub(crate) fn reserve_row(
    rows: &mut HashMap<u32, FactRow>,
    changed: &mut Vec<NameId>,
) -> Result<(), Memory>
    ensures rows { (q : ℕ) → fact_row_at rows.new.entries q ≡ fact_row_at rows.old.entries q }
    ensures many { unchanged rows.new.entries ≡ unchanged rows.old.entries }
    ensures changed { changed.new.items ≡ changed.old.items }
    ensures capacity { vec_capacity changed.old ≤ vec_capacity changed.new }
    ensures spare { OnOk result (0 < spare rows.new) }
    ensures room { OnOk result (unchanged rows.new.entries + 1 + length changed.new.items ≤ vec_capacity changed.new) }
{
    if rows.reserve(1).is_err() {
        return Err(Memory);
    }
    match changed.reserve(rows.len() + 1) {
        Ok(()) => Ok(()),
        Err(_) => Err(Memory),
    }
}

// Adds the row of a fact. It takes no memory.
pub(crate) fn insert_row(rows: &mut HashMap<u32, FactRow>, fact: u32, row: FactRow)
    requires none { fact_row_at rows.old.entries fact ≡ None }
    requires spare { 0 < spare rows.old }
    ensures here { fact_row_at rows.new.entries fact ≡ Some row }
    ensures others { (q : ℕ) → nat_eq fact q ≡ false → fact_row_at rows.new.entries q ≡ fact_row_at rows.old.entries q }
    ensures many { unchanged rows.new.entries ≡ unchanged rows.old.entries + count_if (not row.changed) }
{
    match rows.insert(fact, row) {
        Ok(_) => {}
        Err(_) => unreachable!(),
    }
}

// Links a fact to its ends, and adds its row. Only a link takes memory.
//
// # Errors
// Only that memory ran out. The rows are then unchanged, and only ends that listed the fact before list it.
pub(crate) fn add_row(
    rows: &mut HashMap<u32, FactRow>,
    by_end: &mut HashMap<u32, Vec<NameId>>,
    alloc: Global,
    fact: NameId,
    row: FactRow,
) -> Result<(), Memory>
    requires none { fact_row_at rows.old.entries fact.0 ≡ None }
    requires spare { 0 < spare rows.old }
    requires once { AreOnce by_end.old.entries }
    ensures here { OnOk result (fact_row_at rows.new.entries fact.0 ≡ Some row) }
    ensures others { (q : ℕ) → nat_eq fact.0 q ≡ false → fact_row_at rows.new.entries q ≡ fact_row_at rows.old.entries q }
    ensures many { OnOk result (unchanged rows.new.entries ≡ unchanged rows.old.entries + count_if (not row.changed)) }
    ensures err { OnErr result (rows.new.entries ≡ rows.old.entries) }
    ensures under { OnOk result (IsUnder (facts_of_end by_end.new.entries) fact.0 row.ends.items) }
    ensures left { OnErr result ((e : ℕ) → has_end_of_fact (facts_of_end by_end.old.entries e) fact.0 ≡ false → has_end_of_fact (facts_of_end by_end.new.entries e) fact.0 ≡ false) }
    ensures kept { OnOk result (KeepsLinks (facts_of_end by_end.old.entries) (facts_of_end by_end.new.entries)) }
    ensures links { SameOthers fact.0 (facts_of_end by_end.old.entries) (facts_of_end by_end.new.entries) }
    ensures tight { NoneIsEmpty by_end.old.entries → NoneIsEmpty by_end.new.entries }
    ensures lists { AreOnce by_end.new.entries }
{
    match link(by_end, alloc, fact, &row.ends) {
        Ok(()) => {
            insert_row(rows, fact.0, row);
            Ok(())
        }
        Err(_) => {
            unlink(by_end, fact, &row.ends);
            drop(row);
            Err(Memory)
        }
    }
}

// Removes the row of a fact.
pub(crate) fn remove_row(rows: &mut HashMap<u32, FactRow>, fact: u32)
    ensures here { fact_row_at rows.new.entries fact ≡ None }
    ensures others { (q : ℕ) → nat_eq fact q ≡ false → fact_row_at rows.new.entries q ≡ fact_row_at rows.old.entries q }
    ensures many { unchanged rows.new.entries ≤ unchanged rows.old.entries }
{
    drop(rows.remove(&fact));
}

// ---- one row

// Replaces the ends of a fact. It takes no memory.
pub(crate) fn set_ends(rows: &mut HashMap<u32, FactRow>, fact: u32, ends: Vec<NameId>)
    ensures here { fact_row_in rows.new.entries fact ≡ option_map (with_ends ends.items) (fact_row_in rows.old.entries fact) }
    ensures others { (q : ℕ) → nat_eq fact q ≡ false → fact_row_at rows.new.entries q ≡ fact_row_at rows.old.entries q }
    ensures marks { KeepsChanged rows.old.entries rows.new.entries }
{
    match rows.get_mut(&fact) {
        Some(row) => row.ends = ends,
        None => drop(ends),
    }
}

// Reserves room for one more user of a fact.
pub(crate) fn reserve_user(rows: &mut HashMap<u32, FactRow>, fact: u32) -> Result<(), Memory>
    requires { is_some (fact_row_in rows.old.entries fact) ≡ true }
    ensures ends { ends_or_none (fact_row_in rows.new.entries fact) ≡ ends_or_none (fact_row_in rows.old.entries fact) }
    ensures users { users_or_none (fact_row_in rows.new.entries fact) ≡ users_or_none (fact_row_in rows.old.entries fact) }
    ensures truth { truth_or_unknown (fact_row_in rows.new.entries fact) ≡ truth_or_unknown (fact_row_in rows.old.entries fact) }
    ensures there { is_some (fact_row_in rows.new.entries fact) ≡ is_some (fact_row_in rows.old.entries fact) }
    ensures room { OnOk result (room_or_none (fact_row_in rows.new.entries fact) ≡ true) }
    ensures others { (q : ℕ) → nat_eq fact q ≡ false → fact_row_at rows.new.entries q ≡ fact_row_at rows.old.entries q }
    ensures marks { KeepsChanged rows.old.entries rows.new.entries }
{
    match rows.get_mut(&fact) {
        Some(row) => row.reserve_user(),
        None => Ok(()),
    }
}

// Adds a user to a fact. It takes no memory.
pub(crate) fn add_user(rows: &mut HashMap<u32, FactRow>, fact: u32, ticket: u64)
    requires { (room_or_none (fact_row_in rows.old.entries fact) || ends_with ticket (users_or_none (fact_row_in rows.old.entries fact))) ≡ true }
    ensures users { users_or_none (fact_row_in rows.new.entries fact) ≡ with_last ticket (users_or_none (fact_row_in rows.old.entries fact)) }
    ensures ends { ends_or_none (fact_row_in rows.new.entries fact) ≡ ends_or_none (fact_row_in rows.old.entries fact) }
    ensures truth { truth_or_unknown (fact_row_in rows.new.entries fact) ≡ truth_or_unknown (fact_row_in rows.old.entries fact) }
    ensures there { is_some (fact_row_in rows.new.entries fact) ≡ is_some (fact_row_in rows.old.entries fact) }
    ensures others { (q : ℕ) → nat_eq fact q ≡ false → fact_row_at rows.new.entries q ≡ fact_row_at rows.old.entries q }
    ensures marks { KeepsChanged rows.old.entries rows.new.entries }
{
    match rows.get_mut(&fact) {
        Some(row) => row.add_user(ticket),
        None => {}
    }
}

// Removes a user of a fact. Returns whether none is left. It takes no memory.
pub(crate) fn remove_user(rows: &mut HashMap<u32, FactRow>, fact: u32, ticket: u64) -> bool
    requires { IsRising (users_or_none (fact_row_in rows.old.entries fact)) }
    ensures users { users_or_none (fact_row_in rows.new.entries fact) ≡ without ticket (users_or_none (fact_row_in rows.old.entries fact)) }
    ensures none { result ≡ is_empty (users_or_none (fact_row_in rows.new.entries fact)) }
    ensures ends { ends_or_none (fact_row_in rows.new.entries fact) ≡ ends_or_none (fact_row_in rows.old.entries fact) }
    ensures truth { truth_or_unknown (fact_row_in rows.new.entries fact) ≡ truth_or_unknown (fact_row_in rows.old.entries fact) }
    ensures there { is_some (fact_row_in rows.new.entries fact) ≡ is_some (fact_row_in rows.old.entries fact) }
    ensures others { (q : ℕ) → nat_eq fact q ≡ false → fact_row_at rows.new.entries q ≡ fact_row_at rows.old.entries q }
    ensures marks { KeepsChanged rows.old.entries rows.new.entries }
{
    match rows.get_mut(&fact) {
        Some(row) => row.remove_user(ticket),
        None => true,
    }
}

// Computes the truth of a fact again. Returns whether the fact has to be added to the list of changed ones. It takes no
// memory.
pub(crate) fn refresh_row(
    rows: &mut HashMap<u32, FactRow>,
    mode: Mode,
    fact: NameId,
    board: &LevelBoard,
) -> bool
    ensures here { fact_row_at rows.new.entries fact.0 ≡ option_map (λ r. fact_row_with (truth_at_ends board.now (leads_by mode fact.0 r.ends.items)) r) (fact_row_at rows.old.entries fact.0) }
    ensures others { (q : ℕ) → nat_eq fact.0 q ≡ false → fact_row_at rows.new.entries q ≡ fact_row_at rows.old.entries q }
    ensures news { result ≡ option_map_or (λ r. is_news (truth_at_ends board.now (leads_by mode fact.0 r.ends.items)) r) (fact_row_at rows.old.entries fact.0) false }
    ensures many { unchanged rows.new.entries + count_if result ≡ unchanged rows.old.entries }
{
    match rows.get_mut(&fact.0) {
        Some(row) => row.refresh(mode, fact, board),
        None => false,
    }
}

// Clears the flag that a fact is in the list of changed ones.
pub(crate) fn clear_row(rows: &mut HashMap<u32, FactRow>, fact: u32)
    ensures here { fact_row_in rows.new.entries fact ≡ fact_row_in rows.old.entries fact }
    ensures unchanged { is_changed (fact_row_at rows.new.entries fact) ≡ false }
    ensures others { (q : ℕ) → nat_eq fact q ≡ false → fact_row_at rows.new.entries q ≡ fact_row_at rows.old.entries q }
    ensures many { unchanged rows.new.entries ≤ unchanged rows.old.entries + 1 }
{
    if let Some(row) = rows.get_mut(&fact) {
        row.clear();
    }
}
