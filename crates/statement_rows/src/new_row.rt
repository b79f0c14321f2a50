// The row of a new statement, and the memory for it.
ghost use Rattle.std.specs.Prelude.{◌≡◌, ◌≤◌, ℕ, List, length, nat_lt, true, IfOk, OnOk, bytes_eq, vec_capacity};
ghost use Rattle.std.specs.Map.{lookup};
ghost use Rattle.std.specs.HashMap.{spare};
ghost use Rattle.statement_rows.specs.Invariant.{new_row};
ghost use Rattle.statement_rows.specs.Room.{RowRoom, with_id};
ghost use Rattle.statement_rows.specs.State.{has_statement_room, last_statement_ticket};

use crate::askers::{reserve_all, trim_all};
use crate::by_result::{ByResult, asks_one};
use crate::ready_statement::ReadyStatement;
use crate::row::{JudgedRow, NumberedStatement};
use crate::rows::{by_result_of, verdict_of};
use crate::truths::FactTruth;
use check_results::Checks;
use cpe_rows::{CheckKey, Memory, Statement, Text};
use name_index::NameId;
use std::alloc::Global;
use std::collections::HashMap;
use ticket_list::TicketList;

// A statement, with a copy of the numbers of its fact references.
//
// # Errors
// Only that memory ran out.
pub(crate) fn with_numbers(
    alloc: Global,
    statement: Statement,
    ids: &[NameId],
) -> Result<Box<NumberedStatement>, Memory>
    ensures statement { IfOk result (λ h. h.value.statement ≡ statement) }
    ensures ids { IfOk result (λ h. h.value.ids.items ≡ ids.now) }
{
    match copy_of(alloc, ids) {
        Ok(ids) => boxed(alloc, NumberedStatement { statement, ids }),
        Err(_) => {
            drop(statement);
            Err(Memory)
        }
    }
}

fn copy_of(alloc: Global, ids: &[NameId]) -> Result<Vec<NameId>, Memory>
    ensures { IfOk result (λ v. v.items ≡ ids.now) }
{
    let mut copy = Vec::new(alloc);
    copy.extend_from_slice(ids)?;
    Ok(copy)
}

fn boxed(alloc: Global, numbered: NumberedStatement) -> Result<Box<NumberedStatement>, Memory>
    ensures { IfOk result (λ h. h.value ≡ numbered) }
{
    match Box::new(alloc, numbered) {
        Ok(numbered) => Ok(numbered),
        Err(_) => Err(Memory),
    }
}

// Makes room for a row, for its id, and for its ticket among those of the changed rows.
//
// # Errors
// Only that memory ran out.
fn reserve(
    rows: &mut TicketList<JudgedRow>,
    changed: &mut Vec<u64>,
    by_id: &mut HashMap<Text, u64>,
) -> Result<(), Memory>
    ensures rows { rows.new.items ≡ rows.old.items }
    ensures changed { changed.new.items ≡ changed.old.items }
    ensures capacity { vec_capacity changed.old ≤ vec_capacity changed.new }
    ensures ids { (q : List ℕ) → lookup (bytes_eq q) by_id.new.entries ≡ lookup (bytes_eq q) by_id.old.entries }
    ensures room { OnOk result ((next : ℕ) → nat_lt next last_statement_ticket ≡ true → has_statement_room rows.new.ready (length rows.new.items) (vec_capacity changed.new) (spare by_id.new) next ≡ true) }
{
    rows.reserve()?;
    changed.reserve(rows.len() + 1)?;
    by_id.reserve(1)?;
    Ok(())
}

// Returns a copy of the statement's id. Makes room for its row, and for its ticket as one that asks for the checks of
// its test.
//
// # Errors
// Only that memory ran out.
pub(crate) fn ready_row(
    rows: &mut TicketList<JudgedRow>,
    changed: &mut Vec<u64>,
    by_id: &mut HashMap<Text, u64>,
    askers: &mut HashMap<CheckKey, Vec<u64>>,
    alloc: Global,
    statement: &Statement,
    next: u64,
) -> Result<Text, Memory>
    ensures rows { rows.new.items ≡ rows.old.items }
    ensures changed { changed.new.items ≡ changed.old.items }
    ensures capacity { vec_capacity changed.old ≤ vec_capacity changed.new }
    ensures ids { (q : List ℕ) → lookup (bytes_eq q) by_id.new.entries ≡ lookup (bytes_eq q) by_id.old.entries }
    ensures ready { RowRoom rows.new.ready (length rows.new.items) (vec_capacity changed.new) (spare by_id.new) next statement.now askers.old.entries askers.new.entries result }
{
    if next == u64::MAX {
        return Err(Memory);
    }
    reserve(rows, changed, by_id)?;
    let id = statement.id.copy(alloc)?;
    match reserve_all(askers, alloc, &statement.test) {
        Ok(()) => Ok(id),
        Err(_) => {
            trim_all(askers, &statement.test);
            drop(id);
            Err(Memory)
        }
    }
}

// The ready statement, if there was memory for the copy of its id and for its row.
pub(crate) fn with_id(
    numbered: Box<NumberedStatement>,
    id: Result<Text, Memory>,
    ticket: u64,
) -> Result<ReadyStatement, Memory>
    ensures { result ≡ with_id numbered ticket id }
{
    match id {
        Ok(id) => Ok(ReadyStatement {
            numbered,
            id,
            ticket,
        }),
        Err(_) => {
            drop(numbered);
            Err(Memory)
        }
    }
}

// The row of a new statement, whose verdict is known.
pub(crate) fn row_of<T: FactTruth>(
    numbered: Box<NumberedStatement>,
    ticket: u64,
    facts: &T,
    results: &Checks,
) -> JudgedRow
    ensures { result ≡ new_row (T.fact_truth facts.now) results.now.list ticket numbered }
{
    let verdict = verdict_of(&numbered, facts, results);
    let alone = asks_one(&numbered.statement.test);
    let by_result = by_result_of(alone, ByResult::same(verdict), &numbered, facts);
    JudgedRow {
        ticket,
        verdict,
        known: verdict,
        alone,
        by_result,
        numbered,
    }
}
