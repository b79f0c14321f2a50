// The snapshot of an engine, row by row. Each function appends to a buffer. If memory runs out, the buffer is dropped.
ghost use Rattle.std.specs.Prelude.{◌≡◌, ◌++◌, [], IfOk, IfSome, OnOk, filter_map, get_or, map, slice_get, true, None};
ghost use Rattle.std.specs.List.{AllByRecursion, flat_map, list_all, list_any};
ghost use Rattle.std.specs.Option.{option_copied, option_map_or};
ghost use Rattle.cpe_rows.specs.Lent.{entry_lent};
ghost use Rattle.cpe_rows.specs.Lawful.{has_successors};
ghost use Rattle.cpe_rows.specs.Rows.{is_named};
ghost use Rattle.cpe_rows.specs.declared.entry.Entry.{Entry as EntryRow};
ghost use Rattle.cpe_rows.specs.declared.test.CheckKey.{CheckKey as KeyRow};
ghost use Rattle.cpe_rows.specs.declared.truth.Truth.{Truth as TruthRow};
ghost use Rattle.snapshot_bytes.specs.Parts.{name};
ghost use Rattle.snapshot_bytes.specs.Snapshot.{entry_row, result_row, statement_row};
ghost use Rattle.snapshot_bytes.specs.States.{IsTextEntry, IsTextKey, IsTextStatement, entry_place_in, placed_entry, result_of, Snap, snapshot};

use crate::texts::{are_entry_texts, are_key_texts, are_statement_texts};
use cpe_engine::Engine;
use cpe_rows::{EntryRef, Memory, Wfn};
use snapshot_bytes::{push_entry, push_head, push_name, push_result, push_statement};
use std::alloc::Global;

// ---- entries

// The place of the entry of this name.
fn place_of(engine: &Engine, put: &Wfn) -> u32
    requires { list_any (is_named put.now) engine.now.entries ≡ true }
    ensures { result ≡ entry_place_in engine.now.entries put.now }
{
    snapshot_bytes::law::places_are_positions();
    match engine.place_of(put) {
        Some(place) => place,
        None => unreachable!(),
    }
}

// The places of the entries of these names.
fn places_of(alloc: Global, engine: &Engine, names: &[Wfn]) -> Result<Vec<u32>, Memory>
    requires { list_all (λ s. list_any (is_named s) engine.now.entries) names.now ≡ true }
    ensures { IfOk result (λ v. v.items ≡ map (entry_place_in engine.now.entries) names.now) }
{
    let mut places = Vec::with_capacity(alloc, names.len())?;
    for put in names {
        places.push(place_of(engine, put))?;
    }
    Ok(places)
}

// Appends an entry of the engine.
fn push_lent(
    alloc: Global,
    bytes: Vec<u8>,
    engine: &Engine,
    put: EntryRef<'_>,
) -> Result<Vec<u8>, Memory>
    requires { has_successors engine.now.entries (entry_lent put) ≡ true }
    ensures { IfOk result (λ b. b.items ≡ bytes.items ++ entry_row (placed_entry engine.now.entries (entry_lent put.entry))) }
{
    match put.deprecation {
        Some(deprecation) => {
            let places = places_of(alloc, engine, deprecation.successors.as_slice())?;
            let kind = Some(deprecation.kind);
            push_entry(bytes, put.name, put.title, put.provenance, kind, &places)
        }
        None => push_entry(bytes, put.name, put.title, put.provenance, None, &[]),
    }
}

// Appends the entry at a place, if there is one.
fn push_entry_at(
    alloc: Global,
    bytes: Vec<u8>,
    engine: &Engine,
    k: usize,
) -> Result<Vec<u8>, Memory>
    ensures written { IfOk result (λ b. b.items ≡ bytes.items ++ option_map_or (λ e. entry_row (placed_entry engine.now.entries e)) (slice_get engine.now.entries k) []) }
    ensures texts { OnOk result (IfSome (slice_get engine.now.entries k) IsTextEntry) }
{
    engine.lawful();
    match engine.entry_at(k) {
        Some(entry) => {
            are_entry_texts(entry);
            push_lent(alloc, bytes, engine, entry)
        }
        None => Ok(bytes),
    }
}

fn push_entries(alloc: Global, bytes: Vec<u8>, engine: &Engine) -> Result<Vec<u8>, Memory>
    ensures written { IfOk result (λ b. b.items ≡ bytes.items ++ flat_map (λ e. entry_row (placed_entry engine.now.entries e)) engine.now.entries) }
    ensures texts { OnOk result (AllByRecursion IsTextEntry engine.now.entries) }
{
    let mut out = bytes;
    for k in 0..engine.entries_len() {
        out = push_entry_at(alloc, out, engine, k)?;
    }
    Ok(out)
}

// ---- items

// Appends the name in a slot, if there is one.
fn push_slot(bytes: Vec<u8>, slot: Option<&Wfn>) -> Result<Vec<u8>, Memory>
    ensures { IfOk result (λ b. b.items ≡ bytes.items ++ option_map_or name (option_copied slot.entry) []) }
{
    match slot {
        Some(put) => push_name(bytes, put),
        None => Ok(bytes),
    }
}

fn push_items(bytes: Vec<u8>, engine: &Engine) -> Result<Vec<u8>, Memory>
    ensures { IfOk result (λ b. b.items ≡ bytes.items ++ flat_map name engine.now.items) }
{
    let slots = engine.item_slots();
    let mut out = bytes;
    for k in 0..slots.len() {
        out = push_slot(out, slots.at(k))?;
    }
    Ok(out)
}

// ---- statements

// Appends the statement at a place, if there is one.
fn push_statement_at(bytes: Vec<u8>, engine: &Engine, k: usize) -> Result<Vec<u8>, Memory>
    ensures written { IfOk result (λ b. b.items ≡ bytes.items ++ option_map_or statement_row (slice_get engine.now.statements k) []) }
    ensures texts { OnOk result (IfSome (slice_get engine.now.statements k) IsTextStatement) }
{
    match engine.statement_at(k) {
        Some((statement, _)) => {
            are_statement_texts(statement);
            push_statement(bytes, statement)
        }
        None => Ok(bytes),
    }
}

fn push_statements(bytes: Vec<u8>, engine: &Engine) -> Result<Vec<u8>, Memory>
    ensures written { IfOk result (λ b. b.items ≡ bytes.items ++ flat_map statement_row engine.now.statements) }
    ensures texts { OnOk result (AllByRecursion IsTextStatement engine.now.statements) }
{
    let mut out = bytes;
    for k in 0..engine.statements_len() {
        out = push_statement_at(out, engine, k)?;
    }
    Ok(out)
}

// ---- results

// Appends the result at a place, if there is one.
fn push_result_at(bytes: Vec<u8>, engine: &Engine, k: usize) -> Result<Vec<u8>, Memory>
    ensures written { IfOk result (λ b. b.items ≡ bytes.items ++ option_map_or (λ c. result_row (result_of c)) (slice_get engine.now.checks k) []) }
    ensures texts { OnOk result (IfSome (slice_get engine.now.checks k) (λ (c : KeyRow × TruthRow). IsTextKey c.0)) }
{
    match engine.check_at(k) {
        Some((key, truth)) => {
            are_key_texts(key);
            push_result(bytes, key, truth)
        }
        None => Ok(bytes),
    }
}

fn push_results(bytes: Vec<u8>, engine: &Engine) -> Result<Vec<u8>, Memory>
    ensures written { IfOk result (λ b. b.items ≡ bytes.items ++ flat_map (λ c. result_row (result_of c)) engine.now.checks) }
    ensures texts { OnOk result (AllByRecursion (λ (c : KeyRow × TruthRow). IsTextKey c.0) engine.now.checks) }
{
    let mut out = bytes;
    for k in 0..engine.checks_len() {
        out = push_result_at(out, engine, k)?;
    }
    Ok(out)
}

// ---- all rows

/// The snapshot of an engine. Time and memory are proportional to its length.
///
/// # Errors
/// Only that memory ran out.
pub fn write_snapshot(alloc: Global, engine: &Engine) -> Result<Vec<u8>, Memory>
    ensures written { IfOk result (λ b. b.items ≡ snapshot engine.now) }
    ensures snap { IfOk result (λ b. Snap engine.now b.items) }
{
    engine.lawful();
    snapshot_bytes::law::states_have_snapshots();
    let room = Vec::with_capacity(alloc, engine.weight() as usize + 24)?;
    let out = push_head(
        room,
        engine.entries_len(),
        engine.items_len(),
        engine.statements_len(),
        engine.checks_len(),
    )?;
    let out = push_entries(alloc, out, engine)?;
    let out = push_items(out, engine)?;
    let out = push_statements(out, engine)?;
    push_results(out, engine)
}
