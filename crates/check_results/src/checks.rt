// The kept results of checks.
ghost use Rattle.std.specs.Prelude.{◌≡◌, ◌<◌, ◌++◌, ◌∷◌, [], true, cond, find, map, Some, None, IfOk, OnOk, length, option_map, slice_get};
ghost use Rattle.std.specs.Bool.{OnFalse};
ghost use Rattle.std.specs.HashMap.{spare};
ghost use Rattle.std.specs.List.{list_any};
ghost use Rattle.std.specs.Map.{lookup};
ghost use Rattle.std.specs.Option.{option_map_or};
ghost use Rattle.cpe_rows.specs.Prelude.{has_key, same_key, with_check, without_first};
ghost use Rattle.cpe_rows.specs.declared.test.CheckKey.{CheckKey};
ghost use Rattle.cpe_rows.specs.declared.truth.Truth.TheVariants.{Unknown};
ghost use Rattle.ticket_list.specs.Rising.{IsRisingBy};
ghost use Rattle.ticket_list.specs.TicketList.{has_ticket, with_change, without_ticket};
ghost use Rattle.check_results.specs.Kept.{kept_truth};
ghost use Rattle.check_results.specs.Results.{AreLawfulResults, IsReadyCheck, has_result_room, retold, seen, result_ticket};

use crate::kept::{ResultRow, SetTruth};
use crate::ready_result::ReadyResult;
use cpe_rows::{CheckKey, Memory, Truth};
use std::alloc::Global;
use std::collections::HashMap;
use std::marker::Model;
use ticket_list::TicketList;

/// The kept results of checks, in the order in which their keys were added. Contracts see the list of the keys, each
/// with its result, and whether there is room for one more.
#[derive(Drop)]
pub struct Checks {
    alloc: Global,
    results: TicketList<ResultRow>,
    // The ticket of each key's result.
    by_key: HashMap<CheckKey, u64>,
    next: u64,
}

impl Model for Checks {
    ghost use Rattle.std.specs.Prelude.{map};
    ghost use Rattle.std.specs.HashMap.{spare};
    ghost use Rattle.check_results.specs.Results.{AreLawfulResults, ChecksNow, has_result_room, seen};

    ghost Value = { ChecksNow };

    ghost view = { λ c. record { list = map seen c.results.items; ready = has_result_room c.results.ready (spare c.by_key) c.next } };

    ghost invariant = { λ c. AreLawfulResults c.results.items c.by_key.entries c.next };
}

impl Checks {
    /// No results. Allocates: no.
    pub fn new(alloc: Global) -> Checks
        ensures { result.list ≡ [] }
    {
        Checks {
            alloc,
            results: TicketList::new(alloc),
            by_key: HashMap::new(alloc),
            next: 0,
        }
    }

    /// The number of keys for which a result is kept.
    pub fn len(&self) -> usize
        ensures { result ≡ length self.now.list }
    {
        self.results.len()
    }

    /// The key at a place from 0, with its result. None exactly if the place is the number of keys or more.
    pub fn at(&self, place: usize) -> Option<(&CheckKey, Truth)>
        ensures { option_map (λ p. (p.0.now, p.1)) result ≡ slice_get self.now.list place }
    {
        match self.results.at(place) {
            Some(kept) => Some((&kept.key, kept.truth)),
            None => None,
        }
    }

    /// Whether a result is kept for the key.
    pub fn has(&self, key: &CheckKey) -> bool
        ensures { result ≡ list_any (has_key key.now) self.now.list }
    {
        self.by_key.contains_key(key)
    }

    /// A ready key: all memory to keep a result for it is allocated. The results are unchanged.
    ///
    /// # Errors
    /// Only if memory runs out.
    pub fn reserve(&mut self, key: CheckKey) -> Result<ReadyResult, Memory>
        ensures list { self.new.list ≡ self.old.list }
        ensures ok { IfOk result (IsReadyCheck self.new key) }
    {
        if self.has(&key) {
            Ok(ReadyResult { key, copy: None })
        } else {
            ready_new(
                &mut self.results,
                &mut self.by_key,
                self.next,
                self.alloc,
                key,
            )
        }
    }

    /// Keeps a result for a ready key. The result replaces the key's earlier result, or is appended if there is none.
    /// Allocates: no.
    pub fn set(&mut self, ready: ReadyResult, truth: Truth)
        requires { (k : CheckKey) × IsReadyCheck self.old k ready }
        ensures { (k : CheckKey) → IsReadyCheck self.old k ready → self.new.list ≡ with_check k truth self.old.list }
    {
        let ReadyResult { key, copy } = ready;
        match ticket_by(&self.by_key, &key) {
            Some(ticket) => {
                drop(key);
                drop(copy);
                change_truth(&mut self.results, ticket, truth);
            }
            None => put_new(
                &mut self.results,
                &mut self.by_key,
                &mut self.next,
                key,
                copy,
                truth,
            ),
        }
    }

    /// Removes the result of a key, and returns whether there was one. On average this moves few other results, for any
    /// number of results.
    pub fn remove(&mut self, key: &CheckKey) -> bool
        ensures found { result ≡ list_any (has_key key.now) self.old.list }
        ensures results { self.new.list ≡ without_first (has_key key.now) self.old.list }
        ensures unchanged { OnFalse result (self.new.list ≡ self.old.list) }
    {
        match forget(&mut self.by_key, key) {
            Some(ticket) => {
                take_out(&mut self.results, ticket);
                true
            }
            None => false,
        }
    }

    /// The truth of a check: the result that is kept for its key, or UNKNOWN if there is none. Allocates: no.
    pub fn truth(&self, key: &CheckKey) -> Truth
        ensures { result ≡ kept_truth self.now.list key.now }
    {
        match ticket_by(&self.by_key, key) {
            Some(ticket) => truth_of(&self.results, ticket),
            None => Truth::Unknown,
        }
    }
}

fn ticket_by(by_key: &HashMap<CheckKey, u64>, key: &CheckKey) -> Option<u64>
    ensures { result ≡ lookup (same_key key.now) by_key.now.entries }
{
    by_key.get(key).copied()
}

// The truth of the result with this ticket.
fn truth_of(results: &TicketList<ResultRow>, ticket: u64) -> Truth
    ensures rising { IsRisingBy result_ticket results.now.items }
    ensures truth { result ≡ option_map_or (λ r. r.truth) (find (has_ticket result_ticket ticket) results.now.items) Unknown }
{
    results.lawful();
    match results.find(ticket) {
        Some(kept) => kept.truth,
        None => Truth::Unknown,
    }
}

fn change_truth(results: &mut TicketList<ResultRow>, ticket: u64, truth: Truth)
    ensures rising { IsRisingBy result_ticket results.old.items }
    ensures results { results.new.items ≡ with_change result_ticket ticket (retold truth) results.old.items }
{
    results.lawful();
    results.change(ticket, &SetTruth { truth });
}

// Removes the result with this ticket.
fn take_out(results: &mut TicketList<ResultRow>, ticket: u64)
    ensures rising { IsRisingBy result_ticket results.old.items }
    ensures results { results.new.items ≡ without_ticket result_ticket ticket results.old.items }
{
    results.lawful();
    drop(results.remove(ticket));
}

fn forget(by_key: &mut HashMap<CheckKey, u64>, key: &CheckKey) -> Option<u64>
    ensures ticket { result ≡ lookup (same_key key.now) by_key.old.entries }
    ensures left { (q : CheckKey) → lookup (same_key q) by_key.new.entries ≡ cond (same_key key.now q) None (lookup (same_key q) by_key.old.entries) }
{
    by_key.remove(key)
}

// Appends a result for a new key.
fn put_new(
    results: &mut TicketList<ResultRow>,
    by_key: &mut HashMap<CheckKey, u64>,
    next: &mut u64,
    key: CheckKey,
    copy: Option<CheckKey>,
    truth: Truth,
)
    requires kept { AreLawfulResults results.old.items by_key.old.entries next.old }
    requires new { lookup (same_key key) by_key.old.entries ≡ None }
    requires copy { copy ≡ Some key }
    requires room { has_result_room results.old.ready (spare by_key.old) next.old ≡ true }
    ensures kept { AreLawfulResults results.new.items by_key.new.entries next.new }
    ensures results { map seen results.new.items ≡ map seen results.old.items ++ (key, truth) ∷ [] }
{
    insert_key(by_key, copy_in(copy), *next);
    results.push(ResultRow {
        ticket: *next,
        key,
        truth,
    });
    *next += 1;
}

fn copy_in(copy: Option<CheckKey>) -> CheckKey
    requires { (k : CheckKey) × (copy ≡ Some k) }
    ensures { Some result ≡ copy }
{
    match copy {
        Some(copy) => copy,
        None => unreachable!(),
    }
}

// Makes a new key ready: allocates all memory for its result.
fn ready_new(
    results: &mut TicketList<ResultRow>,
    by_key: &mut HashMap<CheckKey, u64>,
    next: u64,
    alloc: Global,
    key: CheckKey,
) -> Result<ReadyResult, Memory>
    ensures key { IfOk result (λ r. r.key ≡ key) }
    ensures copy { IfOk result (λ r. r.copy ≡ Some key) }
    ensures room { OnOk result (has_result_room results.new.ready (spare by_key.new) next ≡ true) }
    ensures results { results.new.items ≡ results.old.items }
    ensures tickets { (q : CheckKey) → lookup (same_key q) by_key.new.entries ≡ lookup (same_key q) by_key.old.entries }
{
    match make_room(results, by_key, next, alloc, &key) {
        Ok(copy) => Ok(ReadyResult {
            key,
            copy: Some(copy),
        }),
        Err(memory) => {
            drop(key);
            Err(memory)
        }
    }
}

// Makes room for a result with the next ticket, and copies its key.
fn make_room(
    results: &mut TicketList<ResultRow>,
    by_key: &mut HashMap<CheckKey, u64>,
    next: u64,
    alloc: Global,
    key: &CheckKey,
) -> Result<CheckKey, Memory>
    ensures key { IfOk result (λ k. k ≡ key.now) }
    ensures room { OnOk result (has_result_room results.new.ready (spare by_key.new) next ≡ true) }
    ensures results { results.new.items ≡ results.old.items }
    ensures tickets { (q : CheckKey) → lookup (same_key q) by_key.new.entries ≡ lookup (same_key q) by_key.old.entries }
{
    if next == u64::MAX {
        return Err(Memory);
    }
    results.reserve()?;
    by_key.reserve(1)?;
    key.copy(alloc)
}

fn insert_key(by_key: &mut HashMap<CheckKey, u64>, key: CheckKey, ticket: u64)
    requires { 0 < spare by_key.old }
    ensures { (q : CheckKey) → lookup (same_key q) by_key.new.entries ≡ cond (same_key key q) (Some ticket) (lookup (same_key q) by_key.old.entries) }
{
    match by_key.insert(key, ticket) {
        Ok(_) => (),
        Err(_) => unreachable!(),
    }
}
