// The tickets of the statements that ask for a check.
ghost use Rattle.std.specs.Prelude.{◌≡◌, [], false, true, None, OnOk, length, nat_lt, vec_capacity};
ghost use Rattle.std.specs.Bool.{OnTrue};
ghost use Rattle.cpe_rows.specs.Rows.{same_key};
ghost use Rattle.cpe_rows.specs.declared.test.CheckKey.{CheckKey};
ghost use Rattle.statement_rows.specs.Askers.{AreAskers, HasPlace, IsAsked, askers_at, asker_list_at, may_enter, trim_list, trim_list_if};
ghost use Rattle.statement_rows.specs.Readings.{check_keys, is_asked};
ghost use Rattle.statement_rows.specs.Tickets.{with_last_if, without_if};
ghost use Rattle.ticket_list.specs.Tickets.{is_empty, with_last, without};
ghost use Rattle.check_results.specs.ticket_list.Rising.{IsRising};

use cpe_rows::{CheckKey, Memory, Test};
use std::alloc::Global;
use std::collections::HashMap;
use ticket_list::{append_ticket, remove_ticket};

// The tickets that ask for a check, rising.
pub(crate) fn askers_of<'a>(askers: &'a HashMap<CheckKey, Vec<u64>>, key: &CheckKey) -> &'a [u64]
    ensures { result.now ≡ askers_at askers.now.entries key.now }
{
    match askers.get(key) {
        Some(list) => list.as_slice(),
        None => &[],
    }
}

// ---- what takes memory

// Makes room for one more ticket that asks for a check.
//
// # Errors
// Only that memory ran out.
fn reserve(
    askers: &mut HashMap<CheckKey, Vec<u64>>,
    alloc: Global,
    key: &CheckKey,
) -> Result<(), Memory>
    ensures place { OnOk result (HasPlace askers.new.entries key.now) }
    ensures tickets { askers_at askers.new.entries key.now ≡ askers_at askers.old.entries key.now }
    ensures others { (q : CheckKey) → same_key key.now q ≡ false → asker_list_at askers.new.entries q ≡ asker_list_at askers.old.entries q }
{
    match askers.get_mut(key) {
        Some(list) => reserve_one(list),
        None => reserve_first(askers, alloc, key),
    }
}

fn reserve_one(list: &mut Vec<u64>) -> Result<(), Memory>
    ensures items { list.new.items ≡ list.old.items }
    ensures place { OnOk result (nat_lt (length list.new.items) (vec_capacity list.new) ≡ true) }
{
    match list.reserve(1) {
        Ok(()) => Ok(()),
        Err(_) => Err(Memory),
    }
}

fn reserve_first(
    askers: &mut HashMap<CheckKey, Vec<u64>>,
    alloc: Global,
    key: &CheckKey,
) -> Result<(), Memory>
    requires { asker_list_at askers.old.entries key.now ≡ None }
    ensures place { OnOk result (HasPlace askers.new.entries key.now) }
    ensures tickets { askers_at askers.new.entries key.now ≡ askers_at askers.old.entries key.now }
    ensures others { (q : CheckKey) → same_key key.now q ≡ false → asker_list_at askers.new.entries q ≡ asker_list_at askers.old.entries q }
{
    let mut list = Vec::new(alloc);
    reserve_one(&mut list)?;
    let key = key.copy(alloc)?;
    match askers.insert(key, list) {
        Ok(_) => Ok(()),
        Err(_) => Err(Memory),
    }
}

// Makes room for one more ticket that asks for the checks of a test.
//
// # Errors
// Only that memory ran out.
pub(crate) fn reserve_all(
    askers: &mut HashMap<CheckKey, Vec<u64>>,
    alloc: Global,
    test: &Test,
) -> Result<(), Memory>
    ensures places { OnOk result ((q : CheckKey) → is_asked (check_keys test.now) q ≡ true → HasPlace askers.new.entries q) }
    ensures tickets { (q : CheckKey) → askers_at askers.new.entries q ≡ askers_at askers.old.entries q }
    ensures others { (q : CheckKey) → is_asked (check_keys test.now) q ≡ false → asker_list_at askers.new.entries q ≡ asker_list_at askers.old.entries q }
{
    match test {
        Test::Logic { of, .. } => {
            for child in of.as_slice() {
                reserve_all(askers, alloc, child)?;
            }
            Ok(())
        }
        Test::Fact(_) => Ok(()),
        Test::Check(key) => reserve(askers, alloc, key),
    }
}

// ---- what takes none

// Removes the list of a check if it is empty.
fn trim(askers: &mut HashMap<CheckKey, Vec<u64>>, key: &CheckKey)
    ensures here { asker_list_at askers.new.entries key.now ≡ trim_list (asker_list_at askers.old.entries key.now) }
    ensures others { (q : CheckKey) → same_key key.now q ≡ false → asker_list_at askers.new.entries q ≡ asker_list_at askers.old.entries q }
{
    if is_unasked(askers, key) {
        drop(askers.remove(key));
    }
}

fn is_unasked(askers: &HashMap<CheckKey, Vec<u64>>, key: &CheckKey) -> bool
    ensures { result ≡ is_empty (askers_at askers.now.entries key.now) }
{
    match askers_of(askers, key) {
        [] => true,
        _ => false,
    }
}

// Removes the lists of the checks of a test that are empty. Takes no memory.
pub(crate) fn trim_all(askers: &mut HashMap<CheckKey, Vec<u64>>, test: &Test)
    ensures { (q : CheckKey) → asker_list_at askers.new.entries q ≡ trim_list_if (is_asked (check_keys test.now) q) (asker_list_at askers.old.entries q) }
{
    match test {
        Test::Logic { of, .. } => {
            for child in of.as_slice() {
                trim_all(askers, child);
            }
        }
        Test::Fact(_) => {}
        Test::Check(key) => trim(askers, key),
    }
}

// Adds a ticket as one that asks for a check, unless it is the last of these.
fn add(askers: &mut HashMap<CheckKey, Vec<u64>>, key: &CheckKey, ticket: u64)
    requires { may_enter ticket (asker_list_at askers.old.entries key.now) ≡ true }
    ensures here { askers_at askers.new.entries key.now ≡ with_last ticket (askers_at askers.old.entries key.now) }
    ensures others { (q : CheckKey) → same_key key.now q ≡ false → asker_list_at askers.new.entries q ≡ asker_list_at askers.old.entries q }
{
    match askers.get_mut(key) {
        Some(list) => append_ticket(list, ticket),
        None => {}
    }
}

// For each check in a test, appends a ticket to the list of those that ask for it, unless it is already the last one
// there. Takes no memory.
pub(crate) fn add_all(askers: &mut HashMap<CheckKey, Vec<u64>>, test: &Test, ticket: u64)
    requires { (q : CheckKey) → is_asked (check_keys test.now) q ≡ true → may_enter ticket (asker_list_at askers.old.entries q) ≡ true }
    ensures tickets { (q : CheckKey) → askers_at askers.new.entries q ≡ with_last_if (is_asked (check_keys test.now) q) ticket (askers_at askers.old.entries q) }
    ensures others { (q : CheckKey) → is_asked (check_keys test.now) q ≡ false → asker_list_at askers.new.entries q ≡ asker_list_at askers.old.entries q }
{
    match test {
        Test::Logic { of, .. } => {
            for child in of.as_slice() {
                add_all(askers, child, ticket);
            }
        }
        Test::Fact(_) => {}
        Test::Check(key) => add(askers, key, ticket),
    }
}

// Removes a ticket from those that ask for a check.
fn remove(askers: &mut HashMap<CheckKey, Vec<u64>>, key: &CheckKey, ticket: u64)
    requires { IsRising (askers_at askers.old.entries key.now) }
    ensures here { askers_at askers.new.entries key.now ≡ without ticket (askers_at askers.old.entries key.now) }
    ensures others { (q : CheckKey) → same_key key.now q ≡ false → asker_list_at askers.new.entries q ≡ asker_list_at askers.old.entries q }
    ensures list { IsAsked askers.new.entries key.now }
{
    if remove_from(askers, key, ticket) {
        drop(askers.remove(key));
    }
}

// The same, except that an empty list stays. Returns whether no ticket is left.
fn remove_from(askers: &mut HashMap<CheckKey, Vec<u64>>, key: &CheckKey, ticket: u64) -> bool
    requires { IsRising (askers_at askers.old.entries key.now) }
    ensures empty { OnTrue result (askers_at askers.new.entries key.now ≡ []) }
    ensures left { askers_at askers.new.entries key.now ≡ [] → result ≡ true }
    ensures here { askers_at askers.new.entries key.now ≡ without ticket (askers_at askers.old.entries key.now) }
    ensures others { (q : CheckKey) → same_key key.now q ≡ false → asker_list_at askers.new.entries q ≡ asker_list_at askers.old.entries q }
{
    match askers.get_mut(key) {
        Some(list) => {
            remove_ticket(list, ticket);
            list.is_empty()
        }
        None => true,
    }
}

// Removes a ticket from those that ask for the checks of a test. Takes no memory.
pub(crate) fn remove_all(askers: &mut HashMap<CheckKey, Vec<u64>>, test: &Test, ticket: u64)
    requires { (q : CheckKey) → IsRising (askers_at askers.old.entries q) }
    ensures tickets { (q : CheckKey) → askers_at askers.new.entries q ≡ without_if (is_asked (check_keys test.now) q) ticket (askers_at askers.old.entries q) }
    ensures lists { AreAskers askers.old.entries → AreAskers askers.new.entries }
{
    match test {
        Test::Logic { of, .. } => {
            for child in of.as_slice() {
                remove_all(askers, child, ticket);
            }
        }
        Test::Fact(_) => {}
        Test::Check(key) => remove(askers, key, ticket),
    }
}
