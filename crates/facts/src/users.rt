// A statement begins to use facts, or ends it.
ghost use Rattle.std.specs.Prelude.{◌≡◌, ◌||◌, ℕ, [], false, true};
ghost use Rattle.fact_rows.specs.ticket_list.Rising.{IsRising};
ghost use Rattle.fact_rows.specs.Facts.{FactTable, has_end_of_fact, has_fact_room, is_fact, users_of};
ghost use Rattle.fact_rows.specs.Calls.{Refreshed};
ghost use Rattle.fact_rows.specs.ticket_list.Tickets.{ends_with};
ghost use Rattle.facts.specs.Calls.{FactsRemoved, UsersAdded, UsersRemoved};
ghost use Rattle.facts.specs.Room.{UsersReserved};

use cpe_rows::{Memory, Mode};
use fact_boards::LevelBoard;
use fact_rows::FactRows;
use name_index::NameId;

// Adds a ticket to these facts, each of which has room for it.
fn add_users(facts: &mut FactRows, ids: &[NameId], ticket: u64)
    requires { (q : ℕ) → has_end_of_fact ids.now q ≡ true → (has_fact_room facts.old q || ends_with ticket (users_of facts.old q)) ≡ true }
    ensures added { UsersAdded facts.old facts.new (has_end_of_fact ids.now) ticket }
    ensures changed { facts.new.changed ≡ facts.old.changed }
{
    for id in ids {
        facts.add_user(*id, ticket);
    }
}

// Adds a ticket to these facts, and computes the truths of the fresh ones.
pub(crate) fn add_statement_users(
    facts: &mut FactRows,
    board: &LevelBoard,
    mode: Mode,
    ids: &[NameId],
    fresh: &[NameId],
    ticket: u64,
)
    requires { (q : ℕ) → has_end_of_fact ids.now q ≡ true → (has_fact_room facts.old q || ends_with ticket (users_of facts.old q)) ≡ true }
    ensures { (mid : FactTable) × UsersAdded facts.old mid (has_end_of_fact ids.now) ticket × (mid.changed ≡ facts.old.changed) × Refreshed mid facts.new (has_end_of_fact fresh.now) mode board.now }
{
    add_users(facts, ids, ticket);
    facts.refresh_facts(mode, fresh, board);
}

// Reserves room for one more user of each of these facts.
pub(crate) fn reserve_users(facts: &mut FactRows, ids: &[NameId]) -> Result<(), Memory>
    requires { (q : ℕ) → has_end_of_fact ids.now q ≡ true → is_fact facts.old q ≡ true }
    ensures { UsersReserved facts.old facts.new ids.now result }
{
    for id in ids {
        facts.reserve_user(*id)?;
    }
    Ok(())
}

// Removes a ticket from these facts.
fn remove_users(facts: &mut FactRows, ids: &[NameId], ticket: u64)
    requires { (q : ℕ) → IsRising (users_of facts.old q) }
    ensures less { UsersRemoved facts.old facts.new (has_end_of_fact ids.now) ticket }
    ensures changed { facts.new.changed ≡ facts.old.changed }
{
    for id in ids {
        facts.remove_user(*id, ticket);
    }
}

// Removes these facts, none of which is a changed one.
pub(crate) fn remove_facts(facts: &mut FactRows, last: &[NameId])
    requires { (q : ℕ) → has_end_of_fact last.now q ≡ true → has_end_of_fact facts.old.changed q ≡ false }
    ensures removed { FactsRemoved facts.old facts.new (has_end_of_fact last.now) }
    ensures changed { facts.new.changed ≡ facts.old.changed }
{
    for fact in last {
        facts.remove_fact(*fact);
    }
}

// Removes a ticket from these facts, and then the last of them.
pub(crate) fn remove_statement_users(
    facts: &mut FactRows,
    ids: &[NameId],
    last: &[NameId],
    ticket: u64,
)
    requires rising { (q : ℕ) → IsRising (users_of facts.old q) }
    requires unchanged { facts.old.changed ≡ [] }
    ensures left { (mid : FactTable) × UsersRemoved facts.old mid (has_end_of_fact ids.now) ticket × FactsRemoved mid facts.new (has_end_of_fact last.now) }
    ensures changed { facts.new.changed ≡ [] }
{
    remove_users(facts, ids, ticket);
    remove_facts(facts, last);
}
