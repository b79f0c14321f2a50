// The tickets of statements by their ids.
ghost use Rattle.std.specs.Prelude.{◌≡◌, ◌<◌, ℕ, List, cond, None, Some};
ghost use Rattle.std.specs.HashMap.{spare};
ghost use Rattle.std.specs.Map.{lookup};
ghost use Rattle.std.specs.Str.{bytes_eq};
ghost use Rattle.check_results.specs.Results.{one_or_none};
ghost use Rattle.statement_rows.specs.Rows.{has_row_id, ticket_of, statement_tickets};
ghost use Rattle.statement_rows.specs.Tickets.{first_place};
ghost use Rattle.check_results.specs.ticket_list.Rising.{IsRisingBy};

use crate::row::JudgedRow;
use crate::rows::place_of;
use cpe_rows::Text;
use std::collections::HashMap;
use ticket_list::TicketList;

// The place of the row of an id, from 0.
pub(crate) fn place_by_id(
    rows: &TicketList<JudgedRow>,
    by_id: &HashMap<Text, u64>,
    id: &Text,
) -> Option<usize>
    requires rising { IsRisingBy ticket_of rows.now.items }
    requires ids { one_or_none (lookup (bytes_eq id.now) by_id.now.entries) ≡ statement_tickets (has_row_id id.now) rows.now.items }
    ensures { result ≡ first_place (has_row_id id.now) rows.now.items }
{
    match by_id.get(id) {
        Some(ticket) => place_of(rows, *ticket),
        None => None,
    }
}

pub(crate) fn insert_id(by_id: &mut HashMap<Text, u64>, id: Text, ticket: u64)
    requires { 0 < spare by_id.old }
    ensures { (q : List ℕ) → lookup (bytes_eq q) by_id.new.entries ≡ cond (bytes_eq id q) (Some ticket) (lookup (bytes_eq q) by_id.old.entries) }
{
    match by_id.insert(id, ticket) {
        Ok(_) => (),
        Err(_) => unreachable!(),
    }
}

pub(crate) fn remove_id(by_id: &mut HashMap<Text, u64>, id: &Text)
    ensures { (q : List ℕ) → lookup (bytes_eq q) by_id.new.entries ≡ cond (bytes_eq id.now q) None (lookup (bytes_eq q) by_id.old.entries) }
{
    let _ = by_id.remove(id);
}
