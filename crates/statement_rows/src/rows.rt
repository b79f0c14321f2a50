// The rows of statements, and which of them are changed.
ghost use Rattle.std.specs.Prelude.{◌≡◌, ◌<◌, ◌+◌, ◌++◌, [], cond, map, drop, false, not, length, slice_get, take, vec_capacity, option_map};
ghost use Rattle.cpe_rows.specs.Truth.{same_truth};
ghost use Rattle.check_results.specs.ticket_list.Rising.{IsRising, IsRisingBy};
ghost use Rattle.statement_rows.specs.declared.row.Cause.TheVariants.{Check};
ghost use Rattle.statement_rows.specs.Invariant.{IsNoted};
ghost use Rattle.statement_rows.specs.Rows.{after_move, at_rows, at_ticket, by_result_after, each_verdict, forget_change, is_changed, judge_row, ticket_place_in, ticket_of, statement_tickets, verdict_after, verdict_by};
ghost use Rattle.statement_rows.specs.Tickets.{without_if};

use crate::by_result::{ByResult, test_truths};
use crate::row::{Cause, JudgedRow, KnownVerdict, NumberedStatement, Refresh};
use crate::truths::{FactTruth, test_truth};
use check_results::Checks;
use cpe_rows::Truth;
use ticket_list::{TicketList, add_ticket, remove_ticket};

// The place of the row of a ticket, from 0. There is none exactly if no row has the ticket.
pub(crate) fn place_of(rows: &TicketList<JudgedRow>, ticket: u64) -> Option<usize>
    ensures { result ≡ ticket_place_in ticket rows.now.items }
{
    rows.place_of(ticket)
}

// Removes the row at a place. Takes no memory.
pub(crate) fn take_row(rows: &mut TicketList<JudgedRow>, place: usize) -> Option<JudgedRow>
    requires rising { IsRisingBy ticket_of rows.old.items }
    requires place { place < length rows.old.items }
    ensures row { result ≡ slice_get rows.old.items place }
    ensures rows { rows.new.items ≡ take place rows.old.items ++ drop (place + 1) rows.old.items }
{
    match ticket_at(rows, place) {
        Some(ticket) => rows.remove(ticket),
        None => None,
    }
}

fn ticket_at(rows: &TicketList<JudgedRow>, place: usize) -> Option<u64>
    ensures { result ≡ option_map ticket_of (slice_get rows.now.items place) }
{
    match rows.at(place) {
        Some(row) => Some(row.ticket),
        None => None,
    }
}

// Whether two truths differ.
pub(crate) fn differ(a: Truth, b: Truth) -> bool
    ensures { result ≡ not (same_truth a b) }
{
    match (a, b) {
        (Truth::True, Truth::True) => false,
        (Truth::False, Truth::False) => false,
        (Truth::Error, Truth::Error) => false,
        (Truth::Unknown, Truth::Unknown) => false,
        _ => true,
    }
}

// The verdict of a statement: the truth of its test, by the truths of its facts and the results of checks.
pub(crate) fn verdict_of<T: FactTruth>(
    numbered: &NumberedStatement,
    facts: &T,
    results: &Checks,
) -> Truth
    ensures { result ≡ verdict_by (T.fact_truth facts.now) results.now.list numbered.now.statement numbered.now.ids.items }
{
    test_truth(
        &numbered.statement.test,
        &numbered.ids,
        numbered.statement.mode,
        facts,
        results,
    )
    .truth
}

// The verdicts of a statement for each result of its check, if it asks for one alone; or else those that it had.
pub(crate) fn by_result_of<T: FactTruth>(
    alone: bool,
    before: ByResult,
    numbered: &NumberedStatement,
    facts: &T,
) -> ByResult
    ensures { result ≡ cond alone (each_verdict (T.fact_truth facts.now) numbered.now.statement numbered.now.ids.items) before }
{
    if alone {
        verdicts_of(numbered, facts)
    } else {
        before
    }
}

fn verdicts_of<T: FactTruth>(numbered: &NumberedStatement, facts: &T) -> ByResult
    ensures { result ≡ each_verdict (T.fact_truth facts.now) numbered.now.statement numbered.now.ids.items }
{
    test_truths(
        &numbered.statement.test,
        &numbered.ids,
        numbered.statement.mode,
        facts,
    )
    .truths
}

// The verdict of a row whose check has this result.
fn verdict_at<T: FactTruth>(row: &JudgedRow, truth: Truth, facts: &T, results: &Checks) -> Truth
    ensures { result ≡ verdict_after (Check truth) (T.fact_truth facts.now) results.now.list row.now }
{
    if row.alone {
        row.by_result.at(truth)
    } else {
        verdict_of(&row.numbered, facts, results)
    }
}

// What a refresh makes of a row.
fn refresh_of<T: FactTruth>(row: &JudgedRow, cause: Cause, facts: &T, results: &Checks) -> Refresh
    ensures verdict { result.verdict ≡ verdict_after cause (T.fact_truth facts.now) results.now.list row.now }
    ensures by_result { result.by_result ≡ by_result_after cause (T.fact_truth facts.now) row.now }
{
    match cause {
        Cause::Fact => Refresh {
            verdict: verdict_of(&row.numbered, facts, results),
            by_result: by_result_of(row.alone, row.by_result, &row.numbered, facts),
        },
        Cause::Check(truth) => Refresh {
            verdict: verdict_at(row, truth, facts, results),
            by_result: row.by_result,
        },
    }
}

// Adds or removes the ticket of a row that was changed `before` or not, and is changed `after` or not.
fn move_ticket(changed: &mut Vec<u64>, ticket: u64, before: bool, after: bool)
    requires rising { IsRising changed.old.items }
    requires room { before ≡ false → length changed.old.items < vec_capacity changed.old }
    ensures items { changed.new.items ≡ after_move before after ticket changed.old.items }
    ensures capacity { vec_capacity changed.new ≡ vec_capacity changed.old }
{
    match (before, after) {
        (false, true) => add_ticket(changed, ticket),
        (true, false) => remove_ticket(changed, ticket),
        _ => (),
    }
}

// Judges the row of a ticket.
fn refresh_row<T: FactTruth>(
    rows: &mut TicketList<JudgedRow>,
    changed: &mut Vec<u64>,
    ticket: u64,
    cause: Cause,
    facts: &T,
    results: &Checks,
)
    requires { IsNoted rows.old.items changed.old }
    ensures rows { rows.new.items ≡ at_ticket ticket (judge_row cause (T.fact_truth facts.now) results.now.list) rows.old.items }
    ensures ready { rows.new.ready ≡ rows.old.ready }
    ensures changed { changed.new.items ≡ statement_tickets is_changed rows.new.items }
    ensures capacity { vec_capacity changed.new ≡ vec_capacity changed.old }
{
    if let Some(row) = rows.find(ticket) {
        let next = refresh_of(row, cause, facts, results);
        let before = differ(row.verdict, row.known);
        let after = differ(next.verdict, row.known);
        rows.change(ticket, &next);
        move_ticket(changed, ticket, before, after);
    }
}

// Judges the rows of these tickets, and no others. Before and after, `changed` has the tickets of the rows whose
// verdict differs from the known one. Takes no memory.
pub(crate) fn refresh_rows<T: FactTruth>(
    rows: &mut TicketList<JudgedRow>,
    changed: &mut Vec<u64>,
    list: &[u64],
    cause: Cause,
    facts: &T,
    results: &Checks,
)
    requires { IsNoted rows.old.items changed.old }
    ensures rows { rows.new.items ≡ at_rows list.now (judge_row cause (T.fact_truth facts.now) results.now.list) rows.old.items }
    ensures ready { rows.new.ready ≡ rows.old.ready }
    ensures changed { changed.new.items ≡ statement_tickets is_changed rows.new.items }
    ensures capacity { vec_capacity changed.new ≡ vec_capacity changed.old }
{
    for ticket in list {
        refresh_row(rows, changed, *ticket, cause, facts, results);
    }
}

// Makes the verdict of the row of a ticket the known one.
fn forget_one(rows: &mut TicketList<JudgedRow>, ticket: u64)
    ensures rows { rows.new.items ≡ at_ticket ticket forget_change rows.old.items }
    ensures ready { rows.new.ready ≡ rows.old.ready }
{
    rows.change(ticket, &KnownVerdict);
}

fn forget_each(rows: &mut TicketList<JudgedRow>, list: &[u64])
    ensures rows { rows.new.items ≡ at_rows list.now forget_change rows.old.items }
    ensures ready { rows.new.ready ≡ rows.old.ready }
{
    for ticket in list {
        forget_one(rows, *ticket);
    }
}

// Makes each verdict the known one. Looks at the changed rows alone, and takes no memory.
pub(crate) fn forget_changes(rows: &mut TicketList<JudgedRow>, changed: &mut Vec<u64>)
    requires { changed.old.items ≡ statement_tickets is_changed rows.old.items }
    ensures rows { rows.new.items ≡ map forget_change rows.old.items }
    ensures ready { rows.new.ready ≡ rows.old.ready }
    ensures changed { changed.new.items ≡ [] }
    ensures capacity { vec_capacity changed.new ≡ vec_capacity changed.old }
{
    forget_each(rows, changed);
    changed.clear();
}

// Removes the ticket of a row from those of the changed rows.
pub(crate) fn remove_changed(changed: &mut Vec<u64>, row: &JudgedRow)
    requires { IsRising changed.old.items }
    ensures items { changed.new.items ≡ without_if (is_changed row.now) row.now.ticket changed.old.items }
    ensures capacity { vec_capacity changed.new ≡ vec_capacity changed.old }
{
    if differ(row.verdict, row.known) {
        remove_ticket(changed, row.ticket);
    }
}
