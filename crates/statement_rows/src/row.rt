// The row of a statement, and what changes it.

use crate::by_result::ByResult;
use cpe_rows::{Statement, Truth};
use name_index::NameId;
use ticket_list::{Change, Ticketed};

// A statement, and the numbers of its fact references in the order of its test.
#[derive(Drop)]
pub(crate) struct NumberedStatement {
    pub(crate) statement: Statement,
    pub(crate) ids: Vec<NameId>,
}

// A statement with its ticket and its verdicts. Tickets rise from row to row.
#[derive(Drop)]
pub(crate) struct JudgedRow {
    pub(crate) ticket: u64,
    pub(crate) verdict: Truth,
    // The verdict that callers know.
    pub(crate) known: Truth,
    // Whether the test asks for one check alone.
    pub(crate) alone: bool,
    // The verdict for each result of that check, so that a new result needs no look at the test.
    pub(crate) by_result: ByResult,
    pub(crate) numbered: Box<NumberedStatement>,
}

// Why rows are judged.
#[derive(Clone, Copy)]
pub(crate) enum Cause {
    // A fact that they use has another truth.
    Fact,
    // The check for which they ask has this result.
    Check(Truth),
}

impl Ticketed for JudgedRow {
    ghost ticket_of = { λ r. r.ticket };

    fn ticket(&self) -> u64 {
        self.ticket
    }
}

// A new verdict, and new verdicts for each result of the check.
#[derive(Drop)]
pub(crate) struct Refresh {
    pub(crate) verdict: Truth,
    pub(crate) by_result: ByResult,
}

impl Change<JudgedRow> for Refresh {
    ghost changed = { λ refresh r. record r { verdict = refresh.verdict; by_result = refresh.by_result } };

    fn change(&self, row: &mut JudgedRow) {
        row.verdict = self.verdict;
        row.by_result = self.by_result;
    }
}

// Makes the verdict the known one.
#[derive(Drop)]
pub(crate) struct KnownVerdict;

impl Change<JudgedRow> for KnownVerdict {
    ghost use Rattle.statement_rows.specs.Rows.{forget_change};

    ghost changed = { λ known_verdict r. forget_change r };

    fn change(&self, row: &mut JudgedRow) {
        row.known = row.verdict;
    }
}
