// The facts that a removed statement used.
ghost use Rattle.std.specs.Prelude.{◌≡◌};
ghost use Rattle.statement_rows.specs.State.{use_in, use_of, view_of};

use crate::row::{JudgedRow, NumberedStatement};
use cpe_rows::{Mode, Statement};
use name_index::NameId;

/// The facts that a removed statement used, with its ticket.
#[derive(Drop)]
pub struct FactUse {
    /// The mode of the statement.
    pub mode: Mode,
    /// The numbers of its fact references, in the order of its test.
    pub ids: Vec<NameId>,
    /// Its ticket.
    pub ticket: u64,
}

// The facts that the statement of a row uses.
pub(crate) fn into_use(row: JudgedRow) -> FactUse
    ensures { use_in result ≡ use_of (view_of row) }
{
    let ticket = row.ticket;
    let numbered = Box::into_inner(row.numbered);
    numbered_use(numbered, ticket)
}

fn numbered_use(numbered: NumberedStatement, ticket: u64) -> FactUse
    ensures { use_in result ≡ (numbered.statement.mode, numbered.ids.items, ticket) }
{
    let NumberedStatement { statement, ids } = numbered;
    let mode = mode_of(statement);
    FactUse { mode, ids, ticket }
}

fn mode_of(statement: Statement) -> Mode
    ensures { result ≡ statement.mode }
{
    statement.mode
}
