// A statement for which all memory is taken.
ghost use Rattle.std.specs.Prelude.{◌≡◌};

use crate::row::NumberedStatement;
use cpe_rows::{Mode, Text};
use name_index::NameId;

/// A statement for which all memory is taken. It has to be added, since it is no `Drop`.
pub struct ReadyStatement {
    pub(crate) numbered: Box<NumberedStatement>,
    // A copy of its id.
    pub(crate) id: Text,
    pub(crate) ticket: u64,
}

impl ReadyStatement {
    /// The mode of the statement.
    pub fn mode(&self) -> Mode
        ensures { result ≡ self.now.numbered.value.statement.mode }
    {
        self.numbered.statement.mode
    }

    /// The numbers of its fact references, in the order of its test.
    pub fn ids(&self) -> &[NameId]
        ensures { result.now ≡ self.now.numbered.value.ids.items }
    {
        &self.numbered.ids
    }

    /// The ticket that the statement will have.
    pub fn ticket(&self) -> u64
        ensures { result ≡ self.now.ticket }
    {
        self.ticket
    }
}
