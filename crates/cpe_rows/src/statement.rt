// Statements (NIST IR 7698).
ghost use Rattle.std.specs.Prelude.{◌≡◌, IfOk};

use crate::test::Test;
use crate::text::Text;
use cpe_values::Memory;
use std::alloc::Global;

/// How the facts of a statement are compared with items.
#[derive(Debug, Clone, Copy, PartialEq, Eq)]
pub enum Mode {
    /// The names of facts and items are compared as they are.
    Plain,
    /// The ends of the names' chains are compared.
    Follow,
}

/// A statement: a test whose truth is the statement's verdict.
#[derive(Debug, Drop)]
pub struct Statement {
    /// The id of the statement: 1 to 256 visible ASCII characters.
    pub id: Text,
    /// A title for readers, perhaps empty.
    pub title: Text,
    /// How the facts of the statement are compared with items.
    pub mode: Mode,
    /// A logical test of at most 32 levels. Each logical test in it has a child.
    pub test: Test,
}

impl Statement {
    /// A copy of the statement.
    ///
    /// # Errors
    /// Only if memory runs out.
    pub fn copy(&self, alloc: Global) -> Result<Statement, Memory>
        ensures { IfOk result (λ s. s ≡ self.now) }
    {
        let test = self.test.copy(alloc)?;
        Ok(Statement {
            id: self.id.copy(alloc)?,
            title: self.title.copy(alloc)?,
            mode: self.mode,
            test,
        })
    }
}
