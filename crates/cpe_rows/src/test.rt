// Tests of statements: trees of logical tests over facts and checks.
ghost use Rattle.std.specs.Prelude.{◌≡◌, ◌↔◌, IsTrue, IfOk, nat_le};
ghost use Rattle.cpe_rows.specs.Shape.{depth_of, is_sound};

use crate::boxed::BoxedName;
use crate::list::List;
use crate::names::is_lower;
use crate::text::Text;
use cpe_values::Memory;
use std::alloc::Global;

/// The operator by which a logical test joins the truths of its children (NIST IR 7698).
#[derive(Debug, Clone, Copy, PartialEq, Eq)]
pub enum Operator {
    /// Joins truths by [`and_of`](crate::and_of).
    And,
    /// Joins truths by [`or_of`](crate::or_of).
    Or,
}

/// The key of a check and of its result (NIST IR 7698): a system, a document, and an id in this document.
#[derive(Debug, PartialEq, Eq, Hash, Drop)]
pub struct CheckKey {
    /// The system that runs the check.
    pub system: Text,
    /// The address of the document that has the check.
    pub href: Text,
    /// The id of the check in the document.
    pub id: Text,
}

/// The test of a statement, or a part of it (NIST IR 7698).
#[derive(Debug, Drop)]
pub enum Test {
    /// A logical test. It joins the truths of its children. If it negates, TRUE becomes FALSE, and FALSE becomes TRUE.
    Logic {
        /// The operator that joins the truths.
        operator: Operator,
        /// Whether the joined truth is negated.
        negate: bool,
        /// The children of the test.
        of: List<Test>,
    },
    /// A fact: TRUE if the name covers an item of the inventory.
    Fact(BoxedName),
    /// A check: its truth is the result that is kept for this key.
    Check(CheckKey),
}

impl CheckKey {
    /// A copy of the key.
    ///
    /// # Errors
    /// Only if memory runs out.
    pub fn copy(&self, alloc: Global) -> Result<CheckKey, Memory>
        ensures { IfOk result (λ k. k ≡ self.now) }
    {
        Ok(CheckKey {
            system: self.system.copy(alloc)?,
            href: self.href.copy(alloc)?,
            id: self.id.copy(alloc)?,
        })
    }

    /// Whether two keys are equal: their three texts are equal. This is `==`. Allocates: no.
    pub fn same(&self, other: &CheckKey) -> bool
        ensures { IsTrue result ↔ (self.now ≡ other.now) }
    {
        *self == *other
    }
}

impl Test {
    /// A copy of the test.
    ///
    /// # Errors
    /// Only if memory runs out.
    pub fn copy(&self, alloc: Global) -> Result<Test, Memory>
        ensures { IfOk result (λ t. t ≡ self.now) }
    {
        match self {
            Test::Logic {
                operator,
                negate,
                of,
            } => {
                let mut copies = List::with_room(alloc, of.len())?;
                for child in of.as_slice() {
                    copies.push(child.copy(alloc)?)?;
                }
                Ok(Test::Logic {
                    operator: *operator,
                    negate: *negate,
                    of: copies,
                })
            }
            Test::Fact(name) => Ok(Test::Fact(name.copy(alloc)?)),
            Test::Check(key) => Ok(Test::Check(key.copy(alloc)?)),
        }
    }

    // Whether the depth is within a limit. A logical test whose children are only facts and checks has depth 1.
    pub(crate) fn is_within(&self, limit: u32) -> bool
        ensures { result ≡ nat_le (depth_of self.now) limit }
    {
        match self {
            Test::Logic { of, .. } => {
                if limit == 0 {
                    return false;
                }
                let mut within = true;
                for child in of.as_slice() {
                    within = within && child.is_within(limit - 1);
                }
                within
            }
            _ => true,
        }
    }

    // Whether each logical test has a child, and each name is in lower case.
    pub(crate) fn is_sound(&self) -> bool
        ensures { result ≡ is_sound self.now }
    {
        match self {
            Test::Logic { of, .. } => {
                let mut sound = of.len() > 0;
                for child in of.as_slice() {
                    sound = sound && child.is_sound();
                }
                sound
            }
            Test::Fact(name) => is_lower(name.as_name()),
            Test::Check(_) => true,
        }
    }
}
