// Certificates, and the results of their tests.
ghost use Rattle.std.specs.Prelude.{◌≡◌};
ghost use Rattle.certificate_check.specs.Certificates.{given_truth};

use cpe_rows::{List, Text, Truth, Wfn};

/// Why a test has its truth: a tree that follows the test level by level.
#[derive(Debug, Drop)]
pub enum Why {
    /// The truth of a logical test, by the truths of its children.
    Logic {
        /// The truth.
        truth: Truth,
        /// For each child, why it has its truth. None if the child isn't needed.
        of: List<Option<Why>>,
    },
    /// The truth of a fact reference, by one item.
    Pair {
        /// The truth.
        truth: Truth,
        /// The path from the fact's name to one of its ends: names, each a successor of the name before.
        fact: List<Wfn>,
        /// The path from the item's name to one of its ends, likewise.
        item: List<Wfn>,
    },
    /// FALSE for a fact reference, which then needs no item, or the truth of a check reference by the check's result.
    Plain(Truth),
}

/// A certificate: why a statement has its verdict.
#[derive(Debug, Drop)]
pub struct Certificate {
    /// The statement's id.
    pub id: Text,
    /// Why the statement's test has its truth.
    pub why: Why,
}

/// The result of the test of a certificate.
#[derive(Debug, Clone, Copy, PartialEq, Eq)]
pub enum Checked {
    /// The certificate is good: it shows the statement's verdict.
    Holds,
    /// The certificate isn't good for the statement.
    Fails,
    /// No statement has the certificate's id.
    Absent,
}

impl Why {
    /// The truth that the certificate shows. Allocates: no.
    pub fn truth(&self) -> Truth
        ensures { result ≡ given_truth self.now }
    {
        match self {
            Why::Logic { truth, .. } => *truth,
            Why::Pair { truth, .. } => *truth,
            Why::Plain(truth) => *truth,
        }
    }
}
