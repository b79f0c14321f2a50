// The truth of a test, computed from the truths of its facts and checks.
ghost use Rattle.std.specs.Prelude.{◌≡◌, IfOk, List, [], ◌∷◌};
ghost use Rattle.cpe_name.specs.Eleven.{Values};
ghost use Rattle.cpe_rows.specs.Evaluation.{test_truth, joined};
ghost use Rattle.cpe_rows.specs.declared.truth.Truth.{Truth};
ghost use Rattle.cpe_rows.specs.declared.test.CheckKey.{CheckKey};

use crate::test::{CheckKey, Operator, Test};
use crate::truth::{Truth, and_of, not_of, or_of};
use cpe_name::Wfn;
use cpe_values::Memory;
use std::alloc::Global;

/// The truths of facts and checks.
pub trait Facts {
    ghost fact_truth: { Self → Values → Truth };

    ghost check_truth: { Self → CheckKey → Truth };

    /// The truth of the fact with this name.
    fn fact(&self, name: &Wfn) -> Truth
        ensures { result ≡ fact_truth self.now name.now };

    /// The truth of the check with this key.
    fn check(&self, key: &CheckKey) -> Truth
        ensures { result ≡ check_truth self.now key.now };
}

/// The truth of a test (NIST IR 7698). A logical test joins the truths of its children by its operator, and negates the
/// result if `negate` is set. Allocates: no.
pub fn evaluate<F: Facts>(test: &Test, facts: &F) -> Truth
    ensures { result ≡ test_truth (F.fact_truth facts.now) (F.check_truth facts.now) test.now }
{
    match test {
        Test::Fact(name) => facts.fact(name.as_name()),
        Test::Check(key) => facts.check(key),
        Test::Logic {
            operator,
            negate,
            of,
        } => {
            let mut truth = neutral(*operator);
            for child in of.as_slice() {
                truth = join(*operator, truth, evaluate(child, facts));
            }
            if *negate { not_of(truth) } else { truth }
        }
    }
}

/// The truths of facts and checks, if facts have to be searched. The search of a fact may run out of memory.
pub trait FindFacts {
    ghost fact_truth: { Self → Values → Truth };

    ghost check_truth: { Self → CheckKey → Truth };

    /// The truth of the fact with this name.
    ///
    /// # Errors
    /// Only if memory runs out.
    fn find_fact(&self, alloc: Global, name: &Wfn) -> Result<Truth, Memory>
        ensures { IfOk result (λ truth. truth ≡ fact_truth self.now name.now) };

    /// The truth of the check with this key.
    fn find_check(&self, key: &CheckKey) -> Truth
        ensures { result ≡ check_truth self.now key.now };
}

/// The truth of a test, as [`evaluate`] returns it. It is for facts that have to be searched.
///
/// # Errors
/// Only if memory runs out.
pub fn find_truth<F: FindFacts>(alloc: Global, test: &Test, facts: &F) -> Result<Truth, Memory>
    ensures { IfOk result (λ truth. truth ≡ test_truth (F.fact_truth facts.now) (F.check_truth facts.now) test.now) }
{
    match test {
        Test::Fact(name) => facts.find_fact(alloc, name.as_name()),
        Test::Check(key) => Ok(facts.find_check(key)),
        Test::Logic {
            operator,
            negate,
            of,
        } => {
            let mut truth = neutral(*operator);
            for child in of.as_slice() {
                truth = join(*operator, truth, find_truth(alloc, child, facts)?);
            }
            Ok(if *negate { not_of(truth) } else { truth })
        }
    }
}

// The truth of a logical test without children, before negation.
fn neutral(operator: Operator) -> Truth
    ensures { result ≡ joined operator [] }
{
    match operator {
        Operator::And => Truth::True,
        Operator::Or => Truth::False,
    }
}

fn join(operator: Operator, a: Truth, b: Truth) -> Truth
    ensures { result ≡ joined operator (a ∷ (b ∷ [])) }
{
    match operator {
        Operator::And => and_of(a, b),
        Operator::Or => or_of(a, b),
    }
}
