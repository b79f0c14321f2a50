// The truths of a test for each result that its checks may have.
ghost use Rattle.std.specs.Prelude.{◌≡◌, [], ◌∷◌, slice_get, option_copied};
ghost use Rattle.std.specs.List.{list_all};
ghost use Rattle.cpe_rows.specs.Evaluation.{joined, negated};
ghost use Rattle.cpe_rows.specs.Rows.{same_key};
ghost use Rattle.cpe_rows.specs.declared.truth.Truth.{Truth};
ghost use Rattle.statement_rows.specs.ByResult.{asks_one, at_result, each_result, truth_with};
ghost use Rattle.statement_rows.specs.Readings.{check_keys, next_truth, reading, truths_of};

use crate::truths::{FactTruth, join, negation, neutral, next_truth};
use cpe_rows::{CheckKey, Mode, Operator, Test, Truth};
use name_index::NameId;

// The truth of a test for each result that all of its checks may have.
#[derive(Clone, Copy)]
pub(crate) struct ByResult {
    pub(crate) on_true: Truth,
    pub(crate) on_false: Truth,
    pub(crate) on_error: Truth,
    pub(crate) on_unknown: Truth,
}

impl ByResult {
    // The same truth for each result.
    pub(crate) fn same(truth: Truth) -> ByResult
        ensures { result ≡ each_result (λ t. truth) }
    {
        ByResult {
            on_true: truth,
            on_false: truth,
            on_error: truth,
            on_unknown: truth,
        }
    }

    // The result itself.
    fn itself() -> ByResult
        ensures { result ≡ each_result (λ t. t) }
    {
        ByResult {
            on_true: Truth::True,
            on_false: Truth::False,
            on_error: Truth::Error,
            on_unknown: Truth::Unknown,
        }
    }

    // The truth if the checks have this result.
    pub(crate) fn at(&self, truth: Truth) -> Truth
        ensures { result ≡ at_result self.now truth }
    {
        match truth {
            Truth::True => self.on_true,
            Truth::False => self.on_false,
            Truth::Error => self.on_error,
            Truth::Unknown => self.on_unknown,
        }
    }
}

fn join_each(operator: Operator, a: ByResult, b: ByResult) -> ByResult
    ensures { result ≡ each_result (λ t. joined operator (at_result a t ∷ (at_result b t ∷ []))) }
{
    ByResult {
        on_true: join(operator, a.on_true, b.on_true),
        on_false: join(operator, a.on_false, b.on_false),
        on_error: join(operator, a.on_error, b.on_error),
        on_unknown: join(operator, a.on_unknown, b.on_unknown),
    }
}

fn negate_each(negate: bool, a: ByResult) -> ByResult
    ensures { result ≡ each_result (λ t. negated negate (at_result a t)) }
{
    ByResult {
        on_true: negation(negate, a.on_true),
        on_false: negation(negate, a.on_false),
        on_error: negation(negate, a.on_error),
        on_unknown: negation(negate, a.on_unknown),
    }
}

// Truths for each result, and the numbers of the fact references that follow.
#[derive(Clone, Copy)]
pub(crate) struct EachTruth<'i> {
    pub(crate) truths: ByResult,
    pub(crate) rest: &'i [NameId],
}

// A fact reference has the same truth for each result.
fn next_truths<'i, T: FactTruth>(ids: &'i [NameId], mode: Mode, facts: &T) -> EachTruth<'i>
    ensures truths { result.truths ≡ each_result (λ t. (next_truth (truths_of (T.fact_truth facts.now) mode ids.now)).0) }
    ensures rest { truths_of (T.fact_truth facts.now) mode result.rest.now ≡ (next_truth (truths_of (T.fact_truth facts.now) mode ids.now)).1 }
{
    let next = next_truth(ids, mode, facts);
    EachTruth {
        truths: ByResult::same(next.truth),
        rest: next.rest,
    }
}

// The truths of a test whose fact references have these numbers, one after the other: for each result, the truth if
// each check has it.
pub(crate) fn test_truths<'i, T: FactTruth>(
    test: &Test,
    ids: &'i [NameId],
    mode: Mode,
    facts: &T,
) -> EachTruth<'i>
    ensures truths { result.truths ≡ each_result (truth_with test.now (truths_of (T.fact_truth facts.now) mode ids.now)) }
    ensures rest { (t : Truth) → truths_of (T.fact_truth facts.now) mode result.rest.now ≡ (reading (λ key. t) test.now (truths_of (T.fact_truth facts.now) mode ids.now)).1 }
{
    match test {
        Test::Fact(_) => next_truths(ids, mode, facts),
        Test::Check(_) => EachTruth {
            truths: ByResult::itself(),
            rest: ids,
        },
        Test::Logic {
            operator,
            negate,
            of,
        } => {
            let mut now = ByResult::same(neutral(*operator));
            let mut rest = ids;
            for child in of.as_slice() {
                let next = test_truths(child, rest, mode, facts);
                now = join_each(*operator, now, next.truths);
                rest = next.rest;
            }
            EachTruth {
                truths: negate_each(*negate, now),
                rest,
            }
        }
    }
}

// Whether a test asks for one check, and for no other.
pub(crate) fn asks_one(test: &Test) -> bool
    ensures { result ≡ asks_one (check_keys test.now) }
{
    match first_key(test) {
        Some(key) => asks_only(test, key),
        None => false,
    }
}

// The first check for which a test asks.
fn first_key(test: &Test) -> Option<&CheckKey>
    ensures { option_copied result ≡ slice_get (check_keys test.now) 0 }
{
    match test {
        Test::Logic { of, .. } => {
            for child in of.as_slice() {
                if let Some(key) = first_key(child) {
                    return Some(key);
                }
            }
            None
        }
        Test::Fact(_) => None,
        Test::Check(key) => Some(key),
    }
}

// Whether a test asks for no other check than this one.
fn asks_only(test: &Test, key: &CheckKey) -> bool
    ensures { result ≡ list_all (same_key key.now) (check_keys test.now) }
{
    match test {
        Test::Logic { of, .. } => {
            for child in of.as_slice() {
                if !asks_only(child, key) {
                    return false;
                }
            }
            true
        }
        Test::Fact(_) => true,
        Test::Check(other) => is_same(key, other),
    }
}

fn is_same(a: &CheckKey, b: &CheckKey) -> bool
    ensures { result ≡ same_key a.now b.now }
{
    a.same(b)
}
