// The truth of a test (NIST IR 7698), from the truths of its fact references.
ghost use Rattle.std.specs.Prelude.{◌≡◌, ℕ, [], ◌∷◌};
ghost use Rattle.cpe_rows.specs.Evaluation.{joined, negated};
ghost use Rattle.cpe_rows.specs.declared.statement.Mode.{Mode};
ghost use Rattle.cpe_rows.specs.declared.truth.Truth.{Truth};
ghost use Rattle.check_results.specs.Kept.{kept_truth};
ghost use Rattle.statement_rows.specs.Readings.{next_truth, reading, truths_of};

use check_results::Checks;
use cpe_rows::{Mode, Operator, Test, Truth, and_of, not_of, or_of};
use name_index::NameId;

/// Something that has the truth of each fact, by the number of its name.
pub trait FactTruth {
    /// The truth of a fact in a mode.
    ghost fact_truth: { Self → Mode → ℕ → Truth };

    /// The truth of the fact whose name has this number, in statements of this mode.
    fn truth(&self, mode: Mode, fact: NameId) -> Truth
        ensures { result ≡ fact_truth self.now mode fact.0 };
}

// A truth, and the numbers of the fact references that follow.
#[derive(Clone, Copy)]
pub(crate) struct OneTruth<'i> {
    pub(crate) truth: Truth,
    pub(crate) rest: &'i [NameId],
}

pub(crate) fn next_truth<'i, T: FactTruth>(ids: &'i [NameId], mode: Mode, facts: &T) -> OneTruth<'i>
    ensures truth { result.truth ≡ (next_truth (truths_of (T.fact_truth facts.now) mode ids.now)).0 }
    ensures rest { truths_of (T.fact_truth facts.now) mode result.rest.now ≡ (next_truth (truths_of (T.fact_truth facts.now) mode ids.now)).1 }
{
    match ids {
        [] => OneTruth {
            truth: Truth::Unknown,
            rest: ids,
        },
        [id, rest @ ..] => OneTruth {
            truth: facts.truth(mode, *id),
            rest,
        },
    }
}

// The truth of a test whose fact references have these numbers, one after the other.
pub(crate) fn test_truth<'i, T: FactTruth>(
    test: &Test,
    ids: &'i [NameId],
    mode: Mode,
    facts: &T,
    results: &Checks,
) -> OneTruth<'i>
    ensures truth { result.truth ≡ (reading (kept_truth results.now.list) test.now (truths_of (T.fact_truth facts.now) mode ids.now)).0 }
    ensures rest { truths_of (T.fact_truth facts.now) mode result.rest.now ≡ (reading (kept_truth results.now.list) test.now (truths_of (T.fact_truth facts.now) mode ids.now)).1 }
{
    match test {
        Test::Fact(_) => next_truth(ids, mode, facts),
        Test::Check(key) => OneTruth {
            truth: results.truth(key),
            rest: ids,
        },
        Test::Logic {
            operator,
            negate,
            of,
        } => {
            let mut rest = ids;
            let mut truth = neutral(*operator);
            for child in of.as_slice() {
                let next = test_truth(child, rest, mode, facts, results);
                truth = join(*operator, truth, next.truth);
                rest = next.rest;
            }
            OneTruth {
                truth: negation(*negate, truth),
                rest,
            }
        }
    }
}

// The truth of no children, joined.
pub(crate) fn neutral(operator: Operator) -> Truth
    ensures { result ≡ joined operator [] }
{
    match operator {
        Operator::And => Truth::True,
        Operator::Or => Truth::False,
    }
}

pub(crate) fn join(operator: Operator, a: Truth, b: Truth) -> Truth
    ensures { result ≡ joined operator (a ∷ (b ∷ [])) }
{
    match operator {
        Operator::And => and_of(a, b),
        Operator::Or => or_of(a, b),
    }
}

pub(crate) fn negation(negate: bool, truth: Truth) -> Truth
    ensures { result ≡ negated negate truth }
{
    if negate { not_of(truth) } else { truth }
}
