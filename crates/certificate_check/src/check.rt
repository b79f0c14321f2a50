// Tests whether a certificate is good for its statement, by the rows alone.
ghost use Rattle.std.specs.Prelude.{◌≡◌, ◌∷◌, [], IfOk, false, true, is_some, slice_get};
ghost use Rattle.std.specs.List.{list_all, list_any};
ghost use Rattle.std.specs.Option.{option_copied, option_map_or};
ghost use Rattle.cpe_rows.specs.Evaluation.{joined, negated};
ghost use Rattle.cpe_rows.specs.Truth.{same_truth};
ghost use Rattle.certificate_check.specs.Certificates.{given_truth, given_truths};
ghost use Rattle.certificate_check.specs.Good.{deciding};
ghost use Rattle.certificate_check.specs.Checks.{IsCheckedCertificate};
ghost use Rattle.certificate_check.specs.Tested.{is_of_all, is_of_one, is_settled, check_passes, test_passes};
ghost use Rattle.certificate_check.specs.declared.certificate.Why.{out-Why};

use crate::certificate::{Certificate, Checked, Why};
use crate::references::fact_passes;
use crate::rows::PlainRows;
use cpe_rows::{CheckKey, Memory, Mode, Operator, Test, Truth, and_of, not_of, or_of};
use std::alloc::Global;

// ---- logical tests

/// Whether two truths are equal.
pub fn is_truth(truth: Truth, other: Truth) -> bool
    ensures { result ≡ same_truth truth other }
{
    truth == other
}

// The truth of a logical test without children: TRUE for AND, FALSE for OR.
fn neutral(operator: Operator) -> Truth
    ensures { result ≡ joined operator [] }
{
    match operator {
        Operator::And => Truth::True,
        Operator::Or => Truth::False,
    }
}

fn join(operator: Operator, truth: Truth, why: &Option<Why>) -> Truth
    ensures { result ≡ joined operator (truth ∷ given_truths (why.now ∷ [])) }
{
    match why {
        Some(why) => match operator {
            Operator::And => and_of(truth, why.truth()),
            Operator::Or => or_of(truth, why.truth()),
        },
        None => truth,
    }
}

/// The AND or OR of the given children's truths. Without a given child, AND is TRUE and OR is FALSE.
pub fn join_all(operator: Operator, given: &[Option<Why>]) -> Truth
    ensures { result ≡ joined operator (given_truths given.now) }
{
    let mut truth = neutral(operator);
    for why in given {
        truth = join(operator, truth, why);
    }
    truth
}

/// The negation of a truth if `negate` is set, otherwise the truth unchanged.
pub fn negate_if(negate: bool, truth: Truth) -> Truth
    ensures { result ≡ negated negate truth }
{
    if negate { not_of(truth) } else { truth }
}

fn are_given(given: &[Option<Why>]) -> bool
    ensures { result ≡ list_all is_some given.now }
{
    given.iter().all(|why| why.is_some())
}

fn is_of_all(operator: Operator, negate: bool, truth: Truth, given: &[Option<Why>]) -> bool
    ensures { result ≡ is_of_all operator negate truth given.now }
{
    are_given(given) && is_truth(truth, negate_if(negate, join_all(operator, given)))
}

/// The truth of a child that decides a logical test alone: FALSE for AND, TRUE for OR.
pub fn deciding(operator: Operator) -> Truth
    ensures { result ≡ deciding operator }
{
    match operator {
        Operator::And => Truth::False,
        Operator::Or => Truth::True,
    }
}

fn decides(operator: Operator, why: &Option<Why>) -> bool
    ensures { result ≡ option_map_or (λ w. same_truth (deciding operator) (given_truth w)) why.now false }
{
    match why {
        Some(why) => is_truth(deciding(operator), why.truth()),
        None => false,
    }
}

fn some_decides(operator: Operator, given: &[Option<Why>]) -> bool
    ensures { result ≡ list_any (λ why. option_map_or (λ w. same_truth (deciding operator) (given_truth w)) why false) given.now }
{
    given.iter().any(|why| decides(operator, why))
}

fn is_decided(operator: Operator, given: &[Option<Why>]) -> bool
    ensures { result ≡ list_any (same_truth (deciding operator)) (given_truths given.now) }
{
    some_decides(operator, given)
}

fn is_of_one(operator: Operator, negate: bool, truth: Truth, given: &[Option<Why>]) -> bool
    ensures { result ≡ is_of_one operator negate truth given.now }
{
    is_decided(operator, given) && is_truth(truth, negate_if(negate, deciding(operator)))
}

// Whether the given certificates of the children show the truth of the test. Either every child has a certificate, or
// one given truth decides the test alone.
fn is_settled(operator: Operator, negate: bool, truth: Truth, given: &[Option<Why>]) -> bool
    ensures { result ≡ is_settled operator negate truth given.now }
{
    is_of_all(operator, negate, truth, given) || is_of_one(operator, negate, truth, given)
}

fn given_at(given: &[Option<Why>], place: usize) -> Option<&Why>
    ensures { option_copied result ≡ option_map_or (λ w. w) (slice_get given.now place) None }
{
    match given.get(place) {
        Some(Some(why)) => Some(why),
        _ => None,
    }
}

// ---- check references

fn check_passes<R: PlainRows>(rows: &R, key: &CheckKey, why: &Why) -> bool
    ensures { result ≡ check_passes (R.rows rows.now) key.now (out-Why why.now) }
{
    match why {
        Why::Logic { .. } => false,
        Why::Pair { .. } => false,
        Why::Plain(truth) => is_truth(*truth, rows.result_of(key)),
    }
}

// ---- whole certificates

// Whether a certificate is good for a test. If no certificate is given, the result is true.
fn passes<R: PlainRows>(
    alloc: Global,
    rows: &R,
    mode: Mode,
    test: &Test,
    why: Option<&Why>,
) -> Result<bool, Memory>
    ensures { IfOk result (λ passed. passed ≡ option_map_or (test_passes (R.rows rows.now) mode test.now) (option_copied why.entry) true) }
{
    let Some(why) = why else {
        return Ok(true);
    };
    match test {
        Test::Fact(name) => fact_passes(alloc, rows, mode, name.as_name(), why),
        Test::Check(key) => Ok(check_passes(rows, key, why)),
        Test::Logic {
            operator,
            negate,
            of,
        } => {
            let Why::Logic { truth, of: given } = why else {
                return Ok(false);
            };
            if of.len() != given.len() {
                return Ok(false);
            }
            let mut k = 0;
            for child in of.as_slice() {
                if !passes(alloc, rows, mode, child, given_at(given.as_slice(), k))? {
                    return Ok(false);
                }
                k += 1;
            }
            Ok(is_settled(*operator, *negate, *truth, given.as_slice()))
        }
    }
}

/// Tests a certificate against the statement that has its id, by the rows alone.
///
/// Builds no index of the rows. A level takes time in proportion to its children. A pair takes one look-up in the rows
/// for each name of its traces, and one for its item. The truth of a fact is computed from all rows only if the
/// certificate gives UNKNOWN or FALSE.
///
/// # Errors
/// Only if memory runs out.
pub fn check_certificate<R: PlainRows>(
    alloc: Global,
    rows: &R,
    certificate: &Certificate,
) -> Result<Checked, Memory>
    ensures { IfOk result (λ checked. IsCheckedCertificate (R.rows rows.now) certificate.now checked) }
{
    rows.lawful();
    let Some(statement) = rows.statement_of(&certificate.id) else {
        return Ok(Checked::Absent);
    };
    if passes(
        alloc,
        rows,
        statement.mode,
        &statement.test,
        Some(&certificate.why),
    )? {
        Ok(Checked::Holds)
    } else {
        Ok(Checked::Fails)
    }
}
