// The certificate of a statement.
ghost use Rattle.std.specs.Prelude.{◌≡◌, ◌<◌, ◌-◌, ◌∷◌, ◌++◌, IfOk, OnOk, None, Some, length, map, replicate};
ghost use Rattle.std.specs.List.{position_or_len};
ghost use Rattle.cpe_rows.specs.Evaluation.{negated, test_truth};
ghost use Rattle.cpe_rows.specs.Truth.{same_truth};
ghost use Rattle.cpe_rows.specs.Verdict.{check_truth, fact_truth};
ghost use Rattle.certificate_check.specs.Good.{deciding};
ghost use Rattle.certificate_search.specs.Choices.{explained_certificate, explained, why_of};

use crate::fits::fact_why;
use crate::rows::ExplainedRows;
use certificate_check::{Certificate, Why, deciding, is_truth, join_all, negate_if};
use cpe_rows::{
    CheckKey, FindFacts, List, Memory, Mode, Operator, Statement, Test, Truth, Wfn, find_truth,
};
use std::alloc::Global;

// Rows, and the mode of the statement.
#[derive(Drop)]
struct Asked<'a, R> {
    rows: &'a R,
    mode: Mode,
}

impl<'a, R: ExplainedRows> FindFacts for Asked<'a, R> {
    ghost fact_truth = { λ asked. fact_truth (R.rows asked.rows.now) asked.mode };

    ghost check_truth = { λ asked. check_truth (R.rows asked.rows.now) };

    fn find_fact(&self, alloc: Global, name: &Wfn) -> Result<Truth, Memory> {
        self.rows.find_fact(alloc, self.mode, name)
    }

    fn find_check(&self, key: &CheckKey) -> Truth {
        self.rows.result_of(key)
    }
}

// ---- logical tests

fn truth_of<'a, R: ExplainedRows>(
    alloc: Global,
    asked: &Asked<'a, R>,
    test: &Test,
) -> Result<Truth, Memory>
    ensures { IfOk result (λ truth. truth ≡ test_truth (fact_truth (R.rows asked.now.rows.now) asked.now.mode) (check_truth (R.rows asked.now.rows.now)) test.now) }
{
    find_truth(alloc, test, asked)
}

// The place of the first child that decides; if no child decides, the number of children.
fn find_deciding<'a, R: ExplainedRows>(
    alloc: Global,
    asked: &Asked<'a, R>,
    operator: Operator,
    of: &[Test],
) -> Result<usize, Memory>
    ensures { IfOk result (λ place. place ≡ position_or_len (λ t. same_truth (deciding operator) (test_truth (fact_truth (R.rows asked.now.rows.now) asked.now.mode) (check_truth (R.rows asked.now.rows.now)) t)) of.now) }
{
    let mut place = 0;
    for child in of {
        if is_truth(deciding(operator), truth_of(alloc, asked, child)?) {
            return Ok(place);
        }
        place += 1;
    }
    Ok(place)
}

// Appends `None` for `count` children.
fn push_nothing(given: &mut List<Option<Why>>, count: usize) -> Result<(), Memory>
    ensures { OnOk result (given.new ≡ given.old ++ replicate count None) }
{
    for _ in 0..count {
        given.push(None)?;
    }
    Ok(())
}

// The certificate of the child at `place`, in a list of `count` children. The other children have none.
fn alone(alloc: Global, why: Why, place: usize, count: usize) -> Result<List<Option<Why>>, Memory>
    requires { place < count }
    ensures { IfOk result (λ given. given ≡ replicate place None ++ (Some why ∷ replicate (count - place - 1) None)) }
{
    let mut given = List::new(alloc);
    push_nothing(&mut given, place)?;
    given.push(Some(why))?;
    push_nothing(&mut given, count - place - 1)?;
    Ok(given)
}

// ---- the whole certificate

// Why a test has its truth.
fn why_of<'a, R: ExplainedRows>(
    alloc: Global,
    asked: &Asked<'a, R>,
    test: &Test,
) -> Result<Why, Memory>
    ensures { IfOk result (λ why. why ≡ why_of (R.rows asked.now.rows.now) asked.now.mode test.now) }
{
    match test {
        Test::Fact(name) => fact_why(alloc, asked.rows, asked.mode, name.as_name()),
        Test::Check(key) => Ok(Why::Plain(asked.rows.result_of(key))),
        Test::Logic {
            operator,
            negate,
            of,
        } => {
            let place = find_deciding(alloc, asked, *operator, of.as_slice())?;
            match of.at(place) {
                Some(child) => {
                    let why = why_of(alloc, asked, child)?;
                    Ok(Why::Logic {
                        truth: negate_if(*negate, deciding(*operator)),
                        of: alone(alloc, why, place, of.len())?,
                    })
                }
                None => {
                    let mut given = List::new(alloc);
                    for child in of.as_slice() {
                        given.push(Some(why_of(alloc, asked, child)?))?;
                    }
                    Ok(Why::Logic {
                        truth: negate_if(*negate, join_all(*operator, given.as_slice())),
                        of: given,
                    })
                }
            }
        }
    }
}

fn certificate_of<R: ExplainedRows>(
    alloc: Global,
    rows: &R,
    statement: &Statement,
) -> Result<Certificate, Memory>
    ensures { IfOk result (λ certificate. certificate ≡ explained_certificate (R.rows rows.now) statement.now) }
{
    let asked = Asked {
        rows,
        mode: statement.mode,
    };
    let id = statement.id.copy(alloc)?;
    let why = why_of(alloc, &asked, &statement.test)?;
    Ok(Certificate { id, why })
}

/// The certificate of the statement at a place from 0. There is none exactly if the place is the number of statements
/// or more.
///
/// For a logical test, the certificate has only the first child that decides; if no child decides, it has all children.
/// For a fact that is TRUE, it has the first item that the fact covers, and the first ends of both that show this. For
/// a fact that is UNKNOWN, it has the first item that the fact may cover, with ends in the same way. For the path to an
/// end, each name of the chain is visited at most once. Takes no steps.
///
/// # Errors
/// Only that memory ran out.
pub fn explain<R: ExplainedRows>(
    alloc: Global,
    rows: &R,
    k: usize,
) -> Result<Option<Certificate>, Memory>
    ensures { IfOk result (λ certificate. certificate ≡ explained (R.rows rows.now) k) }
{
    match rows.statement(k) {
        Some(statement) => Ok(Some(certificate_of(alloc, rows, statement)?)),
        None => Ok(None),
    }
}
