// The test of a statement, in three passes: its form at any depth, its depth, and its names in their order.
ghost use Rattle.std.specs.Prelude.{◌≡◌, nat_le, Ok};
ghost use Rattle.serde_json.specs.View.{view};
ghost use Rattle.cpe_records.specs.Gives.{ReadsMember};
ghost use Rattle.cpe_records.specs.Names.{at_spot};
ghost use Rattle.cpe_records.specs.Tests.{operator_in, part_in, key_in, fact_read, leaf_read, logic_in, draft_of, names_from, within_test_limit, test_in, test_at};

use crate::form::{array_in, count_on, flag_or_false, text_in};
use crate::member::NotName;
use crate::name::name_in;
use crate::words::operator_of;
use crate::{Format, Member, NameSpot, RecordFault};
use cpe_rows::{BoxedName, CheckKey, List, MOST_LEVELS, Operator, Test, Text};
use serde_json::Value;
use std::alloc::Global;

/// A test whose form has been read, before each of its facts is known to have a name.
#[derive(Debug, Drop)]
pub(crate) enum Draft {
    Logic {
        operator: Operator,
        negate: bool,
        of: List<Draft>,
    },
    Fact(Result<BoxedName, NotName>),
    Check(CheckKey),
}

fn operator_in(json: &Value) -> Result<Operator, RecordFault>
    ensures { ReadsMember result (operator_in (view json.now)) }
{
    match text_in(json, "op") {
        Some(text) => operator_of(text).ok_or(RecordFault::Member(Member::Test)),
        None => Err(RecordFault::Member(Member::Test)),
    }
}

fn part_in(alloc: Global, json: &Value, key: &str) -> Result<Text, RecordFault>
    ensures { ReadsMember result (part_in key.now (view json.now)) }
{
    match text_in(json, key) {
        Some(text) => Ok(Text::new(alloc, text)?),
        None => Err(RecordFault::Member(Member::Test)),
    }
}

#[tactic(auto, unfolding(crate::specs::Tests::key_in))]
fn key_in(alloc: Global, json: &Value) -> Result<CheckKey, RecordFault>
    ensures { ReadsMember result (key_in (view json.now)) }
{
    let system = part_in(alloc, json, "system")?;
    let href = part_in(alloc, json, "href")?;
    let id = part_in(alloc, json, "id")?;
    Ok(CheckKey { system, href, id })
}

// The fact of a value that has the form of a name, with memory of its own.
fn fact_in(alloc: Global, format: Format, json: &Value) -> Result<Draft, RecordFault>
    ensures { ReadsMember result (fact_read format (view json.now)) }
{
    match name_in(alloc, format, Member::Test, json) {
        Ok(Ok(name)) => Ok(Draft::Fact(Ok(BoxedName::new(alloc, name)?))),
        Ok(Err(wrong)) => Ok(Draft::Fact(Err(wrong))),
        Err(fault) => Err(fault),
    }
}

fn leaf_in(alloc: Global, format: Format, json: &Value) -> Result<Draft, RecordFault>
    ensures { ReadsMember result (leaf_read format (view json.now)) }
{
    match json.get("fact") {
        Some(fact) => fact_in(alloc, format, fact),
        None => match json.get("check") {
            Some(check) => Ok(Draft::Check(key_in(alloc, check)?)),
            None => Err(RecordFault::Member(Member::Test)),
        },
    }
}

#[tactic(auto, unfolding(crate::specs::Tests::logic_in))]
fn logic_of(json: &Value, of: List<Draft>) -> Result<Draft, RecordFault>
    ensures { ReadsMember result (logic_in (view json.now) (Ok of)) }
{
    if of.len() == 0 {
        return Err(RecordFault::Member(Member::Test));
    }
    let operator = operator_in(json)?;
    let negate = flag_or_false(json, Member::Test, "negate")?;
    Ok(Draft::Logic {
        operator,
        negate,
        of,
    })
}

/// The draft that a value is, at any depth.
fn draft_of(alloc: Global, format: Format, json: &Value) -> Result<Draft, RecordFault>
    ensures { ReadsMember result (draft_of format (view json.now)) }
{
    if json.get("op").is_none() {
        return leaf_in(alloc, format, json);
    }
    let Some(items) = array_in(json, "of") else {
        return Err(RecordFault::Member(Member::Test));
    };
    let mut of = List::with_room(alloc, items.len())?;
    for item in items {
        match draft_of(alloc, format, item) {
            Ok(draft) => of.push(draft)?,
            Err(fault) => return Err(fault),
        }
    }
    logic_of(json, of)
}

// The name of a fact, or the fault with the fact's number.
fn fact_of(fact: u32, found: Result<BoxedName, NotName>) -> Result<BoxedName, RecordFault>
    ensures { result ≡ at_spot (NameSpot.Fact fact) found }
{
    match found {
        Ok(name) => Ok(name),
        Err(NotName::At(place)) => Err(RecordFault::Name(NameSpot::Fact(fact), place)),
        Err(NotName::Attribute(which)) => Err(RecordFault::Attribute(NameSpot::Fact(fact), which)),
    }
}

/// The test of a draft, if each of its facts is a name; and the number of the next fact.
fn names_from(alloc: Global, draft: Draft, fact: u32) -> Result<(Test, u32), RecordFault>
    ensures { ReadsMember result (names_from draft fact) }
{
    match draft {
        Draft::Logic {
            operator,
            negate,
            of,
        } => {
            let mut tests = List::with_room(alloc, of.len())?;
            let mut count = fact;
            for child in of.into_vec() {
                match names_from(alloc, child, count) {
                    Ok((test, after)) => {
                        tests.push(test)?;
                        count = after;
                    }
                    Err(fault) => return Err(fault),
                }
            }
            Ok((
                Test::Logic {
                    operator,
                    negate,
                    of: tests,
                },
                count,
            ))
        }
        Draft::Fact(found) => {
            let name = fact_of(fact, found)?;
            Ok((Test::Fact(name), count_on(fact)?))
        }
        Draft::Check(key) => Ok((Test::Check(key), fact)),
    }
}

impl Draft {
    ghost use Rattle.cpe_records.specs.Tests.{draft_depth};

    /// Whether the depth is at most a limit.
    fn is_within(&self, limit: u32) -> bool
        ensures { result ≡ nat_le (draft_depth self.now) limit }
    {
        match self {
            Draft::Logic {
                operator: _,
                negate: _,
                of,
            } => {
                if limit == 0 {
                    return false;
                }
                let mut within = true;
                for child in of.as_slice() {
                    within &= child.is_within(limit - 1);
                }
                within
            }
            _ => true,
        }
    }
}

fn within_limit(draft: Draft) -> Result<Draft, RecordFault>
    ensures { ReadsMember result (within_test_limit draft) }
{
    if draft.is_within(MOST_LEVELS) {
        Ok(draft)
    } else {
        Err(RecordFault::TooDeep)
    }
}

// The test that a value is: its form is tested first, then its depth, then its names.
#[tactic(auto, unfolding(crate::specs::Tests::test_in))]
fn test_in(alloc: Global, format: Format, json: &Value) -> Result<Test, RecordFault>
    ensures { ReadsMember result (test_in format (view json.now)) }
{
    if json.get("op").is_none() {
        return Err(RecordFault::Member(Member::Test));
    }
    let draft = draft_of(alloc, format, json)?;
    let shallow = within_limit(draft)?;
    let (test, _count) = names_from(alloc, shallow, 1)?;
    Ok(test)
}

/// The member `test`, a logical test. Its form at any depth is tested first. Its depth is tested next, which is at most
/// 32. Its facts are tested last, in the order of the arrays and counted from 1. The names
/// in the result are in lower case.
///
/// # Errors
/// The first of these three tests that fails. For the form it is the fault of the member `test`. For the depth it is
/// `TooDeep`. For the names it is the number of the first fact that is no name, with its place or attribute. Otherwise
/// that memory ran out.
pub(crate) fn test_at(alloc: Global, format: Format, json: &Value) -> Result<Test, RecordFault>
    ensures { ReadsMember result (test_at format (view json.now)) }
{
    match json.get(Member::Test.key()) {
        Some(value) => test_in(alloc, format, value),
        None => Err(RecordFault::Member(Member::Test)),
    }
}
