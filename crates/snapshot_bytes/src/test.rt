// Reads statements and their tests from bytes.
ghost use Rattle.std.specs.Prelude.{◌≡◌, slice_get};
ghost use Rattle.snapshot_bytes.specs.Reading.{Took, Found, read_as, operators, flags, modes, byte_at, made, many, name_at, logic_at, logic_within, test_at};
ghost use Rattle.cpe_rows.specs.declared.test.Test.{Fact};

use crate::cursor::Cursor;
use crate::fault::LoadFault;
use crate::parts::{Part, name, text};
use crate::read::{key, one_of};
use cpe_rows::{BoxedName, List, MOST_LEVELS, Mode, Operator, Statement, Test};
use std::alloc::Global;

fn operator(cursor: &mut Cursor<'_>) -> Result<Operator, LoadFault>
    ensures { Found result cursor.new (read_as (slice_get operators) byte_at cursor.old) }
{
    one_of(cursor, &[Operator::And, Operator::Or])
}

fn flag(cursor: &mut Cursor<'_>) -> Result<bool, LoadFault>
    ensures { Found result cursor.new (read_as (slice_get flags) byte_at cursor.old) }
{
    one_of(cursor, &[false, true])
}

fn mode(cursor: &mut Cursor<'_>) -> Result<Mode, LoadFault>
    ensures { Found result cursor.new (read_as (slice_get modes) byte_at cursor.old) }
{
    one_of(cursor, &[Mode::Plain, Mode::Follow])
}

fn fact(alloc: Global, cursor: &mut Cursor<'_>) -> Result<Test, LoadFault>
    ensures { Took result cursor.new (made Fact name_at cursor.old) }
{
    let name = name(alloc, cursor)?;
    Ok(Test::Fact(BoxedName::new(alloc, name)?))
}

// Reads `count` tests, each with at most `levels` levels of logical tests.
#[cycle(levels)]
fn children(
    alloc: Global,
    cursor: &mut Cursor<'_>,
    levels: u32,
    count: u32,
) -> Result<List<Test>, LoadFault>
    ensures { Took result cursor.new (many (test_at levels) count cursor.old) }
{
    let mut of = List::new(alloc);
    for _ in 0..count {
        let child = test(alloc, cursor, levels)?;
        of.push(child)?;
    }
    Ok(of)
}

// Reads a logical test after its first byte: its operator, whether it is negated, and its children. Each child has at
// most `levels` levels.
#[cycle(levels)]
#[tactic(auto, unfolding(crate::specs::Reading::logic_at, crate::specs::Reading::list_at))]
fn read_joined(alloc: Global, cursor: &mut Cursor<'_>, levels: u32) -> Result<Test, LoadFault>
    ensures { Took result cursor.new (logic_at (test_at levels) cursor.old) }
{
    let operator = operator(cursor)?;
    let negate = flag(cursor)?;
    let count = cursor.number()?;
    let of = children(alloc, cursor, levels, count)?;
    Ok(Test::Logic {
        operator,
        negate,
        of,
    })
}

// Reads a logical test of at most `levels` levels after its first byte.
#[cycle(levels)]
fn logic(alloc: Global, cursor: &mut Cursor<'_>, levels: u32) -> Result<Test, LoadFault>
    ensures { Took result cursor.new (logic_within levels cursor.old) }
{
    if levels == 0 {
        Err(LoadFault::NotSnapshot)
    } else {
        read_joined(alloc, cursor, levels - 1)
    }
}

// Reads a test of at most `levels` levels of logical tests. This limit bounds the stack.
#[cycle(levels)]
#[tactic(auto, unfolding(crate::specs::Reading::test_at))]
fn test(alloc: Global, cursor: &mut Cursor<'_>, levels: u32) -> Result<Test, LoadFault>
    ensures { Took result cursor.new (test_at levels cursor.old) }
{
    match cursor.byte()? {
        0 => logic(alloc, cursor, levels),
        1 => fact(alloc, cursor),
        2 => Ok(Test::Check(key(alloc, cursor)?)),
        _ => Err(LoadFault::NotSnapshot),
    }
}

impl Part for Statement {
    ghost use Rattle.snapshot_bytes.specs.Reading.{statement_at};

    ghost read = { statement_at };

    #[tactic(auto, unfolding(crate::specs::Reading::statement_at))]
    fn take(alloc: Global, cursor: &mut Cursor<'_>) -> Result<Statement, LoadFault> {
        let id = text(alloc, cursor)?;
        let title = text(alloc, cursor)?;
        let mode = mode(cursor)?;
        let test = test(alloc, cursor, MOST_LEVELS)?;
        Ok(Statement {
            id,
            title,
            mode,
            test,
        })
    }
}
