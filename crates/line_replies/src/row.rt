// The line of a name, and the line of a name with the state of its entry.
ghost use Rattle.std.specs.Prelude.{◌≡◌, ◌++◌, IfOk, OnOk, flat_map};
ghost use Rattle.line_replies.specs.Replies.{state_word, name_text, name_line, row_line};

use cpe_fs::append_fs;
use cpe_records::kind_word;
use cpe_rows::{Memory, Row, State, Wfn};
use line_session::Page;
use std::alloc::{AllocError, Global};

/// Appends the formatted string of a name to the page.
#[tactic(auto, unfolding(crate::specs::Replies::name_text))]
pub(crate) fn push_name(alloc: Global, page: &mut Page, name: &Wfn) -> Result<(), AllocError>
    ensures { OnOk result (page.new ≡ page.old ++ name_text name.now) }
{
    page.with_bytes(alloc, |bytes| append_fs(bytes, name))
}

fn state_word(state: State) -> &'static str
    ensures { result.now ≡ state_word state }
{
    match state {
        State::Active => "active",
        State::Deprecated(kind) => kind_word(kind),
    }
}

pub(crate) fn push_state(page: &mut Page, state: State) -> Result<(), AllocError>
    ensures { OnOk result (page.new ≡ page.old ++ state_word state) }
{
    page.push(state_word(state).as_bytes())
}

// Appends the line of a name to a buffer.
#[tactic(auto, unfolding(crate::specs::Replies::name_text))]
fn append_name_line(buffer: Vec<u8>, word: &[u8], name: &Wfn) -> Result<Vec<u8>, Memory>
    ensures { IfOk result (λ line. line.items ≡ buffer.items ++ name_line word.now name.now) }
{
    let mut before = buffer;
    before.extend_from_slice(word)?;
    let mut line = append_fs(before, name)?;
    line.extend_from_slice(b"\n")?;
    Ok(line)
}

pub(crate) fn push_name_line(
    alloc: Global,
    page: &mut Page,
    word: &[u8],
    name: &Wfn,
) -> Result<(), AllocError>
    ensures { OnOk result (page.new ≡ page.old ++ name_line word.now name.now) }
{
    page.with_bytes(alloc, |bytes| append_name_line(bytes, word, name))
}

// Appends a line to a buffer: a name, and the state of its entry.
#[tactic(auto, unfolding(crate::specs::Replies::name_text))]
fn append_state_line(
    buffer: Vec<u8>,
    word: &[u8],
    name: &Wfn,
    state: State,
) -> Result<Vec<u8>, Memory>
    ensures { IfOk result (λ line. line.items ≡ buffer.items ++ row_line word.now (record { name = name.now; state = state })) }
{
    let mut before = buffer;
    before.extend_from_slice(word)?;
    let mut line = append_fs(before, name)?;
    line.extend_from_slice(b" ")?;
    line.extend_from_slice(state_word(state).as_bytes())?;
    line.extend_from_slice(b"\n")?;
    Ok(line)
}

pub(crate) fn push_state_line(
    alloc: Global,
    page: &mut Page,
    word: &[u8],
    name: &Wfn,
    state: State,
) -> Result<(), AllocError>
    ensures { OnOk result (page.new ≡ page.old ++ row_line word.now (record { name = name.now; state = state })) }
{
    page.with_bytes(alloc, |bytes| append_state_line(bytes, word, name, state))
}

fn push_row_line(alloc: Global, page: &mut Page, word: &[u8], row: &Row) -> Result<(), AllocError>
    ensures { OnOk result (page.new ≡ page.old ++ row_line word.now row.now) }
{
    push_state_line(alloc, page, word, &row.name, row.state)
}

/// Appends a line for each name to the page.
pub(crate) fn push_names(
    alloc: Global,
    page: &mut Page,
    word: &[u8],
    names: &[Wfn],
) -> Result<(), AllocError>
    ensures { OnOk result (page.new ≡ page.old ++ flat_map (name_line word.now) names.now) }
{
    for name in names {
        push_name_line(alloc, page, word, name)?;
    }
    Ok(())
}

/// Appends a line for each entry to the page.
pub(crate) fn push_rows(
    alloc: Global,
    page: &mut Page,
    word: &[u8],
    rows: &[Row],
) -> Result<(), AllocError>
    ensures { OnOk result (page.new ≡ page.old ++ flat_map (row_line word.now) rows.now) }
{
    for row in rows {
        push_row_line(alloc, page, word, row)?;
    }
    Ok(())
}
