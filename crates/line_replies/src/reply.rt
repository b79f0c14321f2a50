// The answers to questions, as lines.
ghost use Rattle.std.specs.Prelude.{◌≡◌, ◌++◌, OnOk, codes, option_map};
ghost use Rattle.line_replies.specs.Replies.{state_word, name_text, count_line, chain_line, found_line, found_entry_text, verdict_line, reply_text};
ghost use Rattle.record_writer.specs.Written.{entry_text};

use crate::row::{push_name, push_names, push_rows, push_state};
use cpe_records::truth_word;
use cpe_rows::{Entry, Reply, State, Truth, Wfn};
use line_session::Page;
use record_writer::append_entry;
use std::alloc::{AllocError, Global};

/// Appends the lines of an answer to the page.
///
/// # Errors
/// Only if memory runs out. The bytes of the page may be lost then.
pub fn push_reply(alloc: Global, page: &mut Page, reply: &Reply) -> Result<(), AllocError>
    ensures { OnOk result (page.new ≡ page.old ++ reply_text reply.now) }
{
    match reply {
        Reply::Lookup { name, state } => push_lookup(alloc, page, name, *state),
        Reply::Search { name, rows } => {
            push_count(alloc, page, b"search ", name, rows.len())?;
            push_rows(alloc, page, b"entry ", rows.as_slice())
        }
        Reply::Items { name, rows, maybe } => {
            push_count(alloc, page, b"items ", name, rows.len())?;
            push_names(alloc, page, b"item ", rows.as_slice())?;
            push_names(alloc, page, b"maybe ", maybe.as_slice())
        }
        Reply::Chain { name, links, ends } => {
            push_chain(alloc, page, name, links.len(), ends.len())?;
            push_rows(alloc, page, b"step ", links.as_slice())?;
            push_names(alloc, page, b"end ", ends.as_slice())
        }
        Reply::Show { name, entry } => push_shown(alloc, page, name, entry),
        Reply::Verdict { id, truth } => push_verdict(page, id.as_str(), *truth),
    }
}

// Appends the first line of an answer: a word, the name, and the number of entries, or of covered items.
fn push_count(
    alloc: Global,
    page: &mut Page,
    word: &[u8],
    name: &Wfn,
    count: usize,
) -> Result<(), AllocError>
    ensures { OnOk result (page.new ≡ page.old ++ count_line word.now name.now count) }
{
    page.push(word)?;
    push_name(alloc, page, name)?;
    page.push_numbered(b" ", count as u64)?;
    page.push(b"\n")
}

pub(crate) fn push_chain(
    alloc: Global,
    page: &mut Page,
    name: &Wfn,
    links: usize,
    ends: usize,
) -> Result<(), AllocError>
    ensures { OnOk result (page.new ≡ page.old ++ chain_line name.now links ends) }
{
    page.push(b"chain ")?;
    push_name(alloc, page, name)?;
    page.push_numbered(b" ", links as u64)?;
    page.push_numbered(b" ", ends as u64)?;
    page.push(b"\n")
}

fn push_lookup(
    alloc: Global,
    page: &mut Page,
    name: &Wfn,
    state: Option<State>,
) -> Result<(), AllocError>
    ensures { OnOk result (page.new ≡ page.old ++ found_line (codes "lookup " ++ name_text name.now) (option_map state_word state)) }
{
    page.push(b"lookup ")?;
    push_name(alloc, page, name)?;
    page.push(b" ")?;
    match state {
        Some(state) => push_state(page, state)?,
        None => page.push(b"absent")?,
    }
    page.push(b"\n")
}

fn push_shown(
    alloc: Global,
    page: &mut Page,
    name: &Wfn,
    entry: &Option<Entry>,
) -> Result<(), AllocError>
    ensures { OnOk result (page.new ≡ page.old ++ found_entry_text name.now entry.now) }
{
    page.push(b"show ")?;
    match entry {
        Some(entry) => {
            push_entry(alloc, page, entry)?;
            page.push(b"\n")
        }
        None => {
            push_name(alloc, page, name)?;
            page.push(b" absent\n")
        }
    }
}

fn push_entry(alloc: Global, page: &mut Page, entry: &Entry) -> Result<(), AllocError>
    ensures { OnOk result (page.new ≡ page.old ++ entry_text entry.now) }
{
    page.with_bytes(alloc, |bytes| append_entry(alloc, bytes, entry))
}

/// Appends the line of a verdict to the page: the id of the statement, and then the truth, or `absent` if there is
/// none.
///
/// # Errors
/// Only if memory runs out. The page may end with a part of the line then.
pub fn push_verdict(page: &mut Page, id: &str, truth: Option<Truth>) -> Result<(), AllocError>
    ensures { OnOk result (page.new ≡ page.old ++ verdict_line id.now truth) }
{
    page.push(b"verdict ")?;
    page.push(id.as_bytes())?;
    page.push(b" ")?;
    match truth {
        Some(truth) => page.push(truth_word(truth).as_bytes())?,
        None => page.push(b"absent")?,
    }
    page.push(b"\n")
}
