// The answers to questions as lines.
ghost use Rattle.std.specs.Prelude.{◌≡◌, ◌++◌, OnOk, codes, length, flat_map};
ghost use Rattle.advise_ranges.specs.Lines.{advisory_line, affected_text, count_end, item_line, name_text, advice_reply_text};

use crate::edit::AdviceReply;
use cpe_fs::append_fs;
use cpe_rows::{List, Text, Wfn};
use line_session::Page;
use std::alloc::{AllocError, Global};

/// Appends the lines of an answer to the page.
///
/// # Errors
/// Only that memory ran out. The content of the page may then be lost.
pub(crate) fn push_reply(
    alloc: Global,
    page: &mut Page,
    reply: &AdviceReply,
) -> Result<(), AllocError>
    ensures { OnOk result (page.new ≡ page.old ++ advice_reply_text reply.now) }
{
    match reply {
        AdviceReply::Affected { id, rows } => push_affected(alloc, page, id.as_str(), rows),
        AdviceReply::Advisories { name, ids } => {
            page.push(b"advisories ")?;
            push_name(alloc, page, name)?;
            push_count(page, ids.len())?;
            push_ids(page, ids.as_slice())
        }
    }
}

fn push_affected(
    alloc: Global,
    page: &mut Page,
    id: &str,
    items: &Option<List<Wfn>>,
) -> Result<(), AllocError>
    ensures { OnOk result (page.new ≡ page.old ++ affected_text id.now items.now) }
{
    page.push(b"affected ")?;
    page.push(id.as_bytes())?;
    match items {
        Some(items) => {
            push_count(page, items.len())?;
            push_items(alloc, page, items.as_slice())
        }
        None => page.push(b" absent\n"),
    }
}

#[tactic(auto, unfolding(crate::specs::Lines::name_text))]
fn push_name(alloc: Global, page: &mut Page, name: &Wfn) -> Result<(), AllocError>
    ensures { OnOk result (page.new ≡ page.old ++ name_text name.now) }
{
    page.with_bytes(alloc, |bytes| append_fs(bytes, name))
}

// Appends the number of lines that follow.
fn push_count(page: &mut Page, count: usize) -> Result<(), AllocError>
    ensures { OnOk result (page.new ≡ page.old ++ count_end count) }
{
    page.push_numbered(b" ", count as u64)?;
    page.push(b"\n")
}

fn push_item(alloc: Global, page: &mut Page, name: &Wfn) -> Result<(), AllocError>
    ensures { OnOk result (page.new ≡ page.old ++ item_line name.now) }
{
    page.push(b"item ")?;
    push_name(alloc, page, name)?;
    page.push(b"\n")
}

fn push_items(alloc: Global, page: &mut Page, names: &[Wfn]) -> Result<(), AllocError>
    ensures { OnOk result (page.new ≡ page.old ++ flat_map item_line names.now) }
{
    for name in names {
        push_item(alloc, page, name)?;
    }
    Ok(())
}

fn push_id(page: &mut Page, id: &Text) -> Result<(), AllocError>
    ensures { OnOk result (page.new ≡ page.old ++ advisory_line id.now) }
{
    page.push(b"advisory ")?;
    page.push(id.as_str().as_bytes())?;
    page.push(b"\n")
}

fn push_ids(page: &mut Page, ids: &[Text]) -> Result<(), AllocError>
    ensures { OnOk result (page.new ≡ page.old ++ flat_map advisory_line ids.now) }
{
    for id in ids {
        push_id(page, id)?;
    }
    Ok(())
}
