// The answer to a question for a chain, as lines. The entries of the chain are lent, not copied.
ghost use Rattle.std.specs.Prelude.{◌≡◌, ◌++◌, List, OnOk, codes, filter, length, map, flat_map};
ghost use Rattle.std.specs.Option.{option_copied, option_map_or};
ghost use Rattle.cpe_rows.specs.Prelude.{chain as chain_of, ends, is_active, row_of};
ghost use Rattle.cpe_rows.specs.Lent.{entry_lent};
ghost use Rattle.cpe_rows.specs.declared.entry.Deprecation.{Deprecation};
ghost use Rattle.cpe_rows.specs.declared.entry.Entry.{Entry};
ghost use Rattle.cpe_rows.specs.declared.reply.Reply.TheVariants as reply;
ghost use Rattle.line_replies.specs.Chains.{end_line, lent_text, step_line};
ghost use Rattle.line_replies.specs.Replies.{reply_text};

use crate::reply::push_chain;
use crate::row::{push_name_line, push_state_line};
use cpe_rows::{Deprecation, EntryRef, State, Wfn};
use line_session::Page;
use std::alloc::{AllocError, Global};

/// Appends to the page the lines of the answer to a question for a chain, if `links` are the entries of the name's
/// chain.
///
/// # Errors
/// Only if memory runs out. The bytes of the page may be lost then.
pub fn push_chain_lent(
    alloc: Global,
    page: &mut Page,
    name: &Wfn,
    links: &[EntryRef<'_>],
) -> Result<(), AllocError>
    ensures { (entries : List Entry) → map entry_lent links.now ≡ chain_of entries name.now
        → OnOk result (page.new ≡ page.old ++ reply_text (reply.Chain name.now (map row_of (chain_of entries name.now)) (ends entries name.now))) }
{
    cpe_rows::law::absent_names_are_alone();
    push_links(alloc, page, name, links)
}

// Appends the lines of a chain that has these entries. If there are no entries, the name is its own end.
fn push_links(
    alloc: Global,
    page: &mut Page,
    name: &Wfn,
    links: &[EntryRef<'_>],
) -> Result<(), AllocError>
    ensures { OnOk result (page.new ≡ page.old ++ lent_text name.now links.now) }
{
    if links.is_empty() {
        push_chain(alloc, page, name, 0, 1)?;
        push_name_line(alloc, page, b"end ", name)
    } else {
        push_chain(alloc, page, name, links.len(), count_active(links))?;
        push_steps(alloc, page, links)?;
        push_active(alloc, page, links)
    }
}

// The number of active entries.
fn count_active(links: &[EntryRef<'_>]) -> usize
    ensures { result ≡ length (filter (λ e. is_active (entry_lent e)) links.now) }
{
    links
        .iter()
        .filter(|link| link.deprecation.is_none())
        .count()
}

fn state_of(deprecation: Option<&Deprecation>) -> State
    ensures { result ≡ option_map_or (λ (d : Deprecation). State.Deprecated d.kind) (option_copied deprecation.entry) State.Active }
{
    match deprecation {
        Some(deprecation) => State::Deprecated(deprecation.kind),
        None => State::Active,
    }
}

// Appends the line of an entry of the chain.
fn push_step(alloc: Global, page: &mut Page, link: EntryRef<'_>) -> Result<(), AllocError>
    ensures { OnOk result (page.new ≡ page.old ++ step_line (entry_lent link.entry)) }
{
    push_state_line(alloc, page, b"step ", link.name, state_of(link.deprecation))
}

// Appends a line for each entry.
fn push_steps(alloc: Global, page: &mut Page, links: &[EntryRef<'_>]) -> Result<(), AllocError>
    ensures { OnOk result (page.new ≡ page.old ++ flat_map (λ e. step_line (entry_lent e)) links.now) }
{
    for link in links {
        push_step(alloc, page, *link)?;
    }
    Ok(())
}

// Appends the line of an active entry, which is an end. Appends nothing for a deprecated entry.
fn push_end(alloc: Global, page: &mut Page, link: EntryRef<'_>) -> Result<(), AllocError>
    ensures { OnOk result (page.new ≡ page.old ++ end_line (entry_lent link.entry)) }
{
    if link.deprecation.is_none() {
        push_name_line(alloc, page, b"end ", link.name)
    } else {
        Ok(())
    }
}

// Appends a line for each active entry.
fn push_active(alloc: Global, page: &mut Page, links: &[EntryRef<'_>]) -> Result<(), AllocError>
    ensures { OnOk result (page.new ≡ page.old ++ flat_map (λ e. end_line (entry_lent e)) links.now) }
{
    for link in links {
        push_end(alloc, page, *link)?;
    }
    Ok(())
}
