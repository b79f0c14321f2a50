// The lines that `drill` writes about the outcome of records.
ghost use Rattle.std.specs.Prelude.{◌≡◌, ◌++◌, OnOk, flat_map};
ghost use Rattle.drill_lines.specs.Summary.{number_line, summary_of, summary};

use crate::drilled::Drilled;
use crate::tally::{Tally, count_verdicts};
use cpe_rows::Counts;
use line_session::Page;
use std::alloc::AllocError;

/// A line of a word and its number.
#[derive(Clone, Copy)]
pub struct NumberLine(pub &'static [u8], pub u64);

/// Appends the twelve lines about the outcome of `count` records to the page.
///
/// # Errors
/// Only if memory runs out.
#[tactic(auto, unfolding(crate::specs::Summary::summary))]
pub fn push_summary(page: &mut Page, count: u32, drilled: &Drilled) -> Result<(), AllocError>
    ensures { OnOk result (page.new ≡ page.old ++ summary count drilled.now.refused drilled.now.found drilled.now.engine) }
{
    let so_far = count_verdicts(&drilled.engine);
    let counts = drilled.engine.counts();
    push_numbers(
        page,
        u64::from(count),
        drilled.refused,
        drilled.found,
        &counts,
        so_far,
    )
}

fn push_numbers(
    page: &mut Page,
    count: u64,
    refused: u64,
    found: u64,
    counts: &Counts,
    so_far: Tally,
) -> Result<(), AllocError>
    ensures { OnOk result (page.new ≡ page.old ++ summary_of count refused found counts.now so_far) }
{
    push_number_lines(
        page,
        &[
            NumberLine(b"drill", count),
            NumberLine(b"refused", refused),
            NumberLine(b"entries", counts.entries),
            NumberLine(b"deprecated", counts.deprecated),
            NumberLine(b"items", counts.items),
            NumberLine(b"statements", counts.statements),
            NumberLine(b"checks", counts.checks),
            NumberLine(b"found", found),
            NumberLine(b"TRUE", so_far.trues),
            NumberLine(b"FALSE", so_far.falses),
            NumberLine(b"ERROR", so_far.errors),
            NumberLine(b"UNKNOWN", so_far.unknowns),
        ],
    )
}

/// Appends a line for each word and its number to the page.
///
/// # Errors
/// Only if memory runs out.
pub fn push_number_lines(page: &mut Page, lines: &[NumberLine]) -> Result<(), AllocError>
    ensures { OnOk result (page.new ≡ page.old ++ flat_map (λ line. number_line line.0.now line.1) lines.now) }
{
    for line in lines {
        push_line(page, line.0, line.1)?;
    }
    Ok(())
}

fn push_line(page: &mut Page, word: &[u8], number: u64) -> Result<(), AllocError>
    ensures { OnOk result (page.new ≡ page.old ++ number_line word.now number) }
{
    page.push(word)?;
    page.push_numbered(b" ", number)?;
    page.push(b"\n")
}
