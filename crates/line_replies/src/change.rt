// The verdicts that an edit changes, as lines.
ghost use Rattle.std.specs.Prelude.{◌≡◌, ◌++◌, OnOk};
ghost use Rattle.line_replies.specs.Replies.{truth_or_none, change_line};

use cpe_records::truth_word;
use cpe_rows::{Changed, Truth};
use line_session::Page;
use std::alloc::AllocError;

/// Appends the line of a changed verdict to the page. The line has the number of the line whose edit changed the
/// verdict, the id of the statement, and the truths before and after the edit. A missing truth is written as `none`.
///
/// # Errors
/// Only if memory runs out. The page may end with a part of the line then.
pub fn push_change(
    page: &mut Page,
    number: u64,
    id: &str,
    change: &Changed,
) -> Result<(), AllocError>
    ensures { OnOk result (page.new ≡ page.old ++ change_line number id.now change.now) }
{
    page.push_numbered(b"changed ", number)?;
    page.push(b" ")?;
    page.push(id.as_bytes())?;
    page.push(b" ")?;
    page.push(word_or_none(change.before))?;
    page.push(b" ")?;
    page.push(word_or_none(change.after))?;
    page.push(b"\n")
}

fn word_or_none(truth: Option<Truth>) -> &'static [u8]
    ensures { result.now ≡ truth_or_none truth }
{
    match truth {
        Some(truth) => truth_word(truth).as_bytes(),
        None => b"none",
    }
}
