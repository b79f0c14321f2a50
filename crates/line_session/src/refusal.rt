// What a refused line writes.
ghost use Rattle.std.specs.Prelude.{◌≡◌, ◌++◌, OnOk, codes};
ghost use Rattle.line_session.specs.Session.{refusal};

use crate::page::Page;
use crate::speaker::Reason;
use std::alloc::{AllocError, Global};

/// A reason: the line has more than 65,536 bytes.
#[derive(Clone, Copy, Debug, PartialEq, Eq)]
pub struct TooLong;

impl Reason for TooLong {
    ghost text = { λ _. codes "long" };

    fn push(&self, _alloc: Global, page: &mut Page) -> Result<(), AllocError> {
        page.push(b"long")
    }
}

/// Appends to the page the refusal of the line of this number.
pub fn push_refusal<R: Reason>(
    alloc: Global,
    page: &mut Page,
    number: u64,
    reason: &R,
) -> Result<(), AllocError>
    ensures { OnOk result (page.new ≡ page.old ++ refusal number (R.text reason.now)) }
{
    page.push_numbered(b"refused ", number)?;
    page.push(b" ")?;
    reason.push(alloc, page)?;
    page.push(b"\n")
}
