// Why a line is refused.
ghost use Rattle.std.specs.Prelude.{◌≡◌, ◌++◌, OnOk, codes};
ghost use Rattle.cover_lines.specs.Reasons.{cover_reason_text, names_which_word};

use crate::fault::NamesWhich;
use line_session::{Page, Reason};
use std::alloc::{AllocError, Global};

/// Why a line is refused.
#[derive(Debug, Clone, Copy, PartialEq, Eq)]
pub enum CoverReason {
    /// No name has this text as its formatted string or as its URI. The number is the place of the refusal.
    Name(usize),
    /// With the name of the line, this would exceed its limit.
    Full(NamesWhich),
}

impl Reason for CoverReason {
    ghost text = { cover_reason_text };

    fn push(&self, _alloc: Global, page: &mut Page) -> Result<(), AllocError> {
        match self {
            CoverReason::Name(place) => page.push_numbered(b"name ", *place as u64),
            CoverReason::Full(which) => push_full(page, *which),
        }
    }
}

fn which_word(which: NamesWhich) -> &'static [u8]
    ensures { result.now ≡ names_which_word which }
{
    match which {
        NamesWhich::Names => b"names",
        NamesWhich::Weight => b"weight",
    }
}

fn push_full(page: &mut Page, which: NamesWhich) -> Result<(), AllocError>
    ensures { OnOk result (page.new ≡ page.old ++ (codes "full " ++ names_which_word which)) }
{
    page.push(b"full ")?;
    page.push(which_word(which))
}
