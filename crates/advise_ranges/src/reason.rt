// Why a line is refused.
ghost use Rattle.std.specs.Prelude.{◌≡◌, ◌++◌, OnOk, codes};
ghost use Rattle.advise_ranges.specs.Reasons.{read_fault_text, advice_which_word, advice_fault_text, advice_reason_text};

use crate::edit::{AdviceFault, AdviceWhich};
use crate::member::{AdviceMember, AdviceReadFault};
use line_session::{Page, Reason};
use std::alloc::{AllocError, Global};

/// Why a line is refused.
#[derive(Debug, Clone, Copy, PartialEq, Eq)]
pub enum AdviceReason {
    /// The line is no record.
    Unread(AdviceReadFault),
    /// The edit of the line is refused.
    Refused(AdviceFault),
}

impl Reason for AdviceReason {
    ghost text = { advice_reason_text };

    fn push(&self, _alloc: Global, page: &mut Page) -> Result<(), AllocError> {
        match self {
            AdviceReason::Unread(fault) => push_read_fault(page, *fault),
            AdviceReason::Refused(fault) => push_edit_fault(page, *fault),
        }
    }
}

fn push_read_fault(page: &mut Page, fault: AdviceReadFault) -> Result<(), AllocError>
    ensures { OnOk result (page.new ≡ page.old ++ read_fault_text fault) }
{
    match fault {
        AdviceReadFault::Json => page.push(b"json"),
        AdviceReadFault::Member(member) => push_member(page, member),
        AdviceReadFault::Name(place) => page.push_numbered(b"name name ", place as u64),
        AdviceReadFault::Memory => Ok(()),
    }
}

fn push_member(page: &mut Page, member: AdviceMember) -> Result<(), AllocError>
    ensures { OnOk result (page.new ≡ page.old ++ read_fault_text (AdviceReadFault.Member member)) }
{
    page.push(b"member ")?;
    page.push(member.key().as_bytes())
}

fn which_word(which: AdviceWhich) -> &'static [u8]
    ensures { result.now ≡ advice_which_word which }
{
    match which {
        AdviceWhich::Items => b"items",
        AdviceWhich::Advisories => b"advisories",
        AdviceWhich::Weight => b"weight",
    }
}

fn push_edit_fault(page: &mut Page, fault: AdviceFault) -> Result<(), AllocError>
    ensures { OnOk result (page.new ≡ page.old ++ advice_fault_text fault) }
{
    match fault {
        AdviceFault::Wildcards => page.push(b"wildcards"),
        AdviceFault::Version => page.push(b"version"),
        AdviceFault::Exists => page.push(b"exists"),
        AdviceFault::Unknown => page.push(b"unknown"),
        AdviceFault::Full(which) => push_full(page, which),
        AdviceFault::Memory => Ok(()),
    }
}

fn push_full(page: &mut Page, which: AdviceWhich) -> Result<(), AllocError>
    ensures { OnOk result (page.new ≡ page.old ++ (codes "full " ++ advice_which_word which)) }
{
    page.push(b"full ")?;
    page.push(which_word(which))
}
