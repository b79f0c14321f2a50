// The reasons for which the line of a record is refused, as text.
ghost use Rattle.std.specs.Prelude.{◌≡◌, ◌++◌, OnOk, codes, decimal};
ghost use Rattle.line_replies.specs.Replies.{name_text};
ghost use Rattle.line_replies.specs.Reasons.{spot_text, record_fault_text, which_word, edit_fault_text, certificate_fault_text, reason_text};

use crate::row::push_name;
use certificate_records::CertificateFault;
use cpe_records::{Member, NameSpot, RecordFault, attribute_word};
use cpe_rows::{Attribute, EditFault, Wfn, Which};
use line_session::{Page, Reason};
use std::alloc::{AllocError, Global};

/// Why the line of a record is refused.
#[derive(Debug, Drop)]
pub enum RecordReason {
    /// The line is no record.
    Unread(RecordFault),
    /// The edit of the line can't be applied to the rows.
    Refused(EditFault),
    /// The line is no record. Its member `do` is `proof`, but the line doesn't have the form of a certificate.
    Unproved(CertificateFault),
}

impl Reason for RecordReason {
    ghost text = { reason_text };

    fn push(&self, alloc: Global, page: &mut Page) -> Result<(), AllocError> {
        match self {
            RecordReason::Unread(fault) => push_record_fault(page, fault),
            RecordReason::Refused(fault) => push_edit_fault(alloc, page, fault),
            RecordReason::Unproved(fault) => push_certificate_fault(page, *fault),
        }
    }
}

/// Appends to the page the reason why a line is no record.
///
/// # Errors
/// Only if memory runs out. The page may end with a part of the reason then.
pub fn push_record_fault(page: &mut Page, fault: &RecordFault) -> Result<(), AllocError>
    ensures { OnOk result (page.new ≡ page.old ++ record_fault_text fault.now) }
{
    match fault {
        RecordFault::Json => page.push(b"json"),
        RecordFault::Member(member) => push_member(page, *member),
        RecordFault::Name(spot, place) => push_wrong_text(page, *spot, *place),
        RecordFault::Attribute(spot, which) => push_attribute(page, *spot, *which),
        RecordFault::TooDeep => page.push(b"deep"),
        RecordFault::Memory => Ok(()),
    }
}

fn push_member(page: &mut Page, member: Member) -> Result<(), AllocError>
    ensures { OnOk result (page.new ≡ page.old ++ record_fault_text (RecordFault.Member member)) }
{
    page.push(b"member ")?;
    page.push(member.key().as_bytes())
}

// Appends a word, and then which name of the record is meant.
fn push_spot(page: &mut Page, word: &[u8], spot: NameSpot) -> Result<(), AllocError>
    ensures { OnOk result (page.new ≡ page.old ++ (word.now ++ spot_text spot)) }
{
    page.push(word)?;
    match spot {
        NameSpot::Name => page.push(b"name"),
        NameSpot::Successor(number) => page.push_numbered(b"successor ", u64::from(number)),
        NameSpot::Fact(number) => page.push_numbered(b"fact ", u64::from(number)),
    }
}

fn push_wrong_text(page: &mut Page, spot: NameSpot, place: usize) -> Result<(), AllocError>
    ensures { OnOk result (page.new ≡ page.old ++ record_fault_text (RecordFault.Name spot place)) }
{
    push_spot(page, b"name ", spot)?;
    page.push_numbered(b" ", place as u64)
}

fn push_attribute(page: &mut Page, spot: NameSpot, which: Attribute) -> Result<(), AllocError>
    ensures { OnOk result (page.new ≡ page.old ++ record_fault_text (RecordFault.Attribute spot which)) }
{
    push_spot(page, b"attribute ", spot)?;
    page.push(b" ")?;
    page.push(attribute_word(which).as_bytes())
}

// Appends a word, and then the place of a successor in the list of successors.
fn push_place(page: &mut Page, word: &[u8], place: u32) -> Result<(), AllocError>
    ensures { OnOk result (page.new ≡ page.old ++ (word.now ++ decimal place)) }
{
    page.push_numbered(word, u64::from(place))
}

fn push_edit_fault(alloc: Global, page: &mut Page, fault: &EditFault) -> Result<(), AllocError>
    ensures { OnOk result (page.new ≡ page.old ++ edit_fault_text fault.now) }
{
    match fault {
        EditFault::NotIdentifier => page.push(b"not-identifier"),
        EditFault::Wildcards => page.push(b"wildcards"),
        EditFault::Exists => page.push(b"exists"),
        EditFault::Unknown => page.push(b"unknown"),
        EditFault::AlreadyDeprecated => page.push(b"already-deprecated"),
        EditFault::NotDeprecated => page.push(b"not-deprecated"),
        EditFault::BadCount => page.push(b"count"),
        EditFault::UnknownSuccessor(place) => push_place(page, b"unknown-successor ", *place),
        EditFault::RepeatedSuccessor(place) => push_place(page, b"repeated-successor ", *place),
        EditFault::Cycle(place) => push_place(page, b"cycle ", *place),
        EditFault::TooWide(name) => push_too_wide(alloc, page, name.as_name()),
        EditFault::Full(which) => push_full(page, *which),
        EditFault::Memory => Ok(()),
    }
}

fn push_too_wide(alloc: Global, page: &mut Page, name: &Wfn) -> Result<(), AllocError>
    ensures { OnOk result (page.new ≡ page.old ++ (codes "too-wide " ++ name_text name.now)) }
{
    page.push(b"too-wide ")?;
    push_name(alloc, page, name)
}

fn push_full(page: &mut Page, which: Which) -> Result<(), AllocError>
    ensures { OnOk result (page.new ≡ page.old ++ (codes "full " ++ which_word which)) }
{
    page.push(b"full ")?;
    match which {
        Which::Entries => page.push(b"entries"),
        Which::Items => page.push(b"items"),
        Which::Statements => page.push(b"statements"),
        Which::Facts => page.push(b"facts"),
        Which::Checks => page.push(b"checks"),
        Which::Weight => page.push(b"weight"),
    }
}

fn push_certificate_fault(page: &mut Page, fault: CertificateFault) -> Result<(), AllocError>
    ensures { OnOk result (page.new ≡ page.old ++ certificate_fault_text fault) }
{
    match fault {
        CertificateFault::Id => page.push(b"member id"),
        CertificateFault::Why => page.push(b"member why"),
        CertificateFault::Memory => Ok(()),
    }
}
