// What `convert` writes for a line.
ghost use Rattle.std.specs.Prelude.{◌≡◌, true, IfOk};
ghost use Rattle.line_replies.specs.line_session.Pages.{AppendsPage};
ghost use Rattle.cpe_records.specs.Reading.{record_of};
ghost use Rattle.cpe_records.specs.Taken.{is_valid_record};
ghost use Rattle.record_writer.specs.WrittenRecord.{record_text};
ghost use Rattle.convert_lines.specs.Convert.{convert_line, converted};

use crate::reason::ConvertReason;
use cpe_records::{Record, RecordFault, read_record};
use line_replies::{LONGEST, Page, Stateless};
use record_writer::write_record;
use std::alloc::{AllocError, Global};

/// The command `convert`: each line is a record, and is written in the one form that it has in the second format. No
/// edit is applied.
#[derive(Clone, Copy, Debug, PartialEq, Eq)]
pub struct Convert;

impl Stateless for Convert {
    type Reason = ConvertReason;

    ghost says = { λ _ text. converted (record_of text) };

    fn say(
        &self,
        alloc: Global,
        page: &mut Page,
        text: &[u8],
    ) -> Result<Option<ConvertReason>, AllocError> {
        match read_record(alloc, text) {
            Ok(record) => say_form(alloc, page, record),
            Err(RecordFault::Memory) => Err(AllocError),
            Err(fault) => Ok(Some(ConvertReason::Unread(fault))),
        }
    }
}

// Appends the written form of a record to the page, as a line. If the form is too long for a line, returns that
// instead.
#[inline(never)]
fn say_form(
    alloc: Global,
    page: &mut Page,
    what: Record,
) -> Result<Option<ConvertReason>, AllocError>
    ensures { IfOk result (AppendsPage (convert_line (record_text what)) page.old page.new) }
{
    let form = form_of(alloc, what)?;
    say_line(page, &form)
}

// The written form of a record. The record is dropped.
fn form_of(alloc: Global, what: Record) -> Result<Vec<u8>, AllocError>
    ensures { IfOk result (λ form. form.items ≡ record_text what) }
{
    match write_record(alloc, &what) {
        Ok(form) => Ok(form),
        Err(_) => Err(AllocError),
    }
}

fn say_line(page: &mut Page, form: &[u8]) -> Result<Option<ConvertReason>, AllocError>
    ensures { IfOk result (AppendsPage (convert_line form.now) page.old page.new) }
{
    if form.len() > LONGEST {
        return Ok(Some(ConvertReason::Grown));
    }
    page.push(form)?;
    page.push(b"\n")?;
    Ok(None)
}
