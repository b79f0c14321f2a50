// The reasons for which `convert` refuses a line.
ghost use Rattle.std.specs.Prelude.{◌≡◌, ◌++◌, OnOk};
ghost use Rattle.convert_lines.specs.Convert.{convert_reason_text};

use cpe_records::RecordFault;
use line_replies::{Page, Reason, push_record_fault};
use std::alloc::{AllocError, Global};

/// Why `convert` refuses a line.
#[derive(Clone, Copy, Debug, PartialEq, Eq)]
pub enum ConvertReason {
    /// The line is no record.
    Unread(RecordFault),
    /// The written form of the line's record has more than 65,536 bytes. A line of this length could not be read.
    Grown,
}

impl Reason for ConvertReason {
    ghost text = { convert_reason_text };

    fn push(&self, _alloc: Global, page: &mut Page) -> Result<(), AllocError> {
        match self {
            ConvertReason::Unread(fault) => push_record_fault(page, fault),
            ConvertReason::Grown => page.push(b"grown"),
        }
    }
}
