// The formats of records.
ghost use Rattle.std.specs.Prelude.{◌≡◌};
ghost use Rattle.serde_json.specs.View.{view};
ghost use Rattle.cpe_records.specs.Gives.{ReadsMember};
ghost use Rattle.cpe_records.specs.Formats.{format_of, format_in, format_at};

use crate::{Member, RecordFault};
use serde_json::Value;

/// The format of a record: how its names are written. The member `v` has the format.
#[derive(Debug, Clone, Copy, PartialEq, Eq)]
pub enum Format {
    /// The format of a record without `v`: a name is a text.
    One,
    /// The format of a record whose `v` is the text `2`: a name is a text, or an object of its attributes.
    Two,
}

fn format_of(text: &str) -> Option<Format>
    ensures { result ≡ format_of text.now }
{
    if text == "2" { Some(Format::Two) } else { None }
}

fn format_in(json: &Value) -> Option<Format>
    ensures { result ≡ format_in (view json.now) }
{
    let text = json.as_str()?;
    format_of(text)
}

/// The format of a record, by its member `v`. It is the first if `v` is absent, and the second if `v` is the text `2`.
/// Allocates: no.
///
/// # Errors
/// The fault of the member, exactly if `v` has any other value.
pub(crate) fn format_at(json: &Value) -> Result<Format, RecordFault>
    ensures { ReadsMember result (format_at (view json.now)) }
{
    match json.get(Member::V.key()) {
        Some(value) => format_in(value).ok_or(RecordFault::Member(Member::V)),
        None => Ok(Format::One),
    }
}
