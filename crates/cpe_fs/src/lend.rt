// Reads formatted strings as names that borrow the bytes of their texts.
ghost use Rattle.std.specs.Prelude.{◌≡◌, Ok, Err, map, IfOk, IfErr, IfSome, OnOk, MatchResult};
ghost use Rattle.std.specs.List.{AllByRecursion};
ghost use Rattle.cpe_values.specs.Borrowed.{value_lent};
ghost use Rattle.cpe_name.specs.Prelude.{name_lent, named, texts};
ghost use Rattle.cpe_fs.specs.Grammar.{Fs, IsFs, LeavesAt};
ghost use Rattle.cpe_fs.specs.Spans.{IsFsSpan};
ghost use Rattle.cpe_fs.specs.SpanValues.{fs_value_at};
ghost use Rattle.cpe_fs.specs.Unbound.{read_fs};

use crate::scan::scan_fs;
use crate::values::is_only;
use cpe_name::{NameRef, Written};
use cpe_values::{ValueRef, lend_spelling};

// The value that has this component, borrowed from its bytes. `None` if a character of the body has a backslash before
// it.
fn lend_value(span: &[u8]) -> Option<ValueRef<'_>>
    requires { IsFsSpan span.now }
    ensures { IfSome result (λ value. value_lent value ≡ fs_value_at span.now) }
{
    if is_only(span, b'*') {
        Some(ValueRef::Any)
    } else if is_only(span, b'-') {
        Some(ValueRef::Na)
    } else {
        Some(ValueRef::Text(lend_spelling(span)?))
    }
}

// The name whose values have these components. `None` if a value can't be borrowed.
fn lend_values<'a>(written: &Written<'a>) -> Option<NameRef<'a>>
    requires { AllByRecursion IsFsSpan (texts written.now) }
    ensures { IfSome result (λ name. name_lent name ≡ named (map fs_value_at (texts written.now))) }
{
    Some(NameRef {
        part: lend_value(written.part)?,
        vendor: lend_value(written.vendor)?,
        product: lend_value(written.product)?,
        version: lend_value(written.version)?,
        update: lend_value(written.update)?,
        edition: lend_value(written.edition)?,
        language: lend_value(written.language)?,
        sw_edition: lend_value(written.sw_edition)?,
        target_sw: lend_value(written.target_sw)?,
        target_hw: lend_value(written.target_hw)?,
        other: lend_value(written.other)?,
    })
}

/// The name that has this formatted string, borrowed from its bytes (NIST IR 7695, 6.2.3). `None` if a character has a
/// backslash before it; [`unbind_fs`](crate::unbind_fs) makes such a name. Allocates: no.
///
/// # Errors
/// The place of the text as in [`FsFault::At`](crate::FsFault::At), exactly if no name has it.
pub fn lend_fs(text: &[u8]) -> Result<Option<NameRef<'_>>, usize>
    // A lent name has this text.
    ensures lent { IfOk result (λ lent. IfSome lent (λ name. Fs (name_lent name) text.now)) }
    // If there is no error, some name has this text.
    ensures had { OnOk result (IsFs text.now) }
    ensures refused { IfErr result (LeavesAt text.now) }
    // The result equals that of the function `read_fs`, if a name is lent or there is an error.
    ensures read { MatchResult result (λ lent. IfSome lent (λ name. read_fs text.now ≡ Ok (name_lent name))) (λ place. read_fs text.now ≡ Err place) }
{
    match scan_fs(text) {
        Ok(components) => Ok(lend_values(&components)),
        Err(left) => Err(text.len() - left),
    }
}
