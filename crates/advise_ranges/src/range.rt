// Which versions are in a range.
ghost use Rattle.std.specs.Prelude.{◌≡◌, ◌&&◌, not, true};
ghost use Rattle.std.specs.Option.{option_map_or};
ghost use Rattle.cpe_rows.specs.cpe_values.Parts.{has_special};
ghost use Rattle.advise_ranges.specs.Affected.{passes, is_behind, is_before, meets_bounds, has_version_in, is_in_range};

use crate::advisory::Bound;
use advise_versions::version_cmp;
use cpe_rows::{Pattern, Value};
use std::cmp::Ordering;

fn passes(excluded: bool, order: Ordering) -> bool
    ensures { result ≡ passes excluded order }
{
    match order {
        Ordering::Less => true,
        Ordering::Equal => !excluded,
        Ordering::Greater => false,
    }
}

fn is_behind(start: &Bound, version: &[u8]) -> bool
    ensures { result ≡ is_behind start.now version.now }
{
    passes(
        start.excluded,
        version_cmp(start.version.as_str().as_bytes(), version),
    )
}

fn is_before(end: &Bound, version: &[u8]) -> bool
    ensures { result ≡ is_before end.now version.now }
{
    passes(
        end.excluded,
        version_cmp(version, end.version.as_str().as_bytes()),
    )
}

fn meets_start(start: &Option<Bound>, version: &[u8]) -> bool
    ensures { result ≡ option_map_or (λ b. is_behind b version.now) start.now true }
{
    match start {
        Some(start) => is_behind(start, version),
        None => true,
    }
}

fn meets_end(end: &Option<Bound>, version: &[u8]) -> bool
    ensures { result ≡ option_map_or (λ b. is_before b version.now) end.now true }
{
    match end {
        Some(end) => is_before(end, version),
        None => true,
    }
}

fn is_text_in(start: &Option<Bound>, end: &Option<Bound>, text: &Pattern) -> bool
    ensures { result ≡ (not (has_special text.now) && meets_bounds start.now end.now text.now.body) }
{
    !text.has_wildcards() && meets_start(start, text.stem()) && meets_end(end, text.stem())
}

/// Whether a version is in the range of these bounds: there is no bound, or the version is a text without specials that
/// meets them. Allocates: no.
pub(crate) fn is_in_range(start: &Option<Bound>, end: &Option<Bound>, version: &Value) -> bool
    ensures { result ≡ is_in_range start.now end.now version.now }
{
    if start.is_none() && end.is_none() {
        return true;
    }
    match version {
        Value::Text(text) => is_text_in(start, end, text),
        _ => false,
    }
}
