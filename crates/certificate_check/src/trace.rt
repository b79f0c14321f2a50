// Traces: lists of names from a name to one of its ends, each a successor of the name before.
ghost use Rattle.std.specs.Prelude.{◌≡◌, option_copied};
ghost use Rattle.std.specs.List.{list_any, last_or};
ghost use Rattle.cpe_rows.specs.Names.{is_same};
ghost use Rattle.certificate_check.specs.Leading.{followed, deprecation_of, is_end_of, next_of};
ghost use Rattle.certificate_check.specs.Relates.{related};
ghost use Rattle.certificate_check.specs.Tested.{is_walk, first_passes, last_relates, is_fit};

use crate::relates::Relates;
use crate::rows::PlainRows;
use cpe_rows::{Deprecation, Mode, Wfn, is_same};

// ---- where names lead

// The deprecation of the entry of a name in mode `follow`, if there is one. None in mode `plain`.
fn deprecation_in<'a, R: PlainRows>(rows: &'a R, mode: Mode, name: &Wfn) -> Option<&'a Deprecation>
    ensures { option_copied result ≡ deprecation_of (followed (R.rows rows.now) mode) name.now }
{
    match mode {
        Mode::Plain => None,
        Mode::Follow => rows.deprecation_of(name),
    }
}

// Whether the second name is a successor of the first name.
fn is_next<R: PlainRows>(rows: &R, mode: Mode, name: &Wfn, next: &Wfn) -> bool
    ensures { result ≡ list_any (is_same next.now) (next_of (followed (R.rows rows.now) mode) name.now) }
{
    match deprecation_in(rows, mode, name) {
        Some(deprecation) => deprecation
            .successors
            .as_slice()
            .iter()
            .any(|successor| is_same(next, successor)),
        None => false,
    }
}

// Whether the name is an end: it has no deprecated entry, or the mode is `plain`.
fn is_end<R: PlainRows>(rows: &R, mode: Mode, name: &Wfn) -> bool
    ensures { result ≡ is_end_of (followed (R.rows rows.now) mode) name.now }
{
    deprecation_in(rows, mode, name).is_none()
}

// Whether each name is a successor of the name before, and the last name is an end.
fn is_walk<R: PlainRows>(rows: &R, mode: Mode, names: &[Wfn]) -> bool
    ensures { result ≡ is_walk (followed (R.rows rows.now) mode) names.now }
{
    let [first, rest @ ..] = names else {
        return false;
    };
    let mut last = first;
    for name in rest {
        if !is_next(rows, mode, last, name) {
            return false;
        }
        last = name;
    }
    is_end(rows, mode, last)
}

// ---- pairs of traces

fn begins_with(names: &[Wfn], name: &Wfn) -> bool
    ensures { result ≡ first_passes (is_same name.now) names.now }
{
    match names.first() {
        Some(first) => is_same(name, first),
        None => false,
    }
}

fn begins_at_item<R: PlainRows>(rows: &R, names: &[Wfn]) -> bool
    ensures { result ≡ first_passes (λ n. list_any (is_same n) (R.rows rows.now).items) names.now }
{
    match names.first() {
        Some(first) => rows.has_item(first),
        None => false,
    }
}

fn last_relates(relates: Relates, fact: &[Wfn], item: &[Wfn]) -> bool
    ensures { result ≡ last_relates (related relates) (last_or None fact.now) (last_or None item.now) }
{
    let Some(fact) = fact.last() else {
        return false;
    };
    let Some(item) = item.last() else {
        return false;
    };
    relates.holds(fact, item)
}

/// Whether the two lists are a trace of the fact's name and a trace of an item, and their last names have the relation.
pub(crate) fn is_fit<R: PlainRows>(
    rows: &R,
    mode: Mode,
    relates: Relates,
    name: &Wfn,
    fact: &[Wfn],
    item: &[Wfn],
) -> bool
    ensures { result ≡ is_fit (related relates) (R.rows rows.now) mode name.now fact.now item.now }
{
    begins_with(fact, name)
        && is_walk(rows, mode, fact)
        && begins_at_item(rows, item)
        && is_walk(rows, mode, item)
        && last_relates(relates, fact, item)
}
