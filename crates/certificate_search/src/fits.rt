// Why a fact has its truth: the first item that shows it, with the paths of fact and item to their ends.
ghost use Rattle.std.specs.Prelude.{◌≡◌, ◌∷◌, [], IfOk, IfSome, None, find, map, slice_get, flat_map, option_copied, option_map};
ghost use Rattle.cpe_rows.specs.Prelude.{ends, maybe};
ghost use Rattle.certificate_check.specs.Leading.{followed};
ghost use Rattle.certificate_check.specs.Relates.{related, truth_of_relates};
ghost use Rattle.certificate_search.specs.Choices.{fact_why, first_fit, fits_at, why_of_pair, why_by_fits};
ghost use Rattle.certificate_search.specs.Lent.{lent_fit};

use crate::paths::trace;
use crate::rows::ExplainedRows;
use certificate_check::{Relates, Why};
use cpe_rows::{Memory, Mode, Truth, Wfn};
use std::alloc::Global;

/// An item, an end of the item, and an end of a fact.
#[derive(Clone, Copy)]
pub(crate) struct FitRef<'a> {
    item: &'a Wfn,
    item_end: &'a Wfn,
    fact_end: &'a Wfn,
}

fn alone<'a>(alloc: Global, name: &'a Wfn) -> Result<Vec<&'a Wfn>, Memory>
    ensures { IfOk result (λ names. map (λ n. n.now) names.items ≡ name.now ∷ []) }
{
    let mut names = Vec::with_capacity(alloc, 1)?;
    names.push(name)?;
    Ok(names)
}

// The ends of a name in a mode, in the order of their entries.
fn ends_in<'a, R: ExplainedRows>(
    alloc: Global,
    rows: &'a R,
    mode: Mode,
    name: &'a Wfn,
) -> Result<Vec<&'a Wfn>, Memory>
    ensures { IfOk result (λ names. map (λ n. n.now) names.items ≡ ends (followed (R.rows rows.now) mode) name.now) }
{
    match mode {
        Mode::Plain => alone(alloc, name),
        Mode::Follow => rows.ends(alloc, name),
    }
}

// The first of these names that is related to `name`.
fn first_relating<'a>(relates: Relates, names: &[&'a Wfn], name: &Wfn) -> Option<&'a Wfn>
    ensures { option_copied result ≡ find (λ n. related relates n name.now) (map (λ n. n.now) names.now) }
{
    for relating in names {
        if relates.holds(*relating, name) {
            return Some(*relating);
        }
    }
    None
}

// The first fit of an item.
fn fit_of<'a>(
    relates: Relates,
    fact_ends: &[&'a Wfn],
    item: &'a Wfn,
    item_ends: &[&'a Wfn],
) -> Option<FitRef<'a>>
    ensures { option_map lent_fit result ≡ slice_get (flat_map (fits_at (related relates) (map (λ n. n.now) fact_ends.now) item.now) (map (λ n. n.now) item_ends.now)) 0 }
{
    for item_end in item_ends {
        if let Some(fact_end) = first_relating(relates, fact_ends, *item_end) {
            return Some(FitRef {
                item,
                item_end: *item_end,
                fact_end,
            });
        }
    }
    None
}

// The certificate of a fact by a fit: a truth, and the traces to both ends.
fn pair<R: ExplainedRows>(
    alloc: Global,
    rows: &R,
    mode: Mode,
    name: &Wfn,
    truth: Truth,
    fit: &FitRef<'_>,
) -> Result<Why, Memory>
    ensures { IfOk result (λ w. w ≡ why_of_pair (followed (R.rows rows.now) mode) name.now truth (lent_fit fit.now)) }
{
    let fact = trace(alloc, rows, mode, name, fit.fact_end)?;
    let item = trace(alloc, rows, mode, fit.item, fit.item_end)?;
    Ok(Why::Pair { truth, fact, item })
}

// The certificate of a fact by the first fit of an item, if the item has a fit.
fn item_why<R: ExplainedRows>(
    alloc: Global,
    rows: &R,
    mode: Mode,
    relates: Relates,
    name: &Wfn,
    item: &Wfn,
) -> Result<Why, Memory>
    ensures { IfOk result (λ w. IfSome (slice_get (flat_map (fits_at (related relates) (ends (followed (R.rows rows.now) mode) name.now) item.now) (ends (followed (R.rows rows.now) mode) item.now)) 0) (λ fit. w ≡ why_of_pair (followed (R.rows rows.now) mode) name.now (truth_of_relates relates) fit)) }
{
    let fact_ends = ends_in(alloc, rows, mode, name)?;
    let item_ends = ends_in(alloc, rows, mode, item)?;
    match fit_of(relates, &fact_ends, item, &item_ends) {
        Some(fit) => pair(alloc, rows, mode, name, relates.truth(), &fit),
        None => Ok(Why::Plain(Truth::False)),
    }
}

// Why a fact that is not TRUE has its truth.
fn other_why<R: ExplainedRows>(
    alloc: Global,
    rows: &R,
    mode: Mode,
    name: &Wfn,
) -> Result<Why, Memory>
    ensures { IfOk result (λ w. w ≡ why_by_fits (followed (R.rows rows.now) mode) name.now None (first_fit maybe (followed (R.rows rows.now) mode) (R.rows rows.now).items name.now)) }
{
    match rows.first_item(alloc, Relates::MayCover, mode, name)? {
        Some(item) => item_why(alloc, rows, mode, Relates::MayCover, name, item),
        None => Ok(Why::Plain(Truth::False)),
    }
}

/// Why a fact has its truth.
///
/// # Errors
/// Only that memory ran out.
pub(crate) fn fact_why<R: ExplainedRows>(
    alloc: Global,
    rows: &R,
    mode: Mode,
    name: &Wfn,
) -> Result<Why, Memory>
    ensures { IfOk result (λ w. w ≡ fact_why (R.rows rows.now) mode name.now) }
{
    match rows.first_item(alloc, Relates::Covers, mode, name)? {
        Some(item) => item_why(alloc, rows, mode, Relates::Covers, name, item),
        None => other_why(alloc, rows, mode, name),
    }
}
