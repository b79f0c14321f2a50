// Tests the part of a certificate that is given for a fact reference.
ghost use Rattle.std.specs.Prelude.{◌≡◌, IfOk, not};
ghost use Rattle.cpe_rows.specs.Truth.{same_truth};
ghost use Rattle.cpe_rows.specs.Verdict.{fact_truth};
ghost use Rattle.certificate_check.specs.Tested.{pair_passes, fact_passes};
ghost use Rattle.certificate_check.specs.declared.certificate.Why.{out-Why};

use crate::certificate::Why;
use crate::check::is_truth;
use crate::relates::Relates;
use crate::rows::PlainRows;
use crate::trace::is_fit;
use cpe_rows::{Memory, Mode, Truth, Wfn};
use std::alloc::Global;

// Whether the reference to a fact of this name has this truth.
fn has_truth<R: PlainRows>(
    alloc: Global,
    rows: &R,
    mode: Mode,
    name: &Wfn,
    truth: Truth,
) -> Result<bool, Memory>
    ensures { IfOk result (λ tested. tested ≡ same_truth (fact_truth (R.rows rows.now) mode name.now) truth) }
{
    let found = rows.find_fact(alloc, mode, name)?;
    Ok(is_truth(found, truth))
}

// Whether the two traces of a pair show this truth.
fn pair_passes<R: PlainRows>(
    alloc: Global,
    rows: &R,
    mode: Mode,
    name: &Wfn,
    truth: Truth,
    fact: &[Wfn],
    item: &[Wfn],
) -> Result<bool, Memory>
    ensures { IfOk result (λ passed. passed ≡ pair_passes (R.rows rows.now) mode name.now truth fact.now item.now) }
{
    match truth {
        Truth::True => Ok(is_fit(rows, mode, Relates::Covers, name, fact, item)),
        Truth::False => Ok(false),
        Truth::Error => Ok(false),
        Truth::Unknown => {
            if !is_fit(rows, mode, Relates::MayCover, name, fact, item) {
                return Ok(false);
            }
            Ok(!has_truth(alloc, rows, mode, name, Truth::True)?)
        }
    }
}

/// Whether the part of a certificate is good for a reference to a fact of this name.
///
/// # Errors
/// Only if memory runs out.
pub(crate) fn fact_passes<R: PlainRows>(
    alloc: Global,
    rows: &R,
    mode: Mode,
    name: &Wfn,
    why: &Why,
) -> Result<bool, Memory>
    ensures { IfOk result (λ passed. passed ≡ fact_passes (R.rows rows.now) mode name.now (out-Why why.now)) }
{
    match why {
        Why::Logic { .. } => Ok(false),
        Why::Pair { truth, fact, item } => pair_passes(
            alloc,
            rows,
            mode,
            name,
            *truth,
            fact.as_slice(),
            item.as_slice(),
        ),
        Why::Plain(truth) => {
            if !is_truth(*truth, Truth::False) {
                return Ok(false);
            }
            has_truth(alloc, rows, mode, name, Truth::False)
        }
    }
}
