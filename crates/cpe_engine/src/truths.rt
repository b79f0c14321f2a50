// Truths of facts, which the verdicts keep.
ghost use Rattle.std.specs.Prelude.{◌≡◌, IfSome};
ghost use Rattle.cpe_rows.specs.Prelude.{fact_truth, Rows};
ghost use Rattle.verdicts.specs.Verdicts.{HasVerdicts};

use cpe_rows::{Mode, Truth, Wfn};
use verdicts::{Registry, Verdicts};

/// The truth of a fact in a mode, if it is kept.
pub(crate) fn kept_truth(
    registry: &Registry,
    verdicts: &Verdicts,
    mode: Mode,
    name: &Wfn,
) -> Option<Truth>
    ensures { (rows : Rows) → HasVerdicts registry.now.table verdicts.now rows → IfSome result (λ truth. truth ≡ fact_truth rows mode name.now) }
{
    match registry.find(name) {
        Some(id) => verdicts.truth_of(mode, id),
        None => None,
    }
}
