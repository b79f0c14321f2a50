// Why a result is refused.
ghost use Rattle.std.specs.Prelude.{◌≡◌, length, nat_lt};
ghost use Rattle.cpe_rows.specs.Prelude.{first_some, most, with_check};
ghost use Rattle.cpe_rows.specs.declared.truth.Truth.{Truth};
ghost use Rattle.cpe_rows.specs.declared.fault.Which.TheVariants as which;
ghost use Rattle.cpe_rows.specs.Causes.{check_causes};

use crate::Checks;
use cpe_rows::{CheckKey, EditFault, MOST_CHECKS, Which};

/// Why a result can't be set for a key: the first cause in the order of [`EditFault`], without the weight. The causes
/// are the same for every result. Allocates: no.
pub fn check_fault(checks: &Checks, key: &CheckKey) -> Option<EditFault>
    ensures { (truth : Truth) → result ≡ first_some (check_causes checks.now.list key.now truth) }
{
    if has_too_many_checks(checks, key) {
        return Some(EditFault::Full(Which::Checks));
    }
    None
}

// Whether there would be too many results after a result for this key is set.
fn has_too_many_checks(checks: &Checks, key: &CheckKey) -> bool
    ensures { (truth : Truth) → result ≡ nat_lt (most which.Checks) (length (with_check key.now truth checks.now.list)) }
{
    if checks.has(key) {
        checks.len() > MOST_CHECKS
    } else {
        checks.len() >= MOST_CHECKS
    }
}
