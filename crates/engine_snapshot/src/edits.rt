// Edits that each add one row. The edit is taken if the rows that the snapshot means are lawful.
ghost use Rattle.std.specs.Prelude.{◌≡◌, ◌∷◌, [], IfErr, List as Items, OnErr, OnOk, true};
ghost use Rattle.cpe_rows.specs.Prelude.{after, is_valid_edit, IsLawful};
ghost use Rattle.cpe_rows.specs.declared.test.CheckKey.{CheckKey as KeyRow};
ghost use Rattle.cpe_rows.specs.declared.truth.Truth.{Truth as TruthRow};
ghost use Rattle.snapshot_bytes.specs.States.{pair_of_result};
ghost use Rattle.engine_snapshot.specs.Begun.{adopt_fault, IsLawfulEdit, with_checks};

use cpe_engine::{AdoptFault, Engine, Steps};
use cpe_rows::{Edit, EditFault};
use snapshot_bytes::KeptResult;
use std::sync::ledger::Ledger;

// Drops an edit that isn't valid, or a key for which a result is kept already, and returns that the rows aren't lawful.
fn refuse<T: Drop>(refused: T) -> AdoptFault
    ensures { result ≡ AdoptFault.Unlawful }
{
    drop(refused);
    AdoptFault::Unlawful
}

fn fault_of(fault: EditFault) -> AdoptFault
    ensures { result ≡ adopt_fault fault }
{
    match fault {
        EditFault::Memory => AdoptFault::Memory,
        other => {
            drop(other);
            AdoptFault::Unlawful
        }
    }
}

/// Makes an edit that is valid.
///
/// # Errors
/// That the edit has a fault, or that memory ran out. The rows are then unchanged.
pub(crate) fn make_valid<L: Ledger>(
    engine: &mut Engine,
    edit: Edit,
    steps: &mut Steps<L>,
) -> Result<(), AdoptFault>
    requires { is_valid_edit edit ≡ true }
    ensures taken { OnOk result (IsLawfulEdit engine.old edit) }
    ensures ok { OnOk result (engine.new ≡ after engine.old edit) }
    ensures err { OnErr result (engine.new ≡ engine.old) }
    ensures unlawful { IfErr result (λ f. f ≡ AdoptFault.Unlawful → IsLawfulEdit engine.old edit → ⊥) }
{
    match engine.apply(edit, steps) {
        Ok(changes) => {
            drop(changes);
            Ok(())
        }
        Err(fault) => Err(fault_of(fault)),
    }
}

/// Makes an edit, if it is valid.
///
/// # Errors
/// That the edit isn't valid or has a fault, or that memory ran out. The rows are then unchanged.
pub(crate) fn make<L: Ledger>(
    engine: &mut Engine,
    edit: Edit,
    steps: &mut Steps<L>,
) -> Result<(), AdoptFault>
    ensures taken { OnOk result (IsLawfulEdit engine.old edit) }
    ensures ok { OnOk result (engine.new ≡ after engine.old edit) }
    ensures err { OnErr result (engine.new ≡ engine.old) }
    ensures unlawful { IfErr result (λ f. f ≡ AdoptFault.Unlawful → IsLawfulEdit engine.old edit → ⊥) }
{
    if edit.valid() {
        make_valid(engine, edit, steps)
    } else {
        Err(refuse(edit))
    }
}

/// Adds the result of a check at the end, if none is kept for its key.
///
/// # Errors
/// That a result is kept for the key, or there are too many results: no lawful rows then continue with this result. Or
/// that memory ran out. The rows are then unchanged.
pub(crate) fn add_check<L: Ledger>(
    engine: &mut Engine,
    kept: KeptResult,
    steps: &mut Steps<L>,
) -> Result<(), AdoptFault>
    ensures ok { OnOk result (engine.new ≡ with_checks engine.old (pair_of_result kept ∷ [])) }
    ensures err { OnErr result (engine.new ≡ engine.old) }
    ensures unlawful { IfErr result (λ f. f ≡ AdoptFault.Unlawful → (more : Items (KeyRow × TruthRow)) → IsLawful (with_checks engine.old (pair_of_result kept ∷ more)) → ⊥) }
{
    let KeptResult { key, result } = kept;
    if engine.has_check(&key) {
        return Err(refuse(key));
    }
    make(engine, Edit::SetCheck { key, result }, steps)
}
