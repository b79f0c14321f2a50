// Rows that are added to an engine as they are read, one at a time.
ghost use Rattle.std.specs.Prelude.{◌≡◌, ◌++◌, ◌∷◌, [], IfErr, OnOk, true};
ghost use Rattle.cpe_rows.specs.Prelude.{after, is_lower, is_valid_edit, IsLawful};
ghost use Rattle.engine_snapshot.specs.Begun.{AreFine, IsLawfulEdit, with_items, with_statements};
ghost use Rattle.engine_snapshot.specs.Read.{NotAfter, with_placed, with_results};

use crate::edits::{add_check, make, make_valid};
use crate::runs::PlacedDeprecations;
use cpe_engine::{AdoptFault, Engine, Steps};
use cpe_rows::{Edit, Entry, Statement, Wfn};
use snapshot_bytes::{KeptResult, LoadFault, PlacedDeprecation, PlacedEntry};
use std::alloc::Global;
use std::sync::ledger::Ledger;

/// The fault of the snapshot whose rows have this fault.
pub(crate) fn load_fault(fault: AdoptFault) -> LoadFault
    ensures { result ≡ LoadFault.NotSnapshot → fault ≡ AdoptFault.Unlawful }
{
    match fault {
        AdoptFault::Unlawful => LoadFault::NotSnapshot,
        AdoptFault::Memory => LoadFault::Memory,
    }
}

// Makes an edit that is valid.
fn put<L: Ledger>(engine: &mut Engine, edit: Edit, steps: &mut Steps<L>) -> Result<(), LoadFault>
    requires { is_valid_edit edit ≡ true }
    ensures ok { OnOk result (engine.new ≡ after engine.old edit) }
    ensures refused { IfErr result (λ f. f ≡ LoadFault.NotSnapshot → IsLawfulEdit engine.old edit → ⊥) }
{
    match make_valid(engine, edit, steps) {
        Ok(()) => Ok(()),
        Err(fault) => Err(load_fault(fault)),
    }
}

// Drops the deprecation of an entry that isn't added, and returns the given fault.
fn discard(deprecation: Option<PlacedDeprecation>, fault: LoadFault) -> LoadFault
    ensures { result ≡ fault }
{
    drop(deprecation);
    fault
}

/// Adds an entry at the end as an active one, and its deprecation at the end of the list of deprecations. Its name is
/// in lower case: names are read so.
pub(crate) fn put_entry<L: Ledger>(
    alloc: Global,
    engine: &mut Engine,
    deprecations: &mut PlacedDeprecations,
    placed: PlacedEntry,
    steps: &mut Steps<L>,
) -> Result<(), LoadFault>
    requires { is_lower placed.name ≡ true }
    ensures ok { OnOk result (engine.new ≡ with_placed engine.old (placed ∷ [])) }
    ensures deprecation { OnOk result (deprecations.new ≡ deprecations.old ++ placed.deprecation ∷ []) }
    ensures refused { IfErr result (NotAfter with_placed AreFine engine.old placed) }
{
    let PlacedEntry {
        name,
        title,
        provenance,
        deprecation,
    } = placed;
    let entry = Entry {
        name,
        title,
        provenance,
        deprecation: None,
    };
    match put(engine, Edit::Entry(entry), steps) {
        Ok(()) => match deprecations.push(alloc, deprecation) {
            Ok(()) => Ok(()),
            Err(_) => Err(LoadFault::Memory),
        },
        Err(fault) => Err(discard(deprecation, fault)),
    }
}

/// Adds an item at the end. Its name is in lower case: names are read so.
pub(crate) fn put_item<L: Ledger>(
    engine: &mut Engine,
    name: Wfn,
    steps: &mut Steps<L>,
) -> Result<(), LoadFault>
    requires { is_lower name ≡ true }
    ensures ok { OnOk result (engine.new ≡ with_items engine.old (name ∷ [])) }
    ensures refused { IfErr result (NotAfter with_items IsLawful engine.old name) }
{
    put(engine, Edit::Item(name), steps)
}

/// Adds a statement at the end.
pub(crate) fn put_statement<L: Ledger>(
    engine: &mut Engine,
    statement: Statement,
    steps: &mut Steps<L>,
) -> Result<(), LoadFault>
    ensures ok { OnOk result (engine.new ≡ with_statements engine.old (statement ∷ [])) }
    ensures refused { IfErr result (NotAfter with_statements IsLawful engine.old statement) }
{
    match make(engine, Edit::PutStatement(statement), steps) {
        Ok(()) => Ok(()),
        Err(fault) => Err(load_fault(fault)),
    }
}

/// Adds the result of a check at the end, if none is kept for its key.
pub(crate) fn put_result<L: Ledger>(
    engine: &mut Engine,
    kept: KeptResult,
    steps: &mut Steps<L>,
) -> Result<(), LoadFault>
    ensures ok { OnOk result (engine.new ≡ with_results engine.old (kept ∷ [])) }
    ensures refused { IfErr result (NotAfter with_results IsLawful engine.old kept) }
{
    match add_check(engine, kept, steps) {
        Ok(()) => Ok(()),
        Err(fault) => Err(load_fault(fault)),
    }
}
