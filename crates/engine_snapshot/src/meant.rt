// The deprecations that places of entries mean, once an engine has these entries as active ones.
ghost use Rattle.std.specs.Prelude.{◌≡◌, IfErr, IfOk, List as Items, None, Option as Perhaps, Some, length, map};
ghost use Rattle.cpe_rows.specs.Prelude.{IsLawful, Values};
ghost use Rattle.cpe_rows.specs.declared.entry.Deprecation.{Deprecation as DeprecationRow};
ghost use Rattle.cpe_engine.specs.Adopting.{IsBare, with_deprecations};
ghost use Rattle.snapshot_bytes.specs.States.{AreNamed, IsMeantDeprecation};
ghost use Rattle.engine_snapshot.specs.Meant.{AreGiven, AreMeantDeprecations, entry_name_in, undeprecated};

use crate::boxed::BoxedDeprecation;
use crate::puts::load_fault;
use crate::runs::PlacedDeprecations;
use cpe_engine::Engine;
use cpe_rows::{Deprecation, List, Wfn};
use snapshot_bytes::{LoadFault, PlacedDeprecation};
use std::alloc::Global;

// A copy of the name of the entry at this place.
fn name_at(alloc: Global, engine: &Engine, place: u32) -> Result<Wfn, LoadFault>
    ensures named { IfOk result (λ n. entry_name_in engine.now.entries place ≡ Some n) }
    ensures refused { IfErr result (λ f. f ≡ LoadFault.NotSnapshot → entry_name_in engine.now.entries place ≡ None) }
{
    match engine.entry_at(place as usize) {
        Some(entry) => match entry.name.copy(alloc) {
            Ok(name) => Ok(name),
            Err(_) => Err(LoadFault::Memory),
        },
        None => Err(LoadFault::NotSnapshot),
    }
}

// Copies of the names of the entries at these places, in this order.
fn names_at(alloc: Global, engine: &Engine, places: &[u32]) -> Result<List<Wfn>, LoadFault>
    ensures named { IfOk result (λ ns. AreNamed (map undeprecated engine.now.entries) places.now ns) }
    ensures refused { IfErr result (λ f. f ≡ LoadFault.NotSnapshot → (ns : Items Values) → AreNamed (map undeprecated engine.now.entries) places.now ns → ⊥) }
{
    let mut names = List::with_room(alloc, places.len())?;
    for place in places {
        let name = name_at(alloc, engine, *place)?;
        names.push(name)?;
    }
    Ok(names)
}

fn deprecation_of(
    alloc: Global,
    engine: &Engine,
    placed: &PlacedDeprecation,
) -> Result<Deprecation, LoadFault>
    ensures meant { IfOk result (λ d. IsMeantDeprecation (map undeprecated engine.now.entries) (Some placed.now) (Some d)) }
    ensures refused { IfErr result (λ f. f ≡ LoadFault.NotSnapshot → (d : DeprecationRow) → IsMeantDeprecation (map undeprecated engine.now.entries) (Some placed.now) (Some d) → ⊥) }
{
    let successors = names_at(alloc, engine, placed.successors.as_slice())?;
    Ok(Deprecation {
        kind: placed.kind,
        successors,
    })
}

// The deprecation of an entry, if it has one, with names in place of places.
fn meant_at(
    alloc: Global,
    engine: &Engine,
    placed: &Option<BoxedDeprecation>,
) -> Result<Option<Deprecation>, LoadFault>
    ensures meant { IfOk result (λ d. IsMeantDeprecation (map undeprecated engine.now.entries) placed.now d) }
    ensures refused { IfErr result (λ f. f ≡ LoadFault.NotSnapshot → (d : Perhaps DeprecationRow) → IsMeantDeprecation (map undeprecated engine.now.entries) placed.now d → ⊥) }
{
    match placed {
        Some(placed) => match deprecation_of(alloc, engine, placed.as_placed()) {
            Ok(deprecation) => Ok(Some(deprecation)),
            Err(fault) => Err(fault),
        },
        None => Ok(None),
    }
}

// The deprecations of all entries, in their order. Each successor is given by its name instead of its place.
fn deprecations_of(
    alloc: Global,
    engine: &Engine,
    all: &[Option<BoxedDeprecation>],
) -> Result<List<Option<Deprecation>>, LoadFault>
    ensures meant { IfOk result (λ ds. AreMeantDeprecations (map undeprecated engine.now.entries) all.now ds) }
    ensures refused { IfErr result (λ f. f ≡ LoadFault.NotSnapshot → (ds : Items (Perhaps DeprecationRow)) → AreMeantDeprecations (map undeprecated engine.now.entries) all.now ds → ⊥) }
{
    let mut deprecations = List::with_room(alloc, all.len())?;
    for placed in all {
        let deprecation = meant_at(alloc, engine, placed)?;
        deprecations.push(deprecation)?;
    }
    Ok(deprecations)
}

// The deprecations of all entries, in their order. Each successor is given by its name instead of its place. The list
// with places is dropped.
fn named_in(
    alloc: Global,
    engine: &Engine,
    all: List<Option<BoxedDeprecation>>,
) -> Result<List<Option<Deprecation>>, LoadFault>
    ensures meant { IfOk result (λ ds. AreMeantDeprecations (map undeprecated engine.now.entries) all ds) }
    ensures refused { IfErr result (λ f. f ≡ LoadFault.NotSnapshot → (ds : Items (Perhaps DeprecationRow)) → AreMeantDeprecations (map undeprecated engine.now.entries) all ds → ⊥) }
{
    let deprecations = deprecations_of(alloc, engine, all.as_slice());
    drop(all);
    deprecations
}

// The deprecations of all entries, in their order. Each successor is given by its name instead of its place. In `all`,
// entries without one are only counted.
fn named(
    alloc: Global,
    engine: &Engine,
    all: PlacedDeprecations,
) -> Result<List<Option<Deprecation>>, LoadFault>
    ensures meant { IfOk result (λ ds. AreMeantDeprecations (map undeprecated engine.now.entries) all ds) }
    ensures refused { IfErr result (λ f. f ≡ LoadFault.NotSnapshot → (ds : Items (Perhaps DeprecationRow)) → AreMeantDeprecations (map undeprecated engine.now.entries) all ds → ⊥) }
{
    match all.into_list(alloc) {
        Ok(each) => named_in(alloc, engine, each),
        Err(_) => Err(LoadFault::Memory),
    }
}

// Drops an engine that has only some of the rows, and returns the given fault.
fn discard(engine: Engine, fault: LoadFault) -> LoadFault
    ensures { result ≡ fault }
{
    engine.discard();
    fault
}

// The engine after its entries get these deprecations.
fn deprecate_all(
    engine: Engine,
    deprecations: List<Option<Deprecation>>,
) -> Result<Engine, LoadFault>
    requires bare { IsBare engine }
    requires even { length deprecations ≡ length engine.entries }
    ensures ok { IfOk result (λ e. e ≡ with_deprecations engine deprecations) }
    ensures refused { IfErr result (λ f. f ≡ LoadFault.NotSnapshot → IsLawful (with_deprecations engine deprecations) → ⊥) }
{
    match engine.deprecate_all(deprecations) {
        Ok(engine) => Ok(engine),
        Err(fault) => Err(load_fault(fault)),
    }
}

/// The engine after its active entries get the deprecations that `all` means, one or none for each entry. If no entry
/// has a deprecation, the engine is returned at once.
///
/// # Errors
/// `NotSnapshot` if some place has no entry, or if the rows aren't lawful; or that memory ran out.
pub(crate) fn give_all(
    alloc: Global,
    engine: Engine,
    all: PlacedDeprecations,
) -> Result<Engine, LoadFault>
    requires bare { IsBare engine }
    requires even { length all ≡ length engine.entries }
    ensures ok { IfOk result (AreGiven engine all) }
    ensures refused { IfErr result (λ f. f ≡ LoadFault.NotSnapshot → (ds : Items (Perhaps DeprecationRow)) → AreMeantDeprecations (map undeprecated engine.entries) all ds → IsLawful (with_deprecations engine ds) → ⊥) }
{
    if all.are_none() {
        drop(all);
        return Ok(engine);
    }
    match named(alloc, &engine, all) {
        Ok(deprecations) => deprecate_all(engine, deprecations),
        Err(fault) => Err(discard(engine, fault)),
    }
}
