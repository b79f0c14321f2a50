// The names to which names lead, and the first item that a name covers or may cover by the names to which both lead.
ghost use Rattle.std.specs.Prelude.{◌≡◌, ◌∷◌, [], ℕ, IfOk, find, map, true, option_copied};
ghost use Rattle.std.specs.List.{AllByRecursion, filter_map, list_any};
ghost use Rattle.cpe_rows.specs.Prelude.{ends, is_followed, IsLower, Rows};
ghost use Rattle.name_index.specs.Table.{IsLive};
ghost use Rattle.engine_edits.specs.fact_laws.Asked.{leads};
ghost use Rattle.engine_edits.specs.fact_laws.Shown.{names_at};
ghost use Rattle.verdicts.specs.name_registry.Registered.{AreRegistryNames, name_in};
ghost use Rattle.verdicts.specs.Items.{AreItemsTo};
ghost use Rattle.verdicts.specs.Rows.{AreOfRows};
ghost use Rattle.certificate_search.specs.certificate_check.Leading.{followed};
ghost use Rattle.certificate_search.specs.certificate_check.Relates.{related};
ghost use Rattle.cpe_engine.specs.Shown.{AreShown};

use certificate_search::Relates;
use cpe_rows::{Memory, Mode, Wfn};
use engine_edits::ItemSlots;
use name_index::NameId;
use std::alloc::Global;
use verdicts::{Registry, Verdicts};

fn alone<'a>(alloc: Global, name: &'a Wfn) -> Result<Vec<&'a Wfn>, Memory>
    ensures { IfOk result (λ names. map (λ n. n.now) names.items ≡ name.now ∷ []) }
{
    let mut names = Vec::with_capacity(alloc, 1)?;
    names.push(name)?;
    Ok(names)
}

fn names_of<'a>(
    registry: &'a Registry,
    alloc: Global,
    ids: &[NameId],
) -> Result<Vec<&'a Wfn>, Memory>
    requires { AreRegistryNames registry.now.table ids.now }
    ensures { IfOk result (λ names. map (λ n. n.now) names.items ≡ names_at registry.now.table ids.now) }
{
    let mut names = Vec::with_capacity(alloc, ids.len())?;
    for id in ids {
        names.push(registry.name(*id))?;
    }
    Ok(names)
}

fn numbered_ends<'a>(
    registry: &'a Registry,
    alloc: Global,
    id: NameId,
) -> Result<Vec<&'a Wfn>, Memory>
    requires { IsLive registry.now.table id.0 }
    ensures { IfOk result (λ names. map (λ n. n.now) names.items ≡ ends registry.now.entries (name_in registry.now.table id)) }
{
    let ids = registry.ends_of(alloc, id)?;
    names_of(registry, alloc, &ids)
}

/// The ends of a name, in the order of their entries.
///
/// # Errors
/// Only that memory ran out.
pub(crate) fn ends_of<'a>(
    registry: &'a Registry,
    alloc: Global,
    name: &'a Wfn,
) -> Result<Vec<&'a Wfn>, Memory>
    ensures { IfOk result (λ names. map (λ n. n.now) names.items ≡ ends registry.now.entries name.now) }
{
    cpe_rows::law::absent_names_are_alone();
    match registry.find(name) {
        Some(id) => numbered_ends(registry, alloc, id),
        None => alone(alloc, name),
    }
}

fn relates_to_one(relates: Relates, name: &Wfn, others: &[&Wfn]) -> bool
    ensures { result ≡ list_any (λ other. related relates name.now other.now) others.now }
{
    others.iter().any(|other| relates.holds(name, *other))
}

fn one_relates(relates: Relates, names: &[&Wfn], others: &[&Wfn]) -> bool
    ensures { result ≡ list_any (λ name. list_any (λ other. related relates name.now other.now) others.now) names.now }
{
    names
        .iter()
        .any(|name| relates_to_one(relates, *name, others))
}

// Whether one of these names covers an end of an item, or may cover it, as `relates` says.
fn is_met(
    registry: &Registry,
    alloc: Global,
    relates: Relates,
    fact_ends: &[&Wfn],
    item: &Wfn,
) -> Result<bool, Memory>
    ensures { IfOk result (λ met. met ≡ list_any (λ name. list_any (related relates name) (ends registry.now.entries item.now)) (map (λ n. n.now) fact_ends.now)) }
{
    let item_ends = ends_of(registry, alloc, item)?;
    Ok(one_relates(relates, fact_ends, &item_ends))
}

/// The first item with an end that some end of the name covers or may cover, as `relates` says. It compares the items
/// one by one.
///
/// # Errors
/// Only that memory ran out.
pub(crate) fn first_followed<'t>(
    registry: &Registry,
    alloc: Global,
    slots: &ItemSlots<'t>,
    relates: Relates,
    name: &Wfn,
) -> Result<Option<&'t Wfn>, Memory>
    ensures { IfOk result (λ item. option_copied item ≡ find (is_followed (related relates) registry.now.entries name.now) (filter_map (λ slot. slot) slots.now)) }
{
    let fact_ends = ends_of(registry, alloc, name)?;
    for slot in 0..slots.len() {
        if let Some(item) = slots.at(slot) {
            if is_met(registry, alloc, relates, &fact_ends, item)? {
                return Ok(Some(item));
            }
        }
    }
    Ok(None)
}

// The names to which a name leads in a mode: itself in mode `plain`, its ends in mode `follow`.
fn leads_of<'a>(
    registry: &'a Registry,
    alloc: Global,
    mode: Mode,
    name: &'a Wfn,
) -> Result<Vec<&'a Wfn>, Memory>
    ensures { IfOk result (λ names. map (λ n. n.now) names.items ≡ leads registry.now.entries mode name.now) }
{
    match mode {
        Mode::Plain => alone(alloc, name),
        Mode::Follow => ends_of(registry, alloc, name),
    }
}

// The items that lead, in a mode, to a name that this name covers or may cover, as `relates` says. This name is in
// lower case.
fn items_shown(
    registry: &Registry,
    verdicts: &Verdicts,
    alloc: Global,
    relates: Relates,
    mode: Mode,
    name: &Wfn,
) -> Result<Vec<NameId>, Memory>
    requires lower { IsLower name.now }
    requires rows_before { (rows : Rows) × AreOfRows registry.now verdicts.now rows }
    ensures live { IfOk result (λ v. AreRegistryNames registry.now.table v.items) }
    ensures items { (rows : Rows) → AreOfRows registry.now verdicts.now rows → IfOk result (λ v. AreItemsTo rows mode (related relates name.now) (names_at registry.now.table v.items)) }
{
    match relates {
        Relates::Covers => verdicts.items_covered(alloc, registry, mode, name),
        Relates::MayCover => verdicts.items_maybe(alloc, registry, mode, name),
    }
}

// The items that lead, in a mode, to a name that some of these names covers or may cover, as `relates` says. These
// names are in lower case.
fn all_shown(
    registry: &Registry,
    verdicts: &Verdicts,
    alloc: Global,
    relates: Relates,
    mode: Mode,
    names: &[&Wfn],
) -> Result<Vec<NameId>, Memory>
    requires lower { AllByRecursion IsLower (map (λ n. n.now) names.now) }
    requires rows_before { (rows : Rows) × AreOfRows registry.now verdicts.now rows }
    ensures live { IfOk result (λ v. AreRegistryNames registry.now.table v.items) }
    ensures items { (rows : Rows) → AreOfRows registry.now verdicts.now rows → IfOk result (λ v. AreShown rows mode relates (map (λ n. n.now) names.now) (names_at registry.now.table v.items)) }
{
    let mut all = Vec::new(alloc);
    for name in names {
        let items = items_shown(registry, verdicts, alloc, relates, mode, *name)?;
        all.extend_from_slice(&items)?;
    }
    Ok(all)
}

/// The first item that a name covers or may cover in a mode, as `relates` says: some name to which the name leads is so
/// related to some name to which the item leads. The name is in lower case. The item is found by products.
///
/// # Errors
/// Only that memory ran out.
pub(crate) fn first_shown<'a>(
    registry: &'a Registry,
    verdicts: &Verdicts,
    alloc: Global,
    relates: Relates,
    mode: Mode,
    name: &Wfn,
) -> Result<Option<&'a Wfn>, Memory>
    requires lower { IsLower name.now }
    requires rows_before { (rows : Rows) × AreOfRows registry.now verdicts.now rows }
    ensures { (rows : Rows) → AreOfRows registry.now verdicts.now rows → IfOk result (λ item. option_copied item ≡ find (is_followed (related relates) (followed rows mode) name.now) rows.items) }
{
    let names = leads_of(registry, alloc, mode, name)?;
    let items = all_shown(registry, verdicts, alloc, relates, mode, &names)?;
    Ok(registry.first_item_of(&items))
}
