// Listing the targets that a name covers, and the targets that it may cover.
ghost use Rattle.std.specs.Prelude.{◌≡◌, ℕ, ◌+◌, ◌++◌, ◌∷◌, [], IfOk, OnOk, cond, count_by, filter, length};
ghost use Rattle.name_index.specs.Prelude.{covers, IsLive, IsLower, IsOrder, maybe, SameElements, StepsWithin};
ghost use Rattle.name_index.specs.declared.products.Side.TheVariants as side;
ghost use Rattle.name_index.specs.Index.{FitsTable, ids, is_covered, is_near};
ghost use Rattle.level_board.specs.Targets.{FitsTargets, held, is_loose, is_maybe_target, is_met};
ghost use Rattle.level_board.specs.TargetParts.{ArePartsOf, pairs_of, targets_of};

use crate::target_counts::may_cover;
use crate::target_parts::{Loose, TargetParts};
use cpe_relation::{covers_in_order, deciding_order};
use name_index::{Attribute, Memory, NameId, NameIndex, NameTable, Steps, Wfn};
use std::alloc::Global;
use std::sync::ledger::Ledger;

/// The targets that a name covers, and the targets that it may cover, both in any order.
#[derive(Drop)]
pub struct Met {
    /// The targets that the name covers.
    pub covered: Vec<NameId>,
    /// The targets that the name may cover.
    pub maybe: Vec<NameId>,
}

// Whether a name covers a target. The attributes are compared in the given order.
fn is_covering(order: &[Attribute], name: &Wfn, target: &Wfn) -> bool
    requires { IsOrder order.now }
    ensures { result ≡ covers name.now target.now }
{
    covers_in_order(order, name, target)
}

// Appends a number, if `passes`.
fn push_where(passes: bool, ids: &mut Vec<NameId>, id: NameId) -> Result<(), Memory>
    ensures { OnOk result (ids.new.items ≡ cond passes (ids.old.items ++ id ∷ []) ids.old.items) }
{
    if passes {
        ids.push(id)?;
    }
    Ok(())
}

// Looks at a target, and appends it to the list of covered targets, to the list of targets that may be covered, or to
// neither.
fn push_met<L: Ledger>(
    order: &[Attribute],
    table: &NameTable,
    name: &Wfn,
    target: NameId,
    covered: &mut Vec<NameId>,
    maybes: &mut Vec<NameId>,
    steps: &mut Steps<L>,
) -> Result<(), Memory>
    requires order { IsOrder order.now }
    requires live { IsLive table.now target.0 }
    ensures covered { OnOk result (covered.new.items ≡ cond (is_covered table.now name.now target) (covered.old.items ++ target ∷ []) covered.old.items) }
    ensures maybe { OnOk result (maybes.new.items ≡ cond (is_maybe_target table.now name.now target) (maybes.old.items ++ target ∷ []) maybes.old.items) }
    ensures step { steps.new ≡ steps.old + 1 }
{
    let other = table.look(target, steps);
    push_where(is_covering(order, name, other), covered, target)?;
    push_where(may_cover(name, other), maybes, target)
}

// Lists the targets among those whose product has no special. If the name covers a target or may cover it, the name's
// product covers the target's product.
fn meet_plain<L: Ledger>(
    order: &[Attribute],
    index: &NameIndex,
    table: &NameTable,
    name: &Wfn,
    covered: &mut Vec<NameId>,
    maybes: &mut Vec<NameId>,
    steps: &mut Steps<L>,
) -> Result<(), Memory>
    requires order { IsOrder order.now }
    requires fits { FitsTable index.now.held table.now }
    requires lower { IsLower name.now }
    requires plain { count_by (λ (x : ℕ × ℕ). is_loose table.now x.0) index.now.held ≡ 0 }
    requires none { covered.old.items ≡ [] }
    requires none_maybe { maybes.old.items ≡ [] }
    ensures covered { OnOk result (SameElements (filter (is_covered table.now name.now) (ids index.now.held)) covered.new.items) }
    ensures maybe { OnOk result (SameElements (filter (is_maybe_target table.now name.now) (ids index.now.held)) maybes.new.items) }
    ensures steps { StepsWithin steps.old steps.new (count_by (is_near table.now side.Source name.now.product) (ids index.now.held)) }
{
    cpe_relation::law::relation_laws();
    for target in index.with_covered_product(table, name) {
        push_met(order, table, name, target, covered, maybes, steps)?;
    }
    Ok(())
}

// Lists the targets among those whose product has a special; the name covers none of these.
fn meet_loose<L: Ledger>(
    loose: &[Loose],
    table: &NameTable,
    name: &Wfn,
    maybes: &mut Vec<NameId>,
    steps: &mut Steps<L>,
) -> Result<(), Memory>
    requires { FitsTable (pairs_of loose.now) table.now }
    ensures maybe { OnOk result (maybes.new.items ≡ maybes.old.items ++ filter (is_maybe_target table.now name.now) (ids (pairs_of loose.now))) }
    ensures steps { StepsWithin steps.old steps.new (length loose.now) }
{
    for one in loose {
        let other = table.look(NameId(one.id), steps);
        push_where(may_cover(name, other), maybes, NameId(one.id))?;
    }
    Ok(())
}

// Lists the targets if none is open.
fn meet_whole<L: Ledger>(
    alloc: Global,
    index: &NameIndex,
    table: &NameTable,
    name: &Wfn,
    steps: &mut Steps<L>,
) -> Result<Met, Memory>
    requires fits { FitsTable index.now.held table.now }
    requires lower { IsLower name.now }
    ensures covered { IfOk result (λ m. SameElements (filter (is_covered table.now name.now) (ids index.now.held)) m.covered.items) }
    ensures maybe { IfOk result (λ m. m.maybe.items ≡ []) }
    ensures steps { StepsWithin steps.old steps.new (count_by (is_near table.now side.Source name.now.product) (ids index.now.held)) }
{
    let covered = index.covered_by(alloc, table, name, steps)?;
    Ok(Met {
        covered,
        maybe: Vec::new(alloc),
    })
}

// Lists the targets if some are open.
fn meet_each<L: Ledger>(
    alloc: Global,
    index: &NameIndex,
    loose: &[Loose],
    table: &NameTable,
    name: &Wfn,
    steps: &mut Steps<L>,
) -> Result<Met, Memory>
    requires fits { FitsTable index.now.held table.now }
    requires loose { FitsTable (pairs_of loose.now) table.now }
    requires lower { IsLower name.now }
    requires plain { count_by (λ (x : ℕ × ℕ). is_loose table.now x.0) index.now.held ≡ 0 }
    ensures covered { IfOk result (λ m. SameElements (filter (is_covered table.now name.now) (ids index.now.held)) m.covered.items) }
    ensures maybe { IfOk result (λ m. SameElements (filter (is_maybe_target table.now name.now) (ids (index.now.held ++ pairs_of loose.now))) m.maybe.items) }
    ensures steps { StepsWithin steps.old steps.new (count_by (is_near table.now side.Source name.now.product) (ids index.now.held) + length loose.now) }
{
    let order = deciding_order(alloc, name)?;
    let mut covered = Vec::new(alloc);
    let mut maybes = Vec::new(alloc);
    meet_plain(&order, index, table, name, &mut covered, &mut maybes, steps)?;
    meet_loose(loose, table, name, &mut maybes, steps)?;
    Ok(Met {
        covered,
        maybe: maybes,
    })
}

// The targets that a name covers, and the targets that it may cover.
pub(crate) fn meet<L: Ledger>(
    parts: &TargetParts,
    alloc: Global,
    table: &NameTable,
    name: &Wfn,
    steps: &mut Steps<L>,
) -> Result<Met, Memory>
    requires parts { ArePartsOf parts.now }
    requires fits { FitsTargets (targets_of parts.now) table.now }
    requires lower { IsLower name.now }
    ensures covered { IfOk result (λ m. SameElements (filter (is_covered table.now name.now) (ids (held (targets_of parts.now)))) m.covered.items) }
    ensures maybe { IfOk result (λ m. SameElements (filter (is_maybe_target table.now name.now) (ids (held (targets_of parts.now)))) m.maybe.items) }
    ensures steps { StepsWithin steps.old steps.new (count_by (is_met table.now name.now.product) (ids (held (targets_of parts.now)))) }
{
    cpe_relation::law::maybe_laws();
    if parts.opens == 0 {
        return meet_whole(alloc, &parts.plain, table, name, steps);
    }
    meet_each(alloc, &parts.plain, &parts.loose, table, name, steps)
}
