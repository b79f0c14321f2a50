// The targets of a board, by product. A target is open if its name has a special. No name covers an open target, but a
// name may cover it. Targets whose product has no special are in an index by product. Targets whose product has a
// special are in a list. Every search visits the whole list, because each product meets these targets.
ghost use Rattle.std.specs.Prelude.{◌≡◌, ℕ, ◌<◌, ◌≤◌, filter, length, Some, IfOk, OnOk, count_by};
ghost use Rattle.name_index.specs.Prelude.{IsLower, SameElements, StepsWithin};
ghost use Rattle.name_index.specs.Table.{Names, Kept, find_kept, IsLive};
ghost use Rattle.name_index.specs.Index.{ids, is_covered, times_held};
ghost use Rattle.level_board.specs.TargetMoved.{AddsTarget, IsOneLess, MayAddTarget};
ghost use Rattle.level_board.specs.Targets.{AreNone, FitsTargets, SameTargets, held, is_maybe_target, is_met, covered_pairs, maybe_pairs};

use crate::meeting::{Met, meet};
use crate::target_counts::TargetCounts;
use crate::target_parts::TargetParts;
use name_index::{Memory, NameId, NameTable, Steps, Wfn};
use std::alloc::Global;
use std::marker::Model;
use std::sync::ledger::Ledger;

/// A set of the numbers of targets, each with the number of its product.
#[derive(Drop)]
pub struct TargetIndex {
    parts: TargetParts,
}

impl Model for TargetIndex {
    ghost use Rattle.level_board.specs.Targets.{Targets};
    ghost use Rattle.level_board.specs.TargetParts.{ArePartsOf, targets_of};

    ghost Value = { Targets };

    ghost view = { λ a. targets_of a.parts };

    ghost invariant = { λ a. ArePartsOf a.parts };
}

impl TargetIndex {
    // An index without targets. Allocates: no.
    pub(crate) fn new(alloc: Global) -> TargetIndex
        ensures none { AreNone result }
        ensures fits { (names : Names) → FitsTargets result names }
    {
        TargetIndex {
            parts: TargetParts::new(alloc),
        }
    }

    // Makes room for `n` numbers more. Afterwards `wide` is above the product number of each live name.
    //
    // # Errors
    // Only that memory ran out; the targets are then unchanged.
    pub(crate) fn reserve(&mut self, table: &NameTable, n: u32) -> Result<(), Memory>
        ensures same { SameTargets self.old self.new }
        ensures spare { OnOk result (n ≤ self.new.spare) }
        ensures wide { OnOk result ((id : ℕ) (k : Kept) → find_kept table.now id ≡ Some k → k.product < self.new.wide) }
    {
        self.parts.reserve(table, n)
    }

    // Adds a live number that the index doesn't hold yet. Allocates: no.
    pub(crate) fn add(&mut self, table: &NameTable, id: NameId)
        requires { MayAddTarget self.old table.now id.0 }
        ensures { AddsTarget self.old self.new table.now id.0 }
    {
        self.parts.add(table, id);
    }

    // Removes a number that the index holds. Allocates: no.
    pub(crate) fn drop_name(&mut self, table: &NameTable, id: NameId)
        requires held { 1 ≤ times_held (held self.old) id.0 }
        requires live { IsLive table.now id.0 }
        requires fits { FitsTargets self.old table.now }
        ensures { IsOneLess self.old self.new table.now id.0 }
    {
        self.parts.drop_name(table, id);
    }

    /// Law: no number is held twice.
    pub fn lawful(&self)
        ensures { (id : ℕ) → times_held (held self.now) id ≤ 1 }
    {
        let _parts = &self.parts;
    }

    // How many targets a name covers, and how many it may cover. Looks once at each target whose product the name's
    // product meets, and at no other target. Allocates: no.
    pub(crate) fn count<L: Ledger>(
        &self,
        table: &NameTable,
        name: &Wfn,
        steps: &mut Steps<L>,
    ) -> TargetCounts
        requires fits { FitsTargets self.now table.now }
        requires lower { IsLower name.now }
        requires few { length (held self.now) < 4294967296 }
        ensures covered { result.covered ≡ covered_pairs table.now name.now (held self.now) }
        ensures maybe { result.maybe ≡ maybe_pairs table.now name.now (held self.now) }
        ensures steps { StepsWithin steps.old steps.new (count_by (is_met table.now name.now.product) (ids (held self.now))) }
    {
        self.parts.count(table, name, steps)
    }

    /// The targets that a name covers, and the targets that it may cover, both in any order. Looks at no target twice,
    /// and only at targets whose product the name's product meets.
    ///
    /// # Errors
    /// Only that memory ran out. The bound on steps holds then, too.
    pub fn met<L: Ledger>(
        &self,
        alloc: Global,
        table: &NameTable,
        name: &Wfn,
        steps: &mut Steps<L>,
    ) -> Result<Met, Memory>
        requires fits { FitsTargets self.now table.now }
        requires lower { IsLower name.now }
        ensures covered { IfOk result (λ m. SameElements (filter (is_covered table.now name.now) (ids (held self.now))) m.covered.items) }
        ensures maybe { IfOk result (λ m. SameElements (filter (is_maybe_target table.now name.now) (ids (held self.now))) m.maybe.items) }
        ensures steps { StepsWithin steps.old steps.new (count_by (is_met table.now name.now.product) (ids (held self.now))) }
    {
        meet(&self.parts, alloc, table, name, steps)
    }
}
